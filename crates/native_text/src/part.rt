// Parts of strings and places in them.
ghost use Rattle.std.specs.Prelude.{◌≡◌, ◌≤◌, ◌++◌, length, drop, nat_eq, IfOk};
ghost use Rattle.native_base.specs.Plan.{makes};
ghost use Rattle.std.specs.List.{starts_with};
ghost use Rattle.native_base.specs.Planned.{planned};
ghost use Rattle.dart_ir.specs.Object.{text};
ghost use Rattle.native_text.specs.Text as spec;

use dart_base::units::Units;
use dart_ir::kind::ThrowKind;
use dart_ir::object::Object;
use native_base::argument::place;
use native_base::plan::{Planned, number, throw};
use std::alloc::{AllocError, Global};
use std::cmp::Ordering;

/// The text as a new string.
pub fn new_text(alloc: Global, units: &[u16]) -> Result<Planned, AllocError>
    ensures { IfOk result (λ plan. planned plan ≡ makes (text units.now)) }
{
    Ok(Planned::Makes(Object::Text(Units::from_slice(alloc, units)?)))
}

/// Both texts as a new string.
pub fn joined(alloc: Global, first: &[u16], second: &[u16]) -> Result<Planned, AllocError>
    ensures { IfOk result (λ plan. planned plan ≡ makes (text (first.now ++ second.now))) }
{
    let mut units = Units::from_slice(alloc, first)?;
    units.append(second)?;
    Ok(Planned::Makes(Object::Text(units)))
}

/// The unit at a place as a string.
pub fn unit_text(alloc: Global, units: &[u16], index: i128) -> Result<Planned, AllocError>
    ensures { IfOk result (λ plan. planned plan ≡ spec.unit_text units.now index) }
{
    match place(units.len(), index) {
        Some(at) => new_text(alloc, &[units[at]]),
        None => Ok(throw(ThrowKind::RangeError)),
    }
}

/// The unit at a place as a number.
pub fn code_unit(units: &[u16], index: i128) -> Planned
    ensures { planned result ≡ spec.code_unit units.now index }
{
    match place(units.len(), index) {
        Some(at) => number(units[at] as i128),
        None => throw(ThrowKind::RangeError),
    }
}

/// The character of a code: one unit, or two above FFFF.
pub fn text_of_code(alloc: Global, code: i128) -> Result<Planned, AllocError>
    ensures { IfOk result (λ plan. planned plan ≡ spec.text_of_code code) }
{
    match place(0x11_0000, code) {
        None => Ok(throw(ThrowKind::RangeError)),
        Some(unit) => {
            if unit < 0x1_0000 {
                return new_text(alloc, &[unit as u16]);
            }
            let rest = unit - 0x1_0000;
            new_text(
                alloc,
                &[
                    (0xD800 + rest / 0x400) as u16,
                    (0xDC00 + rest % 0x400) as u16,
                ],
            )
        }
    }
}

/// The places where a part begins and ends, or `None` where they aren't 0 ≤ start ≤ end ≤ length.
pub fn part_range(length: usize, start: i128, end: i128) -> Option<(usize, usize)>
    ensures { result ≡ spec.part_range length start end }
{
    if start < 0 || start > end || end > length as i128 {
        return None;
    }
    Some((start as usize, end as usize))
}

/// The units from one place to another as a string.
pub fn part(alloc: Global, units: &[u16], start: i128, end: i128) -> Result<Planned, AllocError>
    ensures { IfOk result (λ plan. planned plan ≡ spec.part units.now start end) }
{
    match part_range(units.len(), start, end) {
        Some((from, to)) => new_text(alloc, &units[from..to]),
        None => Ok(throw(ThrowKind::RangeError)),
    }
}

// Whether a text stands in another from a place on.
fn stands_at(sought: &[u16], units: &[u16], at: usize) -> bool
    requires { at ≤ length units.now }
    ensures { result ≡ starts_with nat_eq (drop at units.now) sought.now }
{
    units[at..].starts_with(sought)
}

// The least place from which a text stands in another.
fn first_place(sought: &[u16], units: &[u16]) -> Option<usize>
    ensures { result ≡ spec.first_place sought.now units.now }
{
    for at in 0..units.len() {
        if stands_at(sought, units, at) {
            return Some(at);
        }
    }
    if sought.is_empty() {
        return Some(units.len());
    }
    None
}

/// The least place from which a text stands in another, not before the start, or -1.
pub fn index_of(units: &[u16], sought: &[u16], start: i128) -> Planned
    ensures { planned result ≡ spec.index_of units.now sought.now start }
{
    match place(units.len() + 1, start) {
        None => throw(ThrowKind::RangeError),
        Some(from) => match first_place(sought, &units[from..]) {
            Some(at) => number(from as i128 + at as i128),
            None => number(-1),
        },
    }
}

/// -1, 0 or 1, by the first units that differ.
pub fn order(units: &[u16], other: &[u16]) -> i128
    ensures { result ≡ spec.order units.now other.now }
{
    match units.cmp(&other) {
        Ordering::Less => -1,
        Ordering::Equal => 0,
        Ordering::Greater => 1,
    }
}
