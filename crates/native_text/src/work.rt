// The units that the natives of strings make.
ghost use Rattle.std.specs.Prelude.{◌≡◌, ◌++◌};
ghost use Rattle.dart_ir.specs.Object.{text as new_string};
ghost use Rattle.dart_ir.specs.declared.kind.ThrowKind.TheVariants.{ArgumentError};
ghost use Rattle.native_base.specs.Plan.{makes, needs, work, text_at as spec_text_at};
ghost use Rattle.native_text.specs.Text as spec;

use crate::part::part_range;
use dart_base::units::Units;
use dart_ir::native::NativeId;
use dart_ir::value::Value;
use dart_store::store::Store;
use native_base::argument::{number_or, place, text_at};
use native_number::number::number_of;

// One unit for a place within the string.
fn index_work(units: &[u16], x: Option<i128>) -> u128
    ensures { result ≡ work (needs ArgumentError x (spec.unit_text units.now)) }
{
    match x {
        Some(index) => match place(units.len(), index) {
            Some(_) => 1,
            None => 0,
        },
        None => 0,
    }
}

// One unit for a code, or two above FFFF.
fn code_work(x: Option<i128>) -> u128
    ensures { result ≡ work (needs ArgumentError x spec.text_of_code) }
{
    match x {
        Some(code) => match place(0x11_0000, code) {
            Some(unit) => { if unit < 0x1_0000 { 1 } else { 2 } }
            None => 0,
        },
        None => 0,
    }
}

// The units of both strings.
fn add_work(literals: &[Units], store: &Store, units: &[u16], x: Value) -> u128
    ensures { result ≡ work (needs ArgumentError (spec_text_at literals.now store.now x) (λ t. makes (new_string (units.now ++ t)))) }
{
    match text_at(literals, store, x) {
        Some(other) => units.len() as u128 + other.len() as u128,
        None => 0,
    }
}

// The units from one place to another.
fn part_work(units: &[u16], start: i128, end: i128) -> u128
    ensures { result ≡ work (spec.part units.now start end) }
{
    match part_range(units.len(), start, end) {
        Some((from, to)) => (to - from) as u128,
        None => 0,
    }
}

fn substring_work(units: &[u16], x: Option<i128>, y: Option<i128>) -> u128
    ensures { result ≡ work (needs ArgumentError x (λ i. needs ArgumentError y (spec.part units.now i))) }
{
    match (x, y) {
        (Some(start), Some(end)) => part_work(units, start, end),
        _ => 0,
    }
}

// The units that a native makes whose first argument is a string of these units.
#[tactic(auto, using(crate::proofs::NoWork::no_work))]
fn of_text_work(
    native: NativeId,
    literals: &[Units],
    store: &Store,
    units: &[u16],
    x: Value,
    y: Value,
) -> u128
    ensures { result ≡ work (spec.of_text native (spec_text_at literals.now store.now) units.now x y) }
{
    match native {
        NativeId::StringIndex => index_work(units, number_of(x)),
        NativeId::StringAdd => add_work(literals, store, units, x),
        NativeId::StringSubstring => {
            let end = number_or(units.len() as i128, y);
            substring_work(units, number_of(x), end)
        }
        _ => 0,
    }
}

/// The units that a native of strings makes for its first argument and two more; none where it throws. Takes no memory.
pub fn text_work(
    native: NativeId,
    literals: &[Units],
    store: &Store,
    this: Value,
    x: Value,
    y: Value,
) -> u128
    ensures { result ≡ work (spec.text_native native literals.now store.now this x y) }
{
    match native {
        NativeId::StringFromCharCode => code_work(number_of(this)),
        _ => match text_at(literals, store, this) {
            Some(units) => of_text_work(native, literals, store, units, x, y),
            None => 0,
        },
    }
}
