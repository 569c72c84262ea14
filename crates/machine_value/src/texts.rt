// Strings and names.
ghost use Rattle.std.specs.Prelude.{true, false, ◌≡◌, ◌<◌, ◌+◌, ◌++◌, Some, None, option_map, if◌then◌else◌, take_while, not, nat_eq, IfOk, MatchOption};
ghost use Rattle.machine_lookup.specs.Rows.{last_of, but_last};
ghost use Rattle.evaluation.specs.Values.{units_of, shown_name, ending_in};
ghost use Rattle.evaluation.specs.Creation.{behind, joined, join};
ghost use Rattle.machine_frame.specs.Outside.{setting_of, world_in};
ghost use Rattle.machine_frame.specs.Frames.{seen, going, does_row, room, work};

use crate::errors::throw_new;
use crate::objects::place;
use dart_base::name::Name;
use dart_base::names::Names;
use dart_base::place::Place;
use dart_base::units::Units;
use dart_ir::kind::ThrowKind;
use dart_ir::object::Object;
use dart_ir::value::Value;
use dart_store::view::ObjectView;
use machine_frame::around::{Around, Fault};
use machine_frame::run::{Control, Run};
use machine_lookup::row::{cut, last_of};
use std::alloc::Global;

/// Adds the units of a string to others, and says whether it is one.
pub fn append_text(run: &Run, a: Around, value: Value, units: &mut Units) -> Result<bool, Fault>
    ensures text { IfOk result (λ is_text. is_text ≡ true → behind (Some units.old) (units_of (setting_of a.entry) run.now.store value) ≡ Some units.new) }
    ensures other { IfOk result (λ is_text. is_text ≡ false → units_of (setting_of a.entry) run.now.store value ≡ None) }
{
    match value {
        Value::Literal(number) => match a.program.core().literals.get(number as usize) {
            None => Ok(false),
            Some(text) => {
                units.append(text.as_slice())?;
                Ok(true)
            }
        },
        Value::At(r) => match run.store.get(r) {
            Some(ObjectView::Text(text)) => {
                units.append(text)?;
                Ok(true)
            }
            _ => Ok(false),
        },
        _ => Ok(false),
    }
}

/// Adds the units of strings to others, and says whether all are strings.
#[tactic(auto, using(crate::proofs::Joined::part_joins, crate::proofs::Joined::part_stops, crate::proofs::Joined::parts_end))]
fn append_all(run: &Run, a: Around, values: &[Value], units: &mut Units) -> Result<bool, Fault>
    ensures all { IfOk result (λ all. all ≡ true → behind (Some units.old) (joined (setting_of a.entry) run.now.store values.now) ≡ Some units.new) }
    ensures other { IfOk result (λ all. all ≡ false → joined (setting_of a.entry) run.now.store values.now ≡ None) }
{
    for value in values {
        if !append_text(run, a, *value, units)? {
            return Ok(false);
        }
    }
    Ok(true)
}

/// The texts of the last operands in one string.
#[tactic(auto, using(machine_frame::proofs::Rows::row_laws, crate::proofs::Joined::join_all, crate::proofs::Joined::join_none))]
pub fn join<'a>(
    run: &mut Run<'a>,
    a: Around<'a>,
    at: Place,
    count: u32,
) -> Result<Control<'a>, Fault>
    ensures meaning { IfOk result (λ c. going a.entry run.new c ≡ does_row a.entry run.old count (λ w. join w.setting at (last_of count run.old.operands.items))) }
    ensures less { IfOk result (λ c. work run.new c < room run.old + 6) }
{
    let mut units = Units::new(run.alloc);
    let all = append_all(run, a, last_of(run.operands.as_slice(), count), &mut units)?;
    cut(&mut run.operands, count);
    if !all {
        return throw_new(run, a, at, ThrowKind::ArgumentError);
    }
    place(run, a, Object::Text(units))
}

/// A name as it is shown, without the mark of its library; that of a setter ends in `=`.
pub fn shown_name(alloc: Global, names: &Names, name: u32, is_setter: bool) -> Result<Units, Fault>
    ensures { IfOk result (λ units. units ≡ ending_in is_setter (shown_name names.now name)) }
{
    let mut units = Units::new(alloc);
    if name < names.count() {
        append_shown(names.text(Name(name)).as_bytes(), &mut units)?;
    }
    if is_setter {
        units.push(b'=' as u16)?;
    }
    Ok(units)
}

/// Adds the bytes of a name before its mark.
#[tactic(auto, using(crate::proofs::Shown::shown_more, crate::proofs::Shown::shown_stops, crate::proofs::Shown::shown_ends))]
fn append_shown(bytes: &[u8], units: &mut Units) -> Result<(), Fault>
    ensures { IfOk result (λ _. units.new ≡ units.old ++ take_while (λ unit. not (nat_eq unit 64)) bytes.now) }
{
    for byte in bytes {
        if *byte == b'@' {
            return Ok(());
        }
        units.push(u16::from(*byte))?;
    }
    Ok(())
}
