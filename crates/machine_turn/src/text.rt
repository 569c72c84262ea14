// What is shown of a value that nothing caught, without running code of the program.
ghost use Rattle.std.specs.Prelude.{◌≡◌, ◌++◌, Some, None, true, map, codes, IfOk, OnOk, MatchOption};
ghost use Rattle.std.specs.Fmt.{signed_decimal};
ghost use Rattle.core_program.specs.ProgramView as p;
ghost use Rattle.evaluation.specs.Classes.{chain_within};
ghost use Rattle.evaluation.specs.Values.{units_of, object_at};
ghost use Rattle.evaluation.specs.Turn.{is_among, has_message, message_of, class_name, object_text, string_or_object, value_text, blank, uncaught_text};
ghost use Rattle.machine_frame.specs.Outside.{setting_of};

use core_program::program::CoreProgram;
use dart_base::units::Units;
use dart_ir::value::{Value, integer_of};
use dart_store::view::ObjectView;
use machine_frame::around::{Around, Fault};
use machine_frame::objects::class_of;
use machine_frame::run::Run;
use machine_lookup::member::superclass;
use machine_lookup::program::class_at;
use machine_lookup::row::value_at;
use machine_value::texts::shown_name;
use std::alloc::Global;

/// What is shown of a value that nothing caught: a string itself, of another value its digits or its word, of an instance its class's
/// name with its message, of another object its class's name. Control characters are blanks.
pub fn uncaught_text(run: &Run, a: Around, value: Value) -> Result<Units, Fault>
    ensures { IfOk result (λ text. text ≡ uncaught_text (setting_of a.entry) run.now.store value) }
{
    let mut units = Units::new(run.alloc);
    push_value(run, a, &mut units, value)?;
    blanked(run.alloc, units.as_slice())
}

/// The units, control characters as blanks.
fn blanked(alloc: Global, units: &[u16]) -> Result<Units, Fault>
    ensures { IfOk result (λ text. text ≡ map blank units.now) }
{
    let shown = units.iter().map(|unit| blank(*unit)).collect(alloc)?;
    Ok(Units::from_vec(shown))
}

fn blank(unit: u16) -> u16
    ensures { result ≡ blank unit }
{
    if unit < 32 { 32 } else { unit }
}

/// Adds what is shown of a value.
#[tactic(auto, using(crate::proofs::Shown::integer_shown))]
fn push_value(run: &Run, a: Around, units: &mut Units, value: Value) -> Result<(), Fault>
    ensures { OnOk result (units.new ≡ units.old ++ value_text (setting_of a.entry) run.now.store value) }
{
    match value {
        Value::Null => push_bytes(units, b"null"),
        Value::Bool(true) => push_bytes(units, b"true"),
        Value::Bool(false) => push_bytes(units, b"false"),
        Value::Int { high, low } => push_integer(run.alloc, units, integer_of(high, low)),
        Value::Code(_) => push_bytes(units, b"Closure"),
        Value::Literal(_) => push_string_or_object(run, a, units, value),
        Value::At(_) => push_string_or_object(run, a, units, value),
    }
}

/// Adds the bytes of an ASCII text.
fn push_bytes(units: &mut Units, bytes: &[u8]) -> Result<(), Fault>
    ensures { OnOk result (units.new ≡ units.old ++ bytes.now) }
{
    for byte in bytes {
        units.push(u16::from(*byte))?;
    }
    Ok(())
}

/// Adds the decimal digits of an integer.
fn push_integer(alloc: Global, units: &mut Units, number: i128) -> Result<(), Fault>
    ensures { OnOk result (units.new ≡ units.old ++ signed_decimal number) }
{
    let text = format!(in alloc; "{number}")?;
    push_bytes(units, text.as_bytes())
}

/// Adds a string itself, or what is shown of another object.
fn push_string_or_object(run: &Run, a: Around, units: &mut Units, value: Value) -> Result<(), Fault>
    ensures { OnOk result (units.new ≡ units.old ++ string_or_object (setting_of a.entry) run.now.store value (units_of (setting_of a.entry) run.now.store value)) }
{
    match string_units(run, a, value) {
        Some(text) => {
            units.append(text)?;
            Ok(())
        }
        None => push_object(run, a, units, value),
    }
}

/// The units of a string.
fn string_units<'r>(run: &'r Run, a: Around<'r>, value: Value) -> Option<&'r [u16]>
    ensures { MatchOption result (units_of (setting_of a.entry) run.now.store value ≡ None) (λ text. units_of (setting_of a.entry) run.now.store value ≡ Some text.now) }
{
    match value {
        Value::Literal(number) => match a.program.core().literals.get(number as usize) {
            None => None,
            Some(text) => Some(text.as_slice()),
        },
        Value::At(r) => match run.store.get(r) {
            Some(ObjectView::Text(text)) => Some(text),
            _ => None,
        },
        _ => None,
    }
}

/// Adds what is shown of an object that is no string.
fn push_object(run: &Run, a: Around, units: &mut Units, value: Value) -> Result<(), Fault>
    ensures { OnOk result (units.new ≡ units.old ++ object_text (setting_of a.entry) run.now.store value (object_at run.now.store value)) }
{
    let Value::At(r) = value else {
        return push_class(run.alloc, a, units, class_of(run, a, value));
    };
    match run.store.get(r) {
        Some(ObjectView::Instance { class, fields, .. }) => {
            push_instance(run, a, units, class.0, fields)
        }
        Some(ObjectView::Closure { .. }) => push_bytes(units, b"Closure"),
        Some(ObjectView::Bound { .. }) => push_bytes(units, b"Closure"),
        _ => push_class(run.alloc, a, units, class_of(run, a, value)),
    }
}

/// Adds the name of a class.
fn push_class(alloc: Global, a: Around, units: &mut Units, class: u32) -> Result<(), Fault>
    ensures { OnOk result (units.new ≡ units.old ++ class_name (setting_of a.entry) (Some class)) }
{
    match class_at(a.program.core(), class) {
        None => Ok(()),
        Some(info) => {
            let name = shown_name(alloc, &a.program.core().names, info.name.0, false)?;
            units.append(name.as_slice())?;
            Ok(())
        }
    }
}

/// Adds the class's name of an instance with these fields, and its message.
fn push_instance(
    run: &Run,
    a: Around,
    units: &mut Units,
    class: u32,
    fields: &[Value],
) -> Result<(), Fault>
    ensures { OnOk result (units.new ≡ units.old ++ (class_name (setting_of a.entry) (Some class) ++ message_of (setting_of a.entry) run.now.store (has_message (setting_of a.entry) class) fields.now)) }
{
    push_class(run.alloc, a, units, class)?;
    if !has_message(a, class) {
        return Ok(());
    }
    match string_units(run, a, value_at(fields, 0)) {
        None => Ok(()),
        Some(text) => {
            push_bytes(units, b": ")?;
            units.append(text)?;
            Ok(())
        }
    }
}

/// Whether the first field of a class's instances is a message.
fn has_message(a: Around, class: u32) -> bool
    ensures { result ≡ has_message (setting_of a.entry) class }
{
    let count = a.program.core().classes.classes.len();
    if is_below(
        a.program.core(),
        count,
        Some(class),
        a.setup.known.errors.error.0,
    ) {
        return true;
    }
    is_below(
        a.program.core(),
        count,
        Some(class),
        a.setup.known.errors.exception.0,
    )
}

/// Whether the other class is among the first so many from a class up.
#[tactic(auto, using(crate::proofs::Chain::among_none, crate::proofs::Chain::among_zero, crate::proofs::Chain::among_here, crate::proofs::Chain::among_above))]
fn is_below(program: &CoreProgram, count: usize, class: Option<u32>, other: u32) -> bool
    ensures { result ≡ is_among other (chain_within count (p.program program.now) class) }
{
    if count == 0 {
        return false;
    }
    let Some(number) = class else {
        return false;
    };
    if other == number {
        return true;
    }
    is_below(program, count - 1, superclass(program, number), other)
}
