// Errors that are thrown (ECMA-408, 16.4 Throw, 16.14.3 Unqualified Invocation).
ghost use Rattle.std.specs.Prelude.{◌≡◌, ◌<◌, ◌+◌, IfOk};
ghost use Rattle.dart_ir.specs.declared.value.Value.TheVariants.{Null};
ghost use Rattle.dart_ir.specs.Object.{text};
ghost use Rattle.evaluation.specs.State.{throws, ends};
ghost use Rattle.evaluation.specs.Objects.{add, throw_new, throw_named, throw_value};
ghost use Rattle.evaluation.specs.Values.{shown_name, ending_in};
ghost use Rattle.machine_frame.specs.Outside.{setting_of};
ghost use Rattle.machine_frame.specs.Frames.{seen, going, does, room, work, value_or_full, IsBeside};

use crate::texts::shown_name;
use dart_base::place::Place;
use dart_ir::kind::ThrowKind;
use dart_ir::object::Object;
use dart_ir::value::Value;
use machine_frame::around::{Around, Fault};
use machine_frame::objects::{make_error, put_object};
use machine_frame::run::{Control, Exit, Limit, Run};

/// An error of the class is thrown.
pub fn throw_new<'a>(
    run: &mut Run<'a>,
    a: Around<'a>,
    at: Place,
    kind: ThrowKind,
) -> Result<Control<'a>, Fault>
    ensures meaning { IfOk result (λ c. going a.entry run.new c ≡ does a.entry run.old (λ w. throw_new w.setting.known at kind Null)) }
    ensures less { IfOk result (λ c. work run.new c < room run.old + 6) }
{
    match make_error(run, a, at, kind, Value::Null)? {
        None => Ok(Control::Leave(Exit::Over(Limit::OutOfObjects))),
        Some(error) => {
            run.answer = error;
            Ok(Control::Leave(Exit::Throws(at)))
        }
    }
}

/// A value is thrown; in place of null an error.
pub fn throw_value<'a>(
    run: &mut Run<'a>,
    a: Around<'a>,
    at: Place,
    value: Value,
) -> Result<Control<'a>, Fault>
    ensures meaning { IfOk result (λ c. going a.entry run.new c ≡ does a.entry run.old (λ w. throw_value w.setting.known at value)) }
    ensures less { IfOk result (λ c. work run.new c < room run.old + 6) }
{
    match value {
        Value::Null => throw_new(run, a, at, ThrowKind::NullThrownError),
        Value::Bool(_) => Ok(thrown(run, a, at, value)),
        Value::Int { high: _, low: _ } => Ok(thrown(run, a, at, value)),
        Value::Literal(_) => Ok(thrown(run, a, at, value)),
        Value::Code(_) => Ok(thrown(run, a, at, value)),
        Value::At(_) => Ok(thrown(run, a, at, value)),
    }
}

#[inline(always)]
fn thrown<'a>(run: &mut Run<'a>, a: Around<'a>, at: Place, value: Value) -> Control<'a>
    ensures meaning { going a.entry run.new result ≡ does a.entry run.old (λ w st. ends (throws value at) st) }
    ensures less { work run.new result < room run.old + 6 }
{
    run.answer = value;
    Control::Leave(Exit::Throws(at))
}

/// An error of the class that tells a name is thrown; that of a setter ends in `=`.
pub fn throw_named<'a>(
    run: &mut Run<'a>,
    a: Around<'a>,
    at: Place,
    kind: ThrowKind,
    name: u32,
    is_setter: bool,
) -> Result<Control<'a>, Fault>
    ensures meaning { IfOk result (λ c. going a.entry run.new c ≡ does a.entry run.old (λ w. throw_named w.setting at kind name is_setter)) }
    ensures less { IfOk result (λ c. work run.new c < room run.old + 6) }
{
    let Some(message) = put_name(run, a, name, is_setter)? else {
        return Ok(Control::Leave(Exit::Over(Limit::OutOfObjects)));
    };
    match make_error(run, a, at, kind, message)? {
        None => Ok(Control::Leave(Exit::Over(Limit::OutOfObjects))),
        Some(error) => {
            run.answer = error;
            Ok(Control::Leave(Exit::Throws(at)))
        }
    }
}

/// A string that tells a name; that of a setter ends in `=`. `None` where the units don't suffice.
pub fn put_name(
    run: &mut Run,
    a: Around,
    name: u32,
    is_setter: bool,
) -> Result<Option<Value>, Fault>
    ensures made { IfOk result (λ made. add (text (ending_in is_setter (shown_name (setting_of a.entry).names name))) (seen run.old) ≡ ends (value_or_full made) (seen run.new)) }
    ensures beside { IfOk result (λ made. IsBeside run.old run.new) }
{
    let units = shown_name(run.alloc, &a.program.core().names, name, is_setter)?;
    put_object(run, Object::Text(units))
}
