// Tests and casts of values, and types as values (ECMA-408, 16.33 Identifier Reference, 16.34 Type Test, 16.35 Type Cast).
ghost use Rattle.std.specs.Prelude.{◌≡◌, ◌<◌, ◌+◌, IfOk};
ghost use Rattle.dart_ir.specs.Ty.{ty};
ghost use Rattle.dart_ir.specs.Classes.{IsValid};
ghost use Rattle.evaluation.specs.Values.{either as spec_either};
ghost use Rattle.evaluation.specs.Types as spec;
ghost use Rattle.machine_frame.specs.Outside.{setting_of};
ghost use Rattle.machine_frame.specs.Frames.{seen, going, does, room, work};

use crate::errors::throw_new;
use crate::types::{type_here, value_type};
use dart_base::place::Place;
use dart_ir::kind::ThrowKind;
use dart_ir::object::Object;
use dart_ir::types::TypeRef;
use dart_ir::value::Value;
use machine_frame::around::{Around, Fault};
use machine_frame::moves::answer;
use machine_frame::objects::put_object;
use machine_frame::run::{Control, Exit, Limit, Run};
use type_test::subtype::is_subtype;

fn either(first: bool, second: bool) -> bool
    ensures { result ≡ spec_either first second }
{
    if first { true } else { second }
}

/// Whether null is of a type.
#[tactic(auto, using(dart_ir::proofs::View::views))]
fn takes_null(a: Around, of: &TypeRef) -> bool
    ensures { result ≡ spec.takes_null (setting_of a.entry) (ty of.now) }
{
    match of {
        TypeRef::Dynamic => true,
        TypeRef::Bottom => false,
        TypeRef::Void => false,
        TypeRef::Class(class, _) => either(class.0 == 0, class.0 == a.setup.known.null_class.0),
        TypeRef::Param(_) => false,
        TypeRef::Function(_) => false,
    }
}

/// Whether a value is of a type.
pub fn is_of(run: &Run, a: Around, value: Value, of: &TypeRef) -> Result<bool, Fault>
    requires valid { IsValid a.program.now.classes }
    ensures { IfOk result (λ holds. holds ≡ spec.is_of (setting_of a.entry) run.now.store value (ty of.now)) }
{
    match value_type(run, a, value)? {
        None => Ok(takes_null(a, of)),
        Some(one) => {
            let holds = is_subtype(run.alloc, &a.program.core().classes, &one, of)?;
            Ok(holds)
        }
    }
}

/// Whether a value passes a cast: null passes each.
fn passes_cast(run: &Run, a: Around, value: Value, of: &TypeRef) -> Result<bool, Fault>
    requires valid { IsValid a.program.now.classes }
    ensures { IfOk result (λ passes. passes ≡ spec.passes_cast (setting_of a.entry) run.now.store value (ty of.now)) }
{
    match value {
        Value::Null => Ok(true),
        Value::Bool(_) => is_of(run, a, value, of),
        Value::Int { high: _, low: _ } => is_of(run, a, value, of),
        Value::Literal(_) => is_of(run, a, value, of),
        Value::Code(_) => is_of(run, a, value, of),
        Value::At(_) => is_of(run, a, value, of),
    }
}

/// Whether an operand's value is of a type.
pub fn is_type<'a>(
    run: &mut Run<'a>,
    a: Around<'a>,
    of: &TypeRef,
    value: Value,
) -> Result<Control<'a>, Fault>
    requires valid { IsValid a.program.now.classes }
    ensures meaning { IfOk result (λ c. going a.entry run.new c ≡ does a.entry run.old (λ w. spec.is_type w.setting (ty of.now) value)) }
    ensures less { IfOk result (λ c. work run.new c < room run.old + 6) }
{
    match type_here(run, a, of)? {
        None => Ok(Control::Leave(Exit::Over(Limit::TypeLimit))),
        Some(one) => {
            let holds = is_of(run, a, value, &one)?;
            Ok(answer(run, a, Value::Bool(holds)))
        }
    }
}

/// An operand's value, where it passes the cast to a type.
pub fn as_type<'a>(
    run: &mut Run<'a>,
    a: Around<'a>,
    at: Place,
    of: &TypeRef,
    value: Value,
) -> Result<Control<'a>, Fault>
    requires valid { IsValid a.program.now.classes }
    ensures meaning { IfOk result (λ c. going a.entry run.new c ≡ does a.entry run.old (λ w. spec.as_type w.setting at (ty of.now) value)) }
    ensures less { IfOk result (λ c. work run.new c < room run.old + 6) }
{
    match type_here(run, a, of)? {
        None => Ok(Control::Leave(Exit::Over(Limit::TypeLimit))),
        Some(one) => {
            if passes_cast(run, a, value, &one)? {
                Ok(answer(run, a, value))
            } else {
                throw_new(run, a, at, ThrowKind::CastError)
            }
        }
    }
}

/// A type as a value.
pub fn type_object<'a>(run: &mut Run<'a>, a: Around<'a>, of: &TypeRef) -> Result<Control<'a>, Fault>
    ensures meaning { IfOk result (λ c. going a.entry run.new c ≡ does a.entry run.old (λ w. spec.type_object w.setting (ty of.now))) }
    ensures less { IfOk result (λ c. work run.new c < room run.old + 6) }
{
    match type_here(run, a, of)? {
        None => Ok(Control::Leave(Exit::Over(Limit::TypeLimit))),
        Some(one) => match put_object(run, Object::TypeValue(one))? {
            None => Ok(Control::Leave(Exit::Over(Limit::OutOfObjects))),
            Some(made) => Ok(answer(run, a, made)),
        },
    }
}
