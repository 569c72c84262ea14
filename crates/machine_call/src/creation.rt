// New objects and constructors (ECMA-408, 10.6 Constructors, 16.12 Instance Creation).
ghost use Rattle.std.specs.Prelude.{◌≡◌, ◌<◌, ◌+◌, map, IfOk};
ghost use Rattle.dart_ir.specs.Classes.{IsValid};
ghost use Rattle.dart_ir.specs.Ty.{ty};
ghost use Rattle.evaluation.specs.Creation as creation;
ghost use Rattle.machine_frame.specs.Frames.{going, does_row, room, work, given_of};

use crate::calls::{called, called_for, misfit};
use dart_base::place::Place;
use dart_ir::kind::ThrowKind;
use dart_ir::number::ClassId;
use dart_ir::object::Object;
use dart_ir::types::{TypeRef, Types};
use dart_ir::value::Value;
use dart_ir::values::Values;
use machine_frame::around::{Around, Fault};
use machine_frame::objects::put_object;
use machine_frame::run::{Called, Control, Exit, Frame, Limit, Passed, Run};
use machine_frame::stacks::push_frame;
use machine_lookup::arguments::fits;
use machine_lookup::program::{class_of_function, field_count, is_abstract, is_factory};
use machine_lookup::row::{cut, last_of, past_first, push_nulls};
use machine_value::errors::throw_new;
use machine_value::types::closed;

/// A new object of the class, with which the constructor goes on; or what a factory answers.
#[tactic(auto, using(crate::proofs::Creates::creates, crate::proofs::Creates::creates_by_factory))]
pub fn create<'a>(
    run: &mut Run<'a>,
    a: Around<'a>,
    at: Place,
    class: u32,
    f: u32,
    types: &'a [TypeRef],
    passed: Passed<'a>,
) -> Result<Control<'a>, Fault>
    requires valid { IsValid a.program.now.classes }
    ensures meaning { IfOk result (λ c. going a.entry run.new c ≡ does_row a.entry run.old passed.entry.count (λ w. creation.new w at class f (map ty types.now) (given_of passed.entry run.old.operands.items))) }
    ensures less { IfOk result (λ c. work run.new c < room run.old + 10) }
{
    let Some(args) = closed(run, a, types)? else {
        cut(&mut run.operands, passed.count);
        return Ok(Control::Leave(Exit::Over(Limit::TypeLimit)));
    };
    if is_factory(a.program.core(), f) {
        return factory_call(run, a, at, f, args, passed);
    }
    if is_abstract(a.program.core(), class) {
        cut(&mut run.operands, passed.count);
        return throw_new(run, a, at, ThrowKind::AbstractClassInstantiationError);
    }
    instantiate(run, a, at, class, f, args, passed)
}

/// A factory is called with the type arguments of the `new`; where what is given doesn't fit, an error tells its name.
fn factory_call<'a>(
    run: &mut Run<'a>,
    a: Around<'a>,
    at: Place,
    f: u32,
    types: Types,
    passed: Passed<'a>,
) -> Result<Control<'a>, Fault>
    requires valid { IsValid a.program.now.classes }
    ensures meaning { IfOk result (λ c. going a.entry run.new c ≡ does_row a.entry run.old passed.entry.count (λ w. creation.factory_call w at f (map ty types.items) (given_of passed.entry run.old.operands.items))) }
    ensures less { IfOk result (λ c. work run.new c < room run.old + 6) }
{
    let values = past_first(last_of(run.operands.as_slice(), passed.count), passed.skip);
    if !fits(a.program.core(), f, values, passed.names) {
        return misfit(run, a, at, f, passed);
    }
    called_for(run, a, at, f, types, passed)
}

/// An instance whose fields are null, with which the constructor goes on; the answer is the instance.
fn instantiate<'a>(
    run: &mut Run<'a>,
    a: Around<'a>,
    at: Place,
    class: u32,
    f: u32,
    types: Types,
    passed: Passed<'a>,
) -> Result<Control<'a>, Fault>
    requires valid { IsValid a.program.now.classes }
    ensures meaning { IfOk result (λ c. going a.entry run.new c ≡ does_row a.entry run.old passed.entry.count (λ w. creation.instantiate w at class f (given_of passed.entry run.old.operands.items) (map ty types.items))) }
    ensures less { IfOk result (λ c. work run.new c < room run.old + 10) }
{
    let count = field_count(a.program.core(), class);
    let mut fields = Vec::with_capacity(run.alloc, count as usize)?;
    push_nulls(&mut fields, count)?;
    let object = Object::Instance {
        class: ClassId(class),
        args: types,
        fields: Values::from_vec(fields),
    };
    match put_object(run, object)? {
        None => {
            cut(&mut run.operands, passed.count);
            Ok(Control::Leave(Exit::Over(Limit::OutOfObjects)))
        }
        Some(this) => {
            push_frame(run, Frame::Answering(this))?;
            construct_on(run, a, at, f, this, passed)
        }
    }
}

/// A constructor of this class or of its superclass goes on with `this`.
pub fn construct<'a>(
    run: &mut Run<'a>,
    a: Around<'a>,
    at: Place,
    f: u32,
    passed: Passed<'a>,
) -> Result<Control<'a>, Fault>
    requires valid { IsValid a.program.now.classes }
    ensures meaning { IfOk result (λ c. going a.entry run.new c ≡ does_row a.entry run.old passed.entry.count (λ w. creation.construct w at f (given_of passed.entry run.old.operands.items))) }
    ensures less { IfOk result (λ c. work run.new c < room run.old + 6) }
{
    construct_on(run, a, at, f, run.body.this, passed)
}

/// A constructor goes on with an object; where what is given doesn't fit, an error tells its name.
pub fn construct_on<'a>(
    run: &mut Run<'a>,
    a: Around<'a>,
    at: Place,
    f: u32,
    this: Value,
    passed: Passed<'a>,
) -> Result<Control<'a>, Fault>
    requires valid { IsValid a.program.now.classes }
    ensures meaning { IfOk result (λ c. going a.entry run.new c ≡ does_row a.entry run.old passed.entry.count (λ w. creation.construct_on w at f this (given_of passed.entry run.old.operands.items))) }
    ensures less { IfOk result (λ c. work run.new c < room run.old + 6) }
{
    let values = past_first(last_of(run.operands.as_slice(), passed.count), passed.skip);
    if !fits(a.program.core(), f, values, passed.names) {
        return misfit(run, a, at, f, passed);
    }
    let callee = Called {
        this,
        owner: class_or_first(class_of_function(a.program.core(), f)),
        closure: Value::Null,
    };
    called(run, a, at, f, callee, passed)
}

#[inline(always)]
fn class_or_first(class: Option<u32>) -> u32
    ensures { result ≡ creation.class_or_first class }
{
    match class {
        None => 0,
        Some(class) => class,
    }
}
