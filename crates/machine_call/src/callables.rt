// Calls of values: functions, closures, methods taken off objects, and objects with a member `call` (ECMA-408, 16.14.4 Function
// Expression Invocation).
ghost use Rattle.std.specs.Prelude.{◌≡◌, ◌<◌, ◌+◌, Some, None, IfOk};
ghost use Rattle.dart_ir.specs.Classes.{IsValid};
ghost use Rattle.machine_call.specs.Invocable.{callable_as};
ghost use Rattle.evaluation.specs.Invocation as call;
ghost use Rattle.machine_frame.specs.Frames.{going, does_row, room, work, given_of, callee_of};

use crate::calls::{PLAIN, called, function_with_body, getter_body};
use crate::missing::missing_from;
use crate::sends::fitting;
use core_program::program::Function;
use dart_base::place::Place;
use dart_ir::class::Role;
use dart_ir::value::Value;
use dart_store::store::Kind;
use machine_frame::around::{Around, Fault};
use machine_frame::objects::class_of;
use machine_frame::run::{Called, Control, Frame, Passed, Run};
use machine_frame::stacks::push_frame;
use machine_lookup::arguments::fits;
use machine_lookup::program::{member_function, member_owner};
use machine_lookup::row::{last_of, past_first};

/// A value as what is called.
#[derive(Clone, Copy)]
pub enum Invocable {
    Function(u32),
    /// A function with the `this` of the place where it was made.
    Closure(u32, Value),
    /// A member with its receiver.
    Method(u32, Value),
    Object,
}

/// A value is called.
#[tactic(auto, using(machine_frame::proofs::Turns::apply_begins))]
pub fn apply<'a>(
    run: &mut Run<'a>,
    a: Around<'a>,
    at: Place,
    callee: Value,
    passed: Passed<'a>,
) -> Result<Control<'a>, Fault>
    requires valid { IsValid a.program.now.classes }
    ensures meaning { IfOk result (λ c. going a.entry run.new c ≡ does_row a.entry run.old passed.entry.count (λ w. call.apply w at callee (given_of passed.entry run.old.operands.items))) }
    ensures less { IfOk result (λ c. work run.new c < room run.old + 9) }
{
    let found = as_invocable(run, callee);
    applied(run, a, at, callee, found, passed)
}

#[tactic(auto, using(machine_frame::proofs::KindOf::callable_of_kind))]
#[inline(always)]
fn as_invocable(run: &Run, value: Value) -> Invocable
    ensures { call.callable run.now.store value ≡ callable_as result }
{
    match value {
        Value::Code(f) => Invocable::Function(f.0),
        Value::At(r) => match run.store.kind(r) {
            Kind::Closure(f) => Invocable::Closure(f.0, run.store.receiver(r)),
            Kind::Bound(m) => Invocable::Method(m.0, run.store.receiver(r)),
            _ => Invocable::Object,
        },
        _ => Invocable::Object,
    }
}

/// A value that is known as what is called.
#[inline(always)]
fn applied<'a>(
    run: &mut Run<'a>,
    a: Around<'a>,
    at: Place,
    callee: Value,
    found: Invocable,
    passed: Passed<'a>,
) -> Result<Control<'a>, Fault>
    requires valid { IsValid a.program.now.classes }
    ensures meaning { IfOk result (λ c. going a.entry run.new c ≡ does_row a.entry run.old passed.entry.count (λ w. call.applied w at callee (given_of passed.entry run.old.operands.items)
        (λ u. call.apply w at u (given_of passed.entry run.old.operands.items)) (callable_as found))) }
    ensures less { IfOk result (λ c. work run.new c < room run.old + 9) }
{
    match found {
        Invocable::Function(f) => function_call(run, a, at, callee, f, PLAIN, passed),
        Invocable::Closure(f, receiver) => {
            let called = Called {
                this: receiver,
                owner: 0,
                closure: callee,
            };
            function_call(run, a, at, callee, f, called, passed)
        }
        Invocable::Method(m, receiver) => {
            let called = Called {
                this: receiver,
                owner: member_owner(a.program.core(), m),
                closure: Value::Null,
            };
            function_call(
                run,
                a,
                at,
                callee,
                member_function(a.program.core(), m),
                called,
                passed,
            )
        }
        Invocable::Object => object_call(run, a, at, callee, passed),
    }
}

/// A function value where what is given fits it, else noSuchMethod of it.
#[inline(always)]
fn function_call<'a>(
    run: &mut Run<'a>,
    a: Around<'a>,
    at: Place,
    value: Value,
    f: u32,
    callee: Called,
    passed: Passed<'a>,
) -> Result<Control<'a>, Fault>
    requires valid { IsValid a.program.now.classes }
    ensures meaning { IfOk result (λ c. going a.entry run.new c ≡ does_row a.entry run.old passed.entry.count (λ w. call.function_call w at value f (callee_of callee) (given_of passed.entry run.old.operands.items))) }
    ensures less { IfOk result (λ c. work run.new c < room run.old + 6) }
{
    let values = past_first(last_of(run.operands.as_slice(), passed.count), passed.skip);
    if fits(a.program.core(), f, values, passed.names) {
        return called(run, a, at, f, callee, passed);
    }
    let class = class_of(run, a, value);
    missing_from(
        run,
        a,
        at,
        class,
        Role::Method,
        a.setup.known.call.0,
        value,
        passed,
    )
}

/// An object's method `call`, else what its getter `call` answers.
#[tactic(auto, using(crate::proofs::Objects::object_method))]
fn object_call<'a>(
    run: &mut Run<'a>,
    a: Around<'a>,
    at: Place,
    value: Value,
    passed: Passed<'a>,
) -> Result<Control<'a>, Fault>
    requires valid { IsValid a.program.now.classes }
    ensures meaning { IfOk result (λ c. going a.entry run.new c ≡ does_row a.entry run.old passed.entry.count (λ w. call.applied w at value (given_of passed.entry run.old.operands.items)
        (λ u. call.apply w at u (given_of passed.entry run.old.operands.items)) call.an_object)) }
    ensures less { IfOk result (λ c. work run.new c < room run.old + 9) }
{
    let class = class_of(run, a, value);
    let name = a.setup.known.call.0;
    let method = a.program.member(class, name, Role::Method);
    let getter = a.program.member(class, name, Role::Getter);
    match method {
        Some(m) => fitting(run, a, at, class, Role::Method, name, value, m, passed),
        None => match getter {
            None => missing_from(run, a, at, class, Role::Method, name, value, passed),
            Some(m) => call_getter(run, a, at, value, m, passed),
        },
    }
}

/// What a getter `call` answers is called, where the getter has a body.
fn call_getter<'a>(
    run: &mut Run<'a>,
    a: Around<'a>,
    at: Place,
    value: Value,
    m: u32,
    passed: Passed<'a>,
) -> Result<Control<'a>, Fault>
    requires valid { IsValid a.program.now.classes }
    ensures meaning { IfOk result (λ c. going a.entry run.new c ≡ does_row a.entry run.old passed.entry.count (λ w. call.object_call w at value (given_of passed.entry run.old.operands.items)
        (λ u. call.apply w at u (given_of passed.entry run.old.operands.items)) None (Some m))) }
    ensures less { IfOk result (λ c. work run.new c < room run.old + 9) }
{
    match function_with_body(a.program.core(), member_function(a.program.core(), m)) {
        None => {
            let class = class_of(run, a, value);
            missing_from(
                run,
                a,
                at,
                class,
                Role::Method,
                a.setup.known.call.0,
                value,
                passed,
            )
        }
        Some(function) => {
            push_frame(run, Frame::Applying(at, passed))?;
            getter_body(run, a, at, m, function, value)
        }
    }
}
