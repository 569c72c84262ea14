// Members of objects: methods, getters, setters, `==` and `super` (ECMA-408, 16.17 Method Invocation, 16.18 Property Extraction,
// 16.19 Assignment, 16.24 Equality).
ghost use Rattle.std.specs.Prelude.{◌≡◌, ◌<◌, ◌+◌, Some, None, IfOk};
ghost use Rattle.dart_ir.specs.Classes.{IsValid};
ghost use Rattle.core_program.specs.ProgramView as p;
ghost use Rattle.evaluation.specs.Classes.{member};
ghost use Rattle.evaluation.specs.Evaluation.{super, superclass_of, class_of_source, only};
ghost use Rattle.evaluation.specs.Arguments.{alone};
ghost use Rattle.evaluation.specs.Invocation as call;
ghost use Rattle.machine_call.specs.Bodies.{is_null};
ghost use Rattle.machine_frame.specs.Outside.{setting_of};
ghost use Rattle.machine_frame.specs.Frames.{source_of, going, does, does_row, room, work, given_of};

use crate::calls::{getter_call, last_operand, member_call, no_operands, null_of_call};
use crate::missing::missing_from;
use dart_base::place::Place;
use dart_ir::class::Role;
use dart_ir::number::MemberId;
use dart_ir::object::Object;
use dart_ir::value::Value;
use machine_frame::around::{Around, Fault};
use machine_frame::moves::answer;
use machine_frame::objects::class_of;
use machine_frame::run::{Control, Frame, Passed, Run, Source};
use machine_frame::stacks::{push_frame, push_operand};
use machine_lookup::arguments::fits;
use machine_lookup::member::superclass;
use machine_lookup::program::{class_of_function, member_function};
use machine_lookup::row::{cut, last_of, past_first, value_at};
use machine_value::objects::place;

/// A member where what is given fits it, else noSuchMethod.
#[inline(always)]
pub fn fitting<'a>(
    run: &mut Run<'a>,
    a: Around<'a>,
    at: Place,
    class: u32,
    role: Role,
    name: u32,
    this: Value,
    m: u32,
    passed: Passed<'a>,
) -> Result<Control<'a>, Fault>
    requires valid { IsValid a.program.now.classes }
    ensures meaning { IfOk result (λ c. going a.entry run.new c ≡ does_row a.entry run.old passed.entry.count (λ w. call.fitting w at (Some class) role name this (given_of passed.entry run.old.operands.items) m)) }
    ensures less { IfOk result (λ c. work run.new c < room run.old + 6) }
{
    let values = past_first(last_of(run.operands.as_slice(), passed.count), passed.skip);
    if fits(
        a.program.core(),
        member_function(a.program.core(), m),
        values,
        passed.names,
    ) {
        return member_call(run, a, at, m, this, passed);
    }
    missing_from(run, a, at, class, role, name, this, passed)
}

/// A method, else a getter whose value is called, else noSuchMethod.
#[inline(always)]
pub fn send_from<'a>(
    run: &mut Run<'a>,
    a: Around<'a>,
    at: Place,
    class: u32,
    name: u32,
    this: Value,
    passed: Passed<'a>,
) -> Result<Control<'a>, Fault>
    requires valid { IsValid a.program.now.classes }
    ensures meaning { IfOk result (λ c. going a.entry run.new c ≡ does_row a.entry run.old passed.entry.count (λ w. call.send_from w at (Some class) name this (given_of passed.entry run.old.operands.items))) }
    ensures less { IfOk result (λ c. work run.new c < room run.old + 10) }
{
    let method = a.program.member(class, name, Role::Method);
    match method {
        Some(m) => fitting(run, a, at, class, Role::Method, name, this, m, passed),
        None => send_getter(run, a, at, class, name, this, passed),
    }
}

#[inline(always)]
fn send_getter<'a>(
    run: &mut Run<'a>,
    a: Around<'a>,
    at: Place,
    class: u32,
    name: u32,
    this: Value,
    passed: Passed<'a>,
) -> Result<Control<'a>, Fault>
    requires valid { IsValid a.program.now.classes }
    ensures meaning { IfOk result (λ c. going a.entry run.new c ≡ does_row a.entry run.old passed.entry.count (λ w. call.sent w at (Some class) name this (given_of passed.entry run.old.operands.items) None (member (p.program a.entry.program.now) (Some class) name Role.Getter))) }
    ensures less { IfOk result (λ c. work run.new c < room run.old + 10) }
{
    match a.program.member(class, name, Role::Getter) {
        None => missing_from(run, a, at, class, Role::Method, name, this, passed),
        Some(m) => {
            push_frame(run, Frame::Applying(at, passed))?;
            getter_call(run, a, at, m, this)
        }
    }
}

/// A method, else a getter whose value is called, else noSuchMethod.
#[inline(always)]
pub fn send<'a>(
    run: &mut Run<'a>,
    a: Around<'a>,
    at: Place,
    name: u32,
    this: Value,
    passed: Passed<'a>,
) -> Result<Control<'a>, Fault>
    requires valid { IsValid a.program.now.classes }
    ensures meaning { IfOk result (λ c. going a.entry run.new c ≡ does_row a.entry run.old passed.entry.count (λ w. call.send w at name this (given_of passed.entry run.old.operands.items))) }
    ensures less { IfOk result (λ c. work run.new c < room run.old + 10) }
{
    let class = class_of(run, a, this);
    send_from(run, a, at, class, name, this, passed)
}

/// A method is taken off, else a getter's value.
pub fn get_from<'a>(
    run: &mut Run<'a>,
    a: Around<'a>,
    at: Place,
    class: u32,
    name: u32,
    this: Value,
) -> Result<Control<'a>, Fault>
    requires valid { IsValid a.program.now.classes }
    ensures meaning { IfOk result (λ c. going a.entry run.new c ≡ does a.entry run.old (λ w. call.get_from w at (Some class) name this)) }
    ensures less { IfOk result (λ c. work run.new c < room run.old + 6) }
{
    if let Some(m) = a.program.member(class, name, Role::Method) {
        return place(
            run,
            a,
            Object::Bound {
                receiver: this,
                member: MemberId(m),
            },
        );
    }
    match a.program.member(class, name, Role::Getter) {
        None => missing_from(run, a, at, class, Role::Getter, name, this, no_operands()),
        Some(m) => getter_call(run, a, at, m, this),
    }
}

/// A setter is called with the value, which is the answer.
#[tactic(auto, using(machine_frame::proofs::Resume::resume_push, machine_frame::proofs::Steps::load_push, machine_frame::proofs::Rows::row_laws, crate::proofs::Alone::alone_laws))]
pub fn set_from<'a>(
    run: &mut Run<'a>,
    a: Around<'a>,
    at: Place,
    class: u32,
    name: u32,
    this: Value,
    value: Value,
) -> Result<Control<'a>, Fault>
    requires valid { IsValid a.program.now.classes }
    ensures meaning { IfOk result (λ c. going a.entry run.new c ≡ does a.entry run.old (λ w. call.set_from w at (Some class) name this value)) }
    ensures less { IfOk result (λ c. work run.new c < room run.old + 10) }
{
    let passed = last_operand();
    push_frame(run, Frame::Answering(value))?;
    push_operand(run, value)?;
    match a.program.member(class, name, Role::Setter) {
        Some(m) => fitting(run, a, at, class, Role::Setter, name, this, m, passed),
        None => missing_from(run, a, at, class, Role::Setter, name, this, passed),
    }
}

/// Identity where either is null, else a call of `==`.
#[tactic(auto, using(crate::proofs::Equal::equal_null, crate::proofs::Equal::equal_to_null))]
pub fn equal<'a>(
    run: &mut Run<'a>,
    a: Around<'a>,
    at: Place,
    first: Value,
    second: Value,
) -> Result<Control<'a>, Fault>
    requires valid { IsValid a.program.now.classes }
    ensures meaning { IfOk result (λ c. going a.entry run.new c ≡ does a.entry run.old (λ w. call.equal w at first second)) }
    ensures less { IfOk result (λ c. work run.new c < room run.old + 10) }
{
    if is_null(first) {
        let both = is_null(second);
        return Ok(answer(run, a, Value::Bool(both)));
    }
    if is_null(second) {
        return Ok(answer(run, a, Value::Bool(false)));
    }
    equal_by_call(run, a, at, first, second)
}

fn is_null(value: Value) -> bool
    ensures { result ≡ is_null value }
{
    match value {
        Value::Null => true,
        Value::Bool(_) => false,
        Value::Int { high: _, low: _ } => false,
        Value::Literal(_) => false,
        Value::Code(_) => false,
        Value::At(_) => false,
    }
}

/// A call of `==`.
fn equal_by_call<'a>(
    run: &mut Run<'a>,
    a: Around<'a>,
    at: Place,
    first: Value,
    second: Value,
) -> Result<Control<'a>, Fault>
    requires valid { IsValid a.program.now.classes }
    ensures meaning { IfOk result (λ c. going a.entry run.new c ≡ does a.entry run.old (λ w. call.send w at w.setting.known.equals first (alone second))) }
    ensures less { IfOk result (λ c. work run.new c < room run.old + 10) }
{
    let passed = last_operand();
    push_operand(run, second)?;
    send(run, a, at, a.setup.known.equals.0, first, passed)
}

/// A member looked up from the superclass, on `this`.
#[tactic(auto, using(machine_frame::proofs::Resume::resume_push, machine_frame::proofs::Steps::load_push, machine_frame::proofs::Rows::row_laws, crate::proofs::Alone::alone_laws))]
pub fn super_member<'a>(
    run: &mut Run<'a>,
    a: Around<'a>,
    at: Place,
    role: Role,
    name: u32,
    passed: Passed<'a>,
) -> Result<Control<'a>, Fault>
    requires valid { IsValid a.program.now.classes }
    ensures meaning { IfOk result (λ c. going a.entry run.new c ≡ does_row a.entry run.old passed.entry.count (λ w. super w at role name (given_of passed.entry run.old.operands.items))) }
    ensures less { IfOk result (λ c. work run.new c < room run.old + 10) }
{
    let Some(class) = superclass_here(run, a) else {
        return Ok(null_of_call(run, a, passed.count));
    };
    match role {
        Role::Method => send_from(run, a, at, class, name, run.body.this, passed),
        Role::Getter => {
            cut(&mut run.operands, passed.count);
            get_from(run, a, at, class, name, run.body.this)
        }
        Role::Setter => {
            let value = only(run, passed);
            cut(&mut run.operands, passed.count);
            set_from(run, a, at, class, name, run.body.this, value)
        }
    }
}

fn superclass_here(run: &Run, a: Around) -> Option<u32>
    ensures { result ≡ superclass_of (setting_of a.entry) (class_of_source (setting_of a.entry) (source_of run.now.body.source)) }
{
    match run.body.source {
        Source::Initialiser(_) => None,
        Source::Function(f) => match class_of_function(a.program.core(), f) {
            None => None,
            Some(class) => superclass(a.program.core(), class),
        },
    }
}

fn only<'a>(run: &Run<'a>, passed: Passed<'a>) -> Value
    ensures { result ≡ only (given_of passed.entry run.now.operands.items) }
{
    value_at(
        past_first(last_of(run.operands.as_slice(), passed.count), passed.skip),
        0,
    )
}
