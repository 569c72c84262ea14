// Bodies that are entered, by functions and by members that were found.
ghost use Rattle.std.specs.Prelude.{◌≡◌, ◌≢◌, ◌<◌, ◌+◌, ◌-◌, [], map, Some, true, false, IfOk, MatchOption};
ghost use Rattle.dart_ir.specs.Classes.{IsValid};
ghost use Rattle.dart_ir.specs.declared.value.Value.TheVariants.{Null};
ghost use Rattle.dart_ir.specs.declared.kind.ThrowKind.TheVariants.{NoSuchMethodError};
ghost use Rattle.dart_ir.specs.Ty.{ty};
ghost use Rattle.core_program.specs.ProgramView as p;
ghost use Rattle.core_program.specs.View as v;
ghost use Rattle.evaluation.specs.State.{answer, ends};
ghost use Rattle.evaluation.specs.Classes.{function_at, member_at, member_function};
ghost use Rattle.evaluation.specs.Arguments.{nothing_given};
ghost use Rattle.evaluation.specs.Objects.{throw_named};
ghost use Rattle.evaluation.specs.Evaluation.{part, binding, body_of};
ghost use Rattle.evaluation.specs.Invocation as call;
ghost use Rattle.machine_call.specs.Bodies.{answers_null};
ghost use Rattle.machine_frame.specs.Outside.{world_in};
ghost use Rattle.machine_frame.specs.Frames.{seen, going, ending_row, does, does_row, room, work, given_of, callee_of, callee_with};

use crate::parameters::bind;
use core_program::form::Part;
use core_program::program::{CoreProgram, Function};
use dart_base::place::Place;
use dart_ir::kind::ThrowKind;
use dart_ir::types::Types;
use dart_ir::value::Value;
use machine_frame::around::{Around, Fault};
use machine_frame::run::{Body, Called, Control, Exit, Frame, Limit, Passed, Run, Source};
use machine_frame::stacks::{push_body, push_frame, push_types};
use machine_lookup::arguments::fits;
use machine_lookup::program::{
    function_at, function_name, is_block_part, member_function, member_owner,
};
use machine_lookup::row::{cut, last_of, past_first, push_nulls};
use machine_value::errors::throw_named;

/// Nothing is given.
#[inline(always)]
pub fn no_operands<'a>() -> Passed<'a>
    ensures names { result.names.now ≡ [] }
    ensures rest { (result.skip ≡ false) × (result.count ≡ 0) }
{
    Passed {
        names: &[],
        skip: false,
        count: 0,
    }
}

/// The last operand is given.
#[inline(always)]
pub fn last_operand<'a>() -> Passed<'a>
    ensures names { result.names.now ≡ [] }
    ensures rest { (result.skip ≡ false) × (result.count ≡ 1) }
{
    Passed {
        names: &[],
        skip: false,
        count: 1,
    }
}

/// A function that has no receiver.
pub const PLAIN: Called = Called {
    this: Value::Null,
    owner: 0,
    closure: Value::Null,
};

/// Enters the body of a function with the last operands.
#[tactic(auto, using(machine_frame::proofs::Resume::resume_push, machine_frame::proofs::Steps::load_push, machine_frame::proofs::Rows::row_laws, machine_frame::proofs::Resume::calls_zero, machine_frame::proofs::Resume::calls_suc, crate::proofs::Bodies::null_of_body))]
#[inline(always)]
pub fn called<'a>(
    run: &mut Run<'a>,
    a: Around<'a>,
    at: Place,
    f: u32,
    callee: Called,
    passed: Passed<'a>,
) -> Result<Control<'a>, Fault>
    requires valid { IsValid a.program.now.classes }
    ensures meaning { IfOk result (λ c. going a.entry run.new c ≡ does_row a.entry run.old passed.entry.count (λ w. call.called w at f (callee_of callee) (given_of passed.entry run.old.operands.items))) }
    ensures less { IfOk result (λ c. work run.new c < room run.old + 6) }
{
    if run.depth == 0 {
        cut(&mut run.operands, passed.count);
        return Ok(Control::Leave(Exit::Over(Limit::OutOfDepth)));
    }
    match function_to_enter(a.program.core(), f) {
        None => Ok(null_of_call(run, a, passed.count)),
        Some(function) => enter_body(run, a, at, f, function, callee, Vec::new(run.alloc), passed),
    }
}

/// Enters the body of a factory with the last operands, for a `new` with these type arguments.
#[tactic(auto, using(machine_frame::proofs::Resume::resume_push, machine_frame::proofs::Steps::load_push, machine_frame::proofs::Rows::row_laws, machine_frame::proofs::Resume::calls_zero, machine_frame::proofs::Resume::calls_suc, crate::proofs::Bodies::null_of_body))]
pub fn called_for<'a>(
    run: &mut Run<'a>,
    a: Around<'a>,
    at: Place,
    f: u32,
    types: Types,
    passed: Passed<'a>,
) -> Result<Control<'a>, Fault>
    requires valid { IsValid a.program.now.classes }
    ensures meaning { IfOk result (λ c. going a.entry run.new c ≡ does_row a.entry run.old passed.entry.count (λ w. call.called w at f (record { this = Null; owner = 0; closure = Null; types = map ty types.items }) (given_of passed.entry run.old.operands.items))) }
    ensures less { IfOk result (λ c. work run.new c < room run.old + 6) }
{
    if run.depth == 0 {
        cut(&mut run.operands, passed.count);
        return Ok(Control::Leave(Exit::Over(Limit::OutOfDepth)));
    }
    match function_to_enter(a.program.core(), f) {
        None => Ok(null_of_call(run, a, passed.count)),
        Some(function) => enter_body(run, a, at, f, function, PLAIN, types, passed),
    }
}

/// A function that has a body or a parameter; another one answers null as it is called.
#[tactic(auto, using(core_program::proofs::Views::views, crate::proofs::Bodies::no_parameters, crate::proofs::Bodies::some_parameters))]
#[inline(always)]
fn function_to_enter<'a>(program: &'a CoreProgram, number: u32) -> Option<&'a Function>
    ensures { MatchOption result (answers_null (function_at (p.program program.now) number) ≡ true)
        (λ x. (function_at (p.program program.now) number ≡ Some (p.function x.now)) × (answers_null (Some (p.function x.now)) ≡ false)) }
{
    match function_at(program, number) {
        None => None,
        Some(function) => match &function.body {
            Part::Given(_) => Some(function),
            Part::Missing => {
                if function.parameters.len() == 0 {
                    None
                } else {
                    Some(function)
                }
            }
        },
    }
}

/// The answer null, without the last operands.
pub fn null_of_call<'a>(run: &mut Run<'a>, a: Around<'a>, count: u32) -> Control<'a>
    ensures meaning { going a.entry run.new result ≡ does_row a.entry run.old count (λ w st. ends (answer Null) st) }
    ensures less { work run.new result < room run.old + 6 }
{
    cut(&mut run.operands, count);
    run.answer = Value::Null;
    Control::Leave(Exit::Answered)
}

/// Enters a body: its parameters are bound, and then its form is entered. The type arguments are those of the `new` that it answers.
#[tactic(auto, using(machine_frame::proofs::Resume::resume_push, machine_frame::proofs::Steps::load_push, machine_frame::proofs::Rows::row_laws))]
#[inline(always)]
fn enter_body<'a>(
    run: &mut Run<'a>,
    a: Around<'a>,
    at: Place,
    f: u32,
    function: &'a Function,
    callee: Called,
    types: Types,
    passed: Passed<'a>,
) -> Result<Control<'a>, Fault>
    requires valid { IsValid a.program.now.classes }
    requires depth { run.old.depth ≢ 0 }
    requires entered { answers_null (Some (p.function function.now)) ≡ false }
    ensures meaning { IfOk result (λ c. going a.entry run.new c ≡ ending_row a.entry run.old passed.entry.count
        (call.leaving at (body_of (Some (p.function function.now)) f (world_in a.entry (run.old.depth - 1)) (callee_with callee (map ty types.items)) (given_of passed.entry run.old.operands.items) (seen run.old)))) }
    ensures less { IfOk result (λ c. work run.new c < room run.old + 5) }
{
    let Ok(base) = u32::try_from(run.slots.len()) else {
        return Err(Fault::Memory);
    };
    push_nulls(&mut run.slots, function.vars)?;
    let is_block = is_block_part(&function.body);
    push_frame(
        run,
        Frame::Caller(at, is_block, passed.count, run.base, run.depth),
    )?;
    push_body(run)?;
    let has_types = push_types(run, types)?;
    run.base = base;
    run.body = Body {
        source: Source::Function(f),
        owner: callee.owner,
        this: callee.this,
        closure: callee.closure,
        has_types,
        caught: None,
    };
    run.depth -= 1;
    let control = begin_body(run, a, function, passed)?;
    Ok(control)
}

/// Binds the parameters of a function, or enters its form where it has none.
#[tactic(auto, using(core_program::proofs::Views::views))]
#[inline(always)]
fn begin_body<'a>(
    run: &mut Run<'a>,
    a: Around<'a>,
    function: &'a Function,
    passed: Passed<'a>,
) -> Result<Control<'a>, Fault>
    requires valid { IsValid a.program.now.classes }
    requires entered { answers_null (Some (p.function function.now)) ≡ false }
    ensures meaning { IfOk result (λ c. going a.entry run.new c ≡ does a.entry run.old (λ w. binding w (given_of passed.entry run.old.operands.items) (map p.parameter function.now.parameters.items) 0 (part (v.part function.now.body) w Null))) }
    ensures less { IfOk result (λ c. work run.new c < room run.old + 4) }
{
    match function.parameters.as_slice().split_first() {
        Some((first, rest)) => bind(run, a, function, first, rest, 0, passed),
        None => match &function.body {
            Part::Given(core) => Ok(Control::Enter(core)),
            Part::Missing => unreachable!(),
        },
    }
}

/// A member that was found, on its receiver.
#[inline(always)]
pub fn member_call<'a>(
    run: &mut Run<'a>,
    a: Around<'a>,
    at: Place,
    m: u32,
    this: Value,
    passed: Passed<'a>,
) -> Result<Control<'a>, Fault>
    requires valid { IsValid a.program.now.classes }
    ensures meaning { IfOk result (λ c. going a.entry run.new c ≡ does_row a.entry run.old passed.entry.count (λ w. call.member_call w at m this (given_of passed.entry run.old.operands.items))) }
    ensures less { IfOk result (λ c. work run.new c < room run.old + 6) }
{
    let callee = Called {
        this,
        owner: member_owner(a.program.core(), m),
        closure: Value::Null,
    };
    called(
        run,
        a,
        at,
        member_function(a.program.core(), m),
        callee,
        passed,
    )
}

/// A getter that was found, on its receiver.
#[tactic(auto, using(crate::proofs::Alone::alone_laws))]
pub fn getter_call<'a>(
    run: &mut Run<'a>,
    a: Around<'a>,
    at: Place,
    m: u32,
    this: Value,
) -> Result<Control<'a>, Fault>
    requires valid { IsValid a.program.now.classes }
    ensures meaning { IfOk result (λ c. going a.entry run.new c ≡ does a.entry run.old (λ w. call.member_call w at m this nothing_given)) }
    ensures less { IfOk result (λ c. work run.new c < room run.old + 6) }
{
    member_call(run, a, at, m, this, no_operands())
}

/// A static or library function; where what is given doesn't fit, an error tells its name.
#[inline(always)]
pub fn static_call<'a>(
    run: &mut Run<'a>,
    a: Around<'a>,
    at: Place,
    f: u32,
    passed: Passed<'a>,
) -> Result<Control<'a>, Fault>
    requires valid { IsValid a.program.now.classes }
    ensures meaning { IfOk result (λ c. going a.entry run.new c ≡ does_row a.entry run.old passed.entry.count (λ w. call.static_call w at f (given_of passed.entry run.old.operands.items))) }
    ensures less { IfOk result (λ c. work run.new c < room run.old + 6) }
{
    let values = past_first(last_of(run.operands.as_slice(), passed.count), passed.skip);
    if !fits(a.program.core(), f, values, passed.names) {
        return misfit(run, a, at, f, passed);
    }
    called(run, a, at, f, PLAIN, passed)
}

/// What is given doesn't fit a function: an error tells its name.
pub fn misfit<'a>(
    run: &mut Run<'a>,
    a: Around<'a>,
    at: Place,
    f: u32,
    passed: Passed<'a>,
) -> Result<Control<'a>, Fault>
    ensures meaning { IfOk result (λ c. going a.entry run.new c ≡ does_row a.entry run.old passed.entry.count (λ w. throw_named w.setting at NoSuchMethodError (call.name_of (function_at w.setting.program f)) false)) }
    ensures less { IfOk result (λ c. work run.new c < room run.old + 6) }
{
    cut(&mut run.operands, passed.count);
    throw_named(
        run,
        a,
        at,
        ThrowKind::NoSuchMethodError,
        function_name(a.program.core(), f),
        false,
    )
}

/// A function that has a body.
#[tactic(auto, using(core_program::proofs::Views::views))]
pub fn function_with_body<'a>(program: &'a CoreProgram, number: u32) -> Option<&'a Function>
    ensures { MatchOption result (call.has_body (function_at (p.program program.now) number) ≡ false)
        (λ x. (call.has_body (function_at (p.program program.now) number) ≡ true) × (function_at (p.program program.now) number ≡ Some (p.function x.now))
        × (answers_null (Some (p.function x.now)) ≡ false)) }
{
    match function_at(program, number) {
        None => None,
        Some(function) => match &function.body {
            Part::Missing => None,
            Part::Given(_) => Some(function),
        },
    }
}

/// A getter that has a body.
#[tactic(auto, using(machine_frame::proofs::Resume::resume_push, machine_frame::proofs::Steps::load_push, machine_frame::proofs::Rows::row_laws, machine_frame::proofs::Resume::calls_zero, machine_frame::proofs::Resume::calls_suc))]
pub fn getter_body<'a>(
    run: &mut Run<'a>,
    a: Around<'a>,
    at: Place,
    m: u32,
    function: &'a Function,
    this: Value,
) -> Result<Control<'a>, Fault>
    requires valid { IsValid a.program.now.classes }
    requires found { function_at (p.program a.program.now) (member_function (member_at (p.program a.program.now) m)) ≡ Some (p.function function.now) }
    requires entered { answers_null (Some (p.function function.now)) ≡ false }
    ensures meaning { IfOk result (λ c. going a.entry run.new c ≡ does a.entry run.old (λ w. call.member_call w at m this nothing_given)) }
    ensures less { IfOk result (λ c. work run.new c < room run.old + 5) }
{
    if run.depth == 0 {
        return Ok(Control::Leave(Exit::Over(Limit::OutOfDepth)));
    }
    let callee = Called {
        this,
        owner: member_owner(a.program.core(), m),
        closure: Value::Null,
    };
    enter_body(
        run,
        a,
        at,
        member_function(a.program.core(), m),
        function,
        callee,
        Vec::new(run.alloc),
        no_operands(),
    )
}
