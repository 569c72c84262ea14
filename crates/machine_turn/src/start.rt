// The call of `main` that starts a turn.
ghost use Rattle.std.specs.Prelude.{◌≡◌, ◌<◌, ◌+◌, nat_lt, map, true, false, IfOk};
ghost use Rattle.dart_ir.specs.Classes.{IsValid};
ghost use Rattle.core_program.specs.ProgramView as p;
ghost use Rattle.core_program.specs.View as v;
ghost use Rattle.evaluation.specs.Sequence.{entering};
ghost use Rattle.evaluation.specs.Arguments as g;
ghost use Rattle.evaluation.specs.Classes.{function_at};
ghost use Rattle.evaluation.specs.Invocation as call;
ghost use Rattle.evaluation.specs.Objects.{add};
ghost use Rattle.evaluation.specs.Turn.{main, started, call_main, takes_argument, start_place, body_place, place_of, no_words};
ghost use Rattle.dart_ir.specs.Object.{heap_object};
ghost use Rattle.machine_frame.specs.Outside.{setting_of};
ghost use Rattle.machine_frame.specs.Frames.{seen, going, does, does_row, room, work, given_of};

use core_program::form::Part;
use core_program::program::{CoreProgram, Parameter};
use dart_base::place::Place;
use dart_ir::kind::Shape;
use dart_ir::object::Object;
use dart_ir::types::TypeRef;
use dart_ir::value::Value;
use dart_ir::values::Values;
use machine_call::calls::{last_operand, no_operands, static_call};
use machine_frame::around::{Around, Fault};
use machine_frame::objects::put_object;
use machine_frame::run::{Control, Exit, Limit, Passed, Run};
use machine_frame::stacks::push_operand;
use machine_lookup::program::function_at;
use machine_lookup::row::cut;
use std::alloc::Global;

/// Begins the turn that `main` starts.
pub fn start_main<'a>(run: &mut Run<'a>, a: Around<'a>) -> Result<Control<'a>, Fault>
    requires valid { IsValid a.program.now.classes }
    ensures { IfOk result (λ c. going a.entry run.new c ≡ does a.entry run.old (λ w. started w (main a.entry.program.now.main.0))) }
{
    let program = a.program.core();
    let takes = takes_argument(program, program.main.0);
    if takes {
        start_with_words(run, a)
    } else {
        start_alone(run, a)
    }
}

/// The call of `main` with nothing, which takes its step.
fn start_alone<'a>(run: &mut Run<'a>, a: Around<'a>) -> Result<Control<'a>, Fault>
    requires valid { IsValid a.program.now.classes }
    ensures { IfOk result (λ c. going a.entry run.new c ≡ does a.entry run.old (λ w. call_main false w a.entry.program.now.main.0)) }
{
    let passed = no_operands();
    let control = start_call(run, a, passed)?;
    Ok(control)
}

/// The call of `main` with an empty list of strings, which takes its step.
fn start_with_words<'a>(run: &mut Run<'a>, a: Around<'a>) -> Result<Control<'a>, Fault>
    requires valid { IsValid a.program.now.classes }
    ensures { IfOk result (λ c. going a.entry run.new c ≡ does a.entry run.old (λ w. call_main true w a.entry.program.now.main.0)) }
{
    let object = no_words(run.alloc, a)?;
    let made = put_object(run, object)?;
    match made {
        None => Ok(Control::Leave(Exit::Over(Limit::OutOfObjects))),
        Some(words) => start_with(run, a, words),
    }
}

/// The call of `main` with a value, which takes its step.
fn start_with<'a>(run: &mut Run<'a>, a: Around<'a>, value: Value) -> Result<Control<'a>, Fault>
    requires valid { IsValid a.program.now.classes }
    ensures { IfOk result (λ c. going a.entry run.new c ≡ does a.entry run.old (λ w. entering (call.static_call w (start_place w.setting) a.entry.program.now.main.0 (g.alone value)))) }
{
    let passed = last_operand();
    push_operand(run, value)?;
    let control = start_call(run, a, passed)?;
    Ok(control)
}

/// The call of `main` with the last operands, which takes its step.
#[tactic(auto, using(machine_frame::proofs::Steps::enters, machine_frame::proofs::Steps::enters_not))]
fn start_call<'a>(
    run: &mut Run<'a>,
    a: Around<'a>,
    passed: Passed<'a>,
) -> Result<Control<'a>, Fault>
    requires valid { IsValid a.program.now.classes }
    ensures { IfOk result (λ c. going a.entry run.new c ≡ does_row a.entry run.old passed.entry.count (λ w. entering (call.static_call w (start_place w.setting) a.entry.program.now.main.0 (given_of passed.entry run.old.operands.items)))) }
{
    if run.left == 0 {
        cut(&mut run.operands, passed.count);
        return Ok(Control::Leave(Exit::Over(Limit::OutOfSteps)));
    }
    run.left -= 1;
    let at = start_place(a.program.core());
    let control = static_call(run, a, at, a.program.core().main.0, passed)?;
    Ok(control)
}

/// The place of the outermost form of the body of `main`.
fn start_place(program: &CoreProgram) -> Place
    ensures { result ≡ body_place (function_at (p.program program.now) program.now.main.0) }
{
    match function_at(program, program.main.0) {
        None => NO_PLACE,
        Some(function) => place_of(&function.body),
    }
}

const NO_PLACE: Place = Place {
    unit: 0,
    line: 0,
    column: 0,
};

#[tactic(auto, using(core_program::proofs::Views::views))]
fn place_of(part: &Part) -> Place
    ensures { result ≡ place_of (v.part part.now) }
{
    match part {
        Part::Missing => NO_PLACE,
        Part::Given(core) => core.place,
    }
}

/// Whether a function takes an argument by place.
fn takes_argument(program: &CoreProgram, number: u32) -> bool
    ensures { result ≡ takes_argument (function_at (p.program program.now) number) }
{
    match function_at(program, number) {
        None => false,
        Some(function) => takes_by_place(function.parameters.as_slice()),
    }
}

/// Whether one of the parameters is given by place.
#[tactic(auto, using(crate::proofs::Place::none_by_place, crate::proofs::Place::first_by_place, crate::proofs::Place::later_by_place))]
fn takes_by_place(parameters: &[Parameter]) -> bool
    ensures { result ≡ nat_lt 0 (g.positional_count (map p.parameter parameters.now)) }
{
    let Some((first, rest)) = parameters.split_first() else {
        return false;
    };
    match first.shape {
        Shape::Required => true,
        Shape::Optional => true,
        Shape::Named => takes_by_place(rest),
    }
}

/// A list of strings that has none.
#[tactic(auto, using(crate::proofs::Place::words_type))]
fn no_words(alloc: Global, a: Around) -> Result<Object, Fault>
    ensures { IfOk result (λ object. heap_object object ≡ no_words (setting_of a.entry)) }
{
    let mut args = Vec::new(alloc);
    if args
        .push(TypeRef::Class(a.setup.known.string_class, Vec::new(alloc)))
        .is_err()
    {
        return Err(Fault::Memory);
    }
    Ok(Object::List {
        args,
        items: Values::new(alloc),
        fixed: false,
    })
}
