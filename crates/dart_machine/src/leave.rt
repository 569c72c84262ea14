// Frames that are left.
ghost use Rattle.std.specs.Prelude.{◌≡◌, ◌≢◌, ◌<◌, ◌≤◌, ◌+◌, ◌∷◌, [], ◌++◌, IfOk};
ghost use Rattle.dart_ir.specs.Classes.{IsValid};
ghost use Rattle.core_program.specs.View as v;
ghost use Rattle.evaluation.specs.State.{answer, ends};
ghost use Rattle.evaluation.specs.Sequence.{on_answers};
ghost use Rattle.evaluation.specs.Evaluation.{evals};
ghost use Rattle.machine_lookup.specs.Rows.{last_of};
ghost use Rattle.machine_frame.specs.declared.run.Control.TheVariants.{Leave};
ghost use Rattle.machine_frame.specs.Frames.{done, joins, forms_of, does_row, ending, ending_row, seen, going, frame_weight, room, work, completed};
ghost use Rattle.dart_machine.specs.Leaving.{resuming};

use core_program::form::Core;
use dart_base::place::Place;
use dart_ir::value::Value;
use machine_call::callables::apply;
use machine_flow::calls::{after_call, after_init, go_back, settle};
use machine_flow::handlers::{finish_try, leave_handler, leave_refused, leave_try};
use machine_flow::jumps::{leave_body, leave_label, leave_update};
use machine_form::operands::{finish_binary, finish_unary};
use machine_form::operations::second_operand;
use machine_form::rows::next;
use machine_form::switches::{choose_case, leave_case};
use machine_frame::around::{Around, Fault};
use machine_frame::moves::answer;
use machine_frame::run::{Control, Exit, Frame, Run};
use machine_frame::stacks::push_operand;
use machine_lookup::row::cut;
use machine_loop::entries::{bind_let, choose};
use machine_loop::loops::{begin_turn, decided, update};
use machine_loop::statements::go_on;
use machine_value::verdicts::{as_type, is_type};

/// Leaves a form to the frame that waited for it.
#[inline(always)]
pub fn leave<'a>(
    run: &mut Run<'a>,
    a: Around<'a>,
    frame: Frame<'a>,
    exit: Exit,
) -> Result<Control<'a>, Fault>
    requires valid { IsValid a.program.now.classes }
    ensures meaning { IfOk result (λ c. going a.entry run.new c ≡ resuming a.entry run.old frame.entry (ends (completed exit run.old.answer) (seen run.old))) }
    ensures less { IfOk result (λ c. work run.new c < frame_weight frame.entry + work run.old (Leave exit)) }
{
    match exit {
        Exit::Answered => answered(run, a, frame),
        _ => passed_by(run, a, frame, exit),
    }
}

/// A frame that gets its answer. The frames that come seldom have a function of their own, so that their parts take no room here.
#[inline(always)]
fn answered<'a>(run: &mut Run<'a>, a: Around<'a>, frame: Frame<'a>) -> Result<Control<'a>, Fault>
    requires valid { IsValid a.program.now.classes }
    ensures meaning { IfOk result (λ c. going a.entry run.new c ≡ resuming a.entry run.old frame.entry (ends (answer run.old.answer) (seen run.old))) }
    ensures less { IfOk result (λ c. work run.new c < frame_weight frame.entry + room run.old + 5) }
{
    let value = run.answer;
    match frame {
        Frame::Rest(forms) => go_on(run, a, forms, value),
        Frame::Choice(first, second) => choose(run, a, value, first, second),
        Frame::Operand(at, is_function, one) => finish_unary(run, a, at, is_function, one, value),
        Frame::First(at, one, second) => second_operand(run, a, at, one, value, second),
        Frame::Second(at, one, first) => finish_binary(run, a, at, one, first, value),
        Frame::Row(one, rest, count) => next_operand(run, a, one, rest, count),
        Frame::Test(turn) => decided(run, a, turn, value),
        Frame::Body(turn) => update(run, a, turn),
        Frame::Update(turn) => begin_turn(run, a, turn),
        Frame::Returning => Ok(Control::Leave(Exit::Returns)),
        Frame::Caller(at, is_block, count, base, depth) => Ok(leave_call(
            run,
            a,
            at,
            is_block,
            count,
            base,
            depth,
            Exit::Answered,
        )),
        _ => answered_by_any(run, a, frame),
    }
}

/// Any frame that gets its answer.
#[tactic(auto, using(machine_frame::proofs::Labels::label_laws))]
fn answered_by_any<'a>(
    run: &mut Run<'a>,
    a: Around<'a>,
    frame: Frame<'a>,
) -> Result<Control<'a>, Fault>
    requires valid { IsValid a.program.now.classes }
    ensures meaning { IfOk result (λ c. going a.entry run.new c ≡ resuming a.entry run.old frame.entry (ends (answer run.old.answer) (seen run.old))) }
    ensures less { IfOk result (λ c. work run.new c < frame_weight frame.entry + room run.old + 5) }
{
    let value = run.answer;
    match frame {
        Frame::Rest(forms) => go_on(run, a, forms, value),
        Frame::Choice(first, second) => choose(run, a, value, first, second),
        Frame::Let(var, body) => bind_let(run, a, var, value, body),
        Frame::Operand(at, is_function, one) => finish_unary(run, a, at, is_function, one, value),
        Frame::First(at, one, second) => second_operand(run, a, at, one, value, second),
        Frame::Second(at, one, first) => finish_binary(run, a, at, one, first, value),
        Frame::Row(one, rest, count) => next_operand(run, a, one, rest, count),
        Frame::Test(turn) => decided(run, a, turn, value),
        Frame::Body(turn) => update(run, a, turn),
        Frame::Update(turn) => begin_turn(run, a, turn),
        Frame::Returning => Ok(Control::Leave(Exit::Returns)),
        Frame::Labelled(_) => Ok(Control::Leave(Exit::Answered)),
        Frame::Is(of) => is_type(run, a, of, value),
        Frame::As(at, of) => as_type(run, a, at, of, value),
        Frame::Switch(one) => choose_case(run, a, one, value),
        Frame::Case(one, is_empty, behind) => leave_case(
            run,
            a,
            one,
            is_empty,
            behind,
            Exit::Answered,
        ),
        Frame::Trying(attempt) => finish_try(run, a, &attempt.last, Exit::Answered, value),
        Frame::Refused(place, attempt, rest, thrown) => leave_refused(
            run,
            a,
            attempt,
            rest,
            thrown,
            place,
            Exit::Answered,
        ),
        Frame::Handling(last, around) => leave_handler(run, a, last, around, Exit::Answered),
        Frame::Ending(exit, held) => Ok(end_with(run, a, exit, held)),
        Frame::Applying(at, passed) => apply(run, a, at, value, passed),
        Frame::Answering(held) => Ok(answer(run, a, held)),
        Frame::Caller(at, is_block, count, base, depth) => Ok(leave_call(
            run,
            a,
            at,
            is_block,
            count,
            base,
            depth,
            Exit::Answered,
        )),
        Frame::Restoring(base, depth) => Ok(leave_initialiser(run, a, base, depth, Exit::Answered)),
        Frame::Settling(at, d) => Ok(settle(run, a, at, d, Exit::Answered)),
    }
}

/// A frame whose form was left without an answer.
#[tactic(auto, using(machine_frame::proofs::Passing::passes_answer, machine_frame::proofs::Passing::passes_ending))]
fn passed_by<'a>(
    run: &mut Run<'a>,
    a: Around<'a>,
    frame: Frame<'a>,
    exit: Exit,
) -> Result<Control<'a>, Fault>
    requires valid { IsValid a.program.now.classes }
    requires left { exit ≢ Exit.Answered }
    ensures meaning { IfOk result (λ c. going a.entry run.new c ≡ resuming a.entry run.old frame.entry (ends (completed exit run.old.answer) (seen run.old))) }
    ensures less { IfOk result (λ c. work run.new c < frame_weight frame.entry + work run.old (Leave exit)) }
{
    match frame {
        Frame::Rest(_) => Ok(Control::Leave(exit)),
        Frame::Choice(_, _) => Ok(Control::Leave(exit)),
        Frame::Let(_, _) => Ok(Control::Leave(exit)),
        Frame::Operand(_, _, _) => Ok(Control::Leave(exit)),
        Frame::First(_, _, _) => Ok(Control::Leave(exit)),
        Frame::Second(_, _, _) => Ok(Control::Leave(exit)),
        Frame::Row(_, _, count) => Ok(leave_operands(run, a, count, exit)),
        Frame::Test(_) => Ok(Control::Leave(exit)),
        Frame::Body(turn) => leave_body(run, a, turn, exit),
        Frame::Update(turn) => leave_update(run, a, turn, exit),
        Frame::Returning => Ok(Control::Leave(exit)),
        Frame::Labelled(target) => Ok(leave_label(run, a, target, exit)),
        Frame::Is(_) => Ok(Control::Leave(exit)),
        Frame::As(_, _) => Ok(Control::Leave(exit)),
        Frame::Switch(_) => Ok(Control::Leave(exit)),
        Frame::Case(one, is_empty, behind) => leave_case(run, a, one, is_empty, behind, exit),
        Frame::Trying(attempt) => leave_try(run, a, attempt, exit),
        Frame::Refused(place, attempt, rest, thrown) => leave_refused(
            run, a, attempt, rest, thrown, place, exit,
        ),
        Frame::Handling(last, around) => leave_handler(run, a, last, around, exit),
        Frame::Ending(_, _) => Ok(Control::Leave(exit)),
        Frame::Applying(_, passed) => Ok(leave_operands(run, a, passed.count, exit)),
        Frame::Answering(_) => Ok(Control::Leave(exit)),
        Frame::Caller(at, is_block, count, base, depth) => Ok(leave_call(
            run, a, at, is_block, count, base, depth, exit,
        )),
        Frame::Restoring(base, depth) => Ok(leave_initialiser(run, a, base, depth, exit)),
        Frame::Settling(at, d) => Ok(settle(run, a, at, d, exit)),
    }
}

/// The run's answer joins those of a row.
#[inline(always)]
fn next_operand<'a>(
    run: &mut Run<'a>,
    a: Around<'a>,
    one: &'a Core,
    rest: &'a [Core],
    count: u32,
) -> Result<Control<'a>, Fault>
    requires valid { IsValid a.program.now.classes }
    ensures meaning { IfOk result (λ c. going a.entry run.new c ≡ does_row a.entry run.old count
        (λ w. on_answers (done w (v.core one.now)) (evals (joins (v.core one.now)) (forms_of rest.now) w) (last_of count run.old.operands.items ++ run.old.answer ∷ []))) }
    ensures less { IfOk result (λ c. work run.new c < room run.old + 10) }
{
    let Some(more) = count.checked_add(1) else {
        return Err(Fault::Memory);
    };
    let value = run.answer;
    push_operand(run, value)?;
    let control = next(run, a, one, rest, more)?;
    Ok(control)
}

/// A final part is done: the form is left as it was before that.
#[inline(always)]
fn end_with<'a>(run: &mut Run<'a>, a: Around<'a>, exit: Exit, value: Value) -> Control<'a>
    ensures meaning { going a.entry run.new result ≡ ending a.entry run.old (ends (completed exit value) (seen run.old)) }
    ensures less { work run.new result < room run.old + 6 }
{
    run.answer = value;
    Control::Leave(exit)
}

/// A row is left without an answer, and its operands are no longer needed.
#[inline(always)]
fn leave_operands<'a>(run: &mut Run<'a>, a: Around<'a>, count: u32, exit: Exit) -> Control<'a>
    ensures meaning { going a.entry run.new result ≡ ending_row a.entry run.old count (ends (completed exit run.old.answer) (seen run.old)) }
    ensures less { work run.new result ≤ work run.old (Leave exit) }
{
    cut(&mut run.operands, count);
    Control::Leave(exit)
}

/// A body is left: its caller goes on.
#[tactic(auto, using(machine_frame::proofs::Passing::leaving_is))]
#[inline(always)]
fn leave_call<'a>(
    run: &mut Run<'a>,
    a: Around<'a>,
    at: Place,
    is_block: bool,
    count: u32,
    base: u32,
    depth: u32,
    exit: Exit,
) -> Control<'a>
    ensures meaning { going a.entry run.new result ≡ resuming a.entry run.old (Frame.Caller at is_block count base depth) (ends (completed exit run.old.answer) (seen run.old)) }
    ensures less { work run.new result ≤ work run.old (Leave exit) }
{
    let left = after_call(run, at, is_block, exit);
    go_back(run, base, depth);
    cut(&mut run.operands, count);
    Control::Leave(left)
}

/// The initialiser of a static variable is left: the body that read the variable goes on.
#[inline(always)]
fn leave_initialiser<'a>(
    run: &mut Run<'a>,
    a: Around<'a>,
    base: u32,
    depth: u32,
    exit: Exit,
) -> Control<'a>
    ensures meaning { going a.entry run.new result ≡ resuming a.entry run.old (Frame.Restoring base depth) (ends (completed exit run.old.answer) (seen run.old)) }
    ensures less { work run.new result ≤ work run.old (Leave exit) }
{
    let left = after_init(run, exit);
    go_back(run, base, depth);
    Control::Leave(left)
}
