// Loops (ECMA-408, 17.6 For, 17.7 While, 17.8 Do).
ghost use Rattle.std.specs.Prelude.{◌≢◌, ◌≡◌, ◌<◌, ◌+◌, Some, None, true, false, length, IfOk};
ghost use Rattle.dart_ir.specs.declared.value.Value.TheVariants.{Null, Bool as Truth};
ghost use Rattle.core_program.specs.View as v;
ghost use Rattle.evaluation.specs.Sequence.{on_answer};
ghost use Rattle.evaluation.specs.Evaluation.{part};
ghost use Rattle.machine_frame.specs.Outside.{setting_of, world_in};
ghost use Rattle.machine_frame.specs.Frames.{going, does, room, work, loop_of, tested, next_turn, updated};

use crate::entries::enter_part;
use crate::operators::at_once;
use crate::statements::simple;
use core_program::form::Part;
use dart_ir::value::Value;
use machine_frame::around::{Around, Fault};
use machine_frame::moves::{answer, wait};
use machine_frame::run::{Control, Exit, Frame, Limit, Run, Turn};
use machine_frame::stacks::push_frame;
use machine_frame::variables::copy_variables;
use machine_lookup::row::is_true;

/// Takes the step of a turn, where one is left, and begins its condition.
#[tactic(auto, using(machine_frame::proofs::Turns::loop_stops))]
#[inline(always)]
pub fn begin_turn<'a>(
    run: &mut Run<'a>,
    a: Around<'a>,
    turn: Turn<'a>,
) -> Result<Control<'a>, Fault>
    ensures meaning { IfOk result (λ c. going a.entry run.new c ≡ does a.entry run.old (λ w. loop_of w turn.entry)) }
    ensures less { IfOk result (λ c. work run.new c < room run.old + 2) }
{
    if run.left == 0 {
        return Ok(Control::Leave(Exit::Over(Limit::OutOfSteps)));
    }
    take_turn(run, a, turn)
}

/// Takes the step of a turn, and begins its condition.
#[tactic(auto, using(machine_frame::proofs::Turns::loop_begins))]
#[inline(always)]
pub fn take_turn<'a>(run: &mut Run<'a>, a: Around<'a>, turn: Turn<'a>) -> Result<Control<'a>, Fault>
    requires { run.old.left ≢ 0 }
    ensures meaning { IfOk result (λ c. going a.entry run.new c ≡ does a.entry run.old (λ w. loop_of w turn.entry)) }
    ensures less { IfOk result (λ c. work run.new c < room run.old) }
{
    run.left -= 1;
    condition(run, a, turn)
}

/// The condition of a turn; a missing one is true.
#[tactic(auto, using(machine_frame::proofs::Resume::resume_push, machine_frame::proofs::Steps::load_push, core_program::proofs::Views::views))]
#[inline(always)]
fn condition<'a>(run: &mut Run<'a>, a: Around<'a>, turn: Turn<'a>) -> Result<Control<'a>, Fault>
    ensures meaning { IfOk result (λ c. going a.entry run.new c ≡ does a.entry run.old (λ w st. on_answer (tested w turn.entry) (part (v.part turn.entry.condition.now) w (Truth true) st))) }
    ensures less { IfOk result (λ c. work run.new c < room run.old + 9) }
{
    match turn.condition {
        Part::Missing => decided(run, a, turn, Value::Bool(true)),
        Part::Given(core) => match at_once(run, a, core, run.left) {
            Some((value, left)) => {
                run.left = left;
                decided(run, a, turn, value)
            }
            None => wait(run, a, Frame::Test(turn), core),
        },
    }
}

/// The body of a turn, by what its condition answered.
#[tactic(auto, using(machine_frame::proofs::Resume::resume_push, machine_frame::proofs::Steps::load_push, core_program::proofs::Views::views))]
#[inline(always)]
pub fn decided<'a>(
    run: &mut Run<'a>,
    a: Around<'a>,
    turn: Turn<'a>,
    value: Value,
) -> Result<Control<'a>, Fault>
    ensures meaning { IfOk result (λ c. going a.entry run.new c ≡ does a.entry run.old (λ w. tested w turn.entry value)) }
    ensures less { IfOk result (λ c. work run.new c < room run.old + 7) }
{
    if !is_true(value) {
        return Ok(answer(run, a, Value::Null));
    }
    push_frame(run, Frame::Body(turn))?;
    enter_part(run, a, turn.body)
}

/// The copies of a turn's variables, its update, and the next one.
#[tactic(auto, using(machine_frame::proofs::Resume::resume_push, machine_frame::proofs::Steps::load_push, core_program::proofs::Views::views))]
#[inline(always)]
pub fn update<'a>(run: &mut Run<'a>, a: Around<'a>, turn: Turn<'a>) -> Result<Control<'a>, Fault>
    ensures meaning { IfOk result (λ c. going a.entry run.new c ≡ does a.entry run.old (λ w. next_turn w turn.entry)) }
    ensures less { IfOk result (λ c. work run.new c < room run.old + 6) }
{
    match copy_variables(run, a, turn.copies, Value::Null)? {
        None => Ok(Control::Leave(Exit::Over(Limit::OutOfObjects))),
        Some(_) => update_after(run, a, turn),
    }
}

/// The update of a turn, and the next one.
#[tactic(auto, using(machine_frame::proofs::Resume::resume_push, machine_frame::proofs::Steps::load_push, core_program::proofs::Views::views))]
#[inline(always)]
pub fn update_after<'a>(
    run: &mut Run<'a>,
    a: Around<'a>,
    turn: Turn<'a>,
) -> Result<Control<'a>, Fault>
    ensures meaning { IfOk result (λ c. going a.entry run.new c ≡ does a.entry run.old (λ w st. updated w turn.entry (part (v.part turn.entry.update.now) w Null st))) }
    ensures less { IfOk result (λ c. work run.new c < room run.old + 6) }
{
    match turn.update {
        Part::Missing => begin_turn(run, a, turn),
        Part::Given(core) => match simple(run, a, core) {
            Err(fault) => Err(fault),
            Ok(None) => begin_turn(run, a, turn),
            Ok(Some(more)) => wait(run, a, Frame::Update(turn), more),
        },
    }
}
