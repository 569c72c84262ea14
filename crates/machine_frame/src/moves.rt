// Moves of the machine that all forms share.
ghost use Rattle.std.specs.Prelude.{◌≡◌, ◌<◌, ◌+◌, IfOk};
ghost use Rattle.dart_ir.specs.declared.value.Value.TheVariants.{Null};
ghost use Rattle.core_program.specs.View as v;
ghost use Rattle.evaluation.specs.State.{Outcome, Completion, answer, ends};
ghost use Rattle.evaluation.specs.Evaluation.{eval, part};
ghost use Rattle.machine_frame.specs.Outside.{world_in};
ghost use Rattle.machine_frame.specs.Frames.{seen, below_of, below, resume, resumed, going, does, frame_weight, room, work, mute};

use crate::around::{Around, Fault};
use crate::run::{Control, Exit, Frame, Run};
use crate::stacks::push_frame;
use core_program::form::{Core, Part};
use dart_ir::value::Value;

/// Puts a frame to wait for a form.
#[inline(always)]
pub fn wait<'a>(
    run: &mut Run<'a>,
    a: Around<'a>,
    frame: Frame<'a>,
    core: &'a Core,
) -> Result<Control<'a>, Fault>
    ensures meaning { IfOk result (λ c. going a.entry run.new c
        ≡ mute (resume a.entry (below (below_of run.old) frame.entry) run.old.frames.items (resumed (world_in a.entry run.old.depth) (below_of run.old) frame.entry (eval (v.core core.now) (world_in a.entry (below_of run.old).depth) (seen run.old))))) }
    ensures less { IfOk result (λ c. work run.new c < room run.old + frame_weight frame.entry + 3) }
{
    push_frame(run, frame)?;
    Ok(Control::Enter(core))
}

/// The form is done, with this answer.
#[inline(always)]
pub fn answer<'a>(run: &mut Run<'a>, a: Around<'a>, value: Value) -> Control<'a>
    ensures meaning { going a.entry run.new result ≡ does a.entry run.old (λ _ st. ends (answer value) st) }
    ensures less { work run.new result < room run.old + 6 }
{
    run.answer = value;
    Control::Leave(Exit::Answered)
}

/// Enters a part; one that is missing answers null.
#[tactic(auto, using(core_program::proofs::Views::views))]
#[inline(always)]
pub fn enter_part<'a>(run: &mut Run<'a>, a: Around<'a>, one: &'a Part) -> Result<Control<'a>, Fault>
    ensures meaning { IfOk result (λ c. going a.entry run.new c ≡ does a.entry run.old (λ w. part (v.part one.now) w Null)) }
    ensures less { IfOk result (λ c. work run.new c < room run.old + 6) }
{
    match one {
        Part::Missing => Ok(answer(run, a, Value::Null)),
        Part::Given(core) => Ok(Control::Enter(core)),
    }
}
