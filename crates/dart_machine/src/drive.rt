// A run from its start to its end.
ghost use Rattle.std.specs.Prelude.{◌≡◌, [], ◌∷◌, ◌++◌, IfOk, MatchOption};
ghost use Rattle.dart_ir.specs.Classes.{IsValid};
ghost use Rattle.core_program.specs.View as v;
ghost use Rattle.evaluation.specs.State.{ends};
ghost use Rattle.evaluation.specs.Evaluation.{eval};
ghost use Rattle.evaluation.specs.Turn.{begun};
ghost use Rattle.machine_frame.specs.Outside.{world_in};
ghost use Rattle.machine_frame.specs.Frames.{seen, mute, going, completed};

use crate::leave::leave;
use core_program::form::Core;
use dart_ir::ending::Line;
use dart_ir::value::Value;
use dart_store::store::Store;
use machine_form::forms::enter;
use machine_frame::around::{Around, Fault};
use machine_frame::run::{Control, Exit, Frame, NO_BODY, Run};
use std::alloc::Global;

/// Goes on to the end of a form.
pub fn finish<'a>(run: &mut Run<'a>, a: Around<'a>, core: &'a Core) -> Result<Exit, Fault>
    requires valid { IsValid a.program.now.classes }
    requires fresh { run.old.frames.items ≡ [] }
    ensures { IfOk result (λ exit. ends (completed exit run.new.answer) (seen run.new) ≡ mute (eval (v.core core.now) (world_in a.entry run.old.depth) (seen run.old))) }
{
    drive(run, a, Control::Enter(core))
}

/// Goes on from a control to the end of all frames.
pub fn drive<'a>(run: &mut Run<'a>, a: Around<'a>, start: Control<'a>) -> Result<Exit, Fault>
    requires valid { IsValid a.program.now.classes }
    ensures { IfOk result (λ exit. ends (completed exit run.new.answer) (seen run.new) ≡ going a.entry run.old start.entry) }
{
    let mut control = start;
    loop {
        match control {
            Control::Enter(form) => {
                control = enter(run, a, form)?;
            }
            Control::Leave(exit) => match pop_frame(run) {
                None => return Ok(exit),
                Some(frame) => {
                    control = leave(run, a, frame, exit)?;
                }
            },
        }
    }
}

/// Takes the topmost frame off the others.
#[tactic(auto)]
#[inline(always)]
fn pop_frame<'a>(run: &mut Run<'a>) -> Option<Frame<'a>>
    ensures popped { MatchOption result (run.old.frames.items ≡ []) (λ frame. run.old.frames.items ≡ run.new.frames.items ++ frame ∷ []) }
    ensures stays { run.new ≡ record run.old { frames = run.new.frames } }
{
    run.frames.pop()
}

/// A run that has not begun, of a body of no function.
pub fn new_run<'a>(alloc: Global, store: Store, steps: u64, depth: u32) -> Run<'a>
    ensures fresh { result.frames.items ≡ [] }
    ensures seen { seen result ≡ begun (record { left = steps; heap = store; ports = [] }) }
    ensures depth { result.depth ≡ depth }
{
    let output: Vec<Line> = Vec::new(alloc);
    Run {
        alloc,
        frames: Vec::new(alloc),
        slots: Vec::new(alloc),
        base: 0,
        operands: Vec::new(alloc),
        types: Vec::new(alloc),
        body: NO_BODY,
        callers: Vec::new(alloc),
        answer: Value::Null,
        depth,
        left: steps,
        store,
        output,
    }
}
