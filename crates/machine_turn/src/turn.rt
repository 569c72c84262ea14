// The turn of a program, from the call of `main` to what is shown of it.
ghost use Rattle.std.specs.Prelude.{◌≡◌, ◌<◌, ◌^◌, option_map, IfOk};
ghost use Rattle.dart_ir.specs.Classes.{IsValid};
ghost use Rattle.evaluation.specs.Turn.{turn, main, end_of};
ghost use Rattle.evaluation.specs.Turn as t;
ghost use Rattle.machine_frame.specs.Outside.{setting_of, world_in};
ghost use Rattle.machine_frame.specs.Frames.{seen, completed, limit_of};
ghost use Rattle.machine_turn.specs.Turn.{ending, isolate, shown, quiet, budget, first_turn};

use crate::fresh::new_store;
use crate::start::start_main;
use crate::text::uncaught_text;
use crate::turned::{Limits, Turned};
use dart_ir::ending::{Lines, TurnEnd};
use dart_machine::drive::{drive, new_run};
use dart_store::store::Store;
use machine_frame::around::{Around, Fault};
use machine_frame::run::{Exit, Limit, Run};
use std::alloc::Global;

/// Runs the turn with which a program starts, in production. Its table of classes has to be valid. `None` where the program's
/// constants pass the limit of units, before which nothing runs.
pub fn run_first<'a>(alloc: Global, a: Around<'a>, limits: Limits) -> Result<Option<Turned>, Fault>
    requires valid { IsValid a.program.now.classes }
    requires units { limits.units < 2 ^ 32 }
    ensures { IfOk result (λ made. option_map shown made ≡ first_turn (world_in a.entry limits.depth) a.entry.program.now (budget limits)) }
{
    let program = a.program.core();
    let made = new_store(alloc, program, limits.units)?;
    match made {
        None => Ok(None),
        Some(store) => {
            let turned = run_turn(alloc, a, store, limits.steps, limits.depth)?;
            Ok(Some(turned))
        }
    }
}

/// Runs the turn that `main` starts over a store, in production. The program's table of classes has to be valid.
pub fn run_turn<'a>(
    alloc: Global,
    a: Around<'a>,
    store: Store,
    steps: u64,
    depth: u32,
) -> Result<Turned, Fault>
    requires valid { IsValid a.program.now.classes }
    ensures { IfOk result (λ made. shown made ≡ quiet (turn (world_in a.entry depth) (main a.entry.program.now.main.0) (isolate steps store))) }
{
    let mut run = new_run(alloc, store, steps, depth);
    let start = start_main(&mut run, a)?;
    let exit = drive(&mut run, a, start)?;
    let end = turn_end(&run, a, exit)?;
    let turned = take_shown(run, end);
    Ok(turned)
}

/// What is shown of a run at its end, and what it leaves.
fn take_shown(run: Run, end: TurnEnd) -> Turned
    ensures output { result.output ≡ run.entry.output.items }
    ensures end { result.end ≡ end }
    ensures left { (result.left ≡ run.entry.left) × (result.store ≡ run.entry.store) }
{
    let Run {
        alloc: _,
        frames: _,
        slots: _,
        base: _,
        operands: _,
        types: _,
        body: _,
        callers: _,
        answer: _,
        depth: _,
        left,
        store,
        output,
    } = run;
    Turned {
        output: Lines::from_vec(output),
        end,
        left,
        store,
    }
}

/// How a turn ends whose outermost call is left so.
fn turn_end(run: &Run, a: Around, exit: Exit) -> Result<TurnEnd, Fault>
    ensures { IfOk result (λ end. ending end ≡ end_of (setting_of a.entry) (completed exit run.now.answer) (seen run.now)) }
{
    match exit {
        Exit::Answered => Ok(TurnEnd::Returned),
        Exit::Jumps(_, _) => Ok(TurnEnd::Returned),
        Exit::Returns => Ok(TurnEnd::Returned),
        Exit::Throws(place) => {
            let text = uncaught_text(run, a, run.answer)?;
            Ok(TurnEnd::Uncaught { place, text })
        }
        Exit::Over(limit) => Ok(limit_end(limit)),
    }
}

fn limit_end(limit: Limit) -> TurnEnd
    ensures { ending result ≡ t.limit (limit_of limit) }
{
    match limit {
        Limit::OutOfSteps => TurnEnd::OutOfSteps,
        Limit::OutOfObjects => TurnEnd::OutOfObjects,
        Limit::OutOfDepth => TurnEnd::OutOfDepth,
        Limit::IntegerLimit => TurnEnd::IntegerLimit,
        Limit::NeedsDouble => TurnEnd::NeedsDouble,
        Limit::TypeLimit => TurnEnd::TypeLimit,
    }
}
