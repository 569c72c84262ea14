// The run of a program, from its first turn to what is written of it.
ghost use Rattle.std.specs.Prelude.{◌≡◌, ◌<◌, ◌^◌, option_map, IfOk};
ghost use Rattle.dart_ir.specs.Classes.{IsValid};
ghost use Rattle.core_program.specs.ProgramView as view;
ghost use Rattle.machine_frame.specs.Outside.{failing};
ghost use Rattle.machine_turn.specs.Turn.{shown, budget};
ghost use Rattle.machine_turn.specs.Produced.{bare, RunsBare};
ghost use Rattle.dart_run.specs.Run.{IsRun, IsRunOf, on_failure};

use crate::known::machine_numbers;
use crate::mode::{Mode, annotated_in};
use crate::written::{Written, write_turn};
use core_image::program::image;
use core_program::program::CoreProgram;
use core_program::strip::strip;
use machine_frame::around::{Around, Setup};
use machine_lookup::linked::Linked;
use machine_turn::turn::run_first;
use machine_turn::turned::{Limits, Turned};
use std::alloc::{AllocError, Global};

/// Runs a program in this mode, and gives what it writes. Its table of classes has to be valid, and the units are below 2^32. The
/// error is want of memory: it also stands for what the machine does not carry out yet.
pub fn run_program(
    alloc: Global,
    program: &CoreProgram,
    mode: Mode,
    limits: Limits,
) -> Result<Written, AllocError>
    requires valid { IsValid program.now.classes }
    requires units { limits.units < 2 ^ 32 }
    ensures { IfOk result (λ made. IsRunOf program.now (on_failure mode) (budget limits) made) }
{
    let turned = run_main(alloc, program, mode, limits)?;
    write_turn(
        alloc,
        program.units.as_slice(),
        program.sites.as_slice(),
        turned,
    )
}

/// Runs the turn that `main` starts, over the bare program; in checked mode values are checked by the program itself.
fn run_main(
    alloc: Global,
    program: &CoreProgram,
    mode: Mode,
    limits: Limits,
) -> Result<Option<Turned>, AllocError>
    requires valid { IsValid program.now.classes }
    requires units { limits.units < 2 ^ 32 }
    ensures { IfOk result (λ made. IsRun program.now (on_failure mode) (budget limits) (option_map shown made)) }
{
    let Some(known) = machine_numbers(program) else {
        return Err(AllocError);
    };
    let made = bare_program(alloc, program)?;
    let setup = Setup {
        known,
        isolate: 0,
        annotated: annotated_in(mode, program),
    };
    let a = Around {
        program: &made,
        setup: &setup,
    };
    run_around(alloc, program, a, limits)
}

/// The program without what its annotations ask for, and without columns and marks, with the table of its members.
fn bare_program(alloc: Global, program: &CoreProgram) -> Result<Linked, AllocError>
    requires valid { IsValid program.now.classes }
    ensures valid { IfOk result (λ made. IsValid made.classes) }
    ensures names { IfOk result (λ made. made.names ≡ program.now.names) }
    ensures program { IfOk result (λ made. view.program made ≡ bare (view.program program.now)) }
{
    let stripped = strip(alloc, program)?;
    let plain = image(alloc, &stripped)?;
    let linked = Linked::new(alloc, plain)?;
    Ok(linked)
}

/// Runs the turn that `main` of the program starts, where the one around is that program bare.
fn run_around(
    alloc: Global,
    program: &CoreProgram,
    a: Around,
    limits: Limits,
) -> Result<Option<Turned>, AllocError>
    requires valid { IsValid a.program.now.classes }
    requires units { limits.units < 2 ^ 32 }
    requires bare { RunsBare a (view.program program.now) program.now.names (failing a.setup.now.annotated) }
    requires first { a.setup.now.isolate ≡ 0 }
    ensures { IfOk result (λ made. IsRun program.now (failing a.entry.setup.now.annotated) (budget limits) (option_map shown made)) }
{
    match run_first(alloc, a, limits) {
        Ok(turned) => Ok(turned),
        Err(_) => Err(AllocError),
    }
}
