// What becomes of a program whose units are all loaded.
ghost use Rattle.std.specs.Prelude.{◌≡◌, ◌<◌, ◌^◌, ℕ, IfOk, Some};
ghost use Rattle.dart_ir.specs.Classes.{IsValid};
ghost use Rattle.dart_lower.specs.Given.{given_of};
ghost use Rattle.lower_leaf.specs.Around.{Around};
ghost use Rattle.lower_program.specs.Views as views;
ghost use Rattle.machine_turn.specs.Turn as turn;
ghost use Rattle.scope_load.specs.State.{state_of};
ghost use Rattle.scope_program.specs.Made.{AreScopesOf};
ghost use Rattle.scope_program.specs.Program.{Scoping};
ghost use Rattle.translation.specs.Program as p;
ghost use Rattle.dart_execute.specs.Execution.{ExecutesAs, Follows, IsCoreOf, RunsIf, allowed, asked_mode, mentions_isolate};
ghost use Rattle.dart_execute.specs.Joined.{IsJoined};

use crate::cause::{Cause, core_cause};
use crate::isolate::mentions_isolate;
use class_size::build::ClassFault;
use core_names::program::are_within;
use core_program::program::CoreProgram;
use dart_base::limit::NESTED_CALLS;
use dart_base::names::Names;
use dart_base::place::Place;
use dart_class::build::build;
use dart_ir::class::Classes;
use dart_ir::number::DeclId;
use dart_lower::lower::lower;
use dart_run::mode::Mode;
use dart_run::run::run_program;
use dart_run::written::Written;
use dart_words::budget::Budget;
use dart_words::options::Options;
use lower_core::program::core_program;
use lower_leaf::fault::Want;
use lower_program::program::{Outcome, Program};
use lower_program::reason::place_of;
use machine_turn::turned::Limits;
use scope_load::loaded::Loaded;
use scope_program::program::{ProgramScopes, program_scopes};
use std::alloc::Global;
use table_accessor::number::number_accessors;

/// What becomes of a loaded program.
#[derive(Drop)]
pub enum Execution {
    /// It is refused for this, at this place.
    Refused(Place, Cause),
    /// It has what isn't built: constants, or what may start isolates.
    NotBuilt,
    /// It ran and wrote this.
    Ran(Written),
}

// The program that runs: a translated one, with the table of classes over which it was translated.
fn joined_core(
    alloc: Global,
    names: Names,
    classes: Classes,
    translated: Program,
) -> Result<CoreProgram, Want>
    ensures core { IfOk result (λ x. (a : Around) → a.texts ≡ names → IsJoined a translated.classes classes
        → IsCoreOf names classes (views.program a translated) x) }
    ensures classes { IfOk result (λ x. x.classes ≡ classes) }
{
    let made = core_program(alloc, names, translated)?;
    let joined = CoreProgram { classes, ..made };
    if !are_within(&joined) {
        return Err(Want);
    }
    Ok(joined)
}

fn limits_of(budget: Budget) -> Limits
    ensures allowed { turn.budget result ≡ allowed budget }
    ensures units { result.units ≡ budget.units }
{
    Limits {
        steps: budget.steps,
        units: budget.units,
        depth: NESTED_CALLS,
    }
}

fn asked_mode(checked: bool) -> Mode
    ensures { result ≡ asked_mode checked }
{
    if checked {
        Mode::Checked
    } else {
        Mode::Production
    }
}

// A translated program runs, unless it may start isolates. It shows the names that its units have without annotations.
fn run_translated(
    alloc: Global,
    loaded: &Loaded,
    kept: Names,
    names: Names,
    classes: Classes,
    translated: Program,
    options: Options,
) -> Result<Execution, Want>
    requires valid { IsValid classes }
    requires units { options.budget.units < 2 ^ 32 }
    ensures { IfOk result (λ out. (a : Around) → a.texts ≡ names → IsJoined a translated.classes classes
        → RunsIf (mentions_isolate (state_of loaded.now)) kept names classes (views.program a translated) (asked_mode options.checked) (allowed options.budget) out) }
{
    if mentions_isolate(loaded) {
        return Ok(Execution::NotBuilt);
    }
    let core = joined_core(alloc, names, classes, translated)?;
    let shown = CoreProgram {
        names: kept,
        ..core
    };
    let mode = asked_mode(options.checked);
    match run_program(alloc, &shown, mode, limits_of(options.budget)) {
        Ok(made) => Ok(Execution::Ran(made)),
        Err(_) => Err(Want),
    }
}

// What follows from translation over a table of classes.
fn translate(
    alloc: Global,
    loaded: &Loaded,
    scopes: ProgramScopes,
    classes: Classes,
    options: Options,
) -> Result<Execution, Want>
    requires valid { IsValid classes }
    requires units { options.budget.units < 2 ^ 32 }
    ensures { IfOk result (λ out. (s : Scoping) → AreScopesOf s scopes → (main : ℕ) × (s.main ≡ Some main)
        × Follows (state_of loaded.now) s.kept s.texts classes (asked_mode options.checked) (allowed options.budget)
        (p.core (given_of s (state_of loaded.now) classes main)) out) }
{
    let Some(main) = scopes.main else {
        return Err(Want);
    };
    match lower(alloc, &scopes, loaded, &classes, DeclId(main))? {
        Outcome::Rejected(why) => Ok(Execution::Refused(place_of(why), core_cause(why))),
        Outcome::NotBuilt => Ok(Execution::NotBuilt),
        Outcome::Accepted(translated) => {
            let kept = scopes.kept;
            run_translated(
                alloc,
                loaded,
                kept,
                scopes.names,
                classes,
                translated,
                options,
            )
        }
    }
}

/// What becomes of a loaded program against which nothing stands yet: it is refused for its classes, or for what translation finds, or it
/// runs as the options ask (ECMA-408, 10 Classes, 18.4 Scripts). `Want` where memory or numbers run out.
pub fn execute(alloc: Global, loaded: &Loaded, options: Options) -> Result<Execution, Want>
    requires { options.budget.units < 2 ^ 32 }
    ensures { IfOk result (ExecutesAs (state_of loaded.now) options) }
{
    let scopes = program_scopes(alloc, loaded)?;
    let _count = scopes.names.count();
    match build(alloc, &scopes, loaded) {
        Ok(classes) => {
            let numbered = number_accessors(alloc, &scopes, classes)?;
            translate(alloc, loaded, scopes, numbered, options)
        }
        Err(ClassFault::CyclicClasses(place)) => {
            Ok(Execution::Refused(place, Cause::CyclicClasses))
        }
        Err(ClassFault::BadSuper(place)) => Ok(Execution::Refused(place, Cause::BadSuper)),
        Err(ClassFault::BadMixin(place)) => Ok(Execution::Refused(place, Cause::BadMixin)),
        Err(ClassFault::TypesTooLarge(place)) => {
            Ok(Execution::Refused(place, Cause::TypesTooLarge))
        }
        Err(ClassFault::Memory) => Err(Want),
    }
}
