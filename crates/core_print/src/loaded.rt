// The core of a program whose units are all loaded.
ghost use Rattle.std.specs.Prelude.{◌≡◌, ℕ, IfOk, Some};
ghost use Rattle.dart_execute.specs.Execution.{IsCoreOf};
ghost use Rattle.dart_execute.specs.Joined.{IsJoined};
ghost use Rattle.dart_lower.specs.Given.{given_of};
ghost use Rattle.lower_leaf.specs.Around.{Around};
ghost use Rattle.lower_program.specs.Views as views;
ghost use Rattle.scope_load.specs.State.{state_of};
ghost use Rattle.scope_program.specs.Made.{AreScopesOf};
ghost use Rattle.scope_program.specs.Program.{Scoping};
ghost use Rattle.translation.specs.Program as p;
ghost use Rattle.core_print.specs.Core.{MakesCore, TranslatesTo};

use class_size::build::ClassFault;
use core_names::program::are_within;
use core_program::program::CoreProgram;
use dart_base::names::Names;
use dart_class::build::build;
use dart_ir::class::Classes;
use dart_ir::number::DeclId;
use dart_lower::lower::lower;
use lower_core::program::core_program;
use lower_leaf::fault::Want;
use lower_program::program::{Outcome, Program};
use scope_load::loaded::Loaded;
use scope_program::program::{ProgramScopes, program_scopes};
use std::alloc::Global;
use table_accessor::number::number_accessors;

// A translated program as the machine runs it, with the table of classes over which it was translated.
fn joined_core(
    alloc: Global,
    names: Names,
    classes: Classes,
    translated: Program,
) -> Result<CoreProgram, Want>
    ensures { IfOk result (λ x. (a : Around) → a.texts ≡ names → IsJoined a translated.classes classes
        → IsCoreOf names classes (views.program a translated) x) }
{
    let made = core_program(alloc, names, translated)?;
    let joined = CoreProgram { classes, ..made };
    if !are_within(&joined) {
        return Err(Want);
    }
    Ok(joined)
}

// What follows from translation over a table of classes.
fn translate(
    alloc: Global,
    loaded: &Loaded,
    scopes: ProgramScopes,
    classes: Classes,
) -> Result<Option<CoreProgram>, Want>
    ensures { IfOk result (λ found. (s : Scoping) → AreScopesOf s scopes → (main : ℕ) × (s.main ≡ Some main)
        × TranslatesTo s.texts classes (p.core (given_of s (state_of loaded.now) classes main)) found) }
{
    let Some(main) = scopes.main else {
        return Err(Want);
    };
    match lower(alloc, &scopes, loaded, &classes, DeclId(main))? {
        Outcome::Rejected(_) => Ok(None),
        Outcome::NotBuilt => Ok(None),
        Outcome::Accepted(translated) => {
            let core = joined_core(alloc, scopes.names, classes, translated)?;
            Ok(Some(core))
        }
    }
}

/// The core of a loaded program against which nothing stands yet, or None where it has none: it is refused for its classes or for what
/// translation finds, or has what isn't built (ECMA-408, 10 Classes, 18.4 Scripts). `Want` where memory or numbers run out.
pub fn core_of(alloc: Global, loaded: &Loaded) -> Result<Option<CoreProgram>, Want>
    ensures { IfOk result (MakesCore (state_of loaded.now)) }
{
    let scopes = program_scopes(alloc, loaded)?;
    let _count = scopes.names.count();
    match build(alloc, &scopes, loaded) {
        Ok(classes) => {
            let numbered = number_accessors(alloc, &scopes, classes)?;
            translate(alloc, loaded, scopes, numbered)
        }
        Err(ClassFault::CyclicClasses(_)) => Ok(None),
        Err(ClassFault::BadSuper(_)) => Ok(None),
        Err(ClassFault::BadMixin(_)) => Ok(None),
        Err(ClassFault::TypesTooLarge(_)) => Ok(None),
        Err(ClassFault::Memory) => Err(Want),
    }
}
