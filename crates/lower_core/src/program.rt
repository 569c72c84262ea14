// The program that a machine runs (ECMA-408, 18 Libraries and Scripts).
ghost use Rattle.std.specs.Prelude.{◌≡◌, [], IfOk};
ghost use Rattle.core_program.specs.ProgramView.{text_program};
ghost use Rattle.lower_leaf.specs.Around.{Around, text};
ghost use Rattle.lower_program.specs.Views as views;
ghost use Rattle.lower_core.specs.Runnable as runnable;

use crate::table::{functions_of, statics_of};
use core_program::program::CoreProgram;
use dart_base::name::Name;
use dart_base::names::Names;
use lower_leaf::fault::Want;
use lower_program::program::Program;
use std::alloc::Global;

// The name of the empty text.
fn empty_name(names: &Names) -> Result<Name, Want>
    ensures { IfOk result (λ name. (a : Around) → a.texts ≡ names.now → text a name ≡ []) }
{
    names.find("").ok_or(Want)
}

/// The program that a machine runs, with the names of this table. A declaration that is no function is `Absent` in it, and one that is no
/// variable has no initialiser. `Want` where memory runs out, or where the table lacks the empty text, which is the name of both.
pub fn core_program(alloc: Global, names: Names, lowered: Program) -> Result<CoreProgram, Want>
    ensures names { IfOk result (λ made. made.names ≡ names) }
    ensures classes { IfOk result (λ made. made.classes ≡ lowered.classes) }
    ensures program { IfOk result (λ made. (a : Around) → a.texts ≡ names →
        text_program made ≡ runnable.program (views.program a lowered)) }
{
    let nameless = empty_name(&names)?;
    let functions = functions_of(alloc, nameless, lowered.functions)?;
    let statics = statics_of(alloc, nameless, lowered.statics)?;
    Ok(CoreProgram {
        names,
        units: lowered.units,
        classes: lowered.classes,
        functions,
        statics,
        sites: lowered.sites,
        literals: lowered.literals,
        constants: Vec::new(alloc),
        main: lowered.main,
    })
}
