// A loaded program is translated (ECMA-408, 18 Libraries and Scripts).
ghost use Rattle.std.specs.Prelude.{◌≡◌, IfOk};
ghost use Rattle.dart_lower.specs.Given.{annotated_around, given_of};
ghost use Rattle.lower_program.specs.Views.{outcome};
ghost use Rattle.scope_load.specs.State.{state_of};
ghost use Rattle.scope_program.specs.Made.{AreScopesOf};
ghost use Rattle.scope_program.specs.Program.{Scoping};
ghost use Rattle.translation.specs.Program as p;

use crate::copy::try_clone_table;
use crate::number::DeclaredNumbers;
use crate::unit::{file_names, source_units};
use dart_base::limit::TREE_DEPTH;
use dart_ir::class::Classes;
use dart_ir::number::DeclId;
use lower_annotation::annotations::annotations_of;
use lower_leaf::fault::Want;
use lower_program::program::{Outcome, core_of};
use lower_table::table::table_scopes;
use scope_load::loaded::Loaded;
use scope_program::program::ProgramScopes;
use std::alloc::Global;

/// The core of a loaded program that starts at this function, whose names mean what these scopes say, and whose table of classes is
/// this; or the first reason for which it has none. `Want` where memory or numbers run out, or the table of names lacks a name.
pub fn lower(
    alloc: Global,
    scopes: &ProgramScopes,
    loaded: &Loaded,
    classes: &Classes,
    main: DeclId,
) -> Result<Outcome, Want>
    ensures { IfOk result (λ made. (s : Scoping) → AreScopesOf s scopes.now
        → outcome (annotated_around s (state_of loaded.now) classes.now) made ≡ p.core (given_of s (state_of loaded.now) classes.now main.0)) }
{
    let base = table_scopes(alloc, scopes, classes)?;
    let numbers = DeclaredNumbers { scopes };
    let annotations = annotations_of(alloc, &base, &numbers, &scopes.homes, &loaded.units)?;
    let outside = annotations.over(&base);
    let all = source_units(alloc, &scopes.homes, &loaded.units)?;
    let files = file_names(alloc, &loaded.names)?;
    let table = try_clone_table(alloc, classes)?;
    core_of(alloc, &outside, &all, table, files, main, TREE_DEPTH)
}
