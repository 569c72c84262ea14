// What is added to the rows of a table.
ghost use Rattle.std.specs.Prelude.{◌≡◌, IfOk, length, map};
ghost use Rattle.lower_added.specs.Added.{constructors_added, starts_added};
ghost use Rattle.lower_added.specs.Written.{all_done};
ghost use Rattle.lower_table.specs.Made.{written_made};
ghost use Rattle.lower_table.specs.Rows.{added_rows, rows_of, starts_of};
ghost use Rattle.lower_table.specs.Table.{source_of};
ghost use Rattle.scope_program.specs.Made.{AreScopesOf};
ghost use Rattle.scope_program.specs.Program.{Scoping};

use crate::place::places_of;
use crate::row::{added_rows, applications, row_declarations};
use crate::source::{all_written, class_declarations, mixed};
use dart_ir::class::Classes;
use lower_added::added::{Additions, all_added};
use lower_leaf::fault::Want;
use scope_program::program::ProgramScopes;
use std::alloc::Global;

/// What is added to each row behind all declarations, where these rows are mixin applications, and these are the classes that they are
/// (ECMA-408, 10 Classes, 12.1 Mixin Application). `Want` where memory or numbers run out.
pub fn added_to_rows(
    alloc: Global,
    scopes: &ProgramScopes,
    applications: &[bool],
    declared: &[Option<u32>],
    classes: &Classes,
) -> Result<Additions, Want>
    ensures constructors { IfOk result (λ made. all_done scopes.now.kept made.constructors
        ≡ constructors_added (map (written_made scopes.now) scopes.now.classes.items) (length scopes.now.numbered.items)
        (added_rows (rows_of scopes.now.names classes.now) applications.now declared.now)) }
    ensures starts { IfOk result (λ made. made.starts.items
        ≡ starts_added (map (written_made scopes.now) scopes.now.classes.items) (length scopes.now.numbered.items)
        (added_rows (rows_of scopes.now.names classes.now) applications.now declared.now)) }
{
    let Ok(count) = u32::try_from(scopes.numbered.len()) else {
        return Err(Want);
    };
    let written = all_written(alloc, scopes)?;
    let rows = added_rows(alloc, &classes.classes, applications, declared)?;
    all_added(alloc, &written, count, &rows)
}

/// The number at which what is added to each row of a program's table begins: the first of its implicit accessors, where it has any.
/// `Want` where memory or numbers run out.
pub fn starts_of(alloc: Global, scopes: &ProgramScopes, classes: &Classes) -> Result<Vec<u32>, Want>
    ensures { IfOk result (λ made. (s : Scoping) → AreScopesOf s scopes.now → made.items ≡ starts_of (source_of s) (rows_of s.texts classes.now)) }
{
    let from_rows = row_declarations(alloc, &classes.classes)?;
    let from_classes = class_declarations(alloc, &scopes.classes)?;
    let declared = places_of(alloc, &from_rows, &from_classes)?;
    let mixed = mixed(alloc, &scopes.classes)?;
    let applications = applications(alloc, &mixed, &declared)?;
    let added = added_to_rows(alloc, scopes, &applications, &declared, classes)?;
    Ok(added.starts)
}
