// The table of classes of a program, row by row.
ghost use Rattle.std.specs.Prelude.{◌≡◌, ◌<◌, ◌≤◌, ◌^◌, [], length, IfOk, None, slice_index};
ghost use Rattle.class_order.specs.Rows.{AreRows};
ghost use Rattle.class_fault.specs.Graph.{IsGraph};
ghost use Rattle.class_fault.specs.Fault.{IsFirstFrom};
ghost use Rattle.dart_ir.specs.Classes.{IsValid};
ghost use Rattle.class_table.specs.Program.{IsProgram};
ghost use Rattle.class_table.specs.Rows.{IsTable};
ghost use Rattle.class_table.specs.Members.{AreMembers};

use crate::members::add_members;
use crate::number::{narrow, narrow_all, number_of};
use crate::row::{Draft, class_of};
use class_fault::program::Program;
use class_order::header::Header;
use class_order::rows::{Row, Rows};
use dart_ir::class::{ClassInfo, Classes, MemberInfo};
use dart_ir::number::ClassId;
use std::alloc::{AllocError, Global};

/// The table of a program without a fault in its headers. It is valid.
pub fn table(
    alloc: Global,
    program: &Program,
    headers: &[Header],
    rows: &Rows,
) -> Result<Classes, AllocError>
    requires program { IsProgram program.now }
    requires graph { IsGraph program.now headers.now }
    requires no_fault { IsFirstFrom program.now headers.now 0 None }
    requires rows { AreRows headers.now rows.now.rows.items rows.now.numbers.items }
    ensures valid { IfOk result (λ k. IsValid k) }
    ensures rows { IfOk result (λ k. IsTable program.now rows.now.numbers.items rows.now.rows.items (length rows.now.rows.items) k.classes.items) }
    ensures members { IfOk result (λ k. AreMembers program.now rows.now.numbers.items rows.now.rows.items (length rows.now.rows.items) k.classes.items k.members.items) }
    ensures function { IfOk result (λ k. k.function.0 ≡ slice_index rows.now.numbers.items program.now.function) }
{
    let numbers = narrow_all(alloc, &rows.numbers)?;
    let mut members = Vec::new(alloc);
    let classes = classes_of(alloc, program, headers, &numbers, &rows.rows, &mut members)?;
    Ok(Classes {
        classes,
        members,
        function: ClassId(number_of(&numbers, program.function)),
    })
}

/// The classes of the rows, with their members.
fn classes_of(
    alloc: Global,
    program: &Program,
    headers: &[Header],
    numbers: &[u32],
    rows: &[Row],
    members: &mut Vec<MemberInfo>,
) -> Result<Vec<ClassInfo>, AllocError>
    requires program { IsProgram program.now }
    requires graph { IsGraph program.now headers.now }
    requires rows { AreRows headers.now rows.now numbers.now }
    requires empty { members.old.items ≡ [] }
    ensures table { IfOk result (λ v. IsTable program.now numbers.now rows.now (length rows.now) v.items) }
    ensures members { IfOk result (λ v. AreMembers program.now numbers.now rows.now (length rows.now) v.items members.new.items) }
{
    let mut classes = Vec::new(alloc);
    for (c, row) in rows.iter().enumerate() {
        let declaration = &program.declarations[row.class];
        let draft = Draft {
            program,
            numbers,
            class: row.class,
            step: row.step,
            row: narrow(c)?,
        };
        let ids = add_members(alloc, &draft, declaration, &classes, members)?;
        classes.push(class_of(alloc, &draft, declaration, &classes, ids)?)?;
    }
    Ok(classes)
}
