// A copy of a table of classes.
ghost use Rattle.std.specs.Prelude.{◌≡◌, IfOk, map};
ghost use Rattle.core_program.specs.ProgramView as v;

use core_program::tables::try_clone_classes;
use dart_ir::class::{Classes, MemberInfo};
use std::alloc::{AllocError, Global};

fn try_clone_member(alloc: Global, member: &MemberInfo) -> Result<MemberInfo, AllocError>
    ensures { IfOk result (λ copy. v.member copy ≡ v.member member.now) }
{
    Ok(MemberInfo {
        name: member.name,
        role: member.role,
        owner: member.owner,
        function: member.function,
        signature: member.signature.try_clone(alloc)?,
        place: member.place,
        has_body: member.has_body,
    })
}

fn try_clone_members(alloc: Global, members: &[MemberInfo]) -> Result<Vec<MemberInfo>, AllocError>
    ensures { IfOk result (λ copies. map v.member copies.items ≡ map v.member members.now) }
{
    let mut copies = Vec::new(alloc);
    for one in members {
        copies.push(try_clone_member(alloc, one)?)?;
    }
    Ok(copies)
}

/// An equal table.
pub fn try_clone_table(alloc: Global, table: &Classes) -> Result<Classes, AllocError>
    ensures classes { IfOk result (λ copy. map v.class copy.classes.items ≡ map v.class table.now.classes.items) }
    ensures members { IfOk result (λ copy. map v.member copy.members.items ≡ map v.member table.now.members.items) }
    ensures function { IfOk result (λ copy. copy.function ≡ table.now.function) }
{
    Ok(Classes {
        classes: try_clone_classes(alloc, &table.classes)?,
        members: try_clone_members(alloc, &table.members)?,
        function: table.function,
    })
}
