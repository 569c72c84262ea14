// The instance members of the rows.
ghost use Rattle.std.specs.Prelude.{◌≡◌, ℕ, ◌<◌, ◌++◌, ◌∷◌, [], length, map, option_map, Some, IfOk, OnOk, slice_get};
ghost use Rattle.dart_ir.specs.Ty.{ty, tys};
ghost use Rattle.dart_ir.specs.declared.class.ClassInfo.{ClassInfo};
ghost use Rattle.class_table.specs.Members.{declared_in, mixed_in, described, descriptions, members_in, mixin_members, row_members, Adds, AreBelow};
ghost use Rattle.class_table.specs.Renumbered.{renumbered};

use crate::instance::put_in_function;
use crate::number::{narrow, number_of};
use crate::renumber::{renumber_all, renumber_function};
use crate::row::Draft;
use class_fault::program::{Declaration, Member};
use dart_ir::class::{ClassInfo, MemberInfo};
use dart_ir::number::{ClassId, MemberId};
use dart_ir::types::{TypeRef, Types};
use std::alloc::{AllocError, Global};

/// Adds the members of a row, and gives their numbers: those that the class declares, or those of the mixin that the row applies.
pub fn add_members(
    alloc: Global,
    draft: &Draft,
    declaration: &Declaration,
    before: &[ClassInfo],
    members: &mut Vec<MemberInfo>,
) -> Result<Vec<MemberId>, AllocError>
    requires { (c : ℕ) (info : ClassInfo) → slice_get before.now c ≡ Some info → AreBelow (length members.old.items) info.members.items }
    ensures { IfOk result (λ ids. Adds members.old.items members.new.items ids.items
        (row_members members.old.items before.now draft.now.numbers.now draft.now.row declaration.now
        (slice_get declaration.now.mixins.items draft.now.step)) draft.now.row) }
{
    if draft.step < declaration.mixins.len() {
        let mixin = &declaration.mixins[draft.step];
        let ids = add_mixin(alloc, draft, &mixin.of, before, members)?;
        return Ok(ids);
    }
    let ids = add_declared(alloc, draft, declaration, members)?;
    Ok(ids)
}

/// Adds a member, and its number.
fn add(
    members: &mut Vec<MemberInfo>,
    ids: &mut Vec<MemberId>,
    member: MemberInfo,
) -> Result<(), AllocError>
    ensures members { OnOk result (members.new.items ≡ members.old.items ++ member ∷ []) }
    ensures ids { OnOk result (ids.new.items ≡ ids.old.items ++ (record { 0 = length members.old.items }) ∷ []) }
{
    ids.push(MemberId(narrow(members.len())?))?;
    members.push(member)?;
    Ok(())
}

/// Adds the members that a class declares.
fn add_declared(
    alloc: Global,
    draft: &Draft,
    declaration: &Declaration,
    members: &mut Vec<MemberInfo>,
) -> Result<Vec<MemberId>, AllocError>
    ensures { IfOk result (λ ids. Adds members.old.items members.new.items ids.items
        (map (λ m. Some (declared_in draft.now.numbers.now draft.now.row m)) declaration.now.members.items) draft.now.row) }
{
    let mut ids = Vec::new(alloc);
    for member in &declaration.members {
        let info = declared_member(alloc, draft.numbers, draft.row, member)?;
        add(members, &mut ids, info)?;
    }
    Ok(ids)
}

/// Adds the members of a mixin that a row applies.
#[tactic(auto, using(dart_ir::proofs::View::views))]
fn add_mixin(
    alloc: Global,
    draft: &Draft,
    mixin: &TypeRef,
    before: &[ClassInfo],
    members: &mut Vec<MemberInfo>,
) -> Result<Vec<MemberId>, AllocError>
    requires { (c : ℕ) (info : ClassInfo) → slice_get before.now c ≡ Some info → AreBelow (length members.old.items) info.members.items }
    ensures { IfOk result (λ ids. Adds members.old.items members.new.items ids.items
        (mixin_members members.old.items before.now draft.now.row (renumbered draft.now.numbers.now (ty mixin.now))) draft.now.row) }
{
    let none = Vec::new(alloc);
    match mixin {
        TypeRef::Class(class, given) => {
            let arguments = renumber_all(alloc, draft.numbers, given)?;
            let number = number_of(draft.numbers, class.0 as usize) as usize;
            if number >= before.len() {
                return Ok(none);
            }
            let ids = add_mixed(
                alloc,
                draft.row,
                &arguments,
                &before[number].members,
                members,
            )?;
            Ok(ids)
        }
        TypeRef::Dynamic => Ok(none),
        TypeRef::Bottom => Ok(none),
        TypeRef::Void => Ok(none),
        TypeRef::Param(_) => Ok(none),
        TypeRef::Function(_) => Ok(none),
    }
}

/// Adds the members of a class with type arguments put in.
fn add_mixed(
    alloc: Global,
    row: u32,
    arguments: &[TypeRef],
    mixin: &[MemberId],
    members: &mut Vec<MemberInfo>,
) -> Result<Vec<MemberId>, AllocError>
    requires { AreBelow (length members.old.items) mixin.now }
    ensures { IfOk result (λ ids. Adds members.old.items members.new.items ids.items
        (map (option_map (mixed_in row (tys arguments.now))) (descriptions members.old.items mixin.now)) row) }
{
    let mut ids = Vec::new(alloc);
    for id in mixin {
        let info = mixed_member(alloc, row, arguments, &members[id.0 as usize])?;
        add(members, &mut ids, info)?;
    }
    Ok(ids)
}

/// A declared member, as one of the class in a row.
fn declared_member(
    alloc: Global,
    numbers: &[u32],
    row: u32,
    member: &Member,
) -> Result<MemberInfo, AllocError>
    ensures { IfOk result (λ m. described m ≡ declared_in numbers.now row member.now) }
{
    let signature = renumber_function(alloc, numbers, &member.signature)?;
    Ok(MemberInfo {
        name: member.name,
        role: member.role,
        owner: ClassId(row),
        function: member.function,
        signature,
        place: member.place,
        has_body: member.has_body,
    })
}

/// A mixin's member, as one of the class in a row that gives the mixin these type arguments.
fn mixed_member(
    alloc: Global,
    row: u32,
    arguments: &[TypeRef],
    member: &MemberInfo,
) -> Result<MemberInfo, AllocError>
    ensures { IfOk result (λ m. described m ≡ mixed_in row (tys arguments.now) (described member.now)) }
{
    let signature = put_in_function(alloc, &member.signature, arguments)?;
    Ok(MemberInfo {
        name: member.name,
        role: member.role,
        owner: ClassId(row),
        function: member.function,
        signature,
        place: member.place,
        has_body: member.has_body,
    })
}
