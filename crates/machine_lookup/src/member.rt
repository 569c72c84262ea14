// Members on the chain of a class.
ghost use Rattle.std.specs.Prelude.{◌≡◌, None, Some, map, find};
ghost use Rattle.dart_ir.specs.declared.number.MemberId.{MemberId};
ghost use Rattle.dart_ir.specs.Ty.{ty};
ghost use Rattle.core_program.specs.ProgramView as v;
ghost use Rattle.evaluation.specs.Classes.{class_at, member_at, class_number, superclass, same_role, is_declaration, own_members, members_along, chain_within, member};

use crate::program::{class_at, member_at};
use core_program::program::CoreProgram;
use dart_ir::class::Role;
use dart_ir::number::MemberId;
use dart_ir::types::TypeRef;

/// The first declaration of that name and role on the chain of the class. One without a body is no declaration.
pub fn member(program: &CoreProgram, class: u32, name: u32, role: Role) -> Option<u32>
    ensures { result ≡ member (v.program program.now) (Some class) name role }
{
    up(
        program,
        program.classes.classes.len(),
        Some(class),
        name,
        role,
    )
}

// The same among so many classes of the chain.
#[tactic(auto, using(crate::proofs::Up::up_none, crate::proofs::Up::up_some, crate::proofs::Up::up_zero, crate::proofs::Listed::listed))]
fn up(program: &CoreProgram, count: usize, class: Option<u32>, name: u32, role: Role) -> Option<u32>
    ensures { result ≡ find (λ m. is_declaration (member_at (v.program program.now) m) name role) (members_along (v.program program.now) (chain_within count (v.program program.now) class)) }
{
    if count == 0 {
        return None;
    }
    let Some(number) = class else {
        return None;
    };
    match own_member(program, number, name, role) {
        Some(found) => Some(found),
        None => up(program, count - 1, superclass(program, number), name, role),
    }
}

fn own_member(program: &CoreProgram, class: u32, name: u32, role: Role) -> Option<u32>
    ensures { result ≡ find (λ m. is_declaration (member_at (v.program program.now) m) name role) (own_members (class_at (v.program program.now) class)) }
{
    match class_at(program, class) {
        None => None,
        Some(info) => declared(program, info.members.as_slice(), name, role),
    }
}

#[tactic(auto, using(crate::proofs::Up::find_numbers))]
fn declared(program: &CoreProgram, members: &[MemberId], name: u32, role: Role) -> Option<u32>
    ensures { result ≡ find (λ m. is_declaration (member_at (v.program program.now) m) name role) (map (λ (m : MemberId). m.0) members.now) }
{
    match first_declared(program, members, name, role) {
        None => None,
        Some(found) => Some(found.0),
    }
}

fn first_declared(
    program: &CoreProgram,
    members: &[MemberId],
    name: u32,
    role: Role,
) -> Option<MemberId>
    ensures { result ≡ find (λ (m : MemberId). is_declaration (member_at (v.program program.now) m.0) name role) members.now }
{
    members
        .iter()
        .copied()
        .find(|m| is_declaration(program, m.0, name, role))
}

fn is_declaration(program: &CoreProgram, member: u32, name: u32, role: Role) -> bool
    ensures { result ≡ is_declaration (member_at (v.program program.now) member) name role }
{
    match member_at(program, member) {
        None => false,
        Some(info) => info.name.0 == name && (is_same(info.role, role) && info.has_body),
    }
}

fn is_same(a: Role, b: Role) -> bool
    ensures { result ≡ same_role a b }
{
    match (a, b) {
        (Role::Method, Role::Method) => true,
        (Role::Getter, Role::Getter) => true,
        (Role::Setter, Role::Setter) => true,
        _ => false,
    }
}

/// The superclass of a class.
#[tactic(auto, using(dart_ir::proofs::View::views))]
pub fn superclass(program: &CoreProgram, class: u32) -> Option<u32>
    ensures { result ≡ superclass (v.program program.now) class }
{
    match class_at(program, class) {
        None => None,
        Some(info) => class_number(&info.superclass),
    }
}

#[tactic(auto, using(dart_ir::proofs::View::views))]
fn class_number(of: &Option<TypeRef>) -> Option<u32>
    ensures { result ≡ class_number (v.ty_option of.now) }
{
    match of {
        Some(TypeRef::Class(class, _)) => Some(class.0),
        Some(TypeRef::Dynamic) => None,
        Some(TypeRef::Bottom) => None,
        Some(TypeRef::Void) => None,
        Some(TypeRef::Param(_)) => None,
        Some(TypeRef::Function(_)) => None,
        None => None,
    }
}
