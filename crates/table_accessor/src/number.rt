// The members that fields induce get the numbers of their functions.
ghost use Rattle.std.specs.Prelude.{◌≡◌, IfOk, OnOk, map};
ghost use Rattle.core_program.specs.ProgramView as pv;
ghost use Rattle.dart_ir.specs.Classes.{IsValid};
ghost use Rattle.dart_ir.specs.declared.class.Classes as code;
ghost use Rattle.scope_program.specs.Made.{AreScopesOf};
ghost use Rattle.scope_program.specs.Program.{Scoping};
ghost use Rattle.table_accessor.specs.Numbered.{IsNumbered, all_numbered, is_accessor, is_field_at, is_induced, next_in, number_after, start_at, with_number};

use dart_ir::class::{Classes, MemberInfo, Role};
use dart_ir::number::DeclId;
use lower_added::written::is_field;
use lower_leaf::fault::Want;
use lower_table::addition::starts_of;
use scope_declared::declaration::Declared;
use scope_program::program::ProgramScopes;
use std::alloc::Global;

fn is_accessor(role: Role) -> bool
    ensures { result ≡ is_accessor role }
{
    match role {
        Role::Method => false,
        Role::Getter | Role::Setter => true,
    }
}

// Whether the declaration of that number is a field of each instance.
fn is_field_at(numbered: &[Declared], number: u32) -> bool
    ensures { result ≡ is_field_at numbered.now number }
{
    match numbered.get(number as usize) {
        None => false,
        Some(declared) => is_field(declared.kind),
    }
}

fn is_induced(numbered: &[Declared], member: &MemberInfo) -> bool
    ensures { result ≡ is_induced numbered.now (pv.member member.now) }
{
    is_accessor(member.role) && is_field_at(numbered, member.function.0)
}

// Where what is added to a row begins.
fn start_at(starts: &[u32], row: u32) -> u32
    ensures { result ≡ start_at starts.now row }
{
    starts.get(row as usize).copied().unwrap_or(0)
}

// The next number in the row of an owner, where this is the next in the row at hand.
fn next_in(starts: &[u32], row: u32, next: u32, owner: u32) -> u32
    ensures { result ≡ next_in starts.now row next owner }
{
    if owner == row {
        next
    } else {
        start_at(starts, owner)
    }
}

// An induced member takes the number; the next one is the answer.
fn number_member(member: &mut MemberInfo, numbered: &[Declared], number: u32) -> Result<u32, Want>
    ensures member { OnOk result (pv.member member.new ≡ with_number (is_induced numbered.now (pv.member member.old)) number (pv.member member.old)) }
    ensures next { IfOk result (λ next. next ≡ number_after (is_induced numbered.now (pv.member member.old)) number) }
{
    if !is_induced(numbered, member) {
        return Ok(number);
    }
    member.function = DeclId(number);
    number.checked_add(1).ok_or(Want)
}

fn number_members(
    members: &mut [MemberInfo],
    numbered: &[Declared],
    starts: &[u32],
) -> Result<(), Want>
    ensures { OnOk result (map pv.member members.new ≡ all_numbered numbered.now starts.now (map pv.member members.old)) }
{
    let mut row = 0;
    let mut next = start_at(starts, 0);
    for member in members.iter_mut() {
        let owner = member.owner.0;
        let number = next_in(starts, row, next, owner);
        next = number_member(member, numbered, number)?;
        row = owner;
    }
    Ok(())
}

/// The table of a program in which each member that a field induces has the number of its own function, as translation adds it
/// behind all declarations (ECMA-408, 10.5 Instance Variables, 12.1 Mixin Application). `Want` where memory or numbers run out.
pub fn number_accessors(
    alloc: Global,
    scopes: &ProgramScopes,
    classes: Classes,
) -> Result<Classes, Want>
    ensures numbered { IfOk result (λ made. (s : Scoping) → AreScopesOf s scopes.now → IsNumbered s classes made) }
    ensures valid { IsValid classes → IfOk result (λ made. IsValid made) }
{
    let mut made = classes;
    let starts = starts_of(alloc, scopes, &made)?;
    number_members(&mut made.members, &scopes.numbered, &starts)?;
    Ok(made)
}

/// Equal tables stay equal.
pub fn equal_tables_stay_equal()
    ensures { (s : Scoping) (k j made other : code.Classes) → IsNumbered s k made → IsNumbered s j other
        → map pv.class k.classes.items ≡ map pv.class j.classes.items → map pv.member k.members.items ≡ map pv.member j.members.items → k.function ≡ j.function
        → (map pv.class made.classes.items ≡ map pv.class other.classes.items) × (map pv.member made.members.items ≡ map pv.member other.members.items)
        × (made.function ≡ other.function) }
{}
