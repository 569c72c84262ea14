// Whether the names in the class declarations of a program are numbers of a table.
ghost use Rattle.std.specs.Prelude.{◌≡◌, ◌↔◌, IsTrue, map};
ghost use Rattle.std.specs.List.{flat_map};
ghost use Rattle.core_names.specs.Within.{are_below};
ghost use Rattle.class_within.specs.View as view;
ghost use Rattle.class_within.specs.Names.{superclass_names, header_type_names, member_names, class_names, program_names};
ghost use Rattle.class_within.specs.Within.{AreWithin};

use class_fault::program::{Declaration, HeaderType, Member, Program};
use core_names::types::{are_bounds_within, is_function_type_within, is_type_within};

/// Whether each name in the program is below the count, as how many names a table has. Takes no memory.
pub fn are_within(program: &Program, count: u32) -> bool
    ensures { IsTrue result ↔ AreWithin count program.now }
{
    is_program_within(program, count)
}

fn is_program_within(program: &Program, count: u32) -> bool
    ensures { result ≡ are_below count (program_names (view.program program.now)) }
{
    program.call.0 < count && are_declarations_within(&program.declarations, count)
}

fn are_declarations_within(declarations: &[Declaration], count: u32) -> bool
    ensures { result ≡ are_below count (flat_map class_names (map view.class declarations.now)) }
{
    for one in declarations {
        if !is_declaration_within(one, count) {
            return false;
        }
    }
    true
}

#[tactic(auto, using(core_names::proofs::Below::all_append))]
fn is_declaration_within(declaration: &Declaration, count: u32) -> bool
    ensures { result ≡ are_below count (class_names (view.class declaration.now)) }
{
    declaration.name.0 < count
        && are_bounds_within(&declaration.bounds, count)
        && is_superclass_within(&declaration.superclass, count)
        && are_headers_within(&declaration.mixins, count)
        && are_headers_within(&declaration.interfaces, count)
        && are_members_within(&declaration.members, count)
}

fn is_superclass_within(superclass: &Option<HeaderType>, count: u32) -> bool
    ensures { result ≡ are_below count (superclass_names (view.superclass superclass.now)) }
{
    match superclass {
        None => true,
        Some(t) => is_type_within(&t.of, count),
    }
}

fn are_headers_within(types: &[HeaderType], count: u32) -> bool
    ensures { result ≡ are_below count (flat_map header_type_names (map view.header_type types.now)) }
{
    for one in types {
        if !is_type_within(&one.of, count) {
            return false;
        }
    }
    true
}

fn are_members_within(members: &[Member], count: u32) -> bool
    ensures { result ≡ are_below count (flat_map member_names (map view.member members.now)) }
{
    for one in members {
        if !is_member_within(one, count) {
            return false;
        }
    }
    true
}

fn is_member_within(member: &Member, count: u32) -> bool
    ensures { result ≡ are_below count (member_names (view.member member.now)) }
{
    member.name.0 < count && is_function_type_within(&member.signature, count)
}
