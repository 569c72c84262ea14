// Members that have a result type and the name of their class (ECMA-408, 10.6 Constructors).
ghost use Rattle.std.specs.Prelude.{◌≡◌, map};
ghost use Rattle.dart_tree.specs.UnitView as unit_view;
ghost use Rattle.dart_tree.specs.View as view;
ghost use Rattle.translation.specs.MemberNames as member_names;
ghost use Rattle.translation.specs.Program as p;
ghost use Rattle.lower_program.specs.Views.{source_unit};

use crate::declaration::SourceUnit;
use dart_base::place::Place;
use dart_tree::declaration::{AccessorKind, ClassKind, Decl, DeclKind, Member, MemberKind};
use dart_tree::identifier::Identifier;
use dart_tree::types::ResultType;
use lower_leaf::name::{place_of, text_of};
use lower_leaf::surroundings::Surroundings;

// The place of the name, where it is the class's and a result type is written.
fn named_as(class: &[u8], of: &Option<ResultType>, name: &Identifier) -> Option<Place>
    ensures { result ≡ member_names.named_as class.now (view.result_option of.now) name.now }
{
    if of.is_some() && text_of(name) == class {
        return Some(place_of(name));
    }
    None
}

// The name of an accessor.
fn accessor_name(of: &AccessorKind) -> &Identifier
    ensures { result.now ≡ member_names.accessor_name (unit_view.accessor_kind of.now) }
{
    match of {
        AccessorKind::Get(_, name) => name,
        AccessorKind::Set {
            word: _,
            name,
            parameters: _,
        } => name,
    }
}

// The place of the member's name, where it is the class's and a result type is written.
#[tactic(auto, using(crate::proofs::Trees::trees))]
fn of_member(class: &[u8], of: &MemberKind) -> Option<Place>
    ensures { result ≡ member_names.of_member class.now (unit_view.member_kind of.now) }
{
    match of {
        MemberKind::Function(x) => named_as(class, &x.result_type, &x.name),
        MemberKind::Accessor(x) => named_as(class, &x.result_type, accessor_name(&x.kind)),
        MemberKind::Constructor(_) => None,
        MemberKind::Variables(_) => None,
        MemberKind::Operator(_) => None,
    }
}

// The first in these members.
fn of_members(class: &[u8], all: &Vec<Member>) -> Option<Place>
    ensures { result ≡ member_names.of_members class.now (map unit_view.member all.now.items) }
{
    for one in all {
        if let Some(place) = of_member(class, &one.kind) {
            return Some(place);
        }
    }
    None
}

// The first in a declaration.
fn of_declaration(of: &DeclKind) -> Option<Place>
    ensures { result ≡ member_names.of_declaration (unit_view.decl_kind of.now) }
{
    match of {
        DeclKind::Class(x) => match &x.kind {
            ClassKind::Declared {
                superclass: _,
                interfaces: _,
                opening: _,
                members,
                closing: _,
            } => of_members(text_of(&x.name), members),
            ClassKind::Mixed {
                equals: _,
                superclass: _,
                mixins: _,
                interfaces: _,
                semicolon: _,
            } => None,
        },
        DeclKind::Alias(_) => None,
        DeclKind::Function(_) => None,
        DeclKind::Accessor(_) => None,
        DeclKind::Variables(_) => None,
        DeclKind::Enum(_) => None,
    }
}

// The first in these declarations.
fn of_declarations(all: &Vec<Decl>) -> Option<Place>
    ensures { result ≡ member_names.of_declarations (map unit_view.decl all.now.items) }
{
    for one in all {
        if let Some(place) = of_declaration(&one.kind) {
            return Some(place);
        }
    }
    None
}

/// The place of the first member that has a result type and the name of its class.
pub fn named_as_class<S: Surroundings>(outside: &S, units: &Vec<SourceUnit<'_>>) -> Option<Place>
    ensures { result ≡ p.named_as_class (map (source_unit (S.around outside.now)) units.now.items) }
{
    for one in units {
        if let Some(place) = of_declarations(one.declarations) {
            return Some(place);
        }
    }
    None
}
