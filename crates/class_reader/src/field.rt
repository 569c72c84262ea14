// Instance fields: each is a getter, and where it isn't final a setter (ECMA-408, 10.5 Instance Variables).
#![tactic(auto, using(crate::proofs::Pushed::pushes), unfolding(crate::specs::Seen::signature))]

ghost use Rattle.std.specs.Prelude.{◌≡◌, ◌++◌, ◌+◌, length, map, OnOk, IfOk};
ghost use Rattle.dart_ir.specs.declared.class.Role.TheVariants.{Getter, Setter};
ghost use Rattle.dart_tree.specs.UnitView as unit_view;
ghost use Rattle.dart_tree.specs.View as view;
ghost use Rattle.translation.specs.ClassBodies as b;
ghost use Rattle.translation.specs.Classes as cl;
ghost use Rattle.translation.specs.Types as y;
ghost use Rattle.lower_leaf.specs.Seen.{seen, asked};
ghost use Rattle.class_source.specs.Members as m;
ghost use Rattle.class_source.specs.View as shown;
ghost use Rattle.class_reader.specs.Seen.{all_members, more_members, signature};

use crate::position::{Positions, number_at};
use crate::signature::{getter_type, setter_type};
use class_fault::program::Member;
use dart_ir::class::Role;
use dart_ir::types::FunctionType;
use dart_tree::declaration::{Member as MemberTree, MemberKind, Modifier};
use dart_tree::identifier::Identifier;
use dart_tree::statement::{Variable, Variables};
use lower_leaf::fault::Want;
use lower_leaf::name::{own_name, place_of, text_of};
use lower_leaf::state::{Asked, State};
use lower_leaf::surroundings::Surroundings;
use lower_leaf::types::{asked_of_kind, is_final};
use std::alloc::Global;

// A member that a field induces.
fn induced<S: Surroundings, P: Positions>(
    alloc: Global,
    outside: &S,
    positions: &P,
    state: &State,
    name: &Identifier,
    role: Role,
    of: FunctionType,
) -> Result<Member, Want>
    ensures { IfOk result (λ made. shown.member (S.around outside.now).texts made
        ≡ m.induced (P.numbers positions.now) (seen (S.around outside.now) state.now) (y.word_of name.now) role (signature (S.around outside.now) of)) }
{
    let place = place_of(name);
    let found = own_name(alloc, outside, state.outer, text_of(name))?;
    let function = number_at(positions, place)?;
    Ok(Member {
        name: found,
        role,
        function,
        signature: of,
        place,
        has_body: true,
    })
}

// The getter of a field.
fn getter<S: Surroundings, P: Positions>(
    alloc: Global,
    outside: &S,
    positions: &P,
    state: &State,
    name: &Identifier,
    wanted: &Asked,
) -> Result<Member, Want>
    ensures { IfOk result (λ made. shown.member (S.around outside.now).texts made
        ≡ m.induced (P.numbers positions.now) (seen (S.around outside.now) state.now) (y.word_of name.now) Getter
        (b.getter_type (asked (S.around outside.now) wanted.now))) }
{
    let of = getter_type(alloc, outside, wanted)?;
    induced(alloc, outside, positions, state, name, Role::Getter, of)
}

// The setter of a field.
fn setter<S: Surroundings, P: Positions>(
    alloc: Global,
    outside: &S,
    positions: &P,
    state: &State,
    name: &Identifier,
    wanted: &Asked,
) -> Result<Member, Want>
    ensures { IfOk result (λ made. shown.member (S.around outside.now).texts made
        ≡ m.induced (P.numbers positions.now) (seen (S.around outside.now) state.now) (y.word_of name.now) Setter
        (b.setter_type (asked (S.around outside.now) wanted.now))) }
{
    let of = setter_type(alloc, outside, wanted)?;
    induced(alloc, outside, positions, state, name, Role::Setter, of)
}

// The members of a field, behind those before it.
fn add_field<S: Surroundings, P: Positions>(
    alloc: Global,
    outside: &S,
    positions: &P,
    state: &State,
    found: &mut Vec<Member>,
    name: &Identifier,
    wanted: &Asked,
    final_one: bool,
) -> Result<(), Want>
    ensures { OnOk result (all_members (S.around outside.now) found.new ≡ all_members (S.around outside.now) found.old
        ++ m.field_members (P.numbers positions.now) (seen (S.around outside.now) state.now) final_one (asked (S.around outside.now) wanted.now) (y.word_of name.now)) }
{
    let getter = getter(alloc, outside, positions, state, name, wanted)?;
    found.push(getter)?;
    if final_one {
        return Ok(());
    }
    let setter = setter(alloc, outside, positions, state, name, wanted)?;
    found.push(setter)?;
    Ok(())
}

// The members of the fields of a declaration behind the first.
fn add_more<S: Surroundings, P: Positions>(
    alloc: Global,
    outside: &S,
    positions: &P,
    state: &State,
    found: &mut Vec<Member>,
    all: &Vec<Variable>,
    wanted: &Asked,
    final_one: bool,
) -> Result<(), Want>
    ensures { OnOk result (all_members (S.around outside.now) found.new ≡ all_members (S.around outside.now) found.old
        ++ more_members (P.numbers positions.now) (seen (S.around outside.now) state.now) final_one (asked (S.around outside.now) wanted.now) all.now.items) }
{
    for one in all {
        add_field(
            alloc, outside, positions, state, found, &one.name, wanted, final_one,
        )?;
    }
    Ok(())
}

/// The members of the fields of a declaration, behind those before it.
#[tactic(auto, using(dart_tree::proofs::Rows::view_the_variables, crate::proofs::Pushed::joins))]
pub fn add_fields<S: Surroundings, P: Positions>(
    alloc: Global,
    outside: &S,
    positions: &P,
    state: &State,
    found: &mut Vec<Member>,
    tree: &Variables,
) -> Result<(), Want>
    ensures { OnOk result (all_members (S.around outside.now) found.new ≡ all_members (S.around outside.now) found.old
        ++ m.variable_members (P.numbers positions.now) (seen (S.around outside.now) state.now) (view.variables tree.now)) }
{
    let wanted = asked_of_kind(alloc, outside, state, &tree.kind)?;
    let final_one = is_final(&tree.kind);
    add_field(
        alloc, outside, positions, state, found, &tree.name, &wanted, final_one,
    )?;
    add_more(
        alloc, outside, positions, state, found, &tree.more, &wanted, final_one,
    )
}

/// Whether a member is static (10.7 Static Methods and 10.8 Static Variables).
pub fn is_static(of: Modifier) -> bool
    ensures { result ≡ cl.is_static of }
{
    match of {
        Modifier::Omitted => false,
        Modifier::Static(_) => true,
        Modifier::ExternalStatic(_, _) => true,
    }
}

// How many instance fields a member declares, with those before it.
#[tactic(auto, using(dart_tree::proofs::Rows::view_the_variables, crate::proofs::Counted::counted))]
fn count_with(count: u32, one: &MemberTree) -> Result<u32, Want>
    ensures { IfOk result (λ made. made ≡ count + length (m.fields_of_member (unit_view.member one.now))) }
{
    if is_static(one.modifier) {
        return Ok(count);
    }
    match &one.kind {
        MemberKind::Variables(tree) => {
            let Ok(more) = u32::try_from(tree.more.len()) else {
                return Err(Want);
            };
            let Some(first) = count.checked_add(1) else {
                return Err(Want);
            };
            first.checked_add(more).ok_or(Want)
        }
        MemberKind::Constructor(_) => Ok(count),
        MemberKind::Function(_) => Ok(count),
        MemberKind::Accessor(_) => Ok(count),
        MemberKind::Operator(_) => Ok(count),
    }
}

/// How many instance fields the members of a class declare. A class with more than there are numbers has no answer.
pub fn field_count(all: &[MemberTree]) -> Result<u32, Want>
    ensures { IfOk result (λ made. made ≡ m.field_count (map unit_view.member all.now)) }
{
    let mut count = 0;
    for one in all {
        count = count_with(count, one)?;
    }
    Ok(count)
}
