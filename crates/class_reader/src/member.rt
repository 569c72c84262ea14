// The instance members that a class declares (ECMA-408, 10.1 Instance Methods to 10.5 Instance Variables).
#![tactic(auto, using(crate::proofs::Pushed::pushes))]

ghost use Rattle.std.specs.Prelude.{◌≡◌, ◌++◌, flat_map, map, OnOk, IfOk};
ghost use Rattle.dart_tree.specs.UnitView as unit_view;
ghost use Rattle.lower_leaf.specs.Seen.{seen};
ghost use Rattle.class_source.specs.Members as m;
ghost use Rattle.class_reader.specs.Seen.{all_members};

use crate::field::{add_fields, is_static};
use crate::method::{accessor, method, operator};
use crate::position::Positions;
use class_fault::program::Member;
use dart_tree::declaration::{Member as MemberTree, MemberKind};
use lower_leaf::fault::Want;
use lower_leaf::state::State;
use lower_leaf::surroundings::Surroundings;
use std::alloc::Global;

// What a member declares that isn't static, behind those before it. Constructors are no members.
fn add_declared<S: Surroundings, P: Positions>(
    alloc: Global,
    outside: &S,
    positions: &P,
    state: &State,
    found: &mut Vec<Member>,
    kind: &MemberKind,
) -> Result<(), Want>
    ensures { OnOk result (all_members (S.around outside.now) found.new ≡ all_members (S.around outside.now) found.old
        ++ m.declared_by (P.numbers positions.now) (seen (S.around outside.now) state.now) (unit_view.member_kind kind.now)) }
{
    match kind {
        MemberKind::Constructor(_) => Ok(()),
        MemberKind::Function(x) => {
            let made = method(alloc, outside, positions, state, x)?;
            found.push(made)?;
            Ok(())
        }
        MemberKind::Accessor(x) => {
            let made = accessor(alloc, outside, positions, state, x)?;
            found.push(made)?;
            Ok(())
        }
        MemberKind::Variables(x) => add_fields(alloc, outside, positions, state, found, x),
        MemberKind::Operator(x) => {
            let made = operator(alloc, outside, positions, state, x)?;
            found.push(made)?;
            Ok(())
        }
    }
}

// What a member declares, behind those before it.
fn add_member<S: Surroundings, P: Positions>(
    alloc: Global,
    outside: &S,
    positions: &P,
    state: &State,
    found: &mut Vec<Member>,
    one: &MemberTree,
) -> Result<(), Want>
    ensures { OnOk result (all_members (S.around outside.now) found.new ≡ all_members (S.around outside.now) found.old
        ++ m.instance_members (P.numbers positions.now) (seen (S.around outside.now) state.now) (unit_view.member one.now)) }
{
    if is_static(one.modifier) {
        return Ok(());
    }
    add_declared(alloc, outside, positions, state, found, &one.kind)
}

/// The instance members that a class declares, in source order.
pub fn instance_members<S: Surroundings, P: Positions>(
    alloc: Global,
    outside: &S,
    positions: &P,
    state: &State,
    all: &[MemberTree],
) -> Result<Vec<Member>, Want>
    ensures { IfOk result (λ made. all_members (S.around outside.now) made
        ≡ flat_map (m.instance_members (P.numbers positions.now) (seen (S.around outside.now) state.now)) (map unit_view.member all.now)) }
{
    let mut found = Vec::new(alloc);
    for one in all {
        add_member(alloc, outside, positions, state, &mut found, one)?;
    }
    Ok(found)
}
