// Redirecting constructors, of which none leads back to itself (ECMA-408, 10.6.1 Generative Constructors).
ghost use Rattle.std.specs.Prelude.{◌≡◌, map, MatchOption, None, Some, Option};
ghost use Rattle.dart_tree.specs.UnitView as unit_view;
ghost use Rattle.dart_tree.specs.View as view;
ghost use Rattle.translation.specs.Classes as cl;
ghost use Rattle.translation.specs.Productions as low;
ghost use Rattle.translation.specs.Surroundings.{Text};
ghost use Rattle.lower_leaf.specs.Gives.{Gives};
ghost use Rattle.lower_leaf.specs.Nests.{NestsFunction};
ghost use Rattle.lower_leaf.specs.Seen.{seen};
ghost use Rattle.lower_operand.specs.Made.{all_forms};

use crate::initialise::{generative, handed_on, id_of};
use core_program::form::Core;
use dart_base::place::Place;
use dart_ir::number::ClassId;
use dart_tree::declaration::{Constructor, Member, MemberKind};
use dart_tree::expression::Arguments;
use dart_tree::identifier::DotName;
use dart_tree::parameter::Parameters;
use dart_tree::statement::Body;
use lower_leaf::fault::LowerFault;
use lower_leaf::inner::Inner;
use lower_leaf::state::State;
use lower_leaf::surroundings::Surroundings;
use std::alloc::Global;

// The id to which a constructor redirects, if it is a redirecting one with the id.
fn redirects<'a>(of: &'a Constructor, id: &[u8]) -> Option<&'a [u8]>
    ensures { (later : Option Text) → MatchOption result (cl.redirects (unit_view.constructor of.now) id.now later ≡ later)
        (λ found. cl.redirects (unit_view.constructor of.now) id.now later ≡ Some found.now) }
{
    match of {
        Constructor::Redirecting {
            name,
            parameters: _,
            colon: _,
            this: _,
            constructor,
            arguments: _,
            semicolon: _,
        } => {
            if id_of(&name.name) == id {
                return Some(id_of(constructor));
            }
            None
        }
        Constructor::Generative {
            constant: _,
            name: _,
            parameters: _,
            initializers: _,
            body: _,
        } => None,
        Constructor::Factory {
            external: _,
            word: _,
            name: _,
            parameters: _,
            body: _,
        } => None,
        Constructor::RedirectingFactory {
            external: _,
            word: _,
            name: _,
            parameters: _,
            equals: _,
            class: _,
            constructor: _,
            semicolon: _,
        } => None,
    }
}

// The id to which a member redirects, if it is a redirecting constructor with the id.
fn target_of<'a>(of: &'a MemberKind, id: &[u8]) -> Option<&'a [u8]>
    ensures { (later : Option Text) → MatchOption result (cl.target_of (unit_view.member_kind of.now) id.now later ≡ later)
        (λ found. cl.target_of (unit_view.member_kind of.now) id.now later ≡ Some found.now) }
{
    match of {
        MemberKind::Constructor(x) => redirects(x, id),
        MemberKind::Function(_) => None,
        MemberKind::Accessor(_) => None,
        MemberKind::Variables(_) => None,
        MemberKind::Operator(_) => None,
    }
}

// The id of the constructor to which the one with the id redirects.
fn target_in<'a>(members: &'a Vec<Member>, id: &[u8]) -> Option<&'a [u8]>
    ensures { MatchOption result (cl.target_in (map unit_view.member members.now.items) id.now ≡ None)
        (λ found. cl.target_in (map unit_view.member members.now.items) id.now ≡ Some found.now) }
{
    for one in members {
        if let Some(found) = target_of(&one.kind, id) {
            return Some(found);
        }
    }
    None
}

/// Whether the constructor with the id redirects to itself, through others perhaps.
pub fn is_circular(members: &Vec<Member>, id: &[u8]) -> bool
    ensures { result ≡ cl.is_circular (map unit_view.member members.now.items) id.now }
{
    let mut at = target_in(members, id);
    for _turn in 0..members.len() {
        match at {
            None => return false,
            Some(target) => {
                if target == id {
                    return true;
                }
                at = target_in(members, target);
            }
        }
    }
    false
}

/// The call of another constructor of the class, unless it leads back.
pub fn redirected<
    S: Surroundings,
    F: Fn(Global, &S, &mut State, usize, &Parameters, &Body) -> Result<u32, LowerFault>,
>(
    alloc: Global,
    outside: &S,
    inner: &Inner<F>,
    state: &mut State,
    handed: &Arguments,
    is_circular: bool,
    place: Place,
    class: ClassId,
    other: &Option<DotName>,
) -> Result<Vec<Core>, LowerFault>
    requires { NestsFunction S.around inner.now.limit (F.pre inner.now.function) (F.post inner.now.function) }
    ensures { Gives (all_forms (S.around outside.now)) result (seen (S.around outside.now) state.new)
        (cl.redirected_if is_circular place (cl.generative class.0 other.now (seen (S.around outside.now) state.old))
        (low.arguments (view.arguments handed.now)) (seen (S.around outside.now) state.old)) }
{
    if is_circular {
        return Err(LowerFault::BadConstructor(place));
    }
    let number = generative(alloc, outside, state, class, other)?;
    handed_on(alloc, outside, inner, state, handed, place, number)
}
