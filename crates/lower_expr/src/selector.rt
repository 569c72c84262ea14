// What selectors read, call or refer to (ECMA-408, 16 Expressions).
ghost use Rattle.dart_tree.specs.Lists.{selectors_of};
ghost use Rattle.dart_tree.specs.View as view;
ghost use Rattle.translation.specs.Productions as low;
ghost use Rattle.lower_leaf.specs.Gives.{Gives};
ghost use Rattle.lower_leaf.specs.Nests.{NestsFunction};
ghost use Rattle.lower_leaf.specs.Seen.{seen};
ghost use Rattle.lower_reference.specs.Referred.{reference};

use crate::list::arguments;
use crate::lower::expr;
use dart_base::place::Place;
use dart_tree::expression::Selector;
use dart_tree::parameter::Parameters;
use dart_tree::statement::Body;
use lower_leaf::fault::LowerFault;
use lower_leaf::inner::Inner;
use lower_leaf::name::text_of;
use lower_leaf::state::State;
use lower_leaf::surroundings::Surroundings;
use lower_reference::call::called;
use lower_reference::read::read;
use lower_reference::reference::{Reference, name_of};
use lower_reference::select::{callable, member_of};
use std::alloc::Global;

/// A selector behind `super` (16.17.3 Super Invocation).
#[cycle(lower)]
pub fn super_selected<
    S: Surroundings,
    F: Fn(Global, &S, &mut State, usize, &Parameters, &Body) -> Result<u32, LowerFault>,
>(
    alloc: Global,
    outside: &S,
    inner: &Inner<F>,
    state: &mut State,
    selector: &Selector,
    word: Place,
) -> Result<Reference, LowerFault>
    requires { NestsFunction S.around inner.now.limit (F.pre inner.now.function) (F.post inner.now.function) }
    ensures { Gives (reference (S.around outside.now)) result (seen (S.around outside.now) state.new)
        (low.super_selected word (view.selector selector.now) (seen (S.around outside.now) state.old)) }
{
    match selector {
        Selector::Member(_, name) => {
            if !state.inside.has_instance {
                return Err(LowerFault::BadWord(word));
            }
            let name = name_of(alloc, outside, state, text_of(name))?;
            Ok(Reference::SuperMember(name))
        }
        Selector::Index {
            opening: _,
            value,
            closing: _,
        } => {
            if !state.inside.has_instance {
                return Err(LowerFault::BadWord(word));
            }
            Ok(Reference::SuperItem(expr(alloc, outside, inner, state, value)?))
        }
        Selector::Call(_) => Err(LowerFault::BadConstructor(word)),
    }
}

/// Selectors from the left, in a node that begins at the place.
#[cycle(lower)]
pub fn selectors<
    S: Surroundings,
    F: Fn(Global, &S, &mut State, usize, &Parameters, &Body) -> Result<u32, LowerFault>,
>(
    alloc: Global,
    outside: &S,
    inner: &Inner<F>,
    state: &mut State,
    all: &Vec<Selector>,
    place: Place,
    first: Reference,
) -> Result<Reference, LowerFault>
    requires { NestsFunction S.around inner.now.limit (F.pre inner.now.function) (F.post inner.now.function) }
    ensures { Gives (reference (S.around outside.now)) result (seen (S.around outside.now) state.new)
        (low.selectors place (selectors_of all.now.items) (reference (S.around outside.now) first) (seen (S.around outside.now) state.old)) }
{
    let mut target = first;
    for one in all {
        target = selected(alloc, outside, inner, state, one, place, target)?;
    }
    Ok(target)
}

// A reference with a selector behind it.
#[cycle(lower)]
fn selected<
    S: Surroundings,
    F: Fn(Global, &S, &mut State, usize, &Parameters, &Body) -> Result<u32, LowerFault>,
>(
    alloc: Global,
    outside: &S,
    inner: &Inner<F>,
    state: &mut State,
    selector: &Selector,
    place: Place,
    target: Reference,
) -> Result<Reference, LowerFault>
    requires { NestsFunction S.around inner.now.limit (F.pre inner.now.function) (F.post inner.now.function) }
    ensures { Gives (reference (S.around outside.now)) result (seen (S.around outside.now) state.new)
        (low.selected place (view.selector selector.now) (reference (S.around outside.now) target) (seen (S.around outside.now) state.old)) }
{
    match selector {
        Selector::Member(_, name) => member_of(alloc, outside, state, place, name, target),
        Selector::Index {
            opening: _,
            value,
            closing: _,
        } => {
            let form = read(alloc, outside, state, place, target)?;
            let index = expr(alloc, outside, inner, state, value)?;
            Ok(Reference::Item(form, index))
        }
        Selector::Call(given) => {
            let target = callable(outside, state, target)?;
            let operands = arguments(alloc, outside, inner, state, given)?;
            let made = called(alloc, outside, state, place, target, operands)?;
            Ok(Reference::Evaluated(made))
        }
    }
}
