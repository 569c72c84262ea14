// Types that erasure keeps, in which no alias may be named (ECMA-408, 19.1 Static Types).
#![tactic(auto, using(crate::proofs::TypeLaws::type_views, crate::proofs::Trees::trees, crate::proofs::Steps::type_steps), unfolding(crate::specs::Around::ty))]

ghost use Rattle.std.specs.Prelude.{◌≡◌};
ghost use Rattle.dart_tree.specs.Lists.{type_list_of};
ghost use Rattle.dart_tree.specs.View as view;
ghost use Rattle.translation.specs.Types as y;
ghost use Rattle.lower_leaf.specs.Around.{meaning};
ghost use Rattle.lower_leaf.specs.Gives.{Gives};
ghost use Rattle.lower_leaf.specs.Kept.{all_types, typed};
ghost use Rattle.lower_leaf.specs.Seen.{seen};

use crate::fault::LowerFault;
use crate::meaning::Meaning;
use crate::name::place_of;
use crate::state::State;
use crate::surroundings::Surroundings;
use crate::types::{Typed, last_of, type_arguments, type_meaning, type_of};
use dart_base::feature::Feature;
use dart_base::place::Place;
use dart_ir::types::Types;
use dart_tree::types::{TypeArgument, TypeArguments, TypeNode};
use std::alloc::Global;

/// The place, where the name is that of an alias.
pub fn alias_place(of: Meaning, place: Place) -> Option<Place>
    ensures { result ≡ y.alias_place (meaning of) place }
{
    match of {
        Meaning::Alias(_) => Some(place),
        Meaning::Function(_) => None,
        Meaning::Variable(_, _) => None,
        Meaning::Accessors(_, _) => None,
        Meaning::Class(_) => None,
        Meaning::TypeParameter(_) => None,
        Meaning::Member => None,
        Meaning::Prefix => None,
        Meaning::Ambiguous => None,
        Meaning::Unknown => None,
    }
}

// The first name of an alias in a type.
#[cycle(aliases)]
fn alias_in<S: Surroundings>(outside: &S, state: &State, node: &TypeNode) -> Option<Place>
    ensures { result ≡ y.alias_in (seen (S.around outside.now) state.now) (view.type_node node.now) }
{
    match node {
        TypeNode::Dynamic(_) => None,
        TypeNode::Named {
            name,
            member,
            arguments,
        } => {
            let later = alias_in_arguments(outside, state, arguments);
            let of = type_meaning(outside, state, name, member);
            match alias_place(of, place_of(last_of(name, member))) {
                Some(place) => Some(place),
                None => later,
            }
        }
    }
}

#[cycle(aliases)]
fn alias_in_arguments<S: Surroundings>(
    outside: &S,
    state: &State,
    arguments: &TypeArguments,
) -> Option<Place>
    ensures { result ≡ y.alias_in_arguments (seen (S.around outside.now) state.now) (view.type_arguments arguments.now) }
{
    match arguments {
        TypeArguments::Omitted => None,
        TypeArguments::Listed {
            opening: _,
            arguments,
            closing: _,
        } => alias_in_list(outside, state, arguments),
    }
}

#[cycle(aliases)]
fn alias_in_list<S: Surroundings>(
    outside: &S,
    state: &State,
    all: &Vec<TypeArgument>,
) -> Option<Place>
    ensures { result ≡ y.alias_in_list (seen (S.around outside.now) state.now) (type_list_of all.now.items) }
{
    for one in all {
        if let Some(place) = alias_in(outside, state, &one.argument) {
            return Some(place);
        }
    }
    None
}

/// A type that erasure keeps: the profile has no function type there.
pub fn kept_type<S: Surroundings>(
    alloc: Global,
    outside: &S,
    state: &State,
    node: &TypeNode,
) -> Result<Typed, LowerFault>
    ensures { Gives (typed (S.around outside.now)) result (seen (S.around outside.now) state.now)
        (y.kept_type (view.type_node node.now) (seen (S.around outside.now) state.now)) }
{
    match alias_in(outside, state, node) {
        Some(place) => Err(LowerFault::LeftOut(place, Feature::FunctionTypes)),
        None => Ok(type_of(alloc, outside, state, false, node)?),
    }
}

/// Type arguments that erasure keeps.
pub fn kept_arguments<S: Surroundings>(
    alloc: Global,
    outside: &S,
    state: &State,
    arguments: &TypeArguments,
) -> Result<Types, LowerFault>
    ensures { Gives (all_types (S.around outside.now)) result (seen (S.around outside.now) state.now)
        (y.kept_arguments (view.type_arguments arguments.now) (seen (S.around outside.now) state.now)) }
{
    match alias_in_arguments(outside, state, arguments) {
        Some(place) => Err(LowerFault::LeftOut(place, Feature::FunctionTypes)),
        None => Ok(type_arguments(alloc, outside, state, false, arguments)?),
    }
}
