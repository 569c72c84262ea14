// Members of references, and what may be called (ECMA-408, 16.17 Method Invocation and 16.18 Property Extraction).
ghost use Rattle.std.specs.Prelude.{◌≡◌, false, IfOk};
ghost use Rattle.translation.specs.References as r;
ghost use Rattle.translation.specs.Types as y;
ghost use Rattle.lower_leaf.specs.Around.{meaning};
ghost use Rattle.lower_leaf.specs.Forms.{core};
ghost use Rattle.lower_leaf.specs.Gives.{Gives};
ghost use Rattle.lower_leaf.specs.Seen.{seen};
ghost use Rattle.lower_reference.specs.Referred.{word, bound, reference, member_read, reference_read};

use crate::read::{read, read_bound};
use crate::reference::{Bound, PlacedName, Reference, name_of};
use core_program::form::Core;
use dart_base::bytes::Bytes;
use dart_base::feature::Feature;
use dart_base::place::Place;
use dart_ir::number::ClassId;
use dart_tree::identifier::Identifier;
use lower_leaf::fault::{LowerFault, Want};
use lower_leaf::meaning::Meaning;
use lower_leaf::name::{own_text, place_of, text_of};
use lower_leaf::state::State;
use lower_leaf::surroundings::Surroundings;
use std::alloc::Global;

// The name of an alias is no value.
fn no_alias_at<S: Surroundings>(
    outside: &S,
    state: &State,
    name: PlacedName,
    of_this: bool,
    of: Meaning,
) -> Result<Reference, LowerFault>
    ensures { Gives (reference (S.around outside.now)) result (seen (S.around outside.now) state.now)
        (r.callable (r.named (word name) (r.outer of_this (meaning of))) (seen (S.around outside.now) state.now)) }
{
    match of {
        Meaning::Alias(_) => Err(LowerFault::LeftOut(name.place, Feature::FunctionTypes)),
        Meaning::Function(_) => Ok(Reference::Named(name, Bound::Outer(of_this, of))),
        Meaning::Variable(_, _) => Ok(Reference::Named(name, Bound::Outer(of_this, of))),
        Meaning::Accessors(_, _) => Ok(Reference::Named(name, Bound::Outer(of_this, of))),
        Meaning::Class(_) => Ok(Reference::Named(name, Bound::Outer(of_this, of))),
        Meaning::TypeParameter(_) => Ok(Reference::Named(name, Bound::Outer(of_this, of))),
        Meaning::Member => Ok(Reference::Named(name, Bound::Outer(of_this, of))),
        Meaning::Prefix => Ok(Reference::Named(name, Bound::Outer(of_this, of))),
        Meaning::Ambiguous => Ok(Reference::Named(name, Bound::Outer(of_this, of))),
        Meaning::Unknown => Ok(Reference::Named(name, Bound::Outer(of_this, of))),
    }
}

/// The reference, if it may be called: an alias may not.
pub fn callable<S: Surroundings>(
    outside: &S,
    state: &State,
    of: Reference,
) -> Result<Reference, LowerFault>
    ensures { Gives (reference (S.around outside.now)) result (seen (S.around outside.now) state.now)
        (r.callable (reference (S.around outside.now) of) (seen (S.around outside.now) state.now)) }
{
    match of {
        Reference::Named(name, bound) => match bound {
            Bound::Local(entry) => Ok(Reference::Named(name, Bound::Local(entry))),
            Bound::Outer(of_this, of) => no_alias_at(outside, state, name, of_this, of),
            Bound::AliasBehind(at) => Err(LowerFault::LeftOut(at, Feature::FunctionTypes)),
        },
        Reference::Evaluated(form) => Ok(Reference::Evaluated(form)),
        Reference::Member(form, name) => Ok(Reference::Member(form, name)),
        Reference::Item(form, index) => Ok(Reference::Item(form, index)),
        Reference::SuperMember(name) => Ok(Reference::SuperMember(name)),
        Reference::SuperItem(index) => Ok(Reference::SuperItem(index)),
    }
}

// What a prefix gives under a name at a place.
fn behind<S: Surroundings>(outside: &S, at: Place, of: Meaning) -> Bound
    ensures { bound (S.around outside.now) result ≡ r.behind at (meaning of) }
{
    match of {
        Meaning::Alias(_) => Bound::AliasBehind(at),
        Meaning::Function(_) => Bound::Outer(false, of),
        Meaning::Variable(_, _) => Bound::Outer(false, of),
        Meaning::Accessors(_, _) => Bound::Outer(false, of),
        Meaning::Class(_) => Bound::Outer(false, of),
        Meaning::TypeParameter(_) => Bound::Outer(false, of),
        Meaning::Member => Bound::Outer(false, of),
        Meaning::Prefix => Bound::Outer(false, of),
        Meaning::Ambiguous => Bound::Outer(false, of),
        Meaning::Unknown => Bound::Outer(false, of),
    }
}

// A member that what stands before it gives without an object.
fn outer_member<S: Surroundings>(
    alloc: Global,
    outside: &S,
    place: Place,
    name: &Identifier,
    of: Bound,
) -> Result<Reference, Want>
    ensures { IfOk result (λ made. reference (S.around outside.now) made
        ≡ r.named (record { place = place; text = y.text_of name.now }) (bound (S.around outside.now) of)) }
{
    let word = PlacedName {
        place,
        text: Bytes::from_slice(alloc, text_of(name))?,
    };
    Ok(Reference::Named(word, of))
}

// A static member behind the name of its class.
fn static_member<S: Surroundings>(
    alloc: Global,
    outside: &S,
    state: &State,
    place: Place,
    name: &Identifier,
    of: ClassId,
) -> Result<Reference, Want>
    ensures { IfOk result (λ made. reference (S.around outside.now) made
        ≡ r.named (record { place = place; text = y.text_of name.now }) (r.outer false
        ((seen (S.around outside.now) state.now).tables.static of.0 (r.own_name (y.word_of name.now) (seen (S.around outside.now) state.now))))) }
{
    let own = own_text(alloc, outside, state.outer, text_of(name))?;
    let of = outside.member_of(of, own.as_slice());
    outer_member(alloc, outside, place, name, Bound::Outer(false, of))
}

// A member of a value.
fn member<S: Surroundings>(
    alloc: Global,
    outside: &S,
    state: &State,
    name: &Identifier,
    form: Core,
) -> Result<Reference, Want>
    ensures { IfOk result (λ made. reference (S.around outside.now) made
        ≡ r.member (core (S.around outside.now) form) (r.own_name (y.word_of name.now) (seen (S.around outside.now) state.now))) }
{
    Ok(Reference::Member(form, name_of(alloc, outside, state, text_of(name))?))
}

// A member of what a name is read as.
fn value_member<S: Surroundings>(
    alloc: Global,
    outside: &S,
    state: &State,
    name: &Identifier,
    first: &PlacedName,
    of: &Bound,
) -> Result<Reference, LowerFault>
    ensures { Gives (reference (S.around outside.now)) result (seen (S.around outside.now) state.now)
        (member_read (y.word_of name.now) (word first.now) (bound (S.around outside.now) of.now) (seen (S.around outside.now) state.now)) }
{
    let form = read_bound(alloc, outside, state, first, of)?;
    Ok(member(alloc, outside, state, name, form)?)
}

// A member behind a name.
fn member_behind<S: Surroundings>(
    alloc: Global,
    outside: &S,
    state: &State,
    place: Place,
    name: &Identifier,
    first: &PlacedName,
    of: &Bound,
) -> Result<Reference, LowerFault>
    ensures { Gives (reference (S.around outside.now)) result (seen (S.around outside.now) state.now)
        (r.member_behind place (y.word_of name.now) (word first.now) (bound (S.around outside.now) of.now)
        (seen (S.around outside.now) state.now)) }
{
    match of {
        Bound::Local(_) => value_member(alloc, outside, state, name, first, of),
        Bound::AliasBehind(_) => value_member(alloc, outside, state, name, first, of),
        Bound::Outer(_, meaning) => match meaning {
            Meaning::Class(class) => {
                Ok(static_member(alloc, outside, state, place, name, *class)?)
            }
            Meaning::Prefix => {
                let of = outside.prefixed(state.outer, first.text.as_slice(), text_of(name));
                let of = behind(outside, place_of(name), of);
                Ok(outer_member(alloc, outside, place, name, of)?)
            }
            Meaning::Function(_) => value_member(alloc, outside, state, name, first, of),
            Meaning::Variable(_, _) => value_member(alloc, outside, state, name, first, of),
            Meaning::Accessors(_, _) => value_member(alloc, outside, state, name, first, of),
            Meaning::Alias(_) => value_member(alloc, outside, state, name, first, of),
            Meaning::TypeParameter(_) => value_member(alloc, outside, state, name, first, of),
            Meaning::Member => value_member(alloc, outside, state, name, first, of),
            Meaning::Ambiguous => value_member(alloc, outside, state, name, first, of),
            Meaning::Unknown => value_member(alloc, outside, state, name, first, of),
        },
    }
}

// A member of what a reference is read as.
fn read_member<S: Surroundings>(
    alloc: Global,
    outside: &S,
    state: &State,
    place: Place,
    name: &Identifier,
    of: Reference,
) -> Result<Reference, LowerFault>
    ensures { Gives (reference (S.around outside.now)) result (seen (S.around outside.now) state.now)
        (reference_read place (y.word_of name.now) (reference (S.around outside.now) of) (seen (S.around outside.now) state.now)) }
{
    let form = read(alloc, outside, state, place, of)?;
    Ok(member(alloc, outside, state, name, form)?)
}

/// `r.n`: behind the name of a class a static member of it, behind a prefix what it gives.
pub fn member_of<S: Surroundings>(
    alloc: Global,
    outside: &S,
    state: &State,
    place: Place,
    name: &Identifier,
    of: Reference,
) -> Result<Reference, LowerFault>
    ensures { Gives (reference (S.around outside.now)) result (seen (S.around outside.now) state.now)
        (r.member_of place (y.word_of name.now) (reference (S.around outside.now) of) (seen (S.around outside.now) state.now)) }
{
    match of {
        Reference::Named(first, bound) => {
            member_behind(alloc, outside, state, place, name, &first, &bound)
        }
        Reference::Evaluated(form) => Ok(member(alloc, outside, state, name, form)?),
        Reference::Member(form, of) => {
            let of = Reference::Member(form, of);
            read_member(alloc, outside, state, place, name, of)
        }
        Reference::Item(form, index) => {
            let of = Reference::Item(form, index);
            read_member(alloc, outside, state, place, name, of)
        }
        Reference::SuperMember(of) => {
            let of = Reference::SuperMember(of);
            read_member(alloc, outside, state, place, name, of)
        }
        Reference::SuperItem(index) => {
            let of = Reference::SuperItem(index);
            read_member(alloc, outside, state, place, name, of)
        }
    }
}
