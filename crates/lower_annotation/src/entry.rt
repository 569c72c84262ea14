// Aliases that are written out.
#![tactic(auto, using(lower_leaf::proofs::TypeLaws::type_views), unfolding(lower_leaf::specs::Around::ty))]

ghost use Rattle.std.specs.Prelude.{◌≡◌, IfOk, map, slice_get, option_and_then};
ghost use Rattle.std.specs.List.{list_any};
ghost use Rattle.std.specs.Option.{option_map};
ghost use Rattle.lower_leaf.specs.Around.{ty, types, option_type};
ghost use Rattle.lower_annotation.specs.Instance as i;
ghost use Rattle.lower_annotation.specs.Seen.{aliases_in, entries, entry, place_at};
ghost use Rattle.lower_annotation.specs.Written as w;

use crate::bottom::has_bottom;
use crate::instance::instance;
use crate::place::Places;
use dart_ir::types::{TypeRef, Types};
use lower_leaf::fault::Want;
use lower_leaf::state::clone_type;
use lower_leaf::surroundings::Surroundings;
use lower_leaf::types::fitting;
use std::alloc::Global;

/// An alias: how many type parameters it has, and what it is written out as, once it is.
#[derive(Drop)]
pub struct Entry {
    pub parameters: u32,
    pub of: Option<TypeRef>,
}

// What an alias is with these type arguments, once it is written out.
fn put_in<S: Surroundings>(
    alloc: Global,
    outside: &S,
    one: &Entry,
    given: Types,
) -> Result<Option<TypeRef>, Want>
    ensures { IfOk result (λ made. option_type (S.around outside.now) made
        ≡ w.put_in (types (S.around outside.now) given.items) (entry (S.around outside.now) one.now)) }
{
    match &one.of {
        None => Ok(None),
        Some(of) => {
            let fitted = fitting(alloc, outside, one.parameters, given)?;
            Ok(Some(instance(alloc, outside, of, &fitted)?))
        }
    }
}

fn entry_at<'a>(places: &Places, all: &'a [Entry], number: u32) -> Option<&'a Entry>
    ensures { option_map (λ found. found.now) result ≡ option_and_then (slice_get all.now) (place_at places.now number) }
{
    match places.place_at(number) {
        None => None,
        Some(place) => all.get(place as usize),
    }
}

fn alias_in<S: Surroundings>(
    alloc: Global,
    outside: &S,
    places: &Places,
    all: &[Entry],
    number: u32,
    given: Types,
) -> Result<Option<TypeRef>, Want>
    ensures { IfOk result (λ made. option_type (S.around outside.now) made
        ≡ w.alias_in (place_at places.now) (entries (S.around outside.now) all.now) number (types (S.around outside.now) given.items)) }
{
    match entry_at(places, all, number) {
        None => Ok(None),
        Some(one) => put_in(alloc, outside, one, given),
    }
}

// Whether one of the types waits for an alias.
#[tactic(auto, using(crate::proofs::Texts::bottoms))]
fn any_waits<S: Surroundings>(outside: &S, given: &[TypeRef]) -> bool
    ensures { result ≡ list_any i.has_bottom (types (S.around outside.now) given.now) }
{
    for one in given {
        if has_bottom(one) {
            return true;
        }
    }
    false
}

// What an alias stands for while aliases are written out.
fn waiting_type<S: Surroundings>(
    alloc: Global,
    outside: &S,
    places: &Places,
    all: &[Entry],
    number: u32,
    given: Types,
) -> Result<TypeRef, Want>
    ensures { IfOk result (λ made. ty (S.around outside.now) made
        ≡ w.waiting_type (place_at places.now) (entries (S.around outside.now) all.now) number (types (S.around outside.now) given.items)) }
{
    if any_waits(outside, &given) {
        return Ok(TypeRef::Bottom);
    }
    match alias_in(alloc, outside, places, all, number, given)? {
        None => Ok(TypeRef::Bottom),
        Some(of) => Ok(of),
    }
}

// What an alias stands for behind that.
fn final_type<S: Surroundings>(
    alloc: Global,
    outside: &S,
    places: &Places,
    all: &[Entry],
    number: u32,
    given: Types,
) -> Result<TypeRef, Want>
    ensures { IfOk result (λ made. ty (S.around outside.now) made
        ≡ w.final_type (place_at places.now) (entries (S.around outside.now) all.now) number (types (S.around outside.now) given.items)) }
{
    match alias_in(alloc, outside, places, all, number, given)? {
        None => Ok(TypeRef::Dynamic),
        Some(of) => Ok(of),
    }
}

/// What an alias stands for with these type arguments.
pub fn alias_type<S: Surroundings>(
    alloc: Global,
    outside: &S,
    waits: bool,
    places: &Places,
    all: &[Entry],
    number: u32,
    given: Types,
) -> Result<TypeRef, Want>
    ensures { IfOk result (λ made. ty (S.around outside.now) made
        ≡ aliases_in (S.around outside.now) waits places.now all.now number (types (S.around outside.now) given.items)) }
{
    if waits {
        waiting_type(alloc, outside, places, all, number, given)
    } else {
        final_type(alloc, outside, places, all, number, given)
    }
}

/// An equal entry.
pub fn clone_entry<S: Surroundings>(alloc: Global, outside: &S, one: &Entry) -> Result<Entry, Want>
    ensures { IfOk result (λ made. entry (S.around outside.now) made ≡ entry (S.around outside.now) one.now) }
{
    let of = match &one.of {
        None => None,
        Some(of) => Some(clone_type(alloc, outside, of)?),
    };
    Ok(Entry {
        parameters: one.parameters,
        of,
    })
}
