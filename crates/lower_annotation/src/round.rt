// Aliases are written out, in rounds (ECMA-408, 19.3.1 Typedef).
#![tactic(auto, using(lower_leaf::proofs::TypeLaws::type_views), unfolding(lower_leaf::specs::Around::ty))]

ghost use Rattle.std.specs.Prelude.{◌≡◌, IfOk, length, map};
ghost use Rattle.std.specs.Option.{is_some};
ghost use Rattle.lower_leaf.specs.Around.{option_type, ty};
ghost use Rattle.lower_annotation.specs.Instance.{has_bottom};
ghost use Rattle.lower_annotation.specs.Seen.{alias, alike, entries, entry, is_same, place_at};
ghost use Rattle.lower_annotation.specs.Written as w;

use crate::alias::{Alias, items_of};
use crate::bottom::has_bottom;
use crate::declaration::library_outer;
use crate::entry::{Entry, clone_entry};
use crate::place::Places;
use crate::state::reading;
use crate::surroundings::Annotated;
use dart_ir::number::ClassId;
use dart_ir::types::TypeRef;
use lower_leaf::fault::Want;
use lower_leaf::signature::function_type;
use lower_leaf::surroundings::Surroundings;
use lower_leaf::types::result_type;
use std::alloc::Global;

// The function type that is written in an alias, while aliases are written out.
fn alias_read<S: Surroundings>(
    alloc: Global,
    outside: &S,
    places: &Places,
    all: &[Entry],
    one: Alias,
) -> Result<TypeRef, Want>
    ensures { IfOk result (λ made. ty (S.around outside.now) made
        ≡ w.alias_read (S.around outside.now) (w.waiting_type (place_at places.now) (entries (S.around outside.now) all.now)) (alias one.entry)) }
{
    let parameters = items_of(&one.written.type_parameters);
    let Ok(count) = u32::try_from(parameters.len()) else {
        return Err(Want);
    };
    let inside = Annotated {
        base: outside,
        count,
        parameters,
        waits: true,
        aliases: places,
        entries: all,
        variables: None,
    };
    let state = reading(alloc, &inside, library_outer(one.library), Some(ClassId(0)));
    let answer = result_type(alloc, &inside, &state, &one.written.result_type)?;
    function_type(alloc, &inside, &state, answer, &one.written.parameters)
}

// What is written out, if all that is named in it was.
#[tactic(auto, using(crate::proofs::Texts::bottoms))]
fn settled<S: Surroundings>(outside: &S, of: TypeRef) -> Option<TypeRef>
    ensures { option_type (S.around outside.now) result ≡ w.settled (ty (S.around outside.now) of) }
{
    if has_bottom(&of) { None } else { Some(of) }
}

// Whether an alias names one that waits.
#[tactic(auto, using(crate::proofs::Texts::bottoms))]
fn waits<S: Surroundings>(
    alloc: Global,
    outside: &S,
    places: &Places,
    all: &[Entry],
    one: Alias,
) -> Result<bool, Want>
    ensures { IfOk result (λ made. made ≡ has_bottom
        (w.alias_read (S.around outside.now) (w.waiting_type (place_at places.now) (entries (S.around outside.now) all.now)) (alias one.entry))) }
{
    let read = alias_read(alloc, outside, places, all, one)?;
    Ok(has_bottom(&read))
}

// An alias behind a round in which aliases are written out.
fn next_written<S: Surroundings>(
    alloc: Global,
    outside: &S,
    places: &Places,
    all: &[Entry],
    one: Alias,
    before: &Entry,
) -> Result<Entry, Want>
    ensures { IfOk result (λ made. entry (S.around outside.now) made ≡ w.next_written (S.around outside.now) (place_at places.now)
        (entries (S.around outside.now) all.now) (alias one.entry) (entry (S.around outside.now) before.now)) }
{
    match &before.of {
        Some(_) => clone_entry(alloc, outside, before),
        None => {
            let read = alias_read(alloc, outside, places, all, one)?;
            Ok(Entry {
                parameters: before.parameters,
                of: settled(outside, read),
            })
        }
    }
}

// An alias behind a round in which aliases begin to wait.
fn next_waiting<S: Surroundings>(
    alloc: Global,
    outside: &S,
    places: &Places,
    all: &[Entry],
    one: Alias,
    before: &Entry,
) -> Result<Entry, Want>
    ensures { IfOk result (λ made. entry (S.around outside.now) made ≡ w.next_waiting (S.around outside.now) (place_at places.now)
        (entries (S.around outside.now) all.now) (alias one.entry) (entry (S.around outside.now) before.now)) }
{
    if waits(alloc, outside, places, all, one)? {
        return Ok(Entry {
            parameters: before.parameters,
            of: None,
        });
    }
    clone_entry(alloc, outside, before)
}

// An alias behind a round.
fn next_entry<S: Surroundings>(
    alloc: Global,
    outside: &S,
    places: &Places,
    writes: bool,
    all: &[Entry],
    one: Alias,
    before: &Entry,
) -> Result<Entry, Want>
    ensures { IfOk result (λ made. entry (S.around outside.now) made ≡ w.next_entry writes (S.around outside.now) (place_at places.now)
        (entries (S.around outside.now) all.now) (alias one.entry) (entry (S.around outside.now) before.now)) }
{
    if writes {
        next_written(alloc, outside, places, all, one, before)
    } else {
        next_waiting(alloc, outside, places, all, one, before)
    }
}

// A round in which aliases are written out, or in which they begin to wait.
fn round<S: Surroundings>(
    alloc: Global,
    outside: &S,
    places: &Places,
    writes: bool,
    all: &[Alias],
    before: &[Entry],
) -> Result<Vec<Entry>, Want>
    requires { length before.now ≡ length all.now }
    ensures length { IfOk result (λ made. length made.items ≡ length all.now) }
    ensures entries { IfOk result (λ made. entries (S.around outside.now) made.items
        ≡ w.round writes (S.around outside.now) (place_at places.now) (map alias all.now) (entries (S.around outside.now) before.now)) }
{
    let mut made = Vec::new(alloc);
    for place in 0..all.len() {
        let next = next_entry(
            alloc,
            outside,
            places,
            writes,
            before,
            all[place],
            &before[place],
        )?;
        made.push(next)?;
    }
    Ok(made)
}

fn is_same(first: &Entry, second: &Entry) -> bool
    ensures { result ≡ is_same (is_some first.now.of) (is_some second.now.of) }
{
    if first.of.is_some() {
        second.of.is_some()
    } else {
        second.of.is_none()
    }
}

// Whether the same aliases are written out in both.
fn are_alike(first: &[Entry], second: &[Entry]) -> bool
    requires { length first.now ≡ length second.now }
    ensures { result ≡ alike first.now second.now }
{
    for place in 0..first.len() {
        if !is_same(&first[place], &second[place]) {
            return false;
        }
    }
    true
}

// As many rounds as there are aliases, or until one changes nothing.
fn rounds<S: Surroundings>(
    alloc: Global,
    outside: &S,
    places: &Places,
    writes: bool,
    all: &[Alias],
    first: Vec<Entry>,
) -> Result<Vec<Entry>, Want>
    requires { length first.items ≡ length all.now }
    ensures length { IfOk result (λ made. length made.items ≡ length all.now) }
    ensures entries { IfOk result (λ made. entries (S.around outside.now) made.items
        ≡ w.rounds writes (S.around outside.now) (place_at places.now) (map alias all.now) (length (map alias all.now)) (entries (S.around outside.now) first.items)) }
{
    let mut made = first;
    for _round in 0..all.len() {
        let next = round(alloc, outside, places, writes, all, &made)?;
        if are_alike(&made, &next) {
            return Ok(next);
        }
        made = next;
    }
    Ok(made)
}

// What an alias of the number is before the rounds, where all wait, or those of a number alone.
fn first_of<S: Surroundings>(outside: &S, number: u32, waiting: Option<u32>) -> Option<TypeRef>
    ensures { option_type (S.around outside.now) result ≡ w.first_of number waiting }
{
    match waiting {
        None => None,
        Some(n) => {
            if number == n {
                None
            } else {
                Some(TypeRef::Dynamic)
            }
        }
    }
}

// An alias before the rounds, where all wait, or those of a number alone.
fn first_entry<S: Surroundings>(
    outside: &S,
    waiting: Option<u32>,
    one: Alias,
) -> Result<Entry, Want>
    ensures { IfOk result (λ made. entry (S.around outside.now) made ≡ w.first_entry waiting (alias one.entry)) }
{
    let Ok(parameters) = u32::try_from(items_of(&one.written.type_parameters).len()) else {
        return Err(Want);
    };
    Ok(Entry {
        parameters,
        of: first_of(outside, one.number, waiting),
    })
}

fn first_entries<S: Surroundings>(
    alloc: Global,
    outside: &S,
    waiting: Option<u32>,
    all: &[Alias],
) -> Result<Vec<Entry>, Want>
    ensures length { IfOk result (λ made. length made.items ≡ length all.now) }
    ensures entries { IfOk result (λ made. entries (S.around outside.now) made.items ≡ map (w.first_entry waiting) (map alias all.now)) }
{
    let mut made = Vec::new(alloc);
    for one in all {
        made.push(first_entry(outside, waiting, *one)?)?;
    }
    Ok(made)
}

// Whether an alias names itself, or others that lead to it.
fn names_itself<S: Surroundings>(
    alloc: Global,
    outside: &S,
    places: &Places,
    all: &[Alias],
    one: Alias,
) -> Result<bool, Want>
    ensures { IfOk result (λ made. made ≡ w.names_itself (S.around outside.now) (place_at places.now) (map alias all.now) (alias one.entry)) }
{
    let first = first_entries(alloc, outside, Some(one.number), all)?;
    let made = rounds(alloc, outside, places, false, all, first)?;
    waits(alloc, outside, places, &made, one)
}

// What a malformed alias counts as.
fn dynamic_if<S: Surroundings>(outside: &S, malformed: bool) -> Option<TypeRef>
    ensures { option_type (S.around outside.now) result ≡ w.dynamic_if malformed }
{
    if malformed {
        Some(TypeRef::Dynamic)
    } else {
        None
    }
}

// An alias that isn't written out is malformed where it names itself.
fn unwound<S: Surroundings>(
    alloc: Global,
    outside: &S,
    places: &Places,
    all: &[Alias],
    one: Alias,
    before: &Entry,
) -> Result<Entry, Want>
    ensures { IfOk result (λ made. entry (S.around outside.now) made ≡ w.unwound (S.around outside.now) (place_at places.now)
        (map alias all.now) (alias one.entry) (entry (S.around outside.now) before.now)) }
{
    match &before.of {
        Some(_) => clone_entry(alloc, outside, before),
        None => {
            let malformed = names_itself(alloc, outside, places, all, one)?;
            Ok(Entry {
                parameters: before.parameters,
                of: dynamic_if(outside, malformed),
            })
        }
    }
}

fn all_unwound<S: Surroundings>(
    alloc: Global,
    outside: &S,
    places: &Places,
    all: &[Alias],
    before: &[Entry],
) -> Result<Vec<Entry>, Want>
    requires { length before.now ≡ length all.now }
    ensures length { IfOk result (λ made. length made.items ≡ length all.now) }
    ensures entries { IfOk result (λ made. entries (S.around outside.now) made.items
        ≡ w.with_each (w.unwound (S.around outside.now) (place_at places.now) (map alias all.now)) (map alias all.now) (entries (S.around outside.now) before.now)) }
{
    let mut made = Vec::new(alloc);
    for place in 0..all.len() {
        let next = unwound(alloc, outside, places, all, all[place], &before[place])?;
        made.push(next)?;
    }
    Ok(made)
}

/// What aliases are written out as. `Want` where memory or numbers run out.
pub fn written_out<S: Surroundings>(
    alloc: Global,
    outside: &S,
    places: &Places,
    all: &[Alias],
) -> Result<Vec<Entry>, Want>
    ensures { IfOk result (λ made. entries (S.around outside.now) made.items
        ≡ w.written_out (S.around outside.now) (place_at places.now) (map alias all.now)) }
{
    let first = first_entries(alloc, outside, None, all)?;
    let before = rounds(alloc, outside, places, true, all, first)?;
    let left = all_unwound(alloc, outside, places, all, &before)?;
    rounds(alloc, outside, places, true, all, left)
}
