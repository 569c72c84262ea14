// Literals (ECMA-408, 16.2 Null to 16.5 Strings, 16.7 Lists and 16.8 Maps).
ghost use Rattle.std.specs.Prelude.{◌≡◌, ◌++◌, map, slice_get, None, Some, IfOk, OnOk, MatchOption};
ghost use Rattle.core_program.specs.Core as c;
ghost use Rattle.translation.specs.Expressions as e;
ghost use Rattle.translation.specs.References as r;
ghost use Rattle.lower_leaf.specs.Around.{types, constructor};
ghost use Rattle.lower_leaf.specs.Forms.{core, cores};
ghost use Rattle.lower_leaf.specs.Gives.{Gives};
ghost use Rattle.lower_leaf.specs.Seen.{seen, asked};
ghost use Rattle.lower_reference.specs.Referred.{reference};
ghost use Rattle.lower_string.specs.Parts.{part};
ghost use Rattle.lower_operand.specs.Made.{all_forms, joined, part_joined, shown_behind};

use crate::condition::{null, this_form, truth};
use core_program::form::{Core, Job};
use dart_base::bytes::Bytes;
use dart_base::place::Place;
use dart_base::units::Units;
use dart_ir::number::DeclId;
use dart_ir::types::{TypeRef, Types};
use dart_ir::value::Value;
use dart_tree::expression::Atom;
use lower_leaf::fault::{LowerFault, Want};
use lower_leaf::form::{Operands, list, new_object, row};
use lower_leaf::meaning::Constructor;
use lower_leaf::name::find;
use lower_leaf::site::unasked;
use lower_leaf::state::{Asked, State, clone_type, with_literal};
use lower_leaf::surroundings::Surroundings;
use lower_leaf::types::fitting;
use lower_reference::plain::{constant, no_operands, send, two_operands};
use lower_reference::read::read;
use lower_reference::reference::{PlacedName, Reference, identifier, word_of};
use lower_string::integer::integer;
use lower_string::part::StringPart;
use std::alloc::Global;

/// An expression of one token.
pub fn atom_reference<S: Surroundings>(
    alloc: Global,
    outside: &S,
    state: &State,
    atom: &Atom,
) -> Result<Reference, LowerFault>
    ensures { Gives (reference (S.around outside.now)) result (seen (S.around outside.now) state.now)
        (e.atom_reference atom.now (seen (S.around outside.now) state.now)) }
{
    match atom {
        Atom::This(place) => Ok(Reference::Evaluated(this_form(outside, state, *place)?)),
        Atom::Null(place) => Ok(Reference::Evaluated(null(outside, *place))),
        Atom::True(place) => Ok(Reference::Evaluated(truth(outside, *place, true))),
        Atom::False(place) => Ok(Reference::Evaluated(truth(outside, *place, false))),
        Atom::Integer(place, text) => {
            let value = integer(text.as_slice())?;
            Ok(Reference::Evaluated(constant(outside, *place, value)))
        }
        Atom::Name(name) => Ok(identifier(outside, state, word_of(alloc, name)?)?),
    }
}

/// A string literal.
pub fn literal<S: Surroundings>(
    outside: &S,
    state: &mut State,
    place: Place,
    units: Units,
) -> Result<Core, LowerFault>
    ensures { Gives (core (S.around outside.now)) result (seen (S.around outside.now) state.new)
        (e.literal place units (seen (S.around outside.now) state.old)) }
{
    let number = with_literal(outside, state, units)?;
    Ok(constant(outside, place, Value::Literal(number)))
}

/// The constant text that stands before an interpolation.
pub fn pending_literal<S: Surroundings>(
    alloc: Global,
    outside: &S,
    state: &mut State,
    place: Place,
    units: Units,
) -> Result<Vec<Core>, LowerFault>
    ensures { Gives (all_forms (S.around outside.now)) result (seen (S.around outside.now) state.new)
        (e.pending_literal place units (seen (S.around outside.now) state.old)) }
{
    let mut forms = Vec::new(alloc);
    if units.is_empty() {
        return Ok(forms);
    }
    forms.push(literal(outside, state, place, units)?)?;
    Ok(forms)
}

/// What `toString` answers.
pub fn to_string<S: Surroundings>(
    alloc: Global,
    outside: &S,
    place: Place,
    form: Core,
) -> Result<Core, Want>
    ensures { IfOk result (λ made. core (S.around outside.now) made ≡ e.to_string place (core (S.around outside.now) form)) }
{
    let name = find(outside, b"toString")?;
    send(outside, place, form, name, no_operands(alloc, outside))
}

/// A name behind `$`.
pub fn shown_form<S: Surroundings>(
    alloc: Global,
    outside: &S,
    state: &State,
    place: Place,
    name: &[u8],
) -> Result<Core, LowerFault>
    ensures { Gives (core (S.around outside.now)) result (seen (S.around outside.now) state.now)
        (e.shown_form place name.now (seen (S.around outside.now) state.now)) }
{
    if name == b"this".as_slice() {
        return this_form(outside, state, place);
    }
    let word = PlacedName {
        place,
        text: Bytes::from_slice(alloc, name)?,
    };
    let of = identifier(outside, state, word)?;
    read(alloc, outside, state, place, of)
}

/// The operands that a piece of a string adds, and the constant text at its end.
#[derive(Drop)]
pub struct Joined {
    pub forms: Vec<Core>,
    pub pending: Units,
}

// A name behind the constant text.
fn join_shown<S: Surroundings>(
    alloc: Global,
    outside: &S,
    state: &mut State,
    place: Place,
    at: Place,
    name: &[u8],
    pending: Units,
) -> Result<Vec<Core>, LowerFault>
    ensures { Gives (all_forms (S.around outside.now)) result (seen (S.around outside.now) state.new)
        (shown_behind place at name.now pending (seen (S.around outside.now) state.old)) }
{
    let mut forms = pending_literal(alloc, outside, state, place, pending)?;
    let form = shown_form(alloc, outside, state, at, name)?;
    forms.push(to_string(alloc, outside, place, form)?)?;
    Ok(forms)
}

// A part of a piece behind the parts before it.
fn join_part<S: Surroundings>(
    alloc: Global,
    outside: &S,
    state: &mut State,
    place: Place,
    at: Place,
    one: &StringPart,
    before: Joined,
) -> Result<Joined, LowerFault>
    ensures { Gives (joined (S.around outside.now)) result (seen (S.around outside.now) state.new)
        (part_joined place at (part one.now) (joined (S.around outside.now) before) (seen (S.around outside.now) state.old)) }
{
    match one {
        StringPart::Units(units) => {
            let mut pending = before.pending;
            pending.append(units.as_slice())?;
            Ok(Joined {
                forms: before.forms,
                pending,
            })
        }
        StringPart::Shown(name) => {
            let name = name.as_slice();
            let more = join_shown(alloc, outside, state, place, at, name, before.pending)?;
            let mut forms = before.forms;
            append(&mut forms, more)?;
            Ok(Joined {
                forms,
                pending: Units::new(alloc),
            })
        }
    }
}

/// The names in a piece of a string, with the constant text before it.
pub fn join_parts<S: Surroundings>(
    alloc: Global,
    outside: &S,
    state: &mut State,
    place: Place,
    at: Place,
    parts: &Vec<StringPart>,
    before: Units,
) -> Result<Joined, LowerFault>
    ensures { Gives (joined (S.around outside.now)) result (seen (S.around outside.now) state.new)
        (e.join_parts place at (map part parts.now.items) before (seen (S.around outside.now) state.old)) }
{
    let mut found = Joined {
        forms: Vec::new(alloc),
        pending: before,
    };
    for one in parts {
        found = join_part(alloc, outside, state, place, at, one, found)?;
    }
    Ok(found)
}

/// The forms with others behind them. An `Err` changes nothing.
pub fn append(forms: &mut Vec<Core>, more: Vec<Core>) -> Result<(), Want>
    ensures { OnOk result (forms.new.items ≡ forms.old.items ++ more.items) }
{
    let mut more = more;
    forms.append(&mut more)?;
    Ok(())
}

/// Join (16.5 Strings).
pub fn join<S: Surroundings>(alloc: Global, outside: &S, place: Place, forms: Vec<Core>) -> Core
    ensures { core (S.around outside.now) result ≡ r.row place c.join (r.by_place (cores (S.around outside.now) forms.items)) }
{
    let operands = Operands {
        forms,
        names: Vec::new(alloc),
    };
    row(outside, place, Job::Join, operands)
}

// The type argument of the number.
fn argument_at(given: &[TypeRef], index: usize) -> Option<&TypeRef>
    ensures { MatchOption result (slice_get given.now index ≡ None) (λ found. slice_get given.now index ≡ Some found.now) }
{
    given.get(index)
}

/// What an element, a key or a value is asked for: erasure keeps the type.
pub fn asked_at<S: Surroundings>(
    alloc: Global,
    outside: &S,
    index: usize,
    given: &Types,
) -> Result<Asked, Want>
    ensures { IfOk result (λ made. asked (S.around outside.now) made ≡ e.asked_at index (types (S.around outside.now) given.now.items)) }
{
    match argument_at(given, index) {
        None => Ok(unasked()),
        Some(of) => Ok(Asked {
            of: Some(clone_type(alloc, outside, of)?),
            annotated: false,
        }),
    }
}

/// A list (16.7 Lists).
pub fn list_form<S: Surroundings>(
    alloc: Global,
    outside: &S,
    place: Place,
    given: Types,
    items: Vec<Core>,
) -> Result<Core, Want>
    ensures { IfOk result (λ made. core (S.around outside.now) made
        ≡ e.list_form place (types (S.around outside.now) given.items) (cores (S.around outside.now) items.items)) }
{
    let given = fitting(alloc, outside, 1, given)?;
    Ok(list(outside, place, given, items))
}

fn constructor_number(of: Constructor) -> DeclId
    ensures { result.0 ≡ e.constructor_number (constructor of) }
{
    match of {
        Constructor::Generative(number) => number,
        Constructor::Factory(number) => number,
        Constructor::Missing => DeclId(0),
    }
}

/// A new map (16.8 Maps).
pub fn new_map<S: Surroundings>(
    alloc: Global,
    outside: &S,
    state: &State,
    place: Place,
    given: Types,
) -> Result<Core, Want>
    ensures { IfOk result (λ made. core (S.around outside.now) made
        ≡ e.new_map place (types (S.around outside.now) given.items) (seen (S.around outside.now) state.now)) }
{
    let class = outside.map_class();
    let of = constructor_number(outside.constructor(class, b""));
    let given = fitting(alloc, outside, 2, given)?;
    let operands = no_operands(alloc, outside);
    Ok(new_object(outside, place, class, of, given, operands))
}

/// `m[k] = v` of a map.
pub fn put<S: Surroundings>(
    alloc: Global,
    outside: &S,
    place: Place,
    map: Core,
    key: Core,
    value: Core,
) -> Result<Core, Want>
    ensures { IfOk result (λ made. core (S.around outside.now) made
        ≡ e.put place (core (S.around outside.now) map) (core (S.around outside.now) key) (core (S.around outside.now) value)) }
{
    let operands = two_operands(alloc, outside, key, value)?;
    send(outside, place, map, find(outside, b"[]=")?, operands)
}
