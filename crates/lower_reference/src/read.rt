// References that are read (ECMA-408, 16.33 Identifier Reference and 16.18 Property Extraction).
ghost use Rattle.std.specs.Prelude.{◌≡◌, ◌∷◌, [], codes, IfOk};
ghost use Rattle.core_program.specs.Core as c;
ghost use Rattle.dart_ir.specs.declared.class.Role.TheVariants.{Method};
ghost use Rattle.translation.specs.References as r;
ghost use Rattle.translation.specs.Surroundings.{name_in};
ghost use Rattle.translation.specs.Types.{argument_in};
ghost use Rattle.lower_leaf.specs.Around.{text, declaration, meaning};
ghost use Rattle.lower_leaf.specs.Forms.{core};
ghost use Rattle.lower_leaf.specs.Gives.{Gives};
ghost use Rattle.lower_leaf.specs.Seen.{seen};
ghost use Rattle.lower_reference.specs.Referred.{word, bound, reference};

use crate::plain::{
    call, constant, no_operands, one_operand, raise, send, super_call, this, variable,
};
use crate::reference::{Bound, PlacedName, Reference, name_of};
use core_program::form::{Core, Leaf, Unary};
use dart_base::feature::Feature;
use dart_base::name::Name;
use dart_base::place::Place;
use dart_ir::class::Role;
use dart_ir::kind::ThrowKind;
use dart_ir::number::{ClassId, DeclId};
use dart_ir::value::Value;
use lower_leaf::fault::{LowerFault, Want};
use lower_leaf::form::{leaf, type_literal, unary};
use lower_leaf::meaning::Meaning;
use lower_leaf::name::find;
use lower_leaf::state::State;
use lower_leaf::surroundings::Surroundings;
use lower_leaf::types::{argument_in, class_type};
use std::alloc::Global;

/// An error for a name that nothing gives.
pub fn raise_unknown<S: Surroundings>(
    alloc: Global,
    outside: &S,
    state: &State,
    place: Place,
    error: ThrowKind,
    name: &[u8],
    is_setter: bool,
) -> Result<Core, Want>
    ensures { IfOk result (λ made. core (S.around outside.now) made
        ≡ r.raise place error (name_in (seen (S.around outside.now) state.now).names.library name.now) is_setter) }
{
    let name = name_of(alloc, outside, state, name)?;
    Ok(raise(outside, place, error, name, is_setter))
}

/// The value that a class is.
pub fn class_value<S: Surroundings>(
    alloc: Global,
    outside: &S,
    state: &State,
    place: Place,
    of: ClassId,
) -> Result<Core, Want>
    ensures { IfOk result (λ made. core (S.around outside.now) made ≡ r.class_value place of.0 (seen (S.around outside.now) state.now)) }
{
    let made = class_type(alloc, outside, of, Vec::new(alloc))?;
    Ok(type_literal(outside, place, made))
}

// The value that a type parameter is; static members have none.
fn parameter_value<S: Surroundings>(
    alloc: Global,
    outside: &S,
    state: &State,
    place: Place,
    index: u32,
    name: &[u8],
) -> Result<Core, Want>
    ensures { IfOk result (λ made. core (S.around outside.now) made
        ≡ r.parameter_value place (seen (S.around outside.now) state.now).inside.class
        (argument_in (seen (S.around outside.now) state.now).inside.arguments index)
        (name_in (seen (S.around outside.now) state.now).names.library name.now)) }
{
    match state.inside.class {
        None => {
            let error = ThrowKind::MalformedTypeError;
            raise_unknown(alloc, outside, state, place, error, name, false)
        }
        Some(_) => {
            let of = argument_in(alloc, outside, state, index)?;
            Ok(type_literal(outside, place, of))
        }
    }
}

// A getter is called.
fn read_getter<S: Surroundings>(
    alloc: Global,
    outside: &S,
    state: &State,
    place: Place,
    getter: Option<DeclId>,
    name: &[u8],
) -> Result<Core, Want>
    ensures { IfOk result (λ made. core (S.around outside.now) made
        ≡ r.read_getter place (declaration getter) (name_in (seen (S.around outside.now) state.now).names.library name.now)) }
{
    match getter {
        None => raise_unknown(
            alloc,
            outside,
            state,
            place,
            ThrowKind::NoSuchMethodError,
            name,
            false,
        ),
        Some(getter) => Ok(call(outside, place, getter, no_operands(alloc, outside))),
    }
}

// `e.n`
fn get<S: Surroundings>(
    alloc: Global,
    outside: &S,
    place: Place,
    receiver: Core,
    name: Name,
) -> Result<Core, Want>
    ensures { IfOk result (λ made. core (S.around outside.now) made
        ≡ c.at place (c.unary (c.get (text (S.around outside.now) name)) (core (S.around outside.now) receiver))) }
{
    unary(outside, alloc, place, Unary::Get(name), receiver)
}

// What nothing outside of instances gives is a member of `this`, where there is one.
fn read_unknown<S: Surroundings>(
    alloc: Global,
    outside: &S,
    state: &State,
    of_this: bool,
    place: Place,
    name: &[u8],
) -> Result<Core, Want>
    ensures { IfOk result (λ made. core (S.around outside.now) made
        ≡ r.read_unknown of_this place (name_in (seen (S.around outside.now) state.now).names.library name.now)) }
{
    if !of_this {
        return raise_unknown(
            alloc,
            outside,
            state,
            place,
            ThrowKind::NoSuchMethodError,
            name,
            false,
        );
    }
    let name = name_of(alloc, outside, state, name)?;
    get(alloc, outside, place, this(outside, place), name)
}

// A name that no local scope declares.
fn read_outer<S: Surroundings>(
    alloc: Global,
    outside: &S,
    state: &State,
    of_this: bool,
    place: Place,
    name: &[u8],
    of: Meaning,
) -> Result<Core, LowerFault>
    ensures { Gives (core (S.around outside.now)) result (seen (S.around outside.now) state.now)
        (r.read_outer of_this place (name_in (seen (S.around outside.now) state.now).names.library name.now) (meaning of)
        (seen (S.around outside.now) state.now)) }
{
    match of {
        Meaning::Function(function) => Ok(constant(outside, place, Value::Code(function))),
        Meaning::Variable(variable, _) => Ok(leaf(outside, place, Leaf::StaticRead(variable))),
        Meaning::Accessors(getter, _) => {
            Ok(read_getter(alloc, outside, state, place, getter, name)?)
        }
        Meaning::Class(class) => Ok(class_value(alloc, outside, state, place, class)?),
        Meaning::Alias(_) => Err(LowerFault::LeftOut(place, Feature::FunctionTypes)),
        Meaning::TypeParameter(index) => {
            Ok(parameter_value(alloc, outside, state, place, index, name)?)
        }
        Meaning::Prefix => {
            let error = ThrowKind::NoSuchMethodError;
            Ok(raise_unknown(alloc, outside, state, place, error, name, false)?)
        }
        Meaning::Member => Ok(read_unknown(alloc, outside, state, of_this, place, name)?),
        Meaning::Ambiguous => Ok(read_unknown(alloc, outside, state, of_this, place, name)?),
        Meaning::Unknown => Ok(read_unknown(alloc, outside, state, of_this, place, name)?),
    }
}

/// A name that is read.
pub fn read_bound<S: Surroundings>(
    alloc: Global,
    outside: &S,
    state: &State,
    name: &PlacedName,
    of: &Bound,
) -> Result<Core, LowerFault>
    ensures { Gives (core (S.around outside.now)) result (seen (S.around outside.now) state.now)
        (r.read_bound (word name.now) (bound (S.around outside.now) of.now) (seen (S.around outside.now) state.now)) }
{
    match of {
        Bound::Local(entry) => Ok(variable(outside, name.place, entry.variable)),
        Bound::Outer(of_this, meaning) => {
            let text = name.text.as_slice();
            read_outer(alloc, outside, state, *of_this, name.place, text, *meaning)
        }
        Bound::AliasBehind(at) => Err(LowerFault::LeftOut(*at, Feature::FunctionTypes)),
    }
}

// The name of `e[i]`.
fn index_name<S: Surroundings>(outside: &S) -> Result<Name, Want>
    ensures { IfOk result (λ found. text (S.around outside.now) found ≡ codes "[]") }
{
    find(outside, b"[]")
}

/// `e[i]`
pub fn item<S: Surroundings>(
    alloc: Global,
    outside: &S,
    place: Place,
    receiver: Core,
    index: Core,
) -> Result<Core, Want>
    ensures { IfOk result (λ made. core (S.around outside.now) made
        ≡ r.send place (core (S.around outside.now) receiver) (codes "[]") (r.by_place (core (S.around outside.now) index ∷ []))) }
{
    let operands = one_operand(alloc, outside, index)?;
    send(outside, place, receiver, index_name(outside)?, operands)
}

/// `super[i]`
pub fn super_item<S: Surroundings>(
    alloc: Global,
    outside: &S,
    place: Place,
    index: Core,
) -> Result<Core, Want>
    ensures { IfOk result (λ made. core (S.around outside.now) made
        ≡ r.row place (c.super Method (codes "[]")) (r.by_place (core (S.around outside.now) index ∷ []))) }
{
    let operands = one_operand(alloc, outside, index)?;
    let name = index_name(outside)?;
    Ok(super_call(outside, place, Role::Method, name, operands))
}

/// A reference is read.
pub fn read<S: Surroundings>(
    alloc: Global,
    outside: &S,
    state: &State,
    place: Place,
    of: Reference,
) -> Result<Core, LowerFault>
    ensures { Gives (core (S.around outside.now)) result (seen (S.around outside.now) state.now)
        (r.read place (reference (S.around outside.now) of) (seen (S.around outside.now) state.now)) }
{
    match of {
        Reference::Evaluated(form) => Ok(form),
        Reference::Named(name, bound) => read_bound(alloc, outside, state, &name, &bound),
        Reference::Member(form, name) => Ok(get(alloc, outside, place, form, name)?),
        Reference::Item(form, index) => { Ok(item(alloc, outside, place, form, index)?) }
        Reference::SuperMember(name) => {
            let operands = no_operands(alloc, outside);
            Ok(super_call(outside, place, Role::Getter, name, operands))
        }
        Reference::SuperItem(index) => Ok(super_item(alloc, outside, place, index)?),
    }
}
