// References that are called (ECMA-408, 16.14 Function Invocation and 16.17 Method Invocation).
ghost use Rattle.std.specs.Prelude.{◌≡◌, IfOk};
ghost use Rattle.translation.specs.References as r;
ghost use Rattle.translation.specs.Surroundings.{name_in};
ghost use Rattle.translation.specs.Types.{argument_in};
ghost use Rattle.lower_leaf.specs.Around.{declaration, meaning};
ghost use Rattle.lower_leaf.specs.Forms.{core, cores, row_of};
ghost use Rattle.lower_leaf.specs.Gives.{Gives};
ghost use Rattle.lower_leaf.specs.Seen.{seen};
ghost use Rattle.lower_reference.specs.Referred.{word, bound, reference};

use crate::plain::{apply, call, no_operands, raised_behind, send, super_call, this, variable};
use crate::read::{class_value, item, super_item};
use crate::reference::{Bound, PlacedName, Reference, name_of};
use core_program::form::{Core, Leaf};
use dart_base::feature::Feature;
use dart_base::place::Place;
use dart_ir::class::Role;
use dart_ir::kind::ThrowKind;
use dart_ir::number::DeclId;
use lower_leaf::fault::{LowerFault, Want};
use lower_leaf::form::{Operands, leaf, type_literal};
use lower_leaf::meaning::Meaning;
use lower_leaf::state::State;
use lower_leaf::surroundings::Surroundings;
use lower_leaf::types::argument_in;
use std::alloc::Global;

/// The operands, and then an error for a name that nothing gives.
pub fn refused_call<S: Surroundings>(
    alloc: Global,
    outside: &S,
    state: &State,
    place: Place,
    forms: Vec<Core>,
    error: ThrowKind,
    name: &[u8],
    is_setter: bool,
) -> Result<Core, Want>
    ensures { IfOk result (λ made. core (S.around outside.now) made
        ≡ r.raised_behind place (cores (S.around outside.now) forms.items) error
        (name_in (seen (S.around outside.now) state.now).names.library name.now) is_setter) }
{
    let name = name_of(alloc, outside, state, name)?;
    raised_behind(outside, place, forms, error, name, is_setter)
}

// What a getter answers is called.
fn call_getter<S: Surroundings>(
    alloc: Global,
    outside: &S,
    state: &State,
    place: Place,
    getter: Option<DeclId>,
    name: &[u8],
    operands: Operands,
) -> Result<Core, Want>
    ensures { IfOk result (λ made. core (S.around outside.now) made
        ≡ r.call_getter place (declaration getter) (name_in (seen (S.around outside.now) state.now).names.library name.now)
        (row_of (S.around outside.now) operands)) }
{
    match getter {
        None => {
            let error = ThrowKind::NoSuchMethodError;
            refused_call(
                alloc,
                outside,
                state,
                place,
                operands.forms,
                error,
                name,
                false,
            )
        }
        Some(getter) => {
            let callee = call(outside, place, getter, no_operands(alloc, outside));
            apply(outside, place, callee, operands)
        }
    }
}

// The value that a type parameter is is called.
fn call_parameter<S: Surroundings>(
    alloc: Global,
    outside: &S,
    state: &State,
    place: Place,
    index: u32,
    name: &[u8],
    operands: Operands,
) -> Result<Core, Want>
    ensures { IfOk result (λ made. core (S.around outside.now) made
        ≡ r.call_parameter place (seen (S.around outside.now) state.now).inside.class
        (argument_in (seen (S.around outside.now) state.now).inside.arguments index)
        (name_in (seen (S.around outside.now) state.now).names.library name.now) (row_of (S.around outside.now) operands)) }
{
    match state.inside.class {
        None => {
            let error = ThrowKind::MalformedTypeError;
            refused_call(
                alloc,
                outside,
                state,
                place,
                operands.forms,
                error,
                name,
                false,
            )
        }
        Some(_) => {
            let of = argument_in(alloc, outside, state, index)?;
            let callee = type_literal(outside, place, of);
            apply(outside, place, callee, operands)
        }
    }
}

// A method of `this`, where there is one.
fn call_unknown<S: Surroundings>(
    alloc: Global,
    outside: &S,
    state: &State,
    of_this: bool,
    place: Place,
    name: &[u8],
    operands: Operands,
) -> Result<Core, Want>
    ensures { IfOk result (λ made. core (S.around outside.now) made
        ≡ r.call_unknown of_this place (name_in (seen (S.around outside.now) state.now).names.library name.now)
        (row_of (S.around outside.now) operands)) }
{
    if !of_this {
        let error = ThrowKind::NoSuchMethodError;
        return refused_call(
            alloc,
            outside,
            state,
            place,
            operands.forms,
            error,
            name,
            false,
        );
    }
    let name = name_of(alloc, outside, state, name)?;
    send(outside, place, this(outside, place), name, operands)
}

// A name that no local scope declares.
fn call_outer<S: Surroundings>(
    alloc: Global,
    outside: &S,
    state: &State,
    of_this: bool,
    place: Place,
    name: &[u8],
    of: Meaning,
    operands: Operands,
) -> Result<Core, LowerFault>
    ensures { Gives (core (S.around outside.now)) result (seen (S.around outside.now) state.now)
        (r.call_outer of_this place (name_in (seen (S.around outside.now) state.now).names.library name.now) (meaning of)
        (row_of (S.around outside.now) operands) (seen (S.around outside.now) state.now)) }
{
    match of {
        Meaning::Function(function) => Ok(call(outside, place, function, operands)),
        Meaning::Variable(variable, _) => {
            let callee = leaf(outside, place, Leaf::StaticRead(variable));
            Ok(apply(outside, place, callee, operands)?)
        }
        Meaning::Accessors(getter, _) => {
            Ok(call_getter(alloc, outside, state, place, getter, name, operands)?)
        }
        Meaning::Class(class) => {
            let callee = class_value(alloc, outside, state, place, class)?;
            Ok(apply(outside, place, callee, operands)?)
        }
        Meaning::Alias(_) => Err(LowerFault::LeftOut(place, Feature::FunctionTypes)),
        Meaning::TypeParameter(index) => {
            Ok(call_parameter(alloc, outside, state, place, index, name, operands)?)
        }
        Meaning::Prefix => {
            let error = ThrowKind::NoSuchMethodError;
            Ok(refused_call(
                alloc,
                outside,
                state,
                place,
                operands.forms,
                error,
                name,
                false,
            )?)
        }
        Meaning::Member => Ok(call_unknown(alloc, outside, state, of_this, place, name, operands)?),
        Meaning::Ambiguous => {
            Ok(call_unknown(alloc, outside, state, of_this, place, name, operands)?)
        }
        Meaning::Unknown => {
            Ok(call_unknown(alloc, outside, state, of_this, place, name, operands)?)
        }
    }
}

// A name that is called.
fn call_bound<S: Surroundings>(
    alloc: Global,
    outside: &S,
    state: &State,
    name: &PlacedName,
    of: &Bound,
    operands: Operands,
) -> Result<Core, LowerFault>
    ensures { Gives (core (S.around outside.now)) result (seen (S.around outside.now) state.now)
        (r.call_bound (word name.now) (bound (S.around outside.now) of.now) (row_of (S.around outside.now) operands)
        (seen (S.around outside.now) state.now)) }
{
    match of {
        Bound::Local(entry) => {
            let callee = variable(outside, name.place, entry.variable);
            Ok(apply(outside, name.place, callee, operands)?)
        }
        Bound::Outer(of_this, meaning) => {
            let text = name.text.as_slice();
            call_outer(
                alloc, outside, state, *of_this, name.place, text, *meaning, operands,
            )
        }
        Bound::AliasBehind(at) => Err(LowerFault::LeftOut(*at, Feature::FunctionTypes)),
    }
}

/// A reference is called; the receiver comes first.
pub fn called<S: Surroundings>(
    alloc: Global,
    outside: &S,
    state: &State,
    place: Place,
    of: Reference,
    operands: Operands,
) -> Result<Core, LowerFault>
    ensures { Gives (core (S.around outside.now)) result (seen (S.around outside.now) state.now)
        (r.called place (reference (S.around outside.now) of) (row_of (S.around outside.now) operands)
        (seen (S.around outside.now) state.now)) }
{
    match of {
        Reference::Evaluated(form) => Ok(apply(outside, place, form, operands)?),
        Reference::Named(name, bound) => {
            call_bound(alloc, outside, state, &name, &bound, operands)
        }
        Reference::Member(form, name) => Ok(send(outside, place, form, name, operands)?),
        Reference::Item(form, index) => {
            let callee = item(alloc, outside, place, form, index)?;
            Ok(apply(outside, place, callee, operands)?)
        }
        Reference::SuperMember(name) => {
            Ok(super_call(outside, place, Role::Method, name, operands))
        }
        Reference::SuperItem(index) => {
            let callee = super_item(alloc, outside, place, index)?;
            Ok(apply(outside, place, callee, operands)?)
        }
    }
}
