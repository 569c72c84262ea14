// References that are written (ECMA-408, 16.19 Assignment).
ghost use Rattle.std.specs.Prelude.{◌≡◌, ◌∷◌, [], codes, IfOk};
ghost use Rattle.core_program.specs.Core as c;
ghost use Rattle.dart_ir.specs.declared.class.Role.TheVariants.{Method};
ghost use Rattle.translation.specs.References as r;
ghost use Rattle.translation.specs.Surroundings.{name_in};
ghost use Rattle.lower_leaf.specs.Around.{text, declaration, meaning};
ghost use Rattle.lower_leaf.specs.Forms.{core, unary};
ghost use Rattle.lower_leaf.specs.Gives.{Gives};
ghost use Rattle.lower_leaf.specs.Seen.{seen, asked};
ghost use Rattle.lower_reference.specs.Referred.{word, bound, reference};

use crate::call::refused_call;
use crate::plain::{call, one_operand, send, super_call, this, two_operands, variable};
use crate::reference::{Bound, PlacedName, Reference, name_of};
use core_program::form::{Binary, Core, Unary};
use dart_base::name::Name;
use dart_base::place::Place;
use dart_ir::class::Role;
use dart_ir::kind::{SiteKind, ThrowKind};
use dart_ir::number::DeclId;
use lower_leaf::fault::{LowerFault, Want};
use lower_leaf::form::{binary, block, let_in, unary};
use lower_leaf::meaning::Meaning;
use lower_leaf::name::find;
use lower_leaf::site::checked;
use lower_leaf::state::{Asked, State, clone_asked, fresh};
use lower_leaf::surroundings::Surroundings;
use std::alloc::Global;

// Two forms in order.
fn both<S: Surroundings>(
    alloc: Global,
    outside: &S,
    place: Place,
    first: Core,
    second: Core,
) -> Result<Core, Want>
    ensures { IfOk result (λ made. core (S.around outside.now) made
        ≡ r.block place (core (S.around outside.now) first ∷ core (S.around outside.now) second ∷ [])) }
{
    let mut forms = Vec::new(alloc);
    forms.push(first)?;
    forms.push(second)?;
    Ok(block(outside, place, forms))
}

// The value, and an error of this kind.
fn refused_write<S: Surroundings>(
    alloc: Global,
    outside: &S,
    state: &State,
    place: Place,
    form: Core,
    error: ThrowKind,
    name: &[u8],
    is_setter: bool,
) -> Result<Core, Want>
    ensures { IfOk result (λ made. core (S.around outside.now) made
        ≡ r.raised_behind place (core (S.around outside.now) form ∷ []) error
        (name_in (seen (S.around outside.now) state.now).names.library name.now) is_setter) }
{
    let mut forms = Vec::new(alloc);
    forms.push(form)?;
    refused_call(alloc, outside, state, place, forms, error, name, is_setter)
}

// The value, and an error for `x=`.
fn unwritable<S: Surroundings>(
    alloc: Global,
    outside: &S,
    state: &State,
    place: Place,
    form: Core,
    name: &[u8],
) -> Result<Core, Want>
    ensures { IfOk result (λ made. core (S.around outside.now) made
        ≡ r.unwritable place (core (S.around outside.now) form) (name_in (seen (S.around outside.now) state.now).names.library name.now)) }
{
    let error = ThrowKind::NoSuchMethodError;
    refused_write(alloc, outside, state, place, form, error, name, true)
}

// A variable takes the tested value, unless it is final.
fn write_if<S: Surroundings>(
    alloc: Global,
    outside: &S,
    state: &mut State,
    is_final: bool,
    of: Unary,
    place: Place,
    at: Place,
    name: &[u8],
    wanted: Asked,
    form: Core,
) -> Result<Core, LowerFault>
    ensures { Gives (core (S.around outside.now)) result (seen (S.around outside.now) state.new)
        (r.write_if is_final (unary (S.around outside.now) of) place at
        (name_in (seen (S.around outside.now) state.old).names.library name.now) (asked (S.around outside.now) wanted)
        (core (S.around outside.now) form) (seen (S.around outside.now) state.old)) }
{
    if is_final {
        return Ok(unwritable(alloc, outside, state, place, form, name)?);
    }
    let form = checked(alloc, outside, state, SiteKind::Assign, at, wanted, form)?;
    Ok(unary(outside, alloc, place, of, form)?)
}

// A setter, whose value goes by a Let.
fn write_setter<S: Surroundings>(
    alloc: Global,
    outside: &S,
    state: &mut State,
    place: Place,
    setter: Option<DeclId>,
    name: &[u8],
    form: Core,
) -> Result<Core, LowerFault>
    ensures { Gives (core (S.around outside.now)) result (seen (S.around outside.now) state.new)
        (r.write_setter place (declaration setter) (name_in (seen (S.around outside.now) state.old).names.library name.now)
        (core (S.around outside.now) form) (seen (S.around outside.now) state.old)) }
{
    match setter {
        None => Ok(unwritable(alloc, outside, state, place, form, name)?),
        Some(setter) => {
            let x = fresh(outside, state)?;
            let operands = one_operand(alloc, outside, variable(outside, place, x))?;
            let first = call(outside, place, setter, operands);
            let inner = both(alloc, outside, place, first, variable(outside, place, x))?;
            Ok(let_in(outside, alloc, place, x, form, inner)?)
        }
    }
}

// The name of a type parameter is not assigned.
fn write_parameter<S: Surroundings>(
    alloc: Global,
    outside: &S,
    state: &State,
    place: Place,
    name: &[u8],
    form: Core,
) -> Result<Core, Want>
    ensures { IfOk result (λ made. core (S.around outside.now) made
        ≡ r.write_parameter place (seen (S.around outside.now) state.now).inside.class
        (name_in (seen (S.around outside.now) state.now).names.library name.now) (core (S.around outside.now) form)) }
{
    match state.inside.class {
        None => {
            let error = ThrowKind::MalformedTypeError;
            refused_write(alloc, outside, state, place, form, error, name, false)
        }
        Some(_) => unwritable(alloc, outside, state, place, form, name),
    }
}

// A setter of `this`, where there is one.
fn write_unknown<S: Surroundings>(
    alloc: Global,
    outside: &S,
    state: &State,
    of_this: bool,
    place: Place,
    name: &[u8],
    form: Core,
) -> Result<Core, Want>
    ensures { IfOk result (λ made. core (S.around outside.now) made
        ≡ r.write_unknown of_this place (name_in (seen (S.around outside.now) state.now).names.library name.now)
        (core (S.around outside.now) form)) }
{
    if !of_this {
        return unwritable(alloc, outside, state, place, form, name);
    }
    let name = name_of(alloc, outside, state, name)?;
    binary(
        outside,
        alloc,
        place,
        Binary::Set(name),
        this(outside, place),
        form,
    )
}

// What the annotation of a library or static variable asks for.
fn asked_by<S: Surroundings>(alloc: Global, outside: &S, of: DeclId) -> Result<Asked, Want>
    ensures { IfOk result (λ made. asked (S.around outside.now) made ≡ r.asked_by ((S.around outside.now).tables.variable_type of.0)) }
{
    match outside.variable_type(alloc, of)? {
        None => Ok(Asked {
            of: None,
            annotated: false,
        }),
        Some(of) => Ok(Asked {
            of: Some(of),
            annotated: true,
        }),
    }
}

// A name that no local scope declares.
fn write_outer<S: Surroundings>(
    alloc: Global,
    outside: &S,
    state: &mut State,
    of_this: bool,
    place: Place,
    at: Place,
    name: &[u8],
    of: Meaning,
    form: Core,
) -> Result<Core, LowerFault>
    ensures { Gives (core (S.around outside.now)) result (seen (S.around outside.now) state.new)
        (r.write_outer of_this place at (name_in (seen (S.around outside.now) state.old).names.library name.now) (meaning of)
        (core (S.around outside.now) form) (seen (S.around outside.now) state.old)) }
{
    match of {
        Meaning::Variable(variable, is_final) => {
            let wanted = asked_by(alloc, outside, variable)?;
            let of = Unary::StaticWrite(variable);
            write_if(
                alloc, outside, state, is_final, of, place, at, name, wanted, form,
            )
        }
        Meaning::Accessors(_, setter) => {
            write_setter(alloc, outside, state, place, setter, name, form)
        }
        Meaning::Function(_) => Ok(unwritable(alloc, outside, state, place, form, name)?),
        Meaning::Class(_) => Ok(unwritable(alloc, outside, state, place, form, name)?),
        Meaning::Alias(_) => Ok(unwritable(alloc, outside, state, place, form, name)?),
        Meaning::Prefix => Ok(unwritable(alloc, outside, state, place, form, name)?),
        Meaning::TypeParameter(_) => {
            Ok(write_parameter(alloc, outside, state, place, name, form)?)
        }
        Meaning::Member => Ok(write_unknown(alloc, outside, state, of_this, place, name, form)?),
        Meaning::Ambiguous => Ok(write_unknown(alloc, outside, state, of_this, place, name, form)?),
        Meaning::Unknown => Ok(write_unknown(alloc, outside, state, of_this, place, name, form)?),
    }
}

// A name that is written.
fn write_bound<S: Surroundings>(
    alloc: Global,
    outside: &S,
    state: &mut State,
    place: Place,
    at: Place,
    name: &PlacedName,
    of: &Bound,
    form: Core,
) -> Result<Core, LowerFault>
    ensures { Gives (core (S.around outside.now)) result (seen (S.around outside.now) state.new)
        (r.write_bound place at (word name.now) (bound (S.around outside.now) of.now) (core (S.around outside.now) form)
        (seen (S.around outside.now) state.old)) }
{
    let text = name.text.as_slice();
    match of {
        Bound::Local(entry) => {
            let wanted = clone_asked(alloc, outside, &entry.asked)?;
            let of = Unary::Write(entry.variable);
            let is_final = entry.is_final;
            write_if(
                alloc, outside, state, is_final, of, place, at, text, wanted, form,
            )
        }
        Bound::Outer(of_this, meaning) => {
            write_outer(
                alloc, outside, state, *of_this, place, at, text, *meaning, form,
            )
        }
        Bound::AliasBehind(_) => Ok(unwritable(alloc, outside, state, place, form, text)?),
    }
}

// The name of `e[i] = v`.
fn index_set_name<S: Surroundings>(outside: &S) -> Result<Name, Want>
    ensures { IfOk result (λ found. text (S.around outside.now) found ≡ codes "[]=") }
{
    find(outside, b"[]=")
}

// `e[i] = v`
fn write_item<S: Surroundings>(
    alloc: Global,
    outside: &S,
    state: &mut State,
    place: Place,
    receiver: Core,
    index: Core,
    form: Core,
) -> Result<Core, LowerFault>
    ensures { Gives (core (S.around outside.now)) result (seen (S.around outside.now) state.new)
        (r.write_item place (r.send place (core (S.around outside.now) receiver) (codes "[]=")) (core (S.around outside.now) index)
        (core (S.around outside.now) form) (seen (S.around outside.now) state.old)) }
{
    let x = fresh(outside, state)?;
    let operands = two_operands(alloc, outside, index, variable(outside, place, x))?;
    let name = index_set_name(outside)?;
    let first = send(outside, place, receiver, name, operands)?;
    let inner = both(alloc, outside, place, first, variable(outside, place, x))?;
    Ok(let_in(outside, alloc, place, x, form, inner)?)
}

// `super[i] = v`
fn write_super_item<S: Surroundings>(
    alloc: Global,
    outside: &S,
    state: &mut State,
    place: Place,
    index: Core,
    form: Core,
) -> Result<Core, LowerFault>
    ensures { Gives (core (S.around outside.now)) result (seen (S.around outside.now) state.new)
        (r.write_item place (r.row place (c.super Method (codes "[]="))) (core (S.around outside.now) index)
        (core (S.around outside.now) form) (seen (S.around outside.now) state.old)) }
{
    let x = fresh(outside, state)?;
    let operands = two_operands(alloc, outside, index, variable(outside, place, x))?;
    let name = index_set_name(outside)?;
    let first = super_call(outside, place, Role::Method, name, operands);
    let inner = both(alloc, outside, place, first, variable(outside, place, x))?;
    Ok(let_in(outside, alloc, place, x, form, inner)?)
}

/// A reference takes the value of a form. A test of the value stands at `at`.
pub fn write<S: Surroundings>(
    alloc: Global,
    outside: &S,
    state: &mut State,
    place: Place,
    at: Place,
    of: Reference,
    form: Core,
) -> Result<Core, LowerFault>
    ensures { Gives (core (S.around outside.now)) result (seen (S.around outside.now) state.new)
        (r.write place at (reference (S.around outside.now) of) (core (S.around outside.now) form)
        (seen (S.around outside.now) state.old)) }
{
    match of {
        Reference::Evaluated(target) => Ok(both(alloc, outside, place, target, form)?),
        Reference::Named(name, bound) => {
            write_bound(alloc, outside, state, place, at, &name, &bound, form)
        }
        Reference::Member(target, name) => {
            Ok(binary(outside, alloc, place, Binary::Set(name), target, form)?)
        }
        Reference::Item(target, index) => {
            write_item(alloc, outside, state, place, target, index, form)
        }
        Reference::SuperMember(name) => {
            let operands = one_operand(alloc, outside, form)?;
            Ok(super_call(outside, place, Role::Setter, name, operands))
        }
        Reference::SuperItem(index) => {
            write_super_item(alloc, outside, state, place, index, form)
        }
    }
}
