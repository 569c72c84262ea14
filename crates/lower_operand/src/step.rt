// `++` and `--` (ECMA-408, 16.29 Unary Expressions and 16.31 Postfix Expressions).
ghost use Rattle.std.specs.Prelude.{◌≡◌};
ghost use Rattle.translation.specs.Expressions as e;
ghost use Rattle.translation.specs.References as r;
ghost use Rattle.lower_leaf.specs.Around.{text};
ghost use Rattle.lower_leaf.specs.Forms.{core};
ghost use Rattle.lower_leaf.specs.Gives.{Gives};
ghost use Rattle.lower_leaf.specs.Seen.{seen};
ghost use Rattle.lower_reference.specs.Referred.{reference};
ghost use Rattle.lower_operand.specs.Held.{stepped_from, value_combined, value_stepped};

use crate::operator::{prefix_name, prefix_of};
use core_program::form::Core;
use dart_base::name::Name;
use dart_base::place::Place;
use dart_ir::value::integer_value;
use dart_tree::operator::Operator;
use lower_leaf::fault::LowerFault;
use lower_leaf::form::{block, let_in};
use lower_leaf::state::{State, fresh};
use lower_leaf::surroundings::Surroundings;
use lower_reference::plain::{constant, one_operand, send, variable};
use lower_reference::read::read;
use lower_reference::reference::{Reference, clone_reference};
use lower_reference::write::write;
use std::alloc::Global;

// The 1 of `x++`.
fn one<S: Surroundings>(outside: &S, place: Place) -> Core
    ensures { core (S.around outside.now) result ≡ e.one place }
{
    constant(outside, place, integer_value(1))
}

// `++x`, where what x holds is evaluated.
fn incremented_to<S: Surroundings>(
    alloc: Global,
    outside: &S,
    state: &mut State,
    place: Place,
    name: Name,
    of: Reference,
) -> Result<Core, LowerFault>
    ensures { Gives (core (S.around outside.now)) result (seen (S.around outside.now) state.new)
        (value_combined place (text (S.around outside.now) name) (e.went_one place) (reference (S.around outside.now) of)
        (seen (S.around outside.now) state.old)) }
{
    let copy = clone_reference(alloc, outside, &of)?;
    let old = read(alloc, outside, state, place, copy)?;
    let operands = one_operand(alloc, outside, one(outside, place))?;
    let made = send(outside, place, old, name, operands)?;
    write(alloc, outside, state, place, place, of, made)
}

/// `++x` is `x += 1` (16.29 Unary Expressions).
pub fn incremented<S: Surroundings>(
    alloc: Global,
    outside: &S,
    state: &mut State,
    place: Place,
    name: Name,
    target: Reference,
) -> Result<Core, LowerFault>
    ensures { Gives (core (S.around outside.now)) result (seen (S.around outside.now) state.new)
        (r.compound place (text (S.around outside.now) name) (e.went_one place) (reference (S.around outside.now) target)
        (seen (S.around outside.now) state.old)) }
{
    match target {
        Reference::Member(form, member) => {
            let x = fresh(outside, state)?;
            let of = Reference::Member(variable(outside, place, x), member);
            let made = incremented_to(alloc, outside, state, place, name, of)?;
            Ok(let_in(outside, alloc, place, x, form, made)?)
        }
        Reference::Item(form, index) => {
            let x = fresh(outside, state)?;
            let y = fresh(outside, state)?;
            let of = Reference::Item(variable(outside, place, x), variable(outside, place, y));
            let made = incremented_to(alloc, outside, state, place, name, of)?;
            let body = let_in(outside, alloc, place, y, index, made)?;
            Ok(let_in(outside, alloc, place, x, form, body)?)
        }
        Reference::SuperItem(index) => {
            let x = fresh(outside, state)?;
            let of = Reference::SuperItem(variable(outside, place, x));
            let made = incremented_to(alloc, outside, state, place, name, of)?;
            Ok(let_in(outside, alloc, place, x, index, made)?)
        }
        Reference::Evaluated(form) => {
            let of = Reference::Evaluated(form);
            incremented_to(alloc, outside, state, place, name, of)
        }
        Reference::Named(word, bound) => {
            let of = Reference::Named(word, bound);
            incremented_to(alloc, outside, state, place, name, of)
        }
        Reference::SuperMember(member) => {
            let of = Reference::SuperMember(member);
            incremented_to(alloc, outside, state, place, name, of)
        }
    }
}

// The rest of `x++`, where a variable has what x held.
fn stepped_from<S: Surroundings>(
    alloc: Global,
    outside: &S,
    state: &mut State,
    place: Place,
    name: Name,
    x: u32,
    of: Reference,
) -> Result<Core, LowerFault>
    ensures { Gives (core (S.around outside.now)) result (seen (S.around outside.now) state.new)
        (stepped_from place (text (S.around outside.now) name) (e.one place) (r.variable place x) (reference (S.around outside.now) of)
        (seen (S.around outside.now) state.old)) }
{
    let operands = one_operand(alloc, outside, one(outside, place))?;
    let made = send(outside, place, variable(outside, place, x), name, operands)?;
    let written = write(alloc, outside, state, place, place, of, made)?;
    let mut forms = Vec::new(alloc);
    forms.push(written)?;
    forms.push(variable(outside, place, x))?;
    Ok(block(outside, place, forms))
}

// `x++`, where what x holds is evaluated.
fn stepped_to<S: Surroundings>(
    alloc: Global,
    outside: &S,
    state: &mut State,
    place: Place,
    name: Name,
    of: Reference,
) -> Result<Core, LowerFault>
    ensures { Gives (core (S.around outside.now)) result (seen (S.around outside.now) state.new)
        (value_stepped place (text (S.around outside.now) name) (e.one place) (reference (S.around outside.now) of)
        (seen (S.around outside.now) state.old)) }
{
    let copy = clone_reference(alloc, outside, &of)?;
    let old = read(alloc, outside, state, place, copy)?;
    let x = fresh(outside, state)?;
    let body = stepped_from(alloc, outside, state, place, name, x, of)?;
    Ok(let_in(outside, alloc, place, x, old, body)?)
}

// `x++` answers what x held (16.31 Postfix Expressions).
fn stepped<S: Surroundings>(
    alloc: Global,
    outside: &S,
    state: &mut State,
    place: Place,
    name: Name,
    target: Reference,
) -> Result<Core, LowerFault>
    ensures { Gives (core (S.around outside.now)) result (seen (S.around outside.now) state.new)
        (r.stepped place (text (S.around outside.now) name) (e.one place) (reference (S.around outside.now) target)
        (seen (S.around outside.now) state.old)) }
{
    match target {
        Reference::Member(form, member) => {
            let x = fresh(outside, state)?;
            let of = Reference::Member(variable(outside, place, x), member);
            let made = stepped_to(alloc, outside, state, place, name, of)?;
            Ok(let_in(outside, alloc, place, x, form, made)?)
        }
        Reference::Item(form, index) => {
            let x = fresh(outside, state)?;
            let y = fresh(outside, state)?;
            let of = Reference::Item(variable(outside, place, x), variable(outside, place, y));
            let made = stepped_to(alloc, outside, state, place, name, of)?;
            let body = let_in(outside, alloc, place, y, index, made)?;
            Ok(let_in(outside, alloc, place, x, form, body)?)
        }
        Reference::SuperItem(index) => {
            let x = fresh(outside, state)?;
            let of = Reference::SuperItem(variable(outside, place, x));
            let made = stepped_to(alloc, outside, state, place, name, of)?;
            Ok(let_in(outside, alloc, place, x, index, made)?)
        }
        Reference::Evaluated(form) => {
            let of = Reference::Evaluated(form);
            stepped_to(alloc, outside, state, place, name, of)
        }
        Reference::Named(word, bound) => {
            let of = Reference::Named(word, bound);
            stepped_to(alloc, outside, state, place, name, of)
        }
        Reference::SuperMember(member) => {
            let of = Reference::SuperMember(member);
            stepped_to(alloc, outside, state, place, name, of)
        }
    }
}

/// A reference with an operator behind it, or with none.
pub fn postfixed<S: Surroundings>(
    alloc: Global,
    outside: &S,
    state: &mut State,
    operator: &Option<Operator>,
    place: Place,
    target: Reference,
) -> Result<Core, LowerFault>
    ensures { Gives (core (S.around outside.now)) result (seen (S.around outside.now) state.new)
        (e.postfixed operator.now place (reference (S.around outside.now) target) (seen (S.around outside.now) state.old)) }
{
    match operator {
        None => read(alloc, outside, state, place, target),
        Some(operator) => {
            let of = prefix_of(outside, operator)?;
            let name = prefix_name(outside, of)?;
            stepped(alloc, outside, state, place, name, target)
        }
    }
}
