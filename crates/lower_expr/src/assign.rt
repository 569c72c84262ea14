// Assignments (ECMA-408, 16.19 Assignment).
ghost use Rattle.lower_leaf.specs.Around.{text};
ghost use Rattle.lower_operand.specs.Held.{value_written, value_combined};
ghost use Rattle.lower_operand.specs.Operators.{name_option};
ghost use Rattle.dart_tree.specs.View as view;
ghost use Rattle.translation.specs.Expressions as e;
ghost use Rattle.translation.specs.Firsts as firsts;
ghost use Rattle.translation.specs.Productions as low;
ghost use Rattle.translation.specs.References as r;
ghost use Rattle.lower_leaf.specs.Forms.{core};
ghost use Rattle.lower_leaf.specs.Gives.{Gives};
ghost use Rattle.lower_leaf.specs.Nests.{NestsFunction};
ghost use Rattle.lower_leaf.specs.Seen.{seen};
ghost use Rattle.lower_reference.specs.Referred.{reference};

use crate::lower::expr;
use core_program::form::Core;
use dart_base::name::Name;
use dart_base::place::Place;
use dart_tree::expression::Expr;
use dart_tree::parameter::Parameters;
use dart_tree::statement::Body;
use lower_leaf::fault::LowerFault;
use lower_leaf::first::first_of_expr;
use lower_leaf::form::let_in;
use lower_leaf::inner::Inner;
use lower_leaf::state::{State, fresh};
use lower_leaf::surroundings::Surroundings;
use lower_reference::plain::{one_operand, send, variable};
use lower_reference::read::read;
use lower_reference::reference::{Reference, clone_reference};
use lower_reference::write::write;
use std::alloc::Global;

/// `x = v` or `x op= v` (ECMA-408, 16.19 Assignment).
#[cycle(lower)]
pub fn assigning<
    S: Surroundings,
    F: Fn(Global, &S, &mut State, usize, &Parameters, &Body) -> Result<u32, LowerFault>,
>(
    alloc: Global,
    outside: &S,
    inner: &Inner<F>,
    state: &mut State,
    value: &Expr,
    name: Option<Name>,
    place: Place,
    target: Reference,
) -> Result<Core, LowerFault>
    requires { NestsFunction S.around inner.now.limit (F.pre inner.now.function) (F.post inner.now.function) }
    ensures { Gives (core (S.around outside.now)) result (seen (S.around outside.now) state.new)
        (e.assigning (name_option (S.around outside.now) name) place (firsts.first_of_expr (view.expr value.now))
        (low.expr (view.expr value.now)) (reference (S.around outside.now) target) (seen (S.around outside.now) state.old)) }
{
    match name {
        None => assigned(alloc, outside, inner, state, value, place, target),
        Some(name) => compound(alloc, outside, inner, state, value, name, place, target),
    }
}

// `x = v`
#[cycle(lower)]
fn assigned<
    S: Surroundings,
    F: Fn(Global, &S, &mut State, usize, &Parameters, &Body) -> Result<u32, LowerFault>,
>(
    alloc: Global,
    outside: &S,
    inner: &Inner<F>,
    state: &mut State,
    value: &Expr,
    place: Place,
    target: Reference,
) -> Result<Core, LowerFault>
    requires { NestsFunction S.around inner.now.limit (F.pre inner.now.function) (F.post inner.now.function) }
    ensures { Gives (core (S.around outside.now)) result (seen (S.around outside.now) state.new)
        (r.assigned place (firsts.first_of_expr (view.expr value.now)) (low.expr (view.expr value.now)) (reference (S.around outside.now) target) (seen (S.around outside.now) state.old)) }
{
    match target {
        Reference::Item(form, index) => {
            let x = fresh(outside, state)?;
            let y = fresh(outside, state)?;
            let of = Reference::Item(variable(outside, place, x), variable(outside, place, y));
            let made = assigned_to(alloc, outside, inner, state, value, place, of)?;
            let body = let_in(outside, alloc, place, y, index, made)?;
            Ok(let_in(outside, alloc, place, x, form, body)?)
        }
        Reference::SuperItem(index) => {
            let x = fresh(outside, state)?;
            let of = Reference::SuperItem(variable(outside, place, x));
            let made = assigned_to(alloc, outside, inner, state, value, place, of)?;
            Ok(let_in(outside, alloc, place, x, index, made)?)
        }
        Reference::Evaluated(form) => {
            let of = Reference::Evaluated(form);
            assigned_to(alloc, outside, inner, state, value, place, of)
        }
        Reference::Named(word, bound) => {
            let of = Reference::Named(word, bound);
            assigned_to(alloc, outside, inner, state, value, place, of)
        }
        Reference::Member(form, name) => {
            let of = Reference::Member(form, name);
            assigned_to(alloc, outside, inner, state, value, place, of)
        }
        Reference::SuperMember(name) => {
            let of = Reference::SuperMember(name);
            assigned_to(alloc, outside, inner, state, value, place, of)
        }
    }
}

// `x = v`, where what x holds is evaluated.
#[cycle(lower)]
fn assigned_to<
    S: Surroundings,
    F: Fn(Global, &S, &mut State, usize, &Parameters, &Body) -> Result<u32, LowerFault>,
>(
    alloc: Global,
    outside: &S,
    inner: &Inner<F>,
    state: &mut State,
    value: &Expr,
    place: Place,
    of: Reference,
) -> Result<Core, LowerFault>
    requires { NestsFunction S.around inner.now.limit (F.pre inner.now.function) (F.post inner.now.function) }
    ensures { Gives (core (S.around outside.now)) result (seen (S.around outside.now) state.new)
        (value_written place (firsts.first_of_expr (view.expr value.now)) (low.expr (view.expr value.now)) (reference (S.around outside.now) of) (seen (S.around outside.now) state.old)) }
{
    let at = first_of_expr(value);
    let form = expr(alloc, outside, inner, state, value)?;
    write(alloc, outside, state, place, at, of, form)
}

// `x op= v`
#[cycle(lower)]
fn compound<
    S: Surroundings,
    F: Fn(Global, &S, &mut State, usize, &Parameters, &Body) -> Result<u32, LowerFault>,
>(
    alloc: Global,
    outside: &S,
    inner: &Inner<F>,
    state: &mut State,
    value: &Expr,
    name: Name,
    place: Place,
    target: Reference,
) -> Result<Core, LowerFault>
    requires { NestsFunction S.around inner.now.limit (F.pre inner.now.function) (F.post inner.now.function) }
    ensures { Gives (core (S.around outside.now)) result (seen (S.around outside.now) state.new)
        (r.compound place (text (S.around outside.now) name) (low.expr (view.expr value.now)) (reference (S.around outside.now) target) (seen (S.around outside.now) state.old)) }
{
    match target {
        Reference::Member(form, member) => {
            let x = fresh(outside, state)?;
            let of = Reference::Member(variable(outside, place, x), member);
            let made = compound_to(alloc, outside, inner, state, value, name, place, of)?;
            Ok(let_in(outside, alloc, place, x, form, made)?)
        }
        Reference::Item(form, index) => {
            let x = fresh(outside, state)?;
            let y = fresh(outside, state)?;
            let of = Reference::Item(variable(outside, place, x), variable(outside, place, y));
            let made = compound_to(alloc, outside, inner, state, value, name, place, of)?;
            let body = let_in(outside, alloc, place, y, index, made)?;
            Ok(let_in(outside, alloc, place, x, form, body)?)
        }
        Reference::SuperItem(index) => {
            let x = fresh(outside, state)?;
            let of = Reference::SuperItem(variable(outside, place, x));
            let made = compound_to(alloc, outside, inner, state, value, name, place, of)?;
            Ok(let_in(outside, alloc, place, x, index, made)?)
        }
        Reference::Evaluated(form) => {
            let of = Reference::Evaluated(form);
            compound_to(alloc, outside, inner, state, value, name, place, of)
        }
        Reference::Named(word, bound) => {
            let of = Reference::Named(word, bound);
            compound_to(alloc, outside, inner, state, value, name, place, of)
        }
        Reference::SuperMember(member) => {
            let of = Reference::SuperMember(member);
            compound_to(alloc, outside, inner, state, value, name, place, of)
        }
    }
}

// `x op= v`, where what x holds is evaluated.
#[cycle(lower)]
fn compound_to<
    S: Surroundings,
    F: Fn(Global, &S, &mut State, usize, &Parameters, &Body) -> Result<u32, LowerFault>,
>(
    alloc: Global,
    outside: &S,
    inner: &Inner<F>,
    state: &mut State,
    value: &Expr,
    name: Name,
    place: Place,
    of: Reference,
) -> Result<Core, LowerFault>
    requires { NestsFunction S.around inner.now.limit (F.pre inner.now.function) (F.post inner.now.function) }
    ensures { Gives (core (S.around outside.now)) result (seen (S.around outside.now) state.new)
        (value_combined place (text (S.around outside.now) name) (low.expr (view.expr value.now)) (reference (S.around outside.now) of) (seen (S.around outside.now) state.old)) }
{
    let copy = clone_reference(alloc, outside, &of)?;
    let old = read(alloc, outside, state, place, copy)?;
    let form = expr(alloc, outside, inner, state, value)?;
    let operands = one_operand(alloc, outside, form)?;
    let made = send(outside, place, old, name, operands)?;
    write(alloc, outside, state, place, place, of, made)
}
