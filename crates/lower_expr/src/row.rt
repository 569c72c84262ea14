// Rows of operators (ECMA-408, 16.21 Logical Boolean Expressions to 16.28 Multiplicative Expressions).
ghost use Rattle.dart_tree.specs.Lists.{tails_of};
ghost use Rattle.lower_expr.specs.Behind.{both_behind, either_behind};
ghost use Rattle.lower_expr.specs.Made.{behind_super, option_core};
ghost use Rattle.dart_tree.specs.View as view;
ghost use Rattle.translation.specs.Expressions as e;
ghost use Rattle.translation.specs.Firsts as firsts;
ghost use Rattle.translation.specs.Productions as low;
ghost use Rattle.lower_leaf.specs.Forms.{core};
ghost use Rattle.lower_leaf.specs.Gives.{Gives};
ghost use Rattle.lower_leaf.specs.Nests.{NestsFunction};
ghost use Rattle.lower_leaf.specs.Seen.{seen};

use crate::lower::operand;
use core_program::form::Core;
use dart_base::place::Place;
use dart_tree::expression::Tail;
use dart_tree::parameter::Parameters;
use dart_tree::statement::Body;
use lower_leaf::fault::LowerFault;
use lower_leaf::first::first_of_operand;
use lower_leaf::inner::Inner;
use lower_leaf::site::tested;
use lower_leaf::state::State;
use lower_leaf::surroundings::Surroundings;
use lower_operand::condition::{both, either, equal, negated, this_form};
use lower_operand::operator::{Operation, operation_of};
use lower_operand::super_operator::super_binary;
use lower_reference::plain::{one_operand, send};
use std::alloc::Global;

// `a && b` of a form that is tested and of one that is tested at its place.
fn conjunction<S: Surroundings>(
    alloc: Global,
    outside: &S,
    state: &mut State,
    place: Place,
    test: Core,
    at: Place,
    form: Core,
) -> Result<Core, LowerFault>
    ensures { Gives (core (S.around outside.now)) result (seen (S.around outside.now) state.new)
        (both_behind place (core (S.around outside.now) test) at (core (S.around outside.now) form) (seen (S.around outside.now) state.old)) }
{
    let second = tested(alloc, outside, state, at, form)?;
    Ok(both(alloc, outside, place, test, second)?)
}

// `a || b` of the same.
fn disjunction<S: Surroundings>(
    alloc: Global,
    outside: &S,
    state: &mut State,
    place: Place,
    test: Core,
    at: Place,
    form: Core,
) -> Result<Core, LowerFault>
    ensures { Gives (core (S.around outside.now)) result (seen (S.around outside.now) state.new)
        (either_behind place (core (S.around outside.now) test) at (core (S.around outside.now) form) (seen (S.around outside.now) state.old)) }
{
    let second = tested(alloc, outside, state, at, form)?;
    Ok(either(alloc, outside, place, test, second)?)
}

/// A row of operators behind `super`, which has one at least.
#[cycle(lower)]
pub fn super_tails<
    S: Surroundings,
    F: Fn(Global, &S, &mut State, usize, &Parameters, &Body) -> Result<u32, LowerFault>,
>(
    alloc: Global,
    outside: &S,
    inner: &Inner<F>,
    state: &mut State,
    all: &Vec<Tail>,
    word: Place,
) -> Result<Core, LowerFault>
    requires { NestsFunction S.around inner.now.limit (F.pre inner.now.function) (F.post inner.now.function) }
    ensures { Gives (core (S.around outside.now)) result (seen (S.around outside.now) state.new)
        (low.super_tails word (tails_of all.now.items) (seen (S.around outside.now) state.old)) }
{
    let mut made = None;
    for one in all {
        let form = next_tail(alloc, outside, inner, state, one, word, made)?;
        made = Some(form);
    }
    match made {
        None => this_form(outside, state, word),
        Some(form) => Ok(form),
    }
}

// The next operator of a row behind `super`.
#[cycle(lower)]
fn next_tail<
    S: Surroundings,
    F: Fn(Global, &S, &mut State, usize, &Parameters, &Body) -> Result<u32, LowerFault>,
>(
    alloc: Global,
    outside: &S,
    inner: &Inner<F>,
    state: &mut State,
    tail: &Tail,
    word: Place,
    made: Option<Core>,
) -> Result<Core, LowerFault>
    requires { NestsFunction S.around inner.now.limit (F.pre inner.now.function) (F.post inner.now.function) }
    ensures { Gives (core (S.around outside.now)) result (seen (S.around outside.now) state.new)
        (behind_super word (option_core (S.around outside.now) made) tail.now.operator (view.operand tail.now.operand) (seen (S.around outside.now) state.old)) }
{
    match made {
        None => super_tail(alloc, outside, inner, state, tail, word),
        Some(form) => binary(alloc, outside, inner, state, tail, word, form),
    }
}

// The first operator of a row behind `super`.
#[cycle(lower)]
fn super_tail<
    S: Surroundings,
    F: Fn(Global, &S, &mut State, usize, &Parameters, &Body) -> Result<u32, LowerFault>,
>(
    alloc: Global,
    outside: &S,
    inner: &Inner<F>,
    state: &mut State,
    tail: &Tail,
    word: Place,
) -> Result<Core, LowerFault>
    requires { NestsFunction S.around inner.now.limit (F.pre inner.now.function) (F.post inner.now.function) }
    ensures { Gives (core (S.around outside.now)) result (seen (S.around outside.now) state.new)
        (e.with_instance word (e.super_binary word (e.operation tail.now.operator) (low.operand (view.operand tail.now.operand))) (seen (S.around outside.now) state.old)) }
{
    if !state.inside.has_instance {
        return Err(LowerFault::BadWord(word));
    }
    let of = operation_of(outside, &tail.operator)?;
    let form = operand(alloc, outside, inner, state, &tail.operand)?;
    super_binary(alloc, outside, state, word, of, form)
}

/// A row of operators, from the left (ECMA-408, 16.21 Logical Boolean Expressions to 16.28 Multiplicative Expressions).
#[cycle(lower)]
pub fn tails<
    S: Surroundings,
    F: Fn(Global, &S, &mut State, usize, &Parameters, &Body) -> Result<u32, LowerFault>,
>(
    alloc: Global,
    outside: &S,
    inner: &Inner<F>,
    state: &mut State,
    all: &Vec<Tail>,
    place: Place,
    first: Core,
) -> Result<Core, LowerFault>
    requires { NestsFunction S.around inner.now.limit (F.pre inner.now.function) (F.post inner.now.function) }
    ensures { Gives (core (S.around outside.now)) result (seen (S.around outside.now) state.new)
        (low.tails place (core (S.around outside.now) first) (tails_of all.now.items) (seen (S.around outside.now) state.old)) }
{
    let mut made = first;
    for one in all {
        made = binary(alloc, outside, inner, state, one, place, made)?;
    }
    Ok(made)
}

// An operand with an operator and the next operand.
#[cycle(lower)]
fn binary<
    S: Surroundings,
    F: Fn(Global, &S, &mut State, usize, &Parameters, &Body) -> Result<u32, LowerFault>,
>(
    alloc: Global,
    outside: &S,
    inner: &Inner<F>,
    state: &mut State,
    tail: &Tail,
    place: Place,
    first: Core,
) -> Result<Core, LowerFault>
    requires { NestsFunction S.around inner.now.limit (F.pre inner.now.function) (F.post inner.now.function) }
    ensures { Gives (core (S.around outside.now)) result (seen (S.around outside.now) state.new)
        (e.binary place (e.operation tail.now.operator) (core (S.around outside.now) first)
        (firsts.first_of_operand (view.operand tail.now.operand)) (low.operand (view.operand tail.now.operand)) (seen (S.around outside.now) state.old)) }
{
    let at = first_of_operand(&tail.operand);
    match operation_of(outside, &tail.operator)? {
        Operation::Conjunction => {
            let test = tested(alloc, outside, state, place, first)?;
            let form = operand(alloc, outside, inner, state, &tail.operand)?;
            conjunction(alloc, outside, state, place, test, at, form)
        }
        Operation::Disjunction => {
            let test = tested(alloc, outside, state, place, first)?;
            let form = operand(alloc, outside, inner, state, &tail.operand)?;
            disjunction(alloc, outside, state, place, test, at, form)
        }
        Operation::Equality => {
            let form = operand(alloc, outside, inner, state, &tail.operand)?;
            Ok(equal(alloc, outside, place, first, form)?)
        }
        Operation::Inequality => {
            let form = operand(alloc, outside, inner, state, &tail.operand)?;
            let made = equal(alloc, outside, place, first, form)?;
            negated(alloc, outside, state, place, place, made)
        }
        Operation::Method(name) => {
            let form = operand(alloc, outside, inner, state, &tail.operand)?;
            let operands = one_operand(alloc, outside, form)?;
            Ok(send(outside, place, first, name, operands)?)
        }
    }
}
