// Expressions in statements: conditions, steps and what is returned (ECMA-408, 17.2 Expression Statements, 17.5 If to 17.8
// Do and 17.12 Return).
#![tactic(auto, using(crate::proofs::Trees::value_trees, crate::proofs::Rest::steps), unfolding(translation::specs::Walk::on))]

ghost use Rattle.dart_tree.specs.Lists.{items_of};
ghost use Rattle.lower_clause.specs.Jumps.{all_forms};
ghost use Rattle.lower_leaf.specs.Forms.{core, part};
ghost use Rattle.lower_leaf.specs.Gives.{Gives};
ghost use Rattle.lower_leaf.specs.Nests.{NestsFunction};
ghost use Rattle.lower_leaf.specs.Seen.{seen};
ghost use Rattle.dart_tree.specs.View as view;
ghost use Rattle.translation.specs.Firsts as firsts;
ghost use Rattle.translation.specs.Productions as low;
ghost use Rattle.translation.specs.Statements as s;

use core_program::form::{Core, Part};
use dart_base::place::Place;
use dart_ir::kind::SiteKind;
use dart_tree::expression::{Expr, Item, Value};
use dart_tree::parameter::Parameters;
use dart_tree::statement::Body;
use lower_clause::part::alone;
use lower_expr::lower::expr;
use lower_leaf::fault::LowerFault;
use lower_leaf::first::first_of_expr;
use lower_leaf::form::{given, missing, returned};
use lower_leaf::inner::Inner;
use lower_leaf::site::{checked, tested};
use lower_leaf::state::{State, clone_asked};
use lower_leaf::surroundings::Surroundings;
use std::alloc::Global;

/// A condition (ECMA-408, 16.4.1 Boolean Conversion).
pub fn condition<
    S: Surroundings,
    F: Fn(Global, &S, &mut State, usize, &Parameters, &Body) -> Result<u32, LowerFault>,
>(
    alloc: Global,
    outside: &S,
    inner: &Inner<F>,
    state: &mut State,
    tree: &Expr,
) -> Result<Core, LowerFault>
    requires { NestsFunction S.around inner.now.limit (F.pre inner.now.function) (F.post inner.now.function) }
    ensures { Gives (core (S.around outside.now)) result (seen (S.around outside.now) state.new)
        (s.condition (firsts.first_of_expr (view.expr tree.now)) (low.expr (view.expr tree.now)) (seen (S.around outside.now) state.old)) }
{
    let form = expr(alloc, outside, inner, state, tree)?;
    tested(alloc, outside, state, first_of_expr(tree), form)
}

/// A condition that may be left out.
pub fn condition_part<
    S: Surroundings,
    F: Fn(Global, &S, &mut State, usize, &Parameters, &Body) -> Result<u32, LowerFault>,
>(
    alloc: Global,
    outside: &S,
    inner: &Inner<F>,
    state: &mut State,
    tree: &Value,
) -> Result<Part, LowerFault>
    requires { NestsFunction S.around inner.now.limit (F.pre inner.now.function) (F.post inner.now.function) }
    ensures { Gives (part (S.around outside.now)) result (seen (S.around outside.now) state.new)
        (low.condition_part (view.value tree.now) (seen (S.around outside.now) state.old)) }
{
    match tree {
        Value::Omitted => Ok(missing(outside)),
        Value::Given(_, tree) => {
            let form = condition(alloc, outside, inner, state, tree)?;
            Ok(given(outside, alloc, form)?)
        }
    }
}

/// The updates of a `for`.
pub fn steps<
    S: Surroundings,
    F: Fn(Global, &S, &mut State, usize, &Parameters, &Body) -> Result<u32, LowerFault>,
>(
    alloc: Global,
    outside: &S,
    inner: &Inner<F>,
    state: &mut State,
    all: &Vec<Item>,
) -> Result<Vec<Core>, LowerFault>
    requires { NestsFunction S.around inner.now.limit (F.pre inner.now.function) (F.post inner.now.function) }
    ensures { Gives (all_forms (S.around outside.now)) result (seen (S.around outside.now) state.new)
        (low.steps (items_of all.now.items) (seen (S.around outside.now) state.old)) }
{
    let mut found = Vec::new(alloc);
    for one in all {
        found.push(expr(alloc, outside, inner, state, &one.value)?)?;
    }
    Ok(found)
}

/// An expression that may be left out (17.2 Expression Statements).
pub fn expression<
    S: Surroundings,
    F: Fn(Global, &S, &mut State, usize, &Parameters, &Body) -> Result<u32, LowerFault>,
>(
    alloc: Global,
    outside: &S,
    inner: &Inner<F>,
    state: &mut State,
    tree: &Value,
) -> Result<Vec<Core>, LowerFault>
    requires { NestsFunction S.around inner.now.limit (F.pre inner.now.function) (F.post inner.now.function) }
    ensures { Gives (all_forms (S.around outside.now)) result (seen (S.around outside.now) state.new)
        (low.expression (view.value tree.now) (seen (S.around outside.now) state.old)) }
{
    match tree {
        Value::Omitted => Ok(Vec::new(alloc)),
        Value::Given(_, tree) => {
            let form = expr(alloc, outside, inner, state, tree)?;
            Ok(alone(alloc, outside, form)?)
        }
    }
}

/// The value of a function, tested at the place of the expression (17.12 Return).
pub fn returning<
    S: Surroundings,
    F: Fn(Global, &S, &mut State, usize, &Parameters, &Body) -> Result<u32, LowerFault>,
>(
    alloc: Global,
    outside: &S,
    inner: &Inner<F>,
    state: &mut State,
    tree: &Expr,
    place: Place,
) -> Result<Core, LowerFault>
    requires { NestsFunction S.around inner.now.limit (F.pre inner.now.function) (F.post inner.now.function) }
    ensures { Gives (core (S.around outside.now)) result (seen (S.around outside.now) state.new)
        (s.returned place (firsts.first_of_expr (view.expr tree.now)) (low.expr (view.expr tree.now)) (seen (S.around outside.now) state.old)) }
{
    let form = expr(alloc, outside, inner, state, tree)?;
    let wanted = clone_asked(alloc, outside, &state.inside.result)?;
    let at = first_of_expr(tree);
    let form = checked(alloc, outside, state, SiteKind::Return, at, wanted, form)?;
    let value = given(outside, alloc, form)?;
    Ok(returned(outside, place, value))
}

/// A `return`. A generative constructor returns no value.
pub fn return_value<
    S: Surroundings,
    F: Fn(Global, &S, &mut State, usize, &Parameters, &Body) -> Result<u32, LowerFault>,
>(
    alloc: Global,
    outside: &S,
    inner: &Inner<F>,
    state: &mut State,
    tree: &Value,
    word: Place,
) -> Result<Core, LowerFault>
    requires { NestsFunction S.around inner.now.limit (F.pre inner.now.function) (F.post inner.now.function) }
    ensures { Gives (core (S.around outside.now)) result (seen (S.around outside.now) state.new)
        (low.return_value word (view.value tree.now) (seen (S.around outside.now) state.old)) }
{
    match tree {
        Value::Omitted => Ok(returned(outside, word, missing(outside))),
        Value::Given(_, tree) => {
            if !state.inside.gives_value {
                return Err(LowerFault::BadConstructor(word));
            }
            returning(alloc, outside, inner, state, tree, word)
        }
    }
}
