// Statements (ECMA-408, 17 Statements).
#![tactic(auto, using(crate::proofs::Trees::stmt_trees, crate::proofs::Labelled::labelled, crate::proofs::Rest::steps), unfolding(translation::specs::Walk::on))]

ghost use Rattle.dart_tree.specs.Lists.{stmts_of};
ghost use Rattle.lower_clause.specs.Jumps.{all_forms};
ghost use Rattle.lower_leaf.specs.Gives.{Gives};
ghost use Rattle.lower_leaf.specs.Nests.{NestsFunction};
ghost use Rattle.lower_leaf.specs.Seen.{seen};
ghost use Rattle.std.specs.Prelude.{[]};
ghost use Rattle.dart_tree.specs.View as view;
ghost use Rattle.translation.specs.Productions as low;
ghost use Rattle.translation.specs.Statements as s;

use crate::attempt::try_parts;
use crate::body::{block_of, local_function};
use crate::choose::switch;
use crate::iterate::loop_of;
use crate::part::part_of;
use crate::value::{condition, expression, return_value};
use crate::variable::variables;
use core_program::form::Core;
use dart_base::bytes::Bytes;
use dart_tree::parameter::Parameters;
use dart_tree::statement::{Body, Stmt};
use lower_clause::handler::try_core;
use lower_clause::jump::{
    add_labels, enter_target, jumping, labelled_forms, leave_target, target_number,
};
use lower_clause::part::alone;
use lower_expr::append;
use lower_leaf::fault::LowerFault;
use lower_leaf::form::{choice, missing};
use lower_leaf::inner::Inner;
use lower_leaf::state::{State, TargetKind};
use lower_leaf::surroundings::Surroundings;
use std::alloc::Global;

/// Statements in order (17.1 Blocks).
#[cycle(statements)]
pub fn statements<
    S: Surroundings,
    F: Fn(Global, &S, &mut State, usize, &Parameters, &Body) -> Result<u32, LowerFault>,
>(
    alloc: Global,
    outside: &S,
    inner: &Inner<F>,
    state: &mut State,
    all: &Vec<Stmt>,
) -> Result<Vec<Core>, LowerFault>
    requires { NestsFunction S.around inner.now.limit (F.pre inner.now.function) (F.post inner.now.function) }
    ensures { Gives (all_forms (S.around outside.now)) result (seen (S.around outside.now) state.new)
        (low.stmts (stmts_of all.now.items) (seen (S.around outside.now) state.old)) }
{
    let mut found = Vec::new(alloc);
    for one in all {
        append(&mut found, statement(alloc, outside, inner, state, one)?)?;
    }
    Ok(found)
}

/// A statement behind labels, the innermost of them first (17.13 Labels).
#[cycle(statements)]
pub fn behind_labels<
    S: Surroundings,
    F: Fn(Global, &S, &mut State, usize, &Parameters, &Body) -> Result<u32, LowerFault>,
>(
    alloc: Global,
    outside: &S,
    inner: &Inner<F>,
    state: &mut State,
    tree: &Stmt,
    labels: Vec<Bytes>,
) -> Result<Vec<Core>, LowerFault>
    requires { NestsFunction S.around inner.now.limit (F.pre inner.now.function) (F.post inner.now.function) }
    ensures { Gives (all_forms (S.around outside.now)) result (seen (S.around outside.now) state.new)
        (low.stmt (view.stmt tree.now) labels.items (seen (S.around outside.now) state.old)) }
{
    match tree {
        Stmt::Labelled(all, next) => {
            let labels = add_labels(alloc, all, labels)?;
            behind_labels(alloc, outside, inner, state, next, labels)
        }
        Stmt::Loop(again) => loop_of(alloc, outside, inner, state, again, labels),
        Stmt::Switch {
            word,
            opening: _,
            value,
            closing: _,
            opening_brace: _,
            parts,
            closing_brace: _,
        } => switch(alloc, outside, inner, state, parts, value, *word, labels),
        Stmt::Block(_) => labelling(alloc, outside, inner, state, tree, labels),
        Stmt::Variables(_) => labelling(alloc, outside, inner, state, tree, labels),
        Stmt::Function(_) => labelling(alloc, outside, inner, state, tree, labels),
        Stmt::If {
            word: _,
            opening: _,
            condition: _,
            closing: _,
            first: _,
        } => labelling(alloc, outside, inner, state, tree, labels),
        Stmt::IfElse {
            word: _,
            opening: _,
            condition: _,
            closing: _,
            first: _,
            else_word: _,
            second: _,
        } => labelling(alloc, outside, inner, state, tree, labels),
        Stmt::Try {
            word: _,
            block: _,
            parts: _,
        } => labelling(alloc, outside, inner, state, tree, labels),
        Stmt::Return {
            word: _,
            value: _,
            semicolon: _,
        } => labelling(alloc, outside, inner, state, tree, labels),
        Stmt::Jump(_) => labelling(alloc, outside, inner, state, tree, labels),
        Stmt::Expression(_, _) => labelling(alloc, outside, inner, state, tree, labels),
    }
}

// A statement that is neither a loop nor a switch, behind labels.
#[cycle(statements)]
fn labelling<
    S: Surroundings,
    F: Fn(Global, &S, &mut State, usize, &Parameters, &Body) -> Result<u32, LowerFault>,
>(
    alloc: Global,
    outside: &S,
    inner: &Inner<F>,
    state: &mut State,
    tree: &Stmt,
    labels: Vec<Bytes>,
) -> Result<Vec<Core>, LowerFault>
    requires { NestsFunction S.around inner.now.limit (F.pre inner.now.function) (F.post inner.now.function) }
    ensures { Gives (all_forms (S.around outside.now)) result (seen (S.around outside.now) state.new)
        (s.labelling labels.items (low.stmt (view.stmt tree.now) []) (seen (S.around outside.now) state.old)) }
{
    if labels.is_empty() {
        return statement(alloc, outside, inner, state, tree);
    }
    let number = target_number(outside, state)?;
    let depth = enter_target(outside, state, labels, TargetKind::Another)?;
    let forms = statement(alloc, outside, inner, state, tree)?;
    leave_target(outside, state, depth);
    Ok(labelled_forms(alloc, outside, number, forms)?)
}

/// A statement. It gives no form, one, or one for each variable that it declares.
#[cycle(statements)]
pub fn statement<
    S: Surroundings,
    F: Fn(Global, &S, &mut State, usize, &Parameters, &Body) -> Result<u32, LowerFault>,
>(
    alloc: Global,
    outside: &S,
    inner: &Inner<F>,
    state: &mut State,
    tree: &Stmt,
) -> Result<Vec<Core>, LowerFault>
    requires { NestsFunction S.around inner.now.limit (F.pre inner.now.function) (F.post inner.now.function) }
    ensures { Gives (all_forms (S.around outside.now)) result (seen (S.around outside.now) state.new)
        (low.stmt (view.stmt tree.now) [] (seen (S.around outside.now) state.old)) }
{
    match tree {
        Stmt::Labelled(all, next) => {
            let labels = add_labels(alloc, all, Vec::new(alloc))?;
            behind_labels(alloc, outside, inner, state, next, labels)
        }
        Stmt::Block(inside) => {
            let form = block_of(alloc, outside, inner, state, inside)?;
            Ok(alone(alloc, outside, form)?)
        }
        Stmt::Variables(declared) => variables(alloc, outside, inner, state, declared),
        Stmt::Function(made) => local_function(alloc, outside, inner, state, made),
        Stmt::If {
            word,
            opening: _,
            condition: tested,
            closing: _,
            first,
        } => {
            let test = condition(alloc, outside, inner, state, tested)?;
            let one = part_of(alloc, outside, inner, state, first)?;
            let form = choice(outside, alloc, *word, test, one, missing(outside))?;
            Ok(alone(alloc, outside, form)?)
        }
        Stmt::IfElse {
            word,
            opening: _,
            condition: tested,
            closing: _,
            first,
            else_word: _,
            second,
        } => {
            let test = condition(alloc, outside, inner, state, tested)?;
            let one = part_of(alloc, outside, inner, state, first)?;
            let other = part_of(alloc, outside, inner, state, second)?;
            let form = choice(outside, alloc, *word, test, one, other)?;
            Ok(alone(alloc, outside, form)?)
        }
        Stmt::Loop(again) => loop_of(alloc, outside, inner, state, again, Vec::new(alloc)),
        Stmt::Switch {
            word,
            opening: _,
            value,
            closing: _,
            opening_brace: _,
            parts,
            closing_brace: _,
        } => switch(
            alloc,
            outside,
            inner,
            state,
            parts,
            value,
            *word,
            Vec::new(alloc),
        ),
        Stmt::Try { word, block, parts } => {
            let body = block_of(alloc, outside, inner, state, block)?;
            let all = try_parts(alloc, outside, inner, state, parts)?;
            let form = try_core(alloc, outside, *word, body, all)?;
            Ok(alone(alloc, outside, form)?)
        }
        Stmt::Return {
            word,
            value,
            semicolon: _,
        } => {
            let form = return_value(alloc, outside, inner, state, value, *word)?;
            Ok(alone(alloc, outside, form)?)
        }
        Stmt::Jump(jump) => jumping(alloc, outside, state, jump),
        Stmt::Expression(value, _) => expression(alloc, outside, inner, state, value),
    }
}
