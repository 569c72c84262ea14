// Loops (ECMA-408, 17.6 For, 17.7 While and 17.8 Do).
#![tactic(auto, using(crate::proofs::Trees::loop_trees), unfolding(translation::specs::Walk::on, translation::specs::Walk::leaving))]

ghost use Rattle.dart_tree.specs.Lists.{items_of};
ghost use Rattle.lower_clause.specs.Parts.{for_block, left_unless};
ghost use Rattle.lower_clause.specs.Jumps.{all_forms};
ghost use Rattle.lower_leaf.specs.Forms.{core};
ghost use Rattle.lower_leaf.specs.Gives.{Gives};
ghost use Rattle.lower_leaf.specs.Nests.{NestsFunction};
ghost use Rattle.lower_leaf.specs.Seen.{seen, asked};
ghost use Rattle.lower_stmt.specs.Parts.{for_turns, turn, for_in};
ghost use Rattle.std.specs.Prelude.{[]};
ghost use Rattle.dart_tree.specs.View as view;
ghost use Rattle.translation.specs.Firsts as firsts;
ghost use Rattle.translation.specs.Productions as low;
ghost use Rattle.translation.specs.References as r;
ghost use Rattle.translation.specs.Statements as s;
ghost use Rattle.translation.specs.Types as y;

use crate::next::{for_in_core, get, moved, next, turn_block};
use crate::part::{part_of, scoped};
use crate::value::{condition, condition_part, expression, steps};
use crate::variable::variables;
use core_program::form::Core;
use dart_base::bytes::Bytes;
use dart_base::place::Place;
use dart_tree::expression::{Expr, Item, Value};
use dart_tree::identifier::Identifier;
use dart_tree::parameter::{Parameters, VariableKind};
use dart_tree::statement::{Body, Loop, Stmt, Variables};
use lower_clause::jump::{enter_target, leave_target, target_number};
use lower_clause::part::alone;
use lower_clause::turns::{for_block, left_unless};
use lower_expr::lower::expr;
use lower_leaf::fault::LowerFault;
use lower_leaf::first::first_of_expr;
use lower_leaf::form::{given, missing, turns};
use lower_leaf::inner::Inner;
use lower_leaf::state::{Asked, State, TargetKind, depth, fresh, leave_scope};
use lower_leaf::surroundings::Surroundings;
use lower_leaf::types::asked_of_kind;
use lower_reference::plain::variable;
use std::alloc::Global;

/// A loop behind labels.
#[cycle(statements)]
pub fn loop_of<
    S: Surroundings,
    F: Fn(Global, &S, &mut State, usize, &Parameters, &Body) -> Result<u32, LowerFault>,
>(
    alloc: Global,
    outside: &S,
    inner: &Inner<F>,
    state: &mut State,
    tree: &Loop,
    labels: Vec<Bytes>,
) -> Result<Vec<Core>, LowerFault>
    requires { NestsFunction S.around inner.now.limit (F.pre inner.now.function) (F.post inner.now.function) }
    ensures { Gives (all_forms (S.around outside.now)) result (seen (S.around outside.now) state.new)
        (low.loop (view.loop tree.now) labels.items (seen (S.around outside.now) state.old)) }
{
    match tree {
        Loop::For {
            word,
            opening: _,
            start,
            first_semicolon: _,
            condition,
            second_semicolon: _,
            updates,
            closing: _,
            body,
        } => for_loop(
            alloc, outside, inner, state, body, start, condition, updates, *word, labels,
        ),
        Loop::ForVariables {
            word,
            opening: _,
            variables,
            condition,
            semicolon: _,
            updates,
            closing: _,
            body,
        } => for_variables(
            alloc, outside, inner, state, body, variables, condition, updates, *word, labels,
        ),
        Loop::ForIn {
            word,
            opening: _,
            kind,
            name,
            in_word: _,
            iterated,
            closing: _,
            body,
        } => for_in(
            alloc, outside, inner, state, body, iterated, kind, name, *word, labels,
        ),
        Loop::While {
            word,
            opening: _,
            condition,
            closing: _,
            body,
        } => while_loop(alloc, outside, inner, state, body, condition, *word, labels),
        Loop::Do {
            word,
            body,
            while_word: _,
            opening: _,
            condition,
            closing: _,
            semicolon: _,
        } => do_loop(alloc, outside, inner, state, body, condition, *word, labels),
    }
}

// `for (a; b; c) d` (17.6.1 For Loop).
#[cycle(statements)]
fn for_loop<
    S: Surroundings,
    F: Fn(Global, &S, &mut State, usize, &Parameters, &Body) -> Result<u32, LowerFault>,
>(
    alloc: Global,
    outside: &S,
    inner: &Inner<F>,
    state: &mut State,
    body: &Stmt,
    start: &Value,
    test: &Value,
    updates: &Vec<Item>,
    place: Place,
    labels: Vec<Bytes>,
) -> Result<Vec<Core>, LowerFault>
    requires { NestsFunction S.around inner.now.limit (F.pre inner.now.function) (F.post inner.now.function) }
    ensures { Gives (all_forms (S.around outside.now)) result (seen (S.around outside.now) state.new)
        (s.for_form labels.items place (low.expression (view.value start.now)) (low.condition_part (view.value test.now)) (low.steps (items_of updates.now.items)) (s.part (low.stmt (view.stmt body.now) [])) (seen (S.around outside.now) state.old)) }
{
    let number = target_number(outside, state)?;
    let before = depth(outside, state);
    let forms = expression(alloc, outside, inner, state, start)?;
    let made = for_turns(
        alloc, outside, inner, state, body, test, updates, place, number, labels, forms,
    )?;
    leave_scope(outside, state, before);
    Ok(made)
}

// `for (var a = b; c; d) e` (17.6.1 For Loop).
#[cycle(statements)]
fn for_variables<
    S: Surroundings,
    F: Fn(Global, &S, &mut State, usize, &Parameters, &Body) -> Result<u32, LowerFault>,
>(
    alloc: Global,
    outside: &S,
    inner: &Inner<F>,
    state: &mut State,
    body: &Stmt,
    declared: &Variables,
    test: &Value,
    updates: &Vec<Item>,
    place: Place,
    labels: Vec<Bytes>,
) -> Result<Vec<Core>, LowerFault>
    requires { NestsFunction S.around inner.now.limit (F.pre inner.now.function) (F.post inner.now.function) }
    ensures { Gives (all_forms (S.around outside.now)) result (seen (S.around outside.now) state.new)
        (s.for_form labels.items place (low.variables (view.variables declared.now)) (low.condition_part (view.value test.now)) (low.steps (items_of updates.now.items)) (s.part (low.stmt (view.stmt body.now) [])) (seen (S.around outside.now) state.old)) }
{
    let number = target_number(outside, state)?;
    let before = depth(outside, state);
    let forms = variables(alloc, outside, inner, state, declared)?;
    let made = for_turns(
        alloc, outside, inner, state, body, test, updates, place, number, labels, forms,
    )?;
    leave_scope(outside, state, before);
    Ok(made)
}

// The loop of a `for`, behind the forms with which it starts.
#[cycle(statements)]
fn for_turns<
    S: Surroundings,
    F: Fn(Global, &S, &mut State, usize, &Parameters, &Body) -> Result<u32, LowerFault>,
>(
    alloc: Global,
    outside: &S,
    inner: &Inner<F>,
    state: &mut State,
    body: &Stmt,
    test: &Value,
    updates: &Vec<Item>,
    place: Place,
    number: u32,
    labels: Vec<Bytes>,
    forms: Vec<Core>,
) -> Result<Vec<Core>, LowerFault>
    requires { NestsFunction S.around inner.now.limit (F.pre inner.now.function) (F.post inner.now.function) }
    ensures { Gives (all_forms (S.around outside.now)) result (seen (S.around outside.now) state.new)
        (for_turns labels.items place number (all_forms (S.around outside.now) forms) (low.condition_part (view.value test.now)) (low.steps (items_of updates.now.items)) (s.part (low.stmt (view.stmt body.now) [])) (seen (S.around outside.now) state.old)) }
{
    let around = enter_target(outside, state, labels, TargetKind::Loop)?;
    let test = condition_part(alloc, outside, inner, state, test)?;
    let steps = steps(alloc, outside, inner, state, updates)?;
    let body = part_of(alloc, outside, inner, state, body)?;
    leave_target(outside, state, around);
    let form = for_block(alloc, outside, place, number, forms, test, steps, body)?;
    Ok(alone(alloc, outside, form)?)
}

// `for (a in b) c` (17.6.2 For-in).
#[cycle(statements)]
fn for_in<
    S: Surroundings,
    F: Fn(Global, &S, &mut State, usize, &Parameters, &Body) -> Result<u32, LowerFault>,
>(
    alloc: Global,
    outside: &S,
    inner: &Inner<F>,
    state: &mut State,
    body: &Stmt,
    iterated: &Expr,
    kind: &VariableKind,
    name: &Identifier,
    place: Place,
    labels: Vec<Bytes>,
) -> Result<Vec<Core>, LowerFault>
    requires { NestsFunction S.around inner.now.limit (F.pre inner.now.function) (F.post inner.now.function) }
    ensures { Gives (all_forms (S.around outside.now)) result (seen (S.around outside.now) state.new)
        (for_in labels.items place (firsts.first_of_expr (view.expr iterated.now)) (low.expr (view.expr iterated.now)) (y.word_of name.now) (view.variable_kind kind.now) (low.stmt (view.stmt body.now) []) (seen (S.around outside.now) state.old)) }
{
    let number = target_number(outside, state)?;
    let wanted = asked_of_kind(alloc, outside, state, kind)?;
    let form = expr(alloc, outside, inner, state, iterated)?;
    let t = fresh(outside, state)?;
    let around = enter_target(outside, state, labels, TargetKind::Loop)?;
    let test = moved(alloc, outside, state, place, first_of_expr(iterated), t)?;
    let body = turn(
        alloc, outside, inner, state, body, kind, name, &wanted, place, t,
    )?;
    leave_target(outside, state, around);
    let made = for_in_core(alloc, outside, place, number, t, form, test, body)?;
    Ok(alone(alloc, outside, made)?)
}

// A turn of a for-in.
#[cycle(statements)]
fn turn<
    S: Surroundings,
    F: Fn(Global, &S, &mut State, usize, &Parameters, &Body) -> Result<u32, LowerFault>,
>(
    alloc: Global,
    outside: &S,
    inner: &Inner<F>,
    state: &mut State,
    body: &Stmt,
    kind: &VariableKind,
    name: &Identifier,
    wanted: &Asked,
    place: Place,
    t: u32,
) -> Result<Core, LowerFault>
    requires { NestsFunction S.around inner.now.limit (F.pre inner.now.function) (F.post inner.now.function) }
    ensures { Gives (core (S.around outside.now)) result (seen (S.around outside.now) state.new)
        (turn place (s.next place (y.word_of name.now) (asked (S.around outside.now) wanted.now) (view.variable_kind kind.now)) (low.stmt (view.stmt body.now) []) (r.variable place t) (seen (S.around outside.now) state.old)) }
{
    let before = depth(outside, state);
    let form = get(
        alloc,
        outside,
        place,
        variable(outside, place, t),
        b"current",
    )?;
    let first = next(alloc, outside, state, kind, place, name, wanted, form)?;
    let rest = scoped(alloc, outside, inner, state, body)?;
    leave_scope(outside, state, before);
    Ok(turn_block(alloc, outside, place, first, rest)?)
}

// `while (a) b` (17.7 While).
#[cycle(statements)]
fn while_loop<
    S: Surroundings,
    F: Fn(Global, &S, &mut State, usize, &Parameters, &Body) -> Result<u32, LowerFault>,
>(
    alloc: Global,
    outside: &S,
    inner: &Inner<F>,
    state: &mut State,
    body: &Stmt,
    test: &Expr,
    place: Place,
    labels: Vec<Bytes>,
) -> Result<Vec<Core>, LowerFault>
    requires { NestsFunction S.around inner.now.limit (F.pre inner.now.function) (F.post inner.now.function) }
    ensures { Gives (all_forms (S.around outside.now)) result (seen (S.around outside.now) state.new)
        (s.while_form labels.items place (firsts.first_of_expr (view.expr test.now)) (low.expr (view.expr test.now)) (s.part (low.stmt (view.stmt body.now) [])) (seen (S.around outside.now) state.old)) }
{
    let number = target_number(outside, state)?;
    let around = enter_target(outside, state, labels, TargetKind::Loop)?;
    let form = condition(alloc, outside, inner, state, test)?;
    let body = part_of(alloc, outside, inner, state, body)?;
    leave_target(outside, state, around);
    let test = given(outside, alloc, form)?;
    let made = turns(
        outside,
        place,
        number,
        Vec::new(alloc),
        test,
        missing(outside),
        body,
    );
    Ok(alone(alloc, outside, made)?)
}

// `do a; while (b);` (17.8 Do).
#[cycle(statements)]
fn do_loop<
    S: Surroundings,
    F: Fn(Global, &S, &mut State, usize, &Parameters, &Body) -> Result<u32, LowerFault>,
>(
    alloc: Global,
    outside: &S,
    inner: &Inner<F>,
    state: &mut State,
    body: &Stmt,
    test: &Expr,
    place: Place,
    labels: Vec<Bytes>,
) -> Result<Vec<Core>, LowerFault>
    requires { NestsFunction S.around inner.now.limit (F.pre inner.now.function) (F.post inner.now.function) }
    ensures { Gives (all_forms (S.around outside.now)) result (seen (S.around outside.now) state.new)
        (s.do_form labels.items place (firsts.first_of_expr (view.expr test.now)) (s.part (low.stmt (view.stmt body.now) [])) (low.expr (view.expr test.now)) (seen (S.around outside.now) state.old)) }
{
    let number = target_number(outside, state)?;
    let around = enter_target(outside, state, labels, TargetKind::Loop)?;
    let body = part_of(alloc, outside, inner, state, body)?;
    let form = condition(alloc, outside, inner, state, test)?;
    leave_target(outside, state, around);
    let update = left_unless(alloc, outside, place, number, form)?;
    let made = turns(
        outside,
        place,
        number,
        Vec::new(alloc),
        missing(outside),
        update,
        body,
    );
    Ok(alone(alloc, outside, made)?)
}
