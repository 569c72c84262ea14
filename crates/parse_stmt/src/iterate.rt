// Loops (ECMA-408, 17.6 For and 17.7 While).
ghost use Rattle.std.specs.Prelude.{◌≤◌, ◌<◌, ◌+◌};
ghost use Rattle.dart_token.specs.declared.sign.Sign.TheVariants as s;
ghost use Rattle.dart_tree.specs.Depth as height;
ghost use Rattle.dart_tree.specs.Tree as t;
ghost use Rattle.dart_tree.specs.View as view;
ghost use Rattle.grammar_laws.specs.Readers.{both, mapped};
ghost use Rattle.parse_literal.specs.Views.{view_items};
ghost use Rattle.parse_nest.specs.Nests.{NestsExpr, NestsStmt};
ghost use Rattle.parse_nest.specs.Stages.{closed_at, stmt_at};
ghost use Rattle.parse_stmt.specs.Views.{comma_expr_of, comma_expr_height, some_updates, for_end_of, for_end_height, for_end, for_loop_at, for_variables_at, for_in_at, counted_at, for_at};
ghost use Rattle.syntax_readers.specs.Statements as spec;
ghost use Rattle.token_codes.specs.Leaves.{sign};
ghost use Rattle.token_cursor.specs.Gives.{GivesHigh};

use dart_base::place::Place;
use dart_node::make::statement as make;
use dart_token::sign::Sign;
use dart_token::word::Word;
use dart_tree::expression::{Expr, Item};
use dart_tree::parameter::Parameters;
use dart_tree::statement::{Block, Loop, Stmt};
use parse_block::condition::condition;
use parse_literal::bracket::maybe_expr;
use parse_literal::look::sees_expr;
use parse_nest::inside::{Inside, OpenExpr};
use parse_nest::statements::Statements;
use parse_parameter::look::settle;
use parse_parameter::parameter::maybe_kind;
use parse_parameter::variable::variables;
use std::alloc::Global;
use token_cursor::cursor::Cursor;
use token_cursor::error::ReadFault;

/// The end of a `for`, from its updates on (ECMA-408, 17.6.1 For Loop).
#[derive(Drop)]
pub struct ForEnd {
    pub updates: Vec<Item>,
    pub closing: Place,
    pub body: Stmt,
}

// A comma and an expression.
fn comma_expr<
    E: Fn(Global, &mut Cursor<'_>, usize, bool) -> Result<(OpenExpr, usize), ReadFault>,
    P: Fn(Global, &mut Cursor<'_>, usize) -> Result<(Parameters, usize), ReadFault>,
    B: Fn(Global, &mut Cursor<'_>, usize) -> Result<(Block, usize), ReadFault>,
>(
    nest: &Inside<E, P, B>,
    cursor: &mut Cursor<'_>,
    depth: usize,
) -> Result<((Place, Expr), usize), ReadFault>
    requires nests { NestsExpr nest.now.limit (E.pre nest.now.expr) (E.post nest.now.expr) }
    requires within { depth ≤ nest.now.limit }
    ensures { GivesHigh comma_expr_of comma_expr_height depth
        (both (sign s.Comma) (closed_at depth) cursor.old) result cursor.new }
{
    let comma = cursor.expect(Sign::Comma)?;
    let (value, height) = nest.expr(cursor, depth)?;
    Ok(((comma, value), height))
}

// Expressions with commas between them.
fn some_updates<
    E: Fn(Global, &mut Cursor<'_>, usize, bool) -> Result<(OpenExpr, usize), ReadFault>,
    P: Fn(Global, &mut Cursor<'_>, usize) -> Result<(Parameters, usize), ReadFault>,
    B: Fn(Global, &mut Cursor<'_>, usize) -> Result<(Block, usize), ReadFault>,
>(
    nest: &Inside<E, P, B>,
    cursor: &mut Cursor<'_>,
    depth: usize,
) -> Result<(Vec<Item>, usize), ReadFault>
    requires nests { NestsExpr nest.now.limit (E.pre nest.now.expr) (E.post nest.now.expr) }
    requires within { depth ≤ nest.now.limit }
    ensures { GivesHigh view_items height.items_height depth (some_updates (closed_at depth) cursor.old) result cursor.new }
{
    let (value, first) = nest.expr(cursor, depth)?;
    let mut found = Vec::new(nest.alloc);
    found.push(Item {
        comma: None,
        label: None,
        value,
    })?;
    let mut highest = first;
    for _turn in 0..cursor.left() {
        if !cursor.sees(Sign::Comma) {
            return Ok((found, highest));
        }
        let ((comma, value), height) = comma_expr(nest, cursor, depth)?;
        found.push(Item {
            comma: Some(comma),
            label: None,
            value,
        })?;
        highest = highest.max(height);
    }
    Ok((found, highest))
}

// The same, or none.
fn updates<
    E: Fn(Global, &mut Cursor<'_>, usize, bool) -> Result<(OpenExpr, usize), ReadFault>,
    P: Fn(Global, &mut Cursor<'_>, usize) -> Result<(Parameters, usize), ReadFault>,
    B: Fn(Global, &mut Cursor<'_>, usize) -> Result<(Block, usize), ReadFault>,
>(
    nest: &Inside<E, P, B>,
    cursor: &mut Cursor<'_>,
    depth: usize,
) -> Result<(Vec<Item>, usize), ReadFault>
    requires nests { NestsExpr nest.now.limit (E.pre nest.now.expr) (E.post nest.now.expr) }
    requires within { depth ≤ nest.now.limit }
    ensures { GivesHigh view_items height.items_height depth (spec.updates_over (closed_at depth) cursor.old) result cursor.new }
{
    if !sees_expr(cursor) {
        return Ok((Vec::new(nest.alloc), 0));
    }
    some_updates(nest, cursor, depth)
}

// The end of a `for`, from its updates on.
fn for_end<
    E: Fn(Global, &mut Cursor<'_>, usize, bool) -> Result<(OpenExpr, usize), ReadFault>,
    P: Fn(Global, &mut Cursor<'_>, usize) -> Result<(Parameters, usize), ReadFault>,
    B: Fn(Global, &mut Cursor<'_>, usize) -> Result<(Block, usize), ReadFault>,
    S: Fn(Global, &mut Cursor<'_>, usize) -> Result<(Stmt, usize), ReadFault>,
>(
    nest: &Inside<E, P, B>,
    inner: &Statements<S>,
    cursor: &mut Cursor<'_>,
    depth: usize,
) -> Result<(ForEnd, usize), ReadFault>
    requires nests { NestsExpr nest.now.limit (E.pre nest.now.expr) (E.post nest.now.expr) }
    requires within { depth ≤ nest.now.limit }
    requires stmts { NestsStmt inner.now.limit (S.pre inner.now.stmt) (S.post inner.now.stmt) }
    requires inside { depth ≤ inner.now.limit }
    ensures { GivesHigh for_end_of for_end_height depth
        (for_end (closed_at depth) (stmt_at depth) cursor.old) result cursor.new }
{
    let (updates, tall) = updates(nest, cursor, depth)?;
    let closing = cursor.expect(Sign::RightParenthesis)?;
    let (body, height) = inner.stmt(cursor, depth)?;
    let end = ForEnd {
        updates,
        closing,
        body,
    };
    Ok((end, tall.max(height)))
}

// A `for` that begins with an expression or none (17.6.1 For Loop).
#[inline(never)]
#[tactic(auto, unfolding(syntax_readers::specs::Statements::for_loop_over, dart_tree::specs::Depth::loop_height))]
fn for_loop<
    E: Fn(Global, &mut Cursor<'_>, usize, bool) -> Result<(OpenExpr, usize), ReadFault>,
    P: Fn(Global, &mut Cursor<'_>, usize) -> Result<(Parameters, usize), ReadFault>,
    B: Fn(Global, &mut Cursor<'_>, usize) -> Result<(Block, usize), ReadFault>,
    S: Fn(Global, &mut Cursor<'_>, usize) -> Result<(Stmt, usize), ReadFault>,
>(
    nest: &Inside<E, P, B>,
    inner: &Statements<S>,
    cursor: &mut Cursor<'_>,
    depth: usize,
) -> Result<(Loop, usize), ReadFault>
    requires nests { NestsExpr nest.now.limit (E.pre nest.now.expr) (E.post nest.now.expr) }
    requires within { depth ≤ nest.now.limit }
    requires stmts { NestsStmt inner.now.limit (S.pre inner.now.stmt) (S.post inner.now.stmt) }
    requires inside { depth ≤ inner.now.limit }
    requires room { depth + 1 < 18446744073709551616 }
    ensures { GivesHigh view.loop height.loop_height (depth + 1) (for_loop_at depth cursor.old) result cursor.new }
{
    let word = cursor.expect_word(Word::For)?;
    let opening = cursor.expect(Sign::LeftParenthesis)?;
    let (start, tall) = maybe_expr(nest, cursor, depth)?;
    let first_semicolon = cursor.expect(Sign::Semicolon)?;
    let (condition, taller) = maybe_expr(nest, cursor, depth)?;
    let second_semicolon = cursor.expect(Sign::Semicolon)?;
    let (end, tallest) = for_end(nest, inner, cursor, depth)?;
    let made = make::for_loop(
        nest.alloc,
        word,
        opening,
        start,
        first_semicolon,
        condition,
        second_semicolon,
        end.updates,
        end.closing,
        end.body,
    )?;
    Ok((made, tall.max(taller.max(tallest)) + 1))
}

// A `for` that begins with variables (17.6.1 For Loop).
#[inline(never)]
#[tactic(auto, unfolding(syntax_readers::specs::Statements::for_variables_over, dart_tree::specs::Depth::loop_height))]
fn for_variables<
    E: Fn(Global, &mut Cursor<'_>, usize, bool) -> Result<(OpenExpr, usize), ReadFault>,
    P: Fn(Global, &mut Cursor<'_>, usize) -> Result<(Parameters, usize), ReadFault>,
    B: Fn(Global, &mut Cursor<'_>, usize) -> Result<(Block, usize), ReadFault>,
    S: Fn(Global, &mut Cursor<'_>, usize) -> Result<(Stmt, usize), ReadFault>,
>(
    nest: &Inside<E, P, B>,
    inner: &Statements<S>,
    cursor: &mut Cursor<'_>,
    depth: usize,
) -> Result<(Loop, usize), ReadFault>
    requires nests { NestsExpr nest.now.limit (E.pre nest.now.expr) (E.post nest.now.expr) }
    requires within { depth ≤ nest.now.limit }
    requires stmts { NestsStmt inner.now.limit (S.pre inner.now.stmt) (S.post inner.now.stmt) }
    requires inside { depth ≤ inner.now.limit }
    requires room { depth + 1 < 18446744073709551616 }
    ensures { GivesHigh view.loop height.loop_height (depth + 1) (for_variables_at depth cursor.old) result cursor.new }
{
    let word = cursor.expect_word(Word::For)?;
    let opening = cursor.expect(Sign::LeftParenthesis)?;
    let (variables, tall) = variables(nest, cursor, depth)?;
    let (condition, taller) = maybe_expr(nest, cursor, depth)?;
    let semicolon = cursor.expect(Sign::Semicolon)?;
    let (end, tallest) = for_end(nest, inner, cursor, depth)?;
    let made = make::for_variables(
        nest.alloc,
        word,
        opening,
        variables,
        condition,
        semicolon,
        end.updates,
        end.closing,
        end.body,
    )?;
    Ok((made, tall.max(taller.max(tallest)) + 1))
}

// A `for` over what an expression gives (17.6.2 For-in).
#[inline(never)]
#[tactic(auto, unfolding(syntax_readers::specs::Statements::for_in_over, dart_tree::specs::Depth::loop_height))]
fn for_in<
    E: Fn(Global, &mut Cursor<'_>, usize, bool) -> Result<(OpenExpr, usize), ReadFault>,
    P: Fn(Global, &mut Cursor<'_>, usize) -> Result<(Parameters, usize), ReadFault>,
    B: Fn(Global, &mut Cursor<'_>, usize) -> Result<(Block, usize), ReadFault>,
    S: Fn(Global, &mut Cursor<'_>, usize) -> Result<(Stmt, usize), ReadFault>,
>(
    nest: &Inside<E, P, B>,
    inner: &Statements<S>,
    cursor: &mut Cursor<'_>,
    depth: usize,
) -> Result<(Loop, usize), ReadFault>
    requires nests { NestsExpr nest.now.limit (E.pre nest.now.expr) (E.post nest.now.expr) }
    requires within { depth ≤ nest.now.limit }
    requires stmts { NestsStmt inner.now.limit (S.pre inner.now.stmt) (S.post inner.now.stmt) }
    requires inside { depth ≤ inner.now.limit }
    requires room { depth + 1 < 18446744073709551616 }
    ensures { GivesHigh view.loop height.loop_height (depth + 1) (for_in_at depth cursor.old) result cursor.new }
{
    let word = cursor.expect_word(Word::For)?;
    let opening = cursor.expect(Sign::LeftParenthesis)?;
    let (kind, tall) = maybe_kind(nest.alloc, cursor, depth)?;
    let name = cursor.identifier(nest.alloc)?;
    let in_word = cursor.expect_word(Word::In)?;
    let (iterated, taller) = nest.expr(cursor, depth)?;
    let closing = cursor.expect(Sign::RightParenthesis)?;
    let (body, tallest) = inner.stmt(cursor, depth)?;
    let made = make::for_in(
        nest.alloc, word, opening, kind, name, in_word, iterated, closing, body,
    )?;
    Ok((made, tall.max(taller.max(tallest)) + 1))
}

// A `for` with a condition and updates, of which one with variables is tried first.
fn counted<
    E: Fn(Global, &mut Cursor<'_>, usize, bool) -> Result<(OpenExpr, usize), ReadFault>,
    P: Fn(Global, &mut Cursor<'_>, usize) -> Result<(Parameters, usize), ReadFault>,
    B: Fn(Global, &mut Cursor<'_>, usize) -> Result<(Block, usize), ReadFault>,
    S: Fn(Global, &mut Cursor<'_>, usize) -> Result<(Stmt, usize), ReadFault>,
>(
    nest: &Inside<E, P, B>,
    inner: &Statements<S>,
    cursor: &mut Cursor<'_>,
    depth: usize,
) -> Result<(Loop, usize), ReadFault>
    requires nests { NestsExpr nest.now.limit (E.pre nest.now.expr) (E.post nest.now.expr) }
    requires within { depth ≤ nest.now.limit }
    requires stmts { NestsStmt inner.now.limit (S.pre inner.now.stmt) (S.post inner.now.stmt) }
    requires inside { depth ≤ inner.now.limit }
    requires room { depth + 1 < 18446744073709551616 }
    ensures { GivesHigh view.loop height.loop_height (depth + 1) (counted_at depth cursor.old) result cursor.new }
{
    let mut second = cursor.fork();
    match for_variables(nest, inner, cursor, depth) {
        Ok(found) => Ok(found),
        Err(ReadFault::Memory) => Err(ReadFault::Memory),
        Err(ReadFault::Stuck) => {
            let plain = for_loop(nest, inner, &mut second, depth);
            settle(cursor, &second, plain.is_ok());
            plain
        }
    }
}

// A `for`, of which one over what an expression gives is tried first.
fn any_for<
    E: Fn(Global, &mut Cursor<'_>, usize, bool) -> Result<(OpenExpr, usize), ReadFault>,
    P: Fn(Global, &mut Cursor<'_>, usize) -> Result<(Parameters, usize), ReadFault>,
    B: Fn(Global, &mut Cursor<'_>, usize) -> Result<(Block, usize), ReadFault>,
    S: Fn(Global, &mut Cursor<'_>, usize) -> Result<(Stmt, usize), ReadFault>,
>(
    nest: &Inside<E, P, B>,
    inner: &Statements<S>,
    cursor: &mut Cursor<'_>,
    depth: usize,
) -> Result<(Loop, usize), ReadFault>
    requires nests { NestsExpr nest.now.limit (E.pre nest.now.expr) (E.post nest.now.expr) }
    requires within { depth ≤ nest.now.limit }
    requires stmts { NestsStmt inner.now.limit (S.pre inner.now.stmt) (S.post inner.now.stmt) }
    requires inside { depth ≤ inner.now.limit }
    requires room { depth + 1 < 18446744073709551616 }
    ensures { GivesHigh view.loop height.loop_height (depth + 1) (for_at depth cursor.old) result cursor.new }
{
    let mut second = cursor.fork();
    match for_in(nest, inner, cursor, depth) {
        Ok(found) => Ok(found),
        Err(ReadFault::Memory) => Err(ReadFault::Memory),
        Err(ReadFault::Stuck) => {
            let other = counted(nest, inner, &mut second, depth);
            settle(cursor, &second, other.is_ok());
            other
        }
    }
}

/// Reads a `for` whose parts have at most so many nodes above one another (ECMA-408, 17.6 For).
#[inline(never)]
#[tactic(auto, unfolding(dart_tree::specs::Depth::stmt_height))]
pub fn for_stmt<
    E: Fn(Global, &mut Cursor<'_>, usize, bool) -> Result<(OpenExpr, usize), ReadFault>,
    P: Fn(Global, &mut Cursor<'_>, usize) -> Result<(Parameters, usize), ReadFault>,
    B: Fn(Global, &mut Cursor<'_>, usize) -> Result<(Block, usize), ReadFault>,
    S: Fn(Global, &mut Cursor<'_>, usize) -> Result<(Stmt, usize), ReadFault>,
>(
    nest: &Inside<E, P, B>,
    inner: &Statements<S>,
    cursor: &mut Cursor<'_>,
    depth: usize,
) -> Result<(Stmt, usize), ReadFault>
    requires nests { NestsExpr nest.now.limit (E.pre nest.now.expr) (E.post nest.now.expr) }
    requires within { depth ≤ nest.now.limit }
    requires stmts { NestsStmt inner.now.limit (S.pre inner.now.stmt) (S.post inner.now.stmt) }
    requires inside { depth ≤ inner.now.limit }
    requires room { depth + 1 < 18446744073709551616 }
    ensures { GivesHigh view.stmt height.stmt_height (depth + 1) (mapped t.loop (for_at depth) cursor.old) result cursor.new }
{
    let (made, height) = any_for(nest, inner, cursor, depth)?;
    Ok((make::loop_statement(nest.alloc, made)?, height))
}

// A `while`.
#[tactic(auto, unfolding(syntax_readers::specs::Statements::while_over, dart_tree::specs::Depth::loop_height))]
fn while_loop<
    E: Fn(Global, &mut Cursor<'_>, usize, bool) -> Result<(OpenExpr, usize), ReadFault>,
    P: Fn(Global, &mut Cursor<'_>, usize) -> Result<(Parameters, usize), ReadFault>,
    B: Fn(Global, &mut Cursor<'_>, usize) -> Result<(Block, usize), ReadFault>,
    S: Fn(Global, &mut Cursor<'_>, usize) -> Result<(Stmt, usize), ReadFault>,
>(
    nest: &Inside<E, P, B>,
    inner: &Statements<S>,
    cursor: &mut Cursor<'_>,
    depth: usize,
) -> Result<(Loop, usize), ReadFault>
    requires nests { NestsExpr nest.now.limit (E.pre nest.now.expr) (E.post nest.now.expr) }
    requires within { depth ≤ nest.now.limit }
    requires stmts { NestsStmt inner.now.limit (S.pre inner.now.stmt) (S.post inner.now.stmt) }
    requires inside { depth ≤ inner.now.limit }
    requires room { depth + 1 < 18446744073709551616 }
    ensures { GivesHigh view.loop height.loop_height (depth + 1)
        (spec.while_over (closed_at depth) (stmt_at depth) cursor.old) result cursor.new }
{
    let word = cursor.expect_word(Word::While)?;
    let (condition, tall) = condition(nest, cursor, depth)?;
    let (body, height) = inner.stmt(cursor, depth)?;
    let made = make::while_loop(
        nest.alloc,
        word,
        condition.opening,
        condition.value,
        condition.closing,
        body,
    )?;
    Ok((made, tall.max(height) + 1))
}

/// Reads a `while` whose parts have at most so many nodes above one another (ECMA-408, 17.7 While).
#[inline(never)]
#[tactic(auto, unfolding(dart_tree::specs::Depth::stmt_height))]
pub fn while_stmt<
    E: Fn(Global, &mut Cursor<'_>, usize, bool) -> Result<(OpenExpr, usize), ReadFault>,
    P: Fn(Global, &mut Cursor<'_>, usize) -> Result<(Parameters, usize), ReadFault>,
    B: Fn(Global, &mut Cursor<'_>, usize) -> Result<(Block, usize), ReadFault>,
    S: Fn(Global, &mut Cursor<'_>, usize) -> Result<(Stmt, usize), ReadFault>,
>(
    nest: &Inside<E, P, B>,
    inner: &Statements<S>,
    cursor: &mut Cursor<'_>,
    depth: usize,
) -> Result<(Stmt, usize), ReadFault>
    requires nests { NestsExpr nest.now.limit (E.pre nest.now.expr) (E.post nest.now.expr) }
    requires within { depth ≤ nest.now.limit }
    requires stmts { NestsStmt inner.now.limit (S.pre inner.now.stmt) (S.post inner.now.stmt) }
    requires inside { depth ≤ inner.now.limit }
    requires room { depth + 1 < 18446744073709551616 }
    ensures { GivesHigh view.stmt height.stmt_height (depth + 1)
        (mapped t.loop (spec.while_over (closed_at depth) (stmt_at depth)) cursor.old) result cursor.new }
{
    let (made, height) = while_loop(nest, inner, cursor, depth)?;
    Ok((make::loop_statement(nest.alloc, made)?, height))
}
