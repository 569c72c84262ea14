// `do` (ECMA-408, 17.8 Do).
ghost use Rattle.std.specs.Prelude.{◌≡◌, ◌≤◌, ◌<◌, ◌+◌, max, IfOk};
ghost use Rattle.dart_tree.specs.Depth as height;
ghost use Rattle.dart_tree.specs.Tree as t;
ghost use Rattle.dart_tree.specs.View as view;
ghost use Rattle.grammar_laws.specs.Readers.{mapped};
ghost use Rattle.parse_block.specs.Views.{again_of, again_height, again_at};
ghost use Rattle.parse_nest.specs.Nests.{NestsExpr, NestsStmt};
ghost use Rattle.parse_nest.specs.Stages.{closed_at, stmt_at};
ghost use Rattle.syntax_readers.specs.Statements as spec;
ghost use Rattle.token_cursor.specs.Gives.{GivesHigh};

use crate::condition::{Parenthesized, condition};
use crate::edge::type_room;
use crate::list::pass_on;
use dart_base::place::Place;
use dart_node::make::statement as make;
use dart_token::sign::Sign;
use dart_token::word::Word;
use dart_tree::parameter::Parameters;
use dart_tree::statement::{Block, Stmt};
use parse_nest::inside::{Inside, OpenExpr};
use parse_nest::statements::Statements;
use parse_parameter::look::settle;
use std::alloc::{AllocError, Global};
use token_cursor::cursor::Cursor;
use token_cursor::error::ReadFault;

/// What stands behind the body of a `do` (ECMA-408, 17.8 Do).
#[derive(Drop)]
pub struct DoRest {
    pub word: Place,
    pub condition: Parenthesized,
    pub semicolon: Place,
}

// A `do` of its parts.
fn repeated(alloc: Global, word: Place, body: Stmt, again: DoRest) -> Result<Stmt, AllocError>
    ensures same { IfOk result (λ x. view.stmt x ≡
        t.loop (spec.a_do_of ((word, view.stmt body), again_of again))) }
    ensures high { IfOk result (λ x. height.stmt_height (view.stmt x) ≡
        max (height.stmt_height (view.stmt body)) (again_height (again_of again)) + 1) }
{
    let condition = again.condition;
    let found = make::do_loop(
        alloc,
        word,
        body,
        again.word,
        condition.opening,
        condition.value,
        condition.closing,
        again.semicolon,
    )?;
    let statement = make::loop_statement(alloc, found)?;
    Ok(statement)
}

// What stands behind the body.
fn again<
    E: Fn(Global, &mut Cursor<'_>, usize, bool) -> Result<(OpenExpr, usize), ReadFault>,
    P: Fn(Global, &mut Cursor<'_>, usize) -> Result<(Parameters, usize), ReadFault>,
    B: Fn(Global, &mut Cursor<'_>, usize) -> Result<(Block, usize), ReadFault>,
>(
    nest: &Inside<E, P, B>,
    cursor: &mut Cursor<'_>,
    depth: usize,
) -> Result<(DoRest, usize), ReadFault>
    requires nests { NestsExpr nest.now.limit (E.pre nest.now.expr) (E.post nest.now.expr) }
    requires within { depth ≤ nest.now.limit }
    ensures { GivesHigh again_of again_height depth (again_at depth cursor.old) result cursor.new }
{
    let word = cursor.expect_word(Word::While)?;
    let (condition, height) = condition(nest, cursor, depth)?;
    let semicolon = cursor.expect(Sign::Semicolon)?;
    Ok((
        DoRest {
            word,
            condition,
            semicolon,
        },
        height,
    ))
}

// The same, where this body may end in a `try` that leaves room for another part.
fn again_behind<
    E: Fn(Global, &mut Cursor<'_>, usize, bool) -> Result<(OpenExpr, usize), ReadFault>,
    P: Fn(Global, &mut Cursor<'_>, usize) -> Result<(Parameters, usize), ReadFault>,
    B: Fn(Global, &mut Cursor<'_>, usize) -> Result<(Block, usize), ReadFault>,
>(
    nest: &Inside<E, P, B>,
    cursor: &mut Cursor<'_>,
    depth: usize,
    body: &Stmt,
) -> Result<(DoRest, usize), ReadFault>
    requires nests { NestsExpr nest.now.limit (E.pre nest.now.expr) (E.post nest.now.expr) }
    requires within { depth ≤ nest.now.limit }
    ensures { GivesHigh again_of again_height depth
        (spec.behind_try depth (spec.open_try (view.stmt body.now)) (again_at depth) cursor.old) result cursor.new }
{
    let Some(room) = type_room(body, depth) else {
        return again(nest, cursor, depth);
    };
    let mut second = cursor.fork();
    pass_on(nest.alloc, cursor, room)?;
    let found = again(nest, &mut second, depth);
    settle(cursor, &second, found.is_ok());
    found
}

/// Reads a `do` whose parts have at most so many nodes above one another (ECMA-408, 17.8 Do).
#[tactic(auto, unfolding(syntax_readers::specs::Statements::do_over))]
pub fn do_stmt<
    E: Fn(Global, &mut Cursor<'_>, usize, bool) -> Result<(OpenExpr, usize), ReadFault>,
    P: Fn(Global, &mut Cursor<'_>, usize) -> Result<(Parameters, usize), ReadFault>,
    B: Fn(Global, &mut Cursor<'_>, usize) -> Result<(Block, usize), ReadFault>,
    S: Fn(Global, &mut Cursor<'_>, usize) -> Result<(Stmt, usize), ReadFault>,
>(
    nest: &Inside<E, P, B>,
    inner: &Statements<S>,
    cursor: &mut Cursor<'_>,
    depth: usize,
) -> Result<(Stmt, usize), ReadFault>
    requires nests { NestsExpr nest.now.limit (E.pre nest.now.expr) (E.post nest.now.expr) }
    requires statements { NestsStmt inner.now.limit (S.pre inner.now.stmt) (S.post inner.now.stmt) }
    requires within { depth ≤ nest.now.limit }
    requires inside { depth ≤ inner.now.limit }
    requires room { depth + 1 < 18446744073709551616 }
    ensures { GivesHigh view.stmt height.stmt_height (depth + 1)
        (mapped t.loop (spec.do_over depth (closed_at depth) (stmt_at depth)) cursor.old) result cursor.new }
{
    let word = cursor.expect_word(Word::Do)?;
    let (body, tall) = inner.stmt(cursor, depth)?;
    let (again, height) = again_behind(nest, cursor, depth, &body)?;
    let found = repeated(inner.alloc, word, body, again)?;
    Ok((found, tall.max(height) + 1))
}
