// Statements that choose (ECMA-408, 17.5 If).
ghost use Rattle.std.specs.Prelude.{◌≡◌, ◌≤◌, ◌<◌, ◌+◌, ◌&&◌, max, None, Some, IfOk};
ghost use Rattle.dart_token.specs.declared.word.Word.TheVariants as w;
ghost use Rattle.dart_tree.specs.Depth as height;
ghost use Rattle.dart_tree.specs.View as view;
ghost use Rattle.grammar_laws.specs.Readers.{starts};
ghost use Rattle.parse_nest.specs.Nests.{NestsExpr, NestsStmt};
ghost use Rattle.parse_nest.specs.Stages.{closed_at, stmt_at};
ghost use Rattle.parse_stmt.specs.Views.{if_head_of, if_head_height, if_head, else_of, else_height, else_part};
ghost use Rattle.syntax_readers.specs.Statements as spec;
ghost use Rattle.token_codes.specs.Codes.{class_of, this_word};
ghost use Rattle.token_cursor.specs.Gives.{GivesHigh};

use dart_base::place::Place;
use dart_node::make::statement as make;
use dart_token::word::Word;
use dart_tree::expression::Expr;
use dart_tree::parameter::Parameters;
use dart_tree::statement::{Block, Stmt};
use parse_block::condition::{Parenthesized, condition};
use parse_block::edge::is_shut;
use parse_nest::inside::{Inside, OpenExpr};
use parse_nest::statements::Statements;
use std::alloc::{AllocError, Global};
use token_cursor::cursor::Cursor;
use token_cursor::error::ReadFault;

/// An `if` up to its `else` (ECMA-408, 17.5 If).
#[derive(Drop)]
pub struct IfHead {
    pub word: Place,
    pub condition: Parenthesized,
    pub first: Stmt,
}

// `else` and the statement behind it.
type ElsePart = (Place, Stmt);

// An `if` without `else`.
fn without_else(alloc: Global, head: IfHead) -> Result<Stmt, AllocError>
    ensures same { IfOk result (λ x. view.stmt x ≡ spec.an_if_of (if_head_of head, None)) }
    ensures high { IfOk result (λ x. height.stmt_height (view.stmt x) ≡ if_head_height (if_head_of head) + 1) }
{
    let condition = head.condition;
    make::if_statement(
        alloc,
        head.word,
        condition.opening,
        condition.value,
        condition.closing,
        head.first,
    )
}

// An `if` with `else`.
fn with_else(alloc: Global, head: IfHead, behind: ElsePart) -> Result<Stmt, AllocError>
    ensures same { IfOk result (λ x. view.stmt x ≡ spec.an_if_of (if_head_of head, Some (else_of behind))) }
    ensures high { IfOk result (λ x. height.stmt_height (view.stmt x) ≡
        max (if_head_height (if_head_of head)) (else_height (else_of behind)) + 1) }
{
    let condition = head.condition;
    let (else_word, second) = behind;
    make::if_else(
        alloc,
        head.word,
        condition.opening,
        condition.value,
        condition.closing,
        head.first,
        else_word,
        second,
    )
}

// An `if` up to its `else`.
fn if_head<
    E: Fn(Global, &mut Cursor<'_>, usize, bool) -> Result<(OpenExpr, usize), ReadFault>,
    P: Fn(Global, &mut Cursor<'_>, usize) -> Result<(Parameters, usize), ReadFault>,
    B: Fn(Global, &mut Cursor<'_>, usize) -> Result<(Block, usize), ReadFault>,
    S: Fn(Global, &mut Cursor<'_>, usize) -> Result<(Stmt, usize), ReadFault>,
>(
    nest: &Inside<E, P, B>,
    inner: &Statements<S>,
    cursor: &mut Cursor<'_>,
    depth: usize,
) -> Result<(IfHead, usize), ReadFault>
    requires nests { NestsExpr nest.now.limit (E.pre nest.now.expr) (E.post nest.now.expr) }
    requires within { depth ≤ nest.now.limit }
    requires stmts { NestsStmt inner.now.limit (S.pre inner.now.stmt) (S.post inner.now.stmt) }
    requires inside { depth ≤ inner.now.limit }
    ensures { GivesHigh if_head_of if_head_height depth
        (if_head (closed_at depth) (stmt_at depth) cursor.old) result cursor.new }
{
    let word = cursor.expect_word(Word::If)?;
    let (condition, tall) = condition(nest, cursor, depth)?;
    let (first, height) = inner.stmt(cursor, depth)?;
    let head = IfHead {
        word,
        condition,
        first,
    };
    Ok((head, tall.max(height)))
}

// `else` and the statement behind it.
fn else_part<S: Fn(Global, &mut Cursor<'_>, usize) -> Result<(Stmt, usize), ReadFault>>(
    inner: &Statements<S>,
    cursor: &mut Cursor<'_>,
    depth: usize,
) -> Result<(ElsePart, usize), ReadFault>
    requires stmts { NestsStmt inner.now.limit (S.pre inner.now.stmt) (S.post inner.now.stmt) }
    requires inside { depth ≤ inner.now.limit }
    ensures { GivesHigh else_of else_height depth (else_part (stmt_at depth) cursor.old) result cursor.new }
{
    let word = cursor.expect_word(Word::Else)?;
    let (second, height) = inner.stmt(cursor, depth)?;
    Ok(((word, second), height))
}

// Whether an `else` comes that belongs to this `if`, and not to one that ends it.
fn else_follows(head: &IfHead, cursor: &Cursor<'_>) -> bool
    ensures { result ≡ (spec.ends_shut (if_head_of head.now) && starts class_of (this_word w.Else) cursor.now) }
{
    is_shut(&head.first) && cursor.sees_word(Word::Else)
}

/// Reads an `if` whose parts have at most so many nodes above one another (ECMA-408, 17.5 If).
#[inline(never)]
pub fn if_stmt<
    E: Fn(Global, &mut Cursor<'_>, usize, bool) -> Result<(OpenExpr, usize), ReadFault>,
    P: Fn(Global, &mut Cursor<'_>, usize) -> Result<(Parameters, usize), ReadFault>,
    B: Fn(Global, &mut Cursor<'_>, usize) -> Result<(Block, usize), ReadFault>,
    S: Fn(Global, &mut Cursor<'_>, usize) -> Result<(Stmt, usize), ReadFault>,
>(
    nest: &Inside<E, P, B>,
    inner: &Statements<S>,
    cursor: &mut Cursor<'_>,
    depth: usize,
) -> Result<(Stmt, usize), ReadFault>
    requires nests { NestsExpr nest.now.limit (E.pre nest.now.expr) (E.post nest.now.expr) }
    requires within { depth ≤ nest.now.limit }
    requires stmts { NestsStmt inner.now.limit (S.pre inner.now.stmt) (S.post inner.now.stmt) }
    requires inside { depth ≤ inner.now.limit }
    requires room { depth + 1 < 18446744073709551616 }
    ensures { GivesHigh view.stmt height.stmt_height (depth + 1)
        (spec.if_over (closed_at depth) (stmt_at depth) cursor.old) result cursor.new }
{
    let (head, tall) = if_head(nest, inner, cursor, depth)?;
    if !else_follows(&head, cursor) {
        let alone = without_else(nest.alloc, head)?;
        return Ok((alone, tall + 1));
    }
    let (behind, height) = else_part(inner, cursor, depth)?;
    let made = with_else(nest.alloc, head, behind)?;
    Ok((made, tall.max(height) + 1))
}
