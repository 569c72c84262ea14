// Statements of each kind, with their labels (ECMA-408, 17 Statements).
ghost use Rattle.std.specs.Prelude.{◌≡◌, ◌≤◌, ◌<◌, ◌+◌, IfOk};
ghost use Rattle.dart_tree.specs.Depth as height;
ghost use Rattle.dart_tree.specs.Tree as t;
ghost use Rattle.dart_tree.specs.View as view;
ghost use Rattle.grammar_laws.specs.Readers.{mapped, tried};
ghost use Rattle.parse_nest.specs.Nests.{NestsExpr, NestsParameters, NestsBlock, NestsStmt};
ghost use Rattle.parse_nest.specs.Stages.{block_at, nodes_at, stmt_at};
ghost use Rattle.parse_stmt.specs.Views.{compound_at};
ghost use Rattle.syntax_readers.specs.Combinators.{past_name};
ghost use Rattle.syntax_readers.specs.Statements as spec;
ghost use Rattle.token_cursor.specs.Gives.{GivesHigh};

use crate::attempt::try_stmt;
use crate::branch::if_stmt;
use crate::iterate::{for_stmt, while_stmt};
use dart_node::make::statement as make;
use dart_token::sign::Sign;
use dart_token::word::Word;
use dart_tree::expression::Expr;
use dart_tree::identifier::Label;
use dart_tree::parameter::Parameters;
use dart_tree::statement::{Block, Stmt};
use parse_block::repeat::do_stmt;
use parse_block::switch::switch_stmt;
use parse_jump::declaration::declaration;
use parse_jump::jump::{expression_stmt, jump};
use parse_jump::labels::labels;
use parse_jump::look::{calls, sees_compound, sees_declaration, sees_jump};
use parse_nest::inside::{Inside, OpenExpr};
use parse_nest::statements::Statements;
use parse_parameter::look::settle;
use parse_type::look::pass_name;
use std::alloc::{AllocError, Global};
use token_cursor::cursor::Cursor;
use token_cursor::error::ReadFault;

/// Reads a statement that is a node and whose parts have at most so many nodes above one another (ECMA-408, 17
/// Statements).
pub fn compound_over<
    E: Fn(Global, &mut Cursor<'_>, usize, bool) -> Result<(OpenExpr, usize), ReadFault>,
    P: Fn(Global, &mut Cursor<'_>, usize) -> Result<(Parameters, usize), ReadFault>,
    B: Fn(Global, &mut Cursor<'_>, usize) -> Result<(Block, usize), ReadFault>,
    S: Fn(Global, &mut Cursor<'_>, usize) -> Result<(Stmt, usize), ReadFault>,
>(
    nest: &Inside<E, P, B>,
    inner: &Statements<S>,
    cursor: &mut Cursor<'_>,
    depth: usize,
) -> Result<(Stmt, usize), ReadFault>
    requires nests { NestsExpr nest.now.limit (E.pre nest.now.expr) (E.post nest.now.expr) }
    requires blocks { NestsBlock nest.now.limit (B.pre nest.now.block) (B.post nest.now.block) }
    requires within { depth ≤ nest.now.limit }
    requires stmts { NestsStmt inner.now.limit (S.pre inner.now.stmt) (S.post inner.now.stmt) }
    requires inside { depth ≤ inner.now.limit }
    requires room { depth + 1 < 18446744073709551616 }
    ensures { GivesHigh view.stmt height.stmt_height (depth + 1) (spec.compound_over depth (spec.stage depth) cursor.old) result cursor.new }
{
    if cursor.sees_word(Word::If) {
        return if_stmt(nest, inner, cursor, depth);
    }
    if cursor.sees_word(Word::For) {
        return for_stmt(nest, inner, cursor, depth);
    }
    if cursor.sees_word(Word::While) {
        return while_stmt(nest, inner, cursor, depth);
    }
    if cursor.sees_word(Word::Do) {
        return do_stmt(nest, inner, cursor, depth);
    }
    if cursor.sees_word(Word::Switch) {
        return switch_stmt(nest, inner, cursor, depth);
    }
    try_stmt(nest, cursor, depth)
}

/// Reads a statement that is a node (ECMA-408, 17 Statements).
#[inline(never)]
pub fn compound<
    E: Fn(Global, &mut Cursor<'_>, usize, bool) -> Result<(OpenExpr, usize), ReadFault>,
    P: Fn(Global, &mut Cursor<'_>, usize) -> Result<(Parameters, usize), ReadFault>,
    B: Fn(Global, &mut Cursor<'_>, usize) -> Result<(Block, usize), ReadFault>,
    S: Fn(Global, &mut Cursor<'_>, usize) -> Result<(Stmt, usize), ReadFault>,
>(
    nest: &Inside<E, P, B>,
    inner: &Statements<S>,
    cursor: &mut Cursor<'_>,
    depth: usize,
) -> Result<(Stmt, usize), ReadFault>
    requires nests { NestsExpr nest.now.limit (E.pre nest.now.expr) (E.post nest.now.expr) }
    requires blocks { NestsBlock nest.now.limit (B.pre nest.now.block) (B.post nest.now.block) }
    requires within { depth ≤ nest.now.limit }
    requires stmts { 0 < depth → NestsStmt inner.now.limit (S.pre inner.now.stmt) (S.post inner.now.stmt) }
    requires inside { depth ≤ inner.now.limit + 1 }
    ensures { GivesHigh view.stmt height.stmt_height depth (compound_at depth cursor.old) result cursor.new }
{
    if depth == 0 {
        return Err(ReadFault::Stuck);
    }
    compound_over(nest, inner, cursor, depth - 1)
}

// A block as a statement.
#[inline(never)]
#[tactic(auto, unfolding(dart_tree::specs::Depth::stmt_height))]
fn block_stmt<
    E: Fn(Global, &mut Cursor<'_>, usize, bool) -> Result<(OpenExpr, usize), ReadFault>,
    P: Fn(Global, &mut Cursor<'_>, usize) -> Result<(Parameters, usize), ReadFault>,
    B: Fn(Global, &mut Cursor<'_>, usize) -> Result<(Block, usize), ReadFault>,
>(nest: &Inside<E, P, B>, cursor: &mut Cursor<'_>, depth: usize) -> Result<(Stmt, usize), ReadFault>
    requires blocks { NestsBlock nest.now.limit (B.pre nest.now.block) (B.post nest.now.block) }
    requires within { depth ≤ nest.now.limit }
    ensures { GivesHigh view.stmt height.stmt_height depth (mapped t.block_stmt (block_at depth) cursor.old) result cursor.new }
{
    let (found, height) = nest.block(cursor, depth)?;
    Ok((make::block_statement(found), height))
}

// A statement that is no declaration and has no label.
fn other_stmt<
    E: Fn(Global, &mut Cursor<'_>, usize, bool) -> Result<(OpenExpr, usize), ReadFault>,
    P: Fn(Global, &mut Cursor<'_>, usize) -> Result<(Parameters, usize), ReadFault>,
    B: Fn(Global, &mut Cursor<'_>, usize) -> Result<(Block, usize), ReadFault>,
    S: Fn(Global, &mut Cursor<'_>, usize) -> Result<(Stmt, usize), ReadFault>,
>(
    nest: &Inside<E, P, B>,
    inner: &Statements<S>,
    cursor: &mut Cursor<'_>,
    depth: usize,
) -> Result<(Stmt, usize), ReadFault>
    requires nests { NestsExpr nest.now.limit (E.pre nest.now.expr) (E.post nest.now.expr) }
    requires blocks { NestsBlock nest.now.limit (B.pre nest.now.block) (B.post nest.now.block) }
    requires within { depth ≤ nest.now.limit }
    requires stmts { 0 < depth → NestsStmt inner.now.limit (S.pre inner.now.stmt) (S.post inner.now.stmt) }
    requires inside { depth ≤ inner.now.limit + 1 }
    ensures { GivesHigh view.stmt height.stmt_height depth (spec.other_stmt (nodes_at depth) cursor.old) result cursor.new }
{
    if cursor.sees(Sign::LeftBrace) {
        return block_stmt(nest, cursor, depth);
    }
    if sees_compound(cursor) {
        return compound(nest, inner, cursor, depth);
    }
    if sees_jump(cursor) {
        return jump(nest, cursor, depth);
    }
    expression_stmt(nest, cursor, depth)
}

// Another statement, or else a declaration.
fn other_or_declaration<
    E: Fn(Global, &mut Cursor<'_>, usize, bool) -> Result<(OpenExpr, usize), ReadFault>,
    P: Fn(Global, &mut Cursor<'_>, usize) -> Result<(Parameters, usize), ReadFault>,
    B: Fn(Global, &mut Cursor<'_>, usize) -> Result<(Block, usize), ReadFault>,
    S: Fn(Global, &mut Cursor<'_>, usize) -> Result<(Stmt, usize), ReadFault>,
>(
    nest: &Inside<E, P, B>,
    inner: &Statements<S>,
    cursor: &mut Cursor<'_>,
    depth: usize,
) -> Result<(Stmt, usize), ReadFault>
    requires nests { NestsExpr nest.now.limit (E.pre nest.now.expr) (E.post nest.now.expr) }
    requires parameters { NestsParameters nest.now.limit (P.pre nest.now.parameters) (P.post nest.now.parameters) }
    requires blocks { NestsBlock nest.now.limit (B.pre nest.now.block) (B.post nest.now.block) }
    requires within { depth ≤ nest.now.limit }
    requires stmts { 0 < depth → NestsStmt inner.now.limit (S.pre inner.now.stmt) (S.post inner.now.stmt) }
    requires inside { depth ≤ inner.now.limit + 1 }
    ensures { GivesHigh view.stmt height.stmt_height depth
        (tried (spec.other_stmt (nodes_at depth)) (spec.declaration (nodes_at depth)) cursor.old) result cursor.new }
{
    let mut second = cursor.fork();
    match other_stmt(nest, inner, cursor, depth) {
        Ok(found) => Ok(found),
        Err(ReadFault::Memory) => Err(ReadFault::Memory),
        Err(ReadFault::Stuck) => {
            let declared = declaration(nest, &mut second, depth);
            settle(cursor, &second, declared.is_ok());
            declared
        }
    }
}

// A declaration, or else another statement.
fn declaration_or_other<
    E: Fn(Global, &mut Cursor<'_>, usize, bool) -> Result<(OpenExpr, usize), ReadFault>,
    P: Fn(Global, &mut Cursor<'_>, usize) -> Result<(Parameters, usize), ReadFault>,
    B: Fn(Global, &mut Cursor<'_>, usize) -> Result<(Block, usize), ReadFault>,
    S: Fn(Global, &mut Cursor<'_>, usize) -> Result<(Stmt, usize), ReadFault>,
>(
    nest: &Inside<E, P, B>,
    inner: &Statements<S>,
    cursor: &mut Cursor<'_>,
    depth: usize,
) -> Result<(Stmt, usize), ReadFault>
    requires nests { NestsExpr nest.now.limit (E.pre nest.now.expr) (E.post nest.now.expr) }
    requires parameters { NestsParameters nest.now.limit (P.pre nest.now.parameters) (P.post nest.now.parameters) }
    requires blocks { NestsBlock nest.now.limit (B.pre nest.now.block) (B.post nest.now.block) }
    requires within { depth ≤ nest.now.limit }
    requires stmts { 0 < depth → NestsStmt inner.now.limit (S.pre inner.now.stmt) (S.post inner.now.stmt) }
    requires inside { depth ≤ inner.now.limit + 1 }
    ensures { GivesHigh view.stmt height.stmt_height depth
        (tried (spec.declaration (nodes_at depth)) (spec.other_stmt (nodes_at depth)) cursor.old) result cursor.new }
{
    let mut second = cursor.fork();
    match declaration(nest, cursor, depth) {
        Ok(found) => Ok(found),
        Err(ReadFault::Memory) => Err(ReadFault::Memory),
        Err(ReadFault::Stuck) => {
            let other = other_stmt(nest, inner, &mut second, depth);
            settle(cursor, &second, other.is_ok());
            other
        }
    }
}

// A statement without labels.
fn unlabelled<
    E: Fn(Global, &mut Cursor<'_>, usize, bool) -> Result<(OpenExpr, usize), ReadFault>,
    P: Fn(Global, &mut Cursor<'_>, usize) -> Result<(Parameters, usize), ReadFault>,
    B: Fn(Global, &mut Cursor<'_>, usize) -> Result<(Block, usize), ReadFault>,
    S: Fn(Global, &mut Cursor<'_>, usize) -> Result<(Stmt, usize), ReadFault>,
>(
    nest: &Inside<E, P, B>,
    inner: &Statements<S>,
    cursor: &mut Cursor<'_>,
    depth: usize,
) -> Result<(Stmt, usize), ReadFault>
    requires nests { NestsExpr nest.now.limit (E.pre nest.now.expr) (E.post nest.now.expr) }
    requires parameters { NestsParameters nest.now.limit (P.pre nest.now.parameters) (P.post nest.now.parameters) }
    requires blocks { NestsBlock nest.now.limit (B.pre nest.now.block) (B.post nest.now.block) }
    requires within { depth ≤ nest.now.limit }
    requires stmts { 0 < depth → NestsStmt inner.now.limit (S.pre inner.now.stmt) (S.post inner.now.stmt) }
    requires inside { depth ≤ inner.now.limit + 1 }
    ensures { GivesHigh view.stmt height.stmt_height depth (spec.unlabelled (nodes_at depth) cursor.old) result cursor.new }
{
    if !sees_declaration(cursor) {
        return other_stmt(nest, inner, cursor, depth);
    }
    if calls(cursor) {
        return other_or_declaration(nest, inner, cursor, depth);
    }
    declaration_or_other(nest, inner, cursor, depth)
}

// The same where a label may come, too.
fn unlabelled_past_name<
    E: Fn(Global, &mut Cursor<'_>, usize, bool) -> Result<(OpenExpr, usize), ReadFault>,
    P: Fn(Global, &mut Cursor<'_>, usize) -> Result<(Parameters, usize), ReadFault>,
    B: Fn(Global, &mut Cursor<'_>, usize) -> Result<(Block, usize), ReadFault>,
    S: Fn(Global, &mut Cursor<'_>, usize) -> Result<(Stmt, usize), ReadFault>,
>(
    nest: &Inside<E, P, B>,
    inner: &Statements<S>,
    cursor: &mut Cursor<'_>,
    depth: usize,
) -> Result<(Stmt, usize), ReadFault>
    requires nests { NestsExpr nest.now.limit (E.pre nest.now.expr) (E.post nest.now.expr) }
    requires parameters { NestsParameters nest.now.limit (P.pre nest.now.parameters) (P.post nest.now.parameters) }
    requires blocks { NestsBlock nest.now.limit (B.pre nest.now.block) (B.post nest.now.block) }
    requires within { depth ≤ nest.now.limit }
    requires stmts { 0 < depth → NestsStmt inner.now.limit (S.pre inner.now.stmt) (S.post inner.now.stmt) }
    requires inside { depth ≤ inner.now.limit + 1 }
    ensures { GivesHigh view.stmt height.stmt_height depth (past_name (spec.unlabelled (nodes_at depth)) cursor.old) result cursor.new }
{
    let start = cursor.fork();
    match unlabelled(nest, inner, cursor, depth) {
        Ok(found) => Ok(found),
        Err(fault) => {
            pass_name(&start, cursor);
            Err(fault)
        }
    }
}

// A statement behind its labels.
fn labelled(alloc: Global, labels: Vec<Label>, statement: Stmt) -> Result<Stmt, AllocError>
    ensures same { IfOk result (λ x. view.stmt x ≡ t.with_labels labels.items (view.stmt statement)) }
    ensures high { IfOk result (λ x. height.stmt_height (view.stmt x) ≡ height.stmt_height (view.stmt statement)) }
{
    make::labelled(alloc, labels, statement)
}

/// Reads a statement with its labels (ECMA-408, 17 Statements).
pub fn stmt<
    E: Fn(Global, &mut Cursor<'_>, usize, bool) -> Result<(OpenExpr, usize), ReadFault>,
    P: Fn(Global, &mut Cursor<'_>, usize) -> Result<(Parameters, usize), ReadFault>,
    B: Fn(Global, &mut Cursor<'_>, usize) -> Result<(Block, usize), ReadFault>,
    S: Fn(Global, &mut Cursor<'_>, usize) -> Result<(Stmt, usize), ReadFault>,
>(
    nest: &Inside<E, P, B>,
    inner: &Statements<S>,
    cursor: &mut Cursor<'_>,
    depth: usize,
) -> Result<(Stmt, usize), ReadFault>
    requires nests { NestsExpr nest.now.limit (E.pre nest.now.expr) (E.post nest.now.expr) }
    requires parameters { NestsParameters nest.now.limit (P.pre nest.now.parameters) (P.post nest.now.parameters) }
    requires blocks { NestsBlock nest.now.limit (B.pre nest.now.block) (B.post nest.now.block) }
    requires within { depth ≤ nest.now.limit }
    requires stmts { 0 < depth → NestsStmt inner.now.limit (S.pre inner.now.stmt) (S.post inner.now.stmt) }
    requires inside { depth ≤ inner.now.limit + 1 }
    ensures { GivesHigh view.stmt height.stmt_height depth (stmt_at depth cursor.old) result cursor.new }
{
    let labels = labels(nest.alloc, cursor)?;
    let (statement, height) = unlabelled_past_name(nest, inner, cursor, depth)?;
    let made = labelled(nest.alloc, labels, statement)?;
    Ok((made, height))
}
