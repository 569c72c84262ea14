// Statements that jump, and statements of an expression (ECMA-408, 17.2, 17.10, 17.12, 17.14 and 17.15).
ghost use Rattle.std.specs.Prelude.{◌≡◌, ◌≤◌, IfOk};
ghost use Rattle.dart_tree.specs.Depth as height;
ghost use Rattle.dart_tree.specs.View as view;
ghost use Rattle.grammar_laws.specs.Readers.{option};
ghost use Rattle.parse_jump.specs.Views.{return_reader, break_reader, continue_reader, rethrow_reader};
ghost use Rattle.parse_nest.specs.Nests.{NestsExpr};
ghost use Rattle.parse_nest.specs.Stages.{closed_at};
ghost use Rattle.syntax_readers.specs.Statements as spec;
ghost use Rattle.token_codes.specs.Codes.{class_of, names};
ghost use Rattle.token_codes.specs.Leaves.{identifier};
ghost use Rattle.token_cursor.specs.Gives.{Gives, GivesHigh, same};

use dart_token::sign::Sign;
use dart_token::word::Word;
use dart_tree::expression::Expr;
use dart_tree::identifier::Identifier;
use dart_tree::parameter::Parameters;
use dart_tree::statement::{Block, Jump, Stmt};
use parse_literal::bracket::maybe_expr;
use parse_nest::inside::{Inside, OpenExpr};
use std::alloc::Global;
use token_cursor::cursor::Cursor;
use token_cursor::error::ReadFault;

// An identifier where one comes.
fn maybe_identifier(alloc: Global, cursor: &mut Cursor<'_>) -> Result<Option<Identifier>, ReadFault>
    ensures { Gives same (option class_of names identifier cursor.old) result cursor.new }
{
    if !cursor.sees_name() {
        return Ok(None);
    }
    let name = cursor.identifier(alloc)?;
    Ok(Some(name))
}

// `break` (17.14 Break).
#[tactic(auto, unfolding(dart_tree::specs::View::stmt, dart_tree::specs::Depth::stmt_height))]
fn break_stmt(alloc: Global, cursor: &mut Cursor<'_>) -> Result<Stmt, ReadFault>
    ensures gives { Gives view.stmt (break_reader cursor.old) result cursor.new }
    ensures low { IfOk result (λ x. height.stmt_height (view.stmt x) ≡ 0) }
{
    let word = cursor.expect_word(Word::Break)?;
    let label = maybe_identifier(alloc, cursor)?;
    let semicolon = cursor.expect(Sign::Semicolon)?;
    Ok(Stmt::Jump(Jump::Break {
        word,
        label,
        semicolon,
    }))
}

// `continue` (17.15 Continue).
#[tactic(auto, unfolding(dart_tree::specs::View::stmt, dart_tree::specs::Depth::stmt_height))]
fn continue_stmt(alloc: Global, cursor: &mut Cursor<'_>) -> Result<Stmt, ReadFault>
    ensures gives { Gives view.stmt (continue_reader cursor.old) result cursor.new }
    ensures low { IfOk result (λ x. height.stmt_height (view.stmt x) ≡ 0) }
{
    let word = cursor.expect_word(Word::Continue)?;
    let label = maybe_identifier(alloc, cursor)?;
    let semicolon = cursor.expect(Sign::Semicolon)?;
    Ok(Stmt::Jump(Jump::Continue {
        word,
        label,
        semicolon,
    }))
}

// `rethrow` (17.10 Rethrow).
#[tactic(auto, unfolding(dart_tree::specs::View::stmt, dart_tree::specs::Depth::stmt_height))]
fn rethrow_stmt(cursor: &mut Cursor<'_>) -> Result<Stmt, ReadFault>
    ensures gives { Gives view.stmt (rethrow_reader cursor.old) result cursor.new }
    ensures low { IfOk result (λ x. height.stmt_height (view.stmt x) ≡ 0) }
{
    let word = cursor.expect_word(Word::Rethrow)?;
    let semicolon = cursor.expect(Sign::Semicolon)?;
    Ok(Stmt::Jump(Jump::Rethrow(word, semicolon)))
}

// `return` with an expression or none (17.12 Return).
#[tactic(auto, unfolding(dart_tree::specs::View::stmt, dart_tree::specs::Depth::stmt_height))]
fn return_stmt<
    E: Fn(Global, &mut Cursor<'_>, usize, bool) -> Result<(OpenExpr, usize), ReadFault>,
    P: Fn(Global, &mut Cursor<'_>, usize) -> Result<(Parameters, usize), ReadFault>,
    B: Fn(Global, &mut Cursor<'_>, usize) -> Result<(Block, usize), ReadFault>,
>(nest: &Inside<E, P, B>, cursor: &mut Cursor<'_>, depth: usize) -> Result<(Stmt, usize), ReadFault>
    requires nests { NestsExpr nest.now.limit (E.pre nest.now.expr) (E.post nest.now.expr) }
    requires within { depth ≤ nest.now.limit }
    ensures { GivesHigh view.stmt height.stmt_height depth (return_reader depth cursor.old) result cursor.new }
{
    let word = cursor.expect_word(Word::Return)?;
    let (value, height) = maybe_expr(nest, cursor, depth)?;
    let semicolon = cursor.expect(Sign::Semicolon)?;
    Ok((
        Stmt::Return {
            word,
            value,
            semicolon,
        },
        height,
    ))
}

/// Reads a statement that jumps (ECMA-408, 17.10, 17.12, 17.14 and 17.15).
#[tactic(auto, unfolding(syntax_readers::specs::Statements::jump))]
pub fn jump<
    E: Fn(Global, &mut Cursor<'_>, usize, bool) -> Result<(OpenExpr, usize), ReadFault>,
    P: Fn(Global, &mut Cursor<'_>, usize) -> Result<(Parameters, usize), ReadFault>,
    B: Fn(Global, &mut Cursor<'_>, usize) -> Result<(Block, usize), ReadFault>,
>(nest: &Inside<E, P, B>, cursor: &mut Cursor<'_>, depth: usize) -> Result<(Stmt, usize), ReadFault>
    requires nests { NestsExpr nest.now.limit (E.pre nest.now.expr) (E.post nest.now.expr) }
    requires within { depth ≤ nest.now.limit }
    ensures { GivesHigh view.stmt height.stmt_height depth (spec.jump (closed_at depth) cursor.old) result cursor.new }
{
    if cursor.sees_word(Word::Return) {
        return return_stmt(nest, cursor, depth);
    }
    if cursor.sees_word(Word::Break) {
        let found = break_stmt(nest.alloc, cursor)?;
        return Ok((found, 0));
    }
    if cursor.sees_word(Word::Continue) {
        let found = continue_stmt(nest.alloc, cursor)?;
        return Ok((found, 0));
    }
    let found = rethrow_stmt(cursor)?;
    Ok((found, 0))
}

/// Reads a statement of an expression or none (ECMA-408, 17.2 Expression Statements).
#[tactic(auto, unfolding(syntax_readers::specs::Statements::expression_stmt, dart_tree::specs::View::stmt, dart_tree::specs::Depth::stmt_height))]
pub fn expression_stmt<
    E: Fn(Global, &mut Cursor<'_>, usize, bool) -> Result<(OpenExpr, usize), ReadFault>,
    P: Fn(Global, &mut Cursor<'_>, usize) -> Result<(Parameters, usize), ReadFault>,
    B: Fn(Global, &mut Cursor<'_>, usize) -> Result<(Block, usize), ReadFault>,
>(nest: &Inside<E, P, B>, cursor: &mut Cursor<'_>, depth: usize) -> Result<(Stmt, usize), ReadFault>
    requires nests { NestsExpr nest.now.limit (E.pre nest.now.expr) (E.post nest.now.expr) }
    requires within { depth ≤ nest.now.limit }
    ensures { GivesHigh view.stmt height.stmt_height depth (spec.expression_stmt (closed_at depth) cursor.old) result cursor.new }
{
    let (value, height) = maybe_expr(nest, cursor, depth)?;
    let semicolon = cursor.expect(Sign::Semicolon)?;
    Ok((Stmt::Expression(value, semicolon), height))
}
