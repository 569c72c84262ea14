// Blocks (ECMA-408, 17.1 Blocks).
ghost use Rattle.std.specs.Prelude.{◌≡◌, ◌≤◌, ◌<◌, ◌+◌};
ghost use Rattle.dart_syntax.specs.Statements.{to_stmts};
ghost use Rattle.dart_tree.specs.Depth as height;
ghost use Rattle.dart_tree.specs.Lists.{block_of};
ghost use Rattle.dart_tree.specs.Tree as t;
ghost use Rattle.parse_block.specs.Views.{list_of, list_height};
ghost use Rattle.parse_nest.specs.Nests.{NestsStmt};
ghost use Rattle.parse_nest.specs.Stages.{stmt_at, block_at};
ghost use Rattle.syntax_readers.specs.Statements as spec;
ghost use Rattle.token_cursor.specs.Gives.{GivesHigh};

use crate::list::stmts;
use dart_base::place::Place;
use dart_token::sign::Sign;
use dart_tree::statement::{Block, Stmt};
use parse_nest::statements::Statements;
use std::alloc::Global;
use token_cursor::cursor::Cursor;
use token_cursor::error::ReadFault;

// A block of its parts.
fn enclosed(opening: Place, statements: Vec<Stmt>, closing: Place) -> Block
    ensures same { block_of result ≡ t.the_block opening (to_stmts (list_of statements)) closing }
    ensures high { height.block_height (block_of result) ≡ list_height (list_of statements) + 1 }
{
    Block {
        opening,
        statements,
        closing,
    }
}

/// Reads a block whose statements have at most so many nodes above one another (ECMA-408, 17.1 Blocks).
#[tactic(auto, unfolding(syntax_readers::specs::Statements::block_over))]
pub fn block_over<S: Fn(Global, &mut Cursor<'_>, usize) -> Result<(Stmt, usize), ReadFault>>(
    inner: &Statements<S>,
    cursor: &mut Cursor<'_>,
    depth: usize,
) -> Result<(Block, usize), ReadFault>
    requires nests { NestsStmt inner.now.limit (S.pre inner.now.stmt) (S.post inner.now.stmt) }
    requires within { depth ≤ inner.now.limit }
    requires room { depth + 1 < 18446744073709551616 }
    ensures { GivesHigh block_of height.block_height (depth + 1)
        (spec.block_over depth (stmt_at depth) cursor.old) result cursor.new }
{
    let opening = cursor.expect(Sign::LeftBrace)?;
    let (statements, height) = stmts(inner, cursor, depth, false)?;
    let closing = cursor.expect(Sign::RightBrace)?;
    Ok((enclosed(opening, statements, closing), height + 1))
}

/// Reads a block, which is a node (ECMA-408, 17.1 Blocks).
pub fn block<S: Fn(Global, &mut Cursor<'_>, usize) -> Result<(Stmt, usize), ReadFault>>(
    inner: &Statements<S>,
    cursor: &mut Cursor<'_>,
    depth: usize,
) -> Result<(Block, usize), ReadFault>
    requires nests { NestsStmt inner.now.limit (S.pre inner.now.stmt) (S.post inner.now.stmt) }
    requires within { depth ≤ inner.now.limit + 1 }
    ensures { GivesHigh block_of height.block_height depth (block_at depth cursor.old) result cursor.new }
{
    if depth == 0 {
        return Err(ReadFault::Stuck);
    }
    block_over(inner, cursor, depth - 1)
}
