// The circle of the functions that read nodes: each hands in the others, and itself one node less deep.
ghost use Rattle.dart_tree.specs.Depth as height;
ghost use Rattle.dart_tree.specs.Lists.{block_of};
ghost use Rattle.dart_tree.specs.UnitView as unit_view;
ghost use Rattle.dart_tree.specs.View as view;
ghost use Rattle.parse_nest.specs.Open.{open_expr, open_expr_height};
ghost use Rattle.parse_nest.specs.Stages.{expr_at, parameters_at, block_at, stmt_at};
ghost use Rattle.syntax_readers.specs.Units.{unit_reader};
ghost use Rattle.token_cursor.specs.Gives.{GivesHigh};

use dart_tree::parameter::Parameters;
use dart_tree::statement::{Block, Stmt};
use dart_tree::unit::Unit;
use parse_expr::expr::expr_over;
use parse_nest::inside::{Inside, OpenExpr};
use parse_nest::statements::Statements;
use parse_parameter::list::parameters_over;
use parse_stmt::block_over;
use std::alloc::Global;
use token_cursor::cursor::Cursor;
use token_cursor::error::ReadFault;

// Reads an expression, or a half of an operator that stands behind it too, with cascades or without (ECMA-408, 16
// Expressions).
#[cycle(nodes)]
fn expr(
    alloc: Global,
    cursor: &mut Cursor<'_>,
    depth: usize,
    cascades: bool,
) -> Result<(OpenExpr, usize), ReadFault>
    ensures { GivesHigh open_expr open_expr_height depth (expr_at depth cascades cursor.old) result cursor.new }
{
    if depth == 0 {
        return Err(ReadFault::Stuck);
    }
    let nest = Inside {
        alloc,
        limit: depth - 1,
        expr,
        parameters,
        block,
    };
    expr_over(&nest, cursor, depth - 1, cascades)
}

// Reads the parameters of a function (ECMA-408, 9.2 Formal Parameters).
#[cycle(nodes)]
fn parameters(
    alloc: Global,
    cursor: &mut Cursor<'_>,
    depth: usize,
) -> Result<(Parameters, usize), ReadFault>
    ensures { GivesHigh view.parameters height.parameters_height depth (parameters_at depth cursor.old) result cursor.new }
{
    if depth == 0 {
        return Err(ReadFault::Stuck);
    }
    let nest = Inside {
        alloc,
        limit: depth - 1,
        expr,
        parameters,
        block,
    };
    parameters_over(&nest, cursor, depth - 1)
}

// Reads a block (ECMA-408, 17.1 Blocks).
#[cycle(nodes)]
fn block(alloc: Global, cursor: &mut Cursor<'_>, depth: usize) -> Result<(Block, usize), ReadFault>
    ensures { GivesHigh block_of height.block_height depth (block_at depth cursor.old) result cursor.new }
{
    if depth == 0 {
        return Err(ReadFault::Stuck);
    }
    let inner = Statements {
        alloc,
        limit: depth - 1,
        stmt,
    };
    block_over(&inner, cursor, depth - 1)
}

// Reads a statement: what it holds has at most as many nodes above one another as it has itself, but the statements in
// it have fewer (ECMA-408, 17 Statements).
#[cycle(nodes)]
fn stmt(alloc: Global, cursor: &mut Cursor<'_>, depth: usize) -> Result<(Stmt, usize), ReadFault>
    ensures { GivesHigh view.stmt height.stmt_height depth (stmt_at depth cursor.old) result cursor.new }
{
    let nest = Inside {
        alloc,
        limit: depth,
        expr,
        parameters,
        block,
    };
    let inner = Statements {
        alloc,
        limit: depth.saturating_sub(1),
        stmt,
    };
    parse_stmt::statement::stmt(&nest, &inner, cursor, depth)
}

/// Reads a unit (ECMA-408, 18 Libraries and Scripts).
pub fn unit(
    alloc: Global,
    cursor: &mut Cursor<'_>,
    depth: usize,
) -> Result<(Unit, usize), ReadFault>
    ensures { GivesHigh unit_view.unit height.unit_height depth (unit_reader depth cursor.old) result cursor.new }
{
    let nest = Inside {
        alloc,
        limit: depth,
        expr,
        parameters,
        block,
    };
    parse_decl::unit::unit(&nest, cursor, depth)
}
