// Declarations among statements (ECMA-408, 17.3 Local Variable Declaration and 17.4 Local Function Declaration).
ghost use Rattle.std.specs.Prelude.{◌≤◌};
ghost use Rattle.dart_tree.specs.Depth as height;
ghost use Rattle.dart_tree.specs.Tree as t;
ghost use Rattle.dart_tree.specs.View as view;
ghost use Rattle.grammar_laws.specs.Readers.{mapped, tried};
ghost use Rattle.parse_nest.specs.Nests.{NestsExpr, NestsParameters, NestsBlock};
ghost use Rattle.parse_parameter.specs.Views.{variables_at, local_function_at};
ghost use Rattle.syntax_readers.specs.Statements as spec;
ghost use Rattle.token_cursor.specs.Gives.{GivesHigh};
ghost use Rattle.parse_nest.specs.Stages.{nodes_at};

use dart_node::make::statement as make;
use dart_tree::expression::Expr;
use dart_tree::parameter::Parameters;
use dart_tree::statement::{Block, Stmt};
use parse_nest::inside::{Inside, OpenExpr};
use parse_parameter::look::{sees_variables, settle};
use parse_parameter::variable::{local_function, variables};
use std::alloc::Global;
use token_cursor::cursor::Cursor;
use token_cursor::error::ReadFault;

// Variables as a statement.
#[tactic(auto, unfolding(dart_tree::specs::Depth::stmt_height, dart_tree::specs::View::stmt))]
fn variables_stmt<
    E: Fn(Global, &mut Cursor<'_>, usize, bool) -> Result<(OpenExpr, usize), ReadFault>,
    P: Fn(Global, &mut Cursor<'_>, usize) -> Result<(Parameters, usize), ReadFault>,
    B: Fn(Global, &mut Cursor<'_>, usize) -> Result<(Block, usize), ReadFault>,
>(nest: &Inside<E, P, B>, cursor: &mut Cursor<'_>, depth: usize) -> Result<(Stmt, usize), ReadFault>
    requires nests { NestsExpr nest.now.limit (E.pre nest.now.expr) (E.post nest.now.expr) }
    requires within { depth ≤ nest.now.limit }
    ensures { GivesHigh view.stmt height.stmt_height depth (mapped t.variables_stmt (variables_at depth) cursor.old) result cursor.new }
{
    let (found, height) = variables(nest, cursor, depth)?;
    Ok((Stmt::Variables(found), height))
}

// A local function as a statement.
#[tactic(auto, unfolding(dart_tree::specs::Depth::stmt_height))]
fn function_stmt<
    E: Fn(Global, &mut Cursor<'_>, usize, bool) -> Result<(OpenExpr, usize), ReadFault>,
    P: Fn(Global, &mut Cursor<'_>, usize) -> Result<(Parameters, usize), ReadFault>,
    B: Fn(Global, &mut Cursor<'_>, usize) -> Result<(Block, usize), ReadFault>,
>(nest: &Inside<E, P, B>, cursor: &mut Cursor<'_>, depth: usize) -> Result<(Stmt, usize), ReadFault>
    requires nests { NestsExpr nest.now.limit (E.pre nest.now.expr) (E.post nest.now.expr) }
    requires parameters { NestsParameters nest.now.limit (P.pre nest.now.parameters) (P.post nest.now.parameters) }
    requires blocks { NestsBlock nest.now.limit (B.pre nest.now.block) (B.post nest.now.block) }
    requires within { depth ≤ nest.now.limit }
    ensures { GivesHigh view.stmt height.stmt_height depth (mapped t.function_stmt (local_function_at depth) cursor.old) result cursor.new }
{
    let (found, height) = local_function(nest, cursor, depth)?;
    Ok((make::function_statement(nest.alloc, found)?, height))
}

// A local function, or else variables.
fn function_or_variables<
    E: Fn(Global, &mut Cursor<'_>, usize, bool) -> Result<(OpenExpr, usize), ReadFault>,
    P: Fn(Global, &mut Cursor<'_>, usize) -> Result<(Parameters, usize), ReadFault>,
    B: Fn(Global, &mut Cursor<'_>, usize) -> Result<(Block, usize), ReadFault>,
>(nest: &Inside<E, P, B>, cursor: &mut Cursor<'_>, depth: usize) -> Result<(Stmt, usize), ReadFault>
    requires nests { NestsExpr nest.now.limit (E.pre nest.now.expr) (E.post nest.now.expr) }
    requires parameters { NestsParameters nest.now.limit (P.pre nest.now.parameters) (P.post nest.now.parameters) }
    requires blocks { NestsBlock nest.now.limit (B.pre nest.now.block) (B.post nest.now.block) }
    requires within { depth ≤ nest.now.limit }
    ensures { GivesHigh view.stmt height.stmt_height depth
        (tried (mapped t.function_stmt (local_function_at depth)) (mapped t.variables_stmt (variables_at depth)) cursor.old) result cursor.new }
{
    let mut second = cursor.fork();
    match function_stmt(nest, cursor, depth) {
        Ok(found) => Ok(found),
        Err(ReadFault::Memory) => Err(ReadFault::Memory),
        Err(ReadFault::Stuck) => {
            let variables = variables_stmt(nest, &mut second, depth);
            settle(cursor, &second, variables.is_ok());
            variables
        }
    }
}

/// Reads a declaration among statements (ECMA-408, 17 Statements).
#[tactic(auto, unfolding(syntax_readers::specs::Statements::declaration))]
pub fn declaration<
    E: Fn(Global, &mut Cursor<'_>, usize, bool) -> Result<(OpenExpr, usize), ReadFault>,
    P: Fn(Global, &mut Cursor<'_>, usize) -> Result<(Parameters, usize), ReadFault>,
    B: Fn(Global, &mut Cursor<'_>, usize) -> Result<(Block, usize), ReadFault>,
>(nest: &Inside<E, P, B>, cursor: &mut Cursor<'_>, depth: usize) -> Result<(Stmt, usize), ReadFault>
    requires nests { NestsExpr nest.now.limit (E.pre nest.now.expr) (E.post nest.now.expr) }
    requires parameters { NestsParameters nest.now.limit (P.pre nest.now.parameters) (P.post nest.now.parameters) }
    requires blocks { NestsBlock nest.now.limit (B.pre nest.now.block) (B.post nest.now.block) }
    requires within { depth ≤ nest.now.limit }
    ensures { GivesHigh view.stmt height.stmt_height depth
        (spec.declaration (nodes_at depth) cursor.old) result cursor.new }
{
    if sees_variables(cursor) {
        return variables_stmt(nest, cursor, depth);
    }
    function_or_variables(nest, cursor, depth)
}
