// Function literals (ECMA-408, 16.10 Function Expressions).
ghost use Rattle.std.specs.Prelude.{◌≤◌, ◌<◌, ◌+◌, true};
ghost use Rattle.token_cursor.specs.Gives.{GivesHigh};
ghost use Rattle.parse_nest.specs.Nests.{NestsExpr, NestsParameters, NestsBlock};
ghost use Rattle.parse_nest.specs.Stages.{expr_at, block_at, exprs_at};
ghost use Rattle.syntax_readers.specs.Primaries as spec;
ghost use Rattle.parse_primary.specs.Views.{open_body, open_body_height, open_primary, open_primary_height, arrow_body, braced_body};

use crate::open::OpenPrimary;
use dart_base::place::Place;
use dart_node::make::expression::function_literal;
use dart_node::make::statement as make;
use dart_token::sign::Sign;
use dart_tree::parameter::Parameters;
use dart_tree::statement::{Block, Body};
use parse_nest::inside::{Inside, OpenExpr};
use std::alloc::Global;
use token_cursor::cursor::Cursor;
use token_cursor::error::ReadFault;

// A body with the half of an operator behind it, if one was read.
type OpenBody = (Body, Option<Place>);

// `=>` and an expression.
#[tactic(auto, unfolding(dart_tree::specs::Depth::body_height))]
fn arrow_body<
    E: Fn(Global, &mut Cursor<'_>, usize, bool) -> Result<(OpenExpr, usize), ReadFault>,
    P: Fn(Global, &mut Cursor<'_>, usize) -> Result<(Parameters, usize), ReadFault>,
    B: Fn(Global, &mut Cursor<'_>, usize) -> Result<(Block, usize), ReadFault>,
>(
    nest: &Inside<E, P, B>,
    cursor: &mut Cursor<'_>,
    depth: usize,
) -> Result<(OpenBody, usize), ReadFault>
    requires nests { NestsExpr nest.now.limit (E.pre nest.now.expr) (E.post nest.now.expr) }
    requires within { depth ≤ nest.now.limit }
    ensures { GivesHigh open_body open_body_height depth (arrow_body (expr_at depth true) cursor.old) result cursor.new }
{
    let arrow = cursor.expect(Sign::Arrow)?;
    let ((value, half), height) = nest.open_expr(cursor, depth, true)?;
    Ok(((make::arrow(nest.alloc, arrow, value, None)?, half), height))
}

// A block.
#[tactic(auto, unfolding(dart_tree::specs::Depth::body_height))]
fn braced_body<
    E: Fn(Global, &mut Cursor<'_>, usize, bool) -> Result<(OpenExpr, usize), ReadFault>,
    P: Fn(Global, &mut Cursor<'_>, usize) -> Result<(Parameters, usize), ReadFault>,
    B: Fn(Global, &mut Cursor<'_>, usize) -> Result<(Block, usize), ReadFault>,
>(
    nest: &Inside<E, P, B>,
    cursor: &mut Cursor<'_>,
    depth: usize,
) -> Result<(OpenBody, usize), ReadFault>
    requires blocks { NestsBlock nest.now.limit (B.pre nest.now.block) (B.post nest.now.block) }
    requires within { depth ≤ nest.now.limit }
    ensures { GivesHigh open_body open_body_height depth (braced_body (block_at depth) cursor.old) result cursor.new }
{
    let (block, height) = nest.block(cursor, depth)?;
    Ok(((make::block_body(block), None), height))
}

// One of them.
#[tactic(auto, unfolding(syntax_readers::specs::Primaries::literal_body))]
fn literal_body<
    E: Fn(Global, &mut Cursor<'_>, usize, bool) -> Result<(OpenExpr, usize), ReadFault>,
    P: Fn(Global, &mut Cursor<'_>, usize) -> Result<(Parameters, usize), ReadFault>,
    B: Fn(Global, &mut Cursor<'_>, usize) -> Result<(Block, usize), ReadFault>,
>(
    nest: &Inside<E, P, B>,
    cursor: &mut Cursor<'_>,
    depth: usize,
) -> Result<(OpenBody, usize), ReadFault>
    requires nests { NestsExpr nest.now.limit (E.pre nest.now.expr) (E.post nest.now.expr) }
    requires blocks { NestsBlock nest.now.limit (B.pre nest.now.block) (B.post nest.now.block) }
    requires within { depth ≤ nest.now.limit }
    ensures { GivesHigh open_body open_body_height depth (spec.literal_body (expr_at depth true) (block_at depth) cursor.old) result cursor.new }
{
    if cursor.sees(Sign::Arrow) {
        return arrow_body(nest, cursor, depth);
    }
    braced_body(nest, cursor, depth)
}

// A function literal, over the nodes inside.
#[tactic(auto, unfolding(syntax_readers::specs::Primaries::function_literal_over, dart_tree::specs::Depth::primary_height))]
fn function_over<
    E: Fn(Global, &mut Cursor<'_>, usize, bool) -> Result<(OpenExpr, usize), ReadFault>,
    P: Fn(Global, &mut Cursor<'_>, usize) -> Result<(Parameters, usize), ReadFault>,
    B: Fn(Global, &mut Cursor<'_>, usize) -> Result<(Block, usize), ReadFault>,
>(
    nest: &Inside<E, P, B>,
    cursor: &mut Cursor<'_>,
    depth: usize,
) -> Result<(OpenPrimary, usize), ReadFault>
    requires nests { NestsExpr nest.now.limit (E.pre nest.now.expr) (E.post nest.now.expr) }
    requires parameters { NestsParameters nest.now.limit (P.pre nest.now.parameters) (P.post nest.now.parameters) }
    requires blocks { NestsBlock nest.now.limit (B.pre nest.now.block) (B.post nest.now.block) }
    requires within { depth ≤ nest.now.limit }
    requires room { depth + 1 < 18446744073709551616 }
    ensures { GivesHigh open_primary open_primary_height (depth + 1) (spec.function_literal_over (exprs_at depth) cursor.old) result cursor.new }
{
    let (parameters, of_parameters) = nest.parameters(cursor, depth)?;
    let ((body, half), of_body) = literal_body(nest, cursor, depth)?;
    let literal = function_literal(nest.alloc, parameters, body)?;
    Ok(((literal, half), of_parameters.max(of_body) + 1))
}

/// Reads a function literal (ECMA-408, 16.10 Function Expressions).
#[inline(never)]
pub fn function<
    E: Fn(Global, &mut Cursor<'_>, usize, bool) -> Result<(OpenExpr, usize), ReadFault>,
    P: Fn(Global, &mut Cursor<'_>, usize) -> Result<(Parameters, usize), ReadFault>,
    B: Fn(Global, &mut Cursor<'_>, usize) -> Result<(Block, usize), ReadFault>,
>(
    nest: &Inside<E, P, B>,
    cursor: &mut Cursor<'_>,
    depth: usize,
) -> Result<(OpenPrimary, usize), ReadFault>
    requires nests { NestsExpr nest.now.limit (E.pre nest.now.expr) (E.post nest.now.expr) }
    requires parameters { NestsParameters nest.now.limit (P.pre nest.now.parameters) (P.post nest.now.parameters) }
    requires blocks { NestsBlock nest.now.limit (B.pre nest.now.block) (B.post nest.now.block) }
    requires within { depth ≤ nest.now.limit }
    ensures { GivesHigh open_primary open_primary_height depth ((exprs_at depth).function cursor.old) result cursor.new }
{
    if depth == 0 {
        return Err(ReadFault::Stuck);
    }
    function_over(nest, cursor, depth - 1)
}
