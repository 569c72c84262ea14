// Conditionals (ECMA-408, 16.20 Conditional).
ghost use Rattle.std.specs.Prelude.{◌≡◌, ◌-◌, ◌<◌, ◌≤◌, false};
ghost use Rattle.dart_tree.specs.Depth as height;
ghost use Rattle.dart_tree.specs.View as view;
ghost use Rattle.grammar_laws.specs.Halves.{strict};
ghost use Rattle.token_cursor.specs.Gives.{GivesHigh};
ghost use Rattle.parse_nest.specs.Nests.{NestsExpr};
ghost use Rattle.parse_nest.specs.Stages.{expr_at};
ghost use Rattle.parse_unary.specs.Views.{open_operand, open_operand_height};
ghost use Rattle.parse_row.specs.Rows as spec;

use crate::operators::chooses;
use dart_node::make::expression as make;
use dart_token::sign::Sign;
use dart_tree::expression::{Expr, Operand};
use dart_tree::parameter::Parameters;
use dart_tree::statement::Block;
use parse_nest::inside::{Inside, OpenExpr};
use parse_unary::unary::OpenOperand;
use std::alloc::Global;
use token_cursor::cursor::Cursor;
use token_cursor::error::ReadFault;

// An expression without cascades behind which no half of an operator stands.
fn closed_without<
    E: Fn(Global, &mut Cursor<'_>, usize, bool) -> Result<(OpenExpr, usize), ReadFault>,
    P: Fn(Global, &mut Cursor<'_>, usize) -> Result<(Parameters, usize), ReadFault>,
    B: Fn(Global, &mut Cursor<'_>, usize) -> Result<(Block, usize), ReadFault>,
>(nest: &Inside<E, P, B>, cursor: &mut Cursor<'_>, depth: usize) -> Result<(Expr, usize), ReadFault>
    requires nests { NestsExpr nest.now.limit (E.pre nest.now.expr) (E.post nest.now.expr) }
    requires within { depth ≤ nest.now.limit }
    ensures { GivesHigh view.expr height.expr_height depth (strict (expr_at depth false) cursor.old) result cursor.new }
{
    let ((value, half), high) = nest.open_expr(cursor, depth, false)?;
    if half.is_some() {
        drop(value);
        return Err(ReadFault::Stuck);
    }
    Ok((value, high))
}

// Behind a condition, `?` and `:` with their expressions.
#[inline(never)]
#[tactic(auto, unfolding(crate::specs::Rows::choice_behind, dart_tree::specs::Depth::operand_height))]
fn choice<
    E: Fn(Global, &mut Cursor<'_>, usize, bool) -> Result<(OpenExpr, usize), ReadFault>,
    P: Fn(Global, &mut Cursor<'_>, usize) -> Result<(Parameters, usize), ReadFault>,
    B: Fn(Global, &mut Cursor<'_>, usize) -> Result<(Block, usize), ReadFault>,
>(
    nest: &Inside<E, P, B>,
    cursor: &mut Cursor<'_>,
    depth: usize,
    first: Operand,
    tall: usize,
) -> Result<(OpenOperand, usize), ReadFault>
    requires nests { NestsExpr nest.now.limit (E.pre nest.now.expr) (E.post nest.now.expr) }
    requires within { depth ≤ nest.now.limit }
    requires tall { tall ≡ height.operand_height (view.operand first) }
    requires low { tall < depth }
    ensures { GivesHigh open_operand open_operand_height depth (spec.choice_behind (depth - 1) (view.operand first) cursor.old) result cursor.new }
{
    let question = cursor.expect(Sign::Question)?;
    let (value, high) = closed_without(nest, cursor, depth - 1)?;
    let colon = cursor.expect(Sign::Colon)?;
    let ((other, half), higher) = nest.open_expr(cursor, depth - 1, false)?;
    let operand = make::conditional(nest.alloc, first, question, value, colon, other)?;
    Ok(((operand, half), tall.max(high.max(higher)) + 1))
}

/// Reads a conditional, or its condition alone (ECMA-408, 16.20 Conditional).
#[tactic(auto, unfolding(crate::specs::Rows::choice_row))]
pub fn conditional<
    E: Fn(Global, &mut Cursor<'_>, usize, bool) -> Result<(OpenExpr, usize), ReadFault>,
    P: Fn(Global, &mut Cursor<'_>, usize) -> Result<(Parameters, usize), ReadFault>,
    B: Fn(Global, &mut Cursor<'_>, usize) -> Result<(Block, usize), ReadFault>,
>(
    nest: &Inside<E, P, B>,
    cursor: &mut Cursor<'_>,
    depth: usize,
    first: OpenOperand,
    tall: usize,
) -> Result<(OpenOperand, usize), ReadFault>
    requires nests { NestsExpr nest.now.limit (E.pre nest.now.expr) (E.post nest.now.expr) }
    requires within { depth ≤ nest.now.limit }
    requires tall { tall ≡ height.operand_height (view.operand first.0) }
    requires low { tall ≤ depth }
    requires some { 0 < depth }
    ensures { GivesHigh open_operand open_operand_height depth (spec.choice_row depth (depth - 1) (open_operand first) cursor.old) result cursor.new }
{
    if !chooses(cursor, depth, &first, tall) {
        return Ok((first, tall));
    }
    let (operand, _half) = first;
    choice(nest, cursor, depth, operand, tall)
}
