// Rows of operators, one over the other (ECMA-408, 16.20 Conditional back to 16.29 Unary Expressions).
ghost use Rattle.std.specs.Prelude.{◌≡◌, ◌+◌, ◌-◌, ◌<◌, ◌≤◌};
ghost use Rattle.dart_tree.specs.Depth as height;
ghost use Rattle.dart_tree.specs.View as view;
ghost use Rattle.token_cursor.specs.Gives.{GivesHigh};
ghost use Rattle.parse_nest.specs.Nests.{NestsExpr, NestsParameters, NestsBlock};
ghost use Rattle.parse_unary.specs.Views.{open_operand, open_operand_height, row_reader};
ghost use Rattle.parse_row.specs.Lower.{ReadsRows};
ghost use Rattle.parse_row.specs.Rows as spec;

use crate::choice::conditional;
use crate::lower::Lower;
use crate::operators::{CHOICE_ROW, COMPARE_ROW, EQUAL_ROW, SHIFT_ROW, passes_rows};
use dart_tree::parameter::Parameters;
use dart_tree::statement::Block;
use parse_nest::inside::{Inside, OpenExpr};
use parse_unary::unary::{OpenOperand, unary};
use std::alloc::Global;
use token_cursor::cursor::Cursor;
use token_cursor::error::ReadFault;

// What the next row gives behind an operand of this one.
fn step<
    E: Fn(Global, &mut Cursor<'_>, usize, bool) -> Result<(OpenExpr, usize), ReadFault>,
    P: Fn(Global, &mut Cursor<'_>, usize) -> Result<(Parameters, usize), ReadFault>,
    B: Fn(Global, &mut Cursor<'_>, usize) -> Result<(Block, usize), ReadFault>,
    L: Fn(&mut Cursor<'_>, usize) -> Result<(OpenOperand, usize), ReadFault>,
>(
    nest: &Inside<E, P, B>,
    lower: &Lower<L>,
    cursor: &mut Cursor<'_>,
    depth: usize,
    row: usize,
    first: OpenOperand,
    tall: usize,
) -> Result<(OpenOperand, usize), ReadFault>
    requires nests { NestsExpr nest.now.limit (E.pre nest.now.expr) (E.post nest.now.expr) }
    requires within { depth ≤ nest.now.limit }
    requires reads { ReadsRows lower.now.depth (L.pre lower.now.read) (L.post lower.now.read) }
    requires under { lower.now.depth + 1 ≡ depth }
    requires tall { tall ≡ height.operand_height (view.operand first.0) }
    requires low { tall ≤ depth }
    ensures { GivesHigh open_operand open_operand_height depth (spec.behind depth row (open_operand first) cursor.old) result cursor.new }
{
    if row == SHIFT_ROW {
        return lower.shift(cursor, depth, row, first, tall);
    }
    if row == COMPARE_ROW {
        return lower.relational(cursor, depth, row, first, tall);
    }
    if row == EQUAL_ROW {
        return lower.equality(cursor, depth, row, first, tall);
    }
    if row == CHOICE_ROW {
        return conditional(nest, cursor, depth, first, tall);
    }
    lower.signed(cursor, depth, row, first, tall)
}

// An operand of the row of this number, over the rows with room for one node less.
fn climb<
    E: Fn(Global, &mut Cursor<'_>, usize, bool) -> Result<(OpenExpr, usize), ReadFault>,
    P: Fn(Global, &mut Cursor<'_>, usize) -> Result<(Parameters, usize), ReadFault>,
    B: Fn(Global, &mut Cursor<'_>, usize) -> Result<(Block, usize), ReadFault>,
    L: Fn(&mut Cursor<'_>, usize) -> Result<(OpenOperand, usize), ReadFault>,
>(
    nest: &Inside<E, P, B>,
    lower: &Lower<L>,
    cursor: &mut Cursor<'_>,
    depth: usize,
    row: usize,
) -> Result<(OpenOperand, usize), ReadFault>
    requires nests { NestsExpr nest.now.limit (E.pre nest.now.expr) (E.post nest.now.expr) }
    requires parameters { NestsParameters nest.now.limit (P.pre nest.now.parameters) (P.post nest.now.parameters) }
    requires blocks { NestsBlock nest.now.limit (B.pre nest.now.block) (B.post nest.now.block) }
    requires within { depth ≤ nest.now.limit }
    requires reads { ReadsRows lower.now.depth (L.pre lower.now.read) (L.post lower.now.read) }
    requires under { lower.now.depth + 1 ≡ depth }
    ensures { GivesHigh open_operand open_operand_height depth (row_reader depth row cursor.old) result cursor.new }
{
    let (first, high) = unary(nest, cursor, depth)?;
    if passes_rows(cursor, &first) {
        return Ok((first, high));
    }
    let mut operand = first;
    let mut tall = high;
    for i in 0..row {
        let (above, higher) = step(nest, lower, cursor, depth, i, operand, tall)?;
        operand = above;
        tall = higher;
    }
    Ok((operand, tall))
}

// The same where there is no room for a node: what a unary expression is.
fn flat<
    E: Fn(Global, &mut Cursor<'_>, usize, bool) -> Result<(OpenExpr, usize), ReadFault>,
    P: Fn(Global, &mut Cursor<'_>, usize) -> Result<(Parameters, usize), ReadFault>,
    B: Fn(Global, &mut Cursor<'_>, usize) -> Result<(Block, usize), ReadFault>,
>(
    nest: &Inside<E, P, B>,
    cursor: &mut Cursor<'_>,
    row: usize,
) -> Result<(OpenOperand, usize), ReadFault>
    requires nests { NestsExpr nest.now.limit (E.pre nest.now.expr) (E.post nest.now.expr) }
    requires parameters { NestsParameters nest.now.limit (P.pre nest.now.parameters) (P.post nest.now.parameters) }
    requires blocks { NestsBlock nest.now.limit (B.pre nest.now.block) (B.post nest.now.block) }
    ensures { GivesHigh open_operand open_operand_height 0 (row_reader 0 row cursor.old) result cursor.new }
{
    unary(nest, cursor, 0)
}

/// Reads an operand of the row of this number, from unary expressions at 0 to conditionals at 11, with at most so many nodes
/// above one another (ECMA-408, 16.20 Conditional to 16.29 Unary Expressions).
pub fn row<
    E: Fn(Global, &mut Cursor<'_>, usize, bool) -> Result<(OpenExpr, usize), ReadFault>,
    P: Fn(Global, &mut Cursor<'_>, usize) -> Result<(Parameters, usize), ReadFault>,
    B: Fn(Global, &mut Cursor<'_>, usize) -> Result<(Block, usize), ReadFault>,
>(
    nest: &Inside<E, P, B>,
    cursor: &mut Cursor<'_>,
    depth: usize,
    row: usize,
) -> Result<(OpenOperand, usize), ReadFault>
    requires nests { NestsExpr nest.now.limit (E.pre nest.now.expr) (E.post nest.now.expr) }
    requires parameters { NestsParameters nest.now.limit (P.pre nest.now.parameters) (P.post nest.now.parameters) }
    requires blocks { NestsBlock nest.now.limit (B.pre nest.now.block) (B.post nest.now.block) }
    requires within { depth ≤ nest.now.limit }
    ensures { GivesHigh open_operand open_operand_height depth (row_reader depth row cursor.old) result cursor.new }
{
    if depth == 0 {
        return flat(nest, cursor, row);
    }
    let under = depth - 1;
    let read = |cursor: &mut Cursor<'_>, row: usize| -> Result<(OpenOperand, usize), ReadFault>
        requires nests { NestsExpr nest.now.limit (E.pre nest.now.expr) (E.post nest.now.expr) }
        requires parameters { NestsParameters nest.now.limit (P.pre nest.now.parameters) (P.post nest.now.parameters) }
        requires blocks { NestsBlock nest.now.limit (B.pre nest.now.block) (B.post nest.now.block) }
        requires within { under ≤ nest.now.limit }
        ensures { GivesHigh open_operand open_operand_height under (row_reader under row cursor.old) result cursor.new }
    { self::row(nest, cursor, under, row) };
    let lower = Lower {
        alloc: nest.alloc,
        depth: under,
        read,
    };
    climb(nest, &lower, cursor, depth, row)
}
