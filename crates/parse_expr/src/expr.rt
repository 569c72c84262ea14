// Expressions (ECMA-408, 16 Expressions).
ghost use Rattle.std.specs.Prelude.{◌≡◌, ◌≤◌, ◌<◌, ◌+◌};
ghost use Rattle.dart_tree.specs.Depth as height;
ghost use Rattle.dart_tree.specs.Tree as t;
ghost use Rattle.dart_tree.specs.View as view;
ghost use Rattle.token_cursor.specs.Gives.{GivesHigh};
ghost use Rattle.syntax_readers.specs.Expressions as spec;
ghost use Rattle.parse_nest.specs.Nests.{NestsExpr, NestsParameters, NestsBlock};
ghost use Rattle.parse_nest.specs.Open.{open_expr, open_expr_height};
ghost use Rattle.parse_nest.specs.Stages.{expr_at, exprs_at, levels_at};
ghost use Rattle.parse_unary.specs.Views.{open_operand, open_operand_height};
ghost use Rattle.parse_expr.specs.Views.{sees_cascades, sees_value, cascades_behind, value_behind, behind, operand_first, open_cascaded, open_cascaded_height};

use crate::assignment::{assignment, sees_assignment};
use crate::cascade::cascades;
use dart_base::place::Place;
use dart_node::make::expression as make;
use dart_token::sign::Sign;
use dart_token::word::Word;
use dart_tree::expression::{Cascade, Expr, Operand};
use dart_tree::parameter::Parameters;
use dart_tree::statement::Block;
use parse_edge::edge::{DOTS, leaves};
use parse_nest::inside::{Inside, OpenExpr};
use parse_row::operators::half_behind;
use parse_row::rows::row;
use parse_unary::target::assigns;
use parse_unary::unary::OpenOperand;
use std::alloc::Global;
use token_cursor::cursor::Cursor;
use token_cursor::error::ReadFault;

/// How many rows of operators there are.
const ROWS: usize = 11;

/// An operand and the cascades behind it, with the half of an operator behind them, if one was read.
pub type OpenCascaded = ((Operand, Vec<Cascade>), Option<Place>);

// An operand, and the half of an operator behind what may be assigned.
fn opened<
    E: Fn(Global, &mut Cursor<'_>, usize, bool) -> Result<(OpenExpr, usize), ReadFault>,
    P: Fn(Global, &mut Cursor<'_>, usize) -> Result<(Parameters, usize), ReadFault>,
    B: Fn(Global, &mut Cursor<'_>, usize) -> Result<(Block, usize), ReadFault>,
>(
    nest: &Inside<E, P, B>,
    cursor: &mut Cursor<'_>,
    depth: usize,
) -> Result<(OpenOperand, usize), ReadFault>
    requires nests { NestsExpr nest.now.limit (E.pre nest.now.expr) (E.post nest.now.expr) }
    requires parameters { NestsParameters nest.now.limit (P.pre nest.now.parameters) (P.post nest.now.parameters) }
    requires blocks { NestsBlock nest.now.limit (B.pre nest.now.block) (B.post nest.now.block) }
    requires within { depth ≤ nest.now.limit }
    ensures { GivesHigh open_operand open_operand_height depth (spec.opened (levels_at depth) cursor.old) result cursor.new }
{
    let ((operand, half), height) = row(nest, cursor, depth, ROWS)?;
    let may = assigns(&operand);
    let half = half_behind(cursor, may, half);
    Ok(((operand, half), height))
}

// Whether cascades come that the operand before them leaves.
fn sees_cascades(cursor: &Cursor<'_>, operand: &Operand, half: Option<Place>) -> bool
    ensures { result ≡ sees_cascades (view.operand operand.now, half) cursor.now }
{
    match half {
        None => cursor.sees(Sign::DotDot) && leaves(DOTS, operand),
        Some(_) => false,
    }
}

// Whether what is assigned to the operand comes.
#[tactic(auto, using(crate::proofs::Behind::given_is))]
fn sees_value(cursor: &Cursor<'_>, operand: &Operand, half: Option<Place>) -> bool
    ensures { result ≡ sees_value (view.operand operand.now, half) cursor.now }
{
    assigns(operand) && sees_assignment(cursor, half)
}

// An operand with cascades behind it.
#[inline(never)]
fn with_cascades<
    E: Fn(Global, &mut Cursor<'_>, usize, bool) -> Result<(OpenExpr, usize), ReadFault>,
    P: Fn(Global, &mut Cursor<'_>, usize) -> Result<(Parameters, usize), ReadFault>,
    B: Fn(Global, &mut Cursor<'_>, usize) -> Result<(Block, usize), ReadFault>,
>(
    nest: &Inside<E, P, B>,
    cursor: &mut Cursor<'_>,
    depth: usize,
    operand: Operand,
    tall: usize,
) -> Result<(OpenExpr, usize), ReadFault>
    requires nests { NestsExpr nest.now.limit (E.pre nest.now.expr) (E.post nest.now.expr) }
    requires within { depth ≤ nest.now.limit }
    requires room { depth + 1 < 18446744073709551616 }
    requires high { tall ≡ height.operand_height (view.operand operand) }
    requires low { tall ≤ depth }
    ensures { GivesHigh open_expr open_expr_height (depth + 1) (cascades_behind depth (view.operand operand) cursor.old) result cursor.new }
{
    let ((found, half), height) = cascades(nest, cursor, depth)?;
    Ok(((make::plain(operand, found), half), tall.max(height) + 1))
}

// An operand to which something is assigned.
#[inline(never)]
fn with_value<
    E: Fn(Global, &mut Cursor<'_>, usize, bool) -> Result<(OpenExpr, usize), ReadFault>,
    P: Fn(Global, &mut Cursor<'_>, usize) -> Result<(Parameters, usize), ReadFault>,
    B: Fn(Global, &mut Cursor<'_>, usize) -> Result<(Block, usize), ReadFault>,
>(
    nest: &Inside<E, P, B>,
    cursor: &mut Cursor<'_>,
    depth: usize,
    cascades: bool,
    target: OpenOperand,
    tall: usize,
) -> Result<(OpenExpr, usize), ReadFault>
    requires nests { NestsExpr nest.now.limit (E.pre nest.now.expr) (E.post nest.now.expr) }
    requires within { depth ≤ nest.now.limit }
    requires room { depth + 1 < 18446744073709551616 }
    requires high { tall ≡ open_operand_height (open_operand target) }
    requires low { tall ≤ depth }
    ensures { GivesHigh open_expr open_expr_height (depth + 1) (value_behind depth cascades (open_operand target) cursor.old) result cursor.new }
{
    let (operand, half) = target;
    let ((operator, (value, half)), height) = assignment(nest, cursor, depth, half, cascades)?;
    let expr = make::assign(nest.alloc, operand, operator, value)?;
    Ok(((expr, half), tall.max(height) + 1))
}

// An expression of an operand alone.
fn plain_expr(alloc: Global, operand: Operand) -> Expr
    ensures same { view.expr result ≡ t.plain (view.operand operand) t.no_cascades }
    ensures high { height.expr_height (view.expr result) ≡ height.operand_height (view.operand operand) + 1 }
{
    make::plain(operand, Vec::new(alloc))
}

// What stands behind the first operand of an expression.
fn behind<
    E: Fn(Global, &mut Cursor<'_>, usize, bool) -> Result<(OpenExpr, usize), ReadFault>,
    P: Fn(Global, &mut Cursor<'_>, usize) -> Result<(Parameters, usize), ReadFault>,
    B: Fn(Global, &mut Cursor<'_>, usize) -> Result<(Block, usize), ReadFault>,
>(
    nest: &Inside<E, P, B>,
    cursor: &mut Cursor<'_>,
    depth: usize,
    cascades: bool,
    first: OpenOperand,
    tall: usize,
) -> Result<(OpenExpr, usize), ReadFault>
    requires nests { NestsExpr nest.now.limit (E.pre nest.now.expr) (E.post nest.now.expr) }
    requires within { depth ≤ nest.now.limit }
    requires room { depth + 1 < 18446744073709551616 }
    requires high { tall ≡ open_operand_height (open_operand first) }
    requires low { tall ≤ depth }
    ensures { GivesHigh open_expr open_expr_height (depth + 1) (behind depth cascades (open_operand first) cursor.old) result cursor.new }
{
    let (operand, half) = first;
    if cascades && sees_cascades(cursor, &operand, half) {
        return with_cascades(nest, cursor, depth, operand, tall);
    }
    if sees_value(cursor, &operand, half) {
        return with_value(nest, cursor, depth, cascades, (operand, half), tall);
    }
    Ok(((plain_expr(nest.alloc, operand), half), tall + 1))
}

// An operand and what stands behind it.
fn operand_first<
    E: Fn(Global, &mut Cursor<'_>, usize, bool) -> Result<(OpenExpr, usize), ReadFault>,
    P: Fn(Global, &mut Cursor<'_>, usize) -> Result<(Parameters, usize), ReadFault>,
    B: Fn(Global, &mut Cursor<'_>, usize) -> Result<(Block, usize), ReadFault>,
>(
    nest: &Inside<E, P, B>,
    cursor: &mut Cursor<'_>,
    depth: usize,
    cascades: bool,
) -> Result<(OpenExpr, usize), ReadFault>
    requires nests { NestsExpr nest.now.limit (E.pre nest.now.expr) (E.post nest.now.expr) }
    requires parameters { NestsParameters nest.now.limit (P.pre nest.now.parameters) (P.post nest.now.parameters) }
    requires blocks { NestsBlock nest.now.limit (B.pre nest.now.block) (B.post nest.now.block) }
    requires within { depth ≤ nest.now.limit }
    requires room { depth + 1 < 18446744073709551616 }
    ensures { GivesHigh open_expr open_expr_height (depth + 1) (operand_first depth cascades cursor.old) result cursor.new }
{
    let (first, tall) = opened(nest, cursor, depth)?;
    behind(nest, cursor, depth, cascades, first, tall)
}

// `throw` and what is thrown.
#[inline(never)]
#[tactic(auto, unfolding(syntax_readers::specs::Expressions::throw, dart_tree::specs::Depth::expr_height))]
fn throw<
    E: Fn(Global, &mut Cursor<'_>, usize, bool) -> Result<(OpenExpr, usize), ReadFault>,
    P: Fn(Global, &mut Cursor<'_>, usize) -> Result<(Parameters, usize), ReadFault>,
    B: Fn(Global, &mut Cursor<'_>, usize) -> Result<(Block, usize), ReadFault>,
>(
    nest: &Inside<E, P, B>,
    cursor: &mut Cursor<'_>,
    depth: usize,
) -> Result<(OpenExpr, usize), ReadFault>
    requires nests { NestsExpr nest.now.limit (E.pre nest.now.expr) (E.post nest.now.expr) }
    requires within { depth ≤ nest.now.limit }
    requires room { depth + 1 < 18446744073709551616 }
    ensures { GivesHigh open_expr open_expr_height (depth + 1) (spec.throw (exprs_at depth) cursor.old) result cursor.new }
{
    let word = cursor.expect_word(Word::Throw)?;
    let ((value, half), height) = nest.open_expr(cursor, depth, true)?;
    let expr = make::throw(nest.alloc, word, value)?;
    Ok(((expr, half), height + 1))
}

/// Reads an expression with one node more above one another than those inside it, or a half that stands behind it too, with
/// cascades or without (ECMA-408, 16 Expressions).
pub fn expr_over<
    E: Fn(Global, &mut Cursor<'_>, usize, bool) -> Result<(OpenExpr, usize), ReadFault>,
    P: Fn(Global, &mut Cursor<'_>, usize) -> Result<(Parameters, usize), ReadFault>,
    B: Fn(Global, &mut Cursor<'_>, usize) -> Result<(Block, usize), ReadFault>,
>(
    nest: &Inside<E, P, B>,
    cursor: &mut Cursor<'_>,
    depth: usize,
    cascades: bool,
) -> Result<(OpenExpr, usize), ReadFault>
    requires nests { NestsExpr nest.now.limit (E.pre nest.now.expr) (E.post nest.now.expr) }
    requires parameters { NestsParameters nest.now.limit (P.pre nest.now.parameters) (P.post nest.now.parameters) }
    requires blocks { NestsBlock nest.now.limit (B.pre nest.now.block) (B.post nest.now.block) }
    requires within { depth ≤ nest.now.limit }
    requires room { depth + 1 < 18446744073709551616 }
    ensures { GivesHigh open_expr open_expr_height (depth + 1) (expr_at (depth + 1) cascades cursor.old) result cursor.new }
{
    if cursor.sees_word(Word::Throw) {
        return throw(nest, cursor, depth);
    }
    operand_first(nest, cursor, depth, cascades)
}

/// Reads an operand and cascades behind it, as an initialiser has them (ECMA-408, 10.6.1 Generative Constructors).
pub fn cascaded_over<
    E: Fn(Global, &mut Cursor<'_>, usize, bool) -> Result<(OpenExpr, usize), ReadFault>,
    P: Fn(Global, &mut Cursor<'_>, usize) -> Result<(Parameters, usize), ReadFault>,
    B: Fn(Global, &mut Cursor<'_>, usize) -> Result<(Block, usize), ReadFault>,
>(
    nest: &Inside<E, P, B>,
    cursor: &mut Cursor<'_>,
    depth: usize,
) -> Result<(OpenCascaded, usize), ReadFault>
    requires nests { NestsExpr nest.now.limit (E.pre nest.now.expr) (E.post nest.now.expr) }
    requires parameters { NestsParameters nest.now.limit (P.pre nest.now.parameters) (P.post nest.now.parameters) }
    requires blocks { NestsBlock nest.now.limit (B.pre nest.now.block) (B.post nest.now.block) }
    requires within { depth ≤ nest.now.limit }
    ensures { GivesHigh open_cascaded open_cascaded_height depth (spec.cascaded_over (exprs_at depth) (levels_at depth) cursor.old) result cursor.new }
{
    let ((operand, half), tall) = row(nest, cursor, depth, ROWS)?;
    if !sees_cascades(cursor, &operand, half) {
        return Ok((((operand, Vec::new(nest.alloc)), half), tall));
    }
    let ((found, half), height) = cascades(nest, cursor, depth)?;
    Ok((((operand, found), half), tall.max(height)))
}
