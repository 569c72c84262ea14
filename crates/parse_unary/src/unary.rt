// Unary expressions (ECMA-408, 16.29 Unary Expressions).
ghost use Rattle.std.specs.Prelude.{◌≤◌, ◌<◌, ◌-◌, ◌∷◌, []};
ghost use Rattle.dart_token.specs.declared.sign.Sign.TheVariants as s;
ghost use Rattle.token_cursor.specs.Gives.{GivesHigh};
ghost use Rattle.syntax_readers.specs.Levels as spec;
ghost use Rattle.parse_nest.specs.Nests.{NestsExpr, NestsParameters, NestsBlock};
ghost use Rattle.parse_unary.specs.Views.{open_operand, open_operand_height, row_reader, selected_reader, target_reader};

use crate::operator::{one_of, sees_any};
use crate::postfix::{postfix, selected_target, whole_selected};
use crate::target::is_bare;
use dart_base::place::Place;
use dart_node::make::expression as make;
use dart_token::sign::Sign;
use dart_tree::expression::Operand;
use dart_tree::parameter::Parameters;
use dart_tree::statement::Block;
use parse_nest::inside::{Inside, OpenExpr};
use std::alloc::Global;
use token_cursor::cursor::Cursor;
use token_cursor::error::ReadFault;

/// An operand with the half of an operator behind it, if one was read.
pub type OpenOperand = (Operand, Option<Place>);

/// `-` and `~`
pub const NEGATING: [Sign; 2] = [Sign::Minus, Sign::Tilde];
/// `++` and `--`
pub const STEPS: [Sign; 2] = [Sign::PlusPlus, Sign::MinusMinus];

/// Reads what may be assigned (ECMA-408, 16.32 Assignable Expressions).
pub fn target<
    E: Fn(Global, &mut Cursor<'_>, usize, bool) -> Result<(OpenExpr, usize), ReadFault>,
    P: Fn(Global, &mut Cursor<'_>, usize) -> Result<(Parameters, usize), ReadFault>,
    B: Fn(Global, &mut Cursor<'_>, usize) -> Result<(Block, usize), ReadFault>,
>(
    nest: &Inside<E, P, B>,
    cursor: &mut Cursor<'_>,
    depth: usize,
) -> Result<(OpenOperand, usize), ReadFault>
    requires nests { NestsExpr nest.now.limit (E.pre nest.now.expr) (E.post nest.now.expr) }
    requires parameters { NestsParameters nest.now.limit (P.pre nest.now.parameters) (P.post nest.now.parameters) }
    requires blocks { NestsBlock nest.now.limit (B.pre nest.now.block) (B.post nest.now.block) }
    requires within { depth ≤ nest.now.limit }
    ensures { GivesHigh open_operand open_operand_height depth (target_reader depth cursor.old) result cursor.new }
{
    selected_target(nest, cursor, depth)
}

// `++` or `--` before what may be assigned.
#[inline(never)]
#[tactic(auto, unfolding(syntax_readers::specs::Levels::prefixed, dart_tree::specs::Depth::operand_height))]
fn step_before<
    E: Fn(Global, &mut Cursor<'_>, usize, bool) -> Result<(OpenExpr, usize), ReadFault>,
    P: Fn(Global, &mut Cursor<'_>, usize) -> Result<(Parameters, usize), ReadFault>,
    B: Fn(Global, &mut Cursor<'_>, usize) -> Result<(Block, usize), ReadFault>,
>(
    nest: &Inside<E, P, B>,
    cursor: &mut Cursor<'_>,
    depth: usize,
) -> Result<(OpenOperand, usize), ReadFault>
    requires nests { NestsExpr nest.now.limit (E.pre nest.now.expr) (E.post nest.now.expr) }
    requires parameters { NestsParameters nest.now.limit (P.pre nest.now.parameters) (P.post nest.now.parameters) }
    requires blocks { NestsBlock nest.now.limit (B.pre nest.now.block) (B.post nest.now.block) }
    requires within { depth ≤ nest.now.limit }
    requires some { 0 < depth }
    ensures { GivesHigh open_operand open_operand_height depth (spec.prefixed spec.step_signs (target_reader (depth - 1)) cursor.old) result cursor.new }
{
    let operator = one_of(cursor, &STEPS)?;
    let ((operand, half), height) = target(nest, cursor, depth - 1)?;
    let tree = make::prefix(nest.alloc, operator, operand)?;
    Ok(((tree, half), height + 1))
}

// `-` or `~` before a unary expression.
#[cycle(unaries)]
#[inline(never)]
#[tactic(auto, unfolding(syntax_readers::specs::Levels::prefixed, dart_tree::specs::Depth::operand_height))]
fn negated<
    E: Fn(Global, &mut Cursor<'_>, usize, bool) -> Result<(OpenExpr, usize), ReadFault>,
    P: Fn(Global, &mut Cursor<'_>, usize) -> Result<(Parameters, usize), ReadFault>,
    B: Fn(Global, &mut Cursor<'_>, usize) -> Result<(Block, usize), ReadFault>,
>(
    nest: &Inside<E, P, B>,
    cursor: &mut Cursor<'_>,
    depth: usize,
) -> Result<(OpenOperand, usize), ReadFault>
    requires nests { NestsExpr nest.now.limit (E.pre nest.now.expr) (E.post nest.now.expr) }
    requires parameters { NestsParameters nest.now.limit (P.pre nest.now.parameters) (P.post nest.now.parameters) }
    requires blocks { NestsBlock nest.now.limit (B.pre nest.now.block) (B.post nest.now.block) }
    requires within { depth ≤ nest.now.limit }
    requires some { 0 < depth }
    ensures { GivesHigh open_operand open_operand_height depth (spec.prefixed spec.negating (row_reader (depth - 1) 0) cursor.old) result cursor.new }
{
    let operator = one_of(cursor, &NEGATING)?;
    let ((operand, half), height) = unary(nest, cursor, depth - 1)?;
    let tree = make::prefix(nest.alloc, operator, operand)?;
    Ok(((tree, half), height + 1))
}

// A unary expression other than `super` alone.
#[cycle(unaries)]
#[tactic(auto, unfolding(syntax_readers::specs::Levels::whole))]
fn whole<
    E: Fn(Global, &mut Cursor<'_>, usize, bool) -> Result<(OpenExpr, usize), ReadFault>,
    P: Fn(Global, &mut Cursor<'_>, usize) -> Result<(Parameters, usize), ReadFault>,
    B: Fn(Global, &mut Cursor<'_>, usize) -> Result<(Block, usize), ReadFault>,
>(
    nest: &Inside<E, P, B>,
    cursor: &mut Cursor<'_>,
    depth: usize,
) -> Result<(OpenOperand, usize), ReadFault>
    requires nests { NestsExpr nest.now.limit (E.pre nest.now.expr) (E.post nest.now.expr) }
    requires parameters { NestsParameters nest.now.limit (P.pre nest.now.parameters) (P.post nest.now.parameters) }
    requires blocks { NestsBlock nest.now.limit (B.pre nest.now.block) (B.post nest.now.block) }
    requires within { depth ≤ nest.now.limit }
    ensures { GivesHigh open_operand open_operand_height depth (spec.whole (row_reader depth 0) cursor.old) result cursor.new }
{
    let ((operand, half), height) = unary(nest, cursor, depth)?;
    if is_bare(&operand) {
        drop(operand);
        return Err(ReadFault::Stuck);
    }
    Ok(((operand, half), height))
}

// `!` before a unary expression.
#[cycle(unaries)]
#[inline(never)]
#[tactic(auto, unfolding(syntax_readers::specs::Levels::prefixed, dart_tree::specs::Depth::operand_height))]
fn inverted<
    E: Fn(Global, &mut Cursor<'_>, usize, bool) -> Result<(OpenExpr, usize), ReadFault>,
    P: Fn(Global, &mut Cursor<'_>, usize) -> Result<(Parameters, usize), ReadFault>,
    B: Fn(Global, &mut Cursor<'_>, usize) -> Result<(Block, usize), ReadFault>,
>(
    nest: &Inside<E, P, B>,
    cursor: &mut Cursor<'_>,
    depth: usize,
) -> Result<(OpenOperand, usize), ReadFault>
    requires nests { NestsExpr nest.now.limit (E.pre nest.now.expr) (E.post nest.now.expr) }
    requires parameters { NestsParameters nest.now.limit (P.pre nest.now.parameters) (P.post nest.now.parameters) }
    requires blocks { NestsBlock nest.now.limit (B.pre nest.now.block) (B.post nest.now.block) }
    requires within { depth ≤ nest.now.limit }
    requires some { 0 < depth }
    ensures { GivesHigh open_operand open_operand_height depth (spec.prefixed (s.Bang ∷ []) (spec.whole (row_reader (depth - 1) 0)) cursor.old) result cursor.new }
{
    let operator = one_of(cursor, &[Sign::Bang])?;
    let ((operand, half), height) = whole(nest, cursor, depth - 1)?;
    let tree = make::prefix(nest.alloc, operator, operand)?;
    Ok(((tree, half), height + 1))
}

// A unary expression where there is room for a node.
#[cycle(unaries)]
#[tactic(auto, unfolding(syntax_readers::specs::Levels::unary))]
fn roomy<
    E: Fn(Global, &mut Cursor<'_>, usize, bool) -> Result<(OpenExpr, usize), ReadFault>,
    P: Fn(Global, &mut Cursor<'_>, usize) -> Result<(Parameters, usize), ReadFault>,
    B: Fn(Global, &mut Cursor<'_>, usize) -> Result<(Block, usize), ReadFault>,
>(
    nest: &Inside<E, P, B>,
    cursor: &mut Cursor<'_>,
    depth: usize,
) -> Result<(OpenOperand, usize), ReadFault>
    requires nests { NestsExpr nest.now.limit (E.pre nest.now.expr) (E.post nest.now.expr) }
    requires parameters { NestsParameters nest.now.limit (P.pre nest.now.parameters) (P.post nest.now.parameters) }
    requires blocks { NestsBlock nest.now.limit (B.pre nest.now.block) (B.post nest.now.block) }
    requires within { depth ≤ nest.now.limit }
    requires some { 0 < depth }
    ensures { GivesHigh open_operand open_operand_height depth
        (spec.unary (spec.postfix depth (selected_reader depth)) (row_reader (depth - 1) 0) (target_reader (depth - 1)) cursor.old) result cursor.new }
{
    if sees_any(cursor, &NEGATING) {
        return negated(nest, cursor, depth);
    }
    if cursor.sees(Sign::Bang) {
        return inverted(nest, cursor, depth);
    }
    if sees_any(cursor, &STEPS) {
        return step_before(nest, cursor, depth);
    }
    postfix(nest, cursor, depth)
}

/// Reads a unary expression, or `super` alone where there is room for a node (ECMA-408, 16.29 Unary Expressions).
#[cycle(unaries)]
pub fn unary<
    E: Fn(Global, &mut Cursor<'_>, usize, bool) -> Result<(OpenExpr, usize), ReadFault>,
    P: Fn(Global, &mut Cursor<'_>, usize) -> Result<(Parameters, usize), ReadFault>,
    B: Fn(Global, &mut Cursor<'_>, usize) -> Result<(Block, usize), ReadFault>,
>(
    nest: &Inside<E, P, B>,
    cursor: &mut Cursor<'_>,
    depth: usize,
) -> Result<(OpenOperand, usize), ReadFault>
    requires nests { NestsExpr nest.now.limit (E.pre nest.now.expr) (E.post nest.now.expr) }
    requires parameters { NestsParameters nest.now.limit (P.pre nest.now.parameters) (P.post nest.now.parameters) }
    requires blocks { NestsBlock nest.now.limit (B.pre nest.now.block) (B.post nest.now.block) }
    requires within { depth ≤ nest.now.limit }
    ensures { GivesHigh open_operand open_operand_height depth (row_reader depth 0 cursor.old) result cursor.new }
{
    if depth == 0 {
        return whole_selected(nest, cursor, depth);
    }
    roomy(nest, cursor, depth)
}
