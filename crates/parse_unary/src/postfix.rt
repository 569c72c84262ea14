// Primaries with selectors behind them, and `++` and `--` behind those.
ghost use Rattle.std.specs.Prelude.{◌≡◌, ◌≤◌, ◌<◌, ◌&&◌, true, IfOk, None, Some};
ghost use Rattle.dart_tree.specs.Depth as height;
ghost use Rattle.dart_tree.specs.View as view;
ghost use Rattle.grammar_laws.specs.Readers.{starts};
ghost use Rattle.token_codes.specs.Codes.{class_of, sign_codes};
ghost use Rattle.token_cursor.specs.Gives.{GivesHigh};
ghost use Rattle.syntax_readers.specs.Levels as spec;
ghost use Rattle.parse_nest.specs.Nests.{NestsExpr, NestsParameters, NestsBlock};
ghost use Rattle.parse_unary.specs.Views.{open_operand, open_operand_height, left_to_selectors, selected_reader, selected_view, selected_height, GivesSelected};

use crate::operator::{one_of, sees_any};
use crate::target::{assigns, is_bare, primary_assigns, selectors_assign};
use crate::unary::{OpenOperand, STEPS};
use dart_base::place::Place;
use dart_node::make::expression as make;
use dart_token::sign::Sign;
use dart_tree::expression::{Operand, Primary, Selector};
use dart_tree::operator::Operator;
use dart_tree::parameter::Parameters;
use dart_tree::statement::Block;
use parse_edge::edge::primary_leaves;
use parse_edge::opens::Opens;
use parse_nest::inside::{Inside, OpenExpr};
use parse_primary::open::OpenPrimary;
use parse_primary::primary::primary;
use parse_primary::selectors::selectors;
use std::alloc::{AllocError, Global};
use token_cursor::cursor::Cursor;
use token_cursor::error::ReadFault;

// A primary with the half of an operator behind it, or with selectors.
type Selected = (OpenPrimary, Option<Vec<Selector>>);

// Whether a selector comes that this primary does not take itself.
#[tactic(auto, using(crate::proofs::Targets::left_is))]
fn leaves_selected(cursor: &Cursor<'_>, tree: &Primary) -> bool
    ensures { result ≡ starts class_of (left_to_selectors (view.primary tree.now)) cursor.now }
{
    (cursor.sees(Sign::Dot) && primary_leaves(Opens::Dot, tree))
        || (sees_any(cursor, &[Sign::LeftBracket, Sign::LeftParenthesis])
            && primary_leaves(Opens::Nothing, tree))
}

// Whether a selector comes that may stand behind this primary.
fn sees_selected(
    cursor: &Cursor<'_>,
    depth: usize,
    tree: &Primary,
    half: Option<Place>,
    tall: usize,
) -> bool
    requires { tall ≡ height.primary_height (view.primary tree.now) }
    ensures comes { result ≡ starts class_of (spec.selects depth (view.primary tree.now, half)) cursor.now }
    ensures low { result ≡ true → tall < depth }
{
    if half.is_some() || tall >= depth {
        return false;
    }
    leaves_selected(cursor, tree)
}

// A primary with selectors behind it, or alone.
fn selected<
    E: Fn(Global, &mut Cursor<'_>, usize, bool) -> Result<(OpenExpr, usize), ReadFault>,
    P: Fn(Global, &mut Cursor<'_>, usize) -> Result<(Parameters, usize), ReadFault>,
    B: Fn(Global, &mut Cursor<'_>, usize) -> Result<(Block, usize), ReadFault>,
>(
    nest: &Inside<E, P, B>,
    cursor: &mut Cursor<'_>,
    depth: usize,
) -> Result<(Selected, usize), ReadFault>
    requires nests { NestsExpr nest.now.limit (E.pre nest.now.expr) (E.post nest.now.expr) }
    requires parameters { NestsParameters nest.now.limit (P.pre nest.now.parameters) (P.post nest.now.parameters) }
    requires blocks { NestsBlock nest.now.limit (B.pre nest.now.block) (B.post nest.now.block) }
    requires within { depth ≤ nest.now.limit }
    ensures { GivesSelected depth (selected_reader depth cursor.old) result cursor.new }
{
    let ((first, half), tall) = primary(nest, cursor, depth)?;
    if !sees_selected(cursor, depth, &first, half, tall) {
        return Ok((((first, half), None), tall));
    }
    let (more, highest) = selectors(nest, cursor, depth - 1)?;
    Ok((((first, half), Some(more)), tall.max(highest) + 1))
}

// The operand of its parts.
#[tactic(auto, unfolding(dart_tree::specs::View::operand))]
fn joined(alloc: Global, parts: Selected) -> Result<OpenOperand, AllocError>
    ensures { IfOk result (λ x. open_operand x ≡ selected_view parts) }
{
    let ((first, half), more) = parts;
    match more {
        None => Ok((Operand::Primary(first), half)),
        Some(more) => {
            let operand = make::postfix(alloc, first, more, None)?;
            Ok((operand, None))
        }
    }
}

// The operand, unless it is `super` alone.
pub fn whole_selected<
    E: Fn(Global, &mut Cursor<'_>, usize, bool) -> Result<(OpenExpr, usize), ReadFault>,
    P: Fn(Global, &mut Cursor<'_>, usize) -> Result<(Parameters, usize), ReadFault>,
    B: Fn(Global, &mut Cursor<'_>, usize) -> Result<(Block, usize), ReadFault>,
>(
    nest: &Inside<E, P, B>,
    cursor: &mut Cursor<'_>,
    depth: usize,
) -> Result<(OpenOperand, usize), ReadFault>
    requires nests { NestsExpr nest.now.limit (E.pre nest.now.expr) (E.post nest.now.expr) }
    requires parameters { NestsParameters nest.now.limit (P.pre nest.now.parameters) (P.post nest.now.parameters) }
    requires blocks { NestsBlock nest.now.limit (B.pre nest.now.block) (B.post nest.now.block) }
    requires within { depth ≤ nest.now.limit }
    ensures { GivesHigh open_operand open_operand_height depth (spec.whole (selected_reader depth) cursor.old) result cursor.new }
{
    let (parts, tall) = selected(nest, cursor, depth)?;
    let (operand, half) = joined(nest.alloc, parts)?;
    if is_bare(&operand) {
        drop(operand);
        return Err(ReadFault::Stuck);
    }
    Ok(((operand, half), tall))
}

// The operand, if it may be assigned.
pub fn selected_target<
    E: Fn(Global, &mut Cursor<'_>, usize, bool) -> Result<(OpenExpr, usize), ReadFault>,
    P: Fn(Global, &mut Cursor<'_>, usize) -> Result<(Parameters, usize), ReadFault>,
    B: Fn(Global, &mut Cursor<'_>, usize) -> Result<(Block, usize), ReadFault>,
>(
    nest: &Inside<E, P, B>,
    cursor: &mut Cursor<'_>,
    depth: usize,
) -> Result<(OpenOperand, usize), ReadFault>
    requires nests { NestsExpr nest.now.limit (E.pre nest.now.expr) (E.post nest.now.expr) }
    requires parameters { NestsParameters nest.now.limit (P.pre nest.now.parameters) (P.post nest.now.parameters) }
    requires blocks { NestsBlock nest.now.limit (B.pre nest.now.block) (B.post nest.now.block) }
    requires within { depth ≤ nest.now.limit }
    ensures { GivesHigh open_operand open_operand_height depth (spec.target (selected_reader depth) cursor.old) result cursor.new }
{
    let (parts, tall) = selected(nest, cursor, depth)?;
    let (operand, half) = joined(nest.alloc, parts)?;
    if !assigns(&operand) {
        drop(operand);
        return Err(ReadFault::Stuck);
    }
    Ok(((operand, half), tall))
}

// Whether `++` or `--` may stand behind it.
#[tactic(auto, unfolding(dart_tree::specs::Depth::operand_height))]
fn may_step(depth: usize, parts: &Selected, tall: usize) -> bool
    requires { tall ≡ selected_height parts.now }
    ensures { result ≡ spec.steps_behind depth (selected_view parts.now) }
{
    match &parts.1 {
        None => primary_assigns(&parts.0.0) && tall < depth,
        Some(more) => selectors_assign(more),
    }
}

// Whether `++` or `--` comes, and may stand behind it.
fn sees_step(cursor: &Cursor<'_>, depth: usize, parts: &Selected, tall: usize) -> bool
    requires { tall ≡ selected_height parts.now }
    ensures comes { result ≡ (spec.steps_behind depth (selected_view parts.now) && starts class_of (sign_codes spec.step_signs) cursor.now) }
    ensures may { result ≡ true → spec.steps_behind depth (selected_view parts.now) ≡ true }
{
    may_step(depth, parts, tall) && sees_any(cursor, &STEPS)
}

// The operand with `++` or `--` behind it.
#[inline(never)]
fn stepped(
    alloc: Global,
    depth: usize,
    parts: Selected,
    tall: usize,
    operator: Operator,
) -> Result<(Operand, usize), AllocError>
    requires steps { spec.steps_behind depth (selected_view parts) ≡ true }
    requires high { tall ≡ selected_height parts }
    requires low { tall ≤ depth }
    ensures same { IfOk result (λ x. (view.operand x.0, None) ≡ spec.stepped (selected_view parts, Some operator)) }
    ensures high { IfOk result (λ x. x.1 ≡ height.operand_height (view.operand x.0)) }
    ensures low { IfOk result (λ x. x.1 ≤ depth) }
{
    let ((first, _), more) = parts;
    match more {
        None => {
            let operand = make::postfix(alloc, first, Vec::new(alloc), Some(operator))?;
            Ok((operand, tall + 1))
        }
        Some(more) => {
            let operand = make::postfix(alloc, first, more, Some(operator))?;
            Ok((operand, tall))
        }
    }
}

// The operand, and `++` or `--` behind it or none.
pub fn postfix<
    E: Fn(Global, &mut Cursor<'_>, usize, bool) -> Result<(OpenExpr, usize), ReadFault>,
    P: Fn(Global, &mut Cursor<'_>, usize) -> Result<(Parameters, usize), ReadFault>,
    B: Fn(Global, &mut Cursor<'_>, usize) -> Result<(Block, usize), ReadFault>,
>(
    nest: &Inside<E, P, B>,
    cursor: &mut Cursor<'_>,
    depth: usize,
) -> Result<(OpenOperand, usize), ReadFault>
    requires nests { NestsExpr nest.now.limit (E.pre nest.now.expr) (E.post nest.now.expr) }
    requires parameters { NestsParameters nest.now.limit (P.pre nest.now.parameters) (P.post nest.now.parameters) }
    requires blocks { NestsBlock nest.now.limit (B.pre nest.now.block) (B.post nest.now.block) }
    requires within { depth ≤ nest.now.limit }
    requires some { 0 < depth }
    ensures { GivesHigh open_operand open_operand_height depth (spec.postfix depth (selected_reader depth) cursor.old) result cursor.new }
{
    let (parts, tall) = selected(nest, cursor, depth)?;
    if !sees_step(cursor, depth, &parts, tall) {
        let alone = joined(nest.alloc, parts)?;
        return Ok((alone, tall));
    }
    let operator = one_of(cursor, &STEPS)?;
    let (operand, height) = stepped(nest.alloc, depth, parts, tall, operator)?;
    Ok(((operand, None), height))
}
