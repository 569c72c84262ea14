// What stands in brackets or behind a dot, and other small parts of primaries.
ghost use Rattle.std.specs.Prelude.{◌≤◌};
ghost use Rattle.dart_tree.specs.Depth as height;
ghost use Rattle.dart_tree.specs.View as view;
ghost use Rattle.token_cursor.specs.Gives.{Gives, GivesHigh};
ghost use Rattle.parse_nest.specs.Nests.{NestsExpr};
ghost use Rattle.parse_nest.specs.Stages.{closed_at};
ghost use Rattle.syntax_readers.specs.Primaries as spec;

use crate::look::sees_expr;
use dart_node::make::expression as make;
use dart_token::sign::Sign;
use dart_tree::expression::{Primary, Selector, Value};
use dart_tree::parameter::Parameters;
use dart_tree::statement::Block;
use parse_nest::inside::{Inside, OpenExpr};
use std::alloc::Global;
use token_cursor::cursor::Cursor;
use token_cursor::error::ReadFault;

/// Reads `.` and an identifier (ECMA-408, 16.18 Property Extraction).
#[tactic(auto, unfolding(syntax_readers::specs::Primaries::member, dart_tree::specs::View::selector))]
pub fn member(alloc: Global, cursor: &mut Cursor<'_>) -> Result<Selector, ReadFault>
    ensures { Gives view.selector (spec.member cursor.old) result cursor.new }
{
    let dot = cursor.expect(Sign::Dot)?;
    let name = cursor.identifier(alloc)?;
    Ok(Selector::Member(Some(dot), name))
}

/// Reads an expression or none (ECMA-408, 16 Expressions).
#[tactic(auto, unfolding(syntax_readers::specs::Primaries::maybe_expr, dart_tree::specs::View::value, dart_tree::specs::Depth::value_height))]
pub fn maybe_expr<
    E: Fn(Global, &mut Cursor<'_>, usize, bool) -> Result<(OpenExpr, usize), ReadFault>,
    P: Fn(Global, &mut Cursor<'_>, usize) -> Result<(Parameters, usize), ReadFault>,
    B: Fn(Global, &mut Cursor<'_>, usize) -> Result<(Block, usize), ReadFault>,
>(
    nest: &Inside<E, P, B>,
    cursor: &mut Cursor<'_>,
    depth: usize,
) -> Result<(Value, usize), ReadFault>
    requires nests { NestsExpr nest.now.limit (E.pre nest.now.expr) (E.post nest.now.expr) }
    requires within { depth ≤ nest.now.limit }
    ensures { GivesHigh view.value height.value_height depth (spec.maybe_expr (closed_at depth) cursor.old) result cursor.new }
{
    if !sees_expr(cursor) {
        return Ok((Value::Omitted, 0));
    }
    let (expr, height) = nest.expr(cursor, depth)?;
    Ok((make::given(nest.alloc, None, expr)?, height))
}

/// Reads an expression in parentheses (ECMA-408, 16 Expressions).
#[tactic(auto, unfolding(syntax_readers::specs::Primaries::parenthesized, dart_tree::specs::Depth::primary_height))]
pub fn parenthesized<
    E: Fn(Global, &mut Cursor<'_>, usize, bool) -> Result<(OpenExpr, usize), ReadFault>,
    P: Fn(Global, &mut Cursor<'_>, usize) -> Result<(Parameters, usize), ReadFault>,
    B: Fn(Global, &mut Cursor<'_>, usize) -> Result<(Block, usize), ReadFault>,
>(
    nest: &Inside<E, P, B>,
    cursor: &mut Cursor<'_>,
    depth: usize,
) -> Result<(Primary, usize), ReadFault>
    requires nests { NestsExpr nest.now.limit (E.pre nest.now.expr) (E.post nest.now.expr) }
    requires within { depth ≤ nest.now.limit }
    ensures { GivesHigh view.primary height.primary_height depth (spec.parenthesized (closed_at depth) cursor.old) result cursor.new }
{
    let opening = cursor.expect(Sign::LeftParenthesis)?;
    let (value, height) = nest.expr(cursor, depth)?;
    let closing = cursor.expect(Sign::RightParenthesis)?;
    Ok((
        make::parenthesized(nest.alloc, opening, value, closing)?,
        height,
    ))
}

/// Reads an expression in brackets (ECMA-408, 16.32 Assignable Expressions).
#[tactic(auto, unfolding(syntax_readers::specs::Primaries::index, dart_tree::specs::Depth::selector_height))]
pub fn index<
    E: Fn(Global, &mut Cursor<'_>, usize, bool) -> Result<(OpenExpr, usize), ReadFault>,
    P: Fn(Global, &mut Cursor<'_>, usize) -> Result<(Parameters, usize), ReadFault>,
    B: Fn(Global, &mut Cursor<'_>, usize) -> Result<(Block, usize), ReadFault>,
>(
    nest: &Inside<E, P, B>,
    cursor: &mut Cursor<'_>,
    depth: usize,
) -> Result<(Selector, usize), ReadFault>
    requires nests { NestsExpr nest.now.limit (E.pre nest.now.expr) (E.post nest.now.expr) }
    requires within { depth ≤ nest.now.limit }
    ensures { GivesHigh view.selector height.selector_height depth (spec.index (closed_at depth) cursor.old) result cursor.new }
{
    let opening = cursor.expect(Sign::LeftBracket)?;
    let (value, height) = nest.expr(cursor, depth)?;
    let closing = cursor.expect(Sign::RightBracket)?;
    Ok((make::index(nest.alloc, opening, value, closing)?, height))
}
