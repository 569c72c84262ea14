// Values behind a sign, and bodies of functions.
ghost use Rattle.std.specs.Prelude.{◌≤◌};
ghost use Rattle.dart_tree.specs.Depth as height;
ghost use Rattle.dart_tree.specs.View as view;
ghost use Rattle.parse_nest.specs.Nests.{NestsExpr, NestsBlock};
ghost use Rattle.parse_nest.specs.Stages.{closed_at, exprs_at};
ghost use Rattle.syntax_readers.specs.Parameters as spec;
ghost use Rattle.token_cursor.specs.Gives.{GivesHigh};

use dart_node::make::expression::given;
use dart_node::make::statement::{arrow, block_body};
use dart_token::sign::Sign;
use dart_tree::expression::Value;
use dart_tree::operator::Operator;
use dart_tree::parameter::Parameters;
use dart_tree::statement::{Block, Body};
use parse_nest::inside::{Inside, OpenExpr};
use std::alloc::Global;
use token_cursor::cursor::Cursor;
use token_cursor::error::ReadFault;

/// Reads a value behind this sign, or nothing (ECMA-408, 8 Variables).
#[tactic(auto, unfolding(syntax_readers::specs::Parameters::after_sign, dart_tree::specs::Depth::value_height, dart_tree::specs::View::value))]
pub fn value_behind<
    E: Fn(Global, &mut Cursor<'_>, usize, bool) -> Result<(OpenExpr, usize), ReadFault>,
    P: Fn(Global, &mut Cursor<'_>, usize) -> Result<(Parameters, usize), ReadFault>,
    B: Fn(Global, &mut Cursor<'_>, usize) -> Result<(Block, usize), ReadFault>,
>(
    nest: &Inside<E, P, B>,
    cursor: &mut Cursor<'_>,
    depth: usize,
    sign: Sign,
) -> Result<(Value, usize), ReadFault>
    requires nests { NestsExpr nest.now.limit (E.pre nest.now.expr) (E.post nest.now.expr) }
    requires within { depth ≤ nest.now.limit }
    ensures { GivesHigh view.value height.value_height depth
        (spec.after_sign sign (closed_at depth) cursor.old) result cursor.new }
{
    if !cursor.sees(sign) {
        return Ok((Value::Omitted, 0));
    }
    let place = cursor.expect(sign)?;
    let (value, height) = nest.expr(cursor, depth)?;
    let operator = Operator::Sign(place, sign);
    Ok((given(nest.alloc, Some(operator), value)?, height))
}

// The body behind `=>`, with its semicolon.
#[tactic(auto, unfolding(syntax_readers::specs::Parameters::arrow_body, dart_tree::specs::Depth::body_height))]
fn arrow_body<
    E: Fn(Global, &mut Cursor<'_>, usize, bool) -> Result<(OpenExpr, usize), ReadFault>,
    P: Fn(Global, &mut Cursor<'_>, usize) -> Result<(Parameters, usize), ReadFault>,
    B: Fn(Global, &mut Cursor<'_>, usize) -> Result<(Block, usize), ReadFault>,
>(nest: &Inside<E, P, B>, cursor: &mut Cursor<'_>, depth: usize) -> Result<(Body, usize), ReadFault>
    requires nests { NestsExpr nest.now.limit (E.pre nest.now.expr) (E.post nest.now.expr) }
    requires within { depth ≤ nest.now.limit }
    ensures { GivesHigh view.body height.body_height depth
        (spec.arrow_body (closed_at depth) cursor.old) result cursor.new }
{
    let place = cursor.expect(Sign::Arrow)?;
    let (value, height) = nest.expr(cursor, depth)?;
    let semicolon = cursor.expect(Sign::Semicolon)?;
    let body = arrow(nest.alloc, place, value, Some(semicolon))?;
    Ok((body, height))
}

/// Reads the body of a function that has one (ECMA-408, 9 Functions).
#[tactic(auto, unfolding(syntax_readers::specs::Parameters::whole_body, dart_tree::specs::Depth::body_height))]
pub fn whole_body<
    E: Fn(Global, &mut Cursor<'_>, usize, bool) -> Result<(OpenExpr, usize), ReadFault>,
    P: Fn(Global, &mut Cursor<'_>, usize) -> Result<(Parameters, usize), ReadFault>,
    B: Fn(Global, &mut Cursor<'_>, usize) -> Result<(Block, usize), ReadFault>,
>(nest: &Inside<E, P, B>, cursor: &mut Cursor<'_>, depth: usize) -> Result<(Body, usize), ReadFault>
    requires nests { NestsExpr nest.now.limit (E.pre nest.now.expr) (E.post nest.now.expr) }
    requires blocks { NestsBlock nest.now.limit (B.pre nest.now.block) (B.post nest.now.block) }
    requires within { depth ≤ nest.now.limit }
    ensures { GivesHigh view.body height.body_height depth
        (spec.whole_body (exprs_at depth) cursor.old) result cursor.new }
{
    if cursor.sees(Sign::Arrow) {
        return arrow_body(nest, cursor, depth);
    }
    let (block, height) = nest.block(cursor, depth)?;
    Ok((block_body(block), height))
}

/// Reads the body of a function, or a semicolon in its place (ECMA-408, 9 Functions).
#[tactic(auto, unfolding(syntax_readers::specs::Parameters::body, dart_tree::specs::Depth::body_height, dart_tree::specs::View::body))]
pub fn body<
    E: Fn(Global, &mut Cursor<'_>, usize, bool) -> Result<(OpenExpr, usize), ReadFault>,
    P: Fn(Global, &mut Cursor<'_>, usize) -> Result<(Parameters, usize), ReadFault>,
    B: Fn(Global, &mut Cursor<'_>, usize) -> Result<(Block, usize), ReadFault>,
>(nest: &Inside<E, P, B>, cursor: &mut Cursor<'_>, depth: usize) -> Result<(Body, usize), ReadFault>
    requires nests { NestsExpr nest.now.limit (E.pre nest.now.expr) (E.post nest.now.expr) }
    requires blocks { NestsBlock nest.now.limit (B.pre nest.now.block) (B.post nest.now.block) }
    requires within { depth ≤ nest.now.limit }
    ensures { GivesHigh view.body height.body_height depth
        (spec.body (exprs_at depth) cursor.old) result cursor.new }
{
    if cursor.sees(Sign::Semicolon) {
        let semicolon = cursor.expect(Sign::Semicolon)?;
        return Ok((Body::Omitted(semicolon), 0));
    }
    whole_body(nest, cursor, depth)
}
