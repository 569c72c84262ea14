// Conditions in parentheses (ECMA-408, 17.5 If, 17.7 While, 17.8 Do and 17.9 Switch).
ghost use Rattle.std.specs.Prelude.{◌≤◌};
ghost use Rattle.parse_block.specs.Views.{condition_of, condition_height};
ghost use Rattle.parse_nest.specs.Nests.{NestsExpr};
ghost use Rattle.parse_nest.specs.Stages.{closed_at};
ghost use Rattle.syntax_readers.specs.Statements as spec;
ghost use Rattle.token_cursor.specs.Gives.{GivesHigh};

use dart_base::place::Place;
use dart_token::sign::Sign;
use dart_tree::expression::Expr;
use dart_tree::parameter::Parameters;
use dart_tree::statement::Block;
use parse_nest::inside::{Inside, OpenExpr};
use std::alloc::Global;
use token_cursor::cursor::Cursor;
use token_cursor::error::ReadFault;

/// An expression in parentheses (ECMA-408, 17.5 If).
#[derive(Drop)]
pub struct Parenthesized {
    pub opening: Place,
    pub value: Expr,
    pub closing: Place,
}

/// Reads an expression in parentheses (ECMA-408, 17.5 If).
#[tactic(auto, unfolding(syntax_readers::specs::Statements::condition_over))]
pub fn condition<
    E: Fn(Global, &mut Cursor<'_>, usize, bool) -> Result<(OpenExpr, usize), ReadFault>,
    P: Fn(Global, &mut Cursor<'_>, usize) -> Result<(Parameters, usize), ReadFault>,
    B: Fn(Global, &mut Cursor<'_>, usize) -> Result<(Block, usize), ReadFault>,
>(
    nest: &Inside<E, P, B>,
    cursor: &mut Cursor<'_>,
    depth: usize,
) -> Result<(Parenthesized, usize), ReadFault>
    requires nests { NestsExpr nest.now.limit (E.pre nest.now.expr) (E.post nest.now.expr) }
    requires within { depth ≤ nest.now.limit }
    ensures { GivesHigh condition_of condition_height depth
        (spec.condition_over (closed_at depth) cursor.old) result cursor.new }
{
    let opening = cursor.expect(Sign::LeftParenthesis)?;
    let (value, height) = nest.expr(cursor, depth)?;
    let closing = cursor.expect(Sign::RightParenthesis)?;
    Ok((
        Parenthesized {
            opening,
            value,
            closing,
        },
        height,
    ))
}
