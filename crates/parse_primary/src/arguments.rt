// Arguments (ECMA-408, 16.14.1 Actual Argument List Evaluation).
ghost use Rattle.std.specs.Prelude.{◌≤◌, ◌<◌, ◌+◌};
ghost use Rattle.dart_token.specs.declared.sign.Sign.TheVariants as s;
ghost use Rattle.dart_tree.specs.Depth as height;
ghost use Rattle.dart_tree.specs.View as view;
ghost use Rattle.grammar_laws.specs.Readers.{both};
ghost use Rattle.token_codes.specs.Leaves.{sign};
ghost use Rattle.token_cursor.specs.Gives.{GivesHigh};
ghost use Rattle.parse_nest.specs.Nests.{NestsExpr};
ghost use Rattle.parse_nest.specs.Stages.{closed_at, exprs_at};
ghost use Rattle.syntax_readers.specs.Combinators.{past_name};
ghost use Rattle.syntax_readers.specs.Primaries as spec;
ghost use Rattle.parse_primary.specs.Views.{view_items, argument_of, argument_height, comma_argument_of, comma_argument_height, unlabelled, some_arguments, maybe_arguments, arguments_of};

use dart_base::place::Place;
use dart_node::make::expression as make;
use dart_token::sign::Sign;
use dart_tree::expression::{Arguments, Expr, Item};
use dart_tree::identifier::Label;
use dart_tree::parameter::Parameters;
use dart_tree::statement::Block;
use parse_literal::look::sees_expr;
use parse_nest::inside::{Inside, OpenExpr};
use parse_type::look::{name_before, pass_name};
use std::alloc::Global;
use token_cursor::cursor::Cursor;
use token_cursor::error::ReadFault;

// An expression, behind a label or not.
type Argument = (Option<Label>, Expr);

// An expression behind a label.
#[tactic(auto, unfolding(syntax_readers::specs::Primaries::named_argument))]
fn named_argument<
    E: Fn(Global, &mut Cursor<'_>, usize, bool) -> Result<(OpenExpr, usize), ReadFault>,
    P: Fn(Global, &mut Cursor<'_>, usize) -> Result<(Parameters, usize), ReadFault>,
    B: Fn(Global, &mut Cursor<'_>, usize) -> Result<(Block, usize), ReadFault>,
>(
    nest: &Inside<E, P, B>,
    cursor: &mut Cursor<'_>,
    depth: usize,
) -> Result<(Argument, usize), ReadFault>
    requires nests { NestsExpr nest.now.limit (E.pre nest.now.expr) (E.post nest.now.expr) }
    requires within { depth ≤ nest.now.limit }
    ensures { GivesHigh argument_of argument_height depth (spec.named_argument (closed_at depth) cursor.old) result cursor.new }
{
    let label = cursor.label(nest.alloc)?;
    let (value, height) = nest.expr(cursor, depth)?;
    Ok(((Some(label), value), height))
}

// An expression behind no label.
fn plain_argument<
    E: Fn(Global, &mut Cursor<'_>, usize, bool) -> Result<(OpenExpr, usize), ReadFault>,
    P: Fn(Global, &mut Cursor<'_>, usize) -> Result<(Parameters, usize), ReadFault>,
    B: Fn(Global, &mut Cursor<'_>, usize) -> Result<(Block, usize), ReadFault>,
>(
    nest: &Inside<E, P, B>,
    cursor: &mut Cursor<'_>,
    depth: usize,
) -> Result<(Argument, usize), ReadFault>
    requires nests { NestsExpr nest.now.limit (E.pre nest.now.expr) (E.post nest.now.expr) }
    requires within { depth ≤ nest.now.limit }
    ensures { GivesHigh argument_of argument_height depth (unlabelled (closed_at depth) cursor.old) result cursor.new }
{
    let (value, height) = nest.expr(cursor, depth)?;
    Ok(((None, value), height))
}

// The same where a label may come, too.
fn plain_past_name<
    E: Fn(Global, &mut Cursor<'_>, usize, bool) -> Result<(OpenExpr, usize), ReadFault>,
    P: Fn(Global, &mut Cursor<'_>, usize) -> Result<(Parameters, usize), ReadFault>,
    B: Fn(Global, &mut Cursor<'_>, usize) -> Result<(Block, usize), ReadFault>,
>(
    nest: &Inside<E, P, B>,
    cursor: &mut Cursor<'_>,
    depth: usize,
) -> Result<(Argument, usize), ReadFault>
    requires nests { NestsExpr nest.now.limit (E.pre nest.now.expr) (E.post nest.now.expr) }
    requires within { depth ≤ nest.now.limit }
    ensures { GivesHigh argument_of argument_height depth (past_name (unlabelled (closed_at depth)) cursor.old) result cursor.new }
{
    let start = cursor.fork();
    match plain_argument(nest, cursor, depth) {
        Ok(found) => Ok(found),
        Err(fault) => {
            pass_name(&start, cursor);
            Err(fault)
        }
    }
}

// An argument, which has a label where the one before it has one.
#[tactic(auto, unfolding(syntax_readers::specs::Primaries::argument))]
fn argument<
    E: Fn(Global, &mut Cursor<'_>, usize, bool) -> Result<(OpenExpr, usize), ReadFault>,
    P: Fn(Global, &mut Cursor<'_>, usize) -> Result<(Parameters, usize), ReadFault>,
    B: Fn(Global, &mut Cursor<'_>, usize) -> Result<(Block, usize), ReadFault>,
>(
    nest: &Inside<E, P, B>,
    cursor: &mut Cursor<'_>,
    depth: usize,
    named: bool,
) -> Result<(Argument, usize), ReadFault>
    requires nests { NestsExpr nest.now.limit (E.pre nest.now.expr) (E.post nest.now.expr) }
    requires within { depth ≤ nest.now.limit }
    ensures { GivesHigh argument_of argument_height depth (spec.argument (closed_at depth) named cursor.old) result cursor.new }
{
    if named {
        return named_argument(nest, cursor, depth);
    }
    if name_before(cursor, Sign::Colon) {
        return named_argument(nest, cursor, depth);
    }
    plain_past_name(nest, cursor, depth)
}

// A comma and an argument.
fn comma_argument<
    E: Fn(Global, &mut Cursor<'_>, usize, bool) -> Result<(OpenExpr, usize), ReadFault>,
    P: Fn(Global, &mut Cursor<'_>, usize) -> Result<(Parameters, usize), ReadFault>,
    B: Fn(Global, &mut Cursor<'_>, usize) -> Result<(Block, usize), ReadFault>,
>(
    nest: &Inside<E, P, B>,
    cursor: &mut Cursor<'_>,
    depth: usize,
    named: bool,
) -> Result<((Place, Argument), usize), ReadFault>
    requires nests { NestsExpr nest.now.limit (E.pre nest.now.expr) (E.post nest.now.expr) }
    requires within { depth ≤ nest.now.limit }
    ensures { GivesHigh comma_argument_of comma_argument_height depth (both (sign s.Comma) (spec.argument (closed_at depth) named) cursor.old) result cursor.new }
{
    let comma = cursor.expect(Sign::Comma)?;
    let (argument, height) = argument(nest, cursor, depth, named)?;
    Ok(((comma, argument), height))
}

// Arguments with commas between them.
fn some_arguments<
    E: Fn(Global, &mut Cursor<'_>, usize, bool) -> Result<(OpenExpr, usize), ReadFault>,
    P: Fn(Global, &mut Cursor<'_>, usize) -> Result<(Parameters, usize), ReadFault>,
    B: Fn(Global, &mut Cursor<'_>, usize) -> Result<(Block, usize), ReadFault>,
>(
    nest: &Inside<E, P, B>,
    cursor: &mut Cursor<'_>,
    depth: usize,
) -> Result<(Vec<Item>, usize), ReadFault>
    requires nests { NestsExpr nest.now.limit (E.pre nest.now.expr) (E.post nest.now.expr) }
    requires within { depth ≤ nest.now.limit }
    ensures { GivesHigh view_items height.items_height depth (some_arguments (closed_at depth) cursor.old) result cursor.new }
{
    let ((label, value), first) = argument(nest, cursor, depth, false)?;
    let mut named = label.is_some();
    let mut found = Vec::new(nest.alloc);
    found.push(Item {
        comma: None,
        label,
        value,
    })?;
    let mut highest = first;
    for _turn in 0..cursor.left() {
        if !cursor.sees(Sign::Comma) {
            return Ok((found, highest));
        }
        let ((comma, (label, value)), height) = comma_argument(nest, cursor, depth, named)?;
        named = label.is_some();
        found.push(Item {
            comma: Some(comma),
            label,
            value,
        })?;
        highest = highest.max(height);
    }
    Ok((found, highest))
}

// Arguments or none.
fn maybe_arguments<
    E: Fn(Global, &mut Cursor<'_>, usize, bool) -> Result<(OpenExpr, usize), ReadFault>,
    P: Fn(Global, &mut Cursor<'_>, usize) -> Result<(Parameters, usize), ReadFault>,
    B: Fn(Global, &mut Cursor<'_>, usize) -> Result<(Block, usize), ReadFault>,
>(
    nest: &Inside<E, P, B>,
    cursor: &mut Cursor<'_>,
    depth: usize,
) -> Result<(Vec<Item>, usize), ReadFault>
    requires nests { NestsExpr nest.now.limit (E.pre nest.now.expr) (E.post nest.now.expr) }
    requires within { depth ≤ nest.now.limit }
    ensures { GivesHigh view_items height.items_height depth (maybe_arguments (closed_at depth) cursor.old) result cursor.new }
{
    if !sees_expr(cursor) {
        return Ok((Vec::new(nest.alloc), 0));
    }
    some_arguments(nest, cursor, depth)
}

// Arguments, over the expressions inside.
#[tactic(auto, unfolding(dart_tree::specs::Depth::arguments_height))]
fn arguments_over<
    E: Fn(Global, &mut Cursor<'_>, usize, bool) -> Result<(OpenExpr, usize), ReadFault>,
    P: Fn(Global, &mut Cursor<'_>, usize) -> Result<(Parameters, usize), ReadFault>,
    B: Fn(Global, &mut Cursor<'_>, usize) -> Result<(Block, usize), ReadFault>,
>(
    nest: &Inside<E, P, B>,
    cursor: &mut Cursor<'_>,
    depth: usize,
) -> Result<(Arguments, usize), ReadFault>
    requires nests { NestsExpr nest.now.limit (E.pre nest.now.expr) (E.post nest.now.expr) }
    requires within { depth ≤ nest.now.limit }
    requires room { depth + 1 < 18446744073709551616 }
    ensures { GivesHigh view.arguments height.arguments_height (depth + 1) (arguments_of (closed_at depth) cursor.old) result cursor.new }
{
    let opening = cursor.expect(Sign::LeftParenthesis)?;
    let (items, height) = maybe_arguments(nest, cursor, depth)?;
    let closing = cursor.expect(Sign::RightParenthesis)?;
    Ok((make::arguments(opening, items, closing), height + 1))
}

/// Reads arguments with at most so many nodes above one another (ECMA-408, 16.14.1 Actual Argument List Evaluation).
pub fn arguments<
    E: Fn(Global, &mut Cursor<'_>, usize, bool) -> Result<(OpenExpr, usize), ReadFault>,
    P: Fn(Global, &mut Cursor<'_>, usize) -> Result<(Parameters, usize), ReadFault>,
    B: Fn(Global, &mut Cursor<'_>, usize) -> Result<(Block, usize), ReadFault>,
>(
    nest: &Inside<E, P, B>,
    cursor: &mut Cursor<'_>,
    depth: usize,
) -> Result<(Arguments, usize), ReadFault>
    requires nests { NestsExpr nest.now.limit (E.pre nest.now.expr) (E.post nest.now.expr) }
    requires within { depth ≤ nest.now.limit }
    ensures { GivesHigh view.arguments height.arguments_height depth ((exprs_at depth).arguments cursor.old) result cursor.new }
{
    if depth == 0 {
        return Err(ReadFault::Stuck);
    }
    arguments_over(nest, cursor, depth - 1)
}
