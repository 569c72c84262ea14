// Parentheses against function literals (ECMA-408, 16 Expressions and 16.10 Function Expressions).
ghost use Rattle.std.specs.Prelude.{◌≤◌, Err};
ghost use Rattle.grammar_laws.specs.Readers.{tried, sought, farther, deeper};
ghost use Rattle.token_cursor.specs.Gives.{GivesHigh};
ghost use Rattle.parse_nest.specs.Nests.{NestsExpr, NestsParameters, NestsBlock};
ghost use Rattle.syntax_readers.specs.Primaries as spec;
ghost use Rattle.parse_primary.specs.Views.{open_primary, open_primary_height, closed_parenthesis};
ghost use Rattle.parse_nest.specs.Stages.{exprs_at};

use crate::function::function;
use crate::open::OpenPrimary;
use dart_tree::parameter::Parameters;
use dart_tree::statement::Block;
use parse_literal::bracket::parenthesized;
use parse_literal::look::{move_later, sees_body};
use parse_nest::inside::{Inside, OpenExpr};
use std::alloc::Global;
use token_cursor::cursor::Cursor;
use token_cursor::error::ReadFault;

// An expression in parentheses, behind which no half is left.
fn closed_parenthesis<
    E: Fn(Global, &mut Cursor<'_>, usize, bool) -> Result<(OpenExpr, usize), ReadFault>,
    P: Fn(Global, &mut Cursor<'_>, usize) -> Result<(Parameters, usize), ReadFault>,
    B: Fn(Global, &mut Cursor<'_>, usize) -> Result<(Block, usize), ReadFault>,
>(
    nest: &Inside<E, P, B>,
    cursor: &mut Cursor<'_>,
    depth: usize,
) -> Result<(OpenPrimary, usize), ReadFault>
    requires nests { NestsExpr nest.now.limit (E.pre nest.now.expr) (E.post nest.now.expr) }
    requires within { depth ≤ nest.now.limit }
    ensures { GivesHigh open_primary open_primary_height depth (closed_parenthesis depth cursor.old) result cursor.new }
{
    let (primary, height) = parenthesized(nest, cursor, depth)?;
    Ok(((primary, None), height))
}

// An expression in parentheses where no function literal stands, unless the literal came farther.
fn or_parenthesis<
    'a,
    E: Fn(Global, &mut Cursor<'_>, usize, bool) -> Result<(OpenExpr, usize), ReadFault>,
    P: Fn(Global, &mut Cursor<'_>, usize) -> Result<(Parameters, usize), ReadFault>,
    B: Fn(Global, &mut Cursor<'_>, usize) -> Result<(Block, usize), ReadFault>,
>(
    nest: &Inside<E, P, B>,
    cursor: &mut Cursor<'a>,
    depth: usize,
    start: &Cursor<'a>,
) -> Result<(OpenPrimary, usize), ReadFault>
    requires nests { NestsExpr nest.now.limit (E.pre nest.now.expr) (E.post nest.now.expr) }
    requires within { depth ≤ nest.now.limit }
    ensures { GivesHigh open_primary open_primary_height depth
        (deeper (Err cursor.old) (closed_parenthesis depth start.now)) result cursor.new }
{
    let mut other = start.fork();
    match closed_parenthesis(nest, &mut other, depth) {
        Ok(found) => {
            if cursor.left() < other.left() {
                drop(found);
                return Err(ReadFault::Stuck);
            }
            *cursor = other;
            Ok(found)
        }
        Err(fault) => {
            move_later(cursor, &other);
            Err(fault)
        }
    }
}

// A function literal, or an expression in parentheses.
fn rather_function<
    E: Fn(Global, &mut Cursor<'_>, usize, bool) -> Result<(OpenExpr, usize), ReadFault>,
    P: Fn(Global, &mut Cursor<'_>, usize) -> Result<(Parameters, usize), ReadFault>,
    B: Fn(Global, &mut Cursor<'_>, usize) -> Result<(Block, usize), ReadFault>,
>(
    nest: &Inside<E, P, B>,
    cursor: &mut Cursor<'_>,
    depth: usize,
) -> Result<(OpenPrimary, usize), ReadFault>
    requires nests { NestsExpr nest.now.limit (E.pre nest.now.expr) (E.post nest.now.expr) }
    requires parameters { NestsParameters nest.now.limit (P.pre nest.now.parameters) (P.post nest.now.parameters) }
    requires blocks { NestsBlock nest.now.limit (B.pre nest.now.block) (B.post nest.now.block) }
    requires within { depth ≤ nest.now.limit }
    ensures { GivesHigh open_primary open_primary_height depth
        (sought (exprs_at depth).function (closed_parenthesis depth) cursor.old) result cursor.new }
{
    let start = cursor.fork();
    match function(nest, cursor, depth) {
        Ok(found) => Ok(found),
        Err(ReadFault::Memory) => Err(ReadFault::Memory),
        Err(ReadFault::Stuck) => or_parenthesis(nest, cursor, depth, &start),
    }
}

// A function literal where no expression in parentheses stands.
fn or_function<
    'a,
    E: Fn(Global, &mut Cursor<'_>, usize, bool) -> Result<(OpenExpr, usize), ReadFault>,
    P: Fn(Global, &mut Cursor<'_>, usize) -> Result<(Parameters, usize), ReadFault>,
    B: Fn(Global, &mut Cursor<'_>, usize) -> Result<(Block, usize), ReadFault>,
>(
    nest: &Inside<E, P, B>,
    cursor: &mut Cursor<'a>,
    depth: usize,
    start: &Cursor<'a>,
) -> Result<(OpenPrimary, usize), ReadFault>
    requires nests { NestsExpr nest.now.limit (E.pre nest.now.expr) (E.post nest.now.expr) }
    requires parameters { NestsParameters nest.now.limit (P.pre nest.now.parameters) (P.post nest.now.parameters) }
    requires blocks { NestsBlock nest.now.limit (B.pre nest.now.block) (B.post nest.now.block) }
    requires within { depth ≤ nest.now.limit }
    ensures { GivesHigh open_primary open_primary_height depth
        (farther (Err cursor.old) ((exprs_at depth).function start.now)) result cursor.new }
{
    let mut other = start.fork();
    match function(nest, &mut other, depth) {
        Ok(found) => {
            *cursor = other;
            Ok(found)
        }
        Err(fault) => {
            move_later(cursor, &other);
            Err(fault)
        }
    }
}

// An expression in parentheses, or a function literal.
fn rather_parenthesis<
    E: Fn(Global, &mut Cursor<'_>, usize, bool) -> Result<(OpenExpr, usize), ReadFault>,
    P: Fn(Global, &mut Cursor<'_>, usize) -> Result<(Parameters, usize), ReadFault>,
    B: Fn(Global, &mut Cursor<'_>, usize) -> Result<(Block, usize), ReadFault>,
>(
    nest: &Inside<E, P, B>,
    cursor: &mut Cursor<'_>,
    depth: usize,
) -> Result<(OpenPrimary, usize), ReadFault>
    requires nests { NestsExpr nest.now.limit (E.pre nest.now.expr) (E.post nest.now.expr) }
    requires parameters { NestsParameters nest.now.limit (P.pre nest.now.parameters) (P.post nest.now.parameters) }
    requires blocks { NestsBlock nest.now.limit (B.pre nest.now.block) (B.post nest.now.block) }
    requires within { depth ≤ nest.now.limit }
    ensures { GivesHigh open_primary open_primary_height depth
        (tried (closed_parenthesis depth) (exprs_at depth).function cursor.old) result cursor.new }
{
    let start = cursor.fork();
    match closed_parenthesis(nest, cursor, depth) {
        Ok(found) => Ok(found),
        Err(ReadFault::Memory) => Err(ReadFault::Memory),
        Err(ReadFault::Stuck) => or_function(nest, cursor, depth, &start),
    }
}

/// Reads a function literal or an expression in parentheses, by what stands behind the brackets (ECMA-408, 16 Expressions).
#[tactic(auto, unfolding(syntax_readers::specs::Primaries::parenthesis))]
pub fn parenthesis<
    E: Fn(Global, &mut Cursor<'_>, usize, bool) -> Result<(OpenExpr, usize), ReadFault>,
    P: Fn(Global, &mut Cursor<'_>, usize) -> Result<(Parameters, usize), ReadFault>,
    B: Fn(Global, &mut Cursor<'_>, usize) -> Result<(Block, usize), ReadFault>,
>(
    nest: &Inside<E, P, B>,
    cursor: &mut Cursor<'_>,
    depth: usize,
) -> Result<(OpenPrimary, usize), ReadFault>
    requires nests { NestsExpr nest.now.limit (E.pre nest.now.expr) (E.post nest.now.expr) }
    requires parameters { NestsParameters nest.now.limit (P.pre nest.now.parameters) (P.post nest.now.parameters) }
    requires blocks { NestsBlock nest.now.limit (B.pre nest.now.block) (B.post nest.now.block) }
    requires within { depth ≤ nest.now.limit }
    ensures { GivesHigh open_primary open_primary_height depth (spec.parenthesis (exprs_at depth) cursor.old) result cursor.new }
{
    if sees_body(&cursor.behind_brackets()) {
        return rather_function(nest, cursor, depth);
    }
    rather_parenthesis(nest, cursor, depth)
}
