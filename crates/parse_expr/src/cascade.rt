// Cascades (ECMA-408, 16.17.2 Cascaded Invocations).
ghost use Rattle.std.specs.Prelude.{◌≡◌, ◌≤◌, ◌<◌, ◌+◌};
ghost use Rattle.grammar_laws.specs.Codes.{given};
ghost use Rattle.grammar_laws.specs.Readers.{starts};
ghost use Rattle.token_codes.specs.Codes.{class_of};
ghost use Rattle.token_cursor.specs.Gives.{GivesHigh};
ghost use Rattle.syntax_readers.specs.Expressions as spec;
ghost use Rattle.parse_nest.specs.Nests.{NestsExpr};
ghost use Rattle.parse_expr.specs.Views.{section_reader, open_selectors, open_selectors_height, open_value, open_value_height, value_reader, open_cascade, open_cascade_height, open_cascades, open_cascades_height, cascades_reader, goes_on_behind};
ghost use Rattle.parse_nest.specs.Stages.{exprs_at};

use crate::assignment::{assignment, sees_assignment};
use dart_base::place::Place;
use dart_node::make::expression as make;
use dart_token::sign::Sign;
use dart_tree::expression::{Cascade, Selector, Value};
use dart_tree::parameter::Parameters;
use dart_tree::statement::Block;
use parse_edge::edge::leaves_cascade;
use parse_nest::inside::{Inside, OpenExpr};
use parse_primary::selectors::section;
use parse_row::operators::half_behind;
use parse_unary::target::selectors_assign;
use std::alloc::Global;
use token_cursor::cursor::Cursor;
use token_cursor::error::ReadFault;

/// A cascade with the half of an operator behind it, if one was read.
pub type OpenCascade = (Cascade, Option<Place>);

// The selectors of a cascade, and the half of an operator behind them.
fn open_section<
    E: Fn(Global, &mut Cursor<'_>, usize, bool) -> Result<(OpenExpr, usize), ReadFault>,
    P: Fn(Global, &mut Cursor<'_>, usize) -> Result<(Parameters, usize), ReadFault>,
    B: Fn(Global, &mut Cursor<'_>, usize) -> Result<(Block, usize), ReadFault>,
>(
    nest: &Inside<E, P, B>,
    cursor: &mut Cursor<'_>,
    depth: usize,
) -> Result<((Vec<Selector>, Option<Place>), usize), ReadFault>
    requires nests { NestsExpr nest.now.limit (E.pre nest.now.expr) (E.post nest.now.expr) }
    requires within { depth ≤ nest.now.limit }
    ensures { GivesHigh open_selectors open_selectors_height depth (section_reader depth cursor.old) result cursor.new }
{
    let (selectors, height) = section(nest, cursor, depth)?;
    let may = selectors_assign(&selectors);
    let half = half_behind(cursor, may, None);
    Ok(((selectors, half), height))
}

// Whether what is assigned comes behind the selectors of a cascade.
#[tactic(auto, using(crate::proofs::Behind::given_is))]
fn sees_value(cursor: &Cursor<'_>, may: bool, half: Option<Place>) -> bool
    ensures { result ≡ starts class_of (given may (spec.assign_codes half)) cursor.now }
{
    may && sees_assignment(cursor, half)
}

// What is assigned behind the selectors of a cascade, or nothing.
#[tactic(auto, unfolding(dart_tree::specs::View::value, dart_tree::specs::Depth::value_height))]
fn cascade_value<
    E: Fn(Global, &mut Cursor<'_>, usize, bool) -> Result<(OpenExpr, usize), ReadFault>,
    P: Fn(Global, &mut Cursor<'_>, usize) -> Result<(Parameters, usize), ReadFault>,
    B: Fn(Global, &mut Cursor<'_>, usize) -> Result<(Block, usize), ReadFault>,
>(
    nest: &Inside<E, P, B>,
    cursor: &mut Cursor<'_>,
    depth: usize,
    may: bool,
    half: Option<Place>,
) -> Result<((Value, Option<Place>), usize), ReadFault>
    requires nests { NestsExpr nest.now.limit (E.pre nest.now.expr) (E.post nest.now.expr) }
    requires within { depth ≤ nest.now.limit }
    ensures { GivesHigh open_value open_value_height depth (value_reader depth may half cursor.old) result cursor.new }
{
    if !sees_value(cursor, may, half) {
        return Ok(((Value::Omitted, half), 0));
    }
    let ((operator, (value, rest)), height) = assignment(nest, cursor, depth, half, false)?;
    let value = make::given(nest.alloc, Some(operator), value)?;
    Ok(((value, rest), height))
}

// A cascade over the nodes inside it.
fn cascade_over<
    E: Fn(Global, &mut Cursor<'_>, usize, bool) -> Result<(OpenExpr, usize), ReadFault>,
    P: Fn(Global, &mut Cursor<'_>, usize) -> Result<(Parameters, usize), ReadFault>,
    B: Fn(Global, &mut Cursor<'_>, usize) -> Result<(Block, usize), ReadFault>,
>(
    nest: &Inside<E, P, B>,
    cursor: &mut Cursor<'_>,
    depth: usize,
) -> Result<(OpenCascade, usize), ReadFault>
    requires nests { NestsExpr nest.now.limit (E.pre nest.now.expr) (E.post nest.now.expr) }
    requires within { depth ≤ nest.now.limit }
    requires room { depth + 1 < 18446744073709551616 }
    ensures { GivesHigh open_cascade open_cascade_height (depth + 1) (spec.cascade_over (exprs_at depth) cursor.old) result cursor.new }
{
    let dots = cursor.expect(Sign::DotDot)?;
    let ((selectors, half), first) = open_section(nest, cursor, depth)?;
    let may = selectors_assign(&selectors);
    let ((value, half), second) = cascade_value(nest, cursor, depth, may, half)?;
    let cascade = Cascade {
        dots,
        selectors,
        value,
    };
    Ok(((cascade, half), first.max(second) + 1))
}

/// Reads a cascade (ECMA-408, 16.17.2 Cascaded Invocations).
pub fn cascade<
    E: Fn(Global, &mut Cursor<'_>, usize, bool) -> Result<(OpenExpr, usize), ReadFault>,
    P: Fn(Global, &mut Cursor<'_>, usize) -> Result<(Parameters, usize), ReadFault>,
    B: Fn(Global, &mut Cursor<'_>, usize) -> Result<(Block, usize), ReadFault>,
>(
    nest: &Inside<E, P, B>,
    cursor: &mut Cursor<'_>,
    depth: usize,
) -> Result<(OpenCascade, usize), ReadFault>
    requires nests { NestsExpr nest.now.limit (E.pre nest.now.expr) (E.post nest.now.expr) }
    requires within { depth ≤ nest.now.limit }
    ensures { GivesHigh open_cascade open_cascade_height depth ((exprs_at depth).cascade cursor.old) result cursor.new }
{
    if depth == 0 {
        return Err(ReadFault::Stuck);
    }
    cascade_over(nest, cursor, depth - 1)
}

// Whether another cascade may stand behind this one.
fn leaves_another(cascade: &Cascade, half: Option<Place>) -> bool
    ensures { result ≡ goes_on_behind (open_cascade (cascade.now, half)) }
{
    match half {
        None => leaves_cascade(cascade),
        Some(_) => false,
    }
}

/// Reads cascades, one at least (ECMA-408, 16.17.2 Cascaded Invocations).
pub fn cascades<
    E: Fn(Global, &mut Cursor<'_>, usize, bool) -> Result<(OpenExpr, usize), ReadFault>,
    P: Fn(Global, &mut Cursor<'_>, usize) -> Result<(Parameters, usize), ReadFault>,
    B: Fn(Global, &mut Cursor<'_>, usize) -> Result<(Block, usize), ReadFault>,
>(
    nest: &Inside<E, P, B>,
    cursor: &mut Cursor<'_>,
    depth: usize,
) -> Result<((Vec<Cascade>, Option<Place>), usize), ReadFault>
    requires nests { NestsExpr nest.now.limit (E.pre nest.now.expr) (E.post nest.now.expr) }
    requires within { depth ≤ nest.now.limit }
    ensures { GivesHigh open_cascades open_cascades_height depth (cascades_reader depth cursor.old) result cursor.new }
{
    let ((first, half), height) = cascade(nest, cursor, depth)?;
    let goes_on = leaves_another(&first, half);
    let mut found = Vec::new(nest.alloc);
    found.push(first)?;
    if !goes_on {
        return Ok(((found, half), height));
    }
    let mut highest = height;
    for _turn in 0..cursor.left() {
        if !cursor.sees(Sign::DotDot) {
            return Ok(((found, None), highest));
        }
        let ((next, half), height) = cascade(nest, cursor, depth)?;
        let goes_on = leaves_another(&next, half);
        found.push(next)?;
        highest = highest.max(height);
        if !goes_on {
            return Ok(((found, half), highest));
        }
    }
    Ok(((found, None), highest))
}
