// Selectors (ECMA-408, 16.14 to 16.18).
ghost use Rattle.std.specs.Prelude.{◌≡◌, ◌≤◌, None};
ghost use Rattle.dart_tree.specs.Depth as height;
ghost use Rattle.dart_tree.specs.Tree as t;
ghost use Rattle.dart_tree.specs.View as view;
ghost use Rattle.grammar_laws.specs.Readers.{mapped};
ghost use Rattle.token_cursor.specs.Gives.{GivesHigh};
ghost use Rattle.parse_nest.specs.Nests.{NestsExpr};
ghost use Rattle.syntax_readers.specs.Primaries as spec;
ghost use Rattle.parse_primary.specs.Views.{view_selectors, selectors_high, selectors_behind, section_start, view_section, bare_member};
ghost use Rattle.parse_nest.specs.Stages.{exprs_at};

use crate::arguments::arguments;
use dart_token::sign::Sign;
use dart_tree::expression::Selector;
use dart_tree::identifier::Identifier;
use dart_tree::parameter::Parameters;
use dart_tree::statement::Block;
use parse_literal::bracket::{index, member};
use parse_literal::look::sees_selector;
use parse_nest::inside::{Inside, OpenExpr};
use std::alloc::Global;
use token_cursor::cursor::Cursor;
use token_cursor::error::ReadFault;

// Arguments as a selector.
#[tactic(auto, unfolding(dart_tree::specs::View::selector, dart_tree::specs::Depth::selector_height))]
fn call<
    E: Fn(Global, &mut Cursor<'_>, usize, bool) -> Result<(OpenExpr, usize), ReadFault>,
    P: Fn(Global, &mut Cursor<'_>, usize) -> Result<(Parameters, usize), ReadFault>,
    B: Fn(Global, &mut Cursor<'_>, usize) -> Result<(Block, usize), ReadFault>,
>(
    nest: &Inside<E, P, B>,
    cursor: &mut Cursor<'_>,
    depth: usize,
) -> Result<(Selector, usize), ReadFault>
    requires nests { NestsExpr nest.now.limit (E.pre nest.now.expr) (E.post nest.now.expr) }
    requires within { depth ≤ nest.now.limit }
    ensures { GivesHigh view.selector height.selector_height depth (mapped t.call (exprs_at depth).arguments cursor.old) result cursor.new }
{
    let (given, height) = arguments(nest, cursor, depth)?;
    Ok((Selector::Call(given), height))
}

// A dot and an identifier as a selector, with its height.
fn dot_member(
    alloc: Global,
    cursor: &mut Cursor<'_>,
    depth: usize,
) -> Result<(Selector, usize), ReadFault>
    ensures { GivesHigh view.selector height.selector_height depth (spec.member cursor.old) result cursor.new }
{
    let selector = member(alloc, cursor)?;
    Ok((selector, 0))
}

/// Reads a selector (ECMA-408, 16.14 to 16.18).
#[tactic(auto, unfolding(syntax_readers::specs::Primaries::selector))]
pub fn selector<
    E: Fn(Global, &mut Cursor<'_>, usize, bool) -> Result<(OpenExpr, usize), ReadFault>,
    P: Fn(Global, &mut Cursor<'_>, usize) -> Result<(Parameters, usize), ReadFault>,
    B: Fn(Global, &mut Cursor<'_>, usize) -> Result<(Block, usize), ReadFault>,
>(
    nest: &Inside<E, P, B>,
    cursor: &mut Cursor<'_>,
    depth: usize,
) -> Result<(Selector, usize), ReadFault>
    requires nests { NestsExpr nest.now.limit (E.pre nest.now.expr) (E.post nest.now.expr) }
    requires within { depth ≤ nest.now.limit }
    ensures { GivesHigh view.selector height.selector_height depth (spec.selector (exprs_at depth) cursor.old) result cursor.new }
{
    if cursor.sees(Sign::Dot) {
        return dot_member(nest.alloc, cursor, depth);
    }
    if cursor.sees(Sign::LeftBracket) {
        return index(nest, cursor, depth);
    }
    call(nest, cursor, depth)
}

// A selector and those behind it.
fn selectors_behind<
    E: Fn(Global, &mut Cursor<'_>, usize, bool) -> Result<(OpenExpr, usize), ReadFault>,
    P: Fn(Global, &mut Cursor<'_>, usize) -> Result<(Parameters, usize), ReadFault>,
    B: Fn(Global, &mut Cursor<'_>, usize) -> Result<(Block, usize), ReadFault>,
>(
    nest: &Inside<E, P, B>,
    cursor: &mut Cursor<'_>,
    depth: usize,
    first: Selector,
    tall: usize,
) -> Result<(Vec<Selector>, usize), ReadFault>
    requires nests { NestsExpr nest.now.limit (E.pre nest.now.expr) (E.post nest.now.expr) }
    requires within { depth ≤ nest.now.limit }
    requires high { tall ≡ height.selector_height (view.selector first) }
    requires low { tall ≤ depth }
    ensures { GivesHigh view_selectors selectors_high depth (selectors_behind depth (view.selector first) cursor.old) result cursor.new }
{
    let mut found = Vec::new(nest.alloc);
    found.push(first)?;
    let mut highest = tall;
    for _turn in 0..cursor.left() {
        if !sees_selector(cursor) {
            return Ok((found, highest));
        }
        let (selector, height) = selector(nest, cursor, depth)?;
        found.push(selector)?;
        highest = highest.max(height);
    }
    Ok((found, highest))
}

/// Reads selectors, one at least (ECMA-408, 16.14 to 16.18).
pub fn selectors<
    E: Fn(Global, &mut Cursor<'_>, usize, bool) -> Result<(OpenExpr, usize), ReadFault>,
    P: Fn(Global, &mut Cursor<'_>, usize) -> Result<(Parameters, usize), ReadFault>,
    B: Fn(Global, &mut Cursor<'_>, usize) -> Result<(Block, usize), ReadFault>,
>(
    nest: &Inside<E, P, B>,
    cursor: &mut Cursor<'_>,
    depth: usize,
) -> Result<(Vec<Selector>, usize), ReadFault>
    requires nests { NestsExpr nest.now.limit (E.pre nest.now.expr) (E.post nest.now.expr) }
    requires within { depth ≤ nest.now.limit }
    ensures { GivesHigh view_selectors selectors_high depth (spec.selectors (exprs_at depth) cursor.old) result cursor.new }
{
    let (first, height) = selector(nest, cursor, depth)?;
    selectors_behind(nest, cursor, depth, first, height)
}

// A selector that is a name alone.
#[tactic(auto, unfolding(dart_tree::specs::View::selector))]
fn named_member(name: Identifier) -> Selector
    ensures { view.selector result ≡ t.member None name }
{
    Selector::Member(None, name)
}

// A name as the first selector of a cascade.
#[tactic(auto, unfolding(dart_tree::specs::Depth::selector_height))]
fn bare_member(
    alloc: Global,
    cursor: &mut Cursor<'_>,
    depth: usize,
) -> Result<(Selector, usize), ReadFault>
    ensures { GivesHigh view.selector height.selector_height depth (bare_member cursor.old) result cursor.new }
{
    let name = cursor.identifier(alloc)?;
    Ok((named_member(name), 0))
}

// The first selector of a cascade.
#[tactic(auto, unfolding(dart_tree::specs::Depth::selector_height))]
fn section_start<
    E: Fn(Global, &mut Cursor<'_>, usize, bool) -> Result<(OpenExpr, usize), ReadFault>,
    P: Fn(Global, &mut Cursor<'_>, usize) -> Result<(Parameters, usize), ReadFault>,
    B: Fn(Global, &mut Cursor<'_>, usize) -> Result<(Block, usize), ReadFault>,
>(
    nest: &Inside<E, P, B>,
    cursor: &mut Cursor<'_>,
    depth: usize,
) -> Result<(Selector, usize), ReadFault>
    requires nests { NestsExpr nest.now.limit (E.pre nest.now.expr) (E.post nest.now.expr) }
    requires within { depth ≤ nest.now.limit }
    ensures { GivesHigh view.selector height.selector_height depth (section_start depth cursor.old) result cursor.new }
{
    if cursor.sees_name() {
        return bare_member(nest.alloc, cursor, depth);
    }
    index(nest, cursor, depth)
}

/// Reads the selectors of a cascade (ECMA-408, 16.17.2 Cascaded Invocations).
pub fn section<
    E: Fn(Global, &mut Cursor<'_>, usize, bool) -> Result<(OpenExpr, usize), ReadFault>,
    P: Fn(Global, &mut Cursor<'_>, usize) -> Result<(Parameters, usize), ReadFault>,
    B: Fn(Global, &mut Cursor<'_>, usize) -> Result<(Block, usize), ReadFault>,
>(
    nest: &Inside<E, P, B>,
    cursor: &mut Cursor<'_>,
    depth: usize,
) -> Result<(Vec<Selector>, usize), ReadFault>
    requires nests { NestsExpr nest.now.limit (E.pre nest.now.expr) (E.post nest.now.expr) }
    requires within { depth ≤ nest.now.limit }
    ensures { GivesHigh view_section height.selectors_height depth (spec.section_over (exprs_at depth) cursor.old) result cursor.new }
{
    let (first, height) = section_start(nest, cursor, depth)?;
    selectors_behind(nest, cursor, depth, first, height)
}
