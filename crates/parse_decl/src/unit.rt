// Units (ECMA-408, 18 Libraries and Scripts).
ghost use Rattle.std.specs.Prelude.{◌≡◌, ◌≤◌, ◌<◌, ◌+◌, [], IfOk};
ghost use Rattle.dart_tree.specs.Depth as height;
ghost use Rattle.dart_tree.specs.UnitView as view;
ghost use Rattle.parse_decl.specs.Views.{item_of, items_at, items_height, with_item};
ghost use Rattle.parse_nest.specs.Nests.{NestsExpr, NestsParameters, NestsBlock};
ghost use Rattle.syntax_readers.specs.Units as spec;
ghost use Rattle.token_cursor.specs.Gives.{GivesHigh};

use crate::item::item;
use crate::look::sees_item;
use crate::order::{Item, Still, behind_item};
use dart_tree::parameter::Parameters;
use dart_tree::statement::Block;
use dart_tree::unit::Unit;
use parse_nest::inside::{Inside, OpenExpr};
use std::alloc::{AllocError, Global};
use token_cursor::cursor::Cursor;
use token_cursor::error::ReadFault;

// A unit of which nothing is read.
fn no_items(alloc: Global) -> Unit
    ensures { view.unit result ≡ spec.to_unit [] }
{
    Unit {
        directives: Vec::new(alloc),
        declarations: Vec::new(alloc),
    }
}

// Puts an item behind the others of its kind.
fn add(unit: &mut Unit, item: Item) -> Result<(), AllocError>
    ensures { IfOk result (λ x. view.unit unit.new ≡ with_item (view.unit unit.old) (item_of item)) }
{
    match item {
        Item::Directive(directive) => unit.directives.push(directive)?,
        Item::Decl(decl) => unit.declarations.push(decl)?,
    }
    Ok(())
}

// The items of a unit, as long as one comes.
fn items<
    E: Fn(Global, &mut Cursor<'_>, usize, bool) -> Result<(OpenExpr, usize), ReadFault>,
    P: Fn(Global, &mut Cursor<'_>, usize) -> Result<(Parameters, usize), ReadFault>,
    B: Fn(Global, &mut Cursor<'_>, usize) -> Result<(Block, usize), ReadFault>,
>(nest: &Inside<E, P, B>, cursor: &mut Cursor<'_>, depth: usize) -> Result<(Unit, usize), ReadFault>
    requires nests { NestsExpr nest.now.limit (E.pre nest.now.expr) (E.post nest.now.expr) }
    requires parameters { NestsParameters nest.now.limit (P.pre nest.now.parameters) (P.post nest.now.parameters) }
    requires blocks { NestsBlock nest.now.limit (B.pre nest.now.block) (B.post nest.now.block) }
    requires within { depth ≤ nest.now.limit }
    ensures { GivesHigh view.unit items_height depth
        (items_at depth cursor.old) result cursor.new }
{
    let mut found = no_items(nest.alloc);
    let mut still = Still::AllDirectives;
    let mut highest = 0;
    for _turn in 0..cursor.left() {
        if !sees_item(cursor) {
            return Ok((found, highest));
        }
        let (next, height) = item(nest, cursor, depth, still)?;
        still = behind_item(&next);
        add(&mut found, next)?;
        highest = highest.max(height);
    }
    Ok((found, highest))
}

// A unit whose items have at most so many nodes above one another.
#[tactic(auto, unfolding(syntax_readers::specs::Units::unit_over))]
fn unit_over<
    E: Fn(Global, &mut Cursor<'_>, usize, bool) -> Result<(OpenExpr, usize), ReadFault>,
    P: Fn(Global, &mut Cursor<'_>, usize) -> Result<(Parameters, usize), ReadFault>,
    B: Fn(Global, &mut Cursor<'_>, usize) -> Result<(Block, usize), ReadFault>,
>(nest: &Inside<E, P, B>, cursor: &mut Cursor<'_>, depth: usize) -> Result<(Unit, usize), ReadFault>
    requires nests { NestsExpr nest.now.limit (E.pre nest.now.expr) (E.post nest.now.expr) }
    requires parameters { NestsParameters nest.now.limit (P.pre nest.now.parameters) (P.post nest.now.parameters) }
    requires blocks { NestsBlock nest.now.limit (B.pre nest.now.block) (B.post nest.now.block) }
    requires within { depth ≤ nest.now.limit }
    requires room { depth + 1 < 18446744073709551616 }
    ensures { GivesHigh view.unit height.unit_height (depth + 1)
        (spec.unit_over depth cursor.old) result cursor.new }
{
    let (found, height) = items(nest, cursor, depth)?;
    Ok((found, height + 1))
}

/// Reads a unit, which is a node (ECMA-408, 18 Libraries and Scripts).
pub fn unit<
    E: Fn(Global, &mut Cursor<'_>, usize, bool) -> Result<(OpenExpr, usize), ReadFault>,
    P: Fn(Global, &mut Cursor<'_>, usize) -> Result<(Parameters, usize), ReadFault>,
    B: Fn(Global, &mut Cursor<'_>, usize) -> Result<(Block, usize), ReadFault>,
>(nest: &Inside<E, P, B>, cursor: &mut Cursor<'_>, depth: usize) -> Result<(Unit, usize), ReadFault>
    requires nests { NestsExpr nest.now.limit (E.pre nest.now.expr) (E.post nest.now.expr) }
    requires parameters { NestsParameters nest.now.limit (P.pre nest.now.parameters) (P.post nest.now.parameters) }
    requires blocks { NestsBlock nest.now.limit (B.pre nest.now.block) (B.post nest.now.block) }
    requires within { depth ≤ nest.now.limit }
    ensures { GivesHigh view.unit height.unit_height depth
        (spec.unit_reader depth cursor.old) result cursor.new }
{
    if depth == 0 {
        return Err(ReadFault::Stuck);
    }
    unit_over(nest, cursor, depth - 1)
}
