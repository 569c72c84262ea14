// What stands behind the parameters of a generative constructor (ECMA-408, 10.6.1 Generative Constructors).
ghost use Rattle.std.specs.Prelude.{◌≤◌, Err};
ghost use Rattle.dart_tree.specs.Depth as height;
ghost use Rattle.dart_tree.specs.Tree as tree;
ghost use Rattle.dart_tree.specs.UnitView as unit_view;
ghost use Rattle.dart_tree.specs.View as view;
ghost use Rattle.grammar_laws.specs.Readers.{mapped, deeper, sought};
ghost use Rattle.parse_constructor.specs.Views.{rest_of, rest_height, cut_initializers};
ghost use Rattle.parse_nest.specs.Nests.{NestsExpr, NestsParameters, NestsBlock};
ghost use Rattle.parse_nest.specs.Stages.{block_at};
ghost use Rattle.syntax_readers.specs.Declarations as spec;
ghost use Rattle.token_cursor.specs.Gives.{GivesHigh};

use crate::initializer::{initializers, maybe_initializers};
use crate::scan::before_body;
use dart_node::make::statement::block_body;
use dart_token::sign::Sign;
use dart_tree::declaration::Initializers;
use dart_tree::parameter::Parameters;
use dart_tree::statement::{Block, Body};
use parse_nest::inside::{Inside, OpenExpr};
use parse_parameter::look::settle;
use std::alloc::Global;
use token_cursor::cursor::Cursor;
use token_cursor::error::ReadFault;

/// The initialisers of a constructor, if it has some, and its body.
pub type Rest = (Option<Initializers>, Body);

// A block as a body.
#[tactic(auto, unfolding(dart_tree::specs::Depth::body_height))]
fn own_block<
    E: Fn(Global, &mut Cursor<'_>, usize, bool) -> Result<(OpenExpr, usize), ReadFault>,
    P: Fn(Global, &mut Cursor<'_>, usize) -> Result<(Parameters, usize), ReadFault>,
    B: Fn(Global, &mut Cursor<'_>, usize) -> Result<(Block, usize), ReadFault>,
>(nest: &Inside<E, P, B>, cursor: &mut Cursor<'_>, depth: usize) -> Result<(Body, usize), ReadFault>
    requires blocks { NestsBlock nest.now.limit (B.pre nest.now.block) (B.post nest.now.block) }
    requires within { depth ≤ nest.now.limit }
    ensures { GivesHigh view.body height.body_height depth
        (mapped tree.block_body (block_at depth) cursor.old) result cursor.new }
{
    let (block, height) = nest.block(cursor, depth)?;
    Ok((block_body(block), height))
}

// A block, or a semicolon in its place.
#[tactic(auto, unfolding(syntax_readers::specs::Declarations::block_or_none, dart_tree::specs::Depth::body_height, dart_tree::specs::View::body))]
fn block_or_none<
    E: Fn(Global, &mut Cursor<'_>, usize, bool) -> Result<(OpenExpr, usize), ReadFault>,
    P: Fn(Global, &mut Cursor<'_>, usize) -> Result<(Parameters, usize), ReadFault>,
    B: Fn(Global, &mut Cursor<'_>, usize) -> Result<(Block, usize), ReadFault>,
>(nest: &Inside<E, P, B>, cursor: &mut Cursor<'_>, depth: usize) -> Result<(Body, usize), ReadFault>
    requires blocks { NestsBlock nest.now.limit (B.pre nest.now.block) (B.post nest.now.block) }
    requires within { depth ≤ nest.now.limit }
    ensures { GivesHigh view.body height.body_height depth
        (spec.block_or_none (block_at depth) cursor.old) result cursor.new }
{
    if cursor.sees(Sign::LeftBrace) {
        return own_block(nest, cursor, depth);
    }
    let semicolon = cursor.expect(Sign::Semicolon)?;
    Ok((Body::Omitted(semicolon), 0))
}

// Initialisers that take each block that they can, and what is left.
#[tactic(auto, unfolding(syntax_readers::specs::Declarations::with_initializers))]
fn with_initializers<
    E: Fn(Global, &mut Cursor<'_>, usize, bool) -> Result<(OpenExpr, usize), ReadFault>,
    P: Fn(Global, &mut Cursor<'_>, usize) -> Result<(Parameters, usize), ReadFault>,
    B: Fn(Global, &mut Cursor<'_>, usize) -> Result<(Block, usize), ReadFault>,
>(nest: &Inside<E, P, B>, cursor: &mut Cursor<'_>, depth: usize) -> Result<(Rest, usize), ReadFault>
    requires nests { NestsExpr nest.now.limit (E.pre nest.now.expr) (E.post nest.now.expr) }
    requires parameters { NestsParameters nest.now.limit (P.pre nest.now.parameters) (P.post nest.now.parameters) }
    requires blocks { NestsBlock nest.now.limit (B.pre nest.now.block) (B.post nest.now.block) }
    requires within { depth ≤ nest.now.limit }
    ensures { GivesHigh rest_of rest_height depth
        (spec.with_initializers (spec.init depth) (block_at depth) cursor.old) result cursor.new }
{
    let (found, tall) = maybe_initializers(nest, cursor, depth)?;
    let (body, height) = block_or_none(nest, cursor, depth)?;
    Ok(((found, body), tall.max(height)))
}

// Initialisers that end before the constructor's own body.
fn own_initializers<
    E: Fn(Global, &mut Cursor<'_>, usize, bool) -> Result<(OpenExpr, usize), ReadFault>,
    P: Fn(Global, &mut Cursor<'_>, usize) -> Result<(Parameters, usize), ReadFault>,
    B: Fn(Global, &mut Cursor<'_>, usize) -> Result<(Block, usize), ReadFault>,
>(
    nest: &Inside<E, P, B>,
    cursor: &mut Cursor<'_>,
    depth: usize,
) -> Result<(Initializers, usize), ReadFault>
    requires nests { NestsExpr nest.now.limit (E.pre nest.now.expr) (E.post nest.now.expr) }
    requires parameters { NestsParameters nest.now.limit (P.pre nest.now.parameters) (P.post nest.now.parameters) }
    requires blocks { NestsBlock nest.now.limit (B.pre nest.now.block) (B.post nest.now.block) }
    requires within { depth ≤ nest.now.limit }
    ensures { GivesHigh unit_view.initializers height.initializers_height depth
        (cut_initializers (spec.init depth) cursor.old) result cursor.new }
{
    let count = before_body(cursor);
    let mut cut = cursor.up_to(count);
    let read = initializers(nest, &mut cut, depth);
    *cursor = cursor.behind(count.saturating_sub(cut.left()));
    let (found, height) = read?;
    if cut.left() > 0 {
        drop(found);
        return Err(ReadFault::Stuck);
    }
    Ok((found, height))
}

// The same, and that body.
#[tactic(auto, unfolding(syntax_readers::specs::Declarations::with_own_body))]
fn with_own_body<
    E: Fn(Global, &mut Cursor<'_>, usize, bool) -> Result<(OpenExpr, usize), ReadFault>,
    P: Fn(Global, &mut Cursor<'_>, usize) -> Result<(Parameters, usize), ReadFault>,
    B: Fn(Global, &mut Cursor<'_>, usize) -> Result<(Block, usize), ReadFault>,
>(nest: &Inside<E, P, B>, cursor: &mut Cursor<'_>, depth: usize) -> Result<(Rest, usize), ReadFault>
    requires nests { NestsExpr nest.now.limit (E.pre nest.now.expr) (E.post nest.now.expr) }
    requires parameters { NestsParameters nest.now.limit (P.pre nest.now.parameters) (P.post nest.now.parameters) }
    requires blocks { NestsBlock nest.now.limit (B.pre nest.now.block) (B.post nest.now.block) }
    requires within { depth ≤ nest.now.limit }
    ensures { GivesHigh rest_of rest_height depth
        (spec.with_own_body (spec.init depth) (block_at depth) cursor.old) result cursor.new }
{
    let (found, tall) = own_initializers(nest, cursor, depth)?;
    let (body, height) = own_block(nest, cursor, depth)?;
    Ok(((Some(found), body), tall.max(height)))
}

// The second reading, where the first stopped here.
fn or_own_body<
    'a,
    E: Fn(Global, &mut Cursor<'_>, usize, bool) -> Result<(OpenExpr, usize), ReadFault>,
    P: Fn(Global, &mut Cursor<'_>, usize) -> Result<(Parameters, usize), ReadFault>,
    B: Fn(Global, &mut Cursor<'_>, usize) -> Result<(Block, usize), ReadFault>,
>(
    nest: &Inside<E, P, B>,
    cursor: &mut Cursor<'a>,
    depth: usize,
    start: &Cursor<'a>,
) -> Result<(Rest, usize), ReadFault>
    requires nests { NestsExpr nest.now.limit (E.pre nest.now.expr) (E.post nest.now.expr) }
    requires parameters { NestsParameters nest.now.limit (P.pre nest.now.parameters) (P.post nest.now.parameters) }
    requires blocks { NestsBlock nest.now.limit (B.pre nest.now.block) (B.post nest.now.block) }
    requires within { depth ≤ nest.now.limit }
    ensures { GivesHigh rest_of rest_height depth
        (deeper (Err cursor.old) (spec.with_own_body (spec.init depth) (block_at depth) start.now)) result cursor.new }
{
    let mut second = start.fork();
    match with_own_body(nest, &mut second, depth) {
        Ok(found) => {
            if second.left() > cursor.left() {
                drop(found);
                return Err(ReadFault::Stuck);
            }
            *cursor = second;
            Ok(found)
        }
        Err(ReadFault::Memory) => Err(ReadFault::Memory),
        Err(ReadFault::Stuck) => {
            settle(cursor, &second, false);
            Err(ReadFault::Stuck)
        }
    }
}

/// Reads the initialisers and the body of a constructor, or a semicolon in place of the body (ECMA-408, 10.6.1
/// Generative Constructors).
pub fn rest<
    E: Fn(Global, &mut Cursor<'_>, usize, bool) -> Result<(OpenExpr, usize), ReadFault>,
    P: Fn(Global, &mut Cursor<'_>, usize) -> Result<(Parameters, usize), ReadFault>,
    B: Fn(Global, &mut Cursor<'_>, usize) -> Result<(Block, usize), ReadFault>,
>(nest: &Inside<E, P, B>, cursor: &mut Cursor<'_>, depth: usize) -> Result<(Rest, usize), ReadFault>
    requires nests { NestsExpr nest.now.limit (E.pre nest.now.expr) (E.post nest.now.expr) }
    requires parameters { NestsParameters nest.now.limit (P.pre nest.now.parameters) (P.post nest.now.parameters) }
    requires blocks { NestsBlock nest.now.limit (B.pre nest.now.block) (B.post nest.now.block) }
    requires within { depth ≤ nest.now.limit }
    ensures { GivesHigh rest_of rest_height depth
        (sought (spec.with_initializers (spec.init depth) (block_at depth))
        (spec.with_own_body (spec.init depth) (block_at depth)) cursor.old) result cursor.new }
{
    let start = cursor.fork();
    match with_initializers(nest, cursor, depth) {
        Ok(found) => Ok(found),
        Err(ReadFault::Memory) => Err(ReadFault::Memory),
        Err(ReadFault::Stuck) => or_own_body(nest, cursor, depth, &start),
    }
}
