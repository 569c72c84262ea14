// Statements that handle exceptions (ECMA-408, 17.11 Try).
ghost use Rattle.std.specs.Prelude.{◌≤◌, ◌<◌, ◌+◌};
ghost use Rattle.dart_tree.specs.Depth as height;
ghost use Rattle.dart_tree.specs.View as view;
ghost use Rattle.parse_nest.specs.Nests.{NestsBlock};
ghost use Rattle.parse_stmt.specs.Views.{part_of, view_parts, catch_part_at, on_part_at, try_part_at, handlers_at, finally_at, handled_at, try_parts_at, try_at};
ghost use Rattle.token_cursor.specs.Gives.{GivesHigh};

use dart_node::make::statement as make;
use dart_token::word::Word;
use dart_tree::expression::Expr;
use dart_tree::parameter::Parameters;
use dart_tree::statement::{Block, Stmt, TryKind, TryPart};
use parse_jump::catching::{catch_clause, maybe_catch, on_type, try_part_comes};
use parse_nest::inside::{Inside, OpenExpr};
use std::alloc::Global;
use token_cursor::cursor::Cursor;
use token_cursor::error::ReadFault;

// A part that `catch` begins.
#[tactic(auto, unfolding(dart_tree::specs::Depth::try_parts_height))]
fn catch_part<
    E: Fn(Global, &mut Cursor<'_>, usize, bool) -> Result<(OpenExpr, usize), ReadFault>,
    P: Fn(Global, &mut Cursor<'_>, usize) -> Result<(Parameters, usize), ReadFault>,
    B: Fn(Global, &mut Cursor<'_>, usize) -> Result<(Block, usize), ReadFault>,
>(
    nest: &Inside<E, P, B>,
    cursor: &mut Cursor<'_>,
    depth: usize,
) -> Result<(TryPart, usize), ReadFault>
    requires blocks { NestsBlock nest.now.limit (B.pre nest.now.block) (B.post nest.now.block) }
    requires within { depth ≤ nest.now.limit }
    ensures { GivesHigh part_of height.try_parts_height depth (catch_part_at depth cursor.old) result cursor.new }
{
    let (clause, tall) = catch_clause(nest.alloc, cursor, depth)?;
    let (block, height) = nest.block(cursor, depth)?;
    let kind = TryKind::Catch(clause);
    Ok((TryPart { kind, block }, tall.max(height)))
}

// A part that `on` begins.
#[tactic(auto, unfolding(dart_tree::specs::Depth::try_parts_height))]
fn on_part<
    E: Fn(Global, &mut Cursor<'_>, usize, bool) -> Result<(OpenExpr, usize), ReadFault>,
    P: Fn(Global, &mut Cursor<'_>, usize) -> Result<(Parameters, usize), ReadFault>,
    B: Fn(Global, &mut Cursor<'_>, usize) -> Result<(Block, usize), ReadFault>,
>(
    nest: &Inside<E, P, B>,
    cursor: &mut Cursor<'_>,
    depth: usize,
) -> Result<(TryPart, usize), ReadFault>
    requires blocks { NestsBlock nest.now.limit (B.pre nest.now.block) (B.post nest.now.block) }
    requires within { depth ≤ nest.now.limit }
    ensures { GivesHigh part_of height.try_parts_height depth (on_part_at depth cursor.old) result cursor.new }
{
    let ((word, type_node), tall) = on_type(nest.alloc, cursor, depth)?;
    let (catch, taller) = maybe_catch(nest.alloc, cursor, depth)?;
    let (block, tallest) = nest.block(cursor, depth)?;
    let kind = TryKind::On {
        word,
        type_node,
        catch,
    };
    Ok((TryPart { kind, block }, tall.max(taller.max(tallest))))
}

// A part that handles exceptions.
fn try_part<
    E: Fn(Global, &mut Cursor<'_>, usize, bool) -> Result<(OpenExpr, usize), ReadFault>,
    P: Fn(Global, &mut Cursor<'_>, usize) -> Result<(Parameters, usize), ReadFault>,
    B: Fn(Global, &mut Cursor<'_>, usize) -> Result<(Block, usize), ReadFault>,
>(
    nest: &Inside<E, P, B>,
    cursor: &mut Cursor<'_>,
    depth: usize,
) -> Result<(TryPart, usize), ReadFault>
    requires blocks { NestsBlock nest.now.limit (B.pre nest.now.block) (B.post nest.now.block) }
    requires within { depth ≤ nest.now.limit }
    ensures { GivesHigh part_of height.try_parts_height depth (try_part_at depth cursor.old) result cursor.new }
{
    if cursor.sees_word(Word::Catch) {
        return catch_part(nest, cursor, depth);
    }
    on_part(nest, cursor, depth)
}

// One such part or more.
fn handlers<
    E: Fn(Global, &mut Cursor<'_>, usize, bool) -> Result<(OpenExpr, usize), ReadFault>,
    P: Fn(Global, &mut Cursor<'_>, usize) -> Result<(Parameters, usize), ReadFault>,
    B: Fn(Global, &mut Cursor<'_>, usize) -> Result<(Block, usize), ReadFault>,
>(
    nest: &Inside<E, P, B>,
    cursor: &mut Cursor<'_>,
    depth: usize,
) -> Result<(Vec<TryPart>, usize), ReadFault>
    requires blocks { NestsBlock nest.now.limit (B.pre nest.now.block) (B.post nest.now.block) }
    requires within { depth ≤ nest.now.limit }
    ensures { GivesHigh view_parts height.try_parts_height depth (handlers_at depth cursor.old) result cursor.new }
{
    let (first, height) = try_part(nest, cursor, depth)?;
    let mut found = Vec::new(nest.alloc);
    found.push(first)?;
    let mut highest = height;
    for _turn in 0..cursor.left() {
        let comes = try_part_comes(nest.alloc, cursor, depth)?;
        if !comes {
            return Ok((found, highest));
        }
        let (further, height) = try_part(nest, cursor, depth)?;
        found.push(further)?;
        highest = highest.max(height);
    }
    Ok((found, highest))
}

// The part that `finally` begins.
#[tactic(auto, unfolding(syntax_readers::specs::Statements::finally_over, dart_tree::specs::Depth::try_parts_height))]
fn finally_part<
    E: Fn(Global, &mut Cursor<'_>, usize, bool) -> Result<(OpenExpr, usize), ReadFault>,
    P: Fn(Global, &mut Cursor<'_>, usize) -> Result<(Parameters, usize), ReadFault>,
    B: Fn(Global, &mut Cursor<'_>, usize) -> Result<(Block, usize), ReadFault>,
>(
    nest: &Inside<E, P, B>,
    cursor: &mut Cursor<'_>,
    depth: usize,
) -> Result<(TryPart, usize), ReadFault>
    requires blocks { NestsBlock nest.now.limit (B.pre nest.now.block) (B.post nest.now.block) }
    requires within { depth ≤ nest.now.limit }
    ensures { GivesHigh part_of height.try_parts_height depth (finally_at depth cursor.old) result cursor.new }
{
    let word = cursor.expect_word(Word::Finally)?;
    let (block, height) = nest.block(cursor, depth)?;
    let kind = TryKind::Finally(word);
    Ok((TryPart { kind, block }, height))
}

// This part alone.
fn only_finally<
    E: Fn(Global, &mut Cursor<'_>, usize, bool) -> Result<(OpenExpr, usize), ReadFault>,
    P: Fn(Global, &mut Cursor<'_>, usize) -> Result<(Parameters, usize), ReadFault>,
    B: Fn(Global, &mut Cursor<'_>, usize) -> Result<(Block, usize), ReadFault>,
>(
    nest: &Inside<E, P, B>,
    cursor: &mut Cursor<'_>,
    depth: usize,
) -> Result<(Vec<TryPart>, usize), ReadFault>
    requires blocks { NestsBlock nest.now.limit (B.pre nest.now.block) (B.post nest.now.block) }
    requires within { depth ≤ nest.now.limit }
    ensures { GivesHigh view_parts height.try_parts_height depth (finally_at depth cursor.old) result cursor.new }
{
    let (last, height) = finally_part(nest, cursor, depth)?;
    let mut found = Vec::new(nest.alloc);
    found.push(last)?;
    Ok((found, height))
}

// Parts that handle exceptions, and the part that `finally` begins behind them, if it comes.
fn handled<
    E: Fn(Global, &mut Cursor<'_>, usize, bool) -> Result<(OpenExpr, usize), ReadFault>,
    P: Fn(Global, &mut Cursor<'_>, usize) -> Result<(Parameters, usize), ReadFault>,
    B: Fn(Global, &mut Cursor<'_>, usize) -> Result<(Block, usize), ReadFault>,
>(
    nest: &Inside<E, P, B>,
    cursor: &mut Cursor<'_>,
    depth: usize,
) -> Result<(Vec<TryPart>, usize), ReadFault>
    requires blocks { NestsBlock nest.now.limit (B.pre nest.now.block) (B.post nest.now.block) }
    requires within { depth ≤ nest.now.limit }
    ensures { GivesHigh view_parts height.try_parts_height depth (handled_at depth cursor.old) result cursor.new }
{
    let (mut found, tall) = handlers(nest, cursor, depth)?;
    if !cursor.sees_word(Word::Finally) {
        return Ok((found, tall));
    }
    let (last, height) = finally_part(nest, cursor, depth)?;
    found.push(last)?;
    Ok((found, tall.max(height)))
}

// The parts of a `try`.
#[inline(never)]
fn try_parts<
    E: Fn(Global, &mut Cursor<'_>, usize, bool) -> Result<(OpenExpr, usize), ReadFault>,
    P: Fn(Global, &mut Cursor<'_>, usize) -> Result<(Parameters, usize), ReadFault>,
    B: Fn(Global, &mut Cursor<'_>, usize) -> Result<(Block, usize), ReadFault>,
>(
    nest: &Inside<E, P, B>,
    cursor: &mut Cursor<'_>,
    depth: usize,
) -> Result<(Vec<TryPart>, usize), ReadFault>
    requires blocks { NestsBlock nest.now.limit (B.pre nest.now.block) (B.post nest.now.block) }
    requires within { depth ≤ nest.now.limit }
    ensures { GivesHigh view_parts height.try_parts_height depth (try_parts_at depth cursor.old) result cursor.new }
{
    if cursor.sees_word(Word::Finally) {
        return only_finally(nest, cursor, depth);
    }
    handled(nest, cursor, depth)
}

/// Reads a `try` whose parts have at most so many nodes above one another (ECMA-408, 17.11 Try).
#[inline(never)]
#[tactic(auto, unfolding(dart_tree::specs::Depth::stmt_height))]
pub fn try_stmt<
    E: Fn(Global, &mut Cursor<'_>, usize, bool) -> Result<(OpenExpr, usize), ReadFault>,
    P: Fn(Global, &mut Cursor<'_>, usize) -> Result<(Parameters, usize), ReadFault>,
    B: Fn(Global, &mut Cursor<'_>, usize) -> Result<(Block, usize), ReadFault>,
>(nest: &Inside<E, P, B>, cursor: &mut Cursor<'_>, depth: usize) -> Result<(Stmt, usize), ReadFault>
    requires blocks { NestsBlock nest.now.limit (B.pre nest.now.block) (B.post nest.now.block) }
    requires within { depth ≤ nest.now.limit }
    requires room { depth + 1 < 18446744073709551616 }
    ensures { GivesHigh view.stmt height.stmt_height (depth + 1) (try_at depth cursor.old) result cursor.new }
{
    let word = cursor.expect_word(Word::Try)?;
    let (block, tall) = nest.block(cursor, depth)?;
    let (parts, height) = try_parts(nest, cursor, depth)?;
    Ok((
        make::try_statement(word, block, parts),
        tall.max(height) + 1,
    ))
}
