// List and map literals (ECMA-408, 16.7 Lists and 16.8 Maps).
ghost use Rattle.std.specs.Prelude.{◌≤◌, ◌<◌, ◌+◌, ◌^◌, Err};
ghost use Rattle.dart_tree.specs.Depth as height;
ghost use Rattle.dart_tree.specs.View as view;
ghost use Rattle.grammar_laws.specs.Readers.{tried, farther};
ghost use Rattle.syntax_readers.specs.Types.{type_reader};
ghost use Rattle.token_cursor.specs.Gives.{GivesHigh};
ghost use Rattle.parse_nest.specs.Nests.{NestsExpr};
ghost use Rattle.parse_nest.specs.Stages.{closed_at, exprs_at};
ghost use Rattle.syntax_readers.specs.Primaries as spec;
ghost use Rattle.parse_literal.specs.Views.{items_and_comma, items_and_comma_height, entries_and_comma, entries_and_comma_height, some_items, some_entries, entry_of, entry_height};

use crate::look::{move_later, sees_expr};
use dart_base::place::Place;
use dart_node::make::expression as make;
use dart_token::sign::Sign;
use dart_tree::expression::{Entry, Expr, Item, Primary};
use dart_tree::parameter::Parameters;
use dart_tree::statement::Block;
use parse_nest::inside::{Inside, OpenExpr};
use parse_type::types::{list_type_arguments, map_type_arguments};
use std::alloc::Global;
use token_cursor::cursor::Cursor;
use token_cursor::error::ReadFault;

// Expressions with commas between them, and a comma behind them or none.
type Items = (Vec<Item>, Option<Place>);

// The same of entries.
type Entries = (Vec<Entry>, Option<Place>);

// Expressions with commas between them, and a comma behind them or none.
fn some_items<
    E: Fn(Global, &mut Cursor<'_>, usize, bool) -> Result<(OpenExpr, usize), ReadFault>,
    P: Fn(Global, &mut Cursor<'_>, usize) -> Result<(Parameters, usize), ReadFault>,
    B: Fn(Global, &mut Cursor<'_>, usize) -> Result<(Block, usize), ReadFault>,
>(
    nest: &Inside<E, P, B>,
    cursor: &mut Cursor<'_>,
    depth: usize,
) -> Result<(Items, usize), ReadFault>
    requires nests { NestsExpr nest.now.limit (E.pre nest.now.expr) (E.post nest.now.expr) }
    requires within { depth ≤ nest.now.limit }
    ensures { GivesHigh items_and_comma items_and_comma_height depth (some_items (closed_at depth) cursor.old) result cursor.new }
{
    let (value, first) = nest.expr(cursor, depth)?;
    let mut found = Vec::new(nest.alloc);
    found.push(Item {
        comma: None,
        label: None,
        value,
    })?;
    let mut highest = first;
    for _turn in 0..cursor.left() {
        if !cursor.sees(Sign::Comma) {
            return Ok(((found, None), highest));
        }
        let comma = cursor.expect(Sign::Comma)?;
        if !sees_expr(cursor) {
            return Ok(((found, Some(comma)), highest));
        }
        let (value, height) = nest.expr(cursor, depth)?;
        found.push(Item {
            comma: Some(comma),
            label: None,
            value,
        })?;
        highest = highest.max(height);
    }
    Ok(((found, None), highest))
}

// The same, or none.
fn list_items<
    E: Fn(Global, &mut Cursor<'_>, usize, bool) -> Result<(OpenExpr, usize), ReadFault>,
    P: Fn(Global, &mut Cursor<'_>, usize) -> Result<(Parameters, usize), ReadFault>,
    B: Fn(Global, &mut Cursor<'_>, usize) -> Result<(Block, usize), ReadFault>,
>(
    nest: &Inside<E, P, B>,
    cursor: &mut Cursor<'_>,
    depth: usize,
) -> Result<(Items, usize), ReadFault>
    requires nests { NestsExpr nest.now.limit (E.pre nest.now.expr) (E.post nest.now.expr) }
    requires within { depth ≤ nest.now.limit }
    ensures { GivesHigh items_and_comma items_and_comma_height depth (spec.list_items (closed_at depth) cursor.old) result cursor.new }
{
    if !sees_expr(cursor) {
        return Ok(((Vec::new(nest.alloc), None), 0));
    }
    some_items(nest, cursor, depth)
}

// A list literal.
#[tactic(auto, unfolding(syntax_readers::specs::Primaries::list_over, dart_tree::specs::Depth::primary_height))]
fn list_literal<
    E: Fn(Global, &mut Cursor<'_>, usize, bool) -> Result<(OpenExpr, usize), ReadFault>,
    P: Fn(Global, &mut Cursor<'_>, usize) -> Result<(Parameters, usize), ReadFault>,
    B: Fn(Global, &mut Cursor<'_>, usize) -> Result<(Block, usize), ReadFault>,
>(
    nest: &Inside<E, P, B>,
    cursor: &mut Cursor<'_>,
    depth: usize,
) -> Result<(Primary, usize), ReadFault>
    requires nests { NestsExpr nest.now.limit (E.pre nest.now.expr) (E.post nest.now.expr) }
    requires within { depth ≤ nest.now.limit }
    requires room { depth + 1 < 2 ^ 64 }
    ensures { GivesHigh view.primary height.primary_height (depth + 1) (spec.list_over (type_reader depth) (closed_at depth) cursor.old) result cursor.new }
{
    let (type_arguments, of_types) = list_type_arguments(nest.alloc, cursor, depth)?;
    let opening = cursor.expect(Sign::LeftBracket)?;
    let ((items, comma), of_items) = list_items(nest, cursor, depth)?;
    let closing = cursor.expect(Sign::RightBracket)?;
    Ok((
        make::list_literal(nest.alloc, type_arguments, opening, items, comma, closing)?,
        of_types.max(of_items) + 1,
    ))
}

// An expression, a colon and an expression.
#[tactic(auto, unfolding(syntax_readers::specs::Primaries::entry))]
fn entry<
    E: Fn(Global, &mut Cursor<'_>, usize, bool) -> Result<(OpenExpr, usize), ReadFault>,
    P: Fn(Global, &mut Cursor<'_>, usize) -> Result<(Parameters, usize), ReadFault>,
    B: Fn(Global, &mut Cursor<'_>, usize) -> Result<(Block, usize), ReadFault>,
>(
    nest: &Inside<E, P, B>,
    cursor: &mut Cursor<'_>,
    depth: usize,
) -> Result<((Expr, (Place, Expr)), usize), ReadFault>
    requires nests { NestsExpr nest.now.limit (E.pre nest.now.expr) (E.post nest.now.expr) }
    requires within { depth ≤ nest.now.limit }
    ensures { GivesHigh entry_of entry_height depth (spec.entry (closed_at depth) cursor.old) result cursor.new }
{
    let (key, first) = nest.expr(cursor, depth)?;
    let colon = cursor.expect(Sign::Colon)?;
    let (value, second) = nest.expr(cursor, depth)?;
    Ok(((key, (colon, value)), first.max(second)))
}

// Entries with commas between them, and a comma behind them or none.
fn some_entries<
    E: Fn(Global, &mut Cursor<'_>, usize, bool) -> Result<(OpenExpr, usize), ReadFault>,
    P: Fn(Global, &mut Cursor<'_>, usize) -> Result<(Parameters, usize), ReadFault>,
    B: Fn(Global, &mut Cursor<'_>, usize) -> Result<(Block, usize), ReadFault>,
>(
    nest: &Inside<E, P, B>,
    cursor: &mut Cursor<'_>,
    depth: usize,
) -> Result<(Entries, usize), ReadFault>
    requires nests { NestsExpr nest.now.limit (E.pre nest.now.expr) (E.post nest.now.expr) }
    requires within { depth ≤ nest.now.limit }
    ensures { GivesHigh entries_and_comma entries_and_comma_height depth (some_entries (closed_at depth) cursor.old) result cursor.new }
{
    let ((key, (colon, value)), first) = entry(nest, cursor, depth)?;
    let mut found = Vec::new(nest.alloc);
    found.push(Entry {
        comma: None,
        key,
        colon,
        value,
    })?;
    let mut highest = first;
    for _turn in 0..cursor.left() {
        if !cursor.sees(Sign::Comma) {
            return Ok(((found, None), highest));
        }
        let comma = cursor.expect(Sign::Comma)?;
        if !sees_expr(cursor) {
            return Ok(((found, Some(comma)), highest));
        }
        let ((key, (colon, value)), height) = entry(nest, cursor, depth)?;
        found.push(Entry {
            comma: Some(comma),
            key,
            colon,
            value,
        })?;
        highest = highest.max(height);
    }
    Ok(((found, None), highest))
}

// The same, or none.
fn map_entries<
    E: Fn(Global, &mut Cursor<'_>, usize, bool) -> Result<(OpenExpr, usize), ReadFault>,
    P: Fn(Global, &mut Cursor<'_>, usize) -> Result<(Parameters, usize), ReadFault>,
    B: Fn(Global, &mut Cursor<'_>, usize) -> Result<(Block, usize), ReadFault>,
>(
    nest: &Inside<E, P, B>,
    cursor: &mut Cursor<'_>,
    depth: usize,
) -> Result<(Entries, usize), ReadFault>
    requires nests { NestsExpr nest.now.limit (E.pre nest.now.expr) (E.post nest.now.expr) }
    requires within { depth ≤ nest.now.limit }
    ensures { GivesHigh entries_and_comma entries_and_comma_height depth (spec.map_entries (closed_at depth) cursor.old) result cursor.new }
{
    if !sees_expr(cursor) {
        return Ok(((Vec::new(nest.alloc), None), 0));
    }
    some_entries(nest, cursor, depth)
}

// A map literal.
#[tactic(auto, unfolding(syntax_readers::specs::Primaries::map_over, dart_tree::specs::Depth::primary_height))]
fn map_literal<
    E: Fn(Global, &mut Cursor<'_>, usize, bool) -> Result<(OpenExpr, usize), ReadFault>,
    P: Fn(Global, &mut Cursor<'_>, usize) -> Result<(Parameters, usize), ReadFault>,
    B: Fn(Global, &mut Cursor<'_>, usize) -> Result<(Block, usize), ReadFault>,
>(
    nest: &Inside<E, P, B>,
    cursor: &mut Cursor<'_>,
    depth: usize,
) -> Result<(Primary, usize), ReadFault>
    requires nests { NestsExpr nest.now.limit (E.pre nest.now.expr) (E.post nest.now.expr) }
    requires within { depth ≤ nest.now.limit }
    requires room { depth + 1 < 2 ^ 64 }
    ensures { GivesHigh view.primary height.primary_height (depth + 1) (spec.map_over (type_reader depth) (closed_at depth) cursor.old) result cursor.new }
{
    let (type_arguments, of_types) = map_type_arguments(nest.alloc, cursor, depth)?;
    let opening = cursor.expect(Sign::LeftBrace)?;
    let ((entries, comma), of_entries) = map_entries(nest, cursor, depth)?;
    let closing = cursor.expect(Sign::RightBrace)?;
    Ok((
        make::map_literal(nest.alloc, type_arguments, opening, entries, comma, closing)?,
        of_types.max(of_entries) + 1,
    ))
}

// A map literal, read from the start where a list literal stopped at the cursor.
fn map_behind_list<
    'a,
    E: Fn(Global, &mut Cursor<'_>, usize, bool) -> Result<(OpenExpr, usize), ReadFault>,
    P: Fn(Global, &mut Cursor<'_>, usize) -> Result<(Parameters, usize), ReadFault>,
    B: Fn(Global, &mut Cursor<'_>, usize) -> Result<(Block, usize), ReadFault>,
>(
    nest: &Inside<E, P, B>,
    start: &Cursor<'a>,
    cursor: &mut Cursor<'a>,
    depth: usize,
) -> Result<(Primary, usize), ReadFault>
    requires nests { NestsExpr nest.now.limit (E.pre nest.now.expr) (E.post nest.now.expr) }
    requires within { depth ≤ nest.now.limit }
    requires room { depth + 1 < 2 ^ 64 }
    ensures { GivesHigh view.primary height.primary_height (depth + 1)
        (farther (Err cursor.old) (spec.map_over (type_reader depth) (closed_at depth) start.now)) result cursor.new }
{
    let mut other = start.fork();
    match map_literal(nest, &mut other, depth) {
        Ok(found) => {
            *cursor = other;
            Ok(found)
        }
        Err(fault) => {
            move_later(cursor, &other);
            Err(fault)
        }
    }
}

// One of them behind type arguments, which tell them apart.
fn typed_literal<
    E: Fn(Global, &mut Cursor<'_>, usize, bool) -> Result<(OpenExpr, usize), ReadFault>,
    P: Fn(Global, &mut Cursor<'_>, usize) -> Result<(Parameters, usize), ReadFault>,
    B: Fn(Global, &mut Cursor<'_>, usize) -> Result<(Block, usize), ReadFault>,
>(
    nest: &Inside<E, P, B>,
    cursor: &mut Cursor<'_>,
    depth: usize,
) -> Result<(Primary, usize), ReadFault>
    requires nests { NestsExpr nest.now.limit (E.pre nest.now.expr) (E.post nest.now.expr) }
    requires within { depth ≤ nest.now.limit }
    requires room { depth + 1 < 2 ^ 64 }
    ensures { GivesHigh view.primary height.primary_height (depth + 1)
        (tried (spec.list_over (type_reader depth) (closed_at depth)) (spec.map_over (type_reader depth) (closed_at depth)) cursor.old) result cursor.new }
{
    let start = cursor.fork();
    match list_literal(nest, cursor, depth) {
        Ok(found) => Ok(found),
        Err(ReadFault::Memory) => Err(ReadFault::Memory),
        Err(ReadFault::Stuck) => map_behind_list(nest, &start, cursor, depth),
    }
}

// A list or map literal, over the nodes inside.
#[tactic(auto, unfolding(syntax_readers::specs::Primaries::collection_over))]
fn collection_over<
    E: Fn(Global, &mut Cursor<'_>, usize, bool) -> Result<(OpenExpr, usize), ReadFault>,
    P: Fn(Global, &mut Cursor<'_>, usize) -> Result<(Parameters, usize), ReadFault>,
    B: Fn(Global, &mut Cursor<'_>, usize) -> Result<(Block, usize), ReadFault>,
>(
    nest: &Inside<E, P, B>,
    cursor: &mut Cursor<'_>,
    depth: usize,
) -> Result<(Primary, usize), ReadFault>
    requires nests { NestsExpr nest.now.limit (E.pre nest.now.expr) (E.post nest.now.expr) }
    requires within { depth ≤ nest.now.limit }
    requires room { depth + 1 < 2 ^ 64 }
    ensures { GivesHigh view.primary height.primary_height (depth + 1) (spec.collection_over (type_reader depth) (closed_at depth) cursor.old) result cursor.new }
{
    if cursor.sees(Sign::LeftBracket) {
        return list_literal(nest, cursor, depth);
    }
    if cursor.sees(Sign::LeftBrace) {
        return map_literal(nest, cursor, depth);
    }
    typed_literal(nest, cursor, depth)
}

/// Reads a list or map literal (ECMA-408, 16.7 Lists and 16.8 Maps).
pub fn collection<
    E: Fn(Global, &mut Cursor<'_>, usize, bool) -> Result<(OpenExpr, usize), ReadFault>,
    P: Fn(Global, &mut Cursor<'_>, usize) -> Result<(Parameters, usize), ReadFault>,
    B: Fn(Global, &mut Cursor<'_>, usize) -> Result<(Block, usize), ReadFault>,
>(
    nest: &Inside<E, P, B>,
    cursor: &mut Cursor<'_>,
    depth: usize,
) -> Result<(Primary, usize), ReadFault>
    requires nests { NestsExpr nest.now.limit (E.pre nest.now.expr) (E.post nest.now.expr) }
    requires within { depth ≤ nest.now.limit }
    ensures { GivesHigh view.primary height.primary_height depth ((exprs_at depth).collection cursor.old) result cursor.new }
{
    if depth == 0 {
        return Err(ReadFault::Stuck);
    }
    collection_over(nest, cursor, depth - 1)
}
