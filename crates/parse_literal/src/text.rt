// Strings, with the expressions in them (ECMA-408, 16.5 Strings).
ghost use Rattle.std.specs.Prelude.{◌≤◌};
ghost use Rattle.dart_tree.specs.Depth as height;
ghost use Rattle.grammar_laws.specs.Readers.{both};
ghost use Rattle.token_codes.specs.Codes.{middle_code};
ghost use Rattle.token_codes.specs.Leaves.{head, piece};
ghost use Rattle.token_cursor.specs.Gives.{GivesHigh};
ghost use Rattle.parse_nest.specs.Nests.{NestsExpr};
ghost use Rattle.parse_nest.specs.Stages.{closed_at};
ghost use Rattle.syntax_readers.specs.Primaries as spec;
ghost use Rattle.parse_literal.specs.Views.{view_pieces, head_part_of, head_part_height, text_part_of, text_part_height, begun_text};

use crate::look::sees_string;
use dart_node::make::expression as make;
use dart_tree::expression::{Expr, PieceKind, StringPiece, Value};
use dart_tree::parameter::Parameters;
use dart_tree::statement::Block;
use parse_nest::inside::{Inside, OpenExpr};
use std::alloc::Global;
use token_cursor::codes::{MIDDLE, TAIL, WHOLE};
use token_cursor::cursor::{Cursor, HeadText, PieceText};
use token_cursor::error::ReadFault;

// A string without expressions.
#[tactic(auto, unfolding(syntax_readers::specs::Primaries::whole_text, dart_tree::specs::View::value, dart_tree::specs::Depth::value_height, dart_tree::specs::Depth::pieces_height))]
fn whole_text(
    alloc: Global,
    cursor: &mut Cursor<'_>,
) -> Result<(Vec<StringPiece>, usize), ReadFault>
    ensures { GivesHigh view_pieces height.pieces_height 0 (spec.whole_text cursor.old) result cursor.new }
{
    let piece = cursor.piece(alloc, WHOLE)?;
    let mut found = Vec::new(alloc);
    found.push(StringPiece {
        kind: PieceKind::Whole,
        place: piece.place,
        text: piece.text,
        value: Value::Omitted,
    })?;
    Ok((found, 0))
}

// The first piece of a string, and the expression behind it.
fn head_part<
    E: Fn(Global, &mut Cursor<'_>, usize, bool) -> Result<(OpenExpr, usize), ReadFault>,
    P: Fn(Global, &mut Cursor<'_>, usize) -> Result<(Parameters, usize), ReadFault>,
    B: Fn(Global, &mut Cursor<'_>, usize) -> Result<(Block, usize), ReadFault>,
>(
    nest: &Inside<E, P, B>,
    cursor: &mut Cursor<'_>,
    depth: usize,
) -> Result<((HeadText, Expr), usize), ReadFault>
    requires nests { NestsExpr nest.now.limit (E.pre nest.now.expr) (E.post nest.now.expr) }
    requires within { depth ≤ nest.now.limit }
    ensures { GivesHigh head_part_of head_part_height depth (both head (closed_at depth) cursor.old) result cursor.new }
{
    let head = cursor.head(nest.alloc)?;
    let (value, height) = nest.expr(cursor, depth)?;
    Ok(((head, value), height))
}

// A piece between two expressions, and the expression behind it.
fn middle_part<
    E: Fn(Global, &mut Cursor<'_>, usize, bool) -> Result<(OpenExpr, usize), ReadFault>,
    P: Fn(Global, &mut Cursor<'_>, usize) -> Result<(Parameters, usize), ReadFault>,
    B: Fn(Global, &mut Cursor<'_>, usize) -> Result<(Block, usize), ReadFault>,
>(
    nest: &Inside<E, P, B>,
    cursor: &mut Cursor<'_>,
    depth: usize,
) -> Result<((PieceText, Expr), usize), ReadFault>
    requires nests { NestsExpr nest.now.limit (E.pre nest.now.expr) (E.post nest.now.expr) }
    requires within { depth ≤ nest.now.limit }
    ensures { GivesHigh text_part_of text_part_height depth (both (piece middle_code) (closed_at depth) cursor.old) result cursor.new }
{
    let text = cursor.piece(nest.alloc, MIDDLE)?;
    let (value, height) = nest.expr(cursor, depth)?;
    Ok(((text, value), height))
}

// A string with expressions, up to its last piece.
fn begun_text<
    E: Fn(Global, &mut Cursor<'_>, usize, bool) -> Result<(OpenExpr, usize), ReadFault>,
    P: Fn(Global, &mut Cursor<'_>, usize) -> Result<(Parameters, usize), ReadFault>,
    B: Fn(Global, &mut Cursor<'_>, usize) -> Result<(Block, usize), ReadFault>,
>(
    nest: &Inside<E, P, B>,
    cursor: &mut Cursor<'_>,
    depth: usize,
) -> Result<(Vec<StringPiece>, usize), ReadFault>
    requires nests { NestsExpr nest.now.limit (E.pre nest.now.expr) (E.post nest.now.expr) }
    requires within { depth ≤ nest.now.limit }
    ensures { GivesHigh view_pieces height.pieces_height depth (begun_text (closed_at depth) cursor.old) result cursor.new }
{
    let ((head, value), first) = head_part(nest, cursor, depth)?;
    let mut found = Vec::new(nest.alloc);
    found.push(StringPiece {
        kind: PieceKind::Head(head.quote),
        place: head.place,
        text: head.text,
        value: make::given(nest.alloc, None, value)?,
    })?;
    let mut highest = first;
    for _turn in 0..cursor.left() {
        if !cursor.sees_code(MIDDLE) {
            return Ok((found, highest));
        }
        let ((piece, value), height) = middle_part(nest, cursor, depth)?;
        found.push(StringPiece {
            kind: PieceKind::Middle,
            place: piece.place,
            text: piece.text,
            value: make::given(nest.alloc, None, value)?,
        })?;
        highest = highest.max(height);
    }
    Ok((found, highest))
}

// A string with expressions.
fn parted_text<
    E: Fn(Global, &mut Cursor<'_>, usize, bool) -> Result<(OpenExpr, usize), ReadFault>,
    P: Fn(Global, &mut Cursor<'_>, usize) -> Result<(Parameters, usize), ReadFault>,
    B: Fn(Global, &mut Cursor<'_>, usize) -> Result<(Block, usize), ReadFault>,
>(
    nest: &Inside<E, P, B>,
    cursor: &mut Cursor<'_>,
    depth: usize,
) -> Result<(Vec<StringPiece>, usize), ReadFault>
    requires nests { NestsExpr nest.now.limit (E.pre nest.now.expr) (E.post nest.now.expr) }
    requires within { depth ≤ nest.now.limit }
    ensures { GivesHigh view_pieces height.pieces_height depth (spec.parted_text (closed_at depth) cursor.old) result cursor.new }
{
    let (mut found, height) = begun_text(nest, cursor, depth)?;
    let piece = cursor.piece(nest.alloc, TAIL)?;
    found.push(StringPiece {
        kind: PieceKind::Tail,
        place: piece.place,
        text: piece.text,
        value: Value::Omitted,
    })?;
    Ok((found, height))
}

// One string.
#[tactic(auto, unfolding(syntax_readers::specs::Primaries::one_string))]
fn one_string<
    E: Fn(Global, &mut Cursor<'_>, usize, bool) -> Result<(OpenExpr, usize), ReadFault>,
    P: Fn(Global, &mut Cursor<'_>, usize) -> Result<(Parameters, usize), ReadFault>,
    B: Fn(Global, &mut Cursor<'_>, usize) -> Result<(Block, usize), ReadFault>,
>(
    nest: &Inside<E, P, B>,
    cursor: &mut Cursor<'_>,
    depth: usize,
) -> Result<(Vec<StringPiece>, usize), ReadFault>
    requires nests { NestsExpr nest.now.limit (E.pre nest.now.expr) (E.post nest.now.expr) }
    requires within { depth ≤ nest.now.limit }
    ensures { GivesHigh view_pieces height.pieces_height depth (spec.one_string (closed_at depth) cursor.old) result cursor.new }
{
    if cursor.sees_code(WHOLE) {
        let (found, height) = whole_text(nest.alloc, cursor)?;
        return Ok((found, height));
    }
    parted_text(nest, cursor, depth)
}

/// Reads a string and its adjacent strings (ECMA-408, 16.5 Strings).
pub fn strings<
    E: Fn(Global, &mut Cursor<'_>, usize, bool) -> Result<(OpenExpr, usize), ReadFault>,
    P: Fn(Global, &mut Cursor<'_>, usize) -> Result<(Parameters, usize), ReadFault>,
    B: Fn(Global, &mut Cursor<'_>, usize) -> Result<(Block, usize), ReadFault>,
>(
    nest: &Inside<E, P, B>,
    cursor: &mut Cursor<'_>,
    depth: usize,
) -> Result<(Vec<StringPiece>, usize), ReadFault>
    requires nests { NestsExpr nest.now.limit (E.pre nest.now.expr) (E.post nest.now.expr) }
    requires within { depth ≤ nest.now.limit }
    ensures { GivesHigh view_pieces height.pieces_height depth (spec.strings (closed_at depth) cursor.old) result cursor.new }
{
    let (mut found, mut highest) = one_string(nest, cursor, depth)?;
    for _turn in 0..cursor.left() {
        if !sees_string(cursor) {
            return Ok((found, highest));
        }
        let (mut more, height) = one_string(nest, cursor, depth)?;
        found.append(&mut more)?;
        highest = highest.max(height);
    }
    Ok((found, highest))
}
