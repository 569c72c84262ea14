// Pieces between their quotes, and strings without interpolation.
#![tactic(auto, using(crate::proofs::Also::also_laws))]

ghost use Rattle.std.specs.Prelude.{◌≡◌, drop, IfOk};
ghost use Rattle.dart_tree.specs.Lists.{pieces_of};
ghost use Rattle.translation.specs.Strings as s;
ghost use Rattle.lower_string.specs.Parts.{all_parts, units_of_piece};

use crate::part::StringPart;
use crate::reading::{finished, start, step};
use dart_base::units::Units;
use dart_tree::expression::{PieceKind, StringPiece, Value};
use lower_leaf::fault::Want;
use std::alloc::Global;

fn parts_in(alloc: Global, is_raw: bool, inner: &[u8]) -> Result<Vec<StringPart>, Want>
    ensures { IfOk result (λ made. all_parts made ≡ s.parts_in is_raw inner.now) }
{
    let mut reading = start(alloc, is_raw);
    for b in inner {
        reading = step(alloc, reading, *b)?;
    }
    finished(reading)
}

// What stands before the last bytes.
fn without_last(count: usize, bytes: &[u8]) -> &[u8]
    ensures { result.now ≡ s.without_last count bytes.now }
{
    &bytes[..bytes.len().saturating_sub(count)]
}

// What stands behind the first byte.
fn behind_first(bytes: &[u8]) -> &[u8]
    ensures { result.now ≡ drop 1 bytes.now }
{
    match bytes {
        [] => bytes,
        [_, more @ ..] => more,
    }
}

fn parts_of_whole(alloc: Global, bytes: &[u8]) -> Result<Vec<StringPart>, Want>
    ensures { IfOk result (λ made. all_parts made ≡ s.parts_of_whole bytes.now) }
{
    match bytes {
        [] => Ok(Vec::new(alloc)),
        [b'r', more @ ..] => parts_in(alloc, true, without_last(1, behind_first(more))),
        [_, more @ ..] => parts_in(alloc, false, without_last(1, more)),
    }
}

/// What a piece is made of between its quotes, its `}` and its `${` (ECMA-408, 16.5 Strings).
pub fn parts_of(alloc: Global, kind: PieceKind, bytes: &[u8]) -> Result<Vec<StringPart>, Want>
    ensures { IfOk result (λ made. all_parts made ≡ s.parts_of kind bytes.now) }
{
    match kind {
        PieceKind::Whole => parts_of_whole(alloc, bytes),
        PieceKind::Head(_) => parts_in(alloc, false, without_last(2, behind_first(bytes))),
        PieceKind::Middle => parts_in(alloc, false, without_last(2, behind_first(bytes))),
        PieceKind::Tail => parts_in(alloc, false, without_last(1, behind_first(bytes))),
    }
}

// The units of parts among which no name stands.
fn units_alone(alloc: Global, parts: &Vec<StringPart>) -> Result<Option<Units>, Want>
    ensures { IfOk result (λ made. made ≡ s.units_alone (all_parts parts.now)) }
{
    let mut found = Units::new(alloc);
    for part in parts {
        match part {
            StringPart::Units(units) => found.append(units.as_slice())?,
            StringPart::Shown(_) => return Ok(None),
        }
    }
    Ok(Some(found))
}

// The units of a piece that holds no name and no expression.
#[tactic(auto, using(crate::proofs::Also::piece_laws))]
fn piece_units(alloc: Global, piece: &StringPiece) -> Result<Option<Units>, Want>
    ensures { IfOk result (λ made. made ≡ units_of_piece piece.now) }
{
    match &piece.value {
        Value::Given(_, _) => Ok(None),
        Value::Omitted => {
            let parts = parts_of(alloc, piece.kind, piece.text.as_slice())?;
            units_alone(alloc, &parts)
        }
    }
}

/// The units of adjacent pieces that hold no name and no expression (ECMA-408, 16.5 Strings).
pub fn constant_units(alloc: Global, pieces: &Vec<StringPiece>) -> Result<Option<Units>, Want>
    ensures { IfOk result (λ made. made ≡ s.constant_units (pieces_of pieces.now.items)) }
{
    let mut found = Units::new(alloc);
    for piece in pieces {
        match piece_units(alloc, piece)? {
            Some(units) => found.append(units.as_slice())?,
            None => return Ok(None),
        }
    }
    Ok(Some(found))
}
