// What the directives of units in memory are made of.
use dart_base::bytes::Bytes;
use dart_base::place::Place;
use dart_tree::expression::{PieceKind, StringPiece, Value};
use dart_tree::identifier::Identifier;
use dart_tree::unit::DirectiveKind;
use std::alloc::{AllocError, Global};

pub(super) fn place(unit: u32, line: u32, column: u32) -> Place {
    Place { unit, line, column }
}

pub(super) fn name(alloc: Global, at: Place, text: &str) -> Result<Identifier, AllocError> {
    Ok(Identifier::Name(at, Bytes::from_slice(alloc, text.as_bytes())?))
}

pub(super) fn pieces(
    alloc: Global,
    at: Place,
    texts: &[&str],
) -> Result<Vec<StringPiece>, AllocError> {
    let mut pieces = Vec::new(alloc);
    for text in texts {
        pieces.push(StringPiece {
            kind: PieceKind::Whole,
            place: at,
            text: Bytes::from_slice(alloc, text.as_bytes())?,
            value: Value::Omitted,
        })?;
    }
    Ok(pieces)
}

pub(super) fn import(
    alloc: Global,
    word: Place,
    texts: &[&str],
    at: Place,
) -> Result<DirectiveKind, AllocError> {
    Ok(DirectiveKind::Import {
        word,
        uri: pieces(alloc, at, texts)?,
        prefix: None,
        combinators: Vec::new(alloc),
    })
}
