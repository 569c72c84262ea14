// The units that a unit mentions (ECMA-408, 18.1 Imports, 18.2 Exports, 18.3 Parts and 18.5 URIs).
ghost use Rattle.std.specs.Prelude.{◌≡◌, IfOk};
ghost use Rattle.dart_tree.specs.Lists.{pieces_of};
ghost use Rattle.dart_tree.specs.UnitView as view;
ghost use Rattle.scope_mention.specs.Mention.{has_mark, uri_at, uri_of_piece, uri_of, kind_place, directive_place, named, mention_of, mentions_of};

use crate::text::literal_text;
use dart_base::bytes::Bytes;
use dart_base::feature::Feature;
use dart_base::place::Place;
use dart_tree::expression::{PieceKind, StringPiece};
use dart_tree::unit::{Directive, DirectiveKind, Unit};
use std::alloc::{AllocError, Global};

/// How a directive mentions another unit.
#[derive(Clone, Copy, Debug, PartialEq, Eq)]
pub enum MentionKind {
    /// `import 'a';` (ECMA-408, 18.1 Imports)
    Import,
    /// `export 'a';` (ECMA-408, 18.2 Exports)
    Export,
    /// `part 'a';` (ECMA-408, 18.3 Parts)
    Part,
}

/// What the string of a directive names (ECMA-408, 18.5 URIs).
#[derive(Drop)]
pub enum Uri {
    /// Nothing: it is no string of one piece.
    Unclear,
    /// What the profile leaves out, at the string.
    LeftOut(Place, Feature),
    /// `dart:core`
    Core,
    /// `dart:isolate`
    Isolate,
    /// The file with this name, in the folder of the program.
    File(Bytes),
}

/// A directive that mentions another unit: its number among the directives of its unit, from 0, and the place of its
/// first token.
#[derive(Drop)]
pub struct Mention {
    pub kind: MentionKind,
    pub directive: usize,
    pub place: Place,
    pub uri: Uri,
}

fn has_mark(text: &[u8]) -> bool
    ensures { result ≡ has_mark text.now }
{
    text.iter().any(|b| *b == b'/' || *b == b':')
}

// What the text of a string at a place names.
fn uri_at(place: Place, text: Bytes) -> Uri
    ensures { result ≡ uri_at place text }
{
    let bytes = text.as_slice();
    if bytes == b"dart:core".as_slice() {
        return Uri::Core;
    }
    if bytes == b"dart:isolate".as_slice() {
        return Uri::Isolate;
    }
    if bytes.starts_with(b"dart:") {
        return Uri::LeftOut(place, Feature::Libraries);
    }
    if has_mark(bytes) {
        return Uri::LeftOut(place, Feature::Uris);
    }
    Uri::File(text)
}

// What a piece that is the whole of a string names.
fn uri_of_piece(alloc: Global, piece: &StringPiece) -> Result<Uri, AllocError>
    ensures { IfOk result (λ uri. uri ≡ uri_of_piece piece.now.kind piece.now.place piece.now.text) }
{
    match piece.kind {
        PieceKind::Whole => match literal_text(alloc, piece.text.as_slice())? {
            Some(text) => Ok(uri_at(piece.place, text)),
            None => Ok(Uri::Unclear),
        },
        PieceKind::Head(_) | PieceKind::Middle | PieceKind::Tail => Ok(Uri::Unclear),
    }
}

// What the pieces of a string name.
fn uri_of(alloc: Global, pieces: &[StringPiece]) -> Result<Uri, AllocError>
    ensures { IfOk result (λ uri. uri ≡ uri_of (pieces_of pieces.now)) }
{
    if pieces.len() != 1 {
        return Ok(Uri::Unclear);
    }
    let uri = uri_of_piece(alloc, &pieces[0])?;
    Ok(uri)
}

// The place of the directive's word.
fn kind_place(kind: &DirectiveKind) -> Place
    ensures { result ≡ kind_place (view.directive_kind kind.now) }
{
    match kind {
        DirectiveKind::PartOf { word, .. } => *word,
        DirectiveKind::Library { word, .. } => *word,
        DirectiveKind::Import { word, .. } => *word,
        DirectiveKind::Export { word, .. } => *word,
        DirectiveKind::Part(word, _) => *word,
    }
}

// The place of the directive's first token.
fn directive_place(directive: &Directive) -> Place
    ensures { result ≡ directive_place (view.directive directive.now) }
{
    match directive.metadata.first() {
        Some(annotation) => annotation.at,
        None => kind_place(&directive.kind),
    }
}

// The mention by the directive of this number, whose first token stands here and whose string has these pieces.
fn named(
    alloc: Global,
    kind: MentionKind,
    directive: usize,
    place: Place,
    pieces: &[StringPiece],
) -> Result<Mention, AllocError>
    ensures { IfOk result (λ mention. mention ≡ named kind directive place (pieces_of pieces.now)) }
{
    let uri = uri_of(alloc, pieces)?;
    Ok(Mention {
        kind,
        directive,
        place,
        uri,
    })
}

// The mention of another unit by the directive of this number, if it is one.
fn mention_of(
    alloc: Global,
    number: usize,
    directive: &Directive,
) -> Result<Option<Mention>, AllocError>
    ensures { IfOk result (λ mention. mention ≡ mention_of number (view.directive directive.now)) }
{
    let place = directive_place(directive);
    match &directive.kind {
        DirectiveKind::Import { uri, .. } => {
            let mention = named(alloc, MentionKind::Import, number, place, uri.as_slice())?;
            Ok(Some(mention))
        }
        DirectiveKind::Export { uri, .. } => {
            let mention = named(alloc, MentionKind::Export, number, place, uri.as_slice())?;
            Ok(Some(mention))
        }
        DirectiveKind::Part(_, uri) => {
            let mention = named(alloc, MentionKind::Part, number, place, uri.as_slice())?;
            Ok(Some(mention))
        }
        DirectiveKind::PartOf { .. } | DirectiveKind::Library { .. } => Ok(None),
    }
}

/// The mentions of other units by a unit, in order.
pub fn mentions(alloc: Global, unit: &Unit) -> Result<Vec<Mention>, AllocError>
    ensures { IfOk result (λ mentions. mentions.items ≡ mentions_of (view.unit unit.now)) }
{
    let mut mentions = Vec::new(alloc);
    for (number, directive) in unit.directives.iter().enumerate() {
        if let Some(mention) = mention_of(alloc, number, directive)? {
            mentions.push(mention)?;
        }
    }
    Ok(mentions)
}
