// What a token is worth: names, atoms, pieces of strings.
ghost use Rattle.std.specs.Prelude.{◌≡◌, IfOk};
ghost use Rattle.token_codes.specs.Leaves as spec;
ghost use Rattle.token_cursor.specs.Views.{text_of, head_of};

use crate::cursor::{HeadText, PieceText};
use dart_base::bytes::Bytes;
use dart_token::token::{Quote, Token, TokenKind};
use dart_token::word::Word;
use dart_tree::expression::{Atom, Creation};
use dart_tree::identifier::Identifier;
use std::alloc::{AllocError, Global};

// The identifier that a token is.
pub(crate) fn name_of(alloc: Global, token: &Token) -> Result<Identifier, AllocError>
    ensures { IfOk result (λ x. x ≡ spec.name_of token.now) }
{
    match token.kind {
        TokenKind::Word(Word::Get) => Ok(Identifier::Get(token.place)),
        TokenKind::Word(Word::Set) => Ok(Identifier::Set(token.place)),
        _ => Ok(Identifier::Name(
            token.place,
            Bytes::from_slice(alloc, token.lexeme.as_slice())?,
        )),
    }
}

// The expression that a token is.
pub(crate) fn atom_of(alloc: Global, token: &Token) -> Result<Atom, AllocError>
    ensures { IfOk result (λ x. x ≡ spec.atom_of token.now) }
{
    let place = token.place;
    match token.kind {
        TokenKind::Word(Word::This) => Ok(Atom::This(place)),
        TokenKind::Word(Word::Null) => Ok(Atom::Null(place)),
        TokenKind::Word(Word::True) => Ok(Atom::True(place)),
        TokenKind::Word(Word::False) => Ok(Atom::False(place)),
        TokenKind::Word(Word::Get) => Ok(Atom::Name(Identifier::Get(place))),
        TokenKind::Word(Word::Set) => Ok(Atom::Name(Identifier::Set(place))),
        TokenKind::Integer => Ok(Atom::Integer(
            place,
            Bytes::from_slice(alloc, token.lexeme.as_slice())?,
        )),
        _ => Ok(Atom::Name(Identifier::Name(
            place,
            Bytes::from_slice(alloc, token.lexeme.as_slice())?,
        ))),
    }
}

// The piece of a string that a token is.
pub(crate) fn placed_text(alloc: Global, token: &Token) -> Result<PieceText, AllocError>
    ensures { IfOk result (λ x. text_of x ≡ spec.placed_text token.now) }
{
    let text = Bytes::from_slice(alloc, token.lexeme.as_slice())?;
    Ok(PieceText {
        place: token.place,
        text,
    })
}

// What a token says of the object that is made.
pub(crate) fn created(token: &Token) -> Creation
    ensures { result ≡ spec.created token.now }
{
    match token.kind {
        TokenKind::Word(Word::Const) => Creation::Const(token.place),
        _ => Creation::New(token.place),
    }
}

// The quote that a token opens.
fn quote_of(token: &Token) -> Quote
    ensures { result ≡ spec.quote_by token.now.kind }
{
    match token.kind {
        TokenKind::Head(quote) => quote,
        _ => Quote::Single,
    }
}

// The first piece of a string that a token is.
pub(crate) fn headed(alloc: Global, token: &Token) -> Result<HeadText, AllocError>
    ensures { IfOk result (λ x. head_of x ≡ spec.headed token.now) }
{
    let quote = quote_of(token);
    let text = Bytes::from_slice(alloc, token.lexeme.as_slice())?;
    Ok(HeadText {
        quote,
        place: token.place,
        text,
    })
}
