// The piece at the front of a text.
ghost use Rattle.std.specs.Prelude.{◌≡◌, ◌<◌, ◌≤◌, ◌+◌, length, drop};
ghost use Rattle.dart_pieces.specs.Cuts.{Longest, found_piece};
ghost use Rattle.dart_pieces.specs.Marks.{mark_at};
ghost use Rattle.dart_pieces.specs.Reader.{name_kind, name_found, raw_quote, letter_at, closes_around, string_or, piece_at};

use crate::bytes::{after_two, blanks_len, is_blank, is_digit, is_letter, word_len};
use crate::comments::{block_at, comment_len, is_block, is_comment};
use crate::marks::mark_at;
use crate::numbers::number_at;
use crate::piece::{LexReason, PieceClass};
use crate::strings::{quote_of, quoted_at, raw_at, string_at};
use dart_token::token::{Quote, TokenKind};
use dart_token::word::Word;

fn name_kind(word: Option<Word>) -> TokenKind
    ensures { result ≡ name_kind word }
{
    match word {
        None => TokenKind::Identifier,
        Some(word) => TokenKind::Word(word),
    }
}

fn name_found(bytes: usize, text: &[u8]) -> (PieceClass, usize)
    requires { bytes ≤ length text.now }
    ensures { result ≡ name_found bytes text.now }
{
    (
        PieceClass::Lexeme(name_kind(Word::of(&text[..bytes]))),
        bytes,
    )
}

fn raw_quote(text: &[u8]) -> Option<Quote>
    ensures { result ≡ raw_quote text.now }
{
    match text {
        [b'r', b, ..] => quote_of(*b),
        _ => None,
    }
}

fn letter_at(text: &[u8]) -> (PieceClass, usize)
    ensures { result ≡ letter_at text.now }
{
    if let Some(quote) = raw_quote(text) {
        return raw_at(quote, after_two(text));
    }
    name_found(word_len(text), text)
}

fn closes_around(around: Option<Quote>, b: u8) -> Option<Quote>
    ensures { result ≡ closes_around around b }
{
    if b == b'}' {
        return around;
    }
    None
}

fn string_or_mark(inner: Option<Quote>, around: Option<Quote>, text: &[u8]) -> (PieceClass, usize)
    requires { 0 < length text.now }
    ensures { result ≡ string_or inner around (drop 1 text.now) (mark_at text.now) }
{
    if let Some(quote) = inner {
        return quoted_at(quote, &text[1..]);
    }
    if let Some(quote) = around {
        return string_at(
            quote,
            PieceClass::Lexeme(TokenKind::Tail),
            PieceClass::Lexeme(TokenKind::Middle),
            &text[1..],
        );
    }
    mark_at(text)
}

// The piece at the front of the text, and how many bytes it has.
fn piece_at(around: Option<Quote>, text: &[u8]) -> (PieceClass, usize)
    ensures { result ≡ piece_at around text.now }
{
    if text.is_empty() {
        return (PieceClass::Refused(LexReason::Unknown), 0);
    }
    let first = text[0];
    if is_letter(first) {
        return letter_at(text);
    }
    if is_digit(first) {
        return number_at(text);
    }
    if is_blank(first) {
        return (PieceClass::Blank, blanks_len(text));
    }
    if is_comment(text) {
        return (PieceClass::Comment, comment_len(text));
    }
    if is_block(text) {
        return block_at(text);
    }
    string_or_mark(quote_of(first), closes_around(around, first), text)
}

/// The longest piece at the front of a text, where that is open innermost, and how many bytes it has.
///
/// A text that isn't empty begins with a piece of some class, and with one longest piece.
pub fn next_piece(around: Option<Quote>, text: &[u8]) -> (PieceClass, usize)
    requires { 0 < length text.now }
    ensures longest { Longest around (found_piece result text.now) (drop result.1 text.now) }
    ensures within { result.1 ≤ length text.now }
    ensures some { 0 < result.1 }
{
    piece_at(around, text)
}
