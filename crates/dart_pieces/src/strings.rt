// Strings and their pieces.
ghost use Rattle.std.specs.Prelude.{◌≡◌, ◌<◌, ◌≤◌, ◌^◌, ◌+◌, length};
ghost use Rattle.std.specs.List.{prefix_len};
ghost use Rattle.dart_pieces.specs.Strings.{quote_byte, quote_of, is_plain, is_escaped, may_follow_dollar, in_raw};
ghost use Rattle.dart_pieces.specs.Reader.{begins_two_hex, begins_four_hex, braced_len, unit_len, escape_len, may_follow, shown_len, element_len, body_len, string_end, string_at, begins_quotes, quoted_at, raw_end, raw_at};

use crate::bytes::{begins, hex_digits_len, is_hex_digit, is_inner, is_name_start, name_len};
use crate::numbers::exceeds;
use crate::piece::{LexReason, PieceClass};
use dart_token::token::{Quote, TokenKind};
use dart_token::word::Word;

pub(crate) fn quote_byte(quote: Quote) -> u8
    ensures { result ≡ quote_byte quote }
{
    match quote {
        Quote::Single => b'\'',
        Quote::Double => b'"',
    }
}

pub(crate) fn quote_of(b: u8) -> Option<Quote>
    ensures { result ≡ quote_of b }
{
    match b {
        b'\'' => Some(Quote::Single),
        b'"' => Some(Quote::Double),
        _ => None,
    }
}

fn is_plain(quote: Quote, b: u8) -> bool
    ensures { result ≡ is_plain quote b }
{
    b != b'\\' && b != b'$' && b != quote_byte(quote) && is_inner(b)
}

fn is_escaped(b: u8) -> bool
    ensures { result ≡ is_escaped b }
{
    b != b'x' && b != b'u' && is_inner(b)
}

fn begins_two_hex(text: &[u8]) -> bool
    ensures { result ≡ begins_two_hex text.now }
{
    match text {
        [a, b, ..] => is_hex_digit(*a) && is_hex_digit(*b),
        _ => false,
    }
}

fn begins_four_hex(text: &[u8]) -> bool
    ensures { result ≡ begins_four_hex text.now }
{
    match text {
        [a, b, c, d, ..] => {
            is_hex_digit(*a) && is_hex_digit(*b) && is_hex_digit(*c) && is_hex_digit(*d)
        }
        _ => false,
    }
}

// The length of an escape whose `\u{` stands before the text, or 0.
fn braced_len(text: &[u8]) -> usize
    ensures value { result ≡ braced_len text.now }
    ensures within { result ≤ length text.now + 4 }
{
    let digits = hex_digits_len(text);
    if digits == 0 || digits > 6 {
        return 0;
    }
    if begins(b'}', &text[digits..]) && !exceeds(0x10FFFF, 16, &text[..digits]) {
        return 4 + digits;
    }
    0
}

// The length of an escape whose `\u` stands before the text, or 0.
fn unit_len(text: &[u8]) -> usize
    ensures { result ≡ unit_len text.now }
{
    if begins_four_hex(text) {
        return 6;
    }
    match text {
        [b'{', more @ ..] => braced_len(more),
        _ => 0,
    }
}

// The length of an escape whose `\` stands before the text, or 0.
fn escape_len(text: &[u8]) -> usize
    ensures { result ≡ escape_len text.now }
{
    match text {
        [b'x', more @ ..] => { if begins_two_hex(more) { 4 } else { 0 } }
        [b'u', more @ ..] => unit_len(more),
        [a, ..] if is_escaped(*a) => 2,
        _ => 0,
    }
}

fn may_follow(word: Option<Word>) -> bool
    ensures { result ≡ may_follow word }
{
    match word {
        None | Some(Word::Get | Word::Set | Word::This) => true,
        Some(_) => false,
    }
}

// The length of a name whose `$` stands before the text, with the `$`, or 0.
#[tactic(auto, using(dart_token::proofs::Words::found_only))]
fn shown_len(text: &[u8]) -> usize
    ensures { result ≡ shown_len text.now }
{
    match text {
        [a, ..] if is_name_start(*a) => {
            let length = name_len(text);
            if may_follow(Word::of(&text[..length])) {
                1 + length
            } else {
                0
            }
        }
        _ => 0,
    }
}

// The length of the element at the front of the text, or 0 where there is none.
fn element_len(quote: Quote, text: &[u8]) -> usize
    ensures { result ≡ element_len quote text.now }
{
    match text {
        [a, ..] if is_plain(quote, *a) => 1,
        [b'\\', more @ ..] => escape_len(more),
        [b'$', more @ ..] => shown_len(more),
        _ => 0,
    }
}

// The same, as far as the text goes.
fn next_element(quote: Quote, text: &[u8]) -> usize
    ensures value { result ≡ element_len quote text.now }
    ensures within { result ≤ length text.now }
{
    element_len(quote, text)
}

// How many bytes at the front of the text are elements of a string.
fn body_len(quote: Quote, text: &[u8]) -> usize
    ensures value { result ≡ body_len quote text.now }
    ensures within { result ≤ length text.now }
{
    let mut at: usize = 0;
    'elements: loop {
        let length = next_element(quote, &text[at..]);
        if length == 0 {
            return at;
        }
        at += length;
    }
}

fn string_end(
    quote: Quote,
    ended: PieceClass,
    head: PieceClass,
    length: usize,
    rest: &[u8],
) -> (PieceClass, usize)
    requires { length < 2 ^ 63 }
    ensures { result ≡ string_end quote ended head length rest.now }
{
    match rest {
        [a, ..] if *a == quote_byte(quote) => (ended, 2 + length),
        [b'$', b'{', ..] => (head, 3 + length),
        _ => (PieceClass::Refused(LexReason::Unknown), 1),
    }
}

/// The piece of a string whose first byte stands before the text: the last one of its string, or one that ends in an
/// interpolation.
pub(crate) fn string_at(
    quote: Quote,
    ended: PieceClass,
    head: PieceClass,
    text: &[u8],
) -> (PieceClass, usize)
    ensures { result ≡ string_at quote ended head text.now }
{
    let length = body_len(quote, text);
    string_end(quote, ended, head, length, &text[length..])
}

fn begins_quotes(quote: Quote, text: &[u8]) -> bool
    ensures { result ≡ begins_quotes quote text.now }
{
    match text {
        [a, b, ..] => *a == quote_byte(quote) && *b == quote_byte(quote),
        _ => false,
    }
}

/// The string whose quote stands before the text.
pub(crate) fn quoted_at(quote: Quote, text: &[u8]) -> (PieceClass, usize)
    ensures { result ≡ quoted_at quote text.now }
{
    if begins_quotes(quote, text) {
        return (PieceClass::Refused(LexReason::TripleQuotes), 3);
    }
    string_at(
        quote,
        PieceClass::Lexeme(TokenKind::Whole),
        PieceClass::Lexeme(TokenKind::Head(quote)),
        text,
    )
}

fn in_raw(quote: Quote, b: u8) -> bool
    ensures { result ≡ in_raw quote b }
{
    b != quote_byte(quote) && is_inner(b)
}

fn raw_len(quote: Quote, text: &[u8]) -> usize
    ensures value { result ≡ prefix_len (in_raw quote) text.now }
    ensures within { result ≤ length text.now }
{
    text.iter().take_while(|b| in_raw(quote, **b)).count()
}

fn raw_end(quote: Quote, length: usize, rest: &[u8]) -> (PieceClass, usize)
    requires { length < 2 ^ 63 }
    ensures { result ≡ raw_end quote length rest.now }
{
    if begins(quote_byte(quote), rest) {
        return (PieceClass::Lexeme(TokenKind::Whole), 3 + length);
    }
    (PieceClass::Refused(LexReason::OpenRaw), 2)
}

/// The raw string whose `r` and quote stand before the text.
pub(crate) fn raw_at(quote: Quote, text: &[u8]) -> (PieceClass, usize)
    ensures { result ≡ raw_at quote text.now }
{
    if begins_quotes(quote, text) {
        return (PieceClass::Refused(LexReason::TripleQuotes), 4);
    }
    let length = raw_len(quote, text);
    raw_end(quote, length, &text[length..])
}
