// What is open between the pieces of a text, and its first line.
ghost use Rattle.std.specs.Prelude.{◌≡◌, ◌≤◌, length, OnOk};
ghost use Rattle.dart_pieces.specs.Cuts.{innermost, opened, begins_script, script_len};

use crate::bytes::line_len;
use crate::piece::PieceClass;
use dart_token::sign::Sign;
use dart_token::token::{Quote, TokenKind};
use std::alloc::AllocError;

fn begins_script(text: &[u8]) -> bool
    ensures { result ≡ begins_script text.now }
{
    match text {
        [a, b, ..] => *a == b'#' && *b == b'!',
        _ => false,
    }
}

/// How many bytes a first line that begins with `#!` has, without its line feed: 0 where there is none.
pub fn script_len(text: &[u8]) -> usize
    ensures value { result ≡ script_len text.now }
    ensures within { result ≤ length text.now }
{
    if begins_script(text) {
        return line_len(text);
    }
    0
}

/// What is open innermost: the quote of the string whose interpolation a `}` would end, or `None`.
pub fn innermost(nesting: &Vec<Option<Quote>>) -> Option<Quote>
    ensures { result ≡ innermost nesting.now.items }
{
    if nesting.is_empty() {
        return None;
    }
    nesting[nesting.len() - 1]
}

/// Opens or closes what a piece of this class opens or closes.
pub fn open_after(nesting: &mut Vec<Option<Quote>>, class: PieceClass) -> Result<(), AllocError>
    ensures { OnOk result (nesting.new.items ≡ opened nesting.old.items class) }
{
    match class {
        PieceClass::Lexeme(TokenKind::Sign(Sign::LeftBrace)) => nesting.push(None)?,
        PieceClass::Lexeme(TokenKind::Head(quote)) => nesting.push(Some(quote))?,
        PieceClass::Lexeme(TokenKind::Sign(Sign::RightBrace) | TokenKind::Tail) => {
            nesting.pop();
        }
        _ => {}
    }
    Ok(())
}
