// The signs, and the marks that are refused.
ghost use Rattle.std.specs.Prelude.{◌≡◌, drop};
ghost use Rattle.dart_pieces.specs.Marks.{one_mark, two_mark, three_mark, first_mark, second_mark, third_mark, mark_at};

use crate::bytes::is_digit;
use crate::piece::{LexReason, PieceClass};
use dart_token::sign::Sign;
use dart_token::token::TokenKind;

fn sign(sign: Sign) -> Option<PieceClass>
    ensures { result ≡ Some (PieceClass.Lexeme (TokenKind.Sign sign)) }
{
    Some(PieceClass::Lexeme(TokenKind::Sign(sign)))
}

fn one_mark(a: u8) -> Option<PieceClass>
    ensures { result ≡ one_mark a }
{
    match a {
        b'(' => sign(Sign::LeftParenthesis),
        b')' => sign(Sign::RightParenthesis),
        b'[' => sign(Sign::LeftBracket),
        b']' => sign(Sign::RightBracket),
        b'{' => sign(Sign::LeftBrace),
        b'}' => sign(Sign::RightBrace),
        b';' => sign(Sign::Semicolon),
        b',' => sign(Sign::Comma),
        b'.' => sign(Sign::Dot),
        b':' => sign(Sign::Colon),
        b'?' => sign(Sign::Question),
        b'@' => sign(Sign::AtSign),
        b'=' => sign(Sign::Assign),
        b'<' => sign(Sign::Less),
        b'>' => sign(Sign::Greater),
        b'+' => sign(Sign::Plus),
        b'-' => sign(Sign::Minus),
        b'*' => sign(Sign::Star),
        b'/' => sign(Sign::Slash),
        b'%' => sign(Sign::Percent),
        b'&' => sign(Sign::Ampersand),
        b'|' => sign(Sign::Bar),
        b'^' => sign(Sign::Caret),
        b'~' => sign(Sign::Tilde),
        b'!' => sign(Sign::Bang),
        b'#' => Some(PieceClass::Refused(LexReason::Symbol)),
        _ => None,
    }
}

fn two_mark(a: u8, b: u8) -> Option<PieceClass>
    ensures { result ≡ two_mark a b }
{
    match (a, b) {
        (b'.', b'.') => sign(Sign::DotDot),
        (b'.', _) if is_digit(b) => Some(PieceClass::Refused(LexReason::Fraction)),
        (b'=', b'>') => sign(Sign::Arrow),
        (b'=', b'=') => sign(Sign::EqualEqual),
        (b'!', b'=') => sign(Sign::NotEqual),
        (b'<', b'=') => sign(Sign::LessEqual),
        (b'<', b'<') => sign(Sign::ShiftLeft),
        (b'>', b'=') => sign(Sign::GreaterEqual),
        (b'~', b'/') => sign(Sign::TildeSlash),
        (b'&', b'&') => sign(Sign::AndAnd),
        (b'&', b'=') => sign(Sign::AmpersandAssign),
        (b'|', b'|') => sign(Sign::OrOr),
        (b'|', b'=') => sign(Sign::BarAssign),
        (b'+', b'+') => sign(Sign::PlusPlus),
        (b'+', b'=') => sign(Sign::PlusAssign),
        (b'-', b'-') => sign(Sign::MinusMinus),
        (b'-', b'=') => sign(Sign::MinusAssign),
        (b'*', b'=') => sign(Sign::StarAssign),
        (b'/', b'=') => sign(Sign::SlashAssign),
        (b'%', b'=') => sign(Sign::PercentAssign),
        (b'^', b'=') => sign(Sign::CaretAssign),
        (b'?', b'?') | (b'?', b'.') => Some(PieceClass::Refused(LexReason::NullAware)),
        _ => None,
    }
}

fn three_mark(a: u8, b: u8, c: u8) -> Option<PieceClass>
    ensures { result ≡ three_mark a b c }
{
    match (a, b, c) {
        (b'~', b'/', b'=') => sign(Sign::TildeSlashAssign),
        (b'<', b'<', b'=') => sign(Sign::ShiftLeftAssign),
        (b'?', b'?', b'=') => Some(PieceClass::Refused(LexReason::NullAware)),
        _ => None,
    }
}

fn first_mark(text: &[u8]) -> Option<PieceClass>
    ensures { result ≡ first_mark text.now }
{
    match text {
        [a, ..] => one_mark(*a),
        _ => None,
    }
}

fn second_mark(text: &[u8]) -> Option<PieceClass>
    ensures { result ≡ second_mark text.now }
{
    match text {
        [a, b, ..] => two_mark(*a, *b),
        _ => None,
    }
}

fn third_mark(text: &[u8]) -> Option<PieceClass>
    ensures { result ≡ third_mark text.now }
{
    match text {
        [a, b, c, ..] => three_mark(*a, *b, *c),
        _ => None,
    }
}

// The longest sign or refused mark at the front of the text, or an unknown byte.
pub(crate) fn mark_at(text: &[u8]) -> (PieceClass, usize)
    ensures { result ≡ mark_at text.now }
{
    if let Some(piece) = third_mark(text) {
        return (piece, 3);
    }
    if let Some(piece) = second_mark(text) {
        return (piece, 2);
    }
    if let Some(piece) = first_mark(text) {
        return (piece, 1);
    }
    (PieceClass::Refused(LexReason::Unknown), 1)
}
