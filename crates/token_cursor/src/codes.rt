// The codes of tokens: one byte for each kind of token that the grammar tells apart.
ghost use Rattle.std.specs.Prelude.{◌≡◌};
ghost use Rattle.std.specs.Str.{bytes_eq};
ghost use Rattle.token_codes.specs.Codes.{sign_code, word_code, head_code, code_of_name, own_or_odd, class_of};

use dart_token::sign::Sign;
use dart_token::token::{Quote, Token, TokenKind};
use dart_token::word::Word;

/// The code of an identifier that means nothing of its own.
pub const NAME: u8 = 0;
/// The code of a sign or word with another lexeme.
const ODD: u8 = 1;
/// The code of an integer.
pub const INTEGER: u8 = 2;
/// The code of a string without expressions.
pub const WHOLE: u8 = 3;
/// The code of a piece between two expressions of a string.
pub const MIDDLE: u8 = 6;
/// The code of the last piece of a string with expressions.
pub const TAIL: u8 = 7;
/// The code of the first piece of a string with expressions, in single quotes.
pub(crate) const SINGLE_HEAD: u8 = 4;
/// The same in double quotes.
pub(crate) const DOUBLE_HEAD: u8 = 5;
/// The code of the identifier `on`.
pub const ON: u8 = 10;
/// The code of the identifier `of`.
pub const OF: u8 = 11;
/// The code of the identifier `show`.
pub const SHOW: u8 = 12;
/// The code of the identifier `hide`.
pub const HIDE: u8 = 13;
/// The codes of the words that are expressions by themselves, and of the built-in identifiers that may be names.
pub(crate) const FALSE: u8 = 32;

pub(crate) const NULL: u8 = 40;

pub(crate) const THIS: u8 = 45;

pub(crate) const TRUE: u8 = 47;

pub(crate) const GET: u8 = 60;

pub(crate) const SET: u8 = 66;
/// What stands behind the last token.
pub(crate) const END: u8 = 255;

/// The code of a sign.
pub fn sign_code(sign: Sign) -> u8
    ensures { result ≡ sign_code sign }
{
    match sign {
        Sign::LeftParenthesis => 80,
        Sign::RightParenthesis => 81,
        Sign::LeftBracket => 82,
        Sign::RightBracket => 83,
        Sign::LeftBrace => 84,
        Sign::RightBrace => 85,
        Sign::Semicolon => 86,
        Sign::Comma => 87,
        Sign::Dot => 88,
        Sign::DotDot => 89,
        Sign::Colon => 90,
        Sign::Question => 91,
        Sign::AtSign => 92,
        Sign::Assign => 93,
        Sign::Arrow => 94,
        Sign::EqualEqual => 95,
        Sign::NotEqual => 96,
        Sign::Less => 97,
        Sign::Greater => 98,
        Sign::LessEqual => 99,
        Sign::GreaterEqual => 100,
        Sign::ShiftLeft => 101,
        Sign::Plus => 102,
        Sign::Minus => 103,
        Sign::Star => 104,
        Sign::Slash => 105,
        Sign::TildeSlash => 106,
        Sign::Percent => 107,
        Sign::Ampersand => 108,
        Sign::Bar => 109,
        Sign::Caret => 110,
        Sign::Tilde => 111,
        Sign::Bang => 112,
        Sign::AndAnd => 113,
        Sign::OrOr => 114,
        Sign::PlusPlus => 115,
        Sign::MinusMinus => 116,
        Sign::PlusAssign => 117,
        Sign::MinusAssign => 118,
        Sign::StarAssign => 119,
        Sign::SlashAssign => 120,
        Sign::TildeSlashAssign => 121,
        Sign::PercentAssign => 122,
        Sign::AmpersandAssign => 123,
        Sign::BarAssign => 124,
        Sign::CaretAssign => 125,
        Sign::ShiftLeftAssign => 126,
    }
}

/// The code of a word.
pub fn word_code(word: Word) -> u8
    ensures { result ≡ word_code word }
{
    match word {
        Word::Assert => 20,
        Word::Break => 21,
        Word::Case => 22,
        Word::Catch => 23,
        Word::Class => 24,
        Word::Const => 25,
        Word::Continue => 26,
        Word::Default => 27,
        Word::Do => 28,
        Word::Else => 29,
        Word::Enum => 30,
        Word::Extends => 31,
        Word::False => FALSE,
        Word::Final => 33,
        Word::Finally => 34,
        Word::For => 35,
        Word::If => 36,
        Word::In => 37,
        Word::Is => 38,
        Word::New => 39,
        Word::Null => NULL,
        Word::Rethrow => 41,
        Word::Return => 42,
        Word::Super => 43,
        Word::Switch => 44,
        Word::This => THIS,
        Word::Throw => 46,
        Word::True => TRUE,
        Word::Try => 48,
        Word::Var => 49,
        Word::Void => 50,
        Word::While => 51,
        Word::With => 52,
        Word::Abstract => 53,
        Word::As => 54,
        Word::Deferred => 55,
        Word::Dynamic => 56,
        Word::Export => 57,
        Word::External => 58,
        Word::Factory => 59,
        Word::Get => GET,
        Word::Implements => 61,
        Word::Import => 62,
        Word::Library => 63,
        Word::Operator => 64,
        Word::Part => 65,
        Word::Set => SET,
        Word::Static => 67,
        Word::Typedef => 68,
    }
}

// The code of the first piece of a string with expressions in these quotes.
fn head_code(quote: Quote) -> u8
    ensures { result ≡ head_code quote }
{
    match quote {
        Quote::Single => SINGLE_HEAD,
        Quote::Double => DOUBLE_HEAD,
    }
}

// The code of an identifier.
fn code_of_name(text: &[u8]) -> u8
    ensures { result ≡ code_of_name text.now }
{
    if text == b"on".as_slice() {
        ON
    } else if text == b"of".as_slice() {
        OF
    } else if text == b"show".as_slice() {
        SHOW
    } else if text == b"hide".as_slice() {
        HIDE
    } else {
        NAME
    }
}

// The code, where the lexeme is the kind's own.
fn own_or_odd(lexeme: &[u8], text: &[u8], code: u8) -> u8
    ensures { result ≡ own_or_odd (bytes_eq lexeme.now text.now) code }
{
    if lexeme == text { code } else { ODD }
}

/// The code of a token.
#[tactic(auto, unfolding(token_codes::specs::Codes::class_of))]
pub fn class_of(token: &Token) -> u8
    ensures { result ≡ class_of token.now }
{
    let lexeme = token.lexeme.as_slice();
    match token.kind {
        TokenKind::Identifier => code_of_name(lexeme),
        TokenKind::Word(word) => own_or_odd(lexeme, word.text(), word_code(word)),
        TokenKind::Integer => INTEGER,
        TokenKind::Whole => WHOLE,
        TokenKind::Head(quote) => head_code(quote),
        TokenKind::Middle => MIDDLE,
        TokenKind::Tail => TAIL,
        TokenKind::Sign(sign) => own_or_odd(lexeme, sign.text(), sign_code(sign)),
    }
}
