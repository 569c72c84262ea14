// Tokens.
use crate::sign::Sign;
use crate::word::Word;
use dart_base::bytes::Bytes;
use dart_base::place::Place;

/// The quote that opens and closes a string.
#[derive(Clone, Copy, Debug, PartialEq, Eq)]
pub enum Quote {
    /// `'`
    Single,
    /// `"`
    Double,
}

/// What a token is (ECMA-408, 20.1 Lexical Rules, 16.5 Strings and 16.33 Identifier Reference).
///
/// A string without interpolation is one `Whole`. One with interpolations is a `Head`, which ends in `${`, then the
/// tokens of the first expression, for each further expression a `Middle` and its tokens, and a `Tail`. A `Middle` and
/// a `Tail` begin with the `}` of the expression before.
#[derive(Clone, Copy, Debug, PartialEq, Eq)]
pub enum TokenKind {
    /// A name that is no word of the language.
    Identifier,
    /// A reserved word or a built-in identifier.
    Word(Word),
    /// Decimal digits, or `0x` or `0X` and hexadecimal digits.
    Integer,
    /// A whole string.
    Whole,
    /// The first piece of a string, with the quote that the last piece ends in.
    Head(Quote),
    /// A piece of a string between two interpolations.
    Middle,
    /// The last piece of a string.
    Tail,
    /// A bracket, separator or operator.
    Sign(Sign),
}

/// A token of a unit: what it is, where it begins, and its bytes.
#[derive(Drop)]
pub struct Token {
    pub kind: TokenKind,
    pub place: Place,
    pub lexeme: Bytes,
}
