// The classes of the pieces of a text.
use dart_token::token::TokenKind;

/// Why a piece is refused.
#[derive(Clone, Copy, Debug, PartialEq, Eq)]
pub enum LexReason {
    /// It begins no token, or what it begins is not closed.
    Unknown,
    /// `r` and the quote of a raw string that is not closed.
    OpenRaw,
    /// Three quotes, which may have an `r` before them.
    TripleQuotes,
    /// A prefix of a double, up to its first digit behind `.` or `e`.
    Fraction,
    /// `??`, `?.` or `??=`
    NullAware,
    /// `#`
    Symbol,
}

/// What a piece of a text is (ECMA-408, 20.1 Lexical Rules).
#[derive(Clone, Copy, Debug, PartialEq, Eq)]
pub enum PieceClass {
    /// Blanks, tabs and ends of lines.
    Blank,
    /// A comment.
    Comment,
    /// A token.
    Lexeme(TokenKind),
    /// What the language or its profile refuses.
    Refused(LexReason),
}
