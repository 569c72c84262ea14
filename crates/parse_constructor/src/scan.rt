// Where the block stands that is a constructor's own body (ECMA-408, 10.6.1 Generative Constructors).
ghost use Rattle.std.specs.Prelude.{◌≡◌, ◌+◌, ◌<◌};
ghost use Rattle.grammar_laws.specs.Readers.{starts};
ghost use Rattle.parse_constructor.specs.Views.{open_after, selecting_first, arithmetic_first, relational_first, testing_first, enclosing_first};
ghost use Rattle.syntax_readers.specs.Combinators.{opening, closing};
ghost use Rattle.syntax_readers.specs.Declarations as spec;
ghost use Rattle.token_codes.specs.Codes.{class_of};

use dart_token::sign::Sign;
use dart_token::word::Word;
use token_cursor::codes::{MIDDLE, TAIL};
use token_cursor::cursor::Cursor;

// Whether a bracket comes that opens.
fn sees_opening(cursor: &Cursor<'_>) -> bool
    ensures { result ≡ starts class_of opening cursor.now }
{
    cursor.sees(Sign::LeftParenthesis)
        || cursor.sees(Sign::LeftBracket)
        || cursor.sees(Sign::LeftBrace)
}

// Whether a bracket comes that closes.
fn sees_closing(cursor: &Cursor<'_>) -> bool
    ensures { result ≡ starts class_of closing cursor.now }
{
    cursor.sees(Sign::RightParenthesis)
        || cursor.sees(Sign::RightBracket)
        || cursor.sees(Sign::RightBrace)
}

// How many brackets are open behind the next token.
fn open_after(unclosed: usize, cursor: &Cursor<'_>) -> usize
    requires room { unclosed + 1 < 18446744073709551616 }
    ensures { result ≡ open_after unclosed cursor.now }
{
    if sees_opening(cursor) {
        return unclosed + 1;
    }
    if sees_closing(cursor) {
        return unclosed.saturating_sub(1);
    }
    unclosed
}

// Whether a body, the end of an initialiser, a selector, a cascade or a conditional comes.
fn sees_selecting(cursor: &Cursor<'_>) -> bool
    ensures { result ≡ starts class_of selecting_first cursor.now }
{
    cursor.sees(Sign::LeftBrace)
        || cursor.sees(Sign::Semicolon)
        || cursor.sees(Sign::Comma)
        || cursor.sees(Sign::Dot)
        || cursor.sees(Sign::LeftBracket)
        || cursor.sees(Sign::LeftParenthesis)
        || cursor.sees(Sign::DotDot)
        || cursor.sees(Sign::Question)
}

// Whether an operator of arithmetic or a shift comes.
fn sees_arithmetic(cursor: &Cursor<'_>) -> bool
    ensures { result ≡ starts class_of arithmetic_first cursor.now }
{
    cursor.sees(Sign::Star)
        || cursor.sees(Sign::Slash)
        || cursor.sees(Sign::TildeSlash)
        || cursor.sees(Sign::Percent)
        || cursor.sees(Sign::Plus)
        || cursor.sees(Sign::Minus)
        || cursor.sees(Sign::ShiftLeft)
        || cursor.sees(Sign::Greater)
}

// Whether an operator on bits comes, or one that tells which of two is less.
fn sees_relational(cursor: &Cursor<'_>) -> bool
    ensures { result ≡ starts class_of relational_first cursor.now }
{
    cursor.sees(Sign::Ampersand)
        || cursor.sees(Sign::Caret)
        || cursor.sees(Sign::Bar)
        || cursor.sees(Sign::Less)
        || cursor.sees(Sign::LessEqual)
        || cursor.sees(Sign::GreaterEqual)
}

// Whether an equality, a logical operator or a test of a type comes.
fn sees_testing(cursor: &Cursor<'_>) -> bool
    ensures { result ≡ starts class_of testing_first cursor.now }
{
    cursor.sees(Sign::EqualEqual)
        || cursor.sees(Sign::NotEqual)
        || cursor.sees(Sign::AndAnd)
        || cursor.sees(Sign::OrOr)
        || cursor.sees_word(Word::Is)
        || cursor.sees_word(Word::As)
}

// Whether the conditional or the string goes on that holds a block.
fn sees_enclosing(cursor: &Cursor<'_>) -> bool
    ensures { result ≡ starts class_of enclosing_first cursor.now }
{
    cursor.sees(Sign::Colon) || cursor.sees_code(MIDDLE) || cursor.sees_code(TAIL)
}

// Whether the constructor goes on behind the block of an initialiser.
#[tactic(auto, using(crate::proofs::Scanning::behind_init_is))]
fn goes_on(cursor: &Cursor<'_>) -> bool
    ensures { result ≡ starts class_of spec.behind_init cursor.now }
{
    sees_selecting(cursor)
        || sees_arithmetic(cursor)
        || sees_relational(cursor)
        || sees_testing(cursor)
        || sees_enclosing(cursor)
}

// Whether the body begins here.
fn is_body(unclosed: usize, cursor: &Cursor<'_>) -> bool
    ensures { result ≡ spec.is_body unclosed cursor.now }
{
    unclosed == 0 && cursor.sees(Sign::LeftBrace) && !goes_on(&cursor.behind_brackets())
}

/// How many tokens stand before the body of a constructor, or how many come if it has none (ECMA-408, 10.6.1 Generative
/// Constructors).
pub fn before_body(cursor: &Cursor<'_>) -> usize
    ensures { result ≡ spec.before_body 0 cursor.now }
{
    let mut ahead = cursor.fork();
    let mut unclosed = 0;
    for turn in 0..cursor.left() {
        if is_body(unclosed, &ahead) {
            return turn;
        }
        unclosed = open_after(unclosed, &ahead);
        ahead = ahead.behind_next();
    }
    cursor.left()
}
