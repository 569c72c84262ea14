// Which tokens begin strings, operands and expressions, and where a reading that was tried twice stops.
ghost use Rattle.std.specs.Prelude.{◌≡◌};
ghost use Rattle.parse_type.specs.Views.{later};
ghost use Rattle.grammar_laws.specs.Readers.{starts};
ghost use Rattle.token_codes.specs.Codes.{class_of};
ghost use Rattle.syntax_readers.specs.Primaries.{string_first, operand_first, expr_first, selector_first, body_comes};
ghost use Rattle.parse_literal.specs.Views.{prefix_first, bracket_first};

use dart_token::sign::Sign;
use dart_token::word::Word;
use token_cursor::codes::WHOLE;
use token_cursor::cursor::Cursor;

/// Whether a string comes (ECMA-408, 16.5 Strings).
pub fn sees_string(cursor: &Cursor<'_>) -> bool
    ensures { result ≡ starts class_of string_first cursor.now }
{
    cursor.sees_code(WHOLE) || cursor.sees_head()
}

// Whether a bracket comes that begins a primary.
fn sees_bracket(cursor: &Cursor<'_>) -> bool
    ensures { result ≡ starts class_of bracket_first cursor.now }
{
    cursor.sees(Sign::LeftParenthesis)
        || cursor.sees(Sign::LeftBracket)
        || cursor.sees(Sign::LeftBrace)
        || cursor.sees(Sign::Less)
}

// Whether an operator comes that stands before its operand.
fn sees_prefix(cursor: &Cursor<'_>) -> bool
    ensures { result ≡ starts class_of prefix_first cursor.now }
{
    cursor.sees(Sign::Minus)
        || cursor.sees(Sign::Tilde)
        || cursor.sees(Sign::Bang)
        || cursor.sees(Sign::PlusPlus)
        || cursor.sees(Sign::MinusMinus)
}

/// Whether an operand comes (ECMA-408, 16 Expressions).
pub fn sees_operand(cursor: &Cursor<'_>) -> bool
    ensures { result ≡ starts class_of operand_first cursor.now }
{
    cursor.sees_atom()
        || sees_string(cursor)
        || cursor.sees_creation()
        || cursor.sees_word(Word::Super)
        || sees_bracket(cursor)
        || sees_prefix(cursor)
}

/// Whether an expression comes (ECMA-408, 16 Expressions).
pub fn sees_expr(cursor: &Cursor<'_>) -> bool
    ensures { result ≡ starts class_of expr_first cursor.now }
{
    cursor.sees_word(Word::Throw) || sees_operand(cursor)
}

/// Whether a selector comes (ECMA-408, 16.14 to 16.18).
pub fn sees_selector(cursor: &Cursor<'_>) -> bool
    ensures { result ≡ starts class_of selector_first cursor.now }
{
    cursor.sees(Sign::Dot) || cursor.sees(Sign::LeftBracket) || cursor.sees(Sign::LeftParenthesis)
}

/// Whether the body of a function literal comes (ECMA-408, 16.10 Function Expressions).
pub fn sees_body(cursor: &Cursor<'_>) -> bool
    ensures { result ≡ body_comes cursor.now }
{
    cursor.sees(Sign::Arrow) || cursor.sees(Sign::LeftBrace)
}

/// Moves a cursor to the place where another one stands, unless it stands behind that.
pub fn move_later<'a>(cursor: &mut Cursor<'a>, other: &Cursor<'a>)
    ensures { cursor.new ≡ later cursor.old other.now }
{
    if cursor.left() >= other.left() {
        *cursor = other.fork();
    }
}
