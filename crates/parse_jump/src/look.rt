// Which tokens begin statements (ECMA-408, 17 Statements).
ghost use Rattle.std.specs.Prelude.{◌≡◌};
ghost use Rattle.grammar_laws.specs.Readers.{starts};
ghost use Rattle.parse_jump.specs.Views.{case_first, comes_in};
ghost use Rattle.syntax_readers.specs.Statements as spec;
ghost use Rattle.token_codes.specs.Codes.{class_of};

use dart_token::sign::Sign;
use dart_token::word::Word;
use parse_literal::look::{sees_body, sees_expr};
use parse_parameter::look::sees_declaring;
use parse_type::look::name_before;
use token_cursor::cursor::Cursor;

/// Whether a statement comes that is a node (ECMA-408, 17 Statements).
pub fn sees_compound(cursor: &Cursor<'_>) -> bool
    ensures { result ≡ starts class_of spec.compound_first cursor.now }
{
    cursor.sees_word(Word::If)
        || cursor.sees_word(Word::For)
        || cursor.sees_word(Word::While)
        || cursor.sees_word(Word::Do)
        || cursor.sees_word(Word::Switch)
        || cursor.sees_word(Word::Try)
}

/// Whether a statement comes that jumps (ECMA-408, 17 Statements).
pub fn sees_jump(cursor: &Cursor<'_>) -> bool
    ensures { result ≡ starts class_of spec.jump_first cursor.now }
{
    cursor.sees_word(Word::Return)
        || cursor.sees_word(Word::Break)
        || cursor.sees_word(Word::Continue)
        || cursor.sees_word(Word::Rethrow)
}

/// Whether a declaration among statements comes, if it is one (ECMA-408, 17 Statements).
#[tactic(auto, using(crate::proofs::Looking::declaration_first_is))]
pub fn sees_declaration(cursor: &Cursor<'_>) -> bool
    ensures { result ≡ starts class_of spec.declaration_first cursor.now }
{
    sees_declaring(cursor) || cursor.sees_name()
}

/// Whether a statement comes (ECMA-408, 17 Statements).
#[tactic(auto, using(crate::proofs::Looking::stmt_first_is))]
pub fn sees_stmt(cursor: &Cursor<'_>) -> bool
    ensures { result ≡ spec.stmt_comes cursor.now }
{
    sees_compound(cursor)
        || sees_jump(cursor)
        || sees_declaring(cursor)
        || cursor.sees(Sign::Semicolon)
        || sees_expr(cursor)
}

/// Whether a label comes (ECMA-408, 17.13 Labels).
pub fn label_comes(cursor: &Cursor<'_>) -> bool
    ensures { result ≡ spec.label_comes cursor.now }
{
    name_before(cursor, Sign::Colon)
}

// Whether `case` or `default` comes.
fn sees_case(cursor: &Cursor<'_>) -> bool
    ensures { result ≡ starts class_of case_first cursor.now }
{
    cursor.sees_word(Word::Case) || cursor.sees_word(Word::Default)
}

/// Whether `case` or `default` comes behind labels (ECMA-408, 17.9 Switch).
pub fn part_comes(cursor: &Cursor<'_>) -> bool
    ensures { result ≡ spec.part_comes cursor.now }
{
    let mut ahead = cursor.fork();
    for _turn in 0..cursor.left() {
        if sees_case(&ahead) {
            return true;
        }
        if !label_comes(&ahead) {
            return false;
        }
        ahead = ahead.behind_next().behind_next();
    }
    false
}

/// Whether a part of a `switch` comes, if it is one (ECMA-408, 17.9 Switch).
#[tactic(auto, using(crate::proofs::Looking::part_first_is))]
pub fn sees_part(cursor: &Cursor<'_>) -> bool
    ensures { result ≡ starts class_of spec.part_first cursor.now }
{
    sees_case(cursor) || cursor.sees_name()
}

/// Whether a statement comes, in a part of a `switch` or elsewhere (ECMA-408, 17 Statements).
pub fn sees_stmt_in(cursor: &Cursor<'_>, in_part: bool) -> bool
    ensures { result ≡ comes_in in_part cursor.now }
{
    if in_part {
        sees_stmt(cursor) && !part_comes(cursor)
    } else {
        sees_stmt(cursor)
    }
}

/// Whether a call comes, if anything: a name and something in parentheses, behind which no body comes (ECMA-408, 16.14
/// Function Invocation).
pub fn calls(cursor: &Cursor<'_>) -> bool
    ensures { result ≡ spec.calls cursor.now }
{
    if !name_before(cursor, Sign::LeftParenthesis) {
        return false;
    }
    !sees_body(&cursor.behind_next().behind_brackets())
}

/// Whether `catch` or a block comes (ECMA-408, 17.11 Try).
pub fn sees_body_or_catch(cursor: &Cursor<'_>) -> bool
    ensures { result ≡ spec.body_or_catch cursor.now }
{
    cursor.sees_word(Word::Catch) || cursor.sees(Sign::LeftBrace)
}
