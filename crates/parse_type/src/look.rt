// What is told by the next two tokens, and where a name may end a reading.
ghost use Rattle.std.specs.Prelude.{◌≡◌};
ghost use Rattle.grammar_laws.specs.Readers.{starts, starts_two};
ghost use Rattle.token_codes.specs.Codes.{class_of, names, these};
ghost use Rattle.syntax_readers.specs.Types as spec;
ghost use Rattle.parse_type.specs.Views.{behind_name, later};

use dart_token::sign::Sign;
use dart_token::word::Word;
use token_cursor::cursor::Cursor;

/// Whether an identifier comes, and this sign behind it.
pub fn name_before(cursor: &Cursor<'_>, sign: Sign) -> bool
    ensures { result ≡ starts_two class_of names (these sign) cursor.now }
{
    cursor.sees_name() && cursor.behind_next().sees(sign)
}

// Whether what comes makes the identifier before it a type's name.
#[tactic(auto, using(crate::proofs::Looking::starts_behind))]
fn comes_behind_type_name(cursor: &Cursor<'_>) -> bool
    ensures { result ≡ starts class_of spec.behind_type_name cursor.now }
{
    cursor.sees_name()
        || cursor.sees(Sign::Dot)
        || cursor.sees(Sign::Less)
        || cursor.sees_word(Word::This)
        || cursor.sees_word(Word::Operator)
}

/// Whether a type comes, and not only the name behind one.
pub fn type_comes(cursor: &Cursor<'_>) -> bool
    ensures { result ≡ spec.type_comes cursor.now }
{
    if cursor.sees_word(Word::Dynamic) {
        return true;
    }
    cursor.sees_name() && comes_behind_type_name(&cursor.behind_next())
}

/// Whether `void` or a type comes, and not only the name behind one.
pub fn result_comes(cursor: &Cursor<'_>) -> bool
    ensures { result ≡ spec.result_comes cursor.now }
{
    cursor.sees_word(Word::Void) || type_comes(cursor)
}

/// Moves a cursor that is stuck behind the identifier that began the reading, if it stands before its end.
pub fn pass_name<'a>(start: &Cursor<'a>, cursor: &mut Cursor<'a>)
    ensures { cursor.new ≡ later (behind_name start.now) cursor.old }
{
    if start.sees_name() {
        let behind = start.behind_next();
        if behind.left() < cursor.left() {
            *cursor = behind;
        }
    } else if start.left() < cursor.left() {
        *cursor = start.fork();
    }
}
