// Which tokens begin the items of a unit (ECMA-408, 18 Libraries and Scripts).
ghost use Rattle.std.specs.Prelude.{◌≡◌};
ghost use Rattle.grammar_laws.specs.Readers.{starts};
ghost use Rattle.parse_decl.specs.Views.{class_first, declaring_first, directive_first};
ghost use Rattle.syntax_readers.specs.Types.{type_first};
ghost use Rattle.syntax_readers.specs.Units as spec;
ghost use Rattle.token_codes.specs.Codes.{class_of};

use dart_token::sign::Sign;
use dart_token::word::Word;
use parse_parameter::look::sees_variables;
use token_cursor::codes::OF;
use token_cursor::cursor::Cursor;

// Whether a directive comes.
fn sees_directive(cursor: &Cursor<'_>) -> bool
    ensures { result ≡ starts class_of directive_first cursor.now }
{
    cursor.sees_word(Word::Library)
        || cursor.sees_word(Word::Import)
        || cursor.sees_word(Word::Export)
        || cursor.sees_word(Word::Part)
}

// Whether a word comes that begins only declarations other than variables.
fn sees_declaring(cursor: &Cursor<'_>) -> bool
    ensures { result ≡ starts class_of declaring_first cursor.now }
{
    cursor.sees_word(Word::Abstract)
        || cursor.sees_word(Word::Class)
        || cursor.sees_word(Word::Typedef)
        || cursor.sees_word(Word::Enum)
        || cursor.sees_word(Word::External)
}

// Whether a type comes, or a name.
#[tactic(auto, using(crate::proofs::Looking::type_first_is))]
fn sees_type(cursor: &Cursor<'_>) -> bool
    ensures { result ≡ starts class_of type_first cursor.now }
{
    cursor.sees_word(Word::Dynamic) || cursor.sees_name()
}

/// Whether a class comes (ECMA-408, 10 Classes).
pub fn sees_class(cursor: &Cursor<'_>) -> bool
    ensures { result ≡ starts class_of class_first cursor.now }
{
    cursor.sees_word(Word::Abstract) || cursor.sees_word(Word::Class)
}

/// Whether a directive or a declaration comes (ECMA-408, 18 Libraries and Scripts).
#[tactic(auto, using(crate::proofs::Looking::item_first_is))]
pub fn sees_item(cursor: &Cursor<'_>) -> bool
    ensures { result ≡ starts class_of spec.item_first cursor.now }
{
    cursor.sees(Sign::AtSign)
        || sees_directive(cursor)
        || sees_declaring(cursor)
        || sees_variables(cursor)
        || cursor.sees_word(Word::Void)
        || sees_type(cursor)
}

/// Whether the header of a part comes (ECMA-408, 18.3 Parts).
#[tactic(auto, using(parse_type::proofs::Looking::two_is))]
pub fn part_of_comes(cursor: &Cursor<'_>) -> bool
    ensures { result ≡ spec.part_of_comes cursor.now }
{
    cursor.sees_word(Word::Part) && cursor.behind_next().sees_code(OF)
}
