// Which tokens begin members, and the name of a class.
ghost use Rattle.std.specs.Prelude.{◌≡◌};
ghost use Rattle.dart_syntax.specs.Declarations.{text_of};
ghost use Rattle.grammar_laws.specs.Readers.{starts};
ghost use Rattle.parse_class.specs.Views.{modifier_first};
ghost use Rattle.syntax_readers.specs.Declarations.{member_first};
ghost use Rattle.token_codes.specs.Codes.{class_of};

use dart_token::sign::Sign;
use dart_token::word::Word;
use dart_tree::identifier::Identifier;
use parse_parameter::look::sees_declaring;
use token_cursor::cursor::Cursor;

// Whether metadata or a word comes that stands before what a member declares.
fn sees_modifier(cursor: &Cursor<'_>) -> bool
    ensures { result ≡ starts class_of modifier_first cursor.now }
{
    cursor.sees(Sign::AtSign)
        || cursor.sees_word(Word::Static)
        || cursor.sees_word(Word::External)
        || cursor.sees_word(Word::Factory)
        || cursor.sees_word(Word::Operator)
}

/// Whether a member comes (ECMA-408, 10 Classes).
#[tactic(auto, using(crate::proofs::Looking::member_first_is))]
pub fn sees_member(cursor: &Cursor<'_>) -> bool
    ensures { result ≡ starts class_of member_first cursor.now }
{
    sees_modifier(cursor) || sees_declaring(cursor) || cursor.sees_name()
}

/// How an identifier is written, if it is neither `get` nor `set`.
pub fn text_of(name: &Identifier) -> &[u8]
    ensures { result.now ≡ text_of name.now }
{
    match name {
        Identifier::Name(_, text) => text.as_slice(),
        _ => &[],
    }
}
