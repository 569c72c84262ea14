// Which tokens begin members of a class (ECMA-408, 10 Classes).
ghost use Rattle.std.specs.Prelude.{◌≡◌};
ghost use Rattle.dart_token.specs.declared.word.Word.TheVariants as w;
ghost use Rattle.grammar_laws.specs.Readers.{starts_two};
ghost use Rattle.token_codes.specs.Codes.{class_of, this_word};

use dart_token::word::Word;
use token_cursor::cursor::Cursor;

/// Whether `external` comes, and `static` behind it (ECMA-408, 9.4 External Functions).
#[tactic(auto, using(parse_type::proofs::Looking::two_is))]
pub fn sees_external_static(cursor: &Cursor<'_>) -> bool
    ensures { result ≡ starts_two class_of (this_word w.External) (this_word w.Static) cursor.now }
{
    cursor.sees_word(Word::External) && cursor.behind_next().sees_word(Word::Static)
}
