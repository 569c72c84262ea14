// Names of declarations, and what tells them.
ghost use Rattle.std.specs.Prelude.{◌≡◌};
ghost use Rattle.dart_tree.specs.Depth as height;
ghost use Rattle.dart_tree.specs.View as view;
ghost use Rattle.grammar_laws.specs.Readers.{starts};
ghost use Rattle.token_codes.specs.Codes.{class_of};
ghost use Rattle.token_cursor.specs.Gives.{Gives, GivesHigh, same};
ghost use Rattle.dart_syntax.specs.Declarations.{operator_signs};
ghost use Rattle.syntax_readers.specs.Combinators.{option_where};
ghost use Rattle.syntax_readers.specs.Types as types;
ghost use Rattle.syntax_readers.specs.Declarations as spec;
ghost use Rattle.parse_head.specs.Heads.{class_named, greater_reader, index_reader, accessor_words};

use dart_base::place::Place;
use dart_token::sign::Sign;
use dart_token::word::Word;
use dart_tree::declaration::{ConstructorName, OperatorName};
use dart_tree::identifier::Identifier;
use dart_tree::types::ResultType;
use parse_type::kind::result_type;
use parse_type::look::result_comes;
use std::alloc::Global;
use token_cursor::cursor::Cursor;
use token_cursor::error::ReadFault;

/// Reads `external` or nothing (ECMA-408, 9.4 External Functions).
#[tactic(auto, unfolding(syntax_readers::specs::Declarations::external_or_none))]
pub fn external_or_none(cursor: &mut Cursor<'_>) -> Result<Option<Place>, ReadFault>
    ensures { Gives same (spec.external_or_none cursor.old) result cursor.new }
{
    Ok(cursor.maybe_word(Word::External))
}

// Whether the word of an accessor comes.
#[tactic(auto, using(crate::proofs::Naming::accessor_word_starts))]
fn accessor_word_comes(cursor: &Cursor<'_>) -> bool
    ensures { result ≡ starts class_of accessor_words cursor.now }
{
    cursor.sees_word(Word::Get) || cursor.sees_word(Word::Set)
}

/// Whether the word of an accessor comes, and its name (ECMA-408, 10.2 Getters and 10.3 Setters).
#[tactic(auto, using(parse_type::proofs::Looking::two_is))]
pub fn accessor_comes(cursor: &Cursor<'_>) -> bool
    ensures { result ≡ spec.accessor_comes cursor.now }
{
    accessor_word_comes(cursor) && cursor.behind_next().sees_name()
}

/// Whether what an accessor answers with comes (ECMA-408, 10.2 Getters).
pub fn result_before_accessor(cursor: &Cursor<'_>) -> bool
    ensures { result ≡ spec.result_before_accessor cursor.now }
{
    result_comes(cursor) && !accessor_comes(cursor)
}

/// Reads what an accessor answers with, or nothing (ECMA-408, 10.2 Getters).
pub fn accessor_result(
    alloc: Global,
    cursor: &mut Cursor<'_>,
    depth: usize,
) -> Result<(Option<ResultType>, usize), ReadFault>
    ensures { GivesHigh view.result_option height.result_height depth
        (option_where spec.result_before_accessor (types.result (types.type_reader depth)) cursor.old) result cursor.new }
{
    if !result_before_accessor(cursor) {
        return Ok((None, 0));
    }
    let (found, height) = result_type(alloc, cursor, depth)?;
    Ok((Some(found), height))
}

/// Reads the name of a constructor of this class (ECMA-408, 10.6 Constructors).
#[tactic(auto, unfolding(syntax_readers::specs::Declarations::constructor_name))]
pub fn constructor_name(
    alloc: Global,
    cursor: &mut Cursor<'_>,
    class: &[u8],
) -> Result<ConstructorName, ReadFault>
    ensures { Gives same (spec.constructor_name class.now cursor.old) result cursor.new }
{
    let class = class_name(alloc, cursor, class)?;
    let name = cursor.maybe_dot_name(alloc)?;
    Ok(ConstructorName { class, name })
}

// The name of this class.
fn class_name(alloc: Global, cursor: &mut Cursor<'_>, class: &[u8]) -> Result<Identifier, ReadFault>
    ensures { Gives same (class_named class.now cursor.old) result cursor.new }
{
    if !cursor.sees_named(class) {
        return Err(ReadFault::Stuck);
    }
    cursor.plain_identifier(alloc)
}

/// Reads the name of an operator that a class may declare (ECMA-408, 10.1.1 Operators).
#[tactic(auto, unfolding(syntax_readers::specs::Declarations::operator_name))]
pub fn operator_name(cursor: &mut Cursor<'_>) -> Result<OperatorName, ReadFault>
    ensures { Gives same (spec.operator_name cursor.old) result cursor.new }
{
    if cursor.sees(Sign::Greater) {
        return greater_name(cursor);
    }
    if cursor.sees(Sign::LeftBracket) {
        return index_name(cursor);
    }
    single_sign(cursor)
}

// `>` or `> >`.
fn greater_name(cursor: &mut Cursor<'_>) -> Result<OperatorName, ReadFault>
    ensures { Gives same (greater_reader cursor.old) result cursor.new }
{
    let first = cursor.expect(Sign::Greater)?;
    match cursor.maybe(Sign::Greater) {
        Some(second) => Ok(OperatorName::ShiftRight(first, second)),
        None => Ok(OperatorName::Sign(first, Sign::Greater)),
    }
}

// `[ ]` or `[ ] =`.
fn index_name(cursor: &mut Cursor<'_>) -> Result<OperatorName, ReadFault>
    ensures { Gives same (index_reader cursor.old) result cursor.new }
{
    let opening = cursor.expect(Sign::LeftBracket)?;
    let closing = cursor.expect(Sign::RightBracket)?;
    match cursor.maybe(Sign::Assign) {
        Some(equals) => Ok(OperatorName::IndexAssign {
            opening,
            closing,
            equals,
        }),
        None => Ok(OperatorName::Index(opening, closing)),
    }
}

/// The operators of one sign that a class may declare (ECMA-408, 10.1.1 Operators).
pub const OPERATOR_SIGNS: [Sign; 16] = [
    Sign::Plus,
    Sign::Minus,
    Sign::Star,
    Sign::Slash,
    Sign::TildeSlash,
    Sign::Percent,
    Sign::Less,
    Sign::Greater,
    Sign::LessEqual,
    Sign::GreaterEqual,
    Sign::EqualEqual,
    Sign::ShiftLeft,
    Sign::Ampersand,
    Sign::Bar,
    Sign::Caret,
    Sign::Tilde,
];

// An operator of one sign.
fn single_sign(cursor: &mut Cursor<'_>) -> Result<OperatorName, ReadFault>
    ensures { Gives same (spec.operator_signs_of operator_signs cursor.old) result cursor.new }
{
    for sign in &OPERATOR_SIGNS {
        if cursor.sees(*sign) {
            let place = cursor.expect(*sign)?;
            return Ok(OperatorName::Sign(place, *sign));
        }
    }
    Err(ReadFault::Stuck)
}
