// Names in lists, and enums.
ghost use Rattle.dart_tree.specs.UnitView as view;
ghost use Rattle.token_cursor.specs.Gives.{Gives};
ghost use Rattle.syntax_readers.specs.Declarations as spec;
ghost use Rattle.parse_head.specs.Heads.{comma_names, dot_names, trailed_names, items_of, trailed_of, enum_behind};

use dart_base::place::Place;
use dart_token::sign::Sign;
use dart_token::word::Word;
use dart_tree::declaration::Enum;
use dart_tree::identifier::{CommaName, DotName};
use std::alloc::Global;
use token_cursor::cursor::Cursor;
use token_cursor::error::ReadFault;

/// Reads names behind commas (ECMA-408, 17.11 Try and 18.1 Imports).
pub fn comma_names(alloc: Global, cursor: &mut Cursor<'_>) -> Result<Vec<CommaName>, ReadFault>
    ensures { Gives items_of (comma_names cursor.old) result cursor.new }
{
    let mut found = Vec::new(alloc);
    for _turn in 0..cursor.left() {
        if !cursor.sees(Sign::Comma) {
            return Ok(found);
        }
        let name = cursor.comma_name(alloc)?;
        found.push(name)?;
    }
    Ok(found)
}

/// Reads names behind dots (ECMA-408, 18 Libraries and Scripts).
pub fn dot_names(alloc: Global, cursor: &mut Cursor<'_>) -> Result<Vec<DotName>, ReadFault>
    ensures { Gives items_of (dot_names cursor.old) result cursor.new }
{
    let mut found = Vec::new(alloc);
    for _turn in 0..cursor.left() {
        if !cursor.sees(Sign::Dot) {
            return Ok(found);
        }
        let name = cursor.dot_name(alloc)?;
        found.push(name)?;
    }
    Ok(found)
}

/// Reads names behind commas, and one more comma or none (ECMA-408, 13 Enums).
pub fn trailed_names(
    alloc: Global,
    cursor: &mut Cursor<'_>,
) -> Result<(Vec<CommaName>, Option<Place>), ReadFault>
    ensures { Gives trailed_of (trailed_names cursor.old) result cursor.new }
{
    let mut found = Vec::new(alloc);
    for _turn in 0..cursor.left() {
        if !cursor.sees(Sign::Comma) {
            return Ok((found, None));
        }
        let comma = cursor.expect(Sign::Comma)?;
        if !cursor.sees_name() {
            return Ok((found, Some(comma)));
        }
        let name = cursor.identifier(alloc)?;
        found.push(CommaName { comma, name })?;
    }
    Ok((found, None))
}

/// Reads an enum (ECMA-408, 13 Enums).
pub fn enumeration(alloc: Global, cursor: &mut Cursor<'_>) -> Result<Enum, ReadFault>
    ensures { Gives view.enum (spec.enum cursor.old) result cursor.new }
{
    let word = cursor.expect_word(Word::Enum)?;
    enum_behind(alloc, cursor, word)
}

// What stands behind the word of an enum.
#[tactic(auto, using(crate::proofs::Naming::named_back))]
fn enum_behind(alloc: Global, cursor: &mut Cursor<'_>, word: Place) -> Result<Enum, ReadFault>
    ensures { Gives view.enum (enum_behind word cursor.old) result cursor.new }
{
    let name = cursor.plain_identifier(alloc)?;
    let opening = cursor.expect(Sign::LeftBrace)?;
    let first = cursor.identifier(alloc)?;
    let (more, comma) = trailed_names(alloc, cursor)?;
    let closing = cursor.expect(Sign::RightBrace)?;
    Ok(Enum {
        word,
        name,
        opening,
        first,
        more,
        comma,
        closing,
    })
}
