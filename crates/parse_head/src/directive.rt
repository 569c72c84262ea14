// What directives name.
ghost use Rattle.std.specs.Prelude.{◌≡◌, [], ◌∷◌, ◌<◌};
ghost use Rattle.dart_tree.specs.UnitView as view;
ghost use Rattle.grammar_laws.specs.Readers.{starts};
ghost use Rattle.token_codes.specs.Codes.{class_of, show_code, hide_code};
ghost use Rattle.token_cursor.specs.Gives.{Gives, same};
ghost use Rattle.syntax_readers.specs.Units as spec;
ghost use Rattle.parse_head.specs.Heads.{dotted_of, combinators_of, combinator_reader};

use crate::listing::{comma_names, dot_names};
use dart_token::word::Word;
use dart_tree::identifier::{DotName, Identifier};
use dart_tree::unit::{Combinator, CombinatorKind, DirectiveKind, Prefix};
use std::alloc::Global;
use token_cursor::codes::{HIDE, OF, SHOW};
use token_cursor::cursor::Cursor;
use token_cursor::error::ReadFault;

/// Reads names with dots between them (ECMA-408, 18 Libraries and Scripts).
#[tactic(auto, unfolding(syntax_readers::specs::Units::dotted))]
pub fn dotted(
    alloc: Global,
    cursor: &mut Cursor<'_>,
) -> Result<(Identifier, Vec<DotName>), ReadFault>
    ensures { Gives dotted_of (spec.dotted cursor.old) result cursor.new }
{
    let name = cursor.identifier(alloc)?;
    let more = dot_names(alloc, cursor)?;
    Ok((name, more))
}

// A combinator of this kind, behind this word.
#[tactic(auto, unfolding(syntax_readers::specs::Units::combinator_as))]
fn combinator_as(
    alloc: Global,
    cursor: &mut Cursor<'_>,
    kind: CombinatorKind,
    code: u8,
) -> Result<Combinator, ReadFault>
    requires { code < 255 }
    ensures { Gives view.combinator (spec.combinator_as kind code cursor.old) result cursor.new }
{
    let word = cursor.expect_code(code)?;
    let first = cursor.identifier(alloc)?;
    let more = comma_names(alloc, cursor)?;
    Ok(Combinator {
        kind,
        word,
        first,
        more,
    })
}

// A combinator.
fn combinator(alloc: Global, cursor: &mut Cursor<'_>) -> Result<Combinator, ReadFault>
    ensures { Gives view.combinator (combinator_reader cursor.old) result cursor.new }
{
    if cursor.sees_code(SHOW) {
        combinator_as(alloc, cursor, CombinatorKind::Show, SHOW)
    } else {
        combinator_as(alloc, cursor, CombinatorKind::Hide, HIDE)
    }
}

// Whether a combinator comes.
#[tactic(auto, using(crate::proofs::Naming::combinator_starts))]
fn combinator_comes(cursor: &Cursor<'_>) -> bool
    ensures { result ≡ starts class_of (show_code ∷ hide_code ∷ []) cursor.now }
{
    cursor.sees_code(SHOW) || cursor.sees_code(HIDE)
}

/// Reads combinators (ECMA-408, 18.1 Imports and 18.2 Exports).
pub fn combinators(alloc: Global, cursor: &mut Cursor<'_>) -> Result<Vec<Combinator>, ReadFault>
    ensures { Gives combinators_of (spec.combinators cursor.old) result cursor.new }
{
    let mut found = Vec::new(alloc);
    for _turn in 0..cursor.left() {
        if !combinator_comes(cursor) {
            return Ok(found);
        }
        let next = combinator(alloc, cursor)?;
        found.push(next)?;
    }
    Ok(found)
}

/// Reads the prefix of an import (ECMA-408, 18.1 Imports).
#[tactic(auto, unfolding(syntax_readers::specs::Units::prefix))]
pub fn prefix(alloc: Global, cursor: &mut Cursor<'_>) -> Result<Prefix, ReadFault>
    ensures { Gives same (spec.prefix cursor.old) result cursor.new }
{
    let word = cursor.expect_word(Word::As)?;
    let name = cursor.plain_identifier(alloc)?;
    Ok(Prefix { word, name })
}

/// Reads the header of a part (ECMA-408, 18.3 Parts).
#[tactic(auto, unfolding(syntax_readers::specs::Units::part_of))]
pub fn part_of(alloc: Global, cursor: &mut Cursor<'_>) -> Result<DirectiveKind, ReadFault>
    ensures { Gives view.directive_kind (spec.part_of cursor.old) result cursor.new }
{
    let word = cursor.expect_word(Word::Part)?;
    let of_word = cursor.expect_code(OF)?;
    let (name, more) = dotted(alloc, cursor)?;
    Ok(DirectiveKind::PartOf {
        word,
        of_word,
        name,
        more,
    })
}

/// Reads the name of a library (ECMA-408, 18 Libraries and Scripts).
#[tactic(auto, unfolding(syntax_readers::specs::Units::library))]
pub fn library(alloc: Global, cursor: &mut Cursor<'_>) -> Result<DirectiveKind, ReadFault>
    ensures { Gives view.directive_kind (spec.library cursor.old) result cursor.new }
{
    let word = cursor.expect_word(Word::Library)?;
    let (name, more) = dotted(alloc, cursor)?;
    Ok(DirectiveKind::Library { word, name, more })
}
