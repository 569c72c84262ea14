// Parts of a `try` that hold no statement (ECMA-408, 17.11 Try).
ghost use Rattle.std.specs.Prelude.{◌≡◌, IfOk};
ghost use Rattle.dart_token.specs.declared.sign.Sign.TheVariants as s;
ghost use Rattle.dart_token.specs.declared.word.Word.TheVariants as w;
ghost use Rattle.dart_tree.specs.Depth as height;
ghost use Rattle.grammar_laws.specs.Readers.{option};
ghost use Rattle.parse_jump.specs.Views.{on_of, on_height, catch_at, one_height};
ghost use Rattle.syntax_readers.specs.Statements as spec;
ghost use Rattle.syntax_readers.specs.Types.{type_reader};
ghost use Rattle.token_codes.specs.Codes.{class_of, these, this_word};
ghost use Rattle.token_codes.specs.Leaves.{comma_name};
ghost use Rattle.token_cursor.specs.Gives.{Gives, GivesHigh, same};

use crate::look::sees_body_or_catch;
use dart_base::place::Place;
use dart_token::sign::Sign;
use dart_token::word::Word;
use dart_tree::identifier::CommaName;
use dart_tree::statement::Catch;
use dart_tree::types::TypeNode;
use parse_type::types::type_node;
use std::alloc::{AllocError, Global};
use token_cursor::codes::ON;
use token_cursor::cursor::Cursor;
use token_cursor::error::ReadFault;

/// Reads `on` and a type (ECMA-408, 17.11 Try).
#[tactic(auto, unfolding(syntax_readers::specs::Statements::on_type))]
pub fn on_type(
    alloc: Global,
    cursor: &mut Cursor<'_>,
    depth: usize,
) -> Result<((Place, TypeNode), usize), ReadFault>
    ensures { GivesHigh on_of on_height depth (spec.on_type (type_reader depth) cursor.old) result cursor.new }
{
    let word = cursor.expect_code(ON)?;
    let (type_node, height) = type_node(alloc, cursor, depth)?;
    Ok(((word, type_node), height))
}

/// Whether a part of a `try` comes that `on` begins: a type follows, and then `catch` or a block (ECMA-408, 17.11 Try).
pub fn on_comes(alloc: Global, cursor: &Cursor<'_>, depth: usize) -> Result<bool, AllocError>
    ensures { IfOk result (λ x. x ≡ spec.on_comes (type_reader depth) cursor.now) }
{
    let mut ahead = cursor.fork();
    match on_type(alloc, &mut ahead, depth) {
        Ok((found, _)) => {
            drop(found);
            Ok(sees_body_or_catch(&ahead))
        }
        Err(ReadFault::Stuck) => Ok(false),
        Err(ReadFault::Memory) => Err(AllocError),
    }
}

/// Whether a part of a `try` comes that `on` or `catch` begins (ECMA-408, 17.11 Try).
pub fn try_part_comes(alloc: Global, cursor: &Cursor<'_>, depth: usize) -> Result<bool, AllocError>
    ensures { IfOk result (λ x. x ≡ spec.try_part_comes (type_reader depth) cursor.now) }
{
    if cursor.sees_word(Word::Catch) {
        return Ok(true);
    }
    on_comes(alloc, cursor, depth)
}

// A comma and an identifier, where a comma comes.
fn maybe_comma_name(alloc: Global, cursor: &mut Cursor<'_>) -> Result<Option<CommaName>, ReadFault>
    ensures { Gives same (option class_of (these s.Comma) comma_name cursor.old) result cursor.new }
{
    if !cursor.sees(Sign::Comma) {
        return Ok(None);
    }
    let name = cursor.comma_name(alloc)?;
    Ok(Some(name))
}

// `catch` and its names, where they have room.
#[tactic(auto, unfolding(syntax_readers::specs::Statements::catch_over))]
fn catch_over(alloc: Global, cursor: &mut Cursor<'_>) -> Result<Catch, ReadFault>
    ensures { Gives same (spec.catch_over cursor.old) result cursor.new }
{
    let word = cursor.expect_word(Word::Catch)?;
    let opening = cursor.expect(Sign::LeftParenthesis)?;
    let exception = cursor.identifier(alloc)?;
    let trace = maybe_comma_name(alloc, cursor)?;
    let closing = cursor.expect(Sign::RightParenthesis)?;
    Ok(Catch {
        word,
        opening,
        exception,
        trace,
        closing,
    })
}

/// Reads `catch` and its names, which are a node (ECMA-408, 17.11 Try).
pub fn catch_clause(
    alloc: Global,
    cursor: &mut Cursor<'_>,
    depth: usize,
) -> Result<(Catch, usize), ReadFault>
    ensures { GivesHigh same one_height depth (catch_at depth cursor.old) result cursor.new }
{
    if depth == 0 {
        return Err(ReadFault::Stuck);
    }
    let found = catch_over(alloc, cursor)?;
    Ok((found, 1))
}

/// Reads the same where `catch` comes (ECMA-408, 17.11 Try).
pub fn maybe_catch(
    alloc: Global,
    cursor: &mut Cursor<'_>,
    depth: usize,
) -> Result<(Option<Catch>, usize), ReadFault>
    ensures { GivesHigh same height.catch_height depth
        (option class_of (this_word w.Catch) (catch_at depth) cursor.old) result cursor.new }
{
    if !cursor.sees_word(Word::Catch) {
        return Ok((None, 0));
    }
    let (found, height) = catch_clause(alloc, cursor, depth)?;
    Ok((Some(found), height))
}
