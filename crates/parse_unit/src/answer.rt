// The answer on a whole list of tokens.
ghost use Rattle.std.specs.Prelude.{◌≡◌, ◌≤◌, [], length, drop, IfOk};
ghost use Rattle.dart_base.specs.declared.limit.TheConstants.{FURTHER_TREE_DEPTH};
ghost use Rattle.dart_tree.specs.UnitView as view;
ghost use Rattle.dart_syntax.specs.Syntax.{behind};
ghost use Rattle.syntax_readers.specs.Units.{reached, reason_at, unit_reader};
ghost use Rattle.grammar_laws.specs.Wholes.{answer};
ghost use Rattle.parse_unit.specs.Finds.{AnswersWithin, Finds, NestsUnit, Refuses, end_of};

use crate::fault::ParseFault;
use crate::left_out::left_out;
use dart_base::limit::{FURTHER_TREE_DEPTH, TREE_DEPTH};
use dart_base::place::Place;
use dart_token::token::Token;
use dart_tree::unit::Unit;
use std::alloc::{AllocError, Global};
use token_cursor::brackets::skips;
use token_cursor::cursor::Cursor;
use token_cursor::error::ReadFault;

/// The unit that all the tokens are within the depth, or how many tokens stand before the first with which they begin
/// none.
pub fn answer_within<U: Fn(Global, &mut Cursor<'_>, usize) -> Result<(Unit, usize), ReadFault>>(
    alloc: Global,
    tokens: &[Token],
    depth: usize,
    unit: &U,
) -> Result<Result<Unit, usize>, AllocError>
    requires nests { NestsUnit FURTHER_TREE_DEPTH (U.pre unit.now) (U.post unit.now) }
    requires within { depth ≤ FURTHER_TREE_DEPTH }
    ensures { AnswersWithin depth tokens.now result }
{
    let table = skips(alloc, tokens)?;
    let mut cursor = Cursor::new(tokens, &table);
    match unit(alloc, &mut cursor, depth) {
        Ok((unit, _)) => {
            if cursor.left() == 0 {
                return Ok(Ok(unit));
            }
            drop(unit);
            Ok(Err(tokens.len().saturating_sub(cursor.left())))
        }
        Err(ReadFault::Stuck) => Ok(Err(tokens.len().saturating_sub(cursor.left()))),
        Err(ReadFault::Memory) => Err(AllocError),
    }
}

// The place directly behind a token (its column is at most the last that a place can have).
fn place_behind(token: &Token) -> Place
    ensures { result ≡ behind token.now }
{
    let column = u64::from(token.place.column).saturating_add(token.lexeme.len() as u64);
    Place {
        unit: token.place.unit,
        line: token.place.line,
        column: u32::try_from(column).unwrap_or(u32::MAX),
    }
}

// The place behind the last of the tokens.
fn end_of(tokens: &[Token]) -> Option<Place>
    ensures { result ≡ end_of tokens.now }
{
    match tokens {
        [.., last] => Some(place_behind(last)),
        [] => None,
    }
}

// The unit of no tokens.
fn empty_unit(alloc: Global) -> Unit
    ensures { view.unit result ≡ record { directives = []; declarations = [] } }
{
    Unit {
        directives: Vec::new(alloc),
        declarations: Vec::new(alloc),
    }
}

// Why there is no unit, where these tokens are left and a further depth passes the first of them or not.
fn reason(deeper: bool, end: Place, rest: &[Token]) -> ParseFault
    ensures { Refuses (reason_at deeper end rest.now) result }
{
    match rest {
        [] => ParseFault::Syntax(end),
        [token, ..] => {
            if deeper {
                ParseFault::TooDeep(token.place)
            } else {
                ParseFault::Syntax(token.place)
            }
        }
    }
}

// How many tokens stand before the first with which they begin no unit within the further depth.
fn reached<U: Fn(Global, &mut Cursor<'_>, usize) -> Result<(Unit, usize), ReadFault>>(
    alloc: Global,
    tokens: &[Token],
    unit: &U,
) -> Result<usize, AllocError>
    requires nests { NestsUnit FURTHER_TREE_DEPTH (U.pre unit.now) (U.post unit.now) }
    ensures { IfOk result (λ at. at ≡ reached (length tokens.now) (answer (unit_reader FURTHER_TREE_DEPTH) tokens.now)) }
{
    match answer_within(alloc, tokens, FURTHER_TREE_DEPTH, unit)? {
        Ok(unit) => {
            drop(unit);
            Ok(tokens.len())
        }
        Err(at) => Ok(at),
    }
}

// The tokens from this number on.
fn tokens_from(tokens: &[Token], at: usize) -> &[Token]
    ensures { result.now ≡ drop at tokens.now }
{
    tokens.get(at..).unwrap_or(&[])
}

/// The unit that the tokens are, or why they are none: what the profile leaves out before all else, and else the first
/// token that is wrong or, where the further limit of depth passes it, too deep.
pub fn parse_with<U: Fn(Global, &mut Cursor<'_>, usize) -> Result<(Unit, usize), ReadFault>>(
    alloc: Global,
    tokens: &[Token],
    unit: &U,
) -> Result<Unit, ParseFault>
    requires nests { NestsUnit FURTHER_TREE_DEPTH (U.pre unit.now) (U.post unit.now) }
    ensures { Finds tokens.now result }
{
    let Some(end) = end_of(tokens) else {
        return Ok(empty_unit(alloc));
    };
    if let Some((place, feature)) = left_out(tokens) {
        return Err(ParseFault::LeftOut(place, feature));
    }
    let at = match answer_within(alloc, tokens, TREE_DEPTH, unit)? {
        Ok(unit) => return Ok(unit),
        Err(at) => at,
    };
    let further = reached(alloc, tokens, unit)?;
    Err(reason(at < further, end, tokens_from(tokens, at)))
}
