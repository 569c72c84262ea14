// Aliases of the types of functions (ECMA-408, 19.3.1 Typedef).
ghost use Rattle.std.specs.Prelude.{◌≤◌, ◌<◌, ◌+◌};
ghost use Rattle.dart_tree.specs.Depth as height;
ghost use Rattle.dart_tree.specs.UnitView as view;
ghost use Rattle.dart_tree.specs.View.{result_option};
ghost use Rattle.parse_class.specs.Views.{result_if};
ghost use Rattle.parse_nest.specs.Nests.{NestsExpr, NestsParameters};
ghost use Rattle.parse_nest.specs.Stages.{exprs_at};
ghost use Rattle.syntax_readers.specs.Declarations as spec;
ghost use Rattle.token_cursor.specs.Gives.{GivesHigh};

use crate::part::result_type;
use crate::type_parameter::maybe_type_parameters;
use dart_token::sign::Sign;
use dart_token::word::Word;
use dart_tree::declaration::Alias;
use dart_tree::parameter::Parameters;
use dart_tree::statement::Block;
use dart_tree::types::ResultType;
use parse_nest::inside::{Inside, OpenExpr};
use parse_parameter::look::settle;
use std::alloc::Global;
use token_cursor::cursor::Cursor;
use token_cursor::error::ReadFault;

// What the functions answer with, where that is to be read, and else nothing.
fn result_if(
    alloc: Global,
    cursor: &mut Cursor<'_>,
    depth: usize,
    written: bool,
) -> Result<(Option<ResultType>, usize), ReadFault>
    ensures { GivesHigh result_option height.result_height depth
        (result_if written (exprs_at depth).type cursor.old) result cursor.new }
{
    if !written {
        return Ok((None, 0));
    }
    let (found, height) = result_type(alloc, cursor, depth)?;
    Ok((Some(found), height))
}

// An alias in which what the functions answer with is written or not.
#[tactic(auto, unfolding(syntax_readers::specs::Declarations::alias_over))]
fn alias_over<
    E: Fn(Global, &mut Cursor<'_>, usize, bool) -> Result<(OpenExpr, usize), ReadFault>,
    P: Fn(Global, &mut Cursor<'_>, usize) -> Result<(Parameters, usize), ReadFault>,
    B: Fn(Global, &mut Cursor<'_>, usize) -> Result<(Block, usize), ReadFault>,
>(
    nest: &Inside<E, P, B>,
    cursor: &mut Cursor<'_>,
    depth: usize,
    written: bool,
) -> Result<(Alias, usize), ReadFault>
    requires nests { NestsExpr nest.now.limit (E.pre nest.now.expr) (E.post nest.now.expr) }
    requires parameters { NestsParameters nest.now.limit (P.pre nest.now.parameters) (P.post nest.now.parameters) }
    requires within { depth ≤ nest.now.limit }
    requires room { depth + 1 < 18446744073709551616 }
    ensures { GivesHigh view.alias height.alias_height (depth + 1)
        (spec.alias_over (exprs_at depth) (result_if written (exprs_at depth).type) cursor.old) result cursor.new }
{
    let word = cursor.expect_word(Word::Typedef)?;
    let (result_type, tall) = result_if(nest.alloc, cursor, depth, written)?;
    let name = cursor.plain_identifier(nest.alloc)?;
    let (type_parameters, taller) = maybe_type_parameters(nest, cursor, depth)?;
    let (parameters, tallest) = nest.parameters(cursor, depth)?;
    let semicolon = cursor.expect(Sign::Semicolon)?;
    let height = tall.max(taller.max(tallest));
    Ok((
        Alias {
            word,
            result_type,
            name,
            type_parameters,
            parameters,
            semicolon,
        },
        height + 1,
    ))
}

// An alias whose parts have at most so many nodes above one another.
fn either_alias<
    E: Fn(Global, &mut Cursor<'_>, usize, bool) -> Result<(OpenExpr, usize), ReadFault>,
    P: Fn(Global, &mut Cursor<'_>, usize) -> Result<(Parameters, usize), ReadFault>,
    B: Fn(Global, &mut Cursor<'_>, usize) -> Result<(Block, usize), ReadFault>,
>(
    nest: &Inside<E, P, B>,
    cursor: &mut Cursor<'_>,
    depth: usize,
) -> Result<(Alias, usize), ReadFault>
    requires nests { NestsExpr nest.now.limit (E.pre nest.now.expr) (E.post nest.now.expr) }
    requires parameters { NestsParameters nest.now.limit (P.pre nest.now.parameters) (P.post nest.now.parameters) }
    requires within { depth ≤ nest.now.limit }
    requires room { depth + 1 < 18446744073709551616 }
    ensures { GivesHigh view.alias height.alias_height (depth + 1)
        (spec.alias (exprs_at depth) cursor.old) result cursor.new }
{
    let mut second = cursor.fork();
    match alias_over(nest, cursor, depth, true) {
        Ok(found) => Ok(found),
        Err(ReadFault::Memory) => Err(ReadFault::Memory),
        Err(ReadFault::Stuck) => {
            let bare = alias_over(nest, &mut second, depth, false);
            settle(cursor, &second, bare.is_ok());
            bare
        }
    }
}

/// Reads an alias, which is a node (ECMA-408, 19.3.1 Typedef).
pub fn alias<
    E: Fn(Global, &mut Cursor<'_>, usize, bool) -> Result<(OpenExpr, usize), ReadFault>,
    P: Fn(Global, &mut Cursor<'_>, usize) -> Result<(Parameters, usize), ReadFault>,
    B: Fn(Global, &mut Cursor<'_>, usize) -> Result<(Block, usize), ReadFault>,
>(
    nest: &Inside<E, P, B>,
    cursor: &mut Cursor<'_>,
    depth: usize,
) -> Result<(Alias, usize), ReadFault>
    requires nests { NestsExpr nest.now.limit (E.pre nest.now.expr) (E.post nest.now.expr) }
    requires parameters { NestsParameters nest.now.limit (P.pre nest.now.parameters) (P.post nest.now.parameters) }
    requires within { depth ≤ nest.now.limit }
    ensures { GivesHigh view.alias height.alias_height depth
        (spec.node (λ m. spec.alias (exprs_at m)) depth cursor.old) result cursor.new }
{
    if depth == 0 {
        return Err(ReadFault::Stuck);
    }
    either_alias(nest, cursor, depth - 1)
}
