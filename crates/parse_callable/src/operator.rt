// Operators of a class (ECMA-408, 10.1.1 Operators).
ghost use Rattle.std.specs.Prelude.{◌≤◌};
ghost use Rattle.dart_tree.specs.Depth as height;
ghost use Rattle.dart_tree.specs.UnitView as unit_view;
ghost use Rattle.dart_tree.specs.View as view;
ghost use Rattle.parse_callable.specs.Views.{operator_parts};
ghost use Rattle.parse_nest.specs.Nests.{NestsExpr, NestsParameters, NestsBlock};
ghost use Rattle.parse_nest.specs.Stages.{exprs_at};
ghost use Rattle.syntax_readers.specs.Combinators.{option_where};
ghost use Rattle.syntax_readers.specs.Declarations as spec;
ghost use Rattle.syntax_readers.specs.Types as types;
ghost use Rattle.syntax_readers.specs.Types.{type_reader};
ghost use Rattle.token_cursor.specs.Gives.{GivesHigh};

use dart_token::word::Word;
use dart_tree::declaration::OperatorMember;
use dart_tree::expression::Expr;
use dart_tree::parameter::Parameters;
use dart_tree::statement::Block;
use dart_tree::types::ResultType;
use parse_head::name::{external_or_none, operator_name};
use parse_nest::inside::{Inside, OpenExpr};
use parse_parameter::body::body;
use parse_type::kind::result_type;
use parse_type::look::result_comes;
use std::alloc::Global;
use token_cursor::cursor::Cursor;
use token_cursor::error::ReadFault;

// What an operator answers with, or nothing.
fn operator_result(
    alloc: Global,
    cursor: &mut Cursor<'_>,
    depth: usize,
) -> Result<(Option<ResultType>, usize), ReadFault>
    ensures { GivesHigh view.result_option height.result_height depth
        (option_where types.result_comes (types.result (type_reader depth)) cursor.old) result cursor.new }
{
    if !result_comes(cursor) {
        return Ok((None, 0));
    }
    let (found, height) = result_type(alloc, cursor, depth)?;
    Ok((Some(found), height))
}

// An operator, part by part.
fn operator_parts<
    E: Fn(Global, &mut Cursor<'_>, usize, bool) -> Result<(OpenExpr, usize), ReadFault>,
    P: Fn(Global, &mut Cursor<'_>, usize) -> Result<(Parameters, usize), ReadFault>,
    B: Fn(Global, &mut Cursor<'_>, usize) -> Result<(Block, usize), ReadFault>,
>(
    nest: &Inside<E, P, B>,
    cursor: &mut Cursor<'_>,
    depth: usize,
) -> Result<(OperatorMember, usize), ReadFault>
    requires nests { NestsExpr nest.now.limit (E.pre nest.now.expr) (E.post nest.now.expr) }
    requires parameters { NestsParameters nest.now.limit (P.pre nest.now.parameters) (P.post nest.now.parameters) }
    requires blocks { NestsBlock nest.now.limit (B.pre nest.now.block) (B.post nest.now.block) }
    requires within { depth ≤ nest.now.limit }
    ensures { GivesHigh unit_view.operator_member height.operator_height depth
        (operator_parts (type_reader depth) (exprs_at depth) cursor.old) result cursor.new }
{
    let external = external_or_none(cursor)?;
    let (result_type, tall) = operator_result(nest.alloc, cursor, depth)?;
    let word = cursor.expect_word(Word::Operator)?;
    let name = operator_name(cursor)?;
    let (parameters, taller) = nest.parameters(cursor, depth)?;
    let (body, tallest) = body(nest, cursor, depth)?;
    Ok((
        OperatorMember {
            external,
            result_type,
            word,
            name,
            parameters,
            body,
        },
        tall.max(taller.max(tallest)),
    ))
}

/// Reads an operator (ECMA-408, 10.1.1 Operators).
pub fn operator_member<
    E: Fn(Global, &mut Cursor<'_>, usize, bool) -> Result<(OpenExpr, usize), ReadFault>,
    P: Fn(Global, &mut Cursor<'_>, usize) -> Result<(Parameters, usize), ReadFault>,
    B: Fn(Global, &mut Cursor<'_>, usize) -> Result<(Block, usize), ReadFault>,
>(
    nest: &Inside<E, P, B>,
    cursor: &mut Cursor<'_>,
    depth: usize,
) -> Result<(OperatorMember, usize), ReadFault>
    requires nests { NestsExpr nest.now.limit (E.pre nest.now.expr) (E.post nest.now.expr) }
    requires parameters { NestsParameters nest.now.limit (P.pre nest.now.parameters) (P.post nest.now.parameters) }
    requires blocks { NestsBlock nest.now.limit (B.pre nest.now.block) (B.post nest.now.block) }
    requires within { depth ≤ nest.now.limit }
    ensures { GivesHigh unit_view.operator_member height.operator_height depth
        (spec.operator_member (exprs_at depth) cursor.old) result cursor.new }
{
    operator_parts(nest, cursor, depth)
}
