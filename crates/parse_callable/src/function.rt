// Functions that are declared (ECMA-408, 9 Functions).
ghost use Rattle.std.specs.Prelude.{◌≤◌, ◌<◌, ◌+◌};
ghost use Rattle.dart_tree.specs.Depth as height;
ghost use Rattle.dart_tree.specs.View as view;
ghost use Rattle.parse_callable.specs.Views.{external_if, function_parts};
ghost use Rattle.parse_nest.specs.Nests.{NestsExpr, NestsParameters, NestsBlock};
ghost use Rattle.parse_nest.specs.Stages.{exprs_at};
ghost use Rattle.syntax_readers.specs.Declarations as spec;
ghost use Rattle.syntax_readers.specs.Parameters as parameter_spec;
ghost use Rattle.syntax_readers.specs.Types.{type_reader};
ghost use Rattle.token_cursor.specs.Gives.{Gives, GivesHigh, same};

use dart_base::place::Place;
use dart_tree::expression::Expr;
use dart_tree::parameter::Parameters;
use dart_tree::statement::{Block, Function};
use parse_head::name::external_or_none;
use parse_nest::inside::{Inside, OpenExpr};
use parse_parameter::body::body;
use parse_parameter::variable;
use parse_parameter::variable::named_result;
use std::alloc::Global;
use token_cursor::cursor::Cursor;
use token_cursor::error::ReadFault;

/// Reads `external` or nothing where it may stand, and else nothing (ECMA-408, 9.4 External Functions).
pub fn external_if(cursor: &mut Cursor<'_>, external: bool) -> Result<Option<Place>, ReadFault>
    ensures { Gives same (external_if external cursor.old) result cursor.new }
{
    if !external {
        return Ok(None);
    }
    external_or_none(cursor)
}

// A function, part by part.
fn function_parts<
    E: Fn(Global, &mut Cursor<'_>, usize, bool) -> Result<(OpenExpr, usize), ReadFault>,
    P: Fn(Global, &mut Cursor<'_>, usize) -> Result<(Parameters, usize), ReadFault>,
    B: Fn(Global, &mut Cursor<'_>, usize) -> Result<(Block, usize), ReadFault>,
>(
    nest: &Inside<E, P, B>,
    cursor: &mut Cursor<'_>,
    depth: usize,
    external: bool,
) -> Result<(Function, usize), ReadFault>
    requires nests { NestsExpr nest.now.limit (E.pre nest.now.expr) (E.post nest.now.expr) }
    requires parameters { NestsParameters nest.now.limit (P.pre nest.now.parameters) (P.post nest.now.parameters) }
    requires blocks { NestsBlock nest.now.limit (B.pre nest.now.block) (B.post nest.now.block) }
    requires within { depth ≤ nest.now.limit }
    requires room { depth + 1 < 18446744073709551616 }
    ensures { GivesHigh view.function height.function_height (depth + 1)
        (function_parts (type_reader depth) (exprs_at depth) (external_if external) cursor.old) result cursor.new }
{
    let external = external_if(cursor, external)?;
    let (named, tall) = named_result(nest.alloc, cursor, depth)?;
    let (parameters, taller) = nest.parameters(cursor, depth)?;
    let (body, tallest) = body(nest, cursor, depth)?;
    let height = tall.max(taller.max(tallest));
    Ok((
        variable::function(external, named, parameters, body),
        height + 1,
    ))
}

// A function whose parts have at most so many nodes above one another.
fn function_over<
    E: Fn(Global, &mut Cursor<'_>, usize, bool) -> Result<(OpenExpr, usize), ReadFault>,
    P: Fn(Global, &mut Cursor<'_>, usize) -> Result<(Parameters, usize), ReadFault>,
    B: Fn(Global, &mut Cursor<'_>, usize) -> Result<(Block, usize), ReadFault>,
>(
    nest: &Inside<E, P, B>,
    cursor: &mut Cursor<'_>,
    depth: usize,
    external: bool,
) -> Result<(Function, usize), ReadFault>
    requires nests { NestsExpr nest.now.limit (E.pre nest.now.expr) (E.post nest.now.expr) }
    requires parameters { NestsParameters nest.now.limit (P.pre nest.now.parameters) (P.post nest.now.parameters) }
    requires blocks { NestsBlock nest.now.limit (B.pre nest.now.block) (B.post nest.now.block) }
    requires within { depth ≤ nest.now.limit }
    requires room { depth + 1 < 18446744073709551616 }
    ensures { GivesHigh view.function height.function_height (depth + 1)
        (parameter_spec.function_over (exprs_at depth) (external_if external) (parameter_spec.body (exprs_at depth))
        cursor.old) result cursor.new }
{
    function_parts(nest, cursor, depth, external)
}

/// Reads a function, which is a node, with `external` before it where that may stand (ECMA-408, 9 Functions).
pub fn function<
    E: Fn(Global, &mut Cursor<'_>, usize, bool) -> Result<(OpenExpr, usize), ReadFault>,
    P: Fn(Global, &mut Cursor<'_>, usize) -> Result<(Parameters, usize), ReadFault>,
    B: Fn(Global, &mut Cursor<'_>, usize) -> Result<(Block, usize), ReadFault>,
>(
    nest: &Inside<E, P, B>,
    cursor: &mut Cursor<'_>,
    depth: usize,
    external: bool,
) -> Result<(Function, usize), ReadFault>
    requires nests { NestsExpr nest.now.limit (E.pre nest.now.expr) (E.post nest.now.expr) }
    requires parameters { NestsParameters nest.now.limit (P.pre nest.now.parameters) (P.post nest.now.parameters) }
    requires blocks { NestsBlock nest.now.limit (B.pre nest.now.block) (B.post nest.now.block) }
    requires within { depth ≤ nest.now.limit }
    ensures { GivesHigh view.function height.function_height depth
        (spec.function (external_if external) depth cursor.old) result cursor.new }
{
    if depth == 0 {
        return Err(ReadFault::Stuck);
    }
    function_over(nest, cursor, depth - 1, external)
}
