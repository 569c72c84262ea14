// Accessors (ECMA-408, 10.2 Getters and 10.3 Setters).
ghost use Rattle.std.specs.Prelude.{◌≡◌, ◌≤◌, ◌<◌, ◌+◌, max};
ghost use Rattle.dart_syntax.specs.Declarations.{an_accessor};
ghost use Rattle.dart_syntax.specs.Types.{result_leaves_name};
ghost use Rattle.dart_tree.specs.Depth as height;
ghost use Rattle.dart_tree.specs.UnitView as unit_view;
ghost use Rattle.dart_tree.specs.View as view;
ghost use Rattle.grammar_laws.specs.Readers.{checked};
ghost use Rattle.parse_callable.specs.Views.{external_if, accessor_head_of, accessor_head_height};
ghost use Rattle.parse_callable.specs.Views.{accessor_head, accessor_parts};
ghost use Rattle.parse_nest.specs.Nests.{NestsExpr, NestsParameters, NestsBlock};
ghost use Rattle.parse_nest.specs.Stages.{exprs_at, parameters_at};
ghost use Rattle.syntax_readers.specs.Combinators.{option_where};
ghost use Rattle.syntax_readers.specs.Declarations as spec;
ghost use Rattle.syntax_readers.specs.Types as types;
ghost use Rattle.syntax_readers.specs.Types.{type_reader};
ghost use Rattle.token_cursor.specs.Gives.{GivesHigh};

use crate::function::external_if;
use dart_base::place::Place;
use dart_token::word::Word;
use dart_tree::declaration::{Accessor, AccessorKind};
use dart_tree::expression::Expr;
use dart_tree::parameter::Parameters;
use dart_tree::statement::{Block, Body};
use dart_tree::types::ResultType;
use parse_head::name::accessor_result;
use parse_nest::inside::{Inside, OpenExpr};
use parse_parameter::body::body;
use parse_parameter::look::result_leaves_name;
use std::alloc::Global;
use token_cursor::cursor::Cursor;
use token_cursor::error::ReadFault;

/// What an accessor answers with, and which accessor it is.
pub type AccessorHead = (Option<ResultType>, AccessorKind);

// `get` or `set` with what follows it, but for the body.
#[tactic(auto, unfolding(syntax_readers::specs::Declarations::accessor_kind))]
fn accessor_kind<
    E: Fn(Global, &mut Cursor<'_>, usize, bool) -> Result<(OpenExpr, usize), ReadFault>,
    P: Fn(Global, &mut Cursor<'_>, usize) -> Result<(Parameters, usize), ReadFault>,
    B: Fn(Global, &mut Cursor<'_>, usize) -> Result<(Block, usize), ReadFault>,
>(
    nest: &Inside<E, P, B>,
    cursor: &mut Cursor<'_>,
    depth: usize,
) -> Result<(AccessorKind, usize), ReadFault>
    requires parameters { NestsParameters nest.now.limit (P.pre nest.now.parameters) (P.post nest.now.parameters) }
    requires within { depth ≤ nest.now.limit }
    ensures { GivesHigh unit_view.accessor_kind height.accessor_kind_height depth
        (spec.accessor_kind (parameters_at depth) cursor.old) result cursor.new }
{
    if cursor.sees_word(Word::Get) {
        let word = cursor.expect_word(Word::Get)?;
        let name = cursor.identifier(nest.alloc)?;
        return Ok((AccessorKind::Get(word, name), 0));
    }
    let word = cursor.expect_word(Word::Set)?;
    let name = cursor.identifier(nest.alloc)?;
    let (parameters, height) = nest.parameters(cursor, depth)?;
    Ok((
        AccessorKind::Set {
            word,
            name,
            parameters,
        },
        height,
    ))
}

// What an accessor answers with, where its word may stand behind it.
fn declared_result(
    alloc: Global,
    cursor: &mut Cursor<'_>,
    depth: usize,
) -> Result<(Option<ResultType>, usize), ReadFault>
    ensures { GivesHigh view.result_option height.result_height depth
        (checked result_leaves_name (option_where spec.result_before_accessor (types.result (type_reader depth)))
        cursor.old) result cursor.new }
{
    let (found, height) = accessor_result(alloc, cursor, depth)?;
    if !result_leaves_name(&found) {
        drop(found);
        return Err(ReadFault::Stuck);
    }
    Ok((found, height))
}

// What an accessor answers with, and which accessor it is.
fn accessor_head<
    E: Fn(Global, &mut Cursor<'_>, usize, bool) -> Result<(OpenExpr, usize), ReadFault>,
    P: Fn(Global, &mut Cursor<'_>, usize) -> Result<(Parameters, usize), ReadFault>,
    B: Fn(Global, &mut Cursor<'_>, usize) -> Result<(Block, usize), ReadFault>,
>(
    nest: &Inside<E, P, B>,
    cursor: &mut Cursor<'_>,
    depth: usize,
) -> Result<(AccessorHead, usize), ReadFault>
    requires parameters { NestsParameters nest.now.limit (P.pre nest.now.parameters) (P.post nest.now.parameters) }
    requires within { depth ≤ nest.now.limit }
    ensures { GivesHigh accessor_head_of accessor_head_height depth
        (accessor_head (type_reader depth) (parameters_at depth) cursor.old) result cursor.new }
{
    let (found, tall) = declared_result(nest.alloc, cursor, depth)?;
    let (kind, taller) = accessor_kind(nest, cursor, depth)?;
    Ok(((found, kind), tall.max(taller)))
}

// An accessor from its parts.
fn accessor_from(external: Option<Place>, head: AccessorHead, body: Body) -> Accessor
    ensures same { unit_view.accessor result ≡ an_accessor external (accessor_head_of head) (view.body body) }
    ensures high { height.accessor_height (unit_view.accessor result) ≡
        max (accessor_head_height (accessor_head_of head)) (height.body_height (view.body body)) + 1 }
{
    let (result_type, kind) = head;
    Accessor {
        external,
        result_type,
        kind,
        body,
    }
}

// An accessor, part by part.
fn accessor_parts<
    E: Fn(Global, &mut Cursor<'_>, usize, bool) -> Result<(OpenExpr, usize), ReadFault>,
    P: Fn(Global, &mut Cursor<'_>, usize) -> Result<(Parameters, usize), ReadFault>,
    B: Fn(Global, &mut Cursor<'_>, usize) -> Result<(Block, usize), ReadFault>,
>(
    nest: &Inside<E, P, B>,
    cursor: &mut Cursor<'_>,
    depth: usize,
    external: bool,
) -> Result<(Accessor, usize), ReadFault>
    requires nests { NestsExpr nest.now.limit (E.pre nest.now.expr) (E.post nest.now.expr) }
    requires parameters { NestsParameters nest.now.limit (P.pre nest.now.parameters) (P.post nest.now.parameters) }
    requires blocks { NestsBlock nest.now.limit (B.pre nest.now.block) (B.post nest.now.block) }
    requires within { depth ≤ nest.now.limit }
    requires room { depth + 1 < 18446744073709551616 }
    ensures { GivesHigh unit_view.accessor height.accessor_height (depth + 1)
        (accessor_parts (type_reader depth) (exprs_at depth) (external_if external) cursor.old) result cursor.new }
{
    let external = external_if(cursor, external)?;
    let (head, tall) = accessor_head(nest, cursor, depth)?;
    let (body, taller) = body(nest, cursor, depth)?;
    let height = tall.max(taller);
    Ok((accessor_from(external, head, body), height + 1))
}

// An accessor whose parts have at most so many nodes above one another.
fn accessor_over<
    E: Fn(Global, &mut Cursor<'_>, usize, bool) -> Result<(OpenExpr, usize), ReadFault>,
    P: Fn(Global, &mut Cursor<'_>, usize) -> Result<(Parameters, usize), ReadFault>,
    B: Fn(Global, &mut Cursor<'_>, usize) -> Result<(Block, usize), ReadFault>,
>(
    nest: &Inside<E, P, B>,
    cursor: &mut Cursor<'_>,
    depth: usize,
    external: bool,
) -> Result<(Accessor, usize), ReadFault>
    requires nests { NestsExpr nest.now.limit (E.pre nest.now.expr) (E.post nest.now.expr) }
    requires parameters { NestsParameters nest.now.limit (P.pre nest.now.parameters) (P.post nest.now.parameters) }
    requires blocks { NestsBlock nest.now.limit (B.pre nest.now.block) (B.post nest.now.block) }
    requires within { depth ≤ nest.now.limit }
    requires room { depth + 1 < 18446744073709551616 }
    ensures { GivesHigh unit_view.accessor height.accessor_height (depth + 1)
        (spec.accessor_over (exprs_at depth) (external_if external) cursor.old) result cursor.new }
{
    accessor_parts(nest, cursor, depth, external)
}

/// Reads an accessor, which is a node, with `external` before it where that may stand (ECMA-408, 10.2 Getters and 10.3
/// Setters).
pub fn accessor<
    E: Fn(Global, &mut Cursor<'_>, usize, bool) -> Result<(OpenExpr, usize), ReadFault>,
    P: Fn(Global, &mut Cursor<'_>, usize) -> Result<(Parameters, usize), ReadFault>,
    B: Fn(Global, &mut Cursor<'_>, usize) -> Result<(Block, usize), ReadFault>,
>(
    nest: &Inside<E, P, B>,
    cursor: &mut Cursor<'_>,
    depth: usize,
    external: bool,
) -> Result<(Accessor, usize), ReadFault>
    requires nests { NestsExpr nest.now.limit (E.pre nest.now.expr) (E.post nest.now.expr) }
    requires parameters { NestsParameters nest.now.limit (P.pre nest.now.parameters) (P.post nest.now.parameters) }
    requires blocks { NestsBlock nest.now.limit (B.pre nest.now.block) (B.post nest.now.block) }
    requires within { depth ≤ nest.now.limit }
    ensures { GivesHigh unit_view.accessor height.accessor_height depth
        (spec.accessor (external_if external) depth cursor.old) result cursor.new }
{
    if depth == 0 {
        return Err(ReadFault::Stuck);
    }
    accessor_over(nest, cursor, depth - 1, external)
}
