// Metadata (ECMA-408, 15 Metadata), and parameters with it.
ghost use Rattle.std.specs.Prelude.{◌≡◌, ◌≤◌, ◌<◌, ◌+◌, None, Some};
ghost use Rattle.dart_syntax.specs.Statements.{to_annotation};
ghost use Rattle.dart_token.specs.declared.sign.Sign.TheVariants as s;
ghost use Rattle.dart_tree.specs.Depth as height;
ghost use Rattle.dart_tree.specs.View as view;
ghost use Rattle.grammar_laws.specs.Readers.{option};
ghost use Rattle.parse_nest.specs.Nests.{NestsExpr, NestsParameters};
ghost use Rattle.parse_parameter.specs.Views.{parameter_at, bare_of, node_height, metadata_of, arguments_of, annotation_at, arguments_height};
ghost use Rattle.syntax_readers.specs.Parameters as spec;
ghost use Rattle.token_codes.specs.Codes.{class_of, these};
ghost use Rattle.token_cursor.specs.Gives.{GivesHigh};
ghost use Rattle.parse_nest.specs.Stages.{exprs_at};

use crate::parameter::parameter_kind;
use dart_base::place::Place;
use dart_node::make::expression as make;
use dart_token::sign::Sign;
use dart_tree::expression::Arguments;
use dart_tree::identifier::{DotName, Identifier};
use dart_tree::parameter::{Annotation, ParameterKind, Parameters, Parentheses};
use dart_tree::statement::Block;
use parse_head::listing::dot_names;
use parse_nest::inside::{Inside, OpenExpr};
use parse_primary::arguments::arguments;
use std::alloc::Global;
use token_cursor::cursor::Cursor;
use token_cursor::error::ReadFault;

/// Metadata, and how a parameter is declared.
pub type BareParameter = (Vec<Annotation>, ParameterKind);

// An annotation without arguments.
fn plain_annotation(alloc: Global, at: Place, name: Identifier, more: Vec<DotName>) -> Annotation
    ensures same { view.annotation result ≡ to_annotation (at, (name, (more.items, None))) }
    ensures high { height.annotation_height (view.annotation result) ≡ 0 }
{
    make::annotation(at, name, more, None, Vec::new(alloc))
}

// An annotation with arguments.
fn calling_annotation(
    at: Place,
    name: Identifier,
    more: Vec<DotName>,
    arguments: Arguments,
) -> Annotation
    ensures same { view.annotation result ≡ to_annotation (at, (name, (more.items, Some (view.arguments arguments)))) }
    ensures high { height.annotation_height (view.annotation result) ≡ height.arguments_height (view.arguments arguments) }
{
    let call = Parentheses {
        opening: arguments.opening,
        closing: arguments.closing,
    };
    make::annotation(at, name, more, Some(call), arguments.items)
}

// An annotation from its parts.
fn annotation_of(
    alloc: Global,
    at: Place,
    name: Identifier,
    more: Vec<DotName>,
    arguments: Option<Arguments>,
) -> Annotation
    ensures same { view.annotation result ≡ to_annotation (at, (name, (more.items, arguments_of arguments))) }
    ensures high { height.annotation_height (view.annotation result) ≡ arguments_height (arguments_of arguments) }
{
    match arguments {
        None => plain_annotation(alloc, at, name, more),
        Some(arguments) => calling_annotation(at, name, more, arguments),
    }
}

// Arguments where they come.
fn maybe_arguments<
    E: Fn(Global, &mut Cursor<'_>, usize, bool) -> Result<(OpenExpr, usize), ReadFault>,
    P: Fn(Global, &mut Cursor<'_>, usize) -> Result<(Parameters, usize), ReadFault>,
    B: Fn(Global, &mut Cursor<'_>, usize) -> Result<(Block, usize), ReadFault>,
>(
    nest: &Inside<E, P, B>,
    cursor: &mut Cursor<'_>,
    depth: usize,
) -> Result<(Option<Arguments>, usize), ReadFault>
    requires nests { NestsExpr nest.now.limit (E.pre nest.now.expr) (E.post nest.now.expr) }
    requires within { depth ≤ nest.now.limit }
    ensures { GivesHigh arguments_of arguments_height depth
        (option class_of (these s.LeftParenthesis) (exprs_at depth).arguments cursor.old) result cursor.new }
{
    if !cursor.sees(Sign::LeftParenthesis) {
        return Ok((None, 0));
    }
    let (found, height) = arguments(nest, cursor, depth)?;
    Ok((Some(found), height))
}

// An annotation.
fn annotation<
    E: Fn(Global, &mut Cursor<'_>, usize, bool) -> Result<(OpenExpr, usize), ReadFault>,
    P: Fn(Global, &mut Cursor<'_>, usize) -> Result<(Parameters, usize), ReadFault>,
    B: Fn(Global, &mut Cursor<'_>, usize) -> Result<(Block, usize), ReadFault>,
>(
    nest: &Inside<E, P, B>,
    cursor: &mut Cursor<'_>,
    depth: usize,
) -> Result<(Annotation, usize), ReadFault>
    requires nests { NestsExpr nest.now.limit (E.pre nest.now.expr) (E.post nest.now.expr) }
    requires within { depth ≤ nest.now.limit }
    ensures { GivesHigh view.annotation height.annotation_height depth
        (annotation_at depth cursor.old) result cursor.new }
{
    let at = cursor.expect(Sign::AtSign)?;
    let name = cursor.identifier(nest.alloc)?;
    let more = dot_names(nest.alloc, cursor)?;
    let (arguments, height) = maybe_arguments(nest, cursor, depth)?;
    Ok((annotation_of(nest.alloc, at, name, more, arguments), height))
}

/// Reads metadata (ECMA-408, 15 Metadata).
pub fn metadata<
    E: Fn(Global, &mut Cursor<'_>, usize, bool) -> Result<(OpenExpr, usize), ReadFault>,
    P: Fn(Global, &mut Cursor<'_>, usize) -> Result<(Parameters, usize), ReadFault>,
    B: Fn(Global, &mut Cursor<'_>, usize) -> Result<(Block, usize), ReadFault>,
>(
    nest: &Inside<E, P, B>,
    cursor: &mut Cursor<'_>,
    depth: usize,
) -> Result<(Vec<Annotation>, usize), ReadFault>
    requires nests { NestsExpr nest.now.limit (E.pre nest.now.expr) (E.post nest.now.expr) }
    requires within { depth ≤ nest.now.limit }
    ensures { GivesHigh metadata_of height.metadata_height depth
        (spec.metadata (exprs_at depth) cursor.old) result cursor.new }
{
    let mut found = Vec::new(nest.alloc);
    let mut highest = 0;
    for _turn in 0..cursor.left() {
        if !cursor.sees(Sign::AtSign) {
            return Ok((found, highest));
        }
        let (further, height) = annotation(nest, cursor, depth)?;
        found.push(further)?;
        highest = highest.max(height);
    }
    Ok((found, highest))
}

// How a parameter is declared, by the readers of one depth.
fn how_declared<
    E: Fn(Global, &mut Cursor<'_>, usize, bool) -> Result<(OpenExpr, usize), ReadFault>,
    P: Fn(Global, &mut Cursor<'_>, usize) -> Result<(Parameters, usize), ReadFault>,
    B: Fn(Global, &mut Cursor<'_>, usize) -> Result<(Block, usize), ReadFault>,
>(
    nest: &Inside<E, P, B>,
    cursor: &mut Cursor<'_>,
    depth: usize,
) -> Result<(ParameterKind, usize), ReadFault>
    requires parameters { NestsParameters nest.now.limit (P.pre nest.now.parameters) (P.post nest.now.parameters) }
    requires within { depth ≤ nest.now.limit }
    ensures { GivesHigh view.parameter_kind height.parameter_kind_height depth
        (spec.parameter_kind (exprs_at depth).type (exprs_at depth).parameters cursor.old) result cursor.new }
{
    parameter_kind(nest, cursor, depth)
}

// A parameter over what stands inside.
#[tactic(auto, unfolding(syntax_readers::specs::Parameters::parameter_over))]
fn parameter_over<
    E: Fn(Global, &mut Cursor<'_>, usize, bool) -> Result<(OpenExpr, usize), ReadFault>,
    P: Fn(Global, &mut Cursor<'_>, usize) -> Result<(Parameters, usize), ReadFault>,
    B: Fn(Global, &mut Cursor<'_>, usize) -> Result<(Block, usize), ReadFault>,
>(
    nest: &Inside<E, P, B>,
    cursor: &mut Cursor<'_>,
    depth: usize,
) -> Result<(BareParameter, usize), ReadFault>
    requires nests { NestsExpr nest.now.limit (E.pre nest.now.expr) (E.post nest.now.expr) }
    requires parameters { NestsParameters nest.now.limit (P.pre nest.now.parameters) (P.post nest.now.parameters) }
    requires within { depth ≤ nest.now.limit }
    requires room { depth + 1 < 18446744073709551616 }
    ensures { GivesHigh bare_of node_height (depth + 1)
        (spec.parameter_over (exprs_at depth) cursor.old) result cursor.new }
{
    let (metadata, tall) = metadata(nest, cursor, depth)?;
    let (kind, taller) = how_declared(nest, cursor, depth)?;
    Ok(((metadata, kind), tall.max(taller) + 1))
}

/// Reads a parameter without its default, which is a node (ECMA-408, 9.2 Formal Parameters).
pub fn parameter<
    E: Fn(Global, &mut Cursor<'_>, usize, bool) -> Result<(OpenExpr, usize), ReadFault>,
    P: Fn(Global, &mut Cursor<'_>, usize) -> Result<(Parameters, usize), ReadFault>,
    B: Fn(Global, &mut Cursor<'_>, usize) -> Result<(Block, usize), ReadFault>,
>(
    nest: &Inside<E, P, B>,
    cursor: &mut Cursor<'_>,
    depth: usize,
) -> Result<(BareParameter, usize), ReadFault>
    requires nests { NestsExpr nest.now.limit (E.pre nest.now.expr) (E.post nest.now.expr) }
    requires parameters { NestsParameters nest.now.limit (P.pre nest.now.parameters) (P.post nest.now.parameters) }
    requires within { depth ≤ nest.now.limit }
    ensures { GivesHigh bare_of node_height depth (parameter_at depth cursor.old) result cursor.new }
{
    if depth == 0 {
        return Err(ReadFault::Stuck);
    }
    parameter_over(nest, cursor, depth - 1)
}
