// Type parameters (ECMA-408, 14 Generics).
ghost use Rattle.std.specs.Prelude.{◌≡◌, ◌≤◌};
ghost use Rattle.dart_token.specs.declared.sign.Sign.TheVariants as s;
ghost use Rattle.dart_tree.specs.Depth as height;
ghost use Rattle.dart_tree.specs.Depth.{height_if};
ghost use Rattle.dart_tree.specs.UnitView as view;
ghost use Rattle.dart_tree.specs.UnitView.{maybe};
ghost use Rattle.grammar_laws.specs.Readers.{option};
ghost use Rattle.parse_class.specs.Views.{bare_of, bare_height, bare_at, comma_bare_of, comma_bare_height, a_parameter, items_of, items_height, parameter_list, angled};
ghost use Rattle.parse_nest.specs.Nests.{NestsExpr};
ghost use Rattle.parse_nest.specs.Stages.{exprs_at};
ghost use Rattle.syntax_readers.specs.Combinators.{◌~◌};
ghost use Rattle.syntax_readers.specs.Declarations as spec;
ghost use Rattle.token_codes.specs.Codes.{class_of, these};
ghost use Rattle.token_codes.specs.Leaves.{sign};
ghost use Rattle.token_cursor.specs.Gives.{GivesHigh};

use crate::part::maybe_bound;
use dart_base::place::Place;
use dart_token::sign::Sign;
use dart_tree::declaration::{Bound, TypeParameter, TypeParameters};
use dart_tree::identifier::Identifier;
use dart_tree::parameter::{Annotation, Parameters};
use dart_tree::statement::Block;
use parse_nest::inside::{Inside, OpenExpr};
use parse_parameter::metadata::metadata;
use std::alloc::Global;
use token_cursor::cursor::Cursor;
use token_cursor::error::ReadFault;

/// A type parameter without the comma before it (ECMA-408, 14 Generics).
#[derive(Drop)]
pub struct BareTypeParameter {
    pub metadata: Vec<Annotation>,
    pub name: Identifier,
    pub bound: Option<Bound>,
}

// A type parameter behind a comma or none.
fn type_parameter(comma: Option<Place>, bare: BareTypeParameter) -> TypeParameter
    ensures { view.type_parameter result ≡ a_parameter comma (bare_of bare) }
{
    TypeParameter {
        comma,
        metadata: bare.metadata,
        name: bare.name,
        bound: bare.bound,
    }
}

// A type parameter without a comma.
fn bare_parameter<
    E: Fn(Global, &mut Cursor<'_>, usize, bool) -> Result<(OpenExpr, usize), ReadFault>,
    P: Fn(Global, &mut Cursor<'_>, usize) -> Result<(Parameters, usize), ReadFault>,
    B: Fn(Global, &mut Cursor<'_>, usize) -> Result<(Block, usize), ReadFault>,
>(
    nest: &Inside<E, P, B>,
    cursor: &mut Cursor<'_>,
    depth: usize,
) -> Result<(BareTypeParameter, usize), ReadFault>
    requires nests { NestsExpr nest.now.limit (E.pre nest.now.expr) (E.post nest.now.expr) }
    requires within { depth ≤ nest.now.limit }
    ensures { GivesHigh bare_of bare_height depth (bare_at depth cursor.old) result cursor.new }
{
    let (metadata, tall) = metadata(nest, cursor, depth)?;
    let name = cursor.plain_identifier(nest.alloc)?;
    let (bound, height) = maybe_bound(nest.alloc, cursor, depth)?;
    Ok((
        BareTypeParameter {
            metadata,
            name,
            bound,
        },
        tall.max(height),
    ))
}

// The same behind a comma.
fn comma_parameter<
    E: Fn(Global, &mut Cursor<'_>, usize, bool) -> Result<(OpenExpr, usize), ReadFault>,
    P: Fn(Global, &mut Cursor<'_>, usize) -> Result<(Parameters, usize), ReadFault>,
    B: Fn(Global, &mut Cursor<'_>, usize) -> Result<(Block, usize), ReadFault>,
>(
    nest: &Inside<E, P, B>,
    cursor: &mut Cursor<'_>,
    depth: usize,
) -> Result<((Place, BareTypeParameter), usize), ReadFault>
    requires nests { NestsExpr nest.now.limit (E.pre nest.now.expr) (E.post nest.now.expr) }
    requires within { depth ≤ nest.now.limit }
    ensures { GivesHigh comma_bare_of comma_bare_height depth
        ((sign s.Comma ~ bare_at depth) cursor.old) result cursor.new }
{
    let comma = cursor.expect(Sign::Comma)?;
    let (found, height) = bare_parameter(nest, cursor, depth)?;
    Ok(((comma, found), height))
}

// Type parameters with commas between them.
fn parameter_list<
    E: Fn(Global, &mut Cursor<'_>, usize, bool) -> Result<(OpenExpr, usize), ReadFault>,
    P: Fn(Global, &mut Cursor<'_>, usize) -> Result<(Parameters, usize), ReadFault>,
    B: Fn(Global, &mut Cursor<'_>, usize) -> Result<(Block, usize), ReadFault>,
>(
    nest: &Inside<E, P, B>,
    cursor: &mut Cursor<'_>,
    depth: usize,
) -> Result<(Vec<TypeParameter>, usize), ReadFault>
    requires nests { NestsExpr nest.now.limit (E.pre nest.now.expr) (E.post nest.now.expr) }
    requires within { depth ≤ nest.now.limit }
    ensures { GivesHigh items_of items_height depth (parameter_list (bare_at depth) cursor.old) result cursor.new }
{
    let (first, height) = bare_parameter(nest, cursor, depth)?;
    let mut found = Vec::new(nest.alloc);
    found.push(type_parameter(None, first))?;
    let mut highest = height;
    for _turn in 0..cursor.left() {
        if !cursor.sees(Sign::Comma) {
            return Ok((found, highest));
        }
        let ((comma, further), height) = comma_parameter(nest, cursor, depth)?;
        found.push(type_parameter(Some(comma), further))?;
        highest = highest.max(height);
    }
    Ok((found, highest))
}

// Type parameters in angle brackets, part by part.
fn angled<
    E: Fn(Global, &mut Cursor<'_>, usize, bool) -> Result<(OpenExpr, usize), ReadFault>,
    P: Fn(Global, &mut Cursor<'_>, usize) -> Result<(Parameters, usize), ReadFault>,
    B: Fn(Global, &mut Cursor<'_>, usize) -> Result<(Block, usize), ReadFault>,
>(
    nest: &Inside<E, P, B>,
    cursor: &mut Cursor<'_>,
    depth: usize,
) -> Result<(TypeParameters, usize), ReadFault>
    requires nests { NestsExpr nest.now.limit (E.pre nest.now.expr) (E.post nest.now.expr) }
    requires within { depth ≤ nest.now.limit }
    ensures { GivesHigh view.type_parameters height.type_parameters_height depth
        (angled (bare_at depth) cursor.old) result cursor.new }
{
    let opening = cursor.expect(Sign::Less)?;
    let (items, height) = parameter_list(nest, cursor, depth)?;
    let closing = cursor.expect(Sign::Greater)?;
    Ok((
        TypeParameters {
            opening,
            items,
            closing,
        },
        height,
    ))
}

/// Reads type parameters in angle brackets (ECMA-408, 14 Generics).
pub fn type_parameters<
    E: Fn(Global, &mut Cursor<'_>, usize, bool) -> Result<(OpenExpr, usize), ReadFault>,
    P: Fn(Global, &mut Cursor<'_>, usize) -> Result<(Parameters, usize), ReadFault>,
    B: Fn(Global, &mut Cursor<'_>, usize) -> Result<(Block, usize), ReadFault>,
>(
    nest: &Inside<E, P, B>,
    cursor: &mut Cursor<'_>,
    depth: usize,
) -> Result<(TypeParameters, usize), ReadFault>
    requires nests { NestsExpr nest.now.limit (E.pre nest.now.expr) (E.post nest.now.expr) }
    requires within { depth ≤ nest.now.limit }
    ensures { GivesHigh view.type_parameters height.type_parameters_height depth
        (spec.type_parameters (exprs_at depth) cursor.old) result cursor.new }
{
    angled(nest, cursor, depth)
}

/// Reads type parameters in angle brackets, or none (ECMA-408, 14 Generics).
pub fn maybe_type_parameters<
    E: Fn(Global, &mut Cursor<'_>, usize, bool) -> Result<(OpenExpr, usize), ReadFault>,
    P: Fn(Global, &mut Cursor<'_>, usize) -> Result<(Parameters, usize), ReadFault>,
    B: Fn(Global, &mut Cursor<'_>, usize) -> Result<(Block, usize), ReadFault>,
>(
    nest: &Inside<E, P, B>,
    cursor: &mut Cursor<'_>,
    depth: usize,
) -> Result<(Option<TypeParameters>, usize), ReadFault>
    requires nests { NestsExpr nest.now.limit (E.pre nest.now.expr) (E.post nest.now.expr) }
    requires within { depth ≤ nest.now.limit }
    ensures { GivesHigh (maybe view.type_parameters) (height_if height.type_parameters_height) depth
        (option class_of (these s.Less) (spec.type_parameters (exprs_at depth)) cursor.old) result cursor.new }
{
    if !cursor.sees(Sign::Less) {
        return Ok((None, 0));
    }
    let (found, height) = type_parameters(nest, cursor, depth)?;
    Ok((Some(found), height))
}
