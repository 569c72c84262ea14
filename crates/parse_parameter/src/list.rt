// Lists of parameters (ECMA-408, 9.2 Formal Parameters).
ghost use Rattle.std.specs.Prelude.{◌≡◌, ◌≤◌, ◌<◌, ◌+◌, ◌&&◌, ◌||◌, max, None, Some};
ghost use Rattle.dart_token.specs.declared.sign.Sign.TheVariants as s;
ghost use Rattle.dart_tree.specs.Depth as height;
ghost use Rattle.dart_tree.specs.Tree as t;
ghost use Rattle.dart_tree.specs.View as view;
ghost use Rattle.dart_tree.specs.Lists.{metadata_of};
ghost use Rattle.grammar_laws.specs.Readers.{starts};
ghost use Rattle.parse_nest.specs.Nests.{NestsExpr, NestsParameters};
ghost use Rattle.parse_nest.specs.Stages.{closed_at, parameters_at};
ghost use Rattle.parse_parameter.specs.Views.{parameter_at, parameters_of, default_of, default_height, comma_default_of, comma_default_height, default_list, required_of, required_height, some_required, optional_of, optional_height, listed, listed_of, listed_height};
ghost use Rattle.syntax_readers.specs.Combinators.{◌~◌};
ghost use Rattle.syntax_readers.specs.Parameters as spec;
ghost use Rattle.token_codes.specs.Codes.{class_of};
ghost use Rattle.token_codes.specs.Leaves.{sign};
ghost use Rattle.token_cursor.specs.Gives.{GivesHigh};

use crate::body::value_behind;
use crate::look::{closing_sign, opening_sign, sees_optional, sees_parameter};
use crate::metadata::{BareParameter, parameter};
use dart_base::place::Place;
use dart_node::make::expression as make;
use dart_token::sign::Sign;
use dart_tree::expression::Value;
use dart_tree::parameter::{BracketKind, Brackets, Parameter, Parameters};
use dart_tree::statement::Block;
use parse_nest::inside::{Inside, OpenExpr};
use std::alloc::Global;
use token_cursor::cursor::Cursor;
use token_cursor::error::ReadFault;

/// A parameter, and the default that it may have.
pub type DefaultParameter = (BareParameter, Value);

/// The required parameters, and the comma behind them, which stands where optional ones follow.
pub type Required = (Vec<Parameter>, Option<Place>);

/// The optional parameters in their brackets (ECMA-408, 9.2.2 Optional Formals).
#[derive(Drop)]
pub struct Optional {
    pub kind: BracketKind,
    pub opening: Place,
    pub parameters: Vec<Parameter>,
    pub closing: Place,
}

// A parameter without a default.
#[tactic(auto, unfolding(dart_tree::specs::View::value))]
fn required_parameter(comma: Option<Place>, bare: BareParameter) -> Parameter
    ensures { view.parameter result ≡
        t.the_parameter comma (metadata_of bare.0.items) (view.parameter_kind bare.1) t.omitted }
{
    let (metadata, kind) = bare;
    make::parameter(comma, metadata, kind, Value::Omitted)
}

// A parameter that may have a default.
fn optional_parameter(comma: Option<Place>, found: DefaultParameter) -> Parameter
    ensures { view.parameter result ≡
        t.the_parameter comma (metadata_of found.0.0.items) (view.parameter_kind found.0.1) (view.value found.1) }
{
    let ((metadata, kind), value) = found;
    make::parameter(comma, metadata, kind, value)
}

// Whether optional parameters follow: behind a comma, or where there are no others.
fn optional_follow(required: &Required, cursor: &Cursor<'_>) -> bool
    ensures { result ≡ (spec.has_comma (required_of required.now)
        || (spec.allows_optional (required_of required.now) && starts class_of spec.optional_first cursor.now)) }
{
    if required.0.is_empty() {
        sees_optional(cursor)
    } else {
        required.1.is_some()
    }
}

// Parameters of which none are optional.
fn without_optional(alloc: Global, opening: Place, required: Required, closing: Place) -> Parameters
    ensures same { view.parameters result ≡ spec.the_parameters opening (required_of required, None) closing }
    ensures high { height.parameters_height (view.parameters result) ≡ required_height (required_of required) + 1 }
{
    make::parameters(opening, required.0, None, Vec::new(alloc), closing)
}

// Parameters of which some are optional.
fn with_optional(
    opening: Place,
    required: Required,
    optional: Optional,
    closing: Place,
) -> Parameters
    ensures same { view.parameters result ≡ spec.the_parameters opening (required_of required, Some (optional_of optional)) closing }
    ensures high { height.parameters_height (view.parameters result) ≡
        max (required_height (required_of required)) (optional_height (optional_of optional)) + 1 }
{
    let brackets = Brackets {
        comma: required.1,
        kind: optional.kind,
        opening: optional.opening,
        closing: optional.closing,
    };
    make::parameters(
        opening,
        required.0,
        Some(brackets),
        optional.parameters,
        closing,
    )
}

// Parameters from their parts.
fn enclosed(
    alloc: Global,
    opening: Place,
    found: (Required, Option<Optional>),
    closing: Place,
) -> Parameters
    ensures same { view.parameters result ≡ spec.the_parameters opening (listed_of found) closing }
    ensures high { height.parameters_height (view.parameters result) ≡ listed_height (listed_of found) + 1 }
{
    match found {
        (required, None) => without_optional(alloc, opening, required, closing),
        (required, Some(optional)) => with_optional(opening, required, optional, closing),
    }
}

// A parameter with the default behind this sign, or none.
fn default_parameter<
    E: Fn(Global, &mut Cursor<'_>, usize, bool) -> Result<(OpenExpr, usize), ReadFault>,
    P: Fn(Global, &mut Cursor<'_>, usize) -> Result<(Parameters, usize), ReadFault>,
    B: Fn(Global, &mut Cursor<'_>, usize) -> Result<(Block, usize), ReadFault>,
>(
    nest: &Inside<E, P, B>,
    cursor: &mut Cursor<'_>,
    depth: usize,
    before: Sign,
) -> Result<(DefaultParameter, usize), ReadFault>
    requires nests { NestsExpr nest.now.limit (E.pre nest.now.expr) (E.post nest.now.expr) }
    requires parameters { NestsParameters nest.now.limit (P.pre nest.now.parameters) (P.post nest.now.parameters) }
    requires within { depth ≤ nest.now.limit }
    ensures { GivesHigh default_of default_height depth
        ((parameter_at depth ~ spec.after_sign before (closed_at depth)) cursor.old) result cursor.new }
{
    let (bare, tall) = parameter(nest, cursor, depth)?;
    let (value, height) = value_behind(nest, cursor, depth, before)?;
    Ok(((bare, value), tall.max(height)))
}

// The same behind a comma.
fn comma_default<
    E: Fn(Global, &mut Cursor<'_>, usize, bool) -> Result<(OpenExpr, usize), ReadFault>,
    P: Fn(Global, &mut Cursor<'_>, usize) -> Result<(Parameters, usize), ReadFault>,
    B: Fn(Global, &mut Cursor<'_>, usize) -> Result<(Block, usize), ReadFault>,
>(
    nest: &Inside<E, P, B>,
    cursor: &mut Cursor<'_>,
    depth: usize,
    before: Sign,
) -> Result<((Place, DefaultParameter), usize), ReadFault>
    requires nests { NestsExpr nest.now.limit (E.pre nest.now.expr) (E.post nest.now.expr) }
    requires parameters { NestsParameters nest.now.limit (P.pre nest.now.parameters) (P.post nest.now.parameters) }
    requires within { depth ≤ nest.now.limit }
    ensures { GivesHigh comma_default_of comma_default_height depth
        ((sign s.Comma ~ (parameter_at depth ~ spec.after_sign before (closed_at depth))) cursor.old) result cursor.new }
{
    let comma = cursor.expect(Sign::Comma)?;
    let (found, height) = default_parameter(nest, cursor, depth, before)?;
    Ok(((comma, found), height))
}

// Parameters with their defaults, with commas between them.
fn default_parameters<
    E: Fn(Global, &mut Cursor<'_>, usize, bool) -> Result<(OpenExpr, usize), ReadFault>,
    P: Fn(Global, &mut Cursor<'_>, usize) -> Result<(Parameters, usize), ReadFault>,
    B: Fn(Global, &mut Cursor<'_>, usize) -> Result<(Block, usize), ReadFault>,
>(
    nest: &Inside<E, P, B>,
    cursor: &mut Cursor<'_>,
    depth: usize,
    before: Sign,
) -> Result<(Vec<Parameter>, usize), ReadFault>
    requires nests { NestsExpr nest.now.limit (E.pre nest.now.expr) (E.post nest.now.expr) }
    requires parameters { NestsParameters nest.now.limit (P.pre nest.now.parameters) (P.post nest.now.parameters) }
    requires within { depth ≤ nest.now.limit }
    ensures { GivesHigh parameters_of height.parameter_list_height depth
        (default_list before (parameter_at depth) (closed_at depth) cursor.old) result cursor.new }
{
    let (first, height) = default_parameter(nest, cursor, depth, before)?;
    let mut found = Vec::new(nest.alloc);
    found.push(optional_parameter(None, first))?;
    let mut highest = height;
    for _turn in 0..cursor.left() {
        if !cursor.sees(Sign::Comma) {
            return Ok((found, highest));
        }
        let ((comma, further), height) = comma_default(nest, cursor, depth, before)?;
        found.push(optional_parameter(Some(comma), further))?;
        highest = highest.max(height);
    }
    Ok((found, highest))
}

// The optional parameters in these brackets, with their defaults behind this sign.
#[tactic(auto, unfolding(syntax_readers::specs::Parameters::optional_as))]
fn optional_as<
    E: Fn(Global, &mut Cursor<'_>, usize, bool) -> Result<(OpenExpr, usize), ReadFault>,
    P: Fn(Global, &mut Cursor<'_>, usize) -> Result<(Parameters, usize), ReadFault>,
    B: Fn(Global, &mut Cursor<'_>, usize) -> Result<(Block, usize), ReadFault>,
>(
    nest: &Inside<E, P, B>,
    cursor: &mut Cursor<'_>,
    depth: usize,
    kind: BracketKind,
    before: Sign,
) -> Result<(Optional, usize), ReadFault>
    requires nests { NestsExpr nest.now.limit (E.pre nest.now.expr) (E.post nest.now.expr) }
    requires parameters { NestsParameters nest.now.limit (P.pre nest.now.parameters) (P.post nest.now.parameters) }
    requires within { depth ≤ nest.now.limit }
    ensures { GivesHigh optional_of optional_height depth
        (spec.optional_as kind before (parameter_at depth) (closed_at depth) cursor.old) result cursor.new }
{
    let opening = cursor.expect(opening_sign(kind))?;
    let (parameters, height) = default_parameters(nest, cursor, depth, before)?;
    let closing = cursor.expect(closing_sign(kind))?;
    Ok((
        Optional {
            kind,
            opening,
            parameters,
            closing,
        },
        height,
    ))
}

// The optional parameters in their brackets.
#[tactic(auto, unfolding(syntax_readers::specs::Parameters::optional_over))]
fn bracketed<
    E: Fn(Global, &mut Cursor<'_>, usize, bool) -> Result<(OpenExpr, usize), ReadFault>,
    P: Fn(Global, &mut Cursor<'_>, usize) -> Result<(Parameters, usize), ReadFault>,
    B: Fn(Global, &mut Cursor<'_>, usize) -> Result<(Block, usize), ReadFault>,
>(
    nest: &Inside<E, P, B>,
    cursor: &mut Cursor<'_>,
    depth: usize,
) -> Result<(Optional, usize), ReadFault>
    requires nests { NestsExpr nest.now.limit (E.pre nest.now.expr) (E.post nest.now.expr) }
    requires parameters { NestsParameters nest.now.limit (P.pre nest.now.parameters) (P.post nest.now.parameters) }
    requires within { depth ≤ nest.now.limit }
    ensures { GivesHigh optional_of optional_height depth
        (spec.optional_over (parameter_at depth) (closed_at depth) cursor.old) result cursor.new }
{
    if cursor.sees(Sign::LeftBracket) {
        return optional_as(nest, cursor, depth, BracketKind::Square, Sign::Assign);
    }
    optional_as(nest, cursor, depth, BracketKind::Curly, Sign::Colon)
}

// One required parameter or more, and the comma behind them or none.
fn some_required<
    E: Fn(Global, &mut Cursor<'_>, usize, bool) -> Result<(OpenExpr, usize), ReadFault>,
    P: Fn(Global, &mut Cursor<'_>, usize) -> Result<(Parameters, usize), ReadFault>,
    B: Fn(Global, &mut Cursor<'_>, usize) -> Result<(Block, usize), ReadFault>,
>(
    nest: &Inside<E, P, B>,
    cursor: &mut Cursor<'_>,
    depth: usize,
) -> Result<(Required, usize), ReadFault>
    requires nests { NestsExpr nest.now.limit (E.pre nest.now.expr) (E.post nest.now.expr) }
    requires parameters { NestsParameters nest.now.limit (P.pre nest.now.parameters) (P.post nest.now.parameters) }
    requires within { depth ≤ nest.now.limit }
    ensures { GivesHigh required_of required_height depth
        (some_required (parameter_at depth) cursor.old) result cursor.new }
{
    let (first, height) = parameter(nest, cursor, depth)?;
    let mut found = Vec::new(nest.alloc);
    found.push(required_parameter(None, first))?;
    let mut highest = height;
    for _turn in 0..cursor.left() {
        if !cursor.sees(Sign::Comma) {
            return Ok(((found, None), highest));
        }
        let comma = cursor.expect(Sign::Comma)?;
        if !sees_parameter(cursor) {
            return Ok(((found, Some(comma)), highest));
        }
        let (further, height) = parameter(nest, cursor, depth)?;
        found.push(required_parameter(Some(comma), further))?;
        highest = highest.max(height);
    }
    Ok(((found, None), highest))
}

// The required parameters, and the comma behind them or none.
fn required<
    E: Fn(Global, &mut Cursor<'_>, usize, bool) -> Result<(OpenExpr, usize), ReadFault>,
    P: Fn(Global, &mut Cursor<'_>, usize) -> Result<(Parameters, usize), ReadFault>,
    B: Fn(Global, &mut Cursor<'_>, usize) -> Result<(Block, usize), ReadFault>,
>(
    nest: &Inside<E, P, B>,
    cursor: &mut Cursor<'_>,
    depth: usize,
) -> Result<(Required, usize), ReadFault>
    requires nests { NestsExpr nest.now.limit (E.pre nest.now.expr) (E.post nest.now.expr) }
    requires parameters { NestsParameters nest.now.limit (P.pre nest.now.parameters) (P.post nest.now.parameters) }
    requires within { depth ≤ nest.now.limit }
    ensures { GivesHigh required_of required_height depth
        (spec.required (parameter_at depth) cursor.old) result cursor.new }
{
    if !sees_parameter(cursor) {
        return Ok(((Vec::new(nest.alloc), None), 0));
    }
    some_required(nest, cursor, depth)
}

// The required parameters and the optional ones.
fn listed<
    E: Fn(Global, &mut Cursor<'_>, usize, bool) -> Result<(OpenExpr, usize), ReadFault>,
    P: Fn(Global, &mut Cursor<'_>, usize) -> Result<(Parameters, usize), ReadFault>,
    B: Fn(Global, &mut Cursor<'_>, usize) -> Result<(Block, usize), ReadFault>,
>(
    nest: &Inside<E, P, B>,
    cursor: &mut Cursor<'_>,
    depth: usize,
) -> Result<((Required, Option<Optional>), usize), ReadFault>
    requires nests { NestsExpr nest.now.limit (E.pre nest.now.expr) (E.post nest.now.expr) }
    requires parameters { NestsParameters nest.now.limit (P.pre nest.now.parameters) (P.post nest.now.parameters) }
    requires within { depth ≤ nest.now.limit }
    ensures { GivesHigh listed_of listed_height depth
        (listed (parameter_at depth) (closed_at depth) cursor.old) result cursor.new }
{
    let (required, tall) = required(nest, cursor, depth)?;
    if !optional_follow(&required, cursor) {
        return Ok(((required, None), tall));
    }
    let (optional, height) = bracketed(nest, cursor, depth)?;
    Ok(((required, Some(optional)), tall.max(height)))
}

/// Reads the parameters of a function whose parts have at most so many nodes above one another (ECMA-408, 9.2 Formal
/// Parameters).
#[tactic(auto, unfolding(syntax_readers::specs::Parameters::parameters_over))]
pub fn parameters_over<
    E: Fn(Global, &mut Cursor<'_>, usize, bool) -> Result<(OpenExpr, usize), ReadFault>,
    P: Fn(Global, &mut Cursor<'_>, usize) -> Result<(Parameters, usize), ReadFault>,
    B: Fn(Global, &mut Cursor<'_>, usize) -> Result<(Block, usize), ReadFault>,
>(
    nest: &Inside<E, P, B>,
    cursor: &mut Cursor<'_>,
    depth: usize,
) -> Result<(Parameters, usize), ReadFault>
    requires nests { NestsExpr nest.now.limit (E.pre nest.now.expr) (E.post nest.now.expr) }
    requires parameters { NestsParameters nest.now.limit (P.pre nest.now.parameters) (P.post nest.now.parameters) }
    requires within { depth ≤ nest.now.limit }
    requires room { depth + 1 < 18446744073709551616 }
    ensures { GivesHigh view.parameters height.parameters_height (depth + 1)
        (spec.parameters_over (parameter_at depth) (closed_at depth) cursor.old) result cursor.new }
{
    let opening = cursor.expect(Sign::LeftParenthesis)?;
    let (found, height) = listed(nest, cursor, depth)?;
    let closing = cursor.expect(Sign::RightParenthesis)?;
    Ok((enclosed(nest.alloc, opening, found, closing), height + 1))
}

/// Reads the parameters of a function, which are a node (ECMA-408, 9.2 Formal Parameters).
pub fn parameters<
    E: Fn(Global, &mut Cursor<'_>, usize, bool) -> Result<(OpenExpr, usize), ReadFault>,
    P: Fn(Global, &mut Cursor<'_>, usize) -> Result<(Parameters, usize), ReadFault>,
    B: Fn(Global, &mut Cursor<'_>, usize) -> Result<(Block, usize), ReadFault>,
>(
    nest: &Inside<E, P, B>,
    cursor: &mut Cursor<'_>,
    depth: usize,
) -> Result<(Parameters, usize), ReadFault>
    requires nests { NestsExpr nest.now.limit (E.pre nest.now.expr) (E.post nest.now.expr) }
    requires parameters { NestsParameters nest.now.limit (P.pre nest.now.parameters) (P.post nest.now.parameters) }
    requires within { depth ≤ nest.now.limit }
    ensures { GivesHigh view.parameters height.parameters_height depth (parameters_at depth cursor.old) result cursor.new }
{
    if depth == 0 {
        return Err(ReadFault::Stuck);
    }
    parameters_over(nest, cursor, depth - 1)
}
