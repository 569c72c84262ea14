// Variables and functions.
ghost use Rattle.std.specs.Prelude.{◌≡◌, ◌≤◌, ◌<◌, ◌+◌, max, None};
ghost use Rattle.dart_syntax.specs.Statements.{the_variables, the_function};
ghost use Rattle.dart_syntax.specs.Types.{kind_leaves_name, result_leaves_name};
ghost use Rattle.dart_token.specs.declared.sign.Sign.TheVariants as s;
ghost use Rattle.dart_tree.specs.Depth as height;
ghost use Rattle.dart_tree.specs.View as view;
ghost use Rattle.grammar_laws.specs.Readers.{checked};
ghost use Rattle.parse_nest.specs.Nests.{NestsExpr, NestsParameters, NestsBlock};
ghost use Rattle.parse_nest.specs.Stages.{closed_at, exprs_at};
ghost use Rattle.parse_parameter.specs.Views.{variable_of, variable_height, variables_of, more_height, named_result_of, named_result_height, variables_at, local_parts, local_function_at};
ghost use Rattle.syntax_readers.specs.Combinators.{◌~◌, always_gives};
ghost use Rattle.syntax_readers.specs.Parameters as spec;
ghost use Rattle.syntax_readers.specs.Types.{type_reader, variables_kind, result_before_name};
ghost use Rattle.token_codes.specs.Leaves.{sign, identifier};
ghost use Rattle.token_cursor.specs.Gives.{GivesHigh};

use crate::body::{value_behind, whole_body};
use crate::look::{kind_leaves_name, result_leaves_name};
use dart_base::place::Place;
use dart_node::make::statement as make;
use dart_token::sign::Sign;
use dart_tree::expression::Value;
use dart_tree::identifier::Identifier;
use dart_tree::parameter::{Parameters, VariableKind};
use dart_tree::statement::{Block, Body, Function, Variable, Variables};
use dart_tree::types::ResultType;
use parse_nest::inside::{Inside, OpenExpr};
use parse_type::kind::{result_before_name, variables_kind};
use std::alloc::Global;
use token_cursor::cursor::Cursor;
use token_cursor::error::ReadFault;

/// What a function answers with, and its name.
pub type NamedResult = (Option<ResultType>, Identifier);

// What is declared of a variable, where its name may stand behind it.
fn declared_kind(
    alloc: Global,
    cursor: &mut Cursor<'_>,
    depth: usize,
) -> Result<(VariableKind, usize), ReadFault>
    ensures { GivesHigh view.variable_kind height.kind_height depth
        (checked kind_leaves_name (variables_kind (type_reader depth)) cursor.old) result cursor.new }
{
    let (kind, height) = variables_kind(alloc, cursor, depth)?;
    if !kind_leaves_name(&kind) {
        drop(kind);
        return Err(ReadFault::Stuck);
    }
    Ok((kind, height))
}

// What a function answers with, where its name may stand behind it.
fn declared_result(
    alloc: Global,
    cursor: &mut Cursor<'_>,
    depth: usize,
) -> Result<(Option<ResultType>, usize), ReadFault>
    ensures { GivesHigh view.result_option height.result_height depth
        (checked result_leaves_name (result_before_name (type_reader depth)) cursor.old) result cursor.new }
{
    let (found, height) = result_before_name(alloc, cursor, depth)?;
    if !result_leaves_name(&found) {
        drop(found);
        return Err(ReadFault::Stuck);
    }
    Ok((found, height))
}

/// Reads what a function answers with, or nothing, and its name (ECMA-408, 9 Functions).
pub fn named_result(
    alloc: Global,
    cursor: &mut Cursor<'_>,
    depth: usize,
) -> Result<(NamedResult, usize), ReadFault>
    ensures { GivesHigh named_result_of named_result_height depth
        ((checked result_leaves_name (result_before_name (type_reader depth)) ~ identifier) cursor.old) result cursor.new }
{
    let (found, height) = declared_result(alloc, cursor, depth)?;
    let name = cursor.identifier(alloc)?;
    Ok(((found, name), height))
}

// Variables from their parts.
fn declared_variables(
    kind: VariableKind,
    name: Identifier,
    value: Value,
    more: Vec<Variable>,
    semicolon: Place,
) -> Variables
    ensures same { view.variables result ≡
        the_variables (view.variable_kind kind, name) (view.value value) (variables_of more) semicolon }
    ensures high { height.variables_height (view.variables result) ≡
        max (height.kind_height (view.variable_kind kind)) (max (height.value_height (view.value value)) (more_height (variables_of more))) + 1 }
{
    make::variables(kind, name, value, more, semicolon)
}

/// A function from its parts (ECMA-408, 9 Functions).
pub fn function(
    external: Option<Place>,
    named: NamedResult,
    parameters: Parameters,
    body: Body,
) -> Function
    ensures same { view.function result ≡
        the_function external (named_result_of named) (view.parameters parameters) (view.body body) }
    ensures high { height.function_height (view.function result) ≡
        max (named_result_height (named_result_of named)) (max (height.parameters_height (view.parameters parameters)) (height.body_height (view.body body))) + 1 }
{
    let (result_type, name) = named;
    make::function(external, result_type, name, parameters, body)
}

// A further variable, behind its comma.
fn further_variable<
    E: Fn(Global, &mut Cursor<'_>, usize, bool) -> Result<(OpenExpr, usize), ReadFault>,
    P: Fn(Global, &mut Cursor<'_>, usize) -> Result<(Parameters, usize), ReadFault>,
    B: Fn(Global, &mut Cursor<'_>, usize) -> Result<(Block, usize), ReadFault>,
>(
    nest: &Inside<E, P, B>,
    cursor: &mut Cursor<'_>,
    depth: usize,
) -> Result<(Variable, usize), ReadFault>
    requires nests { NestsExpr nest.now.limit (E.pre nest.now.expr) (E.post nest.now.expr) }
    requires within { depth ≤ nest.now.limit }
    ensures { GivesHigh variable_of variable_height depth
        ((sign s.Comma ~ identifier ~ spec.after_sign s.Assign (closed_at depth)) cursor.old) result cursor.new }
{
    let comma = cursor.expect(Sign::Comma)?;
    let name = cursor.identifier(nest.alloc)?;
    let (value, height) = value_behind(nest, cursor, depth, Sign::Assign)?;
    Ok((Variable { comma, name, value }, height))
}

/// Reads further variables (ECMA-408, 8 Variables).
pub fn more_variables<
    E: Fn(Global, &mut Cursor<'_>, usize, bool) -> Result<(OpenExpr, usize), ReadFault>,
    P: Fn(Global, &mut Cursor<'_>, usize) -> Result<(Parameters, usize), ReadFault>,
    B: Fn(Global, &mut Cursor<'_>, usize) -> Result<(Block, usize), ReadFault>,
>(
    nest: &Inside<E, P, B>,
    cursor: &mut Cursor<'_>,
    depth: usize,
) -> Result<(Vec<Variable>, usize), ReadFault>
    requires nests { NestsExpr nest.now.limit (E.pre nest.now.expr) (E.post nest.now.expr) }
    requires within { depth ≤ nest.now.limit }
    ensures { GivesHigh variables_of more_height depth
        (spec.more_variables (closed_at depth) cursor.old) result cursor.new }
{
    let mut found = Vec::new(nest.alloc);
    let mut highest = 0;
    for _turn in 0..cursor.left() {
        if !cursor.sees(Sign::Comma) {
            return Ok((found, highest));
        }
        let (variable, height) = further_variable(nest, cursor, depth)?;
        found.push(variable)?;
        highest = highest.max(height);
    }
    Ok((found, highest))
}

/// Reads variables whose parts have at most so many nodes above one another (ECMA-408, 8 Variables).
#[tactic(auto, unfolding(syntax_readers::specs::Parameters::variables_over))]
pub fn variables_over<
    E: Fn(Global, &mut Cursor<'_>, usize, bool) -> Result<(OpenExpr, usize), ReadFault>,
    P: Fn(Global, &mut Cursor<'_>, usize) -> Result<(Parameters, usize), ReadFault>,
    B: Fn(Global, &mut Cursor<'_>, usize) -> Result<(Block, usize), ReadFault>,
>(
    nest: &Inside<E, P, B>,
    cursor: &mut Cursor<'_>,
    depth: usize,
) -> Result<(Variables, usize), ReadFault>
    requires nests { NestsExpr nest.now.limit (E.pre nest.now.expr) (E.post nest.now.expr) }
    requires within { depth ≤ nest.now.limit }
    requires room { depth + 1 < 18446744073709551616 }
    ensures { GivesHigh view.variables height.variables_height (depth + 1)
        (spec.variables_over (type_reader depth) (closed_at depth) cursor.old) result cursor.new }
{
    let (kind, tall) = declared_kind(nest.alloc, cursor, depth)?;
    let name = cursor.identifier(nest.alloc)?;
    let (value, taller) = value_behind(nest, cursor, depth, Sign::Assign)?;
    let (more, tallest) = more_variables(nest, cursor, depth)?;
    let semicolon = cursor.expect(Sign::Semicolon)?;
    let height = tall.max(taller.max(tallest));
    Ok((
        declared_variables(kind, name, value, more, semicolon),
        height + 1,
    ))
}

/// Reads variables, which are a node (ECMA-408, 8 Variables).
pub fn variables<
    E: Fn(Global, &mut Cursor<'_>, usize, bool) -> Result<(OpenExpr, usize), ReadFault>,
    P: Fn(Global, &mut Cursor<'_>, usize) -> Result<(Parameters, usize), ReadFault>,
    B: Fn(Global, &mut Cursor<'_>, usize) -> Result<(Block, usize), ReadFault>,
>(
    nest: &Inside<E, P, B>,
    cursor: &mut Cursor<'_>,
    depth: usize,
) -> Result<(Variables, usize), ReadFault>
    requires nests { NestsExpr nest.now.limit (E.pre nest.now.expr) (E.post nest.now.expr) }
    requires within { depth ≤ nest.now.limit }
    ensures { GivesHigh view.variables height.variables_height depth (variables_at depth cursor.old) result cursor.new }
{
    if depth == 0 {
        return Err(ReadFault::Stuck);
    }
    variables_over(nest, cursor, depth - 1)
}

// A local function, part by part.
fn local_parts<
    E: Fn(Global, &mut Cursor<'_>, usize, bool) -> Result<(OpenExpr, usize), ReadFault>,
    P: Fn(Global, &mut Cursor<'_>, usize) -> Result<(Parameters, usize), ReadFault>,
    B: Fn(Global, &mut Cursor<'_>, usize) -> Result<(Block, usize), ReadFault>,
>(
    nest: &Inside<E, P, B>,
    cursor: &mut Cursor<'_>,
    depth: usize,
) -> Result<(Function, usize), ReadFault>
    requires nests { NestsExpr nest.now.limit (E.pre nest.now.expr) (E.post nest.now.expr) }
    requires parameters { NestsParameters nest.now.limit (P.pre nest.now.parameters) (P.post nest.now.parameters) }
    requires blocks { NestsBlock nest.now.limit (B.pre nest.now.block) (B.post nest.now.block) }
    requires within { depth ≤ nest.now.limit }
    requires room { depth + 1 < 18446744073709551616 }
    ensures { GivesHigh view.function height.function_height (depth + 1)
        (local_parts (type_reader depth) (exprs_at depth) cursor.old) result cursor.new }
{
    let (named, tall) = named_result(nest.alloc, cursor, depth)?;
    let (parameters, taller) = nest.parameters(cursor, depth)?;
    let (body, tallest) = whole_body(nest, cursor, depth)?;
    let height = tall.max(taller.max(tallest));
    Ok((function(None, named, parameters, body), height + 1))
}

/// Reads a local function whose parts have at most so many nodes above one another (ECMA-408, 17.4 Local Function
/// Declaration).
pub fn local_function_over<
    E: Fn(Global, &mut Cursor<'_>, usize, bool) -> Result<(OpenExpr, usize), ReadFault>,
    P: Fn(Global, &mut Cursor<'_>, usize) -> Result<(Parameters, usize), ReadFault>,
    B: Fn(Global, &mut Cursor<'_>, usize) -> Result<(Block, usize), ReadFault>,
>(
    nest: &Inside<E, P, B>,
    cursor: &mut Cursor<'_>,
    depth: usize,
) -> Result<(Function, usize), ReadFault>
    requires nests { NestsExpr nest.now.limit (E.pre nest.now.expr) (E.post nest.now.expr) }
    requires parameters { NestsParameters nest.now.limit (P.pre nest.now.parameters) (P.post nest.now.parameters) }
    requires blocks { NestsBlock nest.now.limit (B.pre nest.now.block) (B.post nest.now.block) }
    requires within { depth ≤ nest.now.limit }
    requires room { depth + 1 < 18446744073709551616 }
    ensures { GivesHigh view.function height.function_height (depth + 1)
        (spec.function_over (exprs_at depth) (always_gives None) (spec.whole_body (exprs_at depth)) cursor.old) result cursor.new }
{
    local_parts(nest, cursor, depth)
}

/// Reads a local function, which is a node (ECMA-408, 17.4 Local Function Declaration).
pub fn local_function<
    E: Fn(Global, &mut Cursor<'_>, usize, bool) -> Result<(OpenExpr, usize), ReadFault>,
    P: Fn(Global, &mut Cursor<'_>, usize) -> Result<(Parameters, usize), ReadFault>,
    B: Fn(Global, &mut Cursor<'_>, usize) -> Result<(Block, usize), ReadFault>,
>(
    nest: &Inside<E, P, B>,
    cursor: &mut Cursor<'_>,
    depth: usize,
) -> Result<(Function, usize), ReadFault>
    requires nests { NestsExpr nest.now.limit (E.pre nest.now.expr) (E.post nest.now.expr) }
    requires parameters { NestsParameters nest.now.limit (P.pre nest.now.parameters) (P.post nest.now.parameters) }
    requires blocks { NestsBlock nest.now.limit (B.pre nest.now.block) (B.post nest.now.block) }
    requires within { depth ≤ nest.now.limit }
    ensures { GivesHigh view.function height.function_height depth (local_function_at depth cursor.old) result cursor.new }
{
    if depth == 0 {
        return Err(ReadFault::Stuck);
    }
    local_function_over(nest, cursor, depth - 1)
}
