// Parameters (ECMA-408, 9.2 Formal Parameters).
ghost use Rattle.std.specs.Prelude.{◌≡◌, ◌≤◌, ◌||◌, ◌&&◌, max, IfOk, None, Some};
ghost use Rattle.dart_token.specs.declared.sign.Sign.TheVariants as s;
ghost use Rattle.dart_tree.specs.Depth as height;
ghost use Rattle.dart_tree.specs.View as view;
ghost use Rattle.grammar_laws.specs.Readers.{starts};
ghost use Rattle.parse_nest.specs.Nests.{NestsParameters};
ghost use Rattle.parse_nest.specs.Stages.{parameters_at};
ghost use Rattle.parse_parameter.specs.Views.{before_of, before_height, head_of, head_height};
ghost use Rattle.syntax_readers.specs.Combinators.{past_name};
ghost use Rattle.syntax_readers.specs.Parameters as spec;
ghost use Rattle.syntax_readers.specs.Types.{type_reader, kind};
ghost use Rattle.token_codes.specs.Codes.{class_of, these};
ghost use Rattle.token_cursor.specs.Gives.{GivesHigh};

use crate::look::sees_kind;
use dart_base::place::Place;
use dart_node::make::expression as make;
use dart_token::sign::Sign;
use dart_token::word::Word;
use dart_tree::identifier::Identifier;
use dart_tree::parameter::{ParameterKind, Parameters, ThisDot, VariableKind};
use dart_tree::statement::Block;
use dart_tree::types::ResultType;
use parse_nest::inside::{Inside, OpenExpr};
use parse_type::kind::kind;
use parse_type::look::pass_name;
use std::alloc::{AllocError, Global};
use token_cursor::cursor::Cursor;
use token_cursor::error::ReadFault;

/// What stands before a parameter's name (ECMA-408, 9.2.1 Required Formals).
#[derive(Drop)]
pub enum BeforeName {
    /// `void`, which only a function has
    Void(Place),
    /// `var`, `final`, a type or nothing
    Kind(VariableKind),
}

/// A parameter up to its name (ECMA-408, 9.2.1 Required Formals).
#[derive(Drop)]
pub struct ParameterHead {
    pub before: BeforeName,
    pub this_dot: Option<ThisDot>,
    pub name: Identifier,
}

// `var`, `final` or a type, where an identifier may come as a name, too.
fn kind_past_name(
    alloc: Global,
    cursor: &mut Cursor<'_>,
    depth: usize,
) -> Result<(VariableKind, usize), ReadFault>
    ensures { GivesHigh view.variable_kind height.kind_height depth
        (past_name (kind (type_reader depth)) cursor.old) result cursor.new }
{
    let start = cursor.fork();
    match kind(alloc, cursor, depth) {
        Ok(found) => Ok(found),
        Err(fault) => {
            pass_name(&start, cursor);
            Err(fault)
        }
    }
}

/// Reads `var`, `final` or a type before a name, or nothing (ECMA-408, 9.2.1 Required Formals).
#[tactic(auto, unfolding(syntax_readers::specs::Parameters::maybe_kind))]
pub fn maybe_kind(
    alloc: Global,
    cursor: &mut Cursor<'_>,
    depth: usize,
) -> Result<(VariableKind, usize), ReadFault>
    ensures { GivesHigh view.variable_kind height.kind_height depth
        (spec.maybe_kind (type_reader depth) cursor.old) result cursor.new }
{
    if !sees_kind(cursor) {
        return Ok((VariableKind::Omitted, 0));
    }
    let (found, height) = kind_past_name(alloc, cursor, depth)?;
    Ok((found, height))
}

// What stands before a parameter's name.
#[tactic(auto, unfolding(syntax_readers::specs::Parameters::parameter_type))]
fn before_name(
    alloc: Global,
    cursor: &mut Cursor<'_>,
    depth: usize,
) -> Result<(BeforeName, usize), ReadFault>
    ensures { GivesHigh before_of before_height depth
        (spec.parameter_type (type_reader depth) cursor.old) result cursor.new }
{
    if cursor.sees_word(Word::Void) {
        let word = cursor.expect_word(Word::Void)?;
        return Ok((BeforeName::Void(word), 0));
    }
    let (found, height) = maybe_kind(alloc, cursor, depth)?;
    Ok((BeforeName::Kind(found), height))
}

// A parameter up to its name.
#[tactic(auto, unfolding(syntax_readers::specs::Parameters::parameter_head))]
fn parameter_head(
    alloc: Global,
    cursor: &mut Cursor<'_>,
    depth: usize,
) -> Result<(ParameterHead, usize), ReadFault>
    ensures { GivesHigh head_of head_height depth
        (spec.parameter_head (type_reader depth) cursor.old) result cursor.new }
{
    let (before, height) = before_name(alloc, cursor, depth)?;
    let this_dot = cursor.maybe_this_dot()?;
    let name = cursor.identifier(alloc)?;
    Ok((
        ParameterHead {
            before,
            this_dot,
            name,
        },
        height,
    ))
}

// Whether parameters of its own follow a parameter's name.
fn parameters_follow(head: &ParameterHead, cursor: &Cursor<'_>) -> bool
    ensures { result ≡ (spec.needs_parameters (head_of head.now)
        || (spec.may_have_parameters (head_of head.now) && starts class_of (these s.LeftParenthesis) cursor.now)) }
{
    match &head.before {
        BeforeName::Void(_) => true,
        BeforeName::Kind(VariableKind::Var(_) | VariableKind::Final(_, _)) => false,
        BeforeName::Kind(_) => cursor.sees(Sign::LeftParenthesis),
    }
}

// What is declared of a parameter that is no function.
fn kind_before(before: BeforeName) -> VariableKind
    ensures same { view.variable_kind result ≡ spec.kind_of (before_of before) }
    ensures high { height.kind_height (view.variable_kind result) ≡ before_height (before_of before) }
{
    match before {
        BeforeName::Void(_) => VariableKind::Omitted,
        BeforeName::Kind(kind) => kind,
    }
}

// What a parameter that is a function answers with, with its height.
fn result_before(before: BeforeName, tall: usize) -> (Option<ResultType>, usize)
    requires { tall ≡ before_height (before_of before) }
    ensures same { view.result_option result.0 ≡ spec.result_of (before_of before) }
    ensures high { result.1 ≡ height.result_height (view.result_option result.0) }
    ensures low { result.1 ≤ tall }
{
    match before {
        BeforeName::Void(word) => (Some(ResultType::Void(word)), 0),
        BeforeName::Kind(VariableKind::Typed(found)) => (Some(ResultType::Typed(found)), tall),
        BeforeName::Kind(_kind) => (None, 0),
    }
}

// A parameter that is no function.
#[tactic(auto, unfolding(dart_tree::specs::Depth::parameter_kind_height, dart_tree::specs::View::parameter_kind))]
fn plain_parameter(head: ParameterHead) -> ParameterKind
    ensures same { view.parameter_kind result ≡ spec.a_parameter (head_of head, None) }
    ensures high { height.parameter_kind_height (view.parameter_kind result) ≡ head_height (head_of head) }
{
    let ParameterHead {
        before,
        this_dot,
        name,
    } = head;
    ParameterKind::Plain {
        kind: kind_before(before),
        this_dot,
        name,
    }
}

// A parameter that is a function, with its height.
#[tactic(auto, unfolding(dart_tree::specs::Depth::parameter_kind_height))]
fn function_parameter(
    alloc: Global,
    head: ParameterHead,
    tall: usize,
    parameters: Parameters,
    taller: usize,
) -> Result<(ParameterKind, usize), AllocError>
    requires tall { tall ≡ head_height (head_of head) }
    requires taller { taller ≡ height.parameters_height (view.parameters parameters) }
    ensures same { IfOk result (λ x. view.parameter_kind x.0 ≡ spec.a_parameter (head_of head, Some (view.parameters parameters))) }
    ensures high { IfOk result (λ x. x.1 ≡ height.parameter_kind_height (view.parameter_kind x.0)) }
    ensures low { IfOk result (λ x. x.1 ≤ max tall taller) }
{
    let ParameterHead {
        before,
        this_dot,
        name,
    } = head;
    let (result_type, above) = result_before(before, tall);
    let kind = make::function_parameter(alloc, result_type, this_dot, name, parameters)?;
    Ok((kind, above.max(taller)))
}

/// Reads how a parameter is declared (ECMA-408, 9.2.1 Required Formals).
#[tactic(auto, unfolding(syntax_readers::specs::Parameters::parameter_kind))]
pub fn parameter_kind<
    E: Fn(Global, &mut Cursor<'_>, usize, bool) -> Result<(OpenExpr, usize), ReadFault>,
    P: Fn(Global, &mut Cursor<'_>, usize) -> Result<(Parameters, usize), ReadFault>,
    B: Fn(Global, &mut Cursor<'_>, usize) -> Result<(Block, usize), ReadFault>,
>(
    nest: &Inside<E, P, B>,
    cursor: &mut Cursor<'_>,
    depth: usize,
) -> Result<(ParameterKind, usize), ReadFault>
    requires parameters { NestsParameters nest.now.limit (P.pre nest.now.parameters) (P.post nest.now.parameters) }
    requires within { depth ≤ nest.now.limit }
    ensures { GivesHigh view.parameter_kind height.parameter_kind_height depth
        (spec.parameter_kind (type_reader depth) (parameters_at depth) cursor.old) result cursor.new }
{
    let (head, tall) = parameter_head(nest.alloc, cursor, depth)?;
    if !parameters_follow(&head, cursor) {
        return Ok((plain_parameter(head), tall));
    }
    let (parameters, taller) = nest.parameters(cursor, depth)?;
    let (kind, height) = function_parameter(nest.alloc, head, tall, parameters, taller)?;
    Ok((kind, height))
}
