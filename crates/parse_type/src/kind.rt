// Results and kinds of variables, and what stands before a name.
ghost use Rattle.dart_tree.specs.Depth as height;
ghost use Rattle.dart_tree.specs.View as view;
ghost use Rattle.token_cursor.specs.Gives.{GivesHigh};
ghost use Rattle.syntax_readers.specs.Combinators.{past_name};
ghost use Rattle.syntax_readers.specs.Types as spec;
ghost use Rattle.parse_type.specs.Views.{one_result_height};

use crate::look::{pass_name, result_comes, type_comes};
use crate::types::type_node;
use dart_token::word::Word;
use dart_tree::parameter::VariableKind;
use dart_tree::types::{ResultType, TypeNode};
use std::alloc::Global;
use token_cursor::cursor::Cursor;
use token_cursor::error::ReadFault;

/// Reads what a function answers with (ECMA-408, 9 Functions).
#[tactic(auto, unfolding(syntax_readers::specs::Types::result))]
pub fn result_type(
    alloc: Global,
    cursor: &mut Cursor<'_>,
    depth: usize,
) -> Result<(ResultType, usize), ReadFault>
    ensures { GivesHigh view.result_type one_result_height depth
        (spec.result (spec.type_reader depth) cursor.old) result cursor.new }
{
    if cursor.sees_word(Word::Void) {
        let place = cursor.expect_word(Word::Void)?;
        return Ok((ResultType::Void(place), 0));
    }
    let (type_node, height) = type_node(alloc, cursor, depth)?;
    let boxed = Box::new(alloc, type_node)?;
    Ok((ResultType::Typed(boxed), height))
}

// A type where an identifier may come as a name, too.
fn type_past_name(
    alloc: Global,
    cursor: &mut Cursor<'_>,
    depth: usize,
) -> Result<(TypeNode, usize), ReadFault>
    ensures { GivesHigh view.type_node height.type_height depth
        (past_name (spec.type_reader depth) cursor.old) result cursor.new }
{
    let start = cursor.fork();
    match type_node(alloc, cursor, depth) {
        Ok(found) => Ok(found),
        Err(fault) => {
            pass_name(&start, cursor);
            Err(fault)
        }
    }
}

// What a function answers with, where an identifier may come as its name, too.
fn result_past_name(
    alloc: Global,
    cursor: &mut Cursor<'_>,
    depth: usize,
) -> Result<(ResultType, usize), ReadFault>
    ensures { GivesHigh view.result_type one_result_height depth
        (past_name (spec.result (spec.type_reader depth)) cursor.old) result cursor.new }
{
    let start = cursor.fork();
    match result_type(alloc, cursor, depth) {
        Ok(found) => Ok(found),
        Err(fault) => {
            pass_name(&start, cursor);
            Err(fault)
        }
    }
}

/// Reads what a function answers with before its name, or nothing (ECMA-408, 9 Functions).
#[tactic(auto, unfolding(syntax_readers::specs::Types::result_before_name))]
pub fn result_before_name(
    alloc: Global,
    cursor: &mut Cursor<'_>,
    depth: usize,
) -> Result<(Option<ResultType>, usize), ReadFault>
    ensures { GivesHigh view.result_option height.result_height depth
        (spec.result_before_name (spec.type_reader depth) cursor.old) result cursor.new }
{
    if !result_comes(cursor) {
        return Ok((None, 0));
    }
    let (found, height) = result_past_name(alloc, cursor, depth)?;
    Ok((Some(found), height))
}

/// Reads a type before a name, or nothing (ECMA-408, 8 Variables).
#[tactic(auto, unfolding(syntax_readers::specs::Types::type_before_name))]
pub fn type_before_name(
    alloc: Global,
    cursor: &mut Cursor<'_>,
    depth: usize,
) -> Result<(Option<Box<TypeNode>>, usize), ReadFault>
    ensures { GivesHigh view.type_option height.type_option_height depth
        (spec.type_before_name (spec.type_reader depth) cursor.old) result cursor.new }
{
    if !type_comes(cursor) {
        return Ok((None, 0));
    }
    let (found, height) = type_past_name(alloc, cursor, depth)?;
    let boxed = Box::new(alloc, found)?;
    Ok((Some(boxed), height))
}

/// Reads `var`, `final` with a type or none, or a type (ECMA-408, 8 Variables).
#[tactic(auto, unfolding(syntax_readers::specs::Types::kind))]
pub fn kind(
    alloc: Global,
    cursor: &mut Cursor<'_>,
    depth: usize,
) -> Result<(VariableKind, usize), ReadFault>
    ensures { GivesHigh view.variable_kind height.kind_height depth
        (spec.kind (spec.type_reader depth) cursor.old) result cursor.new }
{
    if cursor.sees_word(Word::Var) {
        let word = cursor.expect_word(Word::Var)?;
        return Ok((VariableKind::Var(word), 0));
    }
    if cursor.sees_word(Word::Final) {
        let word = cursor.expect_word(Word::Final)?;
        let (found, height) = type_before_name(alloc, cursor, depth)?;
        return Ok((VariableKind::Final(word, found), height));
    }
    let (found, height) = type_node(alloc, cursor, depth)?;
    let boxed = Box::new(alloc, found)?;
    Ok((VariableKind::Typed(boxed), height))
}

/// Reads the same of variables that are declared, or `const` with a type or none (ECMA-408, 8 Variables).
#[tactic(auto, unfolding(syntax_readers::specs::Types::variables_kind))]
pub fn variables_kind(
    alloc: Global,
    cursor: &mut Cursor<'_>,
    depth: usize,
) -> Result<(VariableKind, usize), ReadFault>
    ensures { GivesHigh view.variable_kind height.kind_height depth
        (spec.variables_kind (spec.type_reader depth) cursor.old) result cursor.new }
{
    if cursor.sees_word(Word::Const) {
        let word = cursor.expect_word(Word::Const)?;
        let (found, height) = type_before_name(alloc, cursor, depth)?;
        return Ok((VariableKind::Const(word, found), height));
    }
    kind(alloc, cursor, depth)
}
