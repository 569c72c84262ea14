// Declarations of a unit, behind their metadata (ECMA-408, 18 Libraries and Scripts).
ghost use Rattle.std.specs.Prelude.{◌≤◌};
ghost use Rattle.dart_tree.specs.Depth as height;
ghost use Rattle.dart_tree.specs.Unit as d;
ghost use Rattle.dart_tree.specs.UnitView as view;
ghost use Rattle.grammar_laws.specs.Readers.{mapped, tried};
ghost use Rattle.parse_decl.specs.Views.{accessor_at, alias_at, class_at, enum_at, function_at, one_height};
ghost use Rattle.parse_nest.specs.Nests.{NestsExpr, NestsParameters, NestsBlock};
ghost use Rattle.parse_parameter.specs.Views.{variables_at};
ghost use Rattle.syntax_readers.specs.Declarations as spec;
ghost use Rattle.token_cursor.specs.Gives.{GivesHigh};

use crate::look::sees_class;
use dart_token::word::Word;
use dart_tree::declaration::{DeclKind, Enum};
use dart_tree::parameter::Parameters;
use dart_tree::statement::Block;
use parse_class::alias::alias;
use parse_class::class::class;
use parse_class::{accessor, function};
use parse_head::listing::enumeration;
use parse_nest::inside::{Inside, OpenExpr};
use parse_parameter::look::{sees_variables, settle};
use parse_parameter::variable::variables;
use std::alloc::Global;
use token_cursor::cursor::Cursor;
use token_cursor::error::ReadFault;

// A class as a declaration.
fn class_decl<
    E: Fn(Global, &mut Cursor<'_>, usize, bool) -> Result<(OpenExpr, usize), ReadFault>,
    P: Fn(Global, &mut Cursor<'_>, usize) -> Result<(Parameters, usize), ReadFault>,
    B: Fn(Global, &mut Cursor<'_>, usize) -> Result<(Block, usize), ReadFault>,
>(
    nest: &Inside<E, P, B>,
    cursor: &mut Cursor<'_>,
    depth: usize,
) -> Result<(DeclKind, usize), ReadFault>
    requires nests { NestsExpr nest.now.limit (E.pre nest.now.expr) (E.post nest.now.expr) }
    requires parameters { NestsParameters nest.now.limit (P.pre nest.now.parameters) (P.post nest.now.parameters) }
    requires blocks { NestsBlock nest.now.limit (B.pre nest.now.block) (B.post nest.now.block) }
    requires within { depth ≤ nest.now.limit }
    ensures { GivesHigh view.decl_kind height.decl_kind_height depth
        (mapped d.class_decl (class_at depth) cursor.old) result cursor.new }
{
    let (found, height) = class(nest, cursor, depth)?;
    Ok((DeclKind::Class(found), height))
}

// An alias as a declaration.
fn alias_decl<
    E: Fn(Global, &mut Cursor<'_>, usize, bool) -> Result<(OpenExpr, usize), ReadFault>,
    P: Fn(Global, &mut Cursor<'_>, usize) -> Result<(Parameters, usize), ReadFault>,
    B: Fn(Global, &mut Cursor<'_>, usize) -> Result<(Block, usize), ReadFault>,
>(
    nest: &Inside<E, P, B>,
    cursor: &mut Cursor<'_>,
    depth: usize,
) -> Result<(DeclKind, usize), ReadFault>
    requires nests { NestsExpr nest.now.limit (E.pre nest.now.expr) (E.post nest.now.expr) }
    requires parameters { NestsParameters nest.now.limit (P.pre nest.now.parameters) (P.post nest.now.parameters) }
    requires blocks { NestsBlock nest.now.limit (B.pre nest.now.block) (B.post nest.now.block) }
    requires within { depth ≤ nest.now.limit }
    ensures { GivesHigh view.decl_kind height.decl_kind_height depth
        (mapped d.alias_decl (alias_at depth) cursor.old) result cursor.new }
{
    let (found, height) = alias(nest, cursor, depth)?;
    Ok((DeclKind::Alias(found), height))
}

// An enum, which is a node.
fn enum_node(
    alloc: Global,
    cursor: &mut Cursor<'_>,
    depth: usize,
) -> Result<(Enum, usize), ReadFault>
    ensures { GivesHigh view.enum one_height depth (enum_at depth cursor.old) result cursor.new }
{
    if depth == 0 {
        return Err(ReadFault::Stuck);
    }
    let found = enumeration(alloc, cursor)?;
    Ok((found, 1))
}

// An enum as a declaration.
fn enum_decl(
    alloc: Global,
    cursor: &mut Cursor<'_>,
    depth: usize,
) -> Result<(DeclKind, usize), ReadFault>
    ensures { GivesHigh view.decl_kind height.decl_kind_height depth
        (mapped d.enum_decl (enum_at depth) cursor.old) result cursor.new }
{
    let (found, height) = enum_node(alloc, cursor, depth)?;
    Ok((DeclKind::Enum(found), height))
}

// Variables as a declaration.
fn variables_decl<
    E: Fn(Global, &mut Cursor<'_>, usize, bool) -> Result<(OpenExpr, usize), ReadFault>,
    P: Fn(Global, &mut Cursor<'_>, usize) -> Result<(Parameters, usize), ReadFault>,
    B: Fn(Global, &mut Cursor<'_>, usize) -> Result<(Block, usize), ReadFault>,
>(
    nest: &Inside<E, P, B>,
    cursor: &mut Cursor<'_>,
    depth: usize,
) -> Result<(DeclKind, usize), ReadFault>
    requires nests { NestsExpr nest.now.limit (E.pre nest.now.expr) (E.post nest.now.expr) }
    requires within { depth ≤ nest.now.limit }
    ensures { GivesHigh view.decl_kind height.decl_kind_height depth
        (mapped d.variables_decl (variables_at depth) cursor.old) result cursor.new }
{
    let (found, height) = variables(nest, cursor, depth)?;
    Ok((DeclKind::Variables(found), height))
}

// A function as a declaration.
fn function_decl<
    E: Fn(Global, &mut Cursor<'_>, usize, bool) -> Result<(OpenExpr, usize), ReadFault>,
    P: Fn(Global, &mut Cursor<'_>, usize) -> Result<(Parameters, usize), ReadFault>,
    B: Fn(Global, &mut Cursor<'_>, usize) -> Result<(Block, usize), ReadFault>,
>(
    nest: &Inside<E, P, B>,
    cursor: &mut Cursor<'_>,
    depth: usize,
) -> Result<(DeclKind, usize), ReadFault>
    requires nests { NestsExpr nest.now.limit (E.pre nest.now.expr) (E.post nest.now.expr) }
    requires parameters { NestsParameters nest.now.limit (P.pre nest.now.parameters) (P.post nest.now.parameters) }
    requires blocks { NestsBlock nest.now.limit (B.pre nest.now.block) (B.post nest.now.block) }
    requires within { depth ≤ nest.now.limit }
    ensures { GivesHigh view.decl_kind height.decl_kind_height depth
        (mapped d.function_decl (function_at depth) cursor.old) result cursor.new }
{
    let (found, height) = function(nest, cursor, depth, true)?;
    Ok((DeclKind::Function(found), height))
}

// An accessor as a declaration.
fn accessor_decl<
    E: Fn(Global, &mut Cursor<'_>, usize, bool) -> Result<(OpenExpr, usize), ReadFault>,
    P: Fn(Global, &mut Cursor<'_>, usize) -> Result<(Parameters, usize), ReadFault>,
    B: Fn(Global, &mut Cursor<'_>, usize) -> Result<(Block, usize), ReadFault>,
>(
    nest: &Inside<E, P, B>,
    cursor: &mut Cursor<'_>,
    depth: usize,
) -> Result<(DeclKind, usize), ReadFault>
    requires nests { NestsExpr nest.now.limit (E.pre nest.now.expr) (E.post nest.now.expr) }
    requires parameters { NestsParameters nest.now.limit (P.pre nest.now.parameters) (P.post nest.now.parameters) }
    requires blocks { NestsBlock nest.now.limit (B.pre nest.now.block) (B.post nest.now.block) }
    requires within { depth ≤ nest.now.limit }
    ensures { GivesHigh view.decl_kind height.decl_kind_height depth
        (mapped d.accessor_decl (accessor_at depth) cursor.old) result cursor.new }
{
    let (found, height) = accessor(nest, cursor, depth, true)?;
    Ok((DeclKind::Accessor(found), height))
}

// An accessor, or else a function.
fn callable<
    E: Fn(Global, &mut Cursor<'_>, usize, bool) -> Result<(OpenExpr, usize), ReadFault>,
    P: Fn(Global, &mut Cursor<'_>, usize) -> Result<(Parameters, usize), ReadFault>,
    B: Fn(Global, &mut Cursor<'_>, usize) -> Result<(Block, usize), ReadFault>,
>(
    nest: &Inside<E, P, B>,
    cursor: &mut Cursor<'_>,
    depth: usize,
) -> Result<(DeclKind, usize), ReadFault>
    requires nests { NestsExpr nest.now.limit (E.pre nest.now.expr) (E.post nest.now.expr) }
    requires parameters { NestsParameters nest.now.limit (P.pre nest.now.parameters) (P.post nest.now.parameters) }
    requires blocks { NestsBlock nest.now.limit (B.pre nest.now.block) (B.post nest.now.block) }
    requires within { depth ≤ nest.now.limit }
    ensures { GivesHigh view.decl_kind height.decl_kind_height depth
        (tried (mapped d.accessor_decl (accessor_at depth)) (mapped d.function_decl (function_at depth)) cursor.old)
        result cursor.new }
{
    let mut second = cursor.fork();
    match accessor_decl(nest, cursor, depth) {
        Ok(found) => Ok(found),
        Err(ReadFault::Memory) => Err(ReadFault::Memory),
        Err(ReadFault::Stuck) => {
            let function = function_decl(nest, &mut second, depth);
            settle(cursor, &second, function.is_ok());
            function
        }
    }
}

// One of these, or else variables.
fn callable_or_variables<
    E: Fn(Global, &mut Cursor<'_>, usize, bool) -> Result<(OpenExpr, usize), ReadFault>,
    P: Fn(Global, &mut Cursor<'_>, usize) -> Result<(Parameters, usize), ReadFault>,
    B: Fn(Global, &mut Cursor<'_>, usize) -> Result<(Block, usize), ReadFault>,
>(
    nest: &Inside<E, P, B>,
    cursor: &mut Cursor<'_>,
    depth: usize,
) -> Result<(DeclKind, usize), ReadFault>
    requires nests { NestsExpr nest.now.limit (E.pre nest.now.expr) (E.post nest.now.expr) }
    requires parameters { NestsParameters nest.now.limit (P.pre nest.now.parameters) (P.post nest.now.parameters) }
    requires blocks { NestsBlock nest.now.limit (B.pre nest.now.block) (B.post nest.now.block) }
    requires within { depth ≤ nest.now.limit }
    ensures { GivesHigh view.decl_kind height.decl_kind_height depth
        (tried (tried (mapped d.accessor_decl (accessor_at depth)) (mapped d.function_decl (function_at depth)))
        (mapped d.variables_decl (variables_at depth)) cursor.old) result cursor.new }
{
    let mut second = cursor.fork();
    match callable(nest, cursor, depth) {
        Ok(found) => Ok(found),
        Err(ReadFault::Memory) => Err(ReadFault::Memory),
        Err(ReadFault::Stuck) => {
            let variables = variables_decl(nest, &mut second, depth);
            settle(cursor, &second, variables.is_ok());
            variables
        }
    }
}

// A declaration that no word of its own begins.
#[tactic(auto, unfolding(syntax_readers::specs::Declarations::typed_decl))]
fn typed_decl<
    E: Fn(Global, &mut Cursor<'_>, usize, bool) -> Result<(OpenExpr, usize), ReadFault>,
    P: Fn(Global, &mut Cursor<'_>, usize) -> Result<(Parameters, usize), ReadFault>,
    B: Fn(Global, &mut Cursor<'_>, usize) -> Result<(Block, usize), ReadFault>,
>(
    nest: &Inside<E, P, B>,
    cursor: &mut Cursor<'_>,
    depth: usize,
) -> Result<(DeclKind, usize), ReadFault>
    requires nests { NestsExpr nest.now.limit (E.pre nest.now.expr) (E.post nest.now.expr) }
    requires parameters { NestsParameters nest.now.limit (P.pre nest.now.parameters) (P.post nest.now.parameters) }
    requires blocks { NestsBlock nest.now.limit (B.pre nest.now.block) (B.post nest.now.block) }
    requires within { depth ≤ nest.now.limit }
    ensures { GivesHigh view.decl_kind height.decl_kind_height depth
        (spec.typed_decl depth cursor.old) result cursor.new }
{
    if sees_variables(cursor) {
        return variables_decl(nest, cursor, depth);
    }
    callable_or_variables(nest, cursor, depth)
}

/// Reads what a declaration declares (ECMA-408, 18 Libraries and Scripts).
#[tactic(auto, unfolding(syntax_readers::specs::Declarations::decl_kind))]
pub fn decl_kind<
    E: Fn(Global, &mut Cursor<'_>, usize, bool) -> Result<(OpenExpr, usize), ReadFault>,
    P: Fn(Global, &mut Cursor<'_>, usize) -> Result<(Parameters, usize), ReadFault>,
    B: Fn(Global, &mut Cursor<'_>, usize) -> Result<(Block, usize), ReadFault>,
>(
    nest: &Inside<E, P, B>,
    cursor: &mut Cursor<'_>,
    depth: usize,
) -> Result<(DeclKind, usize), ReadFault>
    requires nests { NestsExpr nest.now.limit (E.pre nest.now.expr) (E.post nest.now.expr) }
    requires parameters { NestsParameters nest.now.limit (P.pre nest.now.parameters) (P.post nest.now.parameters) }
    requires blocks { NestsBlock nest.now.limit (B.pre nest.now.block) (B.post nest.now.block) }
    requires within { depth ≤ nest.now.limit }
    ensures { GivesHigh view.decl_kind height.decl_kind_height depth
        (spec.decl_kind depth cursor.old) result cursor.new }
{
    if sees_class(cursor) {
        return class_decl(nest, cursor, depth);
    }
    if cursor.sees_word(Word::Typedef) {
        return alias_decl(nest, cursor, depth);
    }
    if cursor.sees_word(Word::Enum) {
        return enum_decl(nest.alloc, cursor, depth);
    }
    typed_decl(nest, cursor, depth)
}
