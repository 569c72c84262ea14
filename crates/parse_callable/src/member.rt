// The members of a class that are no constructors (ECMA-408, 10 Classes).
ghost use Rattle.std.specs.Prelude.{◌≤◌};
ghost use Rattle.dart_token.specs.declared.word.Word.TheVariants as w;
ghost use Rattle.dart_tree.specs.Depth as height;
ghost use Rattle.dart_tree.specs.Unit as u;
ghost use Rattle.dart_tree.specs.UnitView as unit_view;
ghost use Rattle.dart_tree.specs.declared.declaration.Modifier.TheVariants as m;
ghost use Rattle.grammar_laws.specs.Readers.{mapped, tried};
ghost use Rattle.parse_callable.specs.Views.{external_if, modified_of, modified_height};
ghost use Rattle.parse_nest.specs.Nests.{NestsExpr, NestsParameters, NestsBlock};
ghost use Rattle.parse_nest.specs.Stages.{exprs_at};
ghost use Rattle.parse_parameter.specs.Views.{variables_at};
ghost use Rattle.syntax_readers.specs.Combinators.{◌~◌, made₂};
ghost use Rattle.syntax_readers.specs.Declarations as spec;
ghost use Rattle.token_codes.specs.Leaves.{word};
ghost use Rattle.token_cursor.specs.Gives.{Gives, GivesHigh, same};

use crate::accessor::accessor;
use crate::function::function;
use crate::look::sees_external_static;
use crate::operator::operator_member;
use dart_token::word::Word;
use dart_tree::declaration::{MemberKind, Modifier};
use dart_tree::expression::Expr;
use dart_tree::parameter::Parameters;
use dart_tree::statement::Block;
use parse_nest::inside::{Inside, OpenExpr};
use parse_parameter::look::{sees_variables, settle};
use parse_parameter::variable::variables;
use std::alloc::Global;
use token_cursor::cursor::Cursor;
use token_cursor::error::ReadFault;

/// What stands before a member, and what it declares.
pub type ModifiedKind = (Modifier, MemberKind);

// An accessor as a member.
fn member_accessor<
    E: Fn(Global, &mut Cursor<'_>, usize, bool) -> Result<(OpenExpr, usize), ReadFault>,
    P: Fn(Global, &mut Cursor<'_>, usize) -> Result<(Parameters, usize), ReadFault>,
    B: Fn(Global, &mut Cursor<'_>, usize) -> Result<(Block, usize), ReadFault>,
>(
    nest: &Inside<E, P, B>,
    cursor: &mut Cursor<'_>,
    depth: usize,
    external: bool,
) -> Result<(MemberKind, usize), ReadFault>
    requires nests { NestsExpr nest.now.limit (E.pre nest.now.expr) (E.post nest.now.expr) }
    requires parameters { NestsParameters nest.now.limit (P.pre nest.now.parameters) (P.post nest.now.parameters) }
    requires blocks { NestsBlock nest.now.limit (B.pre nest.now.block) (B.post nest.now.block) }
    requires within { depth ≤ nest.now.limit }
    ensures { GivesHigh unit_view.member_kind height.member_kind_height depth
        (mapped u.accessor_member (spec.accessor (external_if external) depth) cursor.old) result cursor.new }
{
    let (found, height) = accessor(nest, cursor, depth, external)?;
    Ok((MemberKind::Accessor(found), height))
}

// A function as a member.
fn member_function<
    E: Fn(Global, &mut Cursor<'_>, usize, bool) -> Result<(OpenExpr, usize), ReadFault>,
    P: Fn(Global, &mut Cursor<'_>, usize) -> Result<(Parameters, usize), ReadFault>,
    B: Fn(Global, &mut Cursor<'_>, usize) -> Result<(Block, usize), ReadFault>,
>(
    nest: &Inside<E, P, B>,
    cursor: &mut Cursor<'_>,
    depth: usize,
    external: bool,
) -> Result<(MemberKind, usize), ReadFault>
    requires nests { NestsExpr nest.now.limit (E.pre nest.now.expr) (E.post nest.now.expr) }
    requires parameters { NestsParameters nest.now.limit (P.pre nest.now.parameters) (P.post nest.now.parameters) }
    requires blocks { NestsBlock nest.now.limit (B.pre nest.now.block) (B.post nest.now.block) }
    requires within { depth ≤ nest.now.limit }
    ensures { GivesHigh unit_view.member_kind height.member_kind_height depth
        (mapped u.function_member (spec.function (external_if external) depth) cursor.old) result cursor.new }
{
    let (found, height) = function(nest, cursor, depth, external)?;
    Ok((MemberKind::Function(found), height))
}

// Variables as a member.
fn member_variables<
    E: Fn(Global, &mut Cursor<'_>, usize, bool) -> Result<(OpenExpr, usize), ReadFault>,
    P: Fn(Global, &mut Cursor<'_>, usize) -> Result<(Parameters, usize), ReadFault>,
    B: Fn(Global, &mut Cursor<'_>, usize) -> Result<(Block, usize), ReadFault>,
>(
    nest: &Inside<E, P, B>,
    cursor: &mut Cursor<'_>,
    depth: usize,
) -> Result<(MemberKind, usize), ReadFault>
    requires nests { NestsExpr nest.now.limit (E.pre nest.now.expr) (E.post nest.now.expr) }
    requires within { depth ≤ nest.now.limit }
    ensures { GivesHigh unit_view.member_kind height.member_kind_height depth
        (mapped u.variables_member (variables_at depth) cursor.old) result cursor.new }
{
    let (found, height) = variables(nest, cursor, depth)?;
    Ok((MemberKind::Variables(found), height))
}

// An operator as a member.
fn member_operator<
    E: Fn(Global, &mut Cursor<'_>, usize, bool) -> Result<(OpenExpr, usize), ReadFault>,
    P: Fn(Global, &mut Cursor<'_>, usize) -> Result<(Parameters, usize), ReadFault>,
    B: Fn(Global, &mut Cursor<'_>, usize) -> Result<(Block, usize), ReadFault>,
>(
    nest: &Inside<E, P, B>,
    cursor: &mut Cursor<'_>,
    depth: usize,
) -> Result<(MemberKind, usize), ReadFault>
    requires nests { NestsExpr nest.now.limit (E.pre nest.now.expr) (E.post nest.now.expr) }
    requires parameters { NestsParameters nest.now.limit (P.pre nest.now.parameters) (P.post nest.now.parameters) }
    requires blocks { NestsBlock nest.now.limit (B.pre nest.now.block) (B.post nest.now.block) }
    requires within { depth ≤ nest.now.limit }
    ensures { GivesHigh unit_view.member_kind height.member_kind_height depth
        (mapped u.operator_member (spec.operator_member (exprs_at depth)) cursor.old) result cursor.new }
{
    let (found, height) = operator_member(nest, cursor, depth)?;
    Ok((MemberKind::Operator(found), height))
}

// An accessor, or else a function.
fn callable<
    E: Fn(Global, &mut Cursor<'_>, usize, bool) -> Result<(OpenExpr, usize), ReadFault>,
    P: Fn(Global, &mut Cursor<'_>, usize) -> Result<(Parameters, usize), ReadFault>,
    B: Fn(Global, &mut Cursor<'_>, usize) -> Result<(Block, usize), ReadFault>,
>(
    nest: &Inside<E, P, B>,
    cursor: &mut Cursor<'_>,
    depth: usize,
    external: bool,
) -> Result<(MemberKind, usize), ReadFault>
    requires nests { NestsExpr nest.now.limit (E.pre nest.now.expr) (E.post nest.now.expr) }
    requires parameters { NestsParameters nest.now.limit (P.pre nest.now.parameters) (P.post nest.now.parameters) }
    requires blocks { NestsBlock nest.now.limit (B.pre nest.now.block) (B.post nest.now.block) }
    requires within { depth ≤ nest.now.limit }
    ensures { GivesHigh unit_view.member_kind height.member_kind_height depth
        (spec.callable depth (external_if external) cursor.old) result cursor.new }
{
    let mut second = cursor.fork();
    match member_accessor(nest, cursor, depth, external) {
        Ok(found) => Ok(found),
        Err(ReadFault::Memory) => Err(ReadFault::Memory),
        Err(ReadFault::Stuck) => {
            let function = member_function(nest, &mut second, depth, external);
            settle(cursor, &second, function.is_ok());
            function
        }
    }
}

// An accessor or a function, or else variables.
fn callable_else_variables<
    E: Fn(Global, &mut Cursor<'_>, usize, bool) -> Result<(OpenExpr, usize), ReadFault>,
    P: Fn(Global, &mut Cursor<'_>, usize) -> Result<(Parameters, usize), ReadFault>,
    B: Fn(Global, &mut Cursor<'_>, usize) -> Result<(Block, usize), ReadFault>,
>(
    nest: &Inside<E, P, B>,
    cursor: &mut Cursor<'_>,
    depth: usize,
    external: bool,
) -> Result<(MemberKind, usize), ReadFault>
    requires nests { NestsExpr nest.now.limit (E.pre nest.now.expr) (E.post nest.now.expr) }
    requires parameters { NestsParameters nest.now.limit (P.pre nest.now.parameters) (P.post nest.now.parameters) }
    requires blocks { NestsBlock nest.now.limit (B.pre nest.now.block) (B.post nest.now.block) }
    requires within { depth ≤ nest.now.limit }
    ensures { GivesHigh unit_view.member_kind height.member_kind_height depth
        (tried (spec.callable depth (external_if external)) (mapped u.variables_member (variables_at depth)) cursor.old)
        result cursor.new }
{
    let mut second = cursor.fork();
    match callable(nest, cursor, depth, external) {
        Ok(found) => Ok(found),
        Err(ReadFault::Memory) => Err(ReadFault::Memory),
        Err(ReadFault::Stuck) => {
            let variables = member_variables(nest, &mut second, depth);
            settle(cursor, &second, variables.is_ok());
            variables
        }
    }
}

// Variables where their word comes, or else an accessor, a function or variables.
#[tactic(auto, unfolding(syntax_readers::specs::Declarations::callable_or_variables))]
fn callable_or_variables<
    E: Fn(Global, &mut Cursor<'_>, usize, bool) -> Result<(OpenExpr, usize), ReadFault>,
    P: Fn(Global, &mut Cursor<'_>, usize) -> Result<(Parameters, usize), ReadFault>,
    B: Fn(Global, &mut Cursor<'_>, usize) -> Result<(Block, usize), ReadFault>,
>(
    nest: &Inside<E, P, B>,
    cursor: &mut Cursor<'_>,
    depth: usize,
    external: bool,
) -> Result<(MemberKind, usize), ReadFault>
    requires nests { NestsExpr nest.now.limit (E.pre nest.now.expr) (E.post nest.now.expr) }
    requires parameters { NestsParameters nest.now.limit (P.pre nest.now.parameters) (P.post nest.now.parameters) }
    requires blocks { NestsBlock nest.now.limit (B.pre nest.now.block) (B.post nest.now.block) }
    requires within { depth ≤ nest.now.limit }
    ensures { GivesHigh unit_view.member_kind height.member_kind_height depth
        (spec.callable_or_variables depth (external_if external) cursor.old) result cursor.new }
{
    if sees_variables(cursor) {
        return member_variables(nest, cursor, depth);
    }
    callable_else_variables(nest, cursor, depth, external)
}

// What a member with no modifier declares: all of these, or else an operator.
fn plain_kind<
    E: Fn(Global, &mut Cursor<'_>, usize, bool) -> Result<(OpenExpr, usize), ReadFault>,
    P: Fn(Global, &mut Cursor<'_>, usize) -> Result<(Parameters, usize), ReadFault>,
    B: Fn(Global, &mut Cursor<'_>, usize) -> Result<(Block, usize), ReadFault>,
>(
    nest: &Inside<E, P, B>,
    cursor: &mut Cursor<'_>,
    depth: usize,
) -> Result<(MemberKind, usize), ReadFault>
    requires nests { NestsExpr nest.now.limit (E.pre nest.now.expr) (E.post nest.now.expr) }
    requires parameters { NestsParameters nest.now.limit (P.pre nest.now.parameters) (P.post nest.now.parameters) }
    requires blocks { NestsBlock nest.now.limit (B.pre nest.now.block) (B.post nest.now.block) }
    requires within { depth ≤ nest.now.limit }
    ensures { GivesHigh unit_view.member_kind height.member_kind_height depth
        (tried (spec.callable_or_variables depth spec.external_or_none)
        (mapped u.operator_member (spec.operator_member (exprs_at depth))) cursor.old) result cursor.new }
{
    let mut second = cursor.fork();
    match callable_or_variables(nest, cursor, depth, true) {
        Ok(found) => Ok(found),
        Err(ReadFault::Memory) => Err(ReadFault::Memory),
        Err(ReadFault::Stuck) => {
            let operator = member_operator(nest, &mut second, depth);
            settle(cursor, &second, operator.is_ok());
            operator
        }
    }
}

// A member with no modifier.
#[tactic(auto, unfolding(syntax_readers::specs::Declarations::plain_member))]
fn plain_member<
    E: Fn(Global, &mut Cursor<'_>, usize, bool) -> Result<(OpenExpr, usize), ReadFault>,
    P: Fn(Global, &mut Cursor<'_>, usize) -> Result<(Parameters, usize), ReadFault>,
    B: Fn(Global, &mut Cursor<'_>, usize) -> Result<(Block, usize), ReadFault>,
>(
    nest: &Inside<E, P, B>,
    cursor: &mut Cursor<'_>,
    depth: usize,
) -> Result<(ModifiedKind, usize), ReadFault>
    requires nests { NestsExpr nest.now.limit (E.pre nest.now.expr) (E.post nest.now.expr) }
    requires parameters { NestsParameters nest.now.limit (P.pre nest.now.parameters) (P.post nest.now.parameters) }
    requires blocks { NestsBlock nest.now.limit (B.pre nest.now.block) (B.post nest.now.block) }
    requires within { depth ≤ nest.now.limit }
    ensures { GivesHigh modified_of modified_height depth (spec.plain_member depth cursor.old) result cursor.new }
{
    let (kind, height) = plain_kind(nest, cursor, depth)?;
    Ok(((Modifier::Omitted, kind), height))
}

// A static member.
#[tactic(auto, unfolding(syntax_readers::specs::Declarations::static_member))]
fn static_member<
    E: Fn(Global, &mut Cursor<'_>, usize, bool) -> Result<(OpenExpr, usize), ReadFault>,
    P: Fn(Global, &mut Cursor<'_>, usize) -> Result<(Parameters, usize), ReadFault>,
    B: Fn(Global, &mut Cursor<'_>, usize) -> Result<(Block, usize), ReadFault>,
>(
    nest: &Inside<E, P, B>,
    cursor: &mut Cursor<'_>,
    depth: usize,
) -> Result<(ModifiedKind, usize), ReadFault>
    requires nests { NestsExpr nest.now.limit (E.pre nest.now.expr) (E.post nest.now.expr) }
    requires parameters { NestsParameters nest.now.limit (P.pre nest.now.parameters) (P.post nest.now.parameters) }
    requires blocks { NestsBlock nest.now.limit (B.pre nest.now.block) (B.post nest.now.block) }
    requires within { depth ≤ nest.now.limit }
    ensures { GivesHigh modified_of modified_height depth (spec.static_member depth cursor.old) result cursor.new }
{
    let word = cursor.expect_word(Word::Static)?;
    let (kind, height) = callable_or_variables(nest, cursor, depth, false)?;
    Ok(((Modifier::Static(word), kind), height))
}

// `external static`.
fn external_static(cursor: &mut Cursor<'_>) -> Result<Modifier, ReadFault>
    ensures { Gives same (made₂ m.ExternalStatic (word w.External ~ word w.Static) cursor.old) result cursor.new }
{
    let external = cursor.expect_word(Word::External)?;
    let word = cursor.expect_word(Word::Static)?;
    Ok(Modifier::ExternalStatic(external, word))
}

// A static member that is external.
#[tactic(auto, unfolding(syntax_readers::specs::Declarations::external_static_member))]
fn external_static_member<
    E: Fn(Global, &mut Cursor<'_>, usize, bool) -> Result<(OpenExpr, usize), ReadFault>,
    P: Fn(Global, &mut Cursor<'_>, usize) -> Result<(Parameters, usize), ReadFault>,
    B: Fn(Global, &mut Cursor<'_>, usize) -> Result<(Block, usize), ReadFault>,
>(
    nest: &Inside<E, P, B>,
    cursor: &mut Cursor<'_>,
    depth: usize,
) -> Result<(ModifiedKind, usize), ReadFault>
    requires nests { NestsExpr nest.now.limit (E.pre nest.now.expr) (E.post nest.now.expr) }
    requires parameters { NestsParameters nest.now.limit (P.pre nest.now.parameters) (P.post nest.now.parameters) }
    requires blocks { NestsBlock nest.now.limit (B.pre nest.now.block) (B.post nest.now.block) }
    requires within { depth ≤ nest.now.limit }
    ensures { GivesHigh modified_of modified_height depth
        (spec.external_static_member depth cursor.old) result cursor.new }
{
    let modifier = external_static(cursor)?;
    let (kind, height) = callable(nest, cursor, depth, false)?;
    Ok(((modifier, kind), height))
}

/// Reads a member of a class that is no constructor, with what stands before it (ECMA-408, 10 Classes).
#[tactic(auto, unfolding(syntax_readers::specs::Declarations::other_member))]
pub fn other_member<
    E: Fn(Global, &mut Cursor<'_>, usize, bool) -> Result<(OpenExpr, usize), ReadFault>,
    P: Fn(Global, &mut Cursor<'_>, usize) -> Result<(Parameters, usize), ReadFault>,
    B: Fn(Global, &mut Cursor<'_>, usize) -> Result<(Block, usize), ReadFault>,
>(
    nest: &Inside<E, P, B>,
    cursor: &mut Cursor<'_>,
    depth: usize,
) -> Result<(ModifiedKind, usize), ReadFault>
    requires nests { NestsExpr nest.now.limit (E.pre nest.now.expr) (E.post nest.now.expr) }
    requires parameters { NestsParameters nest.now.limit (P.pre nest.now.parameters) (P.post nest.now.parameters) }
    requires blocks { NestsBlock nest.now.limit (B.pre nest.now.block) (B.post nest.now.block) }
    requires within { depth ≤ nest.now.limit }
    ensures { GivesHigh modified_of modified_height depth (spec.other_member depth cursor.old) result cursor.new }
{
    if cursor.sees_word(Word::Static) {
        return static_member(nest, cursor, depth);
    }
    if sees_external_static(cursor) {
        return external_static_member(nest, cursor, depth);
    }
    plain_member(nest, cursor, depth)
}
