// Members of classes (ECMA-408, 10 Classes).
ghost use Rattle.std.specs.Prelude.{◌≤◌};
ghost use Rattle.dart_tree.specs.Depth as height;
ghost use Rattle.dart_tree.specs.UnitView as view;
ghost use Rattle.grammar_laws.specs.Readers.{tried};
ghost use Rattle.parse_callable.specs.Views.{modified_of, modified_height};
ghost use Rattle.parse_class.specs.Views.{members_of, members_at, members_height};
ghost use Rattle.parse_nest.specs.Nests.{NestsExpr, NestsParameters, NestsBlock};
ghost use Rattle.syntax_readers.specs.Declarations as spec;
ghost use Rattle.token_cursor.specs.Gives.{GivesHigh};

use crate::look::sees_member;
use dart_tree::declaration::{Member, MemberKind, Modifier};
use dart_tree::parameter::Parameters;
use dart_tree::statement::Block;
use parse_callable::member::{ModifiedKind, other_member};
use parse_constructor::constructor::constructor;
use parse_nest::inside::{Inside, OpenExpr};
use parse_parameter::look::settle;
use parse_parameter::metadata::metadata;
use std::alloc::Global;
use token_cursor::cursor::Cursor;
use token_cursor::error::ReadFault;

// A constructor as a member.
#[tactic(auto, unfolding(syntax_readers::specs::Declarations::constructor_member))]
fn constructor_member<
    E: Fn(Global, &mut Cursor<'_>, usize, bool) -> Result<(OpenExpr, usize), ReadFault>,
    P: Fn(Global, &mut Cursor<'_>, usize) -> Result<(Parameters, usize), ReadFault>,
    B: Fn(Global, &mut Cursor<'_>, usize) -> Result<(Block, usize), ReadFault>,
>(
    nest: &Inside<E, P, B>,
    cursor: &mut Cursor<'_>,
    depth: usize,
    class: &[u8],
) -> Result<(ModifiedKind, usize), ReadFault>
    requires nests { NestsExpr nest.now.limit (E.pre nest.now.expr) (E.post nest.now.expr) }
    requires parameters { NestsParameters nest.now.limit (P.pre nest.now.parameters) (P.post nest.now.parameters) }
    requires blocks { NestsBlock nest.now.limit (B.pre nest.now.block) (B.post nest.now.block) }
    requires within { depth ≤ nest.now.limit }
    ensures { GivesHigh modified_of modified_height depth
        (spec.constructor_member depth class.now cursor.old) result cursor.new }
{
    let (found, height) = constructor(nest, cursor, depth, class)?;
    Ok(((Modifier::Omitted, MemberKind::Constructor(found)), height))
}

// A constructor, or else another member.
fn constructor_or_other<
    E: Fn(Global, &mut Cursor<'_>, usize, bool) -> Result<(OpenExpr, usize), ReadFault>,
    P: Fn(Global, &mut Cursor<'_>, usize) -> Result<(Parameters, usize), ReadFault>,
    B: Fn(Global, &mut Cursor<'_>, usize) -> Result<(Block, usize), ReadFault>,
>(
    nest: &Inside<E, P, B>,
    cursor: &mut Cursor<'_>,
    depth: usize,
    class: &[u8],
) -> Result<(ModifiedKind, usize), ReadFault>
    requires nests { NestsExpr nest.now.limit (E.pre nest.now.expr) (E.post nest.now.expr) }
    requires parameters { NestsParameters nest.now.limit (P.pre nest.now.parameters) (P.post nest.now.parameters) }
    requires blocks { NestsBlock nest.now.limit (B.pre nest.now.block) (B.post nest.now.block) }
    requires within { depth ≤ nest.now.limit }
    ensures { GivesHigh modified_of modified_height depth
        (tried (spec.constructor_member depth class.now) (spec.other_member depth) cursor.old) result cursor.new }
{
    let mut second = cursor.fork();
    match constructor_member(nest, cursor, depth, class) {
        Ok(found) => Ok(found),
        Err(ReadFault::Memory) => Err(ReadFault::Memory),
        Err(ReadFault::Stuck) => {
            let other = other_member(nest, &mut second, depth);
            settle(cursor, &second, other.is_ok());
            other
        }
    }
}

/// Reads a member of a class of this name, with its metadata (ECMA-408, 10 Classes).
#[tactic(auto, unfolding(syntax_readers::specs::Declarations::member))]
pub fn member<
    E: Fn(Global, &mut Cursor<'_>, usize, bool) -> Result<(OpenExpr, usize), ReadFault>,
    P: Fn(Global, &mut Cursor<'_>, usize) -> Result<(Parameters, usize), ReadFault>,
    B: Fn(Global, &mut Cursor<'_>, usize) -> Result<(Block, usize), ReadFault>,
>(
    nest: &Inside<E, P, B>,
    cursor: &mut Cursor<'_>,
    depth: usize,
    class: &[u8],
) -> Result<(Member, usize), ReadFault>
    requires nests { NestsExpr nest.now.limit (E.pre nest.now.expr) (E.post nest.now.expr) }
    requires parameters { NestsParameters nest.now.limit (P.pre nest.now.parameters) (P.post nest.now.parameters) }
    requires blocks { NestsBlock nest.now.limit (B.pre nest.now.block) (B.post nest.now.block) }
    requires within { depth ≤ nest.now.limit }
    ensures { GivesHigh view.member height.member_height depth
        (spec.member depth class.now cursor.old) result cursor.new }
{
    let (metadata, tall) = metadata(nest, cursor, depth)?;
    let ((modifier, kind), height) = constructor_or_other(nest, cursor, depth, class)?;
    Ok((
        Member {
            metadata,
            modifier,
            kind,
        },
        tall.max(height),
    ))
}

/// Reads the members of a class of this name (ECMA-408, 10 Classes).
pub fn members<
    E: Fn(Global, &mut Cursor<'_>, usize, bool) -> Result<(OpenExpr, usize), ReadFault>,
    P: Fn(Global, &mut Cursor<'_>, usize) -> Result<(Parameters, usize), ReadFault>,
    B: Fn(Global, &mut Cursor<'_>, usize) -> Result<(Block, usize), ReadFault>,
>(
    nest: &Inside<E, P, B>,
    cursor: &mut Cursor<'_>,
    depth: usize,
    class: &[u8],
) -> Result<(Vec<Member>, usize), ReadFault>
    requires nests { NestsExpr nest.now.limit (E.pre nest.now.expr) (E.post nest.now.expr) }
    requires parameters { NestsParameters nest.now.limit (P.pre nest.now.parameters) (P.post nest.now.parameters) }
    requires blocks { NestsBlock nest.now.limit (B.pre nest.now.block) (B.post nest.now.block) }
    requires within { depth ≤ nest.now.limit }
    ensures { GivesHigh members_of members_height depth
        (members_at depth class.now cursor.old) result cursor.new }
{
    let mut found = Vec::new(nest.alloc);
    let mut highest = 0;
    for _turn in 0..cursor.left() {
        if !sees_member(cursor) {
            return Ok((found, highest));
        }
        let (further, height) = member(nest, cursor, depth, class)?;
        found.push(further)?;
        highest = highest.max(height);
    }
    Ok((found, highest))
}
