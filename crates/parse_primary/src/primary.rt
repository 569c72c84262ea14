// Primaries (ECMA-408, 16 Expressions).
ghost use Rattle.std.specs.Prelude.{◌≡◌, ◌≤◌};
ghost use Rattle.dart_tree.specs.Depth as height;
ghost use Rattle.dart_tree.specs.Tree as t;
ghost use Rattle.dart_tree.specs.View as view;
ghost use Rattle.token_cursor.specs.Gives.{GivesHigh};
ghost use Rattle.parse_nest.specs.Nests.{NestsExpr, NestsParameters, NestsBlock};
ghost use Rattle.syntax_readers.specs.Combinators.{shut};
ghost use Rattle.syntax_readers.specs.Primaries as spec;
ghost use Rattle.parse_primary.specs.Views.{open_primary, open_primary_height, an_atom, a_super, a_text, an_object, a_collection, other_primary, GivesPrimary, GivesBare};
ghost use Rattle.parse_nest.specs.Stages.{exprs_at};

use crate::arguments::arguments;
use crate::open::OpenPrimary;
use crate::parenthesis::parenthesis;
use crate::selectors::selector;
use dart_base::place::Place;
use dart_node::make::expression as make;
use dart_token::sign::Sign;
use dart_token::word::Word;
use dart_tree::expression::{Atom, Primary};
use dart_tree::parameter::Parameters;
use dart_tree::statement::Block;
use dart_tree::types::TypeNode;
use parse_literal::collections::collection;
use parse_literal::look::{sees_selector, sees_string};
use parse_literal::text::strings;
use parse_nest::inside::{Inside, OpenExpr};
use parse_type::types::type_node;
use std::alloc::Global;
use token_cursor::cursor::Cursor;
use token_cursor::error::ReadFault;

// An expression of one token from its part.
#[tactic(auto, unfolding(dart_tree::specs::View::primary))]
fn atomic(atom: Atom) -> Primary
    ensures { view.primary result ≡ t.atom atom }
{
    Primary::Atom(atom)
}

// `super` alone from its place.
#[tactic(auto, unfolding(dart_tree::specs::View::primary))]
fn bare_super(word: Place) -> Primary
    ensures { view.primary result ≡ t.bare_super word }
{
    Primary::BareSuper(word)
}

// An expression of one token.
#[tactic(auto, unfolding(dart_tree::specs::Depth::primary_height))]
fn atom(
    alloc: Global,
    cursor: &mut Cursor<'_>,
    depth: usize,
) -> Result<(OpenPrimary, usize), ReadFault>
    ensures { GivesHigh open_primary open_primary_height depth (an_atom cursor.old) result cursor.new }
{
    let atom = cursor.atom(alloc)?;
    Ok(((atomic(atom), None), 0))
}

// A type with at most so many nodes above one another.
fn class(
    alloc: Global,
    cursor: &mut Cursor<'_>,
    depth: usize,
) -> Result<(TypeNode, usize), ReadFault>
    ensures { GivesHigh view.type_node height.type_height depth ((exprs_at depth).type cursor.old) result cursor.new }
{
    type_node(alloc, cursor, depth)
}

// Strings as a primary.
#[inline(never)]
#[tactic(auto, unfolding(dart_tree::specs::Depth::primary_height))]
fn text<
    E: Fn(Global, &mut Cursor<'_>, usize, bool) -> Result<(OpenExpr, usize), ReadFault>,
    P: Fn(Global, &mut Cursor<'_>, usize) -> Result<(Parameters, usize), ReadFault>,
    B: Fn(Global, &mut Cursor<'_>, usize) -> Result<(Block, usize), ReadFault>,
>(
    nest: &Inside<E, P, B>,
    cursor: &mut Cursor<'_>,
    depth: usize,
) -> Result<(OpenPrimary, usize), ReadFault>
    requires nests { NestsExpr nest.now.limit (E.pre nest.now.expr) (E.post nest.now.expr) }
    requires within { depth ≤ nest.now.limit }
    ensures { GivesHigh open_primary open_primary_height depth (a_text depth cursor.old) result cursor.new }
{
    let (pieces, height) = strings(nest, cursor, depth)?;
    Ok(((make::text(pieces), None), height))
}

// `super` with a selector, or alone.
#[tactic(auto, unfolding(dart_tree::specs::Depth::primary_height))]
fn super_primary<
    E: Fn(Global, &mut Cursor<'_>, usize, bool) -> Result<(OpenExpr, usize), ReadFault>,
    P: Fn(Global, &mut Cursor<'_>, usize) -> Result<(Parameters, usize), ReadFault>,
    B: Fn(Global, &mut Cursor<'_>, usize) -> Result<(Block, usize), ReadFault>,
>(
    nest: &Inside<E, P, B>,
    cursor: &mut Cursor<'_>,
    depth: usize,
) -> Result<(Primary, usize), ReadFault>
    requires nests { NestsExpr nest.now.limit (E.pre nest.now.expr) (E.post nest.now.expr) }
    requires within { depth ≤ nest.now.limit }
    ensures { GivesBare depth (a_super depth cursor.old) result cursor.new }
{
    let word = cursor.expect_word(Word::Super)?;
    if !sees_selector(cursor) {
        return Ok((bare_super(word), 1));
    }
    let (selector, height) = selector(nest, cursor, depth)?;
    Ok((make::super_access(nest.alloc, word, selector)?, height))
}

// The same, behind which no half of an operator is left.
#[inline(never)]
fn open_super<
    E: Fn(Global, &mut Cursor<'_>, usize, bool) -> Result<(OpenExpr, usize), ReadFault>,
    P: Fn(Global, &mut Cursor<'_>, usize) -> Result<(Parameters, usize), ReadFault>,
    B: Fn(Global, &mut Cursor<'_>, usize) -> Result<(Block, usize), ReadFault>,
>(
    nest: &Inside<E, P, B>,
    cursor: &mut Cursor<'_>,
    depth: usize,
) -> Result<(OpenPrimary, usize), ReadFault>
    requires nests { NestsExpr nest.now.limit (E.pre nest.now.expr) (E.post nest.now.expr) }
    requires within { depth ≤ nest.now.limit }
    ensures { GivesPrimary depth (shut (spec.super (exprs_at depth)) cursor.old) result cursor.new }
{
    let (primary, height) = super_primary(nest, cursor, depth)?;
    Ok(((primary, None), height))
}

// The creation of an object.
#[tactic(auto, unfolding(syntax_readers::specs::Primaries::object, dart_tree::specs::Depth::primary_height))]
fn object<
    E: Fn(Global, &mut Cursor<'_>, usize, bool) -> Result<(OpenExpr, usize), ReadFault>,
    P: Fn(Global, &mut Cursor<'_>, usize) -> Result<(Parameters, usize), ReadFault>,
    B: Fn(Global, &mut Cursor<'_>, usize) -> Result<(Block, usize), ReadFault>,
>(
    nest: &Inside<E, P, B>,
    cursor: &mut Cursor<'_>,
    depth: usize,
) -> Result<(Primary, usize), ReadFault>
    requires nests { NestsExpr nest.now.limit (E.pre nest.now.expr) (E.post nest.now.expr) }
    requires within { depth ≤ nest.now.limit }
    ensures { GivesHigh view.primary height.primary_height depth (spec.object (exprs_at depth) cursor.old) result cursor.new }
{
    let creation = cursor.creation()?;
    let (class, of_class) = class(nest.alloc, cursor, depth)?;
    let constructor = cursor.maybe_dot_name(nest.alloc)?;
    let (given, of_given) = arguments(nest, cursor, depth)?;
    Ok((
        make::new_object(nest.alloc, creation, class, constructor, given)?,
        of_class.max(of_given),
    ))
}

// The same, behind which no half of an operator is left.
#[inline(never)]
fn closed_object<
    E: Fn(Global, &mut Cursor<'_>, usize, bool) -> Result<(OpenExpr, usize), ReadFault>,
    P: Fn(Global, &mut Cursor<'_>, usize) -> Result<(Parameters, usize), ReadFault>,
    B: Fn(Global, &mut Cursor<'_>, usize) -> Result<(Block, usize), ReadFault>,
>(
    nest: &Inside<E, P, B>,
    cursor: &mut Cursor<'_>,
    depth: usize,
) -> Result<(OpenPrimary, usize), ReadFault>
    requires nests { NestsExpr nest.now.limit (E.pre nest.now.expr) (E.post nest.now.expr) }
    requires within { depth ≤ nest.now.limit }
    ensures { GivesHigh open_primary open_primary_height depth (an_object depth cursor.old) result cursor.new }
{
    let (primary, height) = object(nest, cursor, depth)?;
    Ok(((primary, None), height))
}

// A list or map literal, behind which no half of an operator is left.
#[inline(never)]
fn closed_collection<
    E: Fn(Global, &mut Cursor<'_>, usize, bool) -> Result<(OpenExpr, usize), ReadFault>,
    P: Fn(Global, &mut Cursor<'_>, usize) -> Result<(Parameters, usize), ReadFault>,
    B: Fn(Global, &mut Cursor<'_>, usize) -> Result<(Block, usize), ReadFault>,
>(
    nest: &Inside<E, P, B>,
    cursor: &mut Cursor<'_>,
    depth: usize,
) -> Result<(OpenPrimary, usize), ReadFault>
    requires nests { NestsExpr nest.now.limit (E.pre nest.now.expr) (E.post nest.now.expr) }
    requires within { depth ≤ nest.now.limit }
    ensures { GivesHigh open_primary open_primary_height depth (a_collection depth cursor.old) result cursor.new }
{
    let (primary, height) = collection(nest, cursor, depth)?;
    Ok(((primary, None), height))
}

// A primary that begins with no atom, string or `super`.
#[inline(never)]
fn other_primary<
    E: Fn(Global, &mut Cursor<'_>, usize, bool) -> Result<(OpenExpr, usize), ReadFault>,
    P: Fn(Global, &mut Cursor<'_>, usize) -> Result<(Parameters, usize), ReadFault>,
    B: Fn(Global, &mut Cursor<'_>, usize) -> Result<(Block, usize), ReadFault>,
>(
    nest: &Inside<E, P, B>,
    cursor: &mut Cursor<'_>,
    depth: usize,
) -> Result<(OpenPrimary, usize), ReadFault>
    requires nests { NestsExpr nest.now.limit (E.pre nest.now.expr) (E.post nest.now.expr) }
    requires parameters { NestsParameters nest.now.limit (P.pre nest.now.parameters) (P.post nest.now.parameters) }
    requires blocks { NestsBlock nest.now.limit (B.pre nest.now.block) (B.post nest.now.block) }
    requires within { depth ≤ nest.now.limit }
    ensures { GivesHigh open_primary open_primary_height depth (other_primary depth cursor.old) result cursor.new }
{
    if cursor.sees_creation() {
        return closed_object(nest, cursor, depth);
    }
    if cursor.sees(Sign::LeftParenthesis) {
        return parenthesis(nest, cursor, depth);
    }
    closed_collection(nest, cursor, depth)
}

/// Reads a primary, with the half of an operator that a function literal may have behind it (ECMA-408, 16 Expressions).
#[tactic(auto, unfolding(syntax_readers::specs::Primaries::primary))]
pub fn primary<
    E: Fn(Global, &mut Cursor<'_>, usize, bool) -> Result<(OpenExpr, usize), ReadFault>,
    P: Fn(Global, &mut Cursor<'_>, usize) -> Result<(Parameters, usize), ReadFault>,
    B: Fn(Global, &mut Cursor<'_>, usize) -> Result<(Block, usize), ReadFault>,
>(
    nest: &Inside<E, P, B>,
    cursor: &mut Cursor<'_>,
    depth: usize,
) -> Result<(OpenPrimary, usize), ReadFault>
    requires nests { NestsExpr nest.now.limit (E.pre nest.now.expr) (E.post nest.now.expr) }
    requires parameters { NestsParameters nest.now.limit (P.pre nest.now.parameters) (P.post nest.now.parameters) }
    requires blocks { NestsBlock nest.now.limit (B.pre nest.now.block) (B.post nest.now.block) }
    requires within { depth ≤ nest.now.limit }
    ensures { GivesPrimary depth (spec.primary (exprs_at depth) cursor.old) result cursor.new }
{
    if cursor.sees_atom() {
        return atom(nest.alloc, cursor, depth);
    }
    if sees_string(cursor) {
        return text(nest, cursor, depth);
    }
    if cursor.sees_word(Word::Super) {
        return open_super(nest, cursor, depth);
    }
    other_primary(nest, cursor, depth)
}
