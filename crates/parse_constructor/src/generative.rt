// Generative, constant and redirecting constructors (ECMA-408, 10.6.1 Generative Constructors and 10.6.3 Constant
// Constructors).
ghost use Rattle.std.specs.Prelude.{◌≤◌, ◌<◌, ◌+◌};
ghost use Rattle.dart_tree.specs.Depth as height;
ghost use Rattle.dart_tree.specs.UnitView as view;
ghost use Rattle.parse_constructor.specs.Views.{generative_parts};
ghost use Rattle.parse_nest.specs.Nests.{NestsExpr, NestsParameters, NestsBlock};
ghost use Rattle.parse_nest.specs.Stages.{exprs_at};
ghost use Rattle.syntax_readers.specs.Declarations as spec;
ghost use Rattle.token_cursor.specs.Gives.{GivesHigh};

use crate::initializer::maybe_initializers;
use crate::rest::rest;
use dart_token::sign::Sign;
use dart_token::word::Word;
use dart_tree::declaration::Constructor;
use dart_tree::parameter::Parameters;
use dart_tree::statement::{Block, Body};
use parse_head::name::constructor_name;
use parse_nest::inside::{Inside, OpenExpr};
use parse_primary::arguments::arguments;
use std::alloc::Global;
use token_cursor::cursor::Cursor;
use token_cursor::error::ReadFault;

// A generative constructor, by the parts of its reader.
#[tactic(auto, unfolding(syntax_readers::specs::Declarations::generative_with))]
fn name_first<
    E: Fn(Global, &mut Cursor<'_>, usize, bool) -> Result<(OpenExpr, usize), ReadFault>,
    P: Fn(Global, &mut Cursor<'_>, usize) -> Result<(Parameters, usize), ReadFault>,
    B: Fn(Global, &mut Cursor<'_>, usize) -> Result<(Block, usize), ReadFault>,
>(
    nest: &Inside<E, P, B>,
    cursor: &mut Cursor<'_>,
    depth: usize,
    class: &[u8],
) -> Result<(Constructor, usize), ReadFault>
    requires nests { NestsExpr nest.now.limit (E.pre nest.now.expr) (E.post nest.now.expr) }
    requires parameters { NestsParameters nest.now.limit (P.pre nest.now.parameters) (P.post nest.now.parameters) }
    requires blocks { NestsBlock nest.now.limit (B.pre nest.now.block) (B.post nest.now.block) }
    requires within { depth ≤ nest.now.limit }
    requires room { depth + 1 < 18446744073709551616 }
    ensures { GivesHigh view.constructor height.constructor_height (depth + 1)
        (generative_parts depth class.now cursor.old) result cursor.new }
{
    let name = constructor_name(nest.alloc, cursor, class)?;
    let (parameters, tall) = nest.parameters(cursor, depth)?;
    let ((initializers, body), height) = rest(nest, cursor, depth)?;
    let found = Constructor::Generative {
        constant: None,
        name,
        parameters,
        initializers,
        body,
    };
    Ok((found, tall.max(height) + 1))
}

/// Reads a generative constructor (ECMA-408, 10.6.1 Generative Constructors).
pub fn generative<
    E: Fn(Global, &mut Cursor<'_>, usize, bool) -> Result<(OpenExpr, usize), ReadFault>,
    P: Fn(Global, &mut Cursor<'_>, usize) -> Result<(Parameters, usize), ReadFault>,
    B: Fn(Global, &mut Cursor<'_>, usize) -> Result<(Block, usize), ReadFault>,
>(
    nest: &Inside<E, P, B>,
    cursor: &mut Cursor<'_>,
    depth: usize,
    class: &[u8],
) -> Result<(Constructor, usize), ReadFault>
    requires nests { NestsExpr nest.now.limit (E.pre nest.now.expr) (E.post nest.now.expr) }
    requires parameters { NestsParameters nest.now.limit (P.pre nest.now.parameters) (P.post nest.now.parameters) }
    requires blocks { NestsBlock nest.now.limit (B.pre nest.now.block) (B.post nest.now.block) }
    requires within { depth ≤ nest.now.limit }
    requires room { depth + 1 < 18446744073709551616 }
    ensures { GivesHigh view.constructor height.constructor_height (depth + 1)
        (spec.generative (exprs_at depth) (spec.init depth) class.now cursor.old) result cursor.new }
{
    name_first(nest, cursor, depth, class)
}

/// Reads a constant constructor (ECMA-408, 10.6.3 Constant Constructors).
#[tactic(auto, unfolding(syntax_readers::specs::Declarations::constant, dart_tree::specs::Depth::body_height, dart_tree::specs::View::body))]
pub fn constant<
    E: Fn(Global, &mut Cursor<'_>, usize, bool) -> Result<(OpenExpr, usize), ReadFault>,
    P: Fn(Global, &mut Cursor<'_>, usize) -> Result<(Parameters, usize), ReadFault>,
    B: Fn(Global, &mut Cursor<'_>, usize) -> Result<(Block, usize), ReadFault>,
>(
    nest: &Inside<E, P, B>,
    cursor: &mut Cursor<'_>,
    depth: usize,
    class: &[u8],
) -> Result<(Constructor, usize), ReadFault>
    requires nests { NestsExpr nest.now.limit (E.pre nest.now.expr) (E.post nest.now.expr) }
    requires parameters { NestsParameters nest.now.limit (P.pre nest.now.parameters) (P.post nest.now.parameters) }
    requires blocks { NestsBlock nest.now.limit (B.pre nest.now.block) (B.post nest.now.block) }
    requires within { depth ≤ nest.now.limit }
    requires room { depth + 1 < 18446744073709551616 }
    ensures { GivesHigh view.constructor height.constructor_height (depth + 1)
        (spec.constant (exprs_at depth) (spec.init depth) class.now cursor.old) result cursor.new }
{
    let word = cursor.expect_word(Word::Const)?;
    let name = constructor_name(nest.alloc, cursor, class)?;
    let (parameters, tall) = nest.parameters(cursor, depth)?;
    let (initializers, height) = maybe_initializers(nest, cursor, depth)?;
    let semicolon = cursor.expect(Sign::Semicolon)?;
    let found = Constructor::Generative {
        constant: Some(word),
        name,
        parameters,
        initializers,
        body: Body::Omitted(semicolon),
    };
    Ok((found, tall.max(height) + 1))
}

/// Reads a redirecting constructor (ECMA-408, 10.6.1, Redirecting Constructors).
#[tactic(auto, unfolding(syntax_readers::specs::Declarations::redirecting))]
pub fn redirecting<
    E: Fn(Global, &mut Cursor<'_>, usize, bool) -> Result<(OpenExpr, usize), ReadFault>,
    P: Fn(Global, &mut Cursor<'_>, usize) -> Result<(Parameters, usize), ReadFault>,
    B: Fn(Global, &mut Cursor<'_>, usize) -> Result<(Block, usize), ReadFault>,
>(
    nest: &Inside<E, P, B>,
    cursor: &mut Cursor<'_>,
    depth: usize,
    class: &[u8],
) -> Result<(Constructor, usize), ReadFault>
    requires nests { NestsExpr nest.now.limit (E.pre nest.now.expr) (E.post nest.now.expr) }
    requires parameters { NestsParameters nest.now.limit (P.pre nest.now.parameters) (P.post nest.now.parameters) }
    requires within { depth ≤ nest.now.limit }
    requires room { depth + 1 < 18446744073709551616 }
    ensures { GivesHigh view.constructor height.constructor_height (depth + 1)
        (spec.redirecting (exprs_at depth) class.now cursor.old) result cursor.new }
{
    let name = constructor_name(nest.alloc, cursor, class)?;
    let (parameters, tall) = nest.parameters(cursor, depth)?;
    let colon = cursor.expect(Sign::Colon)?;
    let this = cursor.expect_word(Word::This)?;
    let constructor = cursor.maybe_dot_name(nest.alloc)?;
    let (arguments, height) = arguments(nest, cursor, depth)?;
    let semicolon = cursor.expect(Sign::Semicolon)?;
    let found = Constructor::Redirecting {
        name,
        parameters,
        colon,
        this,
        constructor,
        arguments,
        semicolon,
    };
    Ok((found, tall.max(height) + 1))
}
