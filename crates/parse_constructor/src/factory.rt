// Factories (ECMA-408, 10.6.2 Factories).
ghost use Rattle.std.specs.Prelude.{◌≤◌, ◌<◌, ◌+◌};
ghost use Rattle.dart_tree.specs.Depth as height;
ghost use Rattle.dart_tree.specs.UnitView as unit_view;
ghost use Rattle.dart_tree.specs.View as view;
ghost use Rattle.parse_nest.specs.Nests.{NestsExpr, NestsParameters, NestsBlock};
ghost use Rattle.parse_nest.specs.Stages.{exprs_at};
ghost use Rattle.syntax_readers.specs.Declarations as spec;
ghost use Rattle.token_cursor.specs.Gives.{GivesHigh};

use dart_token::sign::Sign;
use dart_token::word::Word;
use dart_tree::declaration::Constructor;
use dart_tree::parameter::Parameters;
use dart_tree::statement::Block;
use dart_tree::types::TypeNode;
use parse_head::name::{constructor_name, external_or_none};
use parse_nest::inside::{Inside, OpenExpr};
use parse_parameter::body::body;
use parse_type::types::type_node;
use std::alloc::Global;
use token_cursor::cursor::Cursor;
use token_cursor::error::ReadFault;

/// Reads a factory (ECMA-408, 10.6.2 Factories).
#[tactic(auto, unfolding(syntax_readers::specs::Declarations::factory))]
pub fn factory<
    E: Fn(Global, &mut Cursor<'_>, usize, bool) -> Result<(OpenExpr, usize), ReadFault>,
    P: Fn(Global, &mut Cursor<'_>, usize) -> Result<(Parameters, usize), ReadFault>,
    B: Fn(Global, &mut Cursor<'_>, usize) -> Result<(Block, usize), ReadFault>,
>(
    nest: &Inside<E, P, B>,
    cursor: &mut Cursor<'_>,
    depth: usize,
    class: &[u8],
) -> Result<(Constructor, usize), ReadFault>
    requires nests { NestsExpr nest.now.limit (E.pre nest.now.expr) (E.post nest.now.expr) }
    requires parameters { NestsParameters nest.now.limit (P.pre nest.now.parameters) (P.post nest.now.parameters) }
    requires blocks { NestsBlock nest.now.limit (B.pre nest.now.block) (B.post nest.now.block) }
    requires within { depth ≤ nest.now.limit }
    requires room { depth + 1 < 18446744073709551616 }
    ensures { GivesHigh unit_view.constructor height.constructor_height (depth + 1)
        (spec.factory (exprs_at depth) class.now cursor.old) result cursor.new }
{
    let external = external_or_none(cursor)?;
    let word = cursor.expect_word(Word::Factory)?;
    let name = constructor_name(nest.alloc, cursor, class)?;
    let (parameters, tall) = nest.parameters(cursor, depth)?;
    let (body, height) = body(nest, cursor, depth)?;
    let found = Constructor::Factory {
        external,
        word,
        name,
        parameters,
        body,
    };
    Ok((found, tall.max(height) + 1))
}

// The type of what a factory redirects to.
fn target_type(
    alloc: Global,
    cursor: &mut Cursor<'_>,
    depth: usize,
) -> Result<(TypeNode, usize), ReadFault>
    ensures { GivesHigh view.type_node height.type_height depth ((exprs_at depth).type cursor.old) result cursor.new }
{
    type_node(alloc, cursor, depth)
}

/// Reads a redirecting factory (ECMA-408, 10.6.2, Redirecting Factory Constructors).
#[tactic(auto, unfolding(syntax_readers::specs::Declarations::redirecting_factory))]
pub fn redirecting_factory<
    E: Fn(Global, &mut Cursor<'_>, usize, bool) -> Result<(OpenExpr, usize), ReadFault>,
    P: Fn(Global, &mut Cursor<'_>, usize) -> Result<(Parameters, usize), ReadFault>,
    B: Fn(Global, &mut Cursor<'_>, usize) -> Result<(Block, usize), ReadFault>,
>(
    nest: &Inside<E, P, B>,
    cursor: &mut Cursor<'_>,
    depth: usize,
    class: &[u8],
) -> Result<(Constructor, usize), ReadFault>
    requires parameters { NestsParameters nest.now.limit (P.pre nest.now.parameters) (P.post nest.now.parameters) }
    requires within { depth ≤ nest.now.limit }
    requires room { depth + 1 < 18446744073709551616 }
    ensures { GivesHigh unit_view.constructor height.constructor_height (depth + 1)
        (spec.redirecting_factory (exprs_at depth) class.now cursor.old) result cursor.new }
{
    let external = external_or_none(cursor)?;
    let word = cursor.expect_word(Word::Factory)?;
    let name = constructor_name(nest.alloc, cursor, class)?;
    let (parameters, tall) = nest.parameters(cursor, depth)?;
    let equals = cursor.expect(Sign::Assign)?;
    let (target, height) = target_type(nest.alloc, cursor, depth)?;
    let constructor = cursor.maybe_dot_name(nest.alloc)?;
    let semicolon = cursor.expect(Sign::Semicolon)?;
    let found = Constructor::RedirectingFactory {
        external,
        word,
        name,
        parameters,
        equals,
        class: target,
        constructor,
        semicolon,
    };
    Ok((found, tall.max(height) + 1))
}
