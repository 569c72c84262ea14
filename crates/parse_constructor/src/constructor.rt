// Constructors (ECMA-408, 10.6 Constructors).
ghost use Rattle.std.specs.Prelude.{◌≡◌, ◌≤◌, ◌<◌, ◌+◌};
ghost use Rattle.dart_tree.specs.Depth as height;
ghost use Rattle.dart_tree.specs.UnitView as view;
ghost use Rattle.grammar_laws.specs.Readers.{starts, tried};
ghost use Rattle.parse_constructor.specs.Views.{factory_first};
ghost use Rattle.parse_nest.specs.Nests.{NestsExpr, NestsParameters, NestsBlock};
ghost use Rattle.parse_nest.specs.Stages.{exprs_at};
ghost use Rattle.syntax_readers.specs.Declarations as spec;
ghost use Rattle.token_codes.specs.Codes.{class_of};
ghost use Rattle.token_cursor.specs.Gives.{GivesHigh};

use crate::factory::{factory, redirecting_factory};
use crate::generative::{constant, generative, redirecting};
use dart_token::word::Word;
use dart_tree::declaration::Constructor;
use dart_tree::parameter::Parameters;
use dart_tree::statement::Block;
use parse_nest::inside::{Inside, OpenExpr};
use parse_parameter::look::settle;
use std::alloc::Global;
use token_cursor::cursor::Cursor;
use token_cursor::error::ReadFault;

// Whether a factory comes, if it is one.
fn sees_factory(cursor: &Cursor<'_>) -> bool
    ensures { result ≡ starts class_of factory_first cursor.now }
{
    cursor.sees_word(Word::External) || cursor.sees_word(Word::Factory)
}

// A factory, or else a redirecting one.
fn any_factory<
    E: Fn(Global, &mut Cursor<'_>, usize, bool) -> Result<(OpenExpr, usize), ReadFault>,
    P: Fn(Global, &mut Cursor<'_>, usize) -> Result<(Parameters, usize), ReadFault>,
    B: Fn(Global, &mut Cursor<'_>, usize) -> Result<(Block, usize), ReadFault>,
>(
    nest: &Inside<E, P, B>,
    cursor: &mut Cursor<'_>,
    depth: usize,
    class: &[u8],
) -> Result<(Constructor, usize), ReadFault>
    requires nests { NestsExpr nest.now.limit (E.pre nest.now.expr) (E.post nest.now.expr) }
    requires parameters { NestsParameters nest.now.limit (P.pre nest.now.parameters) (P.post nest.now.parameters) }
    requires blocks { NestsBlock nest.now.limit (B.pre nest.now.block) (B.post nest.now.block) }
    requires within { depth ≤ nest.now.limit }
    requires room { depth + 1 < 18446744073709551616 }
    ensures { GivesHigh view.constructor height.constructor_height (depth + 1)
        (tried (spec.factory (exprs_at depth) class.now)
        (spec.redirecting_factory (exprs_at depth) class.now) cursor.old) result cursor.new }
{
    let mut second = cursor.fork();
    match factory(nest, cursor, depth, class) {
        Ok(found) => Ok(found),
        Err(ReadFault::Memory) => Err(ReadFault::Memory),
        Err(ReadFault::Stuck) => {
            let found = redirecting_factory(nest, &mut second, depth, class);
            settle(cursor, &second, found.is_ok());
            found
        }
    }
}

// A generative constructor, or else a redirecting one.
fn any_generative<
    E: Fn(Global, &mut Cursor<'_>, usize, bool) -> Result<(OpenExpr, usize), ReadFault>,
    P: Fn(Global, &mut Cursor<'_>, usize) -> Result<(Parameters, usize), ReadFault>,
    B: Fn(Global, &mut Cursor<'_>, usize) -> Result<(Block, usize), ReadFault>,
>(
    nest: &Inside<E, P, B>,
    cursor: &mut Cursor<'_>,
    depth: usize,
    class: &[u8],
) -> Result<(Constructor, usize), ReadFault>
    requires nests { NestsExpr nest.now.limit (E.pre nest.now.expr) (E.post nest.now.expr) }
    requires parameters { NestsParameters nest.now.limit (P.pre nest.now.parameters) (P.post nest.now.parameters) }
    requires blocks { NestsBlock nest.now.limit (B.pre nest.now.block) (B.post nest.now.block) }
    requires within { depth ≤ nest.now.limit }
    requires room { depth + 1 < 18446744073709551616 }
    ensures { GivesHigh view.constructor height.constructor_height (depth + 1)
        (tried (spec.generative (exprs_at depth) (spec.init depth) class.now)
        (spec.redirecting (exprs_at depth) class.now) cursor.old) result cursor.new }
{
    let mut second = cursor.fork();
    match generative(nest, cursor, depth, class) {
        Ok(found) => Ok(found),
        Err(ReadFault::Memory) => Err(ReadFault::Memory),
        Err(ReadFault::Stuck) => {
            let found = redirecting(nest, &mut second, depth, class);
            settle(cursor, &second, found.is_ok());
            found
        }
    }
}

/// Reads a constructor of this class whose parts have at most so many nodes above one another (ECMA-408, 10.6
/// Constructors).
#[tactic(auto, unfolding(syntax_readers::specs::Declarations::constructor_over))]
pub fn constructor_over<
    E: Fn(Global, &mut Cursor<'_>, usize, bool) -> Result<(OpenExpr, usize), ReadFault>,
    P: Fn(Global, &mut Cursor<'_>, usize) -> Result<(Parameters, usize), ReadFault>,
    B: Fn(Global, &mut Cursor<'_>, usize) -> Result<(Block, usize), ReadFault>,
>(
    nest: &Inside<E, P, B>,
    cursor: &mut Cursor<'_>,
    depth: usize,
    class: &[u8],
) -> Result<(Constructor, usize), ReadFault>
    requires nests { NestsExpr nest.now.limit (E.pre nest.now.expr) (E.post nest.now.expr) }
    requires parameters { NestsParameters nest.now.limit (P.pre nest.now.parameters) (P.post nest.now.parameters) }
    requires blocks { NestsBlock nest.now.limit (B.pre nest.now.block) (B.post nest.now.block) }
    requires within { depth ≤ nest.now.limit }
    requires room { depth + 1 < 18446744073709551616 }
    ensures { GivesHigh view.constructor height.constructor_height (depth + 1)
        (spec.constructor_over (exprs_at depth) (spec.init depth) class.now cursor.old) result cursor.new }
{
    if sees_factory(cursor) {
        return any_factory(nest, cursor, depth, class);
    }
    if cursor.sees_word(Word::Const) {
        return constant(nest, cursor, depth, class);
    }
    any_generative(nest, cursor, depth, class)
}

/// Reads a constructor of this class, which is a node (ECMA-408, 10.6 Constructors).
pub fn constructor<
    E: Fn(Global, &mut Cursor<'_>, usize, bool) -> Result<(OpenExpr, usize), ReadFault>,
    P: Fn(Global, &mut Cursor<'_>, usize) -> Result<(Parameters, usize), ReadFault>,
    B: Fn(Global, &mut Cursor<'_>, usize) -> Result<(Block, usize), ReadFault>,
>(
    nest: &Inside<E, P, B>,
    cursor: &mut Cursor<'_>,
    depth: usize,
    class: &[u8],
) -> Result<(Constructor, usize), ReadFault>
    requires nests { NestsExpr nest.now.limit (E.pre nest.now.expr) (E.post nest.now.expr) }
    requires parameters { NestsParameters nest.now.limit (P.pre nest.now.parameters) (P.post nest.now.parameters) }
    requires blocks { NestsBlock nest.now.limit (B.pre nest.now.block) (B.post nest.now.block) }
    requires within { depth ≤ nest.now.limit }
    ensures { GivesHigh view.constructor height.constructor_height depth
        (spec.constructor class.now depth cursor.old) result cursor.new }
{
    if depth == 0 {
        return Err(ReadFault::Stuck);
    }
    constructor_over(nest, cursor, depth - 1, class)
}
