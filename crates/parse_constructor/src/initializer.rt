// Initialisers (ECMA-408, 10.6.1, Initializer Lists).
ghost use Rattle.std.specs.Prelude.{◌≤◌, ◌<◌, ◌+◌};
ghost use Rattle.dart_token.specs.declared.sign.Sign.TheVariants as s;
ghost use Rattle.dart_tree.specs.Depth as height;
ghost use Rattle.dart_tree.specs.UnitView as view;
ghost use Rattle.grammar_laws.specs.Readers.{option};
ghost use Rattle.parse_constructor.specs.Views.{cascaded_of, cascaded_height, cascaded_at, super_reader, field_reader, init_height, comma_init_of, comma_init_height, inits_of, inits_height, init_list, initializers_parts, maybe_height};
ghost use Rattle.parse_nest.specs.Nests.{NestsExpr, NestsParameters, NestsBlock};
ghost use Rattle.parse_nest.specs.Stages.{exprs_at};
ghost use Rattle.syntax_readers.specs.Combinators.{◌~◌};
ghost use Rattle.syntax_readers.specs.Declarations as spec;
ghost use Rattle.syntax_readers.specs.Statements.{stage};
ghost use Rattle.token_codes.specs.Codes.{class_of, these};
ghost use Rattle.token_codes.specs.Leaves.{sign};
ghost use Rattle.token_cursor.specs.Gives.{GivesHigh};

use dart_base::place::Place;
use dart_token::sign::Sign;
use dart_token::word::Word;
use dart_tree::declaration::{Init, InitKind, Initializers};
use dart_tree::expression::{Cascade, Operand};
use dart_tree::parameter::Parameters;
use dart_tree::statement::Block;
use parse_expr::expr::cascaded_over;
use parse_nest::inside::{Inside, OpenExpr};
use parse_primary::arguments::arguments;
use std::alloc::Global;
use token_cursor::cursor::Cursor;
use token_cursor::error::ReadFault;

/// An operand, and the cascades behind it.
pub type Cascaded = (Operand, Vec<Cascade>);

// An operand with cascades behind it, and with no half of an operator.
fn cascaded<
    E: Fn(Global, &mut Cursor<'_>, usize, bool) -> Result<(OpenExpr, usize), ReadFault>,
    P: Fn(Global, &mut Cursor<'_>, usize) -> Result<(Parameters, usize), ReadFault>,
    B: Fn(Global, &mut Cursor<'_>, usize) -> Result<(Block, usize), ReadFault>,
>(
    nest: &Inside<E, P, B>,
    cursor: &mut Cursor<'_>,
    depth: usize,
) -> Result<(Cascaded, usize), ReadFault>
    requires nests { NestsExpr nest.now.limit (E.pre nest.now.expr) (E.post nest.now.expr) }
    requires parameters { NestsParameters nest.now.limit (P.pre nest.now.parameters) (P.post nest.now.parameters) }
    requires blocks { NestsBlock nest.now.limit (B.pre nest.now.block) (B.post nest.now.block) }
    requires within { depth ≤ nest.now.limit }
    ensures { GivesHigh cascaded_of cascaded_height depth (cascaded_at depth cursor.old) result cursor.new }
{
    let ((found, half), height) = cascaded_over(nest, cursor, depth)?;
    if half.is_some() {
        drop(found);
        return Err(ReadFault::Stuck);
    }
    Ok((found, height))
}

// The call of a constructor of the superclass.
fn super_call<
    E: Fn(Global, &mut Cursor<'_>, usize, bool) -> Result<(OpenExpr, usize), ReadFault>,
    P: Fn(Global, &mut Cursor<'_>, usize) -> Result<(Parameters, usize), ReadFault>,
    B: Fn(Global, &mut Cursor<'_>, usize) -> Result<(Block, usize), ReadFault>,
>(
    nest: &Inside<E, P, B>,
    cursor: &mut Cursor<'_>,
    depth: usize,
) -> Result<(InitKind, usize), ReadFault>
    requires nests { NestsExpr nest.now.limit (E.pre nest.now.expr) (E.post nest.now.expr) }
    requires within { depth ≤ nest.now.limit }
    requires room { depth + 1 < 18446744073709551616 }
    ensures { GivesHigh view.init_kind init_height (depth + 1)
        (super_reader (exprs_at depth).arguments cursor.old) result cursor.new }
{
    let word = cursor.expect_word(Word::Super)?;
    let constructor = cursor.maybe_dot_name(nest.alloc)?;
    let (arguments, height) = arguments(nest, cursor, depth)?;
    let found = InitKind::Super {
        word,
        constructor,
        arguments,
    };
    Ok((found, height + 1))
}

// What a field begins with.
fn field<
    E: Fn(Global, &mut Cursor<'_>, usize, bool) -> Result<(OpenExpr, usize), ReadFault>,
    P: Fn(Global, &mut Cursor<'_>, usize) -> Result<(Parameters, usize), ReadFault>,
    B: Fn(Global, &mut Cursor<'_>, usize) -> Result<(Block, usize), ReadFault>,
>(
    nest: &Inside<E, P, B>,
    cursor: &mut Cursor<'_>,
    depth: usize,
) -> Result<(InitKind, usize), ReadFault>
    requires nests { NestsExpr nest.now.limit (E.pre nest.now.expr) (E.post nest.now.expr) }
    requires parameters { NestsParameters nest.now.limit (P.pre nest.now.parameters) (P.post nest.now.parameters) }
    requires blocks { NestsBlock nest.now.limit (B.pre nest.now.block) (B.post nest.now.block) }
    requires within { depth ≤ nest.now.limit }
    requires room { depth + 1 < 18446744073709551616 }
    ensures { GivesHigh view.init_kind init_height (depth + 1)
        (field_reader (cascaded_at depth) cursor.old) result cursor.new }
{
    let this_dot = cursor.maybe_this_dot()?;
    let name = cursor.identifier(nest.alloc)?;
    let equals = cursor.expect(Sign::Assign)?;
    let ((operand, cascades), height) = cascaded(nest, cursor, depth)?;
    let found = InitKind::Field {
        this_dot,
        name,
        equals,
        operand,
        cascades,
    };
    Ok((found, height + 1))
}

// An initialiser with room for what stands in it.
#[tactic(auto, unfolding(syntax_readers::specs::Declarations::init_over))]
fn init_over<
    E: Fn(Global, &mut Cursor<'_>, usize, bool) -> Result<(OpenExpr, usize), ReadFault>,
    P: Fn(Global, &mut Cursor<'_>, usize) -> Result<(Parameters, usize), ReadFault>,
    B: Fn(Global, &mut Cursor<'_>, usize) -> Result<(Block, usize), ReadFault>,
>(
    nest: &Inside<E, P, B>,
    cursor: &mut Cursor<'_>,
    depth: usize,
) -> Result<(InitKind, usize), ReadFault>
    requires nests { NestsExpr nest.now.limit (E.pre nest.now.expr) (E.post nest.now.expr) }
    requires parameters { NestsParameters nest.now.limit (P.pre nest.now.parameters) (P.post nest.now.parameters) }
    requires blocks { NestsBlock nest.now.limit (B.pre nest.now.block) (B.post nest.now.block) }
    requires within { depth ≤ nest.now.limit }
    requires room { depth + 1 < 18446744073709551616 }
    ensures { GivesHigh view.init_kind init_height (depth + 1)
        (spec.init_over (stage depth) cursor.old) result cursor.new }
{
    if cursor.sees_word(Word::Super) {
        return super_call(nest, cursor, depth);
    }
    field(nest, cursor, depth)
}

// An initialiser, which is a node.
fn init<
    E: Fn(Global, &mut Cursor<'_>, usize, bool) -> Result<(OpenExpr, usize), ReadFault>,
    P: Fn(Global, &mut Cursor<'_>, usize) -> Result<(Parameters, usize), ReadFault>,
    B: Fn(Global, &mut Cursor<'_>, usize) -> Result<(Block, usize), ReadFault>,
>(
    nest: &Inside<E, P, B>,
    cursor: &mut Cursor<'_>,
    depth: usize,
) -> Result<(InitKind, usize), ReadFault>
    requires nests { NestsExpr nest.now.limit (E.pre nest.now.expr) (E.post nest.now.expr) }
    requires parameters { NestsParameters nest.now.limit (P.pre nest.now.parameters) (P.post nest.now.parameters) }
    requires blocks { NestsBlock nest.now.limit (B.pre nest.now.block) (B.post nest.now.block) }
    requires within { depth ≤ nest.now.limit }
    ensures { GivesHigh view.init_kind init_height depth (spec.init depth cursor.old) result cursor.new }
{
    if depth == 0 {
        return Err(ReadFault::Stuck);
    }
    init_over(nest, cursor, depth - 1)
}

// The same behind a comma.
fn comma_init<
    E: Fn(Global, &mut Cursor<'_>, usize, bool) -> Result<(OpenExpr, usize), ReadFault>,
    P: Fn(Global, &mut Cursor<'_>, usize) -> Result<(Parameters, usize), ReadFault>,
    B: Fn(Global, &mut Cursor<'_>, usize) -> Result<(Block, usize), ReadFault>,
>(
    nest: &Inside<E, P, B>,
    cursor: &mut Cursor<'_>,
    depth: usize,
) -> Result<((Place, InitKind), usize), ReadFault>
    requires nests { NestsExpr nest.now.limit (E.pre nest.now.expr) (E.post nest.now.expr) }
    requires parameters { NestsParameters nest.now.limit (P.pre nest.now.parameters) (P.post nest.now.parameters) }
    requires blocks { NestsBlock nest.now.limit (B.pre nest.now.block) (B.post nest.now.block) }
    requires within { depth ≤ nest.now.limit }
    ensures { GivesHigh comma_init_of comma_init_height depth
        ((sign s.Comma ~ spec.init depth) cursor.old) result cursor.new }
{
    let comma = cursor.expect(Sign::Comma)?;
    let (found, height) = init(nest, cursor, depth)?;
    Ok(((comma, found), height))
}

// Initialisers with commas between them.
fn inits<
    E: Fn(Global, &mut Cursor<'_>, usize, bool) -> Result<(OpenExpr, usize), ReadFault>,
    P: Fn(Global, &mut Cursor<'_>, usize) -> Result<(Parameters, usize), ReadFault>,
    B: Fn(Global, &mut Cursor<'_>, usize) -> Result<(Block, usize), ReadFault>,
>(
    nest: &Inside<E, P, B>,
    cursor: &mut Cursor<'_>,
    depth: usize,
) -> Result<(Vec<Init>, usize), ReadFault>
    requires nests { NestsExpr nest.now.limit (E.pre nest.now.expr) (E.post nest.now.expr) }
    requires parameters { NestsParameters nest.now.limit (P.pre nest.now.parameters) (P.post nest.now.parameters) }
    requires blocks { NestsBlock nest.now.limit (B.pre nest.now.block) (B.post nest.now.block) }
    requires within { depth ≤ nest.now.limit }
    ensures { GivesHigh inits_of inits_height depth (init_list (spec.init depth) cursor.old) result cursor.new }
{
    let (first, height) = init(nest, cursor, depth)?;
    let mut found = Vec::new(nest.alloc);
    found.push(Init {
        comma: None,
        kind: first,
    })?;
    let mut highest = height;
    for _turn in 0..cursor.left() {
        if !cursor.sees(Sign::Comma) {
            return Ok((found, highest));
        }
        let ((comma, further), height) = comma_init(nest, cursor, depth)?;
        found.push(Init {
            comma: Some(comma),
            kind: further,
        })?;
        highest = highest.max(height);
    }
    Ok((found, highest))
}

// The same behind the colon, by the parts of the reader.
fn behind_colon<
    E: Fn(Global, &mut Cursor<'_>, usize, bool) -> Result<(OpenExpr, usize), ReadFault>,
    P: Fn(Global, &mut Cursor<'_>, usize) -> Result<(Parameters, usize), ReadFault>,
    B: Fn(Global, &mut Cursor<'_>, usize) -> Result<(Block, usize), ReadFault>,
>(
    nest: &Inside<E, P, B>,
    cursor: &mut Cursor<'_>,
    depth: usize,
) -> Result<(Initializers, usize), ReadFault>
    requires nests { NestsExpr nest.now.limit (E.pre nest.now.expr) (E.post nest.now.expr) }
    requires parameters { NestsParameters nest.now.limit (P.pre nest.now.parameters) (P.post nest.now.parameters) }
    requires blocks { NestsBlock nest.now.limit (B.pre nest.now.block) (B.post nest.now.block) }
    requires within { depth ≤ nest.now.limit }
    ensures { GivesHigh view.initializers height.initializers_height depth
        (initializers_parts (spec.init depth) cursor.old) result cursor.new }
{
    let colon = cursor.expect(Sign::Colon)?;
    let (items, height) = inits(nest, cursor, depth)?;
    Ok((Initializers { colon, items }, height))
}

/// Reads the initialisers of a constructor (ECMA-408, 10.6.1, Initializer Lists).
pub fn initializers<
    E: Fn(Global, &mut Cursor<'_>, usize, bool) -> Result<(OpenExpr, usize), ReadFault>,
    P: Fn(Global, &mut Cursor<'_>, usize) -> Result<(Parameters, usize), ReadFault>,
    B: Fn(Global, &mut Cursor<'_>, usize) -> Result<(Block, usize), ReadFault>,
>(
    nest: &Inside<E, P, B>,
    cursor: &mut Cursor<'_>,
    depth: usize,
) -> Result<(Initializers, usize), ReadFault>
    requires nests { NestsExpr nest.now.limit (E.pre nest.now.expr) (E.post nest.now.expr) }
    requires parameters { NestsParameters nest.now.limit (P.pre nest.now.parameters) (P.post nest.now.parameters) }
    requires blocks { NestsBlock nest.now.limit (B.pre nest.now.block) (B.post nest.now.block) }
    requires within { depth ≤ nest.now.limit }
    ensures { GivesHigh view.initializers height.initializers_height depth
        (spec.initializers (spec.init depth) cursor.old) result cursor.new }
{
    behind_colon(nest, cursor, depth)
}

/// Reads the same where a colon comes (ECMA-408, 10.6.1, Initializer Lists).
pub fn maybe_initializers<
    E: Fn(Global, &mut Cursor<'_>, usize, bool) -> Result<(OpenExpr, usize), ReadFault>,
    P: Fn(Global, &mut Cursor<'_>, usize) -> Result<(Parameters, usize), ReadFault>,
    B: Fn(Global, &mut Cursor<'_>, usize) -> Result<(Block, usize), ReadFault>,
>(
    nest: &Inside<E, P, B>,
    cursor: &mut Cursor<'_>,
    depth: usize,
) -> Result<(Option<Initializers>, usize), ReadFault>
    requires nests { NestsExpr nest.now.limit (E.pre nest.now.expr) (E.post nest.now.expr) }
    requires parameters { NestsParameters nest.now.limit (P.pre nest.now.parameters) (P.post nest.now.parameters) }
    requires blocks { NestsBlock nest.now.limit (B.pre nest.now.block) (B.post nest.now.block) }
    requires within { depth ≤ nest.now.limit }
    ensures { GivesHigh (view.maybe view.initializers) maybe_height depth
        (option class_of (these s.Colon) (spec.initializers (spec.init depth)) cursor.old) result cursor.new }
{
    if !cursor.sees(Sign::Colon) {
        return Ok((None, 0));
    }
    let (found, height) = initializers(nest, cursor, depth)?;
    Ok((Some(found), height))
}
