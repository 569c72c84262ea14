// Classes (ECMA-408, 10 Classes and 12.1 Mixin Application).
ghost use Rattle.std.specs.Prelude.{◌≡◌, ◌≤◌, ◌<◌, ◌+◌};
ghost use Rattle.dart_syntax.specs.Declarations.{a_class};
ghost use Rattle.dart_tree.specs.Depth as height;
ghost use Rattle.dart_tree.specs.UnitView as view;
ghost use Rattle.parse_class.specs.Views.{header_of, header_height};
ghost use Rattle.parse_nest.specs.Nests.{NestsExpr, NestsParameters, NestsBlock};
ghost use Rattle.syntax_readers.specs.Declarations as spec;
ghost use Rattle.token_cursor.specs.Gives.{GivesHigh};

use crate::look::text_of;
use crate::member::members;
use crate::part::{maybe_interfaces, maybe_superclass, mixins, type_node};
use crate::type_parameter::maybe_type_parameters;
use dart_base::place::Place;
use dart_token::sign::Sign;
use dart_token::word::Word;
use dart_tree::declaration::{Class, ClassKind, TypeParameters};
use dart_tree::identifier::Identifier;
use dart_tree::parameter::Parameters;
use dart_tree::statement::Block;
use parse_nest::inside::{Inside, OpenExpr};
use std::alloc::Global;
use token_cursor::cursor::Cursor;
use token_cursor::error::ReadFault;

/// What stands before a class's kind (ECMA-408, 10 Classes).
#[derive(Drop)]
pub struct ClassHeader {
    pub abstracted: Option<Place>,
    pub word: Place,
    pub name: Identifier,
    pub parameters: Option<TypeParameters>,
}

// A class with members, whose constructors have this name.
#[tactic(auto, unfolding(syntax_readers::specs::Declarations::declared_class))]
fn declared_class<
    E: Fn(Global, &mut Cursor<'_>, usize, bool) -> Result<(OpenExpr, usize), ReadFault>,
    P: Fn(Global, &mut Cursor<'_>, usize) -> Result<(Parameters, usize), ReadFault>,
    B: Fn(Global, &mut Cursor<'_>, usize) -> Result<(Block, usize), ReadFault>,
>(
    nest: &Inside<E, P, B>,
    cursor: &mut Cursor<'_>,
    depth: usize,
    class: &[u8],
) -> Result<(ClassKind, usize), ReadFault>
    requires nests { NestsExpr nest.now.limit (E.pre nest.now.expr) (E.post nest.now.expr) }
    requires parameters { NestsParameters nest.now.limit (P.pre nest.now.parameters) (P.post nest.now.parameters) }
    requires blocks { NestsBlock nest.now.limit (B.pre nest.now.block) (B.post nest.now.block) }
    requires within { depth ≤ nest.now.limit }
    ensures { GivesHigh view.class_kind height.class_kind_height depth
        (spec.declared_class depth class.now cursor.old) result cursor.new }
{
    let (superclass, tall) = maybe_superclass(nest.alloc, cursor, depth)?;
    let (interfaces, taller) = maybe_interfaces(nest.alloc, cursor, depth)?;
    let opening = cursor.expect(Sign::LeftBrace)?;
    let (members, tallest) = members(nest, cursor, depth, class)?;
    let closing = cursor.expect(Sign::RightBrace)?;
    Ok((
        ClassKind::Declared {
            superclass,
            interfaces,
            opening,
            members,
            closing,
        },
        tall.max(taller.max(tallest)),
    ))
}

// A class that mixes others into another.
#[tactic(auto, unfolding(syntax_readers::specs::Declarations::mixed_class))]
fn mixed_class(
    alloc: Global,
    cursor: &mut Cursor<'_>,
    depth: usize,
) -> Result<(ClassKind, usize), ReadFault>
    ensures { GivesHigh view.class_kind height.class_kind_height depth
        (spec.mixed_class depth cursor.old) result cursor.new }
{
    let equals = cursor.expect(Sign::Assign)?;
    let (superclass, tall) = type_node(alloc, cursor, depth)?;
    let (mixins, taller) = mixins(alloc, cursor, depth)?;
    let (interfaces, tallest) = maybe_interfaces(alloc, cursor, depth)?;
    let semicolon = cursor.expect(Sign::Semicolon)?;
    Ok((
        ClassKind::Mixed {
            equals,
            superclass,
            mixins,
            interfaces,
            semicolon,
        },
        tall.max(taller.max(tallest)),
    ))
}

// How a class of this name is declared.
#[tactic(auto, unfolding(syntax_readers::specs::Declarations::class_kind))]
fn class_kind<
    E: Fn(Global, &mut Cursor<'_>, usize, bool) -> Result<(OpenExpr, usize), ReadFault>,
    P: Fn(Global, &mut Cursor<'_>, usize) -> Result<(Parameters, usize), ReadFault>,
    B: Fn(Global, &mut Cursor<'_>, usize) -> Result<(Block, usize), ReadFault>,
>(
    nest: &Inside<E, P, B>,
    cursor: &mut Cursor<'_>,
    depth: usize,
    class: &[u8],
) -> Result<(ClassKind, usize), ReadFault>
    requires nests { NestsExpr nest.now.limit (E.pre nest.now.expr) (E.post nest.now.expr) }
    requires parameters { NestsParameters nest.now.limit (P.pre nest.now.parameters) (P.post nest.now.parameters) }
    requires blocks { NestsBlock nest.now.limit (B.pre nest.now.block) (B.post nest.now.block) }
    requires within { depth ≤ nest.now.limit }
    ensures { GivesHigh view.class_kind height.class_kind_height depth
        (spec.class_kind depth class.now cursor.old) result cursor.new }
{
    if cursor.sees(Sign::Assign) {
        return mixed_class(nest.alloc, cursor, depth);
    }
    declared_class(nest, cursor, depth, class)
}

// What stands before a class's kind.
#[tactic(auto, unfolding(syntax_readers::specs::Declarations::class_header))]
fn class_header<
    E: Fn(Global, &mut Cursor<'_>, usize, bool) -> Result<(OpenExpr, usize), ReadFault>,
    P: Fn(Global, &mut Cursor<'_>, usize) -> Result<(Parameters, usize), ReadFault>,
    B: Fn(Global, &mut Cursor<'_>, usize) -> Result<(Block, usize), ReadFault>,
>(
    nest: &Inside<E, P, B>,
    cursor: &mut Cursor<'_>,
    depth: usize,
) -> Result<(ClassHeader, usize), ReadFault>
    requires nests { NestsExpr nest.now.limit (E.pre nest.now.expr) (E.post nest.now.expr) }
    requires within { depth ≤ nest.now.limit }
    ensures { GivesHigh header_of header_height depth
        (spec.class_header depth cursor.old) result cursor.new }
{
    let abstracted = cursor.maybe_word(Word::Abstract);
    let word = cursor.expect_word(Word::Class)?;
    let name = cursor.plain_identifier(nest.alloc)?;
    let (parameters, height) = maybe_type_parameters(nest, cursor, depth)?;
    Ok((
        ClassHeader {
            abstracted,
            word,
            name,
            parameters,
        },
        height,
    ))
}

// A class from its parts.
fn declared(header: ClassHeader, kind: ClassKind) -> Class
    ensures { view.class result ≡ a_class (header_of header) (view.class_kind kind) }
{
    Class {
        abstracted: header.abstracted,
        word: header.word,
        name: header.name,
        parameters: header.parameters,
        kind,
    }
}

// A class whose parts have at most so many nodes above one another.
#[tactic(auto, unfolding(syntax_readers::specs::Declarations::class_over))]
fn class_over<
    E: Fn(Global, &mut Cursor<'_>, usize, bool) -> Result<(OpenExpr, usize), ReadFault>,
    P: Fn(Global, &mut Cursor<'_>, usize) -> Result<(Parameters, usize), ReadFault>,
    B: Fn(Global, &mut Cursor<'_>, usize) -> Result<(Block, usize), ReadFault>,
>(
    nest: &Inside<E, P, B>,
    cursor: &mut Cursor<'_>,
    depth: usize,
) -> Result<(Class, usize), ReadFault>
    requires nests { NestsExpr nest.now.limit (E.pre nest.now.expr) (E.post nest.now.expr) }
    requires parameters { NestsParameters nest.now.limit (P.pre nest.now.parameters) (P.post nest.now.parameters) }
    requires blocks { NestsBlock nest.now.limit (B.pre nest.now.block) (B.post nest.now.block) }
    requires within { depth ≤ nest.now.limit }
    requires room { depth + 1 < 18446744073709551616 }
    ensures { GivesHigh view.class height.class_height (depth + 1)
        (spec.class_over depth cursor.old) result cursor.new }
{
    let (header, tall) = class_header(nest, cursor, depth)?;
    let (kind, height) = class_kind(nest, cursor, depth, text_of(&header.name))?;
    Ok((declared(header, kind), tall.max(height) + 1))
}

/// Reads a class, which is a node (ECMA-408, 10 Classes).
pub fn class<
    E: Fn(Global, &mut Cursor<'_>, usize, bool) -> Result<(OpenExpr, usize), ReadFault>,
    P: Fn(Global, &mut Cursor<'_>, usize) -> Result<(Parameters, usize), ReadFault>,
    B: Fn(Global, &mut Cursor<'_>, usize) -> Result<(Block, usize), ReadFault>,
>(
    nest: &Inside<E, P, B>,
    cursor: &mut Cursor<'_>,
    depth: usize,
) -> Result<(Class, usize), ReadFault>
    requires nests { NestsExpr nest.now.limit (E.pre nest.now.expr) (E.post nest.now.expr) }
    requires parameters { NestsParameters nest.now.limit (P.pre nest.now.parameters) (P.post nest.now.parameters) }
    requires blocks { NestsBlock nest.now.limit (B.pre nest.now.block) (B.post nest.now.block) }
    requires within { depth ≤ nest.now.limit }
    ensures { GivesHigh view.class height.class_height depth
        (spec.node spec.class_over depth cursor.old) result cursor.new }
{
    if depth == 0 {
        return Err(ReadFault::Stuck);
    }
    class_over(nest, cursor, depth - 1)
}
