// Directives (ECMA-408, 18 Libraries and Scripts).
ghost use Rattle.std.specs.Prelude.{◌≡◌, ◌≤◌, ◌<◌, ◌+◌, ◌&&◌, max, nat_lt};
ghost use Rattle.dart_token.specs.declared.word.Word.TheVariants as w;
ghost use Rattle.dart_tree.specs.Depth as height;
ghost use Rattle.dart_tree.specs.UnitView as view;
ghost use Rattle.grammar_laws.specs.Readers.{option};
ghost use Rattle.parse_decl.specs.Views.{directive_item, directive_over, form_reader, item_height, item_of};
ghost use Rattle.parse_nest.specs.Nests.{NestsExpr};
ghost use Rattle.parse_nest.specs.Stages.{closed_at};
ghost use Rattle.parse_parameter.specs.Views.{metadata_of};
ghost use Rattle.syntax_readers.specs.Units as spec;
ghost use Rattle.token_codes.specs.Codes.{class_of, this_word};
ghost use Rattle.token_cursor.specs.Gives.{Gives, GivesHigh, same};

use crate::order::Item;
use dart_base::place::Place;
use dart_token::sign::Sign;
use dart_token::word::Word;
use dart_tree::parameter::{Annotation, Parameters};
use dart_tree::statement::Block;
use dart_tree::unit::{Directive, DirectiveKind, Prefix};
use parse_head::directive::{combinators, library, part_of, prefix};
use parse_literal::text::strings;
use parse_nest::inside::{Inside, OpenExpr};
use std::alloc::Global;
use token_cursor::cursor::Cursor;
use token_cursor::error::ReadFault;

/// Which directive it is.
#[derive(Clone, Copy)]
pub enum DirectiveForm {
    PartOf,
    Library,
    Import,
    Export,
    Part,
}

/// Metadata, and how many nodes stand above one another in it.
#[derive(Drop)]
pub struct Metadata {
    pub annotations: Vec<Annotation>,
    pub tall: usize,
}

// A prefix where one comes.
fn maybe_prefix(alloc: Global, cursor: &mut Cursor<'_>) -> Result<Option<Prefix>, ReadFault>
    ensures { Gives same (option class_of (this_word w.As) spec.prefix cursor.old) result cursor.new }
{
    if !cursor.sees_word(Word::As) {
        return Ok(None);
    }
    let prefix = prefix(alloc, cursor)?;
    Ok(Some(prefix))
}

// An import (18.1 Imports).
#[tactic(auto, unfolding(syntax_readers::specs::Units::import))]
fn import<
    E: Fn(Global, &mut Cursor<'_>, usize, bool) -> Result<(OpenExpr, usize), ReadFault>,
    P: Fn(Global, &mut Cursor<'_>, usize) -> Result<(Parameters, usize), ReadFault>,
    B: Fn(Global, &mut Cursor<'_>, usize) -> Result<(Block, usize), ReadFault>,
>(
    nest: &Inside<E, P, B>,
    cursor: &mut Cursor<'_>,
    depth: usize,
) -> Result<(DirectiveKind, usize), ReadFault>
    requires nests { NestsExpr nest.now.limit (E.pre nest.now.expr) (E.post nest.now.expr) }
    requires within { depth ≤ nest.now.limit }
    ensures { GivesHigh view.directive_kind height.uri_height depth
        (spec.import (closed_at depth) cursor.old) result cursor.new }
{
    let word = cursor.expect_word(Word::Import)?;
    let (uri, height) = strings(nest, cursor, depth)?;
    let prefix = maybe_prefix(nest.alloc, cursor)?;
    let combinators = combinators(nest.alloc, cursor)?;
    Ok((
        DirectiveKind::Import {
            word,
            uri,
            prefix,
            combinators,
        },
        height,
    ))
}

// An export (18.2 Exports).
#[tactic(auto, unfolding(syntax_readers::specs::Units::export))]
fn export<
    E: Fn(Global, &mut Cursor<'_>, usize, bool) -> Result<(OpenExpr, usize), ReadFault>,
    P: Fn(Global, &mut Cursor<'_>, usize) -> Result<(Parameters, usize), ReadFault>,
    B: Fn(Global, &mut Cursor<'_>, usize) -> Result<(Block, usize), ReadFault>,
>(
    nest: &Inside<E, P, B>,
    cursor: &mut Cursor<'_>,
    depth: usize,
) -> Result<(DirectiveKind, usize), ReadFault>
    requires nests { NestsExpr nest.now.limit (E.pre nest.now.expr) (E.post nest.now.expr) }
    requires within { depth ≤ nest.now.limit }
    ensures { GivesHigh view.directive_kind height.uri_height depth
        (spec.export (closed_at depth) cursor.old) result cursor.new }
{
    let word = cursor.expect_word(Word::Export)?;
    let (uri, height) = strings(nest, cursor, depth)?;
    let combinators = combinators(nest.alloc, cursor)?;
    Ok((
        DirectiveKind::Export {
            word,
            uri,
            combinators,
        },
        height,
    ))
}

// A part (18.3 Parts).
#[tactic(auto, unfolding(syntax_readers::specs::Units::part))]
fn part<
    E: Fn(Global, &mut Cursor<'_>, usize, bool) -> Result<(OpenExpr, usize), ReadFault>,
    P: Fn(Global, &mut Cursor<'_>, usize) -> Result<(Parameters, usize), ReadFault>,
    B: Fn(Global, &mut Cursor<'_>, usize) -> Result<(Block, usize), ReadFault>,
>(
    nest: &Inside<E, P, B>,
    cursor: &mut Cursor<'_>,
    depth: usize,
) -> Result<(DirectiveKind, usize), ReadFault>
    requires nests { NestsExpr nest.now.limit (E.pre nest.now.expr) (E.post nest.now.expr) }
    requires within { depth ≤ nest.now.limit }
    ensures { GivesHigh view.directive_kind height.uri_height depth
        (spec.part (closed_at depth) cursor.old) result cursor.new }
{
    let word = cursor.expect_word(Word::Part)?;
    let (uri, height) = strings(nest, cursor, depth)?;
    Ok((DirectiveKind::Part(word, uri), height))
}

// The header of a part, in which no node stands (18.3 Parts).
#[tactic(auto, unfolding(syntax_readers::specs::Units::part_of))]
fn flat_part_of(
    alloc: Global,
    cursor: &mut Cursor<'_>,
    depth: usize,
) -> Result<(DirectiveKind, usize), ReadFault>
    ensures { GivesHigh view.directive_kind height.uri_height depth (spec.part_of cursor.old) result cursor.new }
{
    let kind = part_of(alloc, cursor)?;
    Ok((kind, 0))
}

// The name of a library, in which no node stands.
#[tactic(auto, unfolding(syntax_readers::specs::Units::library))]
fn flat_library(
    alloc: Global,
    cursor: &mut Cursor<'_>,
    depth: usize,
) -> Result<(DirectiveKind, usize), ReadFault>
    ensures { GivesHigh view.directive_kind height.uri_height depth (spec.library cursor.old) result cursor.new }
{
    let kind = library(alloc, cursor)?;
    Ok((kind, 0))
}

// What a directive of this form says.
fn directive_kind<
    E: Fn(Global, &mut Cursor<'_>, usize, bool) -> Result<(OpenExpr, usize), ReadFault>,
    P: Fn(Global, &mut Cursor<'_>, usize) -> Result<(Parameters, usize), ReadFault>,
    B: Fn(Global, &mut Cursor<'_>, usize) -> Result<(Block, usize), ReadFault>,
>(
    nest: &Inside<E, P, B>,
    cursor: &mut Cursor<'_>,
    depth: usize,
    form: DirectiveForm,
) -> Result<(DirectiveKind, usize), ReadFault>
    requires nests { NestsExpr nest.now.limit (E.pre nest.now.expr) (E.post nest.now.expr) }
    requires within { depth ≤ nest.now.limit }
    ensures { GivesHigh view.directive_kind height.uri_height depth
        (form_reader form (closed_at depth) cursor.old) result cursor.new }
{
    match form {
        DirectiveForm::PartOf => flat_part_of(nest.alloc, cursor, depth),
        DirectiveForm::Library => flat_library(nest.alloc, cursor, depth),
        DirectiveForm::Import => import(nest, cursor, depth),
        DirectiveForm::Export => export(nest, cursor, depth),
        DirectiveForm::Part => part(nest, cursor, depth),
    }
}

// A directive from its parts.
fn directive_item(metadata: Vec<Annotation>, kind: DirectiveKind, semicolon: Place) -> Item
    ensures same { item_of result ≡ directive_item (metadata_of metadata) (view.directive_kind kind) semicolon }
    ensures high { item_height (item_of result) ≡
        max (height.metadata_height (metadata_of metadata)) (height.uri_height (view.directive_kind kind)) + 1 }
{
    Item::Directive(Directive {
        metadata,
        kind,
        semicolon,
    })
}

// A directive behind its metadata, where its parts have at most so many nodes above one another.
fn directive_over<
    E: Fn(Global, &mut Cursor<'_>, usize, bool) -> Result<(OpenExpr, usize), ReadFault>,
    P: Fn(Global, &mut Cursor<'_>, usize) -> Result<(Parameters, usize), ReadFault>,
    B: Fn(Global, &mut Cursor<'_>, usize) -> Result<(Block, usize), ReadFault>,
>(
    nest: &Inside<E, P, B>,
    cursor: &mut Cursor<'_>,
    depth: usize,
    metadata: Metadata,
    form: DirectiveForm,
) -> Result<(Item, usize), ReadFault>
    requires nests { NestsExpr nest.now.limit (E.pre nest.now.expr) (E.post nest.now.expr) }
    requires within { depth ≤ nest.now.limit }
    requires room { depth + 1 < 18446744073709551616 }
    requires tall { metadata.tall ≡ height.metadata_height (metadata_of metadata.annotations) }
    requires low { metadata.tall ≤ depth }
    ensures { GivesHigh item_of item_height (depth + 1)
        (directive_over (metadata_of metadata.annotations) (form_reader form (closed_at depth)) cursor.old)
        result cursor.new }
{
    let (kind, height) = directive_kind(nest, cursor, depth, form)?;
    let semicolon = cursor.expect(Sign::Semicolon)?;
    let Metadata { annotations, tall } = metadata;
    Ok((
        directive_item(annotations, kind, semicolon),
        tall.max(height) + 1,
    ))
}

// Whether a directive may stand here, and has a node more than its metadata.
fn has_room(may: bool, tall: usize, depth: usize) -> bool
    ensures { result ≡ (may && nat_lt tall depth) }
{
    may && tall < depth
}

/// Reads a directive of this form behind its metadata, where it may stand; it is a node (ECMA-408, 18 Libraries and
/// Scripts).
pub fn directive<
    E: Fn(Global, &mut Cursor<'_>, usize, bool) -> Result<(OpenExpr, usize), ReadFault>,
    P: Fn(Global, &mut Cursor<'_>, usize) -> Result<(Parameters, usize), ReadFault>,
    B: Fn(Global, &mut Cursor<'_>, usize) -> Result<(Block, usize), ReadFault>,
>(
    nest: &Inside<E, P, B>,
    cursor: &mut Cursor<'_>,
    depth: usize,
    metadata: Metadata,
    form: DirectiveForm,
    may: bool,
) -> Result<(Item, usize), ReadFault>
    requires nests { NestsExpr nest.now.limit (E.pre nest.now.expr) (E.post nest.now.expr) }
    requires within { depth ≤ nest.now.limit }
    requires tall { metadata.tall ≡ height.metadata_height (metadata_of metadata.annotations) }
    ensures { GivesHigh item_of item_height depth
        (spec.directive depth (metadata_of metadata.annotations) may (form_reader form) cursor.old) result cursor.new }
{
    if !has_room(may, metadata.tall, depth) {
        drop(metadata);
        return Err(ReadFault::Stuck);
    }
    directive_over(nest, cursor, depth - 1, metadata, form)
}
