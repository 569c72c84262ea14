// Items of a unit, with their metadata (ECMA-408, 18 Libraries and Scripts).
ghost use Rattle.std.specs.Prelude.{◌≡◌, ◌≤◌, true};
ghost use Rattle.dart_tree.specs.Depth as height;
ghost use Rattle.grammar_laws.specs.Readers.{mapped};
ghost use Rattle.parse_decl.specs.Views.{decl_item, item_height, item_of, still_of};
ghost use Rattle.parse_nest.specs.Nests.{NestsExpr, NestsParameters, NestsBlock};
ghost use Rattle.parse_parameter.specs.Views.{metadata_of};
ghost use Rattle.syntax_readers.specs.Declarations.{decl_kind};
ghost use Rattle.syntax_readers.specs.Units as spec;
ghost use Rattle.token_cursor.specs.Gives.{GivesHigh};

use crate::declaration::decl_kind;
use crate::directive::{DirectiveForm, Metadata, directive};
use crate::look::part_of_comes;
use crate::order::{Item, Still, may_begin, may_have_parts, may_import};
use dart_token::word::Word;
use dart_tree::declaration::Decl;
use dart_tree::parameter::Parameters;
use dart_tree::statement::Block;
use parse_nest::inside::{Inside, OpenExpr};
use parse_parameter::metadata::metadata;
use std::alloc::Global;
use token_cursor::cursor::Cursor;
use token_cursor::error::ReadFault;

// A declaration behind its metadata.
fn decl<
    E: Fn(Global, &mut Cursor<'_>, usize, bool) -> Result<(OpenExpr, usize), ReadFault>,
    P: Fn(Global, &mut Cursor<'_>, usize) -> Result<(Parameters, usize), ReadFault>,
    B: Fn(Global, &mut Cursor<'_>, usize) -> Result<(Block, usize), ReadFault>,
>(
    nest: &Inside<E, P, B>,
    cursor: &mut Cursor<'_>,
    depth: usize,
    metadata: Metadata,
) -> Result<(Item, usize), ReadFault>
    requires nests { NestsExpr nest.now.limit (E.pre nest.now.expr) (E.post nest.now.expr) }
    requires parameters { NestsParameters nest.now.limit (P.pre nest.now.parameters) (P.post nest.now.parameters) }
    requires blocks { NestsBlock nest.now.limit (B.pre nest.now.block) (B.post nest.now.block) }
    requires within { depth ≤ nest.now.limit }
    requires tall { metadata.tall ≡ height.metadata_height (metadata_of metadata.annotations) }
    requires low { metadata.tall ≤ depth }
    ensures { GivesHigh item_of item_height depth
        (mapped (decl_item (metadata_of metadata.annotations)) (decl_kind depth) cursor.old) result cursor.new }
{
    let (kind, height) = decl_kind(nest, cursor, depth)?;
    let Metadata { annotations, tall } = metadata;
    let decl = Decl {
        metadata: annotations,
        kind,
    };
    Ok((Item::Decl(decl), tall.max(height)))
}

// A part or the header of one, behind its metadata.
#[tactic(auto, unfolding(syntax_readers::specs::Units::part_or_header))]
fn part_or_header<
    E: Fn(Global, &mut Cursor<'_>, usize, bool) -> Result<(OpenExpr, usize), ReadFault>,
    P: Fn(Global, &mut Cursor<'_>, usize) -> Result<(Parameters, usize), ReadFault>,
    B: Fn(Global, &mut Cursor<'_>, usize) -> Result<(Block, usize), ReadFault>,
>(
    nest: &Inside<E, P, B>,
    cursor: &mut Cursor<'_>,
    depth: usize,
    metadata: Metadata,
    still: Still,
) -> Result<(Item, usize), ReadFault>
    requires nests { NestsExpr nest.now.limit (E.pre nest.now.expr) (E.post nest.now.expr) }
    requires within { depth ≤ nest.now.limit }
    requires tall { metadata.tall ≡ height.metadata_height (metadata_of metadata.annotations) }
    ensures { GivesHigh item_of item_height depth
        (spec.part_or_header depth (metadata_of metadata.annotations) (still_of still) cursor.old) result cursor.new }
{
    if may_begin(still) && part_of_comes(cursor) {
        return directive(nest, cursor, depth, metadata, DirectiveForm::PartOf, true);
    }
    let may = may_have_parts(still);
    directive(nest, cursor, depth, metadata, DirectiveForm::Part, may)
}

// An item behind its metadata.
#[tactic(auto, unfolding(syntax_readers::specs::Units::item_behind))]
fn item_behind<
    E: Fn(Global, &mut Cursor<'_>, usize, bool) -> Result<(OpenExpr, usize), ReadFault>,
    P: Fn(Global, &mut Cursor<'_>, usize) -> Result<(Parameters, usize), ReadFault>,
    B: Fn(Global, &mut Cursor<'_>, usize) -> Result<(Block, usize), ReadFault>,
>(
    nest: &Inside<E, P, B>,
    cursor: &mut Cursor<'_>,
    depth: usize,
    metadata: Metadata,
    still: Still,
) -> Result<(Item, usize), ReadFault>
    requires nests { NestsExpr nest.now.limit (E.pre nest.now.expr) (E.post nest.now.expr) }
    requires parameters { NestsParameters nest.now.limit (P.pre nest.now.parameters) (P.post nest.now.parameters) }
    requires blocks { NestsBlock nest.now.limit (B.pre nest.now.block) (B.post nest.now.block) }
    requires within { depth ≤ nest.now.limit }
    requires tall { metadata.tall ≡ height.metadata_height (metadata_of metadata.annotations) }
    requires low { metadata.tall ≤ depth }
    ensures { GivesHigh item_of item_height depth
        (spec.item_behind depth (still_of still) (metadata_of metadata.annotations) cursor.old) result cursor.new }
{
    if cursor.sees_word(Word::Library) {
        let may = may_begin(still);
        return directive(nest, cursor, depth, metadata, DirectiveForm::Library, may);
    }
    if cursor.sees_word(Word::Import) {
        let may = may_import(still);
        return directive(nest, cursor, depth, metadata, DirectiveForm::Import, may);
    }
    if cursor.sees_word(Word::Export) {
        let may = may_import(still);
        return directive(nest, cursor, depth, metadata, DirectiveForm::Export, may);
    }
    if cursor.sees_word(Word::Part) {
        return part_or_header(nest, cursor, depth, metadata, still);
    }
    decl(nest, cursor, depth, metadata)
}

/// Reads a directive or a declaration with its metadata, where such a directive may still come (ECMA-408, 18 Libraries
/// and Scripts).
pub fn item<
    E: Fn(Global, &mut Cursor<'_>, usize, bool) -> Result<(OpenExpr, usize), ReadFault>,
    P: Fn(Global, &mut Cursor<'_>, usize) -> Result<(Parameters, usize), ReadFault>,
    B: Fn(Global, &mut Cursor<'_>, usize) -> Result<(Block, usize), ReadFault>,
>(
    nest: &Inside<E, P, B>,
    cursor: &mut Cursor<'_>,
    depth: usize,
    still: Still,
) -> Result<(Item, usize), ReadFault>
    requires nests { NestsExpr nest.now.limit (E.pre nest.now.expr) (E.post nest.now.expr) }
    requires parameters { NestsParameters nest.now.limit (P.pre nest.now.parameters) (P.post nest.now.parameters) }
    requires blocks { NestsBlock nest.now.limit (B.pre nest.now.block) (B.post nest.now.block) }
    requires within { depth ≤ nest.now.limit }
    ensures { GivesHigh item_of item_height depth
        (spec.item depth (still_of still) cursor.old) result cursor.new }
{
    let (annotations, tall) = metadata(nest, cursor, depth)?;
    item_behind(nest, cursor, depth, Metadata { annotations, tall }, still)
}
