// What a class extends, mixes in and implements, and the bound of a type parameter.
ghost use Rattle.dart_token.specs.declared.word.Word.TheVariants as w;
ghost use Rattle.dart_tree.specs.Depth as height;
ghost use Rattle.dart_tree.specs.Depth.{height_if};
ghost use Rattle.dart_tree.specs.UnitView as view;
ghost use Rattle.dart_tree.specs.UnitView.{maybe};
ghost use Rattle.grammar_laws.specs.Readers.{option};
ghost use Rattle.token_codes.specs.Codes.{class_of, this_word};
ghost use Rattle.token_cursor.specs.Gives.{GivesHigh};
ghost use Rattle.syntax_readers.specs.Types.{type_reader, types};
ghost use Rattle.syntax_readers.specs.Declarations as spec;
ghost use Rattle.parse_head.specs.Heads.{clause_of};

use dart_token::word::Word;
use dart_tree::declaration::{Bound, Superclass, TypeClause};
use parse_type::types::{type_list, type_node};
use std::alloc::Global;
use token_cursor::cursor::Cursor;
use token_cursor::error::ReadFault;

/// Reads the bound of a type parameter (ECMA-408, 14 Generics).
#[tactic(auto, unfolding(syntax_readers::specs::Declarations::bound))]
pub fn bound(
    alloc: Global,
    cursor: &mut Cursor<'_>,
    depth: usize,
) -> Result<(Bound, usize), ReadFault>
    ensures { GivesHigh view.bound height.bound_height depth
        (spec.bound (type_reader depth) cursor.old) result cursor.new }
{
    let word = cursor.expect_word(Word::Extends)?;
    let (bound, height) = type_node(alloc, cursor, depth)?;
    Ok((Bound { word, bound }, height))
}

/// Reads the bound of a type parameter, or none (ECMA-408, 14 Generics).
pub fn maybe_bound(
    alloc: Global,
    cursor: &mut Cursor<'_>,
    depth: usize,
) -> Result<(Option<Bound>, usize), ReadFault>
    ensures { GivesHigh (maybe view.bound) (height_if height.bound_height) depth
        (option class_of (this_word w.Extends) (spec.bound (type_reader depth)) cursor.old) result cursor.new }
{
    if !cursor.sees_word(Word::Extends) {
        return Ok((None, 0));
    }
    let (bound, height) = bound(alloc, cursor, depth)?;
    Ok((Some(bound), height))
}

// Types behind this word.
fn clause(
    alloc: Global,
    cursor: &mut Cursor<'_>,
    depth: usize,
    word: Word,
) -> Result<(TypeClause, usize), ReadFault>
    ensures { GivesHigh view.type_clause height.clause_height depth
        (clause_of word (types (type_reader depth)) cursor.old) result cursor.new }
{
    let word = cursor.expect_word(word)?;
    let (types, height) = type_list(alloc, cursor, depth)?;
    Ok((TypeClause { word, types }, height))
}

/// Reads the mixins of a class (ECMA-408, 10.9 Superclasses).
#[tactic(auto, unfolding(syntax_readers::specs::Declarations::mixins))]
pub fn mixins(
    alloc: Global,
    cursor: &mut Cursor<'_>,
    depth: usize,
) -> Result<(TypeClause, usize), ReadFault>
    ensures { GivesHigh view.type_clause height.clause_height depth
        (spec.mixins (type_reader depth) cursor.old) result cursor.new }
{
    clause(alloc, cursor, depth, Word::With)
}

/// Reads the interfaces of a class (ECMA-408, 10.10 Superinterfaces).
#[tactic(auto, unfolding(syntax_readers::specs::Declarations::interfaces))]
pub fn interfaces(
    alloc: Global,
    cursor: &mut Cursor<'_>,
    depth: usize,
) -> Result<(TypeClause, usize), ReadFault>
    ensures { GivesHigh view.type_clause height.clause_height depth
        (spec.interfaces (type_reader depth) cursor.old) result cursor.new }
{
    clause(alloc, cursor, depth, Word::Implements)
}

/// Reads the mixins of a class, or none (ECMA-408, 10.9 Superclasses).
pub fn maybe_mixins(
    alloc: Global,
    cursor: &mut Cursor<'_>,
    depth: usize,
) -> Result<(Option<TypeClause>, usize), ReadFault>
    ensures { GivesHigh (maybe view.type_clause) (height_if height.clause_height) depth
        (option class_of (this_word w.With) (spec.mixins (type_reader depth)) cursor.old) result cursor.new }
{
    if !cursor.sees_word(Word::With) {
        return Ok((None, 0));
    }
    let (clause, height) = mixins(alloc, cursor, depth)?;
    Ok((Some(clause), height))
}

/// Reads the interfaces of a class, or none (ECMA-408, 10.10 Superinterfaces).
pub fn maybe_interfaces(
    alloc: Global,
    cursor: &mut Cursor<'_>,
    depth: usize,
) -> Result<(Option<TypeClause>, usize), ReadFault>
    ensures { GivesHigh (maybe view.type_clause) (height_if height.clause_height) depth
        (option class_of (this_word w.Implements) (spec.interfaces (type_reader depth)) cursor.old) result cursor.new }
{
    if !cursor.sees_word(Word::Implements) {
        return Ok((None, 0));
    }
    let (clause, height) = interfaces(alloc, cursor, depth)?;
    Ok((Some(clause), height))
}

/// Reads the superclass of a class with its mixins (ECMA-408, 10.9 Superclasses).
#[tactic(auto, unfolding(syntax_readers::specs::Declarations::superclass))]
pub fn superclass(
    alloc: Global,
    cursor: &mut Cursor<'_>,
    depth: usize,
) -> Result<(Superclass, usize), ReadFault>
    ensures { GivesHigh view.superclass height.superclass_height depth
        (spec.superclass (type_reader depth) cursor.old) result cursor.new }
{
    let word = cursor.expect_word(Word::Extends)?;
    let (superclass, own) = type_node(alloc, cursor, depth)?;
    let (mixins, mixed) = maybe_mixins(alloc, cursor, depth)?;
    Ok((
        Superclass {
            word,
            superclass,
            mixins,
        },
        own.max(mixed),
    ))
}

/// Reads the superclass of a class with its mixins, or none (ECMA-408, 10.9 Superclasses).
pub fn maybe_superclass(
    alloc: Global,
    cursor: &mut Cursor<'_>,
    depth: usize,
) -> Result<(Option<Superclass>, usize), ReadFault>
    ensures { GivesHigh (maybe view.superclass) (height_if height.superclass_height) depth
        (option class_of (this_word w.Extends) (spec.superclass (type_reader depth)) cursor.old) result cursor.new }
{
    if !cursor.sees_word(Word::Extends) {
        return Ok((None, 0));
    }
    let (superclass, height) = superclass(alloc, cursor, depth)?;
    Ok((Some(superclass), height))
}
