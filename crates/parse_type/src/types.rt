// Types.
ghost use Rattle.std.specs.Prelude.{◌≡◌};
ghost use Rattle.dart_token.specs.declared.sign.Sign.TheVariants as s;
ghost use Rattle.dart_tree.specs.Depth as height;
ghost use Rattle.dart_tree.specs.Lists.{type_list_of};
ghost use Rattle.dart_tree.specs.Types as y;
ghost use Rattle.dart_tree.specs.View as view;
ghost use Rattle.grammar_laws.specs.Readers.{mapped, both};
ghost use Rattle.token_codes.specs.Leaves.{sign};
ghost use Rattle.token_cursor.specs.Gives.{GivesHigh};
ghost use Rattle.syntax_readers.specs.Types as spec;
ghost use Rattle.parse_type.specs.Views.{view_types, view_pair, pair_height, only_type};

use dart_base::place::Place;
use dart_token::sign::Sign;
use dart_token::word::Word;
use dart_tree::types::{TypeArgument, TypeArguments, TypeNode};
use std::alloc::Global;
use token_cursor::cursor::Cursor;
use token_cursor::error::ReadFault;

/// Reads a type with at most so many nodes above one another, and says how many it has (ECMA-408, 19.1 Static Types).
#[cycle(read_types)]
#[tactic(auto, unfolding(syntax_readers::specs::Types::type_reader, syntax_readers::specs::Types::type_over))]
pub fn type_node(
    alloc: Global,
    cursor: &mut Cursor<'_>,
    depth: usize,
) -> Result<(TypeNode, usize), ReadFault>
    ensures { GivesHigh view.type_node height.type_height depth
        (spec.type_reader depth cursor.old) result cursor.new }
{
    if depth == 0 {
        return Err(ReadFault::Stuck);
    }
    if cursor.sees_word(Word::Dynamic) {
        let place = cursor.expect_word(Word::Dynamic)?;
        return Ok((TypeNode::Dynamic(place), 1));
    }
    let name = cursor.identifier(alloc)?;
    let member = cursor.maybe_dot_name(alloc)?;
    let (arguments, height) = type_arguments(alloc, cursor, depth - 1)?;
    Ok((
        TypeNode::Named {
            name,
            member,
            arguments,
        },
        height + 1,
    ))
}

/// Reads type arguments or none (ECMA-408, 14 Generics).
#[cycle(read_types)]
#[tactic(auto, unfolding(syntax_readers::specs::Types::type_arguments))]
pub fn type_arguments(
    alloc: Global,
    cursor: &mut Cursor<'_>,
    depth: usize,
) -> Result<(TypeArguments, usize), ReadFault>
    ensures { GivesHigh view.type_arguments height.type_arguments_height depth
        (spec.type_arguments (spec.types (spec.type_reader depth)) cursor.old) result cursor.new }
{
    if !cursor.sees(Sign::Less) {
        return Ok((TypeArguments::Omitted, 0));
    }
    let opening = cursor.expect(Sign::Less)?;
    let (arguments, height) = type_list(alloc, cursor, depth)?;
    let closing = cursor.expect(Sign::Greater)?;
    Ok((listed_types(opening, arguments, closing), height))
}

// Type arguments from their parts.
fn listed_types(opening: Place, arguments: Vec<TypeArgument>, closing: Place) -> TypeArguments
    ensures { view.type_arguments result ≡
        y.listed_types opening (type_list_of arguments.items) closing }
{
    TypeArguments::Listed {
        opening,
        arguments,
        closing,
    }
}

// A comma and a type.
#[cycle(read_types)]
fn comma_type(
    alloc: Global,
    cursor: &mut Cursor<'_>,
    depth: usize,
) -> Result<((Place, TypeNode), usize), ReadFault>
    ensures { GivesHigh view_pair pair_height depth
        (both (sign s.Comma) (spec.type_reader depth) cursor.old) result cursor.new }
{
    let comma = cursor.expect(Sign::Comma)?;
    let (argument, height) = type_node(alloc, cursor, depth)?;
    Ok(((comma, argument), height))
}

/// Reads types with commas between them (ECMA-408, 19.1 Static Types).
#[cycle(read_types)]
pub fn type_list(
    alloc: Global,
    cursor: &mut Cursor<'_>,
    depth: usize,
) -> Result<(Vec<TypeArgument>, usize), ReadFault>
    ensures { GivesHigh view_types height.type_list_height depth
        (spec.types (spec.type_reader depth) cursor.old) result cursor.new }
{
    let (argument, height) = type_node(alloc, cursor, depth)?;
    let mut found = Vec::new(alloc);
    found.push(TypeArgument {
        comma: None,
        argument,
    })?;
    let mut highest = height;
    for _turn in 0..cursor.left() {
        if !cursor.sees(Sign::Comma) {
            return Ok((found, highest));
        }
        let ((comma, argument), height) = comma_type(alloc, cursor, depth)?;
        found.push(TypeArgument {
            comma: Some(comma),
            argument,
        })?;
        highest = highest.max(height);
    }
    Ok((found, highest))
}

/// Reads the type argument of a list literal, or none (ECMA-408, 16.7 Lists).
#[tactic(auto, unfolding(syntax_readers::specs::Types::type_arguments))]
pub fn list_type_arguments(
    alloc: Global,
    cursor: &mut Cursor<'_>,
    depth: usize,
) -> Result<(TypeArguments, usize), ReadFault>
    ensures { GivesHigh view.type_arguments height.type_arguments_height depth
        (spec.type_arguments (mapped only_type (spec.type_reader depth)) cursor.old) result cursor.new }
{
    if !cursor.sees(Sign::Less) {
        return Ok((TypeArguments::Omitted, 0));
    }
    let opening = cursor.expect(Sign::Less)?;
    let (arguments, height) = single_type(alloc, cursor, depth)?;
    let closing = cursor.expect(Sign::Greater)?;
    Ok((listed_types(opening, arguments, closing), height))
}

/// Reads the type arguments of a map literal, or none (ECMA-408, 16.8 Maps).
#[tactic(auto, unfolding(syntax_readers::specs::Types::type_arguments))]
pub fn map_type_arguments(
    alloc: Global,
    cursor: &mut Cursor<'_>,
    depth: usize,
) -> Result<(TypeArguments, usize), ReadFault>
    ensures { GivesHigh view.type_arguments height.type_arguments_height depth
        (spec.type_arguments (spec.two_types (spec.type_reader depth)) cursor.old) result cursor.new }
{
    if !cursor.sees(Sign::Less) {
        return Ok((TypeArguments::Omitted, 0));
    }
    let opening = cursor.expect(Sign::Less)?;
    let (arguments, height) = two_types(alloc, cursor, depth)?;
    let closing = cursor.expect(Sign::Greater)?;
    Ok((listed_types(opening, arguments, closing), height))
}

// A list of one type.
fn single_type(
    alloc: Global,
    cursor: &mut Cursor<'_>,
    depth: usize,
) -> Result<(Vec<TypeArgument>, usize), ReadFault>
    ensures { GivesHigh view_types height.type_list_height depth
        (mapped only_type (spec.type_reader depth) cursor.old) result cursor.new }
{
    let (argument, height) = type_node(alloc, cursor, depth)?;
    let mut found = Vec::new(alloc);
    found.push(TypeArgument {
        comma: None,
        argument,
    })?;
    Ok((found, height))
}

/// Reads two types with a comma between them.
#[tactic(auto, unfolding(syntax_readers::specs::Types::two_types))]
pub fn two_types(
    alloc: Global,
    cursor: &mut Cursor<'_>,
    depth: usize,
) -> Result<(Vec<TypeArgument>, usize), ReadFault>
    ensures { GivesHigh view_types height.type_list_height depth
        (spec.two_types (spec.type_reader depth) cursor.old) result cursor.new }
{
    let (argument, first) = type_node(alloc, cursor, depth)?;
    let ((comma, other), second) = comma_type(alloc, cursor, depth)?;
    let mut found = Vec::new(alloc);
    found.push(TypeArgument {
        comma: None,
        argument,
    })?;
    found.push(TypeArgument {
        comma: Some(comma),
        argument: other,
    })?;
    Ok((found, first.max(second)))
}
