// What a unit says of itself: the library that it is a part of, or the name of the library that it is.
ghost use Rattle.std.specs.Prelude.{◌≡◌, map};
ghost use Rattle.dart_tree.specs.UnitView as view;
ghost use Rattle.scope_mention.specs.Head.{identifier_text, dot_text, same_texts, part_place, is_part, is_part_of};

use dart_base::place::Place;
use dart_tree::identifier::{DotName, Identifier};
use dart_tree::unit::{DirectiveKind, Unit};

/// How an identifier is written. Takes no memory.
pub fn identifier_text(name: &Identifier) -> &[u8]
    ensures { result.now ≡ identifier_text name.now }
{
    match name {
        Identifier::Name(_, text) => text.as_slice(),
        Identifier::Get(_) => b"get",
        Identifier::Set(_) => b"set",
    }
}

fn same_names(some: &[DotName], others: &[DotName]) -> bool
    ensures { result ≡ same_texts (map dot_text some.now) (map dot_text others.now) }
{
    match some {
        [] => others.is_empty(),
        [one, some @ ..] => match others {
            [] => false,
            [other, others @ ..] => {
                identifier_text(&one.name) == identifier_text(&other.name)
                    && same_names(some, others)
            }
        },
    }
}

/// The place of the word `part` where the unit begins with `part of` (ECMA-408, 18.3 Parts). Takes no memory.
pub fn part_place(unit: &Unit) -> Option<Place>
    ensures { result ≡ part_place (view.unit unit.now) }
{
    match &unit.directives.first()?.kind {
        DirectiveKind::PartOf { word, .. } => Some(*word),
        _ => None,
    }
}

/// Whether the unit begins with `part of` (ECMA-408, 18.3 Parts). Takes no memory.
pub fn is_part(unit: &Unit) -> bool
    ensures { result ≡ is_part (view.unit unit.now) }
{
    part_place(unit).is_some()
}

/// Whether the unit begins with `part of` and the name of the other, which is a library with a name (ECMA-408, 18.3
/// Parts). Takes no memory.
pub fn is_part_of(unit: &Unit, library: &Unit) -> bool
    ensures { result ≡ is_part_of (view.unit unit.now) (view.unit library.now) }
{
    let Some(first) = unit.directives.first() else {
        return false;
    };
    let Some(other) = library.directives.first() else {
        return false;
    };
    match &first.kind {
        DirectiveKind::PartOf { name, more, .. } => match &other.kind {
            DirectiveKind::Library {
                name: own,
                more: owns,
                ..
            } => identifier_text(name) == identifier_text(own) && same_names(more, owns),
            _ => false,
        },
        _ => false,
    }
}
