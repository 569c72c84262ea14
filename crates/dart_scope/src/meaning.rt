// What a name may mean.
ghost use Rattle.std.specs.Prelude.{◌≡◌};
ghost use Rattle.std.specs.List.{list_any};
ghost use Rattle.dart_scope.specs.Meaning.{has_instance, is_within, kind_meaning};
ghost use Rattle.dart_scope.specs.Meaning.{meaning_of, member_meaning, owned_meaning};

use dart_base::place::Place;
use scope_declared::declaration::{Declared, DeclaredKind, Owner};
use scope_space::bound::Binding;
use scope_table::instance::Stretch;
use scope_table::place::place_before;

/// What a name means at a place of a program (ECMA-408, 16.33 Identifier Reference).
#[derive(Clone, Copy, Debug, PartialEq, Eq)]
pub enum Meaning {
    /// A local variable, a local function or a parameter, by the place of its declaration.
    Local(Place),
    /// A type parameter, by its number in its list, from 0.
    TypeParameter(usize),
    /// A static member of the class around, by the place of a declaration.
    Static(Place),
    /// An instance member of the class around.
    Member,
    /// An instance member of the class around where there is no instance: nothing declares it there.
    NoInstance,
    /// What the place's library gives.
    Outer(Binding),
}

fn is_within(at: Place, stretch: &Stretch) -> bool
    ensures { result ≡ is_within at stretch.now }
{
    !place_before(at, stretch.first) && !place_before(stretch.last, at)
}

/// Whether there is an instance at a place of a unit that has none in these stretches. Takes no memory.
pub fn has_instance(stretches: &[Stretch], at: Place) -> bool
    ensures { result ≡ has_instance stretches.now at }
{
    for stretch in stretches {
        if is_within(at, stretch) {
            return false;
        }
    }
    true
}

fn member_meaning(instance: bool) -> Meaning
    ensures { result ≡ member_meaning instance }
{
    if instance {
        Meaning::Member
    } else {
        Meaning::NoInstance
    }
}

fn owned_meaning(place: Place, instance: bool, owner: Owner) -> Meaning
    ensures { result ≡ owned_meaning place instance owner }
{
    match owner {
        Owner::Object => member_meaning(instance),
        Owner::Class | Owner::Library => Meaning::Static(place),
    }
}

/// What a name means whose innermost declaration this is. Takes no memory.
pub fn meaning_of(instance: bool, one: &Declared) -> Meaning
    ensures { result ≡ meaning_of instance one.now }
{
    match one.kind {
        DeclaredKind::TypeParameter(number) => Meaning::TypeParameter(number),
        DeclaredKind::Owned(owner, _) => owned_meaning(one.place, instance, owner),
        DeclaredKind::Operator => member_meaning(instance),
        _ => Meaning::Local(one.place),
    }
}
