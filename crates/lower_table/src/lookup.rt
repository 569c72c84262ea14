// What names mean, and what classes write, where classes are numbered as they are declared.
ghost use Rattle.std.specs.Prelude.{◌≡◌};
ghost use Rattle.lower_leaf.specs.Around.{constructor, meaning};
ghost use Rattle.scope_program.specs.Around.{known};
ghost use Rattle.lower_table.specs.Made.{meanings_made};
ghost use Rattle.lower_table.specs.Table.{renumbered};

use crate::row::found_at;
use dart_ir::number::ClassId;
use lower_leaf::meaning::{Constructor, Meaning};
use scope_program::program::ProgramScopes;

// A number of no class, or of no type parameter, means nothing.
fn known(classes: usize, parameters: u32, of: Meaning) -> Meaning
    ensures { meaning result ≡ known classes parameters (meaning of) }
{
    match of {
        Meaning::Class(class) => {
            if (class.0 as usize) < classes {
                of
            } else {
                Meaning::Unknown
            }
        }
        Meaning::TypeParameter(number) => {
            if number < parameters {
                of
            } else {
                Meaning::Unknown
            }
        }
        _ => of,
    }
}

/// A class is its row; one that has none means nothing.
pub fn renumbered(rows: &[Option<u32>], of: Meaning) -> Meaning
    ensures { meaning result ≡ renumbered rows.now (meaning of) }
{
    match of {
        Meaning::Class(class) => match found_at(rows, class.0 as usize) {
            Some(row) => Meaning::Class(ClassId(row)),
            None => Meaning::Unknown,
        },
        _ => of,
    }
}

/// The number of a library.
pub fn library_number(scopes: &ProgramScopes, library: u32) -> u32
    ensures { result ≡ ((meanings_made scopes.now).in_library library).library }
{
    match scopes.libraries.get(library as usize) {
        Some(names) => names.library(),
        None => library,
    }
}

/// What a name means in a library (ECMA-408, 16.33 Identifier Reference).
pub fn library_meaning(scopes: &ProgramScopes, library: u32, name: &[u8]) -> Meaning
    ensures { meaning result ≡ ((meanings_made scopes.now).in_library library).meaning name.now }
{
    match scopes.libraries.get(library as usize) {
        Some(names) => known(scopes.classes.len(), 0, names.meaning(name)),
        None => Meaning::Unknown,
    }
}

/// What a name means in a library behind a prefix of its imports (18.1 Imports).
pub fn library_prefixed(scopes: &ProgramScopes, library: u32, prefix: &[u8], name: &[u8]) -> Meaning
    ensures { meaning result ≡ ((meanings_made scopes.now).in_library library).prefixed prefix.now name.now }
{
    match scopes.libraries.get(library as usize) {
        Some(names) => known(scopes.classes.len(), 0, names.prefixed(prefix, name)),
        None => Meaning::Unknown,
    }
}

/// The number of the library around a class.
pub fn class_library(scopes: &ProgramScopes, class: u32) -> u32
    ensures { result ≡ ((meanings_made scopes.now).in_class class).library }
{
    match scopes.classes.get(class as usize) {
        None => 0,
        Some(found) => match scopes.libraries.get(found.library as usize) {
            Some(_) => found.library,
            None => 0,
        },
    }
}

/// What a name means inside of a class (16.33).
pub fn class_meaning(scopes: &ProgramScopes, class: u32, name: &[u8]) -> Meaning
    ensures { meaning result ≡ ((meanings_made scopes.now).in_class class).meaning name.now }
{
    match scopes.classes.get(class as usize) {
        None => Meaning::Unknown,
        Some(found) => match scopes.libraries.get(found.library as usize) {
            Some(around) => known(
                scopes.classes.len(),
                found.parameters,
                found.names.meaning(around, name),
            ),
            None => Meaning::Unknown,
        },
    }
}

/// What a name means inside of a class behind a prefix of imports (18.1).
pub fn class_prefixed(scopes: &ProgramScopes, class: u32, prefix: &[u8], name: &[u8]) -> Meaning
    ensures { meaning result ≡ ((meanings_made scopes.now).in_class class).prefixed prefix.now name.now }
{
    match scopes.classes.get(class as usize) {
        None => Meaning::Unknown,
        Some(found) => match scopes.libraries.get(found.library as usize) {
            Some(around) => known(
                scopes.classes.len(),
                found.parameters,
                around.prefixed(prefix, name),
            ),
            None => Meaning::Unknown,
        },
    }
}

/// What a class declares as static (10.7 Static Methods, 10.8 Static Variables).
pub fn class_static(scopes: &ProgramScopes, class: u32, name: &[u8]) -> Meaning
    ensures { meaning result ≡ (meanings_made scopes.now).static class name.now }
{
    match scopes.classes.get(class as usize) {
        None => Meaning::Unknown,
        Some(found) => found.names.member_of(name),
    }
}

/// The constructor that a class writes (10.6 Constructors).
pub fn class_constructor(scopes: &ProgramScopes, class: u32, id: &[u8]) -> Constructor
    ensures { constructor result ≡ (meanings_made scopes.now).constructor class id.now }
{
    match scopes.classes.get(class as usize) {
        None => Constructor::Missing,
        Some(found) => found.constructors.constructor(id),
    }
}
