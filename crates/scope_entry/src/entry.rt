// The declarations of libraries, with their numbers.
ghost use Rattle.std.specs.Prelude.{◌≡◌, ◌<◌, ◌^◌, IfOk, length};
ghost use Rattle.scope_entry.specs.Entries.{declarations_of, entries, entry_of, is_own, is_private_name, numbered, own};

use dart_base::name::Name;
use dart_base::names::Names;
use scope_declared::declaration::{Declared, DeclaredKind, Owner};
use scope_space::declaration::{Declaration, Kind};
use std::alloc::{AllocError, Global};

/// A declaration of a library (ECMA-408, 18 Libraries and Scripts).
#[derive(Clone, Copy)]
pub struct Entry {
    /// The number of the library.
    pub library: u32,
    pub declaration: Declaration,
}

/// The declarations that have numbers, by number.
pub fn numbered(alloc: Global, declared: &[Declared]) -> Result<Vec<Declared>, AllocError>
    ensures { IfOk result (λ found. found.items ≡ numbered declared.now) }
{
    declared
        .iter()
        .copied()
        .filter(|one| one.kind.is_numbered())
        .collect(alloc)
}

// Whether a library itself declares it, and none of its classes and functions.
fn is_own(kind: DeclaredKind) -> bool
    ensures { result ≡ is_own kind }
{
    match kind {
        DeclaredKind::Class | DeclaredKind::Alias => true,
        DeclaredKind::Owned(owner, _) => match owner {
            Owner::Library => true,
            Owner::Class | Owner::Object => false,
        },
        _ => false,
    }
}

// What the libraries declare, each with its number.
fn own(alloc: Global, numbered: &[Declared]) -> Result<Vec<(u32, Declared)>, AllocError>
    requires { length numbered.now < 2 ^ 32 }
    ensures { IfOk result (λ found. found.items ≡ own numbered.now) }
{
    let mut found = Vec::new(alloc);
    for (number, one) in numbered.iter().enumerate() {
        if is_own(one.kind) {
            found.push((number as u32, *one))?;
        }
    }
    Ok(found)
}

// Whether the text of the name begins with `_` (ECMA-408, 6.2 Privacy).
fn is_private(names: &Names, name: Name) -> bool
    ensures { result ≡ is_private_name names.now name }
{
    if name.0 >= names.count() {
        return false;
    }
    match names.text(name).as_bytes().first() {
        None => false,
        Some(first) => *first == b'_',
    }
}

fn entry_of(names: &Names, number: u32, one: &Declared, kind: Kind) -> Entry
    ensures { result ≡ entry_of names.now ((number, one.now), kind) }
{
    Entry {
        library: one.extent.scope.unit,
        declaration: Declaration {
            name: one.name,
            number,
            kind,
            is_private: is_private(names, one.name),
        },
    }
}

/// The declarations of all libraries, from the numbered ones and the kinds of what units declare for their libraries, both in
/// the order of units and tokens (ECMA-408, 18 Libraries and Scripts).
pub fn entries(
    alloc: Global,
    names: &Names,
    numbered: &[Declared],
    kinds: &[Kind],
) -> Result<Vec<Entry>, AllocError>
    requires { length numbered.now < 2 ^ 32 }
    ensures { IfOk result (λ all. all.items ≡ entries names.now numbered.now kinds.now) }
{
    let own = own(alloc, numbered)?;
    let found = own.as_slice();
    let mut all = Vec::new(alloc);
    for (at, (number, one)) in found.iter().enumerate() {
        if at >= kinds.len() {
            return Ok(all);
        }
        all.push(entry_of(names, *number, one, kinds[at]))?;
    }
    Ok(all)
}

/// What a library declares, in the order of units and tokens.
pub fn declarations_of(
    alloc: Global,
    entries: &[Entry],
    library: u32,
) -> Result<Vec<Declaration>, AllocError>
    ensures { IfOk result (λ found. found.items ≡ declarations_of entries.now library) }
{
    entries
        .iter()
        .filter(|entry| entry.library == library)
        .map(|entry| entry.declaration)
        .collect(alloc)
}
