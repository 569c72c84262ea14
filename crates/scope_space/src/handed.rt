// All names that the libraries of a program hand out.
ghost use Rattle.std.specs.Prelude.{◌≡◌, ◌<◌, ◌^◌, ℕ, true, false, length, IfOk, OnOk};
ghost use Rattle.scope_space.specs.Namespace.{is_dart};
ghost use Rattle.scope_space.specs.Building.{exports, is_exported, SharesAt, AreHanded, ListsName, ListsAll, Keeps};

use crate::hand::handing;
use crate::library::Library;
use crate::table::Keyed;
use dart_base::name::Name;
use std::alloc::{AllocError, Global};

/// A name that a library hands out.
#[derive(Clone, Copy)]
pub struct Handed {
    /// The number of the library that hands it out.
    pub library: u32,
    pub name: Name,
    /// The number of the library that declares it.
    pub owner: u32,
    /// Whether the owner is one of `dart:`.
    pub is_dart: bool,
}

impl Keyed for Handed {
    ghost key_of = { λ handed. handed.library };

    fn key(&self) -> u32 {
        self.library
    }
}

/// All that the libraries hand out.
pub fn handed_of(alloc: Global, libraries: &[Library]) -> Result<Vec<Handed>, AllocError>
    requires { length libraries.now < 2 ^ 32 }
    ensures sound { IfOk result (λ handed. AreHanded libraries.now handed.items) }
    ensures complete { IfOk result (λ handed. (owner : ℕ) → ListsAll libraries.now handed.items owner) }
{
    let mut handed = Vec::new(alloc);
    for owner in 0..libraries.len() {
        hand_all(alloc, libraries, &mut handed, owner as u32)?;
    }
    Ok(handed)
}

/// Adds what is handed out as the owner declares it.
fn hand_all(
    alloc: Global,
    libraries: &[Library],
    handed: &mut Vec<Handed>,
    owner: u32,
) -> Result<(), AllocError>
    requires few { length libraries.now < 2 ^ 32 }
    requires listed { owner < length libraries.now }
    requires are { AreHanded libraries.now handed.old.items }
    ensures sound { OnOk result (AreHanded libraries.now handed.new.items) }
    ensures kept { OnOk result (Keeps handed.old.items handed.new.items) }
    ensures complete { OnOk result (ListsAll libraries.now handed.new.items owner) }
{
    let is_exported = is_exported(libraries, owner);
    let declarations = libraries[owner as usize].declarations.items();
    for declaration in declarations {
        if declaration.is_private {
            continue;
        }
        if is_exported {
            hand_on(alloc, libraries, handed, declaration.name, owner)?;
        } else {
            hand_alone(libraries, handed, declaration.name, owner)?;
        }
    }
    Ok(())
}

/// Adds the name under each library that hands it out as the owner declares it.
fn hand_on(
    alloc: Global,
    libraries: &[Library],
    handed: &mut Vec<Handed>,
    name: Name,
    owner: u32,
) -> Result<(), AllocError>
    requires few { length libraries.now < 2 ^ 32 }
    requires listed { owner < length libraries.now }
    requires are { AreHanded libraries.now handed.old.items }
    ensures sound { OnOk result (AreHanded libraries.now handed.new.items) }
    ensures kept { OnOk result (Keeps handed.old.items handed.new.items) }
    ensures complete { OnOk result (ListsName libraries.now handed.new.items owner name.0) }
{
    let marks = handing(alloc, libraries, name, owner as usize)?;
    let is_dart = is_of_dart(libraries, owner);
    for at in 0..libraries.len() {
        if !marks[at] {
            continue;
        }
        handed.push(Handed {
            library: at as u32,
            name,
            owner,
            is_dart,
        })?;
    }
    Ok(())
}

/// Adds a name that its owner alone hands out.
fn hand_alone(
    libraries: &[Library],
    handed: &mut Vec<Handed>,
    name: Name,
    owner: u32,
) -> Result<(), AllocError>
    requires listed { owner < length libraries.now }
    requires shared { SharesAt libraries.now owner name.0 }
    requires alone { is_exported libraries.now owner ≡ false }
    requires are { AreHanded libraries.now handed.old.items }
    ensures sound { OnOk result (AreHanded libraries.now handed.new.items) }
    ensures kept { OnOk result (Keeps handed.old.items handed.new.items) }
    ensures complete { OnOk result (ListsName libraries.now handed.new.items owner name.0) }
{
    let is_dart = is_of_dart(libraries, owner);
    handed.push(Handed {
        library: owner,
        name,
        owner,
        is_dart,
    })?;
    Ok(())
}

/// Whether the library of the number is one of `dart:`.
fn is_of_dart(libraries: &[Library], owner: u32) -> bool
    requires { owner < length libraries.now }
    ensures { result ≡ is_dart libraries.now owner }
{
    libraries[owner as usize].is_dart
}

/// Whether a library exports that of the number.
fn is_exported(libraries: &[Library], owner: u32) -> bool
    ensures { result ≡ is_exported libraries.now owner }
{
    libraries.iter().any(|library| exports(library, owner))
}

/// Whether the library exports that of the number.
fn exports(library: &Library, owner: u32) -> bool
    ensures { result ≡ exports library.now owner }
{
    library.exports.iter().any(|export| export.target == owner)
}
