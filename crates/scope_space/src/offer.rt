// What the imports of a library offer.
ghost use Rattle.std.specs.Prelude.{◌≡◌, ◌++◌, IfOk, OnOk};
ghost use Rattle.std.specs.List.{filter_map, flat_map};
ghost use Rattle.scope_space.specs.Building.{offered, offered_by};

use crate::combinator::passes;
use crate::handed::Handed;
use crate::library::{Import, Library};
use crate::table::{Keyed, Table};
use dart_base::name::Name;
use std::alloc::{AllocError, Global};

/// A name that an import of a library offers.
#[derive(Clone, Copy)]
pub struct Offer {
    pub name: Name,
    /// The prefix of the import.
    pub prefix: Option<Name>,
    /// The number of the library that declares the name.
    pub owner: u32,
    /// Whether the owner is one of `dart:`.
    pub is_dart: bool,
}

impl Keyed for Offer {
    ghost key_of = { λ offer. offer.name.0 };

    fn key(&self) -> u32 {
        self.name.0
    }
}

/// All that the imports of the library offer, of what libraries hand out.
pub fn offers_of(
    alloc: Global,
    library: &Library,
    handed: &Table<Handed>,
) -> Result<Vec<Offer>, AllocError>
    ensures { IfOk result (λ offers. offers.items ≡ flat_map (offered_by handed.now) library.now.imports.items) }
{
    let mut offers = Vec::new(alloc);
    for import in &library.imports {
        add_offers(&mut offers, import, handed.under(import.target))?;
    }
    Ok(offers)
}

/// Adds what the import offers of what its library hands out.
fn add_offers(offers: &mut Vec<Offer>, import: &Import, handed: &[Handed]) -> Result<(), AllocError>
    ensures { OnOk result (offers.new.items ≡ offers.old.items ++ filter_map (offered import.now) handed.now) }
{
    for one in handed {
        if passes(one.name, &import.combinators) {
            offers.push(Offer {
                name: one.name,
                prefix: import.prefix,
                owner: one.owner,
                is_dart: one.is_dart,
            })?;
        }
    }
    Ok(())
}

/// The prefixes of the imports of the library.
pub fn prefixes_of(alloc: Global, library: &Library) -> Result<Vec<Name>, AllocError>
    ensures { IfOk result (λ prefixes. prefixes.items ≡ filter_map (λ import. import.prefix) library.now.imports.items) }
{
    library
        .imports
        .iter()
        .filter_map(|import| import.prefix)
        .collect(alloc)
}
