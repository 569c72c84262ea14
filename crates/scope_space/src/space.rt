// The tables of one library's namespaces.
ghost use Rattle.std.specs.Prelude.{IfOk};
ghost use Rattle.scope_space.specs.Building.{IsSpaceFrom, AreSpacesFrom};

use crate::handed::Handed;
use crate::library::Library;
use crate::offer::{Offer, offers_of, prefixes_of};
use crate::table::Table;
use dart_base::name::Name;
use std::alloc::{AllocError, Global};

/// The namespaces of a library's imports: what they offer, and their prefixes.
#[derive(Drop)]
pub struct Space {
    pub offers: Table<Offer>,
    pub prefixes: Table<Name>,
}

/// The namespaces of the libraries, from all that these hand out.
pub fn spaces_of(
    alloc: Global,
    libraries: &[Library],
    handed: &Table<Handed>,
) -> Result<Vec<Space>, AllocError>
    ensures { IfOk result (λ spaces. AreSpacesFrom handed.now libraries.now spaces.items) }
{
    let mut spaces = Vec::new(alloc);
    for library in libraries {
        let space = space_of(alloc, library, handed)?;
        spaces.push(space)?;
    }
    Ok(spaces)
}

/// The namespaces of one library, from all that the libraries hand out.
fn space_of(alloc: Global, library: &Library, handed: &Table<Handed>) -> Result<Space, AllocError>
    ensures { IfOk result (λ space. IsSpaceFrom handed.now library.now space) }
{
    let offers = Table::new(offers_of(alloc, library, handed)?)?;
    let prefixes = Table::new(prefixes_of(alloc, library)?)?;
    Ok(Space { offers, prefixes })
}
