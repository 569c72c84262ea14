// The program that loaded units make.
ghost use Rattle.std.specs.Prelude.{◌≡◌, ◌<◌, ◌^◌, IfOk, flat_map, length, map};
ghost use Rattle.dart_tree.specs.UnitView as view;
ghost use Rattle.scope_load.specs.State.{state_of};
ghost use Rattle.scope_entry.specs.Entries.{entries, numbered};
ghost use Rattle.scope_entry.specs.Kinds.{unit_kinds};
ghost use Rattle.scope_entry.specs.Libraries.{AreLibraries};
ghost use Rattle.dart_scope.specs.Making.{IsProgram};
ghost use Rattle.dart_scope.specs.Program.{all_declared};

use crate::program::{Program, all_declared, source_units};
use dart_base::names::Names;
use dart_tree::unit::Unit;
use scope_declared::declaration::Declared;
use scope_entry::entry::{entries, numbered};
use scope_entry::kind::kinds_of;
use scope_entry::library::libraries;
use scope_load::loaded::Loaded;
use scope_space::spaces::Spaces;
use std::alloc::{AllocError, Global};

/// The numbered declarations of units, each as one of the library of the number that `homes` has for it.
pub fn numbered_in(
    alloc: Global,
    names: &Names,
    homes: &[u32],
    units: &[Unit],
) -> Result<Vec<Declared>, AllocError>
    ensures { IfOk result (λ found. found.items ≡ numbered (all_declared names.now homes.now (map view.unit units.now))) }
{
    let declared = all_declared(alloc, names, homes, units)?;
    let all = declared.as_slice();
    let found = numbered(alloc, all)?;
    Ok(found)
}

/// The libraries of loaded units, with their namespaces, from the numbered declarations (ECMA-408, 18 Libraries and Scripts).
pub fn spaces_of(
    alloc: Global,
    names: &Names,
    numbered: &[Declared],
    loaded: &Loaded,
) -> Result<Spaces, AllocError>
    requires units { length loaded.now.units.items < 2 ^ 32 }
    requires few { length numbered.now < 2 ^ 32 }
    ensures { IfOk result (λ spaces. AreLibraries names.now
        (entries names.now numbered.now (flat_map unit_kinds (map view.unit loaded.now.units.items))) (state_of loaded.now) spaces) }
{
    let trees = loaded.units.as_slice();
    let kinds = kinds_of(alloc, trees)?;
    let listed = kinds.as_slice();
    let all = entries(alloc, names, numbered, listed)?;
    let declared = all.as_slice();
    let libraries = libraries(alloc, names, declared, loaded)?;
    let spaces = Spaces::new(alloc, libraries)?;
    Ok(spaces)
}

impl Program {
    /// The program of loaded units, where `homes` has the number of the library of each unit (ECMA-408, 18 Libraries and
    /// Scripts).
    ///
    /// `names` gives the numbers of identifiers; each of them should be there, a private one with `@` and the library's number
    /// behind it (6.2 Privacy), since all that are not there have the one name `NO_NAME`. For 2^32 numbered declarations there
    /// is no memory.
    pub fn new(
        alloc: Global,
        names: &Names,
        homes: &[u32],
        loaded: &Loaded,
    ) -> Result<Self, AllocError>
        requires { length loaded.now.units.items < 2 ^ 32 }
        ensures { IfOk result (λ program. IsProgram names.now homes.now (state_of loaded.now) program) }
    {
        let trees = loaded.units.as_slice();
        let numbered = numbered_in(alloc, names, homes, trees)?;
        if numbered.len() > u32::MAX as usize {
            return Err(AllocError);
        }
        let declared = numbered.as_slice();
        let spaces = spaces_of(alloc, names, declared, loaded)?;
        let units = source_units(alloc, names, homes, trees)?;
        Ok(Program {
            units,
            spaces,
            numbered,
        })
    }
}
