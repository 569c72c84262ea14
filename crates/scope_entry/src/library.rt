// The libraries of a program, as their namespaces are made from them.
ghost use Rattle.std.specs.Prelude.{◌≡◌, ◌<◌, ◌^◌, IfOk, length, slice_get};
ghost use Rattle.scope_load.specs.State.{state_of};
ghost use Rattle.scope_library.specs.Library.{library_is};
ghost use Rattle.scope_entry.specs.Libraries.{AreLibraries, IsLibrary, is_dart_name};

use crate::directive::{exports, imports};
use crate::entry::{Entry, declarations_of};
use dart_base::names::Names;
use scope_library::library::{Library as Loadable, libraries as libraries_of, number_of};
use scope_load::loaded::Loaded;
use scope_load::units::UnitName;
use scope_space::library::Library;
use scope_space::table::Table;
use std::alloc::{AllocError, Global};

// Whether the unit at a place is a library of the language, and no file.
fn is_dart(names: &[UnitName], at: u32) -> bool
    ensures { result ≡ is_dart_name (slice_get names.now at) }
{
    match names.get(at as usize) {
        None => false,
        Some(name) => match name {
            UnitName::File(_) => false,
            UnitName::Core | UnitName::Isolate => true,
        },
    }
}

// A library of a program.
fn library(
    alloc: Global,
    names: &Names,
    entries: &[Entry],
    loaded: &Loaded,
    of: &Loadable,
) -> Result<Library, AllocError>
    requires { length loaded.now.units.items < 2 ^ 32 }
    ensures { IfOk result (λ made. IsLibrary names.now entries.now (state_of loaded.now) (library_is of.now) made) }
{
    let units = loaded.units.as_slice();
    let number = number_of(units, of.unit);
    let declared = declarations_of(alloc, entries, number)?;
    let declarations = Table::new(declared)?;
    let imported = of.imports.as_slice();
    let imports = imports(alloc, names, number, units, of.unit, imported)?;
    let exported = of.exports.as_slice();
    let exports = exports(alloc, names, number, units, of.unit, exported)?;
    let unit_names = loaded.names.as_slice();
    Ok(Library {
        is_dart: is_dart(unit_names, of.unit),
        declarations,
        imports,
        exports,
    })
}

/// The libraries of a program, by number, from the declarations of all libraries. `names` gives the numbers of prefixes and of
/// the names that combinators list (ECMA-408, 18 Libraries and Scripts).
pub fn libraries(
    alloc: Global,
    names: &Names,
    entries: &[Entry],
    loaded: &Loaded,
) -> Result<Vec<Library>, AllocError>
    requires { length loaded.now.units.items < 2 ^ 32 }
    ensures { IfOk result (λ made. AreLibraries names.now entries.now (state_of loaded.now) made.items) }
{
    let all = libraries_of(alloc, loaded)?;
    let read = all.as_slice();
    let mut made = Vec::new(alloc);
    for of in read {
        let one = library(alloc, names, entries, loaded, of)?;
        made.push(one)?;
    }
    Ok(made)
}
