// What a unit declares.
ghost use Rattle.std.specs.Prelude.{◌≡◌, IfOk};
ghost use Rattle.scope_declared.specs.Number.{library_place, number_of};
ghost use Rattle.scope_declared.specs.UnitDeclared.{unit_declares};
ghost use Rattle.dart_tree.specs.UnitView as uv;

use crate::leaf::Walk;
use dart_base::names::Names;
use dart_tree::unit::Unit;
use scope_declared::declaration::{Declared, Extent};
use scope_declared::number::library_place;
use std::alloc::{AllocError, Global};

/// The declarations of a unit of a library in the order of their tokens, each with where it counts (ECMA-408, 6.1 Scoping).
///
/// `names` gives the numbers of identifiers and operators; each of them should be there, a private one with `@` and the
/// library's number behind it (6.2 Privacy), since all that are not there have the one name `NO_NAME`. Takes any tree.
pub fn declares(
    alloc: Global,
    names: &Names,
    library: u32,
    unit: &Unit,
) -> Result<Vec<Declared>, AllocError>
    ensures { IfOk result (λ found. found.items ≡
        unit_declares (number_of names.now library) (library_place library) (uv.unit unit.now)) }
{
    let walk = Walk {
        alloc,
        names,
        library,
    };
    let mut found = Vec::new(alloc);
    let scope = library_place(library);
    let extent = Extent {
        scope,
        after: scope,
        last: scope,
    };
    walk.decls(&mut found, extent, &unit.declarations)?;
    Ok(found)
}
