// What the units of a program declare.
ghost use Rattle.std.specs.Prelude.{◌≡◌, ◌++◌, IfOk, OnOk, map};
ghost use Rattle.dart_tree.specs.UnitView as view;
ghost use Rattle.scope_reason.specs.Declarations.{all_declared, declared_in};

use dart_base::names::Names;
use dart_tree::unit::Unit;
use scope_declared::declaration::Declared;
use scope_walk::declares;
use std::alloc::{AllocError, Global};

// Adds what a unit of the library declares.
fn add_unit(
    alloc: Global,
    found: &mut Vec<Declared>,
    names: &Names,
    library: u32,
    unit: &Unit,
) -> Result<(), AllocError>
    ensures { OnOk result (found.new.items ≡ found.old.items ++ declared_in names.now library (view.unit unit.now)) }
{
    let more = declares(alloc, names, library, unit)?;
    found.extend_from_slice(&more)
}

fn add_units(
    alloc: Global,
    found: &mut Vec<Declared>,
    names: &Names,
    homes: &[u32],
    units: &[Unit],
) -> Result<(), AllocError>
    ensures { OnOk result (found.new.items ≡ found.old.items ++ all_declared names.now homes.now (map view.unit units.now)) }
{
    match homes {
        [] => Ok(()),
        [library, homes @ ..] => match units {
            [] => Ok(()),
            [unit, units @ ..] => {
                add_unit(alloc, found, names, *library, unit)?;
                add_units(alloc, found, names, homes, units)
            }
        },
    }
}

/// What units declare, unit by unit and in the order of their tokens, where each belongs to the library of the number beside
/// it (ECMA-408, 6.1 Scoping). `names` gives the numbers of their identifiers.
pub fn all_declared(
    alloc: Global,
    names: &Names,
    homes: &[u32],
    units: &[Unit],
) -> Result<Vec<Declared>, AllocError>
    ensures { IfOk result (λ found. found.items ≡ all_declared names.now homes.now (map view.unit units.now)) }
{
    let mut found = Vec::new(alloc);
    add_units(alloc, &mut found, names, homes, units)?;
    Ok(found)
}
