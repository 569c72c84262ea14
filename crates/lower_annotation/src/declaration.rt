// The declarations of libraries.
#![tactic(auto, using(crate::proofs::Pushed::pushes))]

ghost use Rattle.std.specs.Prelude.{◌≡◌, ◌++◌, map, IfOk, OnOk};
ghost use Rattle.dart_tree.specs.UnitView as unit_view;
ghost use Rattle.lower_annotation.specs.Numbered as d;
ghost use Rattle.lower_annotation.specs.Seen.{placed};

use dart_tree::declaration::{Decl, DeclKind};
use dart_tree::unit::Unit;
use lower_leaf::fault::Want;
use lower_leaf::meaning::Outer;
use std::alloc::Global;

/// A declaration, in its library.
#[derive(Clone, Copy)]
pub struct Placed<'a> {
    pub library: u32,
    pub kind: &'a DeclKind,
}

/// Where names are looked up in a library.
pub fn library_outer(library: u32) -> Outer
    ensures { result ≡ d.library_outer library }
{
    Outer {
        library,
        class: None,
    }
}

// The declarations of a unit, behind those before it.
fn add_unit<'a>(made: &mut Vec<Placed<'a>>, library: u32, all: &'a [Decl]) -> Result<(), Want>
    ensures { OnOk result (map placed made.new.items ≡ map placed made.old.items ++ map (d.placed library) (map unit_view.decl all.now)) }
{
    for one in all {
        made.push(Placed {
            library,
            kind: &one.kind,
        })?;
    }
    Ok(())
}

// The declarations of units, behind those before them.
fn add_units<'a>(made: &mut Vec<Placed<'a>>, homes: &[u32], units: &'a [Unit]) -> Result<(), Want>
    ensures { OnOk result (map placed made.new.items ≡ map placed made.old.items ++ d.declarations homes.now (map unit_view.unit units.now)) }
{
    match homes {
        [] => Ok(()),
        [library, homes @ ..] => match units {
            [] => Ok(()),
            [unit, units @ ..] => {
                add_unit(made, *library, &unit.declarations)?;
                add_units(made, homes, units)
            }
        },
    }
}

/// The declarations of units, each in the library of the number beside its unit.
pub fn declarations<'a>(
    alloc: Global,
    homes: &[u32],
    units: &'a [Unit],
) -> Result<Vec<Placed<'a>>, Want>
    ensures { IfOk result (λ made. map placed made.items ≡ d.declarations homes.now (map unit_view.unit units.now)) }
{
    let mut made = Vec::new(alloc);
    add_units(&mut made, homes, units)?;
    Ok(made)
}
