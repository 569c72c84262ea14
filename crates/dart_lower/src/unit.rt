// The units of a program, as they are translated.
ghost use Rattle.std.specs.Prelude.{◌≡◌, IfOk, map};
ghost use Rattle.std.specs.List.{zip};
ghost use Rattle.dart_lower.specs.Given.{file_name, source_unit};
ghost use Rattle.dart_tree.specs.UnitView as view;
ghost use Rattle.lower_leaf.specs.Around.{Around};
ghost use Rattle.lower_program.specs.Views as translated;

use dart_base::bytes::Bytes;
use dart_tree::unit::Unit;
use lower_leaf::fault::Want;
use lower_program::declaration::SourceUnit;
use scope_load::units::UnitName;
use std::alloc::{AllocError, Global};

/// Units, each with the library of the number beside it.
pub fn source_units<'a>(
    alloc: Global,
    homes: &[u32],
    units: &'a [Unit],
) -> Result<Vec<SourceUnit<'a>>, Want>
    ensures { IfOk result (λ made. (a : Around) → map (translated.source_unit a) made.items ≡ map (source_unit a) (zip homes.now (map view.unit units.now))) }
{
    let count = homes.len().min(units.len());
    let mut made = Vec::new(alloc);
    for place in 0..count {
        made.push(SourceUnit {
            library: homes[place],
            declarations: &units[place].declarations,
        })?;
    }
    Ok(made)
}

fn file_name(alloc: Global, name: &UnitName) -> Result<Bytes, AllocError>
    ensures { IfOk result (λ made. made ≡ file_name name.now) }
{
    match name {
        UnitName::File(name) => Bytes::from_slice(alloc, name.as_slice()),
        UnitName::Core => Bytes::from_slice(alloc, b"dart:core"),
        UnitName::Isolate => Bytes::from_slice(alloc, b"dart:isolate"),
    }
}

/// The names of units, as places in them are shown.
pub fn file_names(alloc: Global, names: &[UnitName]) -> Result<Vec<Bytes>, AllocError>
    ensures { IfOk result (λ made. made.items ≡ map file_name names.now) }
{
    let mut made = Vec::new(alloc);
    for name in names {
        made.push(file_name(alloc, name)?)?;
    }
    Ok(made)
}
