// The classes of a program, in source order.
#![tactic(auto, using(crate::proofs::Pushed::pushes))]

ghost use Rattle.std.specs.Prelude.{◌≡◌, ◌++◌, [], length, map, codes, OnOk, IfOk};
ghost use Rattle.dart_base.specs.Names.{AreDistinct};
ghost use Rattle.dart_tree.specs.UnitView as unit_view;
ghost use Rattle.lower_leaf.specs.Around.{text};
ghost use Rattle.class_source.specs.Source as source;
ghost use Rattle.class_source.specs.View.{IsSource};
ghost use Rattle.class_reader.specs.Given.{AreJoint, given_of, source_unit, source_units};
ghost use Rattle.class_reader.specs.Seen.{classes};

use crate::class::class_row;
use crate::enumeration::enum_row;
use crate::home::Home;
use crate::position::Positions;
use class_fault::program::{Declaration, Program};
use dart_base::name::Name;
use dart_ir::number::ClassId;
use dart_tree::declaration::{Decl, DeclKind};
use dart_tree::unit::Unit;
use lower_leaf::fault::Want;
use lower_leaf::name::find;
use lower_leaf::surroundings::Surroundings;
use std::alloc::Global;

// The number of the class behind these.
fn next_class(made: &Vec<Declaration>) -> Result<ClassId, Want>
    ensures { IfOk result (λ number. number.0 ≡ length made.now.items) }
{
    match u32::try_from(made.len()) {
        Ok(number) => Ok(ClassId(number)),
        Err(_) => Err(Want),
    }
}

// The class that a declaration is, behind those before it, where it is one.
fn add_declared<S: Surroundings, P: Positions>(
    alloc: Global,
    headers: &S,
    members: &S,
    positions: &P,
    made: &mut Vec<Declaration>,
    home: Home,
    kind: &DeclKind,
) -> Result<(), Want>
    requires { AreJoint (S.around headers.now) (S.around members.now) (P.libraries positions.now) }
    ensures { OnOk result (classes (S.around members.now) made.new ≡ classes (S.around members.now) made.old ++ source.declared_class
        (given_of (S.around headers.now) (S.around members.now) (P.libraries positions.now) (P.numbers positions.now))
        (source_unit home []) (length made.old.items) (unit_view.decl_kind kind.now)) }
{
    match kind {
        DeclKind::Class(x) => {
            let number = next_class(made)?;
            let class = class_row(alloc, headers, members, positions, home, number, x)?;
            made.push(class)?;
            Ok(())
        }
        DeclKind::Enum(x) => {
            let class = enum_row(alloc, headers, members, positions, home, x)?;
            made.push(class)?;
            Ok(())
        }
        DeclKind::Alias(_) => Ok(()),
        DeclKind::Function(_) => Ok(()),
        DeclKind::Accessor(_) => Ok(()),
        DeclKind::Variables(_) => Ok(()),
    }
}

// The classes of a unit, behind those before it.
fn add_unit<S: Surroundings, P: Positions>(
    alloc: Global,
    headers: &S,
    members: &S,
    positions: &P,
    made: &mut Vec<Declaration>,
    home: Home,
    all: &Vec<Decl>,
) -> Result<(), Want>
    requires { AreJoint (S.around headers.now) (S.around members.now) (P.libraries positions.now) }
    ensures { OnOk result (classes (S.around members.now) made.new ≡ classes (S.around members.now) made.old ++ source.declared_classes
        (given_of (S.around headers.now) (S.around members.now) (P.libraries positions.now) (P.numbers positions.now))
        (source_unit home (map unit_view.decl all.now.items)) (length made.old.items) (map unit_view.decl all.now.items)) }
{
    for one in all {
        add_declared(alloc, headers, members, positions, made, home, &one.kind)?;
    }
    Ok(())
}

// The classes of the units, behind those before them.
fn add_units<S: Surroundings, P: Positions>(
    alloc: Global,
    headers: &S,
    members: &S,
    positions: &P,
    made: &mut Vec<Declaration>,
    homes: &[Home],
    units: &[Unit],
) -> Result<(), Want>
    requires { AreJoint (S.around headers.now) (S.around members.now) (P.libraries positions.now) }
    ensures { OnOk result (classes (S.around members.now) made.new ≡ classes (S.around members.now) made.old ++ source.unit_classes
        (given_of (S.around headers.now) (S.around members.now) (P.libraries positions.now) (P.numbers positions.now))
        (length made.old.items) (source_units homes.now units.now)) }
{
    match homes {
        [] => Ok(()),
        [home, homes @ ..] => match units {
            [] => Ok(()),
            [unit, units @ ..] => {
                add_unit(
                    alloc,
                    headers,
                    members,
                    positions,
                    made,
                    *home,
                    &unit.declarations,
                )?;
                add_units(alloc, headers, members, positions, made, homes, units)
            }
        },
    }
}

// The library of the first unit of `dart:core`; where there is none, 0.
fn core_library(homes: &[Home], units: &[Unit]) -> u32
    ensures { result ≡ source.core_library (source_units homes.now units.now) }
{
    match homes {
        [] => 0,
        [home, homes @ ..] => match units {
            [] => 0,
            [_, units @ ..] => {
                if home.is_core {
                    home.library
                } else {
                    core_library(homes, units)
                }
            }
        },
    }
}

// The first class of the name in the library; where there is none, past the last.
fn class_called<S: Surroundings>(
    outside: &S,
    library: u32,
    name: &[u8],
    all: &Vec<Declaration>,
) -> Result<usize, Want>
    requires distinct { AreDistinct (S.around outside.now).texts }
    requires named { name.now ≡ [] → ⊥ }
    ensures { IfOk result (λ found. found ≡ source.class_called library name.now 0 (classes (S.around outside.now) all.now)) }
{
    let wanted = find(outside, name)?;
    for (index, one) in all.iter().enumerate() {
        if one.library == library && one.name == wanted {
            return Ok(index);
        }
    }
    Ok(all.len())
}

/// The classes of a program, as the declarations of its units give them. A unit and the home at its place belong together,
/// and what has no partner counts for nothing.
pub fn read_program<S: Surroundings, P: Positions>(
    alloc: Global,
    headers: &S,
    members: &S,
    positions: &P,
    homes: &[Home],
    units: &[Unit],
) -> Result<Program, Want>
    requires joint { AreJoint (S.around headers.now) (S.around members.now) (P.libraries positions.now) }
    requires distinct { AreDistinct (S.around members.now).texts }
    ensures { IfOk result (λ program. IsSource
        (given_of (S.around headers.now) (S.around members.now) (P.libraries positions.now) (P.numbers positions.now))
        (source_units homes.now units.now) (S.around members.now).texts program) }
{
    let mut declarations = Vec::new(alloc);
    add_units(
        alloc,
        headers,
        members,
        positions,
        &mut declarations,
        homes,
        units,
    )?;
    let library = core_library(homes, units);
    let object = class_called(members, library, b"Object", &declarations)?;
    let function = class_called(members, library, b"Function", &declarations)?;
    let call = find(members, b"call")?;
    Ok(Program {
        declarations,
        object,
        function,
        call,
    })
}
