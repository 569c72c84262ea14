// The units of a program, with what its names mean.
ghost use Rattle.std.specs.Prelude.{◌≡◌, IfOk, map, slice_get};
ghost use Rattle.dart_tree.specs.UnitView as view;
ghost use Rattle.scope_space.specs.Namespace.{IsBinding};
ghost use Rattle.dart_scope.specs.Program.{AreUnits, IsUnit, Means, MeansIn, all_declared};

use crate::meaning::{Meaning, has_instance, meaning_of};
use dart_base::name::Name;
use dart_base::names::Names;
use dart_base::place::Place;
use dart_tree::unit::Unit;
use scope_declared::declaration::Declared;
use scope_space::bound::{Binding, Bound};
use scope_space::spaces::Spaces;
use scope_table::instance::{Stretch, stretches};
use scope_table::lookup::Scopes;
use scope_walk::declares;
use std::alloc::{AllocError, Global};

/// A unit of a program: its library, its declarations for looking names up, and where it has no instance.
#[derive(Drop)]
pub struct SourceUnit {
    pub library: u32,
    pub(crate) scopes: Scopes,
    pub(crate) without_instance: Vec<Stretch>,
}

/// A program whose names have their declarations: its units by number, the namespaces of its libraries, and the
/// declarations that have numbers, by number.
#[derive(Drop)]
pub struct Program {
    pub units: Vec<SourceUnit>,
    pub spaces: Spaces,
    pub numbered: Vec<Declared>,
}

/// What the units of a program declare, unit by unit, each as one of the library of the number that `homes` has for it.
pub fn all_declared(
    alloc: Global,
    names: &Names,
    homes: &[u32],
    units: &[Unit],
) -> Result<Vec<Declared>, AllocError>
    ensures { IfOk result (λ all. all.items ≡ all_declared names.now homes.now (map view.unit units.now)) }
{
    let mut all = Vec::new(alloc);
    for (at, unit) in units.iter().enumerate() {
        if at >= homes.len() {
            return Ok(all);
        }
        let more = declares(alloc, names, homes[at], unit)?;
        all.extend_from_slice(&more)?;
    }
    Ok(all)
}

// A unit of a library, with what its names mean.
fn source_unit(
    alloc: Global,
    names: &Names,
    library: u32,
    unit: &Unit,
) -> Result<SourceUnit, AllocError>
    ensures { IfOk result (λ made. IsUnit names.now library (view.unit unit.now) made) }
{
    let declared = declares(alloc, names, library, unit)?;
    let scopes = Scopes::new(alloc, declared)?;
    let without_instance = stretches(alloc, unit)?;
    Ok(SourceUnit {
        library,
        scopes,
        without_instance,
    })
}

/// The units of a program, each as one of the library of the number that `homes` has for it.
pub(crate) fn source_units(
    alloc: Global,
    names: &Names,
    homes: &[u32],
    units: &[Unit],
) -> Result<Vec<SourceUnit>, AllocError>
    ensures { IfOk result (λ made. AreUnits names.now homes.now (map view.unit units.now) made.items) }
{
    let mut made = Vec::new(alloc);
    for (at, unit) in units.iter().enumerate() {
        if at >= homes.len() {
            return Ok(made);
        }
        let one = source_unit(alloc, names, homes[at], unit)?;
        made.push(one)?;
    }
    Ok(made)
}

// What a name means in a library outside the scopes of its units.
fn binding(spaces: &Spaces, library: u32, name: Name) -> Binding
    ensures { IsBinding spaces.now library name.0 result }
{
    if library as usize >= spaces.libraries().len() {
        return Binding::Imported(Bound::Unknown);
    }
    spaces.binding(library, name)
}

// What a name means at a place of a unit.
fn meaning_in(unit: &SourceUnit, spaces: &Spaces, at: Place, name: Name) -> Meaning
    ensures { MeansIn unit.now spaces.now at name result }
{
    match unit.scopes.lookup(at, name) {
        Some(one) => meaning_of(has_instance(&unit.without_instance, at), &one),
        None => Meaning::Outer(binding(spaces, unit.library, name)),
    }
}

impl Program {
    /// What a name means at a place of the program (ECMA-408, 16.33 Identifier Reference): nothing at a place of no unit. Takes
    /// no memory.
    pub fn lookup(&self, at: Place, name: Name) -> Meaning
        ensures { Means self.now.units.items self.now.spaces at name result }
    {
        match self.units.get(at.unit as usize) {
            Some(unit) => meaning_in(unit, &self.spaces, at, name),
            None => Meaning::Outer(Binding::Imported(Bound::Unknown)),
        }
    }

    /// The declaration of a number, or None where no declaration has it. Takes no memory.
    pub fn declaration(&self, number: u32) -> Option<Declared>
        ensures { result ≡ slice_get self.now.numbered.items number }
    {
        self.numbered.get(number as usize).copied()
    }
}
