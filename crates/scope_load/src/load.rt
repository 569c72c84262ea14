// The units of a program from its root.
ghost use Rattle.std.specs.Prelude.{◌≡◌, ◌+◌, ◌*◌, ◌^◌, ◌<◌, ◌≤◌, length, IfOk, OnOk, false};
ghost use Rattle.dart_edge.specs.Fault.{Counts};
ghost use Rattle.dart_tree.specs.UnitView as view;
ghost use Rattle.scope_load.specs.Found.{read, SameUnits};
ghost use Rattle.scope_load.specs.Load.{reason_against, Reaches, Answers, Turns, Judges, load_failed};
ghost use Rattle.scope_load.specs.State.{state_of, start, after, most_units};

use crate::follow::enter;
use crate::judge::{check_directives, left_out};
use crate::loaded::Loaded;
use crate::reason::{LoadFault, Reason};
use crate::units::{Found, TakeFault, UnitName, UnitReader};
use dart_base::bytes::Bytes;
use dart_base::limit::PROGRAM_WEIGHT;
use dart_tree::unit::Unit;
use scope_mention::mention::mentions;
use std::alloc::{AllocError, Global};

// Takes the next unit, of this name and weight, if nothing is against it.
fn add(
    alloc: Global,
    root: &[u8],
    loaded: &mut Loaded,
    name: UnitName,
    unit: Unit,
    weight: u32,
) -> Result<(), LoadFault>
    requires room { length loaded.old.names.items ≤ most_units }
    requires units { length loaded.old.units.items < most_units }
    requires weight { loaded.old.weight ≤ length loaded.old.units.items * 2 ^ 32 }
    ensures judges { Judges (reason_against root.now (state_of loaded.old) name (read (view.unit unit) weight)) result }
    ensures failed { load_failed result ≡ false }
    ensures state { OnOk result (state_of loaded.new ≡ after root.now (state_of loaded.old) name (view.unit unit) weight) }
    ensures units { OnOk result (length loaded.new.units.items ≡ length loaded.old.units.items + 1) }
    ensures room { OnOk result (length loaded.new.names.items ≤ most_units) }
    ensures weight { OnOk result (loaded.new.weight ≤ length loaded.new.units.items * 2 ^ 32) }
{
    let mentions = mentions(alloc, &unit)?;
    if let Some((place, feature)) = left_out(&mentions) {
        return Err(LoadFault::Refused(name, Reason::LeftOut(place, feature)));
    }
    let at = loaded.units.len() as u32;
    enter(alloc, root, loaded, &name, unit, weight, &mentions)?;
    check_directives(alloc, loaded, at, name)
}

// Takes the next unit.
fn take_next<S, U: UnitReader<S>>(
    alloc: Global,
    root: &[u8],
    units: &U,
    from: &mut S,
    loaded: &mut Loaded,
) -> Result<(), LoadFault>
    requires left { length loaded.old.units.items < length loaded.old.names.items }
    requires room { length loaded.old.names.items ≤ most_units }
    requires weight { loaded.old.weight ≤ length loaded.old.units.items * 2 ^ 32 }
    ensures turn { Reaches (U.gives units.now from.old) root.now (state_of loaded.old)
        → Turns (U.gives units.now from.old) root.now result (state_of loaded.new) }
    ensures same { SameUnits (U.gives units.now from.old) (U.gives units.now from.new) }
    ensures files { U.files units.now from.new ≡ U.files units.now from.old }
    ensures cause { Counts (load_failed result) (U.faults units.now from.old) (U.faults units.now from.new) }
    ensures units { OnOk result (length loaded.new.units.items ≡ length loaded.old.units.items + 1) }
    ensures room { OnOk result (length loaded.new.names.items ≤ most_units) }
    ensures weight { OnOk result (loaded.new.weight ≤ length loaded.new.units.items * 2 ^ 32) }
{
    let at = loaded.units.len();
    let name = loaded.names[at].try_clone(alloc)?;
    match units.take(from, at as u32, &name) {
        Ok(Found::Read(unit, weight)) => add(alloc, root, loaded, name, unit, weight),
        Ok(Found::Absent) => Err(LoadFault::Refused(name, Reason::NotFound)),
        Ok(Found::Refused(text)) => Err(LoadFault::Refused(name, Reason::Text(text))),
        Err(TakeFault::Failed) => Err(LoadFault::Failed),
        Err(TakeFault::Memory) => Err(LoadFault::Memory),
    }
}

// The names that every program has, with no unit taken.
fn begin(alloc: Global, root: &[u8]) -> Result<Loaded, AllocError>
    ensures { IfOk result (λ loaded. state_of loaded ≡ start root.now) }
{
    let mut names = Vec::new(alloc);
    names.push(UnitName::File(Bytes::from_slice(alloc, root)?))?;
    names.push(UnitName::Core)?;
    names.push(UnitName::Isolate)?;
    Ok(Loaded {
        names,
        units: Vec::new(alloc),
        links: Vec::new(alloc),
        weight: 0,
        over: false,
    })
}

/// The units of a program in order of first mention, each taken once in that order, from the file with the name `root`;
/// or the first reason against them (ECMA-408, 18 Libraries and Scripts). At most 64 files of a weight of 8,000,000 are
/// taken, beside `dart:core` and `dart:isolate`.
pub fn load<S, U: UnitReader<S>>(
    alloc: Global,
    units: &U,
    from: &mut S,
    root: &[u8],
) -> Result<Loaded, LoadFault>
    ensures answer { Answers (U.gives units.now from.old) root.now result }
    ensures same { SameUnits (U.gives units.now from.old) (U.gives units.now from.new) }
    ensures files { U.files units.now from.new ≡ U.files units.now from.old }
    ensures cause { Counts (load_failed result) (U.faults units.now from.old) (U.faults units.now from.new) }
    ensures units { IfOk result (λ loaded. length loaded.units.items ≤ most_units) }
{
    let mut loaded = begin(alloc, root)?;
    'units: while loaded.units.len() < loaded.names.len() {
        match take_next(alloc, root, units, from, &mut loaded) {
            Ok(()) => {}
            Err(fault) => return Err(fault),
        }
    }
    if loaded.over || loaded.weight > PROGRAM_WEIGHT as u64 {
        return Err(LoadFault::TooLarge);
    }
    Ok(loaded)
}
