// The first reason against a program whose units are all loaded.
ghost use Rattle.std.specs.Prelude.{◌≡◌, ◌==◌, ◌<◌, ◌^◌, IfOk, IfSome, length, position};
ghost use Rattle.std.specs.Str.{byte};
ghost use Rattle.scope_load.specs.State.{state_of};
ghost use Rattle.scope_reason.specs.Reason.{duplicate_reason, main_reason, program_reason, reason_for, reason_in, reason_with};
ghost use Rattle.scope_reason.specs.Reason.{shown, text_of, unit_at};

use crate::declared::all_declared;
use crate::main_function::has_main;
use dart_base::bytes::Bytes;
use dart_base::name::Name;
use dart_base::names::Names;
use dart_base::place::Place;
use scope_declared::declaration::Declared;
use scope_library::library::homes;
use scope_load::loaded::Loaded;
use scope_load::units::UnitName;
use scope_name::table::names_of;
use scope_table::duplicate::duplicate;
use std::alloc::{AllocError, Global};

/// A reason against a program whose units are all loaded.
#[derive(Drop)]
pub enum ProgramReason {
    /// In this unit and at this place stands the second declaration of this name in one scope (ECMA-408, 6.1 Scoping).
    Duplicate(UnitName, Place, Bytes),
    /// The root library declares no function `main` with at most one required parameter (18.4 Scripts).
    NoMain,
}

// The unit that a place is in.
fn unit_at(alloc: Global, names: &[UnitName], place: Place) -> Result<UnitName, AllocError>
    ensures { IfOk result (λ unit. unit ≡ unit_at names.now place) }
{
    match names.get(place.unit as usize) {
        None => Ok(UnitName::Core),
        Some(name) => name.try_clone(alloc),
    }
}

fn text_of(names: &Names, name: Name) -> &[u8]
    ensures { result.now ≡ text_of names.now name.0 }
{
    if name.0 < names.count() {
        names.text(name).as_bytes()
    } else {
        b""
    }
}

fn position_of_library(text: &[u8]) -> Option<usize>
    ensures within { IfSome result (λ at. at < length text.now) }
    ensures position { result ≡ position (λ b. b == byte "@") text.now }
{
    text.iter().position(|byte| *byte == b'@')
}

// A name as it is shown.
fn shown(text: &[u8]) -> &[u8]
    ensures { result.now ≡ shown text.now }
{
    match position_of_library(text) {
        None => text,
        Some(at) => &text[..at],
    }
}

fn duplicate_reason(
    alloc: Global,
    units: &[UnitName],
    names: &Names,
    second: Declared,
) -> Result<ProgramReason, AllocError>
    ensures { IfOk result (λ reason. reason ≡ duplicate_reason units.now names.now second) }
{
    let unit = unit_at(alloc, units, second.place)?;
    let text = Bytes::from_slice(alloc, shown(text_of(names, second.name)))?;
    Ok(ProgramReason::Duplicate(unit, second.place, text))
}

fn main_reason(there: bool) -> Option<ProgramReason>
    ensures { result ≡ main_reason there }
{
    if there {
        None
    } else {
        Some(ProgramReason::NoMain)
    }
}

// A second declaration comes before what is missing.
fn reason_for(
    alloc: Global,
    units: &[UnitName],
    names: &Names,
    second: Option<Declared>,
    main: bool,
) -> Result<Option<ProgramReason>, AllocError>
    ensures { IfOk result (λ reason. reason ≡ reason_for units.now names.now second main) }
{
    match second {
        Some(second) => Ok(Some(duplicate_reason(alloc, units, names, second)?)),
        None => Ok(main_reason(main)),
    }
}

// The first reason, where the units have these libraries and these are the names in them.
fn reason_with(
    alloc: Global,
    loaded: &Loaded,
    homes: &[u32],
    names: &Names,
) -> Result<Option<ProgramReason>, AllocError>
    ensures { IfOk result (λ reason. reason ≡ reason_with (state_of loaded.now) homes.now names.now) }
{
    let declared = all_declared(alloc, names, homes, &loaded.units)?;
    let second = duplicate(alloc, &declared)?;
    let main = has_main(homes, &loaded.units);
    reason_for(alloc, &loaded.names, names, second, main)
}

fn reason_in(
    alloc: Global,
    loaded: &Loaded,
    homes: &[u32],
) -> Result<Option<ProgramReason>, AllocError>
    ensures { IfOk result (λ reason. reason ≡ reason_in (state_of loaded.now) homes.now) }
{
    let names = names_of(alloc, homes, &loaded.units)?;
    reason_with(alloc, loaded, homes, &names)
}

/// The first reason against a program whose units are all loaded: the second declaration of a name in a scope, in the order
/// of units and tokens (ECMA-408, 6.1 Scoping), or else that there is no `main` to begin with (18.4 Scripts).
#[tactic(auto, unfolding(crate::specs::Reason::program_reason))]
pub fn first_reason(alloc: Global, loaded: &Loaded) -> Result<Option<ProgramReason>, AllocError>
    requires { length loaded.now.units.items < 2 ^ 32 }
    ensures { IfOk result (λ reason. reason ≡ program_reason (state_of loaded.now)) }
{
    let homes = homes(alloc, loaded)?;
    reason_in(alloc, loaded, &homes)
}
