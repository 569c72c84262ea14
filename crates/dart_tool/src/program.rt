// The units of a program of several files, or why it is refused.
ghost use Rattle.std.specs.Prelude.{◌≡◌, ◌⊎◌, IfOk, false};
ghost use Rattle.dart_edge.specs.Fault.{Counts};
ghost use Rattle.dart_tool.specs.declared.program.RunStop.TheVariants.{Memory, Refused};
ghost use Rattle.scope_load.specs.State.{state_of};
ghost use Rattle.dart_tool.specs.Program.{LoadGives, execution_refusal, fault_failed, load_stop, program_refusal, run_failed, stop_failed};
ghost use Rattle.dart_tool.specs.Program.{unit_at, unit_file, unit_refusal};

use crate::status::Refusal;
use dart_base::bytes::Bytes;
use dart_base::place::Place;
use dart_edge::source::Sources;
use dart_execute::cause::Cause;
use scope_files::check::{Checked, check};
use scope_load::loaded::Loaded;
use scope_load::reason::{LoadFault, Reason};
use scope_load::units::UnitName;
use scope_reason::reason::ProgramReason;
use std::alloc::{AllocError, Global};

/// A refusal, and the file that it is against.
#[derive(Drop)]
pub struct FileRefusal {
    /// The file's name; empty where the refusal is against the program.
    pub file: Bytes,
    pub why: Refusal,
}

/// Why a program isn't run.
#[derive(Drop)]
pub enum RunStop {
    /// It is refused.
    Refused(FileRefusal),
    /// A file could not be read.
    Failed,
    /// Memory ran out.
    Memory,
}

impl From<AllocError> for RunStop {
    ghost from_gives = { λ _ stop. stop ≡ Memory };

    fn from(_error: AllocError) -> RunStop {
        RunStop::Memory
    }
}

// The name by which a refusal calls a unit.
fn unit_file(alloc: Global, name: UnitName) -> Result<Bytes, AllocError>
    ensures { IfOk result (λ file. file ≡ unit_file name) }
{
    match name {
        UnitName::File(name) => Ok(name),
        UnitName::Core => Bytes::from_slice(alloc, b"dart:core"),
        UnitName::Isolate => Bytes::from_slice(alloc, b"dart:isolate"),
    }
}

// The same of a unit that stays where it is.
fn file_of_unit(alloc: Global, name: &UnitName) -> Result<Bytes, AllocError>
    ensures { IfOk result (λ file. file ≡ unit_file name.now) }
{
    match name {
        UnitName::File(name) => Bytes::from_slice(alloc, name.as_slice()),
        UnitName::Core => Bytes::from_slice(alloc, b"dart:core"),
        UnitName::Isolate => Bytes::from_slice(alloc, b"dart:isolate"),
    }
}

// The file that a place is in.
fn file_at(alloc: Global, loaded: &Loaded, place: Place) -> Result<Bytes, AllocError>
    ensures { IfOk result (λ file. file ≡ unit_file (unit_at (state_of loaded.now) place)) }
{
    match loaded.names.get(place.unit as usize) {
        Some(name) => file_of_unit(alloc, name),
        None => Bytes::from_slice(alloc, b"dart:core"),
    }
}

/// The refusal of a program whose units are loaded, for what is found at a place.
pub fn execution_refusal(
    alloc: Global,
    loaded: &Loaded,
    place: Place,
    cause: Cause,
) -> Result<FileRefusal, AllocError>
    ensures { IfOk result (λ against. against ≡ execution_refusal (state_of loaded.now) place cause) }
{
    Ok(FileRefusal {
        file: file_at(alloc, loaded, place)?,
        why: Refusal::of_cause(place, cause),
    })
}

// The refusal of a unit of this name.
fn unit_refusal(alloc: Global, name: UnitName, reason: Reason) -> Result<FileRefusal, AllocError>
    ensures { IfOk result (λ against. against ≡ unit_refusal name reason) }
{
    Ok(FileRefusal {
        file: unit_file(alloc, name)?,
        why: Refusal::of_reason(reason),
    })
}

// The refusal of a program whose units are all loaded.
fn program_refusal(alloc: Global, reason: ProgramReason) -> Result<FileRefusal, AllocError>
    ensures { IfOk result (λ against. against ≡ program_refusal reason) }
{
    match reason {
        ProgramReason::Duplicate(unit, place, name) => Ok(FileRefusal {
            file: unit_file(alloc, unit)?,
            why: Refusal::Duplicate(place, name),
        }),
        ProgramReason::NoMain => Ok(FileRefusal {
            file: Bytes::new(alloc),
            why: Refusal::NoMain,
        }),
    }
}

// What a fault of loading stops; memory can run out over the name of a unit.
fn stop_of(alloc: Global, fault: LoadFault) -> RunStop
    ensures stop { (result ≡ load_stop fault) ⊎ (result ≡ Memory) }
    ensures failed { stop_failed result ≡ fault_failed fault }
{
    match fault {
        LoadFault::Refused(unit, reason) => match unit_refusal(alloc, unit, reason) {
            Ok(against) => RunStop::Refused(against),
            Err(_) => RunStop::Memory,
        },
        LoadFault::TooLarge => RunStop::Refused(FileRefusal {
            file: Bytes::new(alloc),
            why: Refusal::ProgramTooLarge,
        }),
        LoadFault::Failed => RunStop::Failed,
        LoadFault::Memory => RunStop::Memory,
    }
}

// What a reason against all units together stops; memory can run out over the name of one.
fn whole_stop(alloc: Global, reason: ProgramReason) -> RunStop
    ensures stop { (result ≡ Refused (program_refusal reason)) ⊎ (result ≡ Memory) }
    ensures failed { stop_failed result ≡ false }
{
    match program_refusal(alloc, reason) {
        Ok(against) => RunStop::Refused(against),
        Err(_) => RunStop::Memory,
    }
}

/// The units of the program with this root, which has this text, or why it is refused: its units are read in order of first
/// mention, and then what they declare is looked at as a whole (ECMA-408, 6.1 Scoping, 18 Libraries and Scripts).
pub fn load_program<S: Sources>(
    alloc: Global,
    name: &str,
    text: &[u8],
    sources: &mut S,
) -> Result<Loaded, RunStop>
    ensures answer { LoadGives (S.files sources.old) name.now text.now result }
    ensures same { S.files sources.new ≡ S.files sources.old }
    ensures cause { Counts (run_failed result) (S.faults sources.old) (S.faults sources.new) }
{
    match check(alloc, name.as_bytes(), text, sources) {
        Ok(Checked::Sound(loaded)) => Ok(loaded),
        Ok(Checked::Against(reason)) => Err(whole_stop(alloc, reason)),
        Err(fault) => Err(stop_of(alloc, fault)),
    }
}
