// Units from the files of a source.
ghost use Rattle.std.specs.Prelude.{◌≡◌, IfOk, false};
ghost use Rattle.dart_edge.specs.Fault.{Counts};
ghost use Rattle.scope_files.specs.Files.{NameGives, GivesText, GivesFile, known};
ghost use Rattle.scope_load.specs.Found.{found_is, take_failed, SameUnits};

use crate::text::read_text;
use dart_edge::source::{SourceFault, Sources};
use dart_prelude::texts::{CORE, ISOLATE};
use scope_load::units::{Found, TakeFault, UnitName, UnitReader};
use std::alloc::Global;
use std::str::from_utf8;

/// Reads each file of a source once it is asked for, and the libraries of the language from their texts.
#[derive(Clone, Copy)]
pub struct FileReader {
    pub alloc: Global,
}

// What a file of the source gives as the unit of this number. A name that isn't UTF-8 is no file's.
fn take_file<S: Sources>(
    alloc: Global,
    from: &mut S,
    number: u32,
    name: &[u8],
) -> Result<Found, TakeFault>
    ensures content { IfOk result (λ found. GivesFile (S.files from.old) number name.now (found_is found)) }
    ensures same { S.files from.new ≡ S.files from.old }
    ensures cause { Counts (take_failed result) (S.faults from.old) (S.faults from.new) }
{
    let Ok(name) = from_utf8(name) else {
        return Ok(Found::Absent);
    };
    match from.read(name) {
        Ok(Some(text)) => read_text(alloc, number, text.as_slice()),
        Ok(None) => Ok(Found::Absent),
        Err(SourceFault::Failed) => Err(TakeFault::Failed),
        Err(SourceFault::Memory) => Err(TakeFault::Memory),
    }
}

impl<S: Sources> UnitReader<S> for FileReader {
    ghost gives = { λ r s number name found. NameGives (S.files s) number name found };

    ghost files = { λ r s. S.files s };

    ghost faults = { λ r s. S.faults s };

    fn take(&self, from: &mut S, number: u32, name: &UnitName) -> Result<Found, TakeFault> {
        match name {
            UnitName::File(name) => take_file(self.alloc, from, number, name.as_slice()),
            UnitName::Core => read_text(self.alloc, number, CORE.as_bytes()),
            UnitName::Isolate => read_text(self.alloc, number, ISOLATE.as_bytes()),
        }
    }
}

/// Reads each file of a source as `FileReader` does, but for the root, whose text is at hand.
#[derive(Clone, Copy)]
pub struct RootReader<'a> {
    pub alloc: Global,
    /// The name of the root.
    pub root: &'a [u8],
    /// Its text.
    pub text: &'a [u8],
}

// What the text at hand gives as the unit of this number and name.
fn take_text(alloc: Global, number: u32, name: &[u8], text: &[u8]) -> Result<Found, TakeFault>
    ensures content { IfOk result (λ found. GivesText number name.now text.now (found_is found)) }
    ensures failed { take_failed result ≡ false }
{
    let Ok(_) = from_utf8(name) else {
        return Ok(Found::Absent);
    };
    read_text(alloc, number, text)
}

// What a file gives as the unit of this number, where the root has the text at hand.
fn take_known<S: Sources>(
    alloc: Global,
    root: &[u8],
    text: &[u8],
    from: &mut S,
    number: u32,
    name: &[u8],
) -> Result<Found, TakeFault>
    ensures content { IfOk result (λ found. GivesFile (known root.now text.now (S.files from.old)) number name.now (found_is found)) }
    ensures same { S.files from.new ≡ S.files from.old }
    ensures cause { Counts (take_failed result) (S.faults from.old) (S.faults from.new) }
{
    if root == name {
        take_text(alloc, number, name, text)
    } else {
        take_file(alloc, from, number, name)
    }
}

impl<S: Sources> UnitReader<S> for RootReader<'_> {
    ghost gives = { λ r s number name found. NameGives (known r.root.now r.text.now (S.files s)) number name found };

    ghost files = { λ r s. S.files s };

    ghost faults = { λ r s. S.faults s };

    fn take(&self, from: &mut S, number: u32, name: &UnitName) -> Result<Found, TakeFault> {
        match name {
            UnitName::File(name) => take_known(
                self.alloc,
                self.root,
                self.text,
                from,
                number,
                name.as_slice(),
            ),
            UnitName::Core => read_text(self.alloc, number, CORE.as_bytes()),
            UnitName::Isolate => read_text(self.alloc, number, ISOLATE.as_bytes()),
        }
    }
}
