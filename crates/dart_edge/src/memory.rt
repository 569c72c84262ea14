// Sources and sinks in memory, which tell their content.
ghost use Rattle.std.specs.Prelude.{◌≡◌, ◌↔◌, ◌≤◌, ◌<◌, ◌+◌, ◌-◌, ◌^◌, ℕ, List, [], min, length, Some, IfOk, IsTrue, Contains};
ghost use Rattle.std.specs.Result.{IsErrOf};
ghost use Rattle.std.specs.Io.KnownBytes.{append_known};
ghost use Rattle.dart_edge.specs.Files.{Files, file_of};
ghost use Rattle.dart_edge.specs.Fault.{Counts};
ghost use Rattle.dart_edge.specs.Reads.{ReadsFile, read_failed};
ghost use Rattle.dart_edge.specs.Writes.{taken, write_failed};

use crate::sink::{Sink, SinkFault};
use crate::source::{SourceFault, Sources};
use dart_base::bytes::Bytes;
use std::alloc::{AllocError, Global};

// A copy of the first file with this name.
fn copy_of(
    alloc: Global,
    files: &Vec<(Bytes, Bytes)>,
    name: &str,
) -> Result<Option<Bytes>, AllocError>
    ensures { IfOk result (λ found. found ≡ file_of files.now.items name.now) }
{
    match files
        .iter()
        .find(|file| file.0.as_slice() == name.as_bytes())
    {
        Some(file) => Ok(Some(Bytes::from_slice(alloc, file.1.as_slice())?)),
        None => Ok(None),
    }
}

// Calls, numbered from 0, of which the listed ones fail.
#[derive(Drop)]
struct Calls {
    fail: Vec<u64>,
    made: u64,
    faults: u64,
}

impl Calls {
    fn new(fail: Vec<u64>) -> Self
        ensures fail { result.fail.items ≡ fail.items }
        ensures made { result.made ≡ 0 }
        ensures faults { result.faults ≡ 0 }
    {
        Calls {
            fail,
            made: 0,
            faults: 0,
        }
    }

    // Whether the call that comes next is a listed one. It is made by this, and its fault is counted.
    fn next_fails(&mut self) -> bool
        ensures listed { IsTrue result ↔ Contains self.old.fail.items self.old.made }
        ensures cause { Counts result self.old.faults self.new.faults }
        ensures made { self.new.made ≡ min (self.old.made + 1) (2 ^ 64 - 1) }
        ensures fail { self.new.fail.items ≡ self.old.fail.items }
    {
        let fails = self.fail.contains(&self.made);
        self.made = self.made.saturating_add(1);
        if fails {
            self.faults = self.faults.saturating_add(1);
        }
        fails
    }
}

/// Files in memory, whose reads fail only where memory runs out.
#[derive(Drop)]
pub struct NoFaultSources {
    alloc: Global,
    files: Vec<(Bytes, Bytes)>,
}

impl NoFaultSources {
    ghost use Rattle.dart_edge.specs.Memory.{safe_files};

    /// Sources of these files, as pairs of a name and its bytes. The first pair of a name counts.
    pub fn new(alloc: Global, files: Vec<(Bytes, Bytes)>) -> Self
        ensures { safe_files result ≡ files.items }
    {
        NoFaultSources { alloc, files }
    }
}

impl Sources for NoFaultSources {
    ghost files = { λ s. Some s.files.items };

    ghost faults = { λ s. 0 };

    fn read(&mut self, name: &str) -> Result<Option<Bytes>, SourceFault> {
        Ok(copy_of(self.alloc, &self.files, name)?)
    }
}

/// Files in memory. The reads whose numbers are listed fail; reads are numbered from 0.
#[derive(Drop)]
pub struct MemSources {
    alloc: Global,
    files: Vec<(Bytes, Bytes)>,
    calls: Calls,
}

impl MemSources {
    ghost use Rattle.dart_edge.specs.Memory.{mem_files, mem_fail, mem_calls, mem_faults};

    /// Sources of these files, as pairs of a name and its bytes. The first pair of a name counts.
    pub fn new(alloc: Global, files: Vec<(Bytes, Bytes)>, fail: Vec<u64>) -> Self
        ensures files { mem_files result ≡ files.items }
        ensures fail { mem_fail result ≡ fail.items }
        ensures calls { mem_calls result ≡ 0 }
        ensures faults { mem_faults result ≡ 0 }
    {
        MemSources {
            alloc,
            files,
            calls: Calls::new(fail),
        }
    }
}

impl Sources for MemSources {
    ghost use Rattle.dart_edge.specs.Memory.{mem_files, mem_fail, mem_calls, mem_faults};

    ghost files = { λ s. Some s.files.items };

    ghost faults = { λ s. s.calls.faults };

    fn read(&mut self, name: &str) -> Result<Option<Bytes>, SourceFault>
        ensures content { ReadsFile (Some (mem_files self.old)) name.now result }
        ensures same { Some (mem_files self.new) ≡ Some (mem_files self.old) }
        ensures cause { Counts (read_failed result) (mem_faults self.old) (mem_faults self.new) }

        // The listed calls fail, and no other one does.
        ensures listed { IsErrOf result SourceFault.Failed
            ↔ Contains (mem_fail self.old) (mem_calls self.old) }
        ensures fail { mem_fail self.new ≡ mem_fail self.old }
        ensures calls { mem_calls self.new ≡ min (mem_calls self.old + 1) (2 ^ 64 - 1) }
    {
        if self.calls.next_fails() {
            return Err(SourceFault::Failed);
        }
        Ok(copy_of(self.alloc, &self.files, name)?)
    }
}

/// A sink in memory that takes whole pieces and fails only where memory runs out.
#[derive(Drop)]
pub struct NoFaultSink {
    written: Bytes,
}

impl NoFaultSink {
    ghost use Rattle.dart_edge.specs.Memory.{safe_written};

    pub fn new(alloc: Global) -> Self
        ensures { safe_written result ≡ [] }
    {
        NoFaultSink {
            written: Bytes::new(alloc),
        }
    }

    /// What was written so far.
    pub fn written(&self) -> &[u8]
        ensures { result.now ≡ safe_written self.now }
    {
        self.written.as_slice()
    }
}

impl Sink for NoFaultSink {
    ghost use Rattle.dart_edge.specs.Memory.{safe_written};

    ghost written = { λ s. Some s.written };

    ghost faults = { λ s. 0 };

    fn write(&mut self, piece: &[u8]) -> Result<usize, SinkFault>
        ensures bound { IfOk result (λ count. count ≤ length piece.now) }
        ensures content { Some (safe_written self.new)
            ≡ append_known (Some (safe_written self.old)) (taken result piece.now) }
        ensures cause { Counts (write_failed result piece.now) 0 0 }

        ensures takes { IfOk result (λ count. count ≡ length piece.now) }
    {
        self.written.append(piece)?;
        Ok(piece.len())
    }
}

/// A sink in memory that takes at most `piece` bytes at a call. The writes whose numbers are listed fail; writes are
/// numbered from 0.
#[derive(Drop)]
pub struct MemSink {
    piece: usize,
    calls: Calls,
    written: Bytes,
    ghost positive: { 0 < piece },
}

impl MemSink {
    ghost use Rattle.dart_edge.specs.MemorySink.{sink_written, sink_fail, sink_calls, sink_faults, sink_piece};

    pub fn new(alloc: Global, piece: usize, fail: Vec<u64>) -> Self
        requires { 1 ≤ piece }
        ensures written { sink_written result ≡ [] }
        ensures piece { sink_piece result ≡ piece }
        ensures fail { sink_fail result ≡ fail.items }
        ensures calls { sink_calls result ≡ 0 }
        ensures faults { sink_faults result ≡ 0 }
    {
        MemSink {
            piece,
            calls: Calls::new(fail),
            written: Bytes::new(alloc),
        }
    }

    /// What was written so far.
    pub fn written(&self) -> &[u8]
        ensures { result.now ≡ sink_written self.now }
    {
        self.written.as_slice()
    }
}

impl Sink for MemSink {
    ghost use Rattle.dart_edge.specs.MemorySink.{sink_written, sink_fail, sink_calls, sink_faults, sink_piece};

    ghost written = { λ s. Some s.written };

    ghost faults = { λ s. s.calls.faults };

    fn write(&mut self, piece: &[u8]) -> Result<usize, SinkFault>
        ensures bound { IfOk result (λ count. count ≤ length piece.now) }
        ensures content { Some (sink_written self.new)
            ≡ append_known (Some (sink_written self.old)) (taken result piece.now) }
        ensures cause { Counts (write_failed result piece.now) (sink_faults self.old) (sink_faults self.new) }

        // The listed calls fail, and no other one does.
        ensures listed { IsErrOf result SinkFault.Failed
            ↔ Contains (sink_fail self.old) (sink_calls self.old) }
        ensures takes { IfOk result (λ count. count ≡ min (sink_piece self.old) (length piece.now)) }
        ensures calls { sink_calls self.new ≡ min (sink_calls self.old + 1) (2 ^ 64 - 1) }
        ensures fail { sink_fail self.new ≡ sink_fail self.old }
        ensures piece { sink_piece self.new ≡ sink_piece self.old }
    {
        if self.calls.next_fails() {
            return Err(SinkFault::Failed);
        }
        let count = self.piece.min(piece.len());
        self.written.append(&piece[..count])?;
        Ok(count)
    }
}
