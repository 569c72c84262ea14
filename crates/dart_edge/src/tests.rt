// Calls through the traits, and the system's files and standard output where they fail.
ghost use Rattle.std.specs.Prelude.{◌≡◌, ◌≤◌, ℕ, length, None, IfOk};
ghost use Rattle.std.specs.Io.KnownBytes.{append_known};
ghost use Rattle.dart_edge.specs.Fault.{Counts};
ghost use Rattle.dart_edge.specs.Writes.{taken, write_failed};

use crate::gate::{Gate, OpenGate};
use crate::memory::{MemSink, MemSources, NoFaultSink, NoFaultSources};
use crate::real::{Folder, StdSink, write_through};
use crate::sink::{Sink, SinkFault, write_whole};
use crate::source::{SourceFault, Sources};
use dart_base::bytes::Bytes;
use std::alloc::{AllocError, Global};
use std::fmt::Display;
use std::io::{ErrorKind, Write};
use std::{fs, io};

fn pairs(alloc: Global) -> Result<Vec<(Bytes, Bytes)>, AllocError> {
    let mut files = Vec::new(alloc);
    for (name, text) in [("a", "one"), ("a", "two"), ("b", "")] {
        let name = Bytes::from_slice(alloc, name.as_bytes())?;
        files.push((name, Bytes::from_slice(alloc, text.as_bytes())?))?;
    }
    Ok(files)
}

// Whether the file is read, with this text where there is one.
fn reads<S: Sources>(sources: &mut S, name: &str, want: Option<&str>) -> bool {
    match (sources.read(name), want) {
        (Ok(Some(bytes)), Some(text)) => bytes.as_slice() == text.as_bytes(),
        (Ok(None), None) => true,
        _ => false,
    }
}

fn fails<S: Sources>(sources: &mut S, name: &str) -> bool {
    matches!(sources.read(name), Err(SourceFault::Failed))
}

fn puts<K: Sink>(sink: &mut K, text: &str) -> Result<(), SinkFault> {
    write_whole(sink, text.as_bytes())
}

fn enters<G: Gate>(gate: &G) {
    gate.enter(0, 0);
}

#[test]
fn files_in_memory(rt: HostRuntime) -> Result<(), AllocError> {
    let alloc = rt.alloc();
    let mut sources = NoFaultSources::new(alloc, pairs(alloc)?);
    for (name, want) in [("a", Some("one")), ("b", Some("")), ("c", None)] {
        assert!(rt; reads(&mut sources, name, want), "{name}");
    }
    let mut sources = MemSources::new(alloc, pairs(alloc)?, vec![in alloc; 3, 1]?);
    assert!(rt; reads(&mut sources, "a", Some("one")));
    assert!(rt; fails(&mut sources, "b"));
    assert!(rt; reads(&mut sources, "b", Some("")));
    assert!(rt; fails(&mut sources, "c"));
    assert!(rt; reads(&mut sources, "c", None));
    enters(&OpenGate);
    Ok(())
}

#[test]
fn sinks_in_memory(rt: HostRuntime) -> Result<(), AllocError> {
    let alloc = rt.alloc();
    let mut sink = NoFaultSink::new(alloc);
    assert_eq!(rt; puts(&mut sink, "ab"), Ok(()));
    assert_eq!(rt; puts(&mut sink, "c"), Ok(()));
    assert!(rt; sink.written() == b"abc".as_slice());

    let mut sink = MemSink::new(alloc, 1, vec![in alloc; 1]?);
    assert_eq!(rt; puts(&mut sink, "3\n"), Err(SinkFault::Failed));
    assert!(rt; sink.written() == b"3".as_slice());
    assert_eq!(rt; puts(&mut sink, "xy"), Ok(()));
    assert!(rt; sink.written() == b"3xy".as_slice());

    // Seven bytes are three calls, and an empty piece is none.
    let mut sink = MemSink::new(alloc, 3, vec![in alloc; 3]?);
    assert_eq!(rt; puts(&mut sink, "abcdefg"), Ok(()));
    assert_eq!(rt; puts(&mut sink, ""), Ok(()));
    assert_eq!(rt; puts(&mut sink, "h"), Err(SinkFault::Failed));
    assert_eq!(rt; puts(&mut sink, "i"), Ok(()));
    assert!(rt; sink.written() == b"abcdefgi".as_slice());
    Ok(())
}

// A sink that takes nothing.
#[derive(Drop)]
struct Stuck {
    faults: u64,
}

impl Sink for Stuck {
    ghost written = { λ s. None };

    ghost faults = { λ s. s.faults };

    fn write(&mut self, piece: &[u8]) -> Result<usize, SinkFault> {
        if !piece.is_empty() {
            self.faults = self.faults.saturating_add(1);
        }
        Ok(0)
    }
}

#[test]
fn nothing_taken_is_a_fault(rt: HostRuntime) {
    let mut sink = Stuck { faults: 0 };
    assert_eq!(rt; puts(&mut sink, ""), Ok(()));
    assert_eq!(rt; puts(&mut sink, "a"), Err(SinkFault::Failed));
    assert_eq!(rt; sink.faults, 1);
}

#[test]
fn files_of_the_system(rt: HostRuntime) -> io::Result<()> {
    let alloc = rt.alloc();
    let mut folder = Folder::new(&rt, alloc);
    let name = "dart_edge_files_of_the_system";
    fs::write(&rt, name, "main() {}\n")?;
    let read = reads(&mut folder, name, Some("main() {}\n"));
    fs::remove_file(&rt, name)?;
    assert!(rt; read);
    assert!(rt; reads(&mut folder, name, None));
    for name in ["/", "a\0b", "/dev/null/a"] {
        assert!(rt; fails(&mut folder, name), "{name}");
    }
    // A file with no end is cut off.
    let Ok(Some(zeros)) = folder.read("/dev/zero") else {
        return Err(io::Error::from(ErrorKind::InvalidData));
    };
    assert_eq!(rt; zeros.len(), 64_000_001);
    Ok(())
}

// Standard output that answers each write alike.
#[derive(Clone, Copy)]
struct Answers {
    count: Option<usize>,
    kind: ErrorKind,
}

impl Print for Answers {
    fn print<D: Display + Drop>(&self, _value: D) -> io::Result<()> {
        Ok(())
    }

    fn println<D: Display + Drop>(&self, _value: D) -> io::Result<()> {
        Ok(())
    }

    fn write_all(&self, _bytes: &[u8]) -> io::Result<()> {
        Ok(())
    }

    fn write_some(&self, bytes: &[u8]) -> io::Result<usize> {
        match self.count {
            Some(count) => Ok(count.min(bytes.len())),
            None => Err(io::Error::from(self.kind)),
        }
    }
}

fn answer(count: Option<usize>, kind: ErrorKind, piece: &[u8]) -> Result<usize, SinkFault> {
    let out = Answers { count, kind };
    let mut sink = StdSink::new(&out);
    sink.write(piece)
}

// A writer that takes all and can't hand it on.
#[derive(Clone, Copy)]
struct Full;

impl Write for Full {
    fn write(&mut self, piece: &[u8]) -> io::Result<usize> {
        Ok(piece.len())
    }

    fn flush(&mut self) -> io::Result<()> {
        Err(io::Error::from(ErrorKind::StorageFull))
    }
}

#[test]
fn standard_output(rt: HostRuntime) {
    let full = ErrorKind::StorageFull;
    assert_eq!(rt; answer(Some(2), full, b"abc"), Ok(2));
    assert_eq!(rt; answer(Some(2), full, b""), Ok(0));
    assert_eq!(rt; answer(Some(0), full, b"abc"), Err(SinkFault::Failed));
    assert_eq!(rt; answer(None, full, b"abc"), Err(SinkFault::Failed));
    assert_eq!(rt;
        answer(None, ErrorKind::OutOfMemory, b"abc"),
        Err(SinkFault::Memory)
    );
    assert!(rt; write_through(&mut Full, b"abc").is_err());
    assert_eq!(rt; StdSink::new(&rt).write(b""), Ok(0));
}
