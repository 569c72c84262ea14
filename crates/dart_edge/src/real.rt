// The files of the system and standard output. No contract can say what they hold.
ghost use Rattle.std.specs.Prelude.{◌≡◌, ◌≤◌, ℕ, List, take, length, None, IfOk, IfSome};
ghost use Rattle.std.specs.Io.KnownBytes.{Appends};

use crate::sink::{Sink, SinkFault};
use crate::source::{SourceFault, Sources};
use dart_base::bytes::Bytes;
use dart_base::limit::UNIT_BYTES;
use std::alloc::Global;
use std::fs::File;
use std::io;
use std::io::{ErrorKind, Read, Write};
use std::rt::Files;

/// The most bytes that are read of a file: one more than a unit may have, so that a longer file is refused by its size.
pub const MOST_BYTES: u64 = UNIT_BYTES as u64 + 1;

// The bytes that the reader has left, but at most so many of them.
fn read_at_most<I: Read + Drop>(alloc: Global, reader: I, most: u64) -> io::Result<Bytes>
    ensures { IfSome (I.remaining reader) (λ left. IfOk result (λ bytes. bytes ≡ take most left)) }
{
    let mut bytes = Vec::new(alloc);
    reader.take(most).read_to_end(&mut bytes)?;
    Ok(Bytes::from_vec(bytes))
}

fn read_file<R: Files>(rt: &R, alloc: Global, name: &str) -> io::Result<Bytes> {
    read_at_most(alloc, File::open(rt, name)?, MOST_BYTES)
}

/// The files of the system, by their paths from the folder in which the program runs.
#[derive(Drop)]
pub struct Folder<'a, R: Files> {
    rt: &'a R,
    alloc: Global,
    faults: u64,
}

impl<'a, R: Files> Folder<'a, R> {
    ghost use Rattle.dart_edge.specs.Real.{folder_faults};

    pub fn new(rt: &'a R, alloc: Global) -> Self
        ensures { folder_faults result ≡ 0 }
    {
        Folder {
            rt,
            alloc,
            faults: 0,
        }
    }
}

impl<R: Files> Sources for Folder<'_, R> {
    ghost files = { λ s. None };

    ghost faults = { λ s. s.faults };

    /// At most `MOST_BYTES` bytes of the file. None comes exactly where the system says that there is no such file.
    fn read(&mut self, name: &str) -> Result<Option<Bytes>, SourceFault> {
        match read_file(self.rt, self.alloc, name) {
            Ok(bytes) => Ok(Some(bytes)),
            Err(error) => match error.kind() {
                ErrorKind::NotFound => Ok(None),
                ErrorKind::OutOfMemory => Err(SourceFault::Memory),
                _ => {
                    self.faults = self.faults.saturating_add(1);
                    Err(SourceFault::Failed)
                }
            },
        }
    }
}

// Writes some of the piece, and hands on what the writer may keep back.
pub(crate) fn write_through<W: Write>(writer: &mut W, piece: &[u8]) -> io::Result<usize>
    ensures bound { IfOk result (λ count. count ≤ length piece.now) }
    ensures bytes { IfOk result (λ count.
        Appends (W.contents writer.old) (W.contents writer.new) (take count piece.now)) }
{
    let count = writer.write(piece)?;
    writer.flush()?;
    Ok(count)
}

/// Standard output. It keeps nothing back: what a call answers as taken has been handed to the system.
#[derive(Drop)]
pub struct StdSink<'a, R: Print> {
    rt: &'a R,
    faults: u64,
}

impl<'a, R: Print> StdSink<'a, R> {
    ghost use Rattle.dart_edge.specs.Real.{output_faults};

    pub fn new(rt: &'a R) -> Self
        ensures { output_faults result ≡ 0 }
    {
        StdSink { rt, faults: 0 }
    }
}

impl<R: Print> Sink for StdSink<'_, R> {
    ghost written = { λ s. None };

    ghost faults = { λ s. s.faults };

    fn write(&mut self, piece: &[u8]) -> Result<usize, SinkFault> {
        match write_through(&mut io::writer(self.rt), piece) {
            Ok(count) if count > 0 || piece.is_empty() => Ok(count),
            Err(error) if error.kind() == ErrorKind::OutOfMemory => Err(SinkFault::Memory),
            _ => {
                self.faults = self.faults.saturating_add(1);
                Err(SinkFault::Failed)
            }
        }
    }
}
