// Prints the core of a program, or does what `dart run` does.
ghost use Rattle.std.specs.Prelude.{◌≡◌, false, None, Some, IfOk, IfSome, map};
ghost use Rattle.std.specs.Option.{option_map};
ghost use Rattle.std.specs.String.{string_bytes};
ghost use Rattle.dart_edge.specs.Fault.{Counts};
ghost use Rattle.dart_tool.specs.Outcome.{is_cut_short, IsOutcome};
ghost use Rattle.dart_tool.specs.Tool.{Answers, Delivers, is_read_fault, is_write_fault};
ghost use Rattle.core_print.specs.Printed.{FilePrints, WordsPrint, run_words};

use crate::root::file_text;
use dart_edge::gate::OpenGate;
use dart_edge::sink::{Sink, SinkFault, write_whole};
use dart_edge::source::{SourceFault, Sources};
use dart_tool::status::Status;
use dart_tool::tool::dart;
use std::alloc::{AllocError, Global};
use std::marker::Sync;
use std::sync::Wait;
use std::thread::Threads;

const USAGE: &[u8] = b"usage: core_print FILE [NAME]\n";

// Writes all bytes, and answers the status.
fn deliver<K: Sink>(sink: &mut K, status: Status, bytes: &[u8]) -> Status
    requires { is_cut_short status ≡ false }
    ensures delivers { Delivers (record { status = status; bytes = bytes.now }) result
        (K.written sink.old) (K.written sink.new) }
    ensures cause { Counts (is_write_fault result) (K.faults sink.old) (K.faults sink.new) }
    ensures reads { is_read_fault result ≡ false }
{
    match write_whole(sink, bytes) {
        Ok(()) => status,
        Err(SinkFault::Failed) => Status::WriteFault,
        Err(SinkFault::Memory) => Status::Memory,
    }
}

fn run_words(alloc: Global, file: &str) -> Result<Vec<String>, AllocError>
    ensures { IfOk result (λ words. map string_bytes words.items ≡ run_words file.now) }
{
    let mut words = Vec::new(alloc);
    words.push(String::from_str(alloc, "run")?)?;
    words.push(String::from_str(alloc, file)?)?;
    Ok(words)
}

// What `dart run` does with a file.
fn run_file<R: Threads + Wait + Sync, S: Sources, K: Sink>(
    rt: &R,
    alloc: Global,
    file: &str,
    sources: &mut S,
    sink: &mut K,
) -> Status
    ensures answer { IfSome (S.files sources.old) (λ files.
        Answers (IsOutcome (run_words file.now) files) result (K.written sink.old) (K.written sink.new)) }
    ensures reads { Counts (is_read_fault result) (S.faults sources.old) (S.faults sources.new) }
    ensures writes { Counts (is_write_fault result) (K.faults sink.old) (K.faults sink.new) }
    ensures files { S.files sources.new ≡ S.files sources.old }
{
    match run_words(alloc, file) {
        Ok(words) => dart(rt, alloc, &words, sources, sink, &OpenGate),
        Err(_) => Status::Memory,
    }
}

// A file, and the name of what is shown of it.
fn print_file<R: Threads + Wait + Sync, S: Sources, K: Sink>(
    rt: &R,
    alloc: Global,
    file: &str,
    name: Option<&str>,
    sources: &mut S,
    sink: &mut K,
) -> Status
    ensures answer { IfSome (S.files sources.old) (λ files.
        FilePrints files file.now (option_map (λ text. text.now) name.entry) result (K.written sink.old) (K.written sink.new)) }
    ensures reads { Counts (is_read_fault result) (S.faults sources.old) (S.faults sources.new) }
    ensures writes { Counts (is_write_fault result) (K.faults sink.old) (K.faults sink.new) }
    ensures files { S.files sources.new ≡ S.files sources.old }
{
    match file_text(alloc, file, name, sources) {
        Ok(Some(bytes)) => deliver(sink, Status::Done, bytes.as_slice()),
        Ok(None) => run_file(rt, alloc, file, sources, sink),
        Err(SourceFault::Failed) => Status::ReadFault,
        Err(SourceFault::Memory) => Status::Memory,
    }
}

/// Does what the words ask: reads a file and those that it imports, writes the text of its core or what `dart run` writes, and answers how
/// that ended.
pub fn print<R: Threads + Wait + Sync, S: Sources, K: Sink>(
    rt: &R,
    alloc: Global,
    words: &[String],
    sources: &mut S,
    sink: &mut K,
) -> Status
    ensures answer { IfSome (S.files sources.old) (λ files.
        WordsPrint (map string_bytes words.now) files result (K.written sink.old) (K.written sink.new)) }

    // A failed read or write is answered only where its count rose, and on every other answer the count stays.
    ensures reads { Counts (is_read_fault result) (S.faults sources.old) (S.faults sources.new) }
    ensures writes { Counts (is_write_fault result) (K.faults sink.old) (K.faults sink.new) }

    ensures files { S.files sources.new ≡ S.files sources.old }
{
    match words {
        [] => deliver(sink, Status::Usage, USAGE),
        [file] => print_file(rt, alloc, file.as_str(), None, sources, sink),
        [file, name] => print_file(rt, alloc, file.as_str(), Some(name.as_str()), sources, sink),
        [_, _, _, ..] => deliver(sink, Status::Usage, USAGE),
    }
}
