// The whole tool.
ghost use Rattle.std.specs.Prelude.{◌≡◌, false, None, Some, IfSome, map};
ghost use Rattle.std.specs.String.{string_bytes};
ghost use Rattle.dart_edge.specs.Fault.{Counts};
ghost use Rattle.dart_words.specs.Words.{KeepsLimits, command_of};
ghost use Rattle.dart_tool.specs.Outcome.{CommandGives, IsOutcome, usage_outcome, is_cut_short};
ghost use Rattle.dart_tool.specs.Tool.{Answers, Delivers, is_read_fault, is_write_fault};

use crate::outcome::file_outcome;
use crate::status::Status;
use dart_edge::gate::Gate;
use dart_edge::sink::{Sink, SinkFault, write_whole};
use dart_edge::source::{SourceFault, Sources};
use dart_words::words::{Verb, command};
use std::alloc::Global;
use std::marker::Sync;
use std::sync::Wait;
use std::thread::Threads;

const USAGE: &[u8] =
    b"usage: dart run|trace [--checked] [--steps N] [--units N] [--workers N] FILE | erase FILE | analyse FILE | soak N\n";

// Writes an outcome, and answers its status.
fn deliver<K: Sink>(sink: &mut K, status: Status, bytes: &[u8]) -> Status
    requires { is_cut_short status ≡ false }
    ensures delivers { Delivers (record { status = status; bytes = bytes.now }) result
        (K.written sink.old) (K.written sink.new) }
    ensures cause { Counts (is_write_fault result) (K.faults sink.old) (K.faults sink.new) }
    ensures reads { is_read_fault result ≡ false }
{
    match write_whole(sink, bytes) {
        Ok(()) => status,
        Err(SinkFault::Failed) => Status::WriteFault,
        Err(SinkFault::Memory) => Status::Memory,
    }
}

// A command with its file.
fn do_verb<S: Sources, K: Sink>(
    alloc: Global,
    verb: Verb,
    file: &str,
    sources: &mut S,
    sink: &mut K,
) -> Status
    requires limits { KeepsLimits verb }
    ensures answer { IfSome (S.files sources.old) (λ files.
        Answers (CommandGives (Some (record { verb = verb; file = file.now })) files) result
        (K.written sink.old) (K.written sink.new)) }
    ensures usage { result ≡ Status.Usage → ⊥ }
    ensures unread { result ≡ Status.ReadFault → K.written sink.new ≡ K.written sink.old }
    ensures files { S.files sources.new ≡ S.files sources.old }
    ensures reads { Counts (is_read_fault result) (S.faults sources.old) (S.faults sources.new) }
    ensures writes { Counts (is_write_fault result) (K.faults sink.old) (K.faults sink.new) }
{
    let content = match sources.read(file) {
        Ok(content) => content,
        Err(SourceFault::Failed) => return Status::ReadFault,
        Err(SourceFault::Memory) => return Status::Memory,
    };
    match file_outcome(alloc, verb, file, content, sources) {
        Ok(due) => deliver(sink, due.status, due.bytes.as_slice()),
        Err(SourceFault::Failed) => Status::ReadFault,
        Err(SourceFault::Memory) => Status::Memory,
    }
}

/// Does what the words ask: reads files, writes to the sink, and answers how it ended.
pub fn dart<R: Threads + Wait + Sync, S: Sources, K: Sink, G: Gate>(
    rt: &R,
    alloc: Global,
    words: &[String],
    sources: &mut S,
    sink: &mut K,
    gate: &G,
) -> Status
    // Where the source tells its files: the status and the bytes are the outcome's, or the call was cut
    // short and what was written is a prefix of the outcome's bytes.
    ensures answer { IfSome (S.files sources.old) (λ files.
        Answers (IsOutcome (map string_bytes words.now) files) result (K.written sink.old) (K.written sink.new)) }

    // A failed read or write is answered only where its count rose, and on every other answer the count stays.
    ensures reads { Counts (is_read_fault result) (S.faults sources.old) (S.faults sources.new) }
    ensures writes { Counts (is_write_fault result) (K.faults sink.old) (K.faults sink.new) }

    // Whatever the source tells.
    ensures usage { command_of (map string_bytes words.now) ≡ None
        → Delivers usage_outcome result (K.written sink.old) (K.written sink.new) }
    ensures unread { result ≡ Status.ReadFault → K.written sink.new ≡ K.written sink.old }
    ensures usage_only { result ≡ Status.Usage → command_of (map string_bytes words.now) ≡ None }
    ensures files { S.files sources.new ≡ S.files sources.old }
{
    match command(words) {
        Some((verb, file)) => do_verb(alloc, verb, file.as_str(), sources, sink),
        None => deliver(sink, Status::Usage, USAGE),
    }
}
