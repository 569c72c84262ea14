// What follows from the definitions of an outcome, and from the contract of the whole tool.
ghost use Rattle.std.specs.Prelude.{◌≡◌, ℕ, List, map};
ghost use Rattle.std.specs.String.{string_bytes};
ghost use Rattle.dart_edge.specs.Files.{Files};
ghost use Rattle.dart_edge.specs.Memory.{safe_files, safe_written};
ghost use Rattle.dart_tool.specs.declared.outcome.Outcome.{Outcome};
ghost use Rattle.dart_tool.specs.Laws.{AnswersSafely, CheckedOutcomesFollow};
ghost use Rattle.dart_tool.specs.Outcome.{IsOutcome};

use crate::status::Status;
use crate::tool::dart;
use dart_edge::gate::Gate;
use dart_edge::memory::{NoFaultSink, NoFaultSources};
use std::alloc::Global;
use std::marker::Sync;
use std::sync::Wait;
use std::thread::Threads;

/// Words and files have at most one outcome.
pub fn one_outcome()
    ensures { (words : List (List ℕ)) (files : Files) (a b : Outcome) →
        IsOutcome words files a → IsOutcome words files b → a ≡ b }
{}

/// Words and files are never without an outcome.
pub fn never_without_outcome()
    ensures { (words : List (List ℕ)) (files : Files) →
        ((out : Outcome) → IsOutcome words files out → ⊥) → ⊥ }
{}

/// What `run --checked` writes of a file up to its first report is what `run` writes first within the same budget; where nothing is
/// reported the outcomes are the same.
pub fn checked_outcomes_follow()
    ensures { CheckedOutcomesFollow }
{}

/// The tool over files and output in memory, which never fail: it answers the outcome, or Memory.
pub fn dart_in_memory<R: Threads + Wait + Sync, G: Gate>(
    rt: &R,
    alloc: Global,
    words: &[String],
    sources: &mut NoFaultSources,
    sink: &mut NoFaultSink,
    gate: &G,
) -> Status
    ensures { AnswersSafely (map string_bytes words.now) (safe_files sources.old) result
        (safe_written sink.old) (safe_written sink.new) }
{
    dart(rt, alloc, words, sources, sink, gate)
}
