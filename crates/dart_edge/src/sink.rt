// Where the output of a program goes.
ghost use Rattle.std.specs.Prelude.{◌≡◌, ◌≤◌, ◌<◌, ℕ, List, take, length, Option, IfOk, OnOk, OnErr};
ghost use Rattle.std.specs.Io.KnownBytes.{append_known};
ghost use Rattle.dart_edge.specs.declared.sink.SinkFault.TheVariants.{Memory};
ghost use Rattle.dart_edge.specs.Fault.{Counts};
ghost use Rattle.dart_edge.specs.Writes.{taken, write_failed, sink_failed, WrotePrefix};

use std::alloc::AllocError;
use thiserror::Error;

/// Why bytes weren't taken.
#[derive(Clone, Copy, Debug, PartialEq, Eq, Error)]
pub enum SinkFault {
    /// The sink failed. Each such answer raises the sink's count of faults.
    #[error("the output can't be written")]
    Failed,
    /// There was no memory for the bytes.
    #[error("out of memory")]
    Memory,
}

impl From<AllocError> for SinkFault {
    ghost from_gives = { λ _ fault. fault ≡ Memory };

    fn from(_: AllocError) -> Self {
        SinkFault::Memory
    }
}

/// Where the output of a program goes.
pub trait Sink {
    /// What was written so far, if the sink tells it.
    ghost written: { Self → Option (List ℕ) };

    /// How often the sink has failed.
    ghost faults: { Self → ℕ };

    /// Takes a prefix of the piece, and answers how many bytes that is.
    fn write(&mut self, piece: &[u8]) -> Result<usize, SinkFault>
        ensures bound { IfOk result (λ count. count ≤ length piece.now) }
        ensures content { written self.new ≡ append_known (written self.old) (taken result piece.now) }
        ensures cause { Counts (write_failed result piece.now) (faults self.old) (faults self.new) };
}

// Takes a prefix of a piece that isn't empty. To take none counts as a fault.
fn write_some<K: Sink>(sink: &mut K, piece: &[u8]) -> Result<usize, SinkFault>
    requires { 0 < length piece.now }
    ensures some { IfOk result (λ count. 0 < count) }
    ensures bound { IfOk result (λ count. count ≤ length piece.now) }
    ensures ok { IfOk result (λ count.
        K.written sink.new ≡ append_known (K.written sink.old) (take count piece.now)) }
    ensures err { OnErr result (K.written sink.new ≡ K.written sink.old) }
    ensures cause { Counts (sink_failed result) (K.faults sink.old) (K.faults sink.new) }
{
    match sink.write(piece) {
        Ok(0) => Err(SinkFault::Failed),
        Ok(count) => Ok(count),
        Err(fault) => Err(fault),
    }
}

/// Writes the whole piece, in as many calls as that takes. An empty piece takes no call.
///
/// A call that takes nothing of what is left counts as a fault.
pub fn write_whole<K: Sink>(sink: &mut K, piece: &[u8]) -> Result<(), SinkFault>
    ensures whole { OnOk result (K.written sink.new ≡ append_known (K.written sink.old) piece.now) }
    ensures part { OnErr result (WrotePrefix (K.written sink.old) (K.written sink.new) piece.now) }
    ensures cause { Counts (sink_failed result) (K.faults sink.old) (K.faults sink.new) }
{
    let mut at = 0;
    while at < piece.len() {
        match write_some(sink, &piece[at..]) {
            Ok(count) => at += count,
            Err(fault) => return Err(fault),
        }
    }
    Ok(())
}
