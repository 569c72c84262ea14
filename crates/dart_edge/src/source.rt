// Where the files of a program come from.
ghost use Rattle.std.specs.Prelude.{◌≡◌, ℕ, Option};
ghost use Rattle.dart_edge.specs.declared.source.SourceFault.TheVariants.{Memory};
ghost use Rattle.dart_edge.specs.Fault.{Counts};
ghost use Rattle.dart_edge.specs.Files.{Files};
ghost use Rattle.dart_edge.specs.Reads.{ReadsFile, read_failed};

use dart_base::bytes::Bytes;
use std::alloc::AllocError;
use thiserror::Error;

/// Why a file wasn't read.
#[derive(Clone, Copy, Debug, PartialEq, Eq, Error)]
pub enum SourceFault {
    /// The source failed. Each such answer raises the source's count of faults.
    #[error("a file can't be read")]
    Failed,
    /// There was no memory for the bytes.
    #[error("out of memory")]
    Memory,
}

impl From<AllocError> for SourceFault {
    ghost from_gives = { λ _ fault. fault ≡ Memory };

    fn from(_: AllocError) -> Self {
        SourceFault::Memory
    }
}

/// Where the files of a program come from.
pub trait Sources {
    /// The files, if the source tells them.
    ghost files: { Self → Option Files };

    /// How often the source has failed.
    ghost faults: { Self → ℕ };

    /// The bytes of the file with this name, and None where there is no such file.
    fn read(&mut self, name: &str) -> Result<Option<Bytes>, SourceFault>
        ensures content { ReadsFile (files self.old) name.now result }
        ensures same { files self.new ≡ files self.old }
        ensures cause { Counts (read_failed result) (faults self.old) (faults self.new) };
}
