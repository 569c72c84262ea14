// Why a program isn't loaded.
ghost use Rattle.std.specs.Prelude.{◌≡◌};
ghost use Rattle.scope_load.specs.declared.reason.LoadFault.TheVariants.{Memory};

use crate::units::{TextReason, UnitName};
use dart_base::feature::Feature;
use dart_base::place::Place;
use std::alloc::{AllocError, AllocFailed};

/// A reason against a unit.
#[derive(Clone, Copy, Debug, PartialEq, Eq)]
pub enum Reason {
    /// There is no such file.
    NotFound,
    /// Its text is no unit.
    Text(TextReason),
    /// The profile leaves out what its string here names.
    LeftOut(Place, Feature),
    /// The directive here names no unit, or another one than it may.
    BadDirective(Place),
}

/// Why a program isn't loaded.
#[derive(Drop)]
pub enum LoadFault {
    /// This unit has this reason against it. A place in the reason is one in this unit.
    Refused(UnitName, Reason),
    /// The program has too many files, or they have too much weight.
    TooLarge,
    /// A unit could not be taken.
    Failed,
    /// Memory ran out.
    Memory,
}

impl From<AllocError> for LoadFault {
    ghost from_gives = { λ _ fault. fault ≡ Memory };

    fn from(_error: AllocError) -> Self {
        LoadFault::Memory
    }
}

impl<T: Drop> From<AllocFailed<T>> for LoadFault {
    ghost from_gives = { λ _ fault. fault ≡ Memory };

    fn from(_error: AllocFailed<T>) -> Self {
        LoadFault::Memory
    }
}
