// Why a program has no core.
ghost use Rattle.std.specs.Prelude.{◌≡◌};
ghost use Rattle.lower_leaf.specs.declared.fault.LowerFault.TheVariants.{Memory};

use dart_base::feature::Feature;
use dart_base::place::Place;
use std::alloc::{AllocError, AllocFailed};
use thiserror::Error;

/// Why a program has no core, with the place of the reason.
#[derive(Clone, Copy, Debug, PartialEq, Eq, Drop, Error)]
pub enum LowerFault {
    /// The profile leaves this out.
    #[error("left out")]
    LeftOut(Place, Feature),
    /// A default value is no literal (ECMA-408, 9.2.2 Optional Formals).
    #[error("no constant")]
    NotConstant(Place),
    /// A jump has no target (17.14 Break and 17.15 Continue).
    #[error("a jump without its target")]
    BadLabel(Place),
    /// A constructor that there is not, or that may not stand there (10.6 Constructors).
    #[error("a wrong constructor")]
    BadConstructor(Place),
    /// The cases of a switch are neither all integers nor all strings (17.9 Switch).
    #[error("a case of another kind")]
    BadSwitch(Place),
    /// `this`, `super` or `rethrow` where there is none (16.11 This and 17.10 Rethrow).
    #[error("a word that may not stand here")]
    BadWord(Place),
    /// A list has more than 255 parameters.
    #[error("too many parameters")]
    TooLarge(Place),
    /// Memory, or a number, ran out, or a name was not in the table.
    #[error("out of memory")]
    Memory,
}

impl From<AllocError> for LowerFault {
    ghost from_gives = { λ _ fault. fault ≡ Memory };

    fn from(_error: AllocError) -> LowerFault {
        LowerFault::Memory
    }
}

impl<T: Drop> From<AllocFailed<T>> for LowerFault {
    ghost from_gives = { λ _ fault. fault ≡ Memory };

    fn from(_error: AllocFailed<T>) -> LowerFault {
        LowerFault::Memory
    }
}

/// Memory, or a number, ran out, or a name was not in the table: the one fault of what no tree is refused for.
#[derive(Clone, Copy, Debug, PartialEq, Eq)]
pub struct Want;

impl From<AllocError> for Want {
    ghost from_gives = { λ _ _. Unit {0} };

    fn from(_error: AllocError) -> Want {
        Want
    }
}

impl<T: Drop> From<AllocFailed<T>> for Want {
    ghost from_gives = { λ _ _. Unit {0} };

    fn from(_error: AllocFailed<T>) -> Want {
        Want
    }
}

impl From<Want> for LowerFault {
    ghost from_gives = { λ _ fault. fault ≡ Memory };

    fn from(_error: Want) -> LowerFault {
        LowerFault::Memory
    }
}
