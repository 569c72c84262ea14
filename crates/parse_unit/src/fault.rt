// Why a list of tokens is no unit.
ghost use Rattle.std.specs.Prelude.{◌≡◌};
ghost use Rattle.parse_unit.specs.declared.fault.ParseFault.TheVariants.{Memory};

use dart_base::feature::Feature;
use dart_base::place::Place;
use std::alloc::AllocError;
use thiserror::Error;

/// Why a list of tokens is no unit.
#[derive(Clone, Copy, Debug, PartialEq, Eq, Drop, Error)]
pub enum ParseFault {
    /// What stands here is left out of the profile.
    #[error("left out")]
    LeftOut(Place, Feature),
    /// No unit has the tokens up to here.
    #[error("wrong")]
    Syntax(Place),
    /// No unit that is not too deep has the tokens up to here.
    #[error("too deep")]
    TooDeep(Place),
    #[error("out of memory")]
    Memory,
}

impl From<AllocError> for ParseFault {
    ghost from_gives = { λ _ fault. fault ≡ Memory };

    fn from(_error: AllocError) -> ParseFault {
        ParseFault::Memory
    }
}
