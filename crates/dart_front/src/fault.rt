// Why a text is no unit.
ghost use Rattle.std.specs.Prelude.{◌≡◌};
ghost use Rattle.dart_front.specs.declared.fault.TextFault.TheVariants.{Lexis, Memory, Syntax};

use dart_lex::lexer::LexFault;
use parse_unit::fault::ParseFault;
use std::alloc::AllocError;
use thiserror::Error;

/// Why a text is no unit.
#[derive(Clone, Copy, Debug, PartialEq, Eq, Drop, Error)]
pub enum TextFault {
    /// It spells no tokens.
    #[error("no tokens")]
    Lexis(LexFault),
    /// Its tokens are no unit.
    #[error("no unit")]
    Syntax(ParseFault),
    /// Memory ran out behind both.
    #[error("out of memory")]
    Memory,
}

impl From<LexFault> for TextFault {
    ghost from_gives = { λ fault made. made ≡ Lexis fault };

    fn from(fault: LexFault) -> TextFault {
        TextFault::Lexis(fault)
    }
}

impl From<ParseFault> for TextFault {
    ghost from_gives = { λ fault made. made ≡ Syntax fault };

    fn from(fault: ParseFault) -> TextFault {
        TextFault::Syntax(fault)
    }
}

impl From<AllocError> for TextFault {
    ghost from_gives = { λ _ made. made ≡ Memory };

    fn from(_error: AllocError) -> TextFault {
        TextFault::Memory
    }
}
