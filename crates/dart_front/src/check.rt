// Whether tokens are a unit.
ghost use Rattle.dart_front.specs.Texts.{Checks};

use dart_parse::parse::parse;
use dart_token::token::Token;
use parse_unit::fault::ParseFault;
use std::alloc::Global;

/// Answers why the tokens are no unit, where they are none.
pub fn check(alloc: Global, tokens: &[Token]) -> Result<(), ParseFault>
    ensures { Checks tokens.now result }
{
    match parse(alloc, tokens) {
        Ok(unit) => {
            drop(unit);
            Ok(())
        }
        Err(fault) => Err(fault),
    }
}
