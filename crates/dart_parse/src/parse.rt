// The unit that a list of tokens is.
ghost use Rattle.parse_unit.specs.Finds.{Finds};

use crate::knot::unit;
use dart_token::token::Token;
use dart_tree::unit::Unit;
use parse_unit::answer::parse_with;
use parse_unit::fault::ParseFault;
use std::alloc::Global;

/// The unit that the tokens are (ECMA-408, 18 Libraries and Scripts), or why they are none: what the profile leaves out
/// before all else, and else the first token that is wrong or, where the further limit of depth passes it, too deep.
pub fn parse(alloc: Global, tokens: &[Token]) -> Result<Unit, ParseFault>
    ensures { Finds tokens.now result }
{
    parse_with(alloc, tokens, &unit)
}
