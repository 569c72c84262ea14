// The unit that a text is.
ghost use Rattle.std.specs.Prelude.{IfOk, IfErr};
ghost use Rattle.dart_tree.specs.UnitView as view;
ghost use Rattle.dart_front.specs.Texts.{HasFault, IsUnit};

use crate::fault::TextFault;
use dart_lex::lexer::lex;
use dart_parse::parse::parse;
use dart_tree::unit::Unit;
use std::alloc::Global;

/// The unit that a text is as the unit of this number in its program, which its places say (ECMA-408, 18 Libraries and
/// Scripts). Or why the text is no unit.
pub fn unit_of(alloc: Global, number: u32, text: &[u8]) -> Result<Unit, TextFault>
    ensures unit { IfOk result (λ unit. IsUnit number text.now (view.unit unit)) }
    ensures fault { IfErr result (λ fault. HasFault number text.now fault) }
{
    let tokens = lex(alloc, number, text)?;
    Ok(parse(alloc, &tokens)?)
}
