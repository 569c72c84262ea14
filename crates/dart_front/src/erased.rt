// The text of a unit without the annotations that change nothing in production mode.
ghost use Rattle.std.specs.Prelude.{◌≡◌, IfOk, IfErr};
ghost use Rattle.dart_tree.specs.UnitTokens.{unit_tokens};
ghost use Rattle.dart_tree.specs.UnitView as view;
ghost use Rattle.dart_erase.specs.UnitErased as of_unit;
ghost use Rattle.dart_front.specs.Texts.{ErasesTo, HasFault, erased_bytes};

use crate::fault::TextFault;
use crate::unit::unit_of;
use dart_base::bytes::Bytes;
use dart_erase::unit::erase;
use dart_lex::render::render;
use dart_token::token::Token;
use dart_tree::unit::Unit;
use dart_unparse::tokens;
use std::alloc::{AllocError, Global};

// The tokens of a unit without its annotations; the unit is given up, so that no more than two trees are held at once.
fn erased_tokens(alloc: Global, unit: Unit) -> Result<Vec<Token>, AllocError>
    ensures { IfOk result (λ tokens. tokens.items ≡ unit_tokens (of_unit.unit (view.unit unit))) }
{
    let erased = erase(alloc, &unit)?;
    drop(unit);
    tokens(alloc, &erased)
}

// The text of a unit without its annotations.
fn erased_bytes(alloc: Global, unit: Unit) -> Result<Bytes, AllocError>
    ensures { IfOk result (λ bytes. bytes ≡ erased_bytes (view.unit unit)) }
{
    let tokens = erased_tokens(alloc, unit)?;
    render(alloc, &tokens)
}

/// The unit that a text is, written out without the annotations that change nothing in production mode (ECMA-408, 19
/// Types): what stays keeps its line. Or why the text is no unit.
pub fn erased_text(alloc: Global, text: &[u8]) -> Result<Bytes, TextFault>
    ensures text { IfOk result (λ bytes. ErasesTo text.now bytes) }
    ensures fault { IfErr result (λ fault. HasFault 0 text.now fault) }
{
    let unit = unit_of(alloc, 0, text)?;
    Ok(erased_bytes(alloc, unit)?)
}
