// The unit that a text is, with its weight.
ghost use Rattle.std.specs.Prelude.{◌≡◌, ◌≤◌, false, IfOk, IfErr};
ghost use Rattle.dart_front.specs.Texts.{HasFault};
ghost use Rattle.dart_lex.specs.Spelling.{weight};
ghost use Rattle.dart_tree.specs.UnitView as view;
ghost use Rattle.scope_files.specs.Texts.{text_reason, lexical_reason, syntax_reason, IsWeighed, TextGives};
ghost use Rattle.scope_load.specs.Found.{found_is, take_failed};

use dart_base::limit::UNIT_WEIGHT;
use dart_front::fault::TextFault;
use dart_front::parse;
use dart_lex::lexer::{LexFault, lex};
use dart_token::token::Token;
use dart_tree::unit::Unit;
use parse_unit::fault::ParseFault;
use scope_load::units::{Found, TakeFault, TextReason};
use std::alloc::Global;

fn lexical_reason(fault: LexFault) -> Option<TextReason>
    ensures { result ≡ lexical_reason fault }
{
    match fault {
        LexFault::TooLarge => Some(TextReason::TooLarge),
        LexFault::NotUtf8(offset) => Some(TextReason::NotUtf8(offset)),
        LexFault::BadToken(place) => Some(TextReason::BadToken(place)),
        LexFault::LeftOut(place, feature) => Some(TextReason::LeftOut(place, feature)),
        LexFault::IntegerTooLarge(place) => Some(TextReason::IntegerTooLarge(place)),
        LexFault::Memory => None,
    }
}

fn syntax_reason(fault: ParseFault) -> Option<TextReason>
    ensures { result ≡ syntax_reason fault }
{
    match fault {
        ParseFault::LeftOut(place, feature) => Some(TextReason::LeftOut(place, feature)),
        ParseFault::Syntax(place) => Some(TextReason::Syntax(place)),
        ParseFault::TooDeep(place) => Some(TextReason::TooDeep(place)),
        ParseFault::Memory => None,
    }
}

// The reason for which a text is no unit; being out of memory is none.
fn text_reason(fault: TextFault) -> Option<TextReason>
    ensures { result ≡ text_reason fault }
{
    match fault {
        TextFault::Lexis(fault) => lexical_reason(fault),
        TextFault::Syntax(fault) => syntax_reason(fault),
        TextFault::Memory => None,
    }
}

// What tokens weigh: their lengths in bytes, each counted as at least 3.
fn weight(tokens: &[Token]) -> u32
    requires { weight tokens.now ≤ UNIT_WEIGHT }
    ensures { result ≡ weight tokens.now }
{
    let mut total = 0;
    for token in tokens {
        total += token.lexeme.len().max(3) as u32;
    }
    total
}

// The unit that a text is as the unit of this number, and its weight.
fn weighed_unit(alloc: Global, number: u32, text: &[u8]) -> Result<(Unit, u32), TextFault>
    ensures unit { IfOk result (λ read. IsWeighed number text.now (view.unit read.0) read.1) }
    ensures fault { IfErr result (λ fault. HasFault number text.now fault) }
{
    let tokens = lex(alloc, number, text)?;
    let unit = parse(alloc, &tokens)?;
    let weight = weight(&tokens);
    Ok((unit, weight))
}

/// What a text gives as the unit of this number.
pub(crate) fn read_text(alloc: Global, number: u32, text: &[u8]) -> Result<Found, TakeFault>
    ensures content { IfOk result (λ found. TextGives number text.now (found_is found)) }
    ensures failed { take_failed result ≡ false }
{
    match weighed_unit(alloc, number, text) {
        Ok((unit, weight)) => Ok(Found::Read(unit, weight)),
        Err(fault) => match text_reason(fault) {
            Some(reason) => Ok(Found::Refused(reason)),
            None => Err(TakeFault::Memory),
        },
    }
}
