// From a text to its tokens.
ghost use Rattle.std.specs.Prelude.{◌≡◌, ◌+◌, ◌^◌, ◌<◌, ◌≤◌, ◌||◌, nat_lt, ℕ, List, ◌++◌, ◌⊎◌, length, take, drop, count_by, if◌then◌else◌, slice_index, IfOk, IfErr, OnOk};
ghost use Rattle.std.specs.Str.Lossy.{utf8_valid_len};
ghost use Rattle.dart_pieces.specs.Bytes.{is_line_end};
ghost use Rattle.dart_pieces.specs.Cuts.{innermost, opened, begins_script, script_len};
ghost use Rattle.dart_token.specs.declared.token.Token.{Token};
ghost use Rattle.dart_lex.specs.declared.lexer.LexFault.TheVariants.{Memory};
ghost use Rattle.dart_lex.specs.Held.{IsHeld, HasRead};
ghost use Rattle.dart_lex.specs.Spelling.{after_byte, after, reason_fault, fault_of, spelled, lines, start, Spells, HasReason};

use dart_base::bytes::Bytes;
use dart_base::feature::Feature;
use dart_base::limit::{UNIT_BYTES, UNIT_LINES, UNIT_WEIGHT};
use dart_base::place::Place;
use dart_pieces::cuts::{innermost, open_after, script_len};
use dart_pieces::numbers::is_too_large;
use dart_pieces::piece::{LexReason, PieceClass};
use dart_pieces::reader::next_piece;
use dart_token::token::{Token, TokenKind};
use std::alloc::{AllocError, AllocFailed, Global};
use std::str::from_utf8;
use thiserror::Error;

/// Why a text has no tokens.
#[derive(Clone, Copy, Debug, PartialEq, Eq, Drop, Error)]
pub enum LexFault {
    /// The text has too many bytes or lines, or its tokens too much weight.
    #[error("too large")]
    TooLarge,
    /// Up to this offset in bytes the text is UTF-8, and no further.
    #[error("no UTF-8 at byte {0}")]
    NotUtf8(u64),
    /// No token begins here, or what begins here is not closed.
    #[error("no token")]
    BadToken(Place),
    /// What begins here is left out of the profile.
    #[error("left out")]
    LeftOut(Place, Feature),
    /// The integer here is above 2^127 - 1.
    #[error("an integer too large")]
    IntegerTooLarge(Place),
    /// Memory ran out.
    #[error("out of memory")]
    Memory,
}

impl From<AllocError> for LexFault {
    ghost from_gives = { λ _ fault. fault ≡ Memory };

    fn from(_error: AllocError) -> LexFault {
        LexFault::Memory
    }
}

impl<T: Drop> From<AllocFailed<T>> for LexFault {
    ghost from_gives = { λ _ fault. fault ≡ Memory };

    fn from(_error: AllocFailed<T>) -> LexFault {
        LexFault::Memory
    }
}

/// The tokens of a text in their order, which is the text of this unit.
///
/// The text is first limited to 64,000,000 bytes and then has to be UTF-8; then the first piece that is refused is the
/// reason; then the text is limited to 1,000,000 lines and its tokens to a weight of 4,000,000, where a token weighs
/// its length in bytes, but at least 3.
pub fn lex(alloc: Global, unit: u32, bytes: &[u8]) -> Result<Vec<Token>, LexFault>
    ensures tokens { IfOk result (λ tokens. Spells unit bytes.now tokens.items) }
    ensures fault { IfErr result (λ fault.
        (fault ≡ LexFault.Memory) ⊎ HasReason unit bytes.now fault) }
{
    if bytes.len() > UNIT_BYTES {
        return Err(LexFault::TooLarge);
    }
    let valid = valid_len(bytes);
    if valid < bytes.len() {
        return Err(LexFault::NotUtf8(valid as u64));
    }
    let read = read_pieces(alloc, unit, bytes)?;
    if exceeds_limits(line_count(bytes), read.weight) {
        return Err(LexFault::TooLarge);
    }
    Ok(read.tokens)
}

// How many bytes at the front of the text are UTF-8.
fn valid_len(bytes: &[u8]) -> usize
    ensures value { result ≡ utf8_valid_len bytes.now }
    ensures within { result ≤ length bytes.now }
{
    match from_utf8(bytes) {
        Ok(text) => text.len(),
        Err(error) => error.valid_up_to(),
    }
}

fn exceeds_limits(lines: usize, weight: usize) -> bool
    ensures { result ≡ (nat_lt UNIT_LINES lines || nat_lt UNIT_WEIGHT weight) }
{
    lines > UNIT_LINES || weight > UNIT_WEIGHT
}

// The tokens that were read and their weight; beyond the greatest weight the tokens are not kept.
#[derive(Drop)]
struct Weighed {
    tokens: Vec<Token>,
    weight: usize,
}

impl Weighed {
    // Adds the token of a piece, if it is one.
    fn add(
        &mut self,
        alloc: Global,
        place: Place,
        class: PieceClass,
        bytes: &[u8],
    ) -> Result<(), LexFault>
        requires { self.old.weight + length bytes.now + 3 < 2 ^ 64 }
        ensures held { OnOk result ((found : List Token) →
            IsHeld found self.old.tokens.items self.old.weight →
            IsHeld (found ++ spelled place class bytes.now) self.new.tokens.items self.new.weight) }
        ensures grown { OnOk result (self.new.weight ≤ self.old.weight + length bytes.now + 3) }
        ensures memory { IfErr result (λ fault. fault ≡ LexFault.Memory) }
    {
        let PieceClass::Lexeme(kind) = class else {
            return Ok(());
        };
        self.weight += bytes.len().max(3);
        if self.weight <= UNIT_WEIGHT {
            let lexeme = Bytes::from_slice(alloc, bytes)?;
            self.tokens.push(Token {
                kind,
                place,
                lexeme,
            })?;
        }
        Ok(())
    }
}

fn read_pieces(alloc: Global, unit: u32, bytes: &[u8]) -> Result<Weighed, LexFault>
    requires short { length bytes.now ≤ UNIT_BYTES }
    requires utf8 { utf8_valid_len bytes.now ≡ length bytes.now }
    ensures tokens { IfOk result (λ read. HasRead unit bytes.now read.tokens.items read.weight) }
    ensures fault { IfErr result (λ fault.
        (fault ≡ LexFault.Memory) ⊎ HasReason unit bytes.now fault) }
{
    let mut found = Weighed {
        tokens: Vec::new(alloc),
        weight: 0,
    };
    let mut nesting = Vec::new(alloc);
    let mut at = script_len(bytes);
    let mut place = place_after(start(unit), &bytes[..at]);
    while at < bytes.len() {
        let (class, length) = next_piece(innermost(&nesting), &bytes[at..]);
        let text = &bytes[at..at + length];
        if let Some(fault) = fault_of(place, class, text) {
            return Err(fault);
        }
        found.add(alloc, place, class, text)?;
        open_after(&mut nesting, class)?;
        place = place_after(place, text);
        at += length;
    }
    Ok(found)
}

fn start(unit: u32) -> Place
    ensures { result ≡ start unit }
{
    Place {
        unit,
        line: 1,
        column: 1,
    }
}

fn after_byte(place: Place, byte: u8) -> Place
    requires lines { place.line + 1 < 2 ^ 32 }
    requires columns { place.column + 1 < 2 ^ 32 }
    ensures value { result ≡ after_byte place byte }
    ensures line { result.line ≤ place.line + 1 }
    ensures column { result.column ≤ place.column + 1 }
{
    if byte == b'\n' {
        return Place {
            unit: place.unit,
            line: place.line + 1,
            column: 1,
        };
    }
    Place {
        unit: place.unit,
        line: place.line,
        column: place.column + 1,
    }
}

fn place_after(place: Place, bytes: &[u8]) -> Place
    requires lines { place.line + length bytes.now < 2 ^ 32 }
    requires columns { place.column + length bytes.now < 2 ^ 32 }
    ensures value { result ≡ after place bytes.now }
    ensures line { result.line ≤ place.line + length bytes.now }
    ensures column { result.column ≤ place.column + length bytes.now }
{
    let mut now = place;
    for byte in bytes {
        now = after_byte(now, *byte);
    }
    now
}

fn reason_fault(place: Place, reason: LexReason) -> LexFault
    requires { place.column + 1 < 2 ^ 32 }
    ensures { result ≡ reason_fault place reason }
{
    match reason {
        LexReason::Unknown => LexFault::BadToken(place),
        LexReason::OpenRaw => LexFault::BadToken(Place {
            unit: place.unit,
            line: place.line,
            column: place.column + 1,
        }),
        LexReason::TripleQuotes => LexFault::LeftOut(place, Feature::TripleQuotes),
        LexReason::Fraction => LexFault::LeftOut(place, Feature::Doubles),
        LexReason::NullAware => LexFault::LeftOut(place, Feature::NullAware),
        LexReason::Symbol => LexFault::LeftOut(place, Feature::Symbols),
    }
}

fn fault_of(place: Place, class: PieceClass, bytes: &[u8]) -> Option<LexFault>
    requires { place.column + 1 < 2 ^ 32 }
    ensures { result ≡ fault_of place class bytes.now }
{
    match class {
        PieceClass::Refused(reason) => Some(reason_fault(place, reason)),
        PieceClass::Lexeme(TokenKind::Integer) if is_too_large(bytes) => {
            Some(LexFault::IntegerTooLarge(place))
        }
        _ => None,
    }
}

fn line_ends(bytes: &[u8]) -> usize
    ensures value { result ≡ count_by is_line_end bytes.now }
    ensures within { result ≤ length bytes.now }
{
    bytes.iter().filter(|b| **b == b'\n').count()
}

fn line_count(bytes: &[u8]) -> usize
    ensures { result ≡ lines bytes.now }
{
    let ends = line_ends(bytes);
    match bytes {
        [] => 0,
        [.., last] => { if *last == b'\n' { ends } else { ends + 1 } }
    }
}
