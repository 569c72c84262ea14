// A piece of a string is read byte by byte (ECMA-408, 16.5 Strings).
#![tactic(auto, using(crate::proofs::Also::pushed))]

ghost use Rattle.std.specs.Prelude.{◌≡◌, ◌+◌, ◌*◌, ◌++◌, ◌∷◌, [], IfOk};
ghost use Rattle.dart_pieces.specs.Bytes.{is_letter, is_word_byte};
ghost use Rattle.dart_pieces.specs.Numbers.{digit};
ghost use Rattle.translation.specs.Strings as s;
ghost use Rattle.lower_string.specs.Parts.{part, reading, begun, all_parts};

use crate::part::StringPart;
use dart_base::bytes::Bytes;
use dart_base::units::Units;
use lower_leaf::fault::Want;
use std::alloc::Global;

/// What was begun in a piece.
#[derive(Clone, Copy, Debug, PartialEq, Eq)]
pub enum Begun {
    Plain,
    Backslash,
    Unicode,
    /// An escape with so many digits left, and its value so far.
    Digits { left: u32, value: u32 },
    /// An escape in braces, and its value so far.
    Braces(u32),
    Name,
    /// A character of UTF-8 with so many bytes left, and its value so far.
    Character { left: u32, value: u32 },
}

/// A piece that is read up to some byte.
#[derive(Drop)]
pub struct Reading {
    pub is_raw: bool,
    pub begun: Begun,
    /// The name so far, where one was begun.
    pub name: Bytes,
    pub units: Units,
    pub parts: Vec<StringPart>,
}

/// The start of a piece.
pub fn start(alloc: Global, is_raw: bool) -> Reading
    ensures { reading result ≡ record { is_raw = is_raw; begun = s.plain; units = []; parts = [] } }
{
    Reading {
        is_raw,
        begun: Begun::Plain,
        name: Bytes::new(alloc),
        units: Units::new(alloc),
        parts: Vec::new(alloc),
    }
}

// A number as a unit.
fn unit(code: u32) -> Result<u16, Want>
    ensures { IfOk result (λ made. made ≡ code) }
{
    match u16::try_from(code) {
        Ok(made) => Ok(made),
        Err(_) => Err(Want),
    }
}

// The units with those of a character behind them.
fn with_units(units: Units, code: u32) -> Result<Units, Want>
    ensures { IfOk result (λ made. made ≡ units ++ s.units_of code) }
{
    let mut made = units;
    if code < 0x10000 {
        made.push(unit(code)?)?;
        return Ok(made);
    }
    let high = unit(0xD800 + (code - 0x10000) / 0x400)?;
    let low = unit(0xDC00 + (code - 0x10000) % 0x400)?;
    made.append(&[high, low])?;
    Ok(made)
}

fn with_code(r: Reading, code: u32) -> Result<Reading, Want>
    ensures { IfOk result (λ made. reading made ≡ s.with_code (reading r) code) }
{
    let units = with_units(r.units, code)?;
    Ok(Reading {
        is_raw: r.is_raw,
        begun: Begun::Plain,
        name: r.name,
        units,
        parts: r.parts,
    })
}

fn beginning(r: Reading, next: Begun) -> Reading
    ensures { reading result ≡ s.beginning (reading r) (begun next r.name) }
{
    Reading {
        is_raw: r.is_raw,
        begun: next,
        name: r.name,
        units: r.units,
        parts: r.parts,
    }
}

// A control character behind a backslash, or a character that stands for itself.
fn control(b: u8) -> u8
    ensures { result ≡ s.control b }
{
    match b {
        b'n' => 10,
        b'r' => 13,
        b'f' => 12,
        b'b' => 8,
        b't' => 9,
        b'v' => 11,
        _ => b,
    }
}

// The first byte of a character.
fn with_byte(r: Reading, b: u8) -> Result<Reading, Want>
    ensures { IfOk result (λ made. reading made ≡ s.with_byte (reading r) b) }
{
    let code = u32::from(b);
    if code < 0x80 {
        return with_code(r, code);
    }
    if code < 0xE0 {
        return Ok(beginning(
            r,
            Begun::Character {
                left: 1,
                value: code.saturating_sub(0xC0),
            },
        ));
    }
    if code < 0xF0 {
        return Ok(beginning(
            r,
            Begun::Character {
                left: 2,
                value: code - 0xE0,
            },
        ));
    }
    Ok(beginning(
        r,
        Begun::Character {
            left: 3,
            value: code - 0xF0,
        },
    ))
}

// The parts with one more.
fn with_part(parts: Vec<StringPart>, last: StringPart) -> Result<Vec<StringPart>, Want>
    ensures { IfOk result (λ made. all_parts made ≡ all_parts parts ++ part last ∷ []) }
{
    let mut made = parts;
    made.push(last)?;
    Ok(made)
}

// A name is begun behind the units so far.
fn beginning_name(alloc: Global, r: Reading) -> Result<Reading, Want>
    ensures { IfOk result (λ made. reading made
        ≡ record (reading r) { begun = s.name []; units = []; parts = (reading r).parts ++ s.units (reading r).units ∷ [] }) }
{
    let parts = with_part(r.parts, StringPart::Units(r.units))?;
    Ok(Reading {
        is_raw: r.is_raw,
        begun: Begun::Name,
        name: Bytes::new(alloc),
        units: Units::new(alloc),
        parts,
    })
}

fn in_text(alloc: Global, r: Reading, b: u8) -> Result<Reading, Want>
    ensures { IfOk result (λ made. reading made ≡ s.in_text (reading r) b) }
{
    if r.is_raw {
        return with_byte(r, b);
    }
    if b == b'\\' {
        return Ok(beginning(r, Begun::Backslash));
    }
    if b == b'$' {
        return beginning_name(alloc, r);
    }
    with_byte(r, b)
}

fn behind_backslash(r: Reading, b: u8) -> Result<Reading, Want>
    ensures { IfOk result (λ made. reading made ≡ s.behind_backslash (reading r) b) }
{
    if b == b'x' {
        return Ok(beginning(r, Begun::Digits { left: 2, value: 0 }));
    }
    if b == b'u' {
        return Ok(beginning(r, Begun::Unicode));
    }
    with_byte(r, control(b))
}

// The value with one more digit of this base.
fn next_value(value: u32, base: u32, more: u32) -> Result<u32, Want>
    ensures { IfOk result (λ made. made ≡ value * base + more) }
{
    let Some(product) = value.checked_mul(base) else {
        return Err(Want);
    };
    match product.checked_add(more) {
        Some(sum) => Ok(sum),
        None => Err(Want),
    }
}

fn with_digit(r: Reading, left: u32, value: u32) -> Result<Reading, Want>
    ensures { IfOk result (λ made. reading made ≡ s.with_digit (reading r) left value) }
{
    if left > 1 {
        return Ok(beginning(
            r,
            Begun::Digits {
                left: left - 1,
                value,
            },
        ));
    }
    with_code(r, value)
}

fn with_continuation(r: Reading, left: u32, value: u32) -> Result<Reading, Want>
    ensures { IfOk result (λ made. reading made ≡ s.with_continuation (reading r) left value) }
{
    if left > 1 {
        return Ok(beginning(
            r,
            Begun::Character {
                left: left - 1,
                value,
            },
        ));
    }
    with_code(r, value)
}

// A letter of ASCII, `_` or `$`.
fn is_letter(b: u8) -> bool
    ensures { result ≡ is_letter b }
{
    (b >= b'a' && b <= b'z') || (b >= b'A' && b <= b'Z') || b == b'_' || b == b'$'
}

fn is_word_byte(b: u8) -> bool
    ensures { result ≡ is_word_byte b }
{
    is_letter(b) || (b >= b'0' && b <= b'9')
}

/// The value of a digit.
pub fn digit(b: u8) -> u8
    ensures { result ≡ digit b }
{
    if b < b':' {
        return b.saturating_sub(b'0');
    }
    if b < b'[' {
        return b - 55;
    }
    b - 87
}

// The name is one of the parts.
fn named_so_far(alloc: Global, r: Reading) -> Result<Reading, Want>
    ensures { IfOk result (λ made. reading made ≡ s.named_so_far (reading r) r.name) }
{
    let parts = with_part(r.parts, StringPart::Shown(r.name))?;
    Ok(Reading {
        is_raw: r.is_raw,
        begun: Begun::Plain,
        name: Bytes::new(alloc),
        units: r.units,
        parts,
    })
}

// The name with one more byte.
fn longer_name(r: Reading, b: u8) -> Result<Reading, Want>
    ensures { IfOk result (λ made. reading made ≡ s.beginning (reading r) (s.name (r.name ++ b ∷ []))) }
{
    let mut name = r.name;
    name.push(b)?;
    Ok(Reading {
        is_raw: r.is_raw,
        begun: Begun::Name,
        name,
        units: r.units,
        parts: r.parts,
    })
}

fn in_name(alloc: Global, r: Reading, b: u8) -> Result<Reading, Want>
    ensures { IfOk result (λ made. reading made ≡ s.in_name (reading r) r.name b) }
{
    if is_word_byte(b) && b != b'$' {
        return longer_name(r, b);
    }
    let r = named_so_far(alloc, r)?;
    in_text(alloc, r, b)
}

/// The piece read up to the next byte.
pub fn step(alloc: Global, r: Reading, b: u8) -> Result<Reading, Want>
    ensures { IfOk result (λ made. reading made ≡ s.step (reading r) b) }
{
    match r.begun {
        Begun::Plain => in_text(alloc, r, b),
        Begun::Backslash => behind_backslash(r, b),
        Begun::Unicode => {
            if b == b'{' {
                return Ok(beginning(r, Begun::Braces(0)));
            }
            with_digit(r, 4, u32::from(digit(b)))
        }
        Begun::Digits { left, value } => {
            let value = next_value(value, 16, u32::from(digit(b)))?;
            with_digit(r, left, value)
        }
        Begun::Braces(value) => {
            if b == b'}' {
                return with_code(r, value);
            }
            let value = next_value(value, 16, u32::from(digit(b)))?;
            Ok(beginning(r, Begun::Braces(value)))
        }
        Begun::Name => in_name(alloc, r, b),
        Begun::Character { left, value } => {
            let value = next_value(value, 0x40, u32::from(b.saturating_sub(0x80)))?;
            with_continuation(r, left, value)
        }
    }
}

/// The parts of a piece that ends here.
pub fn finished(r: Reading) -> Result<Vec<StringPart>, Want>
    ensures { IfOk result (λ made. all_parts made ≡ s.finished (reading r)) }
{
    match r.begun {
        Begun::Name => with_part(r.parts, StringPart::Shown(r.name)),
        Begun::Plain => with_part(r.parts, StringPart::Units(r.units)),
        Begun::Backslash => with_part(r.parts, StringPart::Units(r.units)),
        Begun::Unicode => with_part(r.parts, StringPart::Units(r.units)),
        Begun::Digits { left: _, value: _ } => with_part(r.parts, StringPart::Units(r.units)),
        Begun::Braces(_) => with_part(r.parts, StringPart::Units(r.units)),
        Begun::Character { left: _, value: _ } => with_part(r.parts, StringPart::Units(r.units)),
    }
}
