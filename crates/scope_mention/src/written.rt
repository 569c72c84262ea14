// A text in UTF-8 that is written from bytes and from the units and characters of escapes.
ghost use Rattle.std.specs.Prelude.{◌≡◌, ◌++◌, [], OnOk, None};
ghost use Rattle.scope_mention.specs.Written.{is_high, is_low, paired, character_of, character, settled, with_byte, with_code};

use dart_base::bytes::Bytes;
use std::alloc::{AllocError, Global};

/// A text in UTF-8 so far, and the first half of a surrogate pair that may follow it.
#[derive(Drop)]
pub struct Written {
    pub bytes: Bytes,
    pub high: Option<u32>,
}

fn is_high(code: u32) -> bool
    ensures { result ≡ is_high code }
{
    0xD800 <= code && code <= 0xDBFF
}

fn is_low(code: u32) -> bool
    ensures { result ≡ is_low code }
{
    0xDC00 <= code && code <= 0xDFFF
}

// The character that two halves make.
fn paired(high: u32, low: u32) -> u32
    ensures { result ≡ paired high low }
{
    0x1_0000 + (high.saturating_sub(0xD800) % 0x400) * 0x400 + low.saturating_sub(0xDC00) % 0x400
}

// The character of the code, or U+FFFD where it is none.
fn character_of(code: u32) -> char
    ensures { result ≡ character_of code }
{
    match char::from_u32(code) {
        Some(character) => character,
        None => '\u{FFFD}',
    }
}

// Writes a character in UTF-8.
fn push_character(bytes: &mut Bytes, code: u32) -> Result<(), AllocError>
    ensures { OnOk result (bytes.new ≡ bytes.old ++ character code) }
{
    let mut buffer = [0; 4];
    bytes.append(character_of(code).encode_utf8(&mut buffer).as_bytes())
}

impl Written {
    pub fn new(alloc: Global) -> Written
        ensures bytes { result.bytes ≡ [] }
        ensures high { result.high ≡ None }
    {
        Written {
            bytes: Bytes::new(alloc),
            high: None,
        }
    }

    /// Writes a half whose other half didn't come.
    pub fn settle(&mut self) -> Result<(), AllocError>
        ensures { OnOk result (self.new ≡ settled self.old) }
    {
        if let Some(high) = self.high {
            push_character(&mut self.bytes, high)?;
            self.high = None;
        }
        Ok(())
    }

    /// Writes a byte as it is.
    pub fn byte(&mut self, byte: u8) -> Result<(), AllocError>
        ensures { OnOk result (self.new ≡ with_byte self.old byte) }
    {
        self.settle()?;
        self.bytes.push(byte)
    }

    /// Writes a character, or half of one.
    pub fn code(&mut self, code: u32) -> Result<(), AllocError>
        ensures { OnOk result (self.new ≡ with_code self.old code) }
    {
        if is_low(code)
            && let Some(high) = self.high
        {
            self.high = None;
            return push_character(&mut self.bytes, paired(high, code));
        }
        self.settle()?;
        if is_high(code) {
            self.high = Some(code);
            return Ok(());
        }
        push_character(&mut self.bytes, code)
    }
}
