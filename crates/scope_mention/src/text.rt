// The text that a string without interpolation stands for (ECMA-408, 16.5 Strings).
ghost use Rattle.std.specs.Prelude.{◌≡◌, IfOk, OnOk};
ghost use Rattle.dart_pieces.specs.Numbers.{digit};
ghost use Rattle.scope_mention.specs.Text.{control, next_value, behind_backslash, with_digit, in_braces, step, cooked, literal_text};

use crate::written::Written;
use dart_base::bytes::Bytes;
use std::alloc::{AllocError, Global};

/// Where a reader of a string stands.
#[derive(Clone, Copy)]
pub enum Mode {
    /// Between elements.
    Text,
    /// Behind `\`.
    Backslash,
    /// Behind `\u`.
    Unicode,
    /// Before so many digits of an escape, whose value so far follows.
    Digits(u8, u32),
    /// Between braces, with the value so far.
    Braces(u32),
    /// Behind what gives the string no text of its own, as a name that is put in.
    Failed,
}

/// What a reader of a string has read.
#[derive(Drop)]
pub struct Reader {
    pub mode: Mode,
    pub written: Written,
}

fn digit(b: u8) -> u32
    ensures { result ≡ digit b }
{
    if b < b':' {
        return u32::from(b.saturating_sub(b'0'));
    }
    if b < b'[' {
        return u32::from(b) + 10 - 65;
    }
    u32::from(b) + 10 - 97
}

// The byte that stands for itself, or for a control character, behind `\`.
fn control(b: u8) -> u8
    ensures { result ≡ control b }
{
    match b {
        b'n' => 10,
        b'r' => 13,
        b'f' => 12,
        b'b' => 8,
        b't' => 9,
        b'v' => 11,
        _ => b,
    }
}

// The value with one more hexadecimal digit, unless it is above every character already.
fn next_value(value: u32, b: u8) -> Option<u32>
    ensures { result ≡ next_value value b }
{
    if value > 0x10_FFFF {
        return None;
    }
    Some(value * 16 + digit(b))
}

impl Reader {
    fn behind_backslash(&mut self, b: u8) -> Result<(), AllocError>
        ensures { OnOk result (self.new ≡ behind_backslash self.old.written b) }
    {
        match b {
            b'x' => self.mode = Mode::Digits(2, 0),
            b'u' => self.mode = Mode::Unicode,
            _ => {
                self.written.byte(control(b))?;
                self.mode = Mode::Text;
            }
        }
        Ok(())
    }

    fn with_digit(&mut self, left: u8, value: u32, b: u8) -> Result<(), AllocError>
        ensures { OnOk result (self.new ≡ with_digit self.old.written left (next_value value b)) }
    {
        match next_value(value, b) {
            None => self.mode = Mode::Failed,
            Some(next) => {
                if left > 1 {
                    self.mode = Mode::Digits(left - 1, next);
                } else {
                    self.written.code(next)?;
                    self.mode = Mode::Text;
                }
            }
        }
        Ok(())
    }

    fn in_braces(&mut self, value: u32, b: u8) -> Result<(), AllocError>
        ensures { OnOk result (self.new ≡ in_braces self.old.written value b) }
    {
        if b == b'}' {
            self.written.code(value)?;
            self.mode = Mode::Text;
            return Ok(());
        }
        match next_value(value, b) {
            None => self.mode = Mode::Failed,
            Some(next) => self.mode = Mode::Braces(next),
        }
        Ok(())
    }

    // Reads a byte.
    fn step(&mut self, b: u8) -> Result<(), AllocError>
        ensures { OnOk result (self.new ≡ step self.old b) }
    {
        match self.mode {
            Mode::Text => {
                if b == b'\\' {
                    self.mode = Mode::Backslash;
                } else if b == b'$' {
                    self.mode = Mode::Failed;
                } else {
                    self.written.byte(b)?;
                }
                Ok(())
            }
            Mode::Backslash => self.behind_backslash(b),
            Mode::Unicode => {
                if b == b'{' {
                    self.mode = Mode::Braces(0);
                    return Ok(());
                }
                self.with_digit(4, 0, b)
            }
            Mode::Digits(left, value) => self.with_digit(left, value, b),
            Mode::Braces(value) => self.in_braces(value, b),
            Mode::Failed => Ok(()),
        }
    }
}

// The text of the bytes between two quotes, in which escapes are read.
fn cooked(alloc: Global, inner: &[u8]) -> Result<Option<Bytes>, AllocError>
    ensures { IfOk result (λ text. text ≡ cooked inner.now) }
{
    let mut reader = Reader {
        mode: Mode::Text,
        written: Written::new(alloc),
    };
    for b in inner {
        reader.step(*b)?;
    }
    reader.written.settle()?;
    match reader.mode {
        Mode::Text => Ok(Some(reader.written.bytes)),
        _ => Ok(None),
    }
}

/// The text of a string as it is written, in UTF-8; None where something is put into it (ECMA-408, 16.5.1 String
/// Interpolation), or where it is no string.
pub fn literal_text(alloc: Global, lexeme: &[u8]) -> Result<Option<Bytes>, AllocError>
    ensures { IfOk result (λ text. text ≡ literal_text lexeme.now) }
{
    match lexeme {
        [b'r', _, inner @ .., _] => Ok(Some(Bytes::from_slice(alloc, inner)?)),
        [_, inner @ .., _] => cooked(alloc, inner),
        _ => Ok(None),
    }
}
