// The parts of a string.

use dart_base::bytes::Bytes;
use dart_base::units::Units;

/// What a piece of a string is made of (ECMA-408, 16.5.1 String Interpolation).
#[derive(Drop)]
pub enum StringPart {
    /// Units of UTF-16 that stand for themselves.
    Units(Units),
    /// A name behind `$`.
    Shown(Bytes),
}
