// Values.
ghost use Rattle.std.specs.Prelude.{◌≡◌};
ghost use Rattle.dart_ir.specs.Integer.{integer_of, integer_value};

use crate::number::{DeclId, Ref};

/// A value, in three words of the machine at most.
///
/// An integer is the two words of its 128 bits, since a field of 128 bits would make each value four words:
/// `integer_of` of specs/Integer.antt reads it.
#[derive(Clone, Copy, Debug, PartialEq, Eq)]
pub enum Value {
    Null,
    Bool(bool),
    Int { high: u64, low: u64 },
    /// A string literal, as its place in the program's list of literals.
    Literal(u32),
    /// A static or top-level function.
    Code(DeclId),
    /// An object of the store. The first objects of a store are the constants of its program.
    At(Ref),
}

const _: () = prove!(size_of::<Value>() <= 24);

/// The integer of two words.
pub fn integer_of(high: u64, low: u64) -> i128
    ensures { result ≡ integer_of high low }
{
    let bits = high as u128 * 0x1_0000_0000_0000_0000 + low as u128;
    bits.cast_signed()
}

/// The value that is the integer.
pub fn integer_value(n: i128) -> Value
    ensures { result ≡ integer_value n }
{
    let bits = n.cast_unsigned();
    Value::Int {
        high: (bits / 0x1_0000_0000_0000_0000) as u64,
        low: (bits % 0x1_0000_0000_0000_0000) as u64,
    }
}
