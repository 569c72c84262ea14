// Operators in expressions.
use dart_base::place::Place;
use dart_token::sign::Sign;

/// An operator (ECMA-408, 16 Expressions).
///
/// `>>` and `>>=` are two tokens each, as the lexis has them.
#[derive(Clone, Copy, Debug, PartialEq, Eq)]
pub enum Operator {
    /// `+`, `=`, `*=` and the like, of one sign.
    Sign(Place, Sign),
    /// `> >`
    ShiftRight(Place, Place),
    /// `> >=`
    ShiftRightAssign(Place, Place),
}
