// The integers of literals.
ghost use Rattle.std.specs.Prelude.{◌≡◌, ◌+◌, ◌*◌, IfOk};
ghost use Rattle.dart_pieces.specs.Bytes.{is_x};
ghost use Rattle.dart_pieces.specs.Numbers.{value_in, integer_value as value_of};
ghost use Rattle.translation.specs.Expressions.{integer_of};

use crate::reading::digit;
use dart_ir::value::{Value, integer_value};
use lower_leaf::fault::Want;

// The value with one more digit.
fn next_value(value: u128, base: u8, digit: u8) -> Result<u128, Want>
    ensures { IfOk result (λ made. made ≡ value * base + digit) }
{
    let Some(product) = value.checked_mul(u128::from(base)) else {
        return Err(Want);
    };
    match product.checked_add(u128::from(digit)) {
        Some(sum) => Ok(sum),
        None => Err(Want),
    }
}

// The value of digits.
fn value_in(base: u8, digits: &[u8]) -> Result<u128, Want>
    ensures { IfOk result (λ made. made ≡ value_in base digits.now) }
{
    let mut value: u128 = 0;
    for b in digits {
        value = next_value(value, base, digit(*b))?;
    }
    Ok(value)
}

// `x` or `X`
fn is_x(b: u8) -> bool
    ensures { result ≡ is_x b }
{
    b == b'x' || b == b'X'
}

// The value of the text of an integer.
fn value_of(text: &[u8]) -> Result<u128, Want>
    ensures { IfOk result (λ made. made ≡ value_of text.now) }
{
    match text {
        [_, x, digits @ ..] if is_x(*x) => value_in(16, digits),
        _ => value_in(10, text),
    }
}

/// The integer of a literal (ECMA-408, 16.3 Numbers).
pub fn integer(text: &[u8]) -> Result<Value, Want>
    ensures { IfOk result (λ made. made ≡ integer_of text.now) }
{
    match i128::try_from(value_of(text)?) {
        Ok(value) => Ok(integer_value(value)),
        Err(_) => Err(Want),
    }
}
