// Integers and doubles.
ghost use Rattle.std.specs.Prelude.{◌≡◌, ◌<◌, ◌≤◌, ◌^◌, ◌+◌, ◌*◌, length, drop, nat_lt, if◌then◌else◌};
ghost use Rattle.dart_pieces.specs.Numbers.{digit, value_in, integer_value};
ghost use Rattle.dart_pieces.specs.Reader.{hex_len, double_len, decimal_at, number_at};

use crate::bytes::{digits_len, hex_digits_len, is_digit, is_exponent, is_plus_or_minus, is_x};
use crate::piece::{LexReason, PieceClass};
use dart_base::limit::GREATEST_INTEGER;
use dart_token::token::TokenKind;

fn digit(b: u8) -> u8
    ensures { result ≡ digit b }
{
    if b < b':' {
        return b.saturating_sub(b'0');
    }
    if b < b'[' {
        return b - 55;
    }
    b - 87
}

// The value with one more digit, where it is within the limit.
fn next_value(limit: u128, base: u8, value: u128, digit: u8) -> Option<u128>
    ensures { let sum = value * base + digit in
        result ≡ (if nat_lt limit sum then None else Some sum) }
{
    let sum = value
        .checked_mul(u128::from(base))?
        .checked_add(u128::from(digit))?;
    if sum > limit { None } else { Some(sum) }
}

/// Whether the value of the digits is above the limit.
pub(crate) fn exceeds(limit: u128, base: u8, digits: &[u8]) -> bool
    requires { 0 < base }
    ensures { result ≡ nat_lt limit (value_in base digits.now) }
{
    let mut value: u128 = 0;
    for b in digits {
        match next_value(limit, base, value, digit(*b)) {
            Some(next) => value = next,
            None => return true,
        }
    }
    false
}

/// Whether the value of an integer is above the greatest, 2^127 - 1.
pub fn is_too_large(integer: &[u8]) -> bool
    ensures { result ≡ nat_lt GREATEST_INTEGER (integer_value integer.now) }
{
    match integer {
        [_, x, digits @ ..] if is_x(*x) => exceeds(GREATEST_INTEGER, 16, digits),
        _ => exceeds(GREATEST_INTEGER, 10, integer),
    }
}

fn hex_len(text: &[u8]) -> usize
    ensures value { result ≡ hex_len text.now }
    ensures within { result ≤ length text.now }
{
    match text {
        [a, x, more @ ..] if *a == b'0' && is_x(*x) => hex_digits_len(more),
        _ => 0,
    }
}

fn double_len(text: &[u8]) -> usize
    ensures value { result ≡ double_len text.now }
    ensures size { result ≤ 3 }
{
    match text {
        [a, b, ..] if (*a == b'.' || is_exponent(*a)) && is_digit(*b) => 2,
        [a, b, c, ..] if is_exponent(*a) && is_plus_or_minus(*b) && is_digit(*c) => 3,
        _ => 0,
    }
}

fn decimal_at(length: usize, tail: usize) -> (PieceClass, usize)
    requires digits { length < 2 ^ 63 }
    requires tails { tail ≤ 3 }
    ensures { result ≡ decimal_at length tail }
{
    if tail == 0 {
        return (PieceClass::Lexeme(TokenKind::Integer), length);
    }
    (PieceClass::Refused(LexReason::Fraction), length + tail)
}

/// The number at the front of a text that begins with a digit.
pub(crate) fn number_at(text: &[u8]) -> (PieceClass, usize)
    ensures { result ≡ number_at text.now }
{
    let hex = hex_len(text);
    if hex > 0 {
        return (PieceClass::Lexeme(TokenKind::Integer), 2 + hex);
    }
    let length = digits_len(text);
    decimal_at(length, double_len(&text[length..]))
}
