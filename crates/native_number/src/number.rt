// The natives of whole numbers, which take no memory and no part in the store.
ghost use Rattle.std.specs.Prelude.{◌≡◌, pos, ◌+ℤ◌, ◌-ℤ◌, ◌*ℤ◌, neg_ℤ, bit_and, bit_or, bit_xor, ◌^◌, ◌≤◌};
ghost use Rattle.native_number.specs.Number as spec;

use dart_ir::kind::ThrowKind;
use dart_ir::native::{Answer, NativeId};
use dart_ir::value::{Value, integer_of, integer_value};

// The answer that is this number.
fn whole(number: i128) -> Answer
    ensures { result ≡ spec.whole number }
{
    Answer::Value(integer_value(number))
}

fn sum(x: i128, y: i128) -> Answer
    ensures { result ≡ spec.whole (x +ℤ y) }
{
    match x.checked_add(y) {
        Some(number) => whole(number),
        None => Answer::IntegerLimit,
    }
}

fn difference(x: i128, y: i128) -> Answer
    ensures { result ≡ spec.whole (x -ℤ y) }
{
    match x.checked_sub(y) {
        Some(number) => whole(number),
        None => Answer::IntegerLimit,
    }
}

fn product(x: i128, y: i128) -> Answer
    ensures { result ≡ spec.whole (x *ℤ y) }
{
    match x.checked_mul(y) {
        Some(number) => whole(number),
        None => Answer::IntegerLimit,
    }
}

fn negated(x: i128) -> Answer
    ensures { result ≡ spec.whole (neg_ℤ x) }
{
    match x.checked_neg() {
        Some(number) => whole(number),
        None => Answer::IntegerLimit,
    }
}

// The quotient without its fraction.
fn truncated(x: i128, y: i128) -> Answer
    ensures { result ≡ spec.truncated x y }
{
    if y == 0 {
        return Answer::Throw(ThrowKind::IntegerDivisionByZeroException);
    }
    match x.checked_div(y) {
        Some(number) => whole(number),
        None => Answer::IntegerLimit,
    }
}

// The remainder that isn't negative.
fn modulo(x: i128, y: i128) -> Answer
    ensures { result ≡ spec.modulo x y }
{
    if y == 0 {
        return Answer::Throw(ThrowKind::IntegerDivisionByZeroException);
    }
    if y == -1 {
        return whole(0);
    }
    whole(x.rem_euclid(y))
}

// -1, 0 or 1.
fn order(x: i128, y: i128) -> Answer
    ensures { result ≡ spec.order x y }
{
    if x < y {
        whole(-1)
    } else if x == y {
        whole(0)
    } else {
        whole(1)
    }
}

fn complement(x: i128) -> Answer
    ensures { result ≡ spec.whole (neg_ℤ x -ℤ pos 1) }
{
    whole(!x)
}

// 2^count, which has 128 bits.
fn power(count: u32) -> i128
    requires { count ≤ 126 }
    ensures { result ≡ pos (2 ^ count) }
{
    1_i128 << count
}

// x times 2^y.
fn shifted_left(x: i128, y: i128) -> Answer
    ensures { result ≡ spec.shifted_left x y }
{
    if y < 0 {
        return Answer::Throw(ThrowKind::ArgumentError);
    }
    if x == 0 {
        return whole(0);
    }
    if y <= 126 {
        return product(x, power(y as u32));
    }
    if x != -1 {
        return Answer::IntegerLimit;
    }
    if y != 127 {
        return Answer::IntegerLimit;
    }
    whole(i128::MIN)
}

// x over 2^y without its fraction, towards the lesser.
fn shifted_right(x: i128, y: i128) -> Answer
    ensures { result ≡ spec.shifted_right x y }
{
    if y < 0 {
        return Answer::Throw(ThrowKind::ArgumentError);
    }
    if y <= 126 {
        return whole(x >> (y as u32));
    }
    if x < 0 { whole(-1) } else { whole(0) }
}

/// The integer that a value is, if it is one.
pub fn number_of(value: Value) -> Option<i128>
    ensures { result ≡ spec.number_of value }
{
    match value {
        Value::Int { high, low } => Some(integer_of(high, low)),
        _ => None,
    }
}

fn is_unary(native: NativeId) -> bool
    ensures { result ≡ spec.is_unary native }
{
    match native {
        NativeId::NumNegate | NativeId::IntComplement => true,
        _ => false,
    }
}

fn unary(native: NativeId, x: i128) -> Answer
    ensures { result ≡ spec.unary native x }
{
    match native {
        NativeId::NumNegate => negated(x),
        NativeId::IntComplement => complement(x),
        _ => Answer::NeedsDouble,
    }
}

fn is_binary(native: NativeId) -> bool
    ensures { result ≡ spec.is_binary native }
{
    match native {
        NativeId::NumAdd
        | NativeId::NumSubtract
        | NativeId::NumMultiply
        | NativeId::NumDivide
        | NativeId::NumTruncatingDivide
        | NativeId::NumModulo
        | NativeId::NumLess
        | NativeId::NumLessEqual
        | NativeId::NumGreater
        | NativeId::NumGreaterEqual
        | NativeId::NumCompareTo
        | NativeId::IntAnd
        | NativeId::IntOr
        | NativeId::IntXor
        | NativeId::IntShiftLeft
        | NativeId::IntShiftRight => true,
        _ => false,
    }
}

fn binary(native: NativeId, x: i128, y: i128) -> Answer
    ensures { result ≡ spec.binary native x y }
{
    match native {
        NativeId::NumAdd => sum(x, y),
        NativeId::NumSubtract => difference(x, y),
        NativeId::NumMultiply => product(x, y),
        NativeId::NumTruncatingDivide => truncated(x, y),
        NativeId::NumModulo => modulo(x, y),
        NativeId::NumLess => Answer::Value(Value::Bool(x < y)),
        NativeId::NumLessEqual => Answer::Value(Value::Bool(x <= y)),
        NativeId::NumGreater => Answer::Value(Value::Bool(x > y)),
        NativeId::NumGreaterEqual => Answer::Value(Value::Bool(x >= y)),
        NativeId::NumCompareTo => order(x, y),
        NativeId::IntAnd => whole(x & y),
        NativeId::IntOr => whole(x | y),
        NativeId::IntXor => whole(x ^ y),
        NativeId::IntShiftLeft => shifted_left(x, y),
        NativeId::IntShiftRight => shifted_right(x, y),
        _ => Answer::NeedsDouble,
    }
}

// What a native of one number answers.
fn with_one(native: NativeId, x: Option<i128>) -> Answer
    ensures { result ≡ spec.with_one (spec.unary native) x }
{
    match x {
        Some(x) => unary(native, x),
        None => Answer::Throw(ThrowKind::ArgumentError),
    }
}

// What a native of two numbers answers.
fn with_two(native: NativeId, x: Option<i128>, y: Option<i128>) -> Answer
    ensures { result ≡ spec.with_two (spec.binary native) x y }
{
    match (x, y) {
        (Some(x), Some(y)) => binary(native, x, y),
        _ => Answer::Throw(ThrowKind::ArgumentError),
    }
}

/// What a native of whole numbers answers for its receiver and its argument, of which a missing one is null; `None` for
/// another native.
pub fn number_native(native: NativeId, this: Value, argument: Value) -> Option<Answer>
    ensures { result ≡ spec.number_native native this argument }
{
    if is_unary(native) {
        return Some(with_one(native, number_of(this)));
    }
    if is_binary(native) {
        return Some(with_two(native, number_of(this), number_of(argument)));
    }
    None
}
