// Natives of numbers that aren't negative and have one word, as most have.
#![tactic(auto, using(crate::proofs::Small::whole_is, crate::proofs::Small::truncated_is, crate::proofs::Small::modulo_is, crate::proofs::Small::minus_is))]

ghost use Rattle.std.specs.Prelude.{◌≡◌, pos, ◌+ℤ◌, ◌-ℤ◌, ◌*ℤ◌, Some, false, true, IfSome};
ghost use Rattle.dart_ir.specs.declared.value.Value.TheVariants.{Int};
ghost use Rattle.native_number.specs.Number.{whole, truncated, modulo, is_unary, is_binary, binary, number_native};

use dart_ir::native::{Answer, NativeId};
use dart_ir::value::Value;

// The number of one word.
#[inline(always)]
fn small(low: u64) -> Value
    ensures { whole (pos low) ≡ Answer.Value result }
{
    Value::Int { high: 0, low }
}

#[inline(always)]
fn sum(x: u64, y: u64) -> Option<Value>
    ensures { IfSome result (λ value. whole (pos x +ℤ pos y) ≡ Answer.Value value) }
{
    match x.checked_add(y) {
        None => None,
        Some(n) => Some(small(n)),
    }
}

#[inline(always)]
fn difference(x: u64, y: u64) -> Option<Value>
    ensures { IfSome result (λ value. whole (pos x -ℤ pos y) ≡ Answer.Value value) }
{
    if x < y {
        return None;
    }
    Some(small(x - y))
}

#[inline(always)]
fn product(x: u64, y: u64) -> Option<Value>
    ensures { IfSome result (λ value. whole (pos x *ℤ pos y) ≡ Answer.Value value) }
{
    match x.checked_mul(y) {
        None => None,
        Some(n) => Some(small(n)),
    }
}

#[inline(always)]
fn quotient(x: u64, y: u64) -> Option<Value>
    ensures { IfSome result (λ value. truncated (pos x) (pos y) ≡ Answer.Value value) }
{
    if y == 0 {
        return None;
    }
    Some(small(x / y))
}

#[inline(always)]
fn remainder(x: u64, y: u64) -> Option<Value>
    ensures { IfSome result (λ value. modulo (pos x) (pos y) ≡ Answer.Value value) }
{
    if y == 0 {
        return None;
    }
    Some(small(x % y))
}

/// What a native of two such numbers answers, where that is such a number too, or a truth. `None` says nothing.
#[tactic(auto, using(crate::proofs::Small::native_is))]
#[inline(always)]
pub fn of_words(native: NativeId, x: u64, y: u64) -> Option<Value>
    ensures { IfSome result (λ value. number_native native (Int 0 x) (Int 0 y) ≡ Some (Answer.Value value)) }
{
    match binary(native, x, y) {
        None => None,
        Some(value) => Some(value),
    }
}

#[inline(always)]
fn binary(native: NativeId, x: u64, y: u64) -> Option<Value>
    ensures two { IfSome result (λ value. (is_unary native ≡ false) × (is_binary native ≡ true)) }
    ensures value { IfSome result (λ value. binary native (pos x) (pos y) ≡ Answer.Value value) }
{
    match native {
        NativeId::NumAdd => sum(x, y),
        NativeId::NumSubtract => difference(x, y),
        NativeId::NumMultiply => product(x, y),
        NativeId::NumTruncatingDivide => quotient(x, y),
        NativeId::NumModulo => remainder(x, y),
        NativeId::NumLess => Some(Value::Bool(x < y)),
        NativeId::NumLessEqual => Some(Value::Bool(x <= y)),
        NativeId::NumGreater => Some(Value::Bool(x > y)),
        NativeId::NumGreaterEqual => Some(Value::Bool(x >= y)),
        _ => None,
    }
}
