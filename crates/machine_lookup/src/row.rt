// Rows of values and forms.
ghost use Rattle.std.specs.Prelude.{◌≡◌, ◌+◌, ◌-◌, ◌++◌, [], ◌∷◌, take, drop, replicate, position, nat_eq, slice_index_or, slice_set, IfOk, MatchOption};
ghost use Rattle.dart_ir.specs.declared.value.Value.TheVariants.{Null};
ghost use Rattle.evaluation.specs.Sequence.{is_true};
ghost use Rattle.machine_lookup.specs.Rows.{last_of, but_last, past};

use core_program::form::Core;
use dart_ir::value::Value;
use std::alloc::AllocError;

/// The last values.
#[inline(always)]
pub fn last_of(values: &[Value], count: u32) -> &[Value]
    ensures { result.now ≡ last_of count values.now }
{
    let start = values.len().saturating_sub(count as usize);
    &values[start..]
}

/// The values, maybe without the first.
#[inline(always)]
pub fn past_first(values: &[Value], skip: bool) -> &[Value]
    ensures { result.now ≡ past skip values.now }
{
    if skip && values.len() > 0 {
        &values[1..]
    } else {
        values
    }
}

/// All values but the last ones stay.
#[inline(always)]
pub fn cut(values: &mut Vec<Value>, count: u32)
    ensures { values.new.items ≡ but_last count values.old.items }
{
    let start = values.len().saturating_sub(count as usize);
    values.truncate(start);
}

/// The first value, or `None` where there is none.
#[inline(always)]
pub fn first_value(values: &[Value]) -> Option<Value>
    ensures { MatchOption result (values.now ≡ []) (λ v. values.now ≡ v ∷ drop 1 values.now) }
{
    match values.split_first() {
        None => None,
        Some((v, _)) => Some(*v),
    }
}

/// The value at the index, or null past the end.
#[inline(always)]
pub fn value_at(values: &[Value], index: usize) -> Value
    ensures { result ≡ slice_index_or values.now index Null }
{
    if index < values.len() {
        values[index]
    } else {
        Value::Null
    }
}

/// The slot of a variable, where the slots of the body at work begin at the base.
#[inline(always)]
pub fn slot(slots: &[Value], base: u32, var: u32) -> Value
    ensures { result ≡ slice_index_or (drop base slots.now) var Null }
{
    let at = base as usize + var as usize;
    if at < slots.len() {
        slots[at]
    } else {
        Value::Null
    }
}

/// Writes the slot of a variable, where there is one.
#[tactic(auto, using(crate::proofs::Slots::drop_set))]
#[inline(always)]
pub fn write_slot(slots: &mut [Value], base: u32, var: u32, value: Value)
    ensures under { take base slots.new ≡ take base slots.old }
    ensures here { drop base slots.new ≡ slice_set (drop base slots.old) var value }
{
    let at = base as usize + var as usize;
    if at < slots.len() {
        slots[at] = value;
    }
}

/// Adds so many nulls at the end. An `Err` leaves some of them.
#[inline(always)]
pub fn push_nulls(values: &mut Vec<Value>, count: u32) -> Result<(), AllocError>
    ensures { IfOk result (λ _. values.new.items ≡ values.old.items ++ replicate count Null) }
{
    let end = values.len() + count as usize;
    values.resize(end, Value::Null)?;
    Ok(())
}

/// The first form and the others, or `None` where there is none.
#[inline(always)]
pub fn first_form<'a>(forms: &'a [Core]) -> Option<(&'a Core, &'a [Core])>
    ensures { MatchOption result (forms.now ≡ []) (λ p. forms.now ≡ p.0.now ∷ p.1.now) }
{
    forms.split_first()
}

/// Where the number stands first.
#[inline(always)]
pub fn place_of(numbers: &[u32], number: u32) -> Option<usize>
    ensures { result ≡ position (nat_eq number) numbers.now }
{
    if numbers.len() == 0 {
        return None;
    }
    if numbers.len() == 0 {
        return None;
    }
    numbers.iter().position(|one| number == *one)
}

/// Whether the value is `true`.
#[inline(always)]
pub fn is_true(value: Value) -> bool
    ensures { result ≡ is_true value }
{
    match value {
        Value::Bool(b) => b,
        _ => false,
    }
}
