// The table of the natives of strings.
ghost use Rattle.std.specs.Prelude.{◌≡◌, ◌++◌, pos, length, IfOk, Some, None};
ghost use Rattle.dart_ir.specs.Object.{text as new_string};
ghost use Rattle.native_base.specs.Plan.{makes, needs, number as numbered, number_or as spec_number_or, text_at as spec_text_at};
ghost use Rattle.native_base.specs.Planned.{planned};
ghost use Rattle.native_number.specs.Number.{number_of as spec_number_of};
ghost use Rattle.native_text.specs.Text as spec;

use crate::numeral::parsed;
use crate::part::{code_unit, index_of, joined, order, part, text_of_code, unit_text};
use dart_base::units::Units;
use dart_ir::kind::ThrowKind;
use dart_ir::native::NativeId;
use dart_ir::value::Value;
use dart_store::store::Store;
use native_base::argument::{number_or, text_at};
use native_base::plan::{Planned, number, throw};
use native_number::number::number_of;
use std::alloc::{AllocError, Global};

/// Whether it is a native of strings.
pub fn is_text_native(native: NativeId) -> bool
    ensures { result ≡ spec.is_text_native native }
{
    match native {
        NativeId::IntParse
        | NativeId::StringFromCharCode
        | NativeId::StringLength
        | NativeId::StringIndex
        | NativeId::StringAdd
        | NativeId::StringCodeUnitAt
        | NativeId::StringSubstring
        | NativeId::StringIndexOf
        | NativeId::StringCompareTo => true,
        _ => false,
    }
}

fn index_native(alloc: Global, units: &[u16], x: Option<i128>) -> Result<Planned, AllocError>
    ensures { IfOk result (λ plan. planned plan ≡ needs ThrowKind.ArgumentError x (spec.unit_text units.now)) }
{
    match x {
        Some(index) => unit_text(alloc, units, index),
        None => Ok(throw(ThrowKind::ArgumentError)),
    }
}

fn code_unit_native(units: &[u16], x: Option<i128>) -> Planned
    ensures { planned result ≡ needs ThrowKind.ArgumentError x (spec.code_unit units.now) }
{
    match x {
        Some(index) => code_unit(units, index),
        None => throw(ThrowKind::ArgumentError),
    }
}

fn from_code_native(alloc: Global, x: Option<i128>) -> Result<Planned, AllocError>
    ensures { IfOk result (λ plan. planned plan ≡ needs ThrowKind.ArgumentError x spec.text_of_code) }
{
    match x {
        Some(code) => text_of_code(alloc, code),
        None => Ok(throw(ThrowKind::ArgumentError)),
    }
}

fn substring_native(
    alloc: Global,
    units: &[u16],
    x: Option<i128>,
    y: Option<i128>,
) -> Result<Planned, AllocError>
    ensures { IfOk result (λ plan. planned plan ≡ needs ThrowKind.ArgumentError x (λ i. needs ThrowKind.ArgumentError y (spec.part units.now i))) }
{
    match (x, y) {
        (Some(start), Some(end)) => part(alloc, units, start, end),
        _ => Ok(throw(ThrowKind::ArgumentError)),
    }
}

fn add_native(
    alloc: Global,
    literals: &[Units],
    store: &Store,
    units: &[u16],
    x: Value,
) -> Result<Planned, AllocError>
    ensures { IfOk result (λ plan. planned plan ≡ needs ThrowKind.ArgumentError (spec_text_at literals.now store.now x) (λ t. makes (new_string (units.now ++ t)))) }
{
    match text_at(literals, store, x) {
        Some(other) => joined(alloc, units, other),
        None => Ok(throw(ThrowKind::ArgumentError)),
    }
}

fn compare_native(literals: &[Units], store: &Store, units: &[u16], x: Value) -> Planned
    ensures { planned result ≡ needs ThrowKind.ArgumentError (spec_text_at literals.now store.now x) (λ t. numbered (spec.order units.now t)) }
{
    match text_at(literals, store, x) {
        Some(other) => number(order(units, other)),
        None => throw(ThrowKind::ArgumentError),
    }
}

fn index_of_native(
    literals: &[Units],
    store: &Store,
    units: &[u16],
    x: Value,
    y: Option<i128>,
) -> Planned
    ensures { planned result ≡ needs ThrowKind.ArgumentError (spec_text_at literals.now store.now x) (λ p. needs ThrowKind.ArgumentError y (spec.index_of units.now p)) }
{
    match text_at(literals, store, x) {
        Some(sought) => match y {
            Some(start) => index_of(units, sought, start),
            None => throw(ThrowKind::ArgumentError),
        },
        None => throw(ThrowKind::ArgumentError),
    }
}

// What a native does whose first argument is a string of these units.
fn of_text(
    alloc: Global,
    native: NativeId,
    literals: &[Units],
    store: &Store,
    units: &[u16],
    x: Value,
    y: Value,
) -> Result<Planned, AllocError>
    ensures { IfOk result (λ plan. planned plan ≡ spec.of_text native (spec_text_at literals.now store.now) units.now x y) }
{
    match native {
        NativeId::IntParse => Ok(parsed(units)),
        NativeId::StringLength => Ok(number(units.len() as i128)),
        NativeId::StringIndex => index_native(alloc, units, number_of(x)),
        NativeId::StringCodeUnitAt => Ok(code_unit_native(units, number_of(x))),
        NativeId::StringAdd => add_native(alloc, literals, store, units, x),
        NativeId::StringCompareTo => Ok(compare_native(literals, store, units, x)),
        NativeId::StringSubstring => {
            let end = number_or(units.len() as i128, y);
            substring_native(alloc, units, number_of(x), end)
        }
        NativeId::StringIndexOf => {
            Ok(index_of_native(literals, store, units, x, number_or(0, y)))
        }
        _ => Ok(throw(ThrowKind::ArgumentError)),
    }
}

/// What a native of strings does for its first argument and two more, of which a missing one is null. The strings are those of the
/// program's literals and of the store.
pub fn text_native(
    alloc: Global,
    native: NativeId,
    literals: &[Units],
    store: &Store,
    this: Value,
    x: Value,
    y: Value,
) -> Result<Planned, AllocError>
    ensures { IfOk result (λ plan. planned plan ≡ spec.text_native native literals.now store.now this x y) }
{
    match native {
        NativeId::StringFromCharCode => from_code_native(alloc, number_of(this)),
        _ => match text_at(literals, store, this) {
            Some(units) => of_text(alloc, native, literals, store, units, x, y),
            None => Ok(throw(ThrowKind::ArgumentError)),
        },
    }
}
