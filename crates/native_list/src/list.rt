// The table of the natives of lists.
ghost use Rattle.std.specs.Prelude.{◌≡◌, map, slice_get, IfOk, OnErr, Err};
ghost use Rattle.dart_ir.specs.Ty.{ty};
ghost use Rattle.dart_store.specs.declared.store.Kind.TheVariants as kind;
ghost use Rattle.dart_store.specs.Heap.{kind_of};
ghost use Rattle.native_base.specs.Plan.{answers, needs, outcome, done, full as no_room};
ghost use Rattle.native_list.specs.List as spec;

use crate::item::{item, item_set};
use crate::made::new_list;
use crate::size::{add, insert, length_set, remove_at, remove_last};
use dart_ir::kind::ThrowKind;
use dart_ir::native::{Answer, NativeId};
use dart_ir::number::Ref;
use dart_ir::types::TypeRef;
use dart_ir::value::{Value, integer_value};
use dart_store::store::{Kind, Store, StoreFault};
use native_number::number::number_of;
use std::alloc::Global;

/// Whether it is a native of lists.
pub fn is_list_native(native: NativeId) -> bool
    ensures { result ≡ spec.is_list_native native }
{
    match native {
        NativeId::ListNew
        | NativeId::ListLength
        | NativeId::ListSetLength
        | NativeId::ListIndex
        | NativeId::ListIndexSet
        | NativeId::ListAdd
        | NativeId::ListRemoveLast
        | NativeId::ListRemoveAt
        | NativeId::ListInsert => true,
        _ => false,
    }
}

// It throws an exception of the class.
fn throw(kind: ThrowKind) -> Result<Answer, StoreFault>
    ensures { result ≡ Ok (Answer.Throw kind) }
{
    Ok(Answer::Throw(kind))
}

fn item_native(store: &Store, r: Ref, x: Option<i128>) -> Result<Answer, StoreFault>
    ensures done { IfOk result (λ answer. answers answer ≡ needs ThrowKind.ArgumentError x (spec.item store.now r.0)) }
    ensures memory { result ≡ Err StoreFault.Full → ⊥ }
{
    match x {
        Some(index) => item(store, r, index),
        None => throw(ThrowKind::ArgumentError),
    }
}

fn item_set_native(
    store: &mut Store,
    r: Ref,
    x: Option<i128>,
    value: Value,
) -> Result<Answer, StoreFault>
    ensures done { IfOk result (λ answer. outcome store.old (needs ThrowKind.ArgumentError x (spec.item_set store.old r.0 value)) ≡ done answer store.new) }
    ensures full { result ≡ Err StoreFault.Full → outcome store.old (needs ThrowKind.ArgumentError x (spec.item_set store.old r.0 value)) ≡ no_room }
    ensures refused { OnErr result (store.new ≡ store.old) }
{
    match x {
        Some(index) => item_set(store, r, index, value),
        None => throw(ThrowKind::ArgumentError),
    }
}

fn length_native(
    store: &mut Store,
    r: Ref,
    fixed: bool,
    x: Option<i128>,
) -> Result<Answer, StoreFault>
    requires { kind_of (slice_get store.old.objects r.0) ≡ kind.List fixed }
    ensures done { IfOk result (λ answer. outcome store.old (needs ThrowKind.ArgumentError x (λ i. spec.unless_fixed fixed (spec.length_set store.old r.0 i))) ≡ done answer store.new) }
    ensures full { result ≡ Err StoreFault.Full → outcome store.old (needs ThrowKind.ArgumentError x (λ i. spec.unless_fixed fixed (spec.length_set store.old r.0 i))) ≡ no_room }
    ensures refused { OnErr result (store.new ≡ store.old) }
{
    match x {
        None => throw(ThrowKind::ArgumentError),
        Some(length) => {
            if fixed {
                throw(ThrowKind::UnsupportedError)
            } else {
                length_set(store, r, length)
            }
        }
    }
}

fn add_native(store: &mut Store, r: Ref, fixed: bool, value: Value) -> Result<Answer, StoreFault>
    ensures done { IfOk result (λ answer. outcome store.old (spec.unless_fixed fixed (spec.added store.old r.0 value)) ≡ done answer store.new) }
    ensures full { result ≡ Err StoreFault.Full → outcome store.old (spec.unless_fixed fixed (spec.added store.old r.0 value)) ≡ no_room }
    ensures refused { OnErr result (store.new ≡ store.old) }
{
    if fixed {
        throw(ThrowKind::UnsupportedError)
    } else {
        add(store, r, value)
    }
}

fn remove_last_native(store: &mut Store, r: Ref, fixed: bool) -> Result<Answer, StoreFault>
    ensures done { IfOk result (λ answer. outcome store.old (spec.unless_fixed fixed (spec.last_removed store.old r.0)) ≡ done answer store.new) }
    ensures full { result ≡ Err StoreFault.Full → outcome store.old (spec.unless_fixed fixed (spec.last_removed store.old r.0)) ≡ no_room }
    ensures refused { OnErr result (store.new ≡ store.old) }
{
    if fixed {
        throw(ThrowKind::UnsupportedError)
    } else {
        remove_last(store, r)
    }
}

fn remove_at_native(
    store: &mut Store,
    r: Ref,
    fixed: bool,
    x: Option<i128>,
) -> Result<Answer, StoreFault>
    ensures done { IfOk result (λ answer. outcome store.old (needs ThrowKind.ArgumentError x (λ i. spec.unless_fixed fixed (spec.removed store.old r.0 i))) ≡ done answer store.new) }
    ensures full { result ≡ Err StoreFault.Full → outcome store.old (needs ThrowKind.ArgumentError x (λ i. spec.unless_fixed fixed (spec.removed store.old r.0 i))) ≡ no_room }
    ensures refused { OnErr result (store.new ≡ store.old) }
{
    match x {
        None => throw(ThrowKind::ArgumentError),
        Some(index) => {
            if fixed {
                throw(ThrowKind::UnsupportedError)
            } else {
                remove_at(store, r, index)
            }
        }
    }
}

fn insert_native(
    store: &mut Store,
    r: Ref,
    fixed: bool,
    x: Option<i128>,
    value: Value,
) -> Result<Answer, StoreFault>
    ensures done { IfOk result (λ answer. outcome store.old (needs ThrowKind.ArgumentError x (λ i. spec.unless_fixed fixed (spec.inserted store.old r.0 value i))) ≡ done answer store.new) }
    ensures full { result ≡ Err StoreFault.Full → outcome store.old (needs ThrowKind.ArgumentError x (λ i. spec.unless_fixed fixed (spec.inserted store.old r.0 value i))) ≡ no_room }
    ensures refused { OnErr result (store.new ≡ store.old) }
{
    match x {
        None => throw(ThrowKind::ArgumentError),
        Some(index) => {
            if fixed {
                throw(ThrowKind::UnsupportedError)
            } else {
                insert(store, r, index, value)
            }
        }
    }
}

// What a native does whose first argument is the list.
fn of_list(
    native: NativeId,
    store: &mut Store,
    r: Ref,
    fixed: bool,
    x: Value,
    y: Value,
) -> Result<Answer, StoreFault>
    requires { kind_of (slice_get store.old.objects r.0) ≡ kind.List fixed }
    ensures done { IfOk result (λ answer. outcome store.old (spec.of_list native store.old r.0 fixed x y) ≡ done answer store.new) }
    ensures full { result ≡ Err StoreFault.Full → outcome store.old (spec.of_list native store.old r.0 fixed x y) ≡ no_room }
    ensures refused { OnErr result (store.new ≡ store.old) }
{
    match native {
        NativeId::ListLength => Ok(Answer::Value(integer_value(store.length(r) as i128))),
        NativeId::ListSetLength => length_native(store, r, fixed, number_of(x)),
        NativeId::ListIndex => item_native(store, r, number_of(x)),
        NativeId::ListIndexSet => item_set_native(store, r, number_of(x), y),
        NativeId::ListAdd => add_native(store, r, fixed, x),
        NativeId::ListRemoveLast => remove_last_native(store, r, fixed),
        NativeId::ListRemoveAt => remove_at_native(store, r, fixed, number_of(x)),
        NativeId::ListInsert => insert_native(store, r, fixed, number_of(x), y),
        _ => throw(ThrowKind::ArgumentError),
    }
}

// What a native does that needs a list for its first argument.
fn on_list(
    native: NativeId,
    store: &mut Store,
    this: Value,
    x: Value,
    y: Value,
) -> Result<Answer, StoreFault>
    ensures done { IfOk result (λ answer. outcome store.old (spec.on_list native store.old this x y) ≡ done answer store.new) }
    ensures full { result ≡ Err StoreFault.Full → outcome store.old (spec.on_list native store.old this x y) ≡ no_room }
    ensures refused { OnErr result (store.new ≡ store.old) }
{
    let Value::At(r) = this else {
        return throw(ThrowKind::ArgumentError);
    };
    match store.kind(r) {
        Kind::List(fixed) => of_list(native, store, r, fixed, x, y),
        _ => throw(ThrowKind::ArgumentError),
    }
}

/// What a native of lists does for its first argument and two more, of which a missing one is null; `types` are those of `new List`.
/// Full exactly where the units that it takes pass the limit; an `Err` changes nothing.
pub fn list_native(
    alloc: Global,
    native: NativeId,
    types: &[TypeRef],
    store: &mut Store,
    this: Value,
    x: Value,
    y: Value,
) -> Result<Answer, StoreFault>
    ensures done { IfOk result (λ answer. outcome store.old (spec.list_native native (map ty types.now) store.old this x y) ≡ done answer store.new) }
    ensures full { result ≡ Err StoreFault.Full → outcome store.old (spec.list_native native (map ty types.now) store.old this x y) ≡ no_room }
    ensures refused { OnErr result (store.new ≡ store.old) }
{
    match native {
        NativeId::ListNew => new_list(alloc, types, store, this),
        _ => on_list(native, store, this, x, y),
    }
}
