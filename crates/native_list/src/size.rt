// Changes of a list's length.
ghost use Rattle.std.specs.Prelude.{◌≡◌, ◌+◌, slice_get, IfOk, OnErr, Err, false};
ghost use Rattle.dart_ir.specs.declared.native.Answer.TheVariants as a;
ghost use Rattle.dart_store.specs.declared.store.Kind.TheVariants as kind;
ghost use Rattle.dart_store.specs.Heap.{kind_of, length_of, with_first_items, with_inserted_at, with_nulls_at};
ghost use Rattle.native_base.specs.Plan.{changes, grows, outcome, done, full as no_room, place as spec_place};
ghost use Rattle.native_list.specs.List as spec;

use crate::room::{item_number, room_for};
use dart_ir::kind::ThrowKind;
use dart_ir::native::Answer;
use dart_ir::number::Ref;
use dart_ir::value::Value;
use dart_store::store::{Store, StoreFault};
use native_base::argument::place;

/// Adds an item at the end. Full exactly where its unit passes the limit.
pub fn add(store: &mut Store, r: Ref, value: Value) -> Result<Answer, StoreFault>
    ensures done { IfOk result (λ answer. outcome store.old (spec.added store.old r.0 value) ≡ done answer store.new) }
    ensures full { result ≡ Err StoreFault.Full → outcome store.old (spec.added store.old r.0 value) ≡ no_room }
    ensures refused { OnErr result (store.new ≡ store.old) }
{
    store.push_item(r, value)?;
    Ok(Answer::Value(Value::Null))
}

// Adds so many nulls.
fn grow(store: &mut Store, r: Ref, more: u128) -> Result<Answer, StoreFault>
    requires { kind_of (slice_get store.old.objects r.0) ≡ kind.List false }
    ensures done { IfOk result (λ answer. outcome store.old (grows (with_nulls_at store.old r.0 more) (a.Value Value.Null) 0) ≡ done answer store.new) }
    ensures full { result ≡ Err StoreFault.Full → outcome store.old (grows (with_nulls_at store.old r.0 more) (a.Value Value.Null) 0) ≡ no_room }
    ensures refused { OnErr result (store.new ≡ store.old) }
{
    if !room_for(store, more) {
        return Err(StoreFault::Full);
    }
    store.push_nulls(r, more as u32)?;
    Ok(Answer::Value(Value::Null))
}

// Keeps the first items.
fn cut(store: &mut Store, r: Ref, count: usize) -> Result<Answer, StoreFault>
    ensures done { IfOk result (λ answer. outcome store.old (changes (with_first_items store.old r.0 count) (a.Value Value.Null) 0) ≡ done answer store.new) }
    ensures memory { result ≡ Err StoreFault.Full → ⊥ }
    ensures refused { OnErr result (store.new ≡ store.old) }
{
    let number = item_number(count)?;
    store.cut_items(r, number);
    Ok(Answer::Value(Value::Null))
}

/// Keeps the first items, or adds a null for each that is missing.
pub fn length_set(store: &mut Store, r: Ref, length: i128) -> Result<Answer, StoreFault>
    requires { kind_of (slice_get store.old.objects r.0) ≡ kind.List false }
    ensures done { IfOk result (λ answer. outcome store.old (spec.length_set store.old r.0 length) ≡ done answer store.new) }
    ensures full { result ≡ Err StoreFault.Full → outcome store.old (spec.length_set store.old r.0 length) ≡ no_room }
    ensures refused { OnErr result (store.new ≡ store.old) }
{
    if length < 0 {
        return Ok(Answer::Throw(ThrowKind::ArgumentError));
    }
    let count = store.length(r);
    if length <= count as i128 {
        return cut(store, r, length as usize);
    }
    grow(store, r, (length - count as i128) as u128)
}

/// Takes the last item off, which is the answer.
pub fn remove_last(store: &mut Store, r: Ref) -> Result<Answer, StoreFault>
    ensures done { IfOk result (λ answer. outcome store.old (spec.last_removed store.old r.0) ≡ done answer store.new) }
    ensures memory { result ≡ Err StoreFault.Full → ⊥ }
    ensures refused { OnErr result (store.new ≡ store.old) }
{
    let count = store.length(r);
    if count == 0 {
        return Ok(Answer::Throw(ThrowKind::RangeError));
    }
    let number = item_number(count - 1)?;
    let item = store.field(r, number);
    store.cut_items(r, number);
    Ok(Answer::Value(item))
}

/// Takes the item at an index out, which is the answer.
pub fn remove_at(store: &mut Store, r: Ref, index: i128) -> Result<Answer, StoreFault>
    ensures done { IfOk result (λ answer. outcome store.old (spec.removed store.old r.0 index) ≡ done answer store.new) }
    ensures memory { result ≡ Err StoreFault.Full → ⊥ }
    ensures refused { OnErr result (store.new ≡ store.old) }
{
    match place(store.length(r), index) {
        Some(at) => {
            let number = item_number(at)?;
            let item = store.field(r, number);
            store.remove_item(r, number);
            Ok(Answer::Value(item))
        }
        None => Ok(Answer::Throw(ThrowKind::RangeError)),
    }
}

// Puts a value before the item of that number.
fn insert_before(store: &mut Store, r: Ref, at: usize, value: Value) -> Result<Answer, StoreFault>
    ensures done { IfOk result (λ answer. outcome store.old (grows (with_inserted_at store.old r.0 at value) (a.Value Value.Null) 0) ≡ done answer store.new) }
    ensures full { result ≡ Err StoreFault.Full → outcome store.old (grows (with_inserted_at store.old r.0 at value) (a.Value Value.Null) 0) ≡ no_room }
    ensures refused { OnErr result (store.new ≡ store.old) }
{
    let number = item_number(at)?;
    store.insert_item(r, number, value)?;
    Ok(Answer::Value(Value::Null))
}

/// The place that a number is among so many and the end.
pub fn place_or_end(count: usize, index: i128) -> Option<usize>
    ensures { result ≡ spec_place (count + 1) index }
{
    if index == count as i128 {
        Some(count)
    } else {
        place(count, index)
    }
}

/// Puts a value before the item at an index, or at the end.
pub fn insert(store: &mut Store, r: Ref, index: i128, value: Value) -> Result<Answer, StoreFault>
    ensures done { IfOk result (λ answer. outcome store.old (spec.inserted store.old r.0 value index) ≡ done answer store.new) }
    ensures full { result ≡ Err StoreFault.Full → outcome store.old (spec.inserted store.old r.0 value index) ≡ no_room }
    ensures refused { OnErr result (store.new ≡ store.old) }
{
    match place_or_end(store.length(r), index) {
        Some(at) => insert_before(store, r, at, value),
        None => Ok(Answer::Throw(ThrowKind::RangeError)),
    }
}
