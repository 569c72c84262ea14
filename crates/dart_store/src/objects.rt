// The objects of a store: what each costs and has, and its changes.
ghost use Rattle.std.specs.Prelude.{◌≡◌, ◌+◌, ◌<◌, ◌≤◌, ◌^◌, [], ◌∷◌, ◌++◌, map, slice_get, slice_index_or, slice_set, if◌then◌else◌, true, false, IfOk, OnOk, OnErr, Err};
ghost use Rattle.dart_ir.specs.Object.{heap_object};
ghost use Rattle.dart_store.specs.declared.pool.Pool.{Pool as PoolOf};
ghost use Rattle.dart_store.specs.Heap as heap;
ghost use Rattle.dart_store.specs.Pool.{stored_object, AllFit, Becomes, BecomesAt, ItemCosts, ItemCostsAt};

use crate::items::{insert_value, push_nulls, remove_value};
use crate::pool::Pool;
use crate::store::{Kind, StoreFault};
use crate::stored::Stored;
use crate::view::receiver_of;
use dart_ir::object::Object;
use dart_ir::value::Value;
use dart_ir::values::Values;
use std::alloc::{AllocError, Global};

// What an object costs, in units.
pub fn cost_of(object: &Object) -> u64
    ensures { result ≡ heap.cost (heap_object object.now) }
{
    match object {
        Object::Instance {
            class: _,
            args: _,
            fields,
        } => fields.as_slice().len() as u64 + 1,
        Object::List {
            args: _,
            items,
            fixed: _,
        } => items.as_slice().len() as u64 + 1,
        Object::Text(units) => units.as_slice().len() as u64 / 16 + 1,
        Object::Closure {
            decl: _,
            receiver: _,
            args: _,
            cells,
        } => cells.as_slice().len() as u64 + 1,
        Object::Cell { value: _, counted } => u64::from(*counted),
        _ => 1,
    }
}

// How many objects show a number, with this one behind so many of them.
pub fn shown_behind(shown: u64, object: &Object) -> u64
    requires { shown < 2 ^ 32 }
    ensures { result ≡ (if heap.is_cell (heap_object object.now) then 0 else 1) + shown }
{
    match object {
        Object::Cell {
            value: _,
            counted: _,
        } => shown,
        _ => shown + 1,
    }
}

// Adds an object at the end. An `Err` changes nothing.
pub fn push_object(objects: &mut Vec<Stored>, object: Stored) -> Result<(), AllocError>
    ensures ok { OnOk result (objects.new.items ≡ objects.old.items ++ object ∷ []) }
    ensures err { OnErr result (objects.new.items ≡ objects.old.items) }
{
    objects.push(object)?;
    Ok(())
}

// Adds a number at the end. An `Err` changes nothing.
pub fn push_number(numbers: &mut Vec<u32>, number: u32) -> Result<(), AllocError>
    ensures ok { OnOk result (numbers.new.items ≡ numbers.old.items ++ number ∷ []) }
    ensures err { OnErr result (numbers.new.items ≡ numbers.old.items) }
{
    numbers.push(number)?;
    Ok(())
}

// The value at the index, or null past the end.
fn value_among(values: &[Value], index: usize) -> Value
    ensures { result ≡ slice_index_or values.now index Value.Null }
{
    if index < values.len() {
        values[index]
    } else {
        Value::Null
    }
}

// The field of an object.
#[tactic(auto, using(crate::proofs::Sets::store_laws))]
pub fn field_among(objects: &Vec<Stored>, at: usize, index: usize) -> Value
    ensures { (p : PoolOf) → result ≡ heap.field_of (slice_get (map (stored_object p) objects.now.items) at) index }
{
    if at >= objects.len() {
        return Value::Null;
    }
    match &objects[at] {
        Stored::Instance {
            class: _,
            args: _,
            fields,
        } => value_among(fields.as_slice(), index),
        Stored::List {
            args: _,
            items,
            fixed: _,
        } => value_among(items.as_slice(), index),
        Stored::Closure {
            decl: _,
            receiver: _,
            args: _,
            cells,
        } => value_among(cells.as_slice(), index),
        Stored::Cell { value, counted: _ } => value_among(&[*value], index),
        _ => Value::Null,
    }
}

// The object that a closure or a method is bound to.
#[tactic(auto, using(crate::proofs::Sets::store_laws))]
pub fn receiver_among(pool: &Pool, objects: &Vec<Stored>, at: usize) -> Value
    ensures { result ≡ heap.receiver_of (slice_get (map (stored_object pool.now) objects.now.items) at) }
{
    if at >= objects.len() {
        return Value::Null;
    }
    match &objects[at] {
        Stored::Closure {
            decl: _,
            receiver,
            args: _,
            cells: _,
        } => receiver_of(&pool.receivers, *receiver),
        Stored::Bound {
            receiver,
            member: _,
        } => *receiver,
        _ => Value::Null,
    }
}

// How many fields, items, cells or units of text an object has.
#[tactic(auto, using(crate::proofs::Sets::store_laws))]
pub fn length_among(objects: &Vec<Stored>, at: usize) -> usize
    ensures { (p : PoolOf) → AllFit p objects.now.items → result ≡ heap.length_of (slice_get (map (stored_object p) objects.now.items) at) }
{
    if at >= objects.len() {
        return 0;
    }
    match &objects[at] {
        Stored::Instance {
            class: _,
            args: _,
            fields,
        } => fields.len(),
        Stored::List {
            args: _,
            items,
            fixed: _,
        } => items.len(),
        Stored::Text { start: _, len } => *len,
        Stored::Closure {
            decl: _,
            receiver: _,
            args: _,
            cells,
        } => cells.len(),
        Stored::Cell {
            value: _,
            counted: _,
        } => 1,
        _ => 0,
    }
}

// Which object it is.
#[tactic(auto, using(crate::proofs::Sets::store_laws))]
pub fn kind_among(objects: &Vec<Stored>, at: usize) -> Kind
    ensures { (p : PoolOf) → result ≡ heap.kind_of (slice_get (map (stored_object p) objects.now.items) at) }
{
    if at >= objects.len() {
        return Kind::Absent;
    }
    match &objects[at] {
        Stored::Instance {
            class,
            args: _,
            fields: _,
        } => Kind::Instance(*class),
        Stored::List {
            args: _,
            items: _,
            fixed,
        } => Kind::List(*fixed),
        Stored::Text { start: _, len: _ } => Kind::Text,
        Stored::Closure {
            decl,
            receiver: _,
            args: _,
            cells: _,
        } => Kind::Closure(*decl),
        Stored::Bound {
            receiver: _,
            member,
        } => Kind::Bound(*member),
        Stored::TypeValue(_) => Kind::TypeValue,
        Stored::SendPort { isolate, port } => Kind::SendPort {
            isolate: *isolate,
            port: *port,
        },
        Stored::ReceivePort { port } => Kind::ReceivePort { port: *port },
        Stored::Cell {
            value: _,
            counted: _,
        } => Kind::Cell,
    }
}

// Puts a value at the index, where there is one.
fn put_value(values: &mut Values, index: usize, value: Value)
    ensures { values.new ≡ slice_set values.old index value }
{
    if index < values.len() {
        values.set(index, value);
    }
}

// Puts a value into an object.
fn put_into(object: &mut Stored, index: usize, value: Value)
    ensures { Becomes (heap.with_field index value) object.old object.new }
{
    match object {
        Stored::Instance {
            class: _,
            args: _,
            fields,
        } => put_value(fields, index, value),
        Stored::List {
            args: _,
            items,
            fixed: _,
        } => put_value(items, index, value),
        Stored::Closure {
            decl: _,
            receiver: _,
            args: _,
            cells,
        } => put_value(cells, index, value),
        Stored::Cell {
            value: held,
            counted: _,
        } => {
            if index == 0 {
                *held = value;
            }
        }
        _ => {}
    }
}

// Puts a value into the object there.
#[tactic(auto, using(crate::proofs::Sets::store_laws))]
pub fn put_field(objects: &mut Vec<Stored>, at: usize, index: usize, value: Value)
    ensures { BecomesAt (heap.with_field index value) at objects.old.items objects.new.items }
{
    if at < objects.len() {
        put_into(&mut objects[at], index, value);
    }
}

// Keeps the first items of a list.
fn cut_list(object: &mut Stored, count: usize)
    ensures { Becomes (heap.first_items count) object.old object.new }
{
    match object {
        Stored::List {
            args: _,
            items,
            fixed: _,
        } => items.truncate(count),
        _ => {}
    }
}

// Keeps the first items of the list there.
#[tactic(auto, using(crate::proofs::Sets::store_laws))]
pub fn cut_at(objects: &mut Vec<Stored>, at: usize, count: usize)
    ensures { BecomesAt (heap.first_items count) at objects.old.items objects.new.items }
{
    if at < objects.len() {
        cut_list(&mut objects[at], count);
    }
}

// Adds an item to a list, where there is room for one, and says whether it was one.
fn push_into(object: &mut Stored, value: Value, has_room: bool) -> Result<bool, StoreFault>
    ensures pushed { IfOk result (λ found. Becomes (heap.with_item value) object.old object.new × ItemCosts object.old (if found then 1 else 0) × (found ≡ true → has_room ≡ true)) }
    ensures full { result ≡ Err StoreFault.Full → ItemCosts object.old 1 × (has_room ≡ false) }
    ensures refused { OnErr result (object.new ≡ object.old) }
{
    match object {
        Stored::List {
            args: _,
            items,
            fixed: _,
        } => {
            if !has_room {
                return Err(StoreFault::Full);
            }
            items.push(value)?;
            Ok(true)
        }
        _ => Ok(false),
    }
}

// Adds an item to the list there, where there is room for one, and says whether there was a list.
#[tactic(auto, using(crate::proofs::Sets::store_laws))]
pub fn push_at(
    objects: &mut Vec<Stored>,
    at: usize,
    value: Value,
    has_room: bool,
) -> Result<bool, StoreFault>
    ensures pushed { IfOk result (λ found. BecomesAt (heap.with_item value) at objects.old.items objects.new.items
        × ItemCostsAt at objects.old.items (if found then 1 else 0) × (found ≡ true → has_room ≡ true)) }
    ensures full { result ≡ Err StoreFault.Full → ItemCostsAt at objects.old.items 1 × (has_room ≡ false) }
    ensures refused { OnErr result (objects.new.items ≡ objects.old.items) }
{
    if at >= objects.len() {
        return Ok(false);
    }
    push_into(&mut objects[at], value, has_room)
}

// Puts an item into a list, where there is room for one, and says whether it was one.
fn insert_into(
    alloc: Global,
    object: &mut Stored,
    index: usize,
    value: Value,
    has_room: bool,
) -> Result<bool, StoreFault>
    ensures inserted { IfOk result (λ found. Becomes (heap.with_inserted index value) object.old object.new × ItemCosts object.old (if found then 1 else 0) × (found ≡ true → has_room ≡ true)) }
    ensures full { result ≡ Err StoreFault.Full → ItemCosts object.old 1 × (has_room ≡ false) }
    ensures refused { OnErr result (object.new ≡ object.old) }
{
    match object {
        Stored::List {
            args: _,
            items,
            fixed: _,
        } => {
            if !has_room {
                return Err(StoreFault::Full);
            }
            insert_value(alloc, items, index, value)?;
            Ok(true)
        }
        _ => Ok(false),
    }
}

// Puts an item into the list there, where there is room for one, and says whether there was a list.
#[tactic(auto, using(crate::proofs::Sets::store_laws))]
pub fn insert_at(
    objects: &mut Vec<Stored>,
    at: usize,
    index: usize,
    value: Value,
    has_room: bool,
) -> Result<bool, StoreFault>
    ensures inserted { IfOk result (λ found. BecomesAt (heap.with_inserted index value) at objects.old.items objects.new.items
        × ItemCostsAt at objects.old.items (if found then 1 else 0) × (found ≡ true → has_room ≡ true)) }
    ensures full { result ≡ Err StoreFault.Full → ItemCostsAt at objects.old.items 1 × (has_room ≡ false) }
    ensures refused { OnErr result (objects.new.items ≡ objects.old.items) }
{
    if at >= objects.len() {
        return Ok(false);
    }
    let alloc = *objects.allocator();
    insert_into(alloc, &mut objects[at], index, value, has_room)
}

// Adds nulls to a list, where there is room for them, and says whether it was one.
fn grow_list(object: &mut Stored, count: usize, has_room: bool) -> Result<bool, StoreFault>
    ensures grown { IfOk result (λ found. Becomes (heap.with_nulls count) object.old object.new × ItemCosts object.old (if found then 1 else 0) × (found ≡ true → has_room ≡ true)) }
    ensures full { result ≡ Err StoreFault.Full → ItemCosts object.old 1 × (has_room ≡ false) }
    ensures refused { OnErr result (object.new ≡ object.old) }
{
    match object {
        Stored::List {
            args: _,
            items,
            fixed: _,
        } => {
            if !has_room {
                return Err(StoreFault::Full);
            }
            push_nulls(items, count)?;
            Ok(true)
        }
        _ => Ok(false),
    }
}

// Adds nulls to the list there, where there is room for them, and says whether there was a list.
#[tactic(auto, using(crate::proofs::Sets::store_laws))]
pub fn grow_at(
    objects: &mut Vec<Stored>,
    at: usize,
    count: usize,
    has_room: bool,
) -> Result<bool, StoreFault>
    ensures grown { IfOk result (λ found. BecomesAt (heap.with_nulls count) at objects.old.items objects.new.items
        × ItemCostsAt at objects.old.items (if found then 1 else 0) × (found ≡ true → has_room ≡ true)) }
    ensures full { result ≡ Err StoreFault.Full → ItemCostsAt at objects.old.items 1 × (has_room ≡ false) }
    ensures refused { OnErr result (objects.new.items ≡ objects.old.items) }
{
    if at >= objects.len() {
        return Ok(false);
    }
    grow_list(&mut objects[at], count, has_room)
}

// Takes an item out of a list.
fn remove_from(alloc: Global, object: &mut Stored, index: usize)
    ensures { Becomes (heap.without_item index) object.old object.new }
{
    match object {
        Stored::List {
            args: _,
            items,
            fixed: _,
        } => remove_value(alloc, items, index),
        _ => {}
    }
}

// Takes an item out of the list there.
#[tactic(auto, using(crate::proofs::Sets::store_laws))]
pub fn remove_at(objects: &mut Vec<Stored>, at: usize, index: usize)
    ensures { BecomesAt (heap.without_item index) at objects.old.items objects.new.items }
{
    if at < objects.len() {
        let alloc = *objects.allocator();
        remove_from(alloc, &mut objects[at], index);
    }
}
