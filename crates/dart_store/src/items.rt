// Edits of a list's items.
ghost use Rattle.std.specs.Prelude.{◌≡◌, ◌++◌, insert, remove, replicate, OnOk, OnErr};

use dart_ir::value::Value;
use dart_ir::values::Values;
use std::alloc::{AllocError, Global};
use std::mem::replace;

// Puts a value before the one at the index, or at the end where there is none. An `Err` changes nothing.
fn insert_among(items: &mut Vec<Value>, index: usize, value: Value) -> Result<(), AllocError>
    ensures ok { OnOk result (items.new.items ≡ insert items.old.items index value) }
    ensures err { OnErr result (items.new.items ≡ items.old.items) }
{
    if index < items.len() {
        items.insert(index, value)?;
    } else {
        items.push(value)?;
    }
    Ok(())
}

/// Puts a value before the one at the index, or at the end where there is none. An `Err` changes nothing.
pub fn insert_value(
    alloc: Global,
    values: &mut Values,
    index: usize,
    value: Value,
) -> Result<(), AllocError>
    ensures ok { OnOk result (values.new ≡ insert values.old index value) }
    ensures err { OnErr result (values.new ≡ values.old) }
{
    let mut items = replace(values, Values::new(alloc)).into_vec();
    let done = insert_among(&mut items, index, value);
    *values = Values::from_vec(items);
    done
}

// Takes the value at the index out, where there is one.
fn remove_among(items: &mut Vec<Value>, index: usize)
    ensures { items.new.items ≡ remove items.old.items index }
{
    if index < items.len() {
        let _ = items.remove(index);
    }
}

/// Takes the value at the index out, where there is one. Takes no memory.
pub fn remove_value(alloc: Global, values: &mut Values, index: usize)
    ensures { values.new ≡ remove values.old index }
{
    let mut items = replace(values, Values::new(alloc)).into_vec();
    remove_among(&mut items, index);
    *values = Values::from_vec(items);
}

/// Adds so many nulls at the end. An `Err` changes nothing.
pub fn push_nulls(values: &mut Values, count: usize) -> Result<(), AllocError>
    ensures ok { OnOk result (values.new ≡ values.old ++ replicate count Value.Null) }
    ensures err { OnErr result (values.new ≡ values.old) }
{
    let before = values.len();
    for _pushed in 0..count {
        if let Err(error) = values.push(Value::Null) {
            values.truncate(before);
            return Err(error);
        }
    }
    Ok(())
}
