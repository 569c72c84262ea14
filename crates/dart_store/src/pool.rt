// What the objects of a store share, so that each takes little memory itself.
ghost use Rattle.std.specs.Prelude.{◌≡◌, ◌≤◌, [], ◌∷◌, ◌++◌, length, map, IfOk, OnOk, OnErr};
ghost use Rattle.dart_ir.specs.Object.{heap_object, instance, list, text as text_object, closure, type_value};
ghost use Rattle.dart_ir.specs.Ty.{ty};
ghost use Rattle.dart_store.specs.Pool.{stored_object, needs, Extends, Fits};
ghost use Rattle.dart_store.specs.Tables.{receiver_at, types_at, Begins};

use crate::stored::Stored;
use crate::types::TypeLists;
use dart_ir::number::{ClassId, DeclId};
use dart_ir::object::Object;
use dart_ir::types::{TypeRef, Types};
use dart_ir::value::Value;
use dart_ir::values::Values;
use std::alloc::{AllocError, Global};
use std::mem::replace;

/// The units of all texts, the receivers of functions, and lists of types. Each only grows, so what was there stays.
#[derive(Drop)]
pub struct Pool {
    pub units: Vec<u16>,
    pub receivers: Vec<Value>,
    pub types: TypeLists,
}

// Adds units at the end. An `Err` changes nothing.
fn push_units(units: &mut Vec<u16>, more: &[u16]) -> Result<(), AllocError>
    ensures ok { OnOk result (units.new.items ≡ units.old.items ++ more.now) }
    ensures err { OnErr result (units.new.items ≡ units.old.items) }
{
    units.extend_from_slice(more)?;
    Ok(())
}

// The number of a receiver that is kept now, or 0 for null. There are below 2^32: one more is want of memory.
fn keep_receiver(receivers: &mut Vec<Value>, receiver: Value) -> Result<u32, AllocError>
    ensures kept { IfOk result (λ number. (receiver_at receivers.new.items number ≡ receiver) × (number ≤ length receivers.new.items)) }
    ensures others { Begins receivers.old.items receivers.new.items }
{
    if matches!(&receiver, Value::Null) {
        return Ok(0);
    }
    if receivers.len() >= u32::MAX as usize {
        return Err(AllocError);
    }
    receivers.push(receiver)?;
    Ok(receivers.len() as u32)
}

// Takes types out of an object, which has none then.
fn taken_types(alloc: Global, types: &mut Types) -> Types
    ensures { map ty result.items ≡ map ty types.old.items }
{
    replace(types, Vec::new(alloc))
}

// Takes values out of an object, which has none then.
fn taken_values(alloc: Global, values: &mut Values) -> Values
    ensures { result ≡ values.old }
{
    replace(values, Values::new(alloc))
}

// Keeps a text.
fn keep_text(pool: &mut Pool, text: &[u16]) -> Result<Stored, AllocError>
    ensures kept { IfOk result (λ stored. (stored_object pool.new stored ≡ text_object text.now) × Fits pool.new (needs stored)) }
    ensures others { Extends pool.old pool.new }
{
    let start = pool.units.len();
    push_units(&mut pool.units, text)?;
    Ok(Stored::Text {
        start,
        len: text.len(),
    })
}

// Keeps a function.
fn keep_closure(
    pool: &mut Pool,
    decl: DeclId,
    receiver: Value,
    types: Types,
    cells: Values,
) -> Result<Stored, AllocError>
    ensures kept { IfOk result (λ stored. (stored_object pool.new stored ≡ closure decl.0 receiver (map ty types.items) cells) × Fits pool.new (needs stored)) }
    ensures others { Extends pool.old pool.new }
{
    let args = pool.types.keep(types)?;
    let receiver = keep_receiver(&mut pool.receivers, receiver)?;
    Ok(Stored::Closure {
        decl,
        receiver,
        args,
        cells,
    })
}

// Keeps an instance.
fn keep_instance(
    pool: &mut Pool,
    class: ClassId,
    types: Types,
    fields: Values,
) -> Result<Stored, AllocError>
    ensures kept { IfOk result (λ stored. (stored_object pool.new stored ≡ instance class.0 (map ty types.items) fields) × Fits pool.new (needs stored)) }
    ensures others { Extends pool.old pool.new }
{
    let args = pool.types.keep(types)?;
    Ok(Stored::Instance {
        class,
        args,
        fields,
    })
}

// Keeps a list.
fn keep_list(
    pool: &mut Pool,
    types: Types,
    items: Values,
    fixed: bool,
) -> Result<Stored, AllocError>
    ensures kept { IfOk result (λ stored. (stored_object pool.new stored ≡ list (map ty types.items) items fixed) × Fits pool.new (needs stored)) }
    ensures others { Extends pool.old pool.new }
{
    let args = pool.types.keep(types)?;
    Ok(Stored::List { args, items, fixed })
}

// A list of one type.
fn type_alone(alloc: Global, of: TypeRef) -> Result<Types, AllocError>
    ensures { IfOk result (λ types. map ty types.items ≡ ty of ∷ []) }
{
    let mut types = Vec::with_capacity(alloc, 1)?;
    types.push(of)?;
    Ok(types)
}

// Keeps a type that is a value.
fn keep_type(pool: &mut Pool, of: TypeRef) -> Result<Stored, AllocError>
    ensures kept { IfOk result (λ stored. (stored_object pool.new stored ≡ type_value (ty of)) × Fits pool.new (needs stored)) }
    ensures others { Extends pool.old pool.new }
{
    let types = type_alone(*pool.receivers.allocator(), of)?;
    Ok(Stored::TypeValue(pool.types.keep(types)?))
}

/// Keeps an object beside the pool. Whatever comes out, the objects that are kept stay as they are.
pub fn keep(pool: &mut Pool, mut object: Object) -> Result<Stored, AllocError>
    ensures kept { IfOk result (λ stored. (stored_object pool.new stored ≡ heap_object object) × Fits pool.new (needs stored)) }
    ensures others { Extends pool.old pool.new }
{
    let alloc = *pool.receivers.allocator();
    match &mut object {
        Object::Instance {
            class,
            args,
            fields,
        } => {
            keep_instance(
                pool,
                *class,
                taken_types(alloc, args),
                taken_values(alloc, fields),
            )
        }
        Object::List { args, items, fixed } => {
            keep_list(
                pool,
                taken_types(alloc, args),
                taken_values(alloc, items),
                *fixed,
            )
        }
        Object::Text(units) => keep_text(pool, units.as_slice()),
        Object::Closure {
            decl,
            receiver,
            args,
            cells,
        } => {
            let types = taken_types(alloc, args);
            keep_closure(pool, *decl, *receiver, types, taken_values(alloc, cells))
        }
        Object::TypeValue(of) => keep_type(pool, replace(of, TypeRef::Dynamic)),
        Object::Bound { receiver, member } => Ok(Stored::Bound {
            receiver: *receiver,
            member: *member,
        }),
        Object::SendPort { isolate, port } => Ok(Stored::SendPort {
            isolate: *isolate,
            port: *port,
        }),
        Object::ReceivePort { port } => Ok(Stored::ReceivePort { port: *port }),
        Object::Cell { value, counted } => Ok(Stored::Cell {
            value: *value,
            counted: *counted,
        }),
    }
}
