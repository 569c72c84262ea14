// An object of the store as its readers see it.
ghost use Rattle.std.specs.Prelude.{◌≡◌, ◌+◌, ◌≤◌, length, map, slice_get, Some, None, MatchOption};
ghost use Rattle.dart_ir.specs.Ty.{ty};
ghost use Rattle.dart_store.specs.ObjectView.{viewed_object};
ghost use Rattle.dart_store.specs.Pool.{stored_object, needs, AllFit, Fits};
ghost use Rattle.dart_store.specs.Tables.{receiver_at, text_at, types_at, first_type};

use crate::pool::Pool;
use crate::stored::Stored;
use crate::types::TypeLists;
use dart_ir::number::{ClassId, DeclId, MemberId};
use dart_ir::types::TypeRef;
use dart_ir::value::Value;

/// An object, with what it holds lent by the store. `viewed_object` of specs/ObjectView.antt is what contracts see of it.
#[derive(Clone, Copy)]
pub enum ObjectView<'a> {
    Instance {
        class: ClassId,
        args: &'a [TypeRef],
        fields: &'a [Value],
    },
    List {
        args: &'a [TypeRef],
        items: &'a [Value],
        fixed: bool,
    },
    Text(&'a [u16]),
    Closure {
        decl: DeclId,
        receiver: Value,
        args: &'a [TypeRef],
        cells: &'a [Value],
    },
    Bound {
        receiver: Value,
        member: MemberId,
    },
    TypeValue(&'a TypeRef),
    SendPort {
        isolate: u32,
        port: u32,
    },
    ReceivePort {
        port: u32,
    },
    Cell {
        value: Value,
        counted: bool,
    },
}

// The receiver of the number.
pub fn receiver_of(receivers: &Vec<Value>, number: u32) -> Value
    ensures { result ≡ receiver_at receivers.now.items number }
{
    if number == 0 || number as usize > receivers.len() {
        return Value::Null;
    }
    receivers[number as usize - 1]
}

// So many units from a place on.
fn text_of(units: &Vec<u16>, start: usize, len: usize) -> &[u16]
    requires { start + len ≤ length units.now.items }
    ensures { result.now ≡ text_at units.now.items start len }
{
    &units.as_slice()[start..start + len]
}

// The first type of the list of the number.
fn first_of(types: &TypeLists, number: u32) -> &TypeRef
    requires { 1 ≤ length (types_at types.now number) }
    ensures { ty result.now ≡ first_type (types_at types.now number) }
{
    &types.get(number)[0]
}

// What a stored object shows.
fn view_of<'a>(pool: &'a Pool, object: &'a Stored) -> ObjectView<'a>
    requires { Fits pool.now (needs object.now) }
    ensures { viewed_object result ≡ stored_object pool.now object.now }
{
    match object {
        Stored::Instance {
            class,
            args,
            fields,
        } => ObjectView::Instance {
            class: *class,
            args: pool.types.get(*args),
            fields: fields.as_slice(),
        },
        Stored::List { args, items, fixed } => ObjectView::List {
            args: pool.types.get(*args),
            items: items.as_slice(),
            fixed: *fixed,
        },
        Stored::Text { start, len } => ObjectView::Text(text_of(&pool.units, *start, *len)),
        Stored::Closure {
            decl,
            receiver,
            args,
            cells,
        } => ObjectView::Closure {
            decl: *decl,
            receiver: receiver_of(&pool.receivers, *receiver),
            args: pool.types.get(*args),
            cells: cells.as_slice(),
        },
        Stored::TypeValue(args) => ObjectView::TypeValue(first_of(&pool.types, *args)),
        Stored::Bound { receiver, member } => ObjectView::Bound {
            receiver: *receiver,
            member: *member,
        },
        Stored::SendPort { isolate, port } => ObjectView::SendPort {
            isolate: *isolate,
            port: *port,
        },
        Stored::ReceivePort { port } => ObjectView::ReceivePort { port: *port },
        Stored::Cell { value, counted } => ObjectView::Cell {
            value: *value,
            counted: *counted,
        },
    }
}

// What the object at a place shows, or `None` where there is none.
#[tactic(auto, using(crate::proofs::Sets::store_laws))]
pub fn view_at<'a>(pool: &'a Pool, objects: &'a Vec<Stored>, at: usize) -> Option<ObjectView<'a>>
    requires { AllFit pool.now objects.now.items }
    ensures { MatchOption result (slice_get (map (stored_object pool.now) objects.now.items) at ≡ None)
        (λ view. slice_get (map (stored_object pool.now) objects.now.items) at ≡ Some (viewed_object view)) }
{
    if at >= objects.len() {
        return None;
    }
    Some(view_of(pool, &objects[at]))
}
