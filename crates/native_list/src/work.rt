// The items that natives of lists move.
ghost use Rattle.std.specs.Prelude.{◌≡◌, [], slice_get};
ghost use Rattle.dart_store.specs.Heap.{kind_of};
ghost use Rattle.dart_ir.specs.declared.kind.ThrowKind.TheVariants.{ArgumentError};
ghost use Rattle.native_base.specs.Plan.{needs, work};
ghost use Rattle.native_list.specs.List as spec;

use crate::size::place_or_end;
use dart_ir::native::NativeId;
use dart_ir::number::Ref;
use dart_ir::value::Value;
use dart_store::store::{Kind, Store};
use native_base::argument::place;
use native_number::number::number_of;

// The items behind the one that is taken out.
fn removed_work(store: &Store, r: Ref, fixed: bool, x: Option<i128>) -> u128
    ensures { result ≡ work (needs ArgumentError x (λ i. spec.unless_fixed fixed (spec.removed store.now r.0 i))) }
{
    match x {
        None => 0,
        Some(index) => {
            if fixed {
                return 0;
            }
            let count = store.length(r);
            match place(count, index) {
                Some(at) => (count - (at + 1)) as u128,
                None => 0,
            }
        }
    }
}

// The items behind the one that is put in.
fn inserted_work(store: &Store, r: Ref, fixed: bool, x: Option<i128>, value: Value) -> u128
    ensures { result ≡ work (needs ArgumentError x (λ i. spec.unless_fixed fixed (spec.inserted store.now r.0 value i))) }
{
    match x {
        None => 0,
        Some(index) => {
            if fixed {
                return 0;
            }
            let count = store.length(r);
            match place_or_end(count, index) {
                Some(at) => (count - at) as u128,
                None => 0,
            }
        }
    }
}

// The items that a native moves whose first argument is the list.
fn of_list_work(native: NativeId, store: &Store, r: Ref, fixed: bool, x: Value, y: Value) -> u128
    ensures { result ≡ work (spec.of_list native store.now r.0 fixed x y) }
{
    match native {
        NativeId::ListRemoveAt => removed_work(store, r, fixed, number_of(x)),
        NativeId::ListInsert => inserted_work(store, r, fixed, number_of(x), y),
        _ => 0,
    }
}

// The items that a native moves that needs a list for its first argument.
fn on_list_work(native: NativeId, store: &Store, this: Value, x: Value, y: Value) -> u128
    ensures { result ≡ work (spec.on_list native store.now this x y) }
{
    let Value::At(r) = this else {
        return 0;
    };
    match store.kind(r) {
        Kind::List(fixed) => of_list_work(native, store, r, fixed, x, y),
        _ => 0,
    }
}

/// The items that a native of lists moves for its first argument and two more: those that `insert` and `removeAt` put at another place;
/// none where it throws. Takes no memory.
pub fn list_work(native: NativeId, store: &Store, this: Value, x: Value, y: Value) -> u128
    ensures { result ≡ work (spec.list_native native [] store.now this x y) }
{
    match native {
        NativeId::ListNew => 0,
        _ => on_list_work(native, store, this, x, y),
    }
}
