// The steps that natives take.
ghost use Rattle.std.specs.Prelude.{◌≡◌, ◌-◌, ◌*◌, ◌≤◌, ◌^◌, [], length, min, sum_by, take};
ghost use Rattle.native_base.specs.Plan.{work as plan_work, text_at as spec_text_at};
ghost use Rattle.native_object.specs.ShownView.{around};
ghost use Rattle.dart_native.specs.Native as spec;

use crate::length::{MOST, object_work};
use dart_base::units::Units;
use dart_ir::native::NativeId;
use dart_ir::value::Value;
use dart_native::native::argument;
use dart_store::store::Store;
use native_base::argument::text_at;
use native_list::list::is_list_native;
use native_list::work::list_work;
use native_object::object::is_object_native;
use native_object::shown::Around;
use native_text::text::is_text_native;
use native_text::work::text_work;

// How many arguments a native looks at, `this` among them.
fn arity(native: NativeId) -> usize
    ensures arity { result ≡ spec.arity native }
    ensures bound { result ≤ 3 }
{
    match native {
        NativeId::ReceivePortNew => 0,
        NativeId::StringSubstring
        | NativeId::StringIndexOf
        | NativeId::ListIndexSet
        | NativeId::ListInsert => 3,
        NativeId::Print
        | NativeId::ObjectHashCode
        | NativeId::ObjectRuntimeType
        | NativeId::ObjectToString
        | NativeId::NumNegate
        | NativeId::IntParse
        | NativeId::IntComplement
        | NativeId::StringFromCharCode
        | NativeId::StringLength
        | NativeId::ListNew
        | NativeId::ListLength
        | NativeId::ListRemoveLast
        | NativeId::ReceivePortSendPort
        | NativeId::ReceivePortClose => 1,
        _ => 2,
    }
}

// The units of a value that is a string.
fn units_in(literals: &[Units], store: &Store, value: Value) -> usize
    ensures { result ≡ spec.units_in (spec_text_at literals.now store.now value) }
{
    match text_at(literals, store, value) {
        Some(units) => units.len(),
        None => 0,
    }
}

// The text units of the values.
fn units_of_all(literals: &[Units], store: &Store, values: &[Value]) -> u128
    requires { length values.now ≤ 3 }
    ensures sum { result ≡ sum_by (λ x. spec.units_in (spec_text_at literals.now store.now x)) values.now }
    ensures bound { result ≤ 3 * 2 ^ 64 }
{
    let mut total: u128 = 0;
    for value in values {
        total += units_in(literals, store, *value) as u128;
    }
    total
}

// The text units that a native is given.
fn given(native: NativeId, args: &[Value], literals: &[Units], store: &Store) -> u128
    ensures sum { result ≡ sum_by (λ x. spec.units_in (spec_text_at literals.now store.now x)) (take (spec.arity native) args.now) }
    ensures bound { result ≤ 3 * 2 ^ 64 }
{
    let count = arity(native);
    if args.len() < count {
        units_of_all(literals, store, args)
    } else {
        units_of_all(literals, store, &args[..count])
    }
}

// The count, or the most.
fn capped(count: u128) -> u128
    ensures { result ≡ min (2 ^ 126) count }
{
    if count > MOST { MOST } else { count }
}

// The text units that a native makes and the items that it moves; a count beyond 2^126 stands still
// there.
#[tactic(auto, using(crate::proofs::Numbers::number_work))]
fn work(native: NativeId, a: &Around<'_>, store: &Store, this: Value, x: Value, y: Value) -> u128
    ensures { result ≡ min (2 ^ 126) (plan_work (spec.plan_on (around a.now) native [] store.now this x y)) }
{
    if is_text_native(native) {
        return capped(text_work(native, a.literals, store, this, x, y));
    }
    if is_list_native(native) {
        return capped(list_work(native, store, this, x, y));
    }
    if is_object_native(native) {
        return object_work(native, a, store, this, x);
    }
    0
}

/// How many steps a native takes before all else: one, and one more for each full 16 of the text
/// units that it is given or makes and the items that it moves. A number beyond 64 bits stands
/// still at the greatest. It holds for every native but `Isolate.spawn` and `send`. Takes no
/// memory.
pub fn steps(native: NativeId, args: &[Value], a: &Around<'_>, store: &Store) -> u64
    ensures { result ≡ min (2 ^ 64 - 1) (spec.steps (around a.now) native args.now store.now) }
{
    let this = argument(args, 0);
    let x = argument(args, 1);
    let y = argument(args, 2);
    let units = given(native, args, a.literals, store);
    let steps = 1 + (units + work(native, a, store, this, x, y)) / 16;
    if steps > u64::MAX as u128 {
        u64::MAX
    } else {
        steps as u64
    }
}
