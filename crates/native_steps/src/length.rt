// The units that natives of `Object` make.
ghost use Rattle.std.specs.Prelude.{◌≡◌, ◌+◌, ◌≤◌, ◌^◌, length, map, min, slice_get, if◌then◌else◌};
ghost use Rattle.std.specs.Fmt.{decimal, signed_decimal};
ghost use Rattle.dart_ir.specs.Ty.{ty, tys, class as class_ty};
ghost use Rattle.native_base.specs.Plan.{work};
ghost use Rattle.native_object.specs.Object as spec;
ghost use Rattle.native_object.specs.Shown as shown;
ghost use Rattle.native_object.specs.ShownView.{around};

use dart_ir::native::NativeId;
use dart_ir::number::{ClassId, Ref};
use dart_ir::types::TypeRef;
use dart_ir::value::{Value, integer_of};
use dart_store::store::Store;
use dart_store::view::ObjectView;
use native_object::shown::{Around, all_dynamic, class_name};

/// A count that passes this one stands still at it.
pub const MOST: u128 = 0x4000_0000_0000_0000_0000_0000_0000_0000;

// The sum of two counts.
fn capped(x: u128, y: u128) -> u128
    requires first { x ≤ 2 ^ 126 }
    requires second { y ≤ 2 ^ 126 }
    ensures { result ≡ min (2 ^ 126) (x + y) }
{
    let sum = x + y;
    if sum > MOST { MOST } else { sum }
}

// The bytes of a name before its mark.
fn name_length(name: &[u8]) -> usize
    ensures { result ≡ length (shown.before_mark name.now) }
{
    let mut count: usize = 0;
    for byte in name {
        if *byte == 64 {
            return count;
        }
        count += 1;
    }
    count
}

// The digits of a number.
fn digits_length(number: u128) -> u128
    ensures length { result ≡ length (decimal number) }
    ensures bound { result ≤ 64 }
{
    let mut count: u128 = 1;
    let mut rest = number;
    while rest >= 10 {
        rest /= 10;
        count += 1;
    }
    count
}

// The digits of an integer, with its minus.
fn integer_length(number: i128) -> u128
    ensures length { result ≡ length (signed_decimal number) }
    ensures bound { result ≤ 65 }
{
    if number < 0 {
        digits_length(number.unsigned_abs()) + 1
    } else {
        digits_length(number.unsigned_abs())
    }
}

// The units of the text of a type.
#[cycle(lengths)]
#[tactic(auto, using(dart_ir::proofs::View::views))]
fn type_length(a: &Around<'_>, t: &TypeRef) -> u128
    ensures { result ≡ min (2 ^ 126) (length (shown.type_text (around a.now) (ty t.now))) }
{
    match t {
        TypeRef::Dynamic => 7,
        TypeRef::Param(_) => 7,
        TypeRef::Bottom => 4,
        TypeRef::Void => 4,
        TypeRef::Function(_) => 8,
        TypeRef::Class(class, types) => class_length(a, *class, types),
    }
}

// The units of the name of a class, with its type arguments where not all of them are `dynamic`.
#[cycle(lengths)]
#[tactic(auto, using(dart_ir::proofs::View::views))]
fn class_length(a: &Around<'_>, class: ClassId, types: &[TypeRef]) -> u128
    ensures { result ≡ min (2 ^ 126) (length (shown.type_text (around a.now) (class_ty class.0 (tys types.now)))) }
{
    let name = name_length(class_name(a.names, a.classes, class)) as u128;
    if all_dynamic(types) {
        return name;
    }
    let mut total = name + 1;
    let mut before: &[u8] = b"<";
    for t in types {
        total = capped(total, capped(before.len() as u128, type_length(a, t)));
        before = b", ";
    }
    total
}

// The units of `Instance of '` and `'` with the name of a class.
fn instance_length(a: &Around<'_>, class: ClassId) -> u128
    ensures { result ≡ min (2 ^ 126) (work (shown.instance_text (around a.now) class.0)) }
{
    name_length(class_name(a.names, a.classes, class)) as u128 + 14
}

// The units of the string that `toString` makes for an object.
fn object_length(a: &Around<'_>, store: &Store, r: Ref) -> u128
    ensures { result ≡ min (2 ^ 126) (work (shown.object_text (around a.now) (Value.At r) (slice_get store.now.objects r.0))) }
{
    match store.get(r) {
        Some(ObjectView::Text(_)) => 0,
        Some(ObjectView::Closure { .. }) | Some(ObjectView::Bound { .. }) => 7,
        Some(ObjectView::TypeValue(t)) => type_length(a, t),
        Some(ObjectView::Instance { class, .. }) => instance_length(a, class),
        Some(ObjectView::List { .. }) => instance_length(a, a.known.list),
        Some(ObjectView::SendPort { .. }) => instance_length(a, a.known.send_port),
        Some(ObjectView::ReceivePort { .. }) => instance_length(a, a.known.receive_port),
        _ => instance_length(a, a.known.null),
    }
}

// The units of the string that `toString` makes.
fn value_length(a: &Around<'_>, store: &Store, value: Value) -> u128
    ensures { result ≡ min (2 ^ 126) (work (shown.text_of_value (around a.now) store.now value)) }
{
    match value {
        Value::Null | Value::Bool(true) => 4,
        Value::Bool(false) => 5,
        Value::Int { high, low } => integer_length(integer_of(high, low)),
        Value::Literal(_) => 0,
        Value::Code(_) => 7,
        Value::At(r) => object_length(a, store, r),
    }
}

/// The units that such a native makes for its first argument and another one; a count beyond 2^126
/// stands still there. Takes no memory.
pub fn object_work(native: NativeId, a: &Around<'_>, store: &Store, this: Value, x: Value) -> u128
    ensures { result ≡ min (2 ^ 126) (work (spec.object_native native (around a.now) store.now this x)) }
{
    match native {
        NativeId::ObjectToString => value_length(a, store, this),
        _ => 0,
    }
}
