// One call for the natives of every family.
ghost use Rattle.std.specs.Prelude.{◌≡◌, map, IfOk, OnErr, Err};
ghost use Rattle.dart_ir.specs.Ty.{ty};
ghost use Rattle.native_base.specs.Plan.{answers, outcome, done, full as no_room};
ghost use Rattle.native_base.specs.Planned.{planned};
ghost use Rattle.native_number.specs.Number.{number_native as spec_number_native};
ghost use Rattle.native_object.specs.ShownView.{around};
ghost use Rattle.dart_native.specs.Native as spec;

use dart_ir::native::{Answer, NativeId};
use dart_ir::types::TypeRef;
use dart_ir::value::Value;
use dart_store::store::{Store, StoreFault};
use native_base::plan::carry_out;
use native_list::list::{is_list_native, list_native};
use native_number::number::number_native;
use native_object::object::{is_object_native, object_native};
use native_object::shown::Around;
use native_text::text::{is_text_native, text_native};
use std::alloc::Global;

/// An argument, of which a missing one is null.
pub fn argument(args: &[Value], index: usize) -> Value
    ensures { result ≡ spec.argument args.now index }
{
    if index < args.len() {
        args[index]
    } else {
        Value::Null
    }
}

// What a native of numbers answers; those of the evaluator answer null.
fn number_answer(native: NativeId, this: Value, x: Value) -> Answer
    ensures { answers result ≡ spec.or_null (spec_number_native native this x) }
{
    match number_native(native, this, x) {
        Some(answer) => answer,
        None => Answer::Value(Value::Null),
    }
}

// What a native does for its first argument and two more.
fn call_on(
    alloc: Global,
    native: NativeId,
    types: &[TypeRef],
    a: &Around<'_>,
    store: &mut Store,
    this: Value,
    x: Value,
    y: Value,
) -> Result<Answer, StoreFault>
    ensures done { IfOk result (λ answer. outcome store.old (spec.plan_on (around a.now) native (map ty types.now) store.old this x y) ≡ done answer store.new) }
    ensures full { result ≡ Err StoreFault.Full → outcome store.old (spec.plan_on (around a.now) native (map ty types.now) store.old this x y) ≡ no_room }
    ensures refused { OnErr result (store.new ≡ store.old) }
{
    if is_text_native(native) {
        let plan = text_native(alloc, native, a.literals, store, this, x, y)?;
        return carry_out(plan, store);
    }
    if is_list_native(native) {
        return list_native(alloc, native, types, store, this, x, y);
    }
    if is_object_native(native) {
        let plan = object_native(alloc, native, a, store, this, x)?;
        return carry_out(plan, store);
    }
    Ok(number_answer(native, this, x))
}

/// What a native does: `types` are the type arguments of the `new` for a factory, and of the arguments, `this` first where there is
/// one, a missing one is null and those beyond its parameters aren't looked at. Full exactly where the units that it takes pass the
/// limit of the store; an `Err` changes nothing. `_print` and those of isolates and ports, which the evaluator does, answer null.
pub fn call(
    alloc: Global,
    native: NativeId,
    types: &[TypeRef],
    args: &[Value],
    a: &Around<'_>,
    store: &mut Store,
) -> Result<Answer, StoreFault>
    ensures done { IfOk result (λ answer. spec.native (around a.now) native (map ty types.now) args.now store.old ≡ done answer store.new) }
    ensures full { result ≡ Err StoreFault.Full → spec.native (around a.now) native (map ty types.now) args.now store.old ≡ no_room }
    ensures refused { OnErr result (store.new ≡ store.old) }
{
    let this = argument(args, 0);
    let x = argument(args, 1);
    let y = argument(args, 2);
    call_on(alloc, native, types, a, store, this, x, y)
}
