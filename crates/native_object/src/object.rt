// The table of `identical` and the natives of `Object`.
ghost use Rattle.std.specs.Prelude.{◌≡◌, map, slice_get, IfOk};
ghost use Rattle.dart_ir.specs.Ty.{ty};
ghost use Rattle.dart_ir.specs.Object.{type_value};
ghost use Rattle.native_base.specs.Plan.{makes};
ghost use Rattle.native_base.specs.Planned.{planned};
ghost use Rattle.native_object.specs.Object as spec;
ghost use Rattle.native_object.specs.Shown as shown;
ghost use Rattle.native_object.specs.ShownView.{around};

use crate::identity::{hash, identical};
use crate::known::KnownClasses;
use crate::shown::{Around, text_of_value};
use dart_ir::kind::ThrowKind;
use dart_ir::native::NativeId;
use dart_ir::number::{ClassId, Ref};
use dart_ir::object::Object;
use dart_ir::types::{TypeRef, try_clone_types};
use dart_ir::value::Value;
use dart_store::store::Store;
use dart_store::view::ObjectView;
use native_base::plan::{Planned, answer, number, throw};
use std::alloc::{AllocError, Global};

// The class without type arguments.
#[tactic(auto, using(dart_ir::proofs::View::views))]
fn plain(alloc: Global, class: ClassId) -> TypeRef
    ensures { ty result ≡ shown.plain class.0 }
{
    TypeRef::Class(class, Vec::new(alloc))
}

// The type of an object.
#[tactic(auto, using(dart_ir::proofs::View::views))]
fn object_type(
    alloc: Global,
    known: KnownClasses,
    store: &Store,
    r: Ref,
) -> Result<TypeRef, AllocError>
    ensures { IfOk result (λ t. ty t ≡ shown.object_type known (slice_get store.now.objects r.0)) }
{
    match store.get(r) {
        Some(ObjectView::Instance { class, args, .. }) => {
            Ok(TypeRef::Class(class, try_clone_types(alloc, args)?))
        }
        Some(ObjectView::List { args, .. }) => {
            Ok(TypeRef::Class(known.list, try_clone_types(alloc, args)?))
        }
        Some(ObjectView::Text(_)) => Ok(plain(alloc, known.string)),
        Some(ObjectView::Closure { .. }) | Some(ObjectView::Bound { .. }) => {
            Ok(plain(alloc, known.function))
        }
        Some(ObjectView::TypeValue(_)) => Ok(plain(alloc, known.type_class)),
        Some(ObjectView::SendPort { .. }) => Ok(plain(alloc, known.send_port)),
        Some(ObjectView::ReceivePort { .. }) => Ok(plain(alloc, known.receive_port)),
        _ => Ok(plain(alloc, known.null)),
    }
}

/// The type of a value; that of each function is `Function`.
pub fn type_of(
    alloc: Global,
    known: KnownClasses,
    store: &Store,
    value: Value,
) -> Result<TypeRef, AllocError>
    ensures { IfOk result (λ t. ty t ≡ shown.type_of known store.now value) }
{
    match value {
        Value::Null => Ok(plain(alloc, known.null)),
        Value::Bool(_) => Ok(plain(alloc, known.boolean)),
        Value::Int { high: _, low: _ } => Ok(plain(alloc, known.integer)),
        Value::Literal(_) => Ok(plain(alloc, known.string)),
        Value::Code(_) => Ok(plain(alloc, known.function)),
        Value::At(r) => object_type(alloc, known, store, r),
    }
}

/// Whether it is `identical` or a native of `Object`.
pub fn is_object_native(native: NativeId) -> bool
    ensures { result ≡ spec.is_object_native native }
{
    match native {
        NativeId::Identical
        | NativeId::ObjectEqual
        | NativeId::ObjectHashCode
        | NativeId::ObjectRuntimeType
        | NativeId::ObjectToString => true,
        _ => false,
    }
}

// The type of a value as a new object.
fn runtime_type(
    alloc: Global,
    known: KnownClasses,
    store: &Store,
    value: Value,
) -> Result<Planned, AllocError>
    ensures { IfOk result (λ plan. planned plan ≡ makes (type_value (shown.type_of known store.now value))) }
{
    Ok(Planned::Makes(Object::TypeValue(type_of(alloc, known, store, value)?)))
}

/// What such a native does for its first argument and another one, of which a missing one is null.
pub fn object_native(
    alloc: Global,
    native: NativeId,
    a: &Around<'_>,
    store: &Store,
    this: Value,
    x: Value,
) -> Result<Planned, AllocError>
    ensures { IfOk result (λ plan. planned plan ≡ spec.object_native native (around a.now) store.now this x) }
{
    match native {
        NativeId::Identical | NativeId::ObjectEqual => {
            Ok(answer(Value::Bool(identical(a.literals, store, this, x))))
        }
        NativeId::ObjectHashCode => Ok(number(hash(a.literals, store, this))),
        NativeId::ObjectRuntimeType => runtime_type(alloc, a.known, store, this),
        NativeId::ObjectToString => text_of_value(alloc, a, store, this),
        _ => Ok(throw(ThrowKind::ArgumentError)),
    }
}
