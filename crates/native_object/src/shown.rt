// The texts of types and values.
ghost use Rattle.std.specs.Prelude.{◌≡◌, ◌++◌, map, slice_get, unwrap_or, [], IfOk, OnOk};
ghost use Rattle.std.specs.Fmt.{signed_decimal};
ghost use Rattle.dart_ir.specs.Ty.{ty, tys, class as class_ty};
ghost use Rattle.dart_ir.specs.Object.{text as new_string};
ghost use Rattle.native_base.specs.Plan.{makes};
ghost use Rattle.native_base.specs.Planned.{planned};
ghost use Rattle.native_object.specs.Shown as spec;
ghost use Rattle.native_object.specs.ShownView.{around};

use crate::known::KnownClasses;
use dart_base::names::Names;
use dart_base::units::Units;
use dart_ir::class::ClassInfo;
use dart_ir::number::{ClassId, Ref};
use dart_ir::object::Object;
use dart_ir::types::TypeRef;
use dart_ir::value::{Value, integer_of};
use dart_store::store::Store;
use dart_store::view::ObjectView;
use native_base::plan::{Planned, answer};
use std::alloc::{AllocError, Global};

/// What natives read of a program.
#[derive(Clone, Copy)]
pub struct Around<'a> {
    pub literals: &'a [Units],
    pub names: &'a Names,
    pub classes: &'a [ClassInfo],
    pub known: KnownClasses,
}

// Adds the bytes of an ASCII text.
fn push_bytes(units: &mut Units, bytes: &[u8]) -> Result<(), AllocError>
    ensures { OnOk result (units.new ≡ units.old ++ bytes.now) }
{
    for byte in bytes {
        units.push(u16::from(*byte))?;
    }
    Ok(())
}

// Adds a name as it is shown: without `@` and what follows.
fn push_name(units: &mut Units, name: &[u8]) -> Result<(), AllocError>
    ensures { OnOk result (units.new ≡ units.old ++ spec.before_mark name.now) }
{
    for byte in name {
        if *byte == 64 {
            return Ok(());
        }
        units.push(u16::from(*byte))?;
    }
    Ok(())
}

/// The bytes of a class's name; none where there is no such class or name.
#[tactic(auto, using(crate::proofs::Sets::look_ups))]
pub fn class_name<'a>(names: &'a Names, classes: &[ClassInfo], class: ClassId) -> &'a [u8]
    ensures { spec.before_mark result.now ≡ spec.name_text names.now (slice_get (map spec.name_number classes.now) class.0) }
{
    match classes.get(class.0 as usize) {
        Some(info) => {
            if info.name.0 < names.count() {
                names.text(info.name).as_bytes()
            } else {
                b""
            }
        }
        None => b"",
    }
}

/// Whether all types are `dynamic`.
#[tactic(auto, using(dart_ir::proofs::View::views))]
pub fn all_dynamic(types: &[TypeRef]) -> bool
    ensures { result ≡ spec.all_dynamic (tys types.now) }
{
    for t in types {
        if !is_dynamic(t) {
            return false;
        }
    }
    true
}

#[tactic(auto, using(dart_ir::proofs::View::views))]
fn is_dynamic(t: &TypeRef) -> bool
    ensures { result ≡ spec.is_dynamic (ty t.now) }
{
    match t {
        TypeRef::Dynamic => true,
        TypeRef::Bottom => false,
        TypeRef::Void => false,
        TypeRef::Class(_, _) => false,
        TypeRef::Param(_) => false,
        TypeRef::Function(_) => false,
    }
}

// Adds the text of a type.
#[cycle(texts)]
#[tactic(auto, using(dart_ir::proofs::View::views))]
fn push_type(a: &Around<'_>, units: &mut Units, t: &TypeRef) -> Result<(), AllocError>
    ensures { OnOk result (units.new ≡ units.old ++ spec.type_text (around a.now) (ty t.now)) }
{
    match t {
        TypeRef::Dynamic => push_bytes(units, b"dynamic"),
        TypeRef::Param(_) => push_bytes(units, b"dynamic"),
        TypeRef::Bottom => push_bytes(units, b"Null"),
        TypeRef::Void => push_bytes(units, b"void"),
        TypeRef::Function(_) => push_bytes(units, b"Function"),
        TypeRef::Class(class, types) => push_class(a, units, *class, types),
    }
}

// Adds the name of a class, with its type arguments where not all of them are `dynamic`.
#[cycle(texts)]
#[tactic(auto, using(dart_ir::proofs::View::views))]
fn push_class(
    a: &Around<'_>,
    units: &mut Units,
    class: ClassId,
    types: &[TypeRef],
) -> Result<(), AllocError>
    ensures { OnOk result (units.new ≡ units.old ++ spec.type_text (around a.now) (class_ty class.0 (tys types.now))) }
{
    push_name(units, class_name(a.names, a.classes, class))?;
    if all_dynamic(types) {
        return Ok(());
    }
    let mut before: &[u8] = b"<";
    for t in types {
        push_bytes(units, before)?;
        push_type(a, units, t)?;
        before = b", ";
    }
    push_bytes(units, b">")
}

// A new string of an ASCII text.
fn new_text(alloc: Global, bytes: &[u8]) -> Result<Planned, AllocError>
    ensures { IfOk result (λ plan. planned plan ≡ spec.new_text bytes.now) }
{
    let mut units = Units::new(alloc);
    push_bytes(&mut units, bytes)?;
    Ok(Planned::Makes(Object::Text(units)))
}

// A new string of the decimal digits of an integer.
fn digits(alloc: Global, number: i128) -> Result<Planned, AllocError>
    ensures { IfOk result (λ plan. planned plan ≡ spec.new_text (signed_decimal number)) }
{
    let text = format!(in alloc; "{number}")?;
    new_text(alloc, text.as_bytes())
}

// A new string of the text of a type.
fn type_text(alloc: Global, a: &Around<'_>, t: &TypeRef) -> Result<Planned, AllocError>
    ensures { IfOk result (λ plan. planned plan ≡ spec.new_text (spec.type_text (around a.now) (ty t.now))) }
{
    let mut units = Units::new(alloc);
    push_type(a, &mut units, t)?;
    Ok(Planned::Makes(Object::Text(units)))
}

// A new string of the text of an object of a class.
fn instance_text(alloc: Global, a: &Around<'_>, class: ClassId) -> Result<Planned, AllocError>
    ensures { IfOk result (λ plan. planned plan ≡ spec.instance_text (around a.now) class.0) }
{
    let mut units = Units::new(alloc);
    push_bytes(&mut units, b"Instance of '")?;
    push_name(&mut units, class_name(a.names, a.classes, class))?;
    push_bytes(&mut units, b"'")?;
    Ok(Planned::Makes(Object::Text(units)))
}

// What `toString` answers for an object.
fn object_text(alloc: Global, a: &Around<'_>, store: &Store, r: Ref) -> Result<Planned, AllocError>
    ensures { IfOk result (λ plan. planned plan ≡ spec.object_text (around a.now) (Value.At r) (slice_get store.now.objects r.0)) }
{
    match store.get(r) {
        Some(ObjectView::Text(_)) => Ok(answer(Value::At(r))),
        Some(ObjectView::Closure { .. }) | Some(ObjectView::Bound { .. }) => new_text(
            alloc, b"Closure",
        ),
        Some(ObjectView::TypeValue(t)) => type_text(alloc, a, t),
        Some(ObjectView::Instance { class, .. }) => instance_text(alloc, a, class),
        Some(ObjectView::List { .. }) => instance_text(alloc, a, a.known.list),
        Some(ObjectView::SendPort { .. }) => instance_text(alloc, a, a.known.send_port),
        Some(ObjectView::ReceivePort { .. }) => instance_text(alloc, a, a.known.receive_port),
        _ => instance_text(alloc, a, a.known.null),
    }
}

/// What `toString` of `Object` answers: a string is its own text, a type is shown with its type arguments where not all of them
/// are `dynamic`.
pub fn text_of_value(
    alloc: Global,
    a: &Around<'_>,
    store: &Store,
    value: Value,
) -> Result<Planned, AllocError>
    ensures { IfOk result (λ plan. planned plan ≡ spec.text_of_value (around a.now) store.now value) }
{
    match value {
        Value::Null => new_text(alloc, b"null"),
        Value::Bool(true) => new_text(alloc, b"true"),
        Value::Bool(false) => new_text(alloc, b"false"),
        Value::Int { high, low } => digits(alloc, integer_of(high, low)),
        Value::Literal(index) => Ok(answer(Value::Literal(index))),
        Value::Code(_) => new_text(alloc, b"Closure"),
        Value::At(r) => object_text(alloc, a, store, r),
    }
}
