// Lists and objects of the class that a site asks for, with its type arguments or `dynamic` (ECMA-408, 19.4 Interface Types).
#![tactic(auto)]

ghost use Rattle.std.specs.Prelude.{◌≡◌, List, Some, true, length, map, nat_lt, IfSome};
ghost use Rattle.dart_ir.specs.Classes.{class_at, parameter_count};
ghost use Rattle.dart_ir.specs.Object.{of};
ghost use Rattle.dart_ir.specs.Ty.{Ty, ty, dynamic, nil, of_list, class as class_of};
ghost use Rattle.dart_store.specs.Heap.{Heap};
ghost use Rattle.dart_store.specs.ObjectView.{viewed_object};
ghost use Rattle.dart_type.specs.Instance.{instance};
ghost use Rattle.type_test.specs.Test.{is_formed};
ghost use Rattle.evaluation.specs.Checks as spec;
ghost use Rattle.evaluation.specs.Values.{head_of, object_head, object_type};
ghost use Rattle.machine_frame.specs.Above.{AllFit, Fits, IsPlainType};
ghost use Rattle.machine_frame.specs.Outside.{checking_of, setting_of};

use crate::around::Around;
use crate::run::Run;
use dart_ir::types::TypeRef;
use dart_ir::value::Value;
use dart_store::view::ObjectView;

/// The class of a type that has no type arguments. `None` says nothing.
fn plain_number(of: &TypeRef) -> Option<u32>
    ensures { IfSome result (λ c. ty of.now ≡ class_of c nil) }
{
    let TypeRef::Class(class, arguments) = of else {
        return None;
    };
    if arguments.len() == 0 {
        Some(class.0)
    } else {
        None
    }
}

/// Whether a class is listed and has so many type parameters.
#[inline(always)]
fn takes(a: Around, class: u32, count: usize) -> bool
    ensures listed { result ≡ true → nat_lt class (length a.entry.program.now.classes.classes.items) ≡ true }
    ensures counted { result ≡ true → parameter_count (class_at a.entry.program.now.classes class) ≡ count }
{
    match a.program.core().classes.classes.get(class as usize) {
        None => false,
        Some(info) => info.bounds.len() == count,
    }
}

/// Whether a type is a class that is listed and has no type parameters.
fn is_plain_type(a: Around, of: &TypeRef) -> bool
    ensures { result ≡ true → IsPlainType a.entry.program.now.classes (ty of.now) }
{
    match plain_number(of) {
        None => false,
        Some(class) => takes(a, class, 0),
    }
}

/// Whether a type is `dynamic`.
#[tactic(auto, using(dart_ir::proofs::View::views))]
fn is_dynamic(of: &TypeRef) -> bool
    ensures { result ≡ true → ty of.now ≡ dynamic }
{
    match of {
        TypeRef::Dynamic => true,
        _ => false,
    }
}

/// Whether types are the same class. `false` says nothing.
fn are_same(first: &TypeRef, second: &TypeRef) -> bool
    ensures { result ≡ true → ty first.now ≡ ty second.now }
{
    let Some(class) = plain_number(first) else {
        return false;
    };
    match plain_number(second) {
        None => false,
        Some(other) => class == other,
    }
}

/// Whether a type argument surely is below another one: one of them is `dynamic`, or they are the same class. `false` says nothing.
fn fits(a: Around, first: &TypeRef, second: &TypeRef) -> bool
    ensures { result ≡ true → Fits a.entry.program.now.classes (ty first.now) (ty second.now) }
{
    if is_dynamic(first) {
        if is_dynamic(second) {
            return true;
        }
        return is_plain_type(a, second);
    }
    if !is_plain_type(a, first) {
        return false;
    }
    if is_dynamic(second) {
        return true;
    }
    are_same(first, second)
}

/// Whether type arguments surely are below other ones, in order. `false` says nothing.
fn all_fit(a: Around, first: &[TypeRef], second: &[TypeRef]) -> bool
    ensures { result ≡ true → AllFit a.entry.program.now.classes (map ty first.now) (map ty second.now) }
{
    let Some((one, rest)) = first.split_first() else {
        return second.len() == 0;
    };
    let Some((other, others)) = second.split_first() else {
        return false;
    };
    if !fits(a, one, other) {
        return false;
    }
    all_fit(a, rest, others)
}

/// Whether a class with type arguments surely is below a type of that class. `false` says nothing.
fn is_type(a: Around, class: u32, arguments: &[TypeRef], wanted: &TypeRef) -> bool
    ensures { result ≡ true → (args : List Ty) → spec.is_of_type (checking_of a.entry) (of class (map ty arguments.now)) (instance (of_list args) (ty wanted.now)) ≡ true }
{
    let TypeRef::Class(other, given) = wanted else {
        return false;
    };
    if other.0 != class || !takes(a, class, given.len()) {
        return false;
    }
    all_fit(a, arguments, given.as_slice())
}

/// The class and the type arguments of an instance or a list. `None` says nothing.
#[inline(always)]
pub fn typed_object<'b>(a: Around, object: ObjectView<'b>) -> Option<(u32, &'b [TypeRef])>
    ensures { IfSome result (λ o. object_type (setting_of a.entry) (Some (viewed_object object.entry)) ≡ Some (class_of o.0 (of_list (map ty o.1.now)))) }
{
    match object {
        ObjectView::Instance {
            class,
            args,
            fields: _,
        } => Some((class.0, args)),
        ObjectView::List {
            args,
            items: _,
            fixed: _,
        } => Some((a.setup.known.list_class.0, args)),
        _ => None,
    }
}

/// Whether an object surely is an instance or a list of the type. `false` says nothing.
fn object_has_type(a: Around, object: ObjectView, wanted: &TypeRef) -> bool
    ensures { result ≡ true → (h : Heap) → (args : List Ty) → spec.is_of_type (checking_of a.entry) (object_head (setting_of a.entry) h (Some (viewed_object object.entry))) (instance (of_list args) (ty wanted.now)) ≡ true }
{
    match object {
        ObjectView::Instance {
            class,
            args,
            fields: _,
        } => is_type(a, class.0, args, wanted),
        ObjectView::List {
            args,
            items: _,
            fixed: _,
        } => is_type(a, a.setup.known.list_class.0, args, wanted),
        _ => false,
    }
}

/// Whether a value surely is an instance or a list of the type. `false` says nothing.
pub fn has_type(run: &Run, a: Around, value: Value, wanted: &TypeRef) -> bool
    ensures { result ≡ true → (args : List Ty) → spec.is_of_type (checking_of a.entry) (head_of (setting_of a.entry) run.now.store value) (instance (of_list args) (ty wanted.now)) ≡ true }
{
    let Value::At(r) = value else {
        return false;
    };
    match run.store.get(r) {
        None => false,
        Some(object) => object_has_type(a, object, wanted),
    }
}
