// Values that surely pass their sites, which takes no memory to see (ECMA-408, 19.1 Static Types; checked mode).
#![tactic(auto)]

ghost use Rattle.std.specs.Prelude.{◌≡◌, [], List, Some, None, true, false, IfSome, MatchOption, slice_get};
ghost use Rattle.dart_ir.specs.Object.{HeadTy, of};
ghost use Rattle.dart_ir.specs.Ty.{Ty, ty, nil, of_list, class as class_of};
ghost use Rattle.dart_ir.specs.declared.value.Value.{Value as ValueOf};
ghost use Rattle.dart_store.specs.Heap.{Heap};
ghost use Rattle.dart_store.specs.ObjectView.{viewed_object};
ghost use Rattle.dart_type.specs.Instance.{instance};
ghost use Rattle.type_test.specs.Test.{is_formed};
ghost use Rattle.machine_frame.specs.Above.{IsPlainSuperclass, IsReached};
ghost use Rattle.core_program.specs.ProgramView as p;
ghost use Rattle.evaluation.specs.Checks as spec;
ghost use Rattle.evaluation.specs.Classes.{site_at};
ghost use Rattle.evaluation.specs.Values.{head_of, object_head};
ghost use Rattle.machine_frame.specs.declared.around.Around.{Around as AroundOf};
ghost use Rattle.machine_frame.specs.Outside.{checking_of, setting_of, IsAdmitted};

use crate::around::Around;
use crate::run::Run;
use crate::same::has_type;
use core_program::program::{CoreProgram, Site};
use dart_ir::class::ClassInfo;
use dart_ir::kind::SiteKind;
use dart_ir::types::TypeRef;
use dart_ir::value::Value;
use dart_store::view::ObjectView;

/// The class of a value that has one without type arguments. `None` says nothing.
#[inline(always)]
fn plain_class(run: &Run, a: Around, value: Value) -> Option<u32>
    ensures { IfSome result (λ c. head_of (setting_of a.entry) run.now.store value ≡ of c []) }
{
    match value {
        Value::Null => None,
        Value::Bool(_) => Some(a.setup.known.bool_class.0),
        Value::Int { high: _, low: _ } => Some(a.setup.known.int_class.0),
        Value::Literal(_) => Some(a.setup.known.string_class.0),
        Value::Code(_) => None,
        Value::At(r) => match run.store.get(r) {
            None => None,
            Some(object) => match plain_object_class(a, object) {
                None => None,
                Some(class) => Some(class),
            },
        },
    }
}

/// The same of an object.
#[inline(always)]
fn plain_object_class(a: Around, object: ObjectView) -> Option<u32>
    ensures { IfSome result (λ c. (h : Heap) → object_head (setting_of a.entry) h (Some (viewed_object object.entry)) ≡ of c []) }
{
    match object {
        ObjectView::Instance {
            class,
            args,
            fields: _,
        } => { if args.is_empty() { Some(class.0) } else { None } }
        ObjectView::Text(_) => Some(a.setup.known.string_class.0),
        _ => None,
    }
}

/// Whether a class is listed and has no type parameters.
#[inline(always)]
fn is_plain(a: Around, class: u32) -> bool
    ensures { result ≡ true → is_formed a.entry.program.now.classes (class_of class nil) ≡ true }
{
    match a.program.core().classes.classes.get(class as usize) {
        None => false,
        Some(info) => info.bounds.len() == 0,
    }
}

/// How many superclasses up a class is looked for.
const LEVELS: u32 = 3;

/// What the table of classes has of a class.
#[inline(always)]
fn class_info<'a>(program: &'a CoreProgram, class: u32) -> Option<&'a ClassInfo>
    ensures { MatchOption result (slice_get program.now.classes.classes.items class ≡ None)
        (λ x. slice_get program.now.classes.classes.items class ≡ Some x.now) }
{
    program.classes.classes.get(class as usize)
}

/// The superclass of a class, where it is given without type arguments. `None` says nothing.
#[inline(always)]
fn plain_superclass(a: Around, class: u32) -> Option<u32>
    ensures { IfSome result (λ e. IsPlainSuperclass a.entry.program.now.classes class e) }
{
    let Some(info) = class_info(a.program.core(), class) else {
        return None;
    };
    let Some(superclass) = &info.superclass else {
        return None;
    };
    let TypeRef::Class(above, arguments) = superclass else {
        return None;
    };
    if arguments.len() != 0 {
        return None;
    }
    Some(above.0)
}

/// Whether a class is another one, or so many superclasses below it at most, where each on the way is given without type arguments.
/// `false` says nothing.
fn reaches(a: Around, class: u32, wanted: u32, levels: u32) -> bool
    ensures { result ≡ true → IsReached a.entry.program.now.classes class wanted levels }
{
    if class == wanted {
        return true;
    }
    if levels == 0 {
        return false;
    }
    match plain_superclass(a, class) {
        None => false,
        Some(above) => reaches(a, above, wanted, levels - 1),
    }
}

/// Whether a class without type arguments is below a type by its superclasses, or the type is `dynamic`. `false` says nothing.
#[inline(always)]
fn is_of(a: Around, class: u32, wanted: &TypeRef) -> bool
    ensures given { result ≡ true → (args : List Ty) → spec.is_of_type (checking_of a.entry) (of class []) (instance (of_list args) (ty wanted.now)) ≡ true }
    ensures alone { result ≡ true → spec.is_of_type (checking_of a.entry) (of class []) (ty wanted.now) ≡ true }
{
    match wanted {
        TypeRef::Dynamic => is_plain(a, class),
        TypeRef::Class(other, arguments) => {
            if arguments.len() != 0 {
                return false;
            }
            if !is_plain(a, class) || !is_plain(a, other.0) {
                return false;
            }
            reaches(a, class, other.0, LEVELS)
        }
        _ => false,
    }
}

/// Whether a value surely is null or of a type in which no type parameter stands. `false` says nothing.
pub fn surely_is(run: &Run, a: Around, value: Value, wanted: &TypeRef) -> bool
    ensures { result ≡ true → spec.is_of_type (checking_of a.entry) (head_of (setting_of a.entry) run.now.store value) (ty wanted.now) ≡ true }
{
    if let Value::Null = value {
        return true;
    }
    match plain_class(run, a, value) {
        None => false,
        Some(class) => is_of(a, class, wanted),
    }
}

/// Whether a value surely has the type that a site asks for, where it asks for one. `false` says nothing.
#[inline(always)]
fn surely_has_type(run: &Run, a: Around, required: &Option<TypeRef>, value: Value) -> bool
    ensures { result ≡ true → (args : List Ty) → spec.passes_type (checking_of a.entry) (p.ty_option required.now) (head_of (setting_of a.entry) run.now.store value) args ≡ true }
{
    let Some(wanted) = required else {
        return true;
    };
    if let Value::Null = value {
        return true;
    }
    match plain_class(run, a, value) {
        None => has_type(run, a, value, wanted),
        Some(class) => is_of(a, class, wanted),
    }
}

/// Whether a value surely passes the check of a site. `false` says nothing.
#[inline(always)]
pub fn surely_passes(run: &Run, a: Around, site: &Site, value: Value) -> bool
    ensures { result ≡ true → (args : List Ty) → spec.passes_kind (checking_of a.entry) site.now.kind (p.ty_option site.now.required) (head_of (setting_of a.entry) run.now.store value) args ≡ true }
{
    match site.kind {
        SiteKind::VarInit => surely_has_type(run, a, &site.required, value),
        SiteKind::Assign => surely_has_type(run, a, &site.required, value),
        SiteKind::FieldStore => surely_has_type(run, a, &site.required, value),
        SiteKind::FieldInit => surely_has_type(run, a, &site.required, value),
        SiteKind::Param => surely_has_type(run, a, &site.required, value),
        SiteKind::Return => surely_has_type(run, a, &site.required, value),
        SiteKind::Element => surely_has_type(run, a, &site.required, value),
        SiteKind::Condition => is_boolean(value),
        SiteKind::NullCondition => is_boolean(value),
        SiteKind::Bound => false,
        SiteKind::SwitchClass => false,
    }
}

/// Whether a value is a boolean.
#[inline(always)]
fn is_boolean(value: Value) -> bool
    ensures { result ≡ true → (a : AroundOf) → (h : Heap) → head_of (setting_of a) h value ≡ of a.setup.now.known.bool_class.0 [] }
{
    match value {
        Value::Bool(_) => true,
        _ => false,
    }
}

/// Whether a value surely goes on from a site: in production each does. `false` says nothing.
#[inline(always)]
pub fn admits(run: &Run, a: Around, number: u32, value: Value) -> bool
    ensures { result ≡ true → IsAdmitted a.entry run.now.store number value }
{
    match a.setup.annotated {
        None => true,
        Some(program) => admits_by(run, a, program, number, value),
    }
}

/// The site of a number.
#[inline(always)]
pub fn site_at<'a>(program: &'a CoreProgram, number: u32) -> Option<&'a Site>
    ensures { MatchOption result (site_at (p.program program.now) number ≡ None)
        (λ x. site_at (p.program program.now) number ≡ Some (p.site x.now)) }
{
    program.sites.get(number as usize)
}

/// Whether every value goes on from a site: in production, or where the site asks for nothing. `false` says nothing.
#[inline(always)]
pub fn admits_all(a: Around, number: u32) -> bool
    ensures { result ≡ true → (h : Heap) → (v : ValueOf) → IsAdmitted a.entry h number v }
{
    match a.setup.annotated {
        None => true,
        Some(program) => admits_all_by(a, program, number),
    }
}

/// The same in checked mode.
fn admits_all_by<'a>(a: Around<'a>, program: &'a CoreProgram, number: u32) -> bool
    requires checked { a.setup.now.annotated ≡ Some program }
    ensures { result ≡ true → (h : Heap) → (v : ValueOf) → IsAdmitted a.entry h number v }
{
    match site_at(program, number) {
        None => true,
        Some(site) => asks_nothing(site),
    }
}

/// Whether every value passes the check of a site.
#[inline(always)]
fn asks_nothing(site: &Site) -> bool
    ensures { result ≡ true → (c : spec.Checking) → (head : HeadTy) → (args : List Ty) → spec.passes_kind c site.now.kind (p.ty_option site.now.required) head args ≡ true }
{
    if site.required.is_some() {
        return false;
    }
    match site.kind {
        SiteKind::VarInit => true,
        SiteKind::Assign => true,
        SiteKind::FieldStore => true,
        SiteKind::FieldInit => true,
        SiteKind::Param => true,
        SiteKind::Return => true,
        SiteKind::Element => true,
        SiteKind::Condition => false,
        SiteKind::NullCondition => false,
        SiteKind::Bound => false,
        SiteKind::SwitchClass => false,
    }
}

/// Whether a value surely goes on from a site in checked mode. `false` says nothing.
fn admits_by<'a>(
    run: &Run,
    a: Around<'a>,
    program: &'a CoreProgram,
    number: u32,
    value: Value,
) -> bool
    requires checked { a.setup.now.annotated ≡ Some program }
    ensures { result ≡ true → IsAdmitted a.entry run.now.store number value }
{
    match site_at(program, number) {
        None => true,
        Some(site) => surely_passes(run, a, site, value),
    }
}
