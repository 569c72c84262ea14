// Type arguments in scope that stand in an object, which takes no memory to see (ECMA-408, 14 Generics).

ghost use Rattle.std.specs.Prelude.{◌≡◌, Some, true, length, map, slice_get, IfSome};
ghost use Rattle.dart_ir.specs.Ty.{ty, parameter};
ghost use Rattle.core_program.specs.ProgramView as p;
ghost use Rattle.evaluation.specs.Checks as spec;
ghost use Rattle.evaluation.specs.State.{now};
ghost use Rattle.evaluation.specs.Values.{receiver_arguments, arguments_here, head_of};
ghost use Rattle.machine_frame.specs.Outside.{checking_of, setting_of};
ghost use Rattle.machine_frame.specs.Frames.{seen};

use core_program::program::{FunctionKind, Site};
use dart_ir::kind::SiteKind;
use dart_ir::types::TypeRef;
use dart_ir::value::Value;
use machine_frame::around::Around;
use machine_frame::run::{Run, Source};
use machine_frame::same::typed_object;
use machine_frame::sites::surely_is;
use machine_lookup::program::{class_of_function, function_at};

/// How many classes the program lists.
#[inline(always)]
fn class_count(a: Around) -> usize
    ensures { result ≡ length (p.program a.entry.program.now).classes }
{
    a.program.core().classes.classes.len()
}

/// The type arguments that `this` has at its own class, which declares the member. `None` says nothing.
#[tactic(auto, using(crate::proofs::Supertypes::own_arguments))]
fn own_arguments<'b>(run: &'b Run, a: Around, class: u32) -> Option<&'b [TypeRef]>
    ensures { IfSome result (λ found. map ty found.now ≡ receiver_arguments (setting_of a.entry) run.now.store run.now.body.this run.now.body.owner (Some class)) }
{
    if run.body.owner != class || class_count(a) == 0 {
        return None;
    }
    let Value::At(r) = run.body.this else {
        return None;
    };
    let Some(object) = run.store.get(r) else {
        return None;
    };
    let Some((of, arguments)) = typed_object(a, object) else {
        return None;
    };
    if of == class { Some(arguments) } else { None }
}

/// The type arguments in scope, where they are those of `this` at its own class. `None` says nothing.
fn arguments_in_place<'b>(run: &'b Run, a: Around) -> Option<&'b [TypeRef]>
    ensures { IfSome result (λ found. map ty found.now ≡ arguments_here (setting_of a.entry) (now (seen run.now))) }
{
    let Source::Function(f) = run.body.source else {
        return None;
    };
    let Some(function) = function_at(a.program.core(), f) else {
        return None;
    };
    let Some(class) = class_of_function(a.program.core(), f) else {
        return None;
    };
    match function.kind {
        FunctionKind::Plain => own_arguments(run, a, class),
        FunctionKind::Generative => own_arguments(run, a, class),
        FunctionKind::Inner => None,
        FunctionKind::Factory => None,
        FunctionKind::Absent => None,
    }
}

/// The type parameter that a site asks for. `None` says nothing.
#[tactic(auto, using(dart_ir::proofs::View::views))]
#[inline(always)]
fn parameter_of(required: &Option<TypeRef>) -> Option<u32>
    ensures { IfSome result (λ i. p.ty_option required.now ≡ Some (parameter i)) }
{
    match required {
        Some(TypeRef::Param(index)) => Some(*index),
        _ => None,
    }
}

/// The type argument with the number.
#[inline(always)]
fn argument_at<'b>(arguments: &'b [TypeRef], index: u32) -> Option<&'b TypeRef>
    ensures { IfSome result (λ of. slice_get arguments.now index ≡ Some of.now) }
{
    arguments.get(index as usize)
}

/// Whether a value surely has the type argument in scope that a site asks for. `false` says nothing.
fn surely_has_argument(run: &Run, a: Around, required: &Option<TypeRef>, value: Value) -> bool
    ensures { result ≡ true → spec.passes_type (checking_of a.entry) (p.ty_option required.now) (head_of (setting_of a.entry) run.now.store value) (arguments_here (setting_of a.entry) (now (seen run.now))) ≡ true }
{
    let Some(index) = parameter_of(required) else {
        return false;
    };
    let Some(arguments) = arguments_in_place(run, a) else {
        return false;
    };
    match argument_at(arguments, index) {
        None => false,
        Some(wanted) => surely_is(run, a, value, wanted),
    }
}

/// Whether a value surely passes the check of a site that asks for a type argument in scope. `false` says nothing.
pub fn surely_passes_here(run: &Run, a: Around, site: &Site, value: Value) -> bool
    ensures { result ≡ true → spec.passes_kind (checking_of a.entry) site.now.kind (p.ty_option site.now.required) (head_of (setting_of a.entry) run.now.store value) (arguments_here (setting_of a.entry) (now (seen run.now))) ≡ true }
{
    match site.kind {
        SiteKind::VarInit => surely_has_argument(run, a, &site.required, value),
        SiteKind::Assign => surely_has_argument(run, a, &site.required, value),
        SiteKind::FieldStore => surely_has_argument(run, a, &site.required, value),
        SiteKind::FieldInit => surely_has_argument(run, a, &site.required, value),
        SiteKind::Param => surely_has_argument(run, a, &site.required, value),
        SiteKind::Return => surely_has_argument(run, a, &site.required, value),
        SiteKind::Element => surely_has_argument(run, a, &site.required, value),
        SiteKind::Condition => false,
        SiteKind::NullCondition => false,
        SiteKind::Bound => false,
        SiteKind::SwitchClass => false,
    }
}
