// Values that come to sites: which pass their checks, and what follows one that doesn't (ECMA-408, 19 Types; checked mode).
ghost use Rattle.std.specs.Prelude.{◌≡◌, ◌<◌, ◌+◌, ◌∷◌, ◌++◌, [], Some, None, true, false, map, IfOk, IfSome, MatchOption};
ghost use Rattle.dart_ir.specs.Ty.{ty, of_list};
ghost use Rattle.dart_ir.specs.Classes.{IsValid};
ghost use Rattle.dart_ir.specs.Object.{head_ty};
ghost use Rattle.dart_ir.specs.declared.ending.Line.{Line as LineOf};
ghost use Rattle.dart_ir.specs.declared.value.Value.{Value as ValueOf};
ghost use Rattle.core_program.specs.ProgramView as p;
ghost use Rattle.evaluation.specs.Checks as spec;
ghost use Rattle.evaluation.specs.Checks.{report_line};
ghost use Rattle.evaluation.specs.Classes.{site_at, function_at, class_at};
ghost use Rattle.evaluation.specs.Evaluation.{site};
ghost use Rattle.evaluation.specs.Sequence.{on_answer};
ghost use Rattle.evaluation.specs.State.{now, answer, ends, Outcome, Completion, World, Meaning};
ghost use Rattle.evaluation.specs.Values.{head_of, arguments_here};
ghost use Rattle.machine_frame.specs.declared.around.Around.{Around as AroundOf};
ghost use Rattle.machine_frame.specs.Outside.{checking_of, setting_of, world_in};
ghost use Rattle.machine_frame.specs.Frames.{seen, mute, going, does, room, work};

use crate::errors::throw_new;
use crate::heads::head_of;
use crate::scope::surely_passes_here;
use crate::types::{arguments_here, instance};
use core_program::program::{CoreProgram, Site};
use dart_ir::ending::Line;
use dart_ir::kind::{SiteKind, ThrowKind};
use dart_ir::number::{ClassId, SiteId};
use dart_ir::object::Head;
use dart_ir::types::{TypeRef, try_clone_types};
use dart_ir::value::Value;
use machine_frame::around::{Around, Fault};
use machine_frame::moves::answer;
use machine_frame::run::{Control, Run};
use machine_frame::sites::surely_passes;
use machine_lookup::program::{class_at, function_at};
use std::alloc::Global;
use type_test::subtype::is_subtype;

/// Whether a type is a subtype of another, over the classes of the program that runs.
fn is_below(alloc: Global, a: Around, of: &TypeRef, wanted: &TypeRef) -> Result<bool, Fault>
    requires valid { IsValid a.program.now.classes }
    ensures { IfOk result (λ holds. holds ≡ (checking_of a.entry).is_subtype (ty of.now) (ty wanted.now)) }
{
    let holds = is_subtype(alloc, &a.program.core().classes, of, wanted)?;
    Ok(holds)
}

/// Whether a type argument keeps its bound, in which all of them are put in.
fn keeps_bound(
    alloc: Global,
    a: Around,
    all: &[TypeRef],
    one: &TypeRef,
    bound: &Option<TypeRef>,
) -> Result<bool, Fault>
    requires valid { IsValid a.program.now.classes }
    ensures { IfOk result (λ keeps. keeps ≡ spec.keeps_bound (checking_of a.entry) (map ty all.now) (ty one.now) (p.ty_option bound.now)) }
{
    match bound {
        None => Ok(true),
        Some(bound) => {
            let wanted = instance(alloc, bound, all)?;
            is_below(alloc, a, one, &wanted)
        }
    }
}

/// Whether type arguments keep their bounds.
fn keep_bounds(
    alloc: Global,
    a: Around,
    all: &[TypeRef],
    types: &[TypeRef],
    bounds: &[Option<TypeRef>],
) -> Result<bool, Fault>
    requires valid { IsValid a.program.now.classes }
    ensures { IfOk result (λ keep. keep ≡ spec.keep_bounds (checking_of a.entry) (map ty all.now) (map ty types.now) (map p.ty_option bounds.now)) }
{
    let Some((one, rest)) = types.split_first() else {
        return Ok(true);
    };
    let Some((bound, others)) = bounds.split_first() else {
        return Ok(true);
    };
    if !keeps_bound(alloc, a, all, one, bound)? {
        return Ok(false);
    }
    keep_bounds(alloc, a, all, rest, others)
}

/// Whether the type arguments in a type keep the bounds of its class.
#[tactic(auto, using(dart_ir::proofs::View::views, crate::proofs::Supertypes::listed))]
fn within_bounds(
    alloc: Global,
    a: Around,
    program: &CoreProgram,
    of: &TypeRef,
) -> Result<bool, Fault>
    requires valid { IsValid a.program.now.classes }
    requires checked { (checking_of a).program ≡ p.program program.now }
    ensures { IfOk result (λ within. within ≡ spec.within_bounds (checking_of a.entry) (ty of.now)) }
{
    match of {
        TypeRef::Class(class, arguments) => match class_at(program, class.0) {
            None => Ok(true),
            Some(info) => keep_bounds(alloc, a, arguments, arguments, info.bounds.as_slice()),
        },
        TypeRef::Dynamic => Ok(true),
        TypeRef::Bottom => Ok(true),
        TypeRef::Void => Ok(true),
        TypeRef::Param(_) => Ok(true),
        TypeRef::Function(_) => Ok(true),
    }
}

/// Whether the type arguments that a `new` asks for keep their bounds (ECMA-408, 14 Generics).
fn passes_bounds(
    run: &Run,
    a: Around,
    program: &CoreProgram,
    required: &Option<TypeRef>,
) -> Result<bool, Fault>
    requires valid { IsValid a.program.now.classes }
    requires checked { (checking_of a).program ≡ p.program program.now }
    ensures { IfOk result (λ passes. passes ≡ spec.passes_bounds (checking_of a.entry) (p.ty_option required.now) (arguments_here (setting_of a.entry) (now (seen run.now)))) }
{
    let Some(of) = required else {
        return Ok(true);
    };
    let arguments = arguments_here(run, a)?;
    let made = instance(run.alloc, of, arguments.as_slice())?;
    within_bounds(run.alloc, a, program, &made)
}

/// The type of a value that isn't null. That of a function value is its signature, with the type arguments put in.
#[tactic(auto, using(dart_ir::proofs::View::views))]
fn head_type(alloc: Global, program: &CoreProgram, head: &Head) -> Result<TypeRef, Fault>
    ensures { IfOk result (λ of. ty of ≡ spec.head_type (p.program program.now) (head_ty head.now)) }
{
    match head {
        Head::Null => Ok(TypeRef::Dynamic),
        Head::Of(class, arguments) => {
            let copies = try_clone_types(alloc, arguments)?;
            Ok(TypeRef::Class(*class, copies))
        }
        Head::Function(f, arguments) => {
            let signature = signature_of(alloc, program, f.0)?;
            instance(alloc, &signature, arguments.as_slice())
        }
    }
}

/// The signature of a function.
#[tactic(auto, using(dart_ir::proofs::View::views))]
fn signature_of(alloc: Global, program: &CoreProgram, f: u32) -> Result<TypeRef, Fault>
    ensures { IfOk result (λ of. ty of ≡ spec.signature_of (function_at (p.program program.now) f)) }
{
    match function_at(program, f) {
        None => Ok(TypeRef::Dynamic),
        Some(function) => {
            let copy = function.signature.try_clone(alloc)?;
            match Box::new(alloc, copy) {
                Ok(signature) => Ok(TypeRef::Function(signature)),
                Err(_) => Err(Fault::Memory),
            }
        }
    }
}

/// Whether a value is null, or of a type.
fn is_of_type(
    alloc: Global,
    a: Around,
    program: &CoreProgram,
    head: &Head,
    wanted: &TypeRef,
) -> Result<bool, Fault>
    requires valid { IsValid a.program.now.classes }
    requires checked { (checking_of a).program ≡ p.program program.now }
    ensures { IfOk result (λ holds. holds ≡ spec.is_of_type (checking_of a.entry) (head_ty head.now) (ty wanted.now)) }
{
    if !is_there(head) {
        return Ok(true);
    }
    let of = head_type(alloc, program, head)?;
    is_below(alloc, a, &of, wanted)
}

/// Whether a value is of the type that a site asks for, where it asks for one.
fn passes_type(
    run: &Run,
    a: Around,
    program: &CoreProgram,
    required: &Option<TypeRef>,
    head: &Head,
) -> Result<bool, Fault>
    requires valid { IsValid a.program.now.classes }
    requires checked { (checking_of a).program ≡ p.program program.now }
    ensures { IfOk result (λ passes. passes ≡ spec.passes_type (checking_of a.entry) (p.ty_option required.now) (head_ty head.now) (arguments_here (setting_of a.entry) (now (seen run.now)))) }
{
    let Some(of) = required else {
        return Ok(true);
    };
    let arguments = arguments_here(run, a)?;
    let wanted = instance(run.alloc, of, arguments.as_slice())?;
    is_of_type(run.alloc, a, program, head, &wanted)
}

/// Whether a value is null or a boolean.
fn is_condition(bool_class: ClassId, head: &Head) -> bool
    ensures { (a : AroundOf) → a.setup.now.known.bool_class ≡ bool_class → result ≡ spec.is_condition (checking_of a) (head_ty head.now) }
{
    match head {
        Head::Null => true,
        Head::Of(class, _) => class.0 == bool_class.0,
        Head::Function(_, _) => false,
    }
}

/// Whether a value isn't null.
fn is_there(head: &Head) -> bool
    ensures { result ≡ spec.is_there (head_ty head.now) }
{
    match head {
        Head::Null => false,
        Head::Of(_, _) => true,
        Head::Function(_, _) => true,
    }
}

/// Whether a value is of the class of the cases of a switch, where there is a case.
#[tactic(auto, using(dart_ir::proofs::View::views))]
fn is_of_class(required: &Option<TypeRef>, head: &Head) -> bool
    ensures { result ≡ spec.is_of_class (p.ty_option required.now) (head_ty head.now) }
{
    match required {
        None => true,
        Some(TypeRef::Class(class, _)) => match head {
            Head::Null => false,
            Head::Of(other, _) => class.0 == other.0,
            Head::Function(_, _) => false,
        },
        Some(TypeRef::Dynamic) => false,
        Some(TypeRef::Bottom) => false,
        Some(TypeRef::Void) => false,
        Some(TypeRef::Param(_)) => false,
        Some(TypeRef::Function(_)) => false,
    }
}

/// Whether a value passes the check of a site.
fn passes_site(
    run: &Run,
    a: Around,
    program: &CoreProgram,
    site: &Site,
    value: Value,
) -> Result<bool, Fault>
    requires valid { IsValid a.program.now.classes }
    requires checked { (checking_of a).program ≡ p.program program.now }
    ensures { IfOk result (λ passes. passes ≡ spec.passes_kind (checking_of a.entry) site.now.kind (p.ty_option site.now.required) (head_of (setting_of a.entry) run.now.store value) (arguments_here (setting_of a.entry) (now (seen run.now)))) }
{
    if surely_passes(run, a, site, value) {
        return Ok(true);
    }
    if surely_passes_here(run, a, site, value) {
        return Ok(true);
    }
    let head = head_of(run, a, value)?;
    match site.kind {
        SiteKind::VarInit => passes_type(run, a, program, &site.required, &head),
        SiteKind::Assign => passes_type(run, a, program, &site.required, &head),
        SiteKind::FieldStore => passes_type(run, a, program, &site.required, &head),
        SiteKind::FieldInit => passes_type(run, a, program, &site.required, &head),
        SiteKind::Param => passes_type(run, a, program, &site.required, &head),
        SiteKind::Return => passes_type(run, a, program, &site.required, &head),
        SiteKind::Element => passes_type(run, a, program, &site.required, &head),
        SiteKind::Condition => Ok(is_condition(a.setup.known.bool_class, &head)),
        SiteKind::NullCondition => Ok(is_there(&head)),
        SiteKind::Bound => passes_bounds(run, a, program, &site.required),
        SiteKind::SwitchClass => Ok(is_of_class(&site.required, &head)),
    }
}

/// The site at which a value fails its check. `None` where it passes.
fn failed_site<'a>(
    run: &Run<'a>,
    a: Around<'a>,
    program: &'a CoreProgram,
    number: u32,
    value: Value,
) -> Result<Option<&'a Site>, Fault>
    requires valid { IsValid a.program.now.classes }
    requires checked { (checking_of a).program ≡ p.program program.now }
    ensures { IfOk result (λ found. MatchOption found
        (spec.passes (checking_of a.entry) number (head_of (setting_of a.entry) run.now.store value) (arguments_here (setting_of a.entry) (now (seen run.now))) ≡ true)
        (λ site. (spec.passes (checking_of a.entry) number (head_of (setting_of a.entry) run.now.store value) (arguments_here (setting_of a.entry) (now (seen run.now))) ≡ false)
        × (site_at (checking_of a.entry).program number ≡ Some (p.site site.now)))) }
{
    let Some(site) = program.sites.get(number as usize) else {
        return Ok(None);
    };
    if passes_site(run, a, program, site, value)? {
        Ok(None)
    } else {
        Ok(Some(site))
    }
}

/// Adds the report of a failed check to the output.
fn push_report(run: &mut Run, number: u32, kind: SiteKind) -> Result<(), Fault>
    ensures pushed { IfOk result (λ _. run.new.output.items ≡ run.old.output.items ++ LineOf.Report (record { 0 = number }) kind ∷ []) }
    ensures stays { IfOk result (λ _. run.new ≡ record run.old { output = run.new.output }) }
{
    match run.output.push(Line::Report(SiteId(number), kind)) {
        Ok(()) => Ok(()),
        Err(_) => Err(Fault::Memory),
    }
}

/// In checked mode a value that fails the check of its site is reported, and an error is thrown. `None` where it passes.
fn refusal_by<'a>(
    run: &mut Run<'a>,
    a: Around<'a>,
    program: &'a CoreProgram,
    number: u32,
    value: Value,
) -> Result<Option<Control<'a>>, Fault>
    requires valid { IsValid a.program.now.classes }
    requires checked { a.setup.now.annotated ≡ Some program }
    ensures passes { IfOk result (λ o. o ≡ None → (run.new ≡ run.old) × (mute (site (world_in a.entry run.old.depth) number value (seen run.old)) ≡ mute (ends (answer value) (seen run.old)))) }
    ensures refused { IfOk result (λ o. IfSome o (λ c. (go : World → ValueOf → Meaning) → going a.entry run.new c ≡ does a.entry run.old (λ w st. on_answer (go w) (site w number value st)))) }
    ensures less { IfOk result (λ o. IfSome o (λ c. work run.new c < room run.old + 6)) }
{
    let found = failed_site(run, a, program, number, value)?;
    let Some(site) = found else {
        return Ok(None);
    };
    push_report(run, number, site.kind)?;
    let control = throw_new(run, a, site.place, ThrowKind::TypeError)?;
    Ok(Some(control))
}

/// What follows where a value fails the check of a site. `None` where it passes, as in production each value does.
#[inline(always)]
pub fn refusal<'a>(
    run: &mut Run<'a>,
    a: Around<'a>,
    number: u32,
    value: Value,
) -> Result<Option<Control<'a>>, Fault>
    requires valid { IsValid a.program.now.classes }
    ensures passes { IfOk result (λ o. o ≡ None → (run.new ≡ run.old) × (mute (site (world_in a.entry run.old.depth) number value (seen run.old)) ≡ mute (ends (answer value) (seen run.old)))) }
    ensures refused { IfOk result (λ o. IfSome o (λ c. (go : World → ValueOf → Meaning) → going a.entry run.new c ≡ does a.entry run.old (λ w st. on_answer (go w) (site w number value st)))) }
    ensures less { IfOk result (λ o. IfSome o (λ c. work run.new c < room run.old + 6)) }
{
    match a.setup.annotated {
        None => Ok(None),
        Some(program) => refusal_by(run, a, program, number, value),
    }
}

/// A value comes to a site, and is the answer where it passes.
#[inline(always)]
pub fn check<'a>(
    run: &mut Run<'a>,
    a: Around<'a>,
    number: u32,
    value: Value,
) -> Result<Control<'a>, Fault>
    requires valid { IsValid a.program.now.classes }
    ensures meaning { IfOk result (λ c. going a.entry run.new c ≡ does a.entry run.old (λ w. site w number value)) }
    ensures less { IfOk result (λ c. work run.new c < room run.old + 6) }
{
    match refusal(run, a, number, value)? {
        None => Ok(answer(run, a, value)),
        Some(control) => Ok(control),
    }
}
