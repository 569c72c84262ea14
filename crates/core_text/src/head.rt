// What the line of a form says of the form itself.
ghost use Rattle.std.specs.Prelude.{◌≡◌, ◌++◌, map};
ghost use Rattle.core_program.specs.ProgramView as view;
ghost use Rattle.core_program.specs.View as v;
ghost use Rattle.dart_ir.specs.Ty.{ty, tys};
ghost use Rattle.core_text.specs.Line.{Adds};
ghost use Rattle.core_text.specs.Head as spec;
ghost use Rattle.core_text.specs.Line as line;

use crate::line::{push_after_blank, push_counted, push_numbers, push_place, push_text, push_word};
use crate::name::{
    class_name, function_name, name_text, owner_name, push_function, push_names, push_static,
};
use crate::types::{push_type, push_type_arguments};
use crate::value::push_value;
use core_program::form::{Arguments, Binary, Form, Job, Leaf, Unary, Way};
use core_program::program::{CoreProgram, Site};
use dart_base::bytes::Bytes;
use dart_base::name::Name;
use dart_ir::class::Role;
use dart_ir::kind::ThrowKind;
use dart_ir::native::NativeId;
use dart_ir::number::{ClassId, DeclId, SiteId};
use dart_ir::types::{TypeRef, Types};
use native_name::name::{class_text, member_text};
use std::alloc::{AllocError, Global};

/// The name of the class of an error or exception.
fn error_text(error: ThrowKind) -> &'static [u8]
    ensures { result.now ≡ spec.error_text error }
{
    match error {
        ThrowKind::Exception => b"Exception",
        ThrowKind::Error => b"Error",
        ThrowKind::ArgumentError => b"ArgumentError",
        ThrowKind::RangeError => b"RangeError",
        ThrowKind::StateError => b"StateError",
        ThrowKind::UnsupportedError => b"UnsupportedError",
        ThrowKind::NoSuchMethodError => b"NoSuchMethodError",
        ThrowKind::CastError => b"CastError",
        ThrowKind::TypeError => b"TypeError",
        ThrowKind::NullThrownError => b"NullThrownError",
        ThrowKind::FallThroughError => b"FallThroughError",
        ThrowKind::CyclicInitializationError => b"CyclicInitializationError",
        ThrowKind::AbstractClassInstantiationError => b"AbstractClassInstantiationError",
        ThrowKind::MalformedTypeError => b"MalformedTypeError",
        ThrowKind::FormatException => b"FormatException",
        ThrowKind::IntegerDivisionByZeroException => b"IntegerDivisionByZeroException",
    }
}

/// What the name of a setter ends in.
fn setter_sign(is_setter: bool) -> &'static [u8]
    ensures { result.now ≡ spec.setter_sign is_setter }
{
    if is_setter { b"=" } else { b"" }
}

/// Adds an error that is thrown, and its message.
fn push_raise(
    bytes: &mut Bytes,
    error: ThrowKind,
    message: &[u8],
    is_setter: bool,
) -> Result<(), AllocError>
    ensures { Adds result bytes.old bytes.new (spec.raise error message.now is_setter) }
{
    push_text(bytes, b"raise ")?;
    push_text(bytes, error_text(error))?;
    push_word(bytes, message)?;
    push_text(bytes, setter_sign(is_setter))
}

/// Adds a jump and its target.
fn push_jump(alloc: Global, bytes: &mut Bytes, way: Way, target: u32) -> Result<(), AllocError>
    ensures { Adds result bytes.old bytes.new (spec.jump way target) }
{
    match way {
        Way::Break => push_counted(alloc, bytes, b"break", target),
        Way::Continue => push_counted(alloc, bytes, b"continue", target),
        Way::Case(case) => {
            push_text(bytes, b"continue")?;
            push_after_blank(alloc, bytes, target)?;
            push_counted(alloc, bytes, b" case", case)
        }
    }
}

/// Adds a form without parts.
fn push_leaf(
    alloc: Global,
    bytes: &mut Bytes,
    program: &CoreProgram,
    leaf: Leaf,
) -> Result<(), AllocError>
    ensures { Adds result bytes.old bytes.new (spec.leaf program.now (v.leaf leaf)) }
{
    match leaf {
        Leaf::Const(value) => {
            push_text(bytes, b"const ")?;
            push_value(alloc, bytes, program, value)
        }
        Leaf::This => push_text(bytes, b"this"),
        Leaf::Read(var) => push_counted(alloc, bytes, b"read", var),
        Leaf::StaticRead(variable) => {
            push_text(bytes, b"static-read ")?;
            push_static(alloc, bytes, program, variable)
        }
        Leaf::Field(index) => push_counted(alloc, bytes, b"field", index),
        Leaf::Closure(function) => {
            push_text(bytes, b"function ")?;
            push_function(alloc, bytes, program, function)
        }
        Leaf::Jump(way, target) => push_jump(alloc, bytes, way, target),
        Leaf::Rethrow => push_text(bytes, b"rethrow"),
        Leaf::Raise {
            error,
            name,
            is_setter,
        } => push_raise(bytes, error, name_text(program, name), is_setter),
    }
}

/// Adds a type behind a blank, where there is one.
fn push_asked(
    alloc: Global,
    bytes: &mut Bytes,
    program: &CoreProgram,
    of: &Option<TypeRef>,
) -> Result<(), AllocError>
    ensures { Adds result bytes.old bytes.new (spec.asked program.now (view.ty_option of.now)) }
{
    match of {
        None => Ok(()),
        Some(of) => {
            push_text(bytes, b" ")?;
            push_type(alloc, bytes, program, of)
        }
    }
}

/// What is said of a type that an annotation wrote.
fn mark(annotated: bool) -> &'static [u8]
    ensures { result.now ≡ spec.mark annotated }
{
    if annotated { b" annotated" } else { b"" }
}

/// Adds the type that a site asks for, and whether an annotation wrote it.
fn push_required(
    alloc: Global,
    bytes: &mut Bytes,
    program: &CoreProgram,
    site: &Site,
) -> Result<(), AllocError>
    ensures { Adds result bytes.old bytes.new (spec.required program.now (view.site site.now)) }
{
    push_asked(alloc, bytes, program, &site.required)?;
    push_text(bytes, mark(site.annotated))
}

/// Adds the kind of a site, its place, and the type that it asks for.
fn push_site_text(
    alloc: Global,
    bytes: &mut Bytes,
    program: &CoreProgram,
    site: &Site,
) -> Result<(), AllocError>
    ensures { Adds result bytes.old bytes.new (spec.site_text program.now site.now) }
{
    push_text(bytes, b" ")?;
    push_text(bytes, site.kind.text())?;
    push_text(bytes, b" ")?;
    push_place(alloc, bytes, program, site.place)?;
    push_required(alloc, bytes, program, site)
}

/// Adds what is said of the site with this number.
pub fn push_site(
    alloc: Global,
    bytes: &mut Bytes,
    program: &CoreProgram,
    site: SiteId,
) -> Result<(), AllocError>
    ensures { Adds result bytes.old bytes.new (spec.site program.now site.0) }
{
    match program.sites.get(site.0 as usize) {
        None => Ok(()),
        Some(site) => push_site_text(alloc, bytes, program, site),
    }
}

/// Adds what is done with one operand.
fn push_unary(
    alloc: Global,
    bytes: &mut Bytes,
    program: &CoreProgram,
    unary: Unary,
) -> Result<(), AllocError>
    ensures { Adds result bytes.old bytes.new (spec.unary program.now (v.unary unary)) }
{
    match unary {
        Unary::Var(var) => push_counted(alloc, bytes, b"var", var),
        Unary::Write(var) => push_counted(alloc, bytes, b"write", var),
        Unary::StaticWrite(variable) => {
            push_text(bytes, b"static-write ")?;
            push_static(alloc, bytes, program, variable)
        }
        Unary::FieldWrite(index) => push_counted(alloc, bytes, b"field-write", index),
        Unary::Get(name) => {
            push_text(bytes, b"get ")?;
            push_text(bytes, name_text(program, name))
        }
        Unary::Check(site) => {
            push_text(bytes, b"check")?;
            push_site(alloc, bytes, program, site)
        }
        Unary::Throw => push_text(bytes, b"throw"),
    }
}

/// Adds what is done with two operands.
fn push_binary(bytes: &mut Bytes, program: &CoreProgram, binary: Binary) -> Result<(), AllocError>
    ensures { Adds result bytes.old bytes.new (spec.binary program.now (v.binary binary)) }
{
    match binary {
        Binary::Equal => push_text(bytes, b"equal"),
        Binary::Set(name) => {
            push_text(bytes, b"set ")?;
            push_text(bytes, name_text(program, name))
        }
    }
}

/// What a member is called as.
fn role_text(role: Role) -> &'static [u8]
    ensures { result.now ≡ spec.role_text role }
{
    match role {
        Role::Method => b"method",
        Role::Getter => b"getter",
        Role::Setter => b"setter",
    }
}

/// Adds a text and two words.
fn push_words(bytes: &mut Bytes, text: &[u8], first: &[u8], second: &[u8]) -> Result<(), AllocError>
    ensures { Adds result bytes.old bytes.new (text.now ++ (line.word first.now ++ line.word second.now)) }
{
    push_text(bytes, text)?;
    push_word(bytes, first)?;
    push_word(bytes, second)
}

/// Adds a member of the superclass.
fn push_super(bytes: &mut Bytes, role: Role, name: &[u8]) -> Result<(), AllocError>
    ensures { Adds result bytes.old bytes.new (spec.super_member role name.now) }
{
    push_text(bytes, b"super ")?;
    push_text(bytes, role_text(role))?;
    push_word(bytes, name)
}

/// Adds a native, with the class that declares it.
fn push_native(bytes: &mut Bytes, native: NativeId) -> Result<(), AllocError>
    ensures { Adds result bytes.old bytes.new (spec.native native) }
{
    push_words(bytes, b"native", class_text(native), member_text(native))
}

/// Adds a constructor that goes on with `this`.
fn push_super_new(
    bytes: &mut Bytes,
    program: &CoreProgram,
    constructor: DeclId,
) -> Result<(), AllocError>
    ensures { Adds result bytes.old bytes.new (spec.super_new program.now constructor.0) }
{
    push_words(
        bytes,
        b"super-new",
        owner_name(program, constructor),
        function_name(program, constructor),
    )
}

/// Adds what is done with a row of operands.
fn push_job(
    alloc: Global,
    bytes: &mut Bytes,
    program: &CoreProgram,
    job: Job,
) -> Result<(), AllocError>
    ensures { Adds result bytes.old bytes.new (spec.job program.now (v.job job)) }
{
    match job {
        Job::Send(name) => {
            push_text(bytes, b"send ")?;
            push_text(bytes, name_text(program, name))
        }
        Job::Super(role, name) => push_super(bytes, role, name_text(program, name)),
        Job::Call(function) => {
            push_text(bytes, b"call ")?;
            push_function(alloc, bytes, program, function)
        }
        Job::Apply => push_text(bytes, b"apply"),
        Job::SuperNew(constructor) => push_super_new(bytes, program, constructor),
        Job::Join => push_text(bytes, b"join"),
        Job::Native(native) => push_native(bytes, native),
    }
}

/// Adds the names of the last operands, if any go by name.
fn push_named(bytes: &mut Bytes, program: &CoreProgram, names: &[Name]) -> Result<(), AllocError>
    ensures { Adds result bytes.old bytes.new (spec.named program.now (v.names names.now)) }
{
    match names {
        [] => Ok(()),
        [_, ..] => {
            push_text(bytes, b" named")?;
            push_names(bytes, program, names)
        }
    }
}

/// Adds what is done with a row of operands, and the names of the last of them.
#[tactic(auto, using(core_program::proofs::Views::views))]
fn push_row(
    alloc: Global,
    bytes: &mut Bytes,
    program: &CoreProgram,
    job: Job,
    arguments: &Arguments,
) -> Result<(), AllocError>
    ensures { Adds result bytes.old bytes.new (spec.row program.now (v.job job) (v.arguments arguments.now).1) }
{
    push_job(alloc, bytes, program, job)?;
    push_named(bytes, program, &arguments.names)
}

/// Adds what is made, and by which constructor.
#[tactic(auto, using(core_program::proofs::Views::views))]
fn push_new(
    alloc: Global,
    bytes: &mut Bytes,
    program: &CoreProgram,
    class: ClassId,
    constructor: DeclId,
    types: &Types,
    arguments: &Arguments,
) -> Result<(), AllocError>
    ensures { Adds result bytes.old bytes.new (spec.new_object program.now class.0 constructor.0 (map ty types.now.items) (v.arguments arguments.now).1) }
{
    push_text(bytes, b"new ")?;
    push_text(bytes, class_name(program, class))?;
    push_type_arguments(alloc, bytes, program, types)?;
    push_word(bytes, function_name(program, constructor))?;
    push_named(bytes, program, &arguments.names)
}

/// Adds a text and a type.
pub fn push_typed(
    alloc: Global,
    bytes: &mut Bytes,
    program: &CoreProgram,
    text: &[u8],
    of: &TypeRef,
) -> Result<(), AllocError>
    ensures { Adds result bytes.old bytes.new (spec.typed program.now text.now (ty of.now)) }
{
    push_text(bytes, text)?;
    push_type(alloc, bytes, program, of)
}

/// Adds a list with its type arguments.
fn push_list(
    alloc: Global,
    bytes: &mut Bytes,
    program: &CoreProgram,
    types: &Types,
) -> Result<(), AllocError>
    ensures { Adds result bytes.old bytes.new (spec.list program.now (map ty types.now.items)) }
{
    push_text(bytes, b"list")?;
    push_type_arguments(alloc, bytes, program, types)
}

/// Adds a loop: its number as a target, and the variables that are copied.
fn push_loop(
    alloc: Global,
    bytes: &mut Bytes,
    target: u32,
    copies: &[u32],
) -> Result<(), AllocError>
    ensures { Adds result bytes.old bytes.new (spec.loop target copies.now) }
{
    push_counted(alloc, bytes, b"loop", target)?;
    push_text(bytes, b" copies")?;
    push_numbers(alloc, bytes, copies)
}

/// Adds what the line of a form says, without its place.
#[tactic(auto, using(core_program::proofs::Views::views))]
pub fn push_head(
    alloc: Global,
    bytes: &mut Bytes,
    program: &CoreProgram,
    form: &Form,
) -> Result<(), AllocError>
    ensures { Adds result bytes.old bytes.new (spec.head program.now (v.form form.now)) }
{
    match form {
        Form::Leaf(leaf) => push_leaf(alloc, bytes, program, *leaf),
        Form::TypeLiteral(of) => push_typed(alloc, bytes, program, b"type ", of),
        Form::Unary(unary, _) => push_unary(alloc, bytes, program, *unary),
        Form::Binary(binary, _, _) => push_binary(bytes, program, *binary),
        Form::Row(job, arguments) => push_row(alloc, bytes, program, *job, arguments),
        Form::Let { var, .. } => push_counted(alloc, bytes, b"let", *var),
        Form::Block(_) => push_text(bytes, b"block"),
        Form::If { .. } => push_text(bytes, b"if"),
        Form::New {
            class,
            constructor,
            types,
            arguments,
        } => push_new(
            alloc,
            bytes,
            program,
            *class,
            *constructor,
            types,
            arguments,
        ),
        Form::List { types, .. } => push_list(alloc, bytes, program, types),
        Form::Is(_, of) => push_typed(alloc, bytes, program, b"is ", of),
        Form::As(_, of) => push_typed(alloc, bytes, program, b"as ", of),
        Form::Loop { target, copies, .. } => push_loop(alloc, bytes, *target, copies),
        Form::Return(_) => push_text(bytes, b"return"),
        Form::Try(_) => push_text(bytes, b"try"),
        Form::Switch { target, .. } => push_counted(alloc, bytes, b"switch", *target),
        Form::Labelled(target, _) => push_counted(alloc, bytes, b"labelled", *target),
    }
}
