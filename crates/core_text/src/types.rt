// Types.
ghost use Rattle.std.specs.Prelude.{true};
ghost use Rattle.dart_ir.specs.Ty.{ty, tys, function_ty, named_ty, named_tys};
ghost use Rattle.core_text.specs.Line.{Adds};
ghost use Rattle.core_text.specs.Types as spec;

use crate::line::{push_number, push_text};
use crate::name::{class_name, name_text};
use core_program::program::CoreProgram;
use dart_base::bytes::Bytes;
use dart_ir::types::{FunctionType, NamedType, TypeRef};
use std::alloc::{AllocError, Global};

/// Adds a type. A type parameter is `#` and its number.
#[cycle(typing)]
#[tactic(auto, using(dart_ir::proofs::View::views))]
pub fn push_type(
    alloc: Global,
    bytes: &mut Bytes,
    program: &CoreProgram,
    of: &TypeRef,
) -> Result<(), AllocError>
    ensures { Adds result bytes.old bytes.new (spec.type_text program.now (ty of.now)) }
{
    match of {
        TypeRef::Dynamic => push_text(bytes, b"dynamic"),
        TypeRef::Bottom => push_text(bytes, b"bottom"),
        TypeRef::Void => push_text(bytes, b"void"),
        TypeRef::Class(class, types) => {
            push_text(bytes, class_name(program, *class))?;
            push_type_arguments(alloc, bytes, program, types)
        }
        TypeRef::Param(index) => {
            push_text(bytes, b"#")?;
            push_number(alloc, bytes, *index)
        }
        TypeRef::Function(function) => push_function_type(alloc, bytes, program, function),
    }
}

/// Adds type arguments, if there are any, as `<A, B>`.
#[cycle(typing)]
#[tactic(auto, using(dart_ir::proofs::View::views))]
pub fn push_type_arguments(
    alloc: Global,
    bytes: &mut Bytes,
    program: &CoreProgram,
    types: &Vec<TypeRef>,
) -> Result<(), AllocError>
    ensures { Adds result bytes.old bytes.new (spec.arguments program.now (tys types.now.items)) }
{
    match types.as_slice() {
        [] => Ok(()),
        [_, ..] => {
            push_text(bytes, b"<")?;
            push_types(alloc, bytes, program, types)?;
            push_text(bytes, b">")
        }
    }
}

/// Adds types, with commas between them.
#[cycle(typing)]
#[tactic(auto, using(dart_ir::proofs::View::views))]
fn push_types(
    alloc: Global,
    bytes: &mut Bytes,
    program: &CoreProgram,
    types: &Vec<TypeRef>,
) -> Result<(), AllocError>
    ensures { Adds result bytes.old bytes.new (spec.listed program.now true (tys types.now.items)) }
{
    let mut is_first = true;
    for one in types {
        if !is_first {
            push_text(bytes, b", ")?;
        }
        push_type(alloc, bytes, program, one)?;
        is_first = false;
    }
    Ok(())
}

/// Adds a function type, as `(A, B)[C]{n: D} -> R`; brackets without a type are left out.
#[cycle(typing)]
#[tactic(auto, using(dart_ir::proofs::View::views))]
pub fn push_function_type(
    alloc: Global,
    bytes: &mut Bytes,
    program: &CoreProgram,
    of: &FunctionType,
) -> Result<(), AllocError>
    ensures { Adds result bytes.old bytes.new (spec.type_text program.now (function_ty of.now)) }
{
    push_text(bytes, b"(")?;
    push_types(alloc, bytes, program, &of.required)?;
    push_text(bytes, b")")?;
    push_optional_types(alloc, bytes, program, &of.optional)?;
    push_named_types(alloc, bytes, program, &of.named)?;
    push_text(bytes, b" -> ")?;
    push_type(alloc, bytes, program, &of.result)
}

/// Adds the types of optional parameters in brackets, if there are any.
#[cycle(typing)]
#[tactic(auto, using(dart_ir::proofs::View::views))]
fn push_optional_types(
    alloc: Global,
    bytes: &mut Bytes,
    program: &CoreProgram,
    types: &Vec<TypeRef>,
) -> Result<(), AllocError>
    ensures { Adds result bytes.old bytes.new (spec.optionals program.now (tys types.now.items)) }
{
    match types.as_slice() {
        [] => Ok(()),
        [_, ..] => {
            push_text(bytes, b"[")?;
            push_types(alloc, bytes, program, types)?;
            push_text(bytes, b"]")
        }
    }
}

/// Adds the types of named parameters in braces, if there are any.
#[cycle(typing)]
#[tactic(auto, using(dart_ir::proofs::View::views))]
fn push_named_types(
    alloc: Global,
    bytes: &mut Bytes,
    program: &CoreProgram,
    named: &Vec<NamedType>,
) -> Result<(), AllocError>
    ensures { Adds result bytes.old bytes.new (spec.named_types program.now (named_tys named.now.items)) }
{
    match named.as_slice() {
        [] => Ok(()),
        [_, ..] => {
            push_text(bytes, b"{")?;
            push_entries(alloc, bytes, program, named)?;
            push_text(bytes, b"}")
        }
    }
}

/// Adds named types, with commas between them.
#[cycle(typing)]
#[tactic(auto, using(dart_ir::proofs::View::views))]
fn push_entries(
    alloc: Global,
    bytes: &mut Bytes,
    program: &CoreProgram,
    named: &Vec<NamedType>,
) -> Result<(), AllocError>
    ensures { Adds result bytes.old bytes.new (spec.listed_named program.now true (named_tys named.now.items)) }
{
    let mut is_first = true;
    for one in named {
        if !is_first {
            push_text(bytes, b", ")?;
        }
        push_entry(alloc, bytes, program, one)?;
        is_first = false;
    }
    Ok(())
}

/// Adds a named type, as `n: T`.
#[cycle(typing)]
#[tactic(auto, using(dart_ir::proofs::View::views))]
fn push_entry(
    alloc: Global,
    bytes: &mut Bytes,
    program: &CoreProgram,
    named: &NamedType,
) -> Result<(), AllocError>
    ensures { Adds result bytes.old bytes.new (spec.entry program.now (named_ty named.now).0 (named_ty named.now).1) }
{
    push_text(bytes, name_text(program, named.name))?;
    push_text(bytes, b": ")?;
    push_type(alloc, bytes, program, &named.of)
}
