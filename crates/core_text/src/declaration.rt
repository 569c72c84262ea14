// Functions and variables.
ghost use Rattle.std.specs.Prelude.{◌≡◌};
ghost use Rattle.core_text.specs.Line.{Adds};
ghost use Rattle.core_text.specs.Declaration as spec;
ghost use Rattle.core_text.specs.Line as line;

use crate::form::push_part;
use crate::head::push_site;
use crate::line::{push_counted, push_numbers, push_text, push_word};
use crate::name::{class_or_nothing, name_text};
use crate::types::push_function_type;
use crate::value::push_value;
use core_program::program::{CoreProgram, Function, FunctionKind, Parameter, StaticVar};
use dart_base::bytes::Bytes;
use dart_ir::kind::Shape;
use dart_ir::number::ClassId;
use std::alloc::{AllocError, Global};

/// What a declaration is as a function.
fn kind_text(kind: FunctionKind) -> &'static [u8]
    ensures { result.now ≡ spec.kind_text kind }
{
    match kind {
        FunctionKind::Plain => b"function",
        FunctionKind::Inner => b"inner",
        FunctionKind::Generative => b"constructor",
        FunctionKind::Factory => b"factory",
        FunctionKind::Absent => b"absent",
    }
}

/// Adds a blank and the number of a declaration.
fn push_behind(alloc: Global, bytes: &mut Bytes, number: usize) -> Result<(), AllocError>
    ensures { Adds result bytes.old bytes.new (line.after_blank number) }
{
    push_text(bytes, b" ")?;
    push_text(bytes, number.to_string(alloc)?.as_bytes())
}

/// Adds the number of a function inside another.
fn push_member_key(
    alloc: Global,
    bytes: &mut Bytes,
    kind: FunctionKind,
    number: usize,
) -> Result<(), AllocError>
    ensures { Adds result bytes.old bytes.new (spec.member_key kind number) }
{
    match kind {
        FunctionKind::Inner => push_behind(alloc, bytes, number),
        FunctionKind::Plain => Ok(()),
        FunctionKind::Generative => Ok(()),
        FunctionKind::Factory => Ok(()),
        FunctionKind::Absent => Ok(()),
    }
}

/// Adds the number of a function, unless it is a member of a class, which goes by its class.
fn push_key(
    alloc: Global,
    bytes: &mut Bytes,
    class: Option<ClassId>,
    kind: FunctionKind,
    number: usize,
) -> Result<(), AllocError>
    ensures { Adds result bytes.old bytes.new (spec.key class kind number) }
{
    match class {
        None => push_behind(alloc, bytes, number),
        Some(_) => push_member_key(alloc, bytes, kind, number),
    }
}

/// Adds the first line of a function: what it is, its number or class, and its name.
fn push_function_line(
    alloc: Global,
    bytes: &mut Bytes,
    program: &CoreProgram,
    number: usize,
    function: &Function,
) -> Result<(), AllocError>
    ensures { Adds result bytes.old bytes.new (spec.function_line program.now number function.now) }
{
    push_text(bytes, kind_text(function.kind))?;
    push_key(alloc, bytes, function.class, function.kind, number)?;
    push_word(bytes, class_or_nothing(program, function.class))?;
    push_word(bytes, name_text(program, function.name))?;
    push_text(bytes, b"\n")
}

/// Adds how many variables are numbered, and which of them have cells.
fn push_slots(alloc: Global, bytes: &mut Bytes, vars: u32, cells: &[u32]) -> Result<(), AllocError>
    ensures { Adds result bytes.old bytes.new (spec.slots vars cells.now) }
{
    push_counted(alloc, bytes, b"  variables", vars)?;
    push_text(bytes, b" cells")?;
    push_numbers(alloc, bytes, cells)
}

/// Adds the line of the type of a function.
fn push_signature(
    alloc: Global,
    bytes: &mut Bytes,
    program: &CoreProgram,
    function: &Function,
) -> Result<(), AllocError>
    ensures { Adds result bytes.old bytes.new (spec.signature program.now function.now) }
{
    push_text(bytes, b"  type ")?;
    push_function_type(alloc, bytes, program, &function.signature)?;
    push_text(bytes, b"\n")
}

/// Adds how a parameter takes its argument, and its value where it is given none.
fn push_shape(
    alloc: Global,
    bytes: &mut Bytes,
    program: &CoreProgram,
    parameter: Parameter,
) -> Result<(), AllocError>
    ensures { Adds result bytes.old bytes.new (spec.shape_text program.now parameter.shape parameter.default) }
{
    match parameter.shape {
        Shape::Required => push_text(bytes, b" required"),
        Shape::Optional => {
            push_text(bytes, b" optional ")?;
            push_value(alloc, bytes, program, parameter.default)
        }
        Shape::Named => {
            push_text(bytes, b" named ")?;
            push_value(alloc, bytes, program, parameter.default)
        }
    }
}

/// Adds the line of a parameter.
fn push_parameter(
    alloc: Global,
    bytes: &mut Bytes,
    program: &CoreProgram,
    parameter: Parameter,
) -> Result<(), AllocError>
    ensures { Adds result bytes.old bytes.new (spec.parameter program.now parameter) }
{
    push_counted(alloc, bytes, b"  parameter", parameter.var)?;
    push_word(bytes, name_text(program, parameter.name))?;
    push_shape(alloc, bytes, program, parameter)?;
    push_site(alloc, bytes, program, parameter.site)?;
    push_text(bytes, b"\n")
}

/// Adds the lines of parameters.
fn push_parameters(
    alloc: Global,
    bytes: &mut Bytes,
    program: &CoreProgram,
    parameters: &[Parameter],
) -> Result<(), AllocError>
    ensures { Adds result bytes.old bytes.new (spec.parameters program.now parameters.now) }
{
    for one in parameters {
        push_parameter(alloc, bytes, program, *one)?;
    }
    Ok(())
}

/// Adds the lines between the first line of a function and its body.
fn push_function_lines(
    alloc: Global,
    bytes: &mut Bytes,
    program: &CoreProgram,
    function: &Function,
) -> Result<(), AllocError>
    ensures { Adds result bytes.old bytes.new (spec.function_lines program.now function.now) }
{
    push_slots(alloc, bytes, function.vars, &function.cells)?;
    push_text(bytes, b" captures")?;
    push_numbers(alloc, bytes, &function.captures)?;
    push_text(bytes, b"\n")?;
    push_signature(alloc, bytes, program, function)?;
    push_parameters(alloc, bytes, program, &function.parameters)
}

/// Adds a function behind an empty line: what it is, its variables, its type, its parameters and its body.
pub fn push_function(
    alloc: Global,
    bytes: &mut Bytes,
    program: &CoreProgram,
    number: usize,
    function: &Function,
) -> Result<(), AllocError>
    ensures { Adds result bytes.old bytes.new (spec.function program.now number function.now) }
{
    push_text(bytes, b"\n")?;
    push_function_line(alloc, bytes, program, number, function)?;
    push_function_lines(alloc, bytes, program, function)?;
    push_part(alloc, bytes, program, 2, &function.body)
}

/// What a variable is.
fn variable_word(is_final: bool) -> &'static [u8]
    ensures { result.now ≡ spec.variable_word is_final }
{
    if is_final { b"final" } else { b"var" }
}

/// Adds the first line of a variable: its number and its name.
fn push_variable_line(
    alloc: Global,
    bytes: &mut Bytes,
    program: &CoreProgram,
    number: usize,
    variable: &StaticVar,
) -> Result<(), AllocError>
    ensures { Adds result bytes.old bytes.new (spec.variable_line program.now number variable.now) }
{
    push_text(bytes, variable_word(variable.is_final))?;
    push_behind(alloc, bytes, number)?;
    push_word(bytes, name_text(program, variable.name))?;
    push_text(bytes, b"\n")
}

/// Adds a variable behind an empty line: its name, the variables of its initial value, and that value.
pub fn push_variable(
    alloc: Global,
    bytes: &mut Bytes,
    program: &CoreProgram,
    number: usize,
    variable: &StaticVar,
) -> Result<(), AllocError>
    ensures { Adds result bytes.old bytes.new (spec.variable program.now number variable.now) }
{
    push_text(bytes, b"\n")?;
    push_variable_line(alloc, bytes, program, number, variable)?;
    push_slots(alloc, bytes, variable.vars, &variable.cells)?;
    push_text(bytes, b"\n")?;
    push_part(alloc, bytes, program, 2, &variable.init)
}
