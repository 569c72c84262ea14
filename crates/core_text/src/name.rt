// The names of what a program declares.
ghost use Rattle.std.specs.Prelude.{◌≡◌};
ghost use Rattle.core_program.specs.View as v;
ghost use Rattle.core_text.specs.Line.{Adds};
ghost use Rattle.core_text.specs.Name as spec;

use crate::line::{push_number, push_text, push_word};
use core_program::program::CoreProgram;
use dart_base::bytes::Bytes;
use dart_base::name::Name;
use dart_ir::number::{ClassId, DeclId};
use std::alloc::{AllocError, Global};

/// The text of a name; none for a number that is no name.
pub fn name_text(program: &CoreProgram, name: Name) -> &[u8]
    ensures { result.now ≡ spec.name program.now name.0 }
{
    if name.0 < program.names.count() {
        program.names.text(name).as_bytes()
    } else {
        b""
    }
}

/// The name of a class.
pub fn class_name(program: &CoreProgram, class: ClassId) -> &[u8]
    ensures { result.now ≡ spec.class_name program.now class.0 }
{
    match program.classes.classes.get(class.0 as usize) {
        None => b"",
        Some(class) => name_text(program, class.name),
    }
}

/// The name of a function.
pub fn function_name(program: &CoreProgram, function: DeclId) -> &[u8]
    ensures { result.now ≡ spec.function_name program.now function.0 }
{
    match program.functions.get(function.0 as usize) {
        None => b"",
        Some(function) => name_text(program, function.name),
    }
}

/// The name of a static or library variable.
pub fn static_name(program: &CoreProgram, variable: DeclId) -> &[u8]
    ensures { result.now ≡ spec.static_name program.now variable.0 }
{
    match program.statics.get(variable.0 as usize) {
        None => b"",
        Some(variable) => name_text(program, variable.name),
    }
}

/// The name of the class that a function is declared in.
pub fn owner_name(program: &CoreProgram, function: DeclId) -> &[u8]
    ensures { result.now ≡ spec.owner_name program.now function.0 }
{
    match program.functions.get(function.0 as usize) {
        None => b"",
        Some(function) => class_or_nothing(program, function.class),
    }
}

/// The name of a class, where there is one.
pub fn class_or_nothing(program: &CoreProgram, class: Option<ClassId>) -> &[u8]
    ensures { result.now ≡ spec.class_or_nothing program.now class }
{
    match class {
        None => b"",
        Some(class) => class_name(program, class),
    }
}

/// Adds the number of a function, and its name if it has one.
pub fn push_function(
    alloc: Global,
    bytes: &mut Bytes,
    program: &CoreProgram,
    function: DeclId,
) -> Result<(), AllocError>
    ensures { Adds result bytes.old bytes.new (spec.function program.now function.0) }
{
    push_number(alloc, bytes, function.0)?;
    push_word(bytes, function_name(program, function))
}

/// Adds the number and the name of a variable.
pub fn push_static(
    alloc: Global,
    bytes: &mut Bytes,
    program: &CoreProgram,
    variable: DeclId,
) -> Result<(), AllocError>
    ensures { Adds result bytes.old bytes.new (spec.static program.now variable.0) }
{
    push_number(alloc, bytes, variable.0)?;
    push_word(bytes, static_name(program, variable))
}

/// Adds names, each behind a blank.
pub fn push_names(
    bytes: &mut Bytes,
    program: &CoreProgram,
    names: &[Name],
) -> Result<(), AllocError>
    ensures { Adds result bytes.old bytes.new (spec.names program.now (v.names names.now)) }
{
    for name in names {
        push_text(bytes, b" ")?;
        push_text(bytes, name_text(program, *name))?;
    }
    Ok(())
}
