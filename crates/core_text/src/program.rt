// Whole programs.
ghost use Rattle.std.specs.Prelude.{◌≡◌, IfOk, slice_get};
ghost use Rattle.core_program.specs.View as v;
ghost use Rattle.core_text.specs.Line.{Adds};
ghost use Rattle.core_text.specs.Program as spec;

use crate::declaration::{push_function, push_variable};
use crate::line::push_text;
use crate::name::{name_text, push_function as push_reference};
use core_program::form::Part;
use core_program::program::{CoreProgram, Function, FunctionKind, StaticVar};
use dart_base::bytes::Bytes;
use dart_base::name::Name;
use dart_ir::number::ClassId;
use std::alloc::{AllocError, Global};

/// Which declarations of a program are shown.
#[derive(Clone, Copy)]
pub enum Choice {
    /// Those of the root.
    Root,
    /// Those of this name, and the members of classes of this name.
    Named(Name),
}

/// Whether a function has a body, which stands in another unit than the root.
#[tactic(auto, using(core_program::proofs::Views::views))]
fn is_elsewhere(function: &Function) -> bool
    ensures { result ≡ spec.is_elsewhere (v.part function.now.body) }
{
    match &function.body {
        Part::Missing => false,
        Part::Given(core) => core.place.unit != 0,
    }
}

/// How many declarations the root has: the first unit behind it is `dart:core`, whose first declaration is a function with a body.
fn root_count(functions: &[Function]) -> usize
    ensures { result ≡ spec.root_count functions.now }
{
    for (count, function) in functions.iter().enumerate() {
        if is_elsewhere(function) {
            return count;
        }
    }
    functions.len()
}

/// Whether a class stands in the root.
fn is_root_class(program: &CoreProgram, class: ClassId) -> bool
    ensures { result ≡ spec.stands_in_root (slice_get program.now.classes.classes.items class.0) }
{
    match program.classes.classes.get(class.0 as usize) {
        None => false,
        Some(class) => class.place.unit == 0,
    }
}

/// Whether a class has this name.
fn is_class_called(program: &CoreProgram, class: ClassId, name: Name) -> bool
    ensures { result ≡ spec.is_called (slice_get program.now.classes.classes.items class.0) name.0 }
{
    match program.classes.classes.get(class.0 as usize) {
        None => false,
        Some(class) => class.name == name,
    }
}

/// Whether a function is a member of a class of this name.
fn is_member_of(program: &CoreProgram, name: Name, class: Option<ClassId>) -> bool
    ensures { result ≡ spec.is_member_of program.now name.0 class }
{
    match class {
        None => false,
        Some(class) => is_class_called(program, class, name),
    }
}

/// Whether a function stands in the root: what translation adds is a member of a class.
fn is_in_root(program: &CoreProgram, count: usize, number: usize, class: Option<ClassId>) -> bool
    ensures { result ≡ spec.is_in_root program.now count number class }
{
    match class {
        None => number < count,
        Some(class) => is_root_class(program, class),
    }
}

/// Whether a function is one of those that are shown, where the root has so many declarations.
fn is_chosen(
    program: &CoreProgram,
    choice: Choice,
    count: usize,
    number: usize,
    function: &Function,
) -> bool
    ensures { result ≡ spec.is_chosen program.now choice count number function.now }
{
    match choice {
        Choice::Root => is_in_root(program, count, number, function.class),
        Choice::Named(name) => function.name == name || is_member_of(program, name, function.class),
    }
}

/// Whether a declaration is a function.
fn is_function(kind: FunctionKind) -> bool
    ensures { result ≡ spec.is_function kind }
{
    match kind {
        FunctionKind::Absent => false,
        FunctionKind::Plain => true,
        FunctionKind::Inner => true,
        FunctionKind::Generative => true,
        FunctionKind::Factory => true,
    }
}

/// Whether a declaration is a function that is shown, where the root has so many declarations.
fn is_shown(
    program: &CoreProgram,
    choice: Choice,
    count: usize,
    number: usize,
    function: &Function,
) -> bool
    ensures { result ≡ spec.is_shown program.now choice count number function.now }
{
    is_function(function.kind) && is_chosen(program, choice, count, number, function)
}

/// Whether a declaration is a variable: what is none has no name.
fn is_variable(name: &[u8]) -> bool
    ensures { result ≡ spec.is_variable name.now }
{
    match name {
        [] => false,
        [_, ..] => true,
    }
}

/// Whether a variable is one of those that are shown, where the root has so many declarations.
fn is_chosen_variable(choice: Choice, count: usize, number: usize, variable: &StaticVar) -> bool
    ensures { result ≡ spec.is_chosen_variable choice count number variable.now }
{
    match choice {
        Choice::Root => number < count,
        Choice::Named(name) => variable.name == name,
    }
}

/// Whether a declaration is a variable that is shown, where the root has so many declarations.
fn is_variable_shown(
    program: &CoreProgram,
    choice: Choice,
    count: usize,
    number: usize,
    variable: &StaticVar,
) -> bool
    ensures { result ≡ spec.is_variable_shown program.now choice count number variable.now }
{
    is_variable(name_text(program, variable.name))
        && is_chosen_variable(choice, count, number, variable)
}

/// Adds a function if it is shown, where the root has so many declarations.
fn push_shown_function(
    alloc: Global,
    bytes: &mut Bytes,
    program: &CoreProgram,
    choice: Choice,
    count: usize,
    number: usize,
    function: &Function,
) -> Result<(), AllocError>
    ensures { Adds result bytes.old bytes.new (spec.shown_function program.now choice count number function.now) }
{
    if is_shown(program, choice, count, number, function) {
        push_function(alloc, bytes, program, number, function)
    } else {
        Ok(())
    }
}

/// Adds a variable if it is shown, where the root has so many declarations.
fn push_shown_variable(
    alloc: Global,
    bytes: &mut Bytes,
    program: &CoreProgram,
    choice: Choice,
    count: usize,
    number: usize,
    variable: &StaticVar,
) -> Result<(), AllocError>
    ensures { Adds result bytes.old bytes.new (spec.shown_variable program.now choice count number variable.now) }
{
    if is_variable_shown(program, choice, count, number, variable) {
        push_variable(alloc, bytes, program, number, variable)
    } else {
        Ok(())
    }
}

/// Adds the functions that are shown, where the root has so many declarations.
fn push_functions(
    alloc: Global,
    bytes: &mut Bytes,
    program: &CoreProgram,
    choice: Choice,
    count: usize,
) -> Result<(), AllocError>
    ensures { Adds result bytes.old bytes.new (spec.functions program.now choice count 0 program.now.functions.items) }
{
    for (number, function) in program.functions.iter().enumerate() {
        push_shown_function(alloc, bytes, program, choice, count, number, function)?;
    }
    Ok(())
}

/// Adds the variables that are shown, where the root has so many declarations.
fn push_variables(
    alloc: Global,
    bytes: &mut Bytes,
    program: &CoreProgram,
    choice: Choice,
    count: usize,
) -> Result<(), AllocError>
    ensures { Adds result bytes.old bytes.new (spec.variables program.now choice count 0 program.now.statics.items) }
{
    for (number, variable) in program.statics.iter().enumerate() {
        push_shown_variable(alloc, bytes, program, choice, count, number, variable)?;
    }
    Ok(())
}

/// Adds the text of a program.
fn push_program(
    alloc: Global,
    bytes: &mut Bytes,
    program: &CoreProgram,
    choice: Choice,
) -> Result<(), AllocError>
    ensures { Adds result bytes.old bytes.new (spec.program_text program.now choice) }
{
    let count = root_count(&program.functions);
    push_text(bytes, b"main ")?;
    push_reference(alloc, bytes, program, program.main)?;
    push_text(bytes, b"\n")?;
    push_functions(alloc, bytes, program, choice, count)?;
    push_variables(alloc, bytes, program, choice, count)
}

/// The text of a program: the function with which it starts, and the functions and then the variables that are shown, in
/// the order of their numbers.
pub fn program_text(
    alloc: Global,
    program: &CoreProgram,
    choice: Choice,
) -> Result<Bytes, AllocError>
    ensures { IfOk result (λ bytes. bytes ≡ spec.program_text program.now choice) }
{
    let mut bytes = Bytes::new(alloc);
    push_program(alloc, &mut bytes, program, choice)?;
    Ok(bytes)
}
