// Forms, each on a line of its own, with the forms in it on the lines below, a level deeper.
ghost use Rattle.std.specs.Prelude.{map};
ghost use Rattle.core_program.specs.Core as c;
ghost use Rattle.core_program.specs.View as v;
ghost use Rattle.core_text.specs.Line.{Adds};
ghost use Rattle.core_text.specs.Form as spec;

use crate::head::{push_head, push_typed};
use crate::line::{deeper, push_counted, push_margin, push_place, push_text};
use crate::value::push_value;
use core_program::form::{Attempt, Case, Core, Form, Handler, Part, Test};
use core_program::program::CoreProgram;
use dart_base::bytes::Bytes;
use dart_ir::value::Value;
use std::alloc::{AllocError, Global};

/// Adds the line of a form, with its place.
fn push_form_line(
    alloc: Global,
    bytes: &mut Bytes,
    program: &CoreProgram,
    blanks: u8,
    core: &Core,
) -> Result<(), AllocError>
    ensures { Adds result bytes.old bytes.new (spec.form_line program.now blanks core.now.place (v.form core.now.form)) }
{
    push_margin(bytes, blanks)?;
    push_head(alloc, bytes, program, &core.form)?;
    push_text(bytes, b" @")?;
    push_place(alloc, bytes, program, core.place)?;
    push_text(bytes, b"\n")
}

/// Adds the line that stands for a part that is missing.
fn push_missing(bytes: &mut Bytes, blanks: u8) -> Result<(), AllocError>
    ensures { Adds result bytes.old bytes.new (spec.missing blanks) }
{
    push_margin(bytes, blanks)?;
    push_text(bytes, b"none\n")
}

/// Adds a form.
#[cycle(writing)]
#[tactic(auto, using(core_program::proofs::Views::views))]
pub fn push_core(
    alloc: Global,
    bytes: &mut Bytes,
    program: &CoreProgram,
    blanks: u8,
    core: &Core,
) -> Result<(), AllocError>
    ensures { Adds result bytes.old bytes.new (spec.core program.now blanks (v.core core.now)) }
{
    push_form_line(alloc, bytes, program, blanks, core)?;
    push_parts(alloc, bytes, program, deeper(blanks), &core.form)
}

/// Adds the forms in a form.
#[cycle(writing)]
#[tactic(auto, using(core_program::proofs::Views::views))]
fn push_parts(
    alloc: Global,
    bytes: &mut Bytes,
    program: &CoreProgram,
    blanks: u8,
    form: &Form,
) -> Result<(), AllocError>
    ensures { Adds result bytes.old bytes.new (spec.parts program.now blanks (v.form form.now)) }
{
    match form {
        Form::Leaf(_) => Ok(()),
        Form::TypeLiteral(_) => Ok(()),
        Form::Unary(_, operand) => push_core(alloc, bytes, program, blanks, operand),
        Form::Binary(_, first, second) => {
            push_core(alloc, bytes, program, blanks, first)?;
            push_core(alloc, bytes, program, blanks, second)
        }
        Form::Row(_, arguments) => push_cores(alloc, bytes, program, blanks, &arguments.forms),
        Form::Let { value, body, .. } => {
            push_core(alloc, bytes, program, blanks, value)?;
            push_core(alloc, bytes, program, blanks, body)
        }
        Form::Block(forms) => push_cores(alloc, bytes, program, blanks, forms),
        Form::If {
            condition,
            first,
            second,
        } => {
            push_core(alloc, bytes, program, blanks, condition)?;
            push_part(alloc, bytes, program, blanks, first)?;
            push_part(alloc, bytes, program, blanks, second)
        }
        Form::New { arguments, .. } => {
            push_cores(alloc, bytes, program, blanks, &arguments.forms)
        }
        Form::List { items, .. } => push_cores(alloc, bytes, program, blanks, items),
        Form::Is(value, _) => push_core(alloc, bytes, program, blanks, value),
        Form::As(value, _) => push_core(alloc, bytes, program, blanks, value),
        Form::Loop {
            condition,
            update,
            body,
            ..
        } => {
            push_part(alloc, bytes, program, blanks, condition)?;
            push_part(alloc, bytes, program, blanks, update)?;
            push_part(alloc, bytes, program, blanks, body)
        }
        Form::Return(value) => push_part(alloc, bytes, program, blanks, value),
        Form::Try(attempt) => push_attempt(alloc, bytes, program, blanks, attempt),
        Form::Switch { value, cases, .. } => {
            push_core(alloc, bytes, program, blanks, value)?;
            push_cases(alloc, bytes, program, blanks, cases)
        }
        Form::Labelled(_, body) => push_core(alloc, bytes, program, blanks, body),
    }
}

/// Adds forms in order.
#[cycle(writing)]
#[tactic(auto, using(core_program::proofs::Views::views))]
fn push_cores(
    alloc: Global,
    bytes: &mut Bytes,
    program: &CoreProgram,
    blanks: u8,
    cores: &Vec<Core>,
) -> Result<(), AllocError>
    ensures { Adds result bytes.old bytes.new (spec.cores program.now blanks (c.cores (map v.core cores.now.items))) }
{
    for one in cores {
        push_core(alloc, bytes, program, blanks, one)?;
    }
    Ok(())
}

/// Adds a part, which may be missing.
#[cycle(writing)]
#[tactic(auto, using(core_program::proofs::Views::views))]
pub fn push_part(
    alloc: Global,
    bytes: &mut Bytes,
    program: &CoreProgram,
    blanks: u8,
    part: &Part,
) -> Result<(), AllocError>
    ensures { Adds result bytes.old bytes.new (spec.part program.now blanks (v.part part.now)) }
{
    match part {
        Part::Missing => push_missing(bytes, blanks),
        Part::Given(core) => push_core(alloc, bytes, program, blanks, core),
    }
}

/// Adds a `try`: its body, its handlers and its final part.
#[cycle(writing)]
#[tactic(auto, using(core_program::proofs::Views::views))]
fn push_attempt(
    alloc: Global,
    bytes: &mut Bytes,
    program: &CoreProgram,
    blanks: u8,
    attempt: &Attempt,
) -> Result<(), AllocError>
    ensures { Adds result bytes.old bytes.new (spec.parts program.now blanks (v.attempt attempt.now)) }
{
    push_core(alloc, bytes, program, blanks, &attempt.body)?;
    push_handlers(alloc, bytes, program, blanks, &attempt.handlers)?;
    push_part(alloc, bytes, program, blanks, &attempt.last)
}

/// Adds handlers in order.
#[cycle(writing)]
#[tactic(auto, using(core_program::proofs::Views::views))]
fn push_handlers(
    alloc: Global,
    bytes: &mut Bytes,
    program: &CoreProgram,
    blanks: u8,
    handlers: &Vec<Handler>,
) -> Result<(), AllocError>
    ensures { Adds result bytes.old bytes.new (spec.handlers program.now blanks (c.handlers (map v.handler handlers.now.items))) }
{
    for one in handlers {
        push_handler(alloc, bytes, program, blanks, one)?;
    }
    Ok(())
}

/// Adds what a handler takes.
#[tactic(auto, using(core_program::proofs::Views::views))]
fn push_test(
    alloc: Global,
    bytes: &mut Bytes,
    program: &CoreProgram,
    test: &Test,
) -> Result<(), AllocError>
    ensures { Adds result bytes.old bytes.new (spec.test program.now (v.test test.now)) }
{
    match test {
        Test::Everything => push_text(bytes, b"catch"),
        Test::On(of) => push_typed(alloc, bytes, program, b"on ", of),
        Test::Malformed(_) => push_text(bytes, b"on malformed"),
    }
}

/// Adds a word and the number of a variable, where there is one.
fn push_variable(
    alloc: Global,
    bytes: &mut Bytes,
    word: &[u8],
    var: Option<u32>,
) -> Result<(), AllocError>
    ensures { Adds result bytes.old bytes.new (spec.variable word.now var) }
{
    match var {
        None => Ok(()),
        Some(var) => push_counted(alloc, bytes, word, var),
    }
}

/// Adds the line of a handler.
fn push_handler_line(
    alloc: Global,
    bytes: &mut Bytes,
    program: &CoreProgram,
    blanks: u8,
    handler: &Handler,
) -> Result<(), AllocError>
    ensures { Adds result bytes.old bytes.new (spec.handler_line program.now blanks (v.test handler.now.test) handler.now.exception handler.now.trace) }
{
    push_margin(bytes, blanks)?;
    push_test(alloc, bytes, program, &handler.test)?;
    push_variable(alloc, bytes, b" exception", handler.exception)?;
    push_variable(alloc, bytes, b" trace", handler.trace)?;
    push_text(bytes, b"\n")
}

/// Adds a handler.
#[cycle(writing)]
#[tactic(auto, using(core_program::proofs::Views::views))]
fn push_handler(
    alloc: Global,
    bytes: &mut Bytes,
    program: &CoreProgram,
    blanks: u8,
    handler: &Handler,
) -> Result<(), AllocError>
    ensures { Adds result bytes.old bytes.new (spec.handler program.now blanks (v.handler handler.now)) }
{
    push_handler_line(alloc, bytes, program, blanks, handler)?;
    push_test_part(alloc, bytes, program, deeper(blanks), &handler.test)?;
    push_core(alloc, bytes, program, deeper(blanks), &handler.body)
}

/// Adds the form that stands in place of a test.
#[cycle(writing)]
#[tactic(auto, using(core_program::proofs::Views::views))]
fn push_test_part(
    alloc: Global,
    bytes: &mut Bytes,
    program: &CoreProgram,
    blanks: u8,
    test: &Test,
) -> Result<(), AllocError>
    ensures { Adds result bytes.old bytes.new (spec.test_part program.now blanks (v.test test.now)) }
{
    match test {
        Test::Everything => Ok(()),
        Test::On(_) => Ok(()),
        Test::Malformed(form) => push_core(alloc, bytes, program, blanks, form),
    }
}

/// Adds cases in order.
#[cycle(writing)]
#[tactic(auto, using(core_program::proofs::Views::views))]
fn push_cases(
    alloc: Global,
    bytes: &mut Bytes,
    program: &CoreProgram,
    blanks: u8,
    cases: &Vec<Case>,
) -> Result<(), AllocError>
    ensures { Adds result bytes.old bytes.new (spec.cases program.now blanks (c.cases (map v.case cases.now.items))) }
{
    for one in cases {
        push_case(alloc, bytes, program, blanks, one)?;
    }
    Ok(())
}

/// Adds the value of a case, none for the default.
fn push_case_value(
    alloc: Global,
    bytes: &mut Bytes,
    program: &CoreProgram,
    value: Option<Value>,
) -> Result<(), AllocError>
    ensures { Adds result bytes.old bytes.new (spec.case_value program.now value) }
{
    match value {
        None => push_text(bytes, b"default\n"),
        Some(value) => {
            push_text(bytes, b"case ")?;
            push_value(alloc, bytes, program, value)?;
            push_text(bytes, b"\n")
        }
    }
}

/// Adds the line of a case.
fn push_case_line(
    alloc: Global,
    bytes: &mut Bytes,
    program: &CoreProgram,
    blanks: u8,
    value: Option<Value>,
) -> Result<(), AllocError>
    ensures { Adds result bytes.old bytes.new (spec.case_line program.now blanks value) }
{
    push_margin(bytes, blanks)?;
    push_case_value(alloc, bytes, program, value)
}

/// Adds a case.
#[cycle(writing)]
#[tactic(auto, using(core_program::proofs::Views::views))]
fn push_case(
    alloc: Global,
    bytes: &mut Bytes,
    program: &CoreProgram,
    blanks: u8,
    case: &Case,
) -> Result<(), AllocError>
    ensures { Adds result bytes.old bytes.new (spec.case program.now blanks (v.case case.now)) }
{
    push_case_line(alloc, bytes, program, blanks, case.value)?;
    push_core(alloc, bytes, program, deeper(blanks), &case.body)
}
