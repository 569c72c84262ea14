// The image of a form: the form without columns.
ghost use Rattle.std.specs.Prelude.{◌≡◌, IfOk, map};
ghost use Rattle.core_program.specs.Alike as alike;
ghost use Rattle.core_program.specs.Core as c;
ghost use Rattle.core_program.specs.View as v;

use core_program::form::{Arguments, Attempt, Case, Core, Form, Handler, Part, Test};
use dart_base::place::Place;
use dart_ir::types::try_clone_types;
use std::alloc::{AllocError, Global};

// The place without its column.
pub(crate) fn line(place: Place) -> Place
    ensures { result ≡ alike.line place }
{
    Place {
        unit: place.unit,
        line: place.line,
        column: 0,
    }
}

// The image of a form: at the line of its place, with the images of the forms in it.
#[cycle(imaging)]
#[tactic(auto, using(core_program::proofs::Views::views, crate::proofs::Lists::lists))]
fn image_of_core(alloc: Global, core: &Core) -> Result<Core, AllocError>
    ensures { IfOk result (λ made. v.core made ≡ alike.core (v.core core.now)) }
{
    Ok(Core {
        place: line(core.place),
        form: image_of_form(alloc, &core.form)?,
    })
}

// The image of a form, on the heap.
#[cycle(imaging)]
#[tactic(auto, using(core_program::proofs::Views::views, crate::proofs::Lists::lists))]
fn boxed_image(alloc: Global, core: &Core) -> Result<Box<Core>, AllocError>
    ensures { IfOk result (λ made. v.core made.value ≡ alike.core (v.core core.now)) }
{
    Ok(Box::new(alloc, image_of_core(alloc, core)?)?)
}

// The image of each form, in order.
#[cycle(imaging)]
#[tactic(auto, using(core_program::proofs::Views::views, crate::proofs::Lists::lists))]
fn image_of_cores(alloc: Global, cores: &[Core]) -> Result<Vec<Core>, AllocError>
    ensures { IfOk result (λ made. map v.core made.items ≡ map alike.core (map v.core cores.now)) }
{
    let mut made = Vec::new(alloc);
    for one in cores {
        made.push(image_of_core(alloc, one)?)?;
    }
    Ok(made)
}

// The image of a form behind its place.
#[cycle(imaging)]
#[tactic(auto, using(core_program::proofs::Views::views, crate::proofs::Lists::lists))]
fn image_of_form(alloc: Global, form: &Form) -> Result<Form, AllocError>
    ensures { IfOk result (λ made. v.form made ≡ alike.form (v.form form.now)) }
{
    match form {
        Form::Leaf(leaf) => Ok(Form::Leaf(*leaf)),
        Form::TypeLiteral(of) => Ok(Form::TypeLiteral(of.try_clone(alloc)?)),
        Form::Unary(unary, operand) => Ok(Form::Unary(*unary, boxed_image(alloc, operand)?)),
        Form::Binary(binary, first, second) => Ok(Form::Binary(
            *binary,
            boxed_image(alloc, first)?,
            boxed_image(alloc, second)?,
        )),
        Form::Row(job, arguments) => Ok(Form::Row(*job, image_of_arguments(alloc, arguments)?)),
        Form::Let { var, value, body } => Ok(Form::Let {
            var: *var,
            value: boxed_image(alloc, value)?,
            body: boxed_image(alloc, body)?,
        }),
        Form::Block(forms) => Ok(Form::Block(image_of_cores(alloc, forms)?)),
        Form::If {
            condition,
            first,
            second,
        } => Ok(Form::If {
            condition: boxed_image(alloc, condition)?,
            first: image_of_part(alloc, first)?,
            second: image_of_part(alloc, second)?,
        }),
        Form::New {
            class,
            constructor,
            types,
            arguments,
        } => Ok(Form::New {
            class: *class,
            constructor: *constructor,
            types: try_clone_types(alloc, types)?,
            arguments: image_of_arguments(alloc, arguments)?,
        }),
        Form::List { types, items } => Ok(Form::List {
            types: try_clone_types(alloc, types)?,
            items: image_of_cores(alloc, items)?,
        }),
        Form::Is(value, of) => Ok(Form::Is(boxed_image(alloc, value)?, of.try_clone(alloc)?)),
        Form::As(value, of) => Ok(Form::As(boxed_image(alloc, value)?, of.try_clone(alloc)?)),
        Form::Loop {
            target,
            copies,
            condition,
            update,
            body,
        } => Ok(Form::Loop {
            target: *target,
            copies: Vec::from_slice(alloc, copies)?,
            condition: image_of_part(alloc, condition)?,
            update: image_of_part(alloc, update)?,
            body: image_of_part(alloc, body)?,
        }),
        Form::Return(value) => Ok(Form::Return(image_of_part(alloc, value)?)),
        Form::Try(attempt) => Ok(Form::Try(Box::new(alloc, image_of_attempt(alloc, attempt)?)?)),
        Form::Switch {
            target,
            value,
            cases,
        } => Ok(Form::Switch {
            target: *target,
            value: boxed_image(alloc, value)?,
            cases: image_of_cases(alloc, cases)?,
        }),
        Form::Labelled(target, body) => { Ok(Form::Labelled(*target, boxed_image(alloc, body)?)) }
    }
}

// The images of a body, of handlers and of a final part.
#[cycle(imaging)]
#[tactic(auto, using(core_program::proofs::Views::views, crate::proofs::Lists::lists))]
fn image_of_attempt(alloc: Global, attempt: &Attempt) -> Result<Attempt, AllocError>
    ensures { IfOk result (λ made. v.attempt made ≡ alike.form (v.attempt attempt.now)) }
{
    Ok(Attempt {
        body: image_of_core(alloc, &attempt.body)?,
        handlers: image_of_handlers(alloc, &attempt.handlers)?,
        last: image_of_part(alloc, &attempt.last)?,
    })
}

// The image of the form, where one is given.
#[cycle(imaging)]
#[tactic(auto, using(core_program::proofs::Views::views, crate::proofs::Lists::lists))]
pub(crate) fn image_of_part(alloc: Global, part: &Part) -> Result<Part, AllocError>
    ensures { IfOk result (λ made. v.part made ≡ alike.part (v.part part.now)) }
{
    match part {
        Part::Missing => Ok(Part::Missing),
        Part::Given(form) => Ok(Part::Given(boxed_image(alloc, form)?)),
    }
}

// The image of the form that a malformed type throws by; a type is its own.
#[cycle(imaging)]
#[tactic(auto, using(core_program::proofs::Views::views, crate::proofs::Lists::lists))]
fn image_of_test(alloc: Global, test: &Test) -> Result<Test, AllocError>
    ensures { IfOk result (λ made. v.test made ≡ alike.test (v.test test.now)) }
{
    match test {
        Test::Everything => Ok(Test::Everything),
        Test::On(of) => Ok(Test::On(of.try_clone(alloc)?)),
        Test::Malformed(form) => Ok(Test::Malformed(boxed_image(alloc, form)?)),
    }
}

// The images of operands, with the same names.
#[cycle(imaging)]
#[tactic(auto, using(core_program::proofs::Views::views, crate::proofs::Lists::lists))]
fn image_of_arguments(alloc: Global, arguments: &Arguments) -> Result<Arguments, AllocError>
    ensures forms { IfOk result (λ made. (v.arguments made).0 ≡ alike.cores (v.arguments arguments.now).0) }
    ensures names { IfOk result (λ made. (v.arguments made).1 ≡ (v.arguments arguments.now).1) }
{
    Ok(Arguments {
        forms: image_of_cores(alloc, &arguments.forms)?,
        names: Vec::from_slice(alloc, &arguments.names)?,
    })
}

// The image of a handler.
#[cycle(imaging)]
#[tactic(auto, using(core_program::proofs::Views::views, crate::proofs::Lists::lists))]
fn image_of_handler(alloc: Global, handler: &Handler) -> Result<Handler, AllocError>
    ensures { IfOk result (λ made. v.handler made ≡ alike.handler (v.handler handler.now)) }
{
    Ok(Handler {
        test: image_of_test(alloc, &handler.test)?,
        exception: handler.exception,
        trace: handler.trace,
        body: image_of_core(alloc, &handler.body)?,
    })
}

// The image of each handler, in order.
#[cycle(imaging)]
#[tactic(auto, using(core_program::proofs::Views::views, crate::proofs::Lists::lists))]
fn image_of_handlers(alloc: Global, handlers: &[Handler]) -> Result<Vec<Handler>, AllocError>
    ensures { IfOk result (λ made. map v.handler made.items ≡ map alike.handler (map v.handler handlers.now)) }
{
    let mut made = Vec::new(alloc);
    for one in handlers {
        made.push(image_of_handler(alloc, one)?)?;
    }
    Ok(made)
}

// The image of the body behind the same value.
#[cycle(imaging)]
#[tactic(auto, using(core_program::proofs::Views::views, crate::proofs::Lists::lists))]
fn image_of_case(alloc: Global, case: &Case) -> Result<Case, AllocError>
    ensures { IfOk result (λ made. v.case made ≡ alike.case (v.case case.now)) }
{
    Ok(Case {
        value: case.value,
        body: image_of_core(alloc, &case.body)?,
    })
}

// The image of each case, in order.
#[cycle(imaging)]
#[tactic(auto, using(core_program::proofs::Views::views, crate::proofs::Lists::lists))]
fn image_of_cases(alloc: Global, cases: &[Case]) -> Result<Vec<Case>, AllocError>
    ensures { IfOk result (λ made. map v.case made.items ≡ map alike.case (map v.case cases.now)) }
{
    let mut made = Vec::new(alloc);
    for one in cases {
        made.push(image_of_case(alloc, one)?)?;
    }
    Ok(made)
}
