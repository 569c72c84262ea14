// Copies of forms.
ghost use Rattle.std.specs.Prelude.{◌≡◌, IfOk, map};
ghost use Rattle.core_program.specs.View as v;

use crate::form::{Arguments, Attempt, Case, Core, Form, Handler, Part, Test};
use dart_ir::types::try_clone_types;
use std::alloc::{AllocError, Global};

impl Core {
    /// An equal form at the same place.
    #[cycle(copying)]
    #[tactic(auto, using(crate::proofs::Views::views))]
    pub fn try_clone(&self, alloc: Global) -> Result<Core, AllocError>
        ensures { IfOk result (λ copy. v.core copy ≡ v.core self.now) }
    {
        Ok(Core {
            place: self.place,
            form: self.form.try_clone(alloc)?,
        })
    }
}

/// An equal form on the heap.
#[cycle(copying)]
#[tactic(auto, using(crate::proofs::Views::views))]
fn boxed_copy(alloc: Global, core: &Core) -> Result<Box<Core>, AllocError>
    ensures { IfOk result (λ copy. v.core copy.value ≡ v.core core.now) }
{
    Ok(Box::new(alloc, core.try_clone(alloc)?)?)
}

/// Equal forms in the same order.
#[cycle(copying)]
#[tactic(auto, using(crate::proofs::Views::views))]
pub fn try_clone_cores(alloc: Global, cores: &[Core]) -> Result<Vec<Core>, AllocError>
    ensures { IfOk result (λ copies. map v.core copies.items ≡ map v.core cores.now) }
{
    let mut copies = Vec::new(alloc);
    for one in cores {
        copies.push(one.try_clone(alloc)?)?;
    }
    Ok(copies)
}

impl Form {
    /// An equal form.
    #[cycle(copying)]
    #[tactic(auto, using(crate::proofs::Views::views))]
    pub fn try_clone(&self, alloc: Global) -> Result<Form, AllocError>
        ensures { IfOk result (λ copy. v.form copy ≡ v.form self.now) }
    {
        match self {
            Form::Leaf(leaf) => Ok(Form::Leaf(*leaf)),
            Form::TypeLiteral(of) => Ok(Form::TypeLiteral(of.try_clone(alloc)?)),
            Form::Unary(unary, operand) => Ok(Form::Unary(*unary, boxed_copy(alloc, operand)?)),
            Form::Binary(binary, first, second) => Ok(Form::Binary(
                *binary,
                boxed_copy(alloc, first)?,
                boxed_copy(alloc, second)?,
            )),
            Form::Row(job, arguments) => Ok(Form::Row(*job, arguments.try_clone(alloc)?)),
            Form::Let { var, value, body } => Ok(Form::Let {
                var: *var,
                value: boxed_copy(alloc, value)?,
                body: boxed_copy(alloc, body)?,
            }),
            Form::Block(forms) => Ok(Form::Block(try_clone_cores(alloc, forms)?)),
            Form::If {
                condition,
                first,
                second,
            } => Ok(Form::If {
                condition: boxed_copy(alloc, condition)?,
                first: first.try_clone(alloc)?,
                second: second.try_clone(alloc)?,
            }),
            Form::New {
                class,
                constructor,
                types,
                arguments,
            } => Ok(Form::New {
                class: *class,
                constructor: *constructor,
                types: try_clone_types(alloc, types)?,
                arguments: arguments.try_clone(alloc)?,
            }),
            Form::List { types, items } => Ok(Form::List {
                types: try_clone_types(alloc, types)?,
                items: try_clone_cores(alloc, items)?,
            }),
            Form::Is(value, of) => Ok(Form::Is(boxed_copy(alloc, value)?, of.try_clone(alloc)?)),
            Form::As(value, of) => Ok(Form::As(boxed_copy(alloc, value)?, of.try_clone(alloc)?)),
            Form::Loop {
                target,
                copies,
                condition,
                update,
                body,
            } => Ok(Form::Loop {
                target: *target,
                copies: Vec::from_slice(alloc, copies)?,
                condition: condition.try_clone(alloc)?,
                update: update.try_clone(alloc)?,
                body: body.try_clone(alloc)?,
            }),
            Form::Return(value) => Ok(Form::Return(value.try_clone(alloc)?)),
            Form::Try(attempt) => Ok(Form::Try(Box::new(alloc, attempt.try_clone(alloc)?)?)),
            Form::Switch {
                target,
                value,
                cases,
            } => Ok(Form::Switch {
                target: *target,
                value: boxed_copy(alloc, value)?,
                cases: try_clone_cases(alloc, cases)?,
            }),
            Form::Labelled(target, body) => {
                Ok(Form::Labelled(*target, boxed_copy(alloc, body)?))
            }
        }
    }
}

impl Attempt {
    /// An equal body, equal handlers and an equal final part.
    #[cycle(copying)]
    #[tactic(auto, using(crate::proofs::Views::views))]
    pub fn try_clone(&self, alloc: Global) -> Result<Attempt, AllocError>
        ensures { IfOk result (λ copy. v.attempt copy ≡ v.attempt self.now) }
    {
        Ok(Attempt {
            body: self.body.try_clone(alloc)?,
            handlers: try_clone_handlers(alloc, &self.handlers)?,
            last: self.last.try_clone(alloc)?,
        })
    }
}

impl Part {
    /// An equal part.
    #[cycle(copying)]
    #[tactic(auto, using(crate::proofs::Views::views))]
    pub fn try_clone(&self, alloc: Global) -> Result<Part, AllocError>
        ensures { IfOk result (λ copy. v.part copy ≡ v.part self.now) }
    {
        match self {
            Part::Missing => Ok(Part::Missing),
            Part::Given(form) => Ok(Part::Given(boxed_copy(alloc, form)?)),
        }
    }
}

impl Test {
    /// An equal test.
    #[cycle(copying)]
    #[tactic(auto, using(crate::proofs::Views::views))]
    pub fn try_clone(&self, alloc: Global) -> Result<Test, AllocError>
        ensures { IfOk result (λ copy. v.test copy ≡ v.test self.now) }
    {
        match self {
            Test::Everything => Ok(Test::Everything),
            Test::On(of) => Ok(Test::On(of.try_clone(alloc)?)),
            Test::Malformed(form) => Ok(Test::Malformed(boxed_copy(alloc, form)?)),
        }
    }
}

impl Arguments {
    /// Equal operands with the same names.
    #[cycle(copying)]
    #[tactic(auto, using(crate::proofs::Views::views))]
    pub fn try_clone(&self, alloc: Global) -> Result<Arguments, AllocError>
        ensures { IfOk result (λ copy. v.arguments copy ≡ v.arguments self.now) }
    {
        Ok(Arguments {
            forms: try_clone_cores(alloc, &self.forms)?,
            names: Vec::from_slice(alloc, &self.names)?,
        })
    }
}

impl Handler {
    /// An equal handler.
    #[cycle(copying)]
    #[tactic(auto, using(crate::proofs::Views::views))]
    pub fn try_clone(&self, alloc: Global) -> Result<Handler, AllocError>
        ensures { IfOk result (λ copy. v.handler copy ≡ v.handler self.now) }
    {
        Ok(Handler {
            test: self.test.try_clone(alloc)?,
            exception: self.exception,
            trace: self.trace,
            body: self.body.try_clone(alloc)?,
        })
    }
}

/// Equal handlers in the same order.
#[cycle(copying)]
#[tactic(auto, using(crate::proofs::Views::views))]
pub fn try_clone_handlers(alloc: Global, handlers: &[Handler]) -> Result<Vec<Handler>, AllocError>
    ensures { IfOk result (λ copies. map v.handler copies.items ≡ map v.handler handlers.now) }
{
    let mut copies = Vec::new(alloc);
    for one in handlers {
        copies.push(one.try_clone(alloc)?)?;
    }
    Ok(copies)
}

impl Case {
    /// An equal case.
    #[cycle(copying)]
    #[tactic(auto, using(crate::proofs::Views::views))]
    pub fn try_clone(&self, alloc: Global) -> Result<Case, AllocError>
        ensures { IfOk result (λ copy. v.case copy ≡ v.case self.now) }
    {
        Ok(Case {
            value: self.value,
            body: self.body.try_clone(alloc)?,
        })
    }
}

/// Equal cases in the same order.
#[cycle(copying)]
#[tactic(auto, using(crate::proofs::Views::views))]
pub fn try_clone_cases(alloc: Global, cases: &[Case]) -> Result<Vec<Case>, AllocError>
    ensures { IfOk result (λ copies. map v.case copies.items ≡ map v.case cases.now) }
{
    let mut copies = Vec::new(alloc);
    for one in cases {
        copies.push(one.try_clone(alloc)?)?;
    }
    Ok(copies)
}
