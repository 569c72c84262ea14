// Whether the names in forms are below a count.
ghost use Rattle.std.specs.Prelude.{◌≡◌, ◌++◌, map};
ghost use Rattle.core_program.specs.Core as c;
ghost use Rattle.core_program.specs.View as v;
ghost use Rattle.core_names.specs.Names.{leaf_names, unary_names, binary_names, job_names, core_names, form_names, cores_names, part_names, handlers_names, handler_names, test_names, case_names, cases_names};
ghost use Rattle.core_names.specs.Within.{are_below};

use crate::types::{are_types_within, is_type_within};
use core_program::form::{
    Arguments, Attempt, Binary, Case, Core, Form, Handler, Job, Leaf, Part, Test, Unary,
};
use dart_base::name::Name;

fn is_leaf_within(leaf: Leaf, count: u32) -> bool
    ensures { result ≡ are_below count (leaf_names (v.leaf leaf)) }
{
    match leaf {
        Leaf::Raise { name, .. } => name.0 < count,
        _ => true,
    }
}

fn is_unary_within(unary: Unary, count: u32) -> bool
    ensures { result ≡ are_below count (unary_names (v.unary unary)) }
{
    match unary {
        Unary::Get(name) => name.0 < count,
        _ => true,
    }
}

fn is_binary_within(binary: Binary, count: u32) -> bool
    ensures { result ≡ are_below count (binary_names (v.binary binary)) }
{
    match binary {
        Binary::Equal => true,
        Binary::Set(name) => name.0 < count,
    }
}

fn is_job_within(job: Job, count: u32) -> bool
    ensures { result ≡ are_below count (job_names (v.job job)) }
{
    match job {
        Job::Send(name) => name.0 < count,
        Job::Super(_, name) => name.0 < count,
        _ => true,
    }
}

fn are_names_within(names: &[Name], count: u32) -> bool
    ensures { result ≡ are_below count (v.names names.now) }
{
    for name in names {
        if name.0 >= count {
            return false;
        }
    }
    true
}

/// Whether each name in the form is below the count.
#[cycle(walking)]
#[tactic(auto, using(core_program::proofs::Views::views, crate::proofs::Below::listed))]
fn is_core_within(core: &Core, count: u32) -> bool
    ensures { result ≡ are_below count (core_names (v.core core.now)) }
{
    is_form_within(&core.form, count)
}

#[cycle(walking)]
#[tactic(auto, using(core_program::proofs::Views::views, crate::proofs::Below::listed))]
fn is_form_within(form: &Form, count: u32) -> bool
    ensures { result ≡ are_below count (form_names (v.form form.now)) }
{
    match form {
        Form::Leaf(leaf) => is_leaf_within(*leaf, count),
        Form::TypeLiteral(t) => is_type_within(t, count),
        Form::Unary(unary, operand) => {
            is_unary_within(*unary, count) && is_core_within(operand, count)
        }
        Form::Binary(binary, first, second) => {
            is_binary_within(*binary, count)
                && is_core_within(first, count)
                && is_core_within(second, count)
        }
        Form::Row(job, arguments) => {
            is_job_within(*job, count) && are_arguments_within(arguments, count)
        }
        Form::Let { value, body, .. } => {
            is_core_within(value, count) && is_core_within(body, count)
        }
        Form::Block(forms) => are_cores_within(forms, count),
        Form::If {
            condition,
            first,
            second,
        } => {
            is_core_within(condition, count)
                && is_part_within(first, count)
                && is_part_within(second, count)
        }
        Form::New {
            types,
            arguments,
            ..
        } => are_types_within(types, count) && are_arguments_within(arguments, count),
        Form::List { types, items } => {
            are_types_within(types, count) && are_cores_within(items, count)
        }
        Form::Is(value, t) => is_core_within(value, count) && is_type_within(t, count),
        Form::As(value, t) => is_core_within(value, count) && is_type_within(t, count),
        Form::Loop {
            condition,
            update,
            body,
            ..
        } => {
            is_part_within(condition, count)
                && is_part_within(update, count)
                && is_part_within(body, count)
        }
        Form::Return(value) => is_part_within(value, count),
        Form::Try(attempt) => is_attempt_within(attempt, count),
        Form::Switch { value, cases, .. } => {
            is_core_within(value, count) && are_cases_within(cases, count)
        }
        Form::Labelled(_, body) => is_core_within(body, count),
    }
}

#[cycle(walking)]
#[tactic(auto, using(core_program::proofs::Views::views, crate::proofs::Below::listed))]
fn are_arguments_within(arguments: &Arguments, count: u32) -> bool
    ensures { let row = v.arguments arguments.now in result ≡ are_below count (cores_names row.0 ++ row.1) }
{
    are_cores_within(&arguments.forms, count) && are_names_within(&arguments.names, count)
}

#[cycle(walking)]
#[tactic(auto, using(core_program::proofs::Views::views, crate::proofs::Below::listed))]
fn is_attempt_within(attempt: &Attempt, count: u32) -> bool
    ensures { result ≡ are_below count (form_names (v.attempt attempt.now)) }
{
    is_core_within(&attempt.body, count)
        && are_handlers_within(&attempt.handlers, count)
        && is_part_within(&attempt.last, count)
}

/// Whether each name in the part, where it is there, is below the count.
#[cycle(walking)]
#[tactic(auto, using(core_program::proofs::Views::views, crate::proofs::Below::listed))]
pub(crate) fn is_part_within(part: &Part, count: u32) -> bool
    ensures { result ≡ are_below count (part_names (v.part part.now)) }
{
    match part {
        Part::Missing => true,
        Part::Given(form) => is_core_within(form, count),
    }
}

#[cycle(walking)]
#[tactic(auto, using(core_program::proofs::Views::views, crate::proofs::Below::listed))]
fn are_cores_within(cores: &[Core], count: u32) -> bool
    ensures { result ≡ are_below count (cores_names (c.cores (map v.core cores.now))) }
{
    for one in cores {
        if !is_core_within(one, count) {
            return false;
        }
    }
    true
}

#[cycle(walking)]
#[tactic(auto, using(core_program::proofs::Views::views, crate::proofs::Below::listed))]
fn are_handlers_within(handlers: &[Handler], count: u32) -> bool
    ensures { result ≡ are_below count (handlers_names (c.handlers (map v.handler handlers.now))) }
{
    for one in handlers {
        if !is_handler_within(one, count) {
            return false;
        }
    }
    true
}

#[cycle(walking)]
#[tactic(auto, using(core_program::proofs::Views::views, crate::proofs::Below::listed))]
fn is_handler_within(handler: &Handler, count: u32) -> bool
    ensures { result ≡ are_below count (handler_names (v.handler handler.now)) }
{
    is_test_within(&handler.test, count) && is_core_within(&handler.body, count)
}

#[cycle(walking)]
#[tactic(auto, using(core_program::proofs::Views::views, crate::proofs::Below::listed))]
fn is_test_within(test: &Test, count: u32) -> bool
    ensures { result ≡ are_below count (test_names (v.test test.now)) }
{
    match test {
        Test::Everything => true,
        Test::On(t) => is_type_within(t, count),
        Test::Malformed(form) => is_core_within(form, count),
    }
}

#[cycle(walking)]
#[tactic(auto, using(core_program::proofs::Views::views, crate::proofs::Below::listed))]
fn are_cases_within(cases: &[Case], count: u32) -> bool
    ensures { result ≡ are_below count (cases_names (c.cases (map v.case cases.now))) }
{
    for one in cases {
        if !is_case_within(one, count) {
            return false;
        }
    }
    true
}

#[cycle(walking)]
#[tactic(auto, using(core_program::proofs::Views::views, crate::proofs::Below::listed))]
fn is_case_within(case: &Case, count: u32) -> bool
    ensures { result ≡ are_below count (case_names (v.case case.now)) }
{
    is_core_within(&case.body, count)
}
