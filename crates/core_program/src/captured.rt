// Which variables live in cells.
ghost use Rattle.std.specs.Prelude.{◌≡◌, ◌↔◌, IsTrue, nat_eq, map, slice_get, MatchOption};
ghost use Rattle.std.specs.List.{list_any};
ghost use Rattle.core_program.specs.Core as c;
ghost use Rattle.core_program.specs.View as v;
ghost use Rattle.core_program.specs.ProgramView.{program, function};
ghost use Rattle.core_program.specs.Captured.{IsCaptured, ListCaptures, declares, handler_declares, handlers_declare, is_variable, unary_declares, function_captures, form_of, nodes, form_nodes, part_nodes, test_nodes, cores_nodes, handler_nodes, handlers_nodes, case_nodes, cases_nodes};
ghost use Rattle.core_program.specs.Seeking.{seeks, seeks_form, takes, leaf_takes, takes_declared};

use crate::form::{Attempt, Case, Core, Form, Handler, Leaf, Part, Test, Unary};
use crate::program::{CoreProgram, Function, Parameter};
use dart_ir::number::DeclId;

/// Whether the function declares the variable, and a function literal or local function inside it names it. Then the
/// variable lives in a cell. Takes no memory.
#[tactic(auto, using(crate::proofs::Exact::exact_captures))]
pub fn captured(p: &CoreProgram, f: DeclId, var: u32) -> bool
    ensures { ListCaptures (program p.now).functions → (IsTrue result ↔ IsCaptured (program p.now).functions f.0 var) }
{
    declares_and_shares(&p.functions, f, var)
}

fn function_at(functions: &[Function], f: DeclId) -> Option<&Function>
    ensures { MatchOption result (slice_get functions.now f.0 ≡ None) (λ x. slice_get functions.now f.0 ≡ Some x.now) }
{
    functions.get(f.0 as usize)
}

/// Whether the function declares the variable, and a function directly in it takes it along.
#[tactic(auto, using(crate::proofs::Seeks::found))]
fn declares_and_shares(functions: &[Function], f: DeclId, var: u32) -> bool
    ensures { result ≡ takes_declared (map function functions.now) f.0 var }
{
    match function_at(functions, f) {
        None => false,
        Some(function) => {
            (is_parameter(&function.parameters, var)
                || is_in_part(functions, Wanted::Declaration(var), &function.body))
                && is_in_part(functions, Wanted::Capture(var), &function.body)
        }
    }
}

fn is_parameter(parameters: &[Parameter], var: u32) -> bool
    ensures { result ≡ list_any (λ q. nat_eq q.var var) parameters.now }
{
    parameters.iter().any(|parameter| parameter.var == var)
}

/// What is looked for among the forms of a function.
#[derive(Clone, Copy)]
pub enum Wanted {
    /// A form that declares the variable.
    Declaration(u32),
    /// A closure that takes the variable along.
    Capture(u32),
}

/// Whether the form or one in it is wanted.
#[cycle(seeking)]
#[tactic(auto, using(crate::proofs::Views::views, crate::proofs::Seeks::any_append))]
fn is_in(functions: &[Function], wanted: Wanted, core: &Core) -> bool
    ensures { result ≡ list_any (seeks (map function functions.now) wanted) (nodes (v.core core.now)) }
{
    is_wanted(functions, wanted, &core.form) || is_in_form(functions, wanted, &core.form)
}

/// Whether a form in the form is wanted.
#[cycle(seeking)]
#[tactic(auto, using(crate::proofs::Views::views, crate::proofs::Seeks::any_append))]
fn is_in_form(functions: &[Function], wanted: Wanted, form: &Form) -> bool
    ensures { result ≡ list_any (seeks (map function functions.now) wanted) (form_nodes (v.form form.now)) }
{
    match form {
        Form::Leaf(_) => false,
        Form::TypeLiteral(_) => false,
        Form::Unary(_, operand) => is_in(functions, wanted, operand),
        Form::Binary(_, first, second) => {
            is_in(functions, wanted, first) || is_in(functions, wanted, second)
        }
        Form::Row(_, arguments) => is_in_cores(functions, wanted, &arguments.forms),
        Form::Let {
            var: _,
            value,
            body,
        } => is_in(functions, wanted, value) || is_in(functions, wanted, body),
        Form::Block(forms) => is_in_cores(functions, wanted, forms),
        Form::If {
            condition,
            first,
            second,
        } => {
            is_in(functions, wanted, condition)
                || is_in_part(functions, wanted, first)
                || is_in_part(functions, wanted, second)
        }
        Form::New {
            class: _,
            constructor: _,
            types: _,
            arguments,
        } => is_in_cores(functions, wanted, &arguments.forms),
        Form::List { types: _, items } => is_in_cores(functions, wanted, items),
        Form::Is(value, _) => is_in(functions, wanted, value),
        Form::As(value, _) => is_in(functions, wanted, value),
        Form::Loop {
            target: _,
            copies: _,
            condition,
            update,
            body,
        } => {
            is_in_part(functions, wanted, condition)
                || is_in_part(functions, wanted, update)
                || is_in_part(functions, wanted, body)
        }
        Form::Return(value) => is_in_part(functions, wanted, value),
        Form::Try(attempt) => is_in_attempt(functions, wanted, attempt),
        Form::Switch {
            target: _,
            value,
            cases,
        } => is_in(functions, wanted, value) || is_in_cases(functions, wanted, cases),
        Form::Labelled(_, body) => is_in(functions, wanted, body),
    }
}

#[cycle(seeking)]
#[tactic(auto, using(crate::proofs::Views::views, crate::proofs::Seeks::any_append))]
fn is_in_attempt(functions: &[Function], wanted: Wanted, attempt: &Attempt) -> bool
    ensures { result ≡ list_any (seeks (map function functions.now) wanted) (form_nodes (v.attempt attempt.now)) }
{
    is_in(functions, wanted, &attempt.body)
        || is_in_handlers(functions, wanted, &attempt.handlers)
        || is_in_part(functions, wanted, &attempt.last)
}

#[cycle(seeking)]
#[tactic(auto, using(crate::proofs::Views::views, crate::proofs::Seeks::any_append))]
fn is_in_part(functions: &[Function], wanted: Wanted, part: &Part) -> bool
    ensures { result ≡ list_any (seeks (map function functions.now) wanted) (part_nodes (v.part part.now)) }
{
    match part {
        Part::Missing => false,
        Part::Given(form) => is_in(functions, wanted, form),
    }
}

#[cycle(seeking)]
#[tactic(auto, using(crate::proofs::Views::views, crate::proofs::Seeks::any_append))]
fn is_in_test(functions: &[Function], wanted: Wanted, test: &Test) -> bool
    ensures { result ≡ list_any (seeks (map function functions.now) wanted) (test_nodes (v.test test.now)) }
{
    match test {
        Test::Everything => false,
        Test::On(_) => false,
        Test::Malformed(form) => is_in(functions, wanted, form),
    }
}

#[cycle(seeking)]
#[tactic(auto, using(crate::proofs::Views::views, crate::proofs::Seeks::any_append))]
fn is_in_cores(functions: &[Function], wanted: Wanted, cores: &[Core]) -> bool
    ensures { result ≡ list_any (seeks (map function functions.now) wanted) (cores_nodes (c.cores (map v.core cores.now))) }
{
    for one in cores {
        if is_in(functions, wanted, one) {
            return true;
        }
    }
    false
}

#[cycle(seeking)]
#[tactic(auto, using(crate::proofs::Views::views, crate::proofs::Seeks::any_append))]
fn is_in_handlers(functions: &[Function], wanted: Wanted, handlers: &[Handler]) -> bool
    ensures { result ≡ list_any (seeks (map function functions.now) wanted) (handlers_nodes (c.handlers (map v.handler handlers.now))) }
{
    for one in handlers {
        if is_in_handler(functions, wanted, one) {
            return true;
        }
    }
    false
}

#[cycle(seeking)]
#[tactic(auto, using(crate::proofs::Views::views, crate::proofs::Seeks::any_append))]
fn is_in_handler(functions: &[Function], wanted: Wanted, handler: &Handler) -> bool
    ensures { result ≡ list_any (seeks (map function functions.now) wanted) (handler_nodes (v.handler handler.now)) }
{
    is_in_test(functions, wanted, &handler.test) || is_in(functions, wanted, &handler.body)
}

#[cycle(seeking)]
#[tactic(auto, using(crate::proofs::Views::views, crate::proofs::Seeks::any_append))]
fn is_in_cases(functions: &[Function], wanted: Wanted, cases: &[Case]) -> bool
    ensures { result ≡ list_any (seeks (map function functions.now) wanted) (cases_nodes (c.cases (map v.case cases.now))) }
{
    for one in cases {
        if is_in_case(functions, wanted, one) {
            return true;
        }
    }
    false
}

#[cycle(seeking)]
#[tactic(auto, using(crate::proofs::Views::views, crate::proofs::Seeks::any_append))]
fn is_in_case(functions: &[Function], wanted: Wanted, case: &Case) -> bool
    ensures { result ≡ list_any (seeks (map function functions.now) wanted) (case_nodes (v.case case.now)) }
{
    is_in(functions, wanted, &case.body)
}

/// Whether the form itself is wanted.
#[tactic(auto, using(crate::proofs::Views::views))]
fn is_wanted(functions: &[Function], wanted: Wanted, form: &Form) -> bool
    ensures { result ≡ seeks_form (map function functions.now) wanted (v.form form.now) }
{
    match wanted {
        Wanted::Declaration(var) => does_declare(form, var),
        Wanted::Capture(var) => does_take(functions, form, var),
    }
}

/// Whether the form itself declares the variable.
#[tactic(auto, using(crate::proofs::Views::views))]
fn does_declare(form: &Form, var: u32) -> bool
    ensures { result ≡ declares var (v.form form.now) }
{
    match form {
        Form::Leaf(_) => false,
        Form::TypeLiteral(_) => false,
        Form::Unary(unary, _) => does_unary_declare(*unary, var),
        Form::Binary(_, _, _) => false,
        Form::Row(_, _) => false,
        Form::Let {
            var: own,
            value: _,
            body: _,
        } => var == *own,
        Form::Block(_) => false,
        Form::If {
            condition: _,
            first: _,
            second: _,
        } => false,
        Form::New {
            class: _,
            constructor: _,
            types: _,
            arguments: _,
        } => false,
        Form::List { types: _, items: _ } => false,
        Form::Is(_, _) => false,
        Form::As(_, _) => false,
        Form::Loop {
            target: _,
            copies: _,
            condition: _,
            update: _,
            body: _,
        } => false,
        Form::Return(_) => false,
        Form::Try(attempt) => do_handlers_declare(&attempt.handlers, var),
        Form::Switch {
            target: _,
            value: _,
            cases: _,
        } => false,
        Form::Labelled(_, _) => false,
    }
}

fn does_unary_declare(unary: Unary, var: u32) -> bool
    ensures { result ≡ unary_declares var (v.unary unary) }
{
    match unary {
        Unary::Var(own) => var == own,
        Unary::Write(_) => false,
        Unary::StaticWrite(_) => false,
        Unary::FieldWrite(_) => false,
        Unary::Get(_) => false,
        Unary::Check(_) => false,
        Unary::Throw => false,
    }
}

fn do_handlers_declare(handlers: &[Handler], var: u32) -> bool
    ensures { result ≡ handlers_declare var (c.handlers (map v.handler handlers.now)) }
{
    for one in handlers {
        if does_handler_declare(one, var) {
            return true;
        }
    }
    false
}

#[tactic(auto, using(crate::proofs::Views::views))]
fn does_handler_declare(handler: &Handler, var: u32) -> bool
    ensures { result ≡ handler_declares var (v.handler handler.now) }
{
    is_variable(handler.exception, var) || is_variable(handler.trace, var)
}

fn is_variable(own: Option<u32>, var: u32) -> bool
    ensures { result ≡ is_variable var own }
{
    match own {
        None => false,
        Some(own) => var == own,
    }
}

/// Whether the form itself makes a closure that takes the variable along.
#[tactic(auto, using(crate::proofs::Views::views))]
fn does_take(functions: &[Function], form: &Form, var: u32) -> bool
    ensures { result ≡ takes (map function functions.now) var (v.form form.now) }
{
    match form {
        Form::Leaf(leaf) => does_leaf_take(functions, *leaf, var),
        Form::TypeLiteral(_) => false,
        Form::Unary(_, _) => false,
        Form::Binary(_, _, _) => false,
        Form::Row(_, _) => false,
        Form::Let {
            var: _,
            value: _,
            body: _,
        } => false,
        Form::Block(_) => false,
        Form::If {
            condition: _,
            first: _,
            second: _,
        } => false,
        Form::New {
            class: _,
            constructor: _,
            types: _,
            arguments: _,
        } => false,
        Form::List { types: _, items: _ } => false,
        Form::Is(_, _) => false,
        Form::As(_, _) => false,
        Form::Loop {
            target: _,
            copies: _,
            condition: _,
            update: _,
            body: _,
        } => false,
        Form::Return(_) => false,
        Form::Try(_) => false,
        Form::Switch {
            target: _,
            value: _,
            cases: _,
        } => false,
        Form::Labelled(_, _) => false,
    }
}

fn does_leaf_take(functions: &[Function], leaf: Leaf, var: u32) -> bool
    ensures { result ≡ leaf_takes (map function functions.now) var (v.leaf leaf) }
{
    match leaf {
        Leaf::Const(_) => false,
        Leaf::This => false,
        Leaf::Read(_) => false,
        Leaf::StaticRead(_) => false,
        Leaf::Field(_) => false,
        Leaf::Closure(inner) => does_capture(functions, inner, var),
        Leaf::Jump(_, _) => false,
        Leaf::Rethrow => false,
        Leaf::Raise {
            error: _,
            name: _,
            is_setter: _,
        } => false,
    }
}

/// Whether the function takes the variable along.
#[tactic(auto, using(crate::proofs::Seeks::found))]
fn does_capture(functions: &[Function], f: DeclId, var: u32) -> bool
    ensures { result ≡ function_captures var (slice_get (map function functions.now) f.0) }
{
    match function_at(functions, f) {
        None => false,
        Some(function) => is_among(&function.captures, var),
    }
}

fn is_among(vars: &[u32], var: u32) -> bool
    ensures { result ≡ list_any (nat_eq var) vars.now }
{
    vars.iter().any(|one| var == *one)
}
