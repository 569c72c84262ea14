// What a function is in short: a native of `this` and its parameter, a native of `this`, a field that is read, or a field that is
// written (ECMA-408, 9.4 External Functions, 10.1.1 Operators, 10.2 Getters, 10.3 Setters).
ghost use Rattle.std.specs.Prelude.{◌≡◌, ◌<◌, ◌∷◌, [], Some, true, map, IfSome};
ghost use Rattle.core_program.specs.ProgramView as p;
ghost use Rattle.core_program.specs.View as v;
ghost use Rattle.core_program.specs.declared.form.Form.TheViews.{out-Arguments, out-Core};
ghost use Rattle.evaluation.specs.Classes.{function_at, member_at, member_function};
ghost use Rattle.machine_lookup.specs.Shapes.{is_this, is_this_leaf, reads, reads_leaf, native_of_form, native_of_body, native_of, native_of_member, site_of_member, reading_of_leaf, reading_of_row, reading_of_form, reading_of_body, reading_over, reading_of_member, field_written, writing_of_form, writing_of_body, writing_of, writing_of_member};
ghost use Rattle.machine_lookup.specs.Found.{reading};

use crate::program::{function_at, member_function};
use crate::row::first_form;
use core_program::form::{Arguments, Core, Form, Job, Leaf, Part, Unary};
use core_program::program::{CoreProgram, Function, Parameter};
use dart_ir::kind::Shape;
use dart_ir::native::NativeId;

/// What a getter is that answers at once.
#[derive(Clone, Copy)]
pub enum Reads {
    /// The field of `this` with the number.
    Field(u32),
    /// The native of `this`.
    Native(NativeId),
}

fn is_this(leaf: Leaf) -> bool
    ensures { result ≡ is_this_leaf (v.leaf leaf) }
{
    match leaf {
        Leaf::Const(_) => false,
        Leaf::This => true,
        Leaf::Read(_) => false,
        Leaf::StaticRead(_) => false,
        Leaf::Field(_) => false,
        Leaf::Closure(_) => false,
        Leaf::Jump(_, _) => false,
        Leaf::Rethrow => false,
        Leaf::Raise {
            error: _,
            name: _,
            is_setter: _,
        } => false,
    }
}

fn reads_variable(leaf: Leaf, var: u32) -> bool
    ensures { result ≡ reads_leaf (v.leaf leaf) var }
{
    match leaf {
        Leaf::Const(_) => false,
        Leaf::This => false,
        Leaf::Read(other) => other == var,
        Leaf::StaticRead(_) => false,
        Leaf::Field(_) => false,
        Leaf::Closure(_) => false,
        Leaf::Jump(_, _) => false,
        Leaf::Rethrow => false,
        Leaf::Raise {
            error: _,
            name: _,
            is_setter: _,
        } => false,
    }
}

// Whether a form is `this`.
#[tactic(auto, using(crate::proofs::Short::this_seen))]
fn is_this_form(core: &Core) -> bool
    ensures { result ≡ true → is_this (v.form (out-Core core.now).form) ≡ true }
{
    let Form::Leaf(leaf) = &core.form else {
        return false;
    };
    is_this(*leaf)
}

// Whether a form is the variable.
#[tactic(auto, using(crate::proofs::Short::variable_seen))]
fn is_variable(core: &Core, var: u32) -> bool
    ensures { result ≡ true → reads (v.form (out-Core core.now).form) var ≡ true }
{
    let Form::Leaf(leaf) = &core.form else {
        return false;
    };
    reads_variable(*leaf, var)
}

// Both operands, where there are two and none goes by a name.
fn two_operands(arguments: &Arguments) -> Option<(&Core, &Core)>
    ensures { IfSome result (λ p. ((out-Arguments arguments.now).forms.items ≡ p.0.now ∷ p.1.now ∷ []) × ((out-Arguments arguments.now).names.items ≡ [])) }
{
    if arguments.names.len() != 0 {
        return None;
    }
    let Some((first, rest)) = first_form(arguments.forms.as_slice()) else {
        return None;
    };
    let Some((second, none)) = first_form(rest) else {
        return None;
    };
    match first_form(none) {
        None => Some((first, second)),
        Some(_) => None,
    }
}

// The operand, where there is one alone and it goes by no name.
fn one_operand(arguments: &Arguments) -> Option<&Core>
    ensures { IfSome result (λ x. ((out-Arguments arguments.now).forms.items ≡ x.now ∷ []) × ((out-Arguments arguments.now).names.items ≡ [])) }
{
    if arguments.names.len() != 0 {
        return None;
    }
    let Some((first, none)) = first_form(arguments.forms.as_slice()) else {
        return None;
    };
    match first_form(none) {
        None => Some(first),
        Some(_) => None,
    }
}

// The native of `this` and the variable that a form is. `None` says nothing, as everywhere here.
#[tactic(auto, using(crate::proofs::Short::native_seen))]
fn native_of_form(form: &Form, var: u32) -> Option<NativeId>
    ensures { IfSome result (λ id. native_of_form (v.form form.now) var ≡ Some id) }
{
    let Form::Row(job, arguments) = form else {
        return None;
    };
    let Job::Native(id) = job else {
        return None;
    };
    let Some((first, second)) = two_operands(arguments) else {
        return None;
    };
    if !is_this_form(first) || !is_variable(second, var) {
        return None;
    }
    Some(*id)
}

#[tactic(auto, using(core_program::proofs::Views::views))]
fn native_of_body(body: &Part, var: u32) -> Option<NativeId>
    ensures { IfSome result (λ id. native_of_body (v.part body.now) var ≡ Some id) }
{
    let Part::Given(core) = body else {
        return None;
    };
    native_of_form(&core.form, var)
}

// The parameter of a function that has one alone, given by place, and no variable with a cell.
fn only_parameter(function: &Function) -> Option<&Parameter>
    ensures { IfSome result (λ q. (function.now.parameters.items ≡ q.now ∷ []) × (q.now.shape ≡ Shape.Required) × (q.now.var < function.now.vars)
        × (function.now.cells.items ≡ []) × (function.now.captures.items ≡ [])) }
{
    if function.cells.len() != 0 || function.captures.len() != 0 {
        return None;
    }
    let Some((parameter, rest)) = function.parameters.as_slice().split_first() else {
        return None;
    };
    let Shape::Required = parameter.shape else {
        return None;
    };
    if rest.len() != 0 || parameter.var >= function.vars {
        return None;
    }
    Some(parameter)
}

#[tactic(auto, using(crate::proofs::Short::native_over_one))]
fn native_of(function: &Function) -> Option<NativeId>
    ensures { IfSome result (λ id. native_of (p.function function.now) ≡ Some id) }
{
    match only_parameter(function) {
        None => None,
        Some(parameter) => native_of_body(&function.body, parameter.var),
    }
}

/// The site of the first parameter of a method.
pub fn site_of_member(program: &CoreProgram, member: Option<u32>) -> Option<u32>
    ensures { result ≡ site_of_member (p.program program.now) member }
{
    let Some(number) = member else {
        return None;
    };
    let Some(function) = function_at(program, member_function(program, number)) else {
        return None;
    };
    let Some((parameter, _)) = function.parameters.as_slice().split_first() else {
        return None;
    };
    Some(parameter.site.0)
}

/// The native of `this` and its parameter that a method is.
pub fn native_of_member(program: &CoreProgram, member: Option<u32>) -> Option<NativeId>
    ensures { IfSome result (λ id. native_of_member (p.program program.now) member ≡ Some id) }
{
    let Some(number) = member else {
        return None;
    };
    match function_at(program, member_function(program, number)) {
        None => None,
        Some(function) => native_of(function),
    }
}

fn reading_of_leaf(leaf: Leaf) -> Option<Reads>
    ensures { IfSome result (λ x. reading_of_leaf (v.leaf leaf) ≡ Some (reading x)) }
{
    match leaf {
        Leaf::Field(index) => Some(Reads::Field(index)),
        _ => None,
    }
}

#[tactic(auto, using(crate::proofs::Short::reading_seen))]
fn reading_of_row(job: Job, arguments: &Arguments) -> Option<Reads>
    ensures { IfSome result (λ x. reading_of_form (v.form (Form.Row job arguments.now)) ≡ Some (reading x)) }
{
    let Job::Native(id) = job else {
        return None;
    };
    let Some(first) = one_operand(arguments) else {
        return None;
    };
    if is_this_form(first) {
        Some(Reads::Native(id))
    } else {
        None
    }
}

#[tactic(auto, using(core_program::proofs::Views::views))]
fn reading_of_form(form: &Form) -> Option<Reads>
    ensures { IfSome result (λ x. reading_of_form (v.form form.now) ≡ Some (reading x)) }
{
    match form {
        Form::Leaf(leaf) => reading_of_leaf(*leaf),
        Form::Row(job, arguments) => reading_of_row(*job, arguments),
        _ => None,
    }
}

#[tactic(auto, using(core_program::proofs::Views::views))]
fn reading_of_body(body: &Part) -> Option<Reads>
    ensures { IfSome result (λ x. reading_of_body (v.part body.now) ≡ Some (reading x)) }
{
    let Part::Given(core) = body else {
        return None;
    };
    reading_of_form(&core.form)
}

fn reading_of(function: &Function) -> Option<Reads>
    ensures { IfSome result (λ x. reading_over (p.function function.now).parameters (p.function function.now).body ≡ Some (reading x)) }
{
    match function.parameters.as_slice().split_first() {
        None => reading_of_body(&function.body),
        Some(_) => None,
    }
}

/// The field of `this` or the native of `this` that a getter is.
pub fn reading_of_member(program: &CoreProgram, member: Option<u32>) -> Option<Reads>
    ensures { IfSome result (λ x. reading_of_member (p.program program.now) member ≡ Some (reading x)) }
{
    let Some(number) = member else {
        return None;
    };
    match function_at(program, member_function(program, number)) {
        None => None,
        Some(function) => reading_of(function),
    }
}

fn field_written(one: Unary) -> Option<u32>
    ensures { IfSome result (λ i. field_written (v.unary one) ≡ Some i) }
{
    match one {
        Unary::FieldWrite(index) => Some(index),
        _ => None,
    }
}

#[tactic(auto, using(crate::proofs::Short::writing_seen))]
fn writing_of_form(form: &Form, var: u32) -> Option<u32>
    ensures { IfSome result (λ i. writing_of_form (v.form form.now) var ≡ Some i) }
{
    let Form::Unary(one, operand) = form else {
        return None;
    };
    if !is_variable(operand, var) {
        return None;
    }
    field_written(*one)
}

#[tactic(auto, using(core_program::proofs::Views::views))]
fn writing_of_body(body: &Part, var: u32) -> Option<u32>
    ensures { IfSome result (λ i. writing_of_body (v.part body.now) var ≡ Some i) }
{
    let Part::Given(core) = body else {
        return None;
    };
    writing_of_form(&core.form, var)
}

#[tactic(auto, using(crate::proofs::Short::writing_over_one))]
fn writing_of(function: &Function) -> Option<u32>
    ensures { IfSome result (λ i. writing_of (p.function function.now) ≡ Some i) }
{
    match only_parameter(function) {
        None => None,
        Some(parameter) => writing_of_body(&function.body, parameter.var),
    }
}

/// The field of `this` that a setter writes.
pub fn writing_of_member(program: &CoreProgram, member: Option<u32>) -> Option<u32>
    ensures { IfSome result (λ i. writing_of_member (p.program program.now) member ≡ Some i) }
{
    let Some(number) = member else {
        return None;
    };
    match function_at(program, member_function(program, number)) {
        None => None,
        Some(function) => writing_of(function),
    }
}
