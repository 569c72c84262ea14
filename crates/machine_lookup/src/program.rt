// What a program lists.
ghost use Rattle.std.specs.Prelude.{◌≡◌, None, Some, [], MatchOption, slice_get};
ghost use Rattle.core_program.specs.ProgramView as v;
ghost use Rattle.core_program.specs.View as w;
ghost use Rattle.evaluation.specs.State.{Source, a_function, an_initialiser};
ghost use Rattle.evaluation.specs.Classes.{function_at, static_of, class_at, member_at, field_count, is_abstract, member_function, member_owner, class_of_function, kind_of_function};
ghost use Rattle.machine_lookup.specs.Rows.{is_factory_kind};
ghost use Rattle.evaluation.specs.Invocation.{name_of};
ghost use Rattle.evaluation.specs.Variables.{function_cells, function_captures, static_cells};
ghost use Rattle.evaluation.specs.Parts.{is_block, is_block_part, is_closure, is_closure_leaf, takes_step, form_of};

use core_program::form::{Core, Form, Leaf, Part};
use core_program::program::{CoreProgram, Function, FunctionKind, StaticVar};
use dart_ir::class::{ClassInfo, MemberInfo};

/// The function of the number.
#[inline(always)]
pub fn function_at<'a>(program: &'a CoreProgram, number: u32) -> Option<&'a Function>
    ensures { MatchOption result (function_at (v.program program.now) number ≡ None)
        (λ x. function_at (v.program program.now) number ≡ Some (v.function x.now)) }
{
    program.functions.get(number as usize)
}

/// The static variable of the number.
pub fn static_of<'a>(program: &'a CoreProgram, number: u32) -> Option<&'a StaticVar>
    ensures { MatchOption result (static_of (v.program program.now) number ≡ None)
        (λ x. static_of (v.program program.now) number ≡ Some (v.static x.now)) }
{
    program.statics.get(number as usize)
}

/// The class of the number.
#[inline(always)]
pub fn class_at<'a>(program: &'a CoreProgram, number: u32) -> Option<&'a ClassInfo>
    ensures { MatchOption result (class_at (v.program program.now) number ≡ None)
        (λ x. class_at (v.program program.now) number ≡ Some (v.class x.now)) }
{
    program.classes.classes.get(number as usize)
}

/// The instance member of the number.
#[inline(always)]
pub fn member_at<'a>(program: &'a CoreProgram, number: u32) -> Option<&'a MemberInfo>
    ensures { MatchOption result (member_at (v.program program.now) number ≡ None)
        (λ x. member_at (v.program program.now) number ≡ Some (v.member x.now)) }
{
    program.classes.members.get(number as usize)
}

/// How many fields an instance of the class has.
pub fn field_count(program: &CoreProgram, class: u32) -> u32
    ensures { result ≡ field_count (class_at (v.program program.now) class) }
{
    match class_at(program, class) {
        None => 0,
        Some(info) => info.fields,
    }
}

pub fn is_abstract(program: &CoreProgram, class: u32) -> bool
    ensures { result ≡ is_abstract (class_at (v.program program.now) class) }
{
    match class_at(program, class) {
        None => false,
        Some(info) => info.is_abstract,
    }
}

/// The function of a member.
#[inline(always)]
pub fn member_function(program: &CoreProgram, member: u32) -> u32
    ensures { result ≡ member_function (member_at (v.program program.now) member) }
{
    match member_at(program, member) {
        None => 0,
        Some(info) => info.function.0,
    }
}

/// The class that declares a member.
#[inline(always)]
pub fn member_owner(program: &CoreProgram, member: u32) -> u32
    ensures { result ≡ member_owner (member_at (v.program program.now) member) }
{
    match member_at(program, member) {
        None => 0,
        Some(info) => info.owner.0,
    }
}

/// The class whose type parameters, `this` and `super` may stand in a function.
pub fn class_of_function(program: &CoreProgram, number: u32) -> Option<u32>
    ensures { result ≡ class_of_function (function_at (v.program program.now) number) }
{
    match function_at(program, number) {
        None => None,
        Some(function) => match function.class {
            None => None,
            Some(class) => Some(class.0),
        },
    }
}

/// The name of a function.
pub fn function_name(program: &CoreProgram, number: u32) -> u32
    ensures { result ≡ name_of (function_at (v.program program.now) number) }
{
    match function_at(program, number) {
        None => 0,
        Some(function) => function.name.0,
    }
}

/// Whether a function is a factory, which answers the object itself.
pub fn is_factory(program: &CoreProgram, number: u32) -> bool
    ensures { result ≡ is_factory_kind (kind_of_function (function_at (v.program program.now) number)) }
{
    match function_at(program, number) {
        None => false,
        Some(function) => is_factory_kind(function.kind),
    }
}

fn is_factory_kind(kind: FunctionKind) -> bool
    ensures { result ≡ is_factory_kind kind }
{
    match kind {
        FunctionKind::Factory => true,
        FunctionKind::Plain => false,
        FunctionKind::Inner => false,
        FunctionKind::Generative => false,
        FunctionKind::Absent => false,
    }
}

/// The variables with cells that a function declares.
#[inline(always)]
pub fn function_cells<'a>(program: &'a CoreProgram, number: u32) -> &'a [u32]
    ensures { result.now ≡ function_cells (function_at (v.program program.now) number) }
{
    match function_at(program, number) {
        None => &[],
        Some(function) => function.cells.as_slice(),
    }
}

/// The variables declared outside that a closure of a function takes along.
#[inline(always)]
pub fn function_captures<'a>(program: &'a CoreProgram, number: u32) -> &'a [u32]
    ensures { result.now ≡ function_captures (function_at (v.program program.now) number) }
{
    match function_at(program, number) {
        None => &[],
        Some(function) => function.captures.as_slice(),
    }
}

/// The variables with cells that the initialiser of a static variable declares.
pub fn static_cells<'a>(program: &'a CoreProgram, number: u32) -> &'a [u32]
    ensures { result.now ≡ static_cells (static_of (v.program program.now) number) }
{
    match static_of(program, number) {
        None => &[],
        Some(variable) => variable.cells.as_slice(),
    }
}

/// Whether a part is a block.
#[tactic(auto, using(core_program::proofs::Views::views))]
pub fn is_block_part(part: &Part) -> bool
    ensures { result ≡ is_block_part (w.part part.now) }
{
    match part {
        Part::Missing => false,
        Part::Given(core) => is_block(&core.form),
    }
}

#[tactic(auto, using(core_program::proofs::Views::views))]
fn is_block(form: &Form) -> bool
    ensures { result ≡ is_block (w.form form.now) }
{
    match form {
        Form::Leaf(_) => false,
        Form::TypeLiteral(_) => false,
        Form::Unary(_, _) => false,
        Form::Binary(_, _, _) => false,
        Form::Row(_, _) => false,
        Form::Let {
            var: _,
            value: _,
            body: _,
        } => false,
        Form::Block(_) => true,
        Form::If {
            condition: _,
            first: _,
            second: _,
        } => false,
        Form::New {
            class: _,
            constructor: _,
            types: _,
            arguments: _,
        } => false,
        Form::List { types: _, items: _ } => false,
        Form::Is(_, _) => false,
        Form::As(_, _) => false,
        Form::Loop {
            target: _,
            copies: _,
            condition: _,
            update: _,
            body: _,
        } => false,
        Form::Return(_) => false,
        Form::Try(_) => false,
        Form::Switch {
            target: _,
            value: _,
            cases: _,
        } => false,
        Form::Labelled(_, _) => false,
    }
}

/// Whether a form is a function literal or a local function.
#[tactic(auto, using(core_program::proofs::Views::views))]
#[inline(always)]
pub fn is_closure(core: &Core) -> bool
    ensures { result ≡ is_closure (form_of (w.core core.now)) }
{
    is_closure_form(&core.form)
}

#[tactic(auto, using(core_program::proofs::Views::views))]
#[inline(always)]
fn is_closure_form(form: &Form) -> bool
    ensures { result ≡ is_closure (w.form form.now) }
{
    match form {
        Form::Leaf(leaf) => is_closure_leaf(*leaf),
        Form::TypeLiteral(_) => false,
        Form::Unary(_, _) => false,
        Form::Binary(_, _, _) => false,
        Form::Row(_, _) => false,
        Form::Let {
            var: _,
            value: _,
            body: _,
        } => false,
        Form::Block(_) => false,
        Form::If {
            condition: _,
            first: _,
            second: _,
        } => false,
        Form::New {
            class: _,
            constructor: _,
            types: _,
            arguments: _,
        } => false,
        Form::List { types: _, items: _ } => false,
        Form::Is(_, _) => false,
        Form::As(_, _) => false,
        Form::Loop {
            target: _,
            copies: _,
            condition: _,
            update: _,
            body: _,
        } => false,
        Form::Return(_) => false,
        Form::Try(_) => false,
        Form::Switch {
            target: _,
            value: _,
            cases: _,
        } => false,
        Form::Labelled(_, _) => false,
    }
}

#[inline(always)]
fn is_closure_leaf(leaf: Leaf) -> bool
    ensures { result ≡ is_closure_leaf (w.leaf leaf) }
{
    match leaf {
        Leaf::Closure(_) => true,
        Leaf::Const(_) => false,
        Leaf::This => false,
        Leaf::Read(_) => false,
        Leaf::StaticRead(_) => false,
        Leaf::Field(_) => false,
        Leaf::Jump(_, _) => false,
        Leaf::Rethrow => false,
        Leaf::Raise {
            error: _,
            name: _,
            is_setter: _,
        } => false,
    }
}

/// Whether a form takes a step as it is entered.
#[tactic(auto, using(core_program::proofs::Views::views))]
#[inline(always)]
pub fn takes_step(form: &Form) -> bool
    ensures { result ≡ takes_step (w.form form.now) }
{
    match form {
        Form::Leaf(_) => true,
        Form::TypeLiteral(_) => true,
        Form::Unary(_, _) => true,
        Form::Binary(_, _, _) => true,
        Form::Row(_, _) => true,
        Form::Let {
            var: _,
            value: _,
            body: _,
        } => true,
        Form::Block(_) => true,
        Form::If {
            condition: _,
            first: _,
            second: _,
        } => true,
        Form::New {
            class: _,
            constructor: _,
            types: _,
            arguments: _,
        } => true,
        Form::List { types: _, items: _ } => true,
        Form::Is(_, _) => true,
        Form::As(_, _) => true,
        Form::Loop {
            target: _,
            copies: _,
            condition: _,
            update: _,
            body: _,
        } => false,
        Form::Return(_) => true,
        Form::Try(_) => true,
        Form::Switch {
            target: _,
            value: _,
            cases: _,
        } => true,
        Form::Labelled(_, _) => false,
    }
}
