// What the forms of a body do with variables.
#![tactic(auto, using(crate::proofs::Used::used, crate::proofs::Walked::operands), unfolding(lower_leaf::specs::Forms::core, lower_leaf::specs::Forms::part, crate::specs::Uses::form, crate::specs::Uses::attempt, crate::specs::Uses::handler, crate::specs::Uses::test, crate::specs::Uses::case))]

ghost use Rattle.std.specs.Prelude.{◌≡◌, ◌++◌, ◌∷◌, [], OnOk};
ghost use Rattle.core_program.specs.Core as c;
ghost use Rattle.core_program.specs.Captured.{nodes, form_nodes, part_nodes, cores_nodes, handlers_nodes, cases_nodes, test_nodes};
ghost use Rattle.lower_leaf.specs.Forms.{core, part, cores, leaf, unary};
ghost use Rattle.lower_leaf.specs.Seen.{numbered_function};
ghost use Rattle.lower_function.specs.Uses.{functions_of, uses_in, form_uses, leaf_uses, unary_uses, handler_uses, handlers_uses, taken_of, takes_of, form, handler, handlers, attempt, case, cases, test};

use core_program::form::{Attempt, Case, Core, Form, Handler, Leaf, Part, Test, Unary};
use dart_ir::number::DeclId;
use lower_leaf::fault::Want;
use lower_leaf::state::NumberedFunction;
use lower_leaf::surroundings::Surroundings;

/// What a form does with a variable.
#[derive(Clone, Copy, Debug, PartialEq, Eq)]
pub enum Use {
    Declares(u32),
    Names(u32),
    /// A function inside takes it along.
    Takes(u32),
}

// The variables that a function takes along.
fn add_captures(captures: &Vec<u32>, found: &mut Vec<Use>) -> Result<(), Want>
    ensures { OnOk result (found.new.items ≡ found.old.items ++ takes_of captures.now.items) }
{
    for x in captures {
        found.push(Use::Takes(*x))?;
    }
    Ok(())
}

// The variables that a function takes along, if it has the number.
#[tactic(auto, unfolding(lower_leaf::specs::Seen::function))]
fn add_made<S: Surroundings>(
    outside: &S,
    one: &NumberedFunction,
    number: u32,
    found: &mut Vec<Use>,
) -> Result<(), Want>
    ensures { OnOk result (found.new.items ≡ found.old.items ++ taken_of number (numbered_function (S.around outside.now) one.now)) }
{
    if one.number == number {
        return add_captures(&one.made.captures, found);
    }
    Ok(())
}

// The variables that the function of the number takes along.
fn add_taken<S: Surroundings>(
    outside: &S,
    functions: &Vec<NumberedFunction>,
    number: DeclId,
    found: &mut Vec<Use>,
) -> Result<(), Want>
    ensures { OnOk result (found.new.items ≡ found.old.items
        ++ leaf_uses (functions_of (S.around outside.now) functions.now) (c.closure number.0)) }
{
    for one in functions {
        add_made(outside, one, number.0, found)?;
    }
    Ok(())
}

fn add_leaf<S: Surroundings>(
    outside: &S,
    functions: &Vec<NumberedFunction>,
    of: &Leaf,
    found: &mut Vec<Use>,
) -> Result<(), Want>
    ensures { OnOk result (found.new.items ≡ found.old.items
        ++ leaf_uses (functions_of (S.around outside.now) functions.now) (leaf (S.around outside.now) of.now)) }
{
    match of {
        Leaf::Read(x) => {
            found.push(Use::Names(*x))?;
            Ok(())
        }
        Leaf::Closure(number) => add_taken(outside, functions, *number, found),
        Leaf::Const(_) => Ok(()),
        Leaf::This => Ok(()),
        Leaf::StaticRead(_) => Ok(()),
        Leaf::Field(_) => Ok(()),
        Leaf::Jump(_, _) => Ok(()),
        Leaf::Rethrow => Ok(()),
        Leaf::Raise {
            error: _,
            name: _,
            is_setter: _,
        } => Ok(()),
    }
}

fn add_unary<S: Surroundings>(outside: &S, of: &Unary, found: &mut Vec<Use>) -> Result<(), Want>
    ensures { OnOk result (found.new.items ≡ found.old.items ++ unary_uses (unary (S.around outside.now) of.now)) }
{
    match of {
        Unary::Var(x) => {
            found.push(Use::Declares(*x))?;
            Ok(())
        }
        Unary::Write(x) => {
            found.push(Use::Names(*x))?;
            Ok(())
        }
        Unary::StaticWrite(_) => Ok(()),
        Unary::FieldWrite(_) => Ok(()),
        Unary::Get(_) => Ok(()),
        Unary::Check(_) => Ok(()),
        Unary::Throw => Ok(()),
    }
}

fn add_option(of: &Option<u32>, found: &mut Vec<Use>) -> Result<(), Want>
    ensures { OnOk result (found.new.items ≡ found.old.items ++ handler_uses of.now) }
{
    match of {
        None => Ok(()),
        Some(x) => {
            found.push(Use::Declares(*x))?;
            Ok(())
        }
    }
}

// The variables of handlers, which the `try` declares.
fn add_caught<S: Surroundings>(
    outside: &S,
    all: &Vec<Handler>,
    found: &mut Vec<Use>,
) -> Result<(), Want>
    ensures { OnOk result (found.new.items ≡ found.old.items ++ handlers_uses (handlers (S.around outside.now) all.now.items)) }
{
    for one in all {
        add_option(&one.exception, found)?;
        add_option(&one.trace, found)?;
    }
    Ok(())
}

// What a form does by itself.
fn add_own<S: Surroundings>(
    outside: &S,
    functions: &Vec<NumberedFunction>,
    of: &Form,
    found: &mut Vec<Use>,
) -> Result<(), Want>
    ensures { OnOk result (found.new.items ≡ found.old.items
        ++ form_uses (functions_of (S.around outside.now) functions.now) (form (S.around outside.now) of.now)) }
{
    match of {
        Form::Leaf(of) => add_leaf(outside, functions, of, found),
        Form::Unary(of, _) => add_unary(outside, of, found),
        Form::Let {
            var,
            value: _,
            body: _,
        } => {
            found.push(Use::Declares(*var))?;
            Ok(())
        }
        Form::Try(attempt) => add_caught(outside, &attempt.handlers, found),
        Form::TypeLiteral(_) => Ok(()),
        Form::Binary(_, _, _) => Ok(()),
        Form::Row(_, _) => Ok(()),
        Form::Block(_) => Ok(()),
        Form::If {
            condition: _,
            first: _,
            second: _,
        } => Ok(()),
        Form::New {
            class: _,
            constructor: _,
            types: _,
            arguments: _,
        } => Ok(()),
        Form::List { types: _, items: _ } => Ok(()),
        Form::Is(_, _) => Ok(()),
        Form::As(_, _) => Ok(()),
        Form::Loop {
            target: _,
            copies: _,
            condition: _,
            update: _,
            body: _,
        } => Ok(()),
        Form::Return(_) => Ok(()),
        Form::Switch {
            target: _,
            value: _,
            cases: _,
        } => Ok(()),
        Form::Labelled(_, _) => Ok(()),
    }
}

// The uses of a form and of those in it.
#[cycle(uses)]
fn add_core<S: Surroundings>(
    outside: &S,
    functions: &Vec<NumberedFunction>,
    of: &Core,
    found: &mut Vec<Use>,
) -> Result<(), Want>
    ensures { OnOk result (found.new.items ≡ found.old.items
        ++ uses_in (functions_of (S.around outside.now) functions.now) (nodes (core (S.around outside.now) of.now))) }
{
    add_own(outside, functions, &of.form, found)?;
    add_inner(outside, functions, &of.form, found)
}

// The uses of the forms in a form.
#[cycle(uses)]
fn add_inner<S: Surroundings>(
    outside: &S,
    functions: &Vec<NumberedFunction>,
    of: &Form,
    found: &mut Vec<Use>,
) -> Result<(), Want>
    ensures { OnOk result (found.new.items ≡ found.old.items
        ++ uses_in (functions_of (S.around outside.now) functions.now) (form_nodes (form (S.around outside.now) of.now))) }
{
    match of {
        Form::Leaf(_) => Ok(()),
        Form::TypeLiteral(_) => Ok(()),
        Form::Unary(_, operand) => add_core(outside, functions, operand, found),
        Form::Binary(_, first, second) => {
            add_core(outside, functions, first, found)?;
            add_core(outside, functions, second, found)
        }
        Form::Row(_, arguments) => add_cores(outside, functions, &arguments.forms, found),
        Form::Let {
            var: _,
            value,
            body,
        } => {
            add_core(outside, functions, value, found)?;
            add_core(outside, functions, body, found)
        }
        Form::Block(forms) => add_cores(outside, functions, forms, found),
        Form::If {
            condition,
            first,
            second,
        } => {
            add_core(outside, functions, condition, found)?;
            add_part(outside, functions, first, found)?;
            add_part(outside, functions, second, found)
        }
        Form::New {
            class: _,
            constructor: _,
            types: _,
            arguments,
        } => add_cores(outside, functions, &arguments.forms, found),
        Form::List { types: _, items } => add_cores(outside, functions, items, found),
        Form::Is(value, _) => add_core(outside, functions, value, found),
        Form::As(value, _) => add_core(outside, functions, value, found),
        Form::Loop {
            target: _,
            copies: _,
            condition,
            update,
            body,
        } => {
            add_part(outside, functions, condition, found)?;
            add_part(outside, functions, update, found)?;
            add_part(outside, functions, body, found)
        }
        Form::Return(value) => add_part(outside, functions, value, found),
        Form::Try(attempt) => add_attempt(outside, functions, attempt, found),
        Form::Switch {
            target: _,
            value,
            cases,
        } => {
            add_core(outside, functions, value, found)?;
            add_cases(outside, functions, cases, found)
        }
        Form::Labelled(_, body) => add_core(outside, functions, body, found),
    }
}

#[cycle(uses)]
fn add_cores<S: Surroundings>(
    outside: &S,
    functions: &Vec<NumberedFunction>,
    all: &Vec<Core>,
    found: &mut Vec<Use>,
) -> Result<(), Want>
    ensures { OnOk result (found.new.items ≡ found.old.items
        ++ uses_in (functions_of (S.around outside.now) functions.now) (cores_nodes (c.cores (cores (S.around outside.now) all.now.items)))) }
{
    for one in all {
        add_core(outside, functions, one, found)?;
    }
    Ok(())
}

// The uses of the forms in a part.
#[cycle(uses)]
fn add_part<S: Surroundings>(
    outside: &S,
    functions: &Vec<NumberedFunction>,
    of: &Part,
    found: &mut Vec<Use>,
) -> Result<(), Want>
    ensures { OnOk result (found.new.items ≡ found.old.items
        ++ uses_in (functions_of (S.around outside.now) functions.now) (part_nodes (part (S.around outside.now) of.now))) }
{
    match of {
        Part::Missing => Ok(()),
        Part::Given(form) => add_core(outside, functions, form, found),
    }
}

#[cycle(uses)]
fn add_attempt<S: Surroundings>(
    outside: &S,
    functions: &Vec<NumberedFunction>,
    of: &Attempt,
    found: &mut Vec<Use>,
) -> Result<(), Want>
    ensures { OnOk result (found.new.items ≡ found.old.items
        ++ uses_in (functions_of (S.around outside.now) functions.now) (form_nodes (attempt (S.around outside.now) of.now))) }
{
    add_core(outside, functions, &of.body, found)?;
    add_handlers(outside, functions, &of.handlers, found)?;
    add_part(outside, functions, &of.last, found)
}

#[cycle(uses)]
fn add_handlers<S: Surroundings>(
    outside: &S,
    functions: &Vec<NumberedFunction>,
    all: &Vec<Handler>,
    found: &mut Vec<Use>,
) -> Result<(), Want>
    ensures { OnOk result (found.new.items ≡ found.old.items
        ++ uses_in (functions_of (S.around outside.now) functions.now) (handlers_nodes (handlers (S.around outside.now) all.now.items))) }
{
    for one in all {
        add_test(outside, functions, &one.test, found)?;
        add_core(outside, functions, &one.body, found)?;
    }
    Ok(())
}

#[cycle(uses)]
fn add_test<S: Surroundings>(
    outside: &S,
    functions: &Vec<NumberedFunction>,
    of: &Test,
    found: &mut Vec<Use>,
) -> Result<(), Want>
    ensures { OnOk result (found.new.items ≡ found.old.items
        ++ uses_in (functions_of (S.around outside.now) functions.now) (test_nodes (test (S.around outside.now) of.now))) }
{
    match of {
        Test::Everything => Ok(()),
        Test::On(_) => Ok(()),
        Test::Malformed(form) => add_core(outside, functions, form, found),
    }
}

#[cycle(uses)]
fn add_cases<S: Surroundings>(
    outside: &S,
    functions: &Vec<NumberedFunction>,
    all: &Vec<Case>,
    found: &mut Vec<Use>,
) -> Result<(), Want>
    ensures { OnOk result (found.new.items ≡ found.old.items
        ++ uses_in (functions_of (S.around outside.now) functions.now) (cases_nodes (cases (S.around outside.now) all.now.items))) }
{
    for one in all {
        add_core(outside, functions, &one.body, found)?;
    }
    Ok(())
}

/// What the forms of a body do with variables.
pub fn uses_of<S: Surroundings>(
    outside: &S,
    functions: &Vec<NumberedFunction>,
    body: &Part,
    found: &mut Vec<Use>,
) -> Result<(), Want>
    ensures { OnOk result (found.new.items ≡ found.old.items
        ++ uses_in (functions_of (S.around outside.now) functions.now) (part_nodes (part (S.around outside.now) body.now))) }
{
    add_part(outside, functions, body, found)
}
