// Loops from their parts (ECMA-408, 17.6 For and 17.8 Do).
#![tactic(auto, using(crate::proofs::Rest::steps))]

ghost use Rattle.lower_clause.specs.Parts.{for_block, left_unless, option_list, unary_var};
ghost use Rattle.lower_clause.specs.Jumps.{all_forms};
ghost use Rattle.lower_leaf.specs.Forms.{core, cores, part, unary};
ghost use Rattle.std.specs.List.{flat_map};
ghost use Rattle.std.specs.Prelude.{◌≡◌, ◌++◌, IfOk, OnOk};
ghost use Rattle.core_program.specs.Core as c;
ghost use Rattle.translation.specs.Statements as s;

use core_program::form::{Core, Form, Leaf, Part, Unary, Way};
use dart_base::place::Place;
use lower_leaf::fault::Want;
use lower_leaf::form::{block, choice, given, leaf, missing, turns};
use lower_leaf::surroundings::Surroundings;
use std::alloc::Global;

// The variable that an operator declares.
fn declared_by<S: Surroundings>(outside: &S, of: &Unary) -> Option<u32>
    ensures { option_list result ≡ unary_var (unary (S.around outside.now) of.now) }
{
    match of {
        Unary::Var(x) => Some(*x),
        Unary::Write(_) => None,
        Unary::StaticWrite(_) => None,
        Unary::FieldWrite(_) => None,
        Unary::Get(_) => None,
        Unary::Check(_) => None,
        Unary::Throw => None,
    }
}

// The variable that a form declares.
#[tactic(auto, using(crate::proofs::Formed::formed), unfolding(lower_leaf::specs::Forms::core))]
fn var_of<S: Surroundings>(outside: &S, form: &Core) -> Option<u32>
    ensures { option_list result ≡ s.var_of (core (S.around outside.now) form.now) }
{
    match &form.form {
        Form::Unary(of, _) => declared_by(outside, of),
        Form::Leaf(_) => None,
        Form::TypeLiteral(_) => None,
        Form::Let {
            var: _,
            value: _,
            body: _,
        } => None,
        Form::Try(_) => None,
        Form::Binary(_, _, _) => None,
        Form::Row(_, _) => None,
        Form::Block(_) => None,
        Form::If {
            condition: _,
            first: _,
            second: _,
        } => None,
        Form::New {
            class: _,
            constructor: _,
            types: _,
            arguments: _,
        } => None,
        Form::List { types: _, items: _ } => None,
        Form::Is(_, _) => None,
        Form::As(_, _) => None,
        Form::Loop {
            target: _,
            copies: _,
            condition: _,
            update: _,
            body: _,
        } => None,
        Form::Return(_) => None,
        Form::Switch {
            target: _,
            value: _,
            cases: _,
        } => None,
        Form::Labelled(_, _) => None,
    }
}

fn add_variable(of: Option<u32>, found: &mut Vec<u32>) -> Result<(), Want>
    ensures { OnOk result (found.new.items ≡ found.old.items ++ option_list of) }
{
    match of {
        None => Ok(()),
        Some(x) => {
            found.push(x)?;
            Ok(())
        }
    }
}

// The variables that forms declare, of which each turn has copies.
fn copies_of<S: Surroundings>(
    alloc: Global,
    outside: &S,
    forms: &Vec<Core>,
) -> Result<Vec<u32>, Want>
    ensures { IfOk result (λ made. made.items ≡ flat_map s.var_of (cores (S.around outside.now) forms.now.items)) }
{
    let mut found = Vec::new(alloc);
    for one in forms {
        add_variable(var_of(outside, one), &mut found)?;
    }
    Ok(found)
}

// The updates of a `for` as one part.
fn update_part<S: Surroundings>(
    alloc: Global,
    outside: &S,
    place: Place,
    forms: Vec<Core>,
) -> Result<Part, Want>
    ensures { IfOk result (λ made. part (S.around outside.now) made ≡ s.update_part place (all_forms (S.around outside.now) forms)) }
{
    if forms.is_empty() {
        return Ok(missing(outside));
    }
    given(outside, alloc, block(outside, place, forms))
}

/// A `for` from its parts.
pub fn for_block<S: Surroundings>(
    alloc: Global,
    outside: &S,
    place: Place,
    number: u32,
    forms: Vec<Core>,
    test: Part,
    steps: Vec<Core>,
    body: Part,
) -> Result<Core, Want>
    ensures { IfOk result (λ made. core (S.around outside.now) made
        ≡ for_block place number (all_forms (S.around outside.now) forms) (part (S.around outside.now) test)
        (all_forms (S.around outside.now) steps) (part (S.around outside.now) body)) }
{
    let copies = copies_of(alloc, outside, &forms)?;
    let update = update_part(alloc, outside, place, steps)?;
    let mut all = forms;
    all.push(turns(outside, place, number, copies, test, update, body))?;
    Ok(block(outside, place, all))
}

/// The step of a `do`, which leaves the loop where the condition fails.
pub fn left_unless<S: Surroundings>(
    alloc: Global,
    outside: &S,
    place: Place,
    number: u32,
    test: Core,
) -> Result<Part, Want>
    ensures { IfOk result (λ made. part (S.around outside.now) made
        ≡ c.given (left_unless place number (core (S.around outside.now) test))) }
{
    let jump = leaf(outside, place, Leaf::Jump(Way::Break, number));
    let other = given(outside, alloc, jump)?;
    let form = choice(outside, alloc, place, test, missing(outside), other)?;
    given(outside, alloc, form)
}
