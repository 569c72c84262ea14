// Expressions, operands, primaries and selectors (ECMA-408, 16 Expressions).
ghost use Rattle.std.specs.Prelude.{◌≡◌};
ghost use Rattle.dart_tree.specs.Lists.{cascades_of};
ghost use Rattle.lower_operand.specs.Made.{all_forms};
ghost use Rattle.lower_operand.specs.Operators.{prefix};
ghost use Rattle.dart_tree.specs.View as view;
ghost use Rattle.translation.specs.Expressions as e;
ghost use Rattle.translation.specs.Firsts as firsts;
ghost use Rattle.translation.specs.Productions as low;
ghost use Rattle.translation.specs.References as r;
ghost use Rattle.lower_leaf.specs.Forms.{core};
ghost use Rattle.lower_leaf.specs.Gives.{Gives};
ghost use Rattle.lower_leaf.specs.Nests.{NestsFunction};
ghost use Rattle.lower_leaf.specs.Seen.{seen};
ghost use Rattle.lower_reference.specs.Referred.{reference};

use crate::assign::assigning;
use crate::list::{arguments, elements, map};
use crate::object::new_object;
use crate::row::{super_tails, tails};
use crate::selector::{selectors, super_selected};
use crate::text::text;
use core_program::form::{Core, Leaf, Unary};
use dart_base::place::Place;
use dart_ir::number::DeclId;
use dart_tree::expression::{Cascade, Expr, Operand, Primary, Value};
use dart_tree::parameter::Parameters;
use dart_tree::statement::Body;
use lower_leaf::fault::LowerFault;
use lower_leaf::first::{
    first_of_arguments, first_of_operand, first_of_parameters, first_of_primary, place_of_operator,
};
use lower_leaf::form::{block, leaf, let_in, unary};
use lower_leaf::inner::{Inner, literal};
use lower_leaf::kept::{kept_arguments, kept_type};
use lower_leaf::site::tested;
use lower_leaf::state::{State, fresh};
use lower_leaf::surroundings::Surroundings;
use lower_operand::condition::{choice, negated, null, this_form};
use lower_operand::literal::{atom_reference, list_form};
use lower_operand::operator::{Prefix, compound_name, option_compound, prefix_of, super_of};
use lower_operand::step::{incremented, postfixed};
use lower_operand::super_operator::super_prefixed;
use lower_operand::type_test::{cast, type_tested};
use lower_reference::plain::{no_operands, send, variable};
use lower_reference::read::read;
use lower_reference::reference::Reference;
use std::alloc::Global;

// Whether there is a section.
fn has_cascades(all: &Vec<Cascade>) -> bool
    ensures { result ≡ e.has_cascades (cascades_of all.now.items) }
{
    for _one in all {
        return true;
    }
    false
}

/// The core of an expression (ECMA-408, 16 Expressions).
#[cycle(lower)]
pub fn expr<
    S: Surroundings,
    F: Fn(Global, &S, &mut State, usize, &Parameters, &Body) -> Result<u32, LowerFault>,
>(
    alloc: Global,
    outside: &S,
    inner: &Inner<F>,
    state: &mut State,
    tree: &Expr,
) -> Result<Core, LowerFault>
    requires { NestsFunction S.around inner.now.limit (F.pre inner.now.function) (F.post inner.now.function) }
    ensures { Gives (core (S.around outside.now)) result (seen (S.around outside.now) state.new)
        (low.expr (view.expr tree.now) (seen (S.around outside.now) state.old)) }
{
    match tree {
        Expr::Assign {
            target,
            operator,
            value,
        } => {
            let of = reference_of(alloc, outside, inner, state, target)?;
            let name = compound_name(outside, operator)?;
            let place = first_of_operand(target);
            assigning(alloc, outside, inner, state, value, name, place, of)
        }
        Expr::Plain(base, cascades) => {
            let form = operand(alloc, outside, inner, state, base)?;
            let place = first_of_operand(base);
            cascaded(alloc, outside, inner, state, cascades, place, form)
        }
        Expr::Throw(word, value) => {
            let form = expr(alloc, outside, inner, state, value)?;
            Ok(unary(outside, alloc, *word, Unary::Throw, form)?)
        }
    }
}

/// A cascade: the sections on a variable (16.17.2 Cascaded Invocations).
#[cycle(lower)]
pub fn cascaded<
    S: Surroundings,
    F: Fn(Global, &S, &mut State, usize, &Parameters, &Body) -> Result<u32, LowerFault>,
>(
    alloc: Global,
    outside: &S,
    inner: &Inner<F>,
    state: &mut State,
    all: &Vec<Cascade>,
    place: Place,
    form: Core,
) -> Result<Core, LowerFault>
    requires { NestsFunction S.around inner.now.limit (F.pre inner.now.function) (F.post inner.now.function) }
    ensures { Gives (core (S.around outside.now)) result (seen (S.around outside.now) state.new)
        (e.cascaded (e.has_cascades (cascades_of all.now.items)) place
        (λ x. low.sections x (cascades_of all.now.items)) (core (S.around outside.now) form) (seen (S.around outside.now) state.old)) }
{
    if !has_cascades(all) {
        return Ok(form);
    }
    let x = fresh(outside, state)?;
    let mut forms = sections(alloc, outside, inner, state, all, place, x)?;
    forms.push(variable(outside, place, x))?;
    let body = block(outside, place, forms);
    Ok(let_in(outside, alloc, place, x, form, body)?)
}

// The sections of a cascade on a variable.
#[cycle(lower)]
fn sections<
    S: Surroundings,
    F: Fn(Global, &S, &mut State, usize, &Parameters, &Body) -> Result<u32, LowerFault>,
>(
    alloc: Global,
    outside: &S,
    inner: &Inner<F>,
    state: &mut State,
    all: &Vec<Cascade>,
    place: Place,
    x: u32,
) -> Result<Vec<Core>, LowerFault>
    requires { NestsFunction S.around inner.now.limit (F.pre inner.now.function) (F.post inner.now.function) }
    ensures { Gives (all_forms (S.around outside.now)) result (seen (S.around outside.now) state.new)
        (low.sections (r.variable place x) (cascades_of all.now.items) (seen (S.around outside.now) state.old)) }
{
    let mut found = Vec::new(alloc);
    for one in all {
        let base = Reference::Evaluated(variable(outside, place, x));
        let target = selectors(alloc, outside, inner, state, &one.selectors, one.dots, base)?;
        found.push(section(alloc, outside, inner, state, &one.value, one.dots, target)?)?;
    }
    Ok(found)
}

// A section of a cascade behind its selectors.
#[cycle(lower)]
fn section<
    S: Surroundings,
    F: Fn(Global, &S, &mut State, usize, &Parameters, &Body) -> Result<u32, LowerFault>,
>(
    alloc: Global,
    outside: &S,
    inner: &Inner<F>,
    state: &mut State,
    value: &Value,
    dots: Place,
    target: Reference,
) -> Result<Core, LowerFault>
    requires { NestsFunction S.around inner.now.limit (F.pre inner.now.function) (F.post inner.now.function) }
    ensures { Gives (core (S.around outside.now)) result (seen (S.around outside.now) state.new)
        (low.section dots (view.value value.now) (reference (S.around outside.now) target) (seen (S.around outside.now) state.old)) }
{
    match value {
        Value::Omitted => read(alloc, outside, state, dots, target),
        Value::Given(operator, given) => {
            let name = option_compound(outside, operator)?;
            assigning(alloc, outside, inner, state, given, name, dots, target)
        }
    }
}

/// An operand that is read.
#[cycle(lower)]
pub fn operand<
    S: Surroundings,
    F: Fn(Global, &S, &mut State, usize, &Parameters, &Body) -> Result<u32, LowerFault>,
>(
    alloc: Global,
    outside: &S,
    inner: &Inner<F>,
    state: &mut State,
    tree: &Operand,
) -> Result<Core, LowerFault>
    requires { NestsFunction S.around inner.now.limit (F.pre inner.now.function) (F.post inner.now.function) }
    ensures { Gives (core (S.around outside.now)) result (seen (S.around outside.now) state.new)
        (low.operand (view.operand tree.now) (seen (S.around outside.now) state.old)) }
{
    match tree {
        Operand::Conditional {
            condition,
            question: _,
            first,
            colon: _,
            second,
        } => {
            let place = first_of_operand(condition);
            let form = operand(alloc, outside, inner, state, condition)?;
            let test = tested(alloc, outside, state, place, form)?;
            let one = expr(alloc, outside, inner, state, first)?;
            let other = expr(alloc, outside, inner, state, second)?;
            Ok(choice(alloc, outside, place, test, one, other)?)
        }
        Operand::Binary(base, more) => match super_of(base) {
            Some(word) => super_tails(alloc, outside, inner, state, more, word),
            None => {
                let form = operand(alloc, outside, inner, state, base)?;
                let place = first_of_operand(base);
                tails(alloc, outside, inner, state, more, place, form)
            }
        },
        Operand::Is {
            operand: base,
            word: _,
            bang,
            type_node,
        } => {
            let form = operand(alloc, outside, inner, state, base)?;
            let of = kept_type(alloc, outside, state, type_node)?;
            let place = first_of_operand(base);
            type_tested(alloc, outside, state, place, *bang, of, form)
        }
        Operand::As {
            operand: base,
            word: _,
            type_node,
        } => {
            let form = operand(alloc, outside, inner, state, base)?;
            let of = kept_type(alloc, outside, state, type_node)?;
            let place = first_of_operand(base);
            Ok(cast(alloc, outside, place, of, form)?)
        }
        Operand::Prefix(operator, base) => {
            let of = prefix_of(outside, operator)?;
            let place = place_of_operator(operator);
            match super_of(base) {
                Some(word) => super_prefixed(alloc, outside, state, word, place, of),
                None => prefixed(alloc, outside, inner, state, base, of, place),
            }
        }
        Operand::Postfix {
            primary: base,
            selectors: more,
            operator,
        } => {
            let target = primary(alloc, outside, inner, state, base)?;
            let place = first_of_primary(base);
            let target = selectors(alloc, outside, inner, state, more, place, target)?;
            postfixed(alloc, outside, state, operator, place, target)
        }
        Operand::Primary(base) => {
            let target = primary(alloc, outside, inner, state, base)?;
            let place = first_of_primary(base);
            read(alloc, outside, state, place, target)
        }
    }
}

// An operand behind an operator (16.29 Unary Expressions).
#[cycle(lower)]
fn prefixed<
    S: Surroundings,
    F: Fn(Global, &S, &mut State, usize, &Parameters, &Body) -> Result<u32, LowerFault>,
>(
    alloc: Global,
    outside: &S,
    inner: &Inner<F>,
    state: &mut State,
    base: &Operand,
    of: Prefix,
    place: Place,
) -> Result<Core, LowerFault>
    requires { NestsFunction S.around inner.now.limit (F.pre inner.now.function) (F.post inner.now.function) }
    ensures { Gives (core (S.around outside.now)) result (seen (S.around outside.now) state.new)
        (e.prefixed (prefix (S.around outside.now) of) place (firsts.first_of_operand (view.operand base.now))
        (low.operand (view.operand base.now)) (low.reference (view.operand base.now)) (seen (S.around outside.now) state.old)) }
{
    match of {
        Prefix::Negation => {
            let form = operand(alloc, outside, inner, state, base)?;
            let at = first_of_operand(base);
            negated(alloc, outside, state, place, at, form)
        }
        Prefix::Step(name) => {
            let target = reference_of(alloc, outside, inner, state, base)?;
            incremented(alloc, outside, state, place, name, target)
        }
        Prefix::Unary(name) => {
            let form = operand(alloc, outside, inner, state, base)?;
            let operands = no_operands(alloc, outside);
            Ok(send(outside, place, form, name, operands)?)
        }
    }
}

/// An operand that is assigned; the grammar has no others than a postfix expression and a primary.
#[cycle(lower)]
pub fn reference_of<
    S: Surroundings,
    F: Fn(Global, &S, &mut State, usize, &Parameters, &Body) -> Result<u32, LowerFault>,
>(
    alloc: Global,
    outside: &S,
    inner: &Inner<F>,
    state: &mut State,
    tree: &Operand,
) -> Result<Reference, LowerFault>
    requires { NestsFunction S.around inner.now.limit (F.pre inner.now.function) (F.post inner.now.function) }
    ensures { Gives (reference (S.around outside.now)) result (seen (S.around outside.now) state.new)
        (low.reference (view.operand tree.now) (seen (S.around outside.now) state.old)) }
{
    match tree {
        Operand::Postfix {
            primary: base,
            selectors: more,
            operator: _,
        } => {
            let target = primary(alloc, outside, inner, state, base)?;
            let place = first_of_primary(base);
            selectors(alloc, outside, inner, state, more, place, target)
        }
        Operand::Primary(base) => primary(alloc, outside, inner, state, base),
        Operand::Conditional {
            condition: _,
            question,
            first: _,
            colon: _,
            second: _,
        } => Ok(Reference::Evaluated(null(outside, *question))),
        Operand::Binary(base, _) => {
            let place = first_of_operand(base);
            Ok(Reference::Evaluated(null(outside, place)))
        }
        Operand::Is {
            operand: _,
            word,
            bang: _,
            type_node: _,
        } => Ok(Reference::Evaluated(null(outside, *word))),
        Operand::As {
            operand: _,
            word,
            type_node: _,
        } => Ok(Reference::Evaluated(null(outside, *word))),
        Operand::Prefix(operator, _) => {
            let place = place_of_operator(operator);
            Ok(Reference::Evaluated(null(outside, place)))
        }
    }
}

// A primary.
#[cycle(lower)]
fn primary<
    S: Surroundings,
    F: Fn(Global, &S, &mut State, usize, &Parameters, &Body) -> Result<u32, LowerFault>,
>(
    alloc: Global,
    outside: &S,
    inner: &Inner<F>,
    state: &mut State,
    tree: &Primary,
) -> Result<Reference, LowerFault>
    requires { NestsFunction S.around inner.now.limit (F.pre inner.now.function) (F.post inner.now.function) }
    ensures { Gives (reference (S.around outside.now)) result (seen (S.around outside.now) state.new)
        (low.primary (view.primary tree.now) (seen (S.around outside.now) state.old)) }
{
    match tree {
        Primary::Super(word, selector) => {
            super_selected(alloc, outside, inner, state, selector, *word)
        }
        Primary::BareSuper(word) => Ok(Reference::Evaluated(this_form(outside, state, *word)?)),
        Primary::Atom(atom) => atom_reference(alloc, outside, state, atom),
        Primary::Text(all) => Ok(Reference::Evaluated(text(alloc, outside, inner, state, all)?)),
        Primary::List {
            type_arguments,
            opening,
            items: all,
            comma: _,
            closing: _,
        } => {
            let given = kept_arguments(alloc, outside, state, type_arguments)?;
            let forms = elements(alloc, outside, inner, state, all, &given)?;
            let place = first_of_arguments(type_arguments, *opening);
            Ok(Reference::Evaluated(list_form(alloc, outside, place, given, forms)?))
        }
        Primary::Map {
            type_arguments,
            opening,
            entries: all,
            comma: _,
            closing: _,
        } => {
            let given = kept_arguments(alloc, outside, state, type_arguments)?;
            let place = first_of_arguments(type_arguments, *opening);
            Ok(Reference::Evaluated(map(alloc, outside, inner, state, all, place, given)?))
        }
        Primary::New {
            creation,
            class,
            constructor,
            arguments: given,
        } => {
            new_object(
                alloc,
                outside,
                inner,
                state,
                given,
                *creation,
                class,
                constructor,
            )
        }
        Primary::Function(parameters, body) => {
            let number = literal(alloc, outside, inner, state, parameters, body)?;
            let place = first_of_parameters(parameters);
            let made = leaf(outside, place, Leaf::Closure(DeclId(number)));
            Ok(Reference::Evaluated(made))
        }
        Primary::Parenthesized {
            opening: _,
            value,
            closing: _,
        } => Ok(Reference::Evaluated(expr(alloc, outside, inner, state, value)?)),
    }
}
