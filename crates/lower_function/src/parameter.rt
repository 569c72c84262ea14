// Parameters as they are bound (ECMA-408, 9.2 Formal Parameters).
#![tactic(auto, using(crate::proofs::Steps::steps, crate::proofs::Listed::parameter_trees), unfolding(translation::specs::Walk::on))]

ghost use Rattle.std.specs.Prelude.{◌≡◌, map, IfOk};
ghost use Rattle.dart_tree.specs.Lists.{parameter_list_of};
ghost use Rattle.dart_tree.specs.View as view;
ghost use Rattle.translation.specs.Functions as f;
ghost use Rattle.translation.specs.Types as y;
ghost use Rattle.lower_leaf.specs.Gives.{Gives, itself};
ghost use Rattle.lower_leaf.specs.Seen.{seen, asked};
ghost use Rattle.lower_function.specs.Made.{parameter, parameters};
ghost use Rattle.lower_function.specs.Formals.{formal, formal_list, formals, bind_all, bind_formals, declared_list, formals_of};

use crate::literal::default_value;
use core_program::program::Parameter as Bound;
use dart_base::bytes::Bytes;
use dart_base::limit::PARAMETERS;
use dart_ir::kind::{Shape, SiteKind};
use dart_ir::value::Value;
use dart_tree::expression::Value as Given;
use dart_tree::identifier::Identifier;
use dart_tree::parameter::{BracketKind, Brackets, Parameter, ParameterKind, Parameters, ThisDot};
use lower_leaf::fault::{LowerFault, Want};
use lower_leaf::name::{own_name, place_of, text_of};
use lower_leaf::signature::{asked_of_parameter, parameter_name};
use lower_leaf::site::with_site;
use lower_leaf::state::{Asked, State, clone_asked, declared, fresh};
use lower_leaf::surroundings::Surroundings;
use lower_leaf::types::is_final;
use std::alloc::Global;

/// A parameter with what it asks for, which is looked up outside of the parameters' scope.
#[derive(Drop)]
pub struct Formal<'a> {
    pub kind: &'a ParameterKind,
    pub value: &'a Given,
    pub wanted: Asked,
}

/// The parameters of a function, and the shape of the optional ones.
#[derive(Drop)]
pub struct Formals<'a> {
    pub required: Vec<Formal<'a>>,
    pub optional: Vec<Formal<'a>>,
    pub shape: Shape,
}

fn this_of(kind: &ParameterKind) -> Option<ThisDot>
    ensures { result ≡ f.this_of (view.parameter_kind kind.now) }
{
    match kind {
        ParameterKind::Plain {
            kind: _,
            this_dot,
            name: _,
        } => *this_dot,
        ParameterKind::Function {
            result_type: _,
            this_dot,
            name: _,
            parameters: _,
        } => *this_dot,
    }
}

fn final_parameter(kind: &ParameterKind) -> bool
    ensures { result ≡ f.final_parameter (view.parameter_kind kind.now) }
{
    match kind {
        ParameterKind::Plain {
            kind,
            this_dot: _,
            name: _,
        } => is_final(kind),
        ParameterKind::Function {
            result_type: _,
            this_dot: _,
            name: _,
            parameters: _,
        } => false,
    }
}

fn optional_shape(brackets: Option<Brackets>) -> Shape
    ensures { result ≡ f.optional_shape brackets }
{
    match brackets {
        None => Shape::Optional,
        Some(brackets) => match brackets.kind {
            BracketKind::Square => Shape::Optional,
            BracketKind::Curly => Shape::Named,
        },
    }
}

fn formal_list<'a, S: Surroundings>(
    alloc: Global,
    outside: &S,
    state: &State,
    all: &'a Vec<Parameter>,
) -> Result<Vec<Formal<'a>>, Want>
    ensures { IfOk result (λ made. formal_list (S.around outside.now) made
        ≡ declared_list (seen (S.around outside.now) state.now) (parameter_list_of all.now.items)) }
{
    let mut made = Vec::new(alloc);
    for one in all {
        let wanted = asked_of_parameter(alloc, outside, state, &one.kind)?;
        made.push(Formal {
            kind: &one.kind,
            value: &one.value,
            wanted,
        })?;
    }
    Ok(made)
}

/// The parameters, with what they ask for in this state.
pub fn formals_of<'a, S: Surroundings>(
    alloc: Global,
    outside: &S,
    state: &State,
    tree: &'a Parameters,
) -> Result<Formals<'a>, Want>
    ensures { IfOk result (λ made. formals (S.around outside.now) made
        ≡ formals_of (seen (S.around outside.now) state.now) (view.parameters tree.now)) }
{
    let required = formal_list(alloc, outside, state, &tree.required)?;
    let optional = formal_list(alloc, outside, state, &tree.optional)?;
    Ok(Formals {
        required,
        optional,
        shape: optional_shape(tree.brackets),
    })
}

// The variable of a parameter. An initialising formal names none (10.6.1 Generative Constructors).
fn bind_variable<S: Surroundings>(
    alloc: Global,
    outside: &S,
    state: &mut State,
    allowed: bool,
    this_dot: Option<ThisDot>,
    name: &Identifier,
    wanted: Asked,
    final_one: bool,
) -> Result<u32, LowerFault>
    ensures { Gives itself result (seen (S.around outside.now) state.new)
        (f.bind_variable allowed this_dot (y.word_of name.now) (asked (S.around outside.now) wanted) final_one
        (seen (S.around outside.now) state.old)) }
{
    match this_dot {
        None => {
            let name = Bytes::from_slice(alloc, text_of(name))?;
            declared(alloc, outside, state, name, wanted, final_one)
        }
        Some(this_dot) => {
            if !allowed {
                return Err(LowerFault::BadWord(this_dot.this));
            }
            fresh(outside, state)
        }
    }
}

// A parameter whose value is tested as it is bound.
fn bind_tested<S: Surroundings>(
    alloc: Global,
    outside: &S,
    state: &mut State,
    name: &Identifier,
    shape: Shape,
    wanted: Asked,
    var: u32,
    default: Value,
) -> Result<Bound, LowerFault>
    ensures { Gives (parameter (S.around outside.now)) result (seen (S.around outside.now) state.new)
        (f.bind_tested (y.word_of name.now) shape (asked (S.around outside.now) wanted) var default
        (seen (S.around outside.now) state.old)) }
{
    let site = with_site(outside, state, SiteKind::Param, place_of(name), wanted)?;
    let name = own_name(alloc, outside, state.outer, text_of(name))?;
    Ok(Bound {
        var,
        name,
        shape,
        default,
        site,
    })
}

// A parameter, with so many before it.
fn bind<S: Surroundings>(
    alloc: Global,
    outside: &S,
    state: &mut State,
    allowed: bool,
    before: usize,
    shape: Shape,
    of: &Formal<'_>,
) -> Result<Bound, LowerFault>
    ensures { Gives (parameter (S.around outside.now)) result (seen (S.around outside.now) state.new)
        (f.bind allowed before shape (formal (S.around outside.now) of.now) (seen (S.around outside.now) state.old)) }
{
    let name = parameter_name(of.kind);
    let wanted = clone_asked(alloc, outside, &of.wanted)?;
    let final_one = final_parameter(of.kind);
    let this_dot = this_of(of.kind);
    let x = bind_variable(
        alloc, outside, state, allowed, this_dot, name, wanted, final_one,
    )?;
    if before == PARAMETERS {
        return Err(LowerFault::TooLarge(place_of(name)));
    }
    let default = default_value(alloc, outside, state, of.value)?;
    let wanted = clone_asked(alloc, outside, &of.wanted)?;
    bind_tested(alloc, outside, state, name, shape, wanted, x, default)
}

// A list of parameters, with so many before it.
fn bind_all<S: Surroundings>(
    alloc: Global,
    outside: &S,
    state: &mut State,
    allowed: bool,
    before: usize,
    shape: Shape,
    all: &Vec<Formal<'_>>,
) -> Result<Vec<Bound>, LowerFault>
    ensures { Gives (parameters (S.around outside.now)) result (seen (S.around outside.now) state.new)
        (bind_all allowed before shape (formal_list (S.around outside.now) all.now) (seen (S.around outside.now) state.old)) }
{
    let mut found = Vec::new(alloc);
    let mut count = before;
    for one in all {
        found.push(bind(alloc, outside, state, allowed, count, shape, one)?)?;
        let Some(next) = count.checked_add(1) else {
            return Err(LowerFault::Memory);
        };
        count = next;
    }
    Ok(found)
}

/// The parameters of a function. Initialising formals are refused where they are not allowed (10.6.1).
pub fn bind_formals<S: Surroundings>(
    alloc: Global,
    outside: &S,
    state: &mut State,
    allowed: bool,
    of: &Formals<'_>,
) -> Result<Vec<Bound>, LowerFault>
    ensures { Gives (parameters (S.around outside.now)) result (seen (S.around outside.now) state.new)
        (bind_formals allowed (formals (S.around outside.now) of.now) (seen (S.around outside.now) state.old)) }
{
    let shape = Shape::Required;
    let mut made = bind_all(alloc, outside, state, allowed, 0, shape, &of.required)?;
    let count = made.len();
    let mut rest = bind_all(
        alloc,
        outside,
        state,
        allowed,
        count,
        of.shape,
        &of.optional,
    )?;
    made.append(&mut rest)?;
    Ok(made)
}
