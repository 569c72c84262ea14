// Functions once their bodies are translated (ECMA-408, 9 Functions).
ghost use Rattle.std.specs.Prelude.{◌≡◌, IfOk, OnOk};
ghost use Rattle.dart_tree.specs.View as view;
ghost use Rattle.translation.specs.Functions as f;
ghost use Rattle.translation.specs.Types as y;
ghost use Rattle.lower_leaf.specs.Around.{ty};
ghost use Rattle.lower_leaf.specs.Forms.{core, part};
ghost use Rattle.lower_leaf.specs.Gives.{Gives, itself};
ghost use Rattle.lower_leaf.specs.Seen.{seen, function};
ghost use Rattle.lower_function.specs.Made.{closed, function_made, parameters, signature};

use crate::inside::Before;
use crate::shared::shared_by;
use core_program::form::{Core, Leaf, Part};
use core_program::program::{Function, FunctionKind, Parameter};
use dart_base::name::Name;
use dart_base::place::Place;
use dart_ir::number::{ClassId, DeclId};
use dart_ir::types::{FunctionType, TypeRef};
use dart_tree::parameter::Parameters;
use lower_leaf::fault::{LowerFault, Want};
use lower_leaf::form::leaf;
use lower_leaf::signature::function_type;
use lower_leaf::state::{NumberedFunction, State};
use lower_leaf::surroundings::Surroundings;
use std::alloc::Global;

/// The number of the next declaration.
pub fn numbered<S: Surroundings>(outside: &S, state: &mut State) -> Result<u32, LowerFault>
    ensures { Gives itself result (seen (S.around outside.now) state.new) (f.numbered (seen (S.around outside.now) state.old)) }
{
    let number = state.declarations;
    let Some(next) = number.checked_add(1) else {
        return Err(LowerFault::Memory);
    };
    state.declarations = next;
    Ok(number)
}

/// The type of a function with this result (19.5 Function Types).
#[tactic(auto, using(crate::proofs::Made::signature_copied))]
pub fn signature_of<S: Surroundings>(
    alloc: Global,
    outside: &S,
    state: &State,
    answer: TypeRef,
    given: &Parameters,
) -> Result<FunctionType, Want>
    ensures { IfOk result (λ made. signature (S.around outside.now) made
        ≡ y.function_type (seen (S.around outside.now) state.now) (ty (S.around outside.now) answer) (view.parameters given.now)) }
{
    let made = function_type(alloc, outside, state, answer, given)?;
    match &made {
        TypeRef::Function(made) => Ok(made.try_clone(alloc)?),
        _ => Err(Want),
    }
}

/// What a function is, besides its parameters and its body.
#[derive(Drop)]
pub struct Head {
    pub number: u32,
    pub kind: FunctionKind,
    pub name: Name,
    pub class: Option<ClassId>,
    pub signature: FunctionType,
}

// The function itself.
#[tactic(auto, using(crate::proofs::Made::function_seen))]
fn function_made<S: Surroundings>(
    alloc: Global,
    outside: &S,
    state: &State,
    of: Head,
    bound: Vec<Parameter>,
    body: Part,
) -> Result<Function, Want>
    ensures { IfOk result (λ made. function (S.around outside.now) made
        ≡ function_made (S.around outside.now) of (seen (S.around outside.now) state.now) (parameters (S.around outside.now) bound) (part (S.around outside.now) body)) }
{
    let found = shared_by(
        alloc,
        outside,
        &state.functions,
        state.variables,
        &bound,
        &body,
    )?;
    Ok(Function {
        name: of.name,
        kind: of.kind,
        class: of.class,
        parameters: bound,
        vars: state.variables,
        cells: found.cells,
        captures: found.captures,
        signature: of.signature,
        body,
    })
}

/// A function ends, and what was in scope before it is so again.
pub fn close_function<S: Surroundings>(
    alloc: Global,
    outside: &S,
    state: &mut State,
    before: Before,
    of: Head,
    bound: Vec<Parameter>,
    body: Part,
) -> Result<(), Want>
    ensures { OnOk result (seen (S.around outside.now) state.new
        ≡ closed (S.around outside.now) before of (parameters (S.around outside.now) bound) (part (S.around outside.now) body) (seen (S.around outside.now) state.old)) }
{
    let number = of.number;
    let made = function_made(alloc, outside, state, of, bound, body)?;
    state.functions.push(NumberedFunction { number, made })?;
    state.inside = before.inside;
    state.targets = before.targets;
    state.scopes.truncate(before.depth);
    Ok(())
}

/// A function literal or local function, by its number (16.10 Function Expressions).
pub fn closure<S: Surroundings>(outside: &S, place: Place, number: u32) -> Core
    ensures { core (S.around outside.now) result ≡ f.closure place number }
{
    leaf(outside, place, Leaf::Closure(DeclId(number)))
}
