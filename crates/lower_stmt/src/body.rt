// Bodies, and the functions inside others (ECMA-408, 9 Functions, 16.10 Function Expressions and 17.4 Local Function
// Declaration).
#![tactic(auto, using(crate::proofs::Trees::body_trees), unfolding(translation::specs::Walk::on, translation::specs::Walk::leaving))]

ghost use Rattle.dart_tree.specs.Lists.{block_of};
ghost use Rattle.lower_clause.specs.Jumps.{all_forms};
ghost use Rattle.lower_function.specs.Formals.{bind_formals, formals};
ghost use Rattle.lower_function.specs.Made.{signature};
ghost use Rattle.lower_leaf.specs.Around.{text, ty};
ghost use Rattle.lower_leaf.specs.Forms.{core, part};
ghost use Rattle.lower_leaf.specs.Gives.{Gives, itself};
ghost use Rattle.lower_leaf.specs.Nests.{NestsFunction, literal};
ghost use Rattle.lower_leaf.specs.Seen.{seen, asked};
ghost use Rattle.lower_stmt.specs.Parts.{local_made};
ghost use Rattle.std.specs.Prelude.{◌≡◌, false};
ghost use Rattle.dart_ir.specs.Ty.{dynamic};
ghost use Rattle.dart_tree.specs.View as view;
ghost use Rattle.translation.specs.Functions as f;
ghost use Rattle.translation.specs.Productions as low;

use crate::statement::statements;
use crate::value::returning;
use core_program::form::{Core, Part, Unary};
use core_program::program::FunctionKind;
use dart_base::bytes::Bytes;
use dart_base::name::Name;
use dart_ir::types::{FunctionType, TypeRef};
use dart_tree::parameter::Parameters;
use dart_tree::statement::{Block, Body, Function};
use lower_clause::part::alone;
use lower_function::function::{Head, close_function, closure, numbered, signature_of};
use lower_function::inside::{enter_function, inner_inside};
use lower_function::parameter::{Formals, bind_formals, formals_of};
use lower_leaf::fault::LowerFault;
use lower_leaf::first::first_of_expr;
use lower_leaf::form::{block, given, missing, unary};
use lower_leaf::inner::Inner;
use lower_leaf::name::{find, own_name, place_of, text_of};
use lower_leaf::site::unasked;
use lower_leaf::state::{Asked, State, declared, depth, leave_scope};
use lower_leaf::surroundings::Surroundings;
use lower_leaf::types::{asked_of_result, result_type};
use std::alloc::Global;

/// The body of a function (9 Functions).
#[cycle(statements)]
pub fn body_of<
    S: Surroundings,
    F: Fn(Global, &S, &mut State, usize, &Parameters, &Body) -> Result<u32, LowerFault>,
>(
    alloc: Global,
    outside: &S,
    inner: &Inner<F>,
    state: &mut State,
    tree: &Body,
) -> Result<Part, LowerFault>
    requires { NestsFunction S.around inner.now.limit (F.pre inner.now.function) (F.post inner.now.function) }
    ensures { Gives (part (S.around outside.now)) result (seen (S.around outside.now) state.new)
        (low.body (view.body tree.now) (seen (S.around outside.now) state.old)) }
{
    match tree {
        Body::Arrow {
            arrow: _,
            value,
            semicolon: _,
        } => {
            let form = returning(alloc, outside, inner, state, value, first_of_expr(value))?;
            Ok(given(outside, alloc, form)?)
        }
        Body::Block(inside) => {
            let form = block_of(alloc, outside, inner, state, inside)?;
            Ok(given(outside, alloc, form)?)
        }
        Body::Omitted(_) => Ok(missing(outside)),
    }
}

/// A block, in a scope of its own (17.1 Blocks).
#[cycle(statements)]
pub fn block_of<
    S: Surroundings,
    F: Fn(Global, &S, &mut State, usize, &Parameters, &Body) -> Result<u32, LowerFault>,
>(
    alloc: Global,
    outside: &S,
    inner: &Inner<F>,
    state: &mut State,
    tree: &Block,
) -> Result<Core, LowerFault>
    requires { NestsFunction S.around inner.now.limit (F.pre inner.now.function) (F.post inner.now.function) }
    ensures { Gives (core (S.around outside.now)) result (seen (S.around outside.now) state.new)
        (low.block_of (block_of tree.now) (seen (S.around outside.now) state.old)) }
{
    let before = depth(outside, state);
    let forms = statements(alloc, outside, inner, state, &tree.statements)?;
    leave_scope(outside, state, before);
    Ok(block(outside, tree.opening, forms))
}

// A function inside another, by its number.
#[cycle(statements)]
fn inner_function<
    S: Surroundings,
    F: Fn(Global, &S, &mut State, usize, &Parameters, &Body) -> Result<u32, LowerFault>,
>(
    alloc: Global,
    outside: &S,
    inner: &Inner<F>,
    state: &mut State,
    tree: &Body,
    name: Name,
    of: FunctionType,
    wanted: Asked,
    given: &Formals<'_>,
) -> Result<u32, LowerFault>
    requires { NestsFunction S.around inner.now.limit (F.pre inner.now.function) (F.post inner.now.function) }
    ensures { Gives itself result (seen (S.around outside.now) state.new)
        (f.inner_function (text (S.around outside.now) name) (signature (S.around outside.now) of) (asked (S.around outside.now) wanted) (bind_formals false (formals (S.around outside.now) given.now)) (low.body (view.body tree.now)) (seen (S.around outside.now) state.old)) }
{
    let number = numbered(outside, state)?;
    let class = state.inside.class;
    let around = inner_inside(alloc, outside, state, wanted)?;
    let before = enter_function(alloc, outside, state, around);
    let bound = bind_formals(alloc, outside, state, false, given)?;
    let made = body_of(alloc, outside, inner, state, tree)?;
    let head = Head {
        number,
        kind: FunctionKind::Inner,
        name,
        class,
        signature: of,
    };
    close_function(alloc, outside, state, before, head, bound, made)?;
    Ok(number)
}

// The type `dynamic`.
#[tactic(auto, using(lower_leaf::proofs::TypeLaws::type_views), unfolding(lower_leaf::specs::Around::ty))]
fn dynamic_type<S: Surroundings>(outside: &S) -> TypeRef
    ensures { ty (S.around outside.now) result ≡ dynamic }
{
    TypeRef::Dynamic
}

/// A function literal, by its number (16.10 Function Expressions).
pub fn literal_function<
    S: Surroundings,
    F: Fn(Global, &S, &mut State, usize, &Parameters, &Body) -> Result<u32, LowerFault>,
>(
    alloc: Global,
    outside: &S,
    inner: &Inner<F>,
    state: &mut State,
    tree: &Body,
    parameters: &Parameters,
) -> Result<u32, LowerFault>
    requires { NestsFunction S.around inner.now.limit (F.pre inner.now.function) (F.post inner.now.function) }
    ensures { Gives itself result (seen (S.around outside.now) state.new)
        (literal (view.parameters parameters.now) (view.body tree.now) (seen (S.around outside.now) state.old)) }
{
    let of = signature_of(alloc, outside, state, dynamic_type(outside), parameters)?;
    let given = formals_of(alloc, outside, state, parameters)?;
    let name = find(outside, b"")?;
    inner_function(
        alloc,
        outside,
        inner,
        state,
        tree,
        name,
        of,
        unasked(),
        &given,
    )
}

// The function that a local function is, by its number.
#[cycle(statements)]
fn local_made<
    S: Surroundings,
    F: Fn(Global, &S, &mut State, usize, &Parameters, &Body) -> Result<u32, LowerFault>,
>(
    alloc: Global,
    outside: &S,
    inner: &Inner<F>,
    state: &mut State,
    tree: &Function,
    name: Name,
) -> Result<u32, LowerFault>
    requires { NestsFunction S.around inner.now.limit (F.pre inner.now.function) (F.post inner.now.function) }
    ensures { Gives itself result (seen (S.around outside.now) state.new)
        (local_made (text (S.around outside.now) name) (view.function tree.now) (seen (S.around outside.now) state.old)) }
{
    let answer = result_type(alloc, outside, state, &tree.result_type)?;
    let of = signature_of(alloc, outside, state, answer, &tree.parameters)?;
    let wanted = asked_of_result(alloc, outside, state, &tree.result_type)?;
    let given = formals_of(alloc, outside, state, &tree.parameters)?;
    inner_function(
        alloc, outside, inner, state, &tree.body, name, of, wanted, &given,
    )
}

/// A local function, which is in scope in itself (17.4 Local Function Declaration).
#[cycle(statements)]
pub fn local_function<
    S: Surroundings,
    F: Fn(Global, &S, &mut State, usize, &Parameters, &Body) -> Result<u32, LowerFault>,
>(
    alloc: Global,
    outside: &S,
    inner: &Inner<F>,
    state: &mut State,
    tree: &Function,
) -> Result<Vec<Core>, LowerFault>
    requires { NestsFunction S.around inner.now.limit (F.pre inner.now.function) (F.post inner.now.function) }
    ensures { Gives (all_forms (S.around outside.now)) result (seen (S.around outside.now) state.new)
        (low.local_function (view.function tree.now) (seen (S.around outside.now) state.old)) }
{
    let place = place_of(&tree.name);
    let name = own_name(alloc, outside, state.outer, text_of(&tree.name))?;
    let text = Bytes::from_slice(alloc, text_of(&tree.name))?;
    let x = declared(alloc, outside, state, text, unasked(), false)?;
    let number = local_made(alloc, outside, inner, state, tree, name)?;
    let made = closure(outside, place, number);
    let form = unary(outside, alloc, place, Unary::Var(x), made)?;
    Ok(alone(alloc, outside, form)?)
}
