// Try statements (ECMA-408, 17.11 Try).
#![tactic(auto, using(crate::proofs::Tried::tried), unfolding(translation::specs::Walk::on, translation::specs::Walk::leaving, translation::specs::Walk::within))]

ghost use Rattle.dart_tree.specs.Lists.{block_of, try_parts_of};
ghost use Rattle.lower_clause.specs.Parts.{caught, handled};
ghost use Rattle.lower_leaf.specs.Forms.{core};
ghost use Rattle.lower_leaf.specs.Gives.{Gives};
ghost use Rattle.lower_leaf.specs.Nests.{NestsFunction};
ghost use Rattle.lower_leaf.specs.Seen.{seen};
ghost use Rattle.lower_stmt.specs.Parts.{try_part};
ghost use Rattle.std.specs.Prelude.{None, Some};
ghost use Rattle.dart_tree.specs.View as view;
ghost use Rattle.translation.specs.Productions as low;
ghost use Rattle.translation.specs.Statements as s;
ghost use Rattle.translation.specs.Walk as w;

use crate::body::block_of;
use core_program::form::Core;
use dart_base::bytes::Bytes;
use dart_tree::parameter::Parameters;
use dart_tree::statement::{Block, Body, Catch, TryKind, TryPart};
use lower_clause::handler::{
    Caught, Handled, declared_trace, everything, test_of, with_handler, with_last,
};
use lower_function::inside::{enter_handler, leave_inside};
use lower_leaf::fault::LowerFault;
use lower_leaf::first::first_of_type;
use lower_leaf::form::missing;
use lower_leaf::inner::Inner;
use lower_leaf::kept::kept_type;
use lower_leaf::name::text_of;
use lower_leaf::site::unasked;
use lower_leaf::state::{State, declared, depth, leave_scope};
use lower_leaf::surroundings::Surroundings;
use std::alloc::Global;

/// The handlers and the final part.
#[cycle(statements)]
pub fn try_parts<
    S: Surroundings,
    F: Fn(Global, &S, &mut State, usize, &Parameters, &Body) -> Result<u32, LowerFault>,
>(
    alloc: Global,
    outside: &S,
    inner: &Inner<F>,
    state: &mut State,
    parts: &Vec<TryPart>,
) -> Result<Handled, LowerFault>
    requires { NestsFunction S.around inner.now.limit (F.pre inner.now.function) (F.post inner.now.function) }
    ensures { Gives (handled (S.around outside.now)) result (seen (S.around outside.now) state.new)
        (low.try_parts (try_parts_of parts.now.items) (seen (S.around outside.now) state.old)) }
{
    let mut found = Handled {
        handlers: Vec::new(alloc),
        last: missing(outside),
    };
    for one in parts {
        found = try_part(alloc, outside, inner, state, one, found)?;
    }
    Ok(found)
}

// A part of a `try`, behind those before it.
#[cycle(statements)]
fn try_part<
    S: Surroundings,
    F: Fn(Global, &S, &mut State, usize, &Parameters, &Body) -> Result<u32, LowerFault>,
>(
    alloc: Global,
    outside: &S,
    inner: &Inner<F>,
    state: &mut State,
    one: &TryPart,
    before: Handled,
) -> Result<Handled, LowerFault>
    requires { NestsFunction S.around inner.now.limit (F.pre inner.now.function) (F.post inner.now.function) }
    ensures { Gives (handled (S.around outside.now)) result (seen (S.around outside.now) state.new)
        (try_part (view.try_kind one.now.kind) (block_of one.now.block) (handled (S.around outside.now) before) (seen (S.around outside.now) state.old)) }
{
    match &one.kind {
        TryKind::On {
            word: _,
            type_node,
            catch,
        } => {
            let of = kept_type(alloc, outside, state, type_node)?;
            let x = caught_on(alloc, outside, inner, state, &one.block, catch)?;
            let of = test_of(alloc, outside, first_of_type(type_node), of)?;
            Ok(with_handler(outside, before, of, x)?)
        }
        TryKind::Catch(names) => {
            let x = caught_by(alloc, outside, inner, state, &one.block, names)?;
            Ok(with_handler(outside, before, everything(outside), x)?)
        }
        TryKind::Finally(_) => {
            let form = block_of(alloc, outside, inner, state, &one.block)?;
            Ok(with_last(alloc, outside, before, form)?)
        }
    }
}

// A handler of a type.
#[cycle(statements)]
fn caught_on<
    S: Surroundings,
    F: Fn(Global, &S, &mut State, usize, &Parameters, &Body) -> Result<u32, LowerFault>,
>(
    alloc: Global,
    outside: &S,
    inner: &Inner<F>,
    state: &mut State,
    block: &Block,
    catch: &Option<Catch>,
) -> Result<Caught, LowerFault>
    requires { NestsFunction S.around inner.now.limit (F.pre inner.now.function) (F.post inner.now.function) }
    ensures { Gives (caught (S.around outside.now)) result (seen (S.around outside.now) state.new)
        (s.caught (s.catch_names catch.now) (low.block_of (block_of block.now)) (seen (S.around outside.now) state.old)) }
{
    match catch {
        None => uncaught(alloc, outside, inner, state, block),
        Some(names) => caught_by(alloc, outside, inner, state, block, names),
    }
}

// The body of a handler, in which `rethrow` may stand (17.10 Rethrow).
#[cycle(statements)]
fn handler_body<
    S: Surroundings,
    F: Fn(Global, &S, &mut State, usize, &Parameters, &Body) -> Result<u32, LowerFault>,
>(
    alloc: Global,
    outside: &S,
    inner: &Inner<F>,
    state: &mut State,
    block: &Block,
) -> Result<Core, LowerFault>
    requires { NestsFunction S.around inner.now.limit (F.pre inner.now.function) (F.post inner.now.function) }
    ensures { Gives (core (S.around outside.now)) result (seen (S.around outside.now) state.new)
        (w.in_handler (low.block_of (block_of block.now)) (seen (S.around outside.now) state.old)) }
{
    let before = enter_handler(alloc, outside, state)?;
    let form = block_of(alloc, outside, inner, state, block)?;
    leave_inside(outside, state, before);
    Ok(form)
}

// A handler without a `catch`.
#[cycle(statements)]
fn uncaught<
    S: Surroundings,
    F: Fn(Global, &S, &mut State, usize, &Parameters, &Body) -> Result<u32, LowerFault>,
>(
    alloc: Global,
    outside: &S,
    inner: &Inner<F>,
    state: &mut State,
    block: &Block,
) -> Result<Caught, LowerFault>
    requires { NestsFunction S.around inner.now.limit (F.pre inner.now.function) (F.post inner.now.function) }
    ensures { Gives (caught (S.around outside.now)) result (seen (S.around outside.now) state.new)
        (s.caught None (low.block_of (block_of block.now)) (seen (S.around outside.now) state.old)) }
{
    let body = handler_body(alloc, outside, inner, state, block)?;
    Ok(Caught {
        exception: None,
        trace: None,
        body,
    })
}

// A handler with a `catch`, whose names are in scope in its block.
#[cycle(statements)]
fn caught_by<
    S: Surroundings,
    F: Fn(Global, &S, &mut State, usize, &Parameters, &Body) -> Result<u32, LowerFault>,
>(
    alloc: Global,
    outside: &S,
    inner: &Inner<F>,
    state: &mut State,
    block: &Block,
    names: &Catch,
) -> Result<Caught, LowerFault>
    requires { NestsFunction S.around inner.now.limit (F.pre inner.now.function) (F.post inner.now.function) }
    ensures { Gives (caught (S.around outside.now)) result (seen (S.around outside.now) state.new)
        (s.caught (s.catch_names (Some names.now)) (low.block_of (block_of block.now)) (seen (S.around outside.now) state.old)) }
{
    let before = depth(outside, state);
    let name = Bytes::from_slice(alloc, text_of(&names.exception))?;
    let x = declared(alloc, outside, state, name, unasked(), false)?;
    let trace = declared_trace(alloc, outside, state, &names.trace)?;
    let body = handler_body(alloc, outside, inner, state, block)?;
    leave_scope(outside, state, before);
    Ok(Caught {
        exception: Some(x),
        trace,
        body,
    })
}
