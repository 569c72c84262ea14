// How the walks over expressions reach the bodies of function literals.
ghost use Rattle.dart_tree.specs.View as view;
ghost use Rattle.lower_leaf.specs.Gives.{Gives, itself};
ghost use Rattle.lower_leaf.specs.Nests.{NestsFunction, literal};
ghost use Rattle.lower_leaf.specs.Seen.{seen};

use crate::fault::LowerFault;
use crate::state::State;
use crate::surroundings::Surroundings;
use dart_tree::parameter::Parameters;
use dart_tree::statement::Body;
use std::alloc::Global;

/// A function that translates function literals, with at most so many around one another as it is told, which is at most
/// the limit. It answers the number of the declaration.
#[derive(Clone, Copy)]
pub struct Inner<F> {
    pub limit: usize,
    pub function: F,
}

/// Translates a function literal (ECMA-408, 16.10 Function Expressions).
pub fn literal<
    S: Surroundings,
    F: Fn(Global, &S, &mut State, usize, &Parameters, &Body) -> Result<u32, LowerFault>,
>(
    alloc: Global,
    outside: &S,
    inner: &Inner<F>,
    state: &mut State,
    parameters: &Parameters,
    body: &Body,
) -> Result<u32, LowerFault>
    requires { NestsFunction S.around inner.now.limit (F.pre inner.now.function) (F.post inner.now.function) }
    ensures { Gives itself result (seen (S.around outside.now) state.new)
        (literal (view.parameters parameters.now) (view.body body.now) (seen (S.around outside.now) state.old)) }
{
    (inner.function)(alloc, outside, state, inner.limit, parameters, body)
}
