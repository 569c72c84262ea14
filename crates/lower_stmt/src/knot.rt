// The circle of expressions, function literals and statements.
ghost use Rattle.lower_leaf.specs.Gives.{Gives, itself};
ghost use Rattle.lower_leaf.specs.Nests.{literal};
ghost use Rattle.lower_leaf.specs.Seen.{seen};
ghost use Rattle.dart_tree.specs.View as view;

use crate::body::literal_function;
use dart_tree::parameter::Parameters;
use dart_tree::statement::Body;
use lower_leaf::fault::LowerFault;
use lower_leaf::inner::Inner;
use lower_leaf::state::State;
use lower_leaf::surroundings::Surroundings;
use std::alloc::Global;

/// Translates a function literal, in which fewer literals may stand around one another than the depth says (ECMA-408,
/// 16.10 Function Expressions). With the depth 0 there is no answer, as where memory runs out.
pub fn function_literal<S: Surroundings>(
    alloc: Global,
    outside: &S,
    state: &mut State,
    depth: usize,
    parameters: &Parameters,
    body: &Body,
) -> Result<u32, LowerFault>
    ensures { Gives itself result (seen (S.around outside.now) state.new)
        (literal (view.parameters parameters.now) (view.body body.now) (seen (S.around outside.now) state.old)) }
{
    if depth == 0 {
        return Err(LowerFault::Memory);
    }
    let inner = Inner {
        limit: depth - 1,
        function: function_literal,
    };
    literal_function(alloc, outside, &inner, state, body, parameters)
}
