// New objects (ECMA-408, 16.12 Instance Creation).
ghost use Rattle.dart_tree.specs.Tree as tree;
ghost use Rattle.dart_tree.specs.View as view;
ghost use Rattle.translation.specs.Productions as low;
ghost use Rattle.lower_leaf.specs.Gives.{Gives};
ghost use Rattle.lower_leaf.specs.Nests.{NestsFunction};
ghost use Rattle.lower_leaf.specs.Seen.{seen};
ghost use Rattle.lower_reference.specs.Referred.{reference};

use crate::list::arguments;
use dart_tree::expression::{Arguments, Creation};
use dart_tree::identifier::DotName;
use dart_tree::parameter::Parameters;
use dart_tree::statement::Body;
use dart_tree::types::TypeNode;
use lower_leaf::fault::LowerFault;
use lower_leaf::first::place_of_creation;
use lower_leaf::inner::Inner;
use lower_leaf::state::State;
use lower_leaf::surroundings::Surroundings;
use lower_operand::create::{
    created, created_id, created_name, created_type, is_constant, meeting_constant,
};
use lower_reference::reference::Reference;
use std::alloc::Global;

/// A new object, or a constant one.
#[cycle(lower)]
pub fn new_object<
    S: Surroundings,
    F: Fn(Global, &S, &mut State, usize, &Parameters, &Body) -> Result<u32, LowerFault>,
>(
    alloc: Global,
    outside: &S,
    inner: &Inner<F>,
    state: &mut State,
    given: &Arguments,
    creation: Creation,
    class: &TypeNode,
    constructor: &Option<DotName>,
) -> Result<Reference, LowerFault>
    requires { NestsFunction S.around inner.now.limit (F.pre inner.now.function) (F.post inner.now.function) }
    ensures { Gives (reference (S.around outside.now)) result (seen (S.around outside.now) state.new)
        (low.primary (tree.new_object creation (view.type_node class.now) constructor.now (view.arguments given.now)) (seen (S.around outside.now) state.old)) }
{
    meeting_constant(outside, state, is_constant(creation));
    let of = created_type(alloc, outside, state, class, constructor)?;
    let name = created_name(alloc, outside, state, class, constructor)?;
    let id = created_id(outside, state, class, constructor);
    let operands = arguments(alloc, outside, inner, state, given)?;
    let place = place_of_creation(creation);
    let text = name.as_slice();
    let made = created(alloc, outside, state, place, of, text, id, operands)?;
    Ok(Reference::Evaluated(made))
}
