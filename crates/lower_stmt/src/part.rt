// Branches and bodies of statements, where one form is wanted.
#![tactic(auto, unfolding(translation::specs::Walk::on, translation::specs::Walk::leaving))]

ghost use Rattle.lower_clause.specs.Jumps.{all_forms};
ghost use Rattle.lower_leaf.specs.Forms.{part};
ghost use Rattle.lower_leaf.specs.Gives.{Gives};
ghost use Rattle.lower_leaf.specs.Nests.{NestsFunction};
ghost use Rattle.lower_leaf.specs.Seen.{seen};
ghost use Rattle.std.specs.Prelude.{[]};
ghost use Rattle.dart_tree.specs.View as view;
ghost use Rattle.translation.specs.Productions as low;
ghost use Rattle.translation.specs.Statements as s;
ghost use Rattle.translation.specs.Walk as w;

use crate::statement::statement;
use core_program::form::{Core, Part};
use dart_tree::parameter::Parameters;
use dart_tree::statement::{Body, Stmt};
use lower_clause::part::part_of_forms;
use lower_leaf::fault::LowerFault;
use lower_leaf::inner::Inner;
use lower_leaf::state::{State, depth, leave_scope};
use lower_leaf::surroundings::Surroundings;
use std::alloc::Global;

/// The forms of a statement, in a scope of its own.
#[cycle(statements)]
pub fn scoped<
    S: Surroundings,
    F: Fn(Global, &S, &mut State, usize, &Parameters, &Body) -> Result<u32, LowerFault>,
>(
    alloc: Global,
    outside: &S,
    inner: &Inner<F>,
    state: &mut State,
    tree: &Stmt,
) -> Result<Vec<Core>, LowerFault>
    requires { NestsFunction S.around inner.now.limit (F.pre inner.now.function) (F.post inner.now.function) }
    ensures { Gives (all_forms (S.around outside.now)) result (seen (S.around outside.now) state.new)
        (w.scoped (low.stmt (view.stmt tree.now) []) (seen (S.around outside.now) state.old)) }
{
    let before = depth(outside, state);
    let forms = statement(alloc, outside, inner, state, tree)?;
    leave_scope(outside, state, before);
    Ok(forms)
}

/// A branch or a body, in a scope of its own.
#[cycle(statements)]
pub fn part_of<
    S: Surroundings,
    F: Fn(Global, &S, &mut State, usize, &Parameters, &Body) -> Result<u32, LowerFault>,
>(
    alloc: Global,
    outside: &S,
    inner: &Inner<F>,
    state: &mut State,
    tree: &Stmt,
) -> Result<Part, LowerFault>
    requires { NestsFunction S.around inner.now.limit (F.pre inner.now.function) (F.post inner.now.function) }
    ensures { Gives (part (S.around outside.now)) result (seen (S.around outside.now) state.new)
        (s.part (low.stmt (view.stmt tree.now) []) (seen (S.around outside.now) state.old)) }
{
    let forms = scoped(alloc, outside, inner, state, tree)?;
    Ok(part_of_forms(alloc, outside, forms)?)
}
