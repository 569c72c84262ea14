// Local variables (ECMA-408, 17.3 Local Variable Declaration).
#![tactic(auto, using(crate::proofs::Trees::variable_trees, crate::proofs::Rest::steps), unfolding(translation::specs::Walk::on))]

ghost use Rattle.dart_tree.specs.Lists.{more_variables_of};
ghost use Rattle.lower_clause.specs.Jumps.{all_forms};
ghost use Rattle.lower_leaf.specs.Forms.{core};
ghost use Rattle.lower_leaf.specs.Gives.{Gives};
ghost use Rattle.lower_leaf.specs.Nests.{NestsFunction};
ghost use Rattle.lower_leaf.specs.Seen.{seen, asked};
ghost use Rattle.dart_tree.specs.View as view;
ghost use Rattle.translation.specs.Productions as low;
ghost use Rattle.translation.specs.Statements as s;
ghost use Rattle.translation.specs.Types as y;

use core_program::form::{Core, Unary};
use dart_base::bytes::Bytes;
use dart_base::place::Place;
use dart_ir::kind::SiteKind;
use dart_tree::expression::Value;
use dart_tree::identifier::Identifier;
use dart_tree::parameter::Parameters;
use dart_tree::statement::{Body, Variable, Variables};
use lower_clause::part::alone;
use lower_expr::lower::expr;
use lower_expr::{append, meeting_constant, null};
use lower_leaf::fault::LowerFault;
use lower_leaf::first::{first_of_expr, first_of_variables};
use lower_leaf::form::unary;
use lower_leaf::inner::Inner;
use lower_leaf::name::text_of;
use lower_leaf::site::checked;
use lower_leaf::state::{Asked, State, clone_asked, declared};
use lower_leaf::surroundings::Surroundings;
use lower_leaf::types::{asked_of_kind, is_const, is_final};
use std::alloc::Global;

/// After its initial value a variable is in scope.
pub fn variable_form<S: Surroundings>(
    alloc: Global,
    outside: &S,
    state: &mut State,
    place: Place,
    name: &Identifier,
    wanted: Asked,
    final_one: bool,
    form: Core,
) -> Result<Core, LowerFault>
    ensures { Gives (core (S.around outside.now)) result (seen (S.around outside.now) state.new)
        (s.variable_form place (y.text_of name.now) (asked (S.around outside.now) wanted) final_one
        (core (S.around outside.now) form) (seen (S.around outside.now) state.old)) }
{
    let text = Bytes::from_slice(alloc, text_of(name))?;
    let x = declared(alloc, outside, state, text, wanted, final_one)?;
    Ok(unary(outside, alloc, place, Unary::Var(x), form)?)
}

// The initial value of a variable, null where none is written.
fn initial<
    S: Surroundings,
    F: Fn(Global, &S, &mut State, usize, &Parameters, &Body) -> Result<u32, LowerFault>,
>(
    alloc: Global,
    outside: &S,
    inner: &Inner<F>,
    state: &mut State,
    tree: &Value,
    place: Place,
    wanted: &Asked,
) -> Result<Core, LowerFault>
    requires { NestsFunction S.around inner.now.limit (F.pre inner.now.function) (F.post inner.now.function) }
    ensures { Gives (core (S.around outside.now)) result (seen (S.around outside.now) state.new)
        (low.initial place (asked (S.around outside.now) wanted.now) (view.value tree.now) (seen (S.around outside.now) state.old)) }
{
    match tree {
        Value::Omitted => Ok(null(outside, place)),
        Value::Given(_, tree) => {
            let form = expr(alloc, outside, inner, state, tree)?;
            let asks = clone_asked(alloc, outside, wanted)?;
            let at = first_of_expr(tree);
            checked(alloc, outside, state, SiteKind::VarInit, at, asks, form)
        }
    }
}

// A variable with its initial value.
fn variable<
    S: Surroundings,
    F: Fn(Global, &S, &mut State, usize, &Parameters, &Body) -> Result<u32, LowerFault>,
>(
    alloc: Global,
    outside: &S,
    inner: &Inner<F>,
    state: &mut State,
    tree: &Value,
    name: &Identifier,
    place: Place,
    wanted: &Asked,
    final_one: bool,
) -> Result<Core, LowerFault>
    requires { NestsFunction S.around inner.now.limit (F.pre inner.now.function) (F.post inner.now.function) }
    ensures { Gives (core (S.around outside.now)) result (seen (S.around outside.now) state.new)
        (s.variable place (asked (S.around outside.now) wanted.now) final_one (y.text_of name.now) (low.initial place (asked (S.around outside.now) wanted.now) (view.value tree.now)) (seen (S.around outside.now) state.old)) }
{
    let form = initial(alloc, outside, inner, state, tree, place, wanted)?;
    let asks = clone_asked(alloc, outside, wanted)?;
    variable_form(alloc, outside, state, place, name, asks, final_one, form)
}

/// The variables of one statement.
pub fn variables<
    S: Surroundings,
    F: Fn(Global, &S, &mut State, usize, &Parameters, &Body) -> Result<u32, LowerFault>,
>(
    alloc: Global,
    outside: &S,
    inner: &Inner<F>,
    state: &mut State,
    tree: &Variables,
) -> Result<Vec<Core>, LowerFault>
    requires { NestsFunction S.around inner.now.limit (F.pre inner.now.function) (F.post inner.now.function) }
    ensures { Gives (all_forms (S.around outside.now)) result (seen (S.around outside.now) state.new)
        (low.variables (view.variables tree.now) (seen (S.around outside.now) state.old)) }
{
    let place = first_of_variables(&tree.kind, &tree.name);
    let wanted = asked_of_kind(alloc, outside, state, &tree.kind)?;
    let final_one = is_final(&tree.kind);
    meeting_constant(outside, state, is_const(&tree.kind));
    let form = variable(
        alloc,
        outside,
        inner,
        state,
        &tree.value,
        &tree.name,
        place,
        &wanted,
        final_one,
    )?;
    let more = more_variables(
        alloc, outside, inner, state, &tree.more, place, &wanted, final_one,
    )?;
    let mut forms = alone(alloc, outside, form)?;
    append(&mut forms, more)?;
    Ok(forms)
}

// The variables behind the first.
fn more_variables<
    S: Surroundings,
    F: Fn(Global, &S, &mut State, usize, &Parameters, &Body) -> Result<u32, LowerFault>,
>(
    alloc: Global,
    outside: &S,
    inner: &Inner<F>,
    state: &mut State,
    all: &Vec<Variable>,
    place: Place,
    wanted: &Asked,
    final_one: bool,
) -> Result<Vec<Core>, LowerFault>
    requires { NestsFunction S.around inner.now.limit (F.pre inner.now.function) (F.post inner.now.function) }
    ensures { Gives (all_forms (S.around outside.now)) result (seen (S.around outside.now) state.new)
        (low.more_variables place (asked (S.around outside.now) wanted.now) final_one (more_variables_of all.now.items) (seen (S.around outside.now) state.old)) }
{
    let mut found = Vec::new(alloc);
    for one in all {
        let form = variable(
            alloc, outside, inner, state, &one.value, &one.name, place, wanted, final_one,
        )?;
        found.push(form)?;
    }
    Ok(found)
}
