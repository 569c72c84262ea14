// The initial values of fields (ECMA-408, 10.5 Instance Variables).
ghost use Rattle.std.specs.Prelude.{◌≡◌, map, IfOk};
ghost use Rattle.dart_tree.specs.Lists.{more_variables_of};
ghost use Rattle.dart_tree.specs.UnitView as unit_view;
ghost use Rattle.dart_tree.specs.View as view;
ghost use Rattle.translation.specs.Classes as cl;
ghost use Rattle.translation.specs.Declarations as d;
ghost use Rattle.translation.specs.Types as y;
ghost use Rattle.translation.specs.Walk as w;
ghost use Rattle.lower_leaf.specs.Gives.{Gives};
ghost use Rattle.lower_leaf.specs.Nests.{NestsFunction};
ghost use Rattle.lower_leaf.specs.Seen.{seen};
ghost use Rattle.lower_operand.specs.Made.{all_forms};
ghost use Rattle.lower_class.specs.Views.{class_around, counted};

use crate::field::{ClassAround, is_static, standing_in, write_field};
use core_program::form::Core;
use dart_base::place::Place;
use dart_tree::declaration::{Member, MemberKind};
use dart_tree::expression::Value;
use dart_tree::identifier::Identifier;
use dart_tree::parameter::Parameters;
use dart_tree::statement::{Body, Variable, Variables};
use lower_decl::expr;
use lower_decl::outermost::count_functions;
use lower_decl::standing::inside_of;
use lower_function::function::numbered;
use lower_function::inside::{clone_inside, leave_inside};
use lower_leaf::fault::{LowerFault, Want};
use lower_leaf::first::{first_of_expr, first_of_variables};
use lower_leaf::inner::Inner;
use lower_leaf::name::text_of;
use lower_leaf::site::unasked;
use lower_leaf::state::State;
use lower_leaf::surroundings::Surroundings;
use lower_leaf::types::is_const;
use lower_operand::create::meeting_constant;
use std::alloc::Global;
use std::mem::replace;

// The functions made since have so many variables.
#[tactic(auto, using(lower_decl::proofs::Counted::counted_seen))]
fn count_since<S: Surroundings>(outside: &S, state: &mut State, first: usize, count: u32)
    ensures { seen (S.around outside.now) state.new ≡ counted first count (seen (S.around outside.now) state.old) }
{
    count_functions(&mut state.functions, first, count);
}

// The initial value of a field.
fn initial_value<
    S: Surroundings,
    F: Fn(Global, &S, &mut State, usize, &Parameters, &Body) -> Result<u32, LowerFault>,
>(
    alloc: Global,
    outside: &S,
    inner: &Inner<F>,
    state: &mut State,
    value: &Value,
    around: &ClassAround,
    place: Place,
    name: &Identifier,
) -> Result<Vec<Core>, LowerFault>
    requires { NestsFunction S.around inner.now.limit (F.pre inner.now.function) (F.post inner.now.function) }
    ensures { Gives (all_forms (S.around outside.now)) result (seen (S.around outside.now) state.new)
        (cl.initial_value (class_around (S.around outside.now) around.now) place (y.text_of name.now) (view.value value.now) (seen (S.around outside.now) state.old)) }
{
    let mut made = Vec::new(alloc);
    match value {
        Value::Omitted => {}
        Value::Given(_, tree) => {
            let first = state.functions.len();
            let form = expr(alloc, outside, inner, state, tree)?;
            count_since(outside, state, first, around.count);
            let at = first_of_expr(tree);
            let name = text_of(name);
            made.push(write_field(alloc, outside, state, around, place, at, name, form)?)?;
        }
    }
    Ok(made)
}

// A field with its number; those of a mixin are numbered there.
fn field_value<
    S: Surroundings,
    F: Fn(Global, &S, &mut State, usize, &Parameters, &Body) -> Result<u32, LowerFault>,
>(
    alloc: Global,
    outside: &S,
    inner: &Inner<F>,
    state: &mut State,
    value: &Value,
    around: &ClassAround,
    place: Place,
    name: &Identifier,
) -> Result<Vec<Core>, LowerFault>
    requires { NestsFunction S.around inner.now.limit (F.pre inner.now.function) (F.post inner.now.function) }
    ensures { Gives (all_forms (S.around outside.now)) result (seen (S.around outside.now) state.new)
        (cl.field_value (class_around (S.around outside.now) around.now) place name.now (view.value value.now) (seen (S.around outside.now) state.old)) }
{
    if around.arguments.is_none() {
        numbered(outside, state)?;
    }
    initial_value(alloc, outside, inner, state, value, around, place, name)
}

// The fields behind the first.
fn more_values<
    S: Surroundings,
    F: Fn(Global, &S, &mut State, usize, &Parameters, &Body) -> Result<u32, LowerFault>,
>(
    alloc: Global,
    outside: &S,
    inner: &Inner<F>,
    state: &mut State,
    all: &Vec<Variable>,
    around: &ClassAround,
    place: Place,
) -> Result<Vec<Core>, LowerFault>
    requires { NestsFunction S.around inner.now.limit (F.pre inner.now.function) (F.post inner.now.function) }
    ensures { Gives (all_forms (S.around outside.now)) result (seen (S.around outside.now) state.new)
        (cl.more_values (class_around (S.around outside.now) around.now) place (more_variables_of all.now.items) (seen (S.around outside.now) state.old)) }
{
    let mut found = Vec::new(alloc);
    for one in all {
        let mut forms = field_value(
            alloc, outside, inner, state, &one.value, around, place, &one.name,
        )?;
        found.append(&mut forms)?;
    }
    Ok(found)
}

// The fields of a declaration.
fn field_values<
    S: Surroundings,
    F: Fn(Global, &S, &mut State, usize, &Parameters, &Body) -> Result<u32, LowerFault>,
>(
    alloc: Global,
    outside: &S,
    inner: &Inner<F>,
    state: &mut State,
    tree: &Variables,
    around: &ClassAround,
) -> Result<Vec<Core>, LowerFault>
    requires { NestsFunction S.around inner.now.limit (F.pre inner.now.function) (F.post inner.now.function) }
    ensures { Gives (all_forms (S.around outside.now)) result (seen (S.around outside.now) state.new)
        (cl.field_values (class_around (S.around outside.now) around.now) (view.variables tree.now) (seen (S.around outside.now) state.old)) }
{
    let place = first_of_variables(&tree.kind, &tree.name);
    meeting_constant(outside, state, is_const(&tree.kind));
    let mut found = field_value(
        alloc,
        outside,
        inner,
        state,
        &tree.value,
        around,
        place,
        &tree.name,
    )?;
    let mut more = more_values(alloc, outside, inner, state, &tree.more, around, place)?;
    found.append(&mut more)?;
    Ok(found)
}

/// The fields of a declaration, in whose values there is no `this`.
pub fn values_there<
    S: Surroundings,
    F: Fn(Global, &S, &mut State, usize, &Parameters, &Body) -> Result<u32, LowerFault>,
>(
    alloc: Global,
    outside: &S,
    inner: &Inner<F>,
    state: &mut State,
    tree: &Variables,
    around: &ClassAround,
) -> Result<Vec<Core>, LowerFault>
    requires { NestsFunction S.around inner.now.limit (F.pre inner.now.function) (F.post inner.now.function) }
    ensures { Gives (all_forms (S.around outside.now)) result (seen (S.around outside.now) state.new)
        (cl.entering (d.inside (cl.without_instance (class_around (S.around outside.now) around.now)) w.unasked)
        (cl.field_values (class_around (S.around outside.now) around.now) (view.variables tree.now)) (seen (S.around outside.now) state.old)) }
{
    let of = standing_in(alloc, outside, around, false)?;
    let made = inside_of(alloc, outside, &of, unasked())?;
    let before = replace(&mut state.inside, made);
    let forms = field_values(alloc, outside, inner, state, tree, around)?;
    leave_inside(outside, state, before);
    Ok(forms)
}

// The initial values of the fields that a member declares.
fn values_of<
    S: Surroundings,
    F: Fn(Global, &S, &mut State, usize, &Parameters, &Body) -> Result<u32, LowerFault>,
>(
    alloc: Global,
    outside: &S,
    inner: &Inner<F>,
    state: &mut State,
    one: &Member,
    around: &ClassAround,
) -> Result<Vec<Core>, LowerFault>
    requires { NestsFunction S.around inner.now.limit (F.pre inner.now.function) (F.post inner.now.function) }
    ensures { Gives (all_forms (S.around outside.now)) result (seen (S.around outside.now) state.new)
        (cl.values_of (class_around (S.around outside.now) around.now) (cl.is_static one.now.modifier) (unit_view.member_kind one.now.kind) (seen (S.around outside.now) state.old)) }
{
    if is_static(one.modifier) {
        return Ok(Vec::new(alloc));
    }
    match &one.kind {
        MemberKind::Variables(tree) => values_there(alloc, outside, inner, state, tree, around),
        MemberKind::Constructor(_) => Ok(Vec::new(alloc)),
        MemberKind::Function(_) => Ok(Vec::new(alloc)),
        MemberKind::Accessor(_) => Ok(Vec::new(alloc)),
        MemberKind::Operator(_) => Ok(Vec::new(alloc)),
    }
}

/// The initial values of all fields.
pub fn all_values<
    S: Surroundings,
    F: Fn(Global, &S, &mut State, usize, &Parameters, &Body) -> Result<u32, LowerFault>,
>(
    alloc: Global,
    outside: &S,
    inner: &Inner<F>,
    state: &mut State,
    members: &Vec<Member>,
    around: &ClassAround,
) -> Result<Vec<Core>, LowerFault>
    requires { NestsFunction S.around inner.now.limit (F.pre inner.now.function) (F.post inner.now.function) }
    ensures { Gives (all_forms (S.around outside.now)) result (seen (S.around outside.now) state.new)
        (cl.all_values (class_around (S.around outside.now) around.now) (map unit_view.member members.now.items) (seen (S.around outside.now) state.old)) }
{
    let mut found = Vec::new(alloc);
    for one in members {
        let mut forms = values_of(alloc, outside, inner, state, one, around)?;
        found.append(&mut forms)?;
    }
    Ok(found)
}

// A state with what is in scope there, in which nothing is made.
fn blank<S: Surroundings>(alloc: Global, outside: &S, state: &State) -> Result<State, Want>
    ensures { IfOk result (λ made. seen (S.around outside.now) made ≡ cl.blank (seen (S.around outside.now) state.now)) }
{
    let inside = clone_inside(alloc, outside, &state.inside)?;
    Ok(State {
        outer: state.outer,
        inside,
        scopes: Vec::new(alloc),
        targets: Vec::new(alloc),
        variables: 0,
        declarations: 0,
        sites: Vec::new(alloc),
        literals: Vec::new(alloc),
        functions: Vec::new(alloc),
        statics: Vec::new(alloc),
        has_constants: false,
    })
}

/// How many variables the initial values of a class number. They are translated for that in a state in which nothing is made,
/// since a constructor may stand before the fields.
pub fn value_count<
    S: Surroundings,
    F: Fn(Global, &S, &mut State, usize, &Parameters, &Body) -> Result<u32, LowerFault>,
>(
    alloc: Global,
    outside: &S,
    inner: &Inner<F>,
    state: &State,
    members: &Vec<Member>,
    around: &ClassAround,
) -> Result<u32, Want>
    requires { NestsFunction S.around inner.now.limit (F.pre inner.now.function) (F.post inner.now.function) }
    ensures { IfOk result (λ count. count ≡ cl.value_count (class_around (S.around outside.now) around.now)
        (map unit_view.member members.now.items) (seen (S.around outside.now) state.now)) }
{
    let mut there = blank(alloc, outside, state)?;
    match all_values(alloc, outside, inner, &mut there, members, around) {
        Ok(_) => Ok(there.variables),
        Err(LowerFault::Memory) => Err(Want),
        Err(_) => Ok(0),
    }
}
