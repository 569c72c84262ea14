// Library and static variables (ECMA-408, 8 Variables and 10.8 Static Variables).
ghost use Rattle.std.specs.Prelude.{◌≡◌, OnOk};
ghost use Rattle.dart_tree.specs.Lists.{more_variables_of};
ghost use Rattle.dart_tree.specs.View as view;
ghost use Rattle.translation.specs.Declarations as d;
ghost use Rattle.translation.specs.Types as y;
ghost use Rattle.lower_leaf.specs.Gives.{Gives, itself};
ghost use Rattle.lower_leaf.specs.Nests.{NestsFunction};
ghost use Rattle.lower_leaf.specs.Seen.{seen, asked};
ghost use Rattle.lower_leaf.specs.Around.{text};
ghost use Rattle.lower_leaf.specs.Forms.{part};
ghost use Rattle.lower_decl.specs.Standings.{with_static, static_made};

use crate::outermost::{begin, end};
use crate::standing::{inside_of, static_standing};
use core_program::form::Part;
use core_program::program::StaticVar;
use dart_base::name::Name;
use dart_ir::kind::SiteKind;
use dart_tree::expression::Value;
use dart_tree::identifier::Identifier;
use dart_tree::parameter::Parameters;
use dart_tree::statement::{Body, Variable, Variables};
use lower_function::function::numbered;
use lower_function::inside::leave_inside;
use lower_function::shared::initialiser_cells;
use lower_leaf::fault::{LowerFault, Want};
use lower_leaf::first::first_of_expr;
use lower_leaf::form::{given, missing};
use lower_leaf::inner::Inner;
use lower_leaf::name::{own_name, text_of};
use lower_leaf::site::{checked, unasked};
use lower_leaf::state::{Asked, NumberedStatic, State, clone_asked};
use lower_leaf::surroundings::Surroundings;
use lower_leaf::types::{asked_of_kind, is_const, is_final};
use lower_stmt::{expr, meeting_constant};
use std::alloc::Global;
use std::mem::replace;

// A variable by the number of its declaration.
#[tactic(auto, using(crate::proofs::Rest::steps, crate::proofs::Statics::static_seen))]
fn with_static<S: Surroundings>(
    alloc: Global,
    outside: &S,
    state: &mut State,
    number: u32,
    name: Name,
    final_one: bool,
    init: Part,
) -> Result<(), Want>
    ensures { OnOk result (seen (S.around outside.now) state.new
        ≡ with_static number (text (S.around outside.now) name) final_one (part (S.around outside.now) init) (seen (S.around outside.now) state.old)) }
{
    let cells = initialiser_cells(alloc, outside, &state.functions, state.variables, &init)?;
    let made = StaticVar {
        name,
        vars: state.variables,
        cells,
        init,
        is_final: final_one,
    };
    state.statics.push(NumberedStatic { number, made })?;
    Ok(())
}

// The initial value, where one is written.
fn static_init<
    S: Surroundings,
    F: Fn(Global, &S, &mut State, usize, &Parameters, &Body) -> Result<u32, LowerFault>,
>(
    alloc: Global,
    outside: &S,
    inner: &Inner<F>,
    state: &mut State,
    tree: &Value,
    wanted: &Asked,
) -> Result<Part, LowerFault>
    requires { NestsFunction S.around inner.now.limit (F.pre inner.now.function) (F.post inner.now.function) }
    ensures { Gives (part (S.around outside.now)) result (seen (S.around outside.now) state.new)
        (d.static_init (asked (S.around outside.now) wanted.now) (view.value tree.now) (seen (S.around outside.now) state.old)) }
{
    match tree {
        Value::Omitted => Ok(missing(outside)),
        Value::Given(_, tree) => {
            let form = expr(alloc, outside, inner, state, tree)?;
            let asks = clone_asked(alloc, outside, wanted)?;
            let at = first_of_expr(tree);
            let form = checked(alloc, outside, state, SiteKind::VarInit, at, asks, form)?;
            Ok(given(outside, alloc, form)?)
        }
    }
}

// The initialiser of a variable, which is made with the number of its declaration.
fn static_made<
    S: Surroundings,
    F: Fn(Global, &S, &mut State, usize, &Parameters, &Body) -> Result<u32, LowerFault>,
>(
    alloc: Global,
    outside: &S,
    inner: &Inner<F>,
    state: &mut State,
    name: &Identifier,
    value: &Value,
    wanted: &Asked,
    final_one: bool,
    number: u32,
) -> Result<u32, LowerFault>
    requires { NestsFunction S.around inner.now.limit (F.pre inner.now.function) (F.post inner.now.function) }
    ensures { Gives itself result (seen (S.around outside.now) state.new)
        (static_made (y.word_of name.now) (asked (S.around outside.now) wanted.now) final_one (view.value value.now) number (seen (S.around outside.now) state.old)) }
{
    let name = own_name(alloc, outside, state.outer, text_of(name))?;
    let init = static_init(alloc, outside, inner, state, value, wanted)?;
    with_static(alloc, outside, state, number, name, final_one, init)?;
    Ok(number)
}

// The initialiser of a variable, through which its variables are numbered.
fn outermost_static<
    S: Surroundings,
    F: Fn(Global, &S, &mut State, usize, &Parameters, &Body) -> Result<u32, LowerFault>,
>(
    alloc: Global,
    outside: &S,
    inner: &Inner<F>,
    state: &mut State,
    name: &Identifier,
    value: &Value,
    wanted: &Asked,
    final_one: bool,
    number: u32,
) -> Result<u32, LowerFault>
    requires { NestsFunction S.around inner.now.limit (F.pre inner.now.function) (F.post inner.now.function) }
    ensures { Gives itself result (seen (S.around outside.now) state.new)
        (d.outermost 0 (static_made (y.word_of name.now) (asked (S.around outside.now) wanted.now) final_one (view.value value.now) number) (seen (S.around outside.now) state.old)) }
{
    let beginning = begin(outside, state, 0);
    let made = static_made(
        alloc, outside, inner, state, name, value, wanted, final_one, number,
    )?;
    end(outside, state, beginning);
    Ok(made)
}

// A variable, by the number of its declaration.
fn static_variable<
    S: Surroundings,
    F: Fn(Global, &S, &mut State, usize, &Parameters, &Body) -> Result<u32, LowerFault>,
>(
    alloc: Global,
    outside: &S,
    inner: &Inner<F>,
    state: &mut State,
    name: &Identifier,
    value: &Value,
    wanted: &Asked,
    final_one: bool,
) -> Result<u32, LowerFault>
    requires { NestsFunction S.around inner.now.limit (F.pre inner.now.function) (F.post inner.now.function) }
    ensures { Gives itself result (seen (S.around outside.now) state.new)
        (d.static_variable (y.word_of name.now) (asked (S.around outside.now) wanted.now) final_one (view.value value.now) (seen (S.around outside.now) state.old)) }
{
    let number = numbered(outside, state)?;
    outermost_static(
        alloc, outside, inner, state, name, value, wanted, final_one, number,
    )
}

// The variables behind the first.
fn static_variables<
    S: Surroundings,
    F: Fn(Global, &S, &mut State, usize, &Parameters, &Body) -> Result<u32, LowerFault>,
>(
    alloc: Global,
    outside: &S,
    inner: &Inner<F>,
    state: &mut State,
    all: &Vec<Variable>,
    wanted: &Asked,
    final_one: bool,
) -> Result<u32, LowerFault>
    requires { NestsFunction S.around inner.now.limit (F.pre inner.now.function) (F.post inner.now.function) }
    ensures { Gives itself result (seen (S.around outside.now) state.new)
        (d.static_variables (asked (S.around outside.now) wanted.now) final_one (more_variables_of all.now.items) (seen (S.around outside.now) state.old)) }
{
    for one in all {
        static_variable(
            alloc, outside, inner, state, &one.name, &one.value, wanted, final_one,
        )?;
    }
    Ok(0)
}

// The variables of a declaration.
fn static_names<
    S: Surroundings,
    F: Fn(Global, &S, &mut State, usize, &Parameters, &Body) -> Result<u32, LowerFault>,
>(
    alloc: Global,
    outside: &S,
    inner: &Inner<F>,
    state: &mut State,
    tree: &Variables,
) -> Result<u32, LowerFault>
    requires { NestsFunction S.around inner.now.limit (F.pre inner.now.function) (F.post inner.now.function) }
    ensures { Gives itself result (seen (S.around outside.now) state.new)
        (d.static_names (view.variables tree.now) (seen (S.around outside.now) state.old)) }
{
    let wanted = asked_of_kind(alloc, outside, state, &tree.kind)?;
    let final_one = is_final(&tree.kind);
    meeting_constant(outside, state, is_const(&tree.kind));
    static_variable(
        alloc,
        outside,
        inner,
        state,
        &tree.name,
        &tree.value,
        &wanted,
        final_one,
    )?;
    static_variables(alloc, outside, inner, state, &tree.more, &wanted, final_one)
}

/// The variables of a declaration, in which there are no type parameters and no `this`.
#[tactic(auto, using(crate::proofs::Rest::steps), unfolding(translation::specs::Walk::on, translation::specs::Walk::within))]
pub fn variables_declared<
    S: Surroundings,
    F: Fn(Global, &S, &mut State, usize, &Parameters, &Body) -> Result<u32, LowerFault>,
>(
    alloc: Global,
    outside: &S,
    inner: &Inner<F>,
    state: &mut State,
    tree: &Variables,
) -> Result<u32, LowerFault>
    requires { NestsFunction S.around inner.now.limit (F.pre inner.now.function) (F.post inner.now.function) }
    ensures { Gives itself result (seen (S.around outside.now) state.new)
        (d.variables_declared (view.variables tree.now) (seen (S.around outside.now) state.old)) }
{
    let around = inside_of(alloc, outside, &static_standing(), unasked())?;
    let before = replace(&mut state.inside, around);
    let made = static_names(alloc, outside, inner, state, tree)?;
    leave_inside(outside, state, before);
    Ok(made)
}
