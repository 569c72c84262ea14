// Arguments, lists and maps (ECMA-408, 16.14.1 Actual Argument List Evaluation, 16.7 Lists and 16.8 Maps).
ghost use Rattle.std.specs.Prelude.{◌≡◌, ◌++◌, map, IfOk, OnOk};
ghost use Rattle.dart_tree.specs.Lists.{items_of, entries_of};
ghost use Rattle.lower_leaf.specs.Around.{text, types};
ghost use Rattle.lower_operand.specs.Made.{all_forms};
ghost use Rattle.dart_tree.specs.View as view;
ghost use Rattle.translation.specs.Expressions as e;
ghost use Rattle.translation.specs.Firsts as firsts;
ghost use Rattle.translation.specs.Productions as low;
ghost use Rattle.translation.specs.References as r;
ghost use Rattle.lower_expr.specs.Behind.{label_names};
ghost use Rattle.lower_leaf.specs.Forms.{core, row_of};
ghost use Rattle.lower_leaf.specs.Gives.{Gives};
ghost use Rattle.lower_leaf.specs.Nests.{NestsFunction};
ghost use Rattle.lower_leaf.specs.Seen.{seen, asked};

use crate::lower::expr;
use core_program::form::Core;
use dart_base::name::Name;
use dart_base::place::Place;
use dart_ir::kind::SiteKind;
use dart_ir::types::Types;
use dart_tree::expression::{Arguments, Entry, Expr, Item};
use dart_tree::identifier::Label;
use dart_tree::parameter::Parameters;
use dart_tree::statement::Body;
use lower_leaf::fault::{LowerFault, Want};
use lower_leaf::first::first_of_expr;
use lower_leaf::form::{Operands, block, let_in};
use lower_leaf::inner::Inner;
use lower_leaf::name::text_of;
use lower_leaf::site::checked;
use lower_leaf::state::{Asked, State, clone_asked, fresh};
use lower_leaf::surroundings::Surroundings;
use lower_operand::literal::{asked_at, new_map, put};
use lower_reference::plain::variable;
use lower_reference::reference::name_of;
use std::alloc::Global;

// The name of an argument that goes by name.
fn add_label<S: Surroundings>(
    alloc: Global,
    outside: &S,
    state: &State,
    label: &Option<Label>,
    names: &mut Vec<Name>,
) -> Result<(), Want>
    ensures { OnOk result (map (text (S.around outside.now)) names.new.items
        ≡ map (text (S.around outside.now)) names.old.items ++ low.label_name label.now (seen (S.around outside.now) state.now)) }
{
    match label {
        None => Ok(()),
        Some(label) => {
            names.push(name_of(alloc, outside, state, text_of(&label.name))?)?;
            Ok(())
        }
    }
}

// The names of the arguments that go by name.
fn labels<S: Surroundings>(
    alloc: Global,
    outside: &S,
    state: &State,
    all: &Vec<Item>,
) -> Result<Vec<Name>, Want>
    ensures { IfOk result (λ made. map (text (S.around outside.now)) made.items
        ≡ label_names (items_of all.now.items) (seen (S.around outside.now) state.now)) }
{
    let mut names = Vec::new(alloc);
    for one in all {
        add_label(alloc, outside, state, &one.label, &mut names)?;
    }
    Ok(names)
}

/// Arguments (ECMA-408, 16.14.1 Actual Argument List Evaluation).
#[cycle(lower)]
pub fn arguments<
    S: Surroundings,
    F: Fn(Global, &S, &mut State, usize, &Parameters, &Body) -> Result<u32, LowerFault>,
>(
    alloc: Global,
    outside: &S,
    inner: &Inner<F>,
    state: &mut State,
    given: &Arguments,
) -> Result<Operands, LowerFault>
    requires { NestsFunction S.around inner.now.limit (F.pre inner.now.function) (F.post inner.now.function) }
    ensures { Gives (row_of (S.around outside.now)) result (seen (S.around outside.now) state.new)
        (low.arguments (view.arguments given.now) (seen (S.around outside.now) state.old)) }
{
    items(alloc, outside, inner, state, &given.items)
}

// Arguments in order, the last of which go by name.
#[cycle(lower)]
fn items<
    S: Surroundings,
    F: Fn(Global, &S, &mut State, usize, &Parameters, &Body) -> Result<u32, LowerFault>,
>(
    alloc: Global,
    outside: &S,
    inner: &Inner<F>,
    state: &mut State,
    all: &Vec<Item>,
) -> Result<Operands, LowerFault>
    requires { NestsFunction S.around inner.now.limit (F.pre inner.now.function) (F.post inner.now.function) }
    ensures { Gives (row_of (S.around outside.now)) result (seen (S.around outside.now) state.new)
        (low.items (items_of all.now.items) (seen (S.around outside.now) state.old)) }
{
    let forms = values(alloc, outside, inner, state, all)?;
    let names = labels(alloc, outside, state, all)?;
    Ok(Operands { forms, names })
}

/// The values of items in order.
#[cycle(lower)]
pub fn values<
    S: Surroundings,
    F: Fn(Global, &S, &mut State, usize, &Parameters, &Body) -> Result<u32, LowerFault>,
>(
    alloc: Global,
    outside: &S,
    inner: &Inner<F>,
    state: &mut State,
    all: &Vec<Item>,
) -> Result<Vec<Core>, LowerFault>
    requires { NestsFunction S.around inner.now.limit (F.pre inner.now.function) (F.post inner.now.function) }
    ensures { Gives (all_forms (S.around outside.now)) result (seen (S.around outside.now) state.new)
        (low.steps (items_of all.now.items) (seen (S.around outside.now) state.old)) }
{
    let mut found = Vec::new(alloc);
    for one in all {
        let form = expr(alloc, outside, inner, state, &one.value)?;
        found.push(form)?;
    }
    Ok(found)
}

/// The elements of a list (16.7 Lists).
#[cycle(lower)]
pub fn elements<
    S: Surroundings,
    F: Fn(Global, &S, &mut State, usize, &Parameters, &Body) -> Result<u32, LowerFault>,
>(
    alloc: Global,
    outside: &S,
    inner: &Inner<F>,
    state: &mut State,
    all: &Vec<Item>,
    given: &Types,
) -> Result<Vec<Core>, LowerFault>
    requires { NestsFunction S.around inner.now.limit (F.pre inner.now.function) (F.post inner.now.function) }
    ensures { Gives (all_forms (S.around outside.now)) result (seen (S.around outside.now) state.new)
        (low.elements (e.asked_at 0 (types (S.around outside.now) given.now.items)) (items_of all.now.items) (seen (S.around outside.now) state.old)) }
{
    let wanted = asked_at(alloc, outside, 0, given)?;
    let mut found = Vec::new(alloc);
    for one in all {
        let form = element(alloc, outside, inner, state, &one.value, &wanted)?;
        found.push(form)?;
    }
    Ok(found)
}

/// A map (16.8 Maps).
#[cycle(lower)]
pub fn map<
    S: Surroundings,
    F: Fn(Global, &S, &mut State, usize, &Parameters, &Body) -> Result<u32, LowerFault>,
>(
    alloc: Global,
    outside: &S,
    inner: &Inner<F>,
    state: &mut State,
    all: &Vec<Entry>,
    place: Place,
    given: Types,
) -> Result<Core, LowerFault>
    requires { NestsFunction S.around inner.now.limit (F.pre inner.now.function) (F.post inner.now.function) }
    ensures { Gives (core (S.around outside.now)) result (seen (S.around outside.now) state.new)
        (e.map_form place (types (S.around outside.now) given.items)
        (λ made. low.entries (e.asked_at 0 (types (S.around outside.now) given.items)) (e.asked_at 1 (types (S.around outside.now) given.items)) place made (entries_of all.now.items)) (seen (S.around outside.now) state.old)) }
{
    let of_keys = asked_at(alloc, outside, 0, &given)?;
    let of_values = asked_at(alloc, outside, 1, &given)?;
    let made = new_map(alloc, outside, state, place, given)?;
    let x = fresh(outside, state)?;
    let mut forms = entries(
        alloc, outside, inner, state, all, &of_keys, &of_values, place, x,
    )?;
    forms.push(variable(outside, place, x))?;
    let body = block(outside, place, forms);
    Ok(let_in(outside, alloc, place, x, made, body)?)
}

// The entries of a map.
#[cycle(lower)]
fn entries<
    S: Surroundings,
    F: Fn(Global, &S, &mut State, usize, &Parameters, &Body) -> Result<u32, LowerFault>,
>(
    alloc: Global,
    outside: &S,
    inner: &Inner<F>,
    state: &mut State,
    all: &Vec<Entry>,
    of_keys: &Asked,
    of_values: &Asked,
    place: Place,
    x: u32,
) -> Result<Vec<Core>, LowerFault>
    requires { NestsFunction S.around inner.now.limit (F.pre inner.now.function) (F.post inner.now.function) }
    ensures { Gives (all_forms (S.around outside.now)) result (seen (S.around outside.now) state.new)
        (low.entries (asked (S.around outside.now) of_keys.now) (asked (S.around outside.now) of_values.now) place (r.variable place x) (entries_of all.now.items) (seen (S.around outside.now) state.old)) }
{
    let mut found = Vec::new(alloc);
    for one in all {
        let key = element(alloc, outside, inner, state, &one.key, of_keys)?;
        let value = element(alloc, outside, inner, state, &one.value, of_values)?;
        let map = variable(outside, place, x);
        let form = put(alloc, outside, place, map, key, value)?;
        found.push(form)?;
    }
    Ok(found)
}

// A key or a value of a map.
#[cycle(lower)]
fn element<
    S: Surroundings,
    F: Fn(Global, &S, &mut State, usize, &Parameters, &Body) -> Result<u32, LowerFault>,
>(
    alloc: Global,
    outside: &S,
    inner: &Inner<F>,
    state: &mut State,
    value: &Expr,
    wanted: &Asked,
) -> Result<Core, LowerFault>
    requires { NestsFunction S.around inner.now.limit (F.pre inner.now.function) (F.post inner.now.function) }
    ensures { Gives (core (S.around outside.now)) result (seen (S.around outside.now) state.new)
        (e.element (asked (S.around outside.now) wanted.now) (firsts.first_of_expr (view.expr value.now)) (low.expr (view.expr value.now)) (seen (S.around outside.now) state.old)) }
{
    let form = expr(alloc, outside, inner, state, value)?;
    let wanted = clone_asked(alloc, outside, wanted)?;
    let at = first_of_expr(value);
    checked(alloc, outside, state, SiteKind::Element, at, wanted, form)
}
