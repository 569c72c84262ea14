// Strings (ECMA-408, 16.5 Strings).
ghost use Rattle.std.specs.Prelude.{[]};
ghost use Rattle.dart_tree.specs.Lists.{pieces_of};
ghost use Rattle.translation.specs.Strings.{constant_units};
ghost use Rattle.lower_operand.specs.Made.{all_forms, joined};
ghost use Rattle.lower_expr.specs.Behind.{shown_value};
ghost use Rattle.lower_expr.specs.Made.{piece_joined, interpolated_behind};
ghost use Rattle.dart_tree.specs.View as view;
ghost use Rattle.translation.specs.Expressions as e;
ghost use Rattle.translation.specs.Firsts as firsts;
ghost use Rattle.translation.specs.Productions as low;
ghost use Rattle.lower_leaf.specs.Forms.{core};
ghost use Rattle.lower_leaf.specs.Gives.{Gives};
ghost use Rattle.lower_leaf.specs.Nests.{NestsFunction};
ghost use Rattle.lower_leaf.specs.Seen.{seen};

use crate::lower::expr;
use core_program::form::Core;
use dart_base::place::Place;
use dart_base::units::Units;
use dart_tree::expression::{Expr, StringPiece, Value};
use dart_tree::parameter::Parameters;
use dart_tree::statement::Body;
use lower_leaf::fault::LowerFault;
use lower_leaf::first::first_of_pieces;
use lower_leaf::inner::Inner;
use lower_leaf::state::State;
use lower_leaf::surroundings::Surroundings;
use lower_operand::literal::{
    Joined, append, join, join_parts, literal as literal_of, pending_literal, to_string,
};
use lower_operand::{constant_units, parts_of};
use std::alloc::Global;

/// A string (ECMA-408, 16.5 Strings).
#[cycle(lower)]
pub fn text<
    S: Surroundings,
    F: Fn(Global, &S, &mut State, usize, &Parameters, &Body) -> Result<u32, LowerFault>,
>(
    alloc: Global,
    outside: &S,
    inner: &Inner<F>,
    state: &mut State,
    all: &Vec<StringPiece>,
) -> Result<Core, LowerFault>
    requires { NestsFunction S.around inner.now.limit (F.pre inner.now.function) (F.post inner.now.function) }
    ensures { Gives (core (S.around outside.now)) result (seen (S.around outside.now) state.new)
        (e.string_form (firsts.first_of_pieces (pieces_of all.now.items)) (constant_units (pieces_of all.now.items))
        (low.pieces (firsts.first_of_pieces (pieces_of all.now.items)) (pieces_of all.now.items) []) (seen (S.around outside.now) state.old)) }
{
    let place = first_of_pieces(all);
    match constant_units(alloc, all)? {
        Some(units) => literal_of(outside, state, place, units),
        None => {
            let forms = pieces(alloc, outside, inner, state, all, place)?;
            Ok(join(alloc, outside, place, forms))
        }
    }
}

// The operands of a string (16.5.1 String Interpolation).
#[cycle(lower)]
fn pieces<
    S: Surroundings,
    F: Fn(Global, &S, &mut State, usize, &Parameters, &Body) -> Result<u32, LowerFault>,
>(
    alloc: Global,
    outside: &S,
    inner: &Inner<F>,
    state: &mut State,
    all: &Vec<StringPiece>,
    place: Place,
) -> Result<Vec<Core>, LowerFault>
    requires { NestsFunction S.around inner.now.limit (F.pre inner.now.function) (F.post inner.now.function) }
    ensures { Gives (all_forms (S.around outside.now)) result (seen (S.around outside.now) state.new)
        (low.pieces place (pieces_of all.now.items) [] (seen (S.around outside.now) state.old)) }
{
    let mut forms = Vec::new(alloc);
    let mut pending = Units::new(alloc);
    for one in all {
        let more = piece(alloc, outside, inner, state, one, place, pending)?;
        append(&mut forms, more.forms)?;
        pending = more.pending;
    }
    let last = pending_literal(alloc, outside, state, place, pending)?;
    append(&mut forms, last)?;
    Ok(forms)
}

// The operands that a piece of a string adds, behind constant text.
#[cycle(lower)]
fn piece<
    S: Surroundings,
    F: Fn(Global, &S, &mut State, usize, &Parameters, &Body) -> Result<u32, LowerFault>,
>(
    alloc: Global,
    outside: &S,
    inner: &Inner<F>,
    state: &mut State,
    one: &StringPiece,
    place: Place,
    pending: Units,
) -> Result<Joined, LowerFault>
    requires { NestsFunction S.around inner.now.limit (F.pre inner.now.function) (F.post inner.now.function) }
    ensures { Gives (joined (S.around outside.now)) result (seen (S.around outside.now) state.new)
        (piece_joined place one.now.kind one.now.place one.now.text (view.value one.now.value) pending (seen (S.around outside.now) state.old)) }
{
    let parts = parts_of(alloc, one.kind, one.text.as_slice())?;
    let before = join_parts(alloc, outside, state, place, one.place, &parts, pending)?;
    interpolated(alloc, outside, inner, state, &one.value, place, before)
}

// The operands with an interpolated expression behind them, and the constant text before it.
#[cycle(lower)]
fn interpolated<
    S: Surroundings,
    F: Fn(Global, &S, &mut State, usize, &Parameters, &Body) -> Result<u32, LowerFault>,
>(
    alloc: Global,
    outside: &S,
    inner: &Inner<F>,
    state: &mut State,
    value: &Value,
    place: Place,
    before: Joined,
) -> Result<Joined, LowerFault>
    requires { NestsFunction S.around inner.now.limit (F.pre inner.now.function) (F.post inner.now.function) }
    ensures { Gives (joined (S.around outside.now)) result (seen (S.around outside.now) state.new)
        (interpolated_behind place (view.value value.now) (joined (S.around outside.now) before) (seen (S.around outside.now) state.old)) }
{
    match value {
        Value::Omitted => Ok(before),
        Value::Given(_, given) => {
            let more = shown(alloc, outside, inner, state, given, place, before.pending)?;
            let mut forms = before.forms;
            append(&mut forms, more)?;
            Ok(Joined {
                forms,
                pending: Units::new(alloc),
            })
        }
    }
}

// The operands of an interpolated expression, behind constant text.
#[cycle(lower)]
fn shown<
    S: Surroundings,
    F: Fn(Global, &S, &mut State, usize, &Parameters, &Body) -> Result<u32, LowerFault>,
>(
    alloc: Global,
    outside: &S,
    inner: &Inner<F>,
    state: &mut State,
    value: &Expr,
    place: Place,
    pending: Units,
) -> Result<Vec<Core>, LowerFault>
    requires { NestsFunction S.around inner.now.limit (F.pre inner.now.function) (F.post inner.now.function) }
    ensures { Gives (all_forms (S.around outside.now)) result (seen (S.around outside.now) state.new)
        (shown_value place (low.expr (view.expr value.now)) pending (seen (S.around outside.now) state.old)) }
{
    let mut forms = pending_literal(alloc, outside, state, place, pending)?;
    let form = expr(alloc, outside, inner, state, value)?;
    forms.push(to_string(alloc, outside, place, form)?)?;
    Ok(forms)
}
