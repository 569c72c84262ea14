// Switch statements (ECMA-408, 17.9 Switch).
#![tactic(auto, using(crate::proofs::Rest::steps), unfolding(translation::specs::Walk::on, translation::specs::Walk::leaving))]

ghost use Rattle.dart_tree.specs.Lists.{switch_parts_of};
ghost use Rattle.lower_clause.specs.Parts.{all_cases, case_kind, switch_core};
ghost use Rattle.lower_clause.specs.Jumps.{all_forms};
ghost use Rattle.lower_function.specs.Literals.{value};
ghost use Rattle.lower_leaf.specs.Gives.{Gives};
ghost use Rattle.lower_leaf.specs.Nests.{NestsFunction};
ghost use Rattle.lower_leaf.specs.Seen.{seen};
ghost use Rattle.dart_tree.specs.View as view;
ghost use Rattle.translation.specs.Firsts as firsts;
ghost use Rattle.translation.specs.Productions as low;
ghost use Rattle.translation.specs.Statements as s;

use crate::statement::statements;
use core_program::form::{Case, Core};
use dart_base::bytes::Bytes;
use dart_base::place::Place;
use dart_ir::kind::SiteKind;
use dart_tree::expression::Expr;
use dart_tree::parameter::Parameters;
use dart_tree::statement::{Body, SwitchPart};
use lower_clause::case::{
    CaseKind, asked_of_cases, case_of, case_value, kind_of_cases, labels_of_cases, switch_core,
};
use lower_clause::jump::{enter_target, leave_target, target_number};
use lower_clause::part::alone;
use lower_expr::lower::expr;
use lower_leaf::fault::LowerFault;
use lower_leaf::first::first_of_expr;
use lower_leaf::inner::Inner;
use lower_leaf::site::checked;
use lower_leaf::state::{State, TargetKind, depth, leave_scope};
use lower_leaf::surroundings::Surroundings;
use std::alloc::Global;

/// A switch behind labels.
#[cycle(statements)]
pub fn switch<
    S: Surroundings,
    F: Fn(Global, &S, &mut State, usize, &Parameters, &Body) -> Result<u32, LowerFault>,
>(
    alloc: Global,
    outside: &S,
    inner: &Inner<F>,
    state: &mut State,
    parts: &Vec<SwitchPart>,
    value: &Expr,
    place: Place,
    labels: Vec<Bytes>,
) -> Result<Vec<Core>, LowerFault>
    requires { NestsFunction S.around inner.now.limit (F.pre inner.now.function) (F.post inner.now.function) }
    ensures { Gives (all_forms (S.around outside.now)) result (seen (S.around outside.now) state.new)
        (s.switch_form labels.items place (firsts.first_of_expr (view.expr value.now)) (switch_parts_of parts.now.items) (low.expr (view.expr value.now)) (low.cases place (s.kind_of_cases (switch_parts_of parts.now.items)) (switch_parts_of parts.now.items)) (seen (S.around outside.now) state.old)) }
{
    let number = target_number(outside, state)?;
    let at = first_of_expr(value);
    let kind = kind_of_cases(alloc, parts)?;
    let form = expr(alloc, outside, inner, state, value)?;
    let wanted = asked_of_cases(alloc, outside, state, kind);
    let form = checked(
        alloc,
        outside,
        state,
        SiteKind::SwitchClass,
        at,
        wanted,
        form,
    )?;
    let cases_labels = labels_of_cases(alloc, parts)?;
    let around = enter_target(outside, state, labels, TargetKind::Switch(cases_labels))?;
    let all = cases(alloc, outside, inner, state, parts, place, kind)?;
    leave_target(outside, state, around);
    let made = switch_core(alloc, outside, place, number, form, all)?;
    Ok(alone(alloc, outside, made)?)
}

// The cases of a switch.
#[cycle(statements)]
fn cases<
    S: Surroundings,
    F: Fn(Global, &S, &mut State, usize, &Parameters, &Body) -> Result<u32, LowerFault>,
>(
    alloc: Global,
    outside: &S,
    inner: &Inner<F>,
    state: &mut State,
    parts: &Vec<SwitchPart>,
    place: Place,
    kind: CaseKind,
) -> Result<Vec<Case>, LowerFault>
    requires { NestsFunction S.around inner.now.limit (F.pre inner.now.function) (F.post inner.now.function) }
    ensures { Gives (all_cases (S.around outside.now)) result (seen (S.around outside.now) state.new)
        (low.cases place (case_kind kind) (switch_parts_of parts.now.items) (seen (S.around outside.now) state.old)) }
{
    let mut found = Vec::new(alloc);
    for one in parts {
        let value = case_value(alloc, outside, state, kind, &one.value)?;
        let before = depth(outside, state);
        let forms = statements(alloc, outside, inner, state, &one.statements)?;
        leave_scope(outside, state, before);
        found.push(case_of(outside, place, value, forms))?;
    }
    Ok(found)
}
