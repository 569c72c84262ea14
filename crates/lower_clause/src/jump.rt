// Labels and jumps (ECMA-408, 17.13 Labels to 17.15 Continue and 17.10 Rethrow).
#![tactic(auto, using(crate::proofs::Rest::steps), unfolding(translation::specs::Walk::on))]

ghost use Rattle.lower_clause.specs.Jumps.{labels_before, landing_option, case_labels, left_targets, with_target, joined, first_place, all_forms, option_core};
ghost use Rattle.lower_leaf.specs.Forms.{cores, leaf};
ghost use Rattle.lower_leaf.specs.Gives.{Gives};
ghost use Rattle.lower_leaf.specs.Seen.{seen, target, target_kind};
ghost use Rattle.std.specs.Prelude.{◌≡◌, ◌∷◌, [], length, map, None, Some, IfOk, OnOk};
ghost use Rattle.core_program.specs.Core as c;
ghost use Rattle.translation.specs.Statements as s;

use core_program::form::{Core, Leaf, Way};
use dart_base::bytes::Bytes;
use dart_base::place::Place;
use dart_tree::identifier::{Identifier, Label};
use dart_tree::statement::Jump;
use lower_leaf::fault::{LowerFault, Want};
use lower_leaf::form::{block, labelled, leaf, place_of_core};
use lower_leaf::name::text_of;
use lower_leaf::state::{State, Target, TargetKind};
use lower_leaf::surroundings::Surroundings;
use std::alloc::Global;

/// The labels of a statement, the innermost first, with those that stand around them.
pub fn add_labels(alloc: Global, all: &Vec<Label>, around: Vec<Bytes>) -> Result<Vec<Bytes>, Want>
    ensures { IfOk result (λ made. made.items ≡ labels_before all.now.items around.items) }
{
    let mut made = around;
    for one in all {
        made.insert(0, Bytes::from_slice(alloc, text_of(&one.name))?)?;
    }
    Ok(made)
}

/// The labels of a case.
pub fn labels_of(alloc: Global, all: &Vec<Label>) -> Result<Vec<Bytes>, Want>
    ensures { IfOk result (λ made. made.items ≡ map s.label_text all.now.items) }
{
    let mut made = Vec::new(alloc);
    for one in all {
        made.push(Bytes::from_slice(alloc, text_of(&one.name))?)?;
    }
    Ok(made)
}

/// The number of the next target: how many stand around it.
pub fn target_number<S: Surroundings>(outside: &S, state: &State) -> Result<u32, Want>
    ensures { IfOk result (λ n. n ≡ length (seen (S.around outside.now) state.now).targets) }
{
    match u32::try_from(state.targets.len()) {
        Ok(number) => Ok(number),
        Err(_) => Err(Want),
    }
}

/// A statement that can be left begins. The answer is how many stand around it.
pub fn enter_target<S: Surroundings>(
    outside: &S,
    state: &mut State,
    labels: Vec<Bytes>,
    kind: TargetKind,
) -> Result<usize, Want>
    ensures depth { IfOk result (λ depth. depth ≡ length (seen (S.around outside.now) state.old).targets) }
    ensures target { OnOk result (seen (S.around outside.now) state.new
        ≡ with_target (record { labels = labels.items; kind = target_kind kind }) (seen (S.around outside.now) state.old)) }
{
    let depth = state.targets.len();
    state.targets.push(Target { labels, kind })?;
    Ok(depth)
}

/// It ends.
pub fn leave_target<S: Surroundings>(outside: &S, state: &mut State, depth: usize)
    ensures { seen (S.around outside.now) state.new ≡ left_targets depth (seen (S.around outside.now) state.old) }
{
    state.targets.truncate(depth);
}

/// What labels stand before, where that is neither a loop nor a switch.
#[tactic(auto, using(crate::proofs::Joined::joining))]
pub fn labelled_forms<S: Surroundings>(
    alloc: Global,
    outside: &S,
    number: u32,
    forms: Vec<Core>,
) -> Result<Vec<Core>, Want>
    ensures { IfOk result (λ made. all_forms (S.around outside.now) made
        ≡ s.labelled_forms number (all_forms (S.around outside.now) forms)) }
{
    match joined(alloc, outside, forms)? {
        None => Ok(Vec::new(alloc)),
        Some(form) => {
            let place = place_of_core(outside, &form);
            let form = labelled(outside, alloc, place, number, form)?;
            let mut made = Vec::new(alloc);
            made.push(form)?;
            Ok(made)
        }
    }
}

/// Several forms are a Block at the place of the first.
#[tactic(auto, using(crate::proofs::Joined::joining, crate::proofs::Rest::steps))]
pub fn joined<S: Surroundings>(
    alloc: Global,
    outside: &S,
    forms: Vec<Core>,
) -> Result<Option<Core>, Want>
    ensures { IfOk result (λ made. option_core (S.around outside.now) made
        ≡ joined (all_forms (S.around outside.now) forms)) }
{
    let mut all = forms;
    let Some(last) = all.pop() else {
        return Ok(None);
    };
    match first_place(outside, &all) {
        None => Ok(Some(last)),
        Some(place) => {
            all.push(last)?;
            Ok(Some(block(outside, place, all)))
        }
    }
}

// The place of the first form.
fn first_place<S: Surroundings>(outside: &S, forms: &Vec<Core>) -> Option<Place>
    ensures { result ≡ first_place (cores (S.around outside.now) forms.now.items) }
{
    for one in forms {
        return Some(place_of_core(outside, one));
    }
    None
}

fn has_label(name: &[u8], labels: &Vec<Bytes>) -> bool
    ensures { result ≡ s.has_label name.now labels.now.items }
{
    for one in labels {
        if name == one.as_slice() {
            return true;
        }
    }
    false
}

// Whether a `break` leaves the statement.
fn may_break(name: &Option<Identifier>, of: &Target) -> bool
    ensures { result ≡ s.may_break (s.option_text name.now) (target of.now) }
{
    match name {
        Some(name) => has_label(text_of(name), &of.labels),
        None => match &of.kind {
            TargetKind::Loop => true,
            TargetKind::Switch(_) => true,
            TargetKind::Another => false,
        },
    }
}

// The first case with the label.
fn case_of(name: &[u8], all: &Vec<Vec<Bytes>>) -> Result<Option<u32>, Want>
    ensures { IfOk result (λ found. found ≡ s.case_from 0 name.now (case_labels all.now)) }
{
    let mut n: u32 = 0;
    for labels in all {
        if has_label(name, labels) {
            return Ok(Some(n));
        }
        let Some(next) = n.checked_add(1) else {
            return Err(Want);
        };
        n = next;
    }
    Ok(None)
}

// How a `continue` without a label goes on with the statement, if it does.
fn continues_plainly(of: &Target) -> Option<Way>
    ensures { result ≡ s.continues None (target of.now) (target of.now).kind }
{
    match &of.kind {
        TargetKind::Loop => Some(Way::Continue),
        TargetKind::Switch(_) => None,
        TargetKind::Another => None,
    }
}

// How a `continue` with a label goes on with the statement, if it does.
fn continues_at(name: &[u8], of: &Target) -> Result<Option<Way>, Want>
    ensures { IfOk result (λ way. way ≡ s.continues (Some name.now) (target of.now) (target of.now).kind) }
{
    match &of.kind {
        TargetKind::Another => Ok(None),
        TargetKind::Loop => {
            if has_label(name, &of.labels) {
                Ok(Some(Way::Continue))
            } else {
                Ok(None)
            }
        }
        TargetKind::Switch(cases) => match case_of(name, cases)? {
            None => Ok(None),
            Some(n) => Ok(Some(Way::Case(n))),
        },
    }
}

// How a `continue` goes on with the statement, if it does.
fn continues(name: &Option<Identifier>, of: &Target) -> Result<Option<Way>, Want>
    ensures { IfOk result (λ way. way ≡ s.continues (s.option_text name.now) (target of.now) (target of.now).kind) }
{
    match name {
        None => Ok(continues_plainly(of)),
        Some(name) => continues_at(text_of(name), of),
    }
}

/// A jump to a target by its number.
#[derive(Clone, Copy, Debug, PartialEq, Eq)]
pub struct Landing {
    pub way: Way,
    pub target: u32,
}

// The jump, if it may take the statement of the number, else one further out.
fn landed(n: u32, way: Option<Way>, further: Option<Landing>) -> Option<Landing>
    ensures { landing_option result ≡ s.landing n way (landing_option further) }
{
    match way {
        None => further,
        Some(way) => Some(Landing { way, target: n }),
    }
}

fn break_way(leaves: bool) -> Option<Way>
    ensures { result ≡ s.break_way leaves }
{
    if leaves { Some(Way::Break) } else { None }
}

// The innermost statement that a `break` leaves.
fn break_to(name: &Option<Identifier>, targets: &Vec<Target>) -> Result<Option<Landing>, Want>
    ensures { IfOk result (λ found. landing_option found
        ≡ s.break_from 0 (s.option_text name.now) (map target targets.now.items) None) }
{
    let mut best = None;
    let mut n: u32 = 0;
    for one in targets {
        best = landed(n, break_way(may_break(name, one)), best);
        let Some(next) = n.checked_add(1) else {
            return Err(Want);
        };
        n = next;
    }
    Ok(best)
}

// The innermost statement that a `continue` goes on with.
fn continue_to(name: &Option<Identifier>, targets: &Vec<Target>) -> Result<Option<Landing>, Want>
    ensures { IfOk result (λ found. landing_option found
        ≡ s.continue_from 0 (s.option_text name.now) (map target targets.now.items) None) }
{
    let mut best = None;
    let mut n: u32 = 0;
    for one in targets {
        best = landed(n, continues(name, one)?, best);
        let Some(next) = n.checked_add(1) else {
            return Err(Want);
        };
        n = next;
    }
    Ok(best)
}

fn jump_to<S: Surroundings>(
    alloc: Global,
    outside: &S,
    state: &State,
    place: Place,
    to: Option<Landing>,
) -> Result<Vec<Core>, LowerFault>
    ensures { Gives (all_forms (S.around outside.now)) result (seen (S.around outside.now) state.now)
        (s.jump_to place (landing_option to) (seen (S.around outside.now) state.now)) }
{
    match to {
        None => Err(LowerFault::BadLabel(place)),
        Some(to) => Ok(one_leaf(alloc, outside, place, Leaf::Jump(to.way, to.target))?),
    }
}

fn one_leaf<S: Surroundings>(
    alloc: Global,
    outside: &S,
    place: Place,
    of: Leaf,
) -> Result<Vec<Core>, Want>
    ensures { IfOk result (λ made. all_forms (S.around outside.now) made
        ≡ c.at place (c.leaf (leaf (S.around outside.now) of)) ∷ []) }
{
    let mut made = Vec::new(alloc);
    made.push(leaf(outside, place, of))?;
    Ok(made)
}

/// A `break`, `continue` or `rethrow`.
pub fn jumping<S: Surroundings>(
    alloc: Global,
    outside: &S,
    state: &State,
    tree: &Jump,
) -> Result<Vec<Core>, LowerFault>
    ensures { Gives (all_forms (S.around outside.now)) result (seen (S.around outside.now) state.now)
        (s.jumping tree.now (seen (S.around outside.now) state.now)) }
{
    match tree {
        Jump::Break {
            word,
            label,
            semicolon: _,
        } => {
            let to = break_to(label, &state.targets)?;
            jump_to(alloc, outside, state, *word, to)
        }
        Jump::Continue {
            word,
            label,
            semicolon: _,
        } => {
            let to = continue_to(label, &state.targets)?;
            jump_to(alloc, outside, state, *word, to)
        }
        Jump::Rethrow(word, _) => {
            if !state.inside.in_handler {
                return Err(LowerFault::BadWord(*word));
            }
            Ok(one_leaf(alloc, outside, *word, Leaf::Rethrow)?)
        }
    }
}
