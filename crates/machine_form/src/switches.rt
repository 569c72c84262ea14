// Switches (ECMA-408, 17.9 Switch).
ghost use Rattle.std.specs.Prelude.{◌≡◌, ◌<◌, ◌+◌, Some, None, true, false, length, drop, position, unwrap_or, is_none, nat_eq, IfOk, MatchOption};
ghost use Rattle.core_program.specs.Core as form;
ghost use Rattle.core_program.specs.View as v;
ghost use Rattle.core_program.specs.declared.form.Case.{Case as CaseForm};
ghost use Rattle.core_program.specs.declared.form.Form.TheViews.{out-Case};
ghost use Rattle.evaluation.specs.State.{jumps, ends};
ghost use Rattle.evaluation.specs.Sequence.{on_answer};
ghost use Rattle.evaluation.specs.Parts.{form_of, has_no_forms};
ghost use Rattle.evaluation.specs.Values.{units_of, same_truth, both_texts, is_reference, is_same};
ghost use Rattle.evaluation.specs.Evaluation.{eval};
ghost use Rattle.evaluation.specs.Statements as s;
ghost use Rattle.machine_frame.specs.declared.run.Control.TheVariants.{Leave};
ghost use Rattle.machine_frame.specs.Outside.{setting_of, world_in};
ghost use Rattle.machine_frame.specs.Frames.{forms_of, branches_of, case_from, cases_run, case_falls, going, does, room, work, completed};

use core_program::form::{Case, Core, Form, Way};
use dart_ir::kind::ThrowKind;
use dart_ir::value::Value;
use dart_store::store::Store;
use dart_store::view::ObjectView;
use machine_frame::around::{Around, Fault};
use machine_frame::moves::{answer, wait};
use machine_frame::run::{Control, Exit, Frame, Run, Switching};
use machine_lookup::row::first_form;
use machine_loop::operators::at_once;
use machine_value::errors::throw_new;

/// A switch: its operand comes first.
pub fn enter_switch<'a>(
    run: &mut Run<'a>,
    a: Around<'a>,
    one: Switching<'a>,
    operand: &'a Core,
) -> Result<Control<'a>, Fault>
    ensures meaning { IfOk result (λ c. going a.entry run.new c ≡ does a.entry run.old (λ w st. on_answer (s.switch w.setting one.entry.at one.entry.target (branches_of w one.entry.cases.now)) (eval (v.core operand.now) w st))) }
    ensures less { IfOk result (λ c. work run.new c < room run.old + 6) }
{
    match at_once(run, a, operand, run.left) {
        None => wait(run, a, Frame::Switch(one), operand),
        Some((value, left)) => {
            run.left = left;
            choose_case(run, a, one, value)
        }
    }
}

/// The first case whose value is that of the operand, else the default, else no case.
pub fn choose_case<'a>(
    run: &mut Run<'a>,
    a: Around<'a>,
    one: Switching<'a>,
    value: Value,
) -> Result<Control<'a>, Fault>
    ensures meaning { IfOk result (λ c. going a.entry run.new c ≡ does a.entry run.old (λ w. s.switch w.setting one.entry.at one.entry.target (branches_of w one.entry.cases.now) value)) }
    ensures less { IfOk result (λ c. work run.new c < room run.old + 6) }
{
    let index = case_for(run, a, one.cases, value);
    from_case(run, a, one, index)
}

/// Where the case stands that a value leads to, or past the last case where there is none.
fn case_for<'a>(run: &Run<'a>, a: Around<'a>, cases: &[Case], value: Value) -> usize
    ensures { result ≡ s.case_for (setting_of a.entry) run.now.store value (branches_of (world_in a.entry run.now.depth) cases.now) }
{
    match case_with(run, a, cases, value) {
        None => default_case(cases),
        Some(index) => index,
    }
}

/// Where the first case stands whose value is this.
fn case_with<'a>(run: &Run<'a>, a: Around<'a>, cases: &[Case], value: Value) -> Option<usize>
    ensures { result ≡ position (λ (x : CaseForm). s.has_value (setting_of a.entry) run.now.store value (out-Case x).value) cases.now }
{
    cases
        .iter()
        .position(|case| has_value(a, &run.store, value, case.value))
}

/// Where the default stands, or past the last case where there is none.
fn default_case(cases: &[Case]) -> usize
    ensures { result ≡ unwrap_or (position (λ (x : CaseForm). is_none (out-Case x).value) cases.now) (length cases.now) }
{
    match default_at(cases) {
        None => cases.len(),
        Some(index) => index,
    }
}

/// Where the default stands.
fn default_at(cases: &[Case]) -> Option<usize>
    ensures { result ≡ position (λ (x : CaseForm). is_none (out-Case x).value) cases.now }
{
    cases.iter().position(|case| is_default(case.value))
}

/// Whether a case is the default, which has no value.
fn is_default(of: Option<Value>) -> bool
    ensures { result ≡ is_none of }
{
    match of {
        None => true,
        Some(_) => false,
    }
}

/// Whether the case of a value is one of this value. The default is of none.
fn has_value(a: Around, store: &Store, value: Value, of: Option<Value>) -> bool
    ensures { result ≡ s.has_value (setting_of a.entry) store.now value of }
{
    match of {
        None => false,
        Some(other) => is_same(a, store, value, other),
    }
}

/// Whether two values are identical (16.15.1 Object Identity).
fn is_same(a: Around, store: &Store, value: Value, other: Value) -> bool
    ensures { result ≡ is_same (setting_of a.entry) store.now value other }
{
    match (value, other) {
        (Value::Null, Value::Null) => true,
        (Value::Bool(x), Value::Bool(y)) => x == y,
        (
            Value::Int { high, low },
            Value::Int {
                high: other_high,
                low: other_low,
            },
        ) => high == other_high && low == other_low,
        (Value::Code(f), Value::Code(g)) => f.0 == g.0,
        _ => is_reference(value, other) || same_text(a, store, value, other),
    }
}

fn is_reference(value: Value, other: Value) -> bool
    ensures { result ≡ is_reference value other }
{
    match (value, other) {
        (Value::At(r), Value::At(q)) => r.0 == q.0,
        _ => false,
    }
}

/// Whether two values are strings of equal units.
fn same_text(a: Around, store: &Store, value: Value, other: Value) -> bool
    ensures { result ≡ both_texts (units_of (setting_of a.entry) store.now value) (units_of (setting_of a.entry) store.now other) }
{
    match (units_of(a, store, value), units_of(a, store, other)) {
        (Some(x), Some(y)) => *x == *y,
        _ => false,
    }
}

/// The units of a string.
fn units_of<'b>(a: Around<'b>, store: &'b Store, value: Value) -> Option<&'b [u16]>
    ensures { MatchOption result (units_of (setting_of a.entry) store.now value ≡ None) (λ units. units_of (setting_of a.entry) store.now value ≡ Some units.now) }
{
    match value {
        Value::Literal(number) => match a.program.core().literals.get(number as usize) {
            None => None,
            Some(text) => Some(text.as_slice()),
        },
        Value::At(r) => match store.get(r) {
            Some(ObjectView::Text(text)) => Some(text),
            _ => None,
        },
        _ => None,
    }
}

/// The case of the number, and what follows it.
fn from_case<'a>(
    run: &mut Run<'a>,
    a: Around<'a>,
    one: Switching<'a>,
    index: usize,
) -> Result<Control<'a>, Fault>
    ensures meaning { IfOk result (λ c. going a.entry run.new c ≡ does a.entry run.old (λ w. case_from w one.entry index)) }
    ensures less { IfOk result (λ c. work run.new c < room run.old + 6) }
{
    let rest = from_index(one.cases, index);
    enter_case(run, a, one, rest)
}

/// The cases from the number on; none past the last.
#[tactic(auto, using(crate::proofs::Switched::past_last))]
fn from_index<'a>(cases: &'a [Case], index: usize) -> &'a [Case]
    ensures { result.now ≡ drop index cases.now }
{
    if index >= cases.len() {
        return &[];
    }
    &cases[index..]
}

/// The first of these cases of a switch; where there is none the switch is done.
fn enter_case<'a>(
    run: &mut Run<'a>,
    a: Around<'a>,
    one: Switching<'a>,
    cases: &'a [Case],
) -> Result<Control<'a>, Fault>
    ensures meaning { IfOk result (λ c. going a.entry run.new c ≡ does a.entry run.old (λ w st. s.after_cases one.entry.target (case_from w one.entry) (cases_run w one.entry cases.now st))) }
    ensures less { IfOk result (λ c. work run.new c < room run.old + 6) }
{
    match cases.split_first() {
        None => Ok(answer(run, a, Value::Null)),
        Some((first, behind)) => {
            let is_empty = has_no_forms(&first.body);
            wait(run, a, Frame::Case(one, is_empty, behind), &first.body)
        }
    }
}

/// Whether the statements of a case are none.
#[tactic(auto, using(core_program::proofs::Views::views))]
fn has_no_forms(body: &Core) -> bool
    ensures { result ≡ has_no_forms (form_of (v.core body.now)) }
{
    is_empty_block(&body.form)
}

#[tactic(auto, using(core_program::proofs::Views::views))]
fn is_empty_block(form: &Form) -> bool
    ensures { result ≡ has_no_forms (v.form form.now) }
{
    match form {
        Form::Block(forms) => is_nothing(forms.as_slice()),
        Form::Leaf(_) => false,
        Form::TypeLiteral(_) => false,
        Form::Unary(_, _) => false,
        Form::Binary(_, _, _) => false,
        Form::Row(_, _) => false,
        Form::Let {
            var: _,
            value: _,
            body: _,
        } => false,
        Form::If {
            condition: _,
            first: _,
            second: _,
        } => false,
        Form::New {
            class: _,
            constructor: _,
            types: _,
            arguments: _,
        } => false,
        Form::List { types: _, items: _ } => false,
        Form::Is(_, _) => false,
        Form::As(_, _) => false,
        Form::Loop {
            target: _,
            copies: _,
            condition: _,
            update: _,
            body: _,
        } => false,
        Form::Return(_) => false,
        Form::Try(_) => false,
        Form::Switch {
            target: _,
            value: _,
            cases: _,
        } => false,
        Form::Labelled(_, _) => false,
    }
}

/// Whether there is no form.
fn is_nothing(forms: &[Core]) -> bool
    ensures { result ≡ has_no_forms (form.block (forms_of forms.now)) }
{
    match first_form(forms) {
        None => true,
        Some(_) => false,
    }
}

/// The statements of a case are left.
pub fn leave_case<'a>(
    run: &mut Run<'a>,
    a: Around<'a>,
    one: Switching<'a>,
    is_empty: bool,
    behind: &'a [Case],
    exit: Exit,
) -> Result<Control<'a>, Fault>
    ensures meaning { IfOk result (λ c. going a.entry run.new c ≡ does a.entry run.old (λ w st. s.after_cases one.entry.target (case_from w one.entry) (on_answer (λ _. case_falls w one.entry is_empty behind.now) (ends (completed exit run.old.answer) st)))) }
    ensures less { IfOk result (λ c. work run.new c < 1 + work run.old (Leave exit)) }
{
    match exit {
        Exit::Answered => next_case(run, a, one, is_empty, behind),
        Exit::Jumps(way, target) => jump_from_case(run, a, one, way, target),
        Exit::Returns => Ok(Control::Leave(Exit::Returns)),
        Exit::Throws(place) => Ok(Control::Leave(Exit::Throws(place))),
        Exit::Over(limit) => Ok(Control::Leave(Exit::Over(limit))),
    }
}

/// What follows a case that does not end in a jump: the next one where it has no statements, and the end behind the last.
fn next_case<'a>(
    run: &mut Run<'a>,
    a: Around<'a>,
    one: Switching<'a>,
    is_empty: bool,
    behind: &'a [Case],
) -> Result<Control<'a>, Fault>
    ensures meaning { IfOk result (λ c. going a.entry run.new c ≡ does a.entry run.old (λ w st. s.after_cases one.entry.target (case_from w one.entry) (case_falls w one.entry is_empty behind.now st))) }
    ensures less { IfOk result (λ c. work run.new c < room run.old + 6) }
{
    if behind.len() == 0 {
        return Ok(answer(run, a, Value::Null));
    }
    if is_empty {
        enter_case(run, a, one, behind)
    } else {
        throw_new(run, a, one.at, ThrowKind::FallThroughError)
    }
}

/// A break leaves the switch, and a continue goes on with one of its cases.
fn jump_from_case<'a>(
    run: &mut Run<'a>,
    a: Around<'a>,
    one: Switching<'a>,
    way: Way,
    target: u32,
) -> Result<Control<'a>, Fault>
    ensures meaning { IfOk result (λ c. going a.entry run.new c ≡ does a.entry run.old (λ w st. s.switch_jump (nat_eq target one.entry.target) way target (case_from w one.entry) st)) }
    ensures less { IfOk result (λ c. work run.new c < room run.old + 6) }
{
    if target != one.target {
        return Ok(Control::Leave(Exit::Jumps(way, target)));
    }
    match way {
        Way::Break => Ok(answer(run, a, Value::Null)),
        Way::Case(index) => from_case(run, a, one, index as usize),
        Way::Continue => Ok(Control::Leave(Exit::Jumps(Way::Continue, target))),
    }
}
