// Forms that are entered.
ghost use Rattle.std.specs.Prelude.{◌≡◌, ◌≢◌, ◌<◌, ◌+◌, ◌-◌, ◌∷◌, [], Some, None, true, false, map, length, IfOk};
ghost use Rattle.dart_ir.specs.Classes.{IsValid};
ghost use Rattle.dart_ir.specs.declared.value.Value.TheVariants.{Null};
ghost use Rattle.dart_ir.specs.Ty.{ty};
ghost use Rattle.core_program.specs.Core as form;
ghost use Rattle.core_program.specs.View as v;
ghost use Rattle.core_program.specs.declared.form.Form.TheViews.{out-Attempt, out-Core};
ghost use Rattle.evaluation.specs.State.{State, Outcome, Completion, answer, returns, ends};
ghost use Rattle.evaluation.specs.Sequence.{on_answer, on_answers, in_order, branch};
ghost use Rattle.evaluation.specs.Parts.{takes_step};
ghost use Rattle.evaluation.specs.Types.{is_type, as_type};
ghost use Rattle.evaluation.specs.Evaluation.{eval, evals, act, part, leaf, clauses};
ghost use Rattle.evaluation.specs.Variables as x;
ghost use Rattle.evaluation.specs.Statements as s;
ghost use Rattle.machine_frame.specs.Outside.{setting_of, world_in};
ghost use Rattle.machine_frame.specs.Labels.{within, labels};
ghost use Rattle.machine_frame.specs.Frames.{seen, going, does, room, work, loop_of};

use crate::operations::{enter_binary, enter_unary};
use crate::rows::begin_row;
use crate::switches::enter_switch;
use core_program::form::{Attempt, Core, Form, Leaf, Part};
use dart_base::place::Place;
use dart_ir::types::TypeRef;
use dart_ir::value::Value;
use machine_frame::around::{Around, Fault};
use machine_frame::moves::{answer, wait};
use machine_frame::objects::field_of;
use machine_frame::run::{Control, Exit, Frame, Limit, Run, Switching, Turn};
use machine_frame::stacks::push_frame;
use machine_frame::variables::read_variable;
use machine_lookup::program::takes_step;
use machine_loop::entries::{bind_let, choose};
use machine_loop::loops::{begin_turn, take_turn};
use machine_loop::operators::at_once;
use machine_loop::statements::go_on;
use machine_value::errors::throw_named;
use machine_value::objects::make_closure;
use machine_value::statics::static_read;
use machine_value::verdicts::type_object;

/// Enters a form, where a step is left for it.
#[tactic(auto, using(machine_frame::proofs::Steps::form_enters, machine_frame::proofs::Steps::form_enters_not, machine_frame::proofs::Steps::form_free, core_program::proofs::Views::views))]
#[inline(always)]
pub fn enter<'a>(run: &mut Run<'a>, a: Around<'a>, core: &'a Core) -> Result<Control<'a>, Fault>
    requires valid { IsValid a.program.now.classes }
    ensures meaning { IfOk result (λ c. going a.entry run.new c ≡ does a.entry run.old (eval (v.core core.now))) }
    ensures less { IfOk result (λ c. work run.new c < room run.old + 2) }
{
    if !takes_step(&core.form) {
        return enter_free(run, a, core);
    }
    if run.left == 0 {
        return Ok(Control::Leave(Exit::Over(Limit::OutOfSteps)));
    }
    run.left -= 1;
    let control = go_into(run, a, core)?;
    Ok(control)
}

/// Enters a form that takes no step itself.
#[tactic(auto, using(core_program::proofs::Views::views))]
#[inline(always)]
fn enter_free<'a>(run: &mut Run<'a>, a: Around<'a>, core: &'a Core) -> Result<Control<'a>, Fault>
    requires valid { IsValid a.program.now.classes }
    ensures meaning { IfOk result (λ c. going a.entry run.new c ≡ does a.entry run.old (eval (v.core core.now))) }
    ensures less { IfOk result (λ c. work run.new c < room run.old + 2) }
{
    match &core.form {
        Form::Loop {
            target,
            copies,
            condition,
            update,
            body,
        } => {
            let turn = Turn {
                target: *target,
                copies: copies.as_slice(),
                condition,
                update,
                body,
            };
            begin_turn(run, a, turn)
        }
        _ => enter_labels(run, a, core),
    }
}

/// A statement with labels: the one within is entered, where a step is left for it.
#[tactic(auto, using(machine_frame::proofs::Resume::resume_push, machine_frame::proofs::Steps::load_push, machine_frame::proofs::Labels::labels_eval, machine_frame::proofs::Labels::labels_end, machine_frame::proofs::Labels::none_left))]
fn enter_labels<'a>(run: &mut Run<'a>, a: Around<'a>, core: &'a Core) -> Result<Control<'a>, Fault>
    requires valid { IsValid a.program.now.classes }
    ensures meaning { IfOk result (λ c. going a.entry run.new c ≡ does a.entry run.old (eval (v.core core.now))) }
    ensures less { IfOk result (λ c. work run.new c < room run.old + 2) }
{
    if run.left == 0 {
        return Ok(Control::Leave(Exit::Over(Limit::OutOfSteps)));
    }
    push_frame(run, Frame::Labelled(core))?;
    let control = enter_within(run, a, within(core))?;
    Ok(control)
}

/// The statement within labels.
#[tactic(auto, using(core_program::proofs::Views::views, machine_frame::proofs::Labels::within_bare))]
fn within<'a>(core: &'a Core) -> &'a Core
    ensures within { v.core result.now ≡ within (v.core core.now) }
    ensures bare { labels (v.core result.now) ≡ [] }
{
    match &core.form {
        Form::Labelled(_, body) => within(body),
        Form::Leaf(_) => core,
        Form::TypeLiteral(_) => core,
        Form::Unary(_, _) => core,
        Form::Binary(_, _, _) => core,
        Form::Row(_, _) => core,
        Form::Let {
            var: _,
            value: _,
            body: _,
        } => core,
        Form::Block(_) => core,
        Form::If {
            condition: _,
            first: _,
            second: _,
        } => core,
        Form::New {
            class: _,
            constructor: _,
            types: _,
            arguments: _,
        } => core,
        Form::List { types: _, items: _ } => core,
        Form::Is(_, _) => core,
        Form::As(_, _) => core,
        Form::Loop {
            target: _,
            copies: _,
            condition: _,
            update: _,
            body: _,
        } => core,
        Form::Return(_) => core,
        Form::Try(_) => core,
        Form::Switch {
            target: _,
            value: _,
            cases: _,
        } => core,
    }
}

/// Enters a statement within labels.
#[tactic(auto, using(machine_frame::proofs::Steps::form_enters, machine_frame::proofs::Steps::form_free, core_program::proofs::Views::views))]
fn enter_within<'a>(run: &mut Run<'a>, a: Around<'a>, core: &'a Core) -> Result<Control<'a>, Fault>
    requires valid { IsValid a.program.now.classes }
    requires steps { run.old.left ≢ 0 }
    requires bare { labels (v.core core.now) ≡ [] }
    ensures meaning { IfOk result (λ c. going a.entry run.new c ≡ does a.entry run.old (eval (v.core core.now))) }
    ensures less { IfOk result (λ c. work run.new c < room run.old) }
{
    if takes_step(&core.form) {
        run.left -= 1;
        let control = go_into(run, a, core)?;
        return Ok(control);
    }
    take_turn(run, a, bare_loop(core))
}

/// The loop that a statement is which takes no step of its own and has no labels.
#[tactic(auto, using(core_program::proofs::Views::views))]
fn bare_loop<'a>(core: &'a Core) -> Turn<'a>
    requires free { takes_step (v.form (out-Core core.now).form) ≡ false }
    requires bare { labels (v.core core.now) ≡ [] }
    ensures { v.core core.now ≡ form.at (out-Core core.now).place (form.loop result.target result.copies.now (v.part result.condition.now) (v.part result.update.now) (v.part result.body.now)) }
{
    match &core.form {
        Form::Loop {
            target,
            copies,
            condition,
            update,
            body,
        } => Turn {
            target: *target,
            copies: copies.as_slice(),
            condition,
            update,
            body,
        },
        Form::Leaf(_) => unreachable!(),
        Form::TypeLiteral(_) => unreachable!(),
        Form::Unary(_, _) => unreachable!(),
        Form::Binary(_, _, _) => unreachable!(),
        Form::Row(_, _) => unreachable!(),
        Form::Let {
            var: _,
            value: _,
            body: _,
        } => unreachable!(),
        Form::Block(_) => unreachable!(),
        Form::If {
            condition: _,
            first: _,
            second: _,
        } => unreachable!(),
        Form::New {
            class: _,
            constructor: _,
            types: _,
            arguments: _,
        } => unreachable!(),
        Form::List { types: _, items: _ } => unreachable!(),
        Form::Is(_, _) => unreachable!(),
        Form::As(_, _) => unreachable!(),
        Form::Return(_) => unreachable!(),
        Form::Try(_) => unreachable!(),
        Form::Switch {
            target: _,
            value: _,
            cases: _,
        } => unreachable!(),
        Form::Labelled(_, _) => unreachable!(),
    }
}

/// Begins the work of a form whose step is taken. The forms that come seldom have a function of their own, so that their parts take no
/// room here.
#[tactic(auto, using(core_program::proofs::Views::views))]
#[inline(always)]
fn go_into<'a>(run: &mut Run<'a>, a: Around<'a>, core: &'a Core) -> Result<Control<'a>, Fault>
    requires valid { IsValid a.program.now.classes }
    requires steps { takes_step (v.form (out-Core core.now).form) ≡ true }
    ensures meaning { IfOk result (λ c. going a.entry run.new c ≡ does a.entry run.old (act (v.form (out-Core core.now).form) (out-Core core.now).place)) }
    ensures less { IfOk result (λ c. work run.new c < room run.old + 10) }
{
    let at = core.place;
    match &core.form {
        Form::Leaf(leaf) => enter_leaf(run, a, at, *leaf),
        Form::Unary(one, operand) => enter_unary(run, a, at, *one, operand),
        Form::Binary(one, first, second) => enter_binary(run, a, at, *one, first, second),
        Form::Row(_, arguments) => begin_row(run, a, core, arguments.forms.as_slice()),
        Form::Block(forms) => go_on(run, a, forms.as_slice(), Value::Null),
        Form::If {
            condition,
            first,
            second,
        } => enter_if(run, a, condition, first, second),
        Form::Return(value) => return_of(run, a, value),
        _ => go_into_any(run, a, core),
    }
}

/// Begins the work of any form whose step is taken.
#[tactic(auto, using(core_program::proofs::Views::views))]
fn go_into_any<'a>(run: &mut Run<'a>, a: Around<'a>, core: &'a Core) -> Result<Control<'a>, Fault>
    requires valid { IsValid a.program.now.classes }
    requires steps { takes_step (v.form (out-Core core.now).form) ≡ true }
    ensures meaning { IfOk result (λ c. going a.entry run.new c ≡ does a.entry run.old (act (v.form (out-Core core.now).form) (out-Core core.now).place)) }
    ensures less { IfOk result (λ c. work run.new c < room run.old + 10) }
{
    let at = core.place;
    match &core.form {
        Form::Leaf(leaf) => enter_leaf(run, a, at, *leaf),
        Form::Unary(one, operand) => enter_unary(run, a, at, *one, operand),
        Form::Binary(one, first, second) => enter_binary(run, a, at, *one, first, second),
        Form::Row(_, arguments) => begin_row(run, a, core, arguments.forms.as_slice()),
        Form::Let { var, value, body } => enter_let(run, a, *var, value, body),
        Form::Block(forms) => go_on(run, a, forms.as_slice(), Value::Null),
        Form::If {
            condition,
            first,
            second,
        } => enter_if(run, a, condition, first, second),
        Form::New {
            class: _,
            constructor: _,
            types: _,
            arguments,
        } => begin_row(run, a, core, arguments.forms.as_slice()),
        Form::List { types: _, items } => begin_row(run, a, core, items.as_slice()),
        Form::Return(value) => return_of(run, a, value),
        Form::Try(attempt) => enter_try(run, a, attempt),
        Form::TypeLiteral(of) => type_object(run, a, of),
        Form::Is(operand, of) => enter_is(run, a, operand, of),
        Form::As(operand, of) => enter_as(run, a, at, operand, of),
        Form::Switch {
            target,
            value,
            cases,
        } => {
            let one = Switching {
                at,
                target: *target,
                cases: cases.as_slice(),
            };
            enter_switch(run, a, one, value)
        }
        Form::Loop {
            target: _,
            copies: _,
            condition: _,
            update: _,
            body: _,
        } => unreachable!(),
        Form::Labelled(_, _) => unreachable!(),
    }
}

/// A form without parts.
#[inline(always)]
fn enter_leaf<'a>(
    run: &mut Run<'a>,
    a: Around<'a>,
    at: Place,
    one: Leaf,
) -> Result<Control<'a>, Fault>
    ensures meaning { IfOk result (λ c. going a.entry run.new c ≡ does a.entry run.old (λ w. leaf w at (v.leaf one))) }
    ensures less { IfOk result (λ c. work run.new c < room run.old + 10) }
{
    match one {
        Leaf::Const(value) => Ok(answer(run, a, value)),
        Leaf::This => Ok(answer(run, a, run.body.this)),
        Leaf::Read(var) => read_of(run, a, var),
        Leaf::StaticRead(d) => static_read(run, a, at, d.0),
        Leaf::Field(index) => {
            let value = field_of(&run.store, run.body.this, index);
            Ok(answer(run, a, value))
        }
        Leaf::Closure(f) => make_closure(run, a, f.0),
        Leaf::Jump(way, target) => Ok(Control::Leave(Exit::Jumps(way, target))),
        Leaf::Rethrow => rethrow(run, a),
        Leaf::Raise {
            error,
            name,
            is_setter,
        } => throw_named(run, a, at, error, name.0, is_setter),
    }
}

/// A variable is read.
fn read_of<'a>(run: &mut Run<'a>, a: Around<'a>, var: u32) -> Result<Control<'a>, Fault>
    ensures meaning { IfOk result (λ c. going a.entry run.new c ≡ does a.entry run.old (λ w. x.read w.setting var)) }
    ensures less { IfOk result (λ c. work run.new c < room run.old + 6) }
{
    match read_variable(run, a, var) {
        None => Err(Fault::Memory),
        Some(value) => Ok(answer(run, a, value)),
    }
}

/// What the handler around has caught is thrown again.
fn rethrow<'a>(run: &mut Run<'a>, a: Around<'a>) -> Result<Control<'a>, Fault>
    ensures meaning { IfOk result (λ c. going a.entry run.new c ≡ does a.entry run.old (λ w. s.rethrow)) }
    ensures less { IfOk result (λ c. work run.new c < room run.old + 6) }
{
    match run.body.caught {
        None => {
            run.answer = Value::Null;
            Ok(Control::Leave(Exit::Answered))
        }
        Some(caught) => {
            run.answer = caught.value;
            Ok(Control::Leave(Exit::Throws(caught.place)))
        }
    }
}

/// A variable for a value, and then the body in which it stands.
fn enter_let<'a>(
    run: &mut Run<'a>,
    a: Around<'a>,
    var: u32,
    value: &'a Core,
    body: &'a Core,
) -> Result<Control<'a>, Fault>
    ensures meaning { IfOk result (λ c. going a.entry run.new c ≡ does a.entry run.old (λ w st. on_answer (λ _. eval (v.core body.now) w) (on_answer (x.declare w.setting var) (eval (v.core value.now) w st)))) }
    ensures less { IfOk result (λ c. work run.new c < room run.old + 6) }
{
    match at_once(run, a, value, run.left) {
        None => wait(run, a, Frame::Let(var, body), value),
        Some((found, left)) => {
            run.left = left;
            bind_let(run, a, var, found, body)
        }
    }
}

/// One of two parts, by a condition.
#[inline(always)]
fn enter_if<'a>(
    run: &mut Run<'a>,
    a: Around<'a>,
    condition: &'a Core,
    first: &'a Part,
    second: &'a Part,
) -> Result<Control<'a>, Fault>
    ensures meaning { IfOk result (λ c. going a.entry run.new c ≡ does a.entry run.old (λ w st. on_answer (λ x. branch x (part (v.part first.now) w Null) (part (v.part second.now) w Null)) (eval (v.core condition.now) w st))) }
    ensures less { IfOk result (λ c. work run.new c < room run.old + 6) }
{
    match at_once(run, a, condition, run.left) {
        None => wait(run, a, Frame::Choice(first, second), condition),
        Some((value, left)) => {
            run.left = left;
            choose(run, a, value, first, second)
        }
    }
}

/// Whether the operand is of a type.
fn enter_is<'a>(
    run: &mut Run<'a>,
    a: Around<'a>,
    operand: &'a Core,
    of: &'a TypeRef,
) -> Result<Control<'a>, Fault>
    ensures meaning { IfOk result (λ c. going a.entry run.new c ≡ does a.entry run.old (λ w st. on_answer (is_type w.setting (ty of.now)) (eval (v.core operand.now) w st))) }
    ensures less { IfOk result (λ c. work run.new c < room run.old + 6) }
{
    wait(run, a, Frame::Is(of), operand)
}

/// The operand, where it is of a type or null.
fn enter_as<'a>(
    run: &mut Run<'a>,
    a: Around<'a>,
    at: Place,
    operand: &'a Core,
    of: &'a TypeRef,
) -> Result<Control<'a>, Fault>
    ensures meaning { IfOk result (λ c. going a.entry run.new c ≡ does a.entry run.old (λ w st. on_answer (as_type w.setting at (ty of.now)) (eval (v.core operand.now) w st))) }
    ensures less { IfOk result (λ c. work run.new c < room run.old + 6) }
{
    wait(run, a, Frame::As(at, of), operand)
}

/// The function returns a value, or null.
#[tactic(auto, using(machine_frame::proofs::Resume::resume_push, machine_frame::proofs::Steps::load_push, core_program::proofs::Views::views))]
#[inline(always)]
fn return_of<'a>(run: &mut Run<'a>, a: Around<'a>, value: &'a Part) -> Result<Control<'a>, Fault>
    ensures meaning { IfOk result (λ c. going a.entry run.new c ≡ does a.entry run.old (λ w st. on_answer (λ x st. ends (returns x) st) (part (v.part value.now) w Null st))) }
    ensures less { IfOk result (λ c. work run.new c < room run.old + 6) }
{
    match value {
        Part::Missing => {
            run.answer = Value::Null;
            Ok(Control::Leave(Exit::Returns))
        }
        Part::Given(core) => match at_once(run, a, core, run.left) {
            None => wait(run, a, Frame::Returning, core),
            Some((found, left)) => {
                run.left = left;
                run.answer = found;
                Ok(Control::Leave(Exit::Returns))
            }
        },
    }
}

/// A body whose exceptions are handled.
#[tactic(auto, using(machine_frame::proofs::Resume::resume_push, machine_frame::proofs::Steps::load_push, core_program::proofs::Views::views))]
fn enter_try<'a>(
    run: &mut Run<'a>,
    a: Around<'a>,
    attempt: &'a Attempt,
) -> Result<Control<'a>, Fault>
    ensures meaning { IfOk result (λ c. going a.entry run.new c ≡ does a.entry run.old (λ w st. s.finally (part (v.part (out-Attempt attempt.now).last) w Null) (s.caught_by w.setting (clauses (form.handlers (map v.handler (out-Attempt attempt.now).handlers.items)) w) (eval (v.core (out-Attempt attempt.now).body) w st)))) }
    ensures less { IfOk result (λ c. work run.new c < room run.old + 6) }
{
    wait(run, a, Frame::Trying(attempt), &attempt.body)
}
