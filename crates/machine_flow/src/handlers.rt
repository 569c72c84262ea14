// Handlers, and the parts behind them (ECMA-408, 17.10 Rethrow, 17.11 Try).
ghost use Rattle.std.specs.Prelude.{◌≡◌, ◌<◌, ◌+◌, true, false, map, IfOk, MatchOption};
ghost use Rattle.dart_ir.specs.declared.value.Value.TheVariants.{Null};
ghost use Rattle.dart_ir.specs.Ty.{ty, of_list};
ghost use Rattle.dart_ir.specs.Classes.{IsValid};
ghost use Rattle.dart_type.specs.Instance.{instance};
ghost use Rattle.core_program.specs.Core as form;
ghost use Rattle.core_program.specs.declared.form.Form.TheViews.{out-Attempt};
ghost use Rattle.core_program.specs.View as v;
ghost use Rattle.evaluation.specs.State.{now, ends};
ghost use Rattle.evaluation.specs.Sequence.{on_answer};
ghost use Rattle.evaluation.specs.Values.{arguments_here};
ghost use Rattle.evaluation.specs.Types.{is_small, is_of};
ghost use Rattle.evaluation.specs.Evaluation.{part, clause, clauses};
ghost use Rattle.evaluation.specs.Statements as s;
ghost use Rattle.machine_frame.specs.Outside.{setting_of};
ghost use Rattle.machine_frame.specs.declared.run.Control.TheVariants.{Leave};
ghost use Rattle.machine_frame.specs.Frames.{value_or_full, IsBeside, seen, going, does, room, work, weight, completed, thrown_of};

use core_program::form::{Attempt, Handler, Part, Test};
use dart_base::place::Place;
use dart_ir::object::Object;
use dart_ir::types::TypeRef;
use dart_ir::value::Value;
use dart_ir::values::Values;
use machine_frame::around::{Around, Fault};
use machine_frame::moves::wait;
use machine_frame::objects::put_object;
use machine_frame::run::{Caught, Control, Exit, Frame, Limit, Run};
use machine_frame::stacks::push_frame;
use machine_frame::variables::declare;
use machine_value::types::type_here;
use machine_value::verdicts::is_of;

/// A body whose exceptions are handled is left.
pub fn leave_try<'a>(
    run: &mut Run<'a>,
    a: Around<'a>,
    attempt: &'a Attempt,
    exit: Exit,
) -> Result<Control<'a>, Fault>
    requires valid { IsValid a.program.now.classes }
    ensures meaning { IfOk result (λ c. going a.entry run.new c ≡ does a.entry run.old (λ w st. s.finally (part (v.part (out-Attempt attempt.now).last) w Null) (s.caught_by w.setting (clauses (form.handlers (map v.handler (out-Attempt attempt.now).handlers.items)) w) (ends (completed exit run.old.answer) st)))) }
    ensures less { IfOk result (λ c. work run.new c < 1 + work run.old (Leave exit)) }
{
    let value = run.answer;
    match exit {
        Exit::Answered => finish_try(run, a, &attempt.last, Exit::Answered, value),
        Exit::Jumps(way, target) => finish_try(
            run,
            a,
            &attempt.last,
            Exit::Jumps(way, target),
            value,
        ),
        Exit::Returns => finish_try(run, a, &attempt.last, Exit::Returns, value),
        Exit::Throws(place) => handle(run, a, attempt, attempt.handlers.as_slice(), value, place),
        Exit::Over(limit) => finish_try(run, a, &attempt.last, Exit::Over(limit), value),
    }
}

/// A handler is left: what was caught around is at hand again, and the final part comes.
pub fn leave_handler<'a>(
    run: &mut Run<'a>,
    a: Around<'a>,
    last: &'a Part,
    around: Option<Caught>,
    exit: Exit,
) -> Result<Control<'a>, Fault>
    ensures meaning { IfOk result (λ c. going a.entry run.new c ≡ does a.entry run.old (λ w st. s.finally (part (v.part last.now) w Null) (s.forgetting (thrown_of around) (ends (completed exit run.old.answer) st)))) }
    ensures less { IfOk result (λ c. work run.new c < 1 + work run.old (Leave exit)) }
{
    let value = run.answer;
    run.body.caught = around;
    finish_try(run, a, last, exit, value)
}

/// The final part, whatever the end; where it is done, that end goes on.
pub fn finish_try<'a>(
    run: &mut Run<'a>,
    a: Around<'a>,
    last: &'a Part,
    exit: Exit,
    value: Value,
) -> Result<Control<'a>, Fault>
    ensures meaning { IfOk result (λ c. going a.entry run.new c ≡ does a.entry run.old (λ w st. s.finally (part (v.part last.now) w Null) (ends (completed exit value) st))) }
    ensures less { IfOk result (λ c. work run.new c < room run.old + 1 + weight (Leave exit)) }
{
    match exit {
        Exit::Answered => final_part(run, a, last, Exit::Answered, value),
        Exit::Jumps(way, target) => final_part(run, a, last, Exit::Jumps(way, target), value),
        Exit::Returns => final_part(run, a, last, Exit::Returns, value),
        Exit::Throws(place) => final_part(run, a, last, Exit::Throws(place), value),
        Exit::Over(limit) => Ok(Control::Leave(Exit::Over(limit))),
    }
}

/// A final part, after which a form is left so.
#[tactic(auto, using(machine_frame::proofs::Resume::resume_push, machine_frame::proofs::Steps::load_push, machine_frame::proofs::Steps::leave_weight, core_program::proofs::Views::views))]
fn final_part<'a>(
    run: &mut Run<'a>,
    a: Around<'a>,
    last: &'a Part,
    exit: Exit,
    value: Value,
) -> Result<Control<'a>, Fault>
    ensures meaning { IfOk result (λ c. going a.entry run.new c ≡ does a.entry run.old (λ w st. s.then_ends (completed exit value) (part (v.part last.now) w Null st))) }
    ensures less { IfOk result (λ c. work run.new c < room run.old + 6) }
{
    match last {
        Part::Missing => {
            run.answer = value;
            Ok(Control::Leave(exit))
        }
        Part::Given(core) => {
            push_frame(run, Frame::Ending(exit, value))?;
            Ok(Control::Enter(core))
        }
    }
}

/// The form of a malformed type is left. Where it answers, the handlers behind it are asked.
pub fn leave_refused<'a>(
    run: &mut Run<'a>,
    a: Around<'a>,
    attempt: &'a Attempt,
    handlers: &'a [Handler],
    value: Value,
    place: Place,
    exit: Exit,
) -> Result<Control<'a>, Fault>
    requires valid { IsValid a.program.now.classes }
    ensures meaning { IfOk result (λ c. going a.entry run.new c ≡ does a.entry run.old (λ w st. s.finally (part (v.part (out-Attempt attempt.now).last) w Null)
        (on_answer (λ _. s.handled w.setting (clauses (form.handlers (map v.handler handlers.now)) w) value place) (ends (completed exit run.old.answer) st)))) }
    ensures less { IfOk result (λ c. work run.new c < 1 + work run.old (Leave exit)) }
{
    let held = run.answer;
    match exit {
        Exit::Answered => handle(run, a, attempt, handlers, value, place),
        Exit::Jumps(way, target) => finish_try(
            run,
            a,
            &attempt.last,
            Exit::Jumps(way, target),
            held,
        ),
        Exit::Returns => finish_try(run, a, &attempt.last, Exit::Returns, held),
        Exit::Throws(at) => finish_try(run, a, &attempt.last, Exit::Throws(at), held),
        Exit::Over(limit) => finish_try(run, a, &attempt.last, Exit::Over(limit), held),
    }
}

/// What was thrown is handled by the first of the handlers that takes it; where none does, it goes on behind the final part.
#[tactic(auto, using(core_program::proofs::Views::views))]
fn handle<'a>(
    run: &mut Run<'a>,
    a: Around<'a>,
    attempt: &'a Attempt,
    handlers: &'a [Handler],
    value: Value,
    place: Place,
) -> Result<Control<'a>, Fault>
    requires valid { IsValid a.program.now.classes }
    ensures meaning { IfOk result (λ c. going a.entry run.new c ≡ does a.entry run.old (λ w st. s.finally (part (v.part (out-Attempt attempt.now).last) w Null) (s.handled w.setting (clauses (form.handlers (map v.handler handlers.now)) w) value place st))) }
    ensures less { IfOk result (λ c. work run.new c < room run.old + 6) }
{
    let Some((handler, rest)) = handlers.split_first() else {
        return finish_try(run, a, &attempt.last, Exit::Throws(place), value);
    };
    match &handler.test {
        Test::Everything => {
            let control = take_up(run, a, &attempt.last, handler, value, place)?;
            Ok(control)
        }
        Test::On(of) => {
            let Some(holds) = takes(run, a, of, value)? else {
                return Ok(Control::Leave(Exit::Over(Limit::TypeLimit)));
            };
            if holds {
                let control = take_up(run, a, &attempt.last, handler, value, place)?;
                return Ok(control);
            }
            let control = handle(run, a, attempt, rest, value, place)?;
            Ok(control)
        }
        Test::Malformed(form) => {
            let control = wait(run, a, Frame::Refused(place, attempt, rest, value), form)?;
            Ok(control)
        }
    }
}

/// Whether a value is of a type over the type arguments in scope; `None` where the type is too large.
fn takes(run: &Run, a: Around, of: &TypeRef, value: Value) -> Result<Option<bool>, Fault>
    requires valid { IsValid a.program.now.classes }
    ensures { IfOk result (λ found. MatchOption found
        (is_small (instance (of_list (arguments_here (setting_of a.entry) (now (seen run.now)))) (ty of.now)) ≡ false)
        (λ holds. (is_small (instance (of_list (arguments_here (setting_of a.entry) (now (seen run.now)))) (ty of.now)) ≡ true)
        × (is_of (setting_of a.entry) run.now.store value (instance (of_list (arguments_here (setting_of a.entry) (now (seen run.now)))) (ty of.now)) ≡ holds))) }
{
    match type_here(run, a, of)? {
        None => Ok(None),
        Some(one) => {
            let holds = is_of(run, a, value, &one)?;
            Ok(Some(holds))
        }
    }
}

/// A handler takes what was thrown, which is at hand until the handler is left.
fn take_up<'a>(
    run: &mut Run<'a>,
    a: Around<'a>,
    last: &'a Part,
    handler: &'a Handler,
    value: Value,
    place: Place,
) -> Result<Control<'a>, Fault>
    ensures meaning { IfOk result (λ c. going a.entry run.new c ≡ does a.entry run.old (λ w st. s.finally (part (v.part last.now) w Null) (s.handling w.setting (clause (v.handler handler.now) w) value place st))) }
    ensures less { IfOk result (λ c. work run.new c < room run.old + 6) }
{
    push_frame(run, Frame::Handling(last, run.body.caught))?;
    run.body.caught = Some(Caught { value, place });
    let control = handle_with(run, a, handler, value)?;
    Ok(control)
}

/// A handler: the stack trace, then the variables in order, then the body.
#[tactic(auto, using(core_program::proofs::Views::views))]
fn handle_with<'a>(
    run: &mut Run<'a>,
    a: Around<'a>,
    handler: &'a Handler,
    value: Value,
) -> Result<Control<'a>, Fault>
    ensures meaning { IfOk result (λ c. going a.entry run.new c ≡ does a.entry run.old (λ w. s.handle w.setting (clause (v.handler handler.now) w) value)) }
    ensures less { IfOk result (λ c. work run.new c < room run.old + 3) }
{
    let Some(trace) = make_trace(run, a, handler.trace)? else {
        return Ok(Control::Leave(Exit::Over(Limit::OutOfObjects)));
    };
    let Some(_) = declare_if(run, a, handler.exception, value)? else {
        return Ok(Control::Leave(Exit::Over(Limit::OutOfObjects)));
    };
    let Some(_) = declare_if(run, a, handler.trace, trace)? else {
        return Ok(Control::Leave(Exit::Over(Limit::OutOfObjects)));
    };
    Ok(Control::Enter(&handler.body))
}

/// The stack trace, where a variable takes it. `None` where the units don't suffice.
fn make_trace(run: &mut Run, a: Around, trace: Option<u32>) -> Result<Option<Value>, Fault>
    ensures made { IfOk result (λ made. s.trace_for (setting_of a.entry) trace (seen run.old) ≡ ends (value_or_full made) (seen run.new)) }
    ensures beside { IfOk result (λ made. IsBeside run.old run.new) }
{
    match trace {
        None => Ok(Some(Value::Null)),
        Some(_) => put_object(
            run,
            Object::Instance {
                class: a.setup.known.trace_class,
                args: Vec::new(run.alloc),
                fields: Values::new(run.alloc),
            },
        ),
    }
}

/// A fresh variable, where there is one. `None` where the units don't suffice.
fn declare_if(
    run: &mut Run,
    a: Around,
    var: Option<u32>,
    value: Value,
) -> Result<Option<Value>, Fault>
    ensures declared { IfOk result (λ held. s.declare_if (setting_of a.entry) var value (seen run.old) ≡ ends (value_or_full held) (seen run.new)) }
    ensures beside { IfOk result (λ held. IsBeside run.old run.new) }
{
    match var {
        None => Ok(Some(value)),
        Some(var) => declare(run, a, var, value),
    }
}
