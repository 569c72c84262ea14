// Forms that are entered, of which what can be done without a frame is done at once.
#![tactic(auto, using(machine_frame::proofs::Steps::form_enters, machine_frame::proofs::Steps::form_enters_not, core_program::proofs::Views::views))]

ghost use Rattle.std.specs.Prelude.{◌≡◌, ◌<◌, ◌+◌, IfOk};
ghost use Rattle.dart_ir.specs.declared.value.Value.TheVariants.{Null};
ghost use Rattle.core_program.specs.View as v;
ghost use Rattle.evaluation.specs.Sequence.{on_answer, branch};
ghost use Rattle.evaluation.specs.Evaluation.{eval, part};
ghost use Rattle.evaluation.specs.Variables as x;
ghost use Rattle.machine_frame.specs.Frames.{going, does, room, work};

use crate::statements::{go_on, simple};
use core_program::form::{Core, Form, Part};
use dart_ir::value::Value;
use machine_frame::around::{Around, Fault};
use machine_frame::moves::answer;
use machine_frame::run::{Control, Exit, Limit, Run};
use machine_frame::variables::declare;
use machine_lookup::row::is_true;

/// Enters a form.
pub fn enter_at_once<'a>(
    run: &mut Run<'a>,
    a: Around<'a>,
    core: &'a Core,
) -> Result<Control<'a>, Fault>
    ensures meaning { IfOk result (λ c. going a.entry run.new c ≡ does a.entry run.old (eval (v.core core.now))) }
    ensures less { IfOk result (λ c. work run.new c < room run.old + 6) }
{
    match &core.form {
        Form::Block(forms) => {
            if run.left == 0 {
                return Ok(Control::Leave(Exit::Over(Limit::OutOfSteps)));
            }
            run.left -= 1;
            go_on(run, a, forms.as_slice(), Value::Null)
        }
        _ => match simple(run, a, core) {
            Err(fault) => Err(fault),
            Ok(None) => Ok(Control::Leave(Exit::Answered)),
            Ok(Some(more)) => Ok(Control::Enter(more)),
        },
    }
}

/// Enters a part; one that is missing answers null.
#[inline(always)]
pub fn enter_part<'a>(run: &mut Run<'a>, a: Around<'a>, one: &'a Part) -> Result<Control<'a>, Fault>
    ensures meaning { IfOk result (λ c. going a.entry run.new c ≡ does a.entry run.old (λ w. part (v.part one.now) w Null)) }
    ensures less { IfOk result (λ c. work run.new c < room run.old + 6) }
{
    match one {
        Part::Missing => Ok(answer(run, a, Value::Null)),
        Part::Given(core) => enter_at_once(run, a, core),
    }
}

/// One of two parts, by a value.
#[inline(always)]
pub fn choose<'a>(
    run: &mut Run<'a>,
    a: Around<'a>,
    value: Value,
    first: &'a Part,
    second: &'a Part,
) -> Result<Control<'a>, Fault>
    ensures meaning { IfOk result (λ c. going a.entry run.new c ≡ does a.entry run.old (λ w. branch value (part (v.part first.now) w Null) (part (v.part second.now) w Null))) }
    ensures less { IfOk result (λ c. work run.new c < room run.old + 6) }
{
    if is_true(value) {
        enter_part(run, a, first)
    } else {
        enter_part(run, a, second)
    }
}

/// A variable for a value, and then the body in which it stands.
pub fn bind_let<'a>(
    run: &mut Run<'a>,
    a: Around<'a>,
    var: u32,
    value: Value,
    body: &'a Core,
) -> Result<Control<'a>, Fault>
    ensures meaning { IfOk result (λ c. going a.entry run.new c ≡ does a.entry run.old (λ w st. on_answer (λ _. eval (v.core body.now) w) (x.declare w.setting var value st))) }
    ensures less { IfOk result (λ c. work run.new c < room run.old + 6) }
{
    match declare(run, a, var, value)? {
        None => Ok(Control::Leave(Exit::Over(Limit::OutOfObjects))),
        Some(_) => enter_at_once(run, a, body),
    }
}
