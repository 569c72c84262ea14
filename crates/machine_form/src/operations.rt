// Forms with one operand, and with two, that are entered.
ghost use Rattle.std.specs.Prelude.{◌≡◌, ◌<◌, ◌+◌, Some, None, true, false, IfOk};
ghost use Rattle.dart_ir.specs.Classes.{IsValid};
ghost use Rattle.dart_ir.specs.declared.value.Value.TheVariants.{Null};
ghost use Rattle.core_program.specs.View as v;
ghost use Rattle.evaluation.specs.Sequence.{on_answer};
ghost use Rattle.evaluation.specs.Parts.{form_of, is_closure};
ghost use Rattle.evaluation.specs.Evaluation.{eval, unary, before_operand, binary};
ghost use Rattle.evaluation.specs.Variables as x;
ghost use Rattle.machine_frame.specs.Frames.{going, does, room, work};

use crate::operands::{finish_binary, finish_unary};
use core_program::form::{Binary, Core, Unary};
use dart_base::place::Place;
use dart_ir::value::Value;
use machine_frame::around::{Around, Fault};
use machine_frame::moves::wait;
use machine_frame::run::{Control, Exit, Frame, Limit, Run};
use machine_frame::variables::declare;
use machine_lookup::program::is_closure;
use machine_loop::operators::at_once;

/// A form with one operand.
#[inline(always)]
pub fn enter_unary<'a>(
    run: &mut Run<'a>,
    a: Around<'a>,
    at: Place,
    one: Unary,
    operand: &'a Core,
) -> Result<Control<'a>, Fault>
    requires valid { IsValid a.program.now.classes }
    ensures meaning { IfOk result (λ c. going a.entry run.new c ≡ does a.entry run.old (λ w st. on_answer (unary w at (is_closure (form_of (v.core operand.now))) (v.unary one)) (before_operand w (is_closure (form_of (v.core operand.now))) (v.unary one) (eval (v.core operand.now) w) st))) }
    ensures less { IfOk result (λ c. work run.new c < room run.old + 10) }
{
    if is_closure(operand) {
        return enter_function(run, a, at, one, operand);
    }
    match at_once(run, a, operand, run.left) {
        None => wait_operand(run, a, at, false, one, operand),
        Some((value, left)) => {
            run.left = left;
            finish_unary(run, a, at, false, one, value)
        }
    }
}

/// A form whose operand is a function literal or a local function, the variable of which is there first.
fn enter_function<'a>(
    run: &mut Run<'a>,
    a: Around<'a>,
    at: Place,
    one: Unary,
    operand: &'a Core,
) -> Result<Control<'a>, Fault>
    ensures meaning { IfOk result (λ c. going a.entry run.new c ≡ does a.entry run.old (λ w st. on_answer (unary w at true (v.unary one)) (before_operand w true (v.unary one) (eval (v.core operand.now) w) st))) }
    ensures less { IfOk result (λ c. work run.new c < room run.old + 10) }
{
    match one {
        Unary::Var(var) => declare_function(run, a, at, var, operand),
        Unary::Write(var) => wait_operand(run, a, at, true, Unary::Write(var), operand),
        Unary::StaticWrite(d) => wait_operand(run, a, at, true, Unary::StaticWrite(d), operand),
        Unary::FieldWrite(i) => wait_operand(run, a, at, true, Unary::FieldWrite(i), operand),
        Unary::Get(name) => wait_operand(run, a, at, true, Unary::Get(name), operand),
        Unary::Check(site) => wait_operand(run, a, at, true, Unary::Check(site), operand),
        Unary::Throw => wait_operand(run, a, at, true, Unary::Throw, operand),
    }
}

/// The variable of a local function, and then the function.
fn declare_function<'a>(
    run: &mut Run<'a>,
    a: Around<'a>,
    at: Place,
    var: u32,
    operand: &'a Core,
) -> Result<Control<'a>, Fault>
    ensures meaning { IfOk result (λ c. going a.entry run.new c ≡ does a.entry run.old (λ w st. on_answer (unary w at true (v.unary (Unary.Var var))) (on_answer (λ _. eval (v.core operand.now) w) (x.declare w.setting var Null st)))) }
    ensures less { IfOk result (λ c. work run.new c < room run.old + 10) }
{
    match declare(run, a, var, Value::Null)? {
        None => Ok(Control::Leave(Exit::Over(Limit::OutOfObjects))),
        Some(_) => wait_operand(run, a, at, true, Unary::Var(var), operand),
    }
}

/// An operand is entered.
#[inline(always)]
fn wait_operand<'a>(
    run: &mut Run<'a>,
    a: Around<'a>,
    at: Place,
    is_function: bool,
    one: Unary,
    operand: &'a Core,
) -> Result<Control<'a>, Fault>
    ensures meaning { IfOk result (λ c. going a.entry run.new c ≡ does a.entry run.old (λ w st. on_answer (unary w at is_function (v.unary one)) (eval (v.core operand.now) w st))) }
    ensures less { IfOk result (λ c. work run.new c < room run.old + 6) }
{
    wait(run, a, Frame::Operand(at, is_function, one), operand)
}

/// A form with two operands.
#[inline(always)]
pub fn enter_binary<'a>(
    run: &mut Run<'a>,
    a: Around<'a>,
    at: Place,
    one: Binary,
    first: &'a Core,
    second: &'a Core,
) -> Result<Control<'a>, Fault>
    requires valid { IsValid a.program.now.classes }
    ensures meaning { IfOk result (λ c. going a.entry run.new c ≡ does a.entry run.old (λ w st. on_answer (λ x st. on_answer (λ y. binary w at (v.binary one) x y) (eval (v.core second.now) w st)) (eval (v.core first.now) w st))) }
    ensures less { IfOk result (λ c. work run.new c < room run.old + 10) }
{
    match at_once(run, a, first, run.left) {
        None => wait(run, a, Frame::First(at, one, second), first),
        Some((value, left)) => {
            run.left = left;
            second_operand(run, a, at, one, value, second)
        }
    }
}

/// The second operand, where the first one's answer is there.
#[inline(always)]
pub fn second_operand<'a>(
    run: &mut Run<'a>,
    a: Around<'a>,
    at: Place,
    one: Binary,
    value: Value,
    second: &'a Core,
) -> Result<Control<'a>, Fault>
    requires valid { IsValid a.program.now.classes }
    ensures meaning { IfOk result (λ c. going a.entry run.new c ≡ does a.entry run.old (λ w st. on_answer (λ y. binary w at (v.binary one) value y) (eval (v.core second.now) w st))) }
    ensures less { IfOk result (λ c. work run.new c < room run.old + 10) }
{
    match at_once(run, a, second, run.left) {
        None => wait(run, a, Frame::Second(at, one, value), second),
        Some((other, left)) => {
            run.left = left;
            finish_binary(run, a, at, one, value, other)
        }
    }
}
