// Static variables (ECMA-408, 8.1 Evaluation of Implicit Variable Getters).
ghost use Rattle.std.specs.Prelude.{◌≡◌, ◌<◌, ◌+◌, Some, IfOk};
ghost use Rattle.core_program.specs.ProgramView as p;
ghost use Rattle.evaluation.specs.Classes.{static_of};
ghost use Rattle.evaluation.specs.Variables as x;
ghost use Rattle.evaluation.specs.Invocation as call;
ghost use Rattle.machine_frame.specs.Frames.{going, does, room, work};

use crate::errors::throw_new;
use core_program::form::Part;
use core_program::program::StaticVar;
use dart_base::place::Place;
use dart_ir::kind::ThrowKind;
use dart_ir::value::Value;
use dart_store::store::Static;
use machine_frame::around::{Around, Fault};
use machine_frame::moves::{answer, enter_part};
use machine_frame::run::{Body, Control, Exit, Frame, Limit, Run, Source};
use machine_frame::stacks::{push_body, push_frame};
use machine_lookup::program::static_of;
use machine_lookup::row::push_nulls;

/// A static variable is read: the first read runs its initialiser, and a read meanwhile throws.
#[tactic(auto, using(machine_frame::proofs::Passing::leaving_own))]
pub fn static_read<'a>(
    run: &mut Run<'a>,
    a: Around<'a>,
    at: Place,
    d: u32,
) -> Result<Control<'a>, Fault>
    ensures meaning { IfOk result (λ c. going a.entry run.new c ≡ does a.entry run.old (λ w st. call.leaving at (x.static_read w at d st))) }
    ensures less { IfOk result (λ c. work run.new c < room run.old + 10) }
{
    match run.store.static_at(d) {
        Static::Holds(value) => Ok(answer(run, a, value)),
        Static::Starting => throw_new(run, a, at, ThrowKind::CyclicInitializationError),
        Static::Unset => initialise(run, a, at, d),
    }
}

#[tactic(auto, using(machine_frame::proofs::Resume::resume_push, machine_frame::proofs::Steps::load_push, core_program::proofs::Views::views))]
fn initialise<'a>(run: &mut Run<'a>, a: Around<'a>, at: Place, d: u32) -> Result<Control<'a>, Fault>
    ensures meaning { IfOk result (λ c. going a.entry run.new c ≡ does a.entry run.old (λ w st. call.leaving at (x.initialised (x.has_initialiser (static_of (p.program a.entry.program.now) d)) w d st))) }
    ensures less { IfOk result (λ c. work run.new c < room run.old + 10) }
{
    let Some(variable) = static_of(a.program.core(), d) else {
        return Ok(answer(run, a, Value::Null));
    };
    match &variable.init {
        Part::Missing => Ok(answer(run, a, Value::Null)),
        Part::Given(_) => {
            run.store.set_static(d, Static::Starting);
            push_frame(run, Frame::Settling(at, d))?;
            enter_init(run, a, d, variable)
        }
    }
}

/// Enters an initialiser.
#[tactic(auto, using(machine_frame::proofs::Resume::resume_push, machine_frame::proofs::Steps::load_push, machine_frame::proofs::Rows::row_laws, machine_frame::proofs::Resume::inits_zero, machine_frame::proofs::Resume::inits_suc))]
fn enter_init<'a>(
    run: &mut Run<'a>,
    a: Around<'a>,
    d: u32,
    variable: &'a StaticVar,
) -> Result<Control<'a>, Fault>
    requires { static_of (p.program a.program.now) d ≡ Some (p.static variable.now) }
    ensures meaning { IfOk result (λ c. going a.entry run.new c ≡ does a.entry run.old (λ w. w.inits d)) }
    ensures less { IfOk result (λ c. work run.new c < room run.old + 9) }
{
    if run.depth == 0 {
        return Ok(Control::Leave(Exit::Over(Limit::OutOfDepth)));
    }
    let Ok(base) = u32::try_from(run.slots.len()) else {
        return Err(Fault::Memory);
    };
    push_nulls(&mut run.slots, variable.vars)?;
    push_frame(run, Frame::Restoring(run.base, run.depth))?;
    push_body(run)?;
    run.base = base;
    run.body = Body {
        source: Source::Initialiser(d),
        owner: 0,
        this: Value::Null,
        closure: Value::Null,
        has_types: false,
        caught: None,
    };
    run.depth -= 1;
    enter_part(run, a, &variable.init)
}
