// Calls and initialisers that are left.
ghost use Rattle.std.specs.Prelude.{◌≡◌, ◌<◌, ◌≤◌, ◌+◌, false, take};
ghost use Rattle.evaluation.specs.State.{ends};
ghost use Rattle.evaluation.specs.Evaluation.{answered_by};
ghost use Rattle.evaluation.specs.Invocation.{leaving, moved};
ghost use Rattle.evaluation.specs.Variables.{settled};
ghost use Rattle.evaluation.specs.Values.{in_prelude};
ghost use Rattle.machine_frame.specs.declared.run.Control.TheVariants.{Leave};
ghost use Rattle.machine_frame.specs.Frames.{going, does, work, weight, completed, moved_to, types_under, last_body, bodies_under};

use dart_base::place::Place;
use dart_ir::value::Value;
use dart_store::store::Static;
use machine_frame::around::Around;
use machine_frame::run::{Control, Exit, Run};
use machine_frame::stacks::{drop_types, pop_body};

/// The caller's body is at work again.
#[inline(always)]
pub fn go_back(run: &mut Run, base: u32, depth: u32)
    ensures slots { run.new.slots.items ≡ take run.old.base run.old.slots.items }
    ensures types { run.new.types.items ≡ types_under run.old.body.has_types run.old.types.items }
    ensures callers { run.new.callers.items ≡ bodies_under run.old.callers.items }
    ensures stays { run.new ≡ record run.old { slots = run.new.slots; types = run.new.types; callers = run.new.callers; base = base; depth = depth; body = last_body run.old.callers.items } }
{
    drop_types(run);
    run.slots.truncate(run.base as usize);
    run.base = base;
    run.depth = depth;
    run.body = pop_body(run);
}

/// How a call is left, where its body is left so.
#[inline(always)]
pub fn after_call(run: &mut Run, at: Place, is_block: bool, exit: Exit) -> Exit
    ensures meaning { completed result run.new.answer ≡ moved_to at (answered_by is_block (completed exit run.old.answer)) }
    ensures stays { run.new ≡ record run.old { answer = run.new.answer } }
    ensures less { weight (Leave result) ≤ weight (Leave exit) }
{
    match exit {
        Exit::Answered => {
            if is_block {
                run.answer = Value::Null;
            }
            Exit::Answered
        }
        Exit::Returns => Exit::Answered,
        Exit::Jumps(_, _) => {
            run.answer = Value::Null;
            Exit::Answered
        }
        Exit::Throws(place) => Exit::Throws(moved(at, place)),
        Exit::Over(limit) => Exit::Over(limit),
    }
}

/// The place of a throw that leaves a call.
fn moved(at: Place, place: Place) -> Place
    ensures { result ≡ moved (in_prelude place) (in_prelude at) at place }
{
    if !is_in_prelude(place) {
        return place;
    }
    if is_in_prelude(at) { place } else { at }
}

fn is_in_prelude(place: Place) -> bool
    ensures { result ≡ in_prelude place }
{
    if place.unit == 1 {
        return true;
    }
    place.unit == 2
}

/// How an initialiser is left, where its part is left so.
pub fn after_init(run: &mut Run, exit: Exit) -> Exit
    ensures meaning { completed result run.new.answer ≡ answered_by false (completed exit run.old.answer) }
    ensures stays { run.new ≡ record run.old { answer = run.new.answer } }
    ensures less { weight (Leave result) ≤ weight (Leave exit) }
{
    match exit {
        Exit::Answered => Exit::Answered,
        Exit::Returns => Exit::Answered,
        Exit::Jumps(_, _) => {
            run.answer = Value::Null;
            Exit::Answered
        }
        Exit::Throws(place) => Exit::Throws(place),
        Exit::Over(limit) => Exit::Over(limit),
    }
}

/// A static variable whose initialiser has ended: it holds the answer, or null.
pub fn settle<'a>(run: &mut Run<'a>, a: Around<'a>, at: Place, d: u32, exit: Exit) -> Control<'a>
    ensures meaning { going a.entry run.new result ≡ does a.entry run.old (λ w st. leaving at (settled d (ends (completed exit run.old.answer) st))) }
    ensures less { work run.new result < 1 + work run.old (Leave exit) }
{
    match exit {
        Exit::Answered => {
            run.store.set_static(d, Static::Holds(run.answer));
            Control::Leave(Exit::Answered)
        }
        Exit::Jumps(way, target) => {
            run.store.set_static(d, Static::Holds(Value::Null));
            Control::Leave(Exit::Jumps(way, target))
        }
        Exit::Returns => {
            run.store.set_static(d, Static::Holds(Value::Null));
            Control::Leave(Exit::Returns)
        }
        Exit::Throws(place) => {
            run.store.set_static(d, Static::Holds(Value::Null));
            Control::Leave(Exit::Throws(moved(at, place)))
        }
        Exit::Over(limit) => Control::Leave(Exit::Over(limit)),
    }
}
