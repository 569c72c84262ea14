// Loops and statements with labels that are left (ECMA-408, 17.13 Labels, 17.14 Break, 17.15 Continue).
ghost use Rattle.std.specs.Prelude.{nat_eq, ◌≡◌, ◌<◌, ◌+◌, IfOk};
ghost use Rattle.core_program.specs.View as v;
ghost use Rattle.evaluation.specs.State.{jumps, ends};
ghost use Rattle.evaluation.specs.Statements as s;
ghost use Rattle.machine_frame.specs.declared.run.Control.TheVariants.{Leave};
ghost use Rattle.std.specs.List.{list_any};
ghost use Rattle.machine_frame.specs.Labels.{labels, labelled_all};
ghost use Rattle.machine_frame.specs.Frames.{next_turn, updated, going, does, room, work, completed};

use core_program::form::{Core, Form, Way};
use dart_ir::value::Value;
use machine_frame::around::{Around, Fault};
use machine_frame::moves::answer;
use machine_frame::run::{Control, Exit, Run, Turn};
use machine_loop::loops::{begin_turn, update};

/// A turn's body is left: the loop goes on, is left, or is passed by.
pub fn leave_body<'a>(
    run: &mut Run<'a>,
    a: Around<'a>,
    turn: Turn<'a>,
    exit: Exit,
) -> Result<Control<'a>, Fault>
    ensures meaning { IfOk result (λ c. going a.entry run.new c ≡ does a.entry run.old (λ w st. s.after_body turn.entry.target (next_turn w turn.entry) (ends (completed exit run.old.answer) st))) }
    ensures less { IfOk result (λ c. work run.new c < 1 + work run.old (Leave exit)) }
{
    match exit {
        Exit::Answered => update(run, a, turn),
        Exit::Jumps(way, target) => jump_from_body(run, a, turn, way, target),
        Exit::Returns => Ok(Control::Leave(Exit::Returns)),
        Exit::Throws(place) => Ok(Control::Leave(Exit::Throws(place))),
        Exit::Over(limit) => Ok(Control::Leave(Exit::Over(limit))),
    }
}

fn jump_from_body<'a>(
    run: &mut Run<'a>,
    a: Around<'a>,
    turn: Turn<'a>,
    way: Way,
    target: u32,
) -> Result<Control<'a>, Fault>
    ensures meaning { IfOk result (λ c. going a.entry run.new c ≡ does a.entry run.old (λ w st. s.loop_jump (nat_eq target turn.entry.target) way target (next_turn w turn.entry) st)) }
    ensures less { IfOk result (λ c. work run.new c < room run.old + 6) }
{
    if target != turn.target {
        return Ok(Control::Leave(Exit::Jumps(way, target)));
    }
    match way {
        Way::Break => Ok(answer(run, a, Value::Null)),
        Way::Continue => update(run, a, turn),
        Way::Case(index) => Ok(Control::Leave(Exit::Jumps(Way::Case(index), target))),
    }
}

/// A turn's update is left: the loop goes on, is left, or is passed by.
pub fn leave_update<'a>(
    run: &mut Run<'a>,
    a: Around<'a>,
    turn: Turn<'a>,
    exit: Exit,
) -> Result<Control<'a>, Fault>
    ensures meaning { IfOk result (λ c. going a.entry run.new c ≡ does a.entry run.old (λ w st. updated w turn.entry (ends (completed exit run.old.answer) st))) }
    ensures less { IfOk result (λ c. work run.new c < 1 + work run.old (Leave exit)) }
{
    match exit {
        Exit::Answered => begin_turn(run, a, turn),
        Exit::Jumps(way, target) => Ok(jump_from_update(run, a, turn, way, target)),
        Exit::Returns => Ok(Control::Leave(Exit::Returns)),
        Exit::Throws(place) => Ok(Control::Leave(Exit::Throws(place))),
        Exit::Over(limit) => Ok(Control::Leave(Exit::Over(limit))),
    }
}

fn jump_from_update<'a>(
    run: &mut Run<'a>,
    a: Around<'a>,
    turn: Turn<'a>,
    way: Way,
    target: u32,
) -> Control<'a>
    ensures meaning { going a.entry run.new result ≡ does a.entry run.old (λ w st. s.left_by (nat_eq target turn.entry.target) way target st) }
    ensures less { work run.new result < room run.old + 6 }
{
    if target != turn.target {
        return Control::Leave(Exit::Jumps(way, target));
    }
    match way {
        Way::Break => answer(run, a, Value::Null),
        Way::Continue => Control::Leave(Exit::Jumps(Way::Continue, target)),
        Way::Case(index) => Control::Leave(Exit::Jumps(Way::Case(index), target)),
    }
}

/// A statement with labels is left by a break to one of them.
#[tactic(auto, using(machine_frame::proofs::Labels::label_laws))]
pub fn leave_label<'a>(run: &mut Run<'a>, a: Around<'a>, one: &'a Core, exit: Exit) -> Control<'a>
    ensures meaning { going a.entry run.new result ≡ does a.entry run.old (λ w st. labelled_all (labels (v.core one.now)) (ends (completed exit run.old.answer) st)) }
    ensures less { work run.new result < 1 + work run.old (Leave exit) }
{
    match exit {
        Exit::Answered => Control::Leave(Exit::Answered),
        Exit::Jumps(way, number) => jump_from_label(run, a, one, way, number),
        Exit::Returns => Control::Leave(Exit::Returns),
        Exit::Throws(place) => Control::Leave(Exit::Throws(place)),
        Exit::Over(limit) => Control::Leave(Exit::Over(limit)),
    }
}

#[tactic(auto, using(machine_frame::proofs::Labels::label_laws))]
fn jump_from_label<'a>(
    run: &mut Run<'a>,
    a: Around<'a>,
    one: &'a Core,
    way: Way,
    number: u32,
) -> Control<'a>
    ensures meaning { going a.entry run.new result ≡ does a.entry run.old (λ w st. labelled_all (labels (v.core one.now)) (ends (jumps way number) st)) }
    ensures less { work run.new result < room run.old + 6 }
{
    match way {
        Way::Break => {
            if has_label(one, number) {
                return answer(run, a, Value::Null);
            }
            Control::Leave(Exit::Jumps(Way::Break, number))
        }
        Way::Continue => Control::Leave(Exit::Jumps(Way::Continue, number)),
        Way::Case(index) => Control::Leave(Exit::Jumps(Way::Case(index), number)),
    }
}

/// Whether one of the labels around a statement has the number.
#[tactic(auto, using(core_program::proofs::Views::views))]
fn has_label(one: &Core, number: u32) -> bool
    ensures { result ≡ list_any (nat_eq number) (labels (v.core one.now)) }
{
    match &one.form {
        Form::Labelled(target, body) => {
            if number == *target {
                return true;
            }
            has_label(body, number)
        }
        Form::Leaf(_) => false,
        Form::TypeLiteral(_) => false,
        Form::Unary(_, _) => false,
        Form::Binary(_, _, _) => false,
        Form::Row(_, _) => false,
        Form::Let {
            var: _,
            value: _,
            body: _,
        } => false,
        Form::Block(_) => false,
        Form::If {
            condition: _,
            first: _,
            second: _,
        } => false,
        Form::New {
            class: _,
            constructor: _,
            types: _,
            arguments: _,
        } => false,
        Form::List { types: _, items: _ } => false,
        Form::Is(_, _) => false,
        Form::As(_, _) => false,
        Form::Loop {
            target: _,
            copies: _,
            condition: _,
            update: _,
            body: _,
        } => false,
        Form::Return(_) => false,
        Form::Try(_) => false,
        Form::Switch {
            target: _,
            value: _,
            cases: _,
        } => false,
    }
}
