// Rows of operands.
ghost use Rattle.std.specs.Prelude.{◌≡◌, ◌<◌, ◌≤◌, ◌+◌, ◌∷◌, ◌++◌, [], true, false, drop, IfOk, IfSome, MatchOption};
ghost use Rattle.dart_ir.specs.Classes.{IsValid};
ghost use Rattle.dart_ir.specs.declared.value.Value.TheVariants.{Null};
ghost use Rattle.core_program.specs.View as v;
ghost use Rattle.machine_lookup.specs.Rows.{last_of, but_last};
ghost use Rattle.evaluation.specs.State.{State, Meaning, Outcome, Completion, answer, ends};
ghost use Rattle.evaluation.specs.Sequence.{on_answer, on_answers};
ghost use Rattle.evaluation.specs.Parts.{form_of, is_join, constant_of, constant_leaf};
ghost use Rattle.evaluation.specs.Evaluation.{eval, evals, piece, row};
ghost use Rattle.evaluation.specs.Externals.{native};
ghost use Rattle.evaluation.specs.Arguments.{alone};
ghost use Rattle.evaluation.specs.Invocation as call;
ghost use Rattle.machine_frame.specs.Outside.{setting_of, world_in};
ghost use Rattle.machine_frame.specs.Frames.{seen, mute, going, does, does_row, room, work, forms_of, done, joins, joins_of, given_of};

use core_program::form::{Core, Form, Job, Leaf};
use dart_base::name::Name;
use dart_base::place::Place;
use dart_ir::value::Value;
use machine_call::callables::apply;
use machine_call::calls::{null_of_call, static_call};
use machine_call::creation::{construct, create};
use machine_call::sends::{send, super_member};
use machine_frame::around::{Around, Fault};
use machine_frame::run::{Control, Exit, Frame, Passed, Run};
use machine_frame::stacks::{push_frame, push_operand};
use machine_lookup::row::{cut, first_form, first_value, last_of, past_first};
use machine_loop::operators::{at_once, operated};
use machine_native::natives::native;
use machine_value::objects::make_list;
use machine_value::texts::join;

/// Begins a row.
#[inline(always)]
pub fn begin_row<'a>(
    run: &mut Run<'a>,
    a: Around<'a>,
    one: &'a Core,
    forms: &'a [Core],
) -> Result<Control<'a>, Fault>
    requires valid { IsValid a.program.now.classes }
    ensures meaning { IfOk result (λ c. going a.entry run.new c ≡ does a.entry run.old (λ w. on_answers (done w (v.core one.now)) (evals (joins (v.core one.now)) (forms_of forms.now) w) [])) }
    ensures less { IfOk result (λ c. work run.new c < room run.old + 10) }
{
    next(run, a, one, forms, 0)
}

/// How many forms may be behind an operand that is answered at once and is followed without a frame. So the host's stack does not grow
/// with a row.
const OPERANDS: usize = 200;

/// The next of a row, or what is done where all are there.
#[inline(always)]
pub fn next<'a>(
    run: &mut Run<'a>,
    a: Around<'a>,
    one: &'a Core,
    forms: &'a [Core],
    count: u32,
) -> Result<Control<'a>, Fault>
    requires valid { IsValid a.program.now.classes }
    ensures meaning { IfOk result (λ c. going a.entry run.new c ≡ does_row a.entry run.old count (λ w. on_answers (done w (v.core one.now)) (evals (joins (v.core one.now)) (forms_of forms.now) w) (last_of count run.old.operands.items))) }
    ensures less { IfOk result (λ c. work run.new c < room run.old + 10) }
{
    match first_form(forms) {
        None => finish(run, a, one, count),
        Some((first, rest)) => match piece_value(run, a, one, first) {
            None => {
                push_frame(run, Frame::Row(one, rest, count))?;
                Ok(Control::Enter(first))
            }
            Some((value, left)) => {
                if rest.len() > OPERANDS && left < run.left {
                    return answered(run, a, one, rest, count, value, left);
                }
                let Some(more) = count.checked_add(1) else {
                    return Err(Fault::Memory);
                };
                run.left = left;
                push_operand(run, value)?;
                let control = next(run, a, one, rest, more)?;
                Ok(control)
            }
        },
    }
}

/// An operand is answered, and those behind it come by a frame.
fn answered<'a>(
    run: &mut Run<'a>,
    a: Around<'a>,
    one: &'a Core,
    rest: &'a [Core],
    count: u32,
    value: Value,
    left: u64,
) -> Result<Control<'a>, Fault>
    requires less { left < run.old.left }
    ensures meaning { IfOk result (λ c. going a.entry run.new c ≡ does_row a.entry run.old count (λ w st. on_answers (done w (v.core one.now)) (evals (joins (v.core one.now)) (forms_of rest.now) w) (last_of count run.old.operands.items ++ value ∷ []) (record st { left = left }))) }
    ensures less { IfOk result (λ c. work run.new c < room run.old + 10) }
{
    run.left = left;
    push_frame(run, Frame::Row(one, rest, count))?;
    run.answer = value;
    Ok(Control::Leave(Exit::Answered))
}

/// An operand that is answered at once, with the steps left after it: a constant piece of a string takes none. What isn't is entered
/// as any form.
#[inline(always)]
fn piece_value<'a>(run: &Run<'a>, a: Around<'a>, row: &Core, one: &Core) -> Option<(Value, u64)>
    ensures value { MatchOption result
        (piece (joins (v.core row.now)) (constant_of (form_of (v.core one.now))) (eval (v.core one.now) (world_in a.entry run.now.depth)) (seen run.now) ≡ eval (v.core one.now) (world_in a.entry run.now.depth) (seen run.now))
        (λ p. mute (piece (joins (v.core row.now)) (constant_of (form_of (v.core one.now))) (eval (v.core one.now) (world_in a.entry run.now.depth)) (seen run.now)) ≡ mute (ends (answer p.0) (record (seen run.now) { left = p.1 }))) }
    ensures less { IfSome result (λ p. p.1 ≤ run.now.left) }
{
    if joins(row) {
        if let Some(value) = constant_of(one) {
            return Some((value, run.left));
        }
        return None;
    }
    at_once(run, a, one, run.left)
}

/// Whether a form is a string with parts.
#[tactic(auto, using(core_program::proofs::Views::views))]
fn joins(one: &Core) -> bool
    ensures { result ≡ joins (v.core one.now) }
{
    joins_form(&one.form)
}

#[tactic(auto, using(core_program::proofs::Views::views))]
fn joins_form(form: &Form) -> bool
    ensures { result ≡ joins_of (v.form form.now) }
{
    match form {
        Form::Row(job, _) => is_join(*job),
        Form::New {
            class: _,
            constructor: _,
            types: _,
            arguments: _,
        } => false,
        Form::List { types: _, items: _ } => false,
        Form::Leaf(_) => false,
        Form::TypeLiteral(_) => false,
        Form::Unary(_, _) => false,
        Form::Binary(_, _, _) => false,
        Form::Let {
            var: _,
            value: _,
            body: _,
        } => false,
        Form::Block(_) => false,
        Form::If {
            condition: _,
            first: _,
            second: _,
        } => false,
        Form::Is(_, _) => false,
        Form::As(_, _) => false,
        Form::Loop {
            target: _,
            copies: _,
            condition: _,
            update: _,
            body: _,
        } => false,
        Form::Return(_) => false,
        Form::Try(_) => false,
        Form::Switch {
            target: _,
            value: _,
            cases: _,
        } => false,
        Form::Labelled(_, _) => false,
    }
}

fn is_join(job: Job) -> bool
    ensures { result ≡ is_join (v.job job) }
{
    match job {
        Job::Join => true,
        Job::Send(_) => false,
        Job::Super(_, _) => false,
        Job::Call(_) => false,
        Job::Apply => false,
        Job::SuperNew(_) => false,
        Job::Native(_) => false,
    }
}

/// The value of a constant.
#[tactic(auto, using(core_program::proofs::Views::views))]
fn constant_of(one: &Core) -> Option<Value>
    ensures { result ≡ constant_of (form_of (v.core one.now)) }
{
    constant_form(&one.form)
}

#[tactic(auto, using(core_program::proofs::Views::views))]
fn constant_form(form: &Form) -> Option<Value>
    ensures { result ≡ constant_of (v.form form.now) }
{
    match form {
        Form::Leaf(leaf) => constant_leaf(*leaf),
        Form::TypeLiteral(_) => None,
        Form::Unary(_, _) => None,
        Form::Binary(_, _, _) => None,
        Form::Row(_, _) => None,
        Form::Let {
            var: _,
            value: _,
            body: _,
        } => None,
        Form::Block(_) => None,
        Form::If {
            condition: _,
            first: _,
            second: _,
        } => None,
        Form::New {
            class: _,
            constructor: _,
            types: _,
            arguments: _,
        } => None,
        Form::List { types: _, items: _ } => None,
        Form::Is(_, _) => None,
        Form::As(_, _) => None,
        Form::Loop {
            target: _,
            copies: _,
            condition: _,
            update: _,
            body: _,
        } => None,
        Form::Return(_) => None,
        Form::Try(_) => None,
        Form::Switch {
            target: _,
            value: _,
            cases: _,
        } => None,
        Form::Labelled(_, _) => None,
    }
}

fn constant_leaf(leaf: Leaf) -> Option<Value>
    ensures { result ≡ constant_leaf (v.leaf leaf) }
{
    match leaf {
        Leaf::Closure(_) => None,
        Leaf::Const(value) => Some(value),
        Leaf::This => None,
        Leaf::Read(_) => None,
        Leaf::StaticRead(_) => None,
        Leaf::Field(_) => None,
        Leaf::Jump(_, _) => None,
        Leaf::Rethrow => None,
        Leaf::Raise {
            error: _,
            name: _,
            is_setter: _,
        } => None,
    }
}

/// The end of a row; a form that is none answers null.
#[inline(always)]
fn finish<'a>(
    run: &mut Run<'a>,
    a: Around<'a>,
    one: &'a Core,
    count: u32,
) -> Result<Control<'a>, Fault>
    requires valid { IsValid a.program.now.classes }
    ensures meaning { IfOk result (λ c. going a.entry run.new c ≡ does_row a.entry run.old count (λ w. done w (v.core one.now) (last_of count run.old.operands.items))) }
    ensures less { IfOk result (λ c. work run.new c < room run.old + 10) }
{
    match &one.form {
        Form::Row(job, arguments) => finish_job(
            run,
            a,
            one.place,
            *job,
            passed_by(arguments.names.as_slice(), count),
        ),
        Form::New {
            class,
            constructor,
            types,
            arguments,
        } => create(
            run,
            a,
            one.place,
            class.0,
            constructor.0,
            types.as_slice(),
            passed_by(arguments.names.as_slice(), count),
        ),
        Form::List { types, items: _ } => make_list(run, a, types.as_slice(), count),
        Form::Leaf(_) => Ok(null_of_call(run, a, count)),
        Form::TypeLiteral(_) => Ok(null_of_call(run, a, count)),
        Form::Unary(_, _) => Ok(null_of_call(run, a, count)),
        Form::Binary(_, _, _) => Ok(null_of_call(run, a, count)),
        Form::Let {
            var: _,
            value: _,
            body: _,
        } => Ok(null_of_call(run, a, count)),
        Form::Block(_) => Ok(null_of_call(run, a, count)),
        Form::If {
            condition: _,
            first: _,
            second: _,
        } => Ok(null_of_call(run, a, count)),
        Form::Is(_, _) => Ok(null_of_call(run, a, count)),
        Form::As(_, _) => Ok(null_of_call(run, a, count)),
        Form::Loop {
            target: _,
            copies: _,
            condition: _,
            update: _,
            body: _,
        } => Ok(null_of_call(run, a, count)),
        Form::Return(_) => Ok(null_of_call(run, a, count)),
        Form::Try(_) => Ok(null_of_call(run, a, count)),
        Form::Switch {
            target: _,
            value: _,
            cases: _,
        } => Ok(null_of_call(run, a, count)),
        Form::Labelled(_, _) => Ok(null_of_call(run, a, count)),
    }
}

/// All operands of a row, the last of which go by these names.
#[inline(always)]
fn passed_by<'a>(names: &'a [Name], count: u32) -> Passed<'a>
    ensures names { result.names.now ≡ names.now }
    ensures rest { (result.skip ≡ false) × (result.count ≡ count) }
{
    Passed {
        names,
        skip: false,
        count,
    }
}

#[inline(always)]
fn finish_job<'a>(
    run: &mut Run<'a>,
    a: Around<'a>,
    at: Place,
    job: Job,
    passed: Passed<'a>,
) -> Result<Control<'a>, Fault>
    requires valid { IsValid a.program.now.classes }
    requires whole { passed.skip ≡ false }
    ensures meaning { IfOk result (λ c. going a.entry run.new c ≡ does_row a.entry run.old passed.entry.count (λ w. row w at (v.job job) (v.names passed.entry.names.now) (last_of passed.entry.count run.old.operands.items))) }
    ensures less { IfOk result (λ c. work run.new c < room run.old + 10) }
{
    match job {
        Job::Send(name) => match receiver(run, passed.count) {
            None => Ok(null_of_call(run, a, passed.count)),
            Some(this) => send_operands(run, a, at, name.0, this, with_receiver(passed)),
        },
        Job::Apply => match receiver(run, passed.count) {
            None => Ok(null_of_call(run, a, passed.count)),
            Some(callee) => apply(run, a, at, callee, with_receiver(passed)),
        },
        Job::Super(role, name) => super_member(run, a, at, role, name.0, passed),
        Job::Call(f) => static_call(run, a, at, f.0, passed),
        Job::SuperNew(f) => construct(run, a, at, f.0, passed),
        Job::Join => join(run, a, at, passed.count),
        Job::Native(id) => native(run, a, at, id, passed.count),
    }
}

/// A member of an object is called with the last operands; an operator of an integer is answered at once.
#[tactic(auto, using(machine_loop::proofs::Operated::row_answered))]
#[inline(always)]
fn send_operands<'a>(
    run: &mut Run<'a>,
    a: Around<'a>,
    at: Place,
    name: u32,
    this: Value,
    passed: Passed<'a>,
) -> Result<Control<'a>, Fault>
    requires valid { IsValid a.program.now.classes }
    ensures meaning { IfOk result (λ c. going a.entry run.new c ≡ does_row a.entry run.old passed.entry.count (λ w. call.send w at name this (given_of passed.entry run.old.operands.items))) }
    ensures less { IfOk result (λ c. work run.new c < room run.old + 10) }
{
    match operand_answer(run, a, name, this, passed) {
        None => send(run, a, at, name, this, passed),
        Some((value, left)) => {
            cut(&mut run.operands, passed.count);
            run.left = left;
            run.answer = value;
            Ok(Control::Leave(Exit::Answered))
        }
    }
}

/// What an operator answers that is called with the last operand, and the steps left after it. `None` says nothing.
#[inline(always)]
fn operand_answer<'a>(
    run: &Run<'a>,
    a: Around<'a>,
    name: u32,
    this: Value,
    passed: Passed<'a>,
) -> Option<(Value, u64)>
    ensures value { IfSome result (λ r. (at : Place) → mute (call.send (world_in a.entry run.now.depth) at name this (given_of passed.entry run.now.operands.items) (seen run.now))
        ≡ mute (ends (answer r.0) (record (seen run.now) { left = r.1 }))) }
    ensures less { IfSome result (λ r. r.1 < run.now.left) }
{
    let Some(value) = only_operand(run, passed) else {
        return None;
    };
    operated(run, a, name, this, value, run.left)
}

/// The operand that is given, where it is one alone and goes by no name.
#[tactic(auto, using(crate::proofs::Rowed::only))]
fn only_operand<'a>(run: &Run<'a>, passed: Passed<'a>) -> Option<Value>
    ensures { IfSome result (λ value. given_of passed.entry run.now.operands.items ≡ alone value) }
{
    let values = past_first(last_of(run.operands.as_slice(), passed.count), passed.skip);
    let Some((value, rest)) = values.split_first() else {
        return None;
    };
    if rest.len() != 0 || passed.names.len() != 0 {
        return None;
    }
    Some(*value)
}

/// The first of the last operands.
#[inline(always)]
fn receiver(run: &Run, count: u32) -> Option<Value>
    ensures { MatchOption result (last_of count run.now.operands.items ≡ []) (λ v. last_of count run.now.operands.items ≡ v ∷ drop 1 (last_of count run.now.operands.items)) }
{
    first_value(last_of(run.operands.as_slice(), count))
}

#[inline(always)]
fn with_receiver<'a>(passed: Passed<'a>) -> Passed<'a>
    ensures names { result.names.now ≡ passed.entry.names.now }
    ensures rest { (result.skip ≡ true) × (result.count ≡ passed.entry.count) }
{
    Passed {
        names: passed.names,
        skip: true,
        count: passed.count,
    }
}
