// Statements in order, of which the simple ones are done without a frame.
ghost use Rattle.std.specs.Prelude.{◌≡◌, ◌<◌, ◌+◌, true, false, cond, IfOk, MatchOption};
ghost use Rattle.core_program.specs.View as v;
ghost use Rattle.evaluation.specs.Sequence.{in_order, is_true, on_answer};
ghost use Rattle.evaluation.specs.Evaluation.{eval, evals};
ghost use Rattle.machine_frame.specs.Frames.{going, does, room, work, forms_of};
ghost use Rattle.machine_loop.specs.Simple.{IsDone, IsLeft};

use crate::operators::at_once;
use crate::quick::leaf_quick;
use core_program::form::{Core, Form, Part, Unary};
use dart_ir::value::Value;
use machine_frame::around::{Around, Fault};
use machine_frame::moves::answer;
use machine_frame::run::{Control, Frame, Run};
use machine_frame::stacks::push_frame;
use machine_frame::variables::{declare, has_cell, write_variable};
use machine_lookup::program::is_closure;
use machine_lookup::row::{first_form, is_true};

/// How many forms may be behind one that is done without a frame. So the host's stack does not grow with a block.
const STATEMENTS: usize = 200;

/// The next of some forms in order, or the answer of the last one.
pub fn go_on<'a>(
    run: &mut Run<'a>,
    a: Around<'a>,
    forms: &'a [Core],
    last: Value,
) -> Result<Control<'a>, Fault>
    ensures meaning { IfOk result (λ c. going a.entry run.new c ≡ does a.entry run.old (λ w. in_order (evals false (forms_of forms.now) w) last)) }
    ensures less { IfOk result (λ c. work run.new c < room run.old + 6) }
{
    match first_form(forms) {
        None => Ok(answer(run, a, last)),
        Some((first, rest)) => {
            if rest.len() > STATEMENTS {
                push_frame(run, Frame::Rest(rest))?;
                return Ok(Control::Enter(first));
            }
            match simple(run, a, first) {
                Err(fault) => Err(fault),
                Ok(None) => {
                    let value = run.answer;
                    let control = go_on(run, a, rest, value)?;
                    Ok(control)
                }
                Ok(Some(more)) => {
                    let control = follow(run, a, more, rest)?;
                    Ok(control)
                }
            }
        }
    }
}

/// Enters a form, which the others follow.
#[inline(always)]
fn follow<'a>(
    run: &mut Run<'a>,
    a: Around<'a>,
    first: &'a Core,
    rest: &'a [Core],
) -> Result<Control<'a>, Fault>
    ensures meaning { IfOk result (λ c. going a.entry run.new c ≡ does a.entry run.old (λ w st. on_answer (in_order (evals false (forms_of rest.now) w)) (eval (v.core first.now) w st))) }
    ensures less { IfOk result (λ c. work run.new c < room run.old + 4) }
{
    match first_form(rest) {
        None => Ok(Control::Enter(first)),
        Some(_) => {
            push_frame(run, Frame::Rest(rest))?;
            Ok(Control::Enter(first))
        }
    }
}

/// Does what a form has to do without a frame, and gives back what is left of it, which may be the form itself: nothing where it is done.
pub fn simple<'a>(
    run: &mut Run<'a>,
    a: Around<'a>,
    core: &'a Core,
) -> Result<Option<&'a Core>, Fault>
    ensures { IfOk result (λ o. MatchOption o (IsDone a.entry core.now run.old.left run.old run.new) (λ more. IsLeft a.entry core.now more.now run.old run.new)) }
{
    match &core.form {
        Form::Block(_) => only_or_left(run, a, core),
        Form::If {
            condition: _,
            first: _,
            second: _,
        } => choice_or_left(run, a, core),
        _ => single(run, a, core),
    }
}

/// The same of a form that is neither a block nor a choice.
#[inline(always)]
fn single<'a>(run: &mut Run<'a>, a: Around<'a>, core: &'a Core) -> Result<Option<&'a Core>, Fault>
    ensures { IfOk result (λ o. MatchOption o (IsDone a.entry core.now run.old.left run.old run.new) (λ more. IsLeft a.entry core.now more.now run.old run.new)) }
{
    match &core.form {
        Form::Unary(_, _) => written_or_left(run, a, core),
        Form::Leaf(_) => Ok(read_or_left(run, a, core)),
        Form::Let {
            var: _,
            value: _,
            body: _,
        } => bound_or_left(run, a, core),
        _ => Ok(Some(core)),
    }
}

/// The same of a block of one form.
fn only_or_left<'a>(
    run: &mut Run<'a>,
    a: Around<'a>,
    core: &'a Core,
) -> Result<Option<&'a Core>, Fault>
    ensures { IfOk result (λ o. MatchOption o (IsDone a.entry core.now run.old.left run.old run.new) (λ more. IsLeft a.entry core.now more.now run.old run.new)) }
{
    if run.left == 0 {
        return Ok(Some(core));
    }
    let Form::Block(forms) = &core.form else {
        return Ok(Some(core));
    };
    let Some((only, others)) = first_form(forms.as_slice()) else {
        return Ok(Some(core));
    };
    let None = first_form(others) else {
        return Ok(Some(core));
    };
    run.left -= 1;
    single(run, a, only)
}

/// The same of a choice whose condition is answered at once, and the part that it chooses.
fn choice_or_left<'a>(
    run: &mut Run<'a>,
    a: Around<'a>,
    core: &'a Core,
) -> Result<Option<&'a Core>, Fault>
    ensures { IfOk result (λ o. MatchOption o (IsDone a.entry core.now run.old.left run.old run.new) (λ more. IsLeft a.entry core.now more.now run.old run.new)) }
{
    if run.left == 0 {
        return Ok(Some(core));
    }
    let Form::If {
        condition,
        first,
        second,
    } = &core.form
    else {
        return Ok(Some(core));
    };
    let Some((value, left)) = at_once(run, a, condition, run.left - 1) else {
        return Ok(Some(core));
    };
    run.left = left;
    match part_of(value, first, second) {
        Part::Missing => {
            run.answer = Value::Null;
            Ok(None)
        }
        Part::Given(inner) => single(run, a, inner),
    }
}

/// One of two parts, by a value.
#[inline(always)]
fn part_of<'a>(value: Value, first: &'a Part, second: &'a Part) -> &'a Part
    ensures { result.now ≡ cond (is_true value) first.now second.now }
{
    if is_true(value) { first } else { second }
}

/// The same of a variable that is written.
#[inline(always)]
fn written_or_left<'a>(
    run: &mut Run<'a>,
    a: Around<'a>,
    core: &'a Core,
) -> Result<Option<&'a Core>, Fault>
    ensures { IfOk result (λ o. MatchOption o (IsDone a.entry core.now run.old.left run.old run.new) (λ more. IsLeft a.entry core.now more.now run.old run.new)) }
{
    let left = run.left;
    if written(run, a, core, left)? {
        return Ok(None);
    }
    Ok(Some(core))
}

/// The same of a form without parts.
#[inline(always)]
fn read_or_left<'a>(run: &mut Run<'a>, a: Around<'a>, core: &'a Core) -> Option<&'a Core>
    ensures { MatchOption result (IsDone a.entry core.now run.old.left run.old run.new) (λ more. IsLeft a.entry core.now more.now run.old run.new) }
{
    match leaf_quick(run, a, core, run.left) {
        None => Some(core),
        Some((value, left)) => {
            run.left = left;
            run.answer = value;
            None
        }
    }
}

/// The same of a variable without a cell, and the body in which it stands.
#[inline(always)]
fn bound_or_left<'a>(
    run: &mut Run<'a>,
    a: Around<'a>,
    core: &'a Core,
) -> Result<Option<&'a Core>, Fault>
    ensures { IfOk result (λ o. MatchOption o (IsDone a.entry core.now run.old.left run.old run.new) (λ more. IsLeft a.entry core.now more.now run.old run.new)) }
{
    if run.left == 0 {
        return Ok(Some(core));
    }
    let Form::Let { var, value, body } = &core.form else {
        return Ok(Some(core));
    };
    if has_cell(run, a, *var) {
        return Ok(Some(core));
    }
    match at_once(run, a, value, run.left - 1) {
        None => Ok(Some(core)),
        Some((found, left)) => {
            run.left = left;
            match declare(run, a, *var, found)? {
                None => Err(Fault::Memory),
                Some(_) => pair_or_left(run, a, body),
            }
        }
    }
}

/// The same of a block of a variable that is written, and a form without parts.
#[inline(always)]
fn pair_or_left<'a>(
    run: &mut Run<'a>,
    a: Around<'a>,
    core: &'a Core,
) -> Result<Option<&'a Core>, Fault>
    ensures { IfOk result (λ o. MatchOption o (IsDone a.entry core.now run.old.left run.old run.new) (λ more. IsLeft a.entry core.now more.now run.old run.new)) }
{
    if run.left == 0 {
        return Ok(Some(core));
    }
    let Form::Block(forms) = &core.form else {
        return Ok(Some(core));
    };
    let Some((first, rest)) = first_form(forms.as_slice()) else {
        return Ok(Some(core));
    };
    let Some((second, others)) = first_form(rest) else {
        return Ok(Some(core));
    };
    let None = first_form(others) else {
        return Ok(Some(core));
    };
    let left = run.left - 1;
    if !written(run, a, first, left)? {
        return Ok(Some(core));
    }
    Ok(read_or_left(run, a, second))
}

/// A variable that is written with a value that is answered at once, where so many steps are left, is so; else nothing is done.
fn written<'a>(run: &mut Run<'a>, a: Around<'a>, core: &Core, left: u64) -> Result<bool, Fault>
    ensures done { IfOk result (λ b. b ≡ true → IsDone a.entry core.now left run.old run.new) }
    ensures stays { IfOk result (λ b. b ≡ false → run.new ≡ run.old) }
{
    if left == 0 {
        return Ok(false);
    }
    let Form::Unary(one, operand) = &core.form else {
        return Ok(false);
    };
    let Unary::Write(var) = one else {
        return Ok(false);
    };
    if is_closure(operand) {
        return Ok(false);
    }
    match at_once(run, a, operand, left - 1) {
        None => Ok(false),
        Some((value, after)) => {
            run.left = after;
            write_variable(run, a, *var, value)?;
            run.answer = value;
            Ok(true)
        }
    }
}
