// The stacks of a run.
#![tactic(auto)]

ghost use Rattle.std.specs.Prelude.{◌≡◌, ◌∷◌, ◌++◌, [], map, IfOk};
ghost use Rattle.dart_ir.specs.Ty.{ty};
ghost use Rattle.machine_frame.specs.Frames.{types_of, types_under, last_body, bodies_under};

use crate::around::Fault;
use crate::run::{Body, Frame, NO_BODY, Run};
use dart_ir::types::{TypeRef, Types};
use dart_ir::value::Value;

/// Puts a frame on the others.
#[inline(always)]
pub fn push_frame<'a>(run: &mut Run<'a>, frame: Frame<'a>) -> Result<(), Fault>
    ensures pushed { IfOk result (λ _. run.new.frames.items ≡ run.old.frames.items ++ frame.entry ∷ []) }
    ensures stays { IfOk result (λ _. run.new ≡ record run.old { frames = run.new.frames }) }
{
    if run.frames.len() < run.frames.capacity() {
        run.frames.push_reserved(frame);
        return Ok(());
    }
    match run.frames.push(frame) {
        Ok(()) => Ok(()),
        Err(_) => Err(Fault::Memory),
    }
}

/// Puts a value on the other operands.
#[inline(always)]
pub fn push_operand(run: &mut Run, value: Value) -> Result<(), Fault>
    ensures pushed { IfOk result (λ _. run.new.operands.items ≡ run.old.operands.items ++ value ∷ []) }
    ensures stays { IfOk result (λ _. run.new ≡ record run.old { operands = run.new.operands }) }
{
    if run.operands.len() < run.operands.capacity() {
        run.operands.push_reserved(value);
        return Ok(());
    }
    match run.operands.push(value) {
        Ok(()) => Ok(()),
        Err(_) => Err(Fault::Memory),
    }
}

/// Puts the type arguments of a `new` on the others, where there are any, and says whether there are.
#[tactic(auto, using(crate::proofs::Types::own_pushed, crate::proofs::Types::under_pushed, crate::proofs::Types::none_given))]
#[inline(always)]
pub fn push_types(run: &mut Run, types: Types) -> Result<bool, Fault>
    ensures own { IfOk result (λ has. types_of has run.new.types.items ≡ map ty types.items) }
    ensures under { IfOk result (λ has. types_under has run.new.types.items ≡ run.old.types.items) }
    ensures stays { IfOk result (λ _. run.new ≡ record run.old { types = run.new.types }) }
{
    if types.is_empty() {
        return Ok(false);
    }
    match run.types.push(types) {
        Ok(()) => Ok(true),
        Err(_) => Err(Fault::Memory),
    }
}

/// Puts the body at work on the others that wait.
#[tactic(auto, using(crate::proofs::Bodies::last_pushed, crate::proofs::Bodies::under_pushed))]
#[inline(always)]
pub fn push_body(run: &mut Run) -> Result<(), Fault>
    ensures last { IfOk result (λ _. last_body run.new.callers.items ≡ run.old.body) }
    ensures under { IfOk result (λ _. bodies_under run.new.callers.items ≡ run.old.callers.items) }
    ensures stays { IfOk result (λ _. run.new ≡ record run.old { callers = run.new.callers }) }
{
    let body = run.body;
    if run.callers.len() < run.callers.capacity() {
        run.callers.push_reserved(body);
        return Ok(());
    }
    match run.callers.push(body) {
        Ok(()) => Ok(()),
        Err(_) => Err(Fault::Memory),
    }
}

/// Takes the last of the bodies that wait off the others.
#[tactic(auto, using(crate::proofs::Bodies::last_pushed, crate::proofs::Bodies::under_pushed, crate::proofs::Bodies::last_none, crate::proofs::Bodies::under_none))]
#[inline(always)]
pub fn pop_body(run: &mut Run) -> Body
    ensures last { result ≡ last_body run.old.callers.items }
    ensures under { run.new.callers.items ≡ bodies_under run.old.callers.items }
    ensures stays { run.new ≡ record run.old { callers = run.new.callers } }
{
    match run.callers.pop() {
        None => NO_BODY,
        Some(body) => body,
    }
}

/// Takes the type arguments of the body at work off the others, where it has its own.
#[inline(always)]
pub fn drop_types(run: &mut Run)
    ensures under { run.new.types.items ≡ types_under run.old.body.has_types run.old.types.items }
    ensures stays { run.new ≡ record run.old { types = run.new.types } }
{
    if run.body.has_types {
        let start = run.types.len().saturating_sub(1);
        run.types.truncate(start);
    }
}

/// The type arguments of the body at work: where it has its own, the last of these.
#[inline(always)]
pub fn own_types<'b>(has_types: bool, types: &'b [Types]) -> &'b [TypeRef]
    ensures { map ty result.now ≡ types_of has_types types.now }
{
    if !has_types {
        return &[];
    }
    match types.last() {
        None => &[],
        Some(last) => last.as_slice(),
    }
}
