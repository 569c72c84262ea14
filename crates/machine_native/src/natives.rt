// Natives (ECMA-408, 9.4 External Functions).
ghost use Rattle.std.specs.Prelude.{◌≡◌, ◌<◌, ◌+◌, [], true, false, Some, None, length, slice_index_or, IfOk, IfSome, IsTrue};
ghost use Rattle.machine_lookup.specs.Rows.{last_of, but_last};
ghost use Rattle.native_number.specs.Number.{number_native as spec_number_native};
ghost use Rattle.dart_native.specs.Native.{is_of_evaluator as spec_is_of_evaluator};
ghost use Rattle.evaluation.specs.Externals as spec;
ghost use Rattle.machine_frame.specs.Outside.{setting_of, world_in};
ghost use Rattle.machine_frame.specs.Frames.{seen, going, does, does_row, room, work};

use crate::known::read_of;
use crate::print::print_value;
use crate::steps::extra_steps;
use dart_base::place::Place;
use dart_ir::native::{Answer, NativeId};
use dart_ir::value::Value;
use dart_native::native::call;
use dart_store::store::StoreFault;
use machine_frame::around::{Around, Fault};
use machine_frame::moves::answer;
use machine_frame::run::{Control, Exit, Limit, Run};
use machine_frame::stacks::own_types;
use machine_lookup::row::{cut, last_of, value_at};
use machine_value::errors::throw_new;
use native_number::number::number_native;

/// A native of the last operands. Those of ports and isolates are not carried out yet.
#[tactic(auto, using(machine_frame::proofs::Natives::number_answers))]
#[inline(always)]
pub fn native<'a>(
    run: &mut Run<'a>,
    a: Around<'a>,
    at: Place,
    id: NativeId,
    count: u32,
) -> Result<Control<'a>, Fault>
    ensures meaning { IfOk result (λ c. going a.entry run.new c ≡ does_row a.entry run.old count (λ w. spec.native w.setting at id (last_of count run.old.operands.items))) }
    ensures less { IfOk result (λ c. work run.new c < room run.old + 6) }
{
    let values = last_of(run.operands.as_slice(), count);
    let first = value_at(values, 0);
    let second = value_at(values, 1);
    match number_value(id, first, second) {
        None => by_kind(run, a, at, id, count),
        Some(value) => {
            cut(&mut run.operands, count);
            Ok(answer(run, a, value))
        }
    }
}

/// What a native of numbers answers, where it is a value.
#[inline(always)]
fn number_value(id: NativeId, x: Value, y: Value) -> Option<Value>
    ensures { IfSome result (λ value. spec_number_native id x y ≡ Some (Answer.Value value)) }
{
    match number_native(id, x, y) {
        Some(Answer::Value(value)) => Some(value),
        _ => None,
    }
}

/// Whether it prints, or is of isolates or ports.
fn is_of_evaluator(id: NativeId) -> bool
    ensures { result ≡ spec_is_of_evaluator id }
{
    match id {
        NativeId::Print
        | NativeId::IsolateSpawn
        | NativeId::ReceivePortNew
        | NativeId::ReceivePortSendPort
        | NativeId::ReceivePortListen
        | NativeId::ReceivePortClose
        | NativeId::SendPortSend => true,
        _ => false,
    }
}

fn is_print(id: NativeId) -> bool
    ensures { IsTrue result → id ≡ NativeId.Print }
{
    match id {
        NativeId::Print => true,
        _ => false,
    }
}

/// A native, whatever its kind.
fn by_kind<'a>(
    run: &mut Run<'a>,
    a: Around<'a>,
    at: Place,
    id: NativeId,
    count: u32,
) -> Result<Control<'a>, Fault>
    ensures meaning { IfOk result (λ c. going a.entry run.new c ≡ does_row a.entry run.old count (λ w. spec.native w.setting at id (last_of count run.old.operands.items))) }
    ensures less { IfOk result (λ c. work run.new c < room run.old + 6) }
{
    if !is_of_evaluator(id) {
        let control = plain(run, a, at, id, count)?;
        return Ok(control);
    }
    if !is_print(id) {
        return Err(Fault::Memory);
    }
    let control = print(run, a, at, count)?;
    Ok(control)
}

/// A string is printed, once its steps are taken.
#[tactic(auto, using(crate::proofs::Carried::print_goes, crate::proofs::Carried::print_stops))]
fn print<'a>(run: &mut Run<'a>, a: Around<'a>, at: Place, count: u32) -> Result<Control<'a>, Fault>
    ensures meaning { IfOk result (λ c. going a.entry run.new c ≡ does_row a.entry run.old count (λ w. spec.native w.setting at NativeId.Print (last_of count run.old.operands.items))) }
    ensures less { IfOk result (λ c. work run.new c < room run.old + 6) }
{
    let extra = extra_steps(run, a, NativeId::Print, count)?;
    let value = value_at(last_of(run.operands.as_slice(), count), 0);
    cut(&mut run.operands, count);
    if run.left < extra {
        run.left = 0;
        return Ok(Control::Leave(Exit::Over(Limit::OutOfSteps)));
    }
    run.left -= extra;
    let control = print_value(run, a, at, value)?;
    Ok(control)
}

/// A native that the store suffices for, once its steps are taken.
#[tactic(auto, using(crate::proofs::Carried::plain_goes, crate::proofs::Carried::plain_stops))]
fn plain<'a>(
    run: &mut Run<'a>,
    a: Around<'a>,
    at: Place,
    id: NativeId,
    count: u32,
) -> Result<Control<'a>, Fault>
    requires own { spec_is_of_evaluator id ≡ false }
    ensures meaning { IfOk result (λ c. going a.entry run.new c ≡ does_row a.entry run.old count (λ w. spec.native w.setting at id (last_of count run.old.operands.items))) }
    ensures less { IfOk result (λ c. work run.new c < room run.old + 6) }
{
    let extra = extra_steps(run, a, id, count)?;
    if run.left < extra {
        cut(&mut run.operands, count);
        run.left = 0;
        return Ok(Control::Leave(Exit::Over(Limit::OutOfSteps)));
    }
    run.left -= extra;
    let control = native_call(run, a, at, id, count)?;
    Ok(control)
}

/// A native does its work in the store.
#[tactic(auto, using(crate::proofs::Carried::called, crate::proofs::Carried::filled))]
fn native_call<'a>(
    run: &mut Run<'a>,
    a: Around<'a>,
    at: Place,
    id: NativeId,
    count: u32,
) -> Result<Control<'a>, Fault>
    ensures meaning { IfOk result (λ c. going a.entry run.new c ≡ does_row a.entry run.old count (λ w st. spec.native_call w.setting.natives id st.activation.types (last_of count run.old.operands.items) (spec.native_answer w.setting at) st)) }
    ensures less { IfOk result (λ c. work run.new c < room run.old + 6) }
{
    let read = read_of(a);
    let end = call(
        run.alloc,
        id,
        own_types(run.body.has_types, run.types.as_slice()),
        last_of(run.operands.as_slice(), count),
        &read,
        &mut run.store,
    );
    cut(&mut run.operands, count);
    match end {
        Ok(outcome) => {
            let control = native_answer(run, a, at, outcome)?;
            Ok(control)
        }
        Err(fault) => match fault {
            StoreFault::Full => Ok(Control::Leave(Exit::Over(Limit::OutOfObjects))),
            StoreFault::Memory => Err(Fault::Memory),
        },
    }
}

#[inline(always)]
fn native_answer<'a>(
    run: &mut Run<'a>,
    a: Around<'a>,
    at: Place,
    outcome: Answer,
) -> Result<Control<'a>, Fault>
    ensures meaning { IfOk result (λ c. going a.entry run.new c ≡ does a.entry run.old (λ w. spec.native_answer w.setting at outcome)) }
    ensures less { IfOk result (λ c. work run.new c < room run.old + 6) }
{
    match outcome {
        Answer::Value(value) => Ok(answer(run, a, value)),
        Answer::Throw(kind) => throw_new(run, a, at, kind),
        Answer::IntegerLimit => Ok(Control::Leave(Exit::Over(Limit::IntegerLimit))),
        Answer::NeedsDouble => Ok(Control::Leave(Exit::Over(Limit::NeedsDouble))),
    }
}
