// Forms without parts that are answered at once, without a frame, and natives of numbers.
#![tactic(auto)]

ghost use Rattle.std.specs.Prelude.{◌≡◌, ◌<◌, Some, IfSome};
ghost use Rattle.dart_ir.specs.declared.value.Value.TheVariants.{Int};
ghost use Rattle.dart_store.specs.Heap.{static_at};
ghost use Rattle.core_program.specs.View as v;
ghost use Rattle.evaluation.specs.State.{State, Outcome, Completion, answer, ends, World};
ghost use Rattle.evaluation.specs.Evaluation.{eval, leaf};
ghost use Rattle.native_number.specs.Number.{number_native};
ghost use Rattle.machine_frame.specs.Outside.{setting_of, world_in};
ghost use Rattle.machine_frame.specs.Frames.{seen};

use crate::words::of_words;
use core_program::form::{Core, Form, Leaf};
use dart_base::place::Place;
use dart_ir::native::{Answer, NativeId};
use dart_ir::value::Value;
use dart_store::store::Static;
use machine_frame::around::Around;
use machine_frame::objects::field_of;
use machine_frame::run::Run;
use machine_frame::variables::read_variable;
use native_number::number::number_native;

/// What a form without parts answers, where it only reads, and the steps left. `None` says nothing.
#[inline(always)]
fn leaf_value(run: &Run, a: Around, at: Place, one: Leaf, left: u64) -> Option<(Value, u64)>
    ensures value { IfSome result (λ p. leaf (world_in a.entry run.now.depth) at (v.leaf one) (record (seen run.now) { left = left })
        ≡ ends (answer p.0) (record (seen run.now) { left = p.1 })) }
    ensures same { IfSome result (λ p. p.1 ≡ left) }
{
    match one {
        Leaf::Const(value) => Some((value, left)),
        Leaf::This => Some((run.body.this, left)),
        Leaf::Read(var) => match read_variable(run, a, var) {
            None => None,
            Some(value) => Some((value, left)),
        },
        Leaf::StaticRead(d) => match static_value(run, d.0) {
            None => None,
            Some(value) => Some((value, left)),
        },
        Leaf::Field(index) => Some((field_of(&run.store, run.body.this, index), left)),
        _ => None,
    }
}

/// What a static variable holds. `None` where it holds nothing yet.
#[inline(always)]
fn static_value(run: &Run, d: u32) -> Option<Value>
    ensures { IfSome result (λ value. static_at run.now.store d ≡ Static.Holds value) }
{
    match run.store.static_at(d) {
        Static::Holds(value) => Some(value),
        _ => None,
    }
}

/// What a form without parts answers, with the steps left after it.
#[tactic(auto, using(core_program::proofs::Views::views, machine_frame::proofs::Quick::leaf_enters))]
#[inline(always)]
pub fn leaf_quick(run: &Run, a: Around, core: &Core, left: u64) -> Option<(Value, u64)>
    ensures value { IfSome result (λ p. eval (v.core core.now) (world_in a.entry run.now.depth) (record (seen run.now) { left = left })
        ≡ ends (answer p.0) (record (seen run.now) { left = p.1 })) }
    ensures less { IfSome result (λ p. p.1 < left) }
{
    let Form::Leaf(one) = &core.form else {
        return None;
    };
    if left == 0 {
        return None;
    }
    match leaf_value(run, a, core.place, *one, left - 1) {
        None => None,
        Some((value, after)) => Some((value, after)),
    }
}

/// What a native of numbers answers, where it is a value.
#[inline(always)]
pub fn native_value(native: NativeId, x: Value, y: Value) -> Option<Value>
    ensures { IfSome result (λ value. number_native native x y ≡ Some (Answer.Value value)) }
{
    match number_native(native, x, y) {
        Some(Answer::Value(value)) => Some(value),
        _ => None,
    }
}

/// The same of two numbers that aren't negative and have one word, as most have. `None` says nothing.
#[inline(always)]
pub fn small_value(native: NativeId, x: Value, y: Value) -> Option<Value>
    ensures { IfSome result (λ value. number_native native x y ≡ Some (Answer.Value value)) }
{
    let first = word(x)?;
    let second = word(y)?;
    of_words(native, first, second)
}

// The word of a number that isn't negative and has no other. `None` says nothing.
#[inline(always)]
fn word(value: Value) -> Option<u64>
    ensures { IfSome result (λ n. value ≡ Int 0 n) }
{
    let Value::Int { high, low } = value else {
        return None;
    };
    if high == 0 { Some(low) } else { None }
}
