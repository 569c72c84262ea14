// What is done with one operand, and with two.
ghost use Rattle.std.specs.Prelude.{nat_lt, slice_get, IfSome, ◌≡◌, ◌≢◌, ◌≤◌, ◌<◌, ◌+◌, ◌∷◌, [], Some, None, true, false, length, IfOk};
ghost use Rattle.dart_ir.specs.Classes.{IsValid};
ghost use Rattle.dart_ir.specs.declared.value.Value.TheVariants.{Null, At};
ghost use Rattle.dart_store.specs.Heap.{with_static};
ghost use Rattle.core_program.specs.View as v;
ghost use Rattle.evaluation.specs.State.{State, Outcome, Completion, answer, ends};
ghost use Rattle.evaluation.specs.Evaluation.{unary, binary, declared_with};
ghost use Rattle.evaluation.specs.Invocation as call;
ghost use Rattle.evaluation.specs.Variables as x;
ghost use Rattle.machine_frame.specs.Outside.{setting_of, world_in};
ghost use Rattle.machine_frame.specs.Frames.{seen, going, does, room, work, value_or_full};
ghost use Rattle.machine_form.specs.Stored.{WritesField};

use core_program::form::{Binary, Unary};
use dart_base::place::Place;
use dart_ir::number::Ref;
use dart_ir::value::Value;
use dart_store::store::Static;
use machine_call::sends::{equal, get_from, set_from};
use machine_frame::around::{Around, Fault};
use machine_frame::moves::answer;
use machine_frame::objects::{class_of, field_total};
use machine_frame::run::{Control, Exit, Limit, Run};
use machine_frame::variables::{declare, write_variable};
use machine_loop::operators::equality;
use machine_value::checks::check;
use machine_value::errors::throw_value;

/// What is done with an operand's answer.
#[inline(always)]
pub fn finish_unary<'a>(
    run: &mut Run<'a>,
    a: Around<'a>,
    at: Place,
    is_function: bool,
    one: Unary,
    value: Value,
) -> Result<Control<'a>, Fault>
    requires valid { IsValid a.program.now.classes }
    ensures meaning { IfOk result (λ c. going a.entry run.new c ≡ does a.entry run.old (λ w. unary w at is_function (v.unary one) value)) }
    ensures less { IfOk result (λ c. work run.new c < room run.old + 6) }
{
    match one {
        Unary::Var(var) => declare_with(run, a, is_function, var, value),
        Unary::Write(var) => write(run, a, var, value),
        Unary::StaticWrite(d) => static_write(run, a, d.0, value),
        Unary::FieldWrite(index) => field_write(run, a, index, value),
        Unary::Get(name) => {
            let class = class_of(run, a, value);
            get_from(run, a, at, class, name.0, value)
        }
        Unary::Check(site) => check(run, a, site.0, value),
        Unary::Throw => throw_value(run, a, at, value),
    }
}

/// A variable with a value; that of a local function is there already.
#[inline(always)]
fn declare_with<'a>(
    run: &mut Run<'a>,
    a: Around<'a>,
    is_function: bool,
    var: u32,
    value: Value,
) -> Result<Control<'a>, Fault>
    ensures meaning { IfOk result (λ c. going a.entry run.new c ≡ does a.entry run.old (λ w. declared_with w.setting is_function var value)) }
    ensures less { IfOk result (λ c. work run.new c < room run.old + 6) }
{
    if is_function {
        return write(run, a, var, value);
    }
    match declare(run, a, var, value)? {
        None => Ok(Control::Leave(Exit::Over(Limit::OutOfObjects))),
        Some(held) => Ok(answer(run, a, held)),
    }
}

#[inline(always)]
fn write<'a>(run: &mut Run<'a>, a: Around<'a>, var: u32, value: Value) -> Result<Control<'a>, Fault>
    ensures meaning { IfOk result (λ c. going a.entry run.new c ≡ does a.entry run.old (λ w. x.write w.setting var value)) }
    ensures less { IfOk result (λ c. work run.new c < room run.old + 6) }
{
    write_variable(run, a, var, value)?;
    Ok(answer(run, a, value))
}

/// A static variable is written. What is written while its initialiser runs is lost.
fn static_write<'a>(
    run: &mut Run<'a>,
    a: Around<'a>,
    d: u32,
    value: Value,
) -> Result<Control<'a>, Fault>
    ensures meaning { IfOk result (λ c. going a.entry run.new c ≡ does a.entry run.old (λ w. x.static_write d value)) }
    ensures less { IfOk result (λ c. work run.new c < room run.old + 6) }
{
    match run.store.static_at(d) {
        Static::Starting => Ok(answer(run, a, value)),
        Static::Unset => Ok(hold(run, a, d, value)),
        Static::Holds(_) => Ok(hold(run, a, d, value)),
    }
}

fn hold<'a>(run: &mut Run<'a>, a: Around<'a>, d: u32, value: Value) -> Control<'a>
    ensures meaning { going a.entry run.new result ≡ does a.entry run.old (λ w st. ends (answer value) (record st { heap = with_static st.heap d (Static.Holds value) })) }
    ensures less { work run.new result < room run.old + 6 }
{
    run.store.set_static(d, Static::Holds(value));
    run.answer = value;
    Control::Leave(Exit::Answered)
}

/// A field of `this` is written.
#[tactic(auto, using(machine_frame::proofs::Steps::none_below))]
fn field_write<'a>(
    run: &mut Run<'a>,
    a: Around<'a>,
    index: u32,
    value: Value,
) -> Result<Control<'a>, Fault>
    ensures meaning { IfOk result (λ c. going a.entry run.new c ≡ does a.entry run.old (λ w. x.field_write index value)) }
    ensures less { IfOk result (λ c. work run.new c < room run.old + 6) }
{
    match run.body.this {
        Value::Null => Ok(answer(run, a, Value::Null)),
        Value::Bool(_) => Ok(answer(run, a, Value::Null)),
        Value::Int { high: _, low: _ } => Ok(answer(run, a, Value::Null)),
        Value::Literal(_) => Ok(answer(run, a, Value::Null)),
        Value::Code(_) => Ok(answer(run, a, Value::Null)),
        Value::At(r) => Ok(write_field(run, a, r, index, value)),
    }
}

/// A field of an object is written, where it has one of that number.
#[inline(always)]
fn write_field<'a>(
    run: &mut Run<'a>,
    a: Around<'a>,
    r: Ref,
    index: u32,
    value: Value,
) -> Control<'a>
    ensures meaning { going a.entry run.new result ≡ does a.entry run.old (λ w. x.field_written (nat_lt index (x.field_total (slice_get run.old.store.objects r.0))) (At r) index value) }
    ensures less { work run.new result < room run.old + 6 }
{
    if index as usize >= field_total(&run.store, r) {
        return answer(run, a, Value::Null);
    }
    run.store.set_field(r, index, value);
    answer(run, a, value)
}

/// What is done with two operands' answers.
#[inline(always)]
pub fn finish_binary<'a>(
    run: &mut Run<'a>,
    a: Around<'a>,
    at: Place,
    one: Binary,
    first: Value,
    second: Value,
) -> Result<Control<'a>, Fault>
    requires valid { IsValid a.program.now.classes }
    ensures meaning { IfOk result (λ c. going a.entry run.new c ≡ does a.entry run.old (λ w. binary w at (v.binary one) first second)) }
    ensures less { IfOk result (λ c. work run.new c < room run.old + 10) }
{
    match one {
        Binary::Equal => equal_operands(run, a, at, first, second),
        Binary::Set(name) => set_operands(run, a, at, name.0, first, second),
    }
}

/// A setter of an object is called; one that writes a field does so at once.
fn set_operands<'a>(
    run: &mut Run<'a>,
    a: Around<'a>,
    at: Place,
    name: u32,
    object: Value,
    value: Value,
) -> Result<Control<'a>, Fault>
    requires valid { IsValid a.program.now.classes }
    ensures meaning { IfOk result (λ c. going a.entry run.new c ≡ does a.entry run.old (λ w. call.set w at name object value)) }
    ensures less { IfOk result (λ c. work run.new c < room run.old + 10) }
{
    let class = class_of(run, a, object);
    match field_to_write(run, a, class, name, object) {
        None => set_from(run, a, at, class, name, object, value),
        Some((r, index)) => {
            run.left -= 3;
            run.store.set_field(r, index, value);
            Ok(answer(run, a, value))
        }
    }
}

/// The object and its field that a setter writes which is called in production with the steps that it takes. `None` says nothing.
fn field_to_write(run: &Run, a: Around, class: u32, name: u32, object: Value) -> Option<(Ref, u32)>
    ensures object { IfSome result (λ p. object ≡ At p.0) }
    ensures field { IfSome result (λ p. nat_lt p.1 (x.field_total (slice_get run.now.store.objects p.0.0)) ≡ true) }
    ensures writes { IfSome result (λ p. WritesField a.entry class name p.1) }
    ensures enters { IfSome result (λ p. (run.now.depth ≢ 0) × (3 ≤ run.now.left)) }
{
    if run.depth == 0 || run.left < 3 {
        return None;
    }
    let Value::At(r) = object else {
        return None;
    };
    let Some(index) = field_written(a, class, name) else {
        return None;
    };
    if index as usize >= field_total(&run.store, r) {
        return None;
    }
    Some((r, index))
}

/// The field that a setter of objects of a class writes, in production. `None` says nothing.
#[tactic(auto, using(machine_loop::proofs::Written::found_writing))]
#[inline(always)]
fn field_written(a: Around, class: u32, name: u32) -> Option<u32>
    ensures { IfSome result (λ i. WritesField a.entry class name i) }
{
    let None = a.setup.annotated else {
        return None;
    };
    let Some(found) = a.program.found(class, name) else {
        return None;
    };
    found.writes
}

/// Two operands are compared; integers are at once.
#[tactic(auto, using(machine_loop::proofs::Operated::answered_at_once))]
#[inline(always)]
fn equal_operands<'a>(
    run: &mut Run<'a>,
    a: Around<'a>,
    at: Place,
    first: Value,
    second: Value,
) -> Result<Control<'a>, Fault>
    requires valid { IsValid a.program.now.classes }
    ensures meaning { IfOk result (λ c. going a.entry run.new c ≡ does a.entry run.old (λ w. call.equal w at first second)) }
    ensures less { IfOk result (λ c. work run.new c < room run.old + 10) }
{
    match equality(run, a, first, second, run.left) {
        None => equal(run, a, at, first, second),
        Some((value, left)) => {
            run.left = left;
            run.answer = value;
            Ok(Control::Leave(Exit::Answered))
        }
    }
}
