// Operators, comparisons, checks and getters that are answered at once, without a frame (ECMA-408, 16.17 Method Invocation).
#![tactic(auto)]

ghost use Rattle.std.specs.Prelude.{◌≡◌, ◌≤◌, ◌<◌, ◌∷◌, [], ℕ, Some, true, false, IfSome};
ghost use Rattle.core_program.specs.ProgramView as p;
ghost use Rattle.core_program.specs.View as v;
ghost use Rattle.evaluation.specs.Arguments.{alone};
ghost use Rattle.core_program.specs.declared.form.Form.TheViews.{out-Arguments, out-Core};
ghost use Rattle.evaluation.specs.Evaluation.{eval, row};
ghost use Rattle.evaluation.specs.Invocation.{send, get, equal};
ghost use Rattle.evaluation.specs.Parts.{is_join};
ghost use Rattle.evaluation.specs.State.{Outcome, Completion, answer, ends};
ghost use Rattle.dart_store.specs.Heap.{Heap};
ghost use Rattle.machine_frame.specs.declared.around.Around.{Around as AroundOf};
ghost use Rattle.machine_frame.specs.Outside.{world_in, IsAdmitted};
ghost use Rattle.machine_frame.specs.Frames.{seen, mute};
ghost use Rattle.machine_lookup.specs.Shapes.{operator, operand_site};
ghost use Rattle.machine_lookup.specs.Found.{reading};
ghost use Rattle.machine_loop.specs.Operator.{AnswersAtOnce, ReadsAtOnce, IsReading};

use crate::passing::bare;
use crate::quick::{leaf_quick, native_value, small_value};
use core_program::form::{Arguments, Binary, Core, Form, Job, Unary};
use dart_base::place::Place;
use dart_ir::native::NativeId;
use dart_ir::value::{Value, integer_value};
use dart_store::store::{Kind, Store};
use machine_frame::around::Around;
use machine_frame::objects::{class_of, field_of};
use machine_frame::run::Run;
use machine_frame::sites::admits;
use machine_lookup::linked::Linked;
use machine_lookup::program::is_closure;
use machine_lookup::row::first_form;
use machine_lookup::shapes::Reads;
use native_base::argument::place;
use native_number::number::number_of;

// Whether two values are the same integer. `None` where one is none.
fn equal_integers(x: Value, y: Value) -> Option<bool>
    ensures { IfSome result (λ b. (a : AroundOf) (h : Heap) → AnswersAtOnce a NativeId.ObjectEqual x y h (Value.Bool b)) }
{
    let Value::Int { high, low } = x else {
        return None;
    };
    let Value::Int {
        high: other_high,
        low: other_low,
    } = y
    else {
        return None;
    };
    Some(high == other_high && low == other_low)
}

// The item of a list at an index. `None` says nothing.
#[tactic(auto, using(crate::proofs::Listed::item_at_once))]
fn item_at_once(store: &Store, list: Value, index: Value) -> Option<Value>
    ensures { IfSome result (λ u. (a : AroundOf) → AnswersAtOnce a NativeId.ListIndex list index store.now u) }
{
    let Value::At(r) = list else {
        return None;
    };
    let Kind::List(_) = store.kind(r) else {
        return None;
    };
    let Some(number) = number_of(index) else {
        return None;
    };
    let Some(at) = place(store.length(r), number) else {
        return None;
    };
    match u32::try_from(at) {
        Err(_) => None,
        Ok(at) => Some(store.field(r, at)),
    }
}

// How many items a list has. `None` says nothing.
#[tactic(auto, using(crate::proofs::Listed::length_at_once))]
fn length_at_once(store: &Store, list: Value) -> Option<Value>
    ensures { IfSome result (λ u. (a : AroundOf) → ReadsAtOnce a NativeId.ListLength list store.now u) }
{
    let Value::At(r) = list else {
        return None;
    };
    let Kind::List(_) = store.kind(r) else {
        return None;
    };
    Some(integer_value(store.length(r) as i128))
}

// What a native of two values answers that only reads. `None` says nothing.
#[tactic(auto, using(crate::proofs::Operated::number_at_once))]
#[inline(always)]
fn answer_at_once(run: &Run, a: Around, id: NativeId, x: Value, y: Value) -> Option<Value>
    ensures { IfSome result (λ u. AnswersAtOnce a.entry id x y run.now.store u) }
{
    match id {
        NativeId::ObjectEqual => match equal_integers(x, y) {
            None => None,
            Some(is_same) => Some(Value::Bool(is_same)),
        },
        NativeId::ListIndex => match item_at_once(&run.store, x, y) {
            None => None,
            Some(item) => Some(item),
        },
        _ => native_value(id, x, y),
    }
}

/// What an operator answers that is called with a value and only reads, and the steps left after it. `None` says nothing.
#[tactic(auto, using(crate::proofs::Operated::operated))]
#[inline(always)]
pub fn operated(
    run: &Run,
    a: Around,
    name: u32,
    this: Value,
    value: Value,
    left: u64,
) -> Option<(Value, u64)>
    ensures value { IfSome result (λ r. (at : Place) → mute (send (world_in a.entry run.now.depth) at name this (alone value) (record (seen run.now) { left = left }))
        ≡ mute (ends (answer r.0) (record (seen run.now) { left = r.1 }))) }
    ensures less { IfSome result (λ r. r.1 < left) }
{
    if run.depth == 0 || left < 4 {
        return None;
    }
    let class = class_of(run, a, this);
    let Some((id, operand)) = operator(a.program, class, name) else {
        return None;
    };
    if !takes(run, a, operand, value) {
        return None;
    }
    if let Some(answer) = small_value(id, this, value) {
        return Some((answer, left - 4));
    }
    match answer_at_once(run, a, id, this, value) {
        None => None,
        Some(answer) => Some((answer, left - 4)),
    }
}

// Whether a value surely goes on from the site of an operator's parameter, where there is one. `false` says nothing.
#[inline(always)]
fn takes(run: &Run, a: Around, operand: Option<u32>, value: Value) -> bool
    ensures { result ≡ true → (n : ℕ) → operand ≡ Some n → IsAdmitted a.entry run.now.store n value }
{
    match operand {
        None => true,
        Some(number) => admits(run, a, number, value),
    }
}

// The native that the operator of the name is on objects of a class, and the site of its parameter. `None` says nothing.
#[tactic(auto, using(crate::proofs::Operated::found_operator, crate::proofs::Operated::found_operand))]
#[inline(always)]
fn operator(program: &Linked, class: u32, name: u32) -> Option<(NativeId, Option<u32>)>
    ensures native { IfSome result (λ o. operator (p.program program.now) class name ≡ Some o.0) }
    ensures operand { IfSome result (λ o. operand_site (p.program program.now) class name ≡ o.1) }
{
    let Some(found) = program.found(class, name) else {
        return None;
    };
    match found.operator {
        None => None,
        Some(id) => Some((id, found.operand)),
    }
}

// What the getter of the name reads on objects of a class that have no method of that name. `None` says nothing.
#[tactic(auto, using(crate::proofs::Got::found_reading))]
#[inline(always)]
fn reading(program: &Linked, class: u32, name: u32) -> Option<Reads>
    ensures { IfSome result (λ x. IsReading (p.program program.now) class name (reading x)) }
{
    let Some(found) = program.found(class, name) else {
        return None;
    };
    let None = found.method else {
        return None;
    };
    found.reads
}

// What a getter answers that reads a field or is a native that only reads, and the steps left after it. `None` says nothing.
#[tactic(auto, using(crate::proofs::Got::field_got, crate::proofs::Got::native_got))]
#[inline(always)]
fn got(run: &Run, a: Around, name: u32, this: Value, left: u64) -> Option<(Value, u64)>
    ensures value { IfSome result (λ r. (at : Place) → mute (get (world_in a.entry run.now.depth) at name this (record (seen run.now) { left = left }))
        ≡ mute (ends (answer r.0) (record (seen run.now) { left = r.1 }))) }
    ensures less { IfSome result (λ r. r.1 < left) }
{
    if run.depth == 0 || left < 2 {
        return None;
    }
    let class = class_of(run, a, this);
    match reading(a.program, class, name) {
        None => None,
        Some(Reads::Field(index)) => Some((field_of(&run.store, this, index), left - 1)),
        Some(Reads::Native(id)) => match read_at_once(run, a, id, this) {
            None => None,
            Some(value) => Some((value, left - 2)),
        },
    }
}

// What a native of `this` answers that only reads. `None` says nothing.
#[inline(always)]
fn read_at_once(run: &Run, a: Around, id: NativeId, this: Value) -> Option<Value>
    ensures { IfSome result (λ u. ReadsAtOnce a.entry id this run.now.store u) }
{
    match id {
        NativeId::ListLength => match length_at_once(&run.store, this) {
            None => None,
            Some(length) => Some(length),
        },
        _ => None,
    }
}

/// How deep the operands of a form nest that is answered at once, at most.
const NESTING: u32 = 5;

// Both operands, where there are two and none goes by a name.
#[inline(always)]
fn two_operands(arguments: &Arguments) -> Option<(&Core, &Core)>
    ensures { IfSome result (λ p. ((out-Arguments arguments.now).forms.items ≡ p.0.now ∷ p.1.now ∷ []) × ((out-Arguments arguments.now).names.items ≡ [])) }
{
    if arguments.names.len() != 0 {
        return None;
    }
    let Some((first, rest)) = first_form(arguments.forms.as_slice()) else {
        return None;
    };
    let Some((second, none)) = first_form(rest) else {
        return None;
    };
    match first_form(none) {
        None => Some((first, second)),
        Some(_) => None,
    }
}

// Whether a row may be answered at once, by what is done with it.
#[inline(always)]
fn is_operation(job: Job) -> bool {
    match job {
        Job::Native(_) => true,
        Job::Send(_) => true,
        _ => false,
    }
}

// What is done with two operands that are there: a native of numbers, or an operator of an integer. `None` says nothing.
#[tactic(auto, using(crate::proofs::Operated::native_done))]
#[inline(always)]
fn operation(run: &Run, a: Around, job: Job, x: Value, y: Value, left: u64) -> Option<(Value, u64)>
    ensures value { IfSome result (λ r. (at : Place) → mute (row (world_in a.entry run.now.depth) at (v.job job) [] (x ∷ y ∷ []) (record (seen run.now) { left = left }))
        ≡ mute (ends (answer r.0) (record (seen run.now) { left = r.1 }))) }
    ensures operates { IfSome result (λ r. is_join (v.job job) ≡ false) }
    ensures less { IfSome result (λ r. r.1 ≤ left) }
{
    match job {
        Job::Native(id) => match native_value(id, x, y) {
            None => None,
            Some(value) => Some((value, left)),
        },
        Job::Send(name) => match operated(run, a, name.0, x, y, left) {
            None => None,
            Some((value, after)) => Some((value, after)),
        },
        _ => None,
    }
}

/// Whether two integers are equal, and the steps left after the call of `==` (ECMA-408, 16.24 Equality). `None` says nothing.
pub fn equality(run: &Run, a: Around, x: Value, y: Value, left: u64) -> Option<(Value, u64)>
    ensures value { IfSome result (λ r. (at : Place) → mute (equal (world_in a.entry run.now.depth) at x y (record (seen run.now) { left = left }))
        ≡ mute (ends (answer r.0) (record (seen run.now) { left = r.1 }))) }
    ensures less { IfSome result (λ r. r.1 ≤ left) }
{
    let Value::Int { high: _, low: _ } = x else {
        return None;
    };
    let Value::Int { high: _, low: _ } = y else {
        return None;
    };
    operated(run, a, a.setup.known.equals.0, x, y, left)
}

/// A form that is answered at once, with the steps left after it: one without parts, a native of numbers, an operator that only reads,
/// a comparison of integers, a getter that only reads, or a value that surely goes on from a site, with such operands. `None` says nothing.
pub fn at_once(run: &Run, a: Around, core: &Core, left: u64) -> Option<(Value, u64)>
    ensures value { IfSome result (λ p. mute (eval (v.core core.now) (world_in a.entry run.now.depth) (record (seen run.now) { left = left }))
        ≡ mute (ends (answer p.0) (record (seen run.now) { left = p.1 }))) }
    ensures less { IfSome result (λ p. p.1 < left) }
{
    operand_within(run, a, core, left, NESTING)
}

// The same of a form whose operands nest no deeper.
#[cycle(nesting)]
fn within(run: &Run, a: Around, core: &Core, left: u64, nesting: u32) -> Option<(Value, u64)>
    ensures value { IfSome result (λ p. mute (eval (v.core core.now) (world_in a.entry run.now.depth) (record (seen run.now) { left = left }))
        ≡ mute (ends (answer p.0) (record (seen run.now) { left = p.1 }))) }
    ensures less { IfSome result (λ p. p.1 < left) }
{
    match &core.form {
        Form::Leaf(_) => leaf_quick(run, a, core, left),
        Form::Row(_, _) => row_within(run, a, core, left, nesting),
        Form::Binary(_, _, _) => equal_within(run, a, core, left, nesting),
        Form::Unary(_, _) => unary_within(run, a, core, left, nesting),
        _ => None,
    }
}

// The same, where sites that production passes by and a form without parts are looked at first.
#[cycle(nesting)]
#[inline(always)]
fn operand_within(
    run: &Run,
    a: Around,
    core: &Core,
    left: u64,
    nesting: u32,
) -> Option<(Value, u64)>
    ensures value { IfSome result (λ p. mute (eval (v.core core.now) (world_in a.entry run.now.depth) (record (seen run.now) { left = left }))
        ≡ mute (ends (answer p.0) (record (seen run.now) { left = p.1 }))) }
    ensures less { IfSome result (λ p. p.1 < left) }
{
    let (inner, rest) = bare(a, core, left);
    match &inner.form {
        Form::Leaf(_) => leaf_quick(run, a, inner, rest),
        _ => within(run, a, inner, rest, nesting),
    }
}

// The same of a row. It has a function of its own, so that its parts take no room where there are none.
#[cycle(nesting)]
#[inline(never)]
fn row_within(run: &Run, a: Around, core: &Core, left: u64, nesting: u32) -> Option<(Value, u64)>
    ensures value { IfSome result (λ p. mute (eval (v.core core.now) (world_in a.entry run.now.depth) (record (seen run.now) { left = left }))
        ≡ mute (ends (answer p.0) (record (seen run.now) { left = p.1 }))) }
    ensures less { IfSome result (λ p. p.1 < left) }
{
    if left == 0 || nesting == 0 {
        return None;
    }
    let Form::Row(job, arguments) = &core.form else {
        return None;
    };
    if !is_operation(*job) {
        return None;
    }
    let (first, second) = two_operands(arguments)?;
    let (x, middle) = operand_within(run, a, first, left - 1, nesting - 1)?;
    let (y, after) = operand_within(run, a, second, middle, nesting - 1)?;
    operation(run, a, *job, x, y, after)
}

// The same of a comparison.
#[cycle(nesting)]
#[inline(never)]
fn equal_within(run: &Run, a: Around, core: &Core, left: u64, nesting: u32) -> Option<(Value, u64)>
    ensures value { IfSome result (λ p. mute (eval (v.core core.now) (world_in a.entry run.now.depth) (record (seen run.now) { left = left }))
        ≡ mute (ends (answer p.0) (record (seen run.now) { left = p.1 }))) }
    ensures less { IfSome result (λ p. p.1 < left) }
{
    if left == 0 || nesting == 0 {
        return None;
    }
    let Form::Binary(one, first, second) = &core.form else {
        return None;
    };
    let Binary::Equal = one else {
        return None;
    };
    let (x, middle) = operand_within(run, a, first, left - 1, nesting - 1)?;
    let (y, after) = operand_within(run, a, second, middle, nesting - 1)?;
    equality(run, a, x, y, after)
}

// The same of a value that comes to a site, and of a getter.
#[cycle(nesting)]
#[inline(never)]
fn unary_within(run: &Run, a: Around, core: &Core, left: u64, nesting: u32) -> Option<(Value, u64)>
    ensures value { IfSome result (λ p. mute (eval (v.core core.now) (world_in a.entry run.now.depth) (record (seen run.now) { left = left }))
        ≡ mute (ends (answer p.0) (record (seen run.now) { left = p.1 }))) }
    ensures less { IfSome result (λ p. p.1 < left) }
{
    if left == 0 || nesting == 0 {
        return None;
    }
    let Form::Unary(one, operand) = &core.form else {
        return None;
    };
    if is_closure(operand) {
        return None;
    }
    match one {
        Unary::Check(number) => {
            let (value, after) = tested_within(run, a, operand, left - 1, nesting - 1)?;
            if !admits(run, a, number.0, value) {
                return None;
            }
            Some((value, after))
        }
        Unary::Get(name) => {
            let (this, after) = operand_within(run, a, operand, left - 1, nesting - 1)?;
            got(run, a, name.0, this, after)
        }
        _ => None,
    }
}

// The same of a form whose value comes to a site, as a condition's comes to two.
#[cycle(nesting)]
#[inline(always)]
fn tested_within(run: &Run, a: Around, core: &Core, left: u64, nesting: u32) -> Option<(Value, u64)>
    ensures value { IfSome result (λ p. mute (eval (v.core core.now) (world_in a.entry run.now.depth) (record (seen run.now) { left = left }))
        ≡ mute (ends (answer p.0) (record (seen run.now) { left = p.1 }))) }
    ensures less { IfSome result (λ p. p.1 < left) }
{
    match &core.form {
        Form::Unary(Unary::Check(_), _) => checked_within(run, a, core, left, nesting),
        _ => operand_within(run, a, core, left, nesting),
    }
}

// The same of a value that comes to a site.
#[cycle(nesting)]
#[inline(always)]
fn checked_within(
    run: &Run,
    a: Around,
    core: &Core,
    left: u64,
    nesting: u32,
) -> Option<(Value, u64)>
    ensures value { IfSome result (λ p. mute (eval (v.core core.now) (world_in a.entry run.now.depth) (record (seen run.now) { left = left }))
        ≡ mute (ends (answer p.0) (record (seen run.now) { left = p.1 }))) }
    ensures less { IfSome result (λ p. p.1 < left) }
{
    if left == 0 || nesting == 0 {
        return None;
    }
    let Form::Unary(one, operand) = &core.form else {
        return None;
    };
    let Unary::Check(number) = one else {
        return None;
    };
    if is_closure(operand) {
        return None;
    }
    let (value, after) = operand_within(run, a, operand, left - 1, nesting - 1)?;
    if !admits(run, a, number.0, value) {
        return None;
    }
    Some((value, after))
}
