// New lists.
ghost use Rattle.std.specs.Prelude.{◌≡◌, true, false, [], ◌∷◌, map, replicate, IfOk, OnErr};
ghost use Rattle.dart_ir.specs.Ty.{ty};
ghost use Rattle.dart_ir.specs.Object.{list};
ghost use Rattle.native_base.specs.Plan.{makes, outcome, done, full as no_room};
ghost use Rattle.native_base.specs.Planned.{planned};
ghost use Rattle.native_list.specs.List as spec;

use crate::room::room_for;
use dart_ir::kind::ThrowKind;
use dart_ir::native::Answer;
use dart_ir::object::Object;
use dart_ir::types::{TypeRef, Types};
use dart_ir::value::Value;
use dart_ir::values::Values;
use dart_store::store::{Store, StoreFault};
use native_base::plan::{Planned, carry_out};
use native_number::number::number_of;
use std::alloc::{AllocError, Global};

// The first type, or `dynamic`.
#[tactic(auto, using(dart_ir::proofs::View::views))]
fn first_type(alloc: Global, types: &[TypeRef]) -> Result<TypeRef, AllocError>
    ensures { IfOk result (λ t. ty t ∷ [] ≡ spec.type_argument (map ty types.now)) }
{
    match types {
        [] => Ok(TypeRef::Dynamic),
        [first, ..] => first.try_clone(alloc),
    }
}

// The one type argument of a list.
fn type_argument(alloc: Global, types: &[TypeRef]) -> Result<Types, AllocError>
    ensures { IfOk result (λ args. map ty args.items ≡ spec.type_argument (map ty types.now)) }
{
    let mut args = Vec::new(alloc);
    args.push(first_type(alloc, types)?)?;
    Ok(args)
}

// So many nulls.
fn nulls(alloc: Global, count: u32) -> Result<Values, AllocError>
    ensures { IfOk result (λ values. values ≡ replicate count Value.Null) }
{
    let mut items = Vec::with_capacity(alloc, count as usize)?;
    for _added in 0..count {
        items.push(Value::Null)?;
    }
    Ok(Values::from_vec(items))
}

// An empty list that grows.
fn growable(alloc: Global, types: &[TypeRef]) -> Result<Planned, AllocError>
    ensures { IfOk result (λ plan. planned plan ≡ makes (list (spec.type_argument (map ty types.now)) [] false)) }
{
    Ok(Planned::Makes(Object::List {
        args: type_argument(alloc, types)?,
        items: Values::new(alloc),
        fixed: false,
    }))
}

// So many nulls, whose number can't change.
fn fixed(alloc: Global, types: &[TypeRef], count: u32) -> Result<Planned, AllocError>
    ensures { IfOk result (λ plan. planned plan ≡ makes (list (spec.type_argument (map ty types.now)) (replicate count Value.Null) true)) }
{
    Ok(Planned::Makes(Object::List {
        args: type_argument(alloc, types)?,
        items: nulls(alloc, count)?,
        fixed: true,
    }))
}

// A list of as many nulls as the number says.
fn of_length(
    alloc: Global,
    types: &[TypeRef],
    store: &mut Store,
    count: i128,
) -> Result<Answer, StoreFault>
    ensures done { IfOk result (λ answer. outcome store.old (spec.nulls (map ty types.now) count) ≡ done answer store.new) }
    ensures full { result ≡ Err StoreFault.Full → outcome store.old (spec.nulls (map ty types.now) count) ≡ no_room }
    ensures refused { OnErr result (store.new ≡ store.old) }
{
    if count < 0 {
        return Ok(Answer::Throw(ThrowKind::ArgumentError));
    }
    let count = count as u128;
    if !room_for(store, count + 1) {
        return Err(StoreFault::Full);
    }
    let plan = fixed(alloc, types, count as u32)?;
    carry_out(plan, store)
}

/// A new list: an empty one that grows without a length, and else of so many nulls.
pub fn new_list(
    alloc: Global,
    types: &[TypeRef],
    store: &mut Store,
    length: Value,
) -> Result<Answer, StoreFault>
    ensures done { IfOk result (λ answer. outcome store.old (spec.new_list (map ty types.now) length) ≡ done answer store.new) }
    ensures full { result ≡ Err StoreFault.Full → outcome store.old (spec.new_list (map ty types.now) length) ≡ no_room }
    ensures refused { OnErr result (store.new ≡ store.old) }
{
    if length == Value::Null {
        let plan = growable(alloc, types)?;
        return carry_out(plan, store);
    }
    match number_of(length) {
        Some(count) => of_length(alloc, types, store, count),
        None => Ok(Answer::Throw(ThrowKind::ArgumentError)),
    }
}
