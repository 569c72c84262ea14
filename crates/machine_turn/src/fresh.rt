// The store of a new isolate.
ghost use Rattle.std.specs.Prelude.{◌≡◌, ◌<◌, ◌≤◌, ◌+◌, ◌^◌, true, false, map, replicate, length, option_map, IfOk};
ghost use Rattle.dart_ir.specs.Object.{heap_object};
ghost use Rattle.dart_store.specs.Heap.{cost, with_object};
ghost use Rattle.core_program.specs.ProgramView as p;
ghost use Rattle.evaluation.specs.Turn.{new_heap, cost_of};
ghost use Rattle.machine_turn.specs.Turn.{with_objects};

use core_program::program::{CoreProgram, StaticVar};
use core_program::tables::try_clone_object;
use dart_ir::object::Object;
use dart_store::store::{Static, Store, StoreFault};
use machine_frame::around::Fault;
use std::alloc::Global;

/// The store of a new isolate of the program, within so many units: the constants are its first objects, and no static variable
/// was read or assigned. `None` where the constants pass the limit.
pub fn new_store(alloc: Global, program: &CoreProgram, units: u64) -> Result<Option<Store>, Fault>
    requires { units < 2 ^ 32 }
    ensures { IfOk result (λ made. made ≡ new_heap (p.program program.now) units) }
{
    let variables = program.statics.as_slice();
    let statics = unset(alloc, variables)?;
    let constants = program.constants.as_slice();
    let mut store = Store::new(alloc, statics, units);
    let all = add_constants(alloc, &mut store, constants)?;
    if all { Ok(Some(store)) } else { Ok(None) }
}

/// The static variables, none of which was read or assigned.
fn unset(alloc: Global, variables: &[StaticVar]) -> Result<Vec<Static>, Fault>
    ensures { IfOk result (λ statics. statics.items ≡ replicate (length variables.now) Static.Unset) }
{
    let mut statics = Vec::new(alloc);
    statics.resize(variables.len(), Static::Unset)?;
    Ok(statics)
}

/// Adds the constants, and says whether all are within the limit.
fn add_constants(alloc: Global, store: &mut Store, constants: &[Object]) -> Result<bool, Fault>
    requires within { store.old.used ≤ store.old.limit }
    ensures added { IfOk result (λ all. all ≡ true → store.new ≡ with_objects store.old (map heap_object constants.now)) }
    ensures room { IfOk result (λ all. all ≡ true → store.old.used + cost_of (map heap_object constants.now) ≤ store.old.limit) }
    ensures full { IfOk result (λ all. all ≡ false → store.old.limit < store.old.used + cost_of (map heap_object constants.now)) }
{
    let Some((first, rest)) = constants.split_first() else {
        return Ok(true);
    };
    if !add_constant(alloc, store, first)? {
        return Ok(false);
    }
    add_constants(alloc, store, rest)
}

/// Adds a constant, and says whether it is within the limit.
fn add_constant(alloc: Global, store: &mut Store, constant: &Object) -> Result<bool, Fault>
    ensures added { IfOk result (λ all. all ≡ true → store.new ≡ with_object store.old (heap_object constant.now)) }
    ensures room { IfOk result (λ all. all ≡ true → store.old.used + cost (heap_object constant.now) ≤ store.old.limit) }
    ensures full { IfOk result (λ all. all ≡ false → store.old.limit < store.old.used + cost (heap_object constant.now)) }
{
    let object = try_clone_object(alloc, constant)?;
    match store.add(object) {
        Ok(_) => Ok(true),
        Err(StoreFault::Full) => Ok(false),
        Err(StoreFault::Memory) => Err(Fault::Memory),
    }
}
