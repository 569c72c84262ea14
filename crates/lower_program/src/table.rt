// What was made, by the numbers of declarations.
ghost use Rattle.std.specs.Prelude.{◌≡◌, map, replicate, set, None, Some, IfOk};
ghost use Rattle.translation.specs.Program as p;
ghost use Rattle.lower_leaf.specs.Around.{Around};
ghost use Rattle.lower_leaf.specs.Seen.{numbered_function, numbered_static};
ghost use Rattle.lower_program.specs.Views.{function_slot, static_slot};

use core_program::program::{Function, StaticVar};
use lower_leaf::fault::Want;
use lower_leaf::state::{NumberedFunction, NumberedStatic};
use std::alloc::Global;

// So many declarations, of which nothing is made yet.
fn empty_slots<T: Drop>(alloc: Global, count: u32) -> Result<Vec<Option<T>>, Want>
    ensures { IfOk result (λ made. made.items ≡ replicate count None) }
{
    let mut made = Vec::new(alloc);
    for _one in 0..count {
        made.push(None)?;
    }
    Ok(made)
}

// What a declaration is; of a number without a declaration, nothing.
fn fill_slot<T: Drop>(slots: &mut Vec<Option<T>>, number: u32, made: T)
    ensures { slots.new.items ≡ set slots.old.items number (Some made) }
{
    let index = number as usize;
    if index < slots.len() {
        slots[index] = Some(made);
    }
}

/// The functions by the numbers of their declarations, of which there are so many.
pub fn function_table(
    alloc: Global,
    count: u32,
    functions: Vec<NumberedFunction>,
) -> Result<Vec<Option<Function>>, Want>
    ensures { IfOk result (λ made. (a : Around) → map (function_slot a) made.items
        ≡ p.table p.no_function (map (numbered_function a) functions.items) count) }
{
    let mut slots = empty_slots(alloc, count)?;
    let mut left = functions;
    while let Some(one) = left.pop() {
        fill_slot(&mut slots, one.number, one.made);
    }
    Ok(slots)
}

/// The library and static variables by the numbers of their declarations, of which there are so many.
pub fn static_table(
    alloc: Global,
    count: u32,
    statics: Vec<NumberedStatic>,
) -> Result<Vec<Option<StaticVar>>, Want>
    ensures { IfOk result (λ made. (a : Around) → map (static_slot a) made.items
        ≡ p.table p.no_static (map (numbered_static a) statics.items) count) }
{
    let mut slots = empty_slots(alloc, count)?;
    let mut left = statics;
    while let Some(one) = left.pop() {
        fill_slot(&mut slots, one.number, one.made);
    }
    Ok(slots)
}
