// The tables of functions and variables by the numbers of their declarations.
ghost use Rattle.std.specs.Prelude.{◌≡◌, [], map, IfOk};
ghost use Rattle.lower_leaf.specs.Around.{Around, text};
ghost use Rattle.lower_leaf.specs.Seen as seen;
ghost use Rattle.lower_program.specs.Views.{function_slot, static_slot};
ghost use Rattle.lower_core.specs.Runnable as runnable;

use crate::slot::{function_of, static_of};
use core_program::program::{Function, StaticVar};
use dart_base::name::Name;
use std::alloc::{AllocError, Global};

/// The functions in the same order, an absent one where there is none. The name is that of the empty text.
pub fn functions_of(
    alloc: Global,
    nameless: Name,
    slots: Vec<Option<Function>>,
) -> Result<Vec<Function>, AllocError>
    ensures { IfOk result (λ made. (a : Around) → text a nameless ≡ [] → map (seen.function a) made.items
        ≡ map runnable.function (map (function_slot a) slots.items)) }
{
    let mut made = Vec::new(alloc);
    for slot in slots {
        made.push(function_of(alloc, nameless, slot))?;
    }
    Ok(made)
}

/// The variables in the same order, one without an initialiser where there is none. The name is that of the empty text.
pub fn statics_of(
    alloc: Global,
    nameless: Name,
    slots: Vec<Option<StaticVar>>,
) -> Result<Vec<StaticVar>, AllocError>
    ensures { IfOk result (λ made. (a : Around) → text a nameless ≡ [] → map (seen.static a) made.items ≡ map (static_slot a) slots.items) }
{
    let mut made = Vec::new(alloc);
    for slot in slots {
        made.push(static_of(alloc, nameless, slot))?;
    }
    Ok(made)
}
