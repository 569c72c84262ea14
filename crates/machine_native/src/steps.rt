// The steps that natives take beside that of their form.
ghost use Rattle.std.specs.Prelude.{◌≡◌, IfOk};
ghost use Rattle.machine_lookup.specs.Rows.{last_of};
ghost use Rattle.evaluation.specs.Externals.{native_steps};
ghost use Rattle.machine_frame.specs.Outside.{setting_of};

use crate::known::read_of;
use dart_ir::native::NativeId;
use machine_frame::around::{Around, Fault};
use machine_frame::run::Run;
use machine_lookup::row::last_of;
use native_steps::steps::steps;

/// The steps of a native of the last operands. A count that no 64 bits hold is of more text than memory has room for.
#[tactic(auto, using(crate::proofs::Carried::steps_are))]
pub fn extra_steps(run: &Run, a: Around, id: NativeId, count: u32) -> Result<u64, Fault>
    ensures { IfOk result (λ extra. extra ≡ native_steps (setting_of a.entry) id (last_of count run.now.operands.items) run.now.store) }
{
    let read = read_of(a);
    let taken = steps(
        id,
        last_of(run.operands.as_slice(), count),
        &read,
        &run.store,
    );
    if taken == u64::MAX {
        return Err(Fault::Memory);
    }
    Ok(taken - 1)
}
