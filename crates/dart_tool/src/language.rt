// From the bytes of a file to what its program writes, to its text without annotations, or to the reason for which it is
// refused.
ghost use Rattle.std.specs.Prelude.{◌≡◌, ◌<◌, ◌^◌, IfOk, IfErr, false};
ghost use Rattle.dart_edge.specs.Fault.{Counts};
ghost use Rattle.dart_front.specs.Texts.{ErasesTo};
ghost use Rattle.scope_load.specs.State.{state_of};
ghost use Rattle.dart_tool.specs.Language.{GivesEnd, IsNoUnitFor, RefusedFor, Stops, stop_for};
ghost use Rattle.dart_tool.specs.Program.{EndsAs, Judges, run_failed};
ghost use Rattle.dart_tool.specs.Status.{text_refusal};

use crate::program::{RunStop, execution_refusal, load_program};
use crate::status::Refusal;
use dart_base::bytes::Bytes;
use dart_edge::source::Sources;
use dart_execute::execution::{Execution, execute};
use dart_front::erased::erased_text;
use dart_front::fault::TextFault;
use dart_run::written::Written;
use dart_words::options::Options;
use scope_load::loaded::Loaded;
use std::alloc::Global;

/// Why a text isn't erased.
#[derive(Drop)]
pub enum Stop {
    /// It is refused for this reason.
    Refused(Refusal),
    /// Memory ran out.
    Memory,
}

impl Stop {
    fn new(why: Option<Refusal>) -> Stop
        ensures { result ≡ stop_for why }
    {
        match why {
            Some(why) => Stop::Refused(why),
            None => Stop::Memory,
        }
    }
}

impl From<TextFault> for Stop {
    ghost from_gives = { λ fault stop. stop ≡ stop_for (text_refusal fault) };

    fn from(fault: TextFault) -> Stop {
        Stop::new(Refusal::of_text(fault))
    }
}

// What becomes of a program whose units are loaded, with nothing against them.
fn execute_loaded(
    alloc: Global,
    loaded: &Loaded,
    options: Options,
) -> Result<Option<Written>, RunStop>
    requires units { options.budget.units < 2 ^ 32 }
    ensures answer { EndsAs (state_of loaded.now) options result }
    ensures failed { run_failed result ≡ false }
{
    match execute(alloc, loaded, options) {
        Ok(Execution::Ran(made)) => Ok(Some(made)),
        Ok(Execution::NotBuilt) => Ok(None),
        Ok(Execution::Refused(place, cause)) => {
            match execution_refusal(alloc, loaded, place, cause) {
                Ok(against) => Err(RunStop::Refused(against)),
                Err(_) => Err(RunStop::Memory),
            }
        }
        Err(_) => Err(RunStop::Memory),
    }
}

/// Runs the program whose root has this name and text, as the options ask. None where it is refused for no reason, and yet has what
/// isn't built.
pub fn run_text<S: Sources>(
    alloc: Global,
    name: &str,
    text: &[u8],
    options: Options,
    sources: &mut S,
) -> Result<Option<Written>, RunStop>
    requires units { options.budget.units < 2 ^ 32 }
    ensures runs { IfOk result (GivesEnd (S.files sources.old) name.now text.now options) }
    ensures answer { Judges (λ files. RefusedFor files name.now options) (S.files sources.old) name.now text.now result }
    ensures same { S.files sources.new ≡ S.files sources.old }
    ensures cause { Counts (run_failed result) (S.faults sources.old) (S.faults sources.new) }
{
    match load_program(alloc, name, text, sources) {
        Ok(loaded) => execute_loaded(alloc, &loaded, options),
        Err(stop) => Err(stop),
    }
}

/// The text without the annotations of the unit that it is.
pub fn erase_text(alloc: Global, text: &[u8]) -> Result<Bytes, Stop>
    ensures erases { IfOk result (ErasesTo text.now) }
    ensures stops { IfErr result (Stops (IsNoUnitFor text.now)) }
{
    Ok(erased_text(alloc, text)?)
}

#[cfg(test)]
mod tests;
