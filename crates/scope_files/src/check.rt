// The first reason against the files of a program, or its units.
ghost use Rattle.std.specs.Prelude.{◌≡◌, ◌<◌, ◌^◌, IfErr, IfOk, false, length};
ghost use Rattle.dart_edge.specs.Fault.{Counts};
ghost use Rattle.scope_files.specs.Files.{Checks, Found, known};
ghost use Rattle.scope_load.specs.Load.{load_failed};
ghost use Rattle.scope_load.specs.State.{state_of};

use crate::reader::RootReader;
use dart_edge::source::Sources;
use scope_load::load::load;
use scope_load::loaded::Loaded;
use scope_load::reason::LoadFault;
use scope_reason::reason::{ProgramReason, first_reason};
use std::alloc::Global;

/// What is found of units that are all loaded.
#[derive(Drop)]
pub enum Checked {
    /// Nothing is against them.
    Sound(Loaded),
    /// This is the first reason against them as a whole.
    Against(ProgramReason),
}

// Units that are all loaded, or the first reason against them, and then they are let go.
fn check_whole(alloc: Global, loaded: Loaded) -> Result<Checked, LoadFault>
    requires { length loaded.units.items < 2 ^ 32 }
    ensures found { IfOk result (λ checked. Found (state_of loaded) checked) }
    ensures fault { IfErr result (λ fault. fault ≡ LoadFault.Memory) }
    ensures failed { load_failed result ≡ false }
{
    match first_reason(alloc, &loaded) {
        Ok(None) => Ok(Checked::Sound(loaded)),
        Ok(Some(reason)) => Ok(Checked::Against(reason)),
        Err(_) => Err(LoadFault::Memory),
    }
}

/// The units of the program whose root has this name and text (ECMA-408, 18 Libraries and Scripts), where nothing is against
/// them: an `Err` where they aren't loaded, else the first reason against them as a whole, if there is one. Each other file is
/// read once.
pub fn check<S: Sources>(
    alloc: Global,
    root: &[u8],
    text: &[u8],
    sources: &mut S,
) -> Result<Checked, LoadFault>
    ensures answer { Checks (known root.now text.now (S.files sources.old)) root.now result }
    ensures same { S.files sources.new ≡ S.files sources.old }
    ensures cause { Counts (load_failed result) (S.faults sources.old) (S.faults sources.new) }
{
    match load(alloc, &RootReader { alloc, root, text }, sources, root) {
        Ok(loaded) => check_whole(alloc, loaded),
        Err(fault) => Err(fault),
    }
}
