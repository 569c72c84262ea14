// From the text of a root to the text of its core.
ghost use Rattle.std.specs.Prelude.{◌≡◌, IfOk, IfSome};
ghost use Rattle.std.specs.Option.{option_map};
ghost use Rattle.dart_edge.specs.Fault.{Counts};
ghost use Rattle.dart_edge.specs.Files.{file_of};
ghost use Rattle.dart_edge.specs.Reads.{read_failed};
ghost use Rattle.dart_tool.specs.Program.{WhereHas};
ghost use Rattle.scope_load.specs.State.{state_of};
ghost use Rattle.core_print.specs.Root.{FileShows, IsChoiceOf, LoadedShows};

use crate::loaded::core_of;
use core_text::program::{Choice, program_text};
use dart_base::bytes::Bytes;
use dart_base::name::Name;
use dart_base::names::Names;
use dart_edge::source::{SourceFault, Sources};
use lower_leaf::fault::Want;
use scope_files::check::{Checked, check};
use scope_load::loaded::Loaded;
use scope_load::reason::LoadFault;
use std::alloc::Global;

// Which declarations are shown: those of the root, or those with this name. What is no name of the program is none of theirs.
fn choice_of(names: &Names, name: Option<&str>) -> Choice
    ensures { IsChoiceOf names.now (option_map (λ text. text.now) name.entry) result }
{
    match name {
        None => Choice::Root,
        Some(text) => match names.find(text) {
            Some(found) => Choice::Named(found),
            None => Choice::Named(Name(names.count())),
        },
    }
}

// The text of the core of a loaded program, or None where it has none.
fn loaded_text(alloc: Global, loaded: &Loaded, name: Option<&str>) -> Result<Option<Bytes>, Want>
    ensures { IfOk result (LoadedShows (state_of loaded.now) (option_map (λ text. text.now) name.entry)) }
{
    match core_of(alloc, loaded)? {
        None => Ok(None),
        Some(core) => {
            let choice = choice_of(&core.names, name);
            let bytes = program_text(alloc, &core, choice)?;
            Ok(Some(bytes))
        }
    }
}

// The same of the program whose root has this name and text.
fn root_text<S: Sources>(
    alloc: Global,
    file: &str,
    text: &[u8],
    name: Option<&str>,
    sources: &mut S,
) -> Result<Option<Bytes>, SourceFault>
    ensures shows { IfOk result (λ found. WhereHas (S.files sources.old) file.now text.now
        (λ files. FileShows files file.now (option_map (λ text. text.now) name.entry) found)) }
    ensures same { S.files sources.new ≡ S.files sources.old }
    ensures cause { Counts (read_failed result) (S.faults sources.old) (S.faults sources.new) }
{
    match check(alloc, file.as_bytes(), text, sources) {
        Ok(Checked::Sound(loaded)) => match loaded_text(alloc, &loaded, name) {
            Ok(found) => Ok(found),
            Err(_) => Err(SourceFault::Memory),
        },
        Ok(Checked::Against(_)) => Ok(None),
        Err(LoadFault::Refused(_, _)) => Ok(None),
        Err(LoadFault::TooLarge) => Ok(None),
        Err(LoadFault::Failed) => Err(SourceFault::Failed),
        Err(LoadFault::Memory) => Err(SourceFault::Memory),
    }
}

/// The text of the core of the program whose root is this file, all of its root or what has this name, or None where there is no such core.
pub fn file_text<S: Sources>(
    alloc: Global,
    file: &str,
    name: Option<&str>,
    sources: &mut S,
) -> Result<Option<Bytes>, SourceFault>
    ensures shows { IfOk result (λ found. IfSome (S.files sources.old)
        (λ files. FileShows files file.now (option_map (λ text. text.now) name.entry) found)) }
    ensures same { S.files sources.new ≡ S.files sources.old }
    ensures cause { Counts (read_failed result) (S.faults sources.old) (S.faults sources.new) }
{
    match sources.read(file) {
        Ok(Some(text)) => root_text(alloc, file, text.as_slice(), name, sources),
        Ok(None) => Ok(None),
        Err(fault) => Err(fault),
    }
}
