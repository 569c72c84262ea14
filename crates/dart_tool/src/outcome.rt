// What a file gives: the bytes that are written, and the status.
ghost use Rattle.std.specs.Prelude.{◌≡◌, ◌<◌, ◌^◌, ◌++◌, false, Some, IfOk, IfSome};
ghost use Rattle.std.specs.Fmt.{decimal};
ghost use Rattle.dart_edge.specs.Fault.{Counts};
ghost use Rattle.dart_edge.specs.Files.{file_of};
ghost use Rattle.dart_edge.specs.Reads.{read_failed};
ghost use Rattle.dart_tool.specs.Outcome.{EraseGives, FileGives, VerbGives, refused, refusal_details, shown, named, named_place, is_cut_short};
ghost use Rattle.dart_tool.specs.Outcome.{finish_status, written_outcome};
ghost use Rattle.dart_tool.specs.Program.{WhereHas};
ghost use Rattle.dart_words.specs.Words.{KeepsLimits};

use crate::language::{Stop, erase_text, run_text};
use crate::program::RunStop;
use crate::status::{Refusal, Status};
use dart_base::bytes::Bytes;
use dart_base::place::Place;
use dart_edge::source::{SourceFault, Sources};
use dart_run::written::Written;
use dart_words::options::Options;
use dart_words::words::Verb;
use std::alloc::{AllocError, Global};
use turn_text::finish::Finish;

/// All that a run of the tool writes, and how it ends.
#[derive(Drop)]
pub struct Outcome {
    pub status: Status,
    pub bytes: Bytes,
}

// A file's name as it is written.
fn push_shown(line: &mut Bytes, name: &[u8]) -> Result<(), AllocError>
    ensures { IfOk result (λ _. line.new ≡ line.old ++ shown name.now) }
{
    for byte in name {
        line.push(if *byte < b' ' { b' ' } else { *byte })?;
    }
    Ok(())
}

fn push_decimal(alloc: Global, line: &mut Bytes, number: u64) -> Result<(), AllocError>
    ensures { IfOk result (λ _. line.new ≡ line.old ++ decimal number) }
{
    line.append(number.to_string(alloc)?.as_bytes())
}

// A blank, and a file's name as it is written.
fn push_named(line: &mut Bytes, name: &[u8]) -> Result<(), AllocError>
    ensures { IfOk result (λ _. line.new ≡ line.old ++ named name.now) }
{
    line.push(b' ')?;
    push_shown(line, name)
}

// A blank, and a place in the file, as it is written.
fn push_place(alloc: Global, line: &mut Bytes, place: Place, name: &[u8]) -> Result<(), AllocError>
    ensures { IfOk result (λ _. line.new ≡ line.old ++ named_place place name.now) }
{
    push_named(line, name)?;
    line.push(b':')?;
    push_decimal(alloc, line, place.line as u64)?;
    line.push(b':')?;
    push_decimal(alloc, line, place.column as u64)
}

// What a refusal says after its kind.
fn push_details(
    alloc: Global,
    line: &mut Bytes,
    why: &Refusal,
    name: &[u8],
) -> Result<(), AllocError>
    ensures { IfOk result (λ _. line.new ≡ line.old ++ refusal_details why.now name.now) }
{
    match why {
        Refusal::NotUtf8(offset) => {
            push_named(line, name)?;
            line.push(b' ')?;
            push_decimal(alloc, line, *offset)
        }
        Refusal::BadToken(place)
        | Refusal::IntegerTooLarge(place)
        | Refusal::Syntax(place)
        | Refusal::TooDeep(place)
        | Refusal::BadDirective(place)
        | Refusal::CyclicClasses(place)
        | Refusal::BadSuper(place)
        | Refusal::BadMixin(place)
        | Refusal::TypesTooLarge(place)
        | Refusal::NotConstant(place)
        | Refusal::BadLabel(place)
        | Refusal::BadConstructor(place)
        | Refusal::BadSwitch(place)
        | Refusal::BadWord(place)
        | Refusal::TooManyParameters(place) => push_place(alloc, line, *place, name),
        Refusal::LeftOut(place, feature) => {
            push_place(alloc, line, *place, name)?;
            line.push(b' ')?;
            line.append(feature.text())
        }
        Refusal::Duplicate(place, declared) => {
            push_place(alloc, line, *place, name)?;
            line.push(b' ')?;
            line.append(declared.as_slice())
        }
        Refusal::NotFound | Refusal::TooLarge | Refusal::NotBuilt => push_named(line, name),
        Refusal::ProgramTooLarge | Refusal::NoMain => Ok(()),
    }
}

/// The refusal of a file.
pub fn refused(alloc: Global, why: Refusal, name: &[u8]) -> Result<Outcome, AllocError>
    ensures { IfOk result (λ out. out ≡ refused why name.now) }
{
    let mut bytes = Bytes::from_slice(alloc, b"** refused ")?;
    bytes.append(why.text())?;
    push_details(alloc, &mut bytes, &why, name)?;
    bytes.push(b'\n')?;
    Ok(Outcome {
        status: Status::Refused,
        bytes,
    })
}

fn finish_status(finish: Finish) -> Status
    ensures { result ≡ finish_status finish }
{
    match finish {
        Finish::Done => Status::Done,
        Finish::Uncaught => Status::Uncaught,
        Finish::CheckFailed => Status::CheckFailed,
        Finish::Limit => Status::Limit,
    }
}

// What a program writes, and how it finishes.
fn written_outcome(made: Written) -> Outcome
    ensures { result ≡ written_outcome made }
{
    Outcome {
        status: finish_status(made.finish),
        bytes: made.bytes,
    }
}

// What `run` gives for the root with this name and text, as the options ask.
fn run_outcome<S: Sources>(
    alloc: Global,
    options: Options,
    name: &str,
    text: &[u8],
    sources: &mut S,
) -> Result<Outcome, SourceFault>
    requires units { options.budget.units < 2 ^ 32 }
    ensures gives { IfOk result (λ out. WhereHas (S.files sources.old) name.now text.now
        (λ files. FileGives name.now files options (Some text.now) out)) }
    ensures ended { IfOk result (λ out. is_cut_short out.status ≡ false) }
    ensures usage { IfOk result (λ out. out.status ≡ Status.Usage → ⊥) }
    ensures same { S.files sources.new ≡ S.files sources.old }
    ensures cause { Counts (read_failed result) (S.faults sources.old) (S.faults sources.new) }
{
    match run_text(alloc, name, text, options, sources) {
        Ok(Some(made)) => Ok(written_outcome(made)),
        Ok(None) => Ok(refused(alloc, Refusal::NotBuilt, name.as_bytes())?),
        Err(RunStop::Refused(against)) => {
            Ok(refused(alloc, against.why, against.file.as_slice())?)
        }
        Err(RunStop::Failed) => Err(SourceFault::Failed),
        Err(RunStop::Memory) => Err(SourceFault::Memory),
    }
}

// What `erase` gives for a file with this text.
fn erase_outcome(alloc: Global, name: &[u8], text: &[u8]) -> Result<Outcome, AllocError>
    ensures gives { IfOk result (λ out. EraseGives name.now (Some text.now) out) }
    ensures ended { IfOk result (λ out. is_cut_short out.status ≡ false) }
    ensures usage { IfOk result (λ out. out.status ≡ Status.Usage → ⊥) }
{
    match erase_text(alloc, text) {
        Ok(bytes) => Ok(Outcome {
            status: Status::Done,
            bytes,
        }),
        Err(Stop::Refused(reason)) => refused(alloc, reason, name),
        Err(Stop::Memory) => Err(AllocError),
    }
}

/// What a command gives for its file with this content, or for the name of none, where the others come from these
/// sources.
pub fn file_outcome<S: Sources>(
    alloc: Global,
    verb: Verb,
    name: &str,
    content: Option<Bytes>,
    sources: &mut S,
) -> Result<Outcome, SourceFault>
    requires limits { KeepsLimits verb }
    ensures gives { IfOk result (λ out. IfSome (S.files sources.old) (λ files. file_of files name.now ≡ content →
        VerbGives verb name.now files content out)) }
    ensures ended { IfOk result (λ out. is_cut_short out.status ≡ false) }
    ensures usage { IfOk result (λ out. out.status ≡ Status.Usage → ⊥) }
    ensures same { S.files sources.new ≡ S.files sources.old }
    ensures cause { Counts (read_failed result) (S.faults sources.old) (S.faults sources.new) }
{
    let Some(text) = content else {
        return Ok(refused(alloc, Refusal::NotFound, name.as_bytes())?);
    };
    match verb {
        Verb::Run(options) => run_outcome(alloc, options, name, text.as_slice(), sources),
        Verb::Erase => Ok(erase_outcome(alloc, name.as_bytes(), text.as_slice())?),
    }
}
