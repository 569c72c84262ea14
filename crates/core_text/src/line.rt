// What lines are made of: blanks in front, numbers, places.
ghost use Rattle.std.specs.Prelude.{◌≡◌, ◌++◌, unwrap_or, slice_get, []};
ghost use Rattle.std.specs.Fmt.{decimal};
ghost use Rattle.core_text.specs.Line.{Adds};
ghost use Rattle.core_text.specs.Line as spec;

use core_program::program::CoreProgram;
use dart_base::bytes::Bytes;
use dart_base::place::Place;
use std::alloc::{AllocError, Global};

/// Adds a text.
pub fn push_text(bytes: &mut Bytes, text: &[u8]) -> Result<(), AllocError>
    ensures { Adds result bytes.old bytes.new text.now }
{
    bytes.append(text)
}

/// How many blanks stand in front of a line that is a level deeper: two more, and 255 at most.
pub fn deeper(blanks: u8) -> u8
    ensures { result ≡ spec.deeper blanks }
{
    blanks.saturating_add(2)
}

/// Adds blanks.
pub fn push_margin(bytes: &mut Bytes, blanks: u8) -> Result<(), AllocError>
    ensures { Adds result bytes.old bytes.new (spec.margin blanks) }
{
    for _blank in 0..blanks {
        bytes.push(b' ')?;
    }
    Ok(())
}

/// Adds a number.
pub fn push_number(alloc: Global, bytes: &mut Bytes, number: u32) -> Result<(), AllocError>
    ensures { Adds result bytes.old bytes.new (decimal number) }
{
    push_text(bytes, number.to_string(alloc)?.as_bytes())
}

/// Adds a blank and a number.
pub fn push_after_blank(alloc: Global, bytes: &mut Bytes, number: u32) -> Result<(), AllocError>
    ensures { Adds result bytes.old bytes.new (spec.after_blank number) }
{
    push_text(bytes, b" ")?;
    push_number(alloc, bytes, number)
}

/// Adds a text, a blank and a number.
pub fn push_counted(
    alloc: Global,
    bytes: &mut Bytes,
    text: &[u8],
    number: u32,
) -> Result<(), AllocError>
    ensures { Adds result bytes.old bytes.new (text.now ++ spec.after_blank number) }
{
    push_text(bytes, text)?;
    push_after_blank(alloc, bytes, number)
}

/// Adds numbers, each behind a blank.
pub fn push_numbers(alloc: Global, bytes: &mut Bytes, numbers: &[u32]) -> Result<(), AllocError>
    ensures { Adds result bytes.old bytes.new (spec.numbers numbers.now) }
{
    for number in numbers {
        push_after_blank(alloc, bytes, *number)?;
    }
    Ok(())
}

/// Adds a text behind a blank, and nothing where there is no text.
pub fn push_word(bytes: &mut Bytes, text: &[u8]) -> Result<(), AllocError>
    ensures { Adds result bytes.old bytes.new (spec.word text.now) }
{
    match text {
        [] => Ok(()),
        [_, ..] => {
            push_text(bytes, b" ")?;
            push_text(bytes, text)
        }
    }
}

/// The name of a unit's file; none for a number that is no unit.
fn file_name(program: &CoreProgram, unit: u32) -> &[u8]
    ensures { result.now ≡ spec.file_name program.now unit }
{
    match program.units.get(unit as usize) {
        None => b"",
        Some(name) => name.as_slice(),
    }
}

/// Adds a file's name in front of a place that isn't in the root.
fn push_file(bytes: &mut Bytes, program: &CoreProgram, unit: u32) -> Result<(), AllocError>
    ensures { Adds result bytes.old bytes.new (spec.file program.now unit) }
{
    if unit == 0 {
        return Ok(());
    }
    push_text(bytes, file_name(program, unit))?;
    push_text(bytes, b":")
}

/// Adds a place, as LINE:COLUMN in the root and FILE:LINE:COLUMN elsewhere.
pub fn push_place(
    alloc: Global,
    bytes: &mut Bytes,
    program: &CoreProgram,
    place: Place,
) -> Result<(), AllocError>
    ensures { Adds result bytes.old bytes.new (spec.place program.now place) }
{
    push_file(bytes, program, place.unit)?;
    push_number(alloc, bytes, place.line)?;
    push_text(bytes, b":")?;
    push_number(alloc, bytes, place.column)
}
