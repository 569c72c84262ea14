// The bytes of a turn: its lines, and how it ends.
ghost use Rattle.std.specs.Prelude.{◌≡◌, ◌++◌, IfOk, OnOk};
ghost use Rattle.std.specs.Fmt.{decimal};
ghost use Rattle.std.specs.Prelude.{map, slice_get};
ghost use Rattle.core_program.specs.ProgramView as view;
ghost use Rattle.evaluation.specs.Checks.{site_place};
ghost use Rattle.evaluation.specs.Turn.{uncaught, blank};
ghost use Rattle.machine_turn.specs.Turn.{ending};
ghost use Rattle.turn_text.specs.Transcript.{text_bytes, line_bytes, lines_bytes, report_bytes, file_name, place_bytes, exact_bytes, shown_name, thrown_bytes, end_bytes, turn_bytes};

use core_program::program::Site;
use dart_base::bytes::Bytes;
use dart_base::place::Place;
use dart_ir::ending::{Line, Lines, TurnEnd};
use dart_ir::kind::SiteKind;
use dart_ir::number::SiteId;
use std::alloc::{AllocError, Global};

/// The bytes that a turn writes: each line in UTF-8 with a line feed, a check that failed with its place, and behind them the line
/// of an end that is no return. The files have the names of the program's units, and the sites are the program's.
pub fn turn_bytes(
    alloc: Global,
    files: &[Bytes],
    sites: &[Site],
    lines: &Lines,
    end: &TurnEnd,
) -> Result<Bytes, AllocError>
    ensures { IfOk result (λ bytes. bytes ≡ turn_bytes files.now (map view.site sites.now) lines.now (ending end.now)) }
{
    let mut bytes = Bytes::new(alloc);
    push_lines(alloc, &mut bytes, files, sites, lines.as_slice())?;
    push_end(alloc, &mut bytes, files, end)?;
    Ok(bytes)
}

/// Adds units of UTF-16 in UTF-8. A surrogate without its partner is U+FFFD.
fn push_text(alloc: Global, bytes: &mut Bytes, units: &[u16]) -> Result<(), AllocError>
    ensures { OnOk result (bytes.new ≡ bytes.old ++ text_bytes units.now) }
{
    let text = String::from_utf16_lossy(alloc, units)?;
    bytes.append(text.as_bytes())
}

/// Adds the lines.
fn push_lines(
    alloc: Global,
    bytes: &mut Bytes,
    files: &[Bytes],
    sites: &[Site],
    lines: &[Line],
) -> Result<(), AllocError>
    ensures { OnOk result (bytes.new ≡ bytes.old ++ lines_bytes files.now (map view.site sites.now) lines.now) }
{
    for line in lines {
        push_line(alloc, bytes, files, sites, line)?;
    }
    Ok(())
}

/// Adds a line, with its line feed.
fn push_line(
    alloc: Global,
    bytes: &mut Bytes,
    files: &[Bytes],
    sites: &[Site],
    line: &Line,
) -> Result<(), AllocError>
    ensures { OnOk result (bytes.new ≡ bytes.old ++ line_bytes files.now (map view.site sites.now) line.now) }
{
    match line {
        Line::Printed(units) => {
            push_text(alloc, bytes, units.as_slice())?;
            bytes.push(b'\n')
        }
        Line::Report(site, kind) => {
            push_report(alloc, bytes, files, site_place(sites, *site), *kind)
        }
    }
}

/// The place of a site; of a number that is no site the first file's line 0.
fn site_place(sites: &[Site], number: SiteId) -> Place
    ensures { result ≡ site_place (slice_get (map view.site sites.now) number.0) }
{
    match sites.get(number.0 as usize) {
        None => Place {
            unit: 0,
            line: 0,
            column: 0,
        },
        Some(site) => site.place,
    }
}

/// Adds the line of a check of this kind that failed at a place.
fn push_report(
    alloc: Global,
    bytes: &mut Bytes,
    files: &[Bytes],
    place: Place,
    kind: SiteKind,
) -> Result<(), AllocError>
    ensures { OnOk result (bytes.new ≡ bytes.old ++ report_bytes files.now place kind) }
{
    bytes.append(b"** check ")?;
    bytes.append(kind.text())?;
    bytes.push(b' ')?;
    push_exact(alloc, bytes, files, place)?;
    bytes.push(b'\n')
}

/// Adds the line of an end that is no return.
fn push_end(
    alloc: Global,
    bytes: &mut Bytes,
    files: &[Bytes],
    end: &TurnEnd,
) -> Result<(), AllocError>
    ensures { OnOk result (bytes.new ≡ bytes.old ++ end_bytes files.now (ending end.now)) }
{
    match end {
        TurnEnd::Returned => Ok(()),
        TurnEnd::Uncaught { place, text } => {
            push_uncaught(alloc, bytes, files, *place, text.as_slice())
        }
        TurnEnd::OutOfSteps => bytes.append(b"** limit OutOfSteps\n"),
        TurnEnd::OutOfObjects => bytes.append(b"** limit OutOfObjects\n"),
        TurnEnd::OutOfDepth => bytes.append(b"** limit OutOfDepth\n"),
        TurnEnd::IntegerLimit => bytes.append(b"** limit IntegerLimit\n"),
        TurnEnd::NeedsDouble => bytes.append(b"** limit NeedsDouble\n"),
        TurnEnd::TypeLimit => bytes.append(b"** limit TypeLimit\n"),
    }
}

/// Adds the line of a throw at a place that nothing caught, with what is shown of the value.
fn push_uncaught(
    alloc: Global,
    bytes: &mut Bytes,
    files: &[Bytes],
    place: Place,
    text: &[u16],
) -> Result<(), AllocError>
    ensures { OnOk result (bytes.new ≡ bytes.old ++ end_bytes files.now (uncaught place text.now)) }
{
    bytes.append(b"** uncaught ")?;
    push_thrown(alloc, bytes, files, place, text)?;
    bytes.push(b'\n')
}

/// Adds a place and a text, as FILE:LINE TEXT.
fn push_thrown(
    alloc: Global,
    bytes: &mut Bytes,
    files: &[Bytes],
    place: Place,
    text: &[u16],
) -> Result<(), AllocError>
    ensures { OnOk result (bytes.new ≡ bytes.old ++ thrown_bytes files.now place text.now) }
{
    push_place(alloc, bytes, files, place)?;
    bytes.push(b' ')?;
    push_text(alloc, bytes, text)
}

/// Adds a place, as FILE:LINE.
fn push_place(
    alloc: Global,
    bytes: &mut Bytes,
    files: &[Bytes],
    place: Place,
) -> Result<(), AllocError>
    ensures { OnOk result (bytes.new ≡ bytes.old ++ place_bytes files.now place) }
{
    push_file(bytes, files, place.unit)?;
    bytes.push(b':')?;
    bytes.append(place.line.to_string(alloc)?.as_bytes())
}

/// Adds a place, as FILE:LINE:COLUMN.
fn push_exact(
    alloc: Global,
    bytes: &mut Bytes,
    files: &[Bytes],
    place: Place,
) -> Result<(), AllocError>
    ensures { OnOk result (bytes.new ≡ bytes.old ++ exact_bytes files.now place) }
{
    push_place(alloc, bytes, files, place)?;
    bytes.push(b':')?;
    bytes.append(place.column.to_string(alloc)?.as_bytes())
}

/// Adds the name of a unit's file. Of a number that is no unit there is none.
fn push_file(bytes: &mut Bytes, files: &[Bytes], unit: u32) -> Result<(), AllocError>
    ensures { OnOk result (bytes.new ≡ bytes.old ++ file_name files.now unit) }
{
    match files.get(unit as usize) {
        None => Ok(()),
        Some(name) => push_name(bytes, name.as_slice()),
    }
}

/// Adds a file's name, control bytes as blanks.
fn push_name(bytes: &mut Bytes, name: &[u8]) -> Result<(), AllocError>
    ensures { OnOk result (bytes.new ≡ bytes.old ++ shown_name name.now) }
{
    for byte in name {
        bytes.push(blank(*byte))?;
    }
    Ok(())
}

/// The byte, or a blank for a control byte.
fn blank(byte: u8) -> u8
    ensures { result ≡ blank byte }
{
    if byte < 32 { 32 } else { byte }
}
