// What a run writes, and how it finishes.
ghost use Rattle.std.specs.Prelude.{◌≡◌, IfOk, map, option_map};
ghost use Rattle.core_program.specs.ProgramView as view;
ghost use Rattle.machine_turn.specs.Turn.{ending, shown};
ghost use Rattle.dart_run.specs.Written.{written_with, written};

use core_program::program::Site;
use dart_base::bytes::Bytes;
use dart_ir::ending::{Lines, TurnEnd};
use machine_turn::turned::Turned;
use std::alloc::{AllocError, Global};
use turn_text::finish::{Finish, finish_of};
use turn_text::transcript::turn_bytes;

/// What a run writes, and how it finishes.
#[derive(Drop)]
pub struct Written {
    pub bytes: Bytes,
    pub finish: Finish,
}

/// What is written of the first turn of a program with these files and sites. Where there is none the program's constants passed the limit of
/// units.
pub fn write_turn(
    alloc: Global,
    files: &[Bytes],
    sites: &[Site],
    turned: Option<Turned>,
) -> Result<Written, AllocError>
    ensures { IfOk result (λ made. made ≡ written files.now (map view.site sites.now) (option_map shown turned)) }
{
    match turned {
        None => write_with(
            alloc,
            files,
            sites,
            &Lines::new(alloc),
            &TurnEnd::OutOfObjects,
        ),
        Some(turned) => write_with(alloc, files, sites, &turned.output, &turned.end),
    }
}

fn write_with(
    alloc: Global,
    files: &[Bytes],
    sites: &[Site],
    lines: &Lines,
    end: &TurnEnd,
) -> Result<Written, AllocError>
    ensures { IfOk result (λ made. made ≡ written_with files.now (map view.site sites.now) lines.now (ending end.now)) }
{
    let bytes = turn_bytes(alloc, files, sites, lines, end)?;
    let finish = finish_of(lines, end);
    Ok(Written { bytes, finish })
}
