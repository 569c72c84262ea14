// Programs over files in memory.
use dart_base::bytes::Bytes;
use dart_edge::memory::{MemSources, NoFaultSources};
use scope_files::check::{Checked, check};
use scope_files::reader::FileReader;
use scope_load::load::load;
use scope_load::reason::{LoadFault, Reason};
use scope_load::units::{TextReason, UnitName};
use std::alloc::{AllocError, Global};
use std::test::Fail;

pub(super) type File = (&'static str, &'static str);

pub(super) fn pairs(alloc: Global, files: &[File]) -> Result<Vec<(Bytes, Bytes)>, AllocError> {
    let mut pairs = Vec::new(alloc);
    for (name, text) in files {
        let name = Bytes::from_slice(alloc, name.as_bytes())?;
        pairs.push((name, Bytes::from_slice(alloc, text.as_bytes())?))?;
    }
    Ok(pairs)
}

fn shown_reason(alloc: Global, reason: Reason) -> Result<String, AllocError> {
    match reason {
        Reason::NotFound => String::from_str(alloc, "NotFound"),
        Reason::Text(TextReason::Syntax(at)) => {
            let line = at.line;
            let column = at.column;
            let unit = at.unit;
            format!(in alloc; "Syntax {unit}:{line}:{column}")
        }
        Reason::Text(_) => String::from_str(alloc, "Text"),
        Reason::LeftOut(at, feature) => {
            let column = at.column;
            format!(in alloc; "LeftOut {column} {feature:?}")
        }
        Reason::BadDirective(at) => {
            let column = at.column;
            format!(in alloc; "BadDirective {column}")
        }
    }
}

// How many units there are and what they weigh, or the reason.
fn shown(alloc: Global, files: &[File]) -> Result<String, AllocError> {
    let mut sources = NoFaultSources::new(alloc, pairs(alloc, files)?);
    match load(alloc, &FileReader { alloc }, &mut sources, b"a.dart") {
        Ok(loaded) => {
            let count = loaded.units.len();
            let weight = loaded.weight;
            format!(in alloc; "{count} units of {weight}")
        }
        Err(LoadFault::Refused(UnitName::File(_), reason)) => shown_reason(alloc, reason),
        Err(LoadFault::Refused(_, _)) => String::from_str(alloc, "dart:"),
        Err(LoadFault::TooLarge) => String::from_str(alloc, "TooLarge"),
        Err(LoadFault::Failed) => String::from_str(alloc, "Failed"),
        Err(LoadFault::Memory) => String::from_str(alloc, "Memory"),
    }
}

#[test]
fn files_are_loaded(rt: HostRuntime) -> Result<(), Fail> {
    let alloc = rt.alloc();
    let cases: [(&[File], &str); 6] = [
        (&[("a.dart", "main() {}")], "3 units of 16"),
        (
            &[
                ("a.dart", "import 'b.dart'; main() {}"),
                ("b.dart", "var abcd;"),
            ],
            "4 units of 43",
        ),
        (&[("a.dart", "import 'b.dart';")], "NotFound"),
        (
            &[("a.dart", "import 'b.dart';"), ("b.dart", "\nvar ;")],
            "Syntax 3:2:5",
        ),
        (&[("a.dart", "import 'dart:io';")], "LeftOut 8 Libraries"),
        (&[("a.dart", "part of x;")], "BadDirective 1"),
    ];
    for (files, want) in cases {
        let got = shown(alloc, files)?;
        assert_eq!(rt; got.as_str(), want);
    }
    Ok(())
}

// Each file is read once, in order: the read that fails is the one whose number is listed.
#[test]
fn failing_reads(rt: HostRuntime) -> Result<(), Fail> {
    let alloc = rt.alloc();
    let files: &[File] = &[
        ("a.dart", "import 'b.dart'; import 'c.dart';"),
        ("b.dart", "import 'c.dart'; import 'a.dart';"),
        ("c.dart", "import 'b.dart';"),
    ];
    for (number, fails) in [(0, true), (1, true), (2, true), (3, false)] {
        let fail = vec![in alloc; number]?;
        let mut sources = MemSources::new(alloc, pairs(alloc, files)?, fail);
        let failed = match load(alloc, &FileReader { alloc }, &mut sources, b"a.dart") {
            Err(LoadFault::Failed) => true,
            Err(LoadFault::Refused(_, _) | LoadFault::TooLarge | LoadFault::Memory) | Ok(_) => {
                false
            }
        };
        assert_eq!(rt; failed, fails);
    }
    Ok(())
}

// The root's text is at hand, and not among the files.
#[test]
fn text_at_hand(rt: HostRuntime) -> Result<(), Fail> {
    let alloc = rt.alloc();
    let mut sources = NoFaultSources::new(alloc, pairs(alloc, &[("b.dart", "var x;")])?);
    match check(
        alloc,
        b"a.dart",
        b"import 'b.dart'; main() {}",
        &mut sources,
    ) {
        Ok(Checked::Sound(_)) => Ok(()),
        Ok(Checked::Against(_)) | Err(_) => Err(Fail::from("refused")),
    }
}
