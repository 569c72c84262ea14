// Programs over units in memory.
ghost use Rattle.std.specs.Prelude.{◌≡◌, false};
ghost use Rattle.scope_load.specs.Found.{take_failed};

use crate::directive::{import, name, pieces, place};
use dart_base::place::Place;
use dart_tree::unit::{Directive, DirectiveKind, Unit};
use scope_load::load::load;
use scope_load::loaded::Loaded;
use scope_load::reason::{LoadFault, Reason};
use scope_load::units::{Found, TakeFault, TextReason, UnitName, UnitReader};
use std::alloc::{AllocError, Global};
use std::str::from_utf8;
use std::test::Fail;

// What a file says.
#[derive(Clone, Copy)]
enum Said {
    PartOf(&'static str),
    Library(&'static str),
    Import(&'static str),
    Export(&'static str),
    Part(&'static str),
    // A string of two pieces.
    Adjacent,
    // No unit.
    Wrong,
    // A file that can't be read.
    Fails,
}

type File = (&'static str, &'static [Said]);

// Files in memory, each of a weight. The line of a directive is its number from 1; a piece stands in column 8.
#[derive(Drop)]
struct Files {
    alloc: Global,
    files: &'static [File],
    weight: u32,
    taken: u32,
    faults: u64,
}

fn kind(
    alloc: Global,
    word: Place,
    at: Place,
    said: Said,
) -> Result<Option<DirectiveKind>, AllocError> {
    let more = Vec::new(alloc);
    Ok(Some(match said {
        Said::PartOf(text) => DirectiveKind::PartOf {
            word,
            of_word: at,
            name: name(alloc, at, text)?,
            more,
        },
        Said::Library(text) => DirectiveKind::Library {
            word,
            name: name(alloc, at, text)?,
            more,
        },
        Said::Import(text) => import(alloc, word, &[text], at)?,
        Said::Export(text) => DirectiveKind::Export {
            word,
            uri: pieces(alloc, at, &[text])?,
            combinators: Vec::new(alloc),
        },
        Said::Part(text) => DirectiveKind::Part(word, pieces(alloc, at, &[text])?),
        Said::Adjacent => import(alloc, word, &["'b.dart'", "''"], at)?,
        Said::Wrong | Said::Fails => return Ok(None),
    }))
}

// The unit that a file says, or None where it says no unit.
fn unit_of(alloc: Global, number: u32, said: &[Said]) -> Result<Option<Unit>, AllocError> {
    let mut directives = Vec::new(alloc);
    let mut line: u32 = 0;
    for one in said {
        line = line.saturating_add(1);
        let word = place(number, line, 1);
        match kind(alloc, word, place(number, line, 8), *one)? {
            Some(kind) => directives.push(Directive {
                metadata: Vec::new(alloc),
                kind,
                semicolon: place(number, line, 20),
            })?,
            None => return Ok(None),
        }
    }
    Ok(Some(Unit {
        directives,
        declarations: Vec::new(alloc),
    }))
}

fn says_failure(said: &[Said]) -> bool {
    match said {
        [Said::Fails, ..] => true,
        _ => false,
    }
}

// What the file with this name says.
fn said_in(files: &'static [File], wanted: &[u8]) -> Option<&'static [Said]> {
    for (name, said) in files {
        if name.as_bytes() == wanted {
            return Some(said);
        }
    }
    None
}

impl Files {
    fn found(&self, number: u32, said: &'static [Said]) -> Result<Found, TakeFault>
        ensures { take_failed result ≡ false }
    {
        let alloc = self.alloc;
        match unit_of(alloc, number, said) {
            Ok(Some(unit)) => Ok(Found::Read(unit, self.weight)),
            Ok(None) => Ok(Found::Refused(TextReason::Syntax(place(number, 1, 1)))),
            Err(_) => Err(TakeFault::Memory),
        }
    }
}

// Reads files in memory.
pub(super) struct Reader;

impl UnitReader<Files> for Reader {
    ghost use Rattle.std.specs.Prelude.{⊤, None};

    ghost gives = { λ r s number name found. ⊤ };

    ghost files = { λ r s. None };

    ghost faults = { λ r s. s.faults };

    fn take(&self, from: &mut Files, number: u32, name: &UnitName) -> Result<Found, TakeFault> {
        from.taken = from.taken.saturating_add(1);
        let UnitName::File(wanted) = name else {
            return from.found(number, &[Said::Library("l")]);
        };
        let Some(said) = said_in(from.files, wanted.as_slice()) else {
            return Ok(Found::Absent);
        };
        if says_failure(said) {
            from.faults = from.faults.saturating_add(1);
            return Err(TakeFault::Failed);
        }
        from.found(number, said)
    }
}

fn over(alloc: Global, files: &'static [File]) -> Files {
    Files {
        alloc,
        files,
        weight: 3,
        taken: 0,
        faults: 0,
    }
}

// The reason with the name of its file, or the numbers of what was loaded.
fn shown(alloc: Global, all: &'static [File]) -> Result<String, AllocError> {
    let mut units = over(alloc, all);
    match load(alloc, &Reader, &mut units, b"a.dart") {
        Ok(loaded) => shown_program(alloc, &loaded, units.taken),
        Err(LoadFault::Refused(name, reason)) => shown_reason(alloc, &name, reason),
        Err(LoadFault::TooLarge) => String::from_str(alloc, "TooLarge"),
        Err(LoadFault::Failed) => String::from_str(alloc, "Failed"),
        Err(LoadFault::Memory) => String::from_str(alloc, "Memory"),
    }
}

fn shown_name(name: &UnitName) -> &str {
    match name {
        UnitName::File(name) => match from_utf8(name.as_slice()) {
            Ok(name) => name,
            Err(_) => "?",
        },
        UnitName::Core => "core",
        UnitName::Isolate => "isolate",
    }
}

fn shown_reason(alloc: Global, name: &UnitName, reason: Reason) -> Result<String, AllocError> {
    let name = shown_name(name);
    match reason {
        Reason::NotFound => format!(in alloc; "NotFound {name}"),
        Reason::Text(_) => format!(in alloc; "Text {name}"),
        Reason::LeftOut(at, feature) => {
            let line = at.line;
            let column = at.column;
            format!(in alloc; "LeftOut {name}:{line}:{column} {feature:?}")
        }
        Reason::BadDirective(at) => {
            let line = at.line;
            let column = at.column;
            format!(in alloc; "BadDirective {name}:{line}:{column}")
        }
    }
}

fn shown_program(alloc: Global, loaded: &Loaded, taken: u32) -> Result<String, AllocError> {
    let mut names = String::new(alloc);
    for name in &loaded.names {
        names.push_str(shown_name(name))?;
        names.push(' ')?;
    }
    let weight = loaded.weight;
    let links = loaded.links.len();
    format!(in alloc; "{names}taken {taken} links {links} weight {weight}")
}

#[test]
fn files_and_texts(rt: HostRuntime) -> Result<(), Fail> {
    let alloc = rt.alloc();
    let cases: [(&'static [File], &str); 8] = [
        (
            &[("a.dart", &[])],
            "a.dart core isolate taken 3 links 0 weight 3",
        ),
        (&[], "NotFound a.dart"),
        (
            &[("a.dart", &[Said::Import("'b.dart'")])],
            "NotFound b.dart",
        ),
        // A file that imports itself is read once.
        (
            &[(
                "a.dart",
                &[Said::Import("'a.dart'"), Said::Export("'a.dart'")],
            )],
            "a.dart core isolate taken 3 links 2 weight 3",
        ),
        // A cycle, and files in order of first mention.
        (
            &[
                (
                    "a.dart",
                    &[Said::Import("'b.dart'"), Said::Import("'c.dart'")],
                ),
                (
                    "b.dart",
                    &[Said::Import("'d.dart'"), Said::Import("'a.dart'")],
                ),
                ("c.dart", &[Said::Import("'b.dart'")]),
                (
                    "d.dart",
                    &[Said::Import("'dart:core'"), Said::Import("'dart:isolate'")],
                ),
            ],
            "a.dart core isolate b.dart c.dart d.dart taken 6 links 7 weight 12",
        ),
        (
            &[
                (
                    "a.dart",
                    &[Said::Import("'b.dart'"), Said::Import("'c.dart'")],
                ),
                ("b.dart", &[Said::Import("'d.dart'")]),
                ("c.dart", &[Said::Wrong]),
            ],
            "Text c.dart",
        ),
        (&[("a.dart", &[Said::Wrong])], "Text a.dart"),
        (&[("a.dart", &[Said::Fails])], "Failed"),
    ];
    for (all, want) in cases {
        let got = shown(alloc, all)?;
        assert_eq!(rt; got.as_str(), want);
    }
    Ok(())
}

#[test]
fn uris(rt: HostRuntime) -> Result<(), Fail> {
    let alloc = rt.alloc();
    let cases: [(&'static [File], &str); 10] = [
        (
            &[("a.dart", &[Said::PartOf("x")])],
            "BadDirective a.dart:1:1",
        ),
        (
            &[("a.dart", &[Said::Import("'package:x/y.dart'")])],
            "LeftOut a.dart:1:8 Uris",
        ),
        (
            &[("a.dart", &[Said::Import("'dart:io'")])],
            "LeftOut a.dart:1:8 Libraries",
        ),
        (
            &[("a.dart", &[Said::Part("'dart:core/x'")])],
            "LeftOut a.dart:1:8 Libraries",
        ),
        (
            &[("a.dart", &[Said::Export("'http:x'")])],
            "LeftOut a.dart:1:8 Uris",
        ),
        // The reasons of a unit come before the units that it mentions, LeftOut before BadDirective.
        (
            &[(
                "a.dart",
                &[
                    Said::Import("'b.dart'"),
                    Said::Adjacent,
                    Said::Import("'x/y'"),
                ],
            )],
            "LeftOut a.dart:3:8 Uris",
        ),
        (
            &[("a.dart", &[Said::Library("l"), Said::Adjacent])],
            "BadDirective a.dart:2:1",
        ),
        (
            &[("a.dart", &[Said::Import("'a$x.dart'")])],
            "BadDirective a.dart:1:1",
        ),
        // Escapes are read, but not in a raw string.
        (
            &[
                (
                    "a.dart",
                    &[
                        Said::Import("'\\x62.d\\u0061\\u{72}t'"),
                        Said::Import("r'c\\x.dart'"),
                    ],
                ),
                ("b.dart", &[]),
                ("c\\x.dart", &[]),
            ],
            "a.dart core isolate b.dart c\\x.dart taken 5 links 2 weight 9",
        ),
        (
            &[
                ("a.dart", &[Said::Import("'\\uD83D\\uDE00'")]),
                ("\u{1F600}", &[]),
            ],
            "a.dart core isolate \u{1F600} taken 4 links 1 weight 6",
        ),
    ];
    for (all, want) in cases {
        let got = shown(alloc, all)?;
        assert_eq!(rt; got.as_str(), want);
    }
    Ok(())
}

#[test]
fn parts(rt: HostRuntime) -> Result<(), Fail> {
    let alloc = rt.alloc();
    let cases: [(&'static [File], &str); 8] = [
        (
            &[
                ("a.dart", &[Said::Import("'p.dart'")]),
                ("p.dart", &[Said::PartOf("x")]),
            ],
            "BadDirective a.dart:1:1",
        ),
        (
            &[
                ("a.dart", &[Said::Library("l"), Said::Part("'p.dart'")]),
                ("p.dart", &[]),
            ],
            "BadDirective a.dart:2:1",
        ),
        (
            &[
                ("a.dart", &[Said::Library("l"), Said::Part("'p.dart'")]),
                ("p.dart", &[Said::PartOf("m")]),
            ],
            "BadDirective a.dart:2:1",
        ),
        (
            &[
                ("a.dart", &[Said::Part("'p.dart'")]),
                ("p.dart", &[Said::PartOf("m")]),
            ],
            "BadDirective a.dart:1:1",
        ),
        (
            &[
                (
                    "a.dart",
                    &[
                        Said::Library("l"),
                        Said::Part("'p.dart'"),
                        Said::Part("'p.dart'"),
                    ],
                ),
                ("p.dart", &[Said::PartOf("l")]),
            ],
            "a.dart core isolate p.dart taken 4 links 2 weight 6",
        ),
        // A part of a part is none of a library.
        (
            &[
                ("a.dart", &[Said::Library("l"), Said::Part("'p.dart'")]),
                ("p.dart", &[Said::PartOf("l"), Said::Part("'q.dart'")]),
                ("q.dart", &[Said::PartOf("l")]),
            ],
            "BadDirective p.dart:2:1",
        ),
        // A file that is part and library: the later mention is wrong.
        (
            &[
                (
                    "a.dart",
                    &[
                        Said::Library("l"),
                        Said::Import("'b.dart'"),
                        Said::Part("'p.dart'"),
                    ],
                ),
                ("b.dart", &[Said::Library("l"), Said::Import("'p.dart'")]),
                ("p.dart", &[Said::PartOf("l")]),
            ],
            "BadDirective b.dart:2:1",
        ),
        // A file that is a part of two libraries of one name.
        (
            &[
                (
                    "a.dart",
                    &[
                        Said::Library("l"),
                        Said::Import("'b.dart'"),
                        Said::Part("'p.dart'"),
                    ],
                ),
                ("b.dart", &[Said::Library("l"), Said::Part("'p.dart'")]),
                ("p.dart", &[Said::PartOf("l")]),
            ],
            "BadDirective b.dart:2:1",
        ),
    ];
    for (all, want) in cases {
        let got = shown(alloc, all)?;
        assert_eq!(rt; got.as_str(), want);
    }
    Ok(())
}

#[test]
fn a_root_in_a_folder(rt: HostRuntime) -> Result<(), Fail> {
    let alloc = rt.alloc();
    let mut units = over(
        alloc,
        &[
            (
                "d/e/a.dart",
                &[Said::Import("'b.dart'"), Said::Import("'a.dart'")],
            ),
            ("d/e/b.dart", &[]),
        ],
    );
    match load(alloc, &Reader, &mut units, b"d/e/a.dart") {
        Ok(loaded) => assert_eq!(rt; loaded.names.len(), 4),
        Err(_) => assert!(rt; false),
    }
    Ok(())
}

// A root that is called as the library of the language is another unit.
#[test]
fn a_root_called_core(rt: HostRuntime) -> Result<(), Fail> {
    let alloc = rt.alloc();
    let mut units = over(alloc, &[("dart:core", &[Said::Import("'dart:core'")])]);
    match load(alloc, &Reader, &mut units, b"dart:core") {
        Ok(loaded) => {
            assert_eq!(rt; loaded.names.len(), 3);
            assert!(rt; loaded.links.len() == 1 && loaded.links[0].target == Some(1));
        }
        Err(_) => assert!(rt; false),
    }
    Ok(())
}
