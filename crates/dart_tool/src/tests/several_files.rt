// Programs of several files.
use super::{NOT_BUILT, words};
use crate::laws::dart_in_memory;
use crate::status::Status;
use crate::tool::dart;
use dart_base::bytes::Bytes;
use dart_edge::gate::OpenGate;
use dart_edge::memory::{MemSink, MemSources, NoFaultSink, NoFaultSources};
use std::alloc::{AllocError, Global};
use std::marker::Sync;
use std::process::Abort;
use std::sync::Wait;
use std::thread::Threads;

type File = (&'static str, &'static str);

fn pairs(alloc: Global, files: &[File]) -> Result<Vec<(Bytes, Bytes)>, AllocError> {
    let mut pairs = Vec::new(alloc);
    for (name, text) in files {
        let name = Bytes::from_slice(alloc, name.as_bytes())?;
        pairs.push((name, Bytes::from_slice(alloc, text.as_bytes())?))?;
    }
    Ok(pairs)
}

// Runs a.dart, and accepts only this line.
fn refuses<R: Abort + Threads + Wait + Sync>(
    rt: &R,
    alloc: Global,
    files: &[File],
    want: &str,
) -> Result<(), AllocError> {
    let words = words(alloc, &["run", "a.dart"])?;
    let mut sources = NoFaultSources::new(alloc, pairs(alloc, files)?);
    let mut sink = NoFaultSink::new(alloc);
    let got = dart_in_memory(rt, alloc, &words, &mut sources, &mut sink, &OpenGate);
    assert_eq!(rt; got, Status::Refused, "{want}");
    assert!(rt; sink.written() == want.as_bytes(), "{want}");
    Ok(())
}

#[test]
fn reasons_of_a_directive(rt: HostRuntime) -> Result<(), AllocError> {
    let alloc = rt.alloc();
    for (text, want) in [
        ("import 'b.dart';", "** refused NotFound b.dart\n"),
        ("import '';", "** refused NotFound \n"),
        ("import 'b\\nc';", "** refused NotFound b c\n"),
        (
            "import 'package:x/y.dart';",
            "** refused LeftOut a.dart:1:8 Uris\n",
        ),
        (
            "library l;\nexport 'dart:io';",
            "** refused LeftOut a.dart:2:8 Libraries\n",
        ),
        (
            "import 'b' '.dart';",
            "** refused BadDirective a.dart:1:1\n",
        ),
        ("part of x;", "** refused BadDirective a.dart:1:1\n"),
        (
            "import 'b.dart'; import 'c/d';",
            "** refused LeftOut a.dart:1:25 Uris\n",
        ),
        ("import 'dart:isolate'; main() {}", NOT_BUILT),
        (
            "import 'a.dart'; import 'dart:isolate'; main() {}",
            NOT_BUILT,
        ),
    ] {
        refuses(&rt, alloc, &[("a.dart", text)], want)?;
    }
    Ok(())
}

#[test]
fn reasons_of_a_second_file(rt: HostRuntime) -> Result<(), AllocError> {
    let alloc = rt.alloc();
    for (root, second, want) in [
        (
            "import 'b.dart';",
            "\nvar ;",
            "** refused Syntax b.dart:2:5\n",
        ),
        ("import 'b.dart';", "'", "** refused BadToken b.dart:1:1\n"),
        (
            "import 'b.dart';",
            "part of l;",
            "** refused BadDirective a.dart:1:1\n",
        ),
        (
            "library l; part 'b.dart';",
            "var x;",
            "** refused BadDirective a.dart:1:12\n",
        ),
        (
            "library l; part 'b.dart';",
            "part of m;",
            "** refused BadDirective a.dart:1:12\n",
        ),
        (
            "import 'b.dart';",
            "import 'c.dart';",
            "** refused NotFound c.dart\n",
        ),
        (
            "var ; import 'b.dart';",
            "var ;",
            "** refused Syntax a.dart:1:5\n",
        ),
        (
            "library l; part 'b.dart'; main() {}",
            "part of l; const x = 1;",
            NOT_BUILT,
        ),
        (
            "import 'b.dart'; main() {}",
            "import 'a.dart'; import 'dart:isolate';",
            NOT_BUILT,
        ),
    ] {
        refuses(&rt, alloc, &[("a.dart", root), ("b.dart", second)], want)?;
    }
    Ok(())
}

// What is against no file alone comes last.
#[test]
fn reasons_of_a_program(rt: HostRuntime) -> Result<(), AllocError> {
    let alloc = rt.alloc();
    for (root, second, want) in [
        (
            "library l; part 'b.dart'; var _x;",
            "part of l;\n get _x => 1;",
            "** refused Duplicate b.dart:2:6 _x\n",
        ),
        (
            "import 'b.dart'; a() {} var a;",
            "main() {}",
            "** refused Duplicate a.dart:1:29 a\n",
        ),
        ("import 'b.dart';", "main() {}", "** refused NoMain\n"),
        (
            "import 'b.dart'; var a, a;",
            "import 'dart:io';",
            "** refused LeftOut b.dart:1:8 Libraries\n",
        ),
    ] {
        refuses(&rt, alloc, &[("a.dart", root), ("b.dart", second)], want)?;
    }
    Ok(())
}

// Each file is read once, and the root first: the read that fails is the one whose number is listed.
#[test]
fn failing_reads(rt: HostRuntime) -> Result<(), AllocError> {
    let alloc = rt.alloc();
    let words = words(alloc, &["run", "a.dart"])?;
    let files: &[File] = &[
        ("a.dart", "import 'b.dart'; import 'c.dart' as c; main() {}"),
        ("b.dart", "import 'a.dart'; export 'd.dart';"),
        ("c.dart", "library c; import 'b.dart'; part 'e.dart';"),
        ("d.dart", "import 'dart:isolate'; import 'd.dart';"),
        ("e.dart", "part of c;"),
    ];
    for (number, want, status) in [
        (0, "", Status::ReadFault),
        (1, "", Status::ReadFault),
        (2, "", Status::ReadFault),
        (3, "", Status::ReadFault),
        (4, "", Status::ReadFault),
        (5, NOT_BUILT, Status::Refused),
    ] {
        let mut sources = MemSources::new(alloc, pairs(alloc, files)?, vec![in alloc; number]?);
        let mut sink = MemSink::new(alloc, 1, Vec::new(alloc));
        let got = dart(&rt, alloc, &words, &mut sources, &mut sink, &OpenGate);
        assert_eq!(rt; got, status);
        assert!(rt; sink.written() == want.as_bytes());
    }
    Ok(())
}
