// Whole runs over files and output in memory.
use crate::laws::dart_in_memory;
use crate::status::Status;
use crate::tool::dart;
use dart_base::bytes::Bytes;
use dart_base::limit::{UNIT_LINES, UNIT_WEIGHT};
use dart_edge::gate::OpenGate;
use dart_edge::memory::{MemSink, MemSources, NoFaultSink, NoFaultSources};
use std::alloc::{AllocError, Global};
use std::marker::Sync;
use std::process::Abort;
use std::sync::Wait;
use std::thread::Threads;

const ONE_SUM: &str = "main() { print(1 + 2); }";

const USAGE: &str =
    "usage: dart run|trace [--checked] [--steps N] [--units N] [--workers N] FILE | erase FILE | analyse FILE | soak N\n";

const ONE_CLASS: &str =
    "class C { static int n = 1; final int k; C(int this.k); int operator +(int o) => k + o; }";

const ONE_CLASS_ERASED: &str =
    "class C { static var n = 1 ; final k ; C ( this . k ) ; operator + ( o ) => k + o ; }\n";

const NOT_BUILT: &str = "** refused NotBuilt a.dart\n";

const AT_LIMIT: &str = "** limit IntegerLimit\n";

fn words(alloc: Global, texts: &[&str]) -> Result<Vec<String>, AllocError> {
    let mut words = Vec::new(alloc);
    for text in texts {
        words.push(String::from_str(alloc, text)?)?;
    }
    Ok(words)
}

// The text as the only file.
fn files(alloc: Global, text: &[u8]) -> Result<Vec<(Bytes, Bytes)>, AllocError> {
    let mut files = Vec::new(alloc);
    let name = Bytes::from_slice(alloc, b"a.dart")?;
    files.push((name, Bytes::from_slice(alloc, text)?))?;
    Ok(files)
}

#[test]
fn programs(rt: HostRuntime) -> Result<(), AllocError> {
    let alloc = rt.alloc();
    let words = words(alloc, &["run", "a.dart"])?;
    for (text, want, status) in [
        (ONE_SUM, "3\n", Status::Done),
        ("main() {}", "", Status::Done),
        (
            "main ( ){\r\n\tprint(007); // seven\nprint('a b') /* and /* a */ text */;\n}\n",
            "7\na b\n",
            Status::Done,
        ),
        (
            "main() { int a = 2; var b = a + 40; print('x'); print(b + a); }",
            "x\n44\n",
            Status::Done,
        ),
        (
            "main() { String a = 2; var b = a + 40; print('x'); print(b + a); }",
            "x\n44\n",
            Status::Done,
        ),
        (
            "main() { int a = 'x'; dynamic b = a; print(b); }",
            "x\n",
            Status::Done,
        ),
        (
            "main() { var printer = 1; print(printer); }",
            "1\n",
            Status::Done,
        ),
        (
            "main() { print(a); var a = 1; }",
            "** uncaught a.dart:1 NoSuchMethodError: a\n",
            Status::Uncaught,
        ),
        (
            "main() {\nvar a = a; }",
            "** uncaught a.dart:2 NoSuchMethodError: a\n",
            Status::Uncaught,
        ),
        (
            "main() { var a = 1; int a = 2; print(a); }",
            "** refused Duplicate a.dart:1:25 a\n",
            Status::Refused,
        ),
        ("main() { var print = 1; }", "", Status::Done),
        (
            "main() { print('a' + 1); }",
            "** uncaught a.dart:1 ArgumentError\n",
            Status::Uncaught,
        ),
        (
            "class C { var a; C(this.a); b() => () => a++; } main() { var c = new C(6); c.b()(); print('${c.a}'); }",
            "7\n",
            Status::Done,
        ),
        (
            "main() { for (;;) { } }",
            "** limit OutOfSteps\n",
            Status::Limit,
        ),
        (
            "class A extends A { } main() { }",
            "** refused CyclicClasses a.dart:1:17\n",
            Status::Refused,
        ),
        (
            "main() { break; }",
            "** refused BadLabel a.dart:1:10\n",
            Status::Refused,
        ),
        (
            "const one = 1; main() { print(one); }",
            NOT_BUILT,
            Status::Refused,
        ),
        (
            "main() { print(1 +); }",
            "** refused Syntax a.dart:1:19\n",
            Status::Refused,
        ),
        (
            "main() { print(170141183460469231731687303715884105727); }",
            "170141183460469231731687303715884105727\n",
            Status::Done,
        ),
        (
            "main() { print(170141183460469231731687303715884105728); }",
            "** refused IntegerTooLarge a.dart:1:16\n",
            Status::Refused,
        ),
        (
            "main() { print(170141183460469231731687303715884105727 + 1); }",
            AT_LIMIT,
            Status::Limit,
        ),
        (
            "main() { var a = 170141183460469231731687303715884105727; print(5); print(a + a + a); print(6); }",
            "5\n** limit IntegerLimit\n",
            Status::Limit,
        ),
    ] {
        let mut sources = NoFaultSources::new(alloc, files(alloc, text.as_bytes())?);
        let mut sink = NoFaultSink::new(alloc);
        let got = dart_in_memory(&rt, alloc, &words, &mut sources, &mut sink, &OpenGate);
        assert_eq!(rt; got, status, "{text}");
        assert!(rt; sink.written() == want.as_bytes(), "{text}");
    }
    Ok(())
}

#[test]
fn erased(rt: HostRuntime) -> Result<(), AllocError> {
    let alloc = rt.alloc();
    let words = words(alloc, &["erase", "a.dart"])?;
    for (text, want, status) in [
        (ONE_CLASS, ONE_CLASS_ERASED, Status::Done),
        ("", "", Status::Done),
        (
            "f(g(String s), [int n = 1]) => g('a');",
            "f ( g , [ n = 1 ] ) => g ( 'a' ) ;\n",
            Status::Done,
        ),
        (
            "\nint get(x) => 1; int\nget get => 2;",
            "\nget ( x ) => 1 ;\nget get => 2 ;\n",
            Status::Done,
        ),
        (
            "main() { x = ; }",
            "** refused Syntax a.dart:1:14\n",
            Status::Refused,
        ),
        (
            "main() { print('ab",
            "** refused BadToken a.dart:1:16\n",
            Status::Refused,
        ),
    ] {
        let mut sources = NoFaultSources::new(alloc, files(alloc, text.as_bytes())?);
        let mut sink = NoFaultSink::new(alloc);
        let got = dart_in_memory(&rt, alloc, &words, &mut sources, &mut sink, &OpenGate);
        assert_eq!(rt; got, status, "{text}");
        assert!(rt; sink.written() == want.as_bytes(), "{text}");
    }
    Ok(())
}

#[test]
fn reasons(rt: HostRuntime) -> Result<(), AllocError> {
    let alloc = rt.alloc();
    let words = words(alloc, &["run", "a.dart"])?;
    for (text, want) in [
        (
            b"main() { print('ab".as_slice(),
            "** refused BadToken a.dart:1:16\n",
        ),
        (b"main() { print('ab\n", "** refused BadToken a.dart:1:16\n"),
        (b"m\xff", "** refused NotUtf8 a.dart 1\n"),
        (b"\\\\\\\xc0", "** refused NotUtf8 a.dart 3\n"),
        (b"/* a /* b */", "** refused BadToken a.dart:1:1\n"),
        (b"main() {}\n /* /* */", "** refused BadToken a.dart:2:2\n"),
        (
            b"main() { print('${1}ab",
            "** refused BadToken a.dart:1:20\n",
        ),
        (b"main() { print('${1", "** refused Syntax a.dart:1:20\n"),
        (b"}", "** refused Syntax a.dart:1:1\n"),
        (
            b"main() { assert(true); }",
            "** refused LeftOut a.dart:1:10 Assert\n",
        ),
        (b"const a$ = 1; main() { }", NOT_BUILT),
        (
            b"main() {\n\tprint(1.5); #}",
            "** refused LeftOut a.dart:2:8 Doubles\n",
        ),
        (
            b"main() { print(#a); }",
            "** refused LeftOut a.dart:1:16 Symbols\n",
        ),
        (
            b"main() { a?.b; }",
            "** refused LeftOut a.dart:1:11 NullAware\n",
        ),
        (
            b"main() { print('''a'''); }",
            "** refused LeftOut a.dart:1:16 TripleQuotes\n",
        ),
        (
            b"main() { print(0x80000000000000000000000000000000); }",
            "** refused IntegerTooLarge a.dart:1:16\n",
        ),
    ] {
        let mut sources = NoFaultSources::new(alloc, files(alloc, text)?);
        let mut sink = NoFaultSink::new(alloc);
        let got = dart_in_memory(&rt, alloc, &words, &mut sources, &mut sink, &OpenGate);
        assert_eq!(rt; got, Status::Refused);
        assert!(rt; sink.written() == want.as_bytes(), "{want}");
    }
    Ok(())
}

// The limits of lines and weight, and what is just within that of lines. conformance/ has that of bytes.
#[test]
fn sizes(rt: HostRuntime) -> Result<(), AllocError> {
    let alloc = rt.alloc();
    let words = words(alloc, &["run", "a.dart"])?;
    for (length, byte, want) in [
        (UNIT_LINES + 1, b'\n', "** refused TooLarge a.dart\n"),
        (UNIT_LINES, b'\n', "** refused NoMain\n"),
        (UNIT_WEIGHT + 1, b'a', "** refused TooLarge a.dart\n"),
    ] {
        let mut text = Vec::new(alloc);
        text.resize(length, byte)?;
        let mut sources = NoFaultSources::new(alloc, files(alloc, &text)?);
        let mut sink = NoFaultSink::new(alloc);
        let got = dart_in_memory(&rt, alloc, &words, &mut sources, &mut sink, &OpenGate);
        assert_eq!(rt; got, Status::Refused);
        assert!(rt; sink.written() == want.as_bytes());
    }
    Ok(())
}

#[test]
fn lengths(rt: HostRuntime) -> Result<(), AllocError> {
    let alloc = rt.alloc();
    let words = words(alloc, &["run", "a.dart"])?;
    for (length, want, status) in [(10_000, "3\n", Status::Done), (10_001, "3\n", Status::Done)] {
        let mut text = Vec::from_slice(alloc, ONE_SUM.as_bytes())?;
        text.resize(length, b'\n')?;
        let mut sources = NoFaultSources::new(alloc, files(alloc, &text)?);
        let mut sink = NoFaultSink::new(alloc);
        let got = dart_in_memory(&rt, alloc, &words, &mut sources, &mut sink, &OpenGate);
        assert_eq!(rt; got, status);
        assert!(rt; sink.written() == want.as_bytes());
    }
    Ok(())
}

#[test]
fn words_without_a_program(rt: HostRuntime) -> Result<(), AllocError> {
    let alloc = rt.alloc();
    for (texts, want, status) in [
        (
            ["run", "b.dart"].as_slice(),
            "** refused NotFound b.dart\n",
            Status::Refused,
        ),
        (
            ["run", "a\n\x1f b"].as_slice(),
            "** refused NotFound a   b\n",
            Status::Refused,
        ),
        (
            ["run", "--units", "7", "--steps", "9", "b.dart"].as_slice(),
            "** refused NotFound b.dart\n",
            Status::Refused,
        ),
        (
            ["run", "--checked", "b.dart"].as_slice(),
            "** refused NotFound b.dart\n",
            Status::Refused,
        ),
        (["run"].as_slice(), USAGE, Status::Usage),
        (["run", "--checked"].as_slice(), USAGE, Status::Usage),
        (
            ["run", "--checked", "--checked", "a.dart"].as_slice(),
            USAGE,
            Status::Usage,
        ),
        (["run", "--steps", "9"].as_slice(), USAGE, Status::Usage),
        ([].as_slice(), USAGE, Status::Usage),
        (["run", ""].as_slice(), USAGE, Status::Usage),
        (["run", "-a.dart"].as_slice(), USAGE, Status::Usage),
        (["run", "a.dart", "a.dart"].as_slice(), USAGE, Status::Usage),
        (["analyse", "a.dart"].as_slice(), USAGE, Status::Usage),
        (
            ["erase", "b.dart"].as_slice(),
            "** refused NotFound b.dart\n",
            Status::Refused,
        ),
        (["erase"].as_slice(), USAGE, Status::Usage),
        (["erase", "-a.dart"].as_slice(), USAGE, Status::Usage),
    ] {
        let words = words(alloc, texts)?;
        let mut sources = NoFaultSources::new(alloc, files(alloc, ONE_SUM.as_bytes())?);
        let mut sink = NoFaultSink::new(alloc);
        let got = dart_in_memory(&rt, alloc, &words, &mut sources, &mut sink, &OpenGate);
        assert_eq!(rt; got, status);
        assert!(rt; sink.written() == want.as_bytes());
    }
    Ok(())
}

#[test]
fn faults(rt: HostRuntime) -> Result<(), AllocError> {
    let alloc = rt.alloc();
    let words = words(alloc, &["run", "a.dart"])?;
    for (reads, writes, want, status) in [
        ([].as_slice(), [1].as_slice(), "3", Status::WriteFault),
        ([].as_slice(), [0].as_slice(), "", Status::WriteFault),
        ([0].as_slice(), [].as_slice(), "", Status::ReadFault),
        ([1].as_slice(), [2].as_slice(), "3\n", Status::Done),
    ] {
        let reads = Vec::from_slice(alloc, reads)?;
        let mut sources = MemSources::new(alloc, files(alloc, ONE_SUM.as_bytes())?, reads);
        let mut sink = MemSink::new(alloc, 1, Vec::from_slice(alloc, writes)?);
        let got = dart(&rt, alloc, &words, &mut sources, &mut sink, &OpenGate);
        assert_eq!(rt; got, status);
        assert!(rt; sink.written() == want.as_bytes());
    }
    Ok(())
}

const TEN_STATEMENTS: &str =
    "main() { var a = 1; int b = a + 2; String c = 'text'; print(a); print(b); print(c); dynamic d = a + b + 4; print(d); print('last'); print(d + d); }";

// Gives the text to a command, and accepts its outcome, or Memory after a prefix of it.
fn in_little_memory<R: Abort + Threads + Wait + Sync>(
    rt: &R,
    alloc: Global,
    command: &str,
    text: &str,
    want: &str,
) -> Result<(), AllocError> {
    let words = words(alloc, &[command, "a.dart"])?;
    let files = files(alloc, text.as_bytes())?;
    let mut sources = MemSources::new(alloc, files, Vec::new(alloc));
    let mut sink = MemSink::new(alloc, 1, Vec::new(alloc));
    let got = dart(rt, alloc, &words, &mut sources, &mut sink, &OpenGate);
    if got == Status::Memory {
        assert!(rt; want.as_bytes().starts_with(sink.written()));
    } else {
        assert_eq!(rt; got, Status::Done);
        assert!(rt; sink.written() == want.as_bytes());
    }
    Ok(())
}

#[test]
fn out_of_memory(rt: HostRuntime) {
    for (command, text, want) in [
        ("run", ONE_SUM, "3\n"),
        ("run", TEN_STATEMENTS, "1\n3\ntext\n8\nlast\n16\n"),
        ("erase", ONE_CLASS, ONE_CLASS_ERASED),
    ] {
        // An allocation that fails before the call leaves nothing to see.
        let _ = in_little_memory(&rt, rt.alloc(), command, text, want);
    }
}

mod checked_mode;
mod several_files;
