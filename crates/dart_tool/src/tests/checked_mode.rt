// Programs in checked mode beside production.
use super::{ONE_SUM, files, words};
use crate::laws::dart_in_memory;
use crate::status::Status;
use dart_edge::gate::OpenGate;
use dart_edge::memory::{NoFaultSink, NoFaultSources};
use std::alloc::AllocError;

const CAUGHT: &str =
    "main() { try { int x = 'a'; print('b'); } on TypeError catch (e) { print('c'); } print('d'); }";

const TWICE: &str = "main() { for (var i = 0; i < 2; i++) { try { bool b = i; } catch (e) {} } }";

const WRONG_BOUND: &str = "class P<T extends num> {}\nmain() { new P<String>(); print('p'); }\n";

const WRONG_FUNCTION: &str = "h(int g(int x)) => 1; k(String s) => 2; main() { h(k); }";

// What annotations ask in checked mode, and that they ask nothing in production.
#[test]
fn modes(rt: HostRuntime) -> Result<(), AllocError> {
    let alloc = rt.alloc();
    for (text, production, checked, status) in [
        (ONE_SUM, "3\n", "3\n", Status::Done),
        (
            "main() { int x = null; print(x); }",
            "null\n",
            "null\n",
            Status::Done,
        ),
        (
            CAUGHT,
            "b\nd\n",
            "** check VarInit a.dart:1:24\nc\nd\n",
            Status::CheckFailed,
        ),
        (
            TWICE,
            "",
            "** check VarInit a.dart:1:55\n** check VarInit a.dart:1:55\n",
            Status::CheckFailed,
        ),
        (
            "main() {\n  int x = 'a';\n  print('b');\n}\n",
            "b\n",
            "** check VarInit a.dart:2:11\n** uncaught a.dart:2 TypeError\n",
            Status::CheckFailed,
        ),
        (
            "main() { if (1) print('t'); else print('f'); }",
            "f\n",
            "** check Condition a.dart:1:14\n** uncaught a.dart:1 TypeError\n",
            Status::CheckFailed,
        ),
        (
            "main() { if (null) print('t'); else print('f'); }",
            "f\n",
            "** check NullCondition a.dart:1:14\n** uncaught a.dart:1 TypeError\n",
            Status::CheckFailed,
        ),
        (
            WRONG_BOUND,
            "p\n",
            "** check Bound a.dart:2:10\n** uncaught a.dart:2 TypeError\n",
            Status::CheckFailed,
        ),
        (
            WRONG_FUNCTION,
            "",
            "** check Param a.dart:1:7\n** uncaught a.dart:1 TypeError\n",
            Status::CheckFailed,
        ),
    ] {
        for (texts, want, end) in [
            (["run", "a.dart"].as_slice(), production, Status::Done),
            (["run", "--checked", "a.dart"].as_slice(), checked, status),
        ] {
            let words = words(alloc, texts)?;
            let mut sources = NoFaultSources::new(alloc, files(alloc, text.as_bytes())?);
            let mut sink = NoFaultSink::new(alloc);
            let got = dart_in_memory(&rt, alloc, &words, &mut sources, &mut sink, &OpenGate);
            assert_eq!(rt; got, end, "{text}");
            assert!(rt; sink.written() == want.as_bytes(), "{text}");
        }
    }
    Ok(())
}

// Steps and checks: the report comes with the step that makes the value, and a limit behind it is told by the status.
#[test]
fn checked_steps(rt: HostRuntime) -> Result<(), AllocError> {
    let alloc = rt.alloc();
    let endless = "main() { try { int x = 'a'; } catch (e) { } for (;;) { } }";
    let eight = "main() { int x = 'a'; var y = 2; }";
    let failed = "** check VarInit a.dart:1:18\n** uncaught a.dart:1 TypeError\n";
    let limit = "** limit OutOfSteps\n";
    for (texts, text, want, status) in [
        (
            ["run", "--steps", "8", "a.dart"].as_slice(),
            eight,
            "",
            Status::Done,
        ),
        (
            ["run", "--steps", "7", "a.dart"].as_slice(),
            eight,
            limit,
            Status::Limit,
        ),
        (
            ["run", "--checked", "--steps", "7", "a.dart"].as_slice(),
            eight,
            failed,
            Status::CheckFailed,
        ),
        (
            ["run", "--steps", "5", "--checked", "a.dart"].as_slice(),
            eight,
            failed,
            Status::CheckFailed,
        ),
        (
            ["run", "--checked", "--steps", "4", "a.dart"].as_slice(),
            eight,
            limit,
            Status::Limit,
        ),
        (
            ["run", "--checked", "--steps", "1000", "a.dart"].as_slice(),
            endless,
            "** check VarInit a.dart:1:24\n** limit OutOfSteps\n",
            Status::Limit,
        ),
    ] {
        let words = words(alloc, texts)?;
        let mut sources = NoFaultSources::new(alloc, files(alloc, text.as_bytes())?);
        let mut sink = NoFaultSink::new(alloc);
        let got = dart_in_memory(&rt, alloc, &words, &mut sources, &mut sink, &OpenGate);
        assert_eq!(rt; got, status, "{texts:?}");
        assert!(rt; sink.written() == want.as_bytes(), "{texts:?}");
    }
    Ok(())
}
