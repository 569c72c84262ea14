// The reasons against programs whose units are all loaded.
use crate::files::{File, pairs};
use dart_edge::memory::NoFaultSources;
use scope_files::check::{Checked, check};
use scope_load::units::UnitName;
use scope_reason::reason::ProgramReason;
use std::alloc::{AllocError, Global};
use std::process::Abort;
use std::str::from_utf8;
use std::test::Fail;

fn shown_reason(alloc: Global, reason: &ProgramReason) -> Result<String, AllocError> {
    let ProgramReason::Duplicate(UnitName::File(file), at, name) = reason else {
        return match reason {
            ProgramReason::NoMain => String::from_str(alloc, "NoMain"),
            ProgramReason::Duplicate(_, _, _) => String::from_str(alloc, "dart:"),
        };
    };
    let file = from_utf8(file.as_slice()).unwrap_or("?");
    let name = from_utf8(name.as_slice()).unwrap_or("?");
    let line = at.line;
    let column = at.column;
    format!(in alloc; "{file}:{line}:{column} {name}")
}

// The first reason against the program whose root a.dart has this text, with these further files.
fn found_with(alloc: Global, text: &str, files: &[File]) -> Result<String, AllocError> {
    let mut sources = NoFaultSources::new(alloc, pairs(alloc, files)?);
    match check(alloc, b"a.dart", text.as_bytes(), &mut sources) {
        Ok(Checked::Sound(_)) => String::from_str(alloc, "none"),
        Ok(Checked::Against(reason)) => shown_reason(alloc, &reason),
        Err(_) => String::from_str(alloc, "not loaded"),
    }
}

fn found_in(alloc: Global, text: &str) -> Result<String, AllocError> {
    found_with(alloc, text, &[])
}

// The reasons against files of this text alone.
fn of_texts(rt: &impl Abort, alloc: Global, cases: &[(&str, &str)]) -> Result<(), Fail> {
    for (text, want) in cases {
        let got = found_in(alloc, *text)?;
        assert_eq!(rt; got.as_str(), *want);
    }
    Ok(())
}

// Nothing is against the two libraries of the language, which each program has.
#[test]
fn languages_libraries(rt: HostRuntime) -> Result<(), Fail> {
    of_texts(
        &rt,
        rt.alloc(),
        &[("import 'dart:isolate'; main() {}", "none")],
    )
}

#[test]
fn scopes_of_a_library(rt: HostRuntime) -> Result<(), Fail> {
    of_texts(
        &rt,
        rt.alloc(),
        &[
            ("main() {} main() {}", "a.dart:1:11 main"),
            ("var a; var a; main() {}", "a.dart:1:12 a"),
            ("var a, b, a; main() {}", "a.dart:1:11 a"),
            ("var _a; get _a => 1; main() {}", "a.dart:1:13 _a"),
            ("var a; set a(v) {} main() {}", "a.dart:1:12 a"),
            ("final a = 1; set a(v) {} main() {}", "none"),
            ("get a => 1; set a(v) {} main() {}", "none"),
            (
                "get a => 1; set a(v) {} get a => 2; main() {}",
                "a.dart:1:29 a",
            ),
            ("a() {} set a(v) {} main() {}", "a.dart:1:12 a"),
            ("class A {} typedef A(); main() {}", "a.dart:1:20 A"),
            (
                "get get => 1; set get(v) {} var get; main() {}",
                "a.dart:1:33 get",
            ),
        ],
    )
}

#[test]
fn scopes_of_a_class(rt: HostRuntime) -> Result<(), Fail> {
    of_texts(
        &rt,
        rt.alloc(),
        &[
            ("class A { m() {} m() {} } main() {}", "a.dart:1:18 m"),
            (
                "class A { static m() {} m() {} } main() {}",
                "a.dart:1:25 m",
            ),
            ("class A { var x; set x(v) {} } main() {}", "a.dart:1:22 x"),
            ("class A { A(); A(); } main() {}", "a.dart:1:16 A"),
            ("class A { A.b(); A(); A.b(); } main() {}", "a.dart:1:25 b"),
            ("class A { A(this.x); A.x(); var x; } main() {}", "none"),
            (
                "class A { A.b(this.x, {x}); var x; } main() {}",
                "a.dart:1:24 x",
            ),
            ("class A<T, T> {} main() {}", "a.dart:1:12 T"),
            ("class A<A> {} main() {}", "none"),
            (
                "class A { operator -() {} operator -(a) {} operator -() {} } main() {}",
                "a.dart:1:53 unary-",
            ),
            (
                "class A { operator [](a) {} operator []=(a, b) {} operator [](b) {} } main() {}",
                "a.dart:1:60 []",
            ),
            (
                "class A { operator >>(a) {} operator >(a) {} operator ==(a) {} operator >>(b) {} } main() {}",
                "a.dart:1:73 >>",
            ),
        ],
    )
}

#[test]
fn scopes_of_statements(rt: HostRuntime) -> Result<(), Fail> {
    of_texts(
        &rt,
        rt.alloc(),
        &[
            ("f(a, [a]) {} main() {}", "a.dart:1:7 a"),
            ("f(a) { var a; } main() {}", "none"),
            ("main() { var a; { var a; } }", "none"),
            ("main() { { var a; var a; } }", "a.dart:1:23 a"),
            ("main() { a() {} var a; }", "a.dart:1:21 a"),
            ("main() { for (var i, i; ;) ; }", "a.dart:1:22 i"),
            ("main() { for (var i; ;) var i; }", "none"),
            ("main() { for (var i in i) { var i; } }", "none"),
            ("main() { if (1) var a; else var a; }", "none"),
            ("main() { try {} catch (e, e) {} }", "a.dart:1:27 e"),
            ("main() { try {} catch (e) { var e; } }", "none"),
            (
                "main() { switch (1) { case 1: var a; case 2: var a; var a; } }",
                "a.dart:1:57 a",
            ),
            ("main() { l: l: while (true) break l; }", "none"),
            ("main() { var f = (x) { var y; var y; }; }", "a.dart:1:35 y"),
            ("main(a, [f(b, b)]) {}", "none"),
            ("typedef F(a, a); main() {}", "none"),
        ],
    )
}

// Ten thousand variables, each on a line of its own, and then another one.
fn many_variables(alloc: Global, last: &str) -> Result<String, AllocError> {
    let mut text = String::new(alloc);
    for number in 0..10_000u32 {
        let one = format!(in alloc; "var a{number};\n")?;
        text.push_str(one.as_str())?;
    }
    text.push_str(last)?;
    Ok(text)
}

#[test]
fn ten_thousand_names(rt: HostRuntime) -> Result<(), Fail> {
    let alloc = rt.alloc();
    for (last, want) in [
        ("main() {} var a10000;", "none"),
        ("main() {} var a0;", "a.dart:10001:15 a0"),
    ] {
        let text = many_variables(alloc, last)?;
        let got = found_in(alloc, text.as_str())?;
        assert_eq!(rt; got.as_str(), want);
    }
    Ok(())
}

#[test]
fn main_functions(rt: HostRuntime) -> Result<(), Fail> {
    of_texts(
        &rt,
        rt.alloc(),
        &[
            ("", "NoMain"),
            ("main(a) {}", "none"),
            ("main(a, [b, c]) {}", "none"),
            ("main({a}) {}", "none"),
            ("main(a, b) {}", "NoMain"),
            ("var main;", "NoMain"),
            ("get main => 1;", "NoMain"),
            ("set main(a) {}", "NoMain"),
            ("class main {}", "NoMain"),
            ("class A { main() {} }", "NoMain"),
            ("Main() {}", "NoMain"),
            ("var a, a;", "a.dart:1:8 a"),
        ],
    )
}

#[test]
fn programs_of_several_files(rt: HostRuntime) -> Result<(), Fail> {
    let alloc = rt.alloc();
    let cases: [(&str, &[File], &str); 8] = [
        (
            "library l; part 'p.dart'; var x; main() {}",
            &[("p.dart", "part of l; var x;")],
            "p.dart:1:16 x",
        ),
        (
            "library l; part 'p.dart'; var _x; main() {}",
            &[("p.dart", "part of l; main(_x) {}")],
            "p.dart:1:12 main",
        ),
        (
            "library l; part 'p.dart';",
            &[("p.dart", "part of l; main() {}")],
            "none",
        ),
        (
            "import 'b.dart'; var _x, x; main() {}",
            &[("b.dart", "var _x, x; main() {}")],
            "none",
        ),
        ("import 'b.dart';", &[("b.dart", "main() {}")], "NoMain"),
        (
            "import 'b.dart';",
            &[("b.dart", "var a;\n  final a = 1;")],
            "b.dart:2:9 a",
        ),
        (
            "import 'b.dart'; var b; var b;",
            &[("b.dart", "var a, a;")],
            "a.dart:1:29 b",
        ),
        (
            "import 'b.dart' as p; var p; main() {}",
            &[
                ("b.dart", "export 'c.dart';"),
                ("c.dart", "part 'd.dart';"),
                ("d.dart", "var a, a;"),
            ],
            "not loaded",
        ),
    ];
    for (text, files, want) in cases {
        let got = found_with(alloc, text, files)?;
        assert_eq!(rt; got.as_str(), want);
    }
    Ok(())
}
