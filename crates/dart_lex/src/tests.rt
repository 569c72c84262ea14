// Tokens of texts, and texts of tokens.
use crate::lexer::{LexFault, lex};
use crate::render::render;
use dart_base::bytes::Bytes;
use dart_token::token::{Token, TokenKind};
use std::alloc::{AllocError, Global};
use std::test::Fail;

fn letter(kind: TokenKind) -> char {
    match kind {
        TokenKind::Identifier => 'i',
        TokenKind::Word(_) => 'w',
        TokenKind::Integer => 'n',
        TokenKind::Whole => 'q',
        TokenKind::Head(_) => 'h',
        TokenKind::Middle => 'm',
        TokenKind::Tail => 't',
        TokenKind::Sign(_) => 's',
    }
}

// The letter of each token's kind with its length and place, or the fault.
fn shown(alloc: Global, text: &[u8]) -> Result<String, AllocError> {
    match lex(alloc, 0, text) {
        Err(fault) => shown_fault(alloc, fault),
        Ok(tokens) => shown_tokens(alloc, tokens.as_slice()),
    }
}

fn shown_tokens(alloc: Global, tokens: &[Token]) -> Result<String, AllocError> {
    let mut out = String::new(alloc);
    for token in tokens {
        let kind = letter(token.kind);
        let length = token.lexeme.len();
        let line = token.place.line;
        let column = token.place.column;
        let piece = format!(in alloc; "{kind}{length}@{line}:{column} ")?;
        out.push_str(piece.as_str())?;
    }
    Ok(out)
}

fn shown_fault(alloc: Global, fault: LexFault) -> Result<String, AllocError> {
    match fault {
        LexFault::TooLarge => String::from_str(alloc, "TooLarge"),
        LexFault::NotUtf8(offset) => format!(in alloc; "NotUtf8 {offset}"),
        LexFault::BadToken(place) => {
            let line = place.line;
            let column = place.column;
            format!(in alloc; "BadToken {line}:{column}")
        }
        LexFault::LeftOut(place, feature) => {
            let line = place.line;
            let column = place.column;
            format!(in alloc; "LeftOut {line}:{column} {feature:?}")
        }
        LexFault::IntegerTooLarge(place) => {
            let line = place.line;
            let column = place.column;
            format!(in alloc; "IntegerTooLarge {line}:{column}")
        }
        LexFault::Memory => String::from_str(alloc, "Memory"),
    }
}

// The text of the tokens of a text.
fn rendered(alloc: Global, text: &[u8]) -> Result<Bytes, LexFault> {
    let tokens = lex(alloc, 0, text)?;
    Ok(render(alloc, tokens.as_slice())?)
}

#[test]
fn takes_the_longest(rt: HostRuntime) -> Result<(), Fail> {
    let alloc = rt.alloc();
    for (text, want) in [
        (
            b"a<<=b << c<=d<e".as_slice(),
            "i1@1:1 s3@1:2 i1@1:5 s2@1:7 i1@1:10 s2@1:11 i1@1:13 s1@1:14 i1@1:15 ",
        ),
        (
            b"a>>=b>>c>=d".as_slice(),
            "i1@1:1 s1@1:2 s2@1:3 i1@1:5 s1@1:6 s1@1:7 i1@1:8 s2@1:9 i1@1:11 ",
        ),
        (
            b"~/=~/~=/=".as_slice(),
            "s3@1:1 s2@1:4 s1@1:6 s1@1:7 s2@1:8 ",
        ),
        (
            b"=>==!=!&&&||++--".as_slice(),
            "s2@1:1 s2@1:3 s2@1:5 s1@1:7 s2@1:8 s1@1:10 s2@1:11 s2@1:13 s2@1:15 ",
        ),
        (
            b"a..b.c?d:e".as_slice(),
            "i1@1:1 s2@1:2 i1@1:4 s1@1:5 i1@1:6 s1@1:7 i1@1:8 s1@1:9 i1@1:10 ",
        ),
        (
            b"if iff get get2 this_ $a".as_slice(),
            "w2@1:1 i3@1:4 w3@1:8 i4@1:12 i5@1:17 i2@1:23 ",
        ),
        (
            b"0x1F 0XaG 0x 12ab 1.a 1e".as_slice(),
            "n4@1:1 n3@1:6 i1@1:9 n1@1:11 i1@1:12 n2@1:14 i2@1:16 n1@1:19 s1@1:20 i1@1:21 n1@1:23 i1@1:24 ",
        ),
        (
            b"a/b//c\n/*/**/ */d".as_slice(),
            "i1@1:1 s1@1:2 i1@1:3 i1@2:10 ",
        ),
        (
            b"'' \"\" r'\\' r\"'\" rr 'a'\"b\"".as_slice(),
            "q2@1:1 q2@1:4 q4@1:7 q4@1:12 i2@1:17 q3@1:20 q3@1:23 ",
        ),
        (
            b"'a${{b}}c${'${d}'}e'".as_slice(),
            "h4@1:1 s1@1:5 i1@1:6 s1@1:7 m4@1:8 h3@1:12 i1@1:15 t2@1:16 t3@1:18 ",
        ),
        (
            b"'\xc3\xa9' a\r\n\tb }".as_slice(),
            "q4@1:1 i1@1:6 i1@2:2 s1@2:4 ",
        ),
        (b"#!/bin/dart\na".as_slice(), "i1@2:1 "),
        (b"".as_slice(), ""),
    ] {
        assert_eq!(rt; shown(alloc, text)?.as_str(), want);
    }
    Ok(())
}

#[test]
fn reads_strings(rt: HostRuntime) -> Result<(), Fail> {
    let alloc = rt.alloc();
    for (text, want) in [
        (b"'\\n\\r\\f\\b\\t\\v\\'\\\\\\$'".as_slice(), "q20@1:1 "),
        (b"'\\x4a\\u00e9\\u{1}\\u{10FFFF}'".as_slice(), "q27@1:1 "),
        (b"'$a $_b1 $this $get$set'".as_slice(), "q24@1:1 "),
        (b"'$a${b}$c'".as_slice(), "h5@1:1 i1@1:6 t4@1:7 "),
        (b" '\\x4g'".as_slice(), "BadToken 1:2"),
        (b" '\\u00e'".as_slice(), "BadToken 1:2"),
        (b" '\\u{}'".as_slice(), "BadToken 1:2"),
        (b" '\\u{0000001}'".as_slice(), "BadToken 1:2"),
        (b" '\\u{110000}'".as_slice(), "BadToken 1:2"),
        (b" '\\u{1'".as_slice(), "BadToken 1:2"),
        (b" '$'".as_slice(), "BadToken 1:2"),
        (b" '$1'".as_slice(), "BadToken 1:2"),
        (b" '$if'".as_slice(), "BadToken 1:2"),
        (b" '$$a'".as_slice(), "BadToken 1:2"),
        (b" '\\\n'".as_slice(), "BadToken 1:2"),
        (b" 'a\r'".as_slice(), "BadToken 1:2"),
        (b"'a${b}c".as_slice(), "BadToken 1:6"),
        (b" r'a${b}".as_slice(), "BadToken 1:3"),
    ] {
        assert_eq!(rt; shown(alloc, text)?.as_str(), want);
    }
    Ok(())
}

#[test]
fn gives_the_first_reason(rt: HostRuntime) -> Result<(), Fail> {
    let alloc = rt.alloc();
    for (text, want) in [
        (b"main() { print('ab".as_slice(), "BadToken 1:16"),
        (b"m\xff".as_slice(), "NotUtf8 1"),
        (b"a 'b \xe2\x82".as_slice(), "NotUtf8 5"),
        (b"/* a /* b */".as_slice(), "BadToken 1:1"),
        (
            b"main() { print(170141183460469231731687303715884105728); }".as_slice(),
            "IntegerTooLarge 1:16",
        ),
        (
            b"170141183460469231731687303715884105727".as_slice(),
            "n39@1:1 ",
        ),
        (b"0x7fffffffffffffffffffffffffffffff".as_slice(), "n34@1:1 "),
        (
            b"0x80000000000000000000000000000000".as_slice(),
            "IntegerTooLarge 1:1",
        ),
        (b"a 1.5".as_slice(), "LeftOut 1:3 Doubles"),
        (b"a .5".as_slice(), "LeftOut 1:3 Doubles"),
        (b"a 1e5".as_slice(), "LeftOut 1:3 Doubles"),
        (b"a 12E-5".as_slice(), "LeftOut 1:3 Doubles"),
        (b"a '''b'''".as_slice(), "LeftOut 1:3 TripleQuotes"),
        (b"a \"\"\"b".as_slice(), "LeftOut 1:3 TripleQuotes"),
        (b"a r'''b".as_slice(), "LeftOut 1:3 TripleQuotes"),
        (b"a#b".as_slice(), "LeftOut 1:2 Symbols"),
        (b"a??b".as_slice(), "LeftOut 1:2 NullAware"),
        (b"a?.b".as_slice(), "LeftOut 1:2 NullAware"),
        (b"a??=b".as_slice(), "LeftOut 1:2 NullAware"),
        (b"a\\".as_slice(), "BadToken 1:2"),
        (b"a \xc3\xa9".as_slice(), "BadToken 1:3"),
        (b"\n1.5 '".as_slice(), "LeftOut 2:1 Doubles"),
    ] {
        assert_eq!(rt; shown(alloc, text)?.as_str(), want);
    }
    Ok(())
}

#[test]
fn weighs_tokens(rt: HostRuntime) -> Result<(), Fail> {
    let alloc = rt.alloc();
    let mut text = vec![in alloc; b';'; 1_333_333]?;
    assert_eq!(rt; lex(alloc, 0, text.as_slice())?.len(), 1_333_333);
    text.push(b';')?;
    assert_eq!(rt; shown(alloc, text.as_slice())?.as_str(), "TooLarge");
    let mut lines = vec![in alloc; b'\n'; 1_000_000]?;
    assert_eq!(rt; shown(alloc, lines.as_slice())?.as_str(), "");
    lines.push(b' ')?;
    assert_eq!(rt; shown(alloc, lines.as_slice())?.as_str(), "TooLarge");
    Ok(())
}

#[test]
fn renders_on_lines(rt: HostRuntime) -> Result<(), Fail> {
    let alloc = rt.alloc();
    for (text, want) in [
        (b"a >> = b".as_slice(), b"a >> = b\n".as_slice()),
        (b"a >>= b".as_slice(), b"a >>= b\n".as_slice()),
        (b"a>\n>b>>=c".as_slice(), b"a >\n> b >>= c\n".as_slice()),
        (
            b"\n\n a /* b */ 'c${ d }'\n}".as_slice(),
            b"\n\na 'c${ d }'\n}\n".as_slice(),
        ),
        (b" ".as_slice(), b"".as_slice()),
    ] {
        assert!(rt; rendered(alloc, text)?.as_slice() == want);
    }
    Ok(())
}
