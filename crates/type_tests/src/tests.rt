// The relations on types of worked examples, and on tables that make a careless search explode.
ghost use Rattle.dart_ir.specs.Classes.{IsValid};

mod table;
mod valid;

use crate::tests::table::{
    CALLER, FIRST_FREE, FUNCTION, GROWING, GROWING_BASE, INT, ITERABLE, LIST, NUM, OBJECT, STRING,
    SUB_CALLER, add, extend, function, ints, naming, of, pair, plain, prelude, taking,
};
use crate::tests::valid::{is_formed, is_valid};
use dart_ir::class::Classes;
use dart_ir::types::{TypeRef, Types};
use dart_type::subtype::{assignable, is_subtype, more_specific};
use std::alloc::{AllocError, Global};
use std::process::Abort;
use std::test::Fail;

// The types of the table of pairs, in order.
fn types(alloc: Global) -> Result<Types, AllocError> {
    let mut ts = Vec::new(alloc);
    ts.push(TypeRef::Dynamic)?;
    ts.push(TypeRef::Bottom)?;
    ts.push(TypeRef::Void)?;
    for c in [OBJECT, FUNCTION, NUM, INT, STRING] {
        ts.push(plain(alloc, c))?;
    }
    add_lists(alloc, &mut ts)?;
    add_functions(alloc, &mut ts)?;
    ts.push(of(alloc, GROWING, plain(alloc, INT))?)?;
    ts.push(of(alloc, GROWING_BASE, TypeRef::Dynamic)?)?;
    ts.push(pair(alloc, TypeRef::Dynamic, plain(alloc, OBJECT))?)?;
    ts.push(pair(alloc, plain(alloc, INT), plain(alloc, INT))?)?;
    Ok(ts)
}

fn add_lists(alloc: Global, ts: &mut Types) -> Result<(), AllocError> {
    ts.push(of(alloc, LIST, TypeRef::Dynamic)?)?;
    ts.push(of(alloc, LIST, TypeRef::Bottom)?)?;
    for c in [INT, NUM, STRING] {
        ts.push(of(alloc, LIST, plain(alloc, c))?)?;
    }
    for c in [INT, NUM] {
        ts.push(of(alloc, ITERABLE, plain(alloc, c))?)?;
    }
    ts.push(plain(alloc, CALLER))?;
    ts.push(plain(alloc, SUB_CALLER))?;
    Ok(())
}

fn add_functions(alloc: Global, ts: &mut Types) -> Result<(), AllocError> {
    ts.push(naming(alloc, 0, INT)?)?;
    ts.push(taking(alloc, TypeRef::Dynamic)?)?;
    ts.push(taking(alloc, plain(alloc, INT))?)?;
    ts.push(taking(alloc, plain(alloc, STRING))?)?;
    let mut number = Vec::new(alloc);
    number.push(plain(alloc, NUM))?;
    ts.push(function(
        alloc,
        plain(alloc, INT),
        number,
        Vec::new(alloc),
        Vec::new(alloc),
    )?)?;
    ts.push(function(
        alloc,
        TypeRef::Void,
        ints(alloc, 1)?,
        ints(alloc, 1)?,
        Vec::new(alloc),
    )?)?;
    ts.push(function(
        alloc,
        TypeRef::Void,
        ints(alloc, 2)?,
        Vec::new(alloc),
        Vec::new(alloc),
    )?)?;
    ts.push(naming(alloc, 1, INT)?)?;
    ts.push(naming(alloc, 2, INT)?)?;
    ts.push(naming(alloc, 1, STRING)?)?;
    Ok(())
}

// The places of the types in `types`.
const DYNAMIC: usize = 0;

const BOTTOM: usize = 1;

const VOID: usize = 2;

const TOP: usize = 3;

const CALLABLE: usize = 4;

const NUMBER: usize = 5;

const WHOLE: usize = 6;

const TEXT: usize = 7;

const DYNAMICS: usize = 8;

const BOTTOMS: usize = 9;

const WHOLES: usize = 10;

const NUMBERS: usize = 11;

const TEXTS: usize = 12;

const SOME_WHOLES: usize = 13;

const SOME_NUMBERS: usize = 14;

const CALLED: usize = 15;

const SUB_CALLED: usize = 16;

const TAKES_NOTHING: usize = 17;

const TAKES_DYNAMIC: usize = 18;

const TAKES_WHOLE: usize = 19;

const TAKES_TEXT: usize = 20;

const NUMBER_TO_WHOLE: usize = 21;

const TAKES_ONE_OR_TWO: usize = 22;

const TAKES_TWO: usize = 23;

const NAMES_ONE: usize = 24;

const NAMES_TWO: usize = 25;

const NAMES_TEXT: usize = 26;

const GROWN: usize = 27;

const GROWN_BASE: usize = 28;

const LOOSE_PAIR: usize = 29;

const WHOLE_PAIR: usize = 30;

// Two types, and whether the first is more specific than, a subtype of, and assignable to the second.
const PAIRS: [(usize, usize, bool, bool, bool); 44] = [
    (DYNAMIC, TOP, false, true, true),
    (TOP, DYNAMIC, true, true, true),
    (BOTTOM, WHOLE, true, true, true),
    (WHOLE, BOTTOM, false, false, true),
    (VOID, TOP, false, false, false),
    (VOID, DYNAMIC, true, true, true),
    (DYNAMIC, VOID, false, true, true),
    (WHOLE, NUMBER, true, true, true),
    (NUMBER, WHOLE, false, false, true),
    (WHOLE, TEXT, false, false, false),
    (WHOLE, TOP, true, true, true),
    (TEXTS, DYNAMICS, true, true, true),
    (DYNAMICS, WHOLES, false, true, true),
    (TEXTS, WHOLES, false, false, false),
    (WHOLES, NUMBERS, true, true, true),
    (NUMBERS, WHOLES, false, false, true),
    (WHOLES, SOME_NUMBERS, true, true, true),
    (SOME_NUMBERS, WHOLES, false, false, true),
    (DYNAMICS, SOME_WHOLES, false, true, true),
    (BOTTOMS, WHOLES, true, true, true),
    (WHOLES, BOTTOMS, false, false, true),
    (CALLED, CALLABLE, true, true, true),
    (SUB_CALLED, CALLABLE, true, true, true),
    (SUB_CALLED, TAKES_WHOLE, true, true, true),
    (TEXT, TAKES_WHOLE, false, false, false),
    (TAKES_WHOLE, CALLABLE, true, true, true),
    (CALLABLE, TAKES_WHOLE, false, false, true),
    (TAKES_WHOLE, TOP, true, true, true),
    (NUMBER_TO_WHOLE, TAKES_WHOLE, true, true, true),
    (TAKES_WHOLE, NUMBER_TO_WHOLE, false, false, true),
    (TAKES_WHOLE, TAKES_TEXT, false, false, false),
    (TAKES_DYNAMIC, TAKES_WHOLE, true, true, true),
    (TAKES_ONE_OR_TWO, TAKES_WHOLE, true, true, true),
    (TAKES_WHOLE, TAKES_ONE_OR_TWO, false, false, true),
    (TAKES_TWO, TAKES_ONE_OR_TWO, false, false, true),
    (TAKES_NOTHING, TAKES_WHOLE, false, false, false),
    (NAMES_TWO, NAMES_ONE, true, true, true),
    (NAMES_ONE, NAMES_TWO, false, false, true),
    (NAMES_TEXT, NAMES_ONE, false, false, false),
    (GROWN, GROWN_BASE, true, true, true),
    (LOOSE_PAIR, WHOLE_PAIR, false, false, true),
    (WHOLE_PAIR, LOOSE_PAIR, true, true, true),
    (GROWN, CALLABLE, false, false, false),
    (WHOLES, CALLABLE, false, false, false),
];

// Whether t is more specific than, a subtype of, and assignable to s.
fn compare(
    rt: &impl Abort,
    alloc: Global,
    k: &Classes,
    t: &TypeRef,
    s: &TypeRef,
) -> Result<(bool, bool, bool), AllocError>
    requires { IsValid k.now }
{
    assert!(rt; is_formed(k, 0, t));
    assert!(rt; is_formed(k, 0, s));
    let specific = more_specific(alloc, k, t, s)?;
    let subtype = is_subtype(alloc, k, t, s)?;
    let assigns = assignable(alloc, k, t, s)?;
    Ok((specific, subtype, assigns))
}

#[test]
fn pairs(rt: HostRuntime) -> Result<(), Fail> {
    let alloc = rt.alloc();
    let k = prelude(alloc)?;
    assert!(rt; is_valid(&k));
    let ts = types(alloc)?;
    for (t, s, specific, subtype, assigns) in PAIRS {
        assert!(rt; t < ts.len() && s < ts.len());
        let answers = compare(&rt, alloc, &k, &ts[t], &ts[s])?;
        assert_eq!(rt; answers, (specific, subtype, assigns), "at {t} and {s}");
    }
    Ok(())
}

#[test]
fn ladder_of_diamonds(rt: HostRuntime) -> Result<(), Fail> {
    let alloc = rt.alloc();
    let mut k = prelude(alloc)?;
    let mut top = OBJECT;
    for _ in 0..20u32 {
        let a = extend(alloc, &mut k, top, false)?;
        let b = extend(alloc, &mut k, top, false)?;
        let mut interfaces = Vec::new(alloc);
        interfaces.push(plain(alloc, b))?;
        top = add(alloc, &mut k, 0, Some(plain(alloc, a)), interfaces, false)?;
    }
    assert!(rt; is_valid(&k));
    let t = plain(alloc, top);
    assert_eq!(rt;
        compare(&rt, alloc, &k, &t, &plain(alloc, STRING))?,
        (false, false, false)
    );
    assert_eq!(rt;
        compare(&rt, alloc, &k, &t, &plain(alloc, OBJECT))?,
        (true, true, true)
    );
    Ok(())
}

#[test]
fn tower_of_pairs(rt: HostRuntime) -> Result<(), Fail> {
    let alloc = rt.alloc();
    let mut k = prelude(alloc)?;
    let mut below = GROWING_BASE;
    for i in 0..20u32 {
        let c = FIRST_FREE + i;
        let two = pair(
            alloc,
            of(alloc, c, TypeRef::Param(0))?,
            of(alloc, c, TypeRef::Param(0))?,
        )?;
        below = add(
            alloc,
            &mut k,
            1,
            Some(of(alloc, below, two)?),
            Vec::new(alloc),
            false,
        )?;
        assert_eq!(rt; below, c);
    }
    assert!(rt; is_valid(&k));
    let t = of(alloc, below, plain(alloc, INT))?;
    let mut s = TypeRef::Dynamic;
    for _ in 0..6u32 {
        s = of(alloc, GROWING_BASE, s)?;
    }
    assert_eq!(rt; compare(&rt, alloc, &k, &t, &s)?, (false, false, false));
    let base = of(alloc, GROWING_BASE, TypeRef::Dynamic)?;
    assert_eq!(rt; compare(&rt, alloc, &k, &t, &base)?, (true, true, true));
    Ok(())
}

#[test]
fn growing_supertypes(rt: HostRuntime) -> Result<(), Fail> {
    let alloc = rt.alloc();
    let k = prelude(alloc)?;
    assert!(rt; is_valid(&k));
    let t = of(alloc, GROWING, plain(alloc, INT))?;
    let mut s = plain(alloc, INT);
    let mut u = TypeRef::Dynamic;
    for _ in 0..60u32 {
        s = of(alloc, GROWING_BASE, s)?;
        u = of(alloc, GROWING_BASE, u)?;
    }
    assert_eq!(rt; compare(&rt, alloc, &k, &t, &s)?, (false, false, false));
    assert_eq!(rt; compare(&rt, alloc, &k, &t, &u)?, (true, true, true));
    Ok(())
}

#[test]
fn nested_functions(rt: HostRuntime) -> Result<(), Fail> {
    let alloc = rt.alloc();
    let k = prelude(alloc)?;
    assert!(rt; is_valid(&k));
    let mut f = plain(alloc, INT);
    let mut g = plain(alloc, STRING);
    for _ in 0..60u32 {
        f = function(
            alloc,
            of(alloc, LIST, f)?,
            Vec::new(alloc),
            Vec::new(alloc),
            Vec::new(alloc),
        )?;
        g = function(
            alloc,
            of(alloc, LIST, g)?,
            Vec::new(alloc),
            Vec::new(alloc),
            Vec::new(alloc),
        )?;
    }
    assert_eq!(rt; compare(&rt, alloc, &k, &f, &g)?, (false, false, false));
    assert_eq!(rt; compare(&rt, alloc, &k, &f, &f)?, (true, true, true));
    Ok(())
}
