// `identical` and the natives of `Object`.
use crate::world::{
    ABC, ABCABC, FIRST, INT, PAIR, World, int, is, new_world, object, text, units_of,
};
use dart_ir::native::{Answer, NativeId};
use dart_ir::number::{DeclId, MemberId};
use dart_ir::object::Object;
use dart_ir::types::TypeRef;
use dart_ir::value::Value;
use dart_ir::values::Values;
use std::alloc::{AllocError, Global};
use std::process::Abort;
use std::test::Fail;

// A method that was taken off an object.
fn bound(w: &mut World, receiver: Value, member: u32) -> Result<Value, Fail> {
    let member = MemberId(member);
    Ok(w.add(Object::Bound { receiver, member })?)
}

fn port(w: &mut World) -> Result<Value, Fail> {
    Ok(w.add(Object::SendPort {
        isolate: 0,
        port: 3,
    })?)
}

// What the places in the tables below stand for.
const NOTHING: usize = 0;

const YES: usize = 1;

const NO: usize = 2;

const LEAST: usize = 3;

const ZERO: usize = 4;

const LITERAL: usize = 5;

const OTHER_LITERAL: usize = 6;

const MADE_TEXT: usize = 7;

const CODE: usize = 8;

const OTHER_CODE: usize = 9;

const BOUND: usize = 10;

const BOUND_AGAIN: usize = 11;

const NESTED: usize = 12;

const NESTED_AGAIN: usize = 13;

const PORT: usize = 14;

const TWIN: usize = 15;

const INT_TYPE: usize = 16;

const INT_AGAIN: usize = 17;

const BELOW_2_30: usize = 18;

const AT_2_30: usize = 19;

const MINUS_ONE: usize = 20;

// The values at these places.
fn values(alloc: Global, w: &mut World) -> Result<Vec<Value>, Fail> {
    let abc = w.add(Object::Text(units_of(alloc, b"abc")?))?;
    let first = bound(w, abc, 7)?;
    let second = bound(w, text(ABC), 7)?;
    let nested = bound(w, first, 7)?;
    let other = bound(w, second, 7)?;
    let one_port = port(w)?;
    let twin = port(w)?;
    let int_type = w.add(Object::TypeValue(TypeRef::Class(INT, Vec::new(alloc))))?;
    let int_again = object(w.call(NativeId::ObjectRuntimeType, &[int(1)])?);
    let mut values = Vec::new(alloc);
    for value in [
        Value::Null,
        Value::Bool(true),
        Value::Bool(false),
        int(i128::MIN),
        int(0),
        text(ABC),
        text(ABCABC),
        abc,
        Value::Code(DeclId(1)),
        Value::Code(DeclId(2)),
        first,
        second,
        nested,
        other,
        one_port,
        twin,
        int_type,
        int_again,
        int((1 << 30) - 1),
        int(1 << 30),
        int(-1),
    ] {
        values.push(value)?;
    }
    Ok(values)
}

// Two values, and whether they are identical.
const PAIRS: [(usize, usize, bool); 14] = [
    (NOTHING, NOTHING, true),
    (YES, NO, false),
    (LEAST, LEAST, true),
    (ZERO, NOTHING, false),
    (LITERAL, MADE_TEXT, true),
    (LITERAL, OTHER_LITERAL, false),
    (CODE, CODE, true),
    (CODE, OTHER_CODE, false),
    (BOUND, BOUND_AGAIN, true),
    (NESTED, NESTED_AGAIN, true),
    (BOUND, NESTED, false),
    (PORT, PORT, true),
    (PORT, TWIN, false),
    (INT_TYPE, INT_AGAIN, true),
];

// A value, and its hash code.
const HASHES: [(usize, i128); 12] = [
    (NOTHING, 0),
    (YES, 1),
    (NO, 2),
    (INT_TYPE, 3),
    (BOUND, 4),
    (CODE, 5),
    (BELOW_2_30, 1_073_741_823),
    (AT_2_30, 0),
    (MINUS_ONE, 1_073_741_823),
    (LITERAL, 96354),
    (MADE_TEXT, 96354),
    (PORT, 3),
];

fn at(rt: &impl Abort, values: &[Value], place: usize) -> Value {
    assert!(rt; place < values.len());
    values[place]
}

fn check_pairs(
    rt: &impl Abort,
    w: &mut World,
    values: &[Value],
    rows: &[(usize, usize, bool)],
) -> Result<(), Fail> {
    for (x, y, wanted) in rows {
        let first = at(rt, values, *x);
        let second = at(rt, values, *y);
        let wanted = Answer::Value(Value::Bool(*wanted));
        let identical = w.call(NativeId::Identical, &[first, second])?;
        assert_eq!(rt; identical, wanted, "{x} {y}");
        let equal = w.call(NativeId::ObjectEqual, &[second, first])?;
        assert_eq!(rt; equal, wanted, "{y} {x}");
    }
    Ok(())
}

fn check_hashes(
    rt: &impl Abort,
    w: &mut World,
    values: &[Value],
    rows: &[(usize, i128)],
) -> Result<(), Fail> {
    for (place, wanted) in rows {
        let hash = w.call(NativeId::ObjectHashCode, &[at(rt, values, *place)])?;
        assert_eq!(rt; hash, is(*wanted), "{place}");
    }
    Ok(())
}

#[test]
fn same_values(rt: HostRuntime) -> Result<(), Fail> {
    let mut w = new_world(rt.alloc(), 100)?;
    let values = values(rt.alloc(), &mut w)?;
    check_pairs(&rt, &mut w, &values, &PAIRS)?;
    check_hashes(&rt, &mut w, &values, &HASHES)
}

#[test]
fn numbers_of_objects(rt: HostRuntime) -> Result<(), Fail> {
    let mut w = new_world(rt.alloc(), 100)?;
    let _list = w.call(NativeId::ListNew, &[])?;
    let _cell = w.add(Object::Cell {
        value: Value::Null,
        counted: true,
    })?;
    let second = object(w.call(NativeId::ListNew, &[])?);
    assert_eq!(rt; w.call(NativeId::ObjectHashCode, &[FIRST])?, is(0));
    assert_eq!(rt; w.call(NativeId::ObjectHashCode, &[second])?, is(1));
    Ok(())
}

// An object of `_Pair<int, dynamic>`.
fn pair(alloc: Global, w: &mut World) -> Result<Value, Fail> {
    let mut args = Vec::new(alloc);
    args.push(TypeRef::Class(INT, Vec::new(alloc)))?;
    args.push(TypeRef::Dynamic)?;
    Ok(w.add(Object::Instance {
        class: PAIR,
        args,
        fields: Values::new(alloc),
    })?)
}

// What the values of the test below are shown as.
const SHOWN: [&[u8]; 13] = [
    b"null",
    b"true",
    b"false",
    b"0",
    b"-170141183460469231731687303715884105728",
    b"Closure",
    b"Closure",
    b"Instance of '_Pair'",
    b"_Pair<int, dynamic>",
    b"Instance of 'List'",
    b"List",
    b"Function",
    b"Instance of 'SendPort'",
];

fn check_shown(
    rt: &impl Abort,
    w: &mut World,
    values: &[Value],
    texts: &[&[u8]],
) -> Result<(), Fail> {
    for (value, wanted) in values.iter().zip(texts) {
        let shown = w.call(NativeId::ObjectToString, &[*value])?;
        assert!(rt; w.is_text(shown, *wanted), "{value:?}");
    }
    Ok(())
}

#[test]
fn texts(rt: HostRuntime) -> Result<(), Fail> {
    let mut w = new_world(rt.alloc(), 100)?;
    let pair = pair(rt.alloc(), &mut w)?;
    let pair_type = object(w.call(NativeId::ObjectRuntimeType, &[pair])?);
    let list = object(w.call(NativeId::ListNew, &[])?);
    let list_type = object(w.call(NativeId::ObjectRuntimeType, &[list])?);
    let method = bound(&mut w, list, 0)?;
    let function_type = object(w.call(NativeId::ObjectRuntimeType, &[method])?);
    let port = port(&mut w)?;
    let values = [
        Value::Null,
        Value::Bool(true),
        Value::Bool(false),
        int(0),
        int(i128::MIN),
        Value::Code(DeclId(0)),
        method,
        pair,
        pair_type,
        list,
        list_type,
        function_type,
        port,
    ];
    check_shown(&rt, &mut w, &values, &SHOWN)?;
    assert_eq!(rt;
        w.call(NativeId::ObjectToString, &[text(ABC)])?,
        Answer::Value(text(ABC))
    );
    Ok(())
}
