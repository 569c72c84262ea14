// The steps that natives take.
use crate::world::{ABC, Given, NONE, SEVENTEEN, World, new_world};
use dart_ir::native::NativeId;
use dart_ir::object::Object;
use dart_ir::values::Values;
use std::process::Abort;
use std::test::Fail;

// A call, and its steps.
type Row = (NativeId, Given, Given, Given, u64);

fn count_each(rt: &impl Abort, w: &World, rows: &[Row]) {
    for (native, this, x, y, wanted) in rows {
        let steps = w.steps(*native, *this, *x, *y);
        assert_eq!(rt; steps, *wanted, "{native:?} {this:?} {x:?} {y:?}");
    }
}

const TEXTS: [Row; 16] = [
    (
        NativeId::NumAdd,
        Given::Int(1),
        Given::Int(2),
        Given::Nothing,
        1,
    ),
    (
        NativeId::StringLength,
        Given::Text(NONE),
        Given::Nothing,
        Given::Nothing,
        1,
    ),
    (
        NativeId::StringLength,
        Given::Text(SEVENTEEN),
        Given::Nothing,
        Given::Nothing,
        2,
    ),
    (
        NativeId::StringLength,
        Given::Text(SEVENTEEN),
        Given::Text(SEVENTEEN),
        Given::Nothing,
        2,
    ),
    (
        NativeId::StringAdd,
        Given::Text(SEVENTEEN),
        Given::Text(SEVENTEEN),
        Given::Nothing,
        5,
    ),
    (
        NativeId::StringAdd,
        Given::Text(ABC),
        Given::Text(ABC),
        Given::Nothing,
        1,
    ),
    (
        NativeId::StringSubstring,
        Given::Text(SEVENTEEN),
        Given::Int(0),
        Given::Int(15),
        3,
    ),
    (
        NativeId::StringSubstring,
        Given::Text(SEVENTEEN),
        Given::Int(0),
        Given::Int(14),
        2,
    ),
    (
        NativeId::StringSubstring,
        Given::Text(SEVENTEEN),
        Given::Int(0),
        Given::Int(18),
        2,
    ),
    (
        NativeId::Identical,
        Given::Text(SEVENTEEN),
        Given::Text(SEVENTEEN),
        Given::Nothing,
        3,
    ),
    (
        NativeId::NumAdd,
        Given::Int(1),
        Given::Text(SEVENTEEN),
        Given::Nothing,
        2,
    ),
    (
        NativeId::ListIndexSet,
        Given::Int(1),
        Given::Int(0),
        Given::Text(SEVENTEEN),
        2,
    ),
    (
        NativeId::ObjectToString,
        Given::Int(i128::MAX),
        Given::Nothing,
        Given::Nothing,
        3,
    ),
    (
        NativeId::ObjectToString,
        Given::Int(999_999_999_999_999),
        Given::Nothing,
        Given::Nothing,
        1,
    ),
    (
        NativeId::ObjectToString,
        Given::Int(1_000_000_000_000_000),
        Given::Nothing,
        Given::Nothing,
        2,
    ),
    (
        NativeId::Print,
        Given::Text(SEVENTEEN),
        Given::Nothing,
        Given::Nothing,
        2,
    ),
];

#[test]
fn texts(rt: HostRuntime) -> Result<(), Fail> {
    let w = new_world(rt.alloc(), 100)?;
    count_each(&rt, &w, &TEXTS);
    Ok(())
}

// The first object is a list of 17 items.
const ITEMS_THAT_MOVE: [Row; 8] = [
    (
        NativeId::ListInsert,
        Given::First,
        Given::Int(0),
        Given::Nothing,
        2,
    ),
    (
        NativeId::ListInsert,
        Given::First,
        Given::Int(1),
        Given::Nothing,
        2,
    ),
    (
        NativeId::ListInsert,
        Given::First,
        Given::Int(2),
        Given::Nothing,
        1,
    ),
    (
        NativeId::ListInsert,
        Given::First,
        Given::Int(18),
        Given::Nothing,
        1,
    ),
    (
        NativeId::ListRemoveAt,
        Given::First,
        Given::Int(0),
        Given::Nothing,
        2,
    ),
    (
        NativeId::ListRemoveAt,
        Given::First,
        Given::Int(1),
        Given::Nothing,
        1,
    ),
    (
        NativeId::ListRemoveAt,
        Given::First,
        Given::Int(17),
        Given::Nothing,
        1,
    ),
    (
        NativeId::ListAdd,
        Given::First,
        Given::Int(0),
        Given::Nothing,
        1,
    ),
];

#[test]
fn items_that_move(rt: HostRuntime) -> Result<(), Fail> {
    let mut w = new_world(rt.alloc(), 100)?;
    let list = w.store.add(Object::List {
        args: Vec::new(rt.alloc()),
        items: Values::new(rt.alloc()),
        fixed: false,
    })?;
    w.store.push_nulls(list, 17)?;
    count_each(&rt, &w, &ITEMS_THAT_MOVE);
    Ok(())
}
