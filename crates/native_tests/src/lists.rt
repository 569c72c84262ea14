// Natives of lists.
use crate::world::{ABC, Due, Given, Row, check_each, int, new_world, refuse_each, text};
use dart_ir::kind::ThrowKind;
use dart_ir::native::{Answer, NativeId};
use dart_ir::number::Ref;
use std::test::Fail;

const RANGE: Due = Due::Throws(ThrowKind::RangeError);

const ARGUMENT: Due = Due::Throws(ThrowKind::ArgumentError);

const UNSUPPORTED: Due = Due::Throws(ThrowKind::UnsupportedError);

// What calls answer that make no list.
const NO_LIST: Answer = Answer::Throw(ThrowKind::ArgumentError);

const GROWABLE: [Row; 28] = [
    (
        NativeId::ListRemoveLast,
        Given::First,
        Given::Nothing,
        Given::Nothing,
        RANGE,
    ),
    (
        NativeId::ListIndex,
        Given::First,
        Given::Int(0),
        Given::Nothing,
        RANGE,
    ),
    (
        NativeId::ListAdd,
        Given::First,
        Given::Int(5),
        Given::Nothing,
        Due::Null,
    ),
    (
        NativeId::ListAdd,
        Given::First,
        Given::Text(ABC),
        Given::Nothing,
        Due::Null,
    ),
    (
        NativeId::ListLength,
        Given::First,
        Given::Nothing,
        Given::Nothing,
        Due::Int(2),
    ),
    (
        NativeId::ListIndex,
        Given::First,
        Given::Int(0),
        Given::Nothing,
        Due::Int(5),
    ),
    (
        NativeId::ListIndex,
        Given::First,
        Given::Int(1),
        Given::Nothing,
        Due::Text(ABC),
    ),
    (
        NativeId::ListIndex,
        Given::First,
        Given::Int(2),
        Given::Nothing,
        RANGE,
    ),
    (
        NativeId::ListIndex,
        Given::First,
        Given::Int(-1),
        Given::Nothing,
        RANGE,
    ),
    (
        NativeId::ListIndex,
        Given::First,
        Given::Text(ABC),
        Given::Nothing,
        ARGUMENT,
    ),
    (
        NativeId::ListIndexSet,
        Given::First,
        Given::Int(1),
        Given::Int(7),
        Due::Null,
    ),
    (
        NativeId::ListIndexSet,
        Given::First,
        Given::Int(2),
        Given::Int(7),
        RANGE,
    ),
    (
        NativeId::ListInsert,
        Given::First,
        Given::Int(3),
        Given::Int(9),
        RANGE,
    ),
    (
        NativeId::ListInsert,
        Given::First,
        Given::Int(2),
        Given::Int(9),
        Due::Null,
    ),
    (
        NativeId::ListInsert,
        Given::First,
        Given::Int(0),
        Given::Int(1),
        Due::Null,
    ),
    (
        NativeId::ListIndex,
        Given::First,
        Given::Int(0),
        Given::Nothing,
        Due::Int(1),
    ),
    (
        NativeId::ListIndex,
        Given::First,
        Given::Int(3),
        Given::Nothing,
        Due::Int(9),
    ),
    (
        NativeId::ListRemoveAt,
        Given::First,
        Given::Int(4),
        Given::Nothing,
        RANGE,
    ),
    (
        NativeId::ListRemoveAt,
        Given::First,
        Given::Int(1),
        Given::Nothing,
        Due::Int(5),
    ),
    (
        NativeId::ListRemoveLast,
        Given::First,
        Given::Nothing,
        Given::Nothing,
        Due::Int(9),
    ),
    (
        NativeId::ListLength,
        Given::First,
        Given::Nothing,
        Given::Nothing,
        Due::Int(2),
    ),
    (
        NativeId::ListIndex,
        Given::First,
        Given::Int(1),
        Given::Nothing,
        Due::Int(7),
    ),
    (
        NativeId::ListSetLength,
        Given::First,
        Given::Int(-1),
        Given::Nothing,
        ARGUMENT,
    ),
    (
        NativeId::ListSetLength,
        Given::First,
        Given::Nothing,
        Given::Nothing,
        ARGUMENT,
    ),
    (
        NativeId::ListSetLength,
        Given::First,
        Given::Int(4),
        Given::Nothing,
        Due::Null,
    ),
    (
        NativeId::ListIndex,
        Given::First,
        Given::Int(3),
        Given::Nothing,
        Due::Null,
    ),
    (
        NativeId::ListSetLength,
        Given::First,
        Given::Int(1),
        Given::Nothing,
        Due::Null,
    ),
    (
        NativeId::ListLength,
        Given::First,
        Given::Nothing,
        Given::Nothing,
        Due::Int(1),
    ),
];

#[test]
fn growable(rt: HostRuntime) -> Result<(), Fail> {
    let mut w = new_world(rt.alloc(), 100)?;
    let empty = w.make_list()?;
    assert!(rt; w.is_list(empty, 0, false));
    check_each(&rt, &mut w, &GROWABLE)?;
    assert_eq!(rt; w.used(), 7);
    assert_eq!(rt; w.call(NativeId::ListLength, &[text(ABC)])?, NO_LIST);
    Ok(())
}

const FIXED: [Row; 10] = [
    (
        NativeId::ListIndex,
        Given::First,
        Given::Int(1),
        Given::Nothing,
        Due::Null,
    ),
    (
        NativeId::ListIndexSet,
        Given::First,
        Given::Int(1),
        Given::Int(4),
        Due::Null,
    ),
    (
        NativeId::ListIndex,
        Given::First,
        Given::Int(1),
        Given::Nothing,
        Due::Int(4),
    ),
    (
        NativeId::ListAdd,
        Given::First,
        Given::Int(1),
        Given::Nothing,
        UNSUPPORTED,
    ),
    (
        NativeId::ListRemoveLast,
        Given::First,
        Given::Nothing,
        Given::Nothing,
        UNSUPPORTED,
    ),
    (
        NativeId::ListRemoveAt,
        Given::First,
        Given::Int(9),
        Given::Nothing,
        UNSUPPORTED,
    ),
    (
        NativeId::ListRemoveAt,
        Given::First,
        Given::Nothing,
        Given::Nothing,
        ARGUMENT,
    ),
    (
        NativeId::ListInsert,
        Given::First,
        Given::Int(9),
        Given::Int(1),
        UNSUPPORTED,
    ),
    (
        NativeId::ListSetLength,
        Given::First,
        Given::Int(-1),
        Given::Nothing,
        UNSUPPORTED,
    ),
    (
        NativeId::ListSetLength,
        Given::First,
        Given::Text(ABC),
        Given::Nothing,
        ARGUMENT,
    ),
];

#[test]
fn fixed(rt: HostRuntime) -> Result<(), Fail> {
    let mut w = new_world(rt.alloc(), 100)?;
    assert_eq!(rt; w.call(NativeId::ListNew, &[int(-1)])?, NO_LIST);
    assert_eq!(rt; w.call(NativeId::ListNew, &[text(ABC)])?, NO_LIST);
    let made = w.call(NativeId::ListNew, &[int(2)])?;
    assert!(rt; w.is_list(made, 2, true));
    check_each(&rt, &mut w, &FIXED)?;
    assert_eq!(rt; w.used(), 3);
    Ok(())
}

// Lists of more items than there is room for.
const TOO_LONG: [(NativeId, Given, Given, Given); 3] = [
    (
        NativeId::ListNew,
        Given::Int(10),
        Given::Nothing,
        Given::Nothing,
    ),
    (
        NativeId::ListNew,
        Given::Int(1 << 40),
        Given::Nothing,
        Given::Nothing,
    ),
    (
        NativeId::ListNew,
        Given::Int(i128::MAX),
        Given::Nothing,
        Given::Nothing,
    ),
];

// The same for the first object, a list.
const TOO_LONG_AGAIN: [(NativeId, Given, Given, Given); 3] = [
    (
        NativeId::ListSetLength,
        Given::First,
        Given::Int(10),
        Given::Nothing,
    ),
    (
        NativeId::ListSetLength,
        Given::First,
        Given::Int(1 << 40),
        Given::Nothing,
    ),
    (
        NativeId::ListSetLength,
        Given::First,
        Given::Int(i128::MAX),
        Given::Nothing,
    ),
];

const NINE_ITEMS: [Row; 1] = [(
    NativeId::ListSetLength,
    Given::First,
    Given::Int(9),
    Given::Nothing,
    Due::Null,
)];

const ONE_MORE: [(NativeId, Given, Given, Given); 2] = [
    (
        NativeId::ListAdd,
        Given::First,
        Given::Int(9),
        Given::Nothing,
    ),
    (
        NativeId::ListInsert,
        Given::First,
        Given::Int(0),
        Given::Int(9),
    ),
];

#[test]
fn units(rt: HostRuntime) -> Result<(), Fail> {
    let mut w = new_world(rt.alloc(), 10)?;
    refuse_each(&rt, &mut w, &TOO_LONG);
    let _made = w.call(NativeId::ListNew, &[])?;
    refuse_each(&rt, &mut w, &TOO_LONG_AGAIN);
    check_each(&rt, &mut w, &NINE_ITEMS)?;
    refuse_each(&rt, &mut w, &ONE_MORE);
    assert_eq!(rt; w.length(Ref(0)), 9);
    assert_eq!(rt; w.used(), 10);
    Ok(())
}
