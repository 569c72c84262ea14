// Natives of strings.
use crate::world::{
    ABC, ABCABC, ABD, ABOVE, B, BELOW, Due, GREATEST, Given, LEAST, MINUS, NO_NUMBER, NONE, Row,
    World, ZEROS, check_each, int, is, new_world, object, refuse_each, text,
};
use dart_ir::kind::ThrowKind;
use dart_ir::native::NativeId;
use std::process::Abort;
use std::test::Fail;

const RANGE: Due = Due::Throws(ThrowKind::RangeError);

const ARGUMENT: Due = Due::Throws(ThrowKind::ArgumentError);

const FORMAT: Due = Due::Throws(ThrowKind::FormatException);

const WITHOUT_A_NEW_STRING: [Row; 41] = [
    (
        NativeId::StringLength,
        Given::Text(NONE),
        Given::Nothing,
        Given::Nothing,
        Due::Int(0),
    ),
    (
        NativeId::StringLength,
        Given::Text(ABC),
        Given::Nothing,
        Given::Nothing,
        Due::Int(3),
    ),
    (
        NativeId::StringLength,
        Given::Int(1),
        Given::Nothing,
        Given::Nothing,
        ARGUMENT,
    ),
    (
        NativeId::StringCodeUnitAt,
        Given::Text(ABC),
        Given::Int(0),
        Given::Nothing,
        Due::Int(97),
    ),
    (
        NativeId::StringCodeUnitAt,
        Given::Text(ABC),
        Given::Int(2),
        Given::Nothing,
        Due::Int(99),
    ),
    (
        NativeId::StringCodeUnitAt,
        Given::Text(ABC),
        Given::Int(3),
        Given::Nothing,
        RANGE,
    ),
    (
        NativeId::StringCodeUnitAt,
        Given::Text(ABC),
        Given::Int(-1),
        Given::Nothing,
        RANGE,
    ),
    (
        NativeId::StringCodeUnitAt,
        Given::Text(ABC),
        Given::Nothing,
        Given::Nothing,
        ARGUMENT,
    ),
    (
        NativeId::StringIndex,
        Given::Text(ABC),
        Given::Int(3),
        Given::Nothing,
        RANGE,
    ),
    (
        NativeId::StringIndex,
        Given::Text(NONE),
        Given::Int(0),
        Given::Nothing,
        RANGE,
    ),
    (
        NativeId::StringIndexOf,
        Given::Text(ABCABC),
        Given::Text(B),
        Given::Nothing,
        Due::Int(1),
    ),
    (
        NativeId::StringIndexOf,
        Given::Text(ABCABC),
        Given::Text(B),
        Given::Int(2),
        Due::Int(4),
    ),
    (
        NativeId::StringIndexOf,
        Given::Text(ABCABC),
        Given::Text(B),
        Given::Int(5),
        Due::Int(-1),
    ),
    (
        NativeId::StringIndexOf,
        Given::Text(ABC),
        Given::Text(NONE),
        Given::Int(3),
        Due::Int(3),
    ),
    (
        NativeId::StringIndexOf,
        Given::Text(ABC),
        Given::Text(NONE),
        Given::Int(4),
        RANGE,
    ),
    (
        NativeId::StringIndexOf,
        Given::Text(ABC),
        Given::Text(NONE),
        Given::Int(-1),
        RANGE,
    ),
    (
        NativeId::StringIndexOf,
        Given::Text(ABC),
        Given::Text(ABCABC),
        Given::Nothing,
        Due::Int(-1),
    ),
    (
        NativeId::StringIndexOf,
        Given::Text(ABC),
        Given::Int(1),
        Given::Nothing,
        ARGUMENT,
    ),
    (
        NativeId::StringIndexOf,
        Given::Text(ABC),
        Given::Text(B),
        Given::True,
        ARGUMENT,
    ),
    (
        NativeId::StringCompareTo,
        Given::Text(ABC),
        Given::Text(ABC),
        Given::Nothing,
        Due::Int(0),
    ),
    (
        NativeId::StringCompareTo,
        Given::Text(ABC),
        Given::Text(ABD),
        Given::Nothing,
        Due::Int(-1),
    ),
    (
        NativeId::StringCompareTo,
        Given::Text(ABCABC),
        Given::Text(ABC),
        Given::Nothing,
        Due::Int(1),
    ),
    (
        NativeId::StringCompareTo,
        Given::Text(ABC),
        Given::Int(1),
        Given::Nothing,
        ARGUMENT,
    ),
    (
        NativeId::StringSubstring,
        Given::Text(ABC),
        Given::Int(2),
        Given::Int(1),
        RANGE,
    ),
    (
        NativeId::StringSubstring,
        Given::Text(ABC),
        Given::Int(0),
        Given::Int(4),
        RANGE,
    ),
    (
        NativeId::StringSubstring,
        Given::Text(ABC),
        Given::Int(-1),
        Given::Int(1),
        RANGE,
    ),
    (
        NativeId::StringSubstring,
        Given::Text(ABC),
        Given::Int(4),
        Given::Nothing,
        RANGE,
    ),
    (
        NativeId::StringSubstring,
        Given::Text(ABC),
        Given::Nothing,
        Given::Int(1),
        ARGUMENT,
    ),
    (
        NativeId::StringAdd,
        Given::Text(ABC),
        Given::Nothing,
        Given::Nothing,
        ARGUMENT,
    ),
    (
        NativeId::StringFromCharCode,
        Given::Int(0x11_0000),
        Given::Nothing,
        Given::Nothing,
        RANGE,
    ),
    (
        NativeId::StringFromCharCode,
        Given::Int(-1),
        Given::Nothing,
        Given::Nothing,
        RANGE,
    ),
    (
        NativeId::StringFromCharCode,
        Given::Text(ABC),
        Given::Nothing,
        Given::Nothing,
        ARGUMENT,
    ),
    (
        NativeId::IntParse,
        Given::Text(GREATEST),
        Given::Nothing,
        Given::Nothing,
        Due::Int(i128::MAX),
    ),
    (
        NativeId::IntParse,
        Given::Text(ABOVE),
        Given::Nothing,
        Given::Nothing,
        Due::IntegerLimit,
    ),
    (
        NativeId::IntParse,
        Given::Text(LEAST),
        Given::Nothing,
        Given::Nothing,
        Due::Int(i128::MIN),
    ),
    (
        NativeId::IntParse,
        Given::Text(BELOW),
        Given::Nothing,
        Given::Nothing,
        Due::IntegerLimit,
    ),
    (
        NativeId::IntParse,
        Given::Text(ZEROS),
        Given::Nothing,
        Given::Nothing,
        Due::Int(-7),
    ),
    (
        NativeId::IntParse,
        Given::Text(MINUS),
        Given::Nothing,
        Given::Nothing,
        FORMAT,
    ),
    (
        NativeId::IntParse,
        Given::Text(NONE),
        Given::Nothing,
        Given::Nothing,
        FORMAT,
    ),
    (
        NativeId::IntParse,
        Given::Text(NO_NUMBER),
        Given::Nothing,
        Given::Nothing,
        FORMAT,
    ),
    (
        NativeId::IntParse,
        Given::Int(5),
        Given::Nothing,
        Given::Nothing,
        ARGUMENT,
    ),
];

#[test]
fn answers_without_a_new_string(rt: HostRuntime) -> Result<(), Fail> {
    let mut w = new_world(rt.alloc(), 100)?;
    check_each(&rt, &mut w, &WITHOUT_A_NEW_STRING)?;
    assert_eq!(rt; w.used(), 0);
    Ok(())
}

const NEW_STRINGS: [(NativeId, Given, Given, Given, &[u8]); 7] = [
    (
        NativeId::StringIndex,
        Given::Text(ABC),
        Given::Int(0),
        Given::Nothing,
        b"a",
    ),
    (
        NativeId::StringIndex,
        Given::Text(ABC),
        Given::Int(2),
        Given::Nothing,
        b"c",
    ),
    (
        NativeId::StringSubstring,
        Given::Text(ABC),
        Given::Int(1),
        Given::Nothing,
        b"bc",
    ),
    (
        NativeId::StringSubstring,
        Given::Text(ABC),
        Given::Int(3),
        Given::Int(3),
        b"",
    ),
    (
        NativeId::StringSubstring,
        Given::Text(ABC),
        Given::Int(0),
        Given::Int(3),
        b"abc",
    ),
    (
        NativeId::StringAdd,
        Given::Text(ABC),
        Given::Text(B),
        Given::Nothing,
        b"abcb",
    ),
    (
        NativeId::StringFromCharCode,
        Given::Int(65),
        Given::Nothing,
        Given::Nothing,
        b"A",
    ),
];

fn make_each(
    rt: &impl Abort,
    w: &mut World,
    rows: &[(NativeId, Given, Given, Given, &[u8])],
) -> Result<(), Fail> {
    for (native, this, x, y, wanted) in rows {
        let is_made = w.makes_text(*native, *this, *x, *y, *wanted)?;
        assert!(rt; is_made, "{native:?} {this:?} {x:?} {y:?}");
    }
    Ok(())
}

#[test]
fn new_strings(rt: HostRuntime) -> Result<(), Fail> {
    let mut w = new_world(rt.alloc(), 100)?;
    make_each(&rt, &mut w, &NEW_STRINGS)?;
    assert_eq!(rt; w.used(), 7);
    Ok(())
}

// A code, how many units it is, the place of the last of them, and that one.
const CODES: [(i128, i128, i128, i128); 3] = [
    (0xFFFF, 1, 0, 0xFFFF),
    (0x1_0000, 2, 1, 0xDC00),
    (0x10_FFFF, 2, 1, 0xDFFF),
];

fn check_codes(
    rt: &impl Abort,
    w: &mut World,
    rows: &[(i128, i128, i128, i128)],
) -> Result<(), Fail> {
    for (code, count, place, last) in rows {
        let made = object(w.call(NativeId::StringFromCharCode, &[int(*code)])?);
        let length = w.call(NativeId::StringLength, &[made])?;
        assert_eq!(rt; length, is(*count), "{code}");
        let unit = w.call(NativeId::StringCodeUnitAt, &[made, int(*place)])?;
        assert_eq!(rt; unit, is(*last), "{code}");
    }
    Ok(())
}

#[test]
fn codes_above_ffff_are_two_units(rt: HostRuntime) -> Result<(), Fail> {
    let mut w = new_world(rt.alloc(), 100)?;
    check_codes(&rt, &mut w, &CODES)
}

const ONE_STRING: [(NativeId, Given, Given, Given); 1] = [(
    NativeId::StringAdd,
    Given::Text(ABC),
    Given::Text(B),
    Given::Nothing,
)];

#[test]
fn a_string_that_has_no_room(rt: HostRuntime) -> Result<(), Fail> {
    let mut w = new_world(rt.alloc(), 1)?;
    let _first = w.call(NativeId::StringAdd, &[text(ABC), text(B)])?;
    refuse_each(&rt, &mut w, &ONE_STRING);
    assert_eq!(rt; w.used(), 1);
    Ok(())
}
