// Strings and integers by their texts.
use dart_base::bytes::Bytes;
use dart_base::place::Place;
use dart_base::units::Units;
use dart_ir::value::{Value as Constant, integer_value};
use dart_token::token::Quote;
use dart_tree::expression::{PieceKind, StringPiece, Value};
use lower_string::integer::integer;
use lower_string::part::StringPart;
use lower_string::whole::{constant_units, parts_of};
use std::alloc::{AllocError, Global};
use std::test::Fail;

fn piece(alloc: Global, text: &[u8]) -> Result<StringPiece, AllocError> {
    Ok(StringPiece {
        kind: PieceKind::Whole,
        place: Place {
            unit: 0,
            line: 1,
            column: 1,
        },
        text: Bytes::from_slice(alloc, text)?,
        value: Value::Omitted,
    })
}

// The calls that are tested, in functions that say nothing of their answers, so tests are cheap to prove.

fn units_of(alloc: Global, pieces: &Vec<StringPiece>) -> Result<Units, Fail> {
    Ok(constant_units(alloc, pieces)?.ok_or("a name")?)
}

fn value_of(text: &[u8]) -> Result<Constant, Fail> {
    Ok(integer(text)?)
}

// The parts of the head of a string.
fn head(alloc: Global, text: &[u8]) -> Result<Vec<StringPart>, Fail> {
    Ok(parts_of(alloc, PieceKind::Head(Quote::Single), text)?)
}

#[test]
fn escapes_and_adjacent_pieces(rt: HostRuntime) -> Result<(), Fail> {
    let alloc = rt.alloc();
    let mut pieces = Vec::new(alloc);
    pieces.push(piece(alloc, b"'a\\n\\x41\\u{1F600}\xC3\xA9'")?)?;
    pieces.push(piece(alloc, b"r\"\\n$\"")?)?;
    let units = units_of(alloc, &pieces)?;
    assert_eq!(rt;
        units.as_slice(),
        [97, 10, 65, 0xD83D, 0xDE00, 233, 92, 110, 36].as_slice()
    );
    Ok(())
}

#[test]
fn names_in_a_head(rt: HostRuntime) -> Result<(), Fail> {
    let parts = head(rt.alloc(), b"'x $a_1-$b${")?;
    match parts.as_slice() {
        [
            _,
            StringPart::Shown(a),
            StringPart::Units(between),
            StringPart::Shown(b),
        ] => {
            assert_eq!(rt; a.as_slice(), b"a_1".as_slice());
            assert_eq!(rt; between.as_slice(), [45].as_slice());
            assert_eq!(rt; b.as_slice(), b"b".as_slice());
        }
        _ => assert!(rt; false),
    }
    Ok(())
}

#[test]
fn integers(rt: HostRuntime) -> Result<(), Fail> {
    assert_eq!(rt; value_of(b"120")?, integer_value(120));
    assert_eq!(rt; value_of(b"0xfF")?, integer_value(255));
    assert_eq!(rt; value_of(b"0")?, Constant::Int { high: 0, low: 0 });
    Ok(())
}
