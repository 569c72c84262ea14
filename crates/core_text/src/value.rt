// Constants.
ghost use Rattle.std.specs.Prelude.{◌≡◌, ◌<◌, [], unwrap_or, slice_get};
ghost use Rattle.core_text.specs.Line.{Adds};
ghost use Rattle.core_text.specs.Constant as spec;

use crate::line::push_text;
use crate::name::push_function;
use core_program::program::CoreProgram;
use dart_base::bytes::Bytes;
use dart_ir::value::{Value, integer_of};
use std::alloc::{AllocError, Global};

/// The digit of a number below 16 in base 16.
fn digit(number: u16) -> u8
    requires { number < 16 }
    ensures { result ≡ spec.digit number }
{
    if number < 10 {
        b'0' + number as u8
    } else {
        b'a' + (number as u8 - 10)
    }
}

/// Whether the unit of UTF-16 is written as the character that it is.
fn is_plain(unit: u16) -> bool
    ensures { result ≡ spec.is_plain unit }
{
    32 <= unit && unit < 127 && unit != 39 && unit != 92
}

/// Adds a unit of UTF-16 as `\u` and its four digits in base 16.
fn push_escaped(bytes: &mut Bytes, unit: u16) -> Result<(), AllocError>
    ensures { Adds result bytes.old bytes.new (spec.escaped unit) }
{
    push_text(bytes, b"\\u")?;
    push_text(
        bytes,
        &[
            digit(unit / 4096),
            digit(unit / 256 % 16),
            digit(unit / 16 % 16),
            digit(unit % 16),
        ],
    )
}

/// Adds a unit of UTF-16.
fn push_unit(bytes: &mut Bytes, unit: u16) -> Result<(), AllocError>
    ensures { Adds result bytes.old bytes.new (spec.unit_text unit) }
{
    if is_plain(unit) {
        push_text(bytes, &[unit as u8])
    } else {
        push_escaped(bytes, unit)
    }
}

/// Adds units of UTF-16.
fn push_units(bytes: &mut Bytes, units: &[u16]) -> Result<(), AllocError>
    ensures { Adds result bytes.old bytes.new (spec.units units.now) }
{
    for unit in units {
        push_unit(bytes, *unit)?;
    }
    Ok(())
}

/// The units of a literal; none for a number that is no literal.
fn literal_units(program: &CoreProgram, literal: u32) -> &[u16]
    ensures { result.now ≡ unwrap_or (slice_get program.now.literals.items literal) [] }
{
    match program.literals.get(literal as usize) {
        None => &[],
        Some(units) => units.as_slice(),
    }
}

/// Adds a literal in quotes.
fn push_literal(bytes: &mut Bytes, program: &CoreProgram, literal: u32) -> Result<(), AllocError>
    ensures { Adds result bytes.old bytes.new (spec.literal program.now literal) }
{
    push_text(bytes, b"'")?;
    push_units(bytes, literal_units(program, literal))?;
    push_text(bytes, b"'")
}

/// Adds a constant.
pub fn push_value(
    alloc: Global,
    bytes: &mut Bytes,
    program: &CoreProgram,
    value: Value,
) -> Result<(), AllocError>
    ensures { Adds result bytes.old bytes.new (spec.constant program.now value) }
{
    match value {
        Value::Null => push_text(bytes, b"null"),
        Value::Bool(true) => push_text(bytes, b"true"),
        Value::Bool(false) => push_text(bytes, b"false"),
        Value::Int { high, low } => {
            push_text(bytes, integer_of(high, low).to_string(alloc)?.as_bytes())
        }
        Value::Literal(literal) => push_literal(bytes, program, literal),
        Value::Code(function) => {
            push_text(bytes, b"function ")?;
            push_function(alloc, bytes, program, function)
        }
        Value::At(object) => {
            push_text(bytes, b"object ")?;
            push_text(bytes, object.0.to_string(alloc)?.as_bytes())
        }
    }
}
