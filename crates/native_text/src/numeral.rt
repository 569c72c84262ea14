// Integers as digits.
ghost use Rattle.std.specs.Prelude.{◌≡◌, ◌+◌, ◌-◌, ◌*◌, ◌^◌, ◌≤◌, pos, neg_ℤ, option_map, MatchOption};
ghost use Rattle.std.specs.List.{list_all};
ghost use Rattle.native_base.specs.Plan.{answers, needs};
ghost use Rattle.native_base.specs.Planned.{planned};
ghost use Rattle.native_number.specs.Number.{whole};
ghost use Rattle.native_text.specs.Text as spec;

use dart_ir::kind::ThrowKind;
use dart_ir::native::Answer;
use dart_ir::value::{Value, integer_value};
use native_base::plan::{Planned, throw};

const MINUS: u16 = 45;

// 2^127
const BOUND: u128 = 0x8000_0000_0000_0000_0000_0000_0000_0000;

// Whether each unit is a digit.
fn are_digits(units: &[u16]) -> bool
    ensures { result ≡ list_all spec.is_digit units.now }
{
    units.iter().all(|unit| *unit >= 48 && *unit <= 57)
}

// The number with a digit more, or `None` where it has more than 128 bits.
fn with_digit(number: u128, unit: u16) -> Option<u128>
    ensures { MatchOption result (2 ^ 128 ≤ number * 10 + (unit - 48)) (λ more. more ≡ number * 10 + (unit - 48)) }
{
    let Some(tens) = number.checked_mul(10) else {
        return None;
    };
    tens.checked_add(unit.saturating_sub(48) as u128)
}

// The number of the digits, or `None` where it has more than 128 bits.
fn digits_value(digits: &[u16]) -> Option<u128>
    ensures { MatchOption result (2 ^ 128 ≤ spec.digits_value digits.now) (λ n. n ≡ spec.digits_value digits.now) }
{
    let mut number: u128 = 0;
    for unit in digits {
        let Some(more) = with_digit(number, *unit) else {
            return None;
        };
        number = more;
    }
    Some(number)
}

// The answer that is this number.
fn natural_answer(number: u128) -> Answer
    ensures { result ≡ whole (pos number) }
{
    if number < BOUND {
        Answer::Value(integer_value(number as i128))
    } else {
        Answer::IntegerLimit
    }
}

// The answer that is this number with a minus.
fn negative_answer(number: u128) -> Answer
    ensures { result ≡ whole (neg_ℤ (pos number)) }
{
    if number < BOUND {
        return Answer::Value(integer_value(-(number as i128)));
    }
    if number == BOUND {
        Answer::Value(integer_value(i128::MIN))
    } else {
        Answer::IntegerLimit
    }
}

// The number of one or more digits.
fn natural(digits: &[u16]) -> Planned
    ensures { planned result ≡ needs ThrowKind.FormatException (option_map pos (spec.natural digits.now)) (λ z. answers (whole z)) }
{
    if digits.is_empty() || !are_digits(digits) {
        return throw(ThrowKind::FormatException);
    }
    match digits_value(digits) {
        Some(number) => Planned::Answers(natural_answer(number)),
        None => Planned::Answers(Answer::IntegerLimit),
    }
}

// The number of one or more digits, with a minus.
fn negative(digits: &[u16]) -> Planned
    ensures { planned result ≡ needs ThrowKind.FormatException (option_map (λ n. neg_ℤ (pos n)) (spec.natural digits.now)) (λ z. answers (whole z)) }
{
    if digits.is_empty() || !are_digits(digits) {
        return throw(ThrowKind::FormatException);
    }
    match digits_value(digits) {
        Some(number) => Planned::Answers(negative_answer(number)),
        None => Planned::Answers(Answer::IntegerLimit),
    }
}

/// The number of digits with an optional `-` before them. Another text throws FormatException.
pub fn parsed(units: &[u16]) -> Planned
    ensures { planned result ≡ spec.parsed units.now }
{
    match units {
        [] => throw(ThrowKind::FormatException),
        [first, more @ ..] => {
            if *first == MINUS {
                negative(more)
            } else {
                natural(units)
            }
        }
    }
}
