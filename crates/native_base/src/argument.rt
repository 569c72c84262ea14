// What natives ask of their arguments.
ghost use Rattle.std.specs.Prelude.{◌≡◌, MatchOption, Some, None};
ghost use Rattle.native_base.specs.Plan as spec;

use dart_base::units::Units;
use dart_ir::value::Value;
use dart_store::store::Store;
use dart_store::view::ObjectView;
use native_number::number::number_of;

/// The place that a number is among so many, or `None` where it lies outside.
pub fn place(count: usize, number: i128) -> Option<usize>
    ensures { result ≡ spec.place count number }
{
    if number < 0 || number >= count as i128 {
        return None;
    }
    Some(number as usize)
}

/// The integer that a value is, or the given one where it is null.
pub fn number_or(otherwise: i128, value: Value) -> Option<i128>
    ensures { result ≡ spec.number_or otherwise value }
{
    match value {
        Value::Null => Some(otherwise),
        _ => number_of(value),
    }
}

/// The units of a string: of a literal of the list, or of one that was made at run time. `None` for another value.
pub fn text_at<'a>(literals: &'a [Units], store: &'a Store, value: Value) -> Option<&'a [u16]>
    ensures { MatchOption result (spec.text_at literals.now store.now value ≡ None) (λ units. spec.text_at literals.now store.now value ≡ Some units.now) }
{
    match value {
        Value::Literal(index) => {
            let units = literals.get(index as usize)?;
            Some(units.as_slice())
        }
        Value::At(r) => match store.get(r) {
            Some(ObjectView::Text(units)) => Some(units),
            _ => None,
        },
        _ => None,
    }
}
