// Places in the order of the text.
ghost use Rattle.std.specs.Prelude.{◌≡◌};
ghost use Rattle.scope_table.specs.Order.{before_or, place_before, place_before_or};

use dart_base::place::Place;

/// Whether the first numbers decide, or where they are equal the rest. Takes no memory.
pub(crate) fn before_or(a: u32, b: u32, rest: bool) -> bool
    ensures { result ≡ before_or a b rest }
{
    a < b || (a == b && rest)
}

/// Whether a place is before another, or equal to it where `rest` holds. Takes no memory.
pub(crate) fn place_before_or(a: Place, b: Place, rest: bool) -> bool
    ensures { result ≡ place_before_or a b rest }
{
    let columns = before_or(a.column, b.column, rest);
    let lines = before_or(a.line, b.line, columns);
    before_or(a.unit, b.unit, lines)
}

/// Whether a place is before another. Takes no memory.
pub fn place_before(a: Place, b: Place) -> bool
    ensures { result ≡ place_before a b }
{
    place_before_or(a, b, false)
}
