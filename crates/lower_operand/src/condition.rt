// Conditions and comparisons (ECMA-408, 16.4.1 Boolean Conversion and 16.20 Conditional to 16.22 Equality).
ghost use Rattle.std.specs.Prelude.{◌≡◌, not, false, true, IfOk};
ghost use Rattle.translation.specs.Expressions as e;
ghost use Rattle.translation.specs.References as r;
ghost use Rattle.lower_leaf.specs.Forms.{core};
ghost use Rattle.lower_leaf.specs.Gives.{Gives};
ghost use Rattle.lower_leaf.specs.Seen.{seen};

use core_program::form::{Binary, Core};
use dart_base::place::Place;
use dart_ir::value::Value;
use lower_leaf::fault::{LowerFault, Want};
use lower_leaf::form as form;
use lower_leaf::site::tested;
use lower_leaf::state::State;
use lower_leaf::surroundings::Surroundings;
use lower_reference::plain::{constant, this};
use std::alloc::Global;

/// `true` or `false`.
pub fn truth<S: Surroundings>(outside: &S, place: Place, value: bool) -> Core
    ensures { core (S.around outside.now) result ≡ r.truth place value }
{
    constant(outside, place, Value::Bool(value))
}

/// `null`
pub fn null<S: Surroundings>(outside: &S, place: Place) -> Core
    ensures { core (S.around outside.now) result ≡ r.null place }
{
    constant(outside, place, Value::Null)
}

/// `c ? a : b` of forms.
pub fn choice<S: Surroundings>(
    alloc: Global,
    outside: &S,
    place: Place,
    test: Core,
    first: Core,
    second: Core,
) -> Result<Core, Want>
    ensures { IfOk result (λ made. core (S.around outside.now) made
        ≡ e.choice place (core (S.around outside.now) test) (core (S.around outside.now) first) (core (S.around outside.now) second)) }
{
    let first = form::given(outside, alloc, first)?;
    let second = form::given(outside, alloc, second)?;
    form::choice(outside, alloc, place, test, first, second)
}

// The one truth where the test holds, and else the other.
fn truths<S: Surroundings>(
    alloc: Global,
    outside: &S,
    place: Place,
    test: Core,
    first: bool,
) -> Result<Core, Want>
    ensures { IfOk result (λ made. core (S.around outside.now) made
        ≡ e.choice place (core (S.around outside.now) test) (r.truth place first) (r.truth place (not first))) }
{
    let one = truth(outside, place, first);
    let other = truth(outside, place, !first);
    choice(alloc, outside, place, test, one, other)
}

/// `!e`, e being tested at its place.
pub fn negated<S: Surroundings>(
    alloc: Global,
    outside: &S,
    state: &mut State,
    place: Place,
    at: Place,
    operand: Core,
) -> Result<Core, LowerFault>
    ensures { Gives (core (S.around outside.now)) result (seen (S.around outside.now) state.new)
        (e.negated place at (core (S.around outside.now) operand) (seen (S.around outside.now) state.old)) }
{
    let test = tested(alloc, outside, state, at, operand)?;
    Ok(truths(alloc, outside, place, test, false)?)
}

/// `a && b` of tested forms.
pub fn both<S: Surroundings>(
    alloc: Global,
    outside: &S,
    place: Place,
    test: Core,
    inner: Core,
) -> Result<Core, Want>
    ensures { IfOk result (λ made. core (S.around outside.now) made
        ≡ e.choice place (core (S.around outside.now) test)
        (e.choice place (core (S.around outside.now) inner) (r.truth place true) (r.truth place false)) (r.truth place false)) }
{
    let second = truths(alloc, outside, place, inner, true)?;
    choice(
        alloc,
        outside,
        place,
        test,
        second,
        truth(outside, place, false),
    )
}

/// `a || b` of tested forms.
pub fn either<S: Surroundings>(
    alloc: Global,
    outside: &S,
    place: Place,
    test: Core,
    inner: Core,
) -> Result<Core, Want>
    ensures { IfOk result (λ made. core (S.around outside.now) made
        ≡ e.choice place (core (S.around outside.now) test) (r.truth place true)
        (e.choice place (core (S.around outside.now) inner) (r.truth place true) (r.truth place false))) }
{
    let second = truths(alloc, outside, place, inner, true)?;
    choice(
        alloc,
        outside,
        place,
        test,
        truth(outside, place, true),
        second,
    )
}

/// `a == b` (16.22 Equality).
pub fn equal<S: Surroundings>(
    alloc: Global,
    outside: &S,
    place: Place,
    first: Core,
    second: Core,
) -> Result<Core, Want>
    ensures { IfOk result (λ made. core (S.around outside.now) made
        ≡ e.equal place (core (S.around outside.now) first) (core (S.around outside.now) second)) }
{
    form::binary(outside, alloc, place, Binary::Equal, first, second)
}

/// `this`, where there is one (16.11 This).
pub fn this_form<S: Surroundings>(
    outside: &S,
    state: &State,
    place: Place,
) -> Result<Core, LowerFault>
    ensures { Gives (core (S.around outside.now)) result (seen (S.around outside.now) state.now)
        (e.this_form place (seen (S.around outside.now) state.now)) }
{
    if !state.inside.has_instance {
        return Err(LowerFault::BadWord(place));
    }
    Ok(this(outside, place))
}
