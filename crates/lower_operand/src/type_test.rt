// Type tests and casts (ECMA-408, 16.34 Type Test and 16.35 Type Cast).
ghost use Rattle.std.specs.Prelude.{◌≡◌, ◌∷◌, [], false, IfOk};
ghost use Rattle.dart_ir.specs.declared.kind.ThrowKind.TheVariants as error;
ghost use Rattle.translation.specs.Expressions as e;
ghost use Rattle.translation.specs.References as r;
ghost use Rattle.lower_leaf.specs.Forms.{core, cores};
ghost use Rattle.lower_leaf.specs.Gives.{Gives};
ghost use Rattle.lower_leaf.specs.Kept.{typed};
ghost use Rattle.lower_leaf.specs.Seen.{seen};

use crate::condition::negated;
use core_program::form::Core;
use dart_base::place::Place;
use dart_ir::kind::ThrowKind;
use lower_leaf::fault::{LowerFault, Want};
use lower_leaf::form as form;
use lower_leaf::name::find;
use lower_leaf::state::State;
use lower_leaf::surroundings::Surroundings;
use lower_leaf::types::Typed;
use lower_reference::plain::raised_behind;
use std::alloc::Global;

/// The forms, and then an error for a malformed type of this name.
pub fn malformed_behind<S: Surroundings>(
    outside: &S,
    place: Place,
    forms: Vec<Core>,
    name: &[u8],
) -> Result<Core, Want>
    ensures { IfOk result (λ made. core (S.around outside.now) made
        ≡ r.raised_behind place (cores (S.around outside.now) forms.items) error.MalformedTypeError name.now false) }
{
    let name = find(outside, name)?;
    raised_behind(
        outside,
        place,
        forms,
        ThrowKind::MalformedTypeError,
        name,
        false,
    )
}

// The value, and then an error for a malformed type of this name.
fn malformed<S: Surroundings>(
    alloc: Global,
    outside: &S,
    place: Place,
    value: Core,
    name: &[u8],
) -> Result<Core, Want>
    ensures { IfOk result (λ made. core (S.around outside.now) made
        ≡ r.raised_behind place (core (S.around outside.now) value ∷ []) error.MalformedTypeError name.now false) }
{
    let mut forms = Vec::new(alloc);
    forms.push(value)?;
    malformed_behind(outside, place, forms, name)
}

fn is_form<S: Surroundings>(
    alloc: Global,
    outside: &S,
    place: Place,
    of: Typed,
    value: Core,
) -> Result<Core, Want>
    ensures { IfOk result (λ made. core (S.around outside.now) made
        ≡ e.is_form place (typed (S.around outside.now) of) (core (S.around outside.now) value)) }
{
    match of {
        Typed::WellFormed(of) => form::is_of(outside, alloc, place, value, of),
        Typed::Malformed(name) => malformed(alloc, outside, place, value, name.as_slice()),
    }
}

/// `e is T`, and `e is! T`.
pub fn type_tested<S: Surroundings>(
    alloc: Global,
    outside: &S,
    state: &mut State,
    place: Place,
    bang: Option<Place>,
    of: Typed,
    value: Core,
) -> Result<Core, LowerFault>
    ensures { Gives (core (S.around outside.now)) result (seen (S.around outside.now) state.new)
        (e.type_tested place bang (typed (S.around outside.now) of) (core (S.around outside.now) value)
        (seen (S.around outside.now) state.old)) }
{
    let made = is_form(alloc, outside, place, of, value)?;
    match bang {
        None => Ok(made),
        Some(_) => negated(alloc, outside, state, place, place, made),
    }
}

/// `e as T`
pub fn cast<S: Surroundings>(
    alloc: Global,
    outside: &S,
    place: Place,
    of: Typed,
    value: Core,
) -> Result<Core, Want>
    ensures { IfOk result (λ made. core (S.around outside.now) made
        ≡ e.cast place (typed (S.around outside.now) of) (core (S.around outside.now) value)) }
{
    match of {
        Typed::WellFormed(of) => form::cast(outside, alloc, place, value, of),
        Typed::Malformed(name) => malformed(alloc, outside, place, value, name.as_slice()),
    }
}
