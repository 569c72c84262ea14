// Sites, and forms whose values are tested there in checked mode.
#![tactic(auto, using(crate::proofs::Steps::steps), unfolding(translation::specs::Walk::on))]

ghost use Rattle.std.specs.Prelude.{◌≡◌};
ghost use Rattle.translation.specs.Walk as w;
ghost use Rattle.lower_leaf.specs.Around.{Around};
ghost use Rattle.lower_leaf.specs.Forms.{core};
ghost use Rattle.lower_leaf.specs.Gives.{Gives, site_number};
ghost use Rattle.lower_leaf.specs.Seen.{seen, asked};

use crate::fault::LowerFault;
use crate::form::unary;
use crate::state::{Asked, State};
use crate::surroundings::Surroundings;
use core_program::form::{Core, Unary};
use core_program::program::Site;
use dart_base::place::Place;
use dart_ir::kind::SiteKind;
use dart_ir::number::SiteId;
use std::alloc::Global;

/// What nothing asks for.
pub fn unasked() -> Asked
    ensures { (a : Around) → asked a result ≡ w.unasked }
{
    Asked {
        of: None,
        annotated: false,
    }
}

/// A new site.
pub fn with_site<S: Surroundings>(
    outside: &S,
    state: &mut State,
    kind: SiteKind,
    place: Place,
    wanted: Asked,
) -> Result<SiteId, LowerFault>
    ensures { Gives site_number result (seen (S.around outside.now) state.new)
        (w.with_site kind place (asked (S.around outside.now) wanted) (seen (S.around outside.now) state.old)) }
{
    let Ok(number) = u32::try_from(state.sites.len()) else {
        return Err(LowerFault::Memory);
    };
    state.sites.push(Site {
        place,
        kind,
        required: wanted.of,
        annotated: wanted.annotated,
    })?;
    Ok(SiteId(number))
}

/// The form, tested at a new site.
pub fn checked<S: Surroundings>(
    alloc: Global,
    outside: &S,
    state: &mut State,
    kind: SiteKind,
    place: Place,
    wanted: Asked,
    form: Core,
) -> Result<Core, LowerFault>
    ensures { Gives (core (S.around outside.now)) result (seen (S.around outside.now) state.new)
        (w.checked kind place (asked (S.around outside.now) wanted) (core (S.around outside.now) form)
        (seen (S.around outside.now) state.old)) }
{
    let site = with_site(outside, state, kind, place, wanted)?;
    Ok(unary(outside, alloc, place, Unary::Check(site), form)?)
}

/// A condition, which is neither null nor anything but a bool (ECMA-408, 16.4.1 Boolean Conversion).
pub fn tested<S: Surroundings>(
    alloc: Global,
    outside: &S,
    state: &mut State,
    place: Place,
    form: Core,
) -> Result<Core, LowerFault>
    ensures { Gives (core (S.around outside.now)) result (seen (S.around outside.now) state.new)
        (w.tested place (core (S.around outside.now) form) (seen (S.around outside.now) state.old)) }
{
    let form = checked(
        alloc,
        outside,
        state,
        SiteKind::Condition,
        place,
        unasked(),
        form,
    )?;
    checked(
        alloc,
        outside,
        state,
        SiteKind::NullCondition,
        place,
        unasked(),
        form,
    )
}
