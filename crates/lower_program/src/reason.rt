// The reasons for which programs have no core, and the order of their places.
ghost use Rattle.std.specs.Prelude.{◌≡◌, IfOk};
ghost use Rattle.translation.specs.MemberNames as member_names;
ghost use Rattle.translation.specs.Program as p;
ghost use Rattle.lower_program.specs.Views.{IsReason, reason};

use dart_base::feature::Feature;
use dart_base::place::Place;
use lower_leaf::fault::{LowerFault, Want};

/// Why a program has no core, with the place.
#[derive(Clone, Copy, Debug, PartialEq, Eq)]
pub enum Reason {
    /// The profile leaves this out.
    LeftOut(Place, Feature),
    /// A default value is no literal (ECMA-408, 9.2.2 Optional Formals).
    NotConstant(Place),
    /// A jump has no target (17.14 Break and 17.15 Continue).
    BadLabel(Place),
    /// A constructor that there is not, or that may not stand there (10.6 Constructors).
    BadConstructor(Place),
    /// The cases of a switch are neither all integers nor all strings (17.9 Switch).
    BadSwitch(Place),
    /// `this`, `super` or `rethrow` where there is none (16.11 This and 17.10 Rethrow).
    BadWord(Place),
    /// A list has more than 255 parameters.
    TooLarge(Place),
}

/// The reason that a fault is, unless it is want of memory.
pub fn reason_of(of: LowerFault) -> Result<Reason, Want>
    ensures { IfOk result (λ made. IsReason of (reason made)) }
{
    match of {
        LowerFault::LeftOut(place, feature) => Ok(Reason::LeftOut(place, feature)),
        LowerFault::NotConstant(place) => Ok(Reason::NotConstant(place)),
        LowerFault::BadLabel(place) => Ok(Reason::BadLabel(place)),
        LowerFault::BadConstructor(place) => Ok(Reason::BadConstructor(place)),
        LowerFault::BadSwitch(place) => Ok(Reason::BadSwitch(place)),
        LowerFault::BadWord(place) => Ok(Reason::BadWord(place)),
        LowerFault::TooLarge(place) => Ok(Reason::TooLarge(place)),
        LowerFault::Memory => Err(Want),
    }
}

/// Where the reason stands.
pub fn place_of(of: Reason) -> Place
    ensures { result ≡ p.place_of (reason of) }
{
    match of {
        Reason::LeftOut(place, _) => place,
        Reason::NotConstant(place) => place,
        Reason::BadLabel(place) => place,
        Reason::BadConstructor(place) => place,
        Reason::BadSwitch(place) => place,
        Reason::BadWord(place) => place,
        Reason::TooLarge(place) => place,
    }
}

// Whether a place stands before another of its unit.
fn is_above(x: Place, y: Place) -> bool
    ensures { result ≡ member_names.is_above x y }
{
    if x.line < y.line {
        return true;
    }
    if y.line < x.line {
        return false;
    }
    x.column < y.column
}

/// Whether a place stands before another: by units, then lines, then columns.
pub fn is_before(x: Place, y: Place) -> bool
    ensures { result ≡ member_names.is_before x y }
{
    if x.unit < y.unit {
        return true;
    }
    if y.unit < x.unit {
        return false;
    }
    is_above(x, y)
}
