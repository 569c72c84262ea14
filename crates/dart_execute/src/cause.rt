// Why a loaded program is refused.
ghost use Rattle.std.specs.Prelude.{◌≡◌};
ghost use Rattle.lower_program.specs.Views.{reason};
ghost use Rattle.dart_execute.specs.Execution.{core_cause};

use dart_base::feature::Feature;
use lower_program::reason::Reason;

/// Why a program whose units are loaded is refused.
#[derive(Clone, Copy, Debug, PartialEq, Eq)]
pub enum Cause {
    /// A class is above itself (ECMA-408, 10.9 Superclasses).
    CyclicClasses,
    /// A type is no class that may be extended or implemented there (10.9 Superclasses, 10.10 Superinterfaces).
    BadSuper,
    /// A type is no class that may be mixed in (12 Mixins).
    BadMixin,
    /// A supertype has more than 256 nodes.
    TypesTooLarge,
    /// The profile leaves this out.
    LeftOut(Feature),
    /// A default value is no literal (9.2.2 Optional Formals).
    NotConstant,
    /// A jump has no target (17.14 Break and 17.15 Continue).
    BadLabel,
    /// A constructor that there is not, or that may not stand there (10.6 Constructors).
    BadConstructor,
    /// The cases of a switch are neither all integers nor all strings (17.9 Switch).
    BadSwitch,
    /// `this`, `super` or `rethrow` where there is none (16.11 This and 17.10 Rethrow).
    BadWord,
    /// A list has more than 255 parameters.
    TooManyParameters,
}

/// Why a program has no core.
pub fn core_cause(why: Reason) -> Cause
    ensures { result ≡ core_cause (reason why) }
{
    match why {
        Reason::LeftOut(_, feature) => Cause::LeftOut(feature),
        Reason::NotConstant(_) => Cause::NotConstant,
        Reason::BadLabel(_) => Cause::BadLabel,
        Reason::BadConstructor(_) => Cause::BadConstructor,
        Reason::BadSwitch(_) => Cause::BadSwitch,
        Reason::BadWord(_) => Cause::BadWord,
        Reason::TooLarge(_) => Cause::TooManyParameters,
    }
}
