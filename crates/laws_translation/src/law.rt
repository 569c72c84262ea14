// Laws of translation: what holds of every program.
ghost use Rattle.std.specs.Prelude.{◌≡◌, ◌≢◌, Some, None};
ghost use Rattle.dart_base.specs.declared.place.Place.{Place};
ghost use Rattle.core_program.specs.Alike as alike;
ghost use Rattle.core_program.specs.Program.{Program};
ghost use Rattle.core_program.specs.Stripped as stripped;
ghost use Rattle.laws_translation.specs.Bare.{bare, erased_given, forgotten, lines};
ghost use Rattle.translation.specs.Program.{Given, accepted, core, named_as_class};
ghost use Rattle.translation.specs.Surroundings.{Text};

/// Where no member has a result type and its class's name, the core of the erased program without columns is what is left
/// of the core of the program, and so is the reason where there is none.
pub fn bare_core()
    ensures { (x : Given) → named_as_class x.units ≡ None → core (bare x) ≡ forgotten (core x) }
{}

/// Such programs that differ in annotations and columns alone have stripped cores that are alike, or the same reason at
/// the same line.
pub fn alike_cores()
    ensures { (x y : Given) → named_as_class x.units ≡ None → named_as_class y.units ≡ None
        → bare y ≡ bare x → forgotten (core y) ≡ forgotten (core x) }
{}

/// Where a program has a core, so has the erased one, and it is alike once both are stripped.
pub fn erased_core()
    ensures { (x : Given) (made : Program Text) → core x ≡ accepted made
        → core (bare x) ≡ accepted (alike.program (stripped.program made)) }
{}

/// A program that is read again from the text of the erased one, so that its trees are those but for columns, has a core
/// that is alike once both are stripped, or the same reason at the same line.
pub fn core_of_erased()
    ensures { (x q : Given) → named_as_class x.units ≡ None
        → lines q ≡ lines (erased_given x) → forgotten (core q) ≡ forgotten (core x) }
{}

/// A program in which a member has a result type and its class's name has no core.
pub fn named_members_are_refused()
    ensures { (x : Given) (place : Place) (made : Program Text) → named_as_class x.units ≡ Some place → core x ≢ accepted made }
{}
