// Laws of tables of classes: what units and a table of names determine.
ghost use Rattle.std.specs.Prelude.{◌≡◌, ◌++◌, List};
ghost use Rattle.dart_base.specs.Names.{AreDistinct};
ghost use Rattle.dart_base.specs.declared.place.Place.{Place};
ghost use Rattle.dart_ir.specs.declared.class.Classes.{Classes};
ghost use Rattle.class_fault.specs.declared.fault.Fault.{Fault};
ghost use Rattle.translation.specs.Surroundings.{Text};
ghost use Rattle.class_source.specs.Source.{SourceUnit, Given, classes_of};
ghost use Rattle.class_within.specs.Built.{IsTableFrom, IsFaultFrom, IsLargeFrom};
ghost use Rattle.laws_class.specs.Same.{IsSameTable};
ghost use Rattle.laws_table.specs.Roots.{DeclaresRoots};

/// Units have one table of classes under a table of names (ECMA-408, Classes, Mixins).
pub fn one_table()
    ensures { (given : Given) (units : List SourceUnit) (texts : List Text) (k l : Classes) → AreDistinct texts
        → DeclaresRoots (classes_of given units) → IsTableFrom given units texts k → IsTableFrom given units texts l → IsSameTable k l }
{}

/// They are refused for one header type, and for one reason.
pub fn one_fault()
    ensures { (given : Given) (units : List SourceUnit) (texts : List Text) (f g : Fault) → AreDistinct texts
        → IsFaultFrom given units texts f → IsFaultFrom given units texts g → f ≡ g }
{}

/// The first header type that is too large stands at one place.
pub fn one_place()
    ensures { (given : Given) (units : List SourceUnit) (texts : List Text) (place other : Place) → AreDistinct texts
        → DeclaresRoots (classes_of given units) → IsLargeFrom given units texts place → IsLargeFrom given units texts other → place ≡ other }
{}

/// Where a header type is refused there is no table.
pub fn no_table_with_a_fault()
    ensures { (given : Given) (units : List SourceUnit) (texts : List Text) (k : Classes) (f : Fault) → AreDistinct texts
        → IsTableFrom given units texts k → IsFaultFrom given units texts f → ⊥ }
{}

/// Where a header type is too large there is no table.
pub fn no_table_with_a_large_type()
    ensures { (given : Given) (units : List SourceUnit) (texts : List Text) (k : Classes) (place : Place) → AreDistinct texts
        → DeclaresRoots (classes_of given units) → IsTableFrom given units texts k → IsLargeFrom given units texts place → ⊥ }
{}

/// A header type that is too large is a reason only where none is refused.
pub fn no_large_type_with_a_fault()
    ensures { (given : Given) (units : List SourceUnit) (texts : List Text) (f : Fault) (place : Place) → AreDistinct texts
        → IsFaultFrom given units texts f → IsLargeFrom given units texts place → ⊥ }
{}

/// The table of classes that units have under a table of names they have under each one that begins with it.
pub fn tables_stay_under_more_names()
    ensures { (given : Given) (units : List SourceUnit) (texts more : List Text) (k : Classes) → IsTableFrom given units texts k
        → IsTableFrom given units (texts ++ more) k }
{}

/// So it is of the reason against them.
pub fn reasons_stay_under_more_names()
    ensures fault { (given : Given) (units : List SourceUnit) (texts more : List Text) (f : Fault) → IsFaultFrom given units texts f
        → IsFaultFrom given units (texts ++ more) f }
    ensures large { (given : Given) (units : List SourceUnit) (texts more : List Text) (place : Place) → IsLargeFrom given units texts place
        → IsLargeFrom given units (texts ++ more) place }
{}
