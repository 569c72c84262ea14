// Laws of programs whose class declarations differ in the types of signatures alone, as those of a program and of the erased one.
ghost use Rattle.std.specs.Prelude.{◌≡◌, ◌<◌, List, length};
ghost use Rattle.dart_base.specs.Names.{AreDistinct};
ghost use Rattle.dart_base.specs.declared.place.Place.{Place};
ghost use Rattle.dart_ir.specs.declared.class.Classes.{Classes};
ghost use Rattle.class_fault.specs.declared.fault.Fault.{Fault};
ghost use Rattle.class_fault.specs.declared.program.Program.{Program};
ghost use Rattle.class_table.specs.Built.{IsBuilt, IsRefused};
ghost use Rattle.class_source.specs.Source.{SourceUnit, Given, classes_of};
ghost use Rattle.class_within.specs.Built.{IsTableFrom, IsFaultFrom, IsLargeFrom};
ghost use Rattle.laws_table.specs.Loose.{loose_classes};
ghost use Rattle.laws_table.specs.Roots.{DeclaresRoots};
ghost use Rattle.laws_table.specs.Shape as shape;
ghost use Rattle.laws_table.specs.Shape.{IsSameShape};
ghost use Rattle.translation.specs.Surroundings.{Text};

/// Their tables differ in those types alone, where `Object` and `Function` are declared.
pub fn tables_are_of_a_shape()
    ensures { (p q : Program) (k l : Classes) → shape.program p ≡ shape.program q → p.object < length p.declarations.items
        → p.function < length p.declarations.items → IsBuilt p k → IsBuilt q l → IsSameShape k l }
{}

/// They are refused for the same header type, and for the same reason.
pub fn faults_are_of_a_shape()
    ensures { (p q : Program) (f : Fault) → shape.program p ≡ shape.program q → IsRefused p f → IsRefused q f }
{}

/// So it is of units, under a table of names: where their classes differ in the types of signatures alone, so do their tables.
pub fn units_have_tables_of_a_shape()
    ensures { (given other : Given) (units others : List SourceUnit) (texts : List Text) (k l : Classes) → AreDistinct texts
        → loose_classes (classes_of other others) ≡ loose_classes (classes_of given units) → DeclaresRoots (classes_of given units)
        → IsTableFrom given units texts k → IsTableFrom other others texts l → IsSameShape k l }
{}

/// And they are refused for one header type, for one reason, and only where there is no table.
pub fn units_have_faults_of_a_shape()
    ensures one { (given other : Given) (units others : List SourceUnit) (texts : List Text) (f g : Fault) → AreDistinct texts
        → loose_classes (classes_of other others) ≡ loose_classes (classes_of given units)
        → IsFaultFrom given units texts f → IsFaultFrom other others texts g → f ≡ g }
    ensures no_table { (given other : Given) (units others : List SourceUnit) (texts : List Text) (k : Classes) (f : Fault) → AreDistinct texts
        → loose_classes (classes_of other others) ≡ loose_classes (classes_of given units)
        → IsTableFrom given units texts k → IsFaultFrom other others texts f → ⊥ }
{}

/// And of both one header type is the first that is too large, and only where there is no table.
pub fn units_have_large_types_of_a_shape()
    ensures one { (given other : Given) (units others : List SourceUnit) (texts : List Text) (place at : Place) → AreDistinct texts
        → loose_classes (classes_of other others) ≡ loose_classes (classes_of given units) → DeclaresRoots (classes_of given units)
        → IsLargeFrom given units texts place → IsLargeFrom other others texts at → place ≡ at }
    ensures no_table { (given other : Given) (units others : List SourceUnit) (texts : List Text) (k : Classes) (place : Place) → AreDistinct texts
        → loose_classes (classes_of other others) ≡ loose_classes (classes_of given units) → DeclaresRoots (classes_of given units)
        → IsTableFrom given units texts k → IsLargeFrom other others texts place → ⊥ }
{}
