// Laws of tables of classes: what holds of every program.
ghost use Rattle.std.specs.Prelude.{◌≡◌, Option};
ghost use Rattle.dart_base.specs.declared.place.Place.{Place};
ghost use Rattle.dart_ir.specs.declared.class.Classes.{Classes};
ghost use Rattle.class_fault.specs.declared.fault.Fault.{Fault};
ghost use Rattle.class_fault.specs.declared.program.Program.{Program};
ghost use Rattle.class_table.specs.Program.{IsProgram};
ghost use Rattle.class_table.specs.Built.{IsBuilt, IsRefused};
ghost use Rattle.class_size.specs.Built.{IsSizedTo};
ghost use Rattle.laws_class.specs.Same.{IsSameTable};

/// A program has one table of classes (ECMA-408, Classes, Mixins).
pub fn one_table()
    ensures { (p : Program) (k l : Classes) → IsProgram p → IsBuilt p k → IsBuilt p l → IsSameTable k l }
{}

/// A program that has a table has no header type that is refused.
pub fn no_table_of_the_refused()
    ensures { (p : Program) (k : Classes) (f : Fault) → IsBuilt p k → IsRefused p f → ⊥ }
{}

/// A program is refused for one header type, and for one reason.
pub fn one_refusal()
    ensures { (p : Program) (f g : Fault) → IsRefused p f → IsRefused p g → f ≡ g }
{}

/// The first header type of a program that is too large stands at one place, if there is one.
pub fn one_place()
    ensures { (p : Program) (k l : Classes) (f g : Option Place) → IsProgram p → IsSizedTo p k f → IsSizedTo p l g → f ≡ g }
{}
