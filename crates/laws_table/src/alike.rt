// Laws of programs that are seen alike: what holds of the one holds of the other.
ghost use Rattle.std.specs.Prelude.{◌≡◌, Option};
ghost use Rattle.dart_base.specs.declared.place.Place.{Place};
ghost use Rattle.dart_ir.specs.declared.class.Classes.{Classes};
ghost use Rattle.class_fault.specs.declared.fault.Fault.{Fault};
ghost use Rattle.class_fault.specs.declared.program.Program.{Program};
ghost use Rattle.class_table.specs.Built.{IsBuilt, IsRefused};
ghost use Rattle.class_size.specs.Built.{IsSizedTo};
ghost use Rattle.class_within.specs.View as view;

/// They have the same tables of classes.
pub fn tables_are_of_what_is_seen()
    ensures { (p q : Program) (k : Classes) → view.program p ≡ view.program q → IsBuilt p k → IsBuilt q k }
{}

/// They are refused for the same header type, and for the same reason.
pub fn faults_are_of_what_is_seen()
    ensures { (p q : Program) (f : Fault) → view.program p ≡ view.program q → IsRefused p f → IsRefused q f }
{}

/// The first header type of theirs that is too large stands at the same place.
pub fn sizes_are_of_what_is_seen()
    ensures { (p q : Program) (k : Classes) (found : Option Place) → view.program p ≡ view.program q
        → IsSizedTo p k found → IsSizedTo q k found }
{}
