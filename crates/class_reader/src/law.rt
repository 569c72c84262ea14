// What is read, as what tables of classes are built from.
ghost use Rattle.std.specs.Prelude.{List};
ghost use Rattle.class_fault.specs.declared.program.Program.{Program};
ghost use Rattle.class_table.specs.Program.{IsProgram};
ghost use Rattle.translation.specs.Surroundings.{Text};
ghost use Rattle.class_source.specs.Source.{SourceUnit, Given};
ghost use Rattle.class_source.specs.Resolved.{IsResolved};
ghost use Rattle.class_source.specs.View.{IsSource};
ghost use Rattle.class_reader.specs.Roots.{HasRoots, AreFew};

/// Where what is handed in fits the units, the types of a program that has the classes of the units are formed, and where it has
/// `Object` and `Function` among them the table of its classes can be built.
pub fn sources_are_programs()
    ensures { (given : Given) (units : List SourceUnit) (texts : List Text) (p : Program) → IsSource given units texts p
        → IsResolved given units → HasRoots p → AreFew p → IsProgram p }
{}
