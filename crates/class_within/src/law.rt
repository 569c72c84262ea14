// A law of names: the texts of declarations within a table determine them.
ghost use Rattle.std.specs.Prelude.{◌≡◌, List, length};
ghost use Rattle.dart_base.specs.Names.{AreDistinct};
ghost use Rattle.class_fault.specs.declared.program.Program.{Program};
ghost use Rattle.translation.specs.Surroundings.{Text};
ghost use Rattle.class_source.specs.Source.{SourceUnit, Given};
ghost use Rattle.class_source.specs.View.{IsSource};
ghost use Rattle.class_within.specs.View as view;
ghost use Rattle.class_within.specs.Within.{AreWithin};

/// Two programs within a table of names that have the classes of the same units are the same, but for the room that they take.
pub fn sources_determine_programs()
    ensures { (given : Given) (units : List SourceUnit) (texts : List Text) (p q : Program) → AreDistinct texts
        → IsSource given units texts p → IsSource given units texts q → AreWithin (length texts) p → AreWithin (length texts) q
        → view.program p ≡ view.program q }
{}
