// Laws of names: the numbers and the texts of a program within a table determine each other.
ghost use Rattle.std.specs.Prelude.{◌≡◌, ℕ, List, length};
ghost use Rattle.dart_base.specs.Names.{AreDistinct};
ghost use Rattle.core_program.specs.Alike as alike;
ghost use Rattle.core_program.specs.Program.{Program};
ghost use Rattle.core_program.specs.Named as named;
ghost use Rattle.core_program.specs.ProgramView.{text_at};
ghost use Rattle.core_program.specs.Stripped as stripped;
ghost use Rattle.core_names.specs.Within.{AreWithin, number_at};

/// A program within a table comes back once its names are replaced by their texts, and these by their numbers.
pub fn numbers_come_back()
    ensures { (texts : List (List ℕ)) (q : Program ℕ) → AreDistinct texts → AreWithin (length texts) q
        → named.program (number_at texts) (named.program (text_at texts) q) ≡ q }
{}

/// Two programs within a table that are the same with names as their texts are the same.
pub fn texts_determine_numbers()
    ensures { (texts : List (List ℕ)) (q r : Program ℕ) → AreDistinct texts → AreWithin (length texts) q
        → AreWithin (length texts) r → named.program (text_at texts) q ≡ named.program (text_at texts) r → q ≡ r }
{}

/// Two programs within a table that are alike with names as their texts, once what annotations ask for is gone, are alike with their
/// numbers.
pub fn texts_determine_bare_numbers()
    ensures { (texts : List (List ℕ)) (q r : Program ℕ) → AreDistinct texts → AreWithin (length texts) q → AreWithin (length texts) r
        → alike.program (stripped.program (named.program (text_at texts) q)) ≡ alike.program (stripped.program (named.program (text_at texts) r))
        → alike.program (stripped.program q) ≡ alike.program (stripped.program r) }
{}
