// Laws of the names of a program: what holds of every loaded program.
ghost use Rattle.std.specs.Prelude.{◌≡◌, ◌++◌, ℕ, List, map};
ghost use Rattle.dart_erase.specs.UnitErased as erased;
ghost use Rattle.dart_tree.specs.Unit.{UnitTree};
ghost use Rattle.laws_scope.specs.Under.{IsScopingUnder};
ghost use Rattle.scope_load.specs.State.{State};
ghost use Rattle.scope_name.specs.Names.{all_names, kept_names};
ghost use Rattle.scope_program.specs.Program.{Scoping, IsScoping};
ghost use Rattle.translation.specs.Surroundings.{Text};

/// What the names of a loaded program mean is one thing (ECMA-408, 16.33 Identifier Reference, 18 Libraries and Scripts).
pub fn one_scoping()
    ensures { (state : State) (s other : Scoping) → IsScoping state s → IsScoping state other → other ≡ s }
{}

/// So it is under all tables of names, also under those that have more names than the units spell.
pub fn one_scoping_under_a_table()
    ensures { (table all : List Text) (state : State) (s other : Scoping) → IsScopingUnder table all state s
        → IsScopingUnder table all state other → other ≡ s }
{}

/// The table of names of a program has behind the names that the units have without their annotations what only these spell, and nothing else:
/// erased units have the same names without annotations, and no others.
pub fn names_of_annotations_come_last()
    ensures begins { (homes : List ℕ) (units : List UnitTree)
        → (more : List Text) × (all_names homes units ≡ kept_names homes units ++ more) }
    ensures kept { (homes : List ℕ) (units : List UnitTree) → kept_names homes (map erased.unit units) ≡ kept_names homes units }
    ensures all { (homes : List ℕ) (units : List UnitTree) → all_names homes (map erased.unit units) ≡ kept_names homes units }
{}
