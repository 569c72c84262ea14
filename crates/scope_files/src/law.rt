// What follows from the definitions of what files give.
ghost use Rattle.std.specs.Prelude.{◌≡◌, ℕ, List, Some};
ghost use Rattle.dart_edge.specs.Files.{Files, file_of};
ghost use Rattle.scope_files.specs.Files.{NameGives, known};
ghost use Rattle.scope_load.specs.declared.reason.LoadFault.{LoadFault as Fault};
ghost use Rattle.scope_load.specs.declared.reason.Reason.{Reason as Why};
ghost use Rattle.scope_load.specs.declared.units.UnitName.{UnitName as Name};
ghost use Rattle.scope_load.specs.Found.{FoundIs};
ghost use Rattle.scope_load.specs.Load.{Ends, Refuses, Stops};
ghost use Rattle.scope_load.specs.State.{State};

/// Files give one thing for each name: no file, a reason against its text, or a unit with its weight.
pub fn names_give_one_thing()
    ensures { (files : Files) (number : ℕ) (name : Name) (a b : FoundIs) →
        NameGives (Some files) number name a → NameGives (Some files) number name b → a ≡ b }
{}

/// Of the files of a program loading comes to one answer: one reason against one unit, or all units.
pub fn one_answer()
    ensures reason { (files : Files) (root : List ℕ) (name other : Name) (why because : Why) →
        Refuses (NameGives (Some files)) root name why → Refuses (NameGives (Some files)) root other because →
        (name ≡ other) × (why ≡ because) }
    ensures apart { (files : Files) (root : List ℕ) (name : Name) (why : Why) (state : State) →
        Refuses (NameGives (Some files)) root name why → Ends (NameGives (Some files)) root state → ⊥ }
    ensures state { (files : Files) (root : List ℕ) (a b : State) →
        Ends (NameGives (Some files)) root a → Ends (NameGives (Some files)) root b → a ≡ b }
{}

/// Where the text at hand is what the files have as the root, loading with it comes to the answer of the files.
pub fn text_at_hand()
    ensures stops { (files : Files) (root text : List ℕ) (fault : Fault) → file_of files root ≡ Some text →
        Stops (NameGives (known root text (Some files))) root fault → Stops (NameGives (Some files)) root fault }
    ensures ends { (files : Files) (root text : List ℕ) (state : State) → file_of files root ≡ Some text →
        Ends (NameGives (known root text (Some files))) root state → Ends (NameGives (Some files)) root state }
{}
