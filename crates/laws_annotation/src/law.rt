// Laws of erased programs: what of the names of a program doesn't depend on its annotations.
ghost use Rattle.std.specs.Prelude.{◌≡◌, ℕ, List, Option, map};
ghost use Rattle.class_source.specs.Source.{Given, SourceUnit, classes_of};
ghost use Rattle.class_fault.specs.declared.fault.Fault.{Fault};
ghost use Rattle.class_within.specs.Built.{IsFaultFrom, IsLargeFrom, IsTableFrom};
ghost use Rattle.dart_base.specs.Names.{AreDistinct};
ghost use Rattle.dart_base.specs.declared.place.Place.{Place};
ghost use Rattle.dart_class.specs.Given.{class_given, source_units};
ghost use Rattle.dart_erase.specs.UnitErased as erased;
ghost use Rattle.dart_tree.specs.Unit.{UnitTree};
ghost use Rattle.dart_ir.specs.declared.class.Classes.{Classes};
ghost use Rattle.dart_lower.specs.Given.{given_of};
ghost use Rattle.dart_scope.specs.Making.{IsProgram};
ghost use Rattle.dart_scope.specs.declared.program.Program.{Program};
ghost use Rattle.laws_annotation.specs.Erased.{erased_scoping, erased_source, erased_state, signed, unsigned};
ghost use Rattle.laws_annotation.specs.Loading.{GivenBy, GivenErasedBy};
ghost use Rattle.laws_table.specs.Loose.{loose_classes};
ghost use Rattle.laws_table.specs.Roots.{DeclaresRoots};
ghost use Rattle.laws_annotation.specs.Tables.{DifferInSignaturesAlone};
ghost use Rattle.laws_scope.specs.Under.{IsScopingUnder};
ghost use Rattle.laws_translation.specs.Bare.{erased_given, lines};
ghost use Rattle.scope_declared.specs.UnitDeclared.{unit_declares};
ghost use Rattle.scope_library.specs.Library.{homes_of, libraries_of};
ghost use Rattle.scope_load.specs.Found.{FoundIs};
ghost use Rattle.scope_load.specs.Load.{Loads};
ghost use Rattle.scope_load.specs.State.{State, after};
ghost use Rattle.scope_load.specs.declared.units.UnitName.{UnitName};
ghost use Rattle.scope_mention.specs.Head.{is_part_of, part_place};
ghost use Rattle.scope_mention.specs.Mention.{mentions_of};
ghost use Rattle.scope_program.specs.Around.{headers_around, members_around};
ghost use Rattle.scope_program.specs.Program.{IsScoping, Scoping};
ghost use Rattle.table_accessor.specs.Numbered.{IsNumbered};
ghost use Rattle.translation.specs.Surroundings.{Text, Ty};
ghost use Rattle.translation.specs.Types.{AliasType};

/// An erased unit declares exactly what the unit declares, in its order, each with its place, its kind and where it counts
/// (ECMA-408, 6.1 Scoping), however names are numbered.
pub fn declarations_are_kept()
    ensures { (number : List ℕ → ℕ) (library : Place) (x : UnitTree)
        → unit_declares number library (erased.unit x) ≡ unit_declares number library x }
{}

/// An erased unit mentions the same units, is a part where the unit is one, and of a library that it was a part of
/// (ECMA-408, 18 Libraries and Scripts).
pub fn directives_are_kept()
    ensures mentions { (x : UnitTree) → mentions_of (erased.unit x) ≡ mentions_of x }
    ensures part { (x : UnitTree) → part_place (erased.unit x) ≡ part_place x }
    ensures part_of { (x library : UnitTree) → is_part_of (erased.unit x) (erased.unit library) ≡ is_part_of x library }
{}

/// Where an erased unit is taken into an erased program, the program becomes what it becomes with the unit, erased: with the
/// same units to be taken and the same links.
pub fn loading_goes_on_alike()
    ensures { (root : List ℕ) (state : State) (name : UnitName) (x : UnitTree) (weight : ℕ)
        → after root (erased_state state) name (erased.unit x) weight ≡ erased_state (after root state name x weight) }
{}

/// Where a program is loaded from units, the erased program is loaded from the erased units, with the same names, links and
/// weights, and no reason is against it.
pub fn erased_programs_are_loaded()
    ensures { (give : ℕ → UnitName → FoundIs) (root : List ℕ) (state : State) → Loads (GivenBy give) root state
        → Loads (GivenErasedBy give) root (erased_state state) }
{}

/// An erased program has the same libraries, with the same parts, imports and exports, and each unit belongs to the same
/// (ECMA-408, 18 Libraries and Scripts).
pub fn libraries_are_kept()
    ensures libraries { (state : State) → libraries_of (erased_state state) ≡ libraries_of state }
    ensures homes { (state : State) → homes_of (erased_state state) ≡ homes_of state }
{}

/// What the units of a program make of a table of names and the numbers of their libraries, an erased program makes of them too:
/// declarations with their numbers, libraries, and where there is no instance (ECMA-408, 6.1 Scoping, 18 Libraries and Scripts).
pub fn programs_are_kept()
    ensures { (names : List Text) (homes : List ℕ) (state : State) (program : Program) → IsProgram names homes state program
        → IsProgram names homes (erased_state state) program }
{}

/// Names mean in an erased program what they mean in the program, and its classes are those of the program but for the trees of their
/// members (ECMA-408, 16.33 Identifier Reference). Its own table of names has what the units spell without their annotations alone.
pub fn scopings_are_kept()
    ensures of_a_program { (state : State) (s : Scoping) → IsScoping state s
        → IsScopingUnder s.kept s.texts (erased_state state) (erased_scoping s) }
    ensures of_its_own { (state : State) (s t : Scoping) → IsScoping state s → IsScoping (erased_state state) t
        → t ≡ record (erased_scoping s) { texts = s.kept } }
    ensures under_a_table { (table all : List Text) (state : State) (s : Scoping) → IsScopingUnder table all state s
        → IsScopingUnder table all (erased_state state) (erased_scoping s) }
{}

/// Headers and members of classes are read in the same surroundings: what names mean, what classes declare as static, and their
/// constructors (ECMA-408, 10 Classes).
pub fn surroundings_are_kept()
    ensures headers { (s : Scoping) → headers_around (erased_scoping s) ≡ headers_around s }
    ensures members { (s : Scoping) → members_around (erased_scoping s) ≡ members_around s }
{}

/// The classes that erased units declare are those of the units, row by row, but for the types in the signatures of members, whatever aliases
/// stand for there: whether a class may be mixed in is the same, too (ECMA-408, 10 Classes, 12 Mixins).
pub fn class_rows_are_kept()
    ensures { (given : Given) (aliases : AliasType) (variables : ℕ → Option Ty) (units : List SourceUnit)
        → loose_classes (classes_of (signed given aliases variables) (map erased_source units)) ≡ loose_classes (classes_of given units) }
{}

/// The classes of an erased program are read with the same names and numbers, but for what aliases stand for, from the units of the program,
/// erased (ECMA-408, 10 Classes).
pub fn classes_are_read_alike()
    ensures given { (s : Scoping) (state : State) → unsigned (class_given (erased_state state) (erased_scoping s)) ≡ unsigned (class_given state s) }
    ensures units { (state : State) → source_units (erased_state state) ≡ map erased_source (source_units state) }
{}

/// Over a table of classes that differs in signatures alone, what is translated of the erased program is, but for columns, the
/// program with its units erased: so `core_of_erased` of laws_translation says that their cores are alike once both are stripped.
pub fn translated_programs_differ_in_annotations()
    ensures { (s : Scoping) (state : State) (k l : Classes) (main : ℕ) → DifferInSignaturesAlone s.texts l k
        → lines (given_of (erased_scoping s) (erased_state state) l main) ≡ lines (erased_given (given_of s state k main)) }
{}

/// Under one table of names, the table of the classes of the erased program differs from that of the program in the types of
/// signatures alone, its implicit accessors included (ECMA-408, 10 Classes).
pub fn tables_differ_in_signatures()
    ensures { (s : Scoping) (state : State) (built other k l : Classes) → AreDistinct s.texts
        → DeclaresRoots (classes_of (class_given state s) (source_units state))
        → IsTableFrom (class_given state s) (source_units state) s.texts built → IsNumbered s built k
        → IsTableFrom (class_given (erased_state state) (erased_scoping s)) (source_units (erased_state state)) s.texts other
        → IsNumbered (erased_scoping s) other l → DifferInSignaturesAlone s.texts l k }
{}

/// Where the classes of a program have a table, the erased program has no reason against a header: none is refused, and none is too
/// large (ECMA-408, 10 Classes, 12 Mixins).
pub fn headers_get_no_reason()
    ensures fault { (s : Scoping) (state : State) (built : Classes) (f : Fault) → AreDistinct s.texts
        → IsTableFrom (class_given state s) (source_units state) s.texts built
        → IsFaultFrom (class_given (erased_state state) (erased_scoping s)) (source_units (erased_state state)) s.texts f → ⊥ }
    ensures large { (s : Scoping) (state : State) (built : Classes) (place : Place) → AreDistinct s.texts
        → DeclaresRoots (classes_of (class_given state s) (source_units state))
        → IsTableFrom (class_given state s) (source_units state) s.texts built
        → IsLargeFrom (class_given (erased_state state) (erased_scoping s)) (source_units (erased_state state)) s.texts place → ⊥ }
{}
