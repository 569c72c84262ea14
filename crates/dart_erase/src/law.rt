// Laws of erasure: what holds of every tree.
ghost use Rattle.std.specs.Prelude.{◌≡◌, ◌≤◌};
ghost use Rattle.dart_tree.specs.Depth.{unit_height};
ghost use Rattle.dart_erase.specs.Erased as erased;
ghost use Rattle.dart_erase.specs.Precedence.{binds, is_target};
ghost use Rattle.dart_tree.specs.Tree.{Operand};
ghost use Rattle.dart_erase.specs.Thinned.{Thinned};
ghost use Rattle.dart_tree.specs.Unit.{UnitTree};
ghost use Rattle.dart_erase.specs.UnitErased as of_unit;
ghost use Rattle.dart_tree.specs.UnitTokens.{unit_tokens};

/// A unit that is erased twice is the unit that is erased once.
pub fn erased_once()
    ensures { (x : UnitTree) → of_unit.unit (of_unit.unit x) ≡ of_unit.unit x }
{}

/// No unit becomes deeper as it is erased.
pub fn erased_no_deeper()
    ensures { (x : UnitTree) → unit_height (of_unit.unit x) ≤ unit_height x }
{}

/// An operand fits the level of operators that it fitted before it was erased, and may be assigned exactly where it
/// might be before.
pub fn erased_fits()
    ensures level { (x : Operand) → binds (erased.operand x) ≡ binds x }
    ensures target { (x : Operand) → is_target (erased.operand x) ≡ is_target x }
{}

/// The tokens of an erased unit are tokens of the unit, in order and each at its place, and `var` before some of them at
/// the place of what follows it.
pub fn erased_keeps_places()
    ensures { (x : UnitTree) → Thinned (unit_tokens x) (unit_tokens (of_unit.unit x)) }
{}
