// What the grammar answers on a list of tokens is one thing.

ghost use Rattle.std.specs.Prelude.{ℕ, List, Result, ◌≡◌};
ghost use Rattle.dart_token.specs.declared.token.Token.{Token};
ghost use Rattle.dart_tree.specs.Unit.{UnitTree};
ghost use Rattle.dart_syntax.specs.Syntax.{SyntaxReason, Answers};

/// A list of tokens has one answer at most: no list is both a unit and refused, none is two units, and none is refused
/// for two reasons or at two places (ECMA-408, 18 Libraries and Scripts).
pub fn one_answer()
    ensures { (depth further : ℕ) (tokens : List Token) (x y : Result UnitTree SyntaxReason) → Answers depth further tokens x → Answers depth further tokens y → x ≡ y }
{}
