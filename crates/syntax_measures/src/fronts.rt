// A larger depth accepts more: what fits a phrase, or begins it, within some depth does so within every larger one.

ghost use Rattle.std.specs.Prelude.{ℕ, ◌≤◌};
ghost use Rattle.dart_syntax.specs.Statements.{within};
ghost use Rattle.syntax_measures.specs.Relations.{WithinRelate};
ghost use Rattle.syntax_measures.specs.Fronts.{grows};

/// Expressions with each row of operators, parameters, variables, functions and statements (ECMA-408, 16 Expressions and 17
/// Statements).
pub fn within_fronts_grow()
    ensures { (n m : ℕ) → n ≤ m → WithinRelate grows (within n) (within m) }
{}
