// The phrases and the trees speak of the same lists of tokens. Each function here carries such a law as its contract: at
// every depth a phrase's trees have the tokens that dart_tree gives them, and those of a tree that fits, with every list
// that they begin with, are lists that begin the phrase.

ghost use Rattle.std.specs.Prelude.{ℕ};
ghost use Rattle.dart_syntax.specs.Statements.{within};
ghost use Rattle.dart_syntax.specs.Agreement.{TypesAgree, WithinAgrees, DeclarationsAgree, UnitsAgree};

/// Types, lists of types, type arguments, results and kinds of variables (ECMA-408, 19.1 Static Types).
pub fn types_agree()
    ensures { (n : ℕ) → TypesAgree n }
{}

/// Expressions with each level of their operators, parameters, variables, functions and statements (ECMA-408, 16
/// Expressions and 17 Statements).
pub fn within_agrees()
    ensures { (n : ℕ) → WithinAgrees (within n) }
{}

/// Declarations, classes and their members, and enums (ECMA-408, 18 Libraries and Scripts, 10 Classes and 13 Enums).
pub fn declarations_agree()
    ensures { (n : ℕ) → DeclarationsAgree n }
{}

/// Units and their directives (ECMA-408, 18 Libraries and Scripts).
pub fn units_agree()
    ensures { (n : ℕ) → UnitsAgree n }
{}
