// The height of a tree that fits a phrase is the least depth at which it fits.

ghost use Rattle.std.specs.Prelude.{ℕ};
ghost use Rattle.dart_syntax.specs.Types.{type_within};
ghost use Rattle.dart_syntax.specs.Statements.{within};
ghost use Rattle.syntax_measures.specs.Relations.{TypesRelate, WithinRelate, DeclarationsRelate, UnitsRelate};
ghost use Rattle.syntax_measures.specs.Heights.{no_deeper, fits_by};

// ---- a tree that fits within some depth has at most so many nodes above one another

/// Types, lists of types, type arguments, results and kinds of variables (ECMA-408, 19.1 Static Types).
pub fn types_no_deeper()
    ensures { (n : ℕ) → TypesRelate (no_deeper n) (type_within n) (type_within n) }
{}

/// Expressions with each row of operators, parameters, variables, functions and statements (ECMA-408, 16 Expressions and 17
/// Statements).
pub fn within_no_deeper()
    ensures { (n : ℕ) → WithinRelate (no_deeper n) (within n) (within n) }
{}

/// Declarations, classes and their members, and constructors in a class of any name (ECMA-408, 18 Libraries and Scripts and
/// 10 Classes).
pub fn declarations_no_deeper()
    ensures { (n : ℕ) → DeclarationsRelate (no_deeper n) n n }
{}

/// Units and their directives (ECMA-408, 18 Libraries and Scripts).
pub fn units_no_deeper()
    ensures { (n : ℕ) → UnitsRelate (no_deeper n) n n }
{}

// ---- a tree that fits at some depth fits at every depth that it is no higher than

/// Types, lists of types, type arguments, results and kinds of variables (ECMA-408, 19.1 Static Types).
pub fn types_fit_by_height()
    ensures { (n m : ℕ) → TypesRelate (fits_by m) (type_within n) (type_within m) }
{}

/// Expressions with each row of operators, parameters, variables, functions and statements (ECMA-408, 16 Expressions and 17
/// Statements).
pub fn within_fits_by_height()
    ensures { (n m : ℕ) → WithinRelate (fits_by m) (within n) (within m) }
{}

/// Declarations, classes and their members, and constructors in a class of any name (ECMA-408, 18 Libraries and Scripts and
/// 10 Classes).
pub fn declarations_fit_by_height()
    ensures { (n m : ℕ) → DeclarationsRelate (fits_by m) n m }
{}

/// Units and their directives (ECMA-408, 18 Libraries and Scripts).
pub fn units_fit_by_height()
    ensures { (n m : ℕ) → UnitsRelate (fits_by m) n m }
{}
