// The readers of parameters, and of statements as far as they hold no statements, find those of the grammar. The crate runs nothing.
#![tactic(auto)]

ghost use Rattle.laws_stmt.specs.Besides.{BesidesRead};
ghost use Rattle.laws_stmt.specs.Statements.{JumpsRead, ParametersRead, DeclaredRead, ReadOverBlocks};

/// At every depth the readers of jumps, of expression statements, of conditions and of `catch` clauses find their phrases
/// of the grammar and nothing else, where that of the expressions inside does (ECMA-408, 17 Statements).
pub fn jumps_read()
    ensures { JumpsRead }
{}

/// At every depth the readers of a parameter and of parameters in their parentheses find their phrases of the grammar and
/// nothing else, where those of parameters and blocks do at the smaller depths (ECMA-408, 9.2 Formal Parameters).
pub fn parameters_read()
    ensures { ParametersRead }
{}

/// At every depth the readers of variables, of functions in functions, of either as a statement and of functions' bodies
/// find their phrases of the grammar and nothing else, where those of parameters and blocks do up to the depth of what
/// stands inside (ECMA-408, 8 Variables, 17.3 Local Variable Declaration, 17.4 Local Function Declaration, 9 Functions).
pub fn declared_read()
    ensures { DeclaredRead }
{}

/// At every depth all readers of expressions, of parameters, of variables and of functions in functions find their phrases
/// of the grammar and nothing else, where those of blocks alone do at the smaller depths (ECMA-408, 16 Expressions, 9.2
/// Formal Parameters, 17 Statements).
pub fn read_over_blocks()
    ensures { ReadOverBlocks }
{}

/// At every depth the readers of declarations, jumps and expression statements, and of all that the heads of statements are
/// made of, find their phrases of the grammar and nothing else, where those of blocks do up to that depth (ECMA-408, 17
/// Statements).
pub fn besides_read()
    ensures { BesidesRead }
{}
