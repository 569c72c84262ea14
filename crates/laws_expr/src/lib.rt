// The readers of expressions find the expressions of the grammar. The crate runs nothing.
#![tactic(auto)]

ghost use Rattle.laws_expr.specs.Statements.{ExpressionsRead, ProductionsRead};

/// At every depth the readers of strings, selectors, objects, lists, maps and arguments find their phrases of the grammar
/// and nothing else, where those of the expressions and arguments inside do (ECMA-408, 16 Expressions).
pub fn productions_read()
    ensures { ProductionsRead }
{}

/// At every depth the readers of expressions, of the operands of each row, of targets, of cascades, of the literals of
/// lists, maps and functions, of arguments and of types find their phrases of the grammar and nothing else, where those
/// of parameters and blocks do at the smaller depths (ECMA-408, 16 Expressions).
pub fn expressions_read()
    ensures { ExpressionsRead }
{}
