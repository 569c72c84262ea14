// No list of tokens leaves a choice between a declaration and an expression statement, or between the kinds of heads of `for`. The crate
// runs nothing.
#![tactic(auto)]

ghost use Rattle.laws_apart.specs.Statements.{StatementsApart, HeadsApart};

/// At every depth no list of tokens is a declaration and begins an expression statement past that, or the other way round, and none is
/// both; neither begins with a label, nor as another part of a `try` does (ECMA-408, 17.2 Expression Statements, 17.3 Local Variable
/// Declaration, 17.4 Local Function Declaration, 17.11 Try, 17.13 Labels).
pub fn statements_apart()
    ensures { StatementsApart }
{}

/// At every depth no list of tokens begins one kind of head of `for` and is more than another (ECMA-408, 17.6.1 For Loop, 17.6.2
/// For-in).
pub fn heads_apart()
    ensures { HeadsApart }
{}
