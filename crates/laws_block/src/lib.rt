// The readers of statements that hold statements find those of the grammar, where the readers of the statements inside do; and so do all
// readers of expressions, parameters and statements. The crate runs nothing.
#![tactic(auto)]

ghost use Rattle.laws_block.specs.Statements.{BlocksRead, HoldersRead, TriesRead, CompoundsRead, ForsRead, SwitchesRead, StatementsRead, AllRead};

/// At every depth the reader of blocks finds the blocks of the grammar and nothing else, where that of the statements inside finds them
/// with what is begun behind them (ECMA-408, 17.1 Blocks).
pub fn blocks_read()
    ensures { BlocksRead }
{}

/// At every depth the readers of `if`, `while` and `do` find their phrases of the grammar, each with the part of a `try` that is begun
/// behind it, and nothing else, where those of the statements and of the condition inside do (ECMA-408, 17.5 If, 17.7 While, 17.8 Do).
pub fn holders_read()
    ensures { HoldersRead }
{}

/// At every depth the reader of `try` finds the `try` statements of the grammar, each with the part that is begun behind it, and nothing
/// else, where those of blocks and `catch` clauses do (ECMA-408, 17.11 Try).
pub fn tries_read()
    ensures { TriesRead }
{}

/// At every depth the reader of `for` finds the three kinds of the grammar, each with the part of a `try` that is begun behind it, and
/// nothing else, where those of the statements and of the parts of the heads inside do, and where the heads tell the kinds (ECMA-408,
/// 17.6.1 For Loop, 17.6.2 For-in).
pub fn fors_read()
    ensures { ForsRead }
{}

/// At every depth the reader of `switch` finds those of the grammar and nothing else, where the readers of what stands inside do, and where
/// no list of tokens leaves a choice between a declaration and another statement (ECMA-408, 17.9 Switch).
pub fn switches_read()
    ensures { SwitchesRead }
{}

/// At every depth the reader of compound statements finds those of the grammar, each with what is begun behind it, and nothing else, where
/// those of each kind do (ECMA-408, 17.5 If, 17.6 For, 17.7 While, 17.8 Do, 17.9 Switch, 17.11 Try).
pub fn compounds_read()
    ensures { CompoundsRead }
{}

/// At every depth the reader of statements finds those of the grammar, each with its labels and with what is begun behind it, and nothing
/// else, where those of each kind do, and where no list of tokens leaves a choice between a declaration and another statement
/// (ECMA-408, 17 Statements, 17.13 Labels).
pub fn statements_read()
    ensures { StatementsRead }
{}

/// At every depth the readers of expressions, of parameters, of variables and functions in functions, of blocks, of compound statements
/// and of statements find those of the grammar and nothing else (ECMA-408, 16 Expressions, 9.2 Formal Parameters, 8 Variables, 17
/// Statements).
pub fn all_read()
    ensures { AllRead }
{}
