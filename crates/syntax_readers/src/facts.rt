// Lists of tokens that show where a body behind `=>` ends (ECMA-408, 16.10 Function Expressions).

ghost use Rattle.syntax_readers.specs.Examples.{TestOpens, CallIsNoTarget, EqualityIsSpent};

/// `var x = (q) => x is a < b;` is refused at `;`: behind the name of a type, `<` opens the type's arguments.
pub fn test_opens_arguments()
    ensures { TestOpens }
{}

/// `var x = (q) => ++f();` is refused at `;`: what was called is no target, but might still become one.
pub fn call_is_no_target()
    ensures { CallIsNoTarget }
{}

/// `var x = (a) => b == c == d;` is the unit whose second `==` compares the function: an equality takes one operator.
pub fn equality_is_spent()
    ensures { EqualityIsSpent }
{}
