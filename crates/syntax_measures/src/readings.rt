// No list of tokens leaves a choice between a declaration and another statement, and only functions of the class's name
// leave one between a constructor and another member.

ghost use Rattle.syntax_measures.specs.Readings.{DeclaresOrActs, OnlyFunctionsConstruct, LikeOnesConstruct};

/// No variables and no local function have the tokens of another statement, at any depths (ECMA-408, 17 Statements).
pub fn declares_or_acts()
    ensures { DeclaresOrActs }
{}

/// A member other than a constructor has the tokens of one exactly where it is a function without a modifier, without a
/// result and without `=>`, of the class's name: at whatever depth the constructor fits, one fits at the member's own
/// (ECMA-408, 10 Classes and 10.6 Constructors).
pub fn functions_like_constructors()
    ensures only { OnlyFunctionsConstruct }
    ensures each { LikeOnesConstruct }
{}
