// What small programs do, found by evaluating them.
ghost use Rattle.evaluation.specs.Examples.{CallsNoSuchMethod, CatchesAndGoesOn, ClosureSharesVariable, EndsUncaught, FailsWhenChecked, InitialisesOnce, PassesInProduction, PrintsOneLine, RunsOutOfDepth, RunsOutOfObjects, RunsOutOfSteps, TakesNamedArguments, ThrowsOnCycle, ThrowsOnFallingThrough, TurnsHaveVariables};

/// A line is printed, and a call, a block, a native and its argument take a step each.
pub fn prints_one_line()
    ensures { PrintsOneLine }
{}

/// A variable that a local function names is one for both.
pub fn closure_shares_variable()
    ensures { ClosureSharesVariable }
{}

/// What is thrown is caught, and the final part runs.
pub fn catches_and_goes_on()
    ensures { CatchesAndGoesOn }
{}

/// What nothing catches ends the turn at its place.
pub fn ends_uncaught()
    ensures { EndsUncaught }
{}

/// A static variable is initialised at its first read, and once.
pub fn initialises_once()
    ensures { InitialisesOnce }
{}

/// A method that isn't there is a call of `noSuchMethod` with an Invocation.
pub fn calls_no_such_method()
    ensures { CallsNoSuchMethod }
{}

/// `noSuchMethod` that doesn't take an Invocation is called for in its turn, until no unit is left.
pub fn runs_out_of_objects()
    ensures { RunsOutOfObjects }
{}

/// Each turn of a loop has a fresh copy of its variable.
pub fn turns_have_variables()
    ensures { TurnsHaveVariables }
{}

/// A static variable that its own initialiser reads throws.
pub fn throws_on_cycle()
    ensures { ThrowsOnCycle }
{}

/// A case that ends without a jump, and isn't last, throws.
pub fn throws_on_falling_through()
    ensures { ThrowsOnFallingThrough }
{}

/// A loop without an end uses up the steps.
pub fn runs_out_of_steps()
    ensures { RunsOutOfSteps }
{}

/// A function that calls itself without an end meets the limit on nested calls.
pub fn runs_out_of_depth()
    ensures { RunsOutOfDepth }
{}

/// A named argument is bound to its parameter, and a default value where there is none.
pub fn takes_named_arguments()
    ensures { TakesNamedArguments }
{}

/// In production a failing check changes nothing.
pub fn passes_in_production()
    ensures { PassesInProduction }
{}

/// In checked mode it is reported, and an error is thrown.
pub fn fails_when_checked()
    ensures { FailsWhenChecked }
{}
