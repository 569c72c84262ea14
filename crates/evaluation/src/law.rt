// What holds of every evaluation.
ghost use Rattle.evaluation.specs.Laws.{AnnotationsAreNotRead, CallsUnroll, ChecksAgree, LoopsUnroll, MembersAreFirst, MissingUnrolls, OutputIsTold, ProductionChecksNothing, StepsNeverComeBack, StopsAreCuts, SwitchesUnroll, TurnsAgree};

/// No form gives steps back.
pub fn steps_never_come_back()
    ensures { StepsNeverComeBack }
{}

/// A loop is a turn, after which it goes on as a loop (ECMA-408, 17.6 For, 17.7 While and 17.8 Do).
pub fn loops_unroll()
    ensures { LoopsUnroll }
{}

/// A call of a value goes on with what a getter `call` answers as with any value (16.14.4 Function
/// Expression Invocation).
pub fn calls_unroll()
    ensures { CallsUnroll }
{}

/// A switch that goes on with a case does so as from the first (17.9 Switch).
pub fn switches_unroll()
    ensures { SwitchesUnroll }
{}

/// `noSuchMethod` that doesn't take an Invocation alone is called for as any member that isn't
/// there.
pub fn missing_unrolls()
    ensures { MissingUnrolls }
{}

/// What a turn writes is what its events tell.
pub fn output_is_told()
    ensures { OutputIsTold }
{}

/// Each form does in checked mode as in production, event for event, with equal steps and units, up
/// to and with the first check that fails. Where none fails the two end alike, with the same heap.
pub fn checks_agree()
    ensures { ChecksAgree }
{}

/// So does each turn.
pub fn turns_agree()
    ensures { TurnsAgree }
{}

/// A turn that ends at its first check that fails shows the cut of what production shows.
pub fn stops_are_cuts()
    ensures { StopsAreCuts }
{}

/// In production a turn asks nothing of checks.
pub fn production_checks_nothing()
    ensures { ProductionChecksNothing }
{}

/// A program does in production what it does without what its annotations ask for.
pub fn annotations_are_not_read()
    ensures { AnnotationsAreNotRead }
{}

/// The member that is looked up on a class is the first on its chain (ECMA-408, 16.15 Method Lookup).
pub fn members_are_first()
    ensures { MembersAreFirst }
{}
