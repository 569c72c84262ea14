// Laws of outcomes.
ghost use Rattle.dart.specs.Erased.{ErasedOutcomesAreOne};

/// In production a program that runs and the same program without its annotations have one outcome: they write the same bytes and end
/// with the same status, where the second is not answered as what isn't built. So it is refused for no reason.
pub fn erased_outcomes_are_one()
    ensures { ErasedOutcomesAreOne }
{}
