// What the turn that is run is to the program that was written.
ghost use Rattle.machine_turn.specs.Produced.{FirstTurnIsProduced};

/// The first turn of a program without what annotations ask for, by the numbers that the prelude has in it, is the turn of the
/// program itself, where this follows a check that fails.
pub fn first_turn_is_produced()
    ensures { FirstTurnIsProduced }
{}
