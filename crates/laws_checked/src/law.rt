// What a checked turn has in common with the turn in production.
ghost use Rattle.laws_checked.specs.Laws.{CheckedTurnsFollow, ProductionReportsNothing};
ghost use Rattle.laws_checked.specs.Written.{TurnsWriteAlike};

/// In production no turn writes a report.
pub fn production_reports_nothing()
    ensures { ProductionReportsNothing }
{}

/// Where no check fails, a checked turn is the turn in production. Else the two go the same way up to and with the first check that
/// fails, with equal steps and units, and there the checked turn reports that one.
pub fn checked_turns_follow()
    ensures { CheckedTurnsFollow }
{}

/// So what a checked turn writes up to its first report is what the turn in production writes first. Where no check fails both
/// write the same, and finish alike.
pub fn turns_write_alike()
    ensures { TurnsWriteAlike }
{}
