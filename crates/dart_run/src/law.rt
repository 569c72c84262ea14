// Laws of runs, without code.
ghost use Rattle.dart_run.specs.Laws.{AlikeRunsAreOne, CheckedRunsFollow, RunIsOne};

/// What is written of a program's run, and how it finishes, hangs on the program, the mode and the budget alone.
pub fn run_is_one()
    ensures { RunIsOne }
{}

/// What is written of a checked run up to its first report is what is written first in production. Where no check fails both write
/// the same, and finish alike.
pub fn checked_runs_follow()
    ensures { CheckedRunsFollow }
{}

/// Programs that are alike once stripped of what annotations ask for write the same in production, and finish alike: neither an annotation nor
/// a column is seen.
pub fn alike_runs_are_one()
    ensures { AlikeRunsAreOne }
{}
