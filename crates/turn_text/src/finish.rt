// How a turn finishes.
ghost use Rattle.std.specs.Prelude.{◌≡◌};
ghost use Rattle.machine_turn.specs.Turn.{ending};
ghost use Rattle.turn_text.specs.Finish.{has_report, is_report, turn_finish, unless_reported};

use dart_ir::ending::{Line, Lines, TurnEnd};

/// How a turn finishes, as a status tells it.
#[derive(Clone, Copy, Debug, PartialEq, Eq)]
pub enum Finish {
    /// It returned.
    Done,
    /// By a throw that nothing caught.
    Uncaught,
    /// By its return or such a throw, after the report of a check that failed.
    CheckFailed,
    /// At a limit.
    Limit,
}

fn is_report(line: &Line) -> bool
    ensures { result ≡ is_report line.now }
{
    match line {
        Line::Printed(_) => false,
        Line::Report(_, _) => true,
    }
}

// Whether a check that failed is reported among the lines.
fn has_report(lines: &Lines) -> bool
    ensures { result ≡ has_report lines.now }
{
    lines.as_slice().iter().any(|line| is_report(line))
}

// A turn with these lines finishes so, unless a check that failed is reported.
fn unless_reported(lines: &Lines, finish: Finish) -> Finish
    ensures { result ≡ unless_reported lines.now finish }
{
    if has_report(lines) {
        Finish::CheckFailed
    } else {
        finish
    }
}

/// How a turn with these lines and this end finishes.
pub fn finish_of(lines: &Lines, end: &TurnEnd) -> Finish
    ensures { result ≡ turn_finish lines.now (ending end.now) }
{
    match end {
        TurnEnd::Returned => unless_reported(lines, Finish::Done),
        TurnEnd::Uncaught { .. } => unless_reported(lines, Finish::Uncaught),
        TurnEnd::OutOfSteps => Finish::Limit,
        TurnEnd::OutOfObjects => Finish::Limit,
        TurnEnd::OutOfDepth => Finish::Limit,
        TurnEnd::IntegerLimit => Finish::Limit,
        TurnEnd::NeedsDouble => Finish::Limit,
        TurnEnd::TypeLimit => Finish::Limit,
    }
}
