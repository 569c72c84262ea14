// Laws of executions: what becomes of a program is one thing, and that in checked mode follows that in production.
ghost use Rattle.std.specs.Prelude.{◌≡◌};
ghost use Rattle.dart_run.specs.declared.mode.Mode.{Mode};
ghost use Rattle.evaluation.specs.Turn.{Budget};
ghost use Rattle.scope_load.specs.State.{State};
ghost use Rattle.dart_execute.specs.declared.execution.Execution.{Execution};
ghost use Rattle.dart_execute.specs.Execution.{Executes};
ghost use Rattle.dart_execute.specs.Laws.{CheckedExecutionsFollow};

/// What becomes of a loaded program in a mode and within a budget is one thing: which numbers its classes, members and names have is determined.
pub fn one_execution()
    ensures { (state : State) (mode : Mode) (b : Budget) (x y : Execution) → Executes state mode b x → Executes state mode b y → x ≡ y }
{}

/// The same becomes of a loaded program in checked mode as in production, or it runs in both, and what it writes up to the first
/// report is what it writes first in production.
pub fn checked_executions_follow()
    ensures { CheckedExecutionsFollow }
{}
