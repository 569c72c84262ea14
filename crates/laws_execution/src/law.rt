// Laws of runs of loaded programs.
ghost use Rattle.std.specs.Prelude.{◌≡◌};
ghost use Rattle.dart_execute.specs.Execution.{Executes};
ghost use Rattle.dart_execute.specs.declared.execution.Execution.{Execution};
ghost use Rattle.dart_execute.specs.declared.execution.Execution.TheVariants.{Ran};
ghost use Rattle.dart_run.specs.declared.mode.Mode.TheVariants.{Production};
ghost use Rattle.dart_run.specs.declared.written.Written.{Written};
ghost use Rattle.evaluation.specs.Turn.{Budget};
ghost use Rattle.laws_annotation.specs.Erased.{erased_state};
ghost use Rattle.scope_load.specs.State.{State};

/// In production the program without its annotations runs where a program runs, writes the same and finishes alike: what becomes of it is
/// nothing else.
pub fn erased_runs_are_one()
    ensures { (state : State) (b : Budget) (made : Written) (out : Execution) → Executes state Production b (Ran made)
        → Executes (erased_state state) Production b out → out ≡ Ran made }
{}
