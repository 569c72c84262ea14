// Whether values are checked.
ghost use Rattle.std.specs.Prelude.{◌≡◌, IfSome};
ghost use Rattle.machine_frame.specs.Outside.{failing};
ghost use Rattle.dart_run.specs.Run.{on_failure};

use core_program::program::CoreProgram;

/// How a program runs (ECMA-408, 19 Types).
#[derive(Clone, Copy, Debug, PartialEq, Eq)]
pub enum Mode {
    /// Annotations ask for nothing.
    Production,
    /// A value that comes to an annotation is checked against it. A check that fails is reported, and an error is thrown.
    Checked,
}

/// The program by whose annotations values are checked; none in production.
pub fn annotated_in<'a>(mode: Mode, program: &'a CoreProgram) -> Option<&'a CoreProgram>
    ensures failing { failing result ≡ on_failure mode }
    ensures annotated { IfSome result (λ x. x.now ≡ program.now) }
{
    match mode {
        Mode::Production => None,
        Mode::Checked => Some(program),
    }
}
