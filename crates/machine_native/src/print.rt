// What is printed.
ghost use Rattle.std.specs.Prelude.{◌≡◌, ◌<◌, ◌+◌, IfOk};
ghost use Rattle.evaluation.specs.Values.{units_of};
ghost use Rattle.evaluation.specs.Externals.{print_units};
ghost use Rattle.machine_frame.specs.Frames.{going, does, room, work};

use dart_base::place::Place;
use dart_base::units::Units;
use dart_ir::ending::Line;
use dart_ir::kind::ThrowKind;
use dart_ir::value::Value;
use machine_frame::around::{Around, Fault};
use machine_frame::moves::answer;
use machine_frame::run::{Control, Run};
use machine_value::errors::throw_new;
use machine_value::texts::append_text;

/// A string is printed as a line; another value is a wrong argument.
#[tactic(auto, using(crate::proofs::Carried::no_text, crate::proofs::Carried::printed, crate::proofs::Carried::alone))]
pub fn print_value<'a>(
    run: &mut Run<'a>,
    a: Around<'a>,
    at: Place,
    value: Value,
) -> Result<Control<'a>, Fault>
    ensures meaning { IfOk result (λ c. going a.entry run.new c ≡ does a.entry run.old (λ w st. print_units w.setting at (units_of w.setting st.heap value) st)) }
    ensures less { IfOk result (λ c. work run.new c < room run.old + 6) }
{
    let mut units = Units::new(run.alloc);
    if !append_text(run, a, value, &mut units)? {
        let control = throw_new(run, a, at, ThrowKind::ArgumentError)?;
        return Ok(control);
    }
    if run.output.push(Line::Printed(units)).is_err() {
        return Err(Fault::Memory);
    }
    Ok(answer(run, a, Value::Null))
}
