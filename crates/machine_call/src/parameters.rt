// Parameters that are bound (ECMA-408, 9.2 Formal Parameters, 16.14.2 Binding Actuals to Formals).
ghost use Rattle.std.specs.Prelude.{◌≡◌, ◌<◌, ◌+◌, ◌∷◌, map, IfOk};
ghost use Rattle.dart_ir.specs.Classes.{IsValid};
ghost use Rattle.dart_ir.specs.declared.value.Value.TheVariants.{Null};
ghost use Rattle.core_program.specs.View as v;
ghost use Rattle.core_program.specs.ProgramView as p;
ghost use Rattle.evaluation.specs.Evaluation.{part, binding};
ghost use Rattle.evaluation.specs.Arguments.{value_for};
ghost use Rattle.machine_frame.specs.Frames.{going, does, room, work, given_of};

use core_program::program::{Function, Parameter};
use dart_ir::value::Value;
use machine_frame::around::{Around, Fault};
use machine_frame::moves::enter_part;
use machine_frame::run::{Control, Exit, Limit, Passed, Run};
use machine_frame::variables::declare;
use machine_lookup::arguments::value_for;
use machine_lookup::row::{last_of, past_first};
use machine_value::checks::refusal;

/// A parameter is bound for a step to its value, where that passes its site, and then those behind it, and the body is entered.
pub fn bind<'a>(
    run: &mut Run<'a>,
    a: Around<'a>,
    function: &'a Function,
    parameter: &'a Parameter,
    rest: &'a [Parameter],
    index: u32,
    passed: Passed<'a>,
) -> Result<Control<'a>, Fault>
    requires valid { IsValid a.program.now.classes }
    ensures meaning { IfOk result (λ c. going a.entry run.new c ≡ does a.entry run.old (λ w. binding w (given_of passed.entry run.old.operands.items) (p.parameter parameter.now ∷ map p.parameter rest.now) index (part (v.part function.now.body) w Null))) }
    ensures less { IfOk result (λ c. work run.new c < room run.old + 3) }
{
    if run.left == 0 {
        return Ok(Control::Leave(Exit::Over(Limit::OutOfSteps)));
    }
    let Some(next) = index.checked_add(1) else {
        return Err(Fault::Memory);
    };
    let value = argument(run, passed, index, parameter);
    run.left -= 1;
    if let Some(control) = refusal(run, a, parameter.site.0, value)? {
        return Ok(control);
    }
    match declare(run, a, parameter.var, value)? {
        None => Ok(Control::Leave(Exit::Over(Limit::OutOfObjects))),
        Some(_) => match rest.split_first() {
            None => enter_part(run, a, &function.body),
            Some((following, others)) => {
                let control = bind(run, a, function, following, others, next, passed)?;
                Ok(control)
            }
        },
    }
}

/// What a parameter is bound to.
#[inline(always)]
fn argument<'a>(run: &Run<'a>, passed: Passed<'a>, index: u32, parameter: &Parameter) -> Value
    ensures { result ≡ value_for (given_of passed.entry run.now.operands.items) index (p.parameter parameter.now) }
{
    let values = past_first(last_of(run.operands.as_slice(), passed.count), passed.skip);
    value_for(values, passed.names, index, parameter)
}
