// Sites that are passed by: in production each, in checked mode those that ask for nothing (ECMA-408, 19.1 Static Types: no check is made in
// production mode).
#![tactic(auto)]

ghost use Rattle.std.specs.Prelude.{◌≡◌, ◌≤◌};
ghost use Rattle.machine_loop.specs.Operator.{IsPassed};

use core_program::form::{Core, Form, Unary};
use machine_frame::around::Around;
use machine_frame::sites::admits_all;
use machine_lookup::program::is_closure;

/// The form whose value comes to the sites of another one, as to the two of a condition, which each value passes, and the steps left for it.
#[inline(always)]
pub fn bare<'b>(a: Around, core: &'b Core, left: u64) -> (&'b Core, u64)
    ensures passes { IsPassed a.entry core.now left result.0.now result.1 }
    ensures less { result.1 ≤ left }
{
    let (inner, middle) = passed_by(a, core, left);
    passed_by(a, inner, middle)
}

// The same for one site.
#[inline(always)]
fn passed_by<'b>(a: Around, core: &'b Core, left: u64) -> (&'b Core, u64)
    ensures passes { IsPassed a.entry core.now left result.0.now result.1 }
    ensures less { result.1 ≤ left }
{
    let Form::Unary(one, operand) = &core.form else {
        return (core, left);
    };
    let Unary::Check(number) = one else {
        return (core, left);
    };
    if left == 0 || is_closure(operand) || !admits_all(a, number.0) {
        return (core, left);
    }
    (operand, left - 1)
}
