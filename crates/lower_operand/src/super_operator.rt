// Operators on `super` (ECMA-408, 16.22 Equality to 16.29 Unary Expressions).
ghost use Rattle.std.specs.Prelude.{◌≡◌, ◌∷◌, [], codes, false, IfOk};
ghost use Rattle.core_program.specs.Core as c;
ghost use Rattle.dart_ir.specs.declared.class.Role.TheVariants.{Method};
ghost use Rattle.translation.specs.Expressions as e;
ghost use Rattle.translation.specs.References as r;
ghost use Rattle.translation.specs.Walk as w;
ghost use Rattle.lower_leaf.specs.Forms.{core};
ghost use Rattle.lower_leaf.specs.Gives.{Gives};
ghost use Rattle.lower_leaf.specs.Seen.{seen};
ghost use Rattle.lower_operand.specs.Operators.{operation, prefix};

use crate::condition::{choice, equal, negated, null, truth};
use crate::operator::{Operation, Prefix, prefix_name};
use core_program::form::Core;
use dart_base::place::Place;
use dart_ir::class::Role;
use lower_leaf::fault::{LowerFault, Want};
use lower_leaf::form::let_in;
use lower_leaf::name::find;
use lower_leaf::state::{State, fresh};
use lower_leaf::surroundings::Surroundings;
use lower_reference::plain::{no_operands, one_operand, super_call, variable};
use std::alloc::Global;

// What `super == b` is for the variable that holds b.
fn super_equal_of<S: Surroundings>(
    alloc: Global,
    outside: &S,
    place: Place,
    x: u32,
) -> Result<Core, Want>
    ensures { IfOk result (λ made. core (S.around outside.now) made
        ≡ e.choice place (e.equal place (r.variable place x) (r.null place)) (r.truth place false)
        (r.row place (c.super Method (codes "==")) (r.by_place (r.variable place x ∷ [])))) }
{
    let of = variable(outside, place, x);
    let test = equal(alloc, outside, place, of, null(outside, place))?;
    let operands = one_operand(alloc, outside, variable(outside, place, x))?;
    let name = find(outside, b"==")?;
    let second = super_call(outside, place, Role::Method, name, operands);
    choice(
        alloc,
        outside,
        place,
        test,
        truth(outside, place, false),
        second,
    )
}

/// `super == b`
pub fn super_equal<S: Surroundings>(
    alloc: Global,
    outside: &S,
    state: &mut State,
    place: Place,
    operand: Core,
) -> Result<Core, LowerFault>
    ensures { Gives (core (S.around outside.now)) result (seen (S.around outside.now) state.new)
        (e.super_equal place (core (S.around outside.now) operand) (seen (S.around outside.now) state.old)) }
{
    let x = fresh(outside, state)?;
    let inner = super_equal_of(alloc, outside, place, x)?;
    Ok(let_in(outside, alloc, place, x, operand, inner)?)
}

/// `super` with an operator and the next operand; the grammar has no `&&` and `||` behind it.
pub fn super_binary<S: Surroundings>(
    alloc: Global,
    outside: &S,
    state: &mut State,
    word: Place,
    of: Operation,
    form: Core,
) -> Result<Core, LowerFault>
    ensures { Gives (core (S.around outside.now)) result (seen (S.around outside.now) state.new)
        (e.super_binary word (operation (S.around outside.now) of) (w.went (core (S.around outside.now) form))
        (seen (S.around outside.now) state.old)) }
{
    match of {
        Operation::Conjunction => Ok(form),
        Operation::Disjunction => Ok(form),
        Operation::Equality => super_equal(alloc, outside, state, word, form),
        Operation::Inequality => {
            let made = super_equal(alloc, outside, state, word, form)?;
            negated(alloc, outside, state, word, word, made)
        }
        Operation::Method(name) => {
            let operands = one_operand(alloc, outside, form)?;
            Ok(super_call(outside, word, Role::Method, name, operands))
        }
    }
}

/// An operator on `super` (16.29 Unary Expressions).
pub fn super_prefixed<S: Surroundings>(
    alloc: Global,
    outside: &S,
    state: &State,
    word: Place,
    place: Place,
    of: Prefix,
) -> Result<Core, LowerFault>
    ensures { Gives (core (S.around outside.now)) result (seen (S.around outside.now) state.now)
        (e.with_instance word (w.went (e.super_prefixed place (e.prefix_name (prefix (S.around outside.now) of))))
        (seen (S.around outside.now) state.now)) }
{
    if !state.inside.has_instance {
        return Err(LowerFault::BadWord(word));
    }
    let name = prefix_name(outside, of)?;
    let operands = no_operands(alloc, outside);
    Ok(super_call(outside, place, Role::Method, name, operands))
}
