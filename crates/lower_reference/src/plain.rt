// The forms that references are read, called and written by.
ghost use Rattle.std.specs.Prelude.{◌≡◌, ◌∷◌, [], IfOk};
ghost use Rattle.core_program.specs.Core as c;
ghost use Rattle.translation.specs.References as r;
ghost use Rattle.lower_leaf.specs.Around.{text};
ghost use Rattle.lower_leaf.specs.Forms.{core, cores, row_of};

use core_program::form::{Core, Job, Leaf};
use dart_base::name::Name;
use dart_base::place::Place;
use dart_ir::class::Role;
use dart_ir::kind::ThrowKind;
use dart_ir::number::DeclId;
use dart_ir::value::Value;
use lower_leaf::fault::Want;
use lower_leaf::form::{Operands, block, leaf, row};
use lower_leaf::surroundings::Surroundings;
use std::alloc::Global;

/// A constant.
pub fn constant<S: Surroundings>(outside: &S, place: Place, value: Value) -> Core
    ensures { core (S.around outside.now) result ≡ r.constant place value }
{
    leaf(outside, place, Leaf::Const(value))
}

/// `this` (ECMA-408, 16.11 This).
pub fn this<S: Surroundings>(outside: &S, place: Place) -> Core
    ensures { core (S.around outside.now) result ≡ r.this place }
{
    leaf(outside, place, Leaf::This)
}

/// A variable.
pub fn variable<S: Surroundings>(outside: &S, place: Place, x: u32) -> Core
    ensures { core (S.around outside.now) result ≡ r.variable place x }
{
    leaf(outside, place, Leaf::Read(x))
}

/// An error whose message is the name.
pub fn raise<S: Surroundings>(
    outside: &S,
    place: Place,
    error: ThrowKind,
    name: Name,
    is_setter: bool,
) -> Core
    ensures { core (S.around outside.now) result ≡ r.raise place error (text (S.around outside.now) name) is_setter }
{
    leaf(
        outside,
        place,
        Leaf::Raise {
            error,
            name,
            is_setter,
        },
    )
}

/// No operands.
pub fn no_operands<S: Surroundings>(alloc: Global, outside: &S) -> Operands
    ensures { row_of (S.around outside.now) result ≡ r.by_place [] }
{
    Operands {
        forms: Vec::new(alloc),
        names: Vec::new(alloc),
    }
}

/// One operand.
pub fn one_operand<S: Surroundings>(
    alloc: Global,
    outside: &S,
    form: Core,
) -> Result<Operands, Want>
    ensures { IfOk result (λ made. row_of (S.around outside.now) made ≡ r.by_place (core (S.around outside.now) form ∷ [])) }
{
    let mut forms = Vec::new(alloc);
    forms.push(form)?;
    Ok(Operands {
        forms,
        names: Vec::new(alloc),
    })
}

/// Two operands.
pub fn two_operands<S: Surroundings>(
    alloc: Global,
    outside: &S,
    first: Core,
    second: Core,
) -> Result<Operands, Want>
    ensures { IfOk result (λ made. row_of (S.around outside.now) made
        ≡ r.by_place (core (S.around outside.now) first ∷ core (S.around outside.now) second ∷ [])) }
{
    let mut forms = Vec::new(alloc);
    forms.push(first)?;
    forms.push(second)?;
    Ok(Operands {
        forms,
        names: Vec::new(alloc),
    })
}

// The operands with one before them.
fn behind<S: Surroundings>(outside: &S, first: Core, operands: Operands) -> Result<Operands, Want>
    ensures { IfOk result (λ made. row_of (S.around outside.now) made
        ≡ record (row_of (S.around outside.now) operands) {
          forms = core (S.around outside.now) first ∷ (row_of (S.around outside.now) operands).forms;
        }) }
{
    let mut forms = operands.forms;
    forms.insert(0, first)?;
    Ok(Operands {
        forms,
        names: operands.names,
    })
}

/// `e.n(arguments)` (16.17.1 Ordinary Invocation).
pub fn send<S: Surroundings>(
    outside: &S,
    place: Place,
    receiver: Core,
    name: Name,
    operands: Operands,
) -> Result<Core, Want>
    ensures { IfOk result (λ made. core (S.around outside.now) made
        ≡ r.send place (core (S.around outside.now) receiver) (text (S.around outside.now) name)
        (row_of (S.around outside.now) operands)) }
{
    let operands = behind(outside, receiver, operands)?;
    Ok(row(outside, place, Job::Send(name), operands))
}

/// `e(arguments)` (16.14.4 Function Expression Invocation).
pub fn apply<S: Surroundings>(
    outside: &S,
    place: Place,
    callee: Core,
    operands: Operands,
) -> Result<Core, Want>
    ensures { IfOk result (λ made. core (S.around outside.now) made
        ≡ r.apply place (core (S.around outside.now) callee) (row_of (S.around outside.now) operands)) }
{
    let operands = behind(outside, callee, operands)?;
    Ok(row(outside, place, Job::Apply, operands))
}

/// A call of a static or top-level function (16.14.3 Unqualified Invocation).
pub fn call<S: Surroundings>(
    outside: &S,
    place: Place,
    function: DeclId,
    operands: Operands,
) -> Core
    ensures { core (S.around outside.now) result ≡ r.call place function.0 (row_of (S.around outside.now) operands) }
{
    row(outside, place, Job::Call(function), operands)
}

/// A call of a member of the superclass (16.17.3 Super Invocation).
pub fn super_call<S: Surroundings>(
    outside: &S,
    place: Place,
    role: Role,
    name: Name,
    operands: Operands,
) -> Core
    ensures { core (S.around outside.now) result
        ≡ r.row place (c.super role (text (S.around outside.now) name)) (row_of (S.around outside.now) operands) }
{
    row(outside, place, Job::Super(role, name), operands)
}

/// The forms, and then an error whose message is the name.
pub fn raised_behind<S: Surroundings>(
    outside: &S,
    place: Place,
    forms: Vec<Core>,
    error: ThrowKind,
    name: Name,
    is_setter: bool,
) -> Result<Core, Want>
    ensures { IfOk result (λ made. core (S.around outside.now) made
        ≡ r.raised_behind place (cores (S.around outside.now) forms.items) error (text (S.around outside.now) name) is_setter) }
{
    let mut all = forms;
    all.push(raise(outside, place, error, name, is_setter))?;
    Ok(block(outside, place, all))
}
