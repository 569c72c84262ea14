// The unnamed constructor of a class that writes none (ECMA-408, 10.6 Constructors).
ghost use Rattle.std.specs.Prelude.{◌≡◌, ◌++◌, map, IfOk};
ghost use Rattle.dart_ir.specs.Ty.{dynamic, function, nil, unnamed};
ghost use Rattle.translation.specs.ClassBodies as b;
ghost use Rattle.lower_leaf.specs.Forms.{cores};
ghost use Rattle.lower_leaf.specs.Gives.{Gives};
ghost use Rattle.lower_leaf.specs.Seen.{seen};
ghost use Rattle.lower_operand.specs.Made.{all_forms};
ghost use Rattle.lower_function.specs.Made.{signature};
ghost use Rattle.lower_body.specs.Views.{generated, added_inside, all_generated, class_made};

use crate::accessor::{accessors_added, added_head};
use crate::class::ClassMade;
use crate::finish::{Generated, add_function, clone_forms};
use crate::inside::{enter_class, leave_class};
use core_program::form::Core;
use core_program::program::FunctionKind;
use dart_base::bytes::Bytes;
use dart_ir::types::{FunctionType, TypeRef};
use lower_class::initialise::implicit_super;
use lower_function::function::numbered;
use lower_leaf::fault::{LowerFault, Want};
use lower_leaf::form::block;
use lower_leaf::name::{own_name, place_of, text_of};
use lower_leaf::state::State;
use lower_leaf::surroundings::Surroundings;
use std::alloc::Global;

// An equal constructor.
fn clone_generated<S: Surroundings>(
    alloc: Global,
    outside: &S,
    of: &Generated,
) -> Result<Generated, Want>
    ensures { IfOk result (λ made. generated (S.around outside.now) made ≡ generated (S.around outside.now) of.now) }
{
    Ok(Generated {
        number: of.number,
        id: Bytes::from_slice(alloc, of.id.as_slice())?,
        parameters: Vec::from_slice(alloc, &of.parameters)?,
    })
}

// Equal constructors in the same order.
fn clone_all<S: Surroundings>(
    alloc: Global,
    outside: &S,
    all: &Vec<Generated>,
) -> Result<Vec<Generated>, Want>
    ensures { IfOk result (λ made. all_generated (S.around outside.now) made ≡ all_generated (S.around outside.now) all.now) }
{
    let mut found = Vec::new(alloc);
    for one in all {
        found.push(clone_generated(alloc, outside, one)?)?;
    }
    Ok(found)
}

// The type of a function without parameters.
fn plain_type<S: Surroundings>(alloc: Global, outside: &S) -> FunctionType
    ensures { signature (S.around outside.now) result ≡ function dynamic nil nil unnamed }
{
    FunctionType {
        result: TypeRef::Dynamic,
        required: Vec::new(alloc),
        optional: Vec::new(alloc),
        named: Vec::new(alloc),
    }
}

// The initial values of the fields, and the call of the superclass's constructor.
fn unnamed_forms<S: Surroundings>(
    alloc: Global,
    outside: &S,
    values: &Vec<Core>,
    forms: Vec<Core>,
) -> Result<Vec<Core>, Want>
    ensures { IfOk result (λ made. all_forms (S.around outside.now) made
        ≡ cores (S.around outside.now) values.now.items ++ all_forms (S.around outside.now) forms) }
{
    let mut more = forms;
    let mut all = clone_forms(alloc, outside, values)?;
    all.append(&mut more)?;
    Ok(all)
}

// The unnamed constructor with the number of its declaration.
fn unnamed_added<S: Surroundings>(
    alloc: Global,
    outside: &S,
    state: &mut State,
    x: &ClassMade<'_>,
    number: u32,
) -> Result<Vec<Generated>, LowerFault>
    ensures { Gives (all_generated (S.around outside.now)) result (seen (S.around outside.now) state.new)
        (b.unnamed_added (class_made (S.around outside.now) x.now) number (seen (S.around outside.now) state.old)) }
{
    let above = outside.superclass(x.class);
    let place = place_of(x.name);
    let forms = implicit_super(alloc, outside, state, false, place, above)?;
    let forms = unnamed_forms(alloc, outside, &x.values, forms)?;
    let name = own_name(alloc, outside, state.outer, text_of(x.name))?;
    let made = plain_type(alloc, outside);
    let head = added_head(
        outside,
        number,
        FunctionKind::Generative,
        name,
        made,
        x.class,
    );
    let form = block(outside, place, forms);
    add_function(alloc, outside, state, head, Vec::new(alloc), form, x.count)?;
    let mut found = Vec::new(alloc);
    found.push(Generated {
        number,
        id: Bytes::new(alloc),
        parameters: Vec::new(alloc),
    })?;
    Ok(found)
}

// The generative constructors of the class.
fn constructor_added<S: Surroundings>(
    alloc: Global,
    outside: &S,
    state: &mut State,
    x: &ClassMade<'_>,
) -> Result<Vec<Generated>, LowerFault>
    ensures { Gives (all_generated (S.around outside.now)) result (seen (S.around outside.now) state.new)
        (b.constructor_added x.now.has_constructor (class_made (S.around outside.now) x.now) (seen (S.around outside.now) state.old)) }
{
    if x.has_constructor {
        return Ok(clone_all(alloc, outside, &x.constructors)?);
    }
    let number = numbered(outside, state)?;
    unnamed_added(alloc, outside, state, x, number)
}

// The accessors of the class and its unnamed constructor, inside of the class.
fn added_inside<S: Surroundings>(
    alloc: Global,
    outside: &S,
    state: &mut State,
    x: &ClassMade<'_>,
) -> Result<Vec<Generated>, LowerFault>
    ensures { Gives (all_generated (S.around outside.now)) result (seen (S.around outside.now) state.new)
        (added_inside (class_made (S.around outside.now) x.now) (seen (S.around outside.now) state.old)) }
{
    accessors_added(alloc, outside, state, x.class, &x.fields)?;
    constructor_added(alloc, outside, state, x)
}

/// What is added to a class. The answer is its generative constructors.
pub fn class_added<S: Surroundings>(
    alloc: Global,
    outside: &S,
    state: &mut State,
    x: &ClassMade<'_>,
) -> Result<Vec<Generated>, LowerFault>
    ensures { Gives (all_generated (S.around outside.now)) result (seen (S.around outside.now) state.new)
        (b.class_added (class_made (S.around outside.now) x.now) (seen (S.around outside.now) state.old)) }
{
    let before = enter_class(outside, state, x.outer);
    let made = added_inside(alloc, outside, state, x)?;
    leave_class(outside, state, before);
    Ok(made)
}
