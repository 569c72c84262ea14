// The types of headers, in which no alias stands (ECMA-408, 10.9 Superclasses, 10.10 Superinterfaces and 14 Generics).
ghost use Rattle.dart_tree.specs.Lists.{type_list_of};
ghost use Rattle.dart_tree.specs.UnitView as unit_view;
ghost use Rattle.dart_tree.specs.View as view;
ghost use Rattle.std.specs.Prelude.{map};
ghost use Rattle.translation.specs.ClassBodies as b;
ghost use Rattle.lower_leaf.specs.Gives.{Gives};
ghost use Rattle.lower_leaf.specs.Seen.{seen};
ghost use Rattle.lower_body.specs.Views.{nothing};

use dart_tree::declaration::{Bound, Superclass, TypeClause, TypeParameter, TypeParameters};
use dart_tree::types::{TypeArgument, TypeNode};
use lower_leaf::fault::LowerFault;
use lower_leaf::kept::kept_type;
use lower_leaf::state::State;
use lower_leaf::surroundings::Surroundings;
use std::alloc::Global;

/// A type of a header.
pub fn kept<S: Surroundings>(
    alloc: Global,
    outside: &S,
    state: &State,
    node: &TypeNode,
) -> Result<(), LowerFault>
    ensures { Gives nothing result (seen (S.around outside.now) state.now)
        (b.kept (view.type_node node.now) (seen (S.around outside.now) state.now)) }
{
    kept_type(alloc, outside, state, node)?;
    Ok(())
}

/// The types of a clause, in their order.
pub fn all_kept<S: Surroundings>(
    alloc: Global,
    outside: &S,
    state: &State,
    all: &Vec<TypeArgument>,
) -> Result<(), LowerFault>
    ensures { Gives nothing result (seen (S.around outside.now) state.now)
        (b.all_kept (type_list_of all.now.items) (seen (S.around outside.now) state.now)) }
{
    for one in all {
        kept(alloc, outside, state, &one.argument)?;
    }
    Ok(())
}

// The bound of a type parameter.
fn bound_kept<S: Surroundings>(
    alloc: Global,
    outside: &S,
    state: &State,
    of: &Option<Bound>,
) -> Result<(), LowerFault>
    ensures { Gives nothing result (seen (S.around outside.now) state.now)
        (b.bound_kept (unit_view.maybe unit_view.bound of.now) (seen (S.around outside.now) state.now)) }
{
    match of {
        None => Ok(()),
        Some(x) => kept(alloc, outside, state, &x.bound),
    }
}

// The bounds of type parameters.
fn bounds_kept<S: Surroundings>(
    alloc: Global,
    outside: &S,
    state: &State,
    all: &Vec<TypeParameter>,
) -> Result<(), LowerFault>
    ensures { Gives nothing result (seen (S.around outside.now) state.now)
        (b.bounds_kept (map unit_view.type_parameter all.now.items) (seen (S.around outside.now) state.now)) }
{
    for one in all {
        bound_kept(alloc, outside, state, &one.bound)?;
    }
    Ok(())
}

/// The bounds of the type parameters of a declaration, where it has any.
pub fn parameters_kept<S: Surroundings>(
    alloc: Global,
    outside: &S,
    state: &State,
    of: &Option<TypeParameters>,
) -> Result<(), LowerFault>
    ensures { Gives nothing result (seen (S.around outside.now) state.now)
        (b.parameters_kept (unit_view.maybe unit_view.type_parameters of.now) (seen (S.around outside.now) state.now)) }
{
    match of {
        None => Ok(()),
        Some(x) => bounds_kept(alloc, outside, state, &x.items),
    }
}

/// The types of a clause, where one is written.
pub fn clause_kept<S: Surroundings>(
    alloc: Global,
    outside: &S,
    state: &State,
    of: &Option<TypeClause>,
) -> Result<(), LowerFault>
    ensures { Gives nothing result (seen (S.around outside.now) state.now)
        (b.clause_kept (unit_view.maybe unit_view.type_clause of.now) (seen (S.around outside.now) state.now)) }
{
    match of {
        None => Ok(()),
        Some(x) => all_kept(alloc, outside, state, &x.types),
    }
}

/// The superclass with its mixins, where one is written.
pub fn superclass_kept<S: Surroundings>(
    alloc: Global,
    outside: &S,
    state: &State,
    of: &Option<Superclass>,
) -> Result<(), LowerFault>
    ensures { Gives nothing result (seen (S.around outside.now) state.now)
        (b.superclass_kept (unit_view.maybe unit_view.superclass of.now) (seen (S.around outside.now) state.now)) }
{
    match of {
        None => Ok(()),
        Some(x) => {
            kept(alloc, outside, state, &x.superclass)?;
            clause_kept(alloc, outside, state, &x.mixins)
        }
    }
}
