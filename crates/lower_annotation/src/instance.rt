// Type arguments put in for the type parameters of an alias.
#![tactic(auto, unfolding(lower_leaf::specs::Around::ty))]

ghost use Rattle.std.specs.Prelude.{◌≡◌, IfOk};
ghost use Rattle.dart_ir.specs.Ty.{dynamic};
ghost use Rattle.translation.specs.Types as y;
ghost use Rattle.lower_leaf.specs.Around.{ty, types};
ghost use Rattle.lower_annotation.specs.Instance as i;
ghost use Rattle.lower_annotation.specs.Written.{within_limit};

use dart_ir::types::TypeRef;
use dart_type::instance::{TypeFault, instantiate};
use lower_leaf::fault::Want;
use lower_leaf::surroundings::Surroundings;
use std::alloc::Global;

/// A type with type arguments in the places of its parameters; one that gets too large counts as `dynamic`.
pub fn instance<S: Surroundings>(
    alloc: Global,
    outside: &S,
    of: &TypeRef,
    given: &[TypeRef],
) -> Result<TypeRef, Want>
    ensures { IfOk result (λ made. ty (S.around outside.now) made
        ≡ within_limit (i.instance (y.tys (types (S.around outside.now) given.now)) (ty (S.around outside.now) of.now))) }
{
    match instantiate(alloc, of, given) {
        Ok(made) => Ok(made),
        Err(TypeFault::TooLarge) => Ok(TypeRef::Dynamic),
        Err(TypeFault::Memory) => Err(Want),
    }
}
