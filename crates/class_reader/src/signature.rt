// The signatures of instance members (ECMA-408, 19.5 Function Types).
#![tactic(auto, using(lower_leaf::proofs::TypeLaws::type_views), unfolding(lower_leaf::specs::Around::ty, crate::specs::Seen::signature))]

ghost use Rattle.std.specs.Prelude.{◌≡◌, IfOk};
ghost use Rattle.dart_tree.specs.View as view;
ghost use Rattle.translation.specs.ClassBodies as b;
ghost use Rattle.translation.specs.Types as y;
ghost use Rattle.lower_leaf.specs.Around.{ty};
ghost use Rattle.lower_leaf.specs.Seen.{seen, asked};
ghost use Rattle.class_source.specs.Source.{returning};
ghost use Rattle.class_reader.specs.Seen.{signature};

use dart_ir::number::ClassId;
use dart_ir::types::{FunctionType, TypeRef};
use dart_tree::parameter::Parameters;
use dart_tree::types::ResultType;
use lower_leaf::fault::Want;
use lower_leaf::signature::function_type;
use lower_leaf::state::{Asked, State, clone_type};
use lower_leaf::surroundings::Surroundings;
use lower_leaf::types::result_type;
use std::alloc::Global;

/// The type of a function with this result and these parameters.
pub fn signature_of<S: Surroundings>(
    alloc: Global,
    outside: &S,
    state: &State,
    result_of: &Option<ResultType>,
    parameters: &Parameters,
) -> Result<FunctionType, Want>
    ensures { IfOk result (λ made. signature (S.around outside.now) made ≡ y.function_type (seen (S.around outside.now) state.now)
        (y.result_type (seen (S.around outside.now) state.now) (view.result_option result_of.now)) (view.parameters parameters.now)) }
{
    let answer = result_type(alloc, outside, state, result_of)?;
    let made = function_type(alloc, outside, state, answer, parameters)?;
    match &made {
        TypeRef::Function(made) => Ok(made.try_clone(alloc)?),
        _ => Err(Want),
    }
}

// The type that an annotation wrote.
fn annotated_type<S: Surroundings>(
    alloc: Global,
    outside: &S,
    wanted: &Asked,
) -> Result<TypeRef, Want>
    ensures { IfOk result (λ made. ty (S.around outside.now) made ≡ b.annotated_type (asked (S.around outside.now) wanted.now)) }
{
    if !wanted.annotated {
        return Ok(TypeRef::Dynamic);
    }
    match &wanted.of {
        None => Ok(TypeRef::Dynamic),
        Some(of) => clone_type(alloc, outside, of),
    }
}

/// The signature of the getter of a field (10.5 Instance Variables).
pub fn getter_type<S: Surroundings>(
    alloc: Global,
    outside: &S,
    wanted: &Asked,
) -> Result<FunctionType, Want>
    ensures { IfOk result (λ made. signature (S.around outside.now) made ≡ b.getter_type (asked (S.around outside.now) wanted.now)) }
{
    let of = annotated_type(alloc, outside, wanted)?;
    Ok(FunctionType {
        result: of,
        required: Vec::new(alloc),
        optional: Vec::new(alloc),
        named: Vec::new(alloc),
    })
}

/// The signature of the setter of a field (10.5 Instance Variables).
pub fn setter_type<S: Surroundings>(
    alloc: Global,
    outside: &S,
    wanted: &Asked,
) -> Result<FunctionType, Want>
    ensures { IfOk result (λ made. signature (S.around outside.now) made ≡ b.setter_type (asked (S.around outside.now) wanted.now)) }
{
    let of = annotated_type(alloc, outside, wanted)?;
    let mut required = Vec::new(alloc);
    required.push(of)?;
    Ok(FunctionType {
        result: TypeRef::Dynamic,
        required,
        optional: Vec::new(alloc),
        named: Vec::new(alloc),
    })
}

/// The signature of a function without parameters that answers an object of the class. Takes no memory.
pub fn returning<S: Surroundings>(alloc: Global, outside: &S, of: ClassId) -> FunctionType
    ensures { signature (S.around outside.now) result ≡ returning of.0 }
{
    FunctionType {
        result: TypeRef::Class(of, Vec::new(alloc)),
        required: Vec::new(alloc),
        optional: Vec::new(alloc),
        named: Vec::new(alloc),
    }
}
