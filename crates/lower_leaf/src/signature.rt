// The types of functions, and what parameters ask for (ECMA-408, 9.2 Formal Parameters and 19.5 Function Types).
#![tactic(auto, using(crate::proofs::TypeLaws::type_views, crate::proofs::Trees::trees, crate::proofs::Steps::type_steps, crate::proofs::Signatures::listed), unfolding(crate::specs::Around::ty, crate::specs::Kept::named_type))]

ghost use Rattle.std.specs.Prelude.{◌≡◌, IfOk};
ghost use Rattle.dart_ir.specs.Ty.{function};
ghost use Rattle.dart_tree.specs.Lists.{parameter_list_of};
ghost use Rattle.dart_tree.specs.View as view;
ghost use Rattle.translation.specs.Surroundings.{name_in};
ghost use Rattle.translation.specs.Types as y;
ghost use Rattle.lower_leaf.specs.Around.{text, ty, types};
ghost use Rattle.lower_leaf.specs.Kept.{named_type, named_types};
ghost use Rattle.lower_leaf.specs.Seen.{seen, asked};

use crate::fault::Want;
use crate::name::{own_name, text_of};
use crate::state::{Asked, State};
use crate::surroundings::Surroundings;
use crate::types::{asked_of_kind, result_type};
use dart_base::name::Name;
use dart_ir::types::{FunctionType, NamedType, TypeRef, Types};
use dart_tree::identifier::Identifier;
use dart_tree::parameter::{BracketKind, Brackets, Parameter, ParameterKind, Parameters};
use std::alloc::Global;

// A function type from its parts.
fn function_of<S: Surroundings>(
    alloc: Global,
    outside: &S,
    answer: TypeRef,
    required: Types,
    optional: Types,
    named: Vec<NamedType>,
) -> Result<TypeRef, Want>
    ensures { IfOk result (λ made. ty (S.around outside.now) made
        ≡ function (ty (S.around outside.now) answer) (y.tys (types (S.around outside.now) required.items))
        (y.tys (types (S.around outside.now) optional.items)) (named_types (S.around outside.now) named.items)) }
{
    let made = Box::new(
        alloc,
        FunctionType {
            result: answer,
            required,
            optional,
            named,
        },
    )?;
    Ok(TypeRef::Function(made))
}

// The type that is asked for, `dynamic` where none is.
fn type_asked<S: Surroundings>(outside: &S, wanted: Asked) -> TypeRef
    ensures { ty (S.around outside.now) result ≡ y.type_asked (asked (S.around outside.now) wanted) }
{
    match wanted.of {
        None => TypeRef::Dynamic,
        Some(of) => of,
    }
}

/// The name that a parameter declares.
pub fn parameter_name(kind: &ParameterKind) -> &Identifier
    ensures { result.now ≡ y.parameter_name (view.parameter_kind kind.now) }
{
    match kind {
        ParameterKind::Plain {
            kind: _,
            this_dot: _,
            name,
        } => name,
        ParameterKind::Function {
            result_type: _,
            this_dot: _,
            name,
            parameters: _,
        } => name,
    }
}

// The name of a parameter in its library.
fn name_of_parameter<S: Surroundings>(
    alloc: Global,
    outside: &S,
    state: &State,
    one: &Parameter,
) -> Result<Name, Want>
    ensures { IfOk result (λ found. text (S.around outside.now) found
        ≡ name_in (seen (S.around outside.now) state.now).names.library (y.name_of_parameter (view.parameter one.now))) }
{
    own_name(
        alloc,
        outside,
        state.outer,
        text_of(parameter_name(&one.kind)),
    )
}

// A name with a type.
fn with_name<S: Surroundings>(outside: &S, name: Name, of: TypeRef) -> NamedType
    ensures { named_type (S.around outside.now) result ≡ (text (S.around outside.now) name, ty (S.around outside.now) of) }
{
    NamedType { name, of }
}

/// What a parameter asks for: one that is written as a function, for a function type (9.2.1 Required Formals).
#[cycle(signature)]
pub fn asked_of_parameter<S: Surroundings>(
    alloc: Global,
    outside: &S,
    state: &State,
    kind: &ParameterKind,
) -> Result<Asked, Want>
    ensures { IfOk result (λ made. asked (S.around outside.now) made
        ≡ y.asked_of_parameter (seen (S.around outside.now) state.now) (view.parameter_kind kind.now)) }
{
    match kind {
        ParameterKind::Plain {
            kind,
            this_dot: _,
            name: _,
        } => asked_of_kind(alloc, outside, state, kind),
        ParameterKind::Function {
            result_type: of,
            this_dot: _,
            name: _,
            parameters,
        } => {
            let answer = result_type(alloc, outside, state, of)?;
            let made = function_over(alloc, outside, state, parameters, answer)?;
            Ok(Asked {
                of: Some(made),
                annotated: true,
            })
        }
    }
}

/// The type of a function with this result.
pub fn function_type<S: Surroundings>(
    alloc: Global,
    outside: &S,
    state: &State,
    answer: TypeRef,
    parameters: &Parameters,
) -> Result<TypeRef, Want>
    ensures { IfOk result (λ made. ty (S.around outside.now) made
        ≡ y.function_type (seen (S.around outside.now) state.now) (ty (S.around outside.now) answer)
        (view.parameters parameters.now)) }
{
    function_over(alloc, outside, state, parameters, answer)
}

// The type of a function with these parameters.
#[cycle(signature)]
fn function_over<S: Surroundings>(
    alloc: Global,
    outside: &S,
    state: &State,
    parameters: &Parameters,
    answer: TypeRef,
) -> Result<TypeRef, Want>
    ensures { IfOk result (λ made. ty (S.around outside.now) made
        ≡ y.function_type (seen (S.around outside.now) state.now) (ty (S.around outside.now) answer)
        (view.parameters parameters.now)) }
{
    let brackets = parameters.brackets;
    let required = parameter_types(alloc, outside, state, &parameters.required)?;
    let optional = positional(alloc, outside, state, brackets, &parameters.optional)?;
    let named = by_name(alloc, outside, state, brackets, &parameters.optional)?;
    function_of(alloc, outside, answer, required, optional, named)
}

// The type that a parameter asks for.
#[cycle(signature)]
fn type_of_parameter<S: Surroundings>(
    alloc: Global,
    outside: &S,
    state: &State,
    one: &Parameter,
) -> Result<TypeRef, Want>
    ensures { IfOk result (λ made. ty (S.around outside.now) made
        ≡ y.type_of_parameter (seen (S.around outside.now) state.now) (view.parameter one.now)) }
{
    let wanted = asked_of_parameter(alloc, outside, state, &one.kind)?;
    Ok(type_asked(outside, wanted))
}

// The name and the type of a parameter.
#[cycle(signature)]
fn named_parameter<S: Surroundings>(
    alloc: Global,
    outside: &S,
    state: &State,
    one: &Parameter,
) -> Result<NamedType, Want>
    ensures { IfOk result (λ made. named_type (S.around outside.now) made
        ≡ (
          name_in (seen (S.around outside.now) state.now).names.library (y.name_of_parameter (view.parameter one.now)),
          y.type_of_parameter (seen (S.around outside.now) state.now) (view.parameter one.now),
        )) }
{
    let of = type_of_parameter(alloc, outside, state, one)?;
    let name = name_of_parameter(alloc, outside, state, one)?;
    Ok(with_name(outside, name, of))
}

// The types of parameters.
#[cycle(signature)]
fn parameter_types<S: Surroundings>(
    alloc: Global,
    outside: &S,
    state: &State,
    all: &Vec<Parameter>,
) -> Result<Types, Want>
    ensures { IfOk result (λ made. y.tys (types (S.around outside.now) made.items)
        ≡ y.parameter_types (seen (S.around outside.now) state.now) (parameter_list_of all.now.items)) }
{
    let mut made = Vec::new(alloc);
    for one in all {
        let of = type_of_parameter(alloc, outside, state, one)?;
        made.push(of)?;
    }
    Ok(made)
}

// The names and types of parameters.
#[cycle(signature)]
fn parameter_names<S: Surroundings>(
    alloc: Global,
    outside: &S,
    state: &State,
    all: &Vec<Parameter>,
) -> Result<Vec<NamedType>, Want>
    ensures { IfOk result (λ made. named_types (S.around outside.now) made.items
        ≡ y.named_types (seen (S.around outside.now) state.now) (parameter_list_of all.now.items)) }
{
    let mut made = Vec::new(alloc);
    for one in all {
        let of = named_parameter(alloc, outside, state, one)?;
        made.push(of)?;
    }
    Ok(made)
}

// The types of optional parameters in square brackets.
#[cycle(signature)]
fn positional<S: Surroundings>(
    alloc: Global,
    outside: &S,
    state: &State,
    brackets: Option<Brackets>,
    all: &Vec<Parameter>,
) -> Result<Types, Want>
    ensures { IfOk result (λ made. y.tys (types (S.around outside.now) made.items)
        ≡ y.positional brackets (y.parameter_types (seen (S.around outside.now) state.now) (parameter_list_of all.now.items))) }
{
    match brackets {
        None => Ok(Vec::new(alloc)),
        Some(brackets) => match brackets.kind {
            BracketKind::Square => parameter_types(alloc, outside, state, all),
            BracketKind::Curly => Ok(Vec::new(alloc)),
        },
    }
}

// The names and types of optional parameters in braces.
#[cycle(signature)]
fn by_name<S: Surroundings>(
    alloc: Global,
    outside: &S,
    state: &State,
    brackets: Option<Brackets>,
    all: &Vec<Parameter>,
) -> Result<Vec<NamedType>, Want>
    ensures { IfOk result (λ made. named_types (S.around outside.now) made.items
        ≡ y.by_name brackets (y.named_types (seen (S.around outside.now) state.now) (parameter_list_of all.now.items))) }
{
    match brackets {
        None => Ok(Vec::new(alloc)),
        Some(brackets) => match brackets.kind {
            BracketKind::Square => Ok(Vec::new(alloc)),
            BracketKind::Curly => parameter_names(alloc, outside, state, all),
        },
    }
}
