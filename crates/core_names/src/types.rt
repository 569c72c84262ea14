// Whether the names in types are below a count.
ghost use Rattle.std.specs.Prelude.{◌≡◌, ◌∷◌, map};
ghost use Rattle.std.specs.List.{flat_map};
ghost use Rattle.dart_ir.specs.Ty.{ty, tys, function_ty, named_ty, named_tys};
ghost use Rattle.core_program.specs.ProgramView.{ty_option};
ghost use Rattle.core_names.specs.Names.{ty_names, tys_names, named_tys_names, ty_option_names};
ghost use Rattle.core_names.specs.Within.{are_below};

use dart_ir::types::{FunctionType, NamedType, TypeRef};

/// Whether each name of a parameter in the type is below the count.
#[cycle(naming)]
#[tactic(auto, using(dart_ir::proofs::View::views, crate::proofs::Below::all_append))]
pub fn is_type_within(t: &TypeRef, count: u32) -> bool
    ensures { result ≡ are_below count (ty_names (ty t.now)) }
{
    match t {
        TypeRef::Dynamic => true,
        TypeRef::Bottom => true,
        TypeRef::Void => true,
        TypeRef::Class(_, args) => are_types_within(args, count),
        TypeRef::Param(_) => true,
        TypeRef::Function(function) => is_function_type_within(function, count),
    }
}

/// Whether each name in the types is below the count.
#[cycle(naming)]
#[tactic(auto, using(dart_ir::proofs::View::views, crate::proofs::Below::all_append))]
pub fn are_types_within(types: &[TypeRef], count: u32) -> bool
    ensures { result ≡ are_below count (tys_names (tys types.now)) }
{
    for t in types {
        if !is_type_within(t, count) {
            return false;
        }
    }
    true
}

/// Whether each name in the function type is below the count.
#[cycle(naming)]
#[tactic(auto, using(dart_ir::proofs::View::views, crate::proofs::Below::all_append))]
pub fn is_function_type_within(function: &FunctionType, count: u32) -> bool
    ensures { result ≡ are_below count (ty_names (function_ty function.now)) }
{
    is_type_within(&function.result, count)
        && are_types_within(&function.required, count)
        && are_types_within(&function.optional, count)
        && are_parameters_within(&function.named, count)
}

#[cycle(naming)]
#[tactic(auto, using(dart_ir::proofs::View::views, crate::proofs::Below::all_append))]
fn are_parameters_within(parameters: &[NamedType], count: u32) -> bool
    ensures { result ≡ are_below count (named_tys_names (named_tys parameters.now)) }
{
    for one in parameters {
        if !is_parameter_within(one, count) {
            return false;
        }
    }
    true
}

#[cycle(naming)]
#[tactic(auto, using(dart_ir::proofs::View::views, crate::proofs::Below::all_append))]
fn is_parameter_within(parameter: &NamedType, count: u32) -> bool
    ensures { let one = named_ty parameter.now in result ≡ are_below count (one.0 ∷ ty_names one.1) }
{
    parameter.name.0 < count && is_type_within(&parameter.of, count)
}

/// Whether each name in the type, where there is one, is below the count.
pub fn is_optional_type_within(t: &Option<TypeRef>, count: u32) -> bool
    ensures { result ≡ are_below count (ty_option_names (ty_option t.now)) }
{
    match t {
        None => true,
        Some(t) => is_type_within(t, count),
    }
}

/// Whether each name in the types, of which some may be missing, is below the count.
pub fn are_bounds_within(bounds: &[Option<TypeRef>], count: u32) -> bool
    ensures { result ≡ are_below count (flat_map ty_option_names (map ty_option bounds.now)) }
{
    for one in bounds {
        if !is_optional_type_within(one, count) {
            return false;
        }
    }
    true
}
