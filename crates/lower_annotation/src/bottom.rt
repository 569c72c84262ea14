// Whether the type of null is in a type.
#![tactic(auto, using(dart_ir::proofs::View::views))]

ghost use Rattle.std.specs.Prelude.{◌≡◌};
ghost use Rattle.dart_ir.specs.Ty.{ty, tys, function_ty, named_ty, named_tys};
ghost use Rattle.lower_annotation.specs.Instance as i;

use dart_ir::types::{FunctionType, NamedType, TypeRef};

/// Whether the type of null is in a type. Takes no memory.
#[cycle(seeking)]
pub fn has_bottom(of: &TypeRef) -> bool
    ensures { result ≡ i.has_bottom (ty of.now) }
{
    match of {
        TypeRef::Dynamic => false,
        TypeRef::Bottom => true,
        TypeRef::Void => false,
        TypeRef::Class(_, given) => have_bottom(given),
        TypeRef::Param(_) => false,
        TypeRef::Function(function) => function_has_bottom(function),
    }
}

#[cycle(seeking)]
fn function_has_bottom(of: &FunctionType) -> bool
    ensures { result ≡ i.has_bottom (function_ty of.now) }
{
    has_bottom(&of.result)
        || have_bottom(&of.required)
        || have_bottom(&of.optional)
        || named_have_bottom(&of.named)
}

#[cycle(seeking)]
fn have_bottom(all: &[TypeRef]) -> bool
    ensures { result ≡ i.have_bottom (tys all.now) }
{
    for one in all {
        if has_bottom(one) {
            return true;
        }
    }
    false
}

#[cycle(seeking)]
fn named_have_bottom(all: &[NamedType]) -> bool
    ensures { result ≡ i.named_have_bottom (named_tys all.now) }
{
    for one in all {
        if parameter_has_bottom(one) {
            return true;
        }
    }
    false
}

#[cycle(seeking)]
fn parameter_has_bottom(of: &NamedType) -> bool
    ensures { result ≡ i.has_bottom (named_ty of.now).1 }
{
    has_bottom(&of.of)
}
