// Types of a table of classes without type parameters.
ghost use Rattle.std.specs.Prelude.{◌≡◌, ◌&&◌, length, nat_eq, nat_lt};
ghost use Rattle.dart_ir.specs.Ty.{ty, tys, function_ty, named_ty, named_tys};
ghost use Rattle.dart_ir.specs.Classes.{class_at, parameter_count};
ghost use Rattle.type_test.specs.Test as spec;

use dart_ir::class::Classes;
use dart_ir::types::{FunctionType, NamedType, TypeRef};

/// Whether each class in a type is listed and has as many arguments as parameters, and no type parameter stands in it.
#[cycle(forming)]
#[tactic(auto, using(dart_ir::proofs::View::views, crate::proofs::Forms::counts))]
pub fn is_formed(classes: &Classes, t: &TypeRef) -> bool
    ensures { result ≡ spec.is_formed classes.now (ty t.now) }
{
    match t {
        TypeRef::Dynamic => true,
        TypeRef::Bottom => true,
        TypeRef::Void => true,
        TypeRef::Class(c, ts) => has_parameters(classes, c.0, ts.len()) && are_formed(classes, ts),
        TypeRef::Param(_) => false,
        TypeRef::Function(f) => is_function_formed(classes, f),
    }
}

#[cycle(forming)]
#[tactic(auto, using(dart_ir::proofs::View::views))]
fn are_formed(classes: &Classes, ts: &[TypeRef]) -> bool
    ensures { result ≡ spec.are_formed classes.now (tys ts.now) }
{
    for t in ts {
        if !is_formed(classes, t) {
            return false;
        }
    }
    true
}

#[cycle(forming)]
#[tactic(auto, using(dart_ir::proofs::View::views))]
fn is_function_formed(classes: &Classes, f: &FunctionType) -> bool
    ensures { result ≡ spec.is_formed classes.now (function_ty f.now) }
{
    is_formed(classes, &f.result)
        && are_formed(classes, &f.required)
        && are_formed(classes, &f.optional)
        && are_named_formed(classes, &f.named)
}

#[cycle(forming)]
#[tactic(auto, using(dart_ir::proofs::View::views))]
fn are_named_formed(classes: &Classes, named: &[NamedType]) -> bool
    ensures { result ≡ spec.are_named_formed classes.now (named_tys named.now) }
{
    for one in named {
        if !is_named_formed(classes, one) {
            return false;
        }
    }
    true
}

#[cycle(forming)]
#[tactic(auto, using(dart_ir::proofs::View::views))]
fn is_named_formed(classes: &Classes, one: &NamedType) -> bool
    ensures { result ≡ spec.is_formed classes.now (named_ty one.now).1 }
{
    is_formed(classes, &one.of)
}

/// Whether a class is listed with so many parameters.
fn has_parameters(classes: &Classes, c: u32, count: usize) -> bool
    ensures { result ≡ nat_lt c (length classes.now.classes.items) && nat_eq count (parameter_count (class_at classes.now c)) }
{
    match classes.classes.get(c as usize) {
        None => false,
        Some(info) => count == info.bounds.len(),
    }
}
