// When two types are the same.
ghost use Rattle.std.specs.Prelude.{◌≡◌, map};
ghost use Rattle.dart_ir.specs.Ty.{ty, tys, bottom, class, dynamic, parameter, void};
ghost use Rattle.native_object.specs.Identity as spec;

use dart_ir::types::TypeRef;

// Whether it is `dynamic`.
#[tactic(auto, using(dart_ir::proofs::View::views))]
fn is_dynamic(t: &TypeRef) -> bool
    ensures { result ≡ spec.same_type dynamic (ty t.now) }
{
    match t {
        TypeRef::Dynamic => true,
        TypeRef::Bottom => false,
        TypeRef::Void => false,
        TypeRef::Class(_, _) => false,
        TypeRef::Param(_) => false,
        TypeRef::Function(_) => false,
    }
}

// Whether it is the type of null.
#[tactic(auto, using(dart_ir::proofs::View::views))]
fn is_bottom(t: &TypeRef) -> bool
    ensures { result ≡ spec.same_type bottom (ty t.now) }
{
    match t {
        TypeRef::Bottom => true,
        TypeRef::Dynamic => false,
        TypeRef::Void => false,
        TypeRef::Class(_, _) => false,
        TypeRef::Param(_) => false,
        TypeRef::Function(_) => false,
    }
}

// Whether it is `void`.
#[tactic(auto, using(dart_ir::proofs::View::views))]
fn is_void(t: &TypeRef) -> bool
    ensures { result ≡ spec.same_type void (ty t.now) }
{
    match t {
        TypeRef::Void => true,
        TypeRef::Dynamic => false,
        TypeRef::Bottom => false,
        TypeRef::Class(_, _) => false,
        TypeRef::Param(_) => false,
        TypeRef::Function(_) => false,
    }
}

// Whether it is the type parameter of that number.
#[tactic(auto, using(dart_ir::proofs::View::views))]
fn is_parameter(index: u32, t: &TypeRef) -> bool
    ensures { result ≡ spec.same_type (parameter index) (ty t.now) }
{
    match t {
        TypeRef::Param(other) => index == *other,
        TypeRef::Dynamic => false,
        TypeRef::Bottom => false,
        TypeRef::Void => false,
        TypeRef::Class(_, _) => false,
        TypeRef::Function(_) => false,
    }
}

/// Whether two types are the same. A function type is the value of no expression.
#[cycle(same)]
#[tactic(auto, using(dart_ir::proofs::View::views, crate::proofs::Sets::differ))]
pub fn same_type(t: &TypeRef, u: &TypeRef) -> bool
    ensures { result ≡ spec.same_type (ty t.now) (ty u.now) }
{
    match t {
        TypeRef::Dynamic => is_dynamic(u),
        TypeRef::Bottom => is_bottom(u),
        TypeRef::Void => is_void(u),
        TypeRef::Class(c, ts) => match u {
            TypeRef::Class(d, us) => c.0 == d.0 && same_types(ts, us),
            TypeRef::Dynamic => false,
            TypeRef::Bottom => false,
            TypeRef::Void => false,
            TypeRef::Param(_) => false,
            TypeRef::Function(_) => false,
        },
        TypeRef::Param(index) => is_parameter(*index, u),
        TypeRef::Function(_) => false,
    }
}

// Whether two lists of types are the same.
#[cycle(same)]
#[tactic(auto, using(dart_ir::proofs::View::views, crate::proofs::Sets::differ))]
fn same_types(ts: &[TypeRef], us: &[TypeRef]) -> bool
    ensures { result ≡ spec.same_types (tys ts.now) (tys us.now) }
{
    if ts.len() != us.len() {
        return false;
    }
    for (i, t) in ts.iter().enumerate() {
        if !same_type(t, &us[i]) {
            return false;
        }
    }
    true
}
