// Whether types are surely the same, so that they need be kept once, and numbers that tell most others apart.
ghost use Rattle.std.specs.Prelude.{◌≡◌, true, map};
ghost use Rattle.dart_ir.specs.Ty.{ty, function_ty, named_ty};

use dart_ir::types::{FunctionType, NamedType, TypeRef};

/// Whether two types are the same. `false` says nothing.
#[cycle(same)]
#[tactic(auto, using(dart_ir::proofs::View::views))]
fn is_same(t: &TypeRef, u: &TypeRef) -> bool
    ensures { result ≡ true → ty t.now ≡ ty u.now }
{
    match (t, u) {
        (TypeRef::Dynamic, TypeRef::Dynamic) => true,
        (TypeRef::Bottom, TypeRef::Bottom) => true,
        (TypeRef::Void, TypeRef::Void) => true,
        (TypeRef::Class(c, ts), TypeRef::Class(d, us)) => c.0 == d.0 && are_same(ts, us),
        (TypeRef::Param(i), TypeRef::Param(j)) => *i == *j,
        (TypeRef::Function(f), TypeRef::Function(g)) => is_same_function(f, g),
        _ => false,
    }
}

/// Whether types are the same, in order. `false` says nothing.
#[cycle(same)]
pub fn are_same(ts: &[TypeRef], us: &[TypeRef]) -> bool
    ensures { result ≡ true → map ty ts.now ≡ map ty us.now }
{
    if ts.len() != us.len() {
        return false;
    }
    for (i, t) in ts.iter().enumerate() {
        if !is_same(t, &us[i]) {
            return false;
        }
    }
    true
}

// Whether two function types are the same. `false` says nothing.
#[cycle(same)]
#[tactic(auto, using(dart_ir::proofs::View::views))]
fn is_same_function(f: &FunctionType, g: &FunctionType) -> bool
    ensures { result ≡ true → function_ty f.now ≡ function_ty g.now }
{
    if !is_same(&f.result, &g.result) {
        return false;
    }
    are_same(&f.required, &g.required)
        && are_same(&f.optional, &g.optional)
        && are_same_named(&f.named, &g.named)
}

// Whether named parameters are the same, in order. `false` says nothing.
#[cycle(same)]
fn are_same_named(ns: &[NamedType], ms: &[NamedType]) -> bool
    ensures { result ≡ true → map named_ty ns.now ≡ map named_ty ms.now }
{
    if ns.len() != ms.len() {
        return false;
    }
    for (i, n) in ns.iter().enumerate() {
        if !is_same_named(n, &ms[i]) {
            return false;
        }
    }
    true
}

// Whether two named parameters are the same. `false` says nothing.
#[cycle(same)]
#[tactic(auto, using(dart_ir::proofs::View::views))]
fn is_same_named(n: &NamedType, m: &NamedType) -> bool
    ensures { result ≡ true → named_ty n.now ≡ named_ty m.now }
{
    n.name.0 == m.name.0 && is_same(&n.of, &m.of)
}
