// Whether a table of the tests is one that a program can have, and a type one of its types.
ghost use Rattle.std.specs.Prelude.{◌≡◌, ◌<◌, ℕ, All, Some, length, IsTrue, true};
ghost use Rattle.dart_ir.specs.Ty.{ty, tys, function_ty, named_ty, named_tys, class, nil};
ghost use Rattle.dart_ir.specs.Classes.{IsValid, IsValidClass, IsFunctionClass, IsFormed, AreFormed, AreNamedFormed, IsPlain, ArePlain, HasCall, IsBoundFormed, class_at, parameter_count};
ghost use Rattle.type_tests.specs.Testing.{IsSupertype, HasSuperclass, HasFunction};
ghost use Rattle.dart_ir.specs.declared.class.ClassInfo.{ClassInfo};

use dart_ir::class::{ClassInfo, Classes};
use dart_ir::types::{FunctionType, NamedType, TypeRef};

/// Whether the classes in a type are listed, have as many arguments as parameters, and its parameters are below n.
#[cycle(forming)]
#[tactic(auto, using(dart_ir::proofs::View::views))]
pub fn is_formed(k: &Classes, n: usize, t: &TypeRef) -> bool
    ensures { IsTrue result → IsFormed k.now n (ty t.now) }
{
    match t {
        TypeRef::Dynamic => true,
        TypeRef::Bottom => true,
        TypeRef::Void => true,
        TypeRef::Class(c, ts) => has_parameters(k, c.0, ts.len()) && are_formed(k, n, ts),
        TypeRef::Param(i) => (*i as usize) < n,
        TypeRef::Function(f) => is_function_formed(k, n, f),
    }
}

#[cycle(forming)]
#[tactic(auto, using(dart_ir::proofs::View::views))]
fn are_formed(k: &Classes, n: usize, ts: &[TypeRef]) -> bool
    ensures { IsTrue result → AreFormed k.now n (tys ts.now) }
{
    for t in ts {
        if !is_formed(k, n, t) {
            return false;
        }
    }
    true
}

#[cycle(forming)]
#[tactic(auto, using(dart_ir::proofs::View::views))]
fn is_function_formed(k: &Classes, n: usize, f: &FunctionType) -> bool
    ensures { IsTrue result → IsFormed k.now n (function_ty f.now) }
{
    is_formed(k, n, &f.result)
        && are_formed(k, n, &f.required)
        && are_formed(k, n, &f.optional)
        && are_named_formed(k, n, &f.named)
}

#[cycle(forming)]
#[tactic(auto, using(dart_ir::proofs::View::views))]
fn are_named_formed(k: &Classes, n: usize, ns: &[NamedType]) -> bool
    ensures { IsTrue result → AreNamedFormed k.now n (named_tys ns.now) }
{
    for m in ns {
        if !is_named_formed(k, n, m) {
            return false;
        }
    }
    true
}

#[cycle(forming)]
#[tactic(auto, using(dart_ir::proofs::View::views))]
fn is_named_formed(k: &Classes, n: usize, m: &NamedType) -> bool
    ensures { IsTrue result → IsFormed k.now n (named_ty m.now).1 }
{
    is_formed(k, n, &m.of)
}

/// Whether a class is listed with so many parameters.
fn has_parameters(k: &Classes, c: u32, n: usize) -> bool
    ensures { IsTrue result → (c < length k.now.classes.items)
        × (n ≡ parameter_count (class_at k.now c)) }
{
    match k.classes.get(c as usize) {
        None => false,
        Some(info) => info.bounds.len() == n,
    }
}

/// Whether no function type stands in a type.
#[cycle(plain)]
#[tactic(auto, using(dart_ir::proofs::View::views))]
fn is_plain(t: &TypeRef) -> bool
    ensures { IsTrue result → IsPlain (ty t.now) }
{
    match t {
        TypeRef::Dynamic => true,
        TypeRef::Bottom => true,
        TypeRef::Void => true,
        TypeRef::Class(_, ts) => are_plain(ts),
        TypeRef::Param(_) => true,
        TypeRef::Function(_) => false,
    }
}

#[cycle(plain)]
#[tactic(auto, using(dart_ir::proofs::View::views))]
fn are_plain(ts: &[TypeRef]) -> bool
    ensures { IsTrue result → ArePlain (tys ts.now) }
{
    for t in ts {
        if !is_plain(t) {
            return false;
        }
    }
    true
}

fn has_call(k: &Classes, c: u32) -> bool
    ensures { HasCall (class_at k.now c) → IsTrue result }
{
    match k.classes.get(c as usize) {
        None => false,
        Some(info) => info.callable,
    }
}

/// Whether a type may stand above class c.
#[tactic(auto, using(dart_ir::proofs::View::views))]
fn is_supertype(k: &Classes, c: usize, n: usize, callable: bool, u: &TypeRef) -> bool
    ensures { IsTrue result → IsSupertype k.now c n callable (ty u.now) }
{
    match u {
        TypeRef::Class(e, ts) => (e.0 as usize) < c
            && are_plain(ts)
            && is_formed(k, n, u)
            && (callable || !has_call(k, e.0)),
        TypeRef::Dynamic => false,
        TypeRef::Bottom => false,
        TypeRef::Void => false,
        TypeRef::Param(_) => false,
        TypeRef::Function(_) => false,
    }
}

fn are_supertypes(k: &Classes, c: usize, n: usize, callable: bool, us: &[TypeRef]) -> bool
    ensures { IsTrue result → All (λ u. IsSupertype k.now c n callable (ty u)) us.now }
{
    for u in us {
        if !is_supertype(k, c, n, callable, u) {
            return false;
        }
    }
    true
}

/// Whether no type parameter has a bound.
fn has_no_bounds(k: &Classes, n: usize, bounds: &[Option<TypeRef>]) -> bool
    ensures { IsTrue result → All (IsBoundFormed k.now n) bounds.now }
{
    for bound in bounds {
        match bound {
            None => {}
            Some(_) => return false,
        }
    }
    true
}

/// Whether class c is one that a program can have. The tests' classes have no members and no bounds.
pub fn is_class_valid(k: &Classes, c: usize) -> bool
    requires { c < length k.now.classes.items }
    ensures { IsTrue result → (i : ClassInfo) → class_at k.now c ≡ Some i → IsValidClass k.now c i }
{
    let info = &k.classes[c];
    let n = info.bounds.len();
    has_superclass(k, c, n, info)
        && are_supertypes(k, c, n, info.callable, &info.interfaces)
        && has_no_bounds(k, n, &info.bounds)
        && info.members.is_empty()
        && (!info.callable || (k.function.0 as usize) < c)
}

/// Whether a class other than the first has a superclass, and the first has nothing above it.
fn has_superclass(k: &Classes, c: usize, n: usize, info: &ClassInfo) -> bool
    ensures { IsTrue result → HasSuperclass k.now c n info.now }
{
    match &info.superclass {
        None => c == 0 && info.interfaces.is_empty(),
        Some(u) => c != 0 && is_supertype(k, c, n, info.callable, u),
    }
}

/// Whether a table is one that a program can have. The tests' tables have no members and no bounds.
pub fn is_valid(k: &Classes) -> bool
    ensures { IsTrue result → IsValid k.now }
{
    k.members.is_empty() && is_function_valid(k) && are_classes_valid(k)
}

/// Whether `Function` has no parameters and nothing but the first class above it.
fn is_function_valid(k: &Classes) -> bool
    ensures { IsTrue result → HasFunction k.now }
{
    match k.classes.get(k.function.0 as usize) {
        None => false,
        Some(info) => is_function_class(info),
    }
}

fn is_function_class(info: &ClassInfo) -> bool
    ensures { IsTrue result → IsFunctionClass info.now }
{
    match &info.superclass {
        None => false,
        Some(u) => {
            if !info.bounds.is_empty() {
                return false;
            }
            if !info.interfaces.is_empty() {
                return false;
            }
            is_object(u)
        }
    }
}

/// Whether a type is the first class.
#[tactic(auto, using(dart_ir::proofs::View::views))]
fn is_object(t: &TypeRef) -> bool
    ensures { IsTrue result → ty t.now ≡ class 0 nil }
{
    match t {
        TypeRef::Class(e, ts) => {
            if e.0 != 0 {
                return false;
            }
            ts.is_empty()
        }
        TypeRef::Dynamic => false,
        TypeRef::Bottom => false,
        TypeRef::Void => false,
        TypeRef::Param(_) => false,
        TypeRef::Function(_) => false,
    }
}

fn are_classes_valid(k: &Classes) -> bool
    ensures { IsTrue result → (c : ℕ) → c < length k.now.classes.items → (i : ClassInfo)
        → class_at k.now c ≡ Some i → IsValidClass k.now c i }
{
    for c in 0..k.classes.len() {
        if !is_class_valid(k, c) {
            return false;
        }
    }
    true
}
