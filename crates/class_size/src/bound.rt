// Bounds on the sizes of the types above a class, by which most types need not be climbed.
ghost use Rattle.std.specs.Prelude.{◌≡◌, ◌<◌, ◌≤◌, ◌+◌, ◌*◌, ℕ, length, IfOk, Some};
ghost use Rattle.dart_ir.specs.Ty.{ty, tys};
ghost use Rattle.dart_ir.specs.Classes.{direct_supertypes};
ghost use Rattle.dart_ir.specs.declared.class.Classes.{Classes};
ghost use Rattle.dart_ir.specs.declared.types.TypeRef.{TypeRef};
ghost use Rattle.dart_type.specs.Instance.{node_count, node_counts};
ghost use Rattle.class_size.specs.Bound.{AreAtMost, IsTypeBound, AreTypeBounds, AreBounds, IsBoundAbove};

use dart_base::limit::TYPE_NODES;
use dart_ir::class::{ClassInfo, Classes};
use dart_ir::types::TypeRef;
use std::alloc::{AllocError, Global};

/// The bound that claims nothing.
pub const UNKNOWN: usize = TYPE_NODES + 1;

/// Of each class a bound on the sizes of the types above it. It takes time linear in the headers.
pub fn bounds_of(alloc: Global, classes: &Classes) -> Result<Vec<usize>, AllocError>
    ensures each { IfOk result (λ bounds. length bounds.items ≡ length classes.now.classes.items) }
    ensures bounds { IfOk result (λ bounds. AreBounds classes.now bounds.items) }
{
    let mut bounds = Vec::new(alloc);
    for info in &classes.classes {
        bounds.push(class_bound(&bounds, info))?;
    }
    Ok(bounds)
}

/// The bound of a class, from those of the classes before it.
fn class_bound(bounds: &[usize], info: &ClassInfo) -> usize
    ensures { (k : Classes) → AreBounds k bounds.now
        → AreTypeBounds k result (direct_supertypes info.now) }
{
    superclass_bound(bounds, &info.superclass).max(types_bound(bounds, &info.interfaces))
}

/// The bound of a superclass, where there is one.
fn superclass_bound(bounds: &[usize], superclass: &Option<TypeRef>) -> usize
    ensures { (k : Classes) → AreBounds k bounds.now → (t : TypeRef) → superclass.now ≡ Some t
        → IsTypeBound k result (ty t) }
{
    match superclass {
        None => 0,
        Some(t) => type_bound(bounds, t),
    }
}

/// The largest of the bounds of some types.
fn types_bound(bounds: &[usize], types: &[TypeRef]) -> usize
    ensures { (k : Classes) → AreBounds k bounds.now → AreTypeBounds k result types.now }
{
    let mut bound = 0;
    for t in types {
        bound = type_bound(bounds, t).max(bound);
    }
    bound
}

/// A bound on the sizes of a type and of those above it.
#[tactic(auto, using(dart_ir::proofs::View::views))]
fn type_bound(bounds: &[usize], t: &TypeRef) -> usize
    ensures { (k : Classes) → AreBounds k bounds.now → IsTypeBound k result (ty t.now) }
{
    match t {
        TypeRef::Class(class, args) => { size(t).max(bound_above(bounds, class.0 as usize, args)) }
        TypeRef::Dynamic => UNKNOWN,
        TypeRef::Bottom => UNKNOWN,
        TypeRef::Void => UNKNOWN,
        TypeRef::Param(_) => UNKNOWN,
        TypeRef::Function(_) => UNKNOWN,
    }
}

/// A bound on the sizes of the types above a class with these arguments.
pub fn bound_above(bounds: &[usize], class: usize, args: &[TypeRef]) -> usize
    ensures { (k : Classes) → AreBounds k bounds.now → IsBoundAbove k result class (tys args.now) }
{
    match bounds.get(class) {
        None => UNKNOWN,
        Some(bound) => product(*bound, largest(args)),
    }
}

/// The product of two bounds, or none where one is none or it is past `TYPE_NODES`.
fn product(a: usize, b: usize) -> usize
    ensures { result ≤ TYPE_NODES → (a ≤ TYPE_NODES) × (b ≤ TYPE_NODES) × (result ≡ a * b) }
{
    if a > TYPE_NODES || b > TYPE_NODES {
        return UNKNOWN;
    }
    capped(a * b)
}

/// The number, or `UNKNOWN` where it is larger.
fn capped(n: usize) -> usize
    ensures bounded { result ≤ TYPE_NODES + 1 }
    ensures same { result ≤ TYPE_NODES → result ≡ n }
{
    if n > TYPE_NODES { UNKNOWN } else { n }
}

/// The size of the largest of some arguments, at least 1.
fn largest(args: &[TypeRef]) -> usize
    ensures positive { 0 < result }
    ensures most { result ≤ TYPE_NODES → AreAtMost result (tys args.now) }
{
    let mut most = 1;
    for t in args {
        most = size(t).max(most);
    }
    most
}

/// How many nodes a type has. One of more than `TYPE_NODES`, and one with a function type in it, has `UNKNOWN`.
#[cycle(counting)]
#[tactic(auto, using(dart_ir::proofs::View::views))]
fn size(t: &TypeRef) -> usize
    ensures bounded { result ≤ TYPE_NODES + 1 }
    ensures counted { result ≤ TYPE_NODES → node_count (ty t.now) ≡ result }
{
    match t {
        TypeRef::Dynamic => 1,
        TypeRef::Bottom => 1,
        TypeRef::Void => 1,
        TypeRef::Param(_) => 1,
        TypeRef::Class(_, args) => capped(size_of_all(args) + 1),
        TypeRef::Function(_) => UNKNOWN,
    }
}

/// How many nodes the types of a list have, likewise.
#[cycle(counting)]
#[tactic(auto, using(dart_ir::proofs::View::views))]
fn size_of_all(types: &[TypeRef]) -> usize
    ensures bounded { result ≤ TYPE_NODES + 1 }
    ensures counted { result ≤ TYPE_NODES → node_counts (tys types.now) ≡ result }
{
    let mut sum = 0;
    for t in types {
        sum = capped(sum + size(t));
    }
    sum
}
