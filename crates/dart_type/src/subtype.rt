// The relations between types: more specific, subtype, assignable.
ghost use Rattle.std.specs.Prelude.{◌<◌, ◌↔◌, length, IfOk, IsTrue};
ghost use Rattle.dart_ir.specs.Ty.{ty};
ghost use Rattle.dart_ir.specs.Classes.{IsValid, IsFormed};
ghost use Rattle.dart_type.specs.Relation.{table_of, IsMoreSpecific, IsSubtype, IsAssignable};
ghost use Rattle.dart_type.specs.Intern.{types, read, IsBuilt};

use crate::enter::enter;
use crate::floor::floor_of;
use crate::intern::Node;
use crate::search::{Answer, is_below};
use dart_ir::class::Classes;
use dart_ir::types::TypeRef;
use std::alloc::{AllocError, Global};

/// Whether t is more specific than s (`t << s`; ECMA-408, Interface Types). Neither type has a type parameter in it.
pub fn more_specific(
    alloc: Global,
    classes: &Classes,
    t: &TypeRef,
    s: &TypeRef,
) -> Result<bool, AllocError>
    requires valid { IsValid classes.now }
    requires t_formed { IsFormed classes.now 0 (ty t.now) }
    requires s_formed { IsFormed classes.now 0 (ty s.now) }
    ensures { IfOk result (λ holds.
        IsTrue holds ↔ IsMoreSpecific (table_of classes.now) (ty t.now) (ty s.now)) }
{
    let mut nodes = Vec::new(alloc);
    let i = enter(alloc, &mut nodes, t, &[])?;
    let j = enter(alloc, &mut nodes, s, &[])?;
    compare(alloc, classes, &mut nodes, i, j)
}

/// Whether t is a subtype of s (`t <: s`; ECMA-408, Interface Types): whether t with each `dynamic` replaced by Bottom
/// is more specific than s. Neither type has a type parameter in it.
pub fn is_subtype(
    alloc: Global,
    classes: &Classes,
    t: &TypeRef,
    s: &TypeRef,
) -> Result<bool, AllocError>
    requires valid { IsValid classes.now }
    requires t_formed { IsFormed classes.now 0 (ty t.now) }
    requires s_formed { IsFormed classes.now 0 (ty s.now) }
    ensures { IfOk result (λ holds.
        IsTrue holds ↔ IsSubtype (table_of classes.now) (ty t.now) (ty s.now)) }
{
    let mut nodes = Vec::new(alloc);
    let i = enter(alloc, &mut nodes, t, &[])?;
    let j = enter(alloc, &mut nodes, s, &[])?;
    let low = floor_of(alloc, &mut nodes, i)?;
    compare(alloc, classes, &mut nodes, low, j)
}

/// Whether t is assignable to s (ECMA-408, Interface Types): whether one of the two is a subtype of the other. Neither
/// type has a type parameter in it.
pub fn assignable(
    alloc: Global,
    classes: &Classes,
    t: &TypeRef,
    s: &TypeRef,
) -> Result<bool, AllocError>
    requires valid { IsValid classes.now }
    requires t_formed { IsFormed classes.now 0 (ty t.now) }
    requires s_formed { IsFormed classes.now 0 (ty s.now) }
    ensures { IfOk result (λ holds.
        IsTrue holds ↔ IsAssignable (table_of classes.now) (ty t.now) (ty s.now)) }
{
    if is_subtype(alloc, classes, t, s)? {
        return Ok(true);
    }
    // The answer has a name, by which the proof speaks of it.
    let back = is_subtype(alloc, classes, s, t)?;
    Ok(back)
}

/// Whether one interned type is more specific than another.
fn compare(
    alloc: Global,
    classes: &Classes,
    nodes: &mut Vec<Node>,
    t: usize,
    s: usize,
) -> Result<bool, AllocError>
    requires valid { IsValid classes.now }
    requires built { IsBuilt nodes.old.items }
    requires t_listed { t < length nodes.old.items }
    requires s_listed { s < length nodes.old.items }
    ensures { let known = types nodes.old.items in IfOk result (λ holds.
        IsTrue holds ↔ IsMoreSpecific (table_of classes.now) (read known t) (read known s)) }
{
    let mut answers: Vec<Answer> = Vec::new(alloc);
    // The answer has a name, by which the proof speaks of it.
    let holds = is_below(alloc, classes, nodes, &mut answers, t, s)?;
    Ok(holds)
}
