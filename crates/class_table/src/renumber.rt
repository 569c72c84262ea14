// Types whose classes are numbered as declarations, with the numbers of the table.
ghost use Rattle.std.specs.Prelude.{◌≡◌, ◌++◌, IfOk, OnOk, map};
ghost use Rattle.dart_ir.specs.Ty.{ty, function_ty, named_ty};
ghost use Rattle.class_table.specs.Renumbered.{renumbered, renumbered_parameter, renumbered_bound, bound_ty};

use crate::number::number_of;
use class_fault::program::HeaderType;
use dart_ir::number::ClassId;
use dart_ir::types::{FunctionType, NamedType, TypeRef, Types};
use std::alloc::{AllocError, Global};

/// The type with the numbers of the table.
#[cycle(renumbering)]
#[tactic(auto, using(crate::proofs::Views::renumber_views))]
pub fn renumber(alloc: Global, numbers: &[u32], t: &TypeRef) -> Result<TypeRef, AllocError>
    ensures { IfOk result (λ u. ty u ≡ renumbered numbers.now (ty t.now)) }
{
    match t {
        TypeRef::Dynamic => Ok(TypeRef::Dynamic),
        TypeRef::Bottom => Ok(TypeRef::Bottom),
        TypeRef::Void => Ok(TypeRef::Void),
        TypeRef::Class(c, ts) => {
            let number = number_of(numbers, c.0 as usize);
            Ok(TypeRef::Class(ClassId(number), renumber_all(alloc, numbers, ts)?))
        }
        TypeRef::Param(i) => Ok(TypeRef::Param(*i)),
        TypeRef::Function(f) => {
            let function = renumber_function(alloc, numbers, f)?;
            Ok(TypeRef::Function(Box::new(alloc, function)?))
        }
    }
}

/// The types of a list with the numbers of the table.
#[cycle(renumbering)]
#[tactic(auto, using(crate::proofs::Views::renumber_views))]
pub fn renumber_all(alloc: Global, numbers: &[u32], ts: &[TypeRef]) -> Result<Types, AllocError>
    ensures { IfOk result (λ v. map ty v.items ≡ map (λ t. renumbered numbers.now (ty t)) ts.now) }
{
    let mut v = Vec::new(alloc);
    for t in ts {
        v.push(renumber(alloc, numbers, t)?)?;
    }
    Ok(v)
}

/// A function type with the numbers of the table.
#[cycle(renumbering)]
#[tactic(auto, using(crate::proofs::Views::renumber_views))]
pub fn renumber_function(
    alloc: Global,
    numbers: &[u32],
    f: &FunctionType,
) -> Result<FunctionType, AllocError>
    ensures { IfOk result (λ g. function_ty g ≡ renumbered numbers.now (function_ty f.now)) }
{
    let result = renumber(alloc, numbers, &f.result)?;
    let required = renumber_all(alloc, numbers, &f.required)?;
    let optional = renumber_all(alloc, numbers, &f.optional)?;
    let named = renumber_named(alloc, numbers, &f.named)?;
    Ok(FunctionType {
        result,
        required,
        optional,
        named,
    })
}

/// Named parameters with the numbers of the table.
#[cycle(renumbering)]
#[tactic(auto, using(crate::proofs::Views::renumber_views))]
fn renumber_named(
    alloc: Global,
    numbers: &[u32],
    ns: &[NamedType],
) -> Result<Vec<NamedType>, AllocError>
    ensures { IfOk result (λ v. map named_ty v.items ≡ map (λ n. renumbered_parameter numbers.now (named_ty n)) ns.now) }
{
    let mut v = Vec::new(alloc);
    for n in ns {
        v.push(renumber_parameter(alloc, numbers, n)?)?;
    }
    Ok(v)
}

/// A named parameter with the numbers of the table.
#[cycle(renumbering)]
#[tactic(auto, using(crate::proofs::Views::renumber_views))]
fn renumber_parameter(
    alloc: Global,
    numbers: &[u32],
    n: &NamedType,
) -> Result<NamedType, AllocError>
    ensures { IfOk result (λ m. named_ty m ≡ renumbered_parameter numbers.now (named_ty n.now)) }
{
    Ok(NamedType {
        name: n.name,
        of: renumber(alloc, numbers, &n.of)?,
    })
}

/// The bounds of type parameters with the numbers of the table.
pub fn renumber_bounds(
    alloc: Global,
    numbers: &[u32],
    bounds: &[Option<TypeRef>],
) -> Result<Vec<Option<TypeRef>>, AllocError>
    ensures { IfOk result (λ v. map bound_ty v.items ≡ map (renumbered_bound numbers.now) bounds.now) }
{
    let mut v = Vec::new(alloc);
    for bound in bounds {
        v.push(renumber_bound(alloc, numbers, bound)?)?;
    }
    Ok(v)
}

/// A bound, where there is one, with the numbers of the table.
fn renumber_bound(
    alloc: Global,
    numbers: &[u32],
    bound: &Option<TypeRef>,
) -> Result<Option<TypeRef>, AllocError>
    ensures { IfOk result (λ b. bound_ty b ≡ renumbered_bound numbers.now bound.now) }
{
    match bound {
        None => Ok(None),
        Some(t) => Ok(Some(renumber(alloc, numbers, t)?)),
    }
}

/// Adds the types of a header's clause, with the numbers of the table.
pub fn add_header_types(
    alloc: Global,
    numbers: &[u32],
    types: &mut Types,
    named: &[HeaderType],
) -> Result<(), AllocError>
    ensures { OnOk result (map ty types.new.items
        ≡ map ty types.old.items ++ map (λ t. renumbered numbers.now (ty t.of)) named.now) }
{
    for t in named {
        types.push(renumber(alloc, numbers, &t.of)?)?;
    }
    Ok(())
}
