// Type arguments put in for type parameters, whatever size the types have.
ghost use Rattle.std.specs.Prelude.{◌≡◌, IfOk, map};
ghost use Rattle.dart_ir.specs.Ty.{ty, tys, function_ty, named_ty, parameter};
ghost use Rattle.dart_type.specs.Instance.{instance, named_instance};

use dart_ir::types::{FunctionType, NamedType, TypeRef, Types};
use std::alloc::{AllocError, Global};

/// The type with arguments put in, whatever its size.
#[cycle(instantiating)]
#[tactic(auto, using(dart_type::proofs::Instances::instance_views))]
fn put_in(alloc: Global, t: &TypeRef, args: &[TypeRef]) -> Result<TypeRef, AllocError>
    ensures { IfOk result (λ u. ty u ≡ instance (tys args.now) (ty t.now)) }
{
    match t {
        TypeRef::Dynamic => Ok(TypeRef::Dynamic),
        TypeRef::Bottom => Ok(TypeRef::Bottom),
        TypeRef::Void => Ok(TypeRef::Void),
        TypeRef::Class(c, ts) => Ok(TypeRef::Class(*c, put_in_all(alloc, ts, args)?)),
        TypeRef::Param(i) => argument(alloc, args, *i as usize),
        TypeRef::Function(f) => Ok(TypeRef::Function(Box::new(
            alloc,
            put_in_function(alloc, f, args)?,
        )?)),
    }
}

/// The types of a list with arguments put in.
#[cycle(instantiating)]
#[tactic(auto, using(dart_type::proofs::Instances::instance_views))]
fn put_in_all(alloc: Global, ts: &[TypeRef], args: &[TypeRef]) -> Result<Types, AllocError>
    ensures { IfOk result (λ v.
        map ty v.items ≡ map (λ t. instance (tys args.now) (ty t)) ts.now) }
{
    let mut v = Vec::new(alloc);
    for t in ts {
        v.push(put_in(alloc, t, args)?)?;
    }
    Ok(v)
}

/// A function type with arguments put in.
#[cycle(instantiating)]
#[tactic(auto, using(dart_type::proofs::Instances::instance_views))]
pub fn put_in_function(
    alloc: Global,
    f: &FunctionType,
    args: &[TypeRef],
) -> Result<FunctionType, AllocError>
    ensures { IfOk result (λ g. function_ty g ≡ instance (tys args.now) (function_ty f.now)) }
{
    let result = put_in(alloc, &f.result, args)?;
    let required = put_in_all(alloc, &f.required, args)?;
    let optional = put_in_all(alloc, &f.optional, args)?;
    let named = put_in_named(alloc, &f.named, args)?;
    Ok(FunctionType {
        result,
        required,
        optional,
        named,
    })
}

/// Named parameters with arguments put in.
#[cycle(instantiating)]
#[tactic(auto, using(dart_type::proofs::Instances::instance_views))]
fn put_in_named(
    alloc: Global,
    ns: &[NamedType],
    args: &[TypeRef],
) -> Result<Vec<NamedType>, AllocError>
    ensures { IfOk result (λ v.
        map named_ty v.items ≡ map (λ n. named_instance (tys args.now) (named_ty n)) ns.now) }
{
    let mut v = Vec::new(alloc);
    for n in ns {
        v.push(put_in_parameter(alloc, n, args)?)?;
    }
    Ok(v)
}

/// A named parameter with arguments put in.
#[cycle(instantiating)]
#[tactic(auto, using(dart_type::proofs::Instances::instance_views))]
fn put_in_parameter(alloc: Global, n: &NamedType, args: &[TypeRef]) -> Result<NamedType, AllocError>
    ensures { IfOk result (λ m. named_ty m ≡ named_instance (tys args.now) (named_ty n.now)) }
{
    Ok(NamedType {
        name: n.name,
        of: put_in(alloc, &n.of, args)?,
    })
}

/// A copy of the argument at a place, or `dynamic` past the end.
#[tactic(auto, using(dart_type::proofs::Instances::instance_views))]
fn argument(alloc: Global, args: &[TypeRef], i: usize) -> Result<TypeRef, AllocError>
    ensures { IfOk result (λ u. ty u ≡ instance (tys args.now) (parameter i)) }
{
    match args.get(i) {
        Some(t) => Ok(t.try_clone(alloc)?),
        None => Ok(TypeRef::Dynamic),
    }
}
