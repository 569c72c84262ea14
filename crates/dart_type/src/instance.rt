// Type arguments put in for the parameters of a type.
ghost use Rattle.std.specs.Prelude.{◌≡◌, ◌+◌, ◌<◌, ◌≤◌, IfOk, OnOk, MatchOption, map};
ghost use Rattle.dart_ir.specs.Ty.{ty, tys, function_ty, named_ty, named_tys, parameter};
ghost use Rattle.dart_type.specs.Instance.{instance, named_instance, node_count, node_counts, named_node_count};

use dart_base::limit::TYPE_NODES;
use dart_ir::types::{FunctionType, NamedType, TypeRef, Types};
use std::alloc::{AllocError, Global};
use thiserror::Error;

/// Why a type has no instance.
#[derive(Debug, Drop, PartialEq, Eq, Error)]
pub enum TypeFault {
    /// The instance has more than `TYPE_NODES` nodes.
    #[error("a type with too many nodes")]
    TooLarge,
    /// Memory ran out.
    #[error("out of memory")]
    Memory,
}

impl From<AllocError> for TypeFault {
    ghost use Rattle.std.specs.Prelude.{◌≡◌};
    ghost use Rattle.dart_type.specs.declared.instance.TypeFault.TheVariants.{Memory};

    ghost from_gives = { λ _ fault. fault ≡ Memory };

    fn from(_: AllocError) -> Self {
        TypeFault::Memory
    }
}

/// The type with the arguments in the places of its parameters, the first argument for parameter 0. A parameter
/// without an argument counts as `dynamic`. `TooLarge` comes where the instance has more than `TYPE_NODES` nodes.
pub fn instantiate(alloc: Global, t: &TypeRef, args: &[TypeRef]) -> Result<TypeRef, TypeFault>
    ensures value { IfOk result (λ made. ty made ≡ instance (tys args.now) (ty t.now)) }
    ensures fits { OnOk result (node_count (instance (tys args.now) (ty t.now)) ≤ TYPE_NODES) }
    ensures too_large { result ≡ Err TypeFault.TooLarge
        → TYPE_NODES < node_count (instance (tys args.now) (ty t.now)) }
{
    let u = put_in(alloc, t, args)?;
    match room_after(&u, TYPE_NODES) {
        Some(_) => Ok(u),
        None => Err(TypeFault::TooLarge),
    }
}

/// The type with arguments put in, whatever its size.
#[cycle(instantiating)]
#[tactic(auto, using(crate::proofs::Instances::instance_views))]
fn put_in(alloc: Global, t: &TypeRef, args: &[TypeRef]) -> Result<TypeRef, AllocError>
    ensures { IfOk result (λ u. ty u ≡ instance (tys args.now) (ty t.now)) }
{
    match t {
        TypeRef::Dynamic => Ok(TypeRef::Dynamic),
        TypeRef::Bottom => Ok(TypeRef::Bottom),
        TypeRef::Void => Ok(TypeRef::Void),
        TypeRef::Class(c, ts) => Ok(TypeRef::Class(*c, put_in_all(alloc, ts, args)?)),
        TypeRef::Param(i) => argument(alloc, args, *i as usize),
        TypeRef::Function(f) => Ok(TypeRef::Function(Box::new(
            alloc,
            put_in_function(alloc, f, args)?,
        )?)),
    }
}

/// The types of a list with arguments put in.
#[cycle(instantiating)]
#[tactic(auto, using(crate::proofs::Instances::instance_views))]
fn put_in_all(alloc: Global, ts: &[TypeRef], args: &[TypeRef]) -> Result<Types, AllocError>
    ensures { IfOk result (λ v.
        map ty v.items ≡ map (λ t. instance (tys args.now) (ty t)) ts.now) }
{
    let mut v = Vec::new(alloc);
    for t in ts {
        v.push(put_in(alloc, t, args)?)?;
    }
    Ok(v)
}

/// A function type with arguments put in.
#[cycle(instantiating)]
#[tactic(auto, using(crate::proofs::Instances::instance_views))]
fn put_in_function(
    alloc: Global,
    f: &FunctionType,
    args: &[TypeRef],
) -> Result<FunctionType, AllocError>
    ensures { IfOk result (λ g. function_ty g ≡ instance (tys args.now) (function_ty f.now)) }
{
    let result = put_in(alloc, &f.result, args)?;
    let required = put_in_all(alloc, &f.required, args)?;
    let optional = put_in_all(alloc, &f.optional, args)?;
    let named = put_in_named(alloc, &f.named, args)?;
    Ok(FunctionType {
        result,
        required,
        optional,
        named,
    })
}

/// Named parameters with arguments put in.
#[cycle(instantiating)]
#[tactic(auto, using(crate::proofs::Instances::instance_views))]
fn put_in_named(
    alloc: Global,
    ns: &[NamedType],
    args: &[TypeRef],
) -> Result<Vec<NamedType>, AllocError>
    ensures { IfOk result (λ v.
        map named_ty v.items ≡ map (λ n. named_instance (tys args.now) (named_ty n)) ns.now) }
{
    let mut v = Vec::new(alloc);
    for n in ns {
        v.push(put_in_parameter(alloc, n, args)?)?;
    }
    Ok(v)
}

/// A named parameter with arguments put in.
#[cycle(instantiating)]
#[tactic(auto, using(crate::proofs::Instances::instance_views))]
fn put_in_parameter(alloc: Global, n: &NamedType, args: &[TypeRef]) -> Result<NamedType, AllocError>
    ensures { IfOk result (λ m. named_ty m ≡ named_instance (tys args.now) (named_ty n.now)) }
{
    Ok(NamedType {
        name: n.name,
        of: put_in(alloc, &n.of, args)?,
    })
}

/// A copy of the argument at a place, or `dynamic` past the end.
#[tactic(auto, using(crate::proofs::Instances::instance_views))]
fn argument(alloc: Global, args: &[TypeRef], i: usize) -> Result<TypeRef, AllocError>
    ensures { IfOk result (λ u. ty u ≡ instance (tys args.now) (parameter i)) }
{
    match args.get(i) {
        Some(t) => Ok(t.try_clone(alloc)?),
        None => Ok(TypeRef::Dynamic),
    }
}

/// What is left of the room after the nodes of a type, if they fit.
#[cycle(measuring)]
#[tactic(auto, using(dart_ir::proofs::View::views))]
fn room_after(t: &TypeRef, room: usize) -> Option<usize>
    ensures { MatchOption result (room < node_count (ty t.now))
        (λ left. left + node_count (ty t.now) ≡ room) }
{
    if room == 0 {
        return None;
    }
    match t {
        TypeRef::Dynamic => Some(room - 1),
        TypeRef::Bottom => Some(room - 1),
        TypeRef::Void => Some(room - 1),
        TypeRef::Class(_, ts) => room_after_all(ts, room - 1),
        TypeRef::Param(_) => Some(room - 1),
        TypeRef::Function(f) => room_after_function(f, room),
    }
}

/// The same for the types of a list.
#[cycle(measuring)]
#[tactic(auto, using(dart_ir::proofs::View::views))]
fn room_after_all(ts: &[TypeRef], room: usize) -> Option<usize>
    ensures { MatchOption result (room < node_counts (tys ts.now))
        (λ left. left + node_counts (tys ts.now) ≡ room) }
{
    let mut left = room;
    for t in ts {
        left = room_after(t, left)?;
    }
    Some(left)
}

/// The same for a function type.
#[cycle(measuring)]
#[tactic(auto, using(dart_ir::proofs::View::views))]
fn room_after_function(f: &FunctionType, room: usize) -> Option<usize>
    requires { 0 < room }
    ensures { MatchOption result (room < node_count (function_ty f.now))
        (λ left. left + node_count (function_ty f.now) ≡ room) }
{
    let room = room_after(&f.result, room - 1)?;
    let room = room_after_all(&f.required, room)?;
    let room = room_after_all(&f.optional, room)?;
    room_after_named(&f.named, room)
}

/// The same for named parameters.
#[cycle(measuring)]
#[tactic(auto, using(dart_ir::proofs::View::views))]
fn room_after_named(ns: &[NamedType], room: usize) -> Option<usize>
    ensures { MatchOption result (room < named_node_count (named_tys ns.now))
        (λ left. left + named_node_count (named_tys ns.now) ≡ room) }
{
    let mut left = room;
    for n in ns {
        left = room_after_parameter(n, left)?;
    }
    Some(left)
}

/// The same for a named parameter.
#[cycle(measuring)]
#[tactic(auto, using(dart_ir::proofs::View::views))]
fn room_after_parameter(n: &NamedType, room: usize) -> Option<usize>
    ensures { MatchOption result (room < node_count (named_ty n.now).1)
        (λ left. left + node_count (named_ty n.now).1 ≡ room) }
{
    room_after(&n.of, room)
}
