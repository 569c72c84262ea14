// Types of the program put into the list of interned ones.
ghost use Rattle.std.specs.Prelude.{length, map, IfOk};
ghost use Rattle.dart_ir.specs.Ty.{ty, function_ty, named_ty, parameter};
ghost use Rattle.dart_type.specs.Instance.{instance, named_instance};
ghost use Rattle.dart_type.specs.Intern.{types, reads, AreBelow, IsBuilt, Gives, GivesAll, GivesNamed};

use crate::intern::{NamedNode, Node, Shape, intern};
use dart_ir::types::{FunctionType, NamedType, TypeRef};
use std::alloc::{AllocError, Global};

/// The number of a type with the arguments put in for its parameters.
#[cycle(entering)]
pub fn enter(
    alloc: Global,
    nodes: &mut Vec<Node>,
    t: &TypeRef,
    args: &[usize],
) -> Result<usize, AllocError>
    requires built { IsBuilt nodes.old.items }
    requires listed { AreBelow (length nodes.old.items) args.now }
    ensures { IfOk result (λ i. Gives nodes.old.items nodes.new.items i
        (instance (reads (types nodes.old.items) args.now) (ty t.now))) }
{
    match t {
        TypeRef::Dynamic => intern(nodes, Node::Dynamic),
        TypeRef::Bottom => intern(nodes, Node::Bottom),
        TypeRef::Void => intern(nodes, Node::Void),
        TypeRef::Class(c, ts) => {
            let is = enter_all(alloc, nodes, ts, args)?;
            intern(nodes, Node::Class(c.0, is))
        }
        TypeRef::Param(i) => argument(nodes, args, *i as usize),
        TypeRef::Function(f) => enter_function(alloc, nodes, f, args),
    }
}

/// The numbers of the types of a list.
#[cycle(entering)]
pub fn enter_all(
    alloc: Global,
    nodes: &mut Vec<Node>,
    ts: &[TypeRef],
    args: &[usize],
) -> Result<Vec<usize>, AllocError>
    requires built { IsBuilt nodes.old.items }
    requires listed { AreBelow (length nodes.old.items) args.now }
    ensures { IfOk result (λ is. GivesAll nodes.old.items nodes.new.items is.items
        (map (λ t. instance (reads (types nodes.old.items) args.now) (ty t)) ts.now)) }
{
    let mut is = Vec::new(alloc);
    for t in ts {
        let i = enter(alloc, nodes, t, args)?;
        is.push(i)?;
    }
    Ok(is)
}

/// The number of a function type.
#[cycle(entering)]
fn enter_function(
    alloc: Global,
    nodes: &mut Vec<Node>,
    f: &FunctionType,
    args: &[usize],
) -> Result<usize, AllocError>
    requires built { IsBuilt nodes.old.items }
    requires listed { AreBelow (length nodes.old.items) args.now }
    ensures { IfOk result (λ i. Gives nodes.old.items nodes.new.items i
        (instance (reads (types nodes.old.items) args.now) (function_ty f.now))) }
{
    let result = enter(alloc, nodes, &f.result, args)?;
    let required = enter_all(alloc, nodes, &f.required, args)?;
    let optional = enter_all(alloc, nodes, &f.optional, args)?;
    let named = enter_named(alloc, nodes, &f.named, args)?;
    intern(
        nodes,
        Node::Function(Shape {
            result,
            required,
            optional,
            named,
        }),
    )
}

/// Named parameters with the numbers of their types.
#[cycle(entering)]
fn enter_named(
    alloc: Global,
    nodes: &mut Vec<Node>,
    ns: &[NamedType],
    args: &[usize],
) -> Result<Vec<NamedNode>, AllocError>
    requires built { IsBuilt nodes.old.items }
    requires listed { AreBelow (length nodes.old.items) args.now }
    ensures { IfOk result (λ is. GivesNamed nodes.old.items nodes.new.items is.items
        (map (λ n. named_instance (reads (types nodes.old.items) args.now) (named_ty n)) ns.now)) }
{
    let mut is = Vec::new(alloc);
    for n in ns {
        let i = enter_parameter(alloc, nodes, n, args)?;
        is.push(NamedNode {
            name: n.name.0,
            of: i,
        })?;
    }
    Ok(is)
}

/// The number of the type of a named parameter.
#[cycle(entering)]
fn enter_parameter(
    alloc: Global,
    nodes: &mut Vec<Node>,
    n: &NamedType,
    args: &[usize],
) -> Result<usize, AllocError>
    requires built { IsBuilt nodes.old.items }
    requires listed { AreBelow (length nodes.old.items) args.now }
    ensures { IfOk result (λ i. Gives nodes.old.items nodes.new.items i
        (named_instance (reads (types nodes.old.items) args.now) (named_ty n.now)).1) }
{
    enter(alloc, nodes, &n.of, args)
}

/// The argument at a place, or `dynamic` past the end.
fn argument(nodes: &mut Vec<Node>, args: &[usize], i: usize) -> Result<usize, AllocError>
    requires built { IsBuilt nodes.old.items }
    requires listed { AreBelow (length nodes.old.items) args.now }
    ensures { IfOk result (λ j. Gives nodes.old.items nodes.new.items j
        (instance (reads (types nodes.old.items) args.now) (parameter i))) }
{
    match args.get(i) {
        Some(j) => Ok(*j),
        None => intern(nodes, Node::Dynamic),
    }
}
