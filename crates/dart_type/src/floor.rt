// Interned types with each `dynamic` replaced by Bottom.
ghost use Rattle.std.specs.Prelude.{◌<◌, ◌≤◌, length, map, IfOk};
ghost use Rattle.dart_type.specs.Relation.{floor};
ghost use Rattle.dart_type.specs.Intern.{types, read, AreBelow, AreNamedBelow, IsOver, IsBuilt, Gives, GivesAll, GivesNamed, node_type};

use crate::intern::{NamedNode, Node, Shape, intern, node_of};
use std::alloc::{AllocError, Global};

/// The number of a type with each `dynamic` replaced by Bottom.
#[cycle(flooring)]
pub fn floor_of(alloc: Global, nodes: &mut Vec<Node>, t: usize) -> Result<usize, AllocError>
    requires built { IsBuilt nodes.old.items }
    requires listed { t < length nodes.old.items }
    ensures { IfOk result (λ i. Gives nodes.old.items nodes.new.items i
        (floor (read (types nodes.old.items) t))) }
{
    match node_of(alloc, nodes, t)? {
        Node::Dynamic => intern(nodes, Node::Bottom),
        Node::Bottom => Ok(t),
        Node::Void => Ok(t),
        Node::Class(c, is) => {
            let low = floor_all(alloc, nodes, &is, t)?;
            intern(nodes, Node::Class(c, low))
        }
        Node::Function(f) => floor_function(alloc, nodes, &f, t),
    }
}

/// The same for each of the numbers, which are all below the end.
#[cycle(flooring)]
fn floor_all(
    alloc: Global,
    nodes: &mut Vec<Node>,
    is: &[usize],
    end: usize,
) -> Result<Vec<usize>, AllocError>
    requires built { IsBuilt nodes.old.items }
    requires listed { end ≤ length nodes.old.items }
    requires below { AreBelow end is.now }
    ensures { IfOk result (λ low. GivesAll nodes.old.items nodes.new.items low.items
        (map (λ i. floor (read (types nodes.old.items) i)) is.now)) }
{
    let mut low = Vec::new(alloc);
    for i in is {
        let j = floor_of(alloc, nodes, *i)?;
        low.push(j)?;
    }
    Ok(low)
}

/// The same for a function type, whose types are all below the end.
#[cycle(flooring)]
fn floor_function(
    alloc: Global,
    nodes: &mut Vec<Node>,
    f: &Shape,
    end: usize,
) -> Result<usize, AllocError>
    requires built { IsBuilt nodes.old.items }
    requires listed { end ≤ length nodes.old.items }
    requires below { IsOver end (Node.Function f.now) }
    ensures { IfOk result (λ i. Gives nodes.old.items nodes.new.items i
        (floor (node_type (types nodes.old.items) (Node.Function f.now)))) }
{
    let result = floor_of(alloc, nodes, f.result)?;
    let required = floor_all(alloc, nodes, &f.required, end)?;
    let optional = floor_all(alloc, nodes, &f.optional, end)?;
    let named = floor_named(alloc, nodes, &f.named, end)?;
    intern(
        nodes,
        Node::Function(Shape {
            result,
            required,
            optional,
            named,
        }),
    )
}

/// The same for named parameters, whose types are all below the end.
#[cycle(flooring)]
fn floor_named(
    alloc: Global,
    nodes: &mut Vec<Node>,
    ns: &[NamedNode],
    end: usize,
) -> Result<Vec<NamedNode>, AllocError>
    requires built { IsBuilt nodes.old.items }
    requires listed { end ≤ length nodes.old.items }
    requires below { AreNamedBelow end ns.now }
    ensures { IfOk result (λ low. GivesNamed nodes.old.items nodes.new.items low.items
        (map (λ n. (n.name, floor (read (types nodes.old.items) n.of))) ns.now)) }
{
    let mut low = Vec::new(alloc);
    for n in ns {
        let j = floor_of(alloc, nodes, n.of)?;
        low.push(NamedNode {
            name: n.name,
            of: j,
        })?;
    }
    Ok(low)
}
