// Interned types: each type once, as a node over the numbers of others, so that types are equal where their numbers are.
ghost use Rattle.std.specs.Prelude.{◌≡◌, ◌<◌, List, length, IfOk, IfSome, IsTrue, slice_index_or};
ghost use Rattle.dart_ir.specs.Ty.{Ty};
ghost use Rattle.dart_type.specs.Intern.{types, node_type, IsOver, IsBuilt, IsNodeOf, Gives};

use std::alloc::{AllocError, Global};

/// A type over the numbers of the types in it.
#[derive(Drop)]
pub enum Node {
    Dynamic,
    Bottom,
    Void,
    Class(u32, Vec<usize>),
    Function(Shape),
}

/// A function type over the numbers of the types in it.
#[derive(Drop)]
pub struct Shape {
    pub result: usize,
    pub required: Vec<usize>,
    pub optional: Vec<usize>,
    pub named: Vec<NamedNode>,
}

/// A named parameter and the number of its type.
#[derive(Clone, Copy)]
pub struct NamedNode {
    pub name: u32,
    pub of: usize,
}

/// The number of a node: that of an equal one, or a new number.
pub fn intern(nodes: &mut Vec<Node>, node: Node) -> Result<usize, AllocError>
    requires built { IsBuilt nodes.old.items }
    requires over { IsOver (length nodes.old.items) node }
    ensures { IfOk result (λ i. Gives nodes.old.items nodes.new.items i
        (node_type (types nodes.old.items) node)) }
{
    match position_of(nodes, &node) {
        Some(i) => Ok(i),
        None => {
            let i = nodes.len();
            nodes.push(node)?;
            Ok(i)
        }
    }
}

/// The place of an equal node.
fn position_of(nodes: &[Node], node: &Node) -> Option<usize>
    ensures { IfSome result (λ i. (i < length nodes.now)
        × ((ts : List Ty) → node_type ts (slice_index_or nodes.now i node.now)
        ≡ node_type ts node.now)) }
{
    for i in 0..nodes.len() {
        if is_same(&nodes[i], node) {
            return Some(i);
        }
    }
    None
}

/// Whether two nodes are the same type over the same numbers.
fn is_same(a: &Node, b: &Node) -> bool
    ensures { IsTrue result → (ts : List Ty) → node_type ts a.now ≡ node_type ts b.now }
{
    match (a, b) {
        (Node::Dynamic, Node::Dynamic) => true,
        (Node::Bottom, Node::Bottom) => true,
        (Node::Void, Node::Void) => true,
        (Node::Class(c, ts), Node::Class(d, us)) => *c == *d && ts.as_slice() == us.as_slice(),
        (Node::Function(f), Node::Function(g)) => is_same_shape(f, g),
        _ => false,
    }
}

fn is_same_shape(f: &Shape, g: &Shape) -> bool
    ensures { IsTrue result → (ts : List Ty) → node_type ts (Node.Function f.now)
        ≡ node_type ts (Node.Function g.now) }
{
    if f.result != g.result || f.required.as_slice() != g.required.as_slice() {
        return false;
    }
    if f.optional.as_slice() != g.optional.as_slice() {
        return false;
    }
    are_same_named(&f.named, &g.named)
}

fn are_same_named(ns: &[NamedNode], ms: &[NamedNode]) -> bool
    ensures { IsTrue result → ns.now ≡ ms.now }
{
    if ns.len() != ms.len() {
        return false;
    }
    for i in 0..ns.len() {
        if !is_same_named(ns[i], ms[i]) {
            return false;
        }
    }
    true
}

fn is_same_named(n: NamedNode, m: NamedNode) -> bool
    ensures { IsTrue result → n ≡ m }
{
    n.name == m.name && n.of == m.of
}

/// A copy of the node of a number.
pub fn node_of(alloc: Global, nodes: &Vec<Node>, t: usize) -> Result<Node, AllocError>
    requires built { IsBuilt nodes.now.items }
    requires listed { t < length nodes.now.items }
    ensures { IfOk result (λ n. IsNodeOf nodes.now.items t n) }
{
    nodes[t].try_clone(alloc)
}

impl Node {
    ghost use Rattle.dart_type.specs.Intern.{IsCopy};

    fn try_clone(&self, alloc: Global) -> Result<Self, AllocError>
        ensures { IfOk result (λ copy. IsCopy self.now copy) }
    {
        match self {
            Node::Dynamic => Ok(Node::Dynamic),
            Node::Bottom => Ok(Node::Bottom),
            Node::Void => Ok(Node::Void),
            Node::Class(c, ts) => Ok(Node::Class(*c, Vec::from_slice(alloc, ts)?)),
            Node::Function(f) => Ok(Node::Function(f.try_clone(alloc)?)),
        }
    }
}

impl Shape {
    ghost use Rattle.dart_type.specs.Intern.{IsCopy};

    fn try_clone(&self, alloc: Global) -> Result<Self, AllocError>
        ensures { IfOk result (λ copy. IsCopy (Node.Function self.now) (Node.Function copy)) }
    {
        let required = Vec::from_slice(alloc, &self.required)?;
        let optional = Vec::from_slice(alloc, &self.optional)?;
        let named = Vec::from_slice(alloc, &self.named)?;
        Ok(Shape {
            result: self.result,
            required,
            optional,
            named,
        })
    }
}
