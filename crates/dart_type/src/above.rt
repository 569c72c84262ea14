// The types directly above an interned type.
ghost use Rattle.std.specs.Prelude.{◌<◌, [], length, map, IfOk};
ghost use Rattle.dart_ir.specs.Ty.{ty, class};
ghost use Rattle.dart_ir.specs.Classes.{direct_supertypes, with_superclass};
ghost use Rattle.dart_type.specs.Instance.{instance};
ghost use Rattle.dart_type.specs.Relation.{table_of};
ghost use Rattle.dart_type.specs.Search.{above, if_call};
ghost use Rattle.dart_type.specs.Intern.{types, read, reads, AreBelow, IsBuilt, GivesAll};
ghost use Rattle.dart_type.specs.Clauses.{GivesTys};

use crate::enter::{enter, enter_all};
use crate::intern::{Node, intern, node_of};
use dart_ir::class::{ClassInfo, Classes};
use dart_ir::types::TypeRef;
use std::alloc::{AllocError, Global};

/// The numbers of the types directly above a type.
pub fn above_of(
    alloc: Global,
    classes: &Classes,
    nodes: &mut Vec<Node>,
    t: usize,
) -> Result<Vec<usize>, AllocError>
    requires built { IsBuilt nodes.old.items }
    requires listed { t < length nodes.old.items }
    ensures { IfOk result (λ us. GivesTys nodes.old.items nodes.new.items us.items
        (above (table_of classes.now) (read (types nodes.old.items) t))) }
{
    match node_of(alloc, nodes, t)? {
        Node::Dynamic => Ok(Vec::new(alloc)),
        Node::Bottom => Ok(Vec::new(alloc)),
        Node::Void => Ok(Vec::new(alloc)),
        Node::Class(c, ts) => above_class(alloc, classes, nodes, c, &ts),
        Node::Function(_) => function_class(alloc, nodes, true, classes.function.0),
    }
}

/// The numbers of the types directly above a class with these arguments.
fn above_class(
    alloc: Global,
    classes: &Classes,
    nodes: &mut Vec<Node>,
    c: u32,
    ts: &[usize],
) -> Result<Vec<usize>, AllocError>
    requires built { IsBuilt nodes.old.items }
    requires listed { AreBelow (length nodes.old.items) ts.now }
    ensures { IfOk result (λ us. GivesTys nodes.old.items nodes.new.items us.items
        (above (table_of classes.now) (class c (reads (types nodes.old.items) ts.now)))) }
{
    match classes.classes.get(c as usize) {
        None => Ok(Vec::new(alloc)),
        Some(info) => {
            let mut us = supertypes(alloc, nodes, info, ts)?;
            let calls = function_class(alloc, nodes, info.callable, classes.function.0)?;
            us.extend_from_slice(&calls)?;
            Ok(us)
        }
    }
}

/// The numbers of the direct supertypes of a class with these arguments.
fn supertypes(
    alloc: Global,
    nodes: &mut Vec<Node>,
    info: &ClassInfo,
    ts: &[usize],
) -> Result<Vec<usize>, AllocError>
    requires built { IsBuilt nodes.old.items }
    requires listed { AreBelow (length nodes.old.items) ts.now }
    ensures { IfOk result (λ us. GivesAll nodes.old.items nodes.new.items us.items
        (map (λ t. instance (reads (types nodes.old.items) ts.now) (ty t))
        (direct_supertypes info.now))) }
{
    let mut us = superclass(alloc, nodes, &info.superclass, ts)?;
    let interfaces = enter_all(alloc, nodes, &info.interfaces, ts)?;
    us.extend_from_slice(&interfaces)?;
    Ok(us)
}

/// The number of the superclass, where there is one.
fn superclass(
    alloc: Global,
    nodes: &mut Vec<Node>,
    superclass: &Option<TypeRef>,
    ts: &[usize],
) -> Result<Vec<usize>, AllocError>
    requires built { IsBuilt nodes.old.items }
    requires listed { AreBelow (length nodes.old.items) ts.now }
    ensures { IfOk result (λ us. GivesAll nodes.old.items nodes.new.items us.items
        (map (λ t. instance (reads (types nodes.old.items) ts.now) (ty t))
        (with_superclass superclass.now []))) }
{
    let mut us = Vec::new(alloc);
    match superclass {
        None => Ok(us),
        Some(u) => {
            let i = enter(alloc, nodes, u, ts)?;
            us.push(i)?;
            Ok(us)
        }
    }
}

/// The number of the class `Function`, for what may be called.
fn function_class(
    alloc: Global,
    nodes: &mut Vec<Node>,
    callable: bool,
    function: u32,
) -> Result<Vec<usize>, AllocError>
    requires { IsBuilt nodes.old.items }
    ensures { IfOk result (λ us. GivesTys nodes.old.items nodes.new.items us.items
        (if_call callable function)) }
{
    let mut us = Vec::new(alloc);
    if callable {
        let i = intern(nodes, Node::Class(function, Vec::new(alloc)))?;
        us.push(i)?;
    }
    Ok(us)
}
