// The clauses of a comparison of two interned types.
ghost use Rattle.std.specs.Prelude.{◌≡◌, ◌<◌, [], ◌∷◌, length, IfOk};
ghost use Rattle.dart_ir.specs.Ty.{class};
ghost use Rattle.dart_type.specs.Relation.{table_of, call_in};
ghost use Rattle.dart_ir.specs.Classes.{class_at};
ghost use Rattle.dart_type.specs.Search.{above, each_below, goals, to_class, truth};
ghost use Rattle.dart_type.specs.Intern.{types, read, reads, node_type, AreBelow, IsOver, IsBuilt};
ghost use Rattle.dart_type.specs.Clauses.{is_bottom, GivesWays, GivesClauses};

use crate::above::above_of;
use crate::assign::assign_all;
use crate::clauses::{Comparison, add_test, each_below_of, facing_of, is_void, rule_pairs_of};
use crate::intern::{Node, Shape, node_of};
use dart_ir::class::Classes;
use std::alloc::{AllocError, Global};

/// The clauses of a comparison: t is more specific than s exactly where in each of them one of the comparisons holds.
pub fn goals_of(
    alloc: Global,
    classes: &Classes,
    nodes: &mut Vec<Node>,
    t: usize,
    s: usize,
) -> Result<Vec<Vec<Comparison>>, AllocError>
    requires built { IsBuilt nodes.old.items }
    requires t_listed { t < length nodes.old.items }
    requires s_listed { s < length nodes.old.items }
    ensures { IfOk result (λ cs. GivesClauses nodes.old.items nodes.new.items cs.items
        (goals (table_of classes.now) (read (types nodes.old.items) t)
        (read (types nodes.old.items) s))) }
{
    match node_of(alloc, nodes, s)? {
        Node::Dynamic => Ok(Vec::new(alloc)),
        Node::Bottom => test(alloc, nodes, is_bottom(nodes, t)),
        Node::Void => test(alloc, nodes, is_bottom(nodes, t) || is_void(nodes, t)),
        Node::Class(d, ss) => class_goals(alloc, classes, nodes, t, s, d, &ss),
        Node::Function(g) => function_goals(alloc, classes, nodes, t, &g, s),
    }
}

/// No clause where the test holds, and else one that nothing meets.
fn test(alloc: Global, nodes: &Vec<Node>, holds: bool) -> Result<Vec<Vec<Comparison>>, AllocError>
    requires { IsBuilt nodes.now.items }
    ensures { IfOk result (λ cs. GivesClauses nodes.now.items nodes.now.items cs.items
        (truth holds)) }
{
    let mut clauses = Vec::new(alloc);
    add_test(alloc, &mut clauses, holds)?;
    Ok(clauses)
}

/// Whether a type is Bottom.
fn is_bottom(nodes: &Vec<Node>, t: usize) -> bool
    requires built { IsBuilt nodes.now.items }
    requires listed { t < length nodes.now.items }
    ensures { result ≡ is_bottom (read (types nodes.now.items) t) }
{
    match &nodes[t] {
        Node::Dynamic => false,
        Node::Bottom => true,
        Node::Void => false,
        Node::Class(_, _) => false,
        Node::Function(_) => false,
    }
}

/// The types directly above t, each against s.
fn ways_up(
    alloc: Global,
    classes: &Classes,
    nodes: &mut Vec<Node>,
    t: usize,
    s: usize,
) -> Result<Vec<Comparison>, AllocError>
    requires built { IsBuilt nodes.old.items }
    requires t_listed { t < length nodes.old.items }
    requires s_listed { s < length nodes.old.items }
    ensures { IfOk result (λ ws. GivesWays nodes.old.items nodes.new.items ws.items
        (each_below (above (table_of classes.now) (read (types nodes.old.items) t))
        (read (types nodes.old.items) s))) }
{
    let us = above_of(alloc, classes, nodes, t)?;
    each_below_of(alloc, &us, s)
}

/// One clause.
fn one_clause(alloc: Global, ways: Vec<Comparison>) -> Result<Vec<Vec<Comparison>>, AllocError>
    ensures { IfOk result (λ cs. cs.items ≡ ways ∷ []) }
{
    let mut clauses = Vec::new(alloc);
    clauses.push(ways)?;
    Ok(clauses)
}

/// The clauses of a comparison with class d with the arguments ss, whose number is s.
fn class_goals(
    alloc: Global,
    classes: &Classes,
    nodes: &mut Vec<Node>,
    t: usize,
    s: usize,
    d: u32,
    ss: &[usize],
) -> Result<Vec<Vec<Comparison>>, AllocError>
    requires built { IsBuilt nodes.old.items }
    requires t_listed { t < length nodes.old.items }
    requires s_listed { s < length nodes.old.items }
    requires ss_listed { AreBelow (length nodes.old.items) ss.now }
    requires s_is { read (types nodes.old.items) s
        ≡ class d (reads (types nodes.old.items) ss.now) }
    ensures { IfOk result (λ cs. GivesClauses nodes.old.items nodes.new.items cs.items
        (to_class (table_of classes.now) d (reads (types nodes.old.items) ss.now)
        (read (types nodes.old.items) t))) }
{
    match node_of(alloc, nodes, t)? {
        Node::Bottom => Ok(Vec::new(alloc)),
        Node::Dynamic => test(alloc, nodes, false),
        Node::Void => test(alloc, nodes, false),
        Node::Class(c, ts) => {
            let ways = ways_up(alloc, classes, nodes, t, s)?;
            if c == d {
                return facing_of(alloc, &ts, ss, &ways);
            }
            one_clause(alloc, ways)
        }
        Node::Function(_) => {
            let ways = ways_up(alloc, classes, nodes, t, s)?;
            one_clause(alloc, ways)
        }
    }
}

/// The clauses of a comparison with a function type, whose number is s.
fn function_goals(
    alloc: Global,
    classes: &Classes,
    nodes: &mut Vec<Node>,
    t: usize,
    g: &Shape,
    s: usize,
) -> Result<Vec<Vec<Comparison>>, AllocError>
    requires built { IsBuilt nodes.old.items }
    requires t_listed { t < length nodes.old.items }
    requires s_listed { s < length nodes.old.items }
    requires over { IsOver s (Node.Function g.now) }
    ensures { IfOk result (λ cs. GivesClauses nodes.old.items nodes.new.items cs.items
        (goals (table_of classes.now) (read (types nodes.old.items) t)
        (node_type (types nodes.old.items) (Node.Function g.now)))) }
{
    match node_of(alloc, nodes, t)? {
        Node::Bottom => Ok(Vec::new(alloc)),
        Node::Dynamic => test(alloc, nodes, false),
        Node::Void => test(alloc, nodes, false),
        Node::Class(c, _) => test(alloc, nodes, has_call(classes, c)),
        Node::Function(f) => {
            let pairs = rule_pairs_of(alloc, nodes, &f, g)?;
            assign_all(alloc, nodes, &pairs)
        }
    }
}

/// Whether a class has a method `call`.
fn has_call(classes: &Classes, c: u32) -> bool
    ensures { result ≡ call_in (class_at classes.now c) }
{
    match classes.classes.get(c as usize) {
        None => false,
        Some(info) => info.callable,
    }
}
