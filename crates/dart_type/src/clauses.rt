// What a comparison of interned types asks for: clauses, each of which holds if one of its comparisons does.
ghost use Rattle.std.specs.Prelude.{◌≡◌, ◌==◌, ◌<◌, ◌+◌, ◌++◌, ◌∷◌, ℕ, List, length, map, filter, IfOk};
ghost use Rattle.dart_ir.specs.Ty.{Ty};
ghost use Rattle.dart_type.specs.Search.{facing, truth};
ghost use Rattle.dart_type.specs.Intern.{types, read, reads, named_reads, node_type, AreBelow, AreNamedBelow, IsOver, IsBuilt};
ghost use Rattle.dart_type.specs.Clauses.{ways_of, clauses_of, AreListed, AllListed, is_void, result_pairs, positional_pairs, named_pairs, rule_pairs};

use crate::intern::{NamedNode, Node, Shape};
use std::alloc::{AllocError, Global};

/// Whether the first type is more specific than the second.
#[derive(Clone, Copy)]
pub struct Comparison {
    pub t: usize,
    pub s: usize,
}

/// Each of the types against s.
pub fn each_below_of(alloc: Global, us: &[usize], s: usize) -> Result<Vec<Comparison>, AllocError>
    ensures { IfOk result (λ ways. ways.items ≡ map (λ u. record { t = u; s = s }) us.now) }
{
    us.iter().map(|u| Comparison { t: *u, s }).collect(alloc)
}

/// Arguments that face each other, or one of the other ways.
pub fn facing_of(
    alloc: Global,
    ts: &[usize],
    ss: &[usize],
    ways: &[Comparison],
) -> Result<Vec<Vec<Comparison>>, AllocError>
    ensures are { IfOk result (λ cs. (us : List Ty) → clauses_of us cs.items
        ≡ facing (reads us ts.now) (reads us ss.now) (ways_of us ways.now)) }
    ensures listed { IfOk result (λ cs. (n : ℕ) → AreBelow n ts.now → AreBelow n ss.now
        → AreListed n ways.now → AllListed n cs.items) }
{
    let mut clauses = Vec::new(alloc);
    let shorter = ts.len().min(ss.len());
    for i in 0..shorter {
        clauses.push(way_or(alloc, Comparison { t: ts[i], s: ss[i] }, ways)?)?;
    }
    if ts.len() == ss.len() {
        return Ok(clauses);
    }
    clauses.push(Vec::from_slice(alloc, ways)?)?;
    Ok(clauses)
}

/// One way before others.
fn way_or(
    alloc: Global,
    first: Comparison,
    others: &[Comparison],
) -> Result<Vec<Comparison>, AllocError>
    ensures { IfOk result (λ ways. ways.items ≡ first ∷ others.now) }
{
    let mut ways = Vec::new(alloc);
    ways.push(first)?;
    ways.extend_from_slice(others)?;
    Ok(ways)
}

/// The pairs of types of which the function rule asks that they are assignable.
pub fn rule_pairs_of(
    alloc: Global,
    nodes: &Vec<Node>,
    f: &Shape,
    g: &Shape,
) -> Result<Vec<Vec<Comparison>>, AllocError>
    requires built { IsBuilt nodes.now.items }
    requires f_over { IsOver (length nodes.now.items) (Node.Function f.now) }
    requires g_over { IsOver (length nodes.now.items) (Node.Function g.now) }
    ensures are { IfOk result (λ cs. clauses_of (types nodes.now.items) cs.items
        ≡ rule_pairs (node_type (types nodes.now.items) (Node.Function f.now))
        (node_type (types nodes.now.items) (Node.Function g.now))) }
    ensures listed { IfOk result (λ cs. AllListed (length nodes.now.items) cs.items) }
{
    let mut clauses = Vec::new(alloc);
    add_result(alloc, nodes, &mut clauses, f.result, g.result)?;
    add_test(alloc, &mut clauses, f.required.len() <= g.required.len())?;
    let ts = positional(alloc, f)?;
    let ss = positional(alloc, g)?;
    add_positional(alloc, &mut clauses, &ts, &ss)?;
    add_named(alloc, &mut clauses, &f.named, &g.named)?;
    Ok(clauses)
}

/// Adds the pair of results, unless the second is void.
fn add_result(
    alloc: Global,
    nodes: &Vec<Node>,
    clauses: &mut Vec<Vec<Comparison>>,
    r: usize,
    s: usize,
) -> Result<(), AllocError>
    requires built { IsBuilt nodes.now.items }
    requires r_listed { r < length nodes.now.items }
    requires s_listed { s < length nodes.now.items }
    ensures are { IfOk result (λ _. clauses_of (types nodes.now.items) clauses.new.items
        ≡ clauses_of (types nodes.now.items) clauses.old.items
        ++ result_pairs (read (types nodes.now.items) r) (read (types nodes.now.items) s)) }
    ensures listed { IfOk result (λ _. AllListed (length nodes.now.items) clauses.old.items
        → AllListed (length nodes.now.items) clauses.new.items) }
{
    if is_void(nodes, s) {
        return Ok(());
    }
    clauses.push(way_or(alloc, Comparison { t: r, s }, &[])?)?;
    Ok(())
}

/// Adds a clause without a way where a test fails.
pub fn add_test(
    alloc: Global,
    clauses: &mut Vec<Vec<Comparison>>,
    holds: bool,
) -> Result<(), AllocError>
    ensures are { IfOk result (λ _. (us : List Ty) → clauses_of us clauses.new.items
        ≡ clauses_of us clauses.old.items ++ truth holds) }
    ensures listed { IfOk result (λ _. (n : ℕ) → AllListed n clauses.old.items
        → AllListed n clauses.new.items) }
{
    if holds {
        return Ok(());
    }
    clauses.push(Vec::new(alloc))?;
    Ok(())
}

/// Whether a type is void.
pub fn is_void(nodes: &Vec<Node>, t: usize) -> bool
    requires built { IsBuilt nodes.now.items }
    requires listed { t < length nodes.now.items }
    ensures { result ≡ is_void (read (types nodes.now.items) t) }
{
    match &nodes[t] {
        Node::Dynamic => false,
        Node::Bottom => false,
        Node::Void => true,
        Node::Class(_, _) => false,
        Node::Function(_) => false,
    }
}

/// The positional parameters of a function type.
fn positional(alloc: Global, f: &Shape) -> Result<Vec<usize>, AllocError>
    ensures { IfOk result (λ is. is.items ≡ f.now.required.items ++ f.now.optional.items) }
{
    let mut is = Vec::from_slice(alloc, &f.required)?;
    is.extend_from_slice(&f.optional)?;
    Ok(is)
}

/// Adds the pairs of positional parameters that face each other.
fn add_positional(
    alloc: Global,
    clauses: &mut Vec<Vec<Comparison>>,
    ts: &[usize],
    ss: &[usize],
) -> Result<(), AllocError>
    ensures are { IfOk result (λ _. (us : List Ty) → clauses_of us clauses.new.items
        ≡ clauses_of us clauses.old.items ++ positional_pairs (reads us ts.now) (reads us ss.now)) }
    ensures listed { IfOk result (λ _. (n : ℕ) → AreBelow n ts.now → AreBelow n ss.now
        → AllListed n clauses.old.items → AllListed n clauses.new.items) }
{
    let shorter = ts.len().min(ss.len());
    for i in 0..shorter {
        clauses.push(way_or(alloc, Comparison { t: ts[i], s: ss[i] }, &[])?)?;
    }
    if ss.len() <= ts.len() {
        return Ok(());
    }
    clauses.push(Vec::new(alloc))?;
    Ok(())
}

/// Adds the pairs of named parameters of one name.
fn add_named(
    alloc: Global,
    clauses: &mut Vec<Vec<Comparison>>,
    ns: &[NamedNode],
    ms: &[NamedNode],
) -> Result<(), AllocError>
    ensures are { IfOk result (λ _. (us : List Ty) → clauses_of us clauses.new.items
        ≡ clauses_of us clauses.old.items ++ named_pairs (named_reads us ns.now)
        (named_reads us ms.now)) }
    ensures listed { IfOk result (λ _. (n : ℕ) → AreNamedBelow n ns.now → AreNamedBelow n ms.now
        → AllListed n clauses.old.items → AllListed n clauses.new.items) }
{
    for m in ms {
        clauses.push(named_ways_of(alloc, ns, *m)?)?;
    }
    Ok(())
}

/// The parameters of that name against the type of this one.
fn named_ways_of(
    alloc: Global,
    ns: &[NamedNode],
    m: NamedNode,
) -> Result<Vec<Comparison>, AllocError>
    ensures { IfOk result (λ ways. ways.items ≡ map (λ n. record { t = n.of; s = m.of })
        (filter (λ n. n.name == m.name) ns.now)) }
{
    ns.iter()
        .filter(|n| n.name == m.name)
        .map(|n| Comparison { t: n.of, s: m.of })
        .collect(alloc)
}
