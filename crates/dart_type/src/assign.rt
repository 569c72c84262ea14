// Pairs of types that are to be assignable, as comparisons.
ghost use Rattle.std.specs.Prelude.{◌<◌, length, IfOk};
ghost use Rattle.dart_type.specs.Intern.{types, IsBuilt};
ghost use Rattle.dart_type.specs.Clauses.{ways_of, clauses_of, assign_ways, assign_clauses, AreListed, AllListed, GivesWays, GivesClauses};

use crate::clauses::Comparison;
use crate::floor::floor_of;
use crate::intern::Node;
use std::alloc::{AllocError, Global};

/// For each pair of each clause, the comparisons one of which makes it assignable.
pub fn assign_all(
    alloc: Global,
    nodes: &mut Vec<Node>,
    clauses: &[Vec<Comparison>],
) -> Result<Vec<Vec<Comparison>>, AllocError>
    requires built { IsBuilt nodes.old.items }
    requires listed { AllListed (length nodes.old.items) clauses.now }
    ensures { IfOk result (λ cs. GivesClauses nodes.old.items nodes.new.items cs.items
        (assign_clauses (clauses_of (types nodes.old.items) clauses.now))) }
{
    let mut made = Vec::new(alloc);
    for pairs in clauses {
        let ways = assign_each(alloc, nodes, pairs)?;
        made.push(ways)?;
    }
    Ok(made)
}

/// The comparisons that make one of the pairs assignable.
fn assign_each(
    alloc: Global,
    nodes: &mut Vec<Node>,
    pairs: &[Comparison],
) -> Result<Vec<Comparison>, AllocError>
    requires built { IsBuilt nodes.old.items }
    requires listed { AreListed (length nodes.old.items) pairs.now }
    ensures { IfOk result (λ ws. GivesWays nodes.old.items nodes.new.items ws.items
        (assign_ways (ways_of (types nodes.old.items) pairs.now))) }
{
    let mut ways = Vec::new(alloc);
    for pair in pairs {
        let t = floor_of(alloc, nodes, pair.t)?;
        let s = floor_of(alloc, nodes, pair.s)?;
        ways.push(Comparison { t, s: pair.s })?;
        ways.push(Comparison { t: s, s: pair.t })?;
    }
    Ok(ways)
}
