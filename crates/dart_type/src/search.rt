// The search: a comparison holds where its clauses do, and each is decided once.
ghost use Rattle.std.specs.Prelude.{◌<◌, length, IfOk, IfSome};
ghost use Rattle.dart_ir.specs.Classes.{IsValid};
ghost use Rattle.dart_type.specs.Relation.{table_of, IsMoreSpecific};
ghost use Rattle.dart_type.specs.Search.{AllClauses, AnyWay};
ghost use Rattle.dart_type.specs.Intern.{types, read, IsBuilt};
ghost use Rattle.dart_type.specs.Clauses.{ways_of, clauses_of, AreListed, AllListed};
ghost use Rattle.dart_type.specs.Answers.{AreRight, Decides, Holds, IsKept};

use crate::clauses::Comparison;
use crate::goals::goals_of;
use crate::intern::Node;
use dart_ir::class::Classes;
use std::alloc::{AllocError, Global};

/// A comparison that is decided.
#[derive(Clone, Copy)]
pub struct Answer {
    pub t: usize,
    pub s: usize,
    pub holds: bool,
}

/// Whether one interned type is more specific than another. The answer is kept.
#[cycle(searching)]
pub fn is_below(
    alloc: Global,
    classes: &Classes,
    nodes: &mut Vec<Node>,
    answers: &mut Vec<Answer>,
    t: usize,
    s: usize,
) -> Result<bool, AllocError>
    requires valid { IsValid classes.now }
    requires built { IsBuilt nodes.old.items }
    requires right { AreRight (table_of classes.now) nodes.old.items answers.old.items }
    requires t_listed { t < length nodes.old.items }
    requires s_listed { s < length nodes.old.items }
    ensures { IfOk result (λ b.
        Decides (table_of classes.now) nodes.old.items nodes.new.items answers.new.items b
        (IsMoreSpecific (table_of classes.now) (read (types nodes.old.items) t)
        (read (types nodes.old.items) s))) }
{
    if let Some(holds) = answer_of(answers, t, s) {
        return Ok(holds);
    }
    let clauses = goals_of(alloc, classes, nodes, t, s)?;
    let holds = do_all_hold(alloc, classes, nodes, answers, &clauses)?;
    answers.push(Answer { t, s, holds })?;
    Ok(holds)
}

/// Whether in each clause one of the comparisons holds.
#[cycle(searching)]
fn do_all_hold(
    alloc: Global,
    classes: &Classes,
    nodes: &mut Vec<Node>,
    answers: &mut Vec<Answer>,
    clauses: &[Vec<Comparison>],
) -> Result<bool, AllocError>
    requires valid { IsValid classes.now }
    requires built { IsBuilt nodes.old.items }
    requires right { AreRight (table_of classes.now) nodes.old.items answers.old.items }
    requires listed { AllListed (length nodes.old.items) clauses.now }
    ensures { IfOk result (λ b.
        Decides (table_of classes.now) nodes.old.items nodes.new.items answers.new.items b
        (AllClauses (Holds (table_of classes.now))
        (clauses_of (types nodes.old.items) clauses.now))) }
{
    for ways in clauses {
        if !does_one_hold(alloc, classes, nodes, answers, ways)? {
            return Ok(false);
        }
    }
    Ok(true)
}

/// Whether one of the comparisons holds.
#[cycle(searching)]
fn does_one_hold(
    alloc: Global,
    classes: &Classes,
    nodes: &mut Vec<Node>,
    answers: &mut Vec<Answer>,
    ways: &[Comparison],
) -> Result<bool, AllocError>
    requires valid { IsValid classes.now }
    requires built { IsBuilt nodes.old.items }
    requires right { AreRight (table_of classes.now) nodes.old.items answers.old.items }
    requires listed { AreListed (length nodes.old.items) ways.now }
    ensures { IfOk result (λ b.
        Decides (table_of classes.now) nodes.old.items nodes.new.items answers.new.items b
        (AnyWay (Holds (table_of classes.now)) (ways_of (types nodes.old.items) ways.now))) }
{
    for way in ways {
        if is_below(alloc, classes, nodes, answers, way.t, way.s)? {
            return Ok(true);
        }
    }
    Ok(false)
}

/// The answer to a comparison, where it is kept.
fn answer_of(answers: &[Answer], t: usize, s: usize) -> Option<bool>
    ensures { IfSome result (λ b. IsKept answers.now t s b) }
{
    for answer in answers {
        if answer.t == t && answer.s == s {
            return Some(answer.holds);
        }
    }
    None
}
