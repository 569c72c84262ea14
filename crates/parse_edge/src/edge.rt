// Whether a tree takes what comes next, itself or at its right edge.
ghost use Rattle.std.specs.Prelude.{◌≡◌, ◌≤◌, ◌+◌, ◌||◌, ◌&&◌, ◌∷◌, []};
ghost use Rattle.dart_tree.specs.Tree as t;
ghost use Rattle.dart_syntax.specs.Edges as spec;
ghost use Rattle.dart_tree.specs.Lists.{tails_of, cascades_of, selectors_of};
ghost use Rattle.dart_tree.specs.View as view;
ghost use Rattle.parse_edge.specs.Opened.{opened_by};

use crate::opens::{Opens, goes_on_in, level};
use dart_tree::expression::{Cascade, Expr, Operand, Primary, Tail, Value};
use dart_tree::statement::Body;

/// `..`
pub const DOTS: u8 = 0;
/// `?`
pub const QUESTION: u8 = 1;
/// `==` and `!=`
pub const EQUALS: u8 = 4;
/// `<`, `>`, `<=`, `>=`, `is` and `as`
pub const COMPARES: u8 = 5;
/// `.`, `[` and `(`
pub const SELECTS: u8 = 13;
/// Where nothing may go on.
pub const NOWHERE: u8 = 14;

/// What comes next: how tightly it binds, and in which types it goes on.
#[derive(Clone, Copy, Drop)]
pub struct Next {
    pub binds: u8,
    pub opens: Opens,
}

impl Next {
    // Whether it binds at least as tightly as the first and less tightly than the second.
    fn between(self, from: u8, below: u8) -> bool
        ensures { result ≡ spec.binds_between self.binds (opened_by self.opens) from below }
    {
        from <= self.binds && self.binds < below
    }
}

// Whether operators of this level stand behind one another.
fn repeats(level: u8) -> bool
    ensures { result ≡ spec.repeats level }
{
    !(level == EQUALS || level == COMPARES)
}

// Whether what comes next goes on behind the last operand of a row of this level, as a row further out or as the same.
fn binds_there(next: Next, from: u8, level: u8) -> bool
    requires { level ≤ 11 }
    ensures { result ≡ (spec.binds_between next.binds (opened_by next.opens) from level
        || (spec.binds_between next.binds (opened_by next.opens) from (level + 1) && spec.repeats level)) }
{
    if next.between(from, level) {
        return true;
    }
    next.between(from, level + 1) && repeats(level)
}

#[cycle(edges)]
#[tactic(auto, unfolding(dart_syntax::specs::Edges::expr_takes, dart_tree::specs::View::expr))]
fn expr_takes(next: Next, from: u8, tree: &Expr) -> bool
    requires { from ≤ 14 }
    ensures { result ≡ spec.expr_takes next.binds (opened_by next.opens) from (view.expr tree.now) }
{
    match tree {
        Expr::Assign {
            target: _,
            operator: _,
            value,
        } => expr_takes(next, from, value),
        Expr::Plain(operand, cascades) => {
            if cascades.is_empty() {
                operand_takes(next, from, operand)
            } else {
                cascades_take(next, from, cascades)
            }
        }
        Expr::Throw(_, value) => expr_takes(next, DOTS, value),
    }
}

#[cycle(edges)]
#[tactic(auto, unfolding(dart_syntax::specs::Edges::operand_takes, dart_tree::specs::View::operand))]
fn operand_takes(next: Next, from: u8, tree: &Operand) -> bool
    requires { from ≤ 14 }
    ensures { result ≡ spec.operand_takes next.binds (opened_by next.opens) from (view.operand tree.now) }
{
    match tree {
        Operand::Conditional {
            condition: _,
            question: _,
            first: _,
            colon: _,
            second,
        } => next.between(from, QUESTION) || expr_takes(next, from.max(QUESTION), second),
        Operand::Binary(_, more) => tails_take(next, from, more),
        Operand::Is {
            operand: _,
            word: _,
            bang: _,
            type_node,
        } => {
            next.between(from, COMPARES)
                || (next.between(from, NOWHERE) && goes_on_in(next.opens, type_node))
        }
        Operand::As {
            operand: _,
            word: _,
            type_node,
        } => {
            next.between(from, COMPARES)
                || (next.between(from, NOWHERE) && goes_on_in(next.opens, type_node))
        }
        Operand::Prefix(_, operand) => {
            next.between(from, SELECTS) || operand_takes(next, from.max(SELECTS), operand)
        }
        Operand::Postfix {
            primary: _,
            selectors: _,
            operator,
        } => next.between(from, if operator.is_some() { SELECTS } else { NOWHERE }),
        Operand::Primary(primary) => primary_takes(next, from, primary),
    }
}

#[cycle(edges)]
#[tactic(auto, unfolding(dart_syntax::specs::Edges::operand_takes, dart_tree::specs::View::primary, dart_tree::specs::View::body))]
fn primary_takes(next: Next, from: u8, tree: &Primary) -> bool
    requires { from ≤ 14 }
    ensures { result ≡ spec.operand_takes next.binds (opened_by next.opens) from (t.primary (view.primary tree.now)) }
{
    match tree {
        Primary::Function(_, body) => match body {
            Body::Arrow {
                arrow: _,
                value,
                semicolon: _,
            } => next.between(from, NOWHERE) || expr_takes(next, DOTS, value),
            _ => next.between(from, NOWHERE),
        },
        _ => next.between(from, NOWHERE),
    }
}

// An operator with its operand, the last of its row.
#[cycle(edges)]
fn tail_takes(next: Next, from: u8, tail: &Tail) -> bool
    requires { from ≤ 14 }
    ensures { result ≡ spec.tails_take next.binds (opened_by next.opens) from (t.tail (tail.now).operator (view.operand (tail.now).operand) t.no_tails) }
{
    let level = level(tail.operator);
    if binds_there(next, from, level) {
        return true;
    }
    operand_takes(next, from.max(level + 1), &tail.operand)
}

#[cycle(edges)]
fn tails_take(next: Next, from: u8, tails: &Vec<Tail>) -> bool
    requires { from ≤ 14 }
    ensures { result ≡ spec.tails_take next.binds (opened_by next.opens) from (tails_of (tails.now).items) }
{
    let mut left = tails.len();
    for tail in tails {
        left -= 1;
        if left == 0 {
            return tail_takes(next, from, tail);
        }
    }
    false
}

// The last of the cascades.
#[cycle(edges)]
#[tactic(auto, unfolding(dart_syntax::specs::Edges::cascades_take, dart_tree::specs::View::value))]
fn cascade_takes(next: Next, from: u8, cascade: &Cascade) -> bool
    requires { from ≤ 14 }
    ensures { result ≡ spec.cascades_take next.binds (opened_by next.opens) from (cascades_of (cascade.now ∷ [])) }
{
    if next.between(from, QUESTION) {
        return true;
    }
    match &cascade.value {
        Value::Omitted => next.between(from.max(SELECTS), NOWHERE),
        Value::Given(_, value) => expr_takes(next, from.max(QUESTION), value),
    }
}

#[cycle(edges)]
fn cascades_take(next: Next, from: u8, cascades: &Vec<Cascade>) -> bool
    requires { from ≤ 14 }
    ensures { result ≡ spec.cascades_take next.binds (opened_by next.opens) from (cascades_of (cascades.now).items) }
{
    let mut left = cascades.len();
    for cascade in cascades {
        left -= 1;
        if left == 0 {
            return cascade_takes(next, from, cascade);
        }
    }
    false
}

/// Whether an operand leaves what binds so tightly to what stands around it (ECMA-408, 16.9 Throw and 16.10 Function Expressions).
pub fn leaves(binds: u8, tree: &Operand) -> bool
    ensures { result ≡ spec.leaves binds (view.operand tree.now) }
{
    let next = Next {
        binds,
        opens: Opens::Nothing,
    };
    !operand_takes(next, NOWHERE, tree)
}

/// Whether it leaves `<`, which may go on in a type (ECMA-408, 16.24 Relational Expressions).
pub fn leaves_less(tree: &Operand) -> bool
    ensures { result ≡ spec.leaves_less (view.operand tree.now) }
{
    let next = Next {
        binds: COMPARES,
        opens: Opens::Less,
    };
    !operand_takes(next, NOWHERE, tree)
}

/// Whether a primary leaves a selector, which may go on in a type (ECMA-408, 16.31 Postfix Expressions).
pub fn primary_leaves(opens: Opens, tree: &Primary) -> bool
    ensures { result ≡ spec.primary_leaves (opened_by opens) (view.primary tree.now) }
{
    let next = Next {
        binds: SELECTS,
        opens,
    };
    !primary_takes(next, NOWHERE, tree)
}

/// Whether a cascade leaves another (ECMA-408, 16.17.2 Cascaded Invocations).
pub fn leaves_cascade(cascade: &Cascade) -> bool
    ensures { result ≡ spec.leaves_cascade ((cascade.now).dots, (selectors_of (cascade.now).selectors.items, view.value (cascade.now).value)) }
{
    let next = Next {
        binds: DOTS,
        opens: Opens::Nothing,
    };
    !cascade_takes(next, NOWHERE, cascade)
}
