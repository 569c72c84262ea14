// Which operands may be assigned, and which is `super` alone.
ghost use Rattle.std.specs.Prelude.{◌≡◌};
ghost use Rattle.dart_syntax.specs.Expressions as syntax;
ghost use Rattle.dart_tree.specs.Lists.{selectors_of};
ghost use Rattle.dart_tree.specs.View as view;
ghost use Rattle.syntax_readers.specs.Levels as spec;
ghost use Rattle.parse_unary.specs.Views.{postfix_assigns};

use dart_tree::expression::{Atom, Operand, Primary, Selector};
use dart_tree::operator::Operator;

/// Whether an operand is `super` alone (ECMA-408, 16.22 to 16.29).
#[tactic(auto, unfolding(dart_tree::specs::View::operand, dart_tree::specs::View::primary))]
pub fn is_bare(tree: &Operand) -> bool
    ensures { result ≡ spec.is_bare (view.operand tree.now) }
{
    match tree {
        Operand::Primary(Primary::BareSuper(_)) => true,
        _ => false,
    }
}

// Whether something is assigned where this selector stands last.
#[tactic(auto, unfolding(dart_tree::specs::View::selector))]
fn selector_assigns(tree: &Selector) -> bool
    ensures { result ≡ syntax.assigns (view.selector tree.now) }
{
    match tree {
        Selector::Call(_) => false,
        _ => true,
    }
}

/// Whether a primary may be assigned (ECMA-408, 16.32 Assignable Expressions).
#[tactic(auto, unfolding(dart_tree::specs::View::primary))]
pub fn primary_assigns(tree: &Primary) -> bool
    ensures { result ≡ syntax.primary_assigns (view.primary tree.now) }
{
    match tree {
        Primary::Super(_, selector) => selector_assigns(selector),
        Primary::Atom(Atom::Name(_)) => true,
        _ => false,
    }
}

/// Whether what has these selectors behind it may be assigned (ECMA-408, 16.32 Assignable Expressions).
pub fn selectors_assign(selectors: &[Selector]) -> bool
    ensures { result ≡ syntax.selectors_assign (selectors_of selectors.now) }
{
    let count = selectors.len();
    if count == 0 {
        return false;
    }
    let last = count - 1;
    selector_assigns(&selectors[last])
}

// Whether a primary with these selectors and this operator behind it may be assigned.
fn postfix_assigns(selectors: &[Selector], operator: Option<Operator>) -> bool
    ensures { result ≡ postfix_assigns operator (selectors_of selectors.now) }
{
    match operator {
        None => selectors_assign(selectors),
        Some(_) => false,
    }
}

/// Whether an operand may be assigned (ECMA-408, 16.32 Assignable Expressions).
#[tactic(auto, unfolding(dart_tree::specs::View::operand))]
pub fn assigns(tree: &Operand) -> bool
    ensures { result ≡ spec.assigns (view.operand tree.now) }
{
    match tree {
        Operand::Primary(primary) => primary_assigns(primary),
        Operand::Postfix {
            primary: _,
            selectors,
            operator,
        } => postfix_assigns(selectors, *operator),
        _ => false,
    }
}
