// What operators stand for (ECMA-408, 16.19 Assignment and 16.22 Equality to 16.31 Postfix Expressions).
#![tactic(auto, using(crate::proofs::Trees::trees), unfolding(translation::specs::Walk::on))]

ghost use Rattle.std.specs.Prelude.{◌≡◌, IfOk};
ghost use Rattle.dart_tree.specs.View as view;
ghost use Rattle.translation.specs.Expressions as e;
ghost use Rattle.lower_leaf.specs.Around.{text};
ghost use Rattle.lower_operand.specs.Operators.{operation, prefix, name_option, sign_name};

use dart_base::name::Name;
use dart_base::place::Place;
use dart_token::sign::Sign;
use dart_tree::expression::{Operand, Primary};
use dart_tree::operator::Operator;
use lower_leaf::fault::Want;
use lower_leaf::name::find;
use lower_leaf::surroundings::Surroundings;

/// What an operator between two operands does.
#[derive(Clone, Copy, Debug, PartialEq, Eq)]
pub enum Operation {
    /// `&&`
    Conjunction,
    /// `||`
    Disjunction,
    /// `==`
    Equality,
    /// `!=`
    Inequality,
    /// A method of the first operand is called with the second.
    Method(Name),
}

/// What an operator before or behind an operand does.
#[derive(Clone, Copy, Debug, PartialEq, Eq)]
pub enum Prefix {
    /// `!`
    Negation,
    /// `++` or `--`: the method that is called with 1.
    Step(Name),
    /// A method without arguments.
    Unary(Name),
}

#[tactic(auto, using(crate::proofs::Signs::signs))]
fn sign_operation<S: Surroundings>(outside: &S, sign: Sign) -> Result<Operation, Want>
    ensures { IfOk result (λ made. operation (S.around outside.now) made ≡ e.sign_operation sign) }
{
    match sign {
        Sign::AndAnd => Ok(Operation::Conjunction),
        Sign::OrOr => Ok(Operation::Disjunction),
        Sign::EqualEqual => Ok(Operation::Equality),
        Sign::NotEqual => Ok(Operation::Inequality),
        _ => Ok(Operation::Method(find(outside, sign.text())?)),
    }
}

/// What an operator between two operands does.
pub fn operation_of<S: Surroundings>(outside: &S, operator: &Operator) -> Result<Operation, Want>
    ensures { IfOk result (λ made. operation (S.around outside.now) made ≡ e.operation operator.now) }
{
    match operator {
        Operator::Sign(_, sign) => sign_operation(outside, *sign),
        Operator::ShiftRight(_, _) => Ok(Operation::Method(find(outside, b">>")?)),
        Operator::ShiftRightAssign(_, _) => Ok(Operation::Method(find(outside, b">>=")?)),
    }
}

#[tactic(auto, using(crate::proofs::Signs::signs))]
fn sign_prefix<S: Surroundings>(outside: &S, sign: Sign) -> Result<Prefix, Want>
    ensures { IfOk result (λ made. prefix (S.around outside.now) made ≡ e.sign_prefix sign) }
{
    match sign {
        Sign::Bang => Ok(Prefix::Negation),
        Sign::PlusPlus => Ok(Prefix::Step(find(outside, b"+")?)),
        Sign::MinusMinus => Ok(Prefix::Step(find(outside, b"-")?)),
        Sign::Minus => Ok(Prefix::Unary(find(outside, b"unary-")?)),
        _ => Ok(Prefix::Unary(find(outside, sign.text())?)),
    }
}

/// What an operator before or behind an operand does.
pub fn prefix_of<S: Surroundings>(outside: &S, operator: &Operator) -> Result<Prefix, Want>
    ensures { IfOk result (λ made. prefix (S.around outside.now) made ≡ e.prefix operator.now) }
{
    match operator {
        Operator::Sign(_, sign) => sign_prefix(outside, *sign),
        Operator::ShiftRight(_, _) => Ok(Prefix::Unary(find(outside, b">>")?)),
        Operator::ShiftRightAssign(_, _) => Ok(Prefix::Unary(find(outside, b">>=")?)),
    }
}

/// The name of what an operator before or behind an operand does.
pub fn prefix_name<S: Surroundings>(outside: &S, of: Prefix) -> Result<Name, Want>
    ensures { IfOk result (λ found. text (S.around outside.now) found ≡ e.prefix_name (prefix (S.around outside.now) of)) }
{
    match of {
        Prefix::Negation => find(outside, b"!"),
        Prefix::Step(name) => Ok(name),
        Prefix::Unary(name) => Ok(name),
    }
}

// The sign of the method that a compound assignment calls; none for any other sign.
#[tactic(auto, using(crate::proofs::Signs::signs))]
fn sign_compound(sign: Sign) -> Option<Sign>
    ensures { sign_name result ≡ e.sign_compound sign }
{
    match sign {
        Sign::PlusAssign => Some(Sign::Plus),
        Sign::MinusAssign => Some(Sign::Minus),
        Sign::StarAssign => Some(Sign::Star),
        Sign::SlashAssign => Some(Sign::Slash),
        Sign::TildeSlashAssign => Some(Sign::TildeSlash),
        Sign::PercentAssign => Some(Sign::Percent),
        Sign::AmpersandAssign => Some(Sign::Ampersand),
        Sign::BarAssign => Some(Sign::Bar),
        Sign::CaretAssign => Some(Sign::Caret),
        Sign::ShiftLeftAssign => Some(Sign::ShiftLeft),
        _ => None,
    }
}

/// The name of the method that a compound assignment calls.
pub fn compound_name<S: Surroundings>(
    outside: &S,
    operator: &Operator,
) -> Result<Option<Name>, Want>
    ensures { IfOk result (λ found. name_option (S.around outside.now) found ≡ e.compound_operator operator.now) }
{
    match operator {
        Operator::Sign(_, sign) => match sign_compound(*sign) {
            None => Ok(None),
            Some(sign) => Ok(Some(find(outside, sign.text())?)),
        },
        Operator::ShiftRight(_, _) => Ok(None),
        Operator::ShiftRightAssign(_, _) => Ok(Some(find(outside, b">>")?)),
    }
}

/// The same of an operator that may be left out.
pub fn option_compound<S: Surroundings>(
    outside: &S,
    operator: &Option<Operator>,
) -> Result<Option<Name>, Want>
    ensures { IfOk result (λ found. name_option (S.around outside.now) found ≡ e.option_compound operator.now) }
{
    match operator {
        None => Ok(None),
        Some(operator) => compound_name(outside, operator),
    }
}

fn super_of_primary(tree: &Primary) -> Option<Place>
    ensures { result ≡ e.super_of_primary (view.primary tree.now) }
{
    match tree {
        Primary::BareSuper(word) => Some(*word),
        Primary::Super(_, _) => None,
        Primary::Atom(_) => None,
        Primary::Text(_) => None,
        Primary::List {
            type_arguments: _,
            opening: _,
            items: _,
            comma: _,
            closing: _,
        } => None,
        Primary::Map {
            type_arguments: _,
            opening: _,
            entries: _,
            comma: _,
            closing: _,
        } => None,
        Primary::New {
            creation: _,
            class: _,
            constructor: _,
            arguments: _,
        } => None,
        Primary::Function(_, _) => None,
        Primary::Parenthesized {
            opening: _,
            value: _,
            closing: _,
        } => None,
    }
}

/// The word where an operand is `super` alone.
pub fn super_of(tree: &Operand) -> Option<Place>
    ensures { result ≡ e.super_of (view.operand tree.now) }
{
    match tree {
        Operand::Primary(primary) => super_of_primary(primary),
        Operand::Conditional {
            condition: _,
            question: _,
            first: _,
            colon: _,
            second: _,
        } => None,
        Operand::Binary(_, _) => None,
        Operand::Is {
            operand: _,
            word: _,
            bang: _,
            type_node: _,
        } => None,
        Operand::As {
            operand: _,
            word: _,
            type_node: _,
        } => None,
        Operand::Prefix(_, _) => None,
        Operand::Postfix {
            primary: _,
            selectors: _,
            operator: _,
        } => None,
    }
}
