// Expressions that are literals, as default values of parameters and cases are.
#![tactic(auto, using(crate::proofs::Trees::trees))]

ghost use Rattle.std.specs.Prelude.{◌≡◌, ◌-◌, Some, IfOk};
ghost use Rattle.dart_ir.specs.Integer.{integer_value};
ghost use Rattle.dart_pieces.specs.Numbers as numbers;
ghost use Rattle.dart_tree.specs.View as view;
ghost use Rattle.std.specs.Prelude.{neg_ℤ, pos};
ghost use Rattle.translation.specs.Functions as f;
ghost use Rattle.translation.specs.Statements as s;
ghost use Rattle.lower_leaf.specs.Gives.{Gives};
ghost use Rattle.lower_leaf.specs.Seen.{seen};
ghost use Rattle.lower_function.specs.Literals.{literal, value};

use dart_base::bytes::Bytes;
use dart_base::place::Place;
use dart_base::units::Units;
use dart_ir::value::{Value, integer_of, integer_value};
use dart_token::sign::Sign;
use dart_tree::expression::{Atom, Expr, Operand, Primary, Value as Given};
use dart_tree::operator::Operator;
use lower_leaf::fault::{LowerFault, Want};
use lower_leaf::first::first_of_expr;
use lower_leaf::state::{State, with_literal};
use lower_leaf::surroundings::Surroundings;
use lower_string::integer::integer;
use lower_string::whole::constant_units;
use std::alloc::Global;

/// An expression that is a literal.
#[derive(Drop)]
pub enum Literal<'a> {
    /// None of these.
    Missing,
    Null,
    Bool(bool),
    /// An integer by its text.
    Integer(&'a Bytes),
    /// A minus before an integer.
    Negative(&'a Bytes),
    /// A string without interpolation.
    Text(Units),
}

fn atom_literal(atom: &Atom) -> Literal<'_>
    ensures { literal result ≡ s.atom_literal atom.now }
{
    match atom {
        Atom::This(_) => Literal::Missing,
        Atom::Null(_) => Literal::Null,
        Atom::True(_) => Literal::Bool(true),
        Atom::False(_) => Literal::Bool(false),
        Atom::Integer(_, text) => Literal::Integer(text),
        Atom::Name(_) => Literal::Missing,
    }
}

fn primary_literal(alloc: Global, tree: &Primary) -> Result<Literal<'_>, Want>
    ensures { IfOk result (λ made. literal made ≡ s.primary_literal (view.primary tree.now)) }
{
    match tree {
        Primary::Atom(atom) => Ok(atom_literal(atom)),
        Primary::Text(pieces) => match constant_units(alloc, pieces)? {
            Some(units) => Ok(Literal::Text(units)),
            None => Ok(Literal::Missing),
        },
        Primary::Super(_, _) => Ok(Literal::Missing),
        Primary::BareSuper(_) => Ok(Literal::Missing),
        Primary::List {
            type_arguments: _,
            opening: _,
            items: _,
            comma: _,
            closing: _,
        } => Ok(Literal::Missing),
        Primary::Map {
            type_arguments: _,
            opening: _,
            entries: _,
            comma: _,
            closing: _,
        } => Ok(Literal::Missing),
        Primary::New {
            creation: _,
            class: _,
            constructor: _,
            arguments: _,
        } => Ok(Literal::Missing),
        Primary::Function(_, _) => Ok(Literal::Missing),
        Primary::Parenthesized {
            opening: _,
            value: _,
            closing: _,
        } => Ok(Literal::Missing),
    }
}

fn is_minus(operator: &Operator) -> bool
    ensures { result ≡ s.is_minus operator.now }
{
    match operator {
        Operator::Sign(_, sign) => *sign == Sign::Minus,
        Operator::ShiftRight(_, _) => false,
        Operator::ShiftRightAssign(_, _) => false,
    }
}

// A literal behind an operator.
fn negative(minus: bool, of: Literal<'_>) -> Literal<'_>
    ensures { literal result ≡ s.negative minus (literal of.entry) }
{
    match of {
        Literal::Integer(text) => {
            if minus {
                Literal::Negative(text)
            } else {
                Literal::Missing
            }
        }
        Literal::Missing => Literal::Missing,
        Literal::Null => Literal::Missing,
        Literal::Bool(_) => Literal::Missing,
        Literal::Negative(_) => Literal::Missing,
        Literal::Text(_) => Literal::Missing,
    }
}

fn minus_literal<'a>(
    alloc: Global,
    operator: &Operator,
    tree: &'a Operand,
) -> Result<Literal<'a>, Want>
    ensures { IfOk result (λ made. literal made ≡ s.minus_literal operator.now (view.operand tree.now)) }
{
    match tree {
        Operand::Primary(primary) => Ok(negative(
            is_minus(operator),
            primary_literal(alloc, primary)?,
        )),
        Operand::Conditional {
            condition: _,
            question: _,
            first: _,
            colon: _,
            second: _,
        } => Ok(Literal::Missing),
        Operand::Binary(_, _) => Ok(Literal::Missing),
        Operand::Is {
            operand: _,
            word: _,
            bang: _,
            type_node: _,
        } => Ok(Literal::Missing),
        Operand::As {
            operand: _,
            word: _,
            type_node: _,
        } => Ok(Literal::Missing),
        Operand::Prefix(_, _) => Ok(Literal::Missing),
        Operand::Postfix {
            primary: _,
            selectors: _,
            operator: _,
        } => Ok(Literal::Missing),
    }
}

fn operand_literal(alloc: Global, tree: &Operand) -> Result<Literal<'_>, Want>
    ensures { IfOk result (λ made. literal made ≡ s.operand_literal (view.operand tree.now)) }
{
    match tree {
        Operand::Primary(primary) => primary_literal(alloc, primary),
        Operand::Prefix(operator, operand) => minus_literal(alloc, operator, operand),
        Operand::Conditional {
            condition: _,
            question: _,
            first: _,
            colon: _,
            second: _,
        } => Ok(Literal::Missing),
        Operand::Binary(_, _) => Ok(Literal::Missing),
        Operand::Is {
            operand: _,
            word: _,
            bang: _,
            type_node: _,
        } => Ok(Literal::Missing),
        Operand::As {
            operand: _,
            word: _,
            type_node: _,
        } => Ok(Literal::Missing),
        Operand::Postfix {
            primary: _,
            selectors: _,
            operator: _,
        } => Ok(Literal::Missing),
    }
}

/// What literal an expression is, if it is one.
#[tactic(auto, using(crate::proofs::Cascaded::cascaded))]
pub fn literal_of(alloc: Global, tree: &Expr) -> Result<Literal<'_>, Want>
    ensures { IfOk result (λ made. literal made ≡ s.literal_of (view.expr tree.now)) }
{
    match tree {
        Expr::Plain(operand, cascades) => {
            if cascades.is_empty() {
                return operand_literal(alloc, operand);
            }
            Ok(Literal::Missing)
        }
        Expr::Assign {
            target: _,
            operator: _,
            value: _,
        } => Ok(Literal::Missing),
        Expr::Throw(_, _) => Ok(Literal::Missing),
    }
}

// The negative of the integer with this text.
#[tactic(auto, using(crate::proofs::Negative::negated_same))]
fn negated(text: &[u8]) -> Result<Value, Want>
    ensures { IfOk result (λ made. made ≡ integer_value (neg_ℤ (pos (numbers.integer_value text.now)))) }
{
    match integer(text)? {
        Value::Int { high, low } => {
            if high >= 0x8000_0000_0000_0000 {
                return Err(Want);
            }
            match integer_of(high, low).checked_neg() {
                Some(value) => Ok(integer_value(value)),
                None => Err(Want),
            }
        }
        _ => Err(Want),
    }
}

// The value of a literal (ECMA-408, 9.2.2 Optional Formals).
#[tactic(auto, unfolding(translation::specs::Walk::on))]
fn literal_value<S: Surroundings>(
    outside: &S,
    state: &mut State,
    place: Place,
    of: Literal<'_>,
) -> Result<Value, LowerFault>
    ensures { Gives value result (seen (S.around outside.now) state.new)
        (f.literal_value place (literal of.entry) (seen (S.around outside.now) state.old)) }
{
    match of {
        Literal::Missing => Err(LowerFault::NotConstant(place)),
        Literal::Null => Ok(Value::Null),
        Literal::Bool(truth) => Ok(Value::Bool(truth)),
        Literal::Integer(text) => Ok(integer(text.as_slice())?),
        Literal::Negative(text) => Ok(negated(text.as_slice())?),
        Literal::Text(units) => Ok(Value::Literal(with_literal(outside, state, units)?)),
    }
}

/// A default value, null where none is written (9.2.2 Optional Formals).
pub fn default_value<S: Surroundings>(
    alloc: Global,
    outside: &S,
    state: &mut State,
    tree: &Given,
) -> Result<Value, LowerFault>
    ensures { Gives value result (seen (S.around outside.now) state.new)
        (f.default_value (view.value tree.now) (seen (S.around outside.now) state.old)) }
{
    match tree {
        Given::Omitted => Ok(Value::Null),
        Given::Given(_, tree) => {
            let of = literal_of(alloc, tree)?;
            literal_value(outside, state, first_of_expr(tree), of)
        }
    }
}
