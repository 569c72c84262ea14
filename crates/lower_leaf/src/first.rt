// The place of a node: that of its first token, among those that erasure keeps.
#![tactic(auto, using(crate::proofs::Trees::trees))]

ghost use Rattle.std.specs.Prelude.{◌≡◌};
ghost use Rattle.dart_tree.specs.Lists.{pieces_of};
ghost use Rattle.dart_tree.specs.View as view;
ghost use Rattle.translation.specs.Firsts as first;

use crate::name::place_of;
use dart_base::place::Place;
use dart_tree::expression::{Atom, Creation, Expr, Operand, Primary, StringPiece};
use dart_tree::identifier::Identifier;
use dart_tree::operator::Operator;
use dart_tree::parameter::{Parameters, VariableKind};
use dart_tree::types::{TypeArguments, TypeNode};

/// Where an operator begins.
pub fn place_of_operator(operator: &Operator) -> Place
    ensures { result ≡ first.place_of_operator operator.now }
{
    match operator {
        Operator::Sign(place, _) => *place,
        Operator::ShiftRight(place, _) => *place,
        Operator::ShiftRightAssign(place, _) => *place,
    }
}

/// Where an expression of one token stands.
pub fn place_of_atom(atom: &Atom) -> Place
    ensures { result ≡ first.place_of_atom atom.now }
{
    match atom {
        Atom::This(place) => *place,
        Atom::Null(place) => *place,
        Atom::True(place) => *place,
        Atom::False(place) => *place,
        Atom::Integer(place, _) => *place,
        Atom::Name(name) => place_of(name),
    }
}

/// Where `new` or `const` stands.
pub fn place_of_creation(creation: Creation) -> Place
    ensures { result ≡ first.place_of_creation creation }
{
    match creation {
        Creation::New(place) => place,
        Creation::Const(place) => place,
    }
}

/// Where a type begins.
pub fn first_of_type(node: &TypeNode) -> Place
    ensures { result ≡ first.first_of_type (view.type_node node.now) }
{
    match node {
        TypeNode::Dynamic(place) => *place,
        TypeNode::Named {
            name,
            member: _,
            arguments: _,
        } => place_of(name),
    }
}

/// Where a literal begins: with its type arguments, where it has some.
pub fn first_of_arguments(arguments: &TypeArguments, opening: Place) -> Place
    ensures { result ≡ first.first_of_arguments (view.type_arguments arguments.now) opening }
{
    match arguments {
        TypeArguments::Omitted => opening,
        TypeArguments::Listed {
            opening: first,
            arguments: _,
            closing: _,
        } => *first,
    }
}

/// Where a string begins. It has a piece.
pub fn first_of_pieces(pieces: &Vec<StringPiece>) -> Place
    ensures { result ≡ first.first_of_pieces (pieces_of pieces.now.items) }
{
    for piece in pieces {
        return piece.place;
    }
    Place {
        unit: 0,
        line: 0,
        column: 0,
    }
}

/// Where parameters begin.
pub fn first_of_parameters(parameters: &Parameters) -> Place
    ensures { result ≡ first.first_of_parameters (view.parameters parameters.now) }
{
    parameters.opening
}

/// Where an expression begins.
pub fn first_of_expr(tree: &Expr) -> Place
    ensures { result ≡ first.first_of_expr (view.expr tree.now) }
{
    match tree {
        Expr::Assign {
            target,
            operator: _,
            value: _,
        } => first_of_operand(target),
        Expr::Plain(operand, _) => first_of_operand(operand),
        Expr::Throw(word, _) => *word,
    }
}

/// Where an operand begins.
pub fn first_of_operand(tree: &Operand) -> Place
    ensures { result ≡ first.first_of_operand (view.operand tree.now) }
{
    match tree {
        Operand::Conditional {
            condition,
            question: _,
            first: _,
            colon: _,
            second: _,
        } => first_of_operand(condition),
        Operand::Binary(first, _) => first_of_operand(first),
        Operand::Is {
            operand,
            word: _,
            bang: _,
            type_node: _,
        } => first_of_operand(operand),
        Operand::As {
            operand,
            word: _,
            type_node: _,
        } => first_of_operand(operand),
        Operand::Prefix(operator, _) => place_of_operator(operator),
        Operand::Postfix {
            primary,
            selectors: _,
            operator: _,
        } => first_of_primary(primary),
        Operand::Primary(primary) => first_of_primary(primary),
    }
}

/// Where a primary begins.
pub fn first_of_primary(tree: &Primary) -> Place
    ensures { result ≡ first.first_of_primary (view.primary tree.now) }
{
    match tree {
        Primary::Super(word, _) => *word,
        Primary::BareSuper(word) => *word,
        Primary::Atom(atom) => place_of_atom(atom),
        Primary::Text(pieces) => first_of_pieces(pieces),
        Primary::List {
            type_arguments,
            opening,
            items: _,
            comma: _,
            closing: _,
        } => first_of_arguments(type_arguments, *opening),
        Primary::Map {
            type_arguments,
            opening,
            entries: _,
            comma: _,
            closing: _,
        } => first_of_arguments(type_arguments, *opening),
        Primary::New {
            creation,
            class: _,
            constructor: _,
            arguments: _,
        } => place_of_creation(*creation),
        Primary::Function(parameters, _) => first_of_parameters(parameters),
        Primary::Parenthesized {
            opening,
            value: _,
            closing: _,
        } => *opening,
    }
}

/// Where variables begin: at their word, or at the first name where only a type stands before it, since there erasure
/// puts `var`.
pub fn first_of_variables(kind: &VariableKind, name: &Identifier) -> Place
    ensures { result ≡ first.first_of_variables (view.variable_kind kind.now) name.now }
{
    match kind {
        VariableKind::Omitted => place_of(name),
        VariableKind::Var(place) => *place,
        VariableKind::Final(place, _) => *place,
        VariableKind::Const(place, _) => *place,
        VariableKind::Typed(_) => place_of(name),
    }
}
