// The places of the last tokens of trees.
//
// What may spell no token takes the place before it, and gives that one.
ghost use Rattle.std.specs.Prelude.{◌≡◌};
ghost use Rattle.dart_tree.specs.Lists.{block_of, cascades_of, pieces_of, selectors_of, stmts_of, tails_of, try_parts_of};
ghost use Rattle.dart_tree.specs.View as view;
ghost use Rattle.scope_declared.specs.Last as of_tree;

use dart_base::place::Place;
use dart_tree::expression::{
    Arguments, Atom, Cascade, Expr, Operand, Primary, Selector, StringPiece, Tail, Value,
};
use dart_tree::identifier::{DotName, Identifier};
use dart_tree::operator::Operator;
use dart_tree::statement::{Body, Function, Jump, Loop, Stmt, TryPart, Variables};
use dart_tree::types::{TypeArguments, TypeNode};

/// The place of an identifier. Takes no memory.
pub fn identifier_place(name: &Identifier) -> Place
    ensures { result ≡ of_tree.identifier_place name.now }
{
    match name {
        Identifier::Name(place, _) | Identifier::Get(place) | Identifier::Set(place) => *place,
    }
}

fn operator_last(operator: Operator) -> Place
    ensures { result ≡ of_tree.operator_last operator }
{
    match operator {
        Operator::Sign(place, _) => place,
        Operator::ShiftRight(_, second) => second,
        Operator::ShiftRightAssign(_, second) => second,
    }
}

fn maybe_operator_last(before: Place, operator: Option<Operator>) -> Place
    ensures { result ≡ of_tree.maybe_operator_last before operator }
{
    match operator {
        None => before,
        Some(operator) => operator_last(operator),
    }
}

fn atom_place(atom: &Atom) -> Place
    ensures { result ≡ of_tree.atom_place atom.now }
{
    match atom {
        Atom::This(place) => *place,
        Atom::Null(place) => *place,
        Atom::True(place) => *place,
        Atom::False(place) => *place,
        Atom::Integer(place, _) => *place,
        Atom::Name(name) => identifier_place(name),
    }
}

fn qualified_last(name: &Identifier, member: &Option<DotName>) -> Place
    ensures { result ≡ of_tree.qualified_last name.now member.now }
{
    match member {
        None => identifier_place(name),
        Some(member) => identifier_place(&member.name),
    }
}

fn type_last(node: &TypeNode) -> Place
    ensures { result ≡ of_tree.type_last (view.type_node node.now) }
{
    match node {
        TypeNode::Dynamic(place) => *place,
        TypeNode::Named {
            name,
            member,
            arguments,
        } => match arguments {
            TypeArguments::Omitted => qualified_last(name, member),
            TypeArguments::Listed {
                opening: _,
                arguments: _,
                closing,
            } => *closing,
        },
    }
}

fn jump_last(jump: &Jump) -> Place
    ensures { result ≡ of_tree.jump_last jump.now }
{
    match jump {
        Jump::Break {
            word: _,
            label: _,
            semicolon,
        } => *semicolon,
        Jump::Continue {
            word: _,
            label: _,
            semicolon,
        } => *semicolon,
        Jump::Rethrow(_, semicolon) => *semicolon,
    }
}

fn arguments_last(tree: &Arguments) -> Place
    ensures { result ≡ of_tree.arguments_last (view.arguments tree.now) }
{
    tree.closing
}

/// The place of the semicolon behind variables. Takes no memory.
pub fn variables_last(tree: &Variables) -> Place
    ensures { result ≡ of_tree.variables_last (view.variables tree.now) }
{
    tree.semicolon
}

#[cycle(last)]
fn expr_last(before: Place, tree: &Expr) -> Place
    ensures { result ≡ of_tree.expr_last before (view.expr tree.now) }
{
    match tree {
        Expr::Assign {
            target: _,
            operator,
            value,
        } => expr_last(operator_last(*operator), value),
        Expr::Plain(operand, cascades) => cascades_last(operand_last(before, operand), cascades),
        Expr::Throw(word, value) => expr_last(*word, value),
    }
}

#[cycle(last)]
fn operand_last(before: Place, tree: &Operand) -> Place
    ensures { result ≡ of_tree.operand_last before (view.operand tree.now) }
{
    match tree {
        Operand::Conditional {
            condition: _,
            question: _,
            first: _,
            colon,
            second,
        } => expr_last(*colon, second),
        Operand::Binary(first, more) => tails_last(operand_last(before, first), more),
        Operand::Is {
            operand: _,
            word: _,
            bang: _,
            type_node,
        } => type_last(type_node),
        Operand::As {
            operand: _,
            word: _,
            type_node,
        } => type_last(type_node),
        Operand::Prefix(operator, operand) => operand_last(operator_last(*operator), operand),
        Operand::Postfix {
            primary,
            selectors,
            operator,
        } => {
            let selected = selectors_last(primary_last(before, primary), selectors);
            maybe_operator_last(selected, *operator)
        }
        Operand::Primary(primary) => primary_last(before, primary),
    }
}

#[cycle(last)]
fn primary_last(before: Place, tree: &Primary) -> Place
    ensures { result ≡ of_tree.primary_last before (view.primary tree.now) }
{
    match tree {
        Primary::Super(_, selector) => selector_last(selector),
        Primary::BareSuper(word) => *word,
        Primary::Atom(atom) => atom_place(atom),
        Primary::Text(pieces) => pieces_last(before, pieces),
        Primary::List {
            type_arguments: _,
            opening: _,
            items: _,
            comma: _,
            closing,
        } => *closing,
        Primary::Map {
            type_arguments: _,
            opening: _,
            entries: _,
            comma: _,
            closing,
        } => *closing,
        Primary::New {
            creation: _,
            class: _,
            constructor: _,
            arguments,
        } => arguments_last(arguments),
        Primary::Function(_, body) => body_last(body),
        Primary::Parenthesized {
            opening: _,
            value: _,
            closing,
        } => *closing,
    }
}

fn selector_last(tree: &Selector) -> Place
    ensures { result ≡ of_tree.selector_last (view.selector tree.now) }
{
    match tree {
        Selector::Member(_, name) => identifier_place(name),
        Selector::Index {
            opening: _,
            value: _,
            closing,
        } => *closing,
        Selector::Call(arguments) => arguments_last(arguments),
    }
}

/// The place of the last token of a value, or the place before it where it is left out. Takes no memory.
#[cycle(last)]
pub fn value_last(before: Place, tree: &Value) -> Place
    ensures { result ≡ of_tree.value_last before (view.value tree.now) }
{
    match tree {
        Value::Omitted => before,
        Value::Given(_, value) => expr_last(before, value),
    }
}

#[cycle(last)]
fn tails_last(before: Place, all: &Vec<Tail>) -> Place
    ensures { result ≡ of_tree.tails_last before (tails_of all.now.items) }
{
    let mut last = before;
    for tail in all {
        last = operand_last(operator_last(tail.operator), &tail.operand);
    }
    last
}

#[cycle(last)]
fn pieces_last(before: Place, all: &Vec<StringPiece>) -> Place
    ensures { result ≡ of_tree.pieces_last before (pieces_of all.now.items) }
{
    let mut last = before;
    for piece in all {
        last = value_last(piece.place, &piece.value);
    }
    last
}

fn selectors_last(before: Place, all: &Vec<Selector>) -> Place
    ensures { result ≡ of_tree.selectors_last before (selectors_of all.now.items) }
{
    let mut last = before;
    for selector in all {
        last = selector_last(selector);
    }
    last
}

#[cycle(last)]
fn cascades_last(before: Place, all: &Vec<Cascade>) -> Place
    ensures { result ≡ of_tree.cascades_last before (cascades_of all.now.items) }
{
    let mut last = before;
    for cascade in all {
        last = value_last(
            selectors_last(cascade.dots, &cascade.selectors),
            &cascade.value,
        );
    }
    last
}

#[cycle(last)]
fn arrow_last(arrow: Place, value: &Expr, semicolon: Option<Place>) -> Place
    ensures { result ≡ of_tree.end_or semicolon (of_tree.expr_last arrow (view.expr value.now)) }
{
    match semicolon {
        None => expr_last(arrow, value),
        Some(semicolon) => semicolon,
    }
}

/// The place of the last token of a body: of a function literal without braces it is that of its expression. Takes no
/// memory.
#[cycle(last)]
pub fn body_last(tree: &Body) -> Place
    ensures { result ≡ of_tree.body_last (view.body tree.now) }
{
    match tree {
        Body::Arrow {
            arrow,
            value,
            semicolon,
        } => arrow_last(*arrow, value, *semicolon),
        Body::Block(block) => block.closing,
        Body::Omitted(semicolon) => *semicolon,
    }
}

fn try_parts_last(before: Place, all: &Vec<TryPart>) -> Place
    ensures { result ≡ of_tree.try_parts_last before (try_parts_of all.now.items) }
{
    let mut last = before;
    for part in all {
        last = part.block.closing;
    }
    last
}

/// The place of the last token of a function. Takes no memory.
pub fn function_last(tree: &Function) -> Place
    ensures { result ≡ of_tree.function_last (view.function tree.now) }
{
    body_last(&tree.body)
}

/// The place of the last token of a statement. Takes no memory.
#[cycle(last_of_statement)]
pub fn stmt_last(tree: &Stmt) -> Place
    ensures { result ≡ of_tree.stmt_last (view.stmt tree.now) }
{
    match tree {
        Stmt::Labelled(_, statement) => stmt_last(statement),
        Stmt::Block(block) => block.closing,
        Stmt::Variables(variables) => variables_last(variables),
        Stmt::Function(function) => function_last(function),
        Stmt::If {
            word: _,
            opening: _,
            condition: _,
            closing: _,
            first,
        } => stmt_last(first),
        Stmt::IfElse {
            word: _,
            opening: _,
            condition: _,
            closing: _,
            first: _,
            else_word: _,
            second,
        } => stmt_last(second),
        Stmt::Loop(again) => loop_last(again),
        Stmt::Switch {
            word: _,
            opening: _,
            value: _,
            closing: _,
            opening_brace: _,
            parts: _,
            closing_brace,
        } => *closing_brace,
        Stmt::Try {
            word: _,
            block,
            parts,
        } => try_parts_last(block.closing, parts),
        Stmt::Return {
            word: _,
            value: _,
            semicolon,
        } => *semicolon,
        Stmt::Jump(jump) => jump_last(jump),
        Stmt::Expression(_, semicolon) => *semicolon,
    }
}

#[cycle(last_of_statement)]
fn loop_last(tree: &Loop) -> Place
    ensures { result ≡ of_tree.loop_last (view.loop tree.now) }
{
    match tree {
        Loop::For {
            word: _,
            opening: _,
            start: _,
            first_semicolon: _,
            condition: _,
            second_semicolon: _,
            updates: _,
            closing: _,
            body,
        } => stmt_last(body),
        Loop::ForVariables {
            word: _,
            opening: _,
            variables: _,
            condition: _,
            semicolon: _,
            updates: _,
            closing: _,
            body,
        } => stmt_last(body),
        Loop::ForIn {
            word: _,
            opening: _,
            kind: _,
            name: _,
            in_word: _,
            iterated: _,
            closing: _,
            body,
        } => stmt_last(body),
        Loop::While {
            word: _,
            opening: _,
            condition: _,
            closing: _,
            body,
        } => stmt_last(body),
        Loop::Do {
            word: _,
            body: _,
            while_word: _,
            opening: _,
            condition: _,
            closing: _,
            semicolon,
        } => *semicolon,
    }
}

/// The place of the last token of statements, or the place before them where there are none. Takes no memory.
pub fn stmts_last(before: Place, all: &Vec<Stmt>) -> Place
    ensures { result ≡ of_tree.stmts_last before (stmts_of all.now.items) }
{
    let mut last = before;
    for statement in all {
        last = stmt_last(statement);
    }
    last
}
