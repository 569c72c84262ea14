// Expressions without annotations. Each function reads a tree, and fails only where memory runs out.
ghost use Rattle.std.specs.Prelude.{◌≡◌, IfOk, Option, None, Some};
ghost use Rattle.dart_erase.specs.Erased as erased;
ghost use Rattle.dart_tree.specs.Lists.{tails_of, pieces_of, selectors_of, cascades_of, items_of, entries_of};
ghost use Rattle.dart_tree.specs.View as view;

use crate::statement::{erase_body, erase_parameters};
use dart_node::leaf::{
    try_clone_atom, try_clone_bytes, try_clone_identifier, try_clone_maybe_dot_name,
    try_clone_maybe_label, try_clone_type, try_clone_type_arguments,
};
use dart_node::make::expression as make;
use dart_tree::expression::{
    Arguments, Cascade, Entry, Expr, Item, Operand, Primary, Selector, StringPiece, Tail, Value,
};
use std::alloc::{AllocError, Global};

/// An expression (ECMA-408, 16 Expressions).
#[cycle(erase)]
pub fn erase_expr(alloc: Global, tree: &Expr) -> Result<Expr, AllocError>
    ensures { IfOk result (λ x. view.expr x ≡ erased.expr (view.expr tree.now)) }
{
    match tree {
        Expr::Assign {
            target,
            operator,
            value,
        } => {
            let target = erase_operand(alloc, target)?;
            let value = erase_expr(alloc, value)?;
            make::assign(alloc, target, *operator, value)
        }
        Expr::Plain(operand, cascades) => {
            let operand = erase_operand(alloc, operand)?;
            let cascades = erase_cascades(alloc, cascades)?;
            Ok(make::plain(operand, cascades))
        }
        Expr::Throw(word, value) => {
            let value = erase_expr(alloc, value)?;
            make::throw(alloc, *word, value)
        }
    }
}

/// What an operator applies to (ECMA-408, 16 Expressions).
#[cycle(erase)]
pub fn erase_operand(alloc: Global, tree: &Operand) -> Result<Operand, AllocError>
    ensures { IfOk result (λ x. view.operand x ≡ erased.operand (view.operand tree.now)) }
{
    match tree {
        Operand::Conditional {
            condition,
            question,
            first,
            colon,
            second,
        } => {
            let condition = erase_operand(alloc, condition)?;
            let first = erase_expr(alloc, first)?;
            let second = erase_expr(alloc, second)?;
            make::conditional(alloc, condition, *question, first, *colon, second)
        }
        Operand::Binary(first, more) => {
            let first = erase_operand(alloc, first)?;
            let more = erase_tails(alloc, more)?;
            make::binary(alloc, first, more)
        }
        Operand::Is {
            operand,
            word,
            bang,
            type_node,
        } => {
            let operand = erase_operand(alloc, operand)?;
            let type_node = try_clone_type(alloc, type_node)?;
            make::is_type(alloc, operand, *word, *bang, type_node)
        }
        Operand::As {
            operand,
            word,
            type_node,
        } => {
            let operand = erase_operand(alloc, operand)?;
            let type_node = try_clone_type(alloc, type_node)?;
            make::as_type(alloc, operand, *word, type_node)
        }
        Operand::Prefix(operator, operand) => {
            let operand = erase_operand(alloc, operand)?;
            make::prefix(alloc, *operator, operand)
        }
        Operand::Postfix {
            primary,
            selectors,
            operator,
        } => {
            let primary = erase_primary(alloc, primary)?;
            let selectors = erase_selectors(alloc, selectors)?;
            make::postfix(alloc, primary, selectors, *operator)
        }
        Operand::Primary(primary) => {
            let primary = erase_primary(alloc, primary)?;
            Ok(Operand::Primary(primary))
        }
    }
}

/// A primary, whose type arguments and whose `new` or `const` keep their types (ECMA-408, 16 Expressions).
#[cycle(erase)]
pub fn erase_primary(alloc: Global, tree: &Primary) -> Result<Primary, AllocError>
    ensures { IfOk result (λ x. view.primary x ≡ erased.primary (view.primary tree.now)) }
{
    match tree {
        Primary::Super(word, selector) => {
            let selector = erase_selector(alloc, selector)?;
            make::super_access(alloc, *word, selector)
        }
        Primary::BareSuper(word) => Ok(Primary::BareSuper(*word)),
        Primary::Atom(atom) => {
            let atom = try_clone_atom(alloc, atom)?;
            Ok(Primary::Atom(atom))
        }
        Primary::Text(pieces) => {
            let pieces = erase_pieces(alloc, pieces)?;
            Ok(make::text(pieces))
        }
        Primary::List {
            type_arguments,
            opening,
            items,
            comma,
            closing,
        } => {
            let types = try_clone_type_arguments(alloc, type_arguments)?;
            let items = erase_items(alloc, items)?;
            make::list_literal(alloc, types, *opening, items, *comma, *closing)
        }
        Primary::Map {
            type_arguments,
            opening,
            entries,
            comma,
            closing,
        } => {
            let types = try_clone_type_arguments(alloc, type_arguments)?;
            let entries = erase_entries(alloc, entries)?;
            make::map_literal(alloc, types, *opening, entries, *comma, *closing)
        }
        Primary::New {
            creation,
            class,
            constructor,
            arguments,
        } => {
            let class = try_clone_type(alloc, class)?;
            let constructor = try_clone_maybe_dot_name(alloc, constructor)?;
            let arguments = erase_arguments(alloc, arguments)?;
            make::new_object(alloc, *creation, class, constructor, arguments)
        }
        Primary::Function(parameters, body) => {
            let parameters = erase_parameters(alloc, parameters)?;
            let body = erase_body(alloc, body)?;
            make::function_literal(alloc, parameters, body)
        }
        Primary::Parenthesized {
            opening,
            value,
            closing,
        } => {
            let value = erase_expr(alloc, value)?;
            make::parenthesized(alloc, *opening, value, *closing)
        }
    }
}

/// `.a`, `[a]` or `(a, b: c)`
#[cycle(erase)]
pub fn erase_selector(alloc: Global, tree: &Selector) -> Result<Selector, AllocError>
    ensures { IfOk result (λ x. view.selector x ≡ erased.selector (view.selector tree.now)) }
{
    match tree {
        Selector::Member(dot, name) => {
            let name = try_clone_identifier(alloc, name)?;
            Ok(Selector::Member(*dot, name))
        }
        Selector::Index {
            opening,
            value,
            closing,
        } => {
            let value = erase_expr(alloc, value)?;
            make::index(alloc, *opening, value, *closing)
        }
        Selector::Call(arguments) => {
            let arguments = erase_arguments(alloc, arguments)?;
            Ok(Selector::Call(arguments))
        }
    }
}

/// An expression that may be left out.
#[cycle(erase)]
pub fn erase_value(alloc: Global, tree: &Value) -> Result<Value, AllocError>
    ensures { IfOk result (λ x. view.value x ≡ erased.value (view.value tree.now)) }
{
    match tree {
        Value::Omitted => Ok(Value::Omitted),
        Value::Given(operator, value) => {
            let value = erase_expr(alloc, value)?;
            make::given(alloc, *operator, value)
        }
    }
}

/// `(a, b: c)`
#[cycle(erase)]
pub fn erase_arguments(alloc: Global, tree: &Arguments) -> Result<Arguments, AllocError>
    ensures { IfOk result (λ x. view.arguments x ≡ erased.arguments (view.arguments tree.now)) }
{
    let items = erase_items(alloc, &tree.items)?;
    Ok(make::arguments(tree.opening, items, tree.closing))
}

/// Operands with the operators before them.
#[cycle(erase)]
pub fn erase_tails(alloc: Global, all: &Vec<Tail>) -> Result<Vec<Tail>, AllocError>
    ensures { IfOk result (λ x. tails_of x.items ≡ erased.tails (tails_of all.now.items)) }
{
    let mut found = Vec::new(alloc);
    for tail in all {
        let operand = erase_operand(alloc, &tail.operand)?;
        found.push(Tail {
            operator: tail.operator,
            operand,
        })?;
    }
    Ok(found)
}

/// The pieces of a string (ECMA-408, 16.5.1 String Interpolation).
#[cycle(erase)]
pub fn erase_pieces(alloc: Global, all: &Vec<StringPiece>) -> Result<Vec<StringPiece>, AllocError>
    ensures { IfOk result (λ x. pieces_of x.items ≡ erased.pieces (pieces_of all.now.items)) }
{
    let mut found = Vec::new(alloc);
    for piece in all {
        let text = try_clone_bytes(alloc, &piece.text)?;
        let value = erase_value(alloc, &piece.value)?;
        found.push(StringPiece {
            kind: piece.kind,
            place: piece.place,
            text,
            value,
        })?;
    }
    Ok(found)
}

/// `.a[b](c)`
#[cycle(erase)]
pub fn erase_selectors(alloc: Global, all: &Vec<Selector>) -> Result<Vec<Selector>, AllocError>
    ensures { IfOk result (λ x. selectors_of x.items ≡
        erased.selectors (selectors_of all.now.items)) }
{
    let mut found = Vec::new(alloc);
    for selector in all {
        let selector = erase_selector(alloc, selector)?;
        found.push(selector)?;
    }
    Ok(found)
}

/// `..a = b..c()`
#[cycle(erase)]
pub fn erase_cascades(alloc: Global, all: &Vec<Cascade>) -> Result<Vec<Cascade>, AllocError>
    ensures { IfOk result (λ x. cascades_of x.items ≡ erased.cascades (cascades_of all.now.items)) }
{
    let mut found = Vec::new(alloc);
    for cascade in all {
        let selectors = erase_selectors(alloc, &cascade.selectors)?;
        let value = erase_value(alloc, &cascade.value)?;
        found.push(Cascade {
            dots: cascade.dots,
            selectors,
            value,
        })?;
    }
    Ok(found)
}

/// Arguments, elements of a list literal or updates of a `for`.
#[cycle(erase)]
pub fn erase_items(alloc: Global, all: &Vec<Item>) -> Result<Vec<Item>, AllocError>
    ensures { IfOk result (λ x. items_of x.items ≡ erased.items (items_of all.now.items)) }
{
    let mut found = Vec::new(alloc);
    for item in all {
        let label = try_clone_maybe_label(alloc, &item.label)?;
        let value = erase_expr(alloc, &item.value)?;
        found.push(Item {
            comma: item.comma,
            label,
            value,
        })?;
    }
    Ok(found)
}

/// The entries of a map literal (ECMA-408, 16.8 Maps).
#[cycle(erase)]
pub fn erase_entries(alloc: Global, all: &Vec<Entry>) -> Result<Vec<Entry>, AllocError>
    ensures { IfOk result (λ x. entries_of x.items ≡ erased.entries (entries_of all.now.items)) }
{
    let mut found = Vec::new(alloc);
    for entry in all {
        let key = erase_expr(alloc, &entry.key)?;
        let value = erase_expr(alloc, &entry.value)?;
        found.push(Entry {
            comma: entry.comma,
            key,
            colon: entry.colon,
            value,
        })?;
    }
    Ok(found)
}
