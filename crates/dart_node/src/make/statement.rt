// Statements, variables and functions from their parts.
ghost use Rattle.std.specs.Prelude.{◌≡◌, IfOk};
ghost use Rattle.dart_tree.specs.Lists.{block_of, items_of, more_variables_of, switch_parts_of, try_parts_of};
ghost use Rattle.dart_tree.specs.Tree as t;
ghost use Rattle.dart_tree.specs.View as view;

use dart_base::place::Place;
use dart_tree::expression::{Expr, Item, Value};
use dart_tree::identifier::{Identifier, Label};
use dart_tree::parameter::{Parameters, VariableKind};
use dart_tree::statement::{
    Block, Body, Function, Loop, Stmt, SwitchPart, TryPart, Variable, Variables,
};
use dart_tree::types::ResultType;
use std::alloc::{AllocError, Global};

/// `a: b: c;`, or the statement alone where there are no labels (ECMA-408, 17.13 Labels).
pub fn labelled(alloc: Global, labels: Vec<Label>, statement: Stmt) -> Result<Stmt, AllocError>
    ensures { IfOk result (λ x. view.stmt x ≡ t.with_labels labels.items (view.stmt statement)) }
{
    if labels.is_empty() {
        return Ok(statement);
    }
    let statement = Box::new(alloc, statement)?;
    Ok(Stmt::Labelled(labels, statement))
}

/// `{ a; b; }` (ECMA-408, 17.1 Blocks).
pub fn block_statement(block: Block) -> Stmt
    ensures { view.stmt result ≡ t.block_stmt (block_of block) }
{
    Stmt::Block(block)
}

/// `var a = b, c;` (ECMA-408, 8 Variables).
pub fn variables(
    kind: VariableKind,
    name: Identifier,
    value: Value,
    more: Vec<Variable>,
    semicolon: Place,
) -> Variables
    ensures { view.variables result ≡
        t.the_variables (view.variable_kind kind) name (view.value value)
        (more_variables_of more.items) semicolon }
{
    Variables {
        kind,
        name,
        value,
        more,
        semicolon,
    }
}

/// `external int a(b) => c;` (ECMA-408, 9 Functions).
pub fn function(
    external: Option<Place>,
    result_type: Option<ResultType>,
    name: Identifier,
    parameters: Parameters,
    body: Body,
) -> Function
    ensures { view.function result ≡
        t.the_function external (view.result_option result_type) name (view.parameters parameters)
        (view.body body) }
{
    Function {
        external,
        result_type,
        name,
        parameters,
        body,
    }
}

/// `a(b) { c; }` (ECMA-408, 17.4 Local Function Declaration).
pub fn function_statement(alloc: Global, function: Function) -> Result<Stmt, AllocError>
    ensures { IfOk result (λ x. view.stmt x ≡ t.function_stmt (view.function function)) }
{
    let function = Box::new(alloc, function)?;
    Ok(Stmt::Function(function))
}

/// `for (a; b; c) d;`, `while (a) b;` and the like (ECMA-408, 17.6 For, 17.7 While and 17.8 Do).
pub fn loop_statement(alloc: Global, again: Loop) -> Result<Stmt, AllocError>
    ensures { IfOk result (λ x. view.stmt x ≡ t.loop (view.loop again)) }
{
    let again = Box::new(alloc, again)?;
    Ok(Stmt::Loop(again))
}

/// `if (a) b;` (ECMA-408, 17.5 If).
pub fn if_statement(
    alloc: Global,
    word: Place,
    opening: Place,
    condition: Expr,
    closing: Place,
    first: Stmt,
) -> Result<Stmt, AllocError>
    ensures { IfOk result (λ x. view.stmt x ≡
        t.if_stmt word opening (view.expr condition) closing (view.stmt first)) }
{
    let first = Box::new(alloc, first)?;
    Ok(Stmt::If {
        word,
        opening,
        condition,
        closing,
        first,
    })
}

/// `if (a) b; else c;` (ECMA-408, 17.5 If).
pub fn if_else(
    alloc: Global,
    word: Place,
    opening: Place,
    condition: Expr,
    closing: Place,
    first: Stmt,
    else_word: Place,
    second: Stmt,
) -> Result<Stmt, AllocError>
    ensures { IfOk result (λ x. view.stmt x ≡
        t.if_else word opening (view.expr condition) closing (view.stmt first) else_word
        (view.stmt second)) }
{
    let first = Box::new(alloc, first)?;
    let second = Box::new(alloc, second)?;
    Ok(Stmt::IfElse {
        word,
        opening,
        condition,
        closing,
        first,
        else_word,
        second,
    })
}

/// `for (a; b; c) d;` (ECMA-408, 17.6.1 For Loop).
pub fn for_loop(
    alloc: Global,
    word: Place,
    opening: Place,
    start: Value,
    first_semicolon: Place,
    condition: Value,
    second_semicolon: Place,
    updates: Vec<Item>,
    closing: Place,
    body: Stmt,
) -> Result<Loop, AllocError>
    ensures { IfOk result (λ x. view.loop x ≡
        t.for_loop word opening (view.value start) first_semicolon
        (view.value condition) second_semicolon (items_of updates.items) closing (view.stmt body)) }
{
    let body = Box::new(alloc, body)?;
    Ok(Loop::For {
        word,
        opening,
        start,
        first_semicolon,
        condition,
        second_semicolon,
        updates,
        closing,
        body,
    })
}

/// `for (var a = b; c; d) e;` (ECMA-408, 17.6.1 For Loop).
pub fn for_variables(
    alloc: Global,
    word: Place,
    opening: Place,
    variables: Variables,
    condition: Value,
    semicolon: Place,
    updates: Vec<Item>,
    closing: Place,
    body: Stmt,
) -> Result<Loop, AllocError>
    ensures { IfOk result (λ x. view.loop x ≡
        t.for_variables word opening (view.variables variables) (view.value condition) semicolon
        (items_of updates.items) closing (view.stmt body)) }
{
    let body = Box::new(alloc, body)?;
    Ok(Loop::ForVariables {
        word,
        opening,
        variables,
        condition,
        semicolon,
        updates,
        closing,
        body,
    })
}

/// `for (a in b) c;` (ECMA-408, 17.6.2 For-in).
pub fn for_in(
    alloc: Global,
    word: Place,
    opening: Place,
    kind: VariableKind,
    name: Identifier,
    in_word: Place,
    iterated: Expr,
    closing: Place,
    body: Stmt,
) -> Result<Loop, AllocError>
    ensures { IfOk result (λ x. view.loop x ≡
        t.for_in word opening (view.variable_kind kind) name in_word (view.expr iterated) closing
        (view.stmt body)) }
{
    let body = Box::new(alloc, body)?;
    Ok(Loop::ForIn {
        word,
        opening,
        kind,
        name,
        in_word,
        iterated,
        closing,
        body,
    })
}

/// `while (a) b;` (ECMA-408, 17.7 While).
pub fn while_loop(
    alloc: Global,
    word: Place,
    opening: Place,
    condition: Expr,
    closing: Place,
    body: Stmt,
) -> Result<Loop, AllocError>
    ensures { IfOk result (λ x. view.loop x ≡
        t.while_loop word opening (view.expr condition) closing (view.stmt body)) }
{
    let body = Box::new(alloc, body)?;
    Ok(Loop::While {
        word,
        opening,
        condition,
        closing,
        body,
    })
}

/// `do a; while (b);` (ECMA-408, 17.8 Do).
pub fn do_loop(
    alloc: Global,
    word: Place,
    body: Stmt,
    while_word: Place,
    opening: Place,
    condition: Expr,
    closing: Place,
    semicolon: Place,
) -> Result<Loop, AllocError>
    ensures { IfOk result (λ x. view.loop x ≡
        t.do_loop word (view.stmt body) while_word opening (view.expr condition) closing semicolon) }
{
    let body = Box::new(alloc, body)?;
    Ok(Loop::Do {
        word,
        body,
        while_word,
        opening,
        condition,
        closing,
        semicolon,
    })
}

/// `switch (a) { case b: c; default: d; }` (ECMA-408, 17.9 Switch).
pub fn switch_statement(
    word: Place,
    opening: Place,
    value: Expr,
    closing: Place,
    opening_brace: Place,
    parts: Vec<SwitchPart>,
    closing_brace: Place,
) -> Stmt
    ensures { view.stmt result ≡
        t.switch_stmt word opening (view.expr value) closing opening_brace
        (switch_parts_of parts.items) closing_brace }
{
    Stmt::Switch {
        word,
        opening,
        value,
        closing,
        opening_brace,
        parts,
        closing_brace,
    }
}

/// `try { a; } on A catch (b) { c; } finally { d; }` (ECMA-408, 17.11 Try).
pub fn try_statement(word: Place, block: Block, parts: Vec<TryPart>) -> Stmt
    ensures { view.stmt result ≡ t.try_stmt word (block_of block) (try_parts_of parts.items) }
{
    Stmt::Try { word, block, parts }
}

/// `=> a;` or `=> a` (ECMA-408, 9 Functions).
pub fn arrow(
    alloc: Global,
    arrow: Place,
    value: Expr,
    semicolon: Option<Place>,
) -> Result<Body, AllocError>
    ensures { IfOk result (λ x. view.body x ≡ t.arrow_body arrow (view.expr value) semicolon) }
{
    let value = Box::new(alloc, value)?;
    Ok(Body::Arrow {
        arrow,
        value,
        semicolon,
    })
}

/// `{ a; }` (ECMA-408, 9 Functions).
pub fn block_body(block: Block) -> Body
    ensures { view.body result ≡ t.block_body (block_of block) }
{
    Body::Block(block)
}
