// Statements, functions and parameters without annotations. Each function reads a tree, and fails only where memory runs out.
ghost use Rattle.std.specs.Prelude.{◌≡◌, IfOk, Option, None, Some};
ghost use Rattle.dart_erase.specs.Erased as erased;
ghost use Rattle.dart_tree.specs.Lists.{block_of, parameter_list_of, metadata_of, stmts_of, more_variables_of, switch_parts_of, try_parts_of};
ghost use Rattle.dart_tree.specs.View as view;

use crate::expression::{erase_expr, erase_items, erase_value};
use crate::leaf::{erase_kind, erase_parameter_type};
use dart_node::leaf::{
    try_clone_dot_names, try_clone_identifier, try_clone_jump, try_clone_labels, try_clone_try_kind,
};
use dart_node::make::{expression, statement};
use dart_tree::parameter::{Annotation, Parameter, ParameterKind, Parameters, VariableKind};
use dart_tree::statement::{
    Block, Body, Function, Loop, Stmt, SwitchPart, TryPart, Variable, Variables,
};
use std::alloc::{AllocError, Global};

/// `(a, [b = 1])` (ECMA-408, 9.2 Formal Parameters)
#[cycle(erase)]
pub fn erase_parameters(alloc: Global, tree: &Parameters) -> Result<Parameters, AllocError>
    ensures { IfOk result (λ x. view.parameters x ≡ erased.parameters (view.parameters tree.now)) }
{
    let required = erase_parameter_list(alloc, &tree.required)?;
    let optional = erase_parameter_list(alloc, &tree.optional)?;
    Ok(expression::parameters(
        tree.opening,
        required,
        tree.brackets,
        optional,
        tree.closing,
    ))
}

/// A parameter, which keeps its metadata and its default value.
#[cycle(erase)]
pub fn erase_parameter(alloc: Global, tree: &Parameter) -> Result<Parameter, AllocError>
    ensures { IfOk result (λ x. view.parameter x ≡ erased.parameter (view.parameter tree.now)) }
{
    let metadata = erase_metadata(alloc, &tree.metadata)?;
    let kind = erase_parameter_kind(alloc, &tree.kind)?;
    let value = erase_value(alloc, &tree.value)?;
    Ok(expression::parameter(tree.comma, metadata, kind, value))
}

/// A parameter without its type: one that is a function is left as a name (ECMA-408, 9.2.1 Required Formals).
pub fn erase_parameter_kind(
    alloc: Global,
    tree: &ParameterKind,
) -> Result<ParameterKind, AllocError>
    ensures { IfOk result (λ x. view.parameter_kind x ≡
        erased.parameter_kind (view.parameter_kind tree.now)) }
{
    match tree {
        ParameterKind::Plain {
            kind,
            this_dot,
            name,
        } => {
            let kind = erase_parameter_type(kind);
            let name = try_clone_identifier(alloc, name)?;
            Ok(ParameterKind::Plain {
                kind,
                this_dot: *this_dot,
                name,
            })
        }
        ParameterKind::Function {
            result_type: _,
            this_dot,
            name,
            parameters: _,
        } => {
            let kind = VariableKind::Omitted;
            let name = try_clone_identifier(alloc, name)?;
            Ok(ParameterKind::Plain {
                kind,
                this_dot: *this_dot,
                name,
            })
        }
    }
}

/// `@a.b(c)` (ECMA-408, 15 Metadata)
#[cycle(erase)]
pub fn erase_annotation(alloc: Global, tree: &Annotation) -> Result<Annotation, AllocError>
    ensures { IfOk result (λ x. view.annotation x ≡ erased.annotation (view.annotation tree.now)) }
{
    let name = try_clone_identifier(alloc, &tree.name)?;
    let more = try_clone_dot_names(alloc, &tree.more)?;
    let items = erase_items(alloc, &tree.items)?;
    Ok(expression::annotation(tree.at, name, more, tree.call, items))
}

/// The body of a function (ECMA-408, 9 Functions).
#[cycle(erase)]
pub fn erase_body(alloc: Global, tree: &Body) -> Result<Body, AllocError>
    ensures { IfOk result (λ x. view.body x ≡ erased.body (view.body tree.now)) }
{
    match tree {
        Body::Arrow {
            arrow,
            value,
            semicolon,
        } => {
            let value = erase_expr(alloc, value)?;
            statement::arrow(alloc, *arrow, value, *semicolon)
        }
        Body::Block(block) => {
            let block = erase_block(alloc, block)?;
            Ok(statement::block_body(block))
        }
        Body::Omitted(semicolon) => Ok(Body::Omitted(*semicolon)),
    }
}

/// `{ a; b; }` (ECMA-408, 17.1 Blocks)
#[cycle(erase)]
pub fn erase_block(alloc: Global, tree: &Block) -> Result<Block, AllocError>
    ensures { IfOk result (λ x. block_of x ≡ erased.block (block_of tree.now)) }
{
    let statements = erase_stmts(alloc, &tree.statements)?;
    Ok(Block {
        opening: tree.opening,
        statements,
        closing: tree.closing,
    })
}

/// A statement (ECMA-408, 17 Statements).
#[cycle(erase)]
pub fn erase_stmt(alloc: Global, tree: &Stmt) -> Result<Stmt, AllocError>
    ensures { IfOk result (λ x. view.stmt x ≡ erased.stmt (view.stmt tree.now)) }
{
    match tree {
        Stmt::Labelled(labels, statement) => {
            let labels = try_clone_labels(alloc, labels)?;
            let statement = erase_stmt(alloc, statement)?;
            statement::labelled(alloc, labels, statement)
        }
        Stmt::Block(block) => {
            let block = erase_block(alloc, block)?;
            Ok(statement::block_statement(block))
        }
        Stmt::Variables(variables) => {
            let variables = erase_variables(alloc, variables)?;
            Ok(Stmt::Variables(variables))
        }
        Stmt::Function(function) => {
            let function = erase_function(alloc, function)?;
            statement::function_statement(alloc, function)
        }
        Stmt::If {
            word,
            opening,
            condition,
            closing,
            first,
        } => {
            let condition = erase_expr(alloc, condition)?;
            let first = erase_stmt(alloc, first)?;
            statement::if_statement(alloc, *word, *opening, condition, *closing, first)
        }
        Stmt::IfElse {
            word,
            opening,
            condition,
            closing,
            first,
            else_word,
            second,
        } => {
            let condition = erase_expr(alloc, condition)?;
            let first = erase_stmt(alloc, first)?;
            let second = erase_stmt(alloc, second)?;
            statement::if_else(
                alloc, *word, *opening, condition, *closing, first, *else_word, second,
            )
        }
        Stmt::Loop(again) => {
            let again = erase_loop(alloc, again)?;
            statement::loop_statement(alloc, again)
        }
        Stmt::Switch {
            word,
            opening,
            value,
            closing,
            opening_brace,
            parts,
            closing_brace,
        } => {
            let value = erase_expr(alloc, value)?;
            let parts = erase_switch_parts(alloc, parts)?;
            Ok(statement::switch_statement(
                *word,
                *opening,
                value,
                *closing,
                *opening_brace,
                parts,
                *closing_brace,
            ))
        }
        Stmt::Try { word, block, parts } => {
            let block = erase_block(alloc, block)?;
            let parts = erase_try_parts(alloc, parts)?;
            Ok(statement::try_statement(*word, block, parts))
        }
        Stmt::Return {
            word,
            value,
            semicolon,
        } => {
            let value = erase_value(alloc, value)?;
            Ok(Stmt::Return {
                word: *word,
                value,
                semicolon: *semicolon,
            })
        }
        Stmt::Jump(jump) => {
            let jump = try_clone_jump(alloc, jump)?;
            Ok(Stmt::Jump(jump))
        }
        Stmt::Expression(value, semicolon) => {
            let value = erase_value(alloc, value)?;
            Ok(Stmt::Expression(value, *semicolon))
        }
    }
}

/// A loop, whose variable of `for (int a in b)` becomes `var a` (ECMA-408, 17.6 For).
#[cycle(erase)]
pub fn erase_loop(alloc: Global, tree: &Loop) -> Result<Loop, AllocError>
    ensures { IfOk result (λ x. view.loop x ≡ erased.loop (view.loop tree.now)) }
{
    match tree {
        Loop::For {
            word,
            opening,
            start,
            first_semicolon,
            condition,
            second_semicolon,
            updates,
            closing,
            body,
        } => {
            let start = erase_value(alloc, start)?;
            let condition = erase_value(alloc, condition)?;
            let updates = erase_items(alloc, updates)?;
            let body = erase_stmt(alloc, body)?;
            statement::for_loop(
                alloc,
                *word,
                *opening,
                start,
                *first_semicolon,
                condition,
                *second_semicolon,
                updates,
                *closing,
                body,
            )
        }
        Loop::ForVariables {
            word,
            opening,
            variables,
            condition,
            semicolon,
            updates,
            closing,
            body,
        } => {
            let variables = erase_variables(alloc, variables)?;
            let condition = erase_value(alloc, condition)?;
            let updates = erase_items(alloc, updates)?;
            let body = erase_stmt(alloc, body)?;
            statement::for_variables(
                alloc, *word, *opening, variables, condition, *semicolon, updates, *closing, body,
            )
        }
        Loop::ForIn {
            word,
            opening,
            kind,
            name,
            in_word,
            iterated,
            closing,
            body,
        } => {
            let kind = erase_kind(kind, name);
            let name = try_clone_identifier(alloc, name)?;
            let iterated = erase_expr(alloc, iterated)?;
            let body = erase_stmt(alloc, body)?;
            statement::for_in(
                alloc, *word, *opening, kind, name, *in_word, iterated, *closing, body,
            )
        }
        Loop::While {
            word,
            opening,
            condition,
            closing,
            body,
        } => {
            let condition = erase_expr(alloc, condition)?;
            let body = erase_stmt(alloc, body)?;
            statement::while_loop(alloc, *word, *opening, condition, *closing, body)
        }
        Loop::Do {
            word,
            body,
            while_word,
            opening,
            condition,
            closing,
            semicolon,
        } => {
            let body = erase_stmt(alloc, body)?;
            let condition = erase_expr(alloc, condition)?;
            statement::do_loop(
                alloc,
                *word,
                body,
                *while_word,
                *opening,
                condition,
                *closing,
                *semicolon,
            )
        }
    }
}

/// `var a = b, c;`, where `var` stands at the place of the first name if there was a type alone (ECMA-408, 8 Variables).
#[cycle(erase)]
pub fn erase_variables(alloc: Global, tree: &Variables) -> Result<Variables, AllocError>
    ensures { IfOk result (λ x. view.variables x ≡ erased.variables (view.variables tree.now)) }
{
    let kind = erase_kind(&tree.kind, &tree.name);
    let name = try_clone_identifier(alloc, &tree.name)?;
    let value = erase_value(alloc, &tree.value)?;
    let more = erase_more_variables(alloc, &tree.more)?;
    Ok(statement::variables(kind, name, value, more, tree.semicolon))
}

/// A function without its result type (ECMA-408, 9 Functions).
#[cycle(erase)]
pub fn erase_function(alloc: Global, tree: &Function) -> Result<Function, AllocError>
    ensures { IfOk result (λ x. view.function x ≡ erased.function (view.function tree.now)) }
{
    let name = try_clone_identifier(alloc, &tree.name)?;
    let parameters = erase_parameters(alloc, &tree.parameters)?;
    let body = erase_body(alloc, &tree.body)?;
    Ok(statement::function(tree.external, None, name, parameters, body))
}

/// `a, b = 1`
#[cycle(erase)]
pub fn erase_parameter_list(
    alloc: Global,
    all: &Vec<Parameter>,
) -> Result<Vec<Parameter>, AllocError>
    ensures { IfOk result (λ x. parameter_list_of x.items ≡
        erased.parameter_list (parameter_list_of all.now.items)) }
{
    let mut found = Vec::new(alloc);
    for parameter in all {
        let parameter = erase_parameter(alloc, parameter)?;
        found.push(parameter)?;
    }
    Ok(found)
}

/// `@a @b` (ECMA-408, 15 Metadata)
#[cycle(erase)]
pub fn erase_metadata(alloc: Global, all: &Vec<Annotation>) -> Result<Vec<Annotation>, AllocError>
    ensures { IfOk result (λ x. metadata_of x.items ≡ erased.metadata (metadata_of all.now.items)) }
{
    let mut found = Vec::new(alloc);
    for annotation in all {
        let annotation = erase_annotation(alloc, annotation)?;
        found.push(annotation)?;
    }
    Ok(found)
}

/// Statements in order.
#[cycle(erase)]
pub fn erase_stmts(alloc: Global, all: &Vec<Stmt>) -> Result<Vec<Stmt>, AllocError>
    ensures { IfOk result (λ x. stmts_of x.items ≡ erased.stmts (stmts_of all.now.items)) }
{
    let mut found = Vec::new(alloc);
    for statement in all {
        let statement = erase_stmt(alloc, statement)?;
        found.push(statement)?;
    }
    Ok(found)
}

/// `, a = b, c`
#[cycle(erase)]
pub fn erase_more_variables(alloc: Global, all: &Vec<Variable>) -> Result<Vec<Variable>, AllocError>
    ensures { IfOk result (λ x. more_variables_of x.items ≡
        erased.more_variables (more_variables_of all.now.items)) }
{
    let mut found = Vec::new(alloc);
    for variable in all {
        let name = try_clone_identifier(alloc, &variable.name)?;
        let value = erase_value(alloc, &variable.value)?;
        found.push(Variable {
            comma: variable.comma,
            name,
            value,
        })?;
    }
    Ok(found)
}

/// The parts of a `switch` (ECMA-408, 17.9 Switch).
#[cycle(erase)]
pub fn erase_switch_parts(
    alloc: Global,
    all: &Vec<SwitchPart>,
) -> Result<Vec<SwitchPart>, AllocError>
    ensures { IfOk result (λ x. switch_parts_of x.items ≡
        erased.switch_parts (switch_parts_of all.now.items)) }
{
    let mut found = Vec::new(alloc);
    for part in all {
        let labels = try_clone_labels(alloc, &part.labels)?;
        let value = erase_value(alloc, &part.value)?;
        let statements = erase_stmts(alloc, &part.statements)?;
        found.push(SwitchPart {
            labels,
            word: part.word,
            value,
            colon: part.colon,
            statements,
        })?;
    }
    Ok(found)
}

/// The parts of a `try` behind its block (ECMA-408, 17.11 Try).
#[cycle(erase)]
pub fn erase_try_parts(alloc: Global, all: &Vec<TryPart>) -> Result<Vec<TryPart>, AllocError>
    ensures { IfOk result (λ x. try_parts_of x.items ≡
        erased.try_parts (try_parts_of all.now.items)) }
{
    let mut found = Vec::new(alloc);
    for part in all {
        let kind = try_clone_try_kind(alloc, &part.kind)?;
        let block = erase_block(alloc, &part.block)?;
        found.push(TryPart { kind, block })?;
    }
    Ok(found)
}
