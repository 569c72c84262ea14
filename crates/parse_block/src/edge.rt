// What stands at the end of a statement (ECMA-408, 17.5 If and 17.11 Try).
ghost use Rattle.std.specs.Prelude.{◌≡◌};
ghost use Rattle.dart_syntax.specs.Statements as syntax;
ghost use Rattle.dart_tree.specs.Lists.{try_parts_of};
ghost use Rattle.dart_tree.specs.View as view;
ghost use Rattle.parse_block.specs.Views.{room_of, is_finally_kind};
ghost use Rattle.syntax_readers.specs.Statements as spec;

use dart_tree::statement::{Loop, Stmt, TryKind, TryPart};

/// Whether a statement ends in no `if` without `else` (ECMA-408, 17.5 If).
#[cycle(shut)]
#[tactic(auto, unfolding(dart_syntax::specs::Statements::is_shut, dart_tree::specs::View::stmt))]
pub fn is_shut(statement: &Stmt) -> bool
    ensures { result ≡ syntax.is_shut (view.stmt statement.now) }
{
    match statement {
        Stmt::Labelled(_, body) => is_shut(body),
        Stmt::If {
            word: _,
            opening: _,
            condition: _,
            closing: _,
            first: _,
        } => false,
        Stmt::IfElse {
            word: _,
            opening: _,
            condition: _,
            closing: _,
            first: _,
            else_word: _,
            second,
        } => is_shut(second),
        Stmt::Loop(tree) => is_shut_loop(tree),
        _ => true,
    }
}

// The same of a loop.
#[cycle(shut)]
fn is_shut_loop(tree: &Loop) -> bool
    ensures { result ≡ syntax.is_shut_loop (view.loop tree.now) }
{
    match tree {
        Loop::For {
            word: _,
            opening: _,
            start: _,
            first_semicolon: _,
            condition: _,
            second_semicolon: _,
            updates: _,
            closing: _,
            body,
        } => is_shut(body),
        Loop::ForVariables {
            word: _,
            opening: _,
            variables: _,
            condition: _,
            semicolon: _,
            updates: _,
            closing: _,
            body,
        } => is_shut(body),
        Loop::ForIn {
            word: _,
            opening: _,
            kind: _,
            name: _,
            in_word: _,
            iterated: _,
            closing: _,
            body,
        } => is_shut(body),
        Loop::While {
            word: _,
            opening: _,
            condition: _,
            closing: _,
            body,
        } => is_shut(body),
        Loop::Do {
            word: _,
            body: _,
            while_word: _,
            opening: _,
            condition: _,
            closing: _,
            semicolon: _,
        } => true,
    }
}

// Whether a part of a `try` is its `finally`.
fn is_finally(kind: &TryKind) -> bool
    ensures { result ≡ is_finally_kind (view.try_kind kind.now) }
{
    matches!(kind, TryKind::Finally(_))
}

/// Whether parts of a `try` leave room for another, since none is its `finally` (ECMA-408, 17.11 Try).
pub fn ends_open(parts: &[TryPart]) -> bool
    ensures { result ≡ spec.ends_open (try_parts_of parts.now) }
{
    match parts.last() {
        None => false,
        Some(part) => !is_finally(&part.kind),
    }
}

/// Where a statement ends in a `try` that leaves room for another part, how many nodes the type behind the `on` of such a part
/// has room for, of the nodes that the statement has room for (ECMA-408, 17.11 Try).
#[cycle(rooms)]
#[tactic(auto, unfolding(syntax_readers::specs::Statements::open_try, dart_tree::specs::View::stmt))]
pub fn type_room(statement: &Stmt, depth: usize) -> Option<usize>
    ensures { result ≡ room_of depth (spec.open_try (view.stmt statement.now)) }
{
    let inside = depth.saturating_sub(1);
    match statement {
        Stmt::Labelled(_, body) => type_room(body, depth),
        Stmt::If {
            word: _,
            opening: _,
            condition: _,
            closing: _,
            first,
        } => type_room(first, inside),
        Stmt::IfElse {
            word: _,
            opening: _,
            condition: _,
            closing: _,
            first: _,
            else_word: _,
            second,
        } => type_room(second, inside),
        Stmt::Loop(tree) => type_room_in(tree, depth),
        Stmt::Try {
            word: _,
            block: _,
            parts,
        } => { if ends_open(parts) { Some(inside) } else { None } }
        _ => None,
    }
}

// The same of a loop.
#[cycle(rooms)]
fn type_room_in(tree: &Loop, depth: usize) -> Option<usize>
    ensures { result ≡ room_of depth (spec.open_try_in (view.loop tree.now)) }
{
    let inside = depth.saturating_sub(1);
    match tree {
        Loop::For {
            word: _,
            opening: _,
            start: _,
            first_semicolon: _,
            condition: _,
            second_semicolon: _,
            updates: _,
            closing: _,
            body,
        } => type_room(body, inside),
        Loop::ForVariables {
            word: _,
            opening: _,
            variables: _,
            condition: _,
            semicolon: _,
            updates: _,
            closing: _,
            body,
        } => type_room(body, inside),
        Loop::ForIn {
            word: _,
            opening: _,
            kind: _,
            name: _,
            in_word: _,
            iterated: _,
            closing: _,
            body,
        } => type_room(body, inside),
        Loop::While {
            word: _,
            opening: _,
            condition: _,
            closing: _,
            body,
        } => type_room(body, inside),
        Loop::Do {
            word: _,
            body: _,
            while_word: _,
            opening: _,
            condition: _,
            closing: _,
            semicolon: _,
        } => None,
    }
}
