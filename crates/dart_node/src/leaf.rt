// Copies of names, types and the parts of trees that hold no expression. Each fails only where memory runs out.
ghost use Rattle.std.specs.Prelude.{◌≡◌, IfOk, Option, None, Some};
ghost use Rattle.dart_tree.specs.Lists.{type_list_of};
ghost use Rattle.dart_tree.specs.View as view;

use crate::make::expression as make;
use dart_base::bytes::Bytes;
use dart_base::place::Place;
use dart_tree::expression::Atom;
use dart_tree::identifier::{CommaName, DotName, Identifier, Label};
use dart_tree::parameter::VariableKind;
use dart_tree::statement::{Catch, Jump, TryKind};
use dart_tree::types::{TypeArgument, TypeArguments, TypeNode};
use std::alloc::{AllocError, Global};

/// The same bytes.
pub fn try_clone_bytes(alloc: Global, text: &Bytes) -> Result<Bytes, AllocError>
    ensures { IfOk result (λ x. x ≡ text.now) }
{
    Bytes::from_slice(alloc, text.as_slice())
}

/// The same name (ECMA-408, 16.33 Identifier Reference).
pub fn try_clone_identifier(alloc: Global, name: &Identifier) -> Result<Identifier, AllocError>
    ensures { IfOk result (λ x. x ≡ name.now) }
{
    match name {
        Identifier::Name(place, text) => Ok(Identifier::Name(
            *place,
            try_clone_bytes(alloc, text)?,
        )),
        Identifier::Get(place) => Ok(Identifier::Get(*place)),
        Identifier::Set(place) => Ok(Identifier::Set(*place)),
    }
}

/// The same name, or none.
pub fn try_clone_maybe_identifier(
    alloc: Global,
    name: &Option<Identifier>,
) -> Result<Option<Identifier>, AllocError>
    ensures { IfOk result (λ x. x ≡ name.now) }
{
    match name {
        None => Ok(None),
        Some(name) => Ok(Some(try_clone_identifier(alloc, name)?)),
    }
}

/// `.a`
pub fn try_clone_dot_name(alloc: Global, name: &DotName) -> Result<DotName, AllocError>
    ensures { IfOk result (λ x. x ≡ name.now) }
{
    Ok(DotName {
        dot: name.dot,
        name: try_clone_identifier(alloc, &name.name)?,
    })
}

/// `.a`, or nothing.
pub fn try_clone_maybe_dot_name(
    alloc: Global,
    name: &Option<DotName>,
) -> Result<Option<DotName>, AllocError>
    ensures { IfOk result (λ x. x ≡ name.now) }
{
    match name {
        None => Ok(None),
        Some(name) => Ok(Some(try_clone_dot_name(alloc, name)?)),
    }
}

/// `a:` (ECMA-408, 17.13 Labels)
pub fn try_clone_label(alloc: Global, label: &Label) -> Result<Label, AllocError>
    ensures { IfOk result (λ x. x ≡ label.now) }
{
    Ok(Label {
        name: try_clone_identifier(alloc, &label.name)?,
        colon: label.colon,
    })
}

/// `a:`, or nothing.
pub fn try_clone_maybe_label(
    alloc: Global,
    label: &Option<Label>,
) -> Result<Option<Label>, AllocError>
    ensures { IfOk result (λ x. x ≡ label.now) }
{
    match label {
        None => Ok(None),
        Some(label) => Ok(Some(try_clone_label(alloc, label)?)),
    }
}

/// An expression of one token (ECMA-408, 16 Expressions).
pub fn try_clone_atom(alloc: Global, atom: &Atom) -> Result<Atom, AllocError>
    ensures { IfOk result (λ x. x ≡ atom.now) }
{
    match atom {
        Atom::This(place) => Ok(Atom::This(*place)),
        Atom::Null(place) => Ok(Atom::Null(*place)),
        Atom::True(place) => Ok(Atom::True(*place)),
        Atom::False(place) => Ok(Atom::False(*place)),
        Atom::Integer(place, digits) => Ok(Atom::Integer(*place, try_clone_bytes(alloc, digits)?)),
        Atom::Name(name) => Ok(Atom::Name(try_clone_identifier(alloc, name)?)),
    }
}

/// `break a;`, `continue a;` or `rethrow;` (ECMA-408, 17 Statements).
pub fn try_clone_jump(alloc: Global, jump: &Jump) -> Result<Jump, AllocError>
    ensures { IfOk result (λ x. x ≡ jump.now) }
{
    match jump {
        Jump::Break {
            word,
            label,
            semicolon,
        } => Ok(Jump::Break {
            word: *word,
            label: try_clone_maybe_identifier(alloc, label)?,
            semicolon: *semicolon,
        }),
        Jump::Continue {
            word,
            label,
            semicolon,
        } => Ok(Jump::Continue {
            word: *word,
            label: try_clone_maybe_identifier(alloc, label)?,
            semicolon: *semicolon,
        }),
        Jump::Rethrow(word, semicolon) => Ok(Jump::Rethrow(*word, *semicolon)),
    }
}

/// `.a.b`
pub fn try_clone_dot_names(alloc: Global, names: &Vec<DotName>) -> Result<Vec<DotName>, AllocError>
    ensures { IfOk result (λ x. x.items ≡ names.now.items) }
{
    let mut found = Vec::new(alloc);
    for name in names {
        let name = try_clone_dot_name(alloc, name)?;
        found.push(name)?;
    }
    Ok(found)
}

/// `a: b:` (ECMA-408, 17.13 Labels)
pub fn try_clone_labels(alloc: Global, labels: &Vec<Label>) -> Result<Vec<Label>, AllocError>
    ensures { IfOk result (λ x. x.items ≡ labels.now.items) }
{
    let mut found = Vec::new(alloc);
    for label in labels {
        let label = try_clone_label(alloc, label)?;
        found.push(label)?;
    }
    Ok(found)
}

/// `, a` in a `catch`, or nothing.
fn try_clone_trace(
    alloc: Global,
    trace: &Option<CommaName>,
) -> Result<Option<CommaName>, AllocError>
    ensures { IfOk result (λ x. x ≡ trace.now) }
{
    match trace {
        None => Ok(None),
        Some(trace) => Ok(Some(CommaName {
            comma: trace.comma,
            name: try_clone_identifier(alloc, &trace.name)?,
        })),
    }
}

/// `catch (a, b)` (ECMA-408, 17.11 Try)
fn try_clone_catch(alloc: Global, catch: &Catch) -> Result<Catch, AllocError>
    ensures { IfOk result (λ x. x ≡ catch.now) }
{
    let exception = try_clone_identifier(alloc, &catch.exception)?;
    let trace = try_clone_trace(alloc, &catch.trace)?;
    Ok(Catch {
        word: catch.word,
        opening: catch.opening,
        exception,
        trace,
        closing: catch.closing,
    })
}

/// `catch (a, b)`, or nothing.
fn try_clone_maybe_catch(alloc: Global, catch: &Option<Catch>) -> Result<Option<Catch>, AllocError>
    ensures { IfOk result (λ x. x ≡ catch.now) }
{
    match catch {
        None => Ok(None),
        Some(catch) => Ok(Some(try_clone_catch(alloc, catch)?)),
    }
}

/// What begins a part of a `try` (ECMA-408, 17.11 Try).
pub fn try_clone_try_kind(alloc: Global, kind: &TryKind) -> Result<TryKind, AllocError>
    ensures { IfOk result (λ x. view.try_kind x ≡ view.try_kind kind.now) }
{
    match kind {
        TryKind::On {
            word,
            type_node,
            catch,
        } => {
            let type_node = try_clone_type(alloc, type_node)?;
            let catch = try_clone_maybe_catch(alloc, catch)?;
            Ok(TryKind::On {
                word: *word,
                type_node,
                catch,
            })
        }
        TryKind::Catch(catch) => {
            let catch = try_clone_catch(alloc, catch)?;
            Ok(TryKind::Catch(catch))
        }
        TryKind::Finally(place) => Ok(TryKind::Finally(*place)),
    }
}

/// A type as it is written (ECMA-408, 19.1 Static Types).
#[cycle(types)]
pub fn try_clone_type(alloc: Global, of: &TypeNode) -> Result<TypeNode, AllocError>
    ensures { IfOk result (λ x. view.type_node x ≡ view.type_node of.now) }
{
    match of {
        TypeNode::Dynamic(place) => Ok(TypeNode::Dynamic(*place)),
        TypeNode::Named {
            name,
            member,
            arguments,
        } => {
            let name = try_clone_identifier(alloc, name)?;
            let member = try_clone_maybe_dot_name(alloc, member)?;
            let arguments = try_clone_type_arguments(alloc, arguments)?;
            Ok(TypeNode::Named {
                name,
                member,
                arguments,
            })
        }
    }
}

/// `<A, B>`, or nothing (ECMA-408, 14 Generics).
#[cycle(types)]
pub fn try_clone_type_arguments(
    alloc: Global,
    arguments: &TypeArguments,
) -> Result<TypeArguments, AllocError>
    ensures { IfOk result (λ x. view.type_arguments x ≡ view.type_arguments arguments.now) }
{
    match arguments {
        TypeArguments::Omitted => Ok(TypeArguments::Omitted),
        TypeArguments::Listed {
            opening,
            arguments,
            closing,
        } => {
            let arguments = try_clone_type_list(alloc, arguments)?;
            Ok(make::listed_types(*opening, arguments, *closing))
        }
    }
}

/// `A, B` (ECMA-408, 14 Generics)
#[cycle(types)]
pub fn try_clone_type_list(
    alloc: Global,
    listed: &Vec<TypeArgument>,
) -> Result<Vec<TypeArgument>, AllocError>
    ensures { IfOk result (λ x. type_list_of x.items ≡ type_list_of listed.now.items) }
{
    let mut found = Vec::new(alloc);
    for one in listed {
        let argument = try_clone_type(alloc, &one.argument)?;
        found.push(TypeArgument {
            comma: one.comma,
            argument,
        })?;
    }
    Ok(found)
}
