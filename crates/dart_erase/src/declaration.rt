// Declarations without annotations.
ghost use Rattle.std.specs.Prelude.{◌≡◌, IfOk, Option, None, Some, map};
ghost use Rattle.dart_erase.specs.UnitErased as unit_erased;
ghost use Rattle.dart_tree.specs.UnitView as unit_view;

use crate::member::{erase_accessor, erase_members};
use crate::statement::{erase_function, erase_metadata, erase_parameters, erase_variables};
use dart_node::declaration::{
    try_clone_enum, try_clone_maybe_bound, try_clone_maybe_superclass, try_clone_maybe_type_clause,
    try_clone_type_clause,
};
use dart_node::leaf::{try_clone_identifier, try_clone_type};
use dart_tree::declaration::{
    Alias, Class, ClassKind, Decl, DeclKind, TypeParameter, TypeParameters,
};
use std::alloc::{AllocError, Global};

/// `A extends B`, which keeps its bound (ECMA-408, 14 Generics).
fn erase_type_parameter(alloc: Global, tree: &TypeParameter) -> Result<TypeParameter, AllocError>
    ensures { IfOk result (λ x. unit_view.type_parameter x ≡
        unit_erased.type_parameter (unit_view.type_parameter tree.now)) }
{
    let metadata = erase_metadata(alloc, &tree.metadata)?;
    let name = try_clone_identifier(alloc, &tree.name)?;
    let bound = try_clone_maybe_bound(alloc, &tree.bound)?;
    Ok(TypeParameter {
        comma: tree.comma,
        metadata,
        name,
        bound,
    })
}

/// `A extends B, C`
fn erase_type_parameter_list(
    alloc: Global,
    all: &Vec<TypeParameter>,
) -> Result<Vec<TypeParameter>, AllocError>
    ensures { IfOk result (λ x. map unit_view.type_parameter x.items ≡
        map unit_erased.type_parameter (map unit_view.type_parameter all.now.items)) }
{
    let mut found = Vec::new(alloc);
    for one in all {
        let one = erase_type_parameter(alloc, one)?;
        found.push(one)?;
    }
    Ok(found)
}

/// `<A extends B, C>` (ECMA-408, 14 Generics).
fn erase_type_parameters(alloc: Global, tree: &TypeParameters) -> Result<TypeParameters, AllocError>
    ensures { IfOk result (λ x. unit_view.type_parameters x ≡
        unit_erased.type_parameters (unit_view.type_parameters tree.now)) }
{
    let items = erase_type_parameter_list(alloc, &tree.items)?;
    Ok(TypeParameters {
        opening: tree.opening,
        items,
        closing: tree.closing,
    })
}

/// The type parameters that a class or an alias may have.
fn erase_maybe_type_parameters(
    alloc: Global,
    tree: &Option<TypeParameters>,
) -> Result<Option<TypeParameters>, AllocError>
    ensures { IfOk result (λ x. unit_view.maybe unit_view.type_parameters x ≡
        unit_view.maybe unit_erased.type_parameters (unit_view.maybe unit_view.type_parameters
        tree.now)) }
{
    match tree {
        None => Ok(None),
        Some(tree) => {
            let tree = erase_type_parameters(alloc, tree)?;
            Ok(Some(tree))
        }
    }
}

/// `extends A with B implements C { }` or `= A with B implements C;` (ECMA-408, 10 Classes and 12.1 Mixin Application).
///
/// Superclasses, mixins and interfaces stay.
fn erase_class_kind(alloc: Global, tree: &ClassKind) -> Result<ClassKind, AllocError>
    ensures { IfOk result (λ x. unit_view.class_kind x ≡
        unit_erased.class_kind (unit_view.class_kind tree.now)) }
{
    match tree {
        ClassKind::Declared {
            superclass,
            interfaces,
            opening,
            members,
            closing,
        } => {
            let superclass = try_clone_maybe_superclass(alloc, superclass)?;
            let interfaces = try_clone_maybe_type_clause(alloc, interfaces)?;
            let members = erase_members(alloc, members)?;
            Ok(ClassKind::Declared {
                superclass,
                interfaces,
                opening: *opening,
                members,
                closing: *closing,
            })
        }
        ClassKind::Mixed {
            equals,
            superclass,
            mixins,
            interfaces,
            semicolon,
        } => {
            let superclass = try_clone_type(alloc, superclass)?;
            let mixins = try_clone_type_clause(alloc, mixins)?;
            let interfaces = try_clone_maybe_type_clause(alloc, interfaces)?;
            Ok(ClassKind::Mixed {
                equals: *equals,
                superclass,
                mixins,
                interfaces,
                semicolon: *semicolon,
            })
        }
    }
}

/// `abstract class A<B>` and what follows (ECMA-408, 10 Classes).
fn erase_class(alloc: Global, tree: &Class) -> Result<Class, AllocError>
    ensures { IfOk result (λ x. unit_view.class x ≡ unit_erased.class (unit_view.class tree.now)) }
{
    let name = try_clone_identifier(alloc, &tree.name)?;
    let parameters = erase_maybe_type_parameters(alloc, &tree.parameters)?;
    let kind = erase_class_kind(alloc, &tree.kind)?;
    Ok(Class {
        abstracted: tree.abstracted,
        word: tree.word,
        name,
        parameters,
        kind,
    })
}

/// `typedef A<B>(c);` without a result type (ECMA-408, 19.3.1 Typedef).
fn erase_alias(alloc: Global, tree: &Alias) -> Result<Alias, AllocError>
    ensures { IfOk result (λ x. unit_view.alias x ≡ unit_erased.alias (unit_view.alias tree.now)) }
{
    let name = try_clone_identifier(alloc, &tree.name)?;
    let type_parameters = erase_maybe_type_parameters(alloc, &tree.type_parameters)?;
    let parameters = erase_parameters(alloc, &tree.parameters)?;
    Ok(Alias {
        word: tree.word,
        result_type: None,
        name,
        type_parameters,
        parameters,
        semicolon: tree.semicolon,
    })
}

/// What a declaration declares (ECMA-408, 18 Libraries and Scripts).
fn erase_decl_kind(alloc: Global, tree: &DeclKind) -> Result<DeclKind, AllocError>
    ensures { IfOk result (λ x. unit_view.decl_kind x ≡
        unit_erased.decl_kind (unit_view.decl_kind tree.now)) }
{
    match tree {
        DeclKind::Class(tree) => {
            let tree = erase_class(alloc, tree)?;
            Ok(DeclKind::Class(tree))
        }
        DeclKind::Alias(tree) => {
            let tree = erase_alias(alloc, tree)?;
            Ok(DeclKind::Alias(tree))
        }
        DeclKind::Function(tree) => {
            let tree = erase_function(alloc, tree)?;
            Ok(DeclKind::Function(tree))
        }
        DeclKind::Accessor(tree) => {
            let tree = erase_accessor(alloc, tree)?;
            Ok(DeclKind::Accessor(tree))
        }
        DeclKind::Variables(tree) => {
            let tree = erase_variables(alloc, tree)?;
            Ok(DeclKind::Variables(tree))
        }
        DeclKind::Enum(tree) => {
            let tree = try_clone_enum(alloc, tree)?;
            Ok(DeclKind::Enum(tree))
        }
    }
}

/// A declaration of a unit, with its metadata (ECMA-408, 18 Libraries and Scripts).
fn erase_decl(alloc: Global, tree: &Decl) -> Result<Decl, AllocError>
    ensures { IfOk result (λ x. unit_view.decl x ≡ unit_erased.decl (unit_view.decl tree.now)) }
{
    let metadata = erase_metadata(alloc, &tree.metadata)?;
    let kind = erase_decl_kind(alloc, &tree.kind)?;
    Ok(Decl { metadata, kind })
}

/// The declarations of a unit.
pub fn erase_decls(alloc: Global, all: &Vec<Decl>) -> Result<Vec<Decl>, AllocError>
    ensures { IfOk result (λ x. map unit_view.decl x.items ≡
        map unit_erased.decl (map unit_view.decl all.now.items)) }
{
    let mut found = Vec::new(alloc);
    for one in all {
        let one = erase_decl(alloc, one)?;
        found.push(one)?;
    }
    Ok(found)
}
