// Copies of the parts of declarations and directives that hold no expression.
ghost use Rattle.std.specs.Prelude.{◌≡◌, IfOk, Option, None, Some, map};
ghost use Rattle.dart_tree.specs.UnitView as unit_view;

use crate::leaf::{
    try_clone_identifier, try_clone_maybe_dot_name, try_clone_type, try_clone_type_list,
};
use dart_tree::declaration::{Bound, ConstructorName, Enum, Superclass, TypeClause};
use dart_tree::identifier::CommaName;
use dart_tree::unit::{Combinator, Prefix};
use std::alloc::{AllocError, Global};

/// `extends A`, the bound of a type parameter (ECMA-408, 14 Generics).
pub fn try_clone_bound(alloc: Global, bound: &Bound) -> Result<Bound, AllocError>
    ensures { IfOk result (λ x. unit_view.bound x ≡ unit_view.bound bound.now) }
{
    let type_node = try_clone_type(alloc, &bound.bound)?;
    Ok(Bound {
        word: bound.word,
        bound: type_node,
    })
}

/// The bound that a type parameter may have.
pub fn try_clone_maybe_bound(
    alloc: Global,
    bound: &Option<Bound>,
) -> Result<Option<Bound>, AllocError>
    ensures { IfOk result (λ x. unit_view.maybe unit_view.bound x ≡ unit_view.maybe unit_view.bound bound.now) }
{
    match bound {
        None => Ok(None),
        Some(bound) => {
            let bound = try_clone_bound(alloc, bound)?;
            Ok(Some(bound))
        }
    }
}

/// `with A, B` or `implements A, B` (ECMA-408, 10.10 Superinterfaces).
pub fn try_clone_type_clause(alloc: Global, clause: &TypeClause) -> Result<TypeClause, AllocError>
    ensures { IfOk result (λ x. unit_view.type_clause x ≡ unit_view.type_clause clause.now) }
{
    let types = try_clone_type_list(alloc, &clause.types)?;
    Ok(TypeClause {
        word: clause.word,
        types,
    })
}

/// The types that a class may mix in or implement.
pub fn try_clone_maybe_type_clause(
    alloc: Global,
    clause: &Option<TypeClause>,
) -> Result<Option<TypeClause>, AllocError>
    ensures { IfOk result (λ x. unit_view.maybe unit_view.type_clause x ≡ unit_view.maybe unit_view.type_clause clause.now) }
{
    match clause {
        None => Ok(None),
        Some(clause) => {
            let clause = try_clone_type_clause(alloc, clause)?;
            Ok(Some(clause))
        }
    }
}

/// `extends A with B` (ECMA-408, 10.9 Superclasses).
pub fn try_clone_superclass(alloc: Global, above: &Superclass) -> Result<Superclass, AllocError>
    ensures { IfOk result (λ x. unit_view.superclass x ≡ unit_view.superclass above.now) }
{
    let superclass = try_clone_type(alloc, &above.superclass)?;
    let mixins = try_clone_maybe_type_clause(alloc, &above.mixins)?;
    Ok(Superclass {
        word: above.word,
        superclass,
        mixins,
    })
}

/// The superclass that a class may name.
pub fn try_clone_maybe_superclass(
    alloc: Global,
    above: &Option<Superclass>,
) -> Result<Option<Superclass>, AllocError>
    ensures { IfOk result (λ x. unit_view.maybe unit_view.superclass x ≡ unit_view.maybe unit_view.superclass above.now) }
{
    match above {
        None => Ok(None),
        Some(above) => {
            let above = try_clone_superclass(alloc, above)?;
            Ok(Some(above))
        }
    }
}

/// `A` or `A.b`, the name of a constructor (ECMA-408, 10.6 Constructors).
pub fn try_clone_constructor_name(
    alloc: Global,
    name: &ConstructorName,
) -> Result<ConstructorName, AllocError>
    ensures { IfOk result (λ x. x ≡ name.now) }
{
    let class = try_clone_identifier(alloc, &name.class)?;
    let member = try_clone_maybe_dot_name(alloc, &name.name)?;
    Ok(ConstructorName {
        class,
        name: member,
    })
}

/// `as a`, the prefix of an import (ECMA-408, 18.1 Imports).
pub fn try_clone_prefix(alloc: Global, prefix: &Prefix) -> Result<Prefix, AllocError>
    ensures { IfOk result (λ x. x ≡ prefix.now) }
{
    Ok(Prefix {
        word: prefix.word,
        name: try_clone_identifier(alloc, &prefix.name)?,
    })
}

/// The prefix that an import may have.
pub fn try_clone_maybe_prefix(
    alloc: Global,
    prefix: &Option<Prefix>,
) -> Result<Option<Prefix>, AllocError>
    ensures { IfOk result (λ x. x ≡ prefix.now) }
{
    match prefix {
        None => Ok(None),
        Some(prefix) => Ok(Some(try_clone_prefix(alloc, prefix)?)),
    }
}

/// `, a`
pub fn try_clone_comma_name(alloc: Global, name: &CommaName) -> Result<CommaName, AllocError>
    ensures { IfOk result (λ x. x ≡ name.now) }
{
    Ok(CommaName {
        comma: name.comma,
        name: try_clone_identifier(alloc, &name.name)?,
    })
}

/// `, a, b`
pub fn try_clone_comma_names(
    alloc: Global,
    names: &Vec<CommaName>,
) -> Result<Vec<CommaName>, AllocError>
    ensures { IfOk result (λ x. x.items ≡ names.now.items) }
{
    let mut found = Vec::new(alloc);
    for name in names {
        let name = try_clone_comma_name(alloc, name)?;
        found.push(name)?;
    }
    Ok(found)
}

/// `enum A { b, c }` (ECMA-408, 13 Enums).
pub fn try_clone_enum(alloc: Global, tree: &Enum) -> Result<Enum, AllocError>
    ensures { IfOk result (λ x. unit_view.enum x ≡ unit_view.enum tree.now) }
{
    let name = try_clone_identifier(alloc, &tree.name)?;
    let first = try_clone_identifier(alloc, &tree.first)?;
    let more = try_clone_comma_names(alloc, &tree.more)?;
    Ok(Enum {
        word: tree.word,
        name,
        opening: tree.opening,
        first,
        more,
        comma: tree.comma,
        closing: tree.closing,
    })
}

/// `show a, b` or `hide a, b` (ECMA-408, 18.1 Imports).
pub fn try_clone_combinator(
    alloc: Global,
    combinator: &Combinator,
) -> Result<Combinator, AllocError>
    ensures { IfOk result (λ x. unit_view.combinator x ≡ unit_view.combinator combinator.now) }
{
    let first = try_clone_identifier(alloc, &combinator.first)?;
    let more = try_clone_comma_names(alloc, &combinator.more)?;
    Ok(Combinator {
        kind: combinator.kind,
        word: combinator.word,
        first,
        more,
    })
}

/// `show a, b hide c`, each combinator of an import or an export (ECMA-408, 18.1 Imports and 18.2 Exports).
pub fn try_clone_combinators(
    alloc: Global,
    all: &Vec<Combinator>,
) -> Result<Vec<Combinator>, AllocError>
    ensures { IfOk result (λ x. map unit_view.combinator x.items ≡ map unit_view.combinator all.now.items) }
{
    let mut found = Vec::new(alloc);
    for one in all {
        let one = try_clone_combinator(alloc, one)?;
        found.push(one)?;
    }
    Ok(found)
}
