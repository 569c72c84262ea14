// Units and directives without annotations.
ghost use Rattle.std.specs.Prelude.{◌≡◌, IfOk, Option, None, Some, map};
ghost use Rattle.dart_erase.specs.UnitErased as unit_erased;
ghost use Rattle.dart_tree.specs.UnitView as unit_view;

use crate::declaration::erase_decls;
use crate::expression::erase_pieces;
use crate::statement::erase_metadata;
use dart_node::declaration::{try_clone_combinators, try_clone_maybe_prefix};
use dart_node::leaf::{try_clone_dot_names, try_clone_identifier};
use dart_tree::unit::{Directive, DirectiveKind, Unit};
use std::alloc::{AllocError, Global};

/// What a directive says (ECMA-408, 18 Libraries and Scripts).
fn erase_directive_kind(alloc: Global, tree: &DirectiveKind) -> Result<DirectiveKind, AllocError>
    ensures { IfOk result (λ x. unit_view.directive_kind x ≡
        unit_erased.directive_kind (unit_view.directive_kind tree.now)) }
{
    match tree {
        DirectiveKind::PartOf {
            word,
            of_word,
            name,
            more,
        } => {
            let name = try_clone_identifier(alloc, name)?;
            let more = try_clone_dot_names(alloc, more)?;
            Ok(DirectiveKind::PartOf {
                word: *word,
                of_word: *of_word,
                name,
                more,
            })
        }
        DirectiveKind::Library { word, name, more } => {
            let name = try_clone_identifier(alloc, name)?;
            let more = try_clone_dot_names(alloc, more)?;
            Ok(DirectiveKind::Library {
                word: *word,
                name,
                more,
            })
        }
        DirectiveKind::Import {
            word,
            uri,
            prefix,
            combinators,
        } => {
            let uri = erase_pieces(alloc, uri)?;
            let prefix = try_clone_maybe_prefix(alloc, prefix)?;
            let combinators = try_clone_combinators(alloc, combinators)?;
            Ok(DirectiveKind::Import {
                word: *word,
                uri,
                prefix,
                combinators,
            })
        }
        DirectiveKind::Export {
            word,
            uri,
            combinators,
        } => {
            let uri = erase_pieces(alloc, uri)?;
            let combinators = try_clone_combinators(alloc, combinators)?;
            Ok(DirectiveKind::Export {
                word: *word,
                uri,
                combinators,
            })
        }
        DirectiveKind::Part(word, uri) => {
            let uri = erase_pieces(alloc, uri)?;
            Ok(DirectiveKind::Part(*word, uri))
        }
    }
}

/// A directive, with its metadata (ECMA-408, 18 Libraries and Scripts).
fn erase_directive(alloc: Global, tree: &Directive) -> Result<Directive, AllocError>
    ensures { IfOk result (λ x. unit_view.directive x ≡
        unit_erased.directive (unit_view.directive tree.now)) }
{
    let metadata = erase_metadata(alloc, &tree.metadata)?;
    let kind = erase_directive_kind(alloc, &tree.kind)?;
    Ok(Directive {
        metadata,
        kind,
        semicolon: tree.semicolon,
    })
}

/// The directives of a unit.
fn erase_directives(alloc: Global, all: &Vec<Directive>) -> Result<Vec<Directive>, AllocError>
    ensures { IfOk result (λ x. map unit_view.directive x.items ≡
        map unit_erased.directive (map unit_view.directive all.now.items)) }
{
    let mut found = Vec::new(alloc);
    for one in all {
        let one = erase_directive(alloc, one)?;
        found.push(one)?;
    }
    Ok(found)
}

/// The unit without the annotations that change nothing in production mode (ECMA-408, 19 Types).
///
/// These are the types of variables and parameters, what a parameter takes that is a function, and the results of
/// functions, accessors, operators and aliases. Bounds, supertypes, metadata, the type arguments of literals and the types
/// after `new`, `const`, `is`, `as` and `on` stay. What stays keeps its place, and where no word would be left before a variable,
/// `var` stands at the place of its name. It fails only where memory runs out. The unit is only read, so it is the same
/// after either answer.
pub fn erase(alloc: Global, unit: &Unit) -> Result<Unit, AllocError>
    ensures { IfOk result (λ x. unit_view.unit x ≡ unit_erased.unit (unit_view.unit unit.now)) }
{
    let directives = erase_directives(alloc, &unit.directives)?;
    let declarations = erase_decls(alloc, &unit.declarations)?;
    Ok(Unit {
        directives,
        declarations,
    })
}
