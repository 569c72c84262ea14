// Imports and exports, as their directives write them.
ghost use Rattle.std.specs.Prelude.{◌≡◌, ℕ, IfOk, MatchOption, Some, None, map, slice_get};
ghost use Rattle.std.specs.List.{AllZip};
ghost use Rattle.dart_tree.specs.UnitView as uv;
ghost use Rattle.scope_declared.specs.Number.{number_of};
ghost use Rattle.scope_space.specs.Library.{lets, passes};
ghost use Rattle.scope_entry.specs.Directives.{IsExport, IsImport, combinator_names, directive_combinators};
ghost use Rattle.scope_entry.specs.Directives.{directive_kind_of, directive_prefix, name_of, prefix_name, written_lets, written_passes};

use dart_base::name::Name;
use dart_base::names::Names;
use dart_tree::identifier::Identifier;
use dart_tree::unit::{Combinator as Written, CombinatorKind, DirectiveKind, Prefix, Unit};
use scope_declared::number::number_of;
use scope_library::library::Edge;
use scope_mention::head::identifier_text;
use scope_space::combinator::Combinator;
use scope_space::library::{Export, Import};
use scope_space::table::Table;
use std::alloc::{AllocError, Global};

fn name_of(
    alloc: Global,
    names: &Names,
    library: u32,
    identifier: &Identifier,
) -> Result<Name, AllocError>
    ensures { IfOk result (λ name. name ≡ name_of (number_of names.now library) identifier.now) }
{
    number_of(alloc, names, library, identifier_text(identifier))
}

// The names that a combinator lists.
fn combinator_names(
    alloc: Global,
    names: &Names,
    library: u32,
    written: &Written,
) -> Result<Vec<Name>, AllocError>
    ensures { IfOk result (λ listed. listed.items ≡ combinator_names (number_of names.now library) (uv.combinator written.now)) }
{
    let mut listed = Vec::new(alloc);
    listed.push(name_of(alloc, names, library, &written.first)?)?;
    for more in &written.more {
        listed.push(name_of(alloc, names, library, &more.name)?)?;
    }
    Ok(listed)
}

fn combinator(
    alloc: Global,
    names: &Names,
    library: u32,
    written: &Written,
) -> Result<Combinator, AllocError>
    ensures { IfOk result (λ made. (name : ℕ) → lets name made ≡ written_lets (number_of names.now library) name (uv.combinator written.now)) }
{
    let listed = combinator_names(alloc, names, library, written)?;
    let table = Table::new(listed)?;
    match written.kind {
        CombinatorKind::Show => Ok(Combinator::Show(table)),
        CombinatorKind::Hide => Ok(Combinator::Hide(table)),
    }
}

fn combinators(
    alloc: Global,
    names: &Names,
    library: u32,
    written: &[Written],
) -> Result<Vec<Combinator>, AllocError>
    ensures { IfOk result (λ made. (name : ℕ) → passes name made.items ≡ written_passes (number_of names.now library) name (map uv.combinator written.now)) }
{
    let mut made = Vec::new(alloc);
    for one in written {
        made.push(combinator(alloc, names, library, one)?)?;
    }
    Ok(made)
}

// The combinators of a directive.
fn directive_combinators(
    alloc: Global,
    names: &Names,
    library: u32,
    kind: &DirectiveKind,
) -> Result<Vec<Combinator>, AllocError>
    ensures { IfOk result (λ made. (name : ℕ) → passes name made.items
        ≡ written_passes (number_of names.now library) name (directive_combinators (uv.directive_kind kind.now))) }
{
    match kind {
        DirectiveKind::Import {
            combinators: all,
            ..
        } => combinators(alloc, names, library, all),
        DirectiveKind::Export {
            combinators: all,
            ..
        } => combinators(alloc, names, library, all),
        _ => Ok(Vec::new(alloc)),
    }
}

fn prefix_name(
    alloc: Global,
    names: &Names,
    library: u32,
    prefix: &Option<Prefix>,
) -> Result<Option<Name>, AllocError>
    ensures { IfOk result (λ name. name ≡ prefix_name (number_of names.now library) prefix.now) }
{
    match prefix {
        None => Ok(None),
        Some(prefix) => {
            let name = name_of(alloc, names, library, &prefix.name)?;
            Ok(Some(name))
        }
    }
}

// The prefix of a directive.
fn directive_prefix(
    alloc: Global,
    names: &Names,
    library: u32,
    kind: &DirectiveKind,
) -> Result<Option<Name>, AllocError>
    ensures { IfOk result (λ name. name ≡ prefix_name (number_of names.now library) (directive_prefix (uv.directive_kind kind.now))) }
{
    match kind {
        DirectiveKind::Import { prefix, .. } => prefix_name(alloc, names, library, prefix),
        _ => Ok(None),
    }
}

// What the directive of the number says in the unit at a place, if it is there.
fn directive_kind_of(units: &[Unit], at: u32, number: Option<usize>) -> Option<&DirectiveKind>
    ensures { MatchOption result (directive_kind_of (slice_get (map uv.unit units.now) at) number ≡ None)
        (λ kind. directive_kind_of (slice_get (map uv.unit units.now) at) number ≡ Some (uv.directive_kind kind.now)) }
{
    match units.get(at as usize) {
        None => None,
        Some(unit) => match number {
            None => None,
            Some(number) => match unit.directives.get(number) {
                None => None,
                Some(directive) => Some(&directive.kind),
            },
        },
    }
}

// An import of a library, whose own unit is the one at a place.
fn import(
    alloc: Global,
    names: &Names,
    library: u32,
    units: &[Unit],
    at: u32,
    edge: &Edge,
) -> Result<Import, AllocError>
    ensures { IfOk result (λ made. IsImport (number_of names.now library) (slice_get (map uv.unit units.now) at) edge.now made) }
{
    match directive_kind_of(units, at, edge.directive) {
        None => Ok(Import {
            target: edge.library,
            prefix: None,
            combinators: Vec::new(alloc),
        }),
        Some(kind) => {
            let prefix = directive_prefix(alloc, names, library, kind)?;
            let combinators = directive_combinators(alloc, names, library, kind)?;
            Ok(Import {
                target: edge.library,
                prefix,
                combinators,
            })
        }
    }
}

// An export of a library, whose own unit is the one at a place.
fn export(
    alloc: Global,
    names: &Names,
    library: u32,
    units: &[Unit],
    at: u32,
    edge: &Edge,
) -> Result<Export, AllocError>
    ensures { IfOk result (λ made. IsExport (number_of names.now library) (slice_get (map uv.unit units.now) at) edge.now made) }
{
    match directive_kind_of(units, at, edge.directive) {
        None => Ok(Export {
            target: edge.library,
            combinators: Vec::new(alloc),
        }),
        Some(kind) => {
            let combinators = directive_combinators(alloc, names, library, kind)?;
            Ok(Export {
                target: edge.library,
                combinators,
            })
        }
    }
}

/// The imports of a library, whose own unit is the one at a place, with their prefixes and combinators (ECMA-408, 18.1 Imports).
pub fn imports(
    alloc: Global,
    names: &Names,
    library: u32,
    units: &[Unit],
    at: u32,
    edges: &[Edge],
) -> Result<Vec<Import>, AllocError>
    ensures { IfOk result (λ made. AllZip (IsImport (number_of names.now library) (slice_get (map uv.unit units.now) at)) edges.now made.items) }
{
    let mut made = Vec::new(alloc);
    for edge in edges {
        let one = import(alloc, names, library, units, at, edge)?;
        made.push(one)?;
    }
    Ok(made)
}

/// The exports of a library, whose own unit is the one at a place, with their combinators (ECMA-408, 18.2 Exports).
pub fn exports(
    alloc: Global,
    names: &Names,
    library: u32,
    units: &[Unit],
    at: u32,
    edges: &[Edge],
) -> Result<Vec<Export>, AllocError>
    ensures { IfOk result (λ made. AllZip (IsExport (number_of names.now library) (slice_get (map uv.unit units.now) at)) edges.now made.items) }
{
    let mut made = Vec::new(alloc);
    for edge in edges {
        let one = export(alloc, names, library, units, at, edge)?;
        made.push(one)?;
    }
    Ok(made)
}
