// The libraries of a loaded program: their units, imports and exports.
ghost use Rattle.std.specs.Prelude.{◌≡◌, ◌<◌, ◌≤◌, ◌^◌, map, length, IfOk, OnOk};
ghost use Rattle.dart_tree.specs.UnitView as view;
ghost use Rattle.scope_load.specs.State.{state_of};
ghost use Rattle.scope_library.specs.Library.{number_of, link_edge, edges, has_part, with_part, parts, has_edge_to, imports, library_is, library_at, libraries_of, home, homes_of, is_from};

use dart_tree::unit::Unit;
use scope_load::judge::owner_of;
use scope_load::loaded::{Link, Loaded};
use scope_mention::head::is_part;
use scope_mention::mention::MentionKind;
use std::alloc::{AllocError, Global};

/// The number of the unit `dart:core`.
pub const CORE_UNIT: u32 = 1;

/// An import or export of a library.
#[derive(Clone, Copy, Debug, PartialEq, Eq)]
pub struct Edge {
    /// The number of the library that is imported or exported.
    pub library: u32,
    /// The number of the directive in the library's own unit, which has the prefix and the combinators; None for the
    /// import of `dart:core` that nobody wrote.
    pub directive: Option<usize>,
}

/// A library. Libraries are numbered from 0 in the order of their own units; the root is the first.
#[derive(Drop)]
pub struct Library {
    /// The number of the unit that isn't a part.
    pub unit: u32,
    /// The numbers of its parts, in the order in which it mentions them, each once.
    pub parts: Vec<u32>,
    pub imports: Vec<Edge>,
    pub exports: Vec<Edge>,
}

/// The number of the library whose own unit has this number: so many libraries have theirs before it. Takes no memory.
pub fn number_of(units: &[Unit], at: u32) -> u32
    requires { length units.now < 2 ^ 32 }
    ensures value { result ≡ number_of (map view.unit units.now) at }
    ensures within { result ≤ length units.now }
{
    match units {
        [] => 0,
        [unit, units @ ..] => {
            if at == 0 {
                return 0;
            }
            let behind = number_of(units, at - 1);
            if is_part(unit) { behind } else { behind + 1 }
        }
    }
}

// Whether the link is of this kind and of this unit.
fn is_from(kind: MentionKind, by: u32, link: &Link) -> bool
    ensures { result ≡ is_from kind by link.now }
{
    link.by == by
        && match kind {
            MentionKind::Import => match link.kind {
                MentionKind::Import => true,
                MentionKind::Export | MentionKind::Part => false,
            },
            MentionKind::Export => match link.kind {
                MentionKind::Export => true,
                MentionKind::Import | MentionKind::Part => false,
            },
            MentionKind::Part => match link.kind {
                MentionKind::Part => true,
                MentionKind::Import | MentionKind::Export => false,
            },
        }
}

fn link_edge(units: &[Unit], kind: MentionKind, by: u32, link: &Link) -> Option<Edge>
    requires { length units.now < 2 ^ 32 }
    ensures { result ≡ link_edge (map view.unit units.now) kind by link.now }
{
    if !is_from(kind, by, link) {
        return None;
    }
    match link.target {
        None => None,
        Some(target) => Some(Edge {
            library: number_of(units, target),
            directive: Some(link.directive),
        }),
    }
}

// The imports or exports that a unit writes.
fn edges(
    alloc: Global,
    units: &[Unit],
    links: &[Link],
    kind: MentionKind,
    by: u32,
) -> Result<Vec<Edge>, AllocError>
    requires { length units.now < 2 ^ 32 }
    ensures { IfOk result (λ found. found.items ≡ edges (map view.unit units.now) kind by links.now) }
{
    let mut found = Vec::new(alloc);
    for link in links {
        if let Some(edge) = link_edge(units, kind, by, link) {
            found.push(edge)?;
        }
    }
    Ok(found)
}

fn has_part(parts: &[u32], unit: u32) -> bool
    ensures { result ≡ has_part parts.now unit }
{
    parts.iter().any(|part| *part == unit)
}

// Adds the unit that a link of this unit mentions as a part, unless it is there.
fn add_part(parts: &mut Vec<u32>, by: u32, link: &Link) -> Result<(), AllocError>
    ensures { OnOk result (parts.new.items ≡ with_part by parts.old.items link.now) }
{
    if !is_from(MentionKind::Part, by, link) {
        return Ok(());
    }
    match link.target {
        None => Ok(()),
        Some(target) => {
            if has_part(parts, target) {
                return Ok(());
            }
            parts.push(target)?;
            Ok(())
        }
    }
}

// The parts of a library.
fn parts(alloc: Global, links: &[Link], by: u32) -> Result<Vec<u32>, AllocError>
    ensures { IfOk result (λ found. found.items ≡ parts by links.now) }
{
    let mut found: Vec<u32> = Vec::new(alloc);
    for link in links {
        add_part(&mut found, by, link)?;
    }
    Ok(found)
}

fn has_edge_to(edges: &[Edge], library: u32) -> bool
    ensures { result ≡ has_edge_to edges.now library }
{
    edges.iter().any(|edge| edge.library == library)
}

// The imports of a library, with that of `dart:core` that nobody wrote.
fn imports(alloc: Global, units: &[Unit], links: &[Link], by: u32) -> Result<Vec<Edge>, AllocError>
    requires { length units.now < 2 ^ 32 }
    ensures { IfOk result (λ found. found.items ≡ imports (map view.unit units.now) links.now by) }
{
    let mut found = edges(alloc, units, links, MentionKind::Import, by)?;
    let core = number_of(units, CORE_UNIT);
    if by == CORE_UNIT || has_edge_to(&found, core) {
        return Ok(found);
    }
    found.push(Edge {
        library: core,
        directive: None,
    })?;
    Ok(found)
}

// The library whose own unit has this number.
fn library_at(alloc: Global, loaded: &Loaded, at: u32) -> Result<Library, AllocError>
    requires { length loaded.now.units.items < 2 ^ 32 }
    ensures { IfOk result (λ library. library_is library ≡ library_at (state_of loaded.now) at) }
{
    let parts = parts(alloc, &loaded.links, at)?;
    let imports = imports(alloc, &loaded.units, &loaded.links, at)?;
    let exports = edges(alloc, &loaded.units, &loaded.links, MentionKind::Export, at)?;
    Ok(Library {
        unit: at,
        parts,
        imports,
        exports,
    })
}

/// The libraries of a loaded program, in the order of their own units.
pub fn libraries(alloc: Global, loaded: &Loaded) -> Result<Vec<Library>, AllocError>
    requires { length loaded.now.units.items < 2 ^ 32 }
    ensures { IfOk result (λ libraries. map library_is libraries.items ≡ libraries_of (state_of loaded.now)) }
{
    let mut libraries = Vec::new(alloc);
    for (at, unit) in loaded.units.iter().enumerate() {
        if !is_part(unit) {
            let library = library_at(alloc, loaded, at as u32)?;
            libraries.push(library)?;
        }
    }
    Ok(libraries)
}

fn home(loaded: &Loaded, at: u32, unit: &Unit) -> u32
    requires { length loaded.now.units.items < 2 ^ 32 }
    ensures { result ≡ home (state_of loaded.now) at (view.unit unit.now) }
{
    if !is_part(unit) {
        return number_of(&loaded.units, at);
    }
    match owner_of(&loaded.links, at) {
        Some(owner) => number_of(&loaded.units, owner),
        None => number_of(&loaded.units, at),
    }
}

/// The number of the library to which each unit of a loaded program belongs.
pub fn homes(alloc: Global, loaded: &Loaded) -> Result<Vec<u32>, AllocError>
    requires { length loaded.now.units.items < 2 ^ 32 }
    ensures { IfOk result (λ homes. homes.items ≡ homes_of (state_of loaded.now)) }
{
    let mut homes = Vec::new(alloc);
    for (at, unit) in loaded.units.iter().enumerate() {
        homes.push(home(loaded, at as u32, unit))?;
    }
    Ok(homes)
}
