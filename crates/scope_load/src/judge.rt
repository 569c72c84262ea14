// The reasons against the units that are taken.
ghost use Rattle.std.specs.Prelude.{◌≡◌, map, find, IfOk, false, slice_get, unwrap_or};
ghost use Rattle.dart_tree.specs.UnitView as view;
ghost use Rattle.scope_mention.specs.Head.{part_place};
ghost use Rattle.scope_load.specs.Judge.{same_number, by_part, owns, owner_of, is_no_part, leads_wrong, is_mismatch, is_wrong_to, is_wrong, wrong_link, root_part, uri_left_out, left_out};
ghost use Rattle.scope_load.specs.Load.{directive_reason, root_reason, link_reason, Judges, load_failed};
ghost use Rattle.scope_load.specs.State.{state_of};

use crate::loaded::{Link, Loaded};
use crate::reason::{LoadFault, Reason};
use crate::units::UnitName;
use dart_base::feature::Feature;
use dart_base::place::Place;
use dart_tree::unit::Unit;
use scope_mention::head::{is_part, is_part_of, part_place};
use scope_mention::mention::{Mention, MentionKind, Uri};
use std::alloc::{AllocError, Global};

fn same_number(number: Option<u32>, at: u32) -> bool
    ensures { result ≡ same_number number at }
{
    match number {
        None => false,
        Some(number) => number == at,
    }
}

// Whether the link is a mention as a part.
fn by_part(kind: MentionKind) -> bool
    ensures { result ≡ by_part kind }
{
    match kind {
        MentionKind::Import | MentionKind::Export => false,
        MentionKind::Part => true,
    }
}

/// The number of the first unit that mentions the one of this number as a part. Takes no memory.
pub fn owner_of(links: &[Link], at: u32) -> Option<u32>
    ensures { result ≡ owner_of links.now at }
{
    let link = links
        .iter()
        .find(|link| by_part(link.kind) && same_number(link.target, at))?;
    Some(link.by)
}

// Whether a part that a library mentions is none of it.
fn is_no_part(units: &[Unit], links: &[Link], by: u32, target: u32, unit: &Unit) -> bool
    ensures { result ≡ is_no_part (map view.unit units.now) links.now by target (view.unit unit.now)
        (slice_get (map view.unit units.now) by) }
{
    match units.get(by as usize) {
        None => true,
        Some(library) => { !is_part_of(unit, library) || !same_number(owner_of(links, target), by) }
    }
}

// Whether a link that leads to a unit, which is taken, may not.
fn leads_wrong(units: &[Unit], links: &[Link], link: &Link, target: u32, unit: &Unit) -> bool
    ensures { result ≡ leads_wrong link.now.kind (map view.unit units.now) links.now link.now.by target (view.unit unit.now) }
{
    match link.kind {
        MentionKind::Import | MentionKind::Export => is_part(unit),
        MentionKind::Part => is_no_part(units, links, link.by, target, unit),
    }
}

// Whether a link that leads to the unit of this number may not.
fn is_mismatch(units: &[Unit], links: &[Link], link: &Link, target: u32) -> bool
    ensures { result ≡ is_mismatch (map view.unit units.now) links.now link.now target
        (slice_get (map view.unit units.now) target) }
{
    match units.get(target as usize) {
        None => false,
        Some(unit) => leads_wrong(units, links, link, target, unit),
    }
}

// Whether the link is wrong, once the unit of this number is taken and not before.
fn is_wrong(units: &[Unit], links: &[Link], at: u32, link: &Link) -> bool
    ensures { result ≡ is_wrong (map view.unit units.now) links.now at link.now }
{
    match link.target {
        None => link.by == at,
        Some(target) => {
            (link.by == at || target == at) && is_mismatch(units, links, link, target)
        }
    }
}

// The first link that is wrong, once the unit of this number is taken and not before.
fn wrong_link(units: &[Unit], links: &[Link], at: u32) -> Option<Link>
    ensures { result ≡ wrong_link (map view.unit units.now) links.now at }
{
    for link in links {
        if is_wrong(units, links, at, link) {
            return Some(*link);
        }
    }
    None
}

// Where the root is a part, once it is taken.
fn root_part(units: &[Unit], at: u32) -> Option<Place>
    ensures { result ≡ root_part (map view.unit units.now) at }
{
    if at != 0 {
        return None;
    }
    match units.get(0) {
        None => None,
        Some(root) => part_place(root),
    }
}

fn uri_left_out(uri: &Uri) -> Option<(Place, Feature)>
    ensures { result ≡ uri_left_out uri.now }
{
    match uri {
        Uri::LeftOut(place, feature) => Some((*place, *feature)),
        Uri::Unclear | Uri::Core | Uri::Isolate | Uri::File(_) => None,
    }
}

/// What the profile leaves out, where the first of these mentions names such. Takes no memory.
pub(crate) fn left_out(mentions: &[Mention]) -> Option<(Place, Feature)>
    ensures { result ≡ left_out mentions.now }
{
    for mention in mentions {
        if let Some(found) = uri_left_out(&mention.uri) {
            return Some(found);
        }
    }
    None
}

// The fault of a wrong link, in the unit that mentions.
fn link_fault(
    alloc: Global,
    names: &[UnitName],
    name: UnitName,
    link: Link,
) -> Result<LoadFault, AllocError>
    ensures { IfOk result (λ fault. fault ≡ LoadFault.Refused (unwrap_or (slice_get names.now link.by) name) (Reason.BadDirective link.place)) }
{
    let reason = Reason::BadDirective(link.place);
    match names.get(link.by as usize) {
        None => Ok(LoadFault::Refused(name, reason)),
        Some(by) => Ok(LoadFault::Refused(by.try_clone(alloc)?, reason)),
    }
}

/// The reason against the directives that are known once the unit of this number and name is taken.
pub(crate) fn check_directives(
    alloc: Global,
    loaded: &Loaded,
    at: u32,
    name: UnitName,
) -> Result<(), LoadFault>
    ensures judges { Judges (directive_reason (state_of loaded.now) at name) result }
    ensures failed { load_failed result ≡ false }
{
    if let Some(place) = root_part(&loaded.units, at) {
        return Err(LoadFault::Refused(name, Reason::BadDirective(place)));
    }
    match wrong_link(&loaded.units, &loaded.links, at) {
        None => Ok(()),
        Some(link) => Err(link_fault(alloc, &loaded.names, name, link)?),
    }
}
