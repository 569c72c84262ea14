// The mentions of a unit are followed: each leads to a unit that has a number, or that gets the next one.
ghost use Rattle.std.specs.Prelude.{◌≡◌, ◌+◌, ◌*◌, ◌^◌, ◌<◌, ◌≤◌, ◌++◌, ◌∷◌, [], length, fold, position, IfOk, IfSome, OnOk};
ghost use Rattle.std.specs.List.{suffix_len};
ghost use Rattle.dart_tree.specs.UnitView as view;
ghost use Rattle.scope_mention.specs.Mention.{mentions_of};
ghost use Rattle.scope_load.specs.Names.{folder_of, is_no_slash, name_of, same_name};
ghost use Rattle.scope_load.specs.State.{state_of, start, most_units, link_to, with_link, numbered, mentioned, weight_of, after};

use crate::loaded::{Link, Loaded};
use crate::units::UnitName;
use dart_base::bytes::Bytes;
use dart_base::limit::PROGRAM_UNITS;
use dart_tree::unit::Unit;
use scope_mention::mention::{Mention, Uri};
use std::alloc::{AllocError, Global};

// How many bytes of the name of a file are its folder.
fn folder_len(name: &[u8]) -> usize
    ensures { result + suffix_len is_no_slash name.now ≡ length name.now }
{
    let mut len = name.len();
    while len > 0 && name[len - 1] != b'/' {
        len -= 1;
    }
    len
}

// The folder of a file: its name up to the last slash.
fn folder(name: &[u8]) -> &[u8]
    ensures { result.now ≡ folder_of name.now }
{
    let len = folder_len(name);
    &name[..len]
}

// The unit that a directive's string names.
fn name_of(alloc: Global, folder: &[u8], uri: &Uri) -> Result<Option<UnitName>, AllocError>
    ensures { IfOk result (λ name. name ≡ name_of folder.now uri.now) }
{
    match uri {
        Uri::Unclear | Uri::LeftOut(_, _) => Ok(None),
        Uri::Core => Ok(Some(UnitName::Core)),
        Uri::Isolate => Ok(Some(UnitName::Isolate)),
        Uri::File(text) => {
            let mut name = Bytes::from_slice(alloc, folder)?;
            name.append(text.as_slice())?;
            Ok(Some(UnitName::File(name)))
        }
    }
}

// The number of the unit with this name.
fn number_of(names: &[UnitName], name: &UnitName) -> Option<usize>
    ensures within { IfSome result (λ at. at < length names.now) }
    ensures number { result ≡ position (λ other. same_name other name.now) names.now }
{
    names.iter().position(|other| other.is_same(name))
}

// Notes a mention by the unit of this number.
fn push_link(
    loaded: &mut Loaded,
    by: u32,
    mention: &Mention,
    target: Option<u32>,
) -> Result<(), AllocError>
    ensures state { OnOk result (state_of loaded.new ≡ with_link (state_of loaded.old) (link_to by mention.now target)) }
    ensures units { loaded.new.units.items ≡ loaded.old.units.items }
    ensures names { loaded.new.names.items ≡ loaded.old.names.items }
    ensures weight { loaded.new.weight ≡ loaded.old.weight }
{
    loaded.links.push(Link {
        by,
        kind: mention.kind,
        directive: mention.directive,
        place: mention.place,
        target,
    })?;
    Ok(())
}

// Follows a mention of the unit with this name.
fn follow_name(
    loaded: &mut Loaded,
    by: u32,
    mention: &Mention,
    name: UnitName,
) -> Result<(), AllocError>
    requires room { length loaded.old.names.items ≤ most_units }
    ensures state { OnOk result (state_of loaded.new ≡ numbered by (state_of loaded.old) mention.now name
        (position (λ other. same_name other name) loaded.old.names.items)) }
    ensures units { loaded.new.units.items ≡ loaded.old.units.items }
    ensures room { OnOk result (length loaded.new.names.items ≤ most_units) }
    ensures weight { loaded.new.weight ≡ loaded.old.weight }
{
    match number_of(&loaded.names, &name) {
        Some(at) => push_link(loaded, by, mention, Some(at as u32)),
        None => {
            let count = loaded.names.len();
            if count >= PROGRAM_UNITS + 2 {
                loaded.over = true;
                return Ok(());
            }
            loaded.names.push(name)?;
            push_link(loaded, by, mention, Some(count as u32))
        }
    }
}

// Follows a mention by the unit of this number.
fn follow(
    alloc: Global,
    loaded: &mut Loaded,
    folder: &[u8],
    by: u32,
    mention: &Mention,
) -> Result<(), AllocError>
    requires room { length loaded.old.names.items ≤ most_units }
    ensures state { OnOk result (state_of loaded.new ≡ mentioned folder.now by (state_of loaded.old) mention.now) }
    ensures units { loaded.new.units.items ≡ loaded.old.units.items }
    ensures room { OnOk result (length loaded.new.names.items ≤ most_units) }
    ensures weight { loaded.new.weight ≡ loaded.old.weight }
{
    match name_of(alloc, folder, &mention.uri)? {
        None => push_link(loaded, by, mention, None),
        Some(name) => follow_name(loaded, by, mention, name),
    }
}

// Follows all mentions by the unit of this number.
fn follow_all(
    alloc: Global,
    loaded: &mut Loaded,
    folder: &[u8],
    by: u32,
    mentions: &[Mention],
) -> Result<(), AllocError>
    requires room { length loaded.old.names.items ≤ most_units }
    ensures state { OnOk result (state_of loaded.new ≡ fold (mentioned folder.now by) (state_of loaded.old) mentions.now) }
    ensures units { loaded.new.units.items ≡ loaded.old.units.items }
    ensures room { OnOk result (length loaded.new.names.items ≤ most_units) }
    ensures weight { loaded.new.weight ≡ loaded.old.weight }
{
    for mention in mentions {
        follow(alloc, loaded, folder, by, mention)?;
    }
    Ok(())
}

// What a unit of this name weighs: the libraries of the language weigh nothing.
fn weight_of(name: &UnitName, weight: u32) -> u64
    ensures { result ≡ weight_of name.now weight }
{
    match name {
        UnitName::File(_) => weight as u64,
        UnitName::Core | UnitName::Isolate => 0,
    }
}

/// Takes a unit of this name and weight, which mentions these. An `Err` leaves some of them followed.
pub(crate) fn enter(
    alloc: Global,
    root: &[u8],
    loaded: &mut Loaded,
    name: &UnitName,
    unit: Unit,
    weight: u32,
    mentions: &[Mention],
) -> Result<(), AllocError>
    requires room { length loaded.old.names.items ≤ most_units }
    requires units { length loaded.old.units.items < most_units }
    requires weight { loaded.old.weight ≤ length loaded.old.units.items * 2 ^ 32 }
    requires mentions { mentions.now ≡ mentions_of (view.unit unit) }
    ensures state { OnOk result (state_of loaded.new ≡ after root.now (state_of loaded.old) name.now (view.unit unit) weight) }
    ensures units { OnOk result (length loaded.new.units.items ≡ length loaded.old.units.items + 1) }
    ensures room { OnOk result (length loaded.new.names.items ≤ most_units) }
    ensures weight { OnOk result (loaded.new.weight ≤ length loaded.new.units.items * 2 ^ 32) }
{
    let by = loaded.units.len() as u32;
    follow_all(alloc, loaded, folder(root), by, mentions)?;
    loaded.units.push(unit)?;
    loaded.weight += weight_of(name, weight);
    Ok(())
}
