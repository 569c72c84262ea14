// What texts mean as members of a class.
ghost use Rattle.std.specs.Prelude.{◌≡◌, ◌+◌, ◌<◌, ◌^◌, List, ℕ, IfOk, OnOk, length};
ghost use Rattle.std.specs.Option.{option_map};
ghost use Rattle.std.specs.List.{enumerate_from};
ghost use Rattle.scope_declared.specs.Number.{number_in};
ghost use Rattle.lower_leaf.specs.Around.{meaning};
ghost use Rattle.scope_dictionary.specs.Entries.{at_text};
ghost use Rattle.scope_dictionary.specs.Written.{named};
ghost use Rattle.scope_class.specs.Members.{naming, sense};
ghost use Rattle.scope_class.specs.Building.{added};
ghost use Rattle.scope_class.specs.Inside.{selects};

use crate::sense::joined;
use crate::within::{is_member, is_static};
use dart_base::names::Names;
use lower_leaf::fault::Want;
use lower_leaf::meaning::Meaning;
use scope_declared::declaration::{Declared, DeclaredKind};
use scope_dictionary::dictionary::put;
use scope_dictionary::written::written;
use std::alloc::Global;
use std::collections::HashMap;

/// Which members of a class are asked for.
#[derive(Clone, Copy)]
pub enum Wanted {
    /// Static ones and those of instances (ECMA-408, 10 Classes)
    Members,
    /// Static ones (10.7 Static Methods and 10.8 Static Variables)
    Statics,
}

fn selects(wanted: Wanted, kind: DeclaredKind) -> bool
    ensures { result ≡ selects wanted kind }
{
    match wanted {
        Wanted::Members => is_member(kind),
        Wanted::Statics => is_static(kind),
    }
}

// Adds what a declaration makes the text of its name mean, where that text can be written.
fn add_member(
    alloc: Global,
    names: &Names,
    suffix: &[u8],
    number: u32,
    one: &Declared,
    senses: &mut HashMap<Vec<u8>, Meaning>,
) -> Result<(), Want>
    ensures { OnOk result ((text : List ℕ) → option_map meaning (at_text senses.new text)
        ≡ added names.now suffix.now number one.now (option_map meaning (at_text senses.old text)) text) }
{
    if one.name.0 >= names.count() {
        return Err(Want);
    }
    let name = names.text(one.name);
    match written(suffix, name.as_bytes()) {
        None => Ok(()),
        Some(text) => {
            let found = joined(senses.get(text).copied(), number, one.kind);
            put(alloc, senses, text, found)?;
            Ok(())
        }
    }
}

/// What texts mean as members of a class, of what is declared inside of it from that number on. Private names end with the
/// suffix in the table. `Want` where memory runs out, or the table lacks the name of a member.
pub fn senses_of(
    alloc: Global,
    names: &Names,
    suffix: &[u8],
    inside: &[Declared],
    first: u32,
    wanted: Wanted,
) -> Result<HashMap<Vec<u8>, Meaning>, Want>
    requires { first + length inside.now < 2 ^ 32 }
    ensures { IfOk result (λ made. (text : List ℕ) → option_map meaning (at_text made text)
        ≡ sense (naming (selects wanted) (enumerate_from first inside.now) (number_in names.now (named suffix.now text)))) }
{
    let mut senses = HashMap::new(alloc);
    let mut number = first;
    for one in inside {
        if selects(wanted, one.kind) {
            add_member(alloc, names, suffix, number, one, &mut senses)?;
        }
        number += 1;
    }
    Ok(senses)
}
