// What texts mean in a library, behind a prefix or without one.
ghost use Rattle.std.specs.Prelude.{◌≡◌, ◌<◌, ◌≤◌, ◌^◌, List, ℕ, Some, None, IfOk, OnOk, length};
ghost use Rattle.lower_leaf.specs.Around.{meaning};
ghost use Rattle.scope_outer.specs.Sense.{AreClassNumbers};
ghost use Rattle.scope_outer.specs.Outside.{scopes_of};
ghost use Rattle.scope_dictionary.specs.Written.{named};
ghost use Rattle.scope_dictionary.specs.Entries.{at_text};
ghost use Rattle.scope_dictionary.specs.Dictionary.{IsDictionary, MeansAt, meaning_in, sense};

use crate::written::{suffix_of, written};
use dart_base::name::Name;
use dart_base::names::Names;
use lower_leaf::fault::Want;
use lower_leaf::meaning::Meaning;
use scope_declared::number::NO_NAME;
use scope_outer::meaning::{Scopes, means, means_behind};
use std::alloc::Global;
use std::collections::HashMap;

/// What texts mean: those without an entry mean nothing.
#[derive(Drop)]
pub struct Dictionary {
    senses: HashMap<Vec<u8>, Meaning>,
}

impl Dictionary {
    /// What the text means. Takes no memory.
    pub fn meaning(&self, text: &[u8]) -> Meaning
        ensures { meaning result ≡ meaning_in self.now text.now }
    {
        match self.senses.get(text) {
            Some(found) => *found,
            None => Meaning::Unknown,
        }
    }
}

/// A library of a program, with the table of the program's names.
#[derive(Clone, Copy)]
pub struct Home<'a> {
    pub names: &'a Names,
    pub scopes: Scopes<'a>,
    pub library: u32,
}

// What a name means in a library, behind a prefix or without one.
fn means_at(home: Home, prefix: Option<Name>, name: Name) -> Meaning
    requires numbers { AreClassNumbers home.scopes.numbered.declarations.now home.scopes.numbered.classes.now }
    requires listed { home.library < length home.scopes.spaces.now }
    ensures { MeansAt (scopes_of home.entry.scopes) home.entry.library prefix name.0 (meaning result) }
{
    match prefix {
        None => means(home.scopes, home.library, name),
        Some(prefix) => means_behind(home.scopes, home.library, prefix, name),
    }
}

/// Puts what a text means into a table, over what it has meant there.
pub fn put(
    alloc: Global,
    senses: &mut HashMap<Vec<u8>, Meaning>,
    text: &[u8],
    found: Meaning,
) -> Result<(), Want>
    ensures here { OnOk result ((other : List ℕ) → text.now ≡ other → at_text senses.new other ≡ Some found) }
    ensures apart { OnOk result ((other : List ℕ) → (text.now ≡ other → ⊥) → at_text senses.new other ≡ at_text senses.old other) }
{
    let owned = Vec::from_slice(alloc, text)?;
    senses.insert(owned, found)?;
    Ok(())
}

// Adds what a name of the table means, where the name is written in the library at all.
fn add_name(
    alloc: Global,
    senses: &mut HashMap<Vec<u8>, Meaning>,
    suffix: &[u8],
    name: &[u8],
    found: Meaning,
) -> Result<(), Want>
    ensures here { OnOk result ((text : List ℕ) → named suffix.now text ≡ name.now → at_text senses.old text ≡ None
        → sense (at_text senses.new text) ≡ meaning found) }
    ensures apart { OnOk result ((text : List ℕ) → (named suffix.now text ≡ name.now → ⊥)
        → at_text senses.new text ≡ at_text senses.old text) }
{
    if let Meaning::Unknown = found {
        return Ok(());
    }
    match written(suffix, name) {
        None => Ok(()),
        Some(text) => put(alloc, senses, text, found),
    }
}

/// What each text means in the library, behind the prefix or without one (ECMA-408, 16.33 Identifier Reference). `Want`
/// where memory runs out, or the table lacks the name of a declaration or prefix that can be seen there.
pub fn dictionary_of(alloc: Global, home: Home, prefix: Option<Name>) -> Result<Dictionary, Want>
    requires numbers { AreClassNumbers home.scopes.numbered.declarations.now home.scopes.numbered.classes.now }
    requires listed { home.library < length home.scopes.spaces.now }
    ensures { IfOk result (IsDictionary home.entry.names.now (scopes_of home.entry.scopes) home.entry.library prefix) }
{
    let Meaning::Unknown = means_at(home, prefix, NO_NAME) else {
        return Err(Want);
    };
    let suffix = suffix_of(alloc, home.library)?;
    let mut senses = HashMap::new(alloc);
    for number in 0..home.names.count() {
        let found = means_at(home, prefix, Name(number));
        let name = home.names.text(Name(number));
        add_name(
            alloc,
            &mut senses,
            suffix.as_bytes(),
            name.as_bytes(),
            found,
        )?;
    }
    Ok(Dictionary { senses })
}
