// The names of the libraries of a program.
ghost use Rattle.std.specs.Prelude.{◌≡◌, ◌++◌, ◌<◌, ◌^◌, List, ℕ, Some, IfOk, OnOk, IsSome, codes, decimal, length};
ghost use Rattle.lower_leaf.specs.Around.{meaning};
ghost use Rattle.scope_declared.specs.Number.{number_of};
ghost use Rattle.scope_outer.specs.Sense.{AreClassNumbers};
ghost use Rattle.scope_outer.specs.Outside.{MeansBehind, scopes_of};
ghost use Rattle.scope_dictionary.specs.Entries.{at_text};
ghost use Rattle.scope_dictionary.specs.Dictionary.{AreDictionaries};
ghost use Rattle.scope_dictionary.specs.Names.{AreAllNames, AreNames, meaning_behind, names_of};

use crate::dictionary::{Dictionary, Home, dictionary_of};
use crate::written::{suffix_of, written};
use dart_base::name::Name;
use dart_base::names::Names;
use lower_leaf::fault::Want;
use lower_leaf::meaning::Meaning;
use scope_outer::meaning::Scopes;
use std::alloc::Global;
use std::collections::HashMap;

/// What the names of a library mean, by their texts as they are written there.
#[derive(Drop)]
pub struct LibraryNames {
    library: u32,
    plain: Dictionary,
    behind: HashMap<Vec<u8>, Dictionary>,
}

impl LibraryNames {
    /// The number of the library. Takes no memory.
    pub fn library(&self) -> u32
        ensures { result ≡ (names_of self.now).library }
    {
        self.library
    }

    /// What a name means in the library (ECMA-408, 16.33 Identifier Reference). Takes no memory.
    pub fn meaning(&self, name: &[u8]) -> Meaning
        ensures { meaning result ≡ (names_of self.now).meaning name.now }
    {
        self.plain.meaning(name)
    }

    /// What a name means behind a prefix of the library's imports (18.1 Imports). Takes no memory.
    pub fn prefixed(&self, prefix: &[u8], name: &[u8]) -> Meaning
        ensures { meaning result ≡ (names_of self.now).prefixed prefix.now name.now }
    {
        match self.behind.get(prefix) {
            Some(dictionary) => dictionary.meaning(name),
            None => Meaning::Unknown,
        }
    }
}

// Adds the dictionary of a prefix of imports, if there is none yet.
fn add_prefix(
    alloc: Global,
    home: Home,
    suffix: &[u8],
    prefix: Name,
    behind: &mut HashMap<Vec<u8>, Dictionary>,
) -> Result<(), Want>
    requires numbers { AreClassNumbers home.scopes.numbered.declarations.now home.scopes.numbered.classes.now }
    requires listed { home.library < length home.scopes.spaces.now }
    requires end { suffix.now ≡ codes "@" ++ decimal home.library }
    requires found { AreDictionaries home.names.now (scopes_of home.scopes) home.library behind.old }
    ensures found { OnOk result (AreDictionaries home.entry.names.now (scopes_of home.entry.scopes) home.entry.library behind.new) }
    ensures kept { OnOk result ((text : List ℕ) → IsSome (at_text behind.old text) → IsSome (at_text behind.new text)) }
    ensures put { OnOk result ((text : List ℕ) → number_of home.entry.names.now home.entry.library text ≡ prefix.0 → IsSome (at_text behind.new text)) }
{
    if prefix.0 >= home.names.count() {
        return Err(Want);
    }
    let name = home.names.text(prefix);
    match written(suffix, name.as_bytes()) {
        None => Ok(()),
        Some(text) => {
            if behind.contains_key(text) {
                return Ok(());
            }
            let owned = Vec::from_slice(alloc, text)?;
            let made = dictionary_of(alloc, home, Some(prefix))?;
            behind.insert(owned, made)?;
            Ok(())
        }
    }
}

// The dictionaries of the prefixes of a library's imports.
fn prefixes(alloc: Global, home: Home) -> Result<HashMap<Vec<u8>, Dictionary>, Want>
    requires numbers { AreClassNumbers home.scopes.numbered.declarations.now home.scopes.numbered.classes.now }
    requires listed { home.library < length home.scopes.spaces.now }
    ensures { IfOk result (λ made. (prefix text : List ℕ) → MeansBehind (scopes_of home.entry.scopes) home.entry.library
        (number_of home.entry.names.now home.entry.library prefix) (number_of home.entry.names.now home.entry.library text)
        (meaning_behind (at_text made prefix) text)) }
{
    let suffix = suffix_of(alloc, home.library)?;
    let mut behind = HashMap::new(alloc);
    for import in &home.scopes.spaces.libraries()[home.library as usize].imports {
        if let Some(prefix) = import.prefix {
            add_prefix(alloc, home, suffix.as_bytes(), prefix, &mut behind)?;
        }
    }
    Ok(behind)
}

/// What the names of a library mean (ECMA-408, 16.33 Identifier Reference). `Want` where memory runs out, or the table lacks
/// the name of a declaration or prefix that can be seen there.
pub fn library_names(
    alloc: Global,
    names: &Names,
    scopes: Scopes,
    library: u32,
) -> Result<LibraryNames, Want>
    requires numbers { AreClassNumbers scopes.numbered.declarations.now scopes.numbered.classes.now }
    requires listed { library < length scopes.spaces.now }
    ensures { IfOk result (λ made. AreNames names.now (scopes_of scopes.entry) library (names_of made)) }
{
    let home = Home {
        names,
        scopes,
        library,
    };
    let plain = dictionary_of(alloc, home, None)?;
    let behind = prefixes(alloc, home)?;
    Ok(LibraryNames {
        library,
        plain,
        behind,
    })
}

/// The names of all libraries of a program, by the numbers of the libraries. `Want` as `library_names` answers it.
pub fn all_names(alloc: Global, names: &Names, scopes: Scopes) -> Result<Vec<LibraryNames>, Want>
    requires numbers { AreClassNumbers scopes.numbered.declarations.now scopes.numbered.classes.now }
    requires few { length scopes.spaces.now < 2 ^ 32 }
    ensures { IfOk result (λ made. AreAllNames names.now (scopes_of scopes.entry) made.items) }
{
    let count = scopes.spaces.libraries().len() as u32;
    let mut made = Vec::new(alloc);
    for library in 0..count {
        made.push(library_names(alloc, names, scopes, library)?)?;
    }
    Ok(made)
}
