// What names mean inside of a class, and behind it.
ghost use Rattle.std.specs.Prelude.{◌≡◌, ◌<◌, ◌^◌, List, ℕ, IfOk, OnOk, length, map};
ghost use Rattle.std.specs.Option.{option_map, option_or};
ghost use Rattle.translation.specs.Types.{text_of};
ghost use Rattle.lower_leaf.specs.Around.{meaning};
ghost use Rattle.scope_dictionary.specs.Entries.{at_text};
ghost use Rattle.scope_dictionary.specs.Names.{names_of};
ghost use Rattle.scope_class.specs.Inside.{AreClassNames, header_within, names_within, parameter_sense, static_within};

use crate::members::{Wanted, senses_of};
use crate::within::within;
use dart_base::names::Names;
use dart_tree::declaration::TypeParameter;
use lower_leaf::fault::Want;
use lower_leaf::meaning::Meaning;
use lower_leaf::name::text_of;
use scope_declared::declaration::Declared;
use scope_dictionary::dictionary::put;
use scope_dictionary::library::LibraryNames;
use scope_dictionary::written::suffix_of;
use std::alloc::Global;
use std::collections::HashMap;

/// What a class makes names mean: those that are written in its header and inside of it, and those of the table behind it.
#[derive(Drop)]
pub struct ClassNames {
    header: HashMap<Vec<u8>, Meaning>,
    senses: HashMap<Vec<u8>, Meaning>,
    statics: HashMap<Vec<u8>, Meaning>,
}

impl ClassNames {
    /// What a name means in the header of the class: as a type parameter, else as it does in the library (ECMA-408, 14 Generics).
    /// Takes no memory.
    pub fn header_meaning(&self, around: &LibraryNames, name: &[u8]) -> Meaning
        ensures { meaning result ≡ (header_within self.now (names_of around.now)).meaning name.now }
    {
        match self.header.get(name) {
            Some(found) => *found,
            None => around.meaning(name),
        }
    }

    /// What a name means inside of the class: as a member, else as a type parameter, else as it does in the library (ECMA-408,
    /// 16.33 Identifier Reference). Takes no memory.
    pub fn meaning(&self, around: &LibraryNames, name: &[u8]) -> Meaning
        ensures { meaning result ≡ (names_within self.now (names_of around.now)).meaning name.now }
    {
        match self.senses.get(name) {
            Some(found) => *found,
            None => around.meaning(name),
        }
    }

    /// What the class declares as static under a name of the table (10.7 Static Methods and 10.8 Static Variables). Takes no memory.
    pub fn member_of(&self, name: &[u8]) -> Meaning
        ensures { meaning result ≡ static_within self.now name.now }
    {
        match self.statics.get(name) {
            Some(found) => *found,
            None => Meaning::Unknown,
        }
    }
}

// Adds the type parameters of a class, where nothing has their texts yet.
fn add_parameters(
    alloc: Global,
    parameters: &[TypeParameter],
    senses: &mut HashMap<Vec<u8>, Meaning>,
) -> Result<(), Want>
    ensures { OnOk result ((text : List ℕ) → option_map meaning (at_text senses.new text)
        ≡ option_or (option_map meaning (at_text senses.old text)) (parameter_sense (map (λ one. text_of one.name) parameters.now) text)) }
{
    let mut number: u32 = 0;
    for one in parameters {
        let text = text_of(&one.name);
        if !senses.contains_key(text) {
            put(alloc, senses, text, Meaning::TypeParameter(number))?;
        }
        let Some(next) = number.checked_add(1) else {
            return Err(Want);
        };
        number = next;
    }
    Ok(())
}

// What the type parameters of a class make texts mean.
fn header_of(alloc: Global, parameters: &[TypeParameter]) -> Result<HashMap<Vec<u8>, Meaning>, Want>
    ensures { IfOk result (λ made. (text : List ℕ) → option_map meaning (at_text made text) ≡ parameter_sense (map (λ one. text_of one.name) parameters.now) text) }
{
    let mut header = HashMap::new(alloc);
    add_parameters(alloc, parameters, &mut header)?;
    Ok(header)
}

/// What the class of that declaration makes names mean, with these type parameters (ECMA-408, 10 Classes, 14 Generics). `Want` where
/// memory or a number runs out, or the table lacks the name of a member.
pub fn class_names(
    alloc: Global,
    names: &Names,
    numbered: &[Declared],
    library: u32,
    class: u32,
    parameters: &[TypeParameter],
) -> Result<ClassNames, Want>
    requires few { length numbered.now < 2 ^ 32 }
    requires listed { class < length numbered.now }
    ensures { IfOk result (AreClassNames names.now numbered.now library class (map (λ one. text_of one.name) parameters.now)) }
{
    let inside = within(numbered, class);
    let suffix = suffix_of(alloc, library)?;
    let first = class + 1;
    let mut senses = senses_of(
        alloc,
        names,
        suffix.as_bytes(),
        inside,
        first,
        Wanted::Members,
    )?;
    add_parameters(alloc, parameters, &mut senses)?;
    let header = header_of(alloc, parameters)?;
    let statics = senses_of(alloc, names, b"", inside, first, Wanted::Statics)?;
    Ok(ClassNames {
        header,
        senses,
        statics,
    })
}
