// What one name means in a library.
ghost use Rattle.std.specs.Prelude.{◌≡◌, ◌<◌, length, Some};
ghost use Rattle.lower_leaf.specs.Around.{meaning};
ghost use Rattle.scope_outer.specs.Sense.{AreClassNumbers};
ghost use Rattle.scope_outer.specs.Outside.{Means, MeansBehind, own_sense, bound_sense, scopes_of};

use crate::sense::{Numbered, sense};
use dart_base::name::Name;
use lower_leaf::meaning::Meaning;
use scope_space::bound::{Binding, Bound};
use scope_space::spaces::Spaces;

/// The namespaces of a program's libraries, and its numbered declarations.
#[derive(Clone, Copy)]
pub struct Scopes<'a> {
    pub spaces: &'a Spaces,
    pub numbered: Numbered<'a>,
}

// What a library's own declarations of a name make it mean.
fn own_sense(scopes: Scopes, library: u32, name: Name) -> Meaning
    requires { AreClassNumbers scopes.numbered.declarations.now scopes.numbered.classes.now }
    ensures { meaning result ≡ own_sense (scopes_of scopes.entry) library name.0 }
{
    if library as usize >= scopes.spaces.libraries().len() {
        return Meaning::Unknown;
    }
    sense(scopes.numbered, scopes.spaces.own(library, name))
}

fn bound_sense(scopes: Scopes, name: Name, bound: Bound) -> Meaning
    requires { AreClassNumbers scopes.numbered.declarations.now scopes.numbered.classes.now }
    ensures { meaning result ≡ bound_sense (scopes_of scopes.entry) name.0 bound }
{
    match bound {
        Bound::Given(owner) => own_sense(scopes, owner, name),
        Bound::Ambiguous => Meaning::Ambiguous,
        Bound::Unknown => Meaning::Unknown,
    }
}

/// What a name means in a library (ECMA-408, 16.33 Identifier Reference). Takes no memory.
pub fn means(scopes: Scopes, library: u32, name: Name) -> Meaning
    requires numbers { AreClassNumbers scopes.numbered.declarations.now scopes.numbered.classes.now }
    requires listed { library < length scopes.spaces.now }
    ensures { Means (scopes_of scopes.entry) library name.0 (meaning result) }
{
    match scopes.spaces.binding(library, name) {
        Binding::Own => own_sense(scopes, library, name),
        Binding::Prefix => Meaning::Prefix,
        Binding::Imported(bound) => bound_sense(scopes, name, bound),
    }
}

/// What a name means in a library behind a prefix of its imports (18.1 Imports). Takes no memory.
pub fn means_behind(scopes: Scopes, library: u32, prefix: Name, name: Name) -> Meaning
    requires numbers { AreClassNumbers scopes.numbered.declarations.now scopes.numbered.classes.now }
    requires listed { library < length scopes.spaces.now }
    ensures { MeansBehind (scopes_of scopes.entry) library prefix.0 name.0 (meaning result) }
{
    bound_sense(scopes, name, scopes.spaces.prefixed(library, prefix, name))
}
