// What the combinators of an import or export let through.
ghost use Rattle.std.specs.Prelude.{◌≡◌};
ghost use Rattle.scope_space.specs.Library.{lets, passes};

use crate::table::{Keyed, Table};
use dart_base::name::Name;

impl Keyed for Name {
    ghost key_of = { λ name. name.0 };

    fn key(&self) -> u32 {
        self.0
    }
}

/// A combinator of an import or export (ECMA-408, 18.1 Imports).
#[derive(Drop)]
pub enum Combinator {
    /// `show`: these names alone.
    Show(Table<Name>),
    /// `hide`: all names but these.
    Hide(Table<Name>),
}

impl Combinator {
    ghost use Rattle.scope_space.specs.Library.{lets};

    /// Whether the combinator lets the name through. Takes no memory.
    pub fn lets(&self, name: Name) -> bool
        ensures { result ≡ lets name.0 self.now }
    {
        match self {
            Combinator::Show(names) => names.has(name.0),
            Combinator::Hide(names) => !names.has(name.0),
        }
    }
}

/// Whether all combinators let the name through. Takes no memory.
pub fn passes(name: Name, combinators: &[Combinator]) -> bool
    ensures { result ≡ passes name.0 combinators.now }
{
    for combinator in combinators {
        if !combinator.lets(name) {
            return false;
        }
    }
    true
}
