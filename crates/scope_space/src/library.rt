// A library, as its namespaces are made from it.
ghost use Rattle.std.specs.Prelude.{◌≡◌, not};
ghost use Rattle.std.specs.List.{list_any};

use crate::combinator::Combinator;
use crate::declaration::Declaration;
use crate::table::Table;
use dart_base::name::Name;

/// An import of a library (ECMA-408, 18.1 Imports).
#[derive(Drop)]
pub struct Import {
    /// The number of the imported library.
    pub target: u32,
    pub prefix: Option<Name>,
    pub combinators: Vec<Combinator>,
}

/// An export of a library (ECMA-408, 18.2 Exports).
#[derive(Drop)]
pub struct Export {
    /// The number of the exported library.
    pub target: u32,
    pub combinators: Vec<Combinator>,
}

/// A library: what it declares, imports and exports. Libraries are numbered by their places in a list. The import of
/// `dart:core` that a library has without writing it is one of the imports.
#[derive(Drop)]
pub struct Library {
    /// Whether it is one of `dart:`, and not of the program's own files.
    pub is_dart: bool,
    pub declarations: Table<Declaration>,
    pub imports: Vec<Import>,
    pub exports: Vec<Export>,
}

impl Library {
    ghost use Rattle.scope_space.specs.Library.{declares, shares};

    /// Whether the library itself declares the name. Takes no memory.
    pub fn declares(&self, name: Name) -> bool
        ensures { result ≡ declares self.now name.0 }
    {
        self.declarations.has(name.0)
    }

    /// Whether the library declares the name for others too. Takes no memory.
    pub fn shares(&self, name: Name) -> bool
        ensures { result ≡ shares self.now name.0 }
    {
        are_shared(self.declarations.under(name.0))
    }
}

/// Whether one of the declarations is not private.
fn are_shared(declarations: &[Declaration]) -> bool
    ensures { result ≡ list_any (λ declaration. not declaration.is_private) declarations.now }
{
    declarations
        .iter()
        .any(|declaration| !declaration.is_private)
}
