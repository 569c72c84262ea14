// The namespaces of the libraries of a program.
ghost use Rattle.std.specs.Prelude.{◌≡◌, ◌<◌, ◌^◌, None, Some, length, vec_len, IfOk};
ghost use Rattle.scope_space.specs.Namespace.{IsBound, IsBinding, own};

use crate::bound::{Binding, Bound, bound_of};
use crate::declaration::Declaration;
use crate::handed::handed_of;
use crate::library::Library;
use crate::space::{Space, spaces_of};
use crate::table::Table;
use dart_base::name::Name;
use std::alloc::{AllocError, Global};
use std::marker::Model;

/// The libraries of a program, with tables of their namespaces.
#[derive(Drop)]
pub struct Spaces {
    libraries: Vec<Library>,
    tables: Vec<Space>,
}

impl Model for Spaces {
    ghost use Rattle.std.specs.Prelude.{List};
    ghost use Rattle.scope_space.specs.declared.library.Library.{Library};

    ghost Value = { List Library };

    ghost use Rattle.scope_space.specs.Building.{AreSpaces};

    ghost view = { λ spaces. spaces.libraries.items };

    ghost invariant = { λ spaces. AreSpaces spaces.libraries.items spaces.tables.items };
}

impl Spaces {
    /// The namespaces of the libraries (ECMA-408, 18.1 Imports, 18.2 Exports). An import or export that leads to no library of
    /// the list offers nothing.
    pub fn new(alloc: Global, libraries: Vec<Library>) -> Result<Self, AllocError>
        requires { vec_len libraries < 2 ^ 32 }
        ensures { IfOk result (λ spaces. spaces ≡ libraries.items) }
    {
        let handed = Table::new(handed_of(alloc, &libraries)?)?;
        let tables = spaces_of(alloc, &libraries, &handed)?;
        Ok(Spaces { libraries, tables })
    }

    /// The libraries. Takes no memory.
    pub fn libraries(&self) -> &[Library]
        ensures { result.now ≡ self.now }
    {
        &self.libraries
    }

    /// The declarations of the name that the library has itself: none, one, or a getter and a setter. Takes no memory.
    pub fn own(&self, library: u32, name: Name) -> &[Declaration]
        requires { library < length self.now }
        ensures { result.now ≡ own self.now library name.0 }
    {
        self.libraries[library as usize].declarations.under(name.0)
    }

    /// What the name is bound to by the imports of the library that have no prefix. Takes no memory.
    pub fn imported(&self, library: u32, name: Name) -> Bound
        requires { library < length self.now }
        ensures { IsBound self.now library None name.0 result }
    {
        bound_of(self.tables[library as usize].offers.under(name.0), None)
    }

    /// What the name is bound to behind the prefix in the library. Takes no memory.
    pub fn prefixed(&self, library: u32, prefix: Name, name: Name) -> Bound
        requires { library < length self.now }
        ensures { IsBound self.now library (Some prefix) name.0 result }
    {
        bound_of(
            self.tables[library as usize].offers.under(name.0),
            Some(prefix),
        )
    }

    /// What the name means in the library: its own declaration, else a prefix, else what its imports give (ECMA-408,
    /// 16.33 Identifier Reference). Takes no memory.
    pub fn binding(&self, library: u32, name: Name) -> Binding
        requires { library < length self.now }
        ensures { IsBinding self.now library name.0 result }
    {
        if self.libraries[library as usize].declares(name) {
            Binding::Own
        } else if self.tables[library as usize].prefixes.has(name.0) {
            Binding::Prefix
        } else {
            Binding::Imported(self.imported(library, name))
        }
    }
}
