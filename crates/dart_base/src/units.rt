// Units of UTF-16 on the heap, which contracts see as a list.
ghost use Rattle.std.specs.Prelude.{◌≡◌, ℕ, List, [], ◌++◌, ◌∷◌, ◌↔◌, length, IsTrue, IfOk, OnOk, OnErr};

use std::alloc::{AllocError, Global};
use std::marker::Model;

/// The units of a text in UTF-16; a unit without its partner may stand among them.
#[derive(Drop)]
pub struct Units {
    items: Vec<u16>,
}

impl Model for Units {
    ghost Value = { List ℕ };

    ghost view = { λ u. u.items.items };
}

impl Units {
    /// No units. Takes no memory.
    pub fn new(alloc: Global) -> Self
        ensures { result ≡ [] }
    {
        Units {
            items: Vec::new(alloc),
        }
    }

    /// The units of the vector. Takes no memory.
    pub fn from_vec(items: Vec<u16>) -> Self
        ensures { result ≡ items.items }
    {
        Units { items }
    }

    /// A copy of the slice.
    pub fn from_slice(alloc: Global, items: &[u16]) -> Result<Self, AllocError>
        ensures { IfOk result (λ units. units ≡ items.now) }
    {
        Ok(Units {
            items: Vec::from_slice(alloc, items)?,
        })
    }

    /// The vector that holds the units. Takes no memory.
    pub fn into_vec(self) -> Vec<u16>
        ensures { result.items ≡ self }
    {
        self.items
    }

    pub fn as_slice(&self) -> &[u16]
        ensures { result.now ≡ self.now }
    {
        self.items.as_slice()
    }

    pub fn len(&self) -> usize
        ensures { result ≡ length self.now }
    {
        self.items.len()
    }

    /// Whether there are no units.
    pub fn is_empty(&self) -> bool
        ensures { IsTrue result ↔ (self.now ≡ []) }
    {
        self.items.is_empty()
    }

    /// Adds a unit at the end. An `Err` changes nothing.
    pub fn push(&mut self, unit: u16) -> Result<(), AllocError>
        ensures ok { OnOk result (self.new ≡ self.old ++ unit ∷ []) }
        ensures err { OnErr result (self.new ≡ self.old) }
    {
        self.items.push(unit)?;
        Ok(())
    }

    /// Adds units at the end. An `Err` changes nothing.
    pub fn append(&mut self, more: &[u16]) -> Result<(), AllocError>
        ensures ok { OnOk result (self.new ≡ self.old ++ more.now) }
        ensures err { OnErr result (self.new ≡ self.old) }
    {
        self.items.extend_from_slice(more)
    }
}
