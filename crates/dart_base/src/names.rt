// The table of names: each text has one number.
ghost use Rattle.std.specs.Prelude.{◌≡◌, ◌-◌, ◌^◌, ◌<◌, ◌↔◌, [], length, slice_get, Some, Contains, IsSome, IfSome, IfOk, OnOk, OnErr};
ghost use Rattle.dart_base.specs.Names.{AreDistinct, interned};

use crate::name::Name;
use indexmap::IndexSet;
use std::alloc::{AllocError, Global};
use std::marker::Model;

/// A table of names, numbered from 0 in the order in which their texts first came.
#[derive(Drop)]
pub struct Names {
    texts: IndexSet<String>,
}

impl Model for Names {
    ghost use Rattle.std.specs.Prelude.{List, ℕ, ◌<◌, ◌^◌, length, string_eq, map, string_bytes};
    ghost use Rattle.indexmap.specs.IndexSet.{IsUnique};

    ghost Value = { List (List ℕ) };

    ghost view = { λ n. map string_bytes n.texts.keys };

    ghost invariant = { λ n. IsUnique string_eq n.texts × (length n.texts.keys < 2 ^ 32) };
}

impl Names {
    /// A table without names. Takes no memory.
    pub fn new(alloc: Global) -> Self
        ensures { result ≡ [] }
    {
        Names {
            texts: IndexSet::new(alloc),
        }
    }

    /// How many names there are. No text has two.
    pub fn count(&self) -> u32
        ensures count { result ≡ length self.now }
        ensures distinct { AreDistinct self.now }
    {
        self.texts.len() as u32
    }

    /// The name of the text: the one that it has, or the next number. An `Err` changes nothing.
    pub fn intern(&mut self, text: &str) -> Result<Name, AllocError>
        requires room { length self.old < 2 ^ 32 - 1 }
        ensures named { IfOk result (λ name. slice_get self.new name.0 ≡ Some text.now) }
        ensures texts { OnOk result (self.new ≡ interned self.old text.now) }
        ensures err { OnErr result (self.new ≡ self.old) }
        ensures distinct { AreDistinct self.new }
    {
        if let Some((index, _)) = self.texts.get_full(text) {
            return Ok(Name(index as u32));
        }
        let alloc = *self.texts.allocator();
        let owned = String::from_str(alloc, text)?;
        let (index, _) = self.texts.insert_full(owned)?;
        Ok(Name(index as u32))
    }

    /// The text of a name of this table. Takes no memory.
    pub fn text(&self, name: Name) -> &str
        requires { name.0 < length self.now }
        ensures { slice_get self.now name.0 ≡ Some result.now }
    {
        self.texts.as_slice()[name.0 as usize].as_str()
    }

    /// The name of the text, or `None` where it was never interned. Takes no memory.
    pub fn find(&self, text: &str) -> Option<Name>
        ensures found { IfSome result (λ name. slice_get self.now name.0 ≡ Some text.now) }
        ensures known { IsSome result ↔ Contains self.now text.now }
    {
        let (index, _) = self.texts.get_full(text)?;
        Some(Name(index as u32))
    }

    /// An equal table.
    pub fn try_clone(&self, alloc: Global) -> Result<Self, AllocError>
        ensures { IfOk result (λ copy. copy ≡ self.now) }
    {
        let mut copy = Names::new(alloc);
        for number in 0..self.count() {
            copy.intern(self.text(Name(number)))?;
        }
        Ok(copy)
    }
}
