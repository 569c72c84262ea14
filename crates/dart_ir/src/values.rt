// Values in order, which contracts see as a list.
ghost use Rattle.std.specs.Prelude.{◌≡◌, ◌<◌, [], ◌++◌, ◌∷◌, ◌↔◌, length, take, slice_get, slice_set, IsTrue, IfOk, OnOk, OnErr};

use crate::value::Value;
use std::alloc::{AllocError, Global};
use std::marker::Model;

/// Values in order: the fields of an instance, the items of a list or the cells of a closure.
#[derive(Drop)]
pub struct Values {
    items: Vec<Value>,
}

impl Model for Values {
    ghost use Rattle.std.specs.Prelude.{List};
    ghost use Rattle.dart_ir.specs.declared.value.Value as value;

    ghost Value = { List value.Value };

    ghost view = { λ v. v.items.items };
}

impl Values {
    /// No values. Takes no memory.
    pub fn new(alloc: Global) -> Self
        ensures { result ≡ [] }
    {
        Values {
            items: Vec::new(alloc),
        }
    }

    /// The values of the vector. Takes no memory.
    pub fn from_vec(items: Vec<Value>) -> Self
        ensures { result ≡ items.items }
    {
        Values { items }
    }

    /// The vector that holds the values. Takes no memory.
    pub fn into_vec(self) -> Vec<Value>
        ensures { result.items ≡ self }
    {
        self.items
    }

    pub fn as_slice(&self) -> &[Value]
        ensures { result.now ≡ self.now }
    {
        self.items.as_slice()
    }

    pub fn len(&self) -> usize
        ensures { result ≡ length self.now }
    {
        self.items.len()
    }

    /// Whether there are no values.
    pub fn is_empty(&self) -> bool
        ensures { IsTrue result ↔ (self.now ≡ []) }
    {
        self.items.is_empty()
    }

    /// The value at the index, or `None` past the end.
    pub fn get(&self, index: usize) -> Option<Value>
        ensures { result ≡ slice_get self.now index }
    {
        self.items.as_slice().get(index).copied()
    }

    /// Puts the value at the index.
    pub fn set(&mut self, index: usize, value: Value)
        requires { index < length self.old }
        ensures { self.new ≡ slice_set self.old index value }
    {
        self.items[index] = value;
    }

    /// Adds a value at the end. An `Err` changes nothing.
    pub fn push(&mut self, value: Value) -> Result<(), AllocError>
        ensures ok { OnOk result (self.new ≡ self.old ++ value ∷ []) }
        ensures err { OnErr result (self.new ≡ self.old) }
    {
        self.items.push(value)?;
        Ok(())
    }

    /// Keeps the first values, or all where there are no more. Takes no memory.
    pub fn truncate(&mut self, count: usize)
        ensures { self.new ≡ take count self.old }
    {
        self.items.truncate(count);
    }

    /// An equal list.
    pub fn try_clone(&self, alloc: Global) -> Result<Self, AllocError>
        ensures { IfOk result (λ copy. copy ≡ self.now) }
    {
        Ok(Values {
            items: Vec::from_slice(alloc, self.items.as_slice())?,
        })
    }
}
