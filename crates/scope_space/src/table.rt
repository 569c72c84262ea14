// Items in order of their keys, in which the items of a key are found by binary search.
ghost use Rattle.std.specs.Prelude.{◌≡◌, ◌==◌, ℕ, IfOk, filter};
ghost use Rattle.std.specs.List.{list_any};

use std::alloc::AllocError;
use std::marker::Model;

/// What is found by a number.
pub trait Keyed {
    ghost key_of: { Self → ℕ };

    /// The number by which it is found.
    fn key(&self) -> u32
        ensures { result ≡ key_of self.now };
}

/// Items in order of their keys, those of one key in the order in which they were given.
#[derive(Drop)]
pub struct Table<T: Keyed> {
    items: Vec<T>,
}

impl<T: Keyed> Model for Table<T> {
    ghost use Rattle.std.specs.Prelude.{List};
    ghost use Rattle.std.specs.List.Sorted.{IsNonDecreasingBy};

    ghost Value = { List T };

    ghost view = { λ table. table.items.items };

    ghost invariant = { λ table. IsNonDecreasingBy T.key_of table.items.items };
}

impl<T: Keyed + Drop> Table<T> {
    /// The table of the items.
    pub fn new(mut items: Vec<T>) -> Result<Self, AllocError>
        ensures { IfOk result (λ table. (key : ℕ) →
            filter (λ item. T.key_of item == key) table ≡ filter (λ item. T.key_of item == key) items.items) }
    {
        items.sort_by_key(|item| item.key())?;
        Ok(Table { items })
    }
}

impl<T: Keyed> Table<T> {
    /// All items. Takes no memory.
    pub fn items(&self) -> &[T]
        ensures { result.now ≡ self.now }
    {
        &self.items
    }

    /// The items of the key. Takes no memory.
    pub fn under(&self, key: u32) -> &[T]
        ensures { result.now ≡ filter (λ item. T.key_of item == key) self.now }
    {
        let first = self.items.partition_point(|item| item.key() < key);
        let end = self.items.partition_point(|item| item.key() <= key);
        &self.items[first..end]
    }

    /// Whether there is an item of the key. Takes no memory.
    pub fn has(&self, key: u32) -> bool
        ensures { result ≡ list_any (λ item. T.key_of item == key) self.now }
    {
        !self.under(key).is_empty()
    }
}
