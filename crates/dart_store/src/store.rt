// The store of an isolate.
ghost use Rattle.std.specs.Prelude.{◌≡◌, ◌+◌, ◌*◌, ◌↔◌, ◌<◌, ◌≤◌, ◌^◌, [], ◌∷◌, ◌++◌, length, map, slice_get, slice_index_or, slice_set, if◌then◌else◌, true, false, IsTrue, IfOk, OnOk, OnErr, MatchOption, Err, Some, None};
ghost use Rattle.dart_ir.specs.Object.{heap_object};
ghost use Rattle.dart_store.specs.Heap as heap;
ghost use Rattle.dart_store.specs.ObjectView.{viewed_object};
ghost use Rattle.dart_store.specs.declared.store.StoreFault.TheVariants.{Memory};

use crate::objects::{
    cost_of, cut_at, field_among, grow_at, insert_at, kind_among, length_among, push_at,
    push_number, push_object, put_field, receiver_among, remove_at, shown_behind,
};
use crate::pool::{Pool, keep};
use crate::stored::Stored;
use crate::types::TypeLists;
use crate::view::{ObjectView, view_at};
use dart_ir::number::{ClassId, DeclId, MemberId, Ref};
use dart_ir::object::Object;
use dart_ir::value::Value;
use std::alloc::{AllocError, Global};
use std::marker::Model;
use thiserror::Error;

/// Why nothing was added.
#[derive(Clone, Copy, Debug, PartialEq, Eq, Error)]
pub enum StoreFault {
    /// It would take more units than the limit leaves.
    #[error("the store is full")]
    Full,
    #[error("out of memory")]
    Memory,
}

impl From<AllocError> for StoreFault {
    ghost from_gives = { λ _ fault. fault ≡ Memory };

    fn from(_error: AllocError) -> StoreFault {
        StoreFault::Memory
    }
}

/// A static or library variable (ECMA-408, 8.1 Evaluation of Implicit Variable Getters).
#[derive(Clone, Copy, Debug, PartialEq, Eq)]
pub enum Static {
    /// It was never read or assigned.
    Unset,
    /// Its initializer is being evaluated.
    Starting,
    Holds(Value),
}

/// Which object it is, without what it holds.
#[derive(Clone, Copy, Debug, PartialEq, Eq)]
pub enum Kind {
    Instance(ClassId),
    /// A list, and whether its length can't change.
    List(bool),
    Text,
    Closure(DeclId),
    Bound(MemberId),
    TypeValue,
    SendPort { isolate: u32, port: u32 },
    ReceivePort { port: u32 },
    Cell,
    /// There is no object of that number.
    Absent,
}

/// The objects and static variables of an isolate, within a limit of units of which nothing is given back. Contracts see the
/// heap.
#[derive(Drop)]
pub struct Store {
    objects: Vec<Stored>,
    pool: Pool,
    /// The number that each object shows.
    numbers: Vec<u32>,
    /// How many objects are no cells.
    shown: u64,
    statics: Vec<Static>,
    used: u64,
    limit: u64,
}

impl Model for Store {
    ghost use Rattle.std.specs.Prelude.{◌≡◌, map, ◌≤◌, ◌<◌, ◌^◌};
    ghost use Rattle.std.specs.Coded.{codes};
    ghost use Rattle.dart_ir.specs.TyCode.{coded_ty};
    ghost use Rattle.dart_store.specs.Heap.{Heap, numbers_from, count_shown};
    ghost use Rattle.dart_store.specs.Pool.{stored_object, AllFit};

    ghost Value = { Heap };

    ghost coded = { Prim.hlevel (codes, coded_ty) };

    ghost view = { λ s. record {
      objects = map (stored_object s.pool) s.objects.items;
      statics = s.statics.items;
      used = s.used;
      limit = s.limit;
    } };

    ghost invariant = { λ s. (s.used ≤ s.limit) × (s.limit < 2 ^ 32)
        × (s.numbers.items ≡ numbers_from 0 (map (stored_object s.pool) s.objects.items))
        × (s.shown ≡ count_shown (map (stored_object s.pool) s.objects.items)) × (s.shown ≤ s.used)
        × AllFit s.pool s.objects.items };
}

impl Store {
    /// A store of no objects, with these static variables and a limit of so many units. Takes no memory.
    pub fn new(alloc: Global, statics: Vec<Static>, limit: u64) -> Store
        requires { limit < 2 ^ 32 }
        ensures { result ≡ record { objects = []; statics = statics.items; used = 0; limit = limit } }
    {
        Store {
            objects: Vec::new(alloc),
            pool: Pool {
                units: Vec::new(alloc),
                receivers: Vec::new(alloc),
                types: TypeLists::new(alloc),
            },
            numbers: Vec::new(alloc),
            shown: 0,
            statics,
            used: 0,
            limit,
        }
    }

    /// The units used.
    pub fn used(&self) -> u64
        ensures { result ≡ self.now.used }
    {
        self.used
    }

    /// Adds an object behind the others. Full exactly where its cost passes the limit; an `Err` changes nothing.
    pub fn add(&mut self, object: Object) -> Result<Ref, StoreFault>
        ensures added { IfOk result (λ r. (r.0 ≡ length self.old.objects) × (self.new ≡ heap.with_object self.old (heap_object object))) }
        ensures room { IfOk result (λ _. self.old.used + heap.cost (heap_object object) ≤ self.old.limit) }
        ensures full { result ≡ Err StoreFault.Full → self.old.limit < self.old.used + heap.cost (heap_object object) }
        ensures refused { OnErr result (self.new ≡ self.old) }
    {
        let cost = cost_of(&object);
        if cost > self.limit - self.used {
            return Err(StoreFault::Full);
        }
        let at = self.objects.len();
        let shown = shown_behind(self.shown, &object);
        let stored = keep(&mut self.pool, object)?;
        push_number(&mut self.numbers, self.shown as u32)?;
        if push_object(&mut self.objects, stored).is_err() {
            self.numbers.truncate(at);
            return Err(StoreFault::Memory);
        }
        self.shown = shown;
        self.used += cost;
        Ok(Ref(at as u64))
    }

    /// The object, or `None` where there is none of that number.
    pub fn get(&self, r: Ref) -> Option<ObjectView<'_>>
        ensures { MatchOption result (slice_get self.now.objects r.0 ≡ None) (λ view. slice_get self.now.objects r.0 ≡ Some (viewed_object view)) }
    {
        view_at(&self.pool, &self.objects, r.0 as usize)
    }

    /// Which object it is.
    pub fn kind(&self, r: Ref) -> Kind
        ensures { result ≡ heap.kind_of (slice_get self.now.objects r.0) }
    {
        kind_among(&self.objects, r.0 as usize)
    }

    /// How many fields, items, cells or units of text it has.
    pub fn length(&self, r: Ref) -> usize
        ensures { result ≡ heap.length_of (slice_get self.now.objects r.0) }
    {
        length_among(&self.objects, r.0 as usize)
    }

    /// The receiver of a closure or of a method that was taken off an object, or null.
    pub fn receiver(&self, r: Ref) -> Value
        ensures { result ≡ heap.receiver_of (slice_get self.now.objects r.0) }
    {
        receiver_among(&self.pool, &self.objects, r.0 as usize)
    }

    /// The field, the item or the cell of that number, or what a cell holds, which is its field 0; null where there is none.
    pub fn field(&self, r: Ref, index: u32) -> Value
        ensures { result ≡ heap.field_at self.now r.0 index }
    {
        field_among(&self.objects, r.0 as usize, index as usize)
    }

    /// Changes a field, an item, or what a cell holds. Where there is none it changes nothing.
    pub fn set_field(&mut self, r: Ref, index: u32, value: Value)
        ensures { self.new ≡ heap.with_field_at self.old r.0 index value }
    {
        put_field(&mut self.objects, r.0 as usize, index as usize, value);
    }

    /// Adds an item to a list, which costs a unit; another object stays as it is. Full exactly where the unit passes the limit;
    /// an `Err` changes nothing.
    pub fn push_item(&mut self, r: Ref, value: Value) -> Result<(), StoreFault>
        ensures pushed { IfOk result (λ _. self.new ≡ heap.with_item_at self.old r.0 value) }
        ensures room { IfOk result (λ _. self.old.used + heap.item_cost (slice_get self.old.objects r.0) ≤ self.old.limit) }
        ensures full { result ≡ Err StoreFault.Full → self.old.limit < self.old.used + heap.item_cost (slice_get self.old.objects r.0) }
        ensures refused { OnErr result (self.new ≡ self.old) }
    {
        let has_room = self.used < self.limit;
        if push_at(&mut self.objects, r.0 as usize, value, has_room)? {
            self.used += 1;
        }
        Ok(())
    }

    /// Keeps the first items of a list, or all where there are no more; another object stays as it is, and so do the units used.
    pub fn cut_items(&mut self, r: Ref, count: u32)
        ensures { self.new ≡ heap.with_first_items self.old r.0 count }
    {
        cut_at(&mut self.objects, r.0 as usize, count as usize);
    }

    /// Puts an item before the one at the index of a list, or at its end where there is none, which costs a unit; another
    /// object stays as it is. Full exactly where the unit passes the limit; an `Err` changes nothing.
    pub fn insert_item(&mut self, r: Ref, index: u32, value: Value) -> Result<(), StoreFault>
        ensures inserted { IfOk result (λ _. self.new ≡ heap.with_inserted_at self.old r.0 index value) }
        ensures room { IfOk result (λ _. self.old.used + heap.item_cost (slice_get self.old.objects r.0) ≤ self.old.limit) }
        ensures full { result ≡ Err StoreFault.Full → self.old.limit < self.old.used + heap.item_cost (slice_get self.old.objects r.0) }
        ensures refused { OnErr result (self.new ≡ self.old) }
    {
        let has_room = self.used < self.limit;
        if insert_at(
            &mut self.objects,
            r.0 as usize,
            index as usize,
            value,
            has_room,
        )? {
            self.used += 1;
        }
        Ok(())
    }

    /// Takes an item out of a list, where it has one of that number; another object stays as it is, and so do the units used.
    pub fn remove_item(&mut self, r: Ref, index: u32)
        ensures { self.new ≡ heap.without_item_at self.old r.0 index }
    {
        remove_at(&mut self.objects, r.0 as usize, index as usize);
    }

    /// Adds so many nulls to a list, each of which costs a unit; another object stays as it is. Full exactly where their units pass
    /// the limit; an `Err` changes nothing.
    pub fn push_nulls(&mut self, r: Ref, count: u32) -> Result<(), StoreFault>
        ensures pushed { IfOk result (λ _. self.new ≡ heap.with_nulls_at self.old r.0 count) }
        ensures room { IfOk result (λ _. self.old.used + heap.item_cost (slice_get self.old.objects r.0) * count ≤ self.old.limit) }
        ensures full { result ≡ Err StoreFault.Full → self.old.limit < self.old.used + heap.item_cost (slice_get self.old.objects r.0) * count }
        ensures refused { OnErr result (self.new ≡ self.old) }
    {
        let has_room = count as u64 <= self.limit - self.used;
        if grow_at(&mut self.objects, r.0 as usize, count as usize, has_room)? {
            self.used += count as u64;
        }
        Ok(())
    }

    /// Whether so many units more are within the limit, which is below 2^32.
    pub fn has_room(&self, units: u64) -> bool
        ensures room { IsTrue result ↔ (self.now.used + units ≤ self.now.limit) }
        ensures limit { self.now.limit < 2 ^ 32 }
    {
        units <= self.limit - self.used
    }

    /// How many objects before it are no cells, which `hashCode` shows.
    pub fn number(&self, r: Ref) -> u64
        ensures { result ≡ heap.number_at self.now r.0 }
    {
        let at = r.0 as usize;
        if at < self.numbers.len() {
            u64::from(self.numbers[at])
        } else {
            self.shown
        }
    }

    /// The static variable of that number; one that there isn't is unset.
    pub fn static_at(&self, index: u32) -> Static
        ensures { result ≡ heap.static_at self.now index }
    {
        let at = index as usize;
        if at < self.statics.len() {
            self.statics[at]
        } else {
            Static::Unset
        }
    }

    /// Changes the static variable of that number. Where there is none it changes nothing.
    pub fn set_static(&mut self, index: u32, value: Static)
        ensures { self.new ≡ heap.with_static self.old index value }
    {
        let at = index as usize;
        if at < self.statics.len() {
            self.statics[at] = value;
        }
    }
}
