// Lists of types, each of which is kept once where it can be told at once.
ghost use Rattle.std.specs.Prelude.{◌≡◌, ◌≤◌, [], ◌∷◌, ◌++◌, length, map, IfOk, IfSome, OnErr};
ghost use Rattle.dart_ir.specs.Ty.{ty};
ghost use Rattle.dart_store.specs.Tables.{type_list, types_at, Begins};

use crate::hash::hash_types;
use crate::same::are_same;
use dart_ir::types::{TypeRef, Types};
use std::alloc::{AllocError, Global};
use std::collections::HashMap;
use std::marker::Model;

/// Lists of types by their numbers, of which 0 is the empty list.
#[derive(Drop)]
pub struct TypeLists {
    lists: Vec<Types>,
    /// The number of the last list that hashes to a number.
    numbers: HashMap<u64, u32>,
}

impl Model for TypeLists {
    ghost use Rattle.std.specs.Prelude.{List, map};
    ghost use Rattle.std.specs.Coded.{codes};
    ghost use Rattle.dart_ir.specs.Ty.{Ty};
    ghost use Rattle.dart_ir.specs.TyCode.{coded_ty};
    ghost use Rattle.dart_store.specs.Tables.{type_list};

    ghost Value = { List (List Ty) };

    ghost coded = { Prim.hlevel (codes, coded_ty) };

    ghost view = { λ s. map type_list s.lists.items };
}

impl TypeLists {
    /// No list but the empty one. Takes no memory.
    pub fn new(alloc: Global) -> TypeLists
        ensures { result ≡ [] }
    {
        TypeLists {
            lists: Vec::new(alloc),
            numbers: HashMap::new(alloc),
        }
    }

    /// The list of the number; the empty one where there is none.
    pub fn get(&self, number: u32) -> &[TypeRef]
        ensures { map ty result.now ≡ types_at self.now number }
    {
        list_at(&self.lists, number)
    }

    /// The number of an equal list that is kept, where it is found at once. `None` says nothing.
    fn number_of(&self, types: &[TypeRef], hash: u64) -> Option<u32>
        ensures { IfSome result (λ number. (types_at self.now number ≡ map ty types.now) × (number ≤ length self.now)) }
    {
        let number = self.numbers.get(&hash).copied()?;
        if number as usize > self.lists.len() || !are_same(list_at(&self.lists, number), types) {
            return None;
        }
        Some(number)
    }

    /// The number of the list, which is kept if it isn't yet. There are below 2^32 lists: one more is want of memory. The numbers
    /// of other lists stay, also where it is an `Err`.
    pub fn keep(&mut self, types: Types) -> Result<u32, AllocError>
        ensures kept { IfOk result (λ number. (types_at self.new number ≡ map ty types.items) × (number ≤ length self.new)) }
        ensures others { Begins self.old self.new }
    {
        if types.is_empty() {
            return Ok(0);
        }
        let hash = hash_types(0, &types);
        if let Some(number) = self.number_of(&types, hash) {
            return Ok(number);
        }
        let number = push_list(&mut self.lists, types)?;
        let _ = self.numbers.insert(hash, number);
        Ok(number)
    }
}

// The list of the number; the empty one where there is none.
fn list_at(lists: &Vec<Types>, number: u32) -> &[TypeRef]
    ensures { map ty result.now ≡ types_at (map type_list lists.now.items) number }
{
    if number == 0 || number as usize > lists.len() {
        return &[];
    }
    lists[number as usize - 1].as_slice()
}

// Adds a list at the end, and gives its number.
fn push_list(lists: &mut Vec<Types>, types: Types) -> Result<u32, AllocError>
    ensures pushed { IfOk result (λ number. (lists.new.items ≡ lists.old.items ++ types ∷ []) × (number ≡ length lists.new.items)) }
    ensures err { OnErr result (lists.new.items ≡ lists.old.items) }
{
    if lists.len() >= u32::MAX as usize {
        return Err(AllocError);
    }
    lists.push(types)?;
    Ok(lists.len() as u32)
}
