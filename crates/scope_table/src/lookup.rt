// What names mean in a unit.
ghost use Rattle.std.specs.Prelude.{◌≡◌, ℕ, ◌<◌, ◌≤◌, false, IfOk, IsPermutation, length, nat_lt, slice_index_or};
ghost use Rattle.scope_declared.specs.declared.declaration.Declared.{Declared};
ghost use Rattle.scope_table.specs.Lookup.{Finds, begins_before};
ghost use Rattle.scope_table.specs.Order.{Encloses, IsInOrder, depth, owner_depth, place_before};
ghost use Rattle.scope_table.specs.Order.{sort_key};

use crate::place::{before_or, place_before};
use dart_base::name::Name;
use dart_base::place::Place;
use scope_declared::declaration::{Declared, DeclaredKind, Owner};
use std::alloc::{AllocError, Global};

/// The declarations of a unit, for looking names up: name by name, those of one name from the outside to the inside.
#[derive(Drop)]
pub struct Scopes {
    pub(crate) entries: Vec<Declared>,
    // For each entry where those begin, up to it, that count no longer than it does.
    outer: Vec<usize>,
    ghost in_order: { IsInOrder entries.items },
    ghost one_each: { length outer.items ≡ length entries.items },
    ghost enclosing: { Encloses entries.items outer.items },
}

fn owner_depth(owner: Owner) -> u32
    ensures { result ≡ owner_depth owner }
{
    match owner {
        Owner::Class => 1,
        Owner::Library | Owner::Object => 0,
    }
}

fn depth(kind: DeclaredKind) -> u32
    ensures { result ≡ depth kind }
{
    match kind {
        DeclaredKind::Owned(owner, _) => owner_depth(owner),
        _ => 0,
    }
}

fn begins_before(one: &Declared, at: Place, name: Name) -> bool
    ensures { result ≡ begins_before at name one.now }
{
    let begins = place_before(one.extent.after, at);
    before_or(one.name.0, name.0, begins)
}

// Where the entries begin, up to that at `index`, that count no longer than it does.
fn first_within(entries: &[Declared], outer: &[usize], index: usize) -> usize
    requires within { index < length entries.now }
    requires earlier { length outer.now ≡ index }
    requires enclosing { Encloses entries.now outer.now }
    ensures below { result ≤ index }
    ensures shorter { (j : ℕ) (d : Declared) → result ≤ j → j < index →
        place_before (slice_index_or entries.now index d).extent.last
        (slice_index_or entries.now j d).extent.last ≡ false }
{
    let last = entries[index].extent.last;
    let mut first = index;
    while first > 0 {
        if place_before(last, entries[first - 1].extent.last) {
            return first;
        }
        first = outer[first - 1];
    }
    first
}

fn enclosing(alloc: Global, entries: &[Declared]) -> Result<Vec<usize>, AllocError>
    ensures { IfOk result (λ outer. (length outer.items ≡ length entries.now) × Encloses entries.now outer.items) }
{
    let mut outer = Vec::new(alloc);
    for index in 0..entries.len() {
        let first = first_within(entries, &outer, index);
        outer.push(first)?;
    }
    Ok(outer)
}

impl Scopes {
    /// The declarations in an order in which names are found.
    pub fn new(alloc: Global, declared: Vec<Declared>) -> Result<Self, AllocError>
        ensures { IfOk result (λ scopes. IsPermutation declared.items scopes.entries.items) }
    {
        let mut entries = declared;
        entries.sort_by_key(
            |one: &Declared| -> (u32, (u32, (u32, (u32, u32))))
                ensures { result ≡ sort_key one.now }
            {
                let after = one.extent.after;
                let level = depth(one.kind);
                (
                    one.name.0,
                    (after.unit, (after.line, (after.column, level))),
                )
            },
        )?;
        let outer = enclosing(alloc, &entries)?;
        Ok(Scopes { entries, outer })
    }

    /// What the name means at a place of the unit: the innermost declaration that counts there, or `None` where none does
    /// (ECMA-408, 6.1 Scoping and 16.33 Identifier Reference). Takes no memory.
    pub fn lookup(&self, at: Place, name: Name) -> Option<Declared>
        ensures { Finds at name self.now.entries.items result }
    {
        let mut end = self.entries.partition_point(
            |one: &Declared| -> bool
                ensures { result ≡ begins_before at name one.now }
            { begins_before(one, at, name) },
        );
        while end > 0 {
            let one = self.entries[end - 1];
            if one.name.0 != name.0 {
                return None;
            }
            if !place_before(one.extent.last, at) {
                return Some(one);
            }
            end = self.outer[end - 1];
        }
        None
    }
}
