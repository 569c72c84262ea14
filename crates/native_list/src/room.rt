// Room for items.
ghost use Rattle.std.specs.Prelude.{◌≡◌, ◌+◌, ◌≤◌, ◌<◌, ◌^◌, ◌↔◌, IsTrue, IfOk, OnErr, Err};

use dart_store::store::{Store, StoreFault};

/// Whether so many units more are within the limit of a store, which is below 2^32.
pub fn room_for(store: &Store, units: u128) -> bool
    ensures room { IsTrue result ↔ (store.now.used + units ≤ store.now.limit) }
    ensures limit { store.now.limit < 2 ^ 32 }
{
    let few = if units < 0x1_0000_0000 {
        units as u64
    } else {
        0x1_0000_0000
    };
    store.has_room(few)
}

/// The number of an item as stores take it. No store has room for a list with an item beyond them.
pub fn item_number(at: usize) -> Result<u32, StoreFault>
    ensures number { IfOk result (λ number. number ≡ at) }
    ensures memory { result ≡ Err StoreFault.Full → ⊥ }
{
    if at < 0x1_0000_0000 {
        Ok(at as u32)
    } else {
        Err(StoreFault::Memory)
    }
}
