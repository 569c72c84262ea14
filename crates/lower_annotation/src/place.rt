// Where numbers stand first in a list.
ghost use Rattle.std.specs.Prelude.{◌≡◌, ◌==◌, ◌<◌, ◌^◌, ℕ, IfOk, OnOk, nat_eq, length, if◌then◌else◌, Some, None};
ghost use Rattle.std.specs.HashMap.{get};
ghost use Rattle.std.specs.Option.{option_or};
ghost use Rattle.lower_annotation.specs.Annotated.{place_in};
ghost use Rattle.lower_annotation.specs.Seen.{place_at};

use lower_leaf::fault::Want;
use std::alloc::{AllocError, Global};
use std::collections::HashMap;

/// Where each number stands first in a list.
#[derive(Drop)]
pub struct Places {
    places: HashMap<u32, u32>,
}

// Gives a number its place, where it has none yet.
fn add_place(places: &mut HashMap<u32, u32>, number: u32, place: u32) -> Result<(), AllocError>
    ensures { OnOk result ((n : ℕ) → get nat_eq places.new n ≡ option_or (get nat_eq places.old n) (if number == n then Some place else None)) }
{
    if !places.contains_key(&number) {
        places.insert(number, place)?;
    }
    Ok(())
}

fn first_places(alloc: Global, numbers: &[u32]) -> Result<HashMap<u32, u32>, AllocError>
    requires { length numbers.now < 2 ^ 32 }
    ensures { IfOk result (λ made. (n : ℕ) → get nat_eq made n ≡ place_in numbers.now n) }
{
    let mut places = HashMap::new(alloc);
    let mut place: u32 = 0;
    for number in numbers {
        add_place(&mut places, *number, place)?;
        place += 1;
    }
    Ok(places)
}

/// Where each of the numbers stands first among them. `Want` where memory or numbers run out.
pub fn places_of(alloc: Global, numbers: &[u32]) -> Result<Places, Want>
    ensures { IfOk result (λ made. (n : ℕ) → place_at made n ≡ place_in numbers.now n) }
{
    if numbers.len() > u32::MAX as usize {
        return Err(Want);
    }
    let places = first_places(alloc, numbers)?;
    Ok(Places { places })
}

impl Places {
    /// Where the number stands first, if it stands anywhere. Takes no memory.
    pub fn place_at(&self, number: u32) -> Option<u32>
        ensures { result ≡ place_at self.now number }
    {
        self.places.get(&number).copied()
    }
}
