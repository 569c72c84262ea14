// Where numbers stand first in a list.
ghost use Rattle.std.specs.Prelude.{◌≡◌, ◌<◌, ◌^◌, List, ℕ, IfOk, OnOk, Option, nat_eq, length, map, if◌then◌else◌};
ghost use Rattle.std.specs.HashMap.{get};
ghost use Rattle.std.specs.Option.{option_or};
ghost use Rattle.lower_table.specs.Rows.{is_number, place_in, place_of};

use lower_leaf::fault::Want;
use std::alloc::{AllocError, Global};
use std::collections::HashMap;

// Gives a number its place, where it has none yet.
fn add_place(
    places: &mut HashMap<u32, u32>,
    number: Option<u32>,
    place: u32,
) -> Result<(), AllocError>
    ensures { OnOk result ((n : ℕ) → get nat_eq places.new n ≡ option_or (get nat_eq places.old n) (if is_number n number then Some place else None)) }
{
    if let Some(number) = number {
        if !places.contains_key(&number) {
            places.insert(number, place)?;
        }
    }
    Ok(())
}

// The first place of each number.
fn first_places(alloc: Global, among: &[Option<u32>]) -> Result<HashMap<u32, u32>, AllocError>
    requires { length among.now < 2 ^ 32 }
    ensures { IfOk result (λ made. (n : ℕ) → get nat_eq made n ≡ place_of among.now n) }
{
    let mut places = HashMap::new(alloc);
    let mut place: u32 = 0;
    for number in among {
        add_place(&mut places, *number, place)?;
        place += 1;
    }
    Ok(places)
}

fn place_in(places: &HashMap<u32, u32>, number: Option<u32>) -> Option<u32>
    ensures { (among : List (Option ℕ)) → ((n : ℕ) → get nat_eq places.now n ≡ place_of among n) → result ≡ place_in among number }
{
    match number {
        None => None,
        Some(number) => places.get(&number).copied(),
    }
}

/// Where each number stands first among others. `Want` where memory or numbers run out.
pub fn places_of(
    alloc: Global,
    numbers: &[Option<u32>],
    among: &[Option<u32>],
) -> Result<Vec<Option<u32>>, Want>
    ensures { IfOk result (λ made. made.items ≡ map (place_in among.now) numbers.now) }
{
    if among.len() > u32::MAX as usize {
        return Err(Want);
    }
    let places = first_places(alloc, among)?;
    let mut made = Vec::new(alloc);
    for number in numbers {
        made.push(place_in(&places, *number))?;
    }
    Ok(made)
}
