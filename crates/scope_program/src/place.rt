// The numbers of declarations by the places of their names.
ghost use Rattle.std.specs.Prelude.{◌≡◌, ◌<◌, ◌^◌, IfOk, OnOk, Some, None, length, if◌then◌else◌};
ghost use Rattle.std.specs.Option.{option_or};
ghost use Rattle.dart_base.specs.declared.place.Place.{Place};
ghost use Rattle.scope_program.specs.Classes.{position_of, same_place};
ghost use Rattle.scope_program.specs.Places.{at_place, at_spot, spot_of};

use dart_base::place::Place;
use scope_declared::declaration::Declared;
use std::alloc::{AllocError, Global};
use std::collections::HashMap;

/// A place by which a number is found.
#[derive(Clone, Copy, Debug, PartialEq, Eq, Hash)]
pub struct Spot {
    pub unit: u32,
    pub line: u32,
    pub column: u32,
}

/// The number of the first declaration at each place of a name.
#[derive(Drop)]
pub struct Places {
    numbers: HashMap<Spot, u32>,
}

fn spot_of(place: Place) -> Spot
    ensures { result ≡ spot_of place }
{
    Spot {
        unit: place.unit,
        line: place.line,
        column: place.column,
    }
}

impl Places {
    /// The number of the first declaration whose name stands there, if there is one. Takes no memory.
    pub fn number_at(&self, place: Place) -> Option<u32>
        ensures { result ≡ at_place self.now place }
    {
        self.numbers.get(&spot_of(place)).copied()
    }
}

// Gives a place a number, where it has none yet.
fn add_place(numbers: &mut HashMap<Spot, u32>, place: Place, number: u32) -> Result<(), AllocError>
    ensures { OnOk result ((other : Place) → at_spot numbers.new (spot_of other)
        ≡ option_or (at_spot numbers.old (spot_of other)) (if same_place place other then Some number else None)) }
{
    let spot = spot_of(place);
    if numbers.contains_key(&spot) {
        return Ok(());
    }
    numbers.insert(spot, number)?;
    Ok(())
}

/// The numbers of numbered declarations by the places of their names; of several at one place the first counts.
pub fn places_of(alloc: Global, numbered: &[Declared]) -> Result<Places, AllocError>
    requires { length numbered.now < 2 ^ 32 }
    ensures { IfOk result (λ made. (place : Place) → at_place made place ≡ position_of numbered.now place) }
{
    let mut numbers = HashMap::new(alloc);
    let mut number: u32 = 0;
    for one in numbered {
        add_place(&mut numbers, one.place, number)?;
        number += 1;
    }
    Ok(Places { numbers })
}
