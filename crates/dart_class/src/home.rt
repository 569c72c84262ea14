// The units of a program, each with its library.
ghost use Rattle.std.specs.Prelude.{◌≡◌, IfOk, slice_get};
ghost use Rattle.dart_class.specs.Homes.{home_of, homes_from};

use class_reader::home::Home;
use scope_load::units::UnitName;
use std::alloc::{AllocError, Global};

// Where the unit of that number stands.
fn home_at(names: &[UnitName], at: usize, library: u32) -> Home
    ensures { result ≡ home_of library (slice_get names.now at) }
{
    let (is_user, is_core) = match names.get(at) {
        Some(UnitName::File(_)) => (true, false),
        Some(UnitName::Core) => (false, true),
        Some(UnitName::Isolate) | None => (false, false),
    };
    Home {
        library,
        is_user,
        is_core,
    }
}

/// Where the units stand that have these names and belong to these libraries.
pub fn unit_homes(alloc: Global, names: &[UnitName], homes: &[u32]) -> Result<Vec<Home>, AllocError>
    ensures { IfOk result (λ made. made.items ≡ homes_from names.now 0 homes.now) }
{
    let mut made = Vec::new(alloc);
    for (at, library) in homes.iter().enumerate() {
        made.push(home_at(names, at, *library))?;
    }
    Ok(made)
}
