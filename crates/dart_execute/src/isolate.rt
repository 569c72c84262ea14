// Whether a program may start isolates.
ghost use Rattle.std.specs.Prelude.{◌≡◌};
ghost use Rattle.dart_execute.specs.Execution.{is_isolate, mentions_isolate};
ghost use Rattle.scope_load.specs.State.{state_of};

use scope_load::loaded::{Link, Loaded};

/// The number of the unit `dart:isolate`.
pub const ISOLATE_UNIT: u32 = 2;

fn is_isolate(link: &Link) -> bool
    ensures { result ≡ is_isolate link.now }
{
    match link.target {
        None => false,
        Some(target) => target == ISOLATE_UNIT,
    }
}

/// Whether a file of the program mentions `dart:isolate`. Takes no memory.
pub fn mentions_isolate(loaded: &Loaded) -> bool
    ensures { result ≡ mentions_isolate (state_of loaded.now) }
{
    loaded.links.iter().any(|link| is_isolate(link))
}
