// What types of headers and members are read in.
ghost use Rattle.std.specs.Prelude.{◌≡◌};
ghost use Rattle.lower_leaf.specs.Seen.{seen};
ghost use Rattle.class_reader.specs.Given.{reading_in};

use dart_ir::number::ClassId;
use lower_leaf::meaning::Outer;
use lower_leaf::site::unasked;
use lower_leaf::state::{Inside, State};
use lower_leaf::surroundings::Surroundings;
use std::alloc::Global;

/// What types are read in where names are looked up there: no local scope stands around, and type parameters may stand.
/// Takes no memory.
pub fn reading<S: Surroundings>(alloc: Global, outside: &S, outer: Outer) -> State
    ensures { seen (S.around outside.now) result ≡ reading_in (S.around outside.now) outer }
{
    State {
        outer,
        inside: Inside {
            class: Some(ClassId(0)),
            arguments: None,
            has_instance: false,
            result: unasked(),
            gives_value: true,
            in_handler: false,
        },
        scopes: Vec::new(alloc),
        targets: Vec::new(alloc),
        variables: 0,
        declarations: 0,
        sites: Vec::new(alloc),
        literals: Vec::new(alloc),
        functions: Vec::new(alloc),
        statics: Vec::new(alloc),
        has_constants: false,
    }
}
