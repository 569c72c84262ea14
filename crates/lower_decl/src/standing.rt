// Where a body stands.
ghost use Rattle.std.specs.Prelude.{◌≡◌, IfOk};
ghost use Rattle.translation.specs.Declarations as d;
ghost use Rattle.lower_leaf.specs.Around.{Around};
ghost use Rattle.lower_leaf.specs.Seen.{asked, inside};
ghost use Rattle.lower_decl.specs.Standings.{standing};

use dart_ir::number::ClassId;
use dart_ir::types::Types;
use lower_function::inside::clone_types;
use lower_leaf::fault::Want;
use lower_leaf::state::{Asked, Inside};
use lower_leaf::surroundings::Surroundings;
use std::alloc::Global;

/// Where a body stands.
#[derive(Drop)]
pub struct Standing {
    /// The class whose type parameters may stand there.
    pub class: Option<ClassId>,
    /// The type arguments that a mixin application gives the class as a mixin.
    pub arguments: Option<Types>,
    /// Whether there is a `this` (ECMA-408, 16.11 This).
    pub has_instance: bool,
}

/// Outside of classes, and in a static member: no type parameters, and no `this`.
pub fn static_standing() -> Standing
    ensures { (a : Around) → standing a result ≡ d.static_standing }
{
    Standing {
        class: None,
        arguments: None,
        has_instance: false,
    }
}

/// What stands around in a function there.
pub fn inside_of<S: Surroundings>(
    alloc: Global,
    outside: &S,
    of: &Standing,
    wanted: Asked,
) -> Result<Inside, Want>
    ensures { IfOk result (λ made. inside (S.around outside.now) made
        ≡ d.inside (standing (S.around outside.now) of.now) (asked (S.around outside.now) wanted)) }
{
    let arguments = clone_types(alloc, outside, &of.arguments)?;
    Ok(Inside {
        class: of.class,
        arguments,
        has_instance: of.has_instance,
        result: wanted,
        gives_value: true,
        in_handler: false,
    })
}
