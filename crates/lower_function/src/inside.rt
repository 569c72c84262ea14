// The function or handler around, and the statements that can be left.
#![tactic(auto, using(crate::proofs::Steps::steps, crate::proofs::Copied::copied), unfolding(lower_leaf::specs::Around::ty))]

ghost use Rattle.std.specs.Prelude.{◌≡◌, true, map, length, IfOk, OnOk};
ghost use Rattle.translation.specs.Functions as f;
ghost use Rattle.lower_leaf.specs.Around.{option_types};
ghost use Rattle.lower_leaf.specs.Seen.{seen, asked, inside, target};
ghost use Rattle.lower_function.specs.Made.{entered, with_inside};

use dart_ir::types::{Types, try_clone_types};
use lower_leaf::fault::Want;
use lower_leaf::state::{Asked, Inside, State, Target, clone_asked};
use lower_leaf::surroundings::Surroundings;
use std::alloc::Global;
use std::mem::replace;

/// Equal type arguments.
pub fn clone_types<S: Surroundings>(
    alloc: Global,
    outside: &S,
    of: &Option<Types>,
) -> Result<Option<Types>, Want>
    ensures { IfOk result (λ made. option_types (S.around outside.now) made ≡ option_types (S.around outside.now) of.now) }
{
    match of {
        None => Ok(None),
        Some(given) => {
            let made = try_clone_types(alloc, given)?;
            Ok(Some(made))
        }
    }
}

/// An equal one.
pub fn clone_inside<S: Surroundings>(
    alloc: Global,
    outside: &S,
    of: &Inside,
) -> Result<Inside, Want>
    ensures { IfOk result (λ made. inside (S.around outside.now) made ≡ inside (S.around outside.now) of.now) }
{
    let arguments = clone_types(alloc, outside, &of.arguments)?;
    let wanted = clone_asked(alloc, outside, &of.result)?;
    Ok(Inside {
        class: of.class,
        arguments,
        has_instance: of.has_instance,
        result: wanted,
        gives_value: of.gives_value,
        in_handler: of.in_handler,
    })
}

/// What stands around in a function inside another (ECMA-408, 16.10 Function Expressions).
pub fn inner_inside<S: Surroundings>(
    alloc: Global,
    outside: &S,
    state: &State,
    wanted: Asked,
) -> Result<Inside, Want>
    ensures { IfOk result (λ made. inside (S.around outside.now) made
        ≡ f.inner (asked (S.around outside.now) wanted) (seen (S.around outside.now) state.now).inside) }
{
    let arguments = clone_types(alloc, outside, &state.inside.arguments)?;
    Ok(Inside {
        class: state.inside.class,
        arguments,
        has_instance: state.inside.has_instance,
        result: wanted,
        gives_value: true,
        in_handler: false,
    })
}

/// From here on a handler stands around (17.10 Rethrow). The answer is what stood around before.
pub fn enter_handler<S: Surroundings>(
    alloc: Global,
    outside: &S,
    state: &mut State,
) -> Result<Inside, Want>
    ensures inside { OnOk result (seen (S.around outside.now) state.new ≡ with_inside
        (record (seen (S.around outside.now) state.old).inside { in_handler = true }) (seen (S.around outside.now) state.old)) }
    ensures before { IfOk result (λ before. inside (S.around outside.now) before ≡ (seen (S.around outside.now) state.old).inside) }
{
    let mut made = clone_inside(alloc, outside, &state.inside)?;
    made.in_handler = true;
    Ok(replace(&mut state.inside, made))
}

/// This stands around again.
pub fn leave_inside<S: Surroundings>(outside: &S, state: &mut State, before: Inside)
    ensures { seen (S.around outside.now) state.new
        ≡ with_inside (inside (S.around outside.now) before) (seen (S.around outside.now) state.old) }
{
    state.inside = before;
}

/// What a function is translated in, once it is left.
#[derive(Drop)]
pub struct Before {
    pub inside: Inside,
    pub targets: Vec<Target>,
    /// How many names are in scope.
    pub depth: usize,
}

/// A function begins: no statement around it can be left.
pub fn enter_function<S: Surroundings>(
    alloc: Global,
    outside: &S,
    state: &mut State,
    of: Inside,
) -> Before
    ensures inside { seen (S.around outside.now) state.new
        ≡ entered (inside (S.around outside.now) of) (seen (S.around outside.now) state.old) }
    ensures around { inside (S.around outside.now) result.inside ≡ (seen (S.around outside.now) state.old).inside }
    ensures targets { map target result.targets.items ≡ (seen (S.around outside.now) state.old).targets }
    ensures depth { result.depth ≡ length (seen (S.around outside.now) state.old).scopes }
{
    let targets = replace(&mut state.targets, Vec::new(alloc));
    let inside = replace(&mut state.inside, of);
    Before {
        inside,
        targets,
        depth: state.scopes.len(),
    }
}
