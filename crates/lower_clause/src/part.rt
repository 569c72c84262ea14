// Forms as statements and as parts of statements.
ghost use Rattle.lower_clause.specs.Jumps.{all_forms};
ghost use Rattle.lower_leaf.specs.Forms.{core, part};
ghost use Rattle.std.specs.Prelude.{◌≡◌, ◌∷◌, [], IfOk};
ghost use Rattle.translation.specs.Statements as s;

use crate::jump::joined;
use core_program::form::{Core, Part};
use lower_leaf::fault::Want;
use lower_leaf::form::{given, missing};
use lower_leaf::surroundings::Surroundings;
use std::alloc::Global;

/// One form.
pub fn alone<S: Surroundings>(alloc: Global, outside: &S, form: Core) -> Result<Vec<Core>, Want>
    ensures { IfOk result (λ made. all_forms (S.around outside.now) made ≡ core (S.around outside.now) form ∷ []) }
{
    let mut made = Vec::new(alloc);
    made.push(form)?;
    Ok(made)
}

/// A branch or a body from its forms.
#[tactic(auto, using(crate::proofs::Joined::part_joined))]
pub fn part_of_forms<S: Surroundings>(
    alloc: Global,
    outside: &S,
    forms: Vec<Core>,
) -> Result<Part, Want>
    ensures { IfOk result (λ made. part (S.around outside.now) made ≡ s.one_part (all_forms (S.around outside.now) forms)) }
{
    match joined(alloc, outside, forms)? {
        None => Ok(missing(outside)),
        Some(form) => given(outside, alloc, form),
    }
}
