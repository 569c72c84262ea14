// External functions, which the profile has in the prelude alone (ECMA-408, 9.4 External Functions).
ghost use Rattle.std.specs.List.{range_with_len};
ghost use Rattle.std.specs.Prelude.{◌≡◌, map, IfOk};
ghost use Rattle.dart_tree.specs.View as view;
ghost use Rattle.translation.specs.Declarations as d;
ghost use Rattle.translation.specs.References as r;
ghost use Rattle.lower_leaf.specs.Forms.{core, cores};
ghost use Rattle.lower_decl.specs.Standings.{missing_native};

use core_program::form::{Core, Job};
use dart_base::place::Place;
use dart_ir::native::NativeId;
use dart_tree::parameter::Parameters;
use lower_leaf::fault::Want;
use lower_leaf::form::{Operands, row};
use lower_leaf::surroundings::Surroundings;
use lower_reference::plain::{this, variable};
use std::alloc::Global;

/// Where an external function stands for which there is no native.
pub fn missing_native(external: Option<Place>, native: Option<NativeId>) -> Option<Place>
    ensures { result ≡ missing_native external native }
{
    match native {
        Some(_) => None,
        None => external,
    }
}

// How many parameters there are.
#[tactic(auto, using(crate::proofs::Parameters::counted))]
fn parameter_count(of: &Parameters) -> Result<u32, Want>
    ensures { IfOk result (λ count. count ≡ d.parameter_count (view.parameters of.now)) }
{
    let Some(count) = of.required.len().checked_add(of.optional.len()) else {
        return Err(Want);
    };
    match u32::try_from(count) {
        Ok(count) => Ok(count),
        Err(_) => Err(Want),
    }
}

// The first variables, so many.
fn variables<S: Surroundings>(
    alloc: Global,
    outside: &S,
    place: Place,
    count: u32,
) -> Result<Vec<Core>, Want>
    ensures { IfOk result (λ made. cores (S.around outside.now) made.items ≡ map (r.variable place) (range_with_len 0 count)) }
{
    let mut forms = Vec::new(alloc);
    for x in 0..count {
        forms.push(variable(outside, place, x))?;
    }
    Ok(forms)
}

// The first variables, behind `this` where there is one.
fn operands<S: Surroundings>(
    alloc: Global,
    outside: &S,
    place: Place,
    has_instance: bool,
    count: u32,
) -> Result<Vec<Core>, Want>
    ensures { IfOk result (λ made. cores (S.around outside.now) made.items
        ≡ d.with_this has_instance place (map (r.variable place) (range_with_len 0 count))) }
{
    let mut given = variables(alloc, outside, place, count)?;
    if !has_instance {
        return Ok(given);
    }
    let mut forms = Vec::new(alloc);
    forms.push(this(outside, place))?;
    forms.append(&mut given)?;
    Ok(forms)
}

/// A native of the parameters, with `this` first where there is one.
pub fn native_form<S: Surroundings>(
    alloc: Global,
    outside: &S,
    place: Place,
    native: NativeId,
    has_instance: bool,
    of: &Parameters,
) -> Result<Core, Want>
    ensures { IfOk result (λ made. core (S.around outside.now) made
        ≡ d.native_form place native has_instance (d.parameter_count (view.parameters of.now))) }
{
    let count = parameter_count(of)?;
    let given = Operands {
        forms: operands(alloc, outside, place, has_instance, count)?,
        names: Vec::new(alloc),
    };
    Ok(row(outside, place, Job::Native(native), given))
}
