// Which variables closures share (ECMA-408, 16.10 Function Expressions).
ghost use Rattle.std.specs.Prelude.{◌≡◌, ◌++◌, nat_eq, filter, not, ◌&&◌, ◌||◌, IfOk, OnOk};
ghost use Rattle.std.specs.List.{list_any, range_with_len};
ghost use Rattle.translation.specs.Functions as f;
ghost use Rattle.lower_leaf.specs.Forms.{part};
ghost use Rattle.lower_function.specs.Uses.{functions_of, declares, names, takes, is_declared, one_if};
ghost use Rattle.lower_function.specs.Made.{parameters};

use crate::uses::{Use, uses_of};
use core_program::form::Part;
use core_program::program::Parameter;
use lower_leaf::fault::Want;
use lower_leaf::state::NumberedFunction;
use lower_leaf::surroundings::Surroundings;
use std::alloc::Global;

// Whether the use declares the variable.
fn declares(x: u32, of: Use) -> bool
    ensures { result ≡ declares x of }
{
    match of {
        Use::Declares(y) => x == y,
        Use::Names(_) => false,
        Use::Takes(_) => false,
    }
}

// Whether the use names the variable.
fn names(x: u32, of: Use) -> bool
    ensures { result ≡ names x of }
{
    match of {
        Use::Declares(_) => false,
        Use::Names(y) => x == y,
        Use::Takes(_) => false,
    }
}

// Whether the use takes the variable along.
fn takes(x: u32, of: Use) -> bool
    ensures { result ≡ takes x of }
{
    match of {
        Use::Declares(_) => false,
        Use::Names(_) => false,
        Use::Takes(y) => x == y,
    }
}

// Whether the variable is that of a parameter.
fn is_parameter(x: u32, parameters: &Vec<Parameter>) -> bool
    ensures { result ≡ list_any (λ q. nat_eq q.var x) parameters.now.items }
{
    parameters.iter().any(|parameter| parameter.var == x)
}

// Whether a form declares the variable.
fn is_made(x: u32, uses: &Vec<Use>) -> bool
    ensures { result ≡ list_any (declares x) uses.now.items }
{
    uses.iter().any(|one| declares(x, *one))
}

// Whether a form or a parameter declares the variable.
fn is_declared(x: u32, parameters: &Vec<Parameter>, uses: &Vec<Use>) -> bool
    ensures { result ≡ is_declared x parameters.now.items uses.now.items }
{
    is_parameter(x, parameters) || is_made(x, uses)
}

// Whether a form names the variable.
fn is_named(x: u32, uses: &Vec<Use>) -> bool
    ensures { result ≡ list_any (names x) uses.now.items }
{
    uses.iter().any(|one| names(x, *one))
}

// Whether a function inside takes the variable along.
fn is_taken(x: u32, uses: &Vec<Use>) -> bool
    ensures { result ≡ list_any (takes x) uses.now.items }
{
    uses.iter().any(|one| takes(x, *one))
}

// Whether the variable has a cell.
fn is_shared(x: u32, parameters: &Vec<Parameter>, uses: &Vec<Use>) -> bool
    ensures { result ≡ (is_declared x parameters.now.items uses.now.items && list_any (takes x) uses.now.items) }
{
    is_declared(x, parameters, uses) && is_taken(x, uses)
}

// Whether a function captures the variable.
fn is_captured(x: u32, parameters: &Vec<Parameter>, uses: &Vec<Use>) -> bool
    ensures { result ≡ (not (is_declared x parameters.now.items uses.now.items)
        && (list_any (names x) uses.now.items || list_any (takes x) uses.now.items)) }
{
    !is_declared(x, parameters, uses) && (is_named(x, uses) || is_taken(x, uses))
}

// The variable, if it is picked.
fn add_if(keep: bool, x: u32, found: &mut Vec<u32>) -> Result<(), Want>
    ensures { OnOk result (found.new.items ≡ found.old.items ++ one_if keep x) }
{
    if keep {
        found.push(x)?;
    }
    Ok(())
}

fn cells_by(
    alloc: Global,
    count: u32,
    parameters: &Vec<Parameter>,
    uses: &Vec<Use>,
) -> Result<Vec<u32>, Want>
    ensures { IfOk result (λ made. made.items
        ≡ filter (λ x. is_declared x parameters.now.items uses.now.items && list_any (takes x) uses.now.items) (range_with_len 0 count)) }
{
    let mut made = Vec::new(alloc);
    for x in 0..count {
        add_if(is_shared(x, parameters, uses), x, &mut made)?;
    }
    Ok(made)
}

fn captures_by(
    alloc: Global,
    count: u32,
    parameters: &Vec<Parameter>,
    uses: &Vec<Use>,
) -> Result<Vec<u32>, Want>
    ensures { IfOk result (λ made. made.items
        ≡ filter (λ x. not (is_declared x parameters.now.items uses.now.items)
        && (list_any (names x) uses.now.items || list_any (takes x) uses.now.items)) (range_with_len 0 count)) }
{
    let mut made = Vec::new(alloc);
    for x in 0..count {
        add_if(is_captured(x, parameters, uses), x, &mut made)?;
    }
    Ok(made)
}

fn taken_by(alloc: Global, count: u32, uses: &Vec<Use>) -> Result<Vec<u32>, Want>
    ensures { IfOk result (λ made. made.items ≡ filter (λ x. list_any (takes x) uses.now.items) (range_with_len 0 count)) }
{
    let mut made = Vec::new(alloc);
    for x in 0..count {
        add_if(is_taken(x, uses), x, &mut made)?;
    }
    Ok(made)
}

/// The variables below the count that a function declares and a function inside it takes along, and those that it or a
/// function inside names and that it doesn't declare; both in ascending order.
#[derive(Drop)]
pub struct Shared {
    pub cells: Vec<u32>,
    pub captures: Vec<u32>,
}

/// What a function with these parameters and this body shares.
pub fn shared_by<S: Surroundings>(
    alloc: Global,
    outside: &S,
    functions: &Vec<NumberedFunction>,
    count: u32,
    of: &Vec<Parameter>,
    body: &Part,
) -> Result<Shared, Want>
    ensures cells { IfOk result (λ made. made.cells.items
        ≡ f.cells (functions_of (S.around outside.now) functions.now) count (parameters (S.around outside.now) of.now) (part (S.around outside.now) body.now)) }
    ensures captures { IfOk result (λ made. made.captures.items
        ≡ f.captures (functions_of (S.around outside.now) functions.now) count (parameters (S.around outside.now) of.now) (part (S.around outside.now) body.now)) }
{
    let mut uses = Vec::new(alloc);
    uses_of(outside, functions, body, &mut uses)?;
    Ok(Shared {
        cells: cells_by(alloc, count, of, &uses)?,
        captures: captures_by(alloc, count, of, &uses)?,
    })
}

/// The variables below the count that an initialiser shares with functions inside it, in ascending order.
pub fn initialiser_cells<S: Surroundings>(
    alloc: Global,
    outside: &S,
    functions: &Vec<NumberedFunction>,
    count: u32,
    init: &Part,
) -> Result<Vec<u32>, Want>
    ensures { IfOk result (λ made. made.items
        ≡ filter (λ x. f.any_form (f.takes (functions_of (S.around outside.now) functions.now) x) (part (S.around outside.now) init.now)) (range_with_len 0 count)) }
{
    let mut uses = Vec::new(alloc);
    uses_of(outside, functions, init, &mut uses)?;
    taken_by(alloc, count, &uses)
}
