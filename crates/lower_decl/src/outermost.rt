// Outermost functions and initialisers, through which variables are numbered.
ghost use Rattle.std.specs.Prelude.{◌≡◌, ◌++◌, length, map, take, drop};
ghost use Rattle.lower_leaf.specs.Seen.{seen};
ghost use Rattle.lower_decl.specs.Standings.{numbered_from, ended, with_count};

use lower_leaf::state::{NumberedFunction, State};
use lower_leaf::surroundings::Surroundings;

/// What an outermost function or initialiser begins behind.
#[derive(Clone, Copy, Debug, PartialEq, Eq)]
pub struct Beginning {
    /// The number of the next variable.
    pub variables: u32,
    /// How many functions are made.
    pub functions: usize,
}

/// An outermost function or initialiser begins, whose variables are numbered from a first one on.
pub fn begin<S: Surroundings>(outside: &S, state: &mut State, first: u32) -> Beginning
    ensures numbered { seen (S.around outside.now) state.new ≡ numbered_from first (seen (S.around outside.now) state.old) }
    ensures variables { result.variables ≡ (seen (S.around outside.now) state.old).variables }
    ensures functions { result.functions ≡ length (seen (S.around outside.now) state.old).functions }
{
    let variables = state.variables;
    state.variables = first;
    Beginning {
        variables,
        functions: state.functions.len(),
    }
}

/// The functions behind the first ones have so many variables.
pub fn count_functions(functions: &mut Vec<NumberedFunction>, first: usize, count: u32)
    ensures { functions.new.items ≡ take first functions.old.items ++ map (with_count count) (drop first functions.old.items) }
{
    for i in first..functions.len() {
        let one = &mut functions[i];
        one.made.vars = count;
    }
}

/// It ends: now it is known how many variables it and the functions inside it have.
#[tactic(auto, using(crate::proofs::Counted::counted_seen))]
pub fn end<S: Surroundings>(outside: &S, state: &mut State, before: Beginning)
    ensures { seen (S.around outside.now) state.new
        ≡ ended before.variables before.functions (seen (S.around outside.now) state.old) }
{
    let count = state.variables;
    count_functions(&mut state.functions, before.functions, count);
    state.variables = before.variables;
}
