// What the annotations of a program ask for.
ghost use Rattle.std.specs.Prelude.{◌≡◌, ℕ, IfOk, map};
ghost use Rattle.dart_tree.specs.UnitView as unit_view;
ghost use Rattle.lower_annotation.specs.Annotated.{annotated, annotation_of, variable_type};
ghost use Rattle.lower_annotation.specs.Seen.{alias, annotations_seen, around_seen, optional, types_in, variable};

use crate::alias::{Alias, aliases_of};
use crate::declaration::declarations;
use crate::entry::Entry;
use crate::number::Numbers;
use crate::place::{Places, places_of};
use crate::round::written_out;
use crate::state::reading;
use crate::surroundings::Annotated;
use crate::variable::{OuterVariable, Variables, variables_of};
use dart_ir::types::TypeRef;
use dart_tree::unit::Unit;
use lower_leaf::fault::Want;
use lower_leaf::surroundings::Surroundings;
use lower_leaf::types::asked_of_kind;
use std::alloc::Global;

/// What aliases and variables of a program have from their annotations.
#[derive(Drop)]
pub struct Annotations {
    aliases: Places,
    entries: Vec<Entry>,
    variables: Variables,
}

impl Annotations {
    /// What the program is translated in, over what it is translated in without annotations. Takes no memory.
    pub fn over<'a, 'b, S: Surroundings>(&'a self, base: &'b S) -> Annotated<'b, 'a, 'a, 'a, 'a, S>
        ensures { around_seen (S.around result.base.now) result.count result.parameters.now result.waits result.aliases.now result.entries.now result.variables
            ≡ annotations_seen (S.around base.now) self.now }
    {
        Annotated {
            base,
            count: 0,
            parameters: &[],
            waits: false,
            aliases: &self.aliases,
            entries: &self.entries,
            variables: Some(&self.variables),
        }
    }
}

// What the annotation of a variable asks for.
fn annotation_of<S: Surroundings>(
    alloc: Global,
    outside: &S,
    one: OuterVariable,
) -> Result<Option<TypeRef>, Want>
    ensures { IfOk result (λ made. optional (S.around outside.now) made ≡ annotation_of (S.around outside.now) (variable one.entry)) }
{
    let state = reading(alloc, outside, one.outer, None);
    let wanted = asked_of_kind(alloc, outside, &state, one.kind)?;
    Ok(wanted.of)
}

fn each_annotation<S: Surroundings>(
    alloc: Global,
    outside: &S,
    all: &[OuterVariable],
) -> Result<Vec<Option<TypeRef>>, Want>
    ensures { IfOk result (λ made. map (optional (S.around outside.now)) made.items ≡ map (λ x. annotation_of (S.around outside.now) (variable x)) all.now) }
{
    let mut made = Vec::new(alloc);
    for one in all {
        made.push(annotation_of(alloc, outside, *one)?)?;
    }
    Ok(made)
}

fn variable_numbers(alloc: Global, all: &[OuterVariable]) -> Result<Vec<u32>, Want>
    ensures { IfOk result (λ made. made.items ≡ map (λ x. x.number) all.now) }
{
    let mut made = Vec::new(alloc);
    for one in all {
        made.push(one.number)?;
    }
    Ok(made)
}

fn alias_numbers(alloc: Global, all: &[Alias]) -> Result<Vec<u32>, Want>
    ensures { IfOk result (λ made. made.items ≡ map (λ x. x.number) all.now) }
{
    let mut made = Vec::new(alloc);
    for one in all {
        made.push(one.number)?;
    }
    Ok(made)
}

// What annotations ask of variables.
fn types_of<S: Surroundings>(
    alloc: Global,
    outside: &S,
    all: &[OuterVariable],
) -> Result<Variables, Want>
    ensures { IfOk result (λ made. (n : ℕ) → types_in (S.around outside.now) made n ≡ variable_type (S.around outside.now) (map variable all.now) n) }
{
    let numbers = variable_numbers(alloc, all)?;
    let places = places_of(alloc, &numbers)?;
    let types = each_annotation(alloc, outside, all)?;
    Ok(Variables { places, types })
}

/// What the annotations of the units of a program ask for, each of the library of the number beside it. `Want` where memory or numbers run out, or
/// the table of names lacks the name of a parameter.
pub fn annotations_of<S: Surroundings, N: Numbers>(
    alloc: Global,
    base: &S,
    numbers: &N,
    homes: &[u32],
    units: &[Unit],
) -> Result<Annotations, Want>
    ensures { IfOk result (λ made. annotations_seen (S.around base.now) made
        ≡ annotated (N.numbers numbers.now) (S.around base.now) homes.now (map unit_view.unit units.now)) }
{
    let all = declarations(alloc, homes, units)?;
    let aliases = aliases_of(alloc, numbers, &all)?;
    let alias_numbers = alias_numbers(alloc, &aliases)?;
    let places = places_of(alloc, &alias_numbers)?;
    let entries = written_out(alloc, base, &places, &aliases)?;
    let declared = variables_of(alloc, base, numbers, &all)?;
    let inside = Annotated {
        base,
        count: 0,
        parameters: &[],
        waits: false,
        aliases: &places,
        entries: &entries,
        variables: None,
    };
    let variables = types_of(alloc, &inside, &declared)?;
    Ok(Annotations {
        aliases: places,
        entries,
        variables,
    })
}
