// Functions of classes once their forms are made, and constructors behind the initial values of fields.
ghost use Rattle.std.specs.Prelude.{◌≡◌, ◌++◌, ◌∷◌, [], map, if◌then◌else◌, IfOk, OnOk};
ghost use Rattle.core_program.specs.Core as c;
ghost use Rattle.translation.specs.ClassBodies as b;
ghost use Rattle.lower_leaf.specs.Forms.{core, cores, part};
ghost use Rattle.lower_leaf.specs.Seen.{seen, function};
ghost use Rattle.lower_function.specs.Made.{parameters};
ghost use Rattle.lower_decl.specs.Standings.{heading};
ghost use Rattle.lower_class.specs.Views.{draft};
ghost use Rattle.lower_body.specs.Views.{generated, all_generated};

use core_program::copy::try_clone_cores;
use core_program::form::{Core, Part};
use core_program::program::{Function, Parameter};
use dart_base::bytes::Bytes;
use lower_class::construct::Draft;
use lower_decl::declare::Heading;
use lower_function::shared::shared_by;
use lower_leaf::fault::Want;
use lower_leaf::form::{block, given};
use lower_leaf::state::{NumberedFunction, State};
use lower_leaf::surroundings::Surroundings;
use std::alloc::Global;

/// A generative constructor, as mixin applications forward it (ECMA-408, 12.1 Mixin Application).
#[derive(Drop)]
pub struct Generated {
    pub number: u32,
    /// Its id in its library, empty where it has none.
    pub id: Bytes,
    pub parameters: Vec<Parameter>,
}

// The function itself, with so many variables.
#[tactic(auto, using(lower_function::proofs::Made::function_seen))]
fn finished<S: Surroundings>(
    alloc: Global,
    outside: &S,
    state: &State,
    head: Heading,
    bound: Vec<Parameter>,
    body: Part,
    count: u32,
) -> Result<Function, Want>
    ensures { IfOk result (λ made. function (S.around outside.now) made
        ≡ (b.finished (heading (S.around outside.now) head) (parameters (S.around outside.now) bound) (part (S.around outside.now) body)
        count (seen (S.around outside.now) state.now)).made) }
{
    let found = shared_by(alloc, outside, &state.functions, count, &bound, &body)?;
    Ok(Function {
        name: head.name,
        kind: head.kind,
        class: head.inside.class,
        parameters: bound,
        vars: count,
        cells: found.cells,
        captures: found.captures,
        signature: head.signature,
        body,
    })
}

/// A function with the form as its body, and with so many variables.
pub fn add_function<S: Surroundings>(
    alloc: Global,
    outside: &S,
    state: &mut State,
    head: Heading,
    bound: Vec<Parameter>,
    form: Core,
    count: u32,
) -> Result<(), Want>
    ensures { OnOk result (seen (S.around outside.now) state.new ≡ b.with_function (b.finished (heading (S.around outside.now) head)
        (parameters (S.around outside.now) bound) (c.given (core (S.around outside.now) form)) count (seen (S.around outside.now) state.old))
        (seen (S.around outside.now) state.old)) }
{
    let number = head.number;
    let body = given(outside, alloc, form)?;
    let made = finished(alloc, outside, state, head, bound, body, count)?;
    state.functions.push(NumberedFunction { number, made })?;
    Ok(())
}

/// Equal forms in the same order.
pub fn clone_forms<S: Surroundings>(
    alloc: Global,
    outside: &S,
    forms: &Vec<Core>,
) -> Result<Vec<Core>, Want>
    ensures { IfOk result (λ made. cores (S.around outside.now) made.items ≡ cores (S.around outside.now) forms.now.items) }
{
    Ok(try_clone_cores(alloc, forms)?)
}

// The forms of a constructor, behind the initial values of the fields if it has them.
fn draft_forms<S: Surroundings>(
    alloc: Global,
    outside: &S,
    values: &Vec<Core>,
    has_values: bool,
    forms: Vec<Core>,
) -> Result<Vec<Core>, Want>
    ensures { IfOk result (λ made. cores (S.around outside.now) made.items
        ≡ (if has_values then cores (S.around outside.now) values.now.items else []) ++ cores (S.around outside.now) forms.items) }
{
    if !has_values {
        return Ok(forms);
    }
    let mut more = forms;
    let mut all = clone_forms(alloc, outside, values)?;
    all.append(&mut more)?;
    Ok(all)
}

// A constructor that its class writes.
fn add_draft<S: Surroundings>(
    alloc: Global,
    outside: &S,
    state: &mut State,
    values: &Vec<Core>,
    of: Draft,
) -> Result<Generated, Want>
    ensures made { IfOk result (λ made. generated (S.around outside.now) made ≡ b.generated (draft (S.around outside.now) of)) }
    ensures added { OnOk result (seen (S.around outside.now) state.new
        ≡ b.with_drafts (cores (S.around outside.now) values.now.items) (draft (S.around outside.now) of ∷ []) (seen (S.around outside.now) state.old)) }
{
    let Draft {
        place,
        id,
        head,
        parameters: bound,
        has_values,
        forms,
        vars,
    } = of;
    let made = Generated {
        number: head.number,
        id,
        parameters: Vec::from_slice(alloc, &bound)?,
    };
    let forms = draft_forms(alloc, outside, values, has_values, forms)?;
    let form = block(outside, place, forms);
    add_function(alloc, outside, state, head, bound, form, vars)?;
    Ok(made)
}

/// The constructors that a class writes, with the initial values of the fields in front.
pub fn add_drafts<S: Surroundings>(
    alloc: Global,
    outside: &S,
    state: &mut State,
    values: &Vec<Core>,
    drafts: Vec<Draft>,
) -> Result<Vec<Generated>, Want>
    ensures made { IfOk result (λ made. all_generated (S.around outside.now) made ≡ map b.generated (map (draft (S.around outside.now)) drafts.items)) }
    ensures added { OnOk result (seen (S.around outside.now) state.new
        ≡ b.with_drafts (cores (S.around outside.now) values.now.items) (map (draft (S.around outside.now)) drafts.items) (seen (S.around outside.now) state.old)) }
{
    let mut found = Vec::new(alloc);
    for one in drafts {
        found.push(add_draft(alloc, outside, state, values, one)?)?;
    }
    Ok(found)
}
