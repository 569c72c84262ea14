// What a turn of a for-in begins with, and a for-in from its parts (ECMA-408, 17.6.2 For-in).
#![tactic(auto, unfolding(translation::specs::Walk::on))]

ghost use Rattle.lower_clause.specs.Parts.{turn_block};
ghost use Rattle.lower_clause.specs.Jumps.{all_forms};
ghost use Rattle.lower_leaf.specs.Forms.{core};
ghost use Rattle.lower_leaf.specs.Gives.{Gives};
ghost use Rattle.lower_leaf.specs.Seen.{seen, asked};
ghost use Rattle.lower_stmt.specs.Parts.{for_in_core};
ghost use Rattle.std.specs.Prelude.{◌≡◌, [], codes, IfOk};
ghost use Rattle.dart_tree.specs.View as view;
ghost use Rattle.translation.specs.References as r;
ghost use Rattle.translation.specs.Statements as s;
ghost use Rattle.translation.specs.Types as y;
ghost use Rattle.translation.specs.Walk as w;

use crate::variable::variable_form;
use core_program::form::{Core, Unary};
use dart_base::place::Place;
use dart_ir::kind::SiteKind;
use dart_tree::identifier::Identifier;
use dart_tree::parameter::VariableKind;
use lower_clause::jump::joined;
use lower_leaf::fault::{LowerFault, Want};
use lower_leaf::form::{block, given, let_in, missing, turns, unary};
use lower_leaf::name::{find, place_of};
use lower_leaf::site::{checked, tested};
use lower_leaf::state::{Asked, State, clone_asked};
use lower_leaf::surroundings::Surroundings;
use lower_reference::plain::{no_operands, send, variable};
use lower_reference::reference::{identifier, word_of};
use lower_reference::write::write;
use std::alloc::Global;

/// The member of the variable.
pub fn get<S: Surroundings>(
    alloc: Global,
    outside: &S,
    place: Place,
    of: Core,
    name: &[u8],
) -> Result<Core, Want>
    ensures { IfOk result (λ made. core (S.around outside.now) made ≡ s.get place (core (S.around outside.now) of) name.now) }
{
    let name = find(outside, name)?;
    unary(outside, alloc, place, Unary::Get(name), of)
}

/// Whether the iterator goes on.
pub fn moved<S: Surroundings>(
    alloc: Global,
    outside: &S,
    state: &mut State,
    place: Place,
    at: Place,
    t: u32,
) -> Result<Core, LowerFault>
    ensures { Gives (core (S.around outside.now)) result (seen (S.around outside.now) state.new)
        (w.tested at (r.send place (r.variable place t) (codes "moveNext") (r.by_place [])) (seen (S.around outside.now) state.old)) }
{
    let name = find(outside, b"moveNext")?;
    let operands = no_operands(alloc, outside);
    let form = send(outside, place, variable(outside, place, t), name, operands)?;
    tested(alloc, outside, state, at, form)
}

// A new variable takes the next value of a for-in.
fn next_variable<S: Surroundings>(
    alloc: Global,
    outside: &S,
    state: &mut State,
    place: Place,
    name: &Identifier,
    wanted: &Asked,
    final_one: bool,
    form: Core,
) -> Result<Core, LowerFault>
    ensures { Gives (core (S.around outside.now)) result (seen (S.around outside.now) state.new)
        (s.next_variable place (y.word_of name.now) (asked (S.around outside.now) wanted.now) final_one
        (core (S.around outside.now) form) (seen (S.around outside.now) state.old)) }
{
    let asks = clone_asked(alloc, outside, wanted)?;
    let form = checked(
        alloc,
        outside,
        state,
        SiteKind::VarInit,
        place_of(name),
        asks,
        form,
    )?;
    let asks = clone_asked(alloc, outside, wanted)?;
    variable_form(alloc, outside, state, place, name, asks, final_one, form)
}

/// What the turn of a for-in does with the next value: a new variable takes it, or it is assigned.
pub fn next<S: Surroundings>(
    alloc: Global,
    outside: &S,
    state: &mut State,
    kind: &VariableKind,
    place: Place,
    name: &Identifier,
    wanted: &Asked,
    form: Core,
) -> Result<Core, LowerFault>
    ensures { Gives (core (S.around outside.now)) result (seen (S.around outside.now) state.new)
        (s.next place (y.word_of name.now) (asked (S.around outside.now) wanted.now) (view.variable_kind kind.now)
        (core (S.around outside.now) form) (seen (S.around outside.now) state.old)) }
{
    match kind {
        VariableKind::Omitted => {
            let of = identifier(outside, state, word_of(alloc, name)?)?;
            write(alloc, outside, state, place, place_of(name), of, form)
        }
        VariableKind::Var(_) => {
            next_variable(alloc, outside, state, place, name, wanted, false, form)
        }
        VariableKind::Final(_, _) => {
            next_variable(alloc, outside, state, place, name, wanted, true, form)
        }
        VariableKind::Const(_, _) => {
            next_variable(alloc, outside, state, place, name, wanted, true, form)
        }
        VariableKind::Typed(_) => {
            next_variable(alloc, outside, state, place, name, wanted, false, form)
        }
    }
}

/// A turn of a for-in from its parts.
#[tactic(auto, using(lower_clause::proofs::Joined::part_joined))]
pub fn turn_block<S: Surroundings>(
    alloc: Global,
    outside: &S,
    place: Place,
    first: Core,
    rest: Vec<Core>,
) -> Result<Core, Want>
    ensures { IfOk result (λ made. core (S.around outside.now) made
        ≡ turn_block place (core (S.around outside.now) first) (s.one_part (all_forms (S.around outside.now) rest))) }
{
    let mut forms = Vec::new(alloc);
    forms.push(first)?;
    match joined(alloc, outside, rest)? {
        None => Ok(block(outside, place, forms)),
        Some(form) => {
            forms.push(form)?;
            Ok(block(outside, place, forms))
        }
    }
}

/// A for-in from its parts.
pub fn for_in_core<S: Surroundings>(
    alloc: Global,
    outside: &S,
    place: Place,
    number: u32,
    t: u32,
    form: Core,
    test: Core,
    body: Core,
) -> Result<Core, Want>
    ensures { IfOk result (λ made. core (S.around outside.now) made
        ≡ for_in_core place number t (core (S.around outside.now) form) (core (S.around outside.now) test) (core (S.around outside.now) body)) }
{
    let form = get(alloc, outside, place, form, b"iterator")?;
    let test = given(outside, alloc, test)?;
    let body = given(outside, alloc, body)?;
    let again = turns(
        outside,
        place,
        number,
        Vec::new(alloc),
        test,
        missing(outside),
        body,
    );
    let_in(outside, alloc, place, t, form, again)
}
