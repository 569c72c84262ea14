// The core of a program: its units in order, and then what is added to its classes (ECMA-408, 18 Libraries and Scripts).
ghost use Rattle.std.specs.Prelude.{◌≡◌, if◌then◌else◌, map, IfOk};
ghost use Rattle.translation.specs.MemberNames as member_names;
ghost use Rattle.translation.specs.Program as p;
ghost use Rattle.translation.specs.Walk as w;
ghost use Rattle.lower_leaf.specs.Gives.{Gives};
ghost use Rattle.lower_leaf.specs.Nests.{NestsFunction};
ghost use Rattle.lower_leaf.specs.Seen.{seen};
ghost use Rattle.lower_body.specs.Views.{NamesClasses, nothing};
ghost use Rattle.lower_mixin.specs.Views.{class_info};
ghost use Rattle.lower_program.specs.Views.{answer_of, first_state, given, outcome, program, program_of, reason, source_unit, walk_of};

use crate::declaration::{SourceUnit, units};
use crate::member_name::named_as_class;
use crate::reason::{Reason, is_before, place_of, reason_of};
use crate::table::{function_table, static_table};
use core_program::program::{Function, Site, StaticVar};
use dart_base::bytes::Bytes;
use dart_base::place::Place;
use dart_base::units::Units;
use dart_ir::class::{ClassInfo, Classes};
use dart_ir::number::DeclId;
use dart_tree::parameter::Parameters;
use dart_tree::statement::Body;
use lower_leaf::fault::{LowerFault, Want};
use lower_leaf::inner::Inner;
use lower_leaf::meaning::Outer;
use lower_leaf::site::unasked;
use lower_leaf::state::{Inside, State};
use lower_leaf::surroundings::Surroundings;
use lower_mixin::apply::added;
use lower_mixin::function_literal;
use std::alloc::Global;

/// A program in the core language. Its names are those of the table that the surroundings have.
#[derive(Drop)]
pub struct Program {
    /// The files' names, by the number of the unit.
    pub units: Vec<Bytes>,
    pub classes: Classes,
    /// By the number of the declaration: none where it is no function.
    pub functions: Vec<Option<Function>>,
    /// By the number of the declaration: none where it is no library or static variable.
    pub statics: Vec<Option<StaticVar>>,
    pub sites: Vec<Site>,
    /// The units of each string literal.
    pub literals: Vec<Units>,
    pub main: DeclId,
}

/// What a program is translated to.
#[derive(Drop)]
pub enum Outcome {
    Accepted(Program),
    /// The first reason for which it has no core.
    Rejected(Reason),
    /// It has constants, whose cores are left open here.
    NotBuilt,
}

// Nothing is made yet.
fn start<S: Surroundings>(alloc: Global, outside: &S) -> State
    ensures { seen (S.around outside.now) result ≡ first_state (S.around outside.now) }
{
    State {
        outer: Outer {
            library: 0,
            class: None,
        },
        inside: Inside {
            class: None,
            arguments: None,
            has_instance: false,
            result: unasked(),
            gives_value: true,
            in_handler: false,
        },
        scopes: Vec::new(alloc),
        targets: Vec::new(alloc),
        variables: 0,
        declarations: 0,
        sites: Vec::new(alloc),
        literals: Vec::new(alloc),
        functions: Vec::new(alloc),
        statics: Vec::new(alloc),
        has_constants: false,
    }
}

// The units of the program, and then what is added to its classes.
fn walk<
    S: Surroundings,
    F: Fn(Global, &S, &mut State, usize, &Parameters, &Body) -> Result<u32, LowerFault>,
>(
    alloc: Global,
    outside: &S,
    inner: &Inner<F>,
    state: &mut State,
    all: &Vec<SourceUnit<'_>>,
    classes: &Vec<ClassInfo>,
) -> Result<(), LowerFault>
    requires nests { NestsFunction S.around inner.now.limit (F.pre inner.now.function) (F.post inner.now.function) }
    requires names { NamesClasses (S.around outside.now) }
    ensures { Gives nothing result (seen (S.around outside.now) state.new)
        (walk_of (map (source_unit (S.around outside.now)) all.now.items) (map (class_info (S.around outside.now)) classes.now.items)
        (seen (S.around outside.now) state.old)) }
{
    let made = units(alloc, outside, inner, state, all)?;
    added(alloc, outside, inner, state, &made, classes)
}

// The program from what was made.
fn program_of<S: Surroundings>(
    alloc: Global,
    outside: &S,
    state: State,
    classes: Classes,
    files: Vec<Bytes>,
    main: DeclId,
) -> Result<Program, Want>
    ensures { IfOk result (λ made. program (S.around outside.now) made
        ≡ program_of (S.around outside.now) classes files main (seen (S.around outside.now) state)) }
{
    let count = state.declarations;
    let functions = function_table(alloc, count, state.functions)?;
    let statics = static_table(alloc, count, state.statics)?;
    Ok(Program {
        units: files,
        classes,
        functions,
        statics,
        sites: state.sites,
        literals: state.literals,
        main,
    })
}

// The program, unless it has constants.
fn built<S: Surroundings>(
    alloc: Global,
    outside: &S,
    state: State,
    classes: Classes,
    files: Vec<Bytes>,
    main: DeclId,
) -> Result<Outcome, Want>
    ensures { IfOk result (λ made. outcome (S.around outside.now) made ≡ p.built (seen (S.around outside.now) state).has_constants
        (program_of (S.around outside.now) classes files main (seen (S.around outside.now) state))) }
{
    if state.has_constants {
        return Ok(Outcome::NotBuilt);
    }
    Ok(Outcome::Accepted(program_of(alloc, outside, state, classes, files, main)?))
}

// What the walk gives.
fn answer<
    S: Surroundings,
    F: Fn(Global, &S, &mut State, usize, &Parameters, &Body) -> Result<u32, LowerFault>,
>(
    alloc: Global,
    outside: &S,
    inner: &Inner<F>,
    all: &Vec<SourceUnit<'_>>,
    classes: Classes,
    files: Vec<Bytes>,
    main: DeclId,
) -> Result<Outcome, Want>
    requires nests { NestsFunction S.around inner.now.limit (F.pre inner.now.function) (F.post inner.now.function) }
    requires names { NamesClasses (S.around outside.now) }
    ensures { IfOk result (λ made. outcome (S.around outside.now) made ≡ answer_of (given (S.around outside.now) all.now.items classes files main)) }
{
    let mut state = start(alloc, outside);
    match walk(alloc, outside, inner, &mut state, all, &classes.classes) {
        Ok(()) => built(alloc, outside, state, classes, files, main),
        Err(fault) => Ok(Outcome::Rejected(reason_of(fault)?)),
    }
}

// A reason before that place, or the member there.
fn first_reason(place: Place, why: Reason) -> Reason
    ensures { reason result ≡ (if member_names.is_before (p.place_of (reason why)) place then reason why else w.bad_constructor place) }
{
    if is_before(place_of(why), place) {
        return why;
    }
    Reason::BadConstructor(place)
}

// Refused at that place, unless there is a reason before it.
fn earlier<S: Surroundings>(outside: &S, place: Place, of: Outcome) -> Outcome
    ensures { outcome (S.around outside.now) result ≡ p.earlier place (outcome (S.around outside.now) of) }
{
    match of {
        Outcome::Rejected(why) => Outcome::Rejected(first_reason(place, why)),
        Outcome::Accepted(_) => Outcome::Rejected(Reason::BadConstructor(place)),
        Outcome::NotBuilt => Outcome::Rejected(Reason::BadConstructor(place)),
    }
}

// Refused where a member has a result type and the name of its class, unless there is a reason before it.
fn refused_at<S: Surroundings>(outside: &S, place: Option<Place>, of: Outcome) -> Outcome
    ensures { outcome (S.around outside.now) result ≡ p.refused_at place (outcome (S.around outside.now) of) }
{
    match place {
        None => of,
        Some(place) => earlier(outside, place, of),
    }
}

/// The core of a program whose units stand in this order and whose table of classes is this, or why it has none. In no body do more
/// function literals stand around one another than `depth` says, or there is no answer, as where memory runs out.
pub fn core_of<S: Surroundings>(
    alloc: Global,
    outside: &S,
    all: &Vec<SourceUnit<'_>>,
    classes: Classes,
    files: Vec<Bytes>,
    main: DeclId,
    depth: usize,
) -> Result<Outcome, Want>
    requires { NamesClasses (S.around outside.now) }
    ensures { IfOk result (λ made. outcome (S.around outside.now) made ≡ p.core (given (S.around outside.now) all.now.items classes files main)) }
{
    let place = named_as_class(outside, all);
    let inner = Inner {
        limit: depth,
        function: function_literal,
    };
    let made = answer(alloc, outside, &inner, all, classes, files, main)?;
    Ok(refused_at(outside, place, made))
}
