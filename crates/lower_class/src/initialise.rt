// Initialising formals, initialiser lists and calls of the superclass's constructor (ECMA-408, 10.6.1 Generative Constructors).
ghost use Rattle.std.specs.List.{list_any};
ghost use Rattle.std.specs.Prelude.{◌≡◌, ◌∷◌, [], map, drop, IfOk, None};
ghost use Rattle.dart_tree.specs.Lists.{parameter_list_of, cascades_of};
ghost use Rattle.dart_tree.specs.UnitView as unit_view;
ghost use Rattle.dart_tree.specs.View as view;
ghost use Rattle.translation.specs.Classes as cl;
ghost use Rattle.translation.specs.Functions as f;
ghost use Rattle.translation.specs.Productions as low;
ghost use Rattle.lower_leaf.specs.Gives.{Gives};
ghost use Rattle.lower_leaf.specs.Nests.{NestsFunction};
ghost use Rattle.lower_leaf.specs.Seen.{seen};
ghost use Rattle.lower_operand.specs.Made.{all_forms};
ghost use Rattle.lower_class.specs.Views.{class_around, field_initializer, formal_at, initializer_at, is_object, super_above, without_arguments};
ghost use Rattle.core_program.specs.Core as c;
ghost use Rattle.translation.specs.References as r;
ghost use Rattle.lower_leaf.specs.Around.{class, declaration};
ghost use Rattle.lower_leaf.specs.Forms.{row_of};
ghost use Rattle.lower_function.specs.Made.{parameters};

use crate::field::{ClassAround, write_field};
use core_program::form::{Core, Job};
use core_program::program::Parameter as Bound;
use dart_base::place::Place;
use dart_ir::number::{ClassId, DeclId};
use dart_tree::declaration::{Init, InitKind, Initializers};
use dart_tree::expression::{Arguments, Cascade, Operand};
use dart_tree::identifier::{DotName, Identifier};
use dart_tree::parameter::{Parameter, ParameterKind, Parameters, ThisDot};
use dart_tree::statement::Body;
use lower_decl::{arguments, cascaded, operand};
use lower_leaf::fault::{LowerFault, Want};
use lower_leaf::first::first_of_operand;
use lower_leaf::form::{Operands, row};
use lower_leaf::inner::Inner;
use lower_leaf::meaning::Constructor;
use lower_leaf::name::{own_text, place_of, text_of};
use lower_leaf::signature::parameter_name;
use lower_leaf::state::State;
use lower_leaf::surroundings::Surroundings;
use lower_reference::plain::{no_operands, variable};
use std::alloc::Global;

/// The id of a constructor, empty where it has none.
pub fn id_of(of: &Option<DotName>) -> &[u8]
    ensures { result.now ≡ cl.id_of of.now }
{
    match of {
        None => b"",
        Some(dot) => text_of(&dot.name),
    }
}

/// The constructor of the class with the id, where it is generative.
pub fn generative<S: Surroundings>(
    alloc: Global,
    outside: &S,
    state: &State,
    class: ClassId,
    of: &Option<DotName>,
) -> Result<Option<DeclId>, Want>
    ensures { IfOk result (λ made. declaration made ≡ cl.generative class.0 of.now (seen (S.around outside.now) state.now)) }
{
    let id = own_text(alloc, outside, state.outer, id_of(of))?;
    match outside.constructor(class, id.as_slice()) {
        Constructor::Generative(number) => Ok(Some(number)),
        Constructor::Factory(_) => Ok(None),
        Constructor::Missing => Ok(None),
    }
}

// The call of another constructor on `this`.
fn super_new<S: Surroundings>(
    alloc: Global,
    outside: &S,
    place: Place,
    number: DeclId,
    operands: Operands,
) -> Result<Vec<Core>, Want>
    ensures { IfOk result (λ made. all_forms (S.around outside.now) made
        ≡ r.row place (c.super_new number.0) (row_of (S.around outside.now) operands) ∷ []) }
{
    let mut made = Vec::new(alloc);
    made.push(row(outside, place, Job::SuperNew(number), operands))?;
    Ok(made)
}

/// The call of another constructor with arguments.
pub fn handed_on<
    S: Surroundings,
    F: Fn(Global, &S, &mut State, usize, &Parameters, &Body) -> Result<u32, LowerFault>,
>(
    alloc: Global,
    outside: &S,
    inner: &Inner<F>,
    state: &mut State,
    given: &Arguments,
    place: Place,
    number: Option<DeclId>,
) -> Result<Vec<Core>, LowerFault>
    requires { NestsFunction S.around inner.now.limit (F.pre inner.now.function) (F.post inner.now.function) }
    ensures { Gives (all_forms (S.around outside.now)) result (seen (S.around outside.now) state.new)
        (cl.super_new place (declaration number) (low.arguments (view.arguments given.now)) (seen (S.around outside.now) state.old)) }
{
    match number {
        None => Err(LowerFault::BadConstructor(place)),
        Some(number) => {
            let operands = arguments(alloc, outside, inner, state, given)?;
            Ok(super_new(alloc, outside, place, number, operands)?)
        }
    }
}

// Whether it is the constructor of `Object` without an id.
fn is_object(above: ClassId, of: &Option<DotName>) -> bool
    ensures { result ≡ is_object above.0 of.now }
{
    match of {
        None => above.0 == 0,
        Some(_) => false,
    }
}

// A call of the constructor of a superclass. `Object`'s is called by nothing; what it is handed is evaluated.
#[tactic(auto, using(crate::proofs::Supers::supers), unfolding(translation::specs::Walk::on))]
fn super_above<
    S: Surroundings,
    F: Fn(Global, &S, &mut State, usize, &Parameters, &Body) -> Result<u32, LowerFault>,
>(
    alloc: Global,
    outside: &S,
    inner: &Inner<F>,
    state: &mut State,
    given: &Arguments,
    place: Place,
    above: ClassId,
    of: &Option<DotName>,
) -> Result<Vec<Core>, LowerFault>
    requires { NestsFunction S.around inner.now.limit (F.pre inner.now.function) (F.post inner.now.function) }
    ensures { Gives (all_forms (S.around outside.now)) result (seen (S.around outside.now) state.new)
        (super_above place above.0 of.now (low.arguments (view.arguments given.now)) (seen (S.around outside.now) state.old)) }
{
    if is_object(above, of) {
        let all = arguments(alloc, outside, inner, state, given)?;
        return Ok(all.forms);
    }
    let number = generative(alloc, outside, state, above, of)?;
    handed_on(alloc, outside, inner, state, given, place, number)
}

// A call of the superclass's constructor.
fn super_of<
    S: Surroundings,
    F: Fn(Global, &S, &mut State, usize, &Parameters, &Body) -> Result<u32, LowerFault>,
>(
    alloc: Global,
    outside: &S,
    inner: &Inner<F>,
    state: &mut State,
    given: &Arguments,
    place: Place,
    superclass: Option<ClassId>,
    of: &Option<DotName>,
) -> Result<Vec<Core>, LowerFault>
    requires { NestsFunction S.around inner.now.limit (F.pre inner.now.function) (F.post inner.now.function) }
    ensures { Gives (all_forms (S.around outside.now)) result (seen (S.around outside.now) state.new)
        (cl.super_of place (class superclass) of.now (low.arguments (view.arguments given.now)) (seen (S.around outside.now) state.old)) }
{
    match superclass {
        None => Err(LowerFault::BadConstructor(place)),
        Some(above) => super_above(alloc, outside, inner, state, given, place, above, of),
    }
}

// The unnamed constructor of a superclass is called without arguments.
#[tactic(auto, using(crate::proofs::Supers::supers), unfolding(translation::specs::Walk::on))]
fn unnamed_super<S: Surroundings>(
    alloc: Global,
    outside: &S,
    state: &State,
    place: Place,
    above: ClassId,
) -> Result<Vec<Core>, LowerFault>
    ensures { Gives (all_forms (S.around outside.now)) result (seen (S.around outside.now) state.now)
        (super_above place above.0 None without_arguments (seen (S.around outside.now) state.now)) }
{
    if is_object(above, &None) {
        return Ok(Vec::new(alloc));
    }
    match generative(alloc, outside, state, above, &None)? {
        None => Err(LowerFault::BadConstructor(place)),
        Some(number) => {
            let operands = no_operands(alloc, outside);
            Ok(super_new(alloc, outside, place, number, operands)?)
        }
    }
}

/// The unnamed constructor of the superclass is called without arguments, where the class has a superclass.
pub fn implicit_super<S: Surroundings>(
    alloc: Global,
    outside: &S,
    state: &State,
    is_written: bool,
    place: Place,
    superclass: Option<ClassId>,
) -> Result<Vec<Core>, LowerFault>
    ensures { Gives (all_forms (S.around outside.now)) result (seen (S.around outside.now) state.now)
        (cl.implicit_super is_written place (class superclass) (seen (S.around outside.now) state.now)) }
{
    if is_written {
        return Ok(Vec::new(alloc));
    }
    match superclass {
        None => Ok(Vec::new(alloc)),
        Some(above) => unnamed_super(alloc, outside, state, place, above),
    }
}

#[tactic(auto, using(crate::proofs::Trees::parameter_trees))]
fn this_of(kind: &ParameterKind) -> Option<ThisDot>
    ensures { result ≡ f.this_of (view.parameter_kind kind.now) }
{
    match kind {
        ParameterKind::Plain {
            kind: _,
            this_dot,
            name: _,
        } => *this_dot,
        ParameterKind::Function {
            result_type: _,
            this_dot,
            name: _,
            parameters: _,
        } => *this_dot,
    }
}

// What an initialising formal writes, and nothing for any other parameter.
#[tactic(auto, using(crate::proofs::Formal::kinds, crate::proofs::Rest::steps), unfolding(translation::specs::Walk::on))]
fn formal_write<S: Surroundings>(
    alloc: Global,
    outside: &S,
    state: &mut State,
    around: &ClassAround,
    one: &Parameter,
    x: u32,
) -> Result<Vec<Core>, LowerFault>
    ensures { Gives (all_forms (S.around outside.now)) result (seen (S.around outside.now) state.new)
        (formal_at (class_around (S.around outside.now) around.now) (cl.kind_of_parameter (view.parameter one.now)) x (seen (S.around outside.now) state.old)) }
{
    let mut made = Vec::new(alloc);
    if let Some(this_dot) = this_of(&one.kind) {
        let place = this_dot.this;
        let name = text_of(parameter_name(&one.kind));
        let form = variable(outside, place, x);
        made.push(write_field(alloc, outside, state, around, place, place, name, form)?)?;
    }
    Ok(made)
}

// What the initialising formals of a list write; the first of them is bound at an index.
fn formals<S: Surroundings>(
    alloc: Global,
    outside: &S,
    state: &mut State,
    around: &ClassAround,
    all: &Vec<Parameter>,
    first: usize,
    bound: &Vec<Bound>,
) -> Result<Vec<Core>, LowerFault>
    ensures { Gives (all_forms (S.around outside.now)) result (seen (S.around outside.now) state.new)
        (cl.formals (class_around (S.around outside.now) around.now) (parameter_list_of all.now.items)
        (drop first (parameters (S.around outside.now) bound.now)) (seen (S.around outside.now) state.old)) }
{
    let mut found = Vec::new(alloc);
    let mut i = first;
    for one in all {
        if i >= bound.len() {
            return Ok(found);
        }
        let x = bound[i].var;
        let mut forms = formal_write(alloc, outside, state, around, one, x)?;
        found.append(&mut forms)?;
        i += 1;
    }
    Ok(found)
}

/// What the initialising formals write, each the value of its parameter.
#[tactic(auto, using(lower_decl::proofs::Parameters::listed, crate::proofs::Rest::steps, crate::proofs::Trees::trees), unfolding(translation::specs::Walk::on))]
pub fn all_formals<S: Surroundings>(
    alloc: Global,
    outside: &S,
    state: &mut State,
    around: &ClassAround,
    given: &Parameters,
    bound: &Vec<Bound>,
) -> Result<Vec<Core>, LowerFault>
    ensures { Gives (all_forms (S.around outside.now)) result (seen (S.around outside.now) state.new)
        (cl.all_formals (class_around (S.around outside.now) around.now) (view.parameters given.now)
        (parameters (S.around outside.now) bound.now) (seen (S.around outside.now) state.old)) }
{
    let mut found = formals(alloc, outside, state, around, &given.required, 0, bound)?;
    let count = given.required.len();
    let mut rest = formals(alloc, outside, state, around, &given.optional, count, bound)?;
    found.append(&mut rest)?;
    Ok(found)
}

// An initialiser of a field.
fn field_initializer<
    S: Surroundings,
    F: Fn(Global, &S, &mut State, usize, &Parameters, &Body) -> Result<u32, LowerFault>,
>(
    alloc: Global,
    outside: &S,
    inner: &Inner<F>,
    state: &mut State,
    base: &Operand,
    cascades: &Vec<Cascade>,
    around: &ClassAround,
    this_dot: Option<ThisDot>,
    name: &Identifier,
) -> Result<Vec<Core>, LowerFault>
    requires { NestsFunction S.around inner.now.limit (F.pre inner.now.function) (F.post inner.now.function) }
    ensures { Gives (all_forms (S.around outside.now)) result (seen (S.around outside.now) state.new)
        (field_initializer (class_around (S.around outside.now) around.now) this_dot name.now (view.operand base.now) (cascades_of cascades.now.items) (seen (S.around outside.now) state.old)) }
{
    let at = first_of_operand(base);
    let form = operand(alloc, outside, inner, state, base)?;
    let form = cascaded(alloc, outside, inner, state, cascades, at, form)?;
    let place = this_or(this_dot, place_of(name));
    let text = text_of(name);
    let mut made = Vec::new(alloc);
    made.push(write_field(alloc, outside, state, around, place, at, text, form)?)?;
    Ok(made)
}

// Where a field that is initialised is named.
fn this_or(this_dot: Option<ThisDot>, place: Place) -> Place
    ensures { result ≡ cl.this_or this_dot place }
{
    match this_dot {
        None => place,
        Some(this_dot) => this_dot.this,
    }
}

// An initialiser; a call of `super` stands last.
fn initializer<
    S: Surroundings,
    F: Fn(Global, &S, &mut State, usize, &Parameters, &Body) -> Result<u32, LowerFault>,
>(
    alloc: Global,
    outside: &S,
    inner: &Inner<F>,
    state: &mut State,
    of: &InitKind,
    around: &ClassAround,
    is_last: bool,
) -> Result<Vec<Core>, LowerFault>
    requires { NestsFunction S.around inner.now.limit (F.pre inner.now.function) (F.post inner.now.function) }
    ensures { Gives (all_forms (S.around outside.now)) result (seen (S.around outside.now) state.new)
        (initializer_at (class_around (S.around outside.now) around.now) is_last (unit_view.init_kind of.now) (seen (S.around outside.now) state.old)) }
{
    match of {
        InitKind::Super {
            word,
            constructor,
            arguments: given,
        } => {
            if !is_last {
                return Err(LowerFault::BadConstructor(*word));
            }
            let above = outside.superclass(around.class);
            super_of(
                alloc,
                outside,
                inner,
                state,
                given,
                *word,
                above,
                constructor,
            )
        }
        InitKind::Field {
            this_dot,
            name,
            equals: _,
            operand: base,
            cascades,
        } => field_initializer(
            alloc, outside, inner, state, base, cascades, around, *this_dot, name,
        ),
    }
}

/// The initialiser list.
pub fn initializers<
    S: Surroundings,
    F: Fn(Global, &S, &mut State, usize, &Parameters, &Body) -> Result<u32, LowerFault>,
>(
    alloc: Global,
    outside: &S,
    inner: &Inner<F>,
    state: &mut State,
    all: &Vec<Init>,
    around: &ClassAround,
) -> Result<Vec<Core>, LowerFault>
    requires { NestsFunction S.around inner.now.limit (F.pre inner.now.function) (F.post inner.now.function) }
    ensures { Gives (all_forms (S.around outside.now)) result (seen (S.around outside.now) state.new)
        (cl.initializers (class_around (S.around outside.now) around.now) (map unit_view.init all.now.items) (seen (S.around outside.now) state.old)) }
{
    let mut found = Vec::new(alloc);
    for (i, one) in all.iter().enumerate() {
        let is_last = i + 1 == all.len();
        let mut forms = initializer(alloc, outside, inner, state, &one.kind, around, is_last)?;
        found.append(&mut forms)?;
    }
    Ok(found)
}

// Whether an initialiser calls `super`.
fn is_super(of: &InitKind) -> bool
    ensures { result ≡ cl.is_super (unit_view.init_kind of.now) }
{
    match of {
        InitKind::Super {
            word: _,
            constructor: _,
            arguments: _,
        } => true,
        InitKind::Field {
            this_dot: _,
            name: _,
            equals: _,
            operand: _,
            cascades: _,
        } => false,
    }
}

// Whether `super` is called in the list.
fn any_super(all: &Vec<Init>) -> bool
    ensures { result ≡ list_any (λ x. cl.is_super (unit_view.init_kind x.kind)) all.now.items }
{
    all.iter().any(|one| is_super(&one.kind))
}

/// Whether `super` is called in the list, where there is one.
#[tactic(auto, using(crate::proofs::Supers::any_super))]
pub fn writes_super(all: &Option<Initializers>) -> bool
    ensures { result ≡ cl.writes_super (unit_view.maybe unit_view.initializers all.now) }
{
    match all {
        None => false,
        Some(all) => any_super(&all.items),
    }
}
