// Generative constructors (ECMA-408, 10.6.1 Generative Constructors).
ghost use Rattle.std.specs.Prelude.{◌≡◌, if◌then◌else◌, map, true, IfOk};
ghost use Rattle.dart_tree.specs.Places.{place_of};
ghost use Rattle.dart_tree.specs.UnitView as unit_view;
ghost use Rattle.dart_tree.specs.View as view;
ghost use Rattle.translation.specs.Classes as cl;
ghost use Rattle.translation.specs.Declarations as d;
ghost use Rattle.lower_leaf.specs.Gives.{Gives};
ghost use Rattle.lower_leaf.specs.Nests.{NestsFunction};
ghost use Rattle.lower_leaf.specs.Seen.{seen};
ghost use Rattle.lower_operand.specs.Made.{all_forms};
ghost use Rattle.lower_function.specs.Formals.{formals, bind_formals};
ghost use Rattle.lower_function.specs.Made.{parameters};
ghost use Rattle.lower_decl.specs.Standings.{heading};
ghost use Rattle.lower_class.specs.Views.{class_around, constructing, constructed_with, formed, formed_there, forms_of, parts};

use crate::field::ClassAround;
use crate::header::{constructing, signed_there};
use crate::initialise::{all_formals, id_of, implicit_super, initializers, writes_super};
use crate::redirect::{is_circular, redirected};
use core_program::form::Core;
use core_program::program::{FunctionKind, Parameter};
use dart_base::bytes::Bytes;
use dart_base::place::Place;
use dart_tree::declaration::{ConstructorName, Initializers, Member};
use dart_tree::expression::Arguments;
use dart_tree::identifier::DotName;
use dart_tree::parameter::Parameters;
use dart_tree::statement::Body;
use lower_decl::block_of;
use lower_decl::declare::Heading;
use lower_decl::outermost::{begin, end};
use lower_function::inside::{clone_inside, leave_inside};
use lower_function::parameter::{Formals, bind_formals};
use lower_leaf::fault::{LowerFault, Want};
use lower_leaf::inner::Inner;
use lower_leaf::name::{own_text, place_of};
use lower_leaf::state::{State, depth, leave_scope};
use lower_leaf::surroundings::Surroundings;
use std::alloc::Global;
use std::mem::replace;

/// A constructor before the initial values of fields are put in front.
#[derive(Drop)]
pub struct Draft {
    pub place: Place,
    /// Its id in its library, empty where it has none.
    pub id: Bytes,
    pub head: Heading,
    pub parameters: Vec<Parameter>,
    /// Whether the initial values of the fields come first in it.
    pub has_values: bool,
    pub forms: Vec<Core>,
    /// How many variables it numbers.
    pub vars: u32,
}

/// The initial values of fields, and the constructors.
#[derive(Drop)]
pub struct Parts {
    pub values: Vec<Core>,
    pub drafts: Vec<Draft>,
}

/// None of these.
pub fn no_parts<S: Surroundings>(alloc: Global, outside: &S) -> Parts
    ensures { parts (S.around outside.now) result ≡ cl.no_parts }
{
    Parts {
        values: Vec::new(alloc),
        drafts: Vec::new(alloc),
    }
}

// A constructor as it is kept until the initial values are known.
fn drafted<S: Surroundings>(
    alloc: Global,
    outside: &S,
    state: &State,
    of: &ConstructorName,
    has_values: bool,
    head: Heading,
    bound: Vec<Parameter>,
    forms: Vec<Core>,
) -> Result<Parts, Want>
    ensures { IfOk result (λ made. parts (S.around outside.now) made
        ≡ cl.drafted (place_of of.now.class) (cl.id_of of.now.name) has_values (heading (S.around outside.now) head)
        (parameters (S.around outside.now) bound) (all_forms (S.around outside.now) forms) (seen (S.around outside.now) state.now)) }
{
    let id = own_text(alloc, outside, state.outer, id_of(&of.name))?;
    let mut made = no_parts(alloc, outside);
    made.drafts.push(Draft {
        place: place_of(&of.class),
        id,
        head,
        parameters: bound,
        has_values,
        forms,
        vars: state.variables,
    })?;
    Ok(made)
}

// The forms of the body of a constructor.
#[tactic(auto, using(crate::proofs::Trees::body_trees, crate::proofs::Rest::steps), unfolding(translation::specs::Walk::on))]
fn body_forms<
    S: Surroundings,
    F: Fn(Global, &S, &mut State, usize, &Parameters, &Body) -> Result<u32, LowerFault>,
>(
    alloc: Global,
    outside: &S,
    inner: &Inner<F>,
    state: &mut State,
    tree: &Body,
) -> Result<Vec<Core>, LowerFault>
    requires { NestsFunction S.around inner.now.limit (F.pre inner.now.function) (F.post inner.now.function) }
    ensures { Gives (all_forms (S.around outside.now)) result (seen (S.around outside.now) state.new)
        (cl.own_block (view.body tree.now) (seen (S.around outside.now) state.old)) }
{
    match tree {
        Body::Block(inside) => {
            let form = block_of(alloc, outside, inner, state, inside)?;
            let mut made = Vec::new(alloc);
            made.push(form)?;
            Ok(made)
        }
        Body::Arrow {
            arrow: _,
            value: _,
            semicolon: _,
        } => Ok(Vec::new(alloc)),
        Body::Omitted(_) => Ok(Vec::new(alloc)),
    }
}

// The forms of the body, in which there is a `this`.
fn own_block<
    S: Surroundings,
    F: Fn(Global, &S, &mut State, usize, &Parameters, &Body) -> Result<u32, LowerFault>,
>(
    alloc: Global,
    outside: &S,
    inner: &Inner<F>,
    state: &mut State,
    tree: &Body,
    around: &ClassAround,
) -> Result<Vec<Core>, LowerFault>
    requires { NestsFunction S.around inner.now.limit (F.pre inner.now.function) (F.post inner.now.function) }
    ensures { Gives (all_forms (S.around outside.now)) result (seen (S.around outside.now) state.new)
        (cl.entering (constructing (class_around (S.around outside.now) around.now) true) (cl.own_block (view.body tree.now)) (seen (S.around outside.now) state.old)) }
{
    let there = constructing(alloc, outside, around, true)?;
    let before = replace(&mut state.inside, there);
    let made = body_forms(alloc, outside, inner, state, tree)?;
    leave_inside(outside, state, before);
    Ok(made)
}

// The initialiser list, where there is one.
fn list_forms<
    S: Surroundings,
    F: Fn(Global, &S, &mut State, usize, &Parameters, &Body) -> Result<u32, LowerFault>,
>(
    alloc: Global,
    outside: &S,
    inner: &Inner<F>,
    state: &mut State,
    list: &Option<Initializers>,
    around: &ClassAround,
) -> Result<Vec<Core>, LowerFault>
    requires { NestsFunction S.around inner.now.limit (F.pre inner.now.function) (F.post inner.now.function) }
    ensures { Gives (all_forms (S.around outside.now)) result (seen (S.around outside.now) state.new)
        (cl.initializers (class_around (S.around outside.now) around.now) (cl.init_list (unit_view.maybe unit_view.initializers list.now)) (seen (S.around outside.now) state.old)) }
{
    match list {
        None => Ok(Vec::new(alloc)),
        Some(list) => initializers(alloc, outside, inner, state, &list.items, around),
    }
}

// The forms of a constructor: initialising formals, the initialiser list, the call of the superclass's constructor where
// none is written, and the body.
fn generative_forms<
    S: Surroundings,
    F: Fn(Global, &S, &mut State, usize, &Parameters, &Body) -> Result<u32, LowerFault>,
>(
    alloc: Global,
    outside: &S,
    inner: &Inner<F>,
    state: &mut State,
    given: &Parameters,
    list: &Option<Initializers>,
    body: &Body,
    around: &ClassAround,
    bound: &Vec<Parameter>,
    implied: Vec<Core>,
) -> Result<Vec<Core>, LowerFault>
    requires { NestsFunction S.around inner.now.limit (F.pre inner.now.function) (F.post inner.now.function) }
    ensures { Gives (all_forms (S.around outside.now)) result (seen (S.around outside.now) state.new)
        (cl.generative_forms (class_around (S.around outside.now) around.now) (view.parameters given.now) (unit_view.maybe unit_view.initializers list.now)
        (all_forms (S.around outside.now) implied) (view.body body.now) (parameters (S.around outside.now) bound.now) (seen (S.around outside.now) state.old)) }
{
    let mut forms = all_formals(alloc, outside, state, around, given, bound)?;
    let mut more = list_forms(alloc, outside, inner, state, list, around)?;
    let mut last = own_block(alloc, outside, inner, state, body, around)?;
    let mut implied = implied;
    forms.append(&mut more)?;
    forms.append(&mut implied)?;
    forms.append(&mut last)?;
    Ok(forms)
}

/// What the forms of a constructor are made of.
#[derive(Drop)]
pub enum Forms<'a> {
    /// Of a constructor that makes an object by itself, with the call of the superclass's constructor where none is written.
    Own {
        given: &'a Parameters,
        list: &'a Option<Initializers>,
        body: &'a Body,
        implied: Vec<Core>,
    },
    /// Of one that goes on with another of its class, which may lead back to it.
    Redirecting {
        is_circular: bool,
        this: Place,
        other: &'a Option<DotName>,
        handed: &'a Arguments,
    },
}

// The forms of a constructor whose parameters are bound.
fn forms_of<
    S: Surroundings,
    F: Fn(Global, &S, &mut State, usize, &Parameters, &Body) -> Result<u32, LowerFault>,
>(
    alloc: Global,
    outside: &S,
    inner: &Inner<F>,
    state: &mut State,
    of: Forms<'_>,
    around: &ClassAround,
    bound: &Vec<Parameter>,
) -> Result<Vec<Core>, LowerFault>
    requires { NestsFunction S.around inner.now.limit (F.pre inner.now.function) (F.post inner.now.function) }
    ensures { Gives (all_forms (S.around outside.now)) result (seen (S.around outside.now) state.new)
        (forms_of (S.around outside.now) (class_around (S.around outside.now) around.now) of.entry (parameters (S.around outside.now) bound.now) (seen (S.around outside.now) state.old)) }
{
    match of {
        Forms::Own {
            given,
            list,
            body,
            implied,
        } => generative_forms(
            alloc, outside, inner, state, given, list, body, around, bound, implied,
        ),
        Forms::Redirecting {
            is_circular,
            this,
            other,
            handed,
        } => redirected(
            alloc,
            outside,
            inner,
            state,
            handed,
            is_circular,
            this,
            around.class,
            other,
        ),
    }
}

// The parameters, and then the forms of a constructor.
fn formed<
    S: Surroundings,
    F: Fn(Global, &S, &mut State, usize, &Parameters, &Body) -> Result<u32, LowerFault>,
>(
    alloc: Global,
    outside: &S,
    inner: &Inner<F>,
    state: &mut State,
    of: Forms<'_>,
    around: &ClassAround,
    name: &ConstructorName,
    has_values: bool,
    head: Heading,
    given: &Formals<'_>,
) -> Result<Parts, LowerFault>
    requires { NestsFunction S.around inner.now.limit (F.pre inner.now.function) (F.post inner.now.function) }
    ensures { Gives (parts (S.around outside.now)) result (seen (S.around outside.now) state.new)
        (formed name.now has_values (heading (S.around outside.now) head) (bind_formals has_values (formals (S.around outside.now) given.now))
        (forms_of (S.around outside.now) (class_around (S.around outside.now) around.now) of.entry) (seen (S.around outside.now) state.old)) }
{
    let bound = bind_formals(alloc, outside, state, has_values, given)?;
    let forms = forms_of(alloc, outside, inner, state, of, around, &bound)?;
    Ok(drafted(alloc, outside, state, name, has_values, head, bound, forms)?)
}

// The parameters and the forms of a constructor, in its context and a scope of its own.
#[tactic(auto, using(crate::proofs::Rest::steps), unfolding(translation::specs::Walk::on, translation::specs::Walk::leaving))]
fn formed_there<
    S: Surroundings,
    F: Fn(Global, &S, &mut State, usize, &Parameters, &Body) -> Result<u32, LowerFault>,
>(
    alloc: Global,
    outside: &S,
    inner: &Inner<F>,
    state: &mut State,
    of: Forms<'_>,
    around: &ClassAround,
    name: &ConstructorName,
    has_values: bool,
    head: Heading,
    given: &Formals<'_>,
) -> Result<Parts, LowerFault>
    requires { NestsFunction S.around inner.now.limit (F.pre inner.now.function) (F.post inner.now.function) }
    ensures { Gives (parts (S.around outside.now)) result (seen (S.around outside.now) state.new)
        (formed_there name.now has_values (heading (S.around outside.now) head)
        (bind_formals has_values (formals (S.around outside.now) given.now))
        (forms_of (S.around outside.now) (class_around (S.around outside.now) around.now) of.entry) (seen (S.around outside.now) state.old)) }
{
    let there = clone_inside(alloc, outside, &head.inside)?;
    let before = replace(&mut state.inside, there);
    let scope = depth(outside, state);
    let made = formed(
        alloc, outside, inner, state, of, around, name, has_values, head, given,
    )?;
    leave_scope(outside, state, scope);
    leave_inside(outside, state, before);
    Ok(made)
}

// Where the variables of a constructor begin: behind those of the initial values, if it has them.
fn first_variable(has_values: bool, count: u32) -> u32
    ensures { result ≡ (if has_values then count else 0) }
{
    if has_values { count } else { 0 }
}

// A constructor with its variables from a first one on.
fn outermost_formed<
    S: Surroundings,
    F: Fn(Global, &S, &mut State, usize, &Parameters, &Body) -> Result<u32, LowerFault>,
>(
    alloc: Global,
    outside: &S,
    inner: &Inner<F>,
    state: &mut State,
    of: Forms<'_>,
    around: &ClassAround,
    name: &ConstructorName,
    has_values: bool,
    head: Heading,
    given: &Formals<'_>,
    first: u32,
) -> Result<Parts, LowerFault>
    requires { NestsFunction S.around inner.now.limit (F.pre inner.now.function) (F.post inner.now.function) }
    ensures { Gives (parts (S.around outside.now)) result (seen (S.around outside.now) state.new)
        (d.outermost first (formed_there name.now has_values (heading (S.around outside.now) head)
        (bind_formals has_values (formals (S.around outside.now) given.now))
        (forms_of (S.around outside.now) (class_around (S.around outside.now) around.now) of.entry)) (seen (S.around outside.now) state.old)) }
{
    let beginning = begin(outside, state, first);
    let made = formed_there(
        alloc, outside, inner, state, of, around, name, has_values, head, given,
    )?;
    end(outside, state, beginning);
    Ok(made)
}

// A constructor from its forms, with a signature that is looked up in its class.
fn constructed<
    S: Surroundings,
    F: Fn(Global, &S, &mut State, usize, &Parameters, &Body) -> Result<u32, LowerFault>,
>(
    alloc: Global,
    outside: &S,
    inner: &Inner<F>,
    state: &mut State,
    of: Forms<'_>,
    around: &ClassAround,
    name: &ConstructorName,
    has_values: bool,
    given: &Parameters,
    number: u32,
) -> Result<Parts, LowerFault>
    requires { NestsFunction S.around inner.now.limit (F.pre inner.now.function) (F.post inner.now.function) }
    ensures { Gives (parts (S.around outside.now)) result (seen (S.around outside.now) state.new)
        (constructed_with (class_around (S.around outside.now) around.now) name.now has_values (view.parameters given.now) number
        (forms_of (S.around outside.now) (class_around (S.around outside.now) around.now) of.entry) (seen (S.around outside.now) state.old)) }
{
    let made = signed_there(alloc, outside, state, around, id_of(&name.name), given)?;
    let inside = constructing(alloc, outside, around, false)?;
    let head = Heading {
        number,
        kind: FunctionKind::Generative,
        name: made.name,
        signature: made.signature,
        inside,
    };
    let first = first_variable(has_values, around.count);
    outermost_formed(
        alloc,
        outside,
        inner,
        state,
        of,
        around,
        name,
        has_values,
        head,
        &made.formals,
        first,
    )
}

/// A generative constructor (10.6.1). Its variables follow those of the initial values of the fields.
pub fn generative_constructor<
    S: Surroundings,
    F: Fn(Global, &S, &mut State, usize, &Parameters, &Body) -> Result<u32, LowerFault>,
>(
    alloc: Global,
    outside: &S,
    inner: &Inner<F>,
    state: &mut State,
    name: &ConstructorName,
    given: &Parameters,
    list: &Option<Initializers>,
    body: &Body,
    around: &ClassAround,
    number: u32,
) -> Result<Parts, LowerFault>
    requires { NestsFunction S.around inner.now.limit (F.pre inner.now.function) (F.post inner.now.function) }
    ensures { Gives (parts (S.around outside.now)) result (seen (S.around outside.now) state.new)
        (cl.generative_constructor (class_around (S.around outside.now) around.now) name.now (view.parameters given.now)
        (unit_view.maybe unit_view.initializers list.now) (view.body body.now) number (seen (S.around outside.now) state.old)) }
{
    let above = outside.superclass(around.class);
    let is_written = writes_super(list);
    let place = place_of(&name.class);
    let implied = implicit_super(alloc, outside, state, is_written, place, above)?;
    let of = Forms::Own {
        given,
        list,
        body,
        implied,
    };
    constructed(
        alloc, outside, inner, state, of, around, name, true, given, number,
    )
}

/// A constructor that goes on with another of its class, of which none leads back to itself.
pub fn redirecting_constructor<
    S: Surroundings,
    F: Fn(Global, &S, &mut State, usize, &Parameters, &Body) -> Result<u32, LowerFault>,
>(
    alloc: Global,
    outside: &S,
    inner: &Inner<F>,
    state: &mut State,
    name: &ConstructorName,
    given: &Parameters,
    this: Place,
    other: &Option<DotName>,
    handed: &Arguments,
    around: &ClassAround,
    members: &Vec<Member>,
    number: u32,
) -> Result<Parts, LowerFault>
    requires { NestsFunction S.around inner.now.limit (F.pre inner.now.function) (F.post inner.now.function) }
    ensures { Gives (parts (S.around outside.now)) result (seen (S.around outside.now) state.new)
        (cl.redirecting_constructor (class_around (S.around outside.now) around.now) (map unit_view.member members.now.items)
        name.now (view.parameters given.now) this other.now (view.arguments handed.now) number (seen (S.around outside.now) state.old)) }
{
    let of = Forms::Redirecting {
        is_circular: is_circular(members, id_of(&name.name)),
        this,
        other,
        handed,
    };
    constructed(
        alloc, outside, inner, state, of, around, name, false, given, number,
    )
}
