// Functions and accessors of libraries and classes (ECMA-408, 9 Functions, 10.1 Instance Methods, 10.2 Getters, 10.3 Setters
// and 10.7 Static Methods).
ghost use Rattle.std.specs.Prelude.{◌≡◌, IfOk, false};
ghost use Rattle.dart_tree.specs.UnitView as unit_view;
ghost use Rattle.dart_tree.specs.View as view;
ghost use Rattle.translation.specs.Declarations as d;
ghost use Rattle.translation.specs.Functions as f;
ghost use Rattle.translation.specs.Productions as low;
ghost use Rattle.lower_function.specs.Formals.{formals, bind_formals};
ghost use Rattle.lower_leaf.specs.Gives.{Gives, itself};
ghost use Rattle.lower_leaf.specs.Nests.{NestsFunction};
ghost use Rattle.lower_leaf.specs.Seen.{seen};
ghost use Rattle.lower_leaf.specs.Forms.{part};
ghost use Rattle.lower_decl.specs.Standings.{standing, declared, heading, prepared, prepared_of, written_function};

use crate::native::{missing_native, native_form};
use crate::outermost::{begin, end};
use crate::standing::{Standing, inside_of};
use core_program::form::Part;
use core_program::program::FunctionKind;
use dart_base::feature::Feature;
use dart_base::name::Name;
use dart_base::place::Place;
use dart_ir::native::NativeId;
use dart_ir::number::DeclId;
use dart_ir::types::FunctionType;
use dart_tree::declaration::{Accessor, AccessorKind};
use dart_tree::identifier::Identifier;
use dart_tree::parameter::Parameters;
use dart_tree::statement::{Body, Function};
use dart_tree::types::ResultType;
use lower_function::function::{Head, close_function, numbered, signature_of};
use lower_function::inside::{enter_function, leave_inside};
use lower_function::parameter::{Formals, bind_formals, formals_of};
use lower_leaf::fault::{LowerFault, Want};
use lower_leaf::form::given as given_part;
use lower_leaf::inner::Inner;
use lower_leaf::name::{own_name, text_of};
use lower_leaf::site::unasked;
use lower_leaf::state::{Asked, Inside, State};
use lower_leaf::surroundings::Surroundings;
use lower_leaf::types::{asked_of_result, result_type};
use lower_stmt::body::body_of;
use std::alloc::Global;
use std::mem::replace;

/// A declared function with its parameters and body.
#[derive(Drop)]
pub struct Declared<'a> {
    pub external: Option<Place>,
    pub name: &'a Identifier,
    pub result_type: &'a Option<ResultType>,
    pub parameters: &'a Parameters,
    pub body: &'a Body,
}

/// What its types stand for.
#[derive(Drop)]
pub struct Prepared<'a> {
    pub name: Name,
    pub signature: FunctionType,
    pub wanted: Asked,
    pub formals: Formals<'a>,
}

/// What an outermost function is, besides its parameters and its body.
#[derive(Drop)]
pub struct Heading {
    pub number: u32,
    pub kind: FunctionKind,
    pub name: Name,
    pub signature: FunctionType,
    /// What stands around in it.
    pub inside: Inside,
}

// What the types of a declaration stand for in this state.
fn prepared_of<'a, S: Surroundings>(
    alloc: Global,
    outside: &S,
    state: &State,
    x: &Declared<'a>,
) -> Result<Prepared<'a>, Want>
    ensures { IfOk result (λ made. prepared (S.around outside.now) made
        ≡ prepared_of (declared x.now) (seen (S.around outside.now) state.now)) }
{
    let name = own_name(alloc, outside, state.outer, text_of(x.name))?;
    let answer = result_type(alloc, outside, state, x.result_type)?;
    let signature = signature_of(alloc, outside, state, answer, x.parameters)?;
    let wanted = asked_of_result(alloc, outside, state, x.result_type)?;
    let formals = formals_of(alloc, outside, state, x.parameters)?;
    Ok(Prepared {
        name,
        signature,
        wanted,
        formals,
    })
}

// The types of a declaration are looked up where it stands.
fn prepared_there<'a, S: Surroundings>(
    alloc: Global,
    outside: &S,
    state: &mut State,
    of: &Standing,
    x: &Declared<'a>,
) -> Result<Prepared<'a>, Want>
    ensures made { IfOk result (λ made. prepared (S.around outside.now) made ≡ prepared_of (declared x.now)
        (d.standing_in (standing (S.around outside.now) of.now) (seen (S.around outside.now) state.old))) }
    ensures same { IfOk result (λ made. seen (S.around outside.now) state.new ≡ seen (S.around outside.now) state.old) }
{
    let around = inside_of(alloc, outside, of, unasked())?;
    let before = replace(&mut state.inside, around);
    let made = prepared_of(alloc, outside, state, x)?;
    leave_inside(outside, state, before);
    Ok(made)
}

// The body, or the native that an external function stands for.
fn body_or_native<
    S: Surroundings,
    F: Fn(Global, &S, &mut State, usize, &Parameters, &Body) -> Result<u32, LowerFault>,
>(
    alloc: Global,
    outside: &S,
    inner: &Inner<F>,
    state: &mut State,
    tree: &Body,
    external: Option<Place>,
    native: Option<NativeId>,
    has_instance: bool,
    parameters: &Parameters,
) -> Result<Part, LowerFault>
    requires { NestsFunction S.around inner.now.limit (F.pre inner.now.function) (F.post inner.now.function) }
    ensures { Gives (part (S.around outside.now)) result (seen (S.around outside.now) state.new)
        (d.native_body external native has_instance (view.parameters parameters.now) (low.body (view.body tree.now)) (seen (S.around outside.now) state.old)) }
{
    match external {
        None => body_of(alloc, outside, inner, state, tree),
        Some(place) => match native {
            None => body_of(alloc, outside, inner, state, tree),
            Some(native) => {
                let form = native_form(alloc, outside, place, native, has_instance, parameters)?;
                Ok(given_part(outside, alloc, form)?)
            }
        },
    }
}

// A function with its parameters bound and its body translated, by its number.
fn function_made<
    S: Surroundings,
    F: Fn(Global, &S, &mut State, usize, &Parameters, &Body) -> Result<u32, LowerFault>,
>(
    alloc: Global,
    outside: &S,
    inner: &Inner<F>,
    state: &mut State,
    tree: &Body,
    head: Heading,
    given: &Formals<'_>,
    external: Option<Place>,
    native: Option<NativeId>,
    has_instance: bool,
    parameters: &Parameters,
) -> Result<u32, LowerFault>
    requires { NestsFunction S.around inner.now.limit (F.pre inner.now.function) (F.post inner.now.function) }
    ensures { Gives itself result (seen (S.around outside.now) state.new)
        (f.function (heading (S.around outside.now) head) (bind_formals false (formals (S.around outside.now) given.now))
        (d.native_body external native has_instance (view.parameters parameters.now) (low.body (view.body tree.now))) (seen (S.around outside.now) state.old)) }
{
    let Heading {
        number,
        kind,
        name,
        signature,
        inside,
    } = head;
    let class = inside.class;
    let before = enter_function(alloc, outside, state, inside);
    let bound = bind_formals(alloc, outside, state, false, given)?;
    let body = body_or_native(
        alloc,
        outside,
        inner,
        state,
        tree,
        external,
        native,
        has_instance,
        parameters,
    )?;
    let of = Head {
        number,
        kind,
        name,
        class,
        signature,
    };
    close_function(alloc, outside, state, before, of, bound, body)?;
    Ok(number)
}

/// An outermost function, by its number. An external one stands for its native.
pub fn outermost_function<
    S: Surroundings,
    F: Fn(Global, &S, &mut State, usize, &Parameters, &Body) -> Result<u32, LowerFault>,
>(
    alloc: Global,
    outside: &S,
    inner: &Inner<F>,
    state: &mut State,
    tree: &Body,
    head: Heading,
    given: &Formals<'_>,
    external: Option<Place>,
    native: Option<NativeId>,
    has_instance: bool,
    parameters: &Parameters,
) -> Result<u32, LowerFault>
    requires { NestsFunction S.around inner.now.limit (F.pre inner.now.function) (F.post inner.now.function) }
    ensures { Gives itself result (seen (S.around outside.now) state.new)
        (d.outermost 0 (f.function (heading (S.around outside.now) head) (bind_formals false (formals (S.around outside.now) given.now))
        (d.native_body external native has_instance (view.parameters parameters.now) (low.body (view.body tree.now)))) (seen (S.around outside.now) state.old)) }
{
    let beginning = begin(outside, state, 0);
    let number = function_made(
        alloc,
        outside,
        inner,
        state,
        tree,
        head,
        given,
        external,
        native,
        has_instance,
        parameters,
    )?;
    end(outside, state, beginning);
    Ok(number)
}

// A function of a library or class with the number of its declaration, whose native is there if it needs one.
fn written_function<
    S: Surroundings,
    F: Fn(Global, &S, &mut State, usize, &Parameters, &Body) -> Result<u32, LowerFault>,
>(
    alloc: Global,
    outside: &S,
    inner: &Inner<F>,
    state: &mut State,
    of: &Standing,
    x: &Declared<'_>,
    native: Option<NativeId>,
    number: u32,
) -> Result<u32, LowerFault>
    requires { NestsFunction S.around inner.now.limit (F.pre inner.now.function) (F.post inner.now.function) }
    ensures { Gives itself result (seen (S.around outside.now) state.new)
        (written_function (standing (S.around outside.now) of.now) (declared x.now) native number (seen (S.around outside.now) state.old)) }
{
    let made = prepared_there(alloc, outside, state, of, x)?;
    let inside = inside_of(alloc, outside, of, made.wanted)?;
    let head = Heading {
        number,
        kind: FunctionKind::Plain,
        name: made.name,
        signature: made.signature,
        inside,
    };
    outermost_function(
        alloc,
        outside,
        inner,
        state,
        x.body,
        head,
        &made.formals,
        x.external,
        native,
        of.has_instance,
        x.parameters,
    )
}

// A function of a library or class with the number of its declaration.
fn plain_function<
    S: Surroundings,
    F: Fn(Global, &S, &mut State, usize, &Parameters, &Body) -> Result<u32, LowerFault>,
>(
    alloc: Global,
    outside: &S,
    inner: &Inner<F>,
    state: &mut State,
    of: &Standing,
    x: &Declared<'_>,
    number: u32,
) -> Result<u32, LowerFault>
    requires { NestsFunction S.around inner.now.limit (F.pre inner.now.function) (F.post inner.now.function) }
    ensures { Gives itself result (seen (S.around outside.now) state.new)
        (d.plain_function (standing (S.around outside.now) of.now) (declared x.now) number (seen (S.around outside.now) state.old)) }
{
    let native = outside.native(DeclId(number));
    match missing_native(x.external, native) {
        Some(place) => Err(LowerFault::LeftOut(place, Feature::External)),
        None => written_function(alloc, outside, inner, state, of, x, native, number),
    }
}

/// A function of a library or class, by its number.
pub fn declared_function<
    S: Surroundings,
    F: Fn(Global, &S, &mut State, usize, &Parameters, &Body) -> Result<u32, LowerFault>,
>(
    alloc: Global,
    outside: &S,
    inner: &Inner<F>,
    state: &mut State,
    of: &Standing,
    x: &Declared<'_>,
) -> Result<u32, LowerFault>
    requires { NestsFunction S.around inner.now.limit (F.pre inner.now.function) (F.post inner.now.function) }
    ensures { Gives itself result (seen (S.around outside.now) state.new)
        (d.declared_function (standing (S.around outside.now) of.now) (declared x.now) (seen (S.around outside.now) state.old)) }
{
    let number = numbered(outside, state)?;
    plain_function(alloc, outside, inner, state, of, x, number)
}

/// A function (9 Functions).
pub fn function<
    S: Surroundings,
    F: Fn(Global, &S, &mut State, usize, &Parameters, &Body) -> Result<u32, LowerFault>,
>(
    alloc: Global,
    outside: &S,
    inner: &Inner<F>,
    state: &mut State,
    of: &Standing,
    x: &Function,
) -> Result<u32, LowerFault>
    requires { NestsFunction S.around inner.now.limit (F.pre inner.now.function) (F.post inner.now.function) }
    ensures { Gives itself result (seen (S.around outside.now) state.new)
        (d.declared_function (standing (S.around outside.now) of.now) (d.function_declared (view.function x.now)) (seen (S.around outside.now) state.old)) }
{
    let made = Declared {
        external: x.external,
        name: &x.name,
        result_type: &x.result_type,
        parameters: &x.parameters,
        body: &x.body,
    };
    declared_function(alloc, outside, inner, state, of, &made)
}

/// A getter or setter (10.2 Getters and 10.3 Setters).
pub fn accessor<
    S: Surroundings,
    F: Fn(Global, &S, &mut State, usize, &Parameters, &Body) -> Result<u32, LowerFault>,
>(
    alloc: Global,
    outside: &S,
    inner: &Inner<F>,
    state: &mut State,
    of: &Standing,
    x: &Accessor,
) -> Result<u32, LowerFault>
    requires { NestsFunction S.around inner.now.limit (F.pre inner.now.function) (F.post inner.now.function) }
    ensures { Gives itself result (seen (S.around outside.now) state.new)
        (d.declared_function (standing (S.around outside.now) of.now) (d.accessor_declared (unit_view.accessor x.now)) (seen (S.around outside.now) state.old)) }
{
    match &x.kind {
        AccessorKind::Get(place, name) => {
            let none = no_list(alloc, *place);
            let made = Declared {
                external: x.external,
                name,
                result_type: &x.result_type,
                parameters: &none,
                body: &x.body,
            };
            declared_function(alloc, outside, inner, state, of, &made)
        }
        AccessorKind::Set {
            word: _,
            name,
            parameters,
        } => {
            let made = Declared {
                external: x.external,
                name,
                result_type: &x.result_type,
                parameters,
                body: &x.body,
            };
            declared_function(alloc, outside, inner, state, of, &made)
        }
    }
}

/// A getter has no parameters.
pub fn no_list(alloc: Global, place: Place) -> Parameters
    ensures { view.parameters result ≡ d.no_list place }
{
    Parameters {
        opening: place,
        required: Vec::new(alloc),
        brackets: None,
        optional: Vec::new(alloc),
        closing: place,
    }
}
