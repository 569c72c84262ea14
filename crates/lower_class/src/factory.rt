// Factories (ECMA-408, 10.6.2 Factories).
ghost use Rattle.std.specs.List.{range_with_len};
ghost use Rattle.std.specs.Prelude.{◌≡◌, map, IfOk};
ghost use Rattle.dart_ir.specs.Ty.{parameter};
ghost use Rattle.dart_tree.specs.View as view;
ghost use Rattle.translation.specs.Classes as cl;
ghost use Rattle.translation.specs.Declarations as d;
ghost use Rattle.lower_leaf.specs.Around.{ty, types};
ghost use Rattle.lower_leaf.specs.Gives.{Gives, itself};
ghost use Rattle.lower_leaf.specs.Nests.{NestsFunction};
ghost use Rattle.lower_leaf.specs.Seen.{seen};
ghost use Rattle.lower_class.specs.Views.{class_around, parts, written_factory};

use crate::construct::{Parts, no_parts};
use crate::field::{ClassAround, standing_in};
use crate::header::signed_there;
use crate::initialise::id_of;
use core_program::program::FunctionKind;
use dart_base::feature::Feature;
use dart_base::place::Place;
use dart_ir::native::NativeId;
use dart_ir::number::{ClassId, DeclId};
use dart_ir::types::{TypeRef, Types};
use dart_tree::declaration::ConstructorName;
use dart_tree::parameter::Parameters;
use dart_tree::statement::Body;
use lower_decl::declare::{Heading, outermost_function};
use lower_decl::native::missing_native;
use lower_decl::standing::inside_of;
use lower_leaf::fault::{LowerFault, Want};
use lower_leaf::inner::Inner;
use lower_leaf::state::{Asked, State};
use lower_leaf::surroundings::Surroundings;
use std::alloc::Global;

// The first type parameters, so many.
#[tactic(auto, using(crate::proofs::Rest::ranges, lower_leaf::proofs::TypeLaws::type_views), unfolding(lower_leaf::specs::Around::ty))]
fn own_parameters<S: Surroundings>(alloc: Global, outside: &S, count: u32) -> Result<Types, Want>
    ensures { IfOk result (λ made. types (S.around outside.now) made.items ≡ map parameter (range_with_len 0 count)) }
{
    let mut given = Vec::new(alloc);
    for index in 0..count {
        given.push(TypeRef::Param(index))?;
    }
    Ok(given)
}

// The class over its own type parameters.
#[tactic(auto, using(lower_leaf::proofs::TypeLaws::type_views), unfolding(lower_leaf::specs::Around::ty))]
fn own_type<S: Surroundings>(
    alloc: Global,
    outside: &S,
    state: &State,
    class: ClassId,
) -> Result<TypeRef, Want>
    ensures { IfOk result (λ made. ty (S.around outside.now) made ≡ cl.own_type class.0 (seen (S.around outside.now) state.now)) }
{
    let given = own_parameters(alloc, outside, outside.parameters(class))?;
    Ok(TypeRef::Class(class, given))
}

// A factory whose native is there, if it needs one.
fn written_factory<
    S: Surroundings,
    F: Fn(Global, &S, &mut State, usize, &Parameters, &Body) -> Result<u32, LowerFault>,
>(
    alloc: Global,
    outside: &S,
    inner: &Inner<F>,
    state: &mut State,
    external: Option<Place>,
    native: Option<NativeId>,
    name: &ConstructorName,
    given: &Parameters,
    body: &Body,
    around: &ClassAround,
    number: u32,
) -> Result<u32, LowerFault>
    requires { NestsFunction S.around inner.now.limit (F.pre inner.now.function) (F.post inner.now.function) }
    ensures { Gives itself result (seen (S.around outside.now) state.new)
        (written_factory (class_around (S.around outside.now) around.now) external native name.now (view.parameters given.now) (view.body body.now) number (seen (S.around outside.now) state.old)) }
{
    let made = signed_there(alloc, outside, state, around, id_of(&name.name), given)?;
    let of = standing_in(alloc, outside, around, false)?;
    let own = own_type(alloc, outside, state, around.class)?;
    let wanted = Asked {
        of: Some(own),
        annotated: false,
    };
    let inside = inside_of(alloc, outside, &of, wanted)?;
    let head = Heading {
        number,
        kind: FunctionKind::Factory,
        name: made.name,
        signature: made.signature,
        inside,
    };
    outermost_function(
        alloc,
        outside,
        inner,
        state,
        body,
        head,
        &made.formals,
        external,
        native,
        false,
        given,
    )
}

/// A factory, whose value is asked for the class.
#[tactic(auto, using(lower_decl::proofs::Begun::natives), unfolding(translation::specs::Walk::on))]
pub fn factory<
    S: Surroundings,
    F: Fn(Global, &S, &mut State, usize, &Parameters, &Body) -> Result<u32, LowerFault>,
>(
    alloc: Global,
    outside: &S,
    inner: &Inner<F>,
    state: &mut State,
    external: Option<Place>,
    name: &ConstructorName,
    given: &Parameters,
    body: &Body,
    around: &ClassAround,
    number: u32,
) -> Result<Parts, LowerFault>
    requires { NestsFunction S.around inner.now.limit (F.pre inner.now.function) (F.post inner.now.function) }
    ensures { Gives (parts (S.around outside.now)) result (seen (S.around outside.now) state.new)
        (cl.factory (class_around (S.around outside.now) around.now) external name.now (view.parameters given.now) (view.body body.now) number (seen (S.around outside.now) state.old)) }
{
    let native = outside.native(DeclId(number));
    if let Some(place) = missing_native(external, native) {
        return Err(LowerFault::LeftOut(place, Feature::External));
    }
    written_factory(
        alloc, outside, inner, state, external, native, name, given, body, around, number,
    )?;
    Ok(no_parts(alloc, outside))
}

/// A factory that is another constructor, which the profile leaves out.
#[tactic(auto, using(lower_decl::proofs::Begun::natives), unfolding(translation::specs::Walk::on))]
pub fn redirecting_factory<S: Surroundings>(
    outside: &S,
    state: &State,
    external: Option<Place>,
    word: Place,
    number: u32,
) -> Result<Parts, LowerFault>
    ensures { Gives (parts (S.around outside.now)) result (seen (S.around outside.now) state.now)
        (d.unless_external external ((S.around outside.now).tables.native number) (cl.no_redirects word) (seen (S.around outside.now) state.now)) }
{
    match missing_native(external, outside.native(DeclId(number))) {
        Some(place) => Err(LowerFault::LeftOut(place, Feature::External)),
        None => Err(LowerFault::LeftOut(word, Feature::Redirects)),
    }
}
