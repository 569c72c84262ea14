// What constructors are, besides their parameters and their forms (ECMA-408, 10.6 Constructors).
ghost use Rattle.std.specs.Prelude.{◌≡◌, IfOk};
ghost use Rattle.dart_ir.specs.Ty.{dynamic};
ghost use Rattle.dart_tree.specs.View as view;
ghost use Rattle.translation.specs.Classes as cl;
ghost use Rattle.translation.specs.Surroundings.{name_in};
ghost use Rattle.translation.specs.Types as y;
ghost use Rattle.lower_leaf.specs.Around.{text};
ghost use Rattle.lower_leaf.specs.Seen.{seen, inside};
ghost use Rattle.lower_function.specs.Made.{signature};
ghost use Rattle.lower_class.specs.Views.{class_around, constructing, signed, signed_of};

use crate::field::{ClassAround, standing_in};
use dart_base::name::Name;
use dart_ir::types::{FunctionType, TypeRef};
use dart_tree::parameter::Parameters;
use lower_decl::standing::inside_of;
use lower_function::function::signature_of;
use lower_function::inside::leave_inside;
use lower_function::parameter::{Formals, formals_of};
use lower_leaf::fault::Want;
use lower_leaf::name::{find, own_text};
use lower_leaf::site::unasked;
use lower_leaf::state::{Inside, State};
use lower_leaf::surroundings::Surroundings;
use std::alloc::Global;
use std::mem::replace;

// What a constructor is called: its id, or its class's name where it has none.
fn constructor_name<S: Surroundings>(
    alloc: Global,
    outside: &S,
    state: &State,
    around: &ClassAround,
    id: &[u8],
) -> Result<Name, Want>
    ensures { IfOk result (λ made. text (S.around outside.now) made
        ≡ name_in (seen (S.around outside.now) state.now).names.library (cl.constructor_name around.now.name id.now)) }
{
    let own = match id {
        [] => own_text(alloc, outside, state.outer, around.name.as_slice())?,
        [_, ..] => own_text(alloc, outside, state.outer, id)?,
    };
    find(outside, own.as_slice())
}

/// The context of a constructor, in which no value is returned.
pub fn constructing<S: Surroundings>(
    alloc: Global,
    outside: &S,
    around: &ClassAround,
    has_instance: bool,
) -> Result<Inside, Want>
    ensures { IfOk result (λ made. inside (S.around outside.now) made
        ≡ constructing (class_around (S.around outside.now) around.now) has_instance) }
{
    let of = standing_in(alloc, outside, around, has_instance)?;
    let mut made = inside_of(alloc, outside, &of, unasked())?;
    made.gives_value = false;
    Ok(made)
}

/// The name, the type and the parameters of a constructor.
#[derive(Drop)]
pub struct Signed<'a> {
    pub name: Name,
    pub signature: FunctionType,
    pub formals: Formals<'a>,
}

// What the types of a constructor stand for in this state.
#[tactic(auto, using(lower_leaf::proofs::TypeLaws::type_views), unfolding(lower_leaf::specs::Around::ty))]
fn signature_there<S: Surroundings>(
    alloc: Global,
    outside: &S,
    state: &State,
    given: &Parameters,
) -> Result<FunctionType, Want>
    ensures { IfOk result (λ made. signature (S.around outside.now) made
        ≡ y.function_type (seen (S.around outside.now) state.now) dynamic (view.parameters given.now)) }
{
    signature_of(alloc, outside, state, TypeRef::Dynamic, given)
}

/// The name, the type and the parameters of a constructor, whose types are looked up in its class.
pub fn signed_there<'a, S: Surroundings>(
    alloc: Global,
    outside: &S,
    state: &mut State,
    around: &ClassAround,
    id: &[u8],
    given: &'a Parameters,
) -> Result<Signed<'a>, Want>
    ensures made { IfOk result (λ made. signed (S.around outside.now) made
        ≡ signed_of (class_around (S.around outside.now) around.now) id.now (view.parameters given.now) (seen (S.around outside.now) state.old)) }
    ensures same { IfOk result (λ made. seen (S.around outside.now) state.new ≡ seen (S.around outside.now) state.old) }
{
    let name = constructor_name(alloc, outside, state, around, id)?;
    let of = standing_in(alloc, outside, around, false)?;
    let there = inside_of(alloc, outside, &of, unasked())?;
    let before = replace(&mut state.inside, there);
    let signature = signature_there(alloc, outside, state, given)?;
    let formals = formals_of(alloc, outside, state, given)?;
    leave_inside(outside, state, before);
    Ok(Signed {
        name,
        signature,
        formals,
    })
}
