// A class with its fields, and how many variables their initial values number (ECMA-408, 10.5 Instance Variables).
ghost use Rattle.std.specs.Prelude.{◌≡◌, IfOk};
ghost use Rattle.translation.specs.ClassBodies as b;
ghost use Rattle.lower_leaf.specs.Around.{option_types};
ghost use Rattle.lower_leaf.specs.Nests.{NestsFunction};
ghost use Rattle.lower_leaf.specs.Seen.{seen};
ghost use Rattle.lower_class.specs.Views.{class_around, fields};
ghost use Rattle.lower_body.specs.Views.{member_trees, fields_in};

use dart_base::bytes::Bytes;
use dart_ir::number::ClassId;
use dart_ir::types::Types;
use dart_tree::declaration::Member;
use dart_tree::parameter::Parameters;
use dart_tree::statement::Body;
use lower_class::field::{ClassAround, Field, own_fields, standing_in};
use lower_class::value::value_count;
use lower_decl::standing::inside_of;
use lower_function::inside::leave_inside;
use lower_leaf::fault::{LowerFault, Want};
use lower_leaf::inner::Inner;
use lower_leaf::site::unasked;
use lower_leaf::state::State;
use lower_leaf::surroundings::Surroundings;
use std::alloc::Global;
use std::mem::replace;

// The fields of a class, whose types are looked up in it.
fn fields_in<S: Surroundings>(
    alloc: Global,
    outside: &S,
    state: &mut State,
    members: &Vec<Member>,
    around: &ClassAround,
) -> Result<Vec<Field>, Want>
    ensures made { IfOk result (λ made. fields (S.around outside.now) made
        ≡ fields_in (class_around (S.around outside.now) around.now) (member_trees members.now.items) (seen (S.around outside.now) state.old)) }
    ensures same { IfOk result (λ made. seen (S.around outside.now) state.new ≡ seen (S.around outside.now) state.old) }
{
    let of = standing_in(alloc, outside, around, false)?;
    let there = inside_of(alloc, outside, &of, unasked())?;
    let before = replace(&mut state.inside, there);
    let first = outside.first_field(around.class);
    let found = own_fields(alloc, outside, state, first, members)?;
    leave_inside(outside, state, before);
    Ok(found)
}

/// The class with its fields. A mixin application gives it type arguments.
pub fn around_in<
    S: Surroundings,
    F: Fn(Global, &S, &mut State, usize, &Parameters, &Body) -> Result<u32, LowerFault>,
>(
    alloc: Global,
    outside: &S,
    inner: &Inner<F>,
    state: &mut State,
    members: &Vec<Member>,
    class: ClassId,
    arguments: Option<Types>,
    name: &[u8],
) -> Result<ClassAround, Want>
    requires { NestsFunction S.around inner.now.limit (F.pre inner.now.function) (F.post inner.now.function) }
    ensures made { IfOk result (λ made. class_around (S.around outside.now) made
        ≡ b.around_in class.0 (option_types (S.around outside.now) arguments) name.now (member_trees members.now.items) (seen (S.around outside.now) state.old)) }
    ensures same { IfOk result (λ made. seen (S.around outside.now) state.new ≡ seen (S.around outside.now) state.old) }
{
    let name = Bytes::from_slice(alloc, name)?;
    let mut around = ClassAround {
        class,
        arguments,
        name,
        fields: Vec::new(alloc),
        count: 0,
    };
    around.fields = fields_in(alloc, outside, state, members, &around)?;
    around.count = value_count(alloc, outside, inner, state, members, &around)?;
    Ok(around)
}
