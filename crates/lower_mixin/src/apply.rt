// Mixin applications, and what is added to the classes of a table (ECMA-408, 12.1 Mixin Application).
ghost use Rattle.std.specs.Prelude.{◌≡◌, [], map, MatchOption, None, Some};
ghost use Rattle.translation.specs.Applications as ap;
ghost use Rattle.lower_leaf.specs.Around.{class, mixin, types};
ghost use Rattle.lower_leaf.specs.Gives.{Gives};
ghost use Rattle.lower_leaf.specs.Nests.{NestsFunction};
ghost use Rattle.lower_leaf.specs.Seen.{seen};
ghost use Rattle.lower_class.specs.Views.{class_around};
ghost use Rattle.lower_body.specs.Views.{all_generated, class_made, member_trees, nothing};
ghost use Rattle.lower_mixin.specs.Views.{application_at, application_inside, application_with, built_of, class_info};

use crate::forward::forwarders;
use dart_ir::class::ClassInfo;
use dart_ir::number::ClassId;
use dart_ir::types::Types;
use dart_tree::declaration::Member;
use dart_tree::parameter::Parameters;
use dart_tree::statement::Body;
use lower_body::accessor::accessors_added;
use lower_body::around::around_in;
use lower_body::class::ClassMade;
use lower_body::finish::Generated;
use lower_body::inside::{enter_class, leave_class};
use lower_body::unnamed::class_added;
use lower_class::field::ClassAround;
use lower_class::value::all_values;
use lower_leaf::fault::LowerFault;
use lower_leaf::inner::Inner;
use lower_leaf::meaning::Mixin;
use lower_leaf::name::text_of;
use lower_leaf::state::State;
use lower_leaf::surroundings::Surroundings;
use std::alloc::Global;

// The accessors and the constructors of a mixin application.
fn application_in<
    S: Surroundings,
    F: Fn(Global, &S, &mut State, usize, &Parameters, &Body) -> Result<u32, LowerFault>,
>(
    alloc: Global,
    outside: &S,
    inner: &Inner<F>,
    state: &mut State,
    members: &Vec<Member>,
    around: &ClassAround,
    x: &ClassInfo,
    above: &Vec<Generated>,
) -> Result<Vec<Generated>, LowerFault>
    requires { NestsFunction S.around inner.now.limit (F.pre inner.now.function) (F.post inner.now.function) }
    ensures { Gives (all_generated (S.around outside.now)) result (seen (S.around outside.now) state.new)
        (application_with (class_around (S.around outside.now) around.now) (class_info (S.around outside.now) x.now) (member_trees members.now.items)
        (all_generated (S.around outside.now) above.now) (seen (S.around outside.now) state.old)) }
{
    accessors_added(alloc, outside, state, around.class, &around.fields)?;
    let values = all_values(alloc, outside, inner, state, members, around)?;
    forwarders(alloc, outside, state, around, x, &values, above)
}

// A mixin application inside of its mixin.
fn application_inside<
    S: Surroundings,
    F: Fn(Global, &S, &mut State, usize, &Parameters, &Body) -> Result<u32, LowerFault>,
>(
    alloc: Global,
    outside: &S,
    inner: &Inner<F>,
    state: &mut State,
    members: &Vec<Member>,
    class: ClassId,
    x: &ClassInfo,
    arguments: Types,
    name: &[u8],
    above: &Vec<Generated>,
) -> Result<Vec<Generated>, LowerFault>
    requires { NestsFunction S.around inner.now.limit (F.pre inner.now.function) (F.post inner.now.function) }
    ensures { Gives (all_generated (S.around outside.now)) result (seen (S.around outside.now) state.new)
        (application_inside class.0 (class_info (S.around outside.now) x.now) (types (S.around outside.now) arguments.items) name.now (member_trees members.now.items)
        (all_generated (S.around outside.now) above.now) (seen (S.around outside.now) state.old)) }
{
    let around = around_in(
        alloc,
        outside,
        inner,
        state,
        members,
        class,
        Some(arguments),
        name,
    )?;
    application_in(alloc, outside, inner, state, members, &around, x, above)
}

// A mixin application with the members of its mixin.
fn application_at<
    S: Surroundings,
    F: Fn(Global, &S, &mut State, usize, &Parameters, &Body) -> Result<u32, LowerFault>,
>(
    alloc: Global,
    outside: &S,
    inner: &Inner<F>,
    state: &mut State,
    members: &Vec<Member>,
    class: ClassId,
    x: &ClassInfo,
    arguments: Types,
    made: &ClassMade<'_>,
    above: &Vec<Generated>,
) -> Result<Vec<Generated>, LowerFault>
    requires { NestsFunction S.around inner.now.limit (F.pre inner.now.function) (F.post inner.now.function) }
    ensures { Gives (all_generated (S.around outside.now)) result (seen (S.around outside.now) state.new)
        (application_at class.0 (class_info (S.around outside.now) x.now) (types (S.around outside.now) arguments.items)
        (class_made (S.around outside.now) made.now).names (class_made (S.around outside.now) made.now).name.text (member_trees members.now.items)
        (all_generated (S.around outside.now) above.now) (seen (S.around outside.now) state.old)) }
{
    let before = enter_class(outside, state, made.outer);
    let name = text_of(made.name);
    let found = application_inside(
        alloc, outside, inner, state, members, class, x, arguments, name, above,
    )?;
    leave_class(outside, state, before);
    Ok(found)
}

// A mixin application; one that is written as a class declares no members itself.
fn application_of<
    S: Surroundings,
    F: Fn(Global, &S, &mut State, usize, &Parameters, &Body) -> Result<u32, LowerFault>,
>(
    alloc: Global,
    outside: &S,
    inner: &Inner<F>,
    state: &mut State,
    made: &ClassMade<'_>,
    class: ClassId,
    x: &ClassInfo,
    arguments: Types,
    above: &Vec<Generated>,
) -> Result<Vec<Generated>, LowerFault>
    requires { NestsFunction S.around inner.now.limit (F.pre inner.now.function) (F.post inner.now.function) }
    ensures { Gives (all_generated (S.around outside.now)) result (seen (S.around outside.now) state.new)
        (ap.application_of class.0 (class_info (S.around outside.now) x.now) (types (S.around outside.now) arguments.items)
        (class_made (S.around outside.now) made.now) (all_generated (S.around outside.now) above.now) (seen (S.around outside.now) state.old)) }
{
    match made.members {
        Some(members) => application_at(
            alloc, outside, inner, state, members, class, x, arguments, made, above,
        ),
        None => {
            let none = Vec::new(alloc);
            application_at(
                alloc, outside, inner, state, &none, class, x, arguments, made, above,
            )
        }
    }
}

// The declared class of the number.
fn declared_as<'a, S: Surroundings>(
    outside: &S,
    made: &'a Vec<ClassMade<'a>>,
    class: ClassId,
) -> Option<&'a ClassMade<'a>>
    ensures { MatchOption result (ap.declared_as class.0 (map (class_made (S.around outside.now)) made.now.items) ≡ None)
        (λ found. ap.declared_as class.0 (map (class_made (S.around outside.now)) made.now.items) ≡ Some (class_made (S.around outside.now) found.now)) }
{
    for one in made {
        if one.class.0 == class.0 {
            return Some(one);
        }
    }
    None
}

// The generative constructors of a class that was added to.
fn constructors_of<'a, S: Surroundings>(
    outside: &S,
    built: &'a Vec<Vec<Generated>>,
    superclass: Option<ClassId>,
    none: &'a Vec<Generated>,
) -> &'a Vec<Generated>
    requires { none.now.items ≡ [] }
    ensures { all_generated (S.around outside.now) result.now
        ≡ ap.constructors_of (built_of (S.around outside.now) built.now.items) (class superclass) }
{
    let Some(above) = superclass else {
        return none;
    };
    let index = above.0 as usize;
    if index < built.len() {
        return &built[index];
    }
    none
}

// What a mixin application gets, where its mixin is declared.
fn application_added<
    S: Surroundings,
    F: Fn(Global, &S, &mut State, usize, &Parameters, &Body) -> Result<u32, LowerFault>,
>(
    alloc: Global,
    outside: &S,
    inner: &Inner<F>,
    state: &mut State,
    made: &Vec<ClassMade<'_>>,
    class: ClassId,
    x: &ClassInfo,
    of: Mixin,
    built: &Vec<Vec<Generated>>,
) -> Result<Vec<Generated>, LowerFault>
    requires { NestsFunction S.around inner.now.limit (F.pre inner.now.function) (F.post inner.now.function) }
    ensures { Gives (all_generated (S.around outside.now)) result (seen (S.around outside.now) state.new)
        (ap.added_to (mixin (S.around outside.now) (Some of)) class.0 (class_info (S.around outside.now) x.now) (map (class_made (S.around outside.now)) made.now.items)
        (built_of (S.around outside.now) built.now.items) (seen (S.around outside.now) state.old)) }
{
    match declared_as(outside, made, of.class) {
        None => Ok(Vec::new(alloc)),
        Some(found) => {
            let none = Vec::new(alloc);
            let above = constructors_of(outside, built, outside.superclass(class), &none);
            application_of(
                alloc,
                outside,
                inner,
                state,
                found,
                class,
                x,
                of.arguments,
                above,
            )
        }
    }
}

// What a class gets that is no mixin application, where it is declared.
fn declared_added<S: Surroundings>(
    alloc: Global,
    outside: &S,
    state: &mut State,
    made: &Vec<ClassMade<'_>>,
    class: ClassId,
) -> Result<Vec<Generated>, LowerFault>
    ensures { Gives (all_generated (S.around outside.now)) result (seen (S.around outside.now) state.new)
        (ap.declared_added (ap.declared_as class.0 (map (class_made (S.around outside.now)) made.now.items)) (seen (S.around outside.now) state.old)) }
{
    match declared_as(outside, made, class) {
        None => Ok(Vec::new(alloc)),
        Some(found) => class_added(alloc, outside, state, found),
    }
}

// What is added to a class of the table.
fn added_to<
    S: Surroundings,
    F: Fn(Global, &S, &mut State, usize, &Parameters, &Body) -> Result<u32, LowerFault>,
>(
    alloc: Global,
    outside: &S,
    inner: &Inner<F>,
    state: &mut State,
    made: &Vec<ClassMade<'_>>,
    class: ClassId,
    x: &ClassInfo,
    built: &Vec<Vec<Generated>>,
) -> Result<Vec<Generated>, LowerFault>
    requires { NestsFunction S.around inner.now.limit (F.pre inner.now.function) (F.post inner.now.function) }
    ensures { Gives (all_generated (S.around outside.now)) result (seen (S.around outside.now) state.new)
        (ap.added_to ((S.around outside.now).tables.mixin class.0) class.0 (class_info (S.around outside.now) x.now) (map (class_made (S.around outside.now)) made.now.items)
        (built_of (S.around outside.now) built.now.items) (seen (S.around outside.now) state.old)) }
{
    match outside.mixin(alloc, class)? {
        None => declared_added(alloc, outside, state, made, class),
        Some(of) => application_added(alloc, outside, inner, state, made, class, x, of, built),
    }
}

/// What is added to the classes of a table, which stand after their superclasses.
pub fn added<
    S: Surroundings,
    F: Fn(Global, &S, &mut State, usize, &Parameters, &Body) -> Result<u32, LowerFault>,
>(
    alloc: Global,
    outside: &S,
    inner: &Inner<F>,
    state: &mut State,
    made: &Vec<ClassMade<'_>>,
    classes: &Vec<ClassInfo>,
) -> Result<(), LowerFault>
    requires { NestsFunction S.around inner.now.limit (F.pre inner.now.function) (F.post inner.now.function) }
    ensures { Gives nothing result (seen (S.around outside.now) state.new)
        (ap.added 0 (map (class_info (S.around outside.now)) classes.now.items) (map (class_made (S.around outside.now)) made.now.items) [] (seen (S.around outside.now) state.old)) }
{
    let mut built = Vec::new(alloc);
    for one in classes {
        let Ok(number) = u32::try_from(built.len()) else {
            return Err(LowerFault::Memory);
        };
        let class = ClassId(number);
        let all = added_to(alloc, outside, inner, state, made, class, one, &built)?;
        built.push(all)?;
    }
    Ok(())
}
