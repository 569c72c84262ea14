// Classes (ECMA-408, 10 Classes).
ghost use Rattle.dart_tree.specs.Places.{place_of};
ghost use Rattle.dart_tree.specs.UnitView as unit_view;
ghost use Rattle.std.specs.Prelude.{◌≡◌, Ok};
ghost use Rattle.translation.specs.ClassBodies as b;
ghost use Rattle.translation.specs.Types as y;
ghost use Rattle.lower_leaf.specs.Gives.{Gives};
ghost use Rattle.lower_leaf.specs.Nests.{NestsFunction};
ghost use Rattle.lower_leaf.specs.Seen.{seen};
ghost use Rattle.lower_operand.specs.Made.{all_forms};
ghost use Rattle.lower_class.specs.Views.{class_around, parts};
ghost use Rattle.lower_body.specs.Views.{NamesClasses, class_made, has_own, member_trees};

use crate::around::around_in;
use crate::finish::{Generated, add_drafts};
use crate::inside::{class_number, class_outer, enter_class, leave_class};
use crate::kept::{all_kept, clause_kept, kept, parameters_kept, superclass_kept};
use core_program::form::Core;
use dart_ir::number::ClassId;
use dart_tree::declaration::{Class, ClassKind, Member, MemberKind};
use dart_tree::identifier::Identifier;
use dart_tree::parameter::Parameters;
use dart_tree::statement::Body;
use lower_class::construct::Parts;
use lower_class::field::{ClassAround, Field};
use lower_class::initialise::implicit_super;
use lower_class::member::all_members;
use lower_function::function::numbered;
use lower_leaf::fault::LowerFault;
use lower_leaf::inner::Inner;
use lower_leaf::meaning::Outer;
use lower_leaf::name::{place_of, text_of};
use lower_leaf::state::State;
use lower_leaf::surroundings::Surroundings;
use std::alloc::Global;

/// What the functions that are added to a class are made of, and what mixin applications take from it.
#[derive(Drop)]
pub struct ClassMade<'a> {
    pub class: ClassId,
    /// Where names are looked up inside of it.
    pub outer: Outer,
    pub name: &'a Identifier,
    /// None where it is written as a mixin application.
    pub members: Option<&'a Vec<Member>>,
    pub fields: Vec<Field>,
    /// The initial values of the fields.
    pub values: Vec<Core>,
    /// How many variables these number.
    pub count: u32,
    /// Whether it writes a constructor, or is written as a mixin application.
    pub has_constructor: bool,
    /// The generative constructors that it writes.
    pub constructors: Vec<Generated>,
}

// Whether the member is a constructor.
fn is_constructor(of: &MemberKind) -> bool
    ensures { result ≡ b.is_constructor (unit_view.member_kind of.now) }
{
    match of {
        MemberKind::Constructor(_) => true,
        MemberKind::Function(_) => false,
        MemberKind::Accessor(_) => false,
        MemberKind::Variables(_) => false,
        MemberKind::Operator(_) => false,
    }
}

// Whether there is a constructor among the members.
fn has_constructor(all: &Vec<Member>) -> bool
    ensures { result ≡ b.has_constructor (member_trees all.now.items) }
{
    for one in all {
        if is_constructor(&one.kind) {
            return true;
        }
    }
    false
}

// The class with its functions, once its members are translated.
fn class_made<'a, S: Surroundings>(
    alloc: Global,
    outside: &S,
    state: &mut State,
    around: ClassAround,
    name: &'a Identifier,
    members: &'a Vec<Member>,
    made: Parts,
) -> Result<ClassMade<'a>, LowerFault>
    ensures { Gives (class_made (S.around outside.now)) result (seen (S.around outside.now) state.new)
        (b.class_made (class_around (S.around outside.now) around) (y.word_of name.now) (member_trees members.now.items)
        (parts (S.around outside.now) made) (seen (S.around outside.now) state.old)) }
{
    let outer = state.outer;
    let Parts { values, drafts } = made;
    let constructors = add_drafts(alloc, outside, state, &values, drafts)?;
    Ok(ClassMade {
        class: around.class,
        outer,
        name,
        members: Some(members),
        fields: around.fields,
        values,
        count: around.count,
        has_constructor: has_constructor(members),
        constructors,
    })
}

// A class from its members.
fn class_members<
    'a,
    S: Surroundings,
    F: Fn(Global, &S, &mut State, usize, &Parameters, &Body) -> Result<u32, LowerFault>,
>(
    alloc: Global,
    outside: &S,
    inner: &Inner<F>,
    state: &mut State,
    members: &'a Vec<Member>,
    class: ClassId,
    name: &'a Identifier,
) -> Result<ClassMade<'a>, LowerFault>
    requires { NestsFunction S.around inner.now.limit (F.pre inner.now.function) (F.post inner.now.function) }
    ensures { Gives (class_made (S.around outside.now)) result (seen (S.around outside.now) state.new)
        (b.class_members class.0 (y.word_of name.now) (member_trees members.now.items) (seen (S.around outside.now) state.old)) }
{
    let around = around_in(
        alloc,
        outside,
        inner,
        state,
        members,
        class,
        None,
        text_of(name),
    )?;
    let made = all_members(alloc, outside, inner, state, members, &around)?;
    class_made(alloc, outside, state, around, name, members, made)
}

// A class that is written as a mixin application declares nothing.
fn without_members<'a, S: Surroundings>(
    alloc: Global,
    outside: &S,
    state: &State,
    class: ClassId,
    name: &'a Identifier,
) -> ClassMade<'a>
    ensures { Gives (class_made (S.around outside.now)) (Ok result) (seen (S.around outside.now) state.now)
        (b.without_members class.0 (y.word_of name.now) (seen (S.around outside.now) state.now)) }
{
    ClassMade {
        class,
        outer: state.outer,
        name,
        members: None,
        fields: Vec::new(alloc),
        values: Vec::new(alloc),
        count: 0,
        has_constructor: true,
        constructors: Vec::new(alloc),
    }
}

// A class from its header on.
fn class_kind<
    'a,
    S: Surroundings,
    F: Fn(Global, &S, &mut State, usize, &Parameters, &Body) -> Result<u32, LowerFault>,
>(
    alloc: Global,
    outside: &S,
    inner: &Inner<F>,
    state: &mut State,
    kind: &'a ClassKind,
    class: ClassId,
    name: &'a Identifier,
) -> Result<ClassMade<'a>, LowerFault>
    requires { NestsFunction S.around inner.now.limit (F.pre inner.now.function) (F.post inner.now.function) }
    ensures { Gives (class_made (S.around outside.now)) result (seen (S.around outside.now) state.new)
        (b.class_kind class.0 (y.word_of name.now) (unit_view.class_kind kind.now) (seen (S.around outside.now) state.old)) }
{
    match kind {
        ClassKind::Declared {
            superclass,
            interfaces,
            opening: _,
            members,
            closing: _,
        } => {
            superclass_kept(alloc, outside, state, superclass)?;
            clause_kept(alloc, outside, state, interfaces)?;
            class_members(alloc, outside, inner, state, members, class, name)
        }
        ClassKind::Mixed {
            equals: _,
            superclass,
            mixins,
            interfaces,
            semicolon: _,
        } => {
            kept(alloc, outside, state, superclass)?;
            all_kept(alloc, outside, state, &mixins.types)?;
            clause_kept(alloc, outside, state, interfaces)?;
            Ok(without_members(alloc, outside, state, class, name))
        }
    }
}

// Whether the class writes a constructor, or is written as a mixin application.
fn has_own(kind: &ClassKind) -> bool
    ensures { result ≡ has_own (unit_view.class_kind kind.now) }
{
    match kind {
        ClassKind::Declared {
            superclass: _,
            interfaces: _,
            opening: _,
            members,
            closing: _,
        } => has_constructor(members),
        ClassKind::Mixed {
            equals: _,
            superclass: _,
            mixins: _,
            interfaces: _,
            semicolon: _,
        } => true,
    }
}

// Where no constructor is written, the superclass has one that the unnamed constructor calls.
fn unnamed_kept<S: Surroundings>(
    alloc: Global,
    outside: &S,
    state: &State,
    x: &Class,
    class: ClassId,
) -> Result<Vec<Core>, LowerFault>
    ensures { Gives (all_forms (S.around outside.now)) result (seen (S.around outside.now) state.now)
        (b.unnamed_kept class.0 (place_of x.now.name) (unit_view.class_kind x.now.kind) (seen (S.around outside.now) state.now)) }
{
    let above = outside.superclass(class);
    let place = place_of(&x.name);
    implicit_super(alloc, outside, state, has_own(&x.kind), place, above)
}

// A class, inside of which names are looked up.
fn class_inside<
    'a,
    S: Surroundings,
    F: Fn(Global, &S, &mut State, usize, &Parameters, &Body) -> Result<u32, LowerFault>,
>(
    alloc: Global,
    outside: &S,
    inner: &Inner<F>,
    state: &mut State,
    x: &'a Class,
    class: ClassId,
) -> Result<ClassMade<'a>, LowerFault>
    requires { NestsFunction S.around inner.now.limit (F.pre inner.now.function) (F.post inner.now.function) }
    ensures { Gives (class_made (S.around outside.now)) result (seen (S.around outside.now) state.new)
        (b.class_inside class.0 (unit_view.class x.now) (seen (S.around outside.now) state.old)) }
{
    unnamed_kept(alloc, outside, state, x, class)?;
    parameters_kept(alloc, outside, state, &x.parameters)?;
    class_kind(alloc, outside, inner, state, &x.kind, class, &x.name)
}

// A class by its number.
fn class_there<
    'a,
    S: Surroundings,
    F: Fn(Global, &S, &mut State, usize, &Parameters, &Body) -> Result<u32, LowerFault>,
>(
    alloc: Global,
    outside: &S,
    inner: &Inner<F>,
    state: &mut State,
    x: &'a Class,
    class: ClassId,
) -> Result<ClassMade<'a>, LowerFault>
    requires nests { NestsFunction S.around inner.now.limit (F.pre inner.now.function) (F.post inner.now.function) }
    requires names { NamesClasses (S.around outside.now) }
    ensures { Gives (class_made (S.around outside.now)) result (seen (S.around outside.now) state.new)
        (b.in_class ((S.around outside.now).tables.class_names class.0) (b.class_inside class.0 (unit_view.class x.now)) (seen (S.around outside.now) state.old)) }
{
    let inside = class_outer(outside, state.outer.library, class);
    let before = enter_class(outside, state, inside);
    let made = class_inside(alloc, outside, inner, state, x, class)?;
    leave_class(outside, state, before);
    Ok(made)
}

/// A class with the members that it writes, by the number of its declaration.
pub fn class_declared<
    'a,
    S: Surroundings,
    F: Fn(Global, &S, &mut State, usize, &Parameters, &Body) -> Result<u32, LowerFault>,
>(
    alloc: Global,
    outside: &S,
    inner: &Inner<F>,
    state: &mut State,
    x: &'a Class,
) -> Result<ClassMade<'a>, LowerFault>
    requires nests { NestsFunction S.around inner.now.limit (F.pre inner.now.function) (F.post inner.now.function) }
    requires names { NamesClasses (S.around outside.now) }
    ensures { Gives (class_made (S.around outside.now)) result (seen (S.around outside.now) state.new)
        (b.class_declared (unit_view.class x.now) (seen (S.around outside.now) state.old)) }
{
    numbered(outside, state)?;
    let class = class_number(outside.meaning(state.outer, text_of(&x.name)));
    class_there(alloc, outside, inner, state, x, class)
}
