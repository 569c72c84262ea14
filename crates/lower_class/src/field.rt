// The fields of a class (ECMA-408, 10.5 Instance Variables).
ghost use Rattle.std.specs.Prelude.{◌≡◌, ◌+◌, ◌++◌, ◌∷◌, [], length, map, OnOk, IfOk, MatchOption, None, Some};
ghost use Rattle.dart_tree.specs.Lists.{more_variables_of};
ghost use Rattle.dart_tree.specs.UnitView as unit_view;
ghost use Rattle.dart_tree.specs.View as view;
ghost use Rattle.translation.specs.Classes as cl;
ghost use Rattle.translation.specs.Types as y;
ghost use Rattle.lower_leaf.specs.Forms.{core};
ghost use Rattle.lower_leaf.specs.Gives.{Gives};
ghost use Rattle.lower_leaf.specs.Seen.{seen, asked};
ghost use Rattle.lower_decl.specs.Standings.{standing};
ghost use Rattle.lower_class.specs.Views.{field, fields, class_around};

use core_program::form::{Core, Unary};
use dart_base::bytes::Bytes;
use dart_base::place::Place;
use dart_ir::kind::{SiteKind, ThrowKind};
use dart_ir::number::ClassId;
use dart_ir::types::Types;
use dart_tree::declaration::{Member, MemberKind, Modifier};
use dart_tree::identifier::Identifier;
use dart_tree::statement::{Variable, Variables};
use lower_decl::standing::Standing;
use lower_function::inside::clone_types;
use lower_leaf::fault::{LowerFault, Want};
use lower_leaf::form::unary;
use lower_leaf::name::own_name;
use lower_leaf::site::checked;
use lower_leaf::state::{Asked, State, clone_asked};
use lower_leaf::surroundings::Surroundings;
use lower_leaf::types::{asked_of_kind, is_final};
use lower_reference::plain::raised_behind;
use lower_reference::reference::{PlacedName, word_of};
use std::alloc::Global;

/// A field that a class declares, counted from `Object`'s end of the chain.
#[derive(Drop)]
pub struct Field {
    pub name: PlacedName,
    pub index: u32,
    pub wanted: Asked,
    pub is_final: bool,
}

/// The class around. A mixin application has the fields of its mixin.
#[derive(Drop)]
pub struct ClassAround {
    pub class: ClassId,
    /// The type arguments that a mixin application gives its mixin.
    pub arguments: Option<Types>,
    pub name: Bytes,
    pub fields: Vec<Field>,
    /// How many variables the initial values of the fields number.
    pub count: u32,
}

/// Where a body of the class stands.
pub fn standing_in<S: Surroundings>(
    alloc: Global,
    outside: &S,
    around: &ClassAround,
    has_instance: bool,
) -> Result<Standing, Want>
    ensures { IfOk result (λ made. standing (S.around outside.now) made
        ≡ record (cl.without_instance (class_around (S.around outside.now) around.now)) { has_instance = has_instance }) }
{
    let arguments = clone_types(alloc, outside, &around.arguments)?;
    Ok(Standing {
        class: Some(around.class),
        arguments,
        has_instance,
    })
}

/// Whether a member is static (10.7 Static Methods and 10.8 Static Variables).
pub fn is_static(of: Modifier) -> bool
    ensures { result ≡ cl.is_static of }
{
    match of {
        Modifier::Omitted => false,
        Modifier::Static(_) => true,
        Modifier::ExternalStatic(_, _) => true,
    }
}

// A field behind those before it.
fn add_field<S: Surroundings>(
    alloc: Global,
    outside: &S,
    found: &mut Vec<Field>,
    first: u32,
    name: &Identifier,
    wanted: &Asked,
    final_one: bool,
) -> Result<(), Want>
    ensures { OnOk result (fields (S.around outside.now) found.new ≡ fields (S.around outside.now) found.old
        ++ record { name = y.word_of name.now; index = first + length found.old.items; asked = asked (S.around outside.now) wanted.now; is_final = final_one } ∷ []) }
{
    let Ok(before) = u32::try_from(found.len()) else {
        return Err(Want);
    };
    let Some(index) = first.checked_add(before) else {
        return Err(Want);
    };
    let name = word_of(alloc, name)?;
    let wanted = clone_asked(alloc, outside, wanted)?;
    found.push(Field {
        name,
        index,
        wanted,
        is_final: final_one,
    })?;
    Ok(())
}

// The fields of a declaration behind the first.
fn more_fields<S: Surroundings>(
    alloc: Global,
    outside: &S,
    found: &mut Vec<Field>,
    first: u32,
    all: &Vec<Variable>,
    wanted: &Asked,
    final_one: bool,
) -> Result<(), Want>
    ensures { OnOk result (fields (S.around outside.now) found.new ≡ fields (S.around outside.now) found.old
        ++ cl.more_fields (asked (S.around outside.now) wanted.now) final_one (first + length found.old.items) (more_variables_of all.now.items)) }
{
    for one in all {
        add_field(alloc, outside, found, first, &one.name, wanted, final_one)?;
    }
    Ok(())
}

// The fields of a declaration, behind those before it.
fn add_fields<S: Surroundings>(
    alloc: Global,
    outside: &S,
    state: &State,
    found: &mut Vec<Field>,
    first: u32,
    tree: &Variables,
) -> Result<(), Want>
    ensures { OnOk result (fields (S.around outside.now) found.new ≡ fields (S.around outside.now) found.old
        ++ cl.fields_of (seen (S.around outside.now) state.now) (first + length found.old.items) (view.variables tree.now)) }
{
    let wanted = asked_of_kind(alloc, outside, state, &tree.kind)?;
    let final_one = is_final(&tree.kind);
    add_field(alloc, outside, found, first, &tree.name, &wanted, final_one)?;
    more_fields(alloc, outside, found, first, &tree.more, &wanted, final_one)
}

// The fields that a member declares, behind those before it.
fn member_fields<S: Surroundings>(
    alloc: Global,
    outside: &S,
    state: &State,
    found: &mut Vec<Field>,
    first: u32,
    one: &Member,
) -> Result<(), Want>
    ensures { OnOk result (fields (S.around outside.now) found.new ≡ fields (S.around outside.now) found.old
        ++ cl.member_fields (seen (S.around outside.now) state.now) (first + length found.old.items) (cl.is_static one.now.modifier) (unit_view.member_kind one.now.kind)) }
{
    if is_static(one.modifier) {
        return Ok(());
    }
    match &one.kind {
        MemberKind::Variables(tree) => add_fields(alloc, outside, state, found, first, tree),
        MemberKind::Constructor(_) => Ok(()),
        MemberKind::Function(_) => Ok(()),
        MemberKind::Accessor(_) => Ok(()),
        MemberKind::Operator(_) => Ok(()),
    }
}

/// The fields that a class declares, in the order of the text, from the number of the first on.
pub fn own_fields<S: Surroundings>(
    alloc: Global,
    outside: &S,
    state: &State,
    first: u32,
    members: &Vec<Member>,
) -> Result<Vec<Field>, Want>
    ensures { IfOk result (λ made. fields (S.around outside.now) made
        ≡ cl.own_fields (seen (S.around outside.now) state.now) first (map unit_view.member members.now.items)) }
{
    let mut found = Vec::new(alloc);
    for one in members {
        member_fields(alloc, outside, state, &mut found, first, one)?;
    }
    Ok(found)
}

/// The first field of the name.
pub fn field_named<'a, S: Surroundings>(
    outside: &S,
    all: &'a Vec<Field>,
    name: &[u8],
) -> Option<&'a Field>
    ensures { MatchOption result (cl.field_named (fields (S.around outside.now) all.now) name.now ≡ None)
        (λ found. cl.field_named (fields (S.around outside.now) all.now) name.now ≡ Some (field (S.around outside.now) found.now)) }
{
    for one in all {
        if one.name.text.as_slice() == name {
            return Some(one);
        }
    }
    None
}

/// A field takes the value of a form, which is tested at `at`, or there is an error where the class declares no such field.
pub fn write_field<S: Surroundings>(
    alloc: Global,
    outside: &S,
    state: &mut State,
    around: &ClassAround,
    place: Place,
    at: Place,
    name: &[u8],
    form: Core,
) -> Result<Core, LowerFault>
    ensures { Gives (core (S.around outside.now)) result (seen (S.around outside.now) state.new)
        (cl.write_field place at (cl.field_named (class_around (S.around outside.now) around.now).fields name.now) name.now
        (core (S.around outside.now) form) (seen (S.around outside.now) state.old)) }
{
    match field_named(outside, &around.fields, name) {
        None => {
            let mut forms = Vec::new(alloc);
            forms.push(form)?;
            let error = ThrowKind::NoSuchMethodError;
            let name = own_name(alloc, outside, state.outer, name)?;
            Ok(raised_behind(outside, place, forms, error, name, true)?)
        }
        Some(x) => {
            let wanted = clone_asked(alloc, outside, &x.wanted)?;
            let form = checked(alloc, outside, state, SiteKind::FieldInit, at, wanted, form)?;
            Ok(unary(outside, alloc, place, Unary::FieldWrite(x.index), form)?)
        }
    }
}
