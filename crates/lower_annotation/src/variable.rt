// The library and static variables of a program (ECMA-408, 8 Variables, 10.8 Static Variables).
#![tactic(auto, using(crate::proofs::Pushed::pushes))]

ghost use Rattle.std.specs.Prelude.{◌≡◌, ◌++◌, flat_map, map, option_and_then, IfOk, OnOk};
ghost use Rattle.std.specs.Option.{option_map};
ghost use Rattle.dart_tree.specs.Lists.{more_variables_of};
ghost use Rattle.dart_tree.specs.Unit as u;
ghost use Rattle.dart_tree.specs.UnitView as unit_view;
ghost use Rattle.dart_tree.specs.View as view;
ghost use Rattle.translation.specs.ClassBodies as bodies;
ghost use Rattle.translation.specs.Classes as classes;
ghost use Rattle.lower_leaf.specs.Around.{meaning, option_type};
ghost use Rattle.lower_annotation.specs.Numbered as d;
ghost use Rattle.lower_annotation.specs.Seen.{optional, placed, types_in, variable};

use crate::declaration::{Placed, library_outer};
use crate::number::Numbers;
use crate::place::Places;
use dart_ir::number::ClassId;
use dart_ir::types::TypeRef;
use dart_tree::declaration::{Class, ClassKind, DeclKind, Member, MemberKind, Modifier};
use dart_tree::identifier::Identifier;
use dart_tree::parameter::VariableKind;
use dart_tree::statement::{Variable as VariableTree, Variables as VariablesTree};
use lower_leaf::fault::Want;
use lower_leaf::meaning::{Meaning, Outer};
use lower_leaf::name::{place_of, text_of};
use lower_leaf::state::clone_type;
use lower_leaf::surroundings::Surroundings;
use std::alloc::Global;

/// A variable that has a number, what stands before its name, and where names are looked up there.
#[derive(Clone, Copy)]
pub struct OuterVariable<'a> {
    pub number: u32,
    pub outer: Outer,
    pub kind: &'a VariableKind,
}

/// Where the numbers of variables stand first among them, and what the annotation of each asks for.
#[derive(Drop)]
pub struct Variables {
    pub places: Places,
    pub types: Vec<Option<TypeRef>>,
}

// The class of the number, the first one where it is no class.
fn class_number(of: Meaning) -> ClassId
    ensures { result.0 ≡ bodies.class_number (meaning of) }
{
    match of {
        Meaning::Class(class) => class,
        Meaning::Function(_) => ClassId(0),
        Meaning::Variable(_, _) => ClassId(0),
        Meaning::Accessors(_, _) => ClassId(0),
        Meaning::Alias(_) => ClassId(0),
        Meaning::TypeParameter(_) => ClassId(0),
        Meaning::Member => ClassId(0),
        Meaning::Prefix => ClassId(0),
        Meaning::Ambiguous => ClassId(0),
        Meaning::Unknown => ClassId(0),
    }
}

// Where names are looked up inside of a class that a library declares.
fn class_outer<S: Surroundings>(outside: &S, library: u32, name: &[u8]) -> Outer
    ensures { result ≡ d.class_outer (S.around outside.now) library name.now }
{
    let of = outside.meaning(library_outer(library), name);
    Outer {
        library,
        class: Some(class_number(of)),
    }
}

fn is_static(of: Modifier) -> bool
    ensures { result ≡ classes.is_static of }
{
    match of {
        Modifier::Omitted => false,
        Modifier::Static(_) => true,
        Modifier::ExternalStatic(_, _) => true,
    }
}

// The members that are written in a class; a mixin application has none.
fn members_of(kind: &ClassKind) -> &[Member]
    ensures { map unit_view.member result.now ≡ bodies.members_of (unit_view.class_kind kind.now) }
{
    match kind {
        ClassKind::Declared { members, .. } => members.as_slice(),
        ClassKind::Mixed { .. } => &[],
    }
}

// A variable behind those before it, if it has a number.
fn add_variable<'a, N: Numbers>(
    numbers: &N,
    made: &mut Vec<OuterVariable<'a>>,
    outer: Outer,
    kind: &'a VariableKind,
    name: &Identifier,
) -> Result<(), Want>
    ensures { OnOk result (map variable made.new.items ≡ map variable made.old.items
        ++ d.variable_named (N.numbers numbers.now) outer (view.variable_kind kind.now) name.now) }
{
    match numbers.number_at(place_of(name)) {
        None => Ok(()),
        Some(number) => {
            made.push(OuterVariable {
                number,
                outer,
                kind,
            })?;
            Ok(())
        }
    }
}

// The variables of a declaration behind the first.
fn add_more<'a, N: Numbers>(
    numbers: &N,
    made: &mut Vec<OuterVariable<'a>>,
    outer: Outer,
    kind: &'a VariableKind,
    all: &Vec<VariableTree>,
) -> Result<(), Want>
    ensures { OnOk result (map variable made.new.items ≡ map variable made.old.items
        ++ d.more_named (N.numbers numbers.now) outer (view.variable_kind kind.now) (more_variables_of all.now.items)) }
{
    for one in all {
        add_variable(numbers, made, outer, kind, &one.name)?;
    }
    Ok(())
}

// The variables of a declaration, behind those before it.
#[tactic(auto, using(dart_tree::proofs::Rows::view_the_variables, crate::proofs::Pushed::pushes))]
fn add_variables<'a, N: Numbers>(
    numbers: &N,
    made: &mut Vec<OuterVariable<'a>>,
    outer: Outer,
    tree: &'a VariablesTree,
) -> Result<(), Want>
    ensures { OnOk result (map variable made.new.items ≡ map variable made.old.items
        ++ d.variables_named (N.numbers numbers.now) outer (view.variables tree.now)) }
{
    add_variable(numbers, made, outer, &tree.kind, &tree.name)?;
    add_more(numbers, made, outer, &tree.kind, &tree.more)
}

// The static variables that a member is, behind those before it.
fn add_member<'a, N: Numbers>(
    numbers: &N,
    made: &mut Vec<OuterVariable<'a>>,
    outer: Outer,
    one: &'a Member,
) -> Result<(), Want>
    ensures { OnOk result (map variable made.new.items ≡ map variable made.old.items
        ++ d.static_variables (N.numbers numbers.now) outer (unit_view.member one.now)) }
{
    if !is_static(one.modifier) {
        return Ok(());
    }
    match &one.kind {
        MemberKind::Variables(tree) => add_variables(numbers, made, outer, tree),
        MemberKind::Constructor(_) => Ok(()),
        MemberKind::Function(_) => Ok(()),
        MemberKind::Accessor(_) => Ok(()),
        MemberKind::Operator(_) => Ok(()),
    }
}

// The static variables of members, behind those before them.
fn add_members<'a, N: Numbers>(
    numbers: &N,
    made: &mut Vec<OuterVariable<'a>>,
    outer: Outer,
    all: &'a [Member],
) -> Result<(), Want>
    ensures { OnOk result (map variable made.new.items ≡ map variable made.old.items
        ++ flat_map (d.static_variables (N.numbers numbers.now) outer) (map unit_view.member all.now)) }
{
    for one in all {
        add_member(numbers, made, outer, one)?;
    }
    Ok(())
}

// The static variables of a class, behind those before it.
fn add_class<'a, S: Surroundings, N: Numbers>(
    outside: &S,
    numbers: &N,
    made: &mut Vec<OuterVariable<'a>>,
    library: u32,
    class: &'a Class,
) -> Result<(), Want>
    ensures { OnOk result (map variable made.new.items ≡ map variable made.old.items
        ++ d.declared_variables (N.numbers numbers.now) (S.around outside.now) library (u.class_decl (unit_view.class class.now))) }
{
    let outer = class_outer(outside, library, text_of(&class.name));
    add_members(numbers, made, outer, members_of(&class.kind))
}

// The variables of a declaration, behind those before it.
fn add_declared<'a, S: Surroundings, N: Numbers>(
    outside: &S,
    numbers: &N,
    made: &mut Vec<OuterVariable<'a>>,
    one: Placed<'a>,
) -> Result<(), Want>
    ensures { OnOk result (map variable made.new.items ≡ map variable made.old.items
        ++ d.declared_variables (N.numbers numbers.now) (S.around outside.now) one.entry.library (unit_view.decl_kind one.entry.kind.now)) }
{
    match one.kind {
        DeclKind::Class(class) => add_class(outside, numbers, made, one.library, class),
        DeclKind::Variables(tree) => {
            add_variables(numbers, made, library_outer(one.library), tree)
        }
        DeclKind::Alias(_) => Ok(()),
        DeclKind::Function(_) => Ok(()),
        DeclKind::Accessor(_) => Ok(()),
        DeclKind::Enum(_) => Ok(()),
    }
}

/// The library and static variables of declarations, but for those without a number.
pub fn variables_of<'a, S: Surroundings, N: Numbers>(
    alloc: Global,
    outside: &S,
    numbers: &N,
    all: &[Placed<'a>],
) -> Result<Vec<OuterVariable<'a>>, Want>
    ensures { IfOk result (λ made. map variable made.items ≡ d.variables_of (N.numbers numbers.now) (S.around outside.now) (map placed all.now)) }
{
    let mut made = Vec::new(alloc);
    for one in all {
        add_declared(outside, numbers, &mut made, *one)?;
    }
    Ok(made)
}

// What is asked of the variable at a place.
fn clone_at<S: Surroundings>(
    alloc: Global,
    outside: &S,
    found: Option<&Option<TypeRef>>,
) -> Result<Option<TypeRef>, Want>
    ensures { IfOk result (λ made. option_type (S.around outside.now) made
        ≡ option_and_then (optional (S.around outside.now)) (option_map (λ x. x.now) found.entry)) }
{
    match found {
        None => Ok(None),
        Some(None) => Ok(None),
        Some(Some(of)) => Ok(Some(clone_type(alloc, outside, of)?)),
    }
}

/// What the annotation of the variable of a number asks for.
pub fn type_at<S: Surroundings>(
    alloc: Global,
    outside: &S,
    all: &Variables,
    number: u32,
) -> Result<Option<TypeRef>, Want>
    ensures { IfOk result (λ made. option_type (S.around outside.now) made ≡ types_in (S.around outside.now) all.now number) }
{
    match all.places.place_at(number) {
        None => Ok(None),
        Some(place) => clone_at(alloc, outside, all.types.get(place as usize)),
    }
}
