// The scopes of the classes that units declare.
ghost use Rattle.std.specs.Prelude.{◌≡◌, ◌<◌, ◌^◌, ◌++◌, List, length, map, IfOk, OnOk};
ghost use Rattle.std.specs.List.{list_any};
ghost use Rattle.std.specs.Option.{is_some};
ghost use Rattle.dart_base.specs.declared.place.Place.{Place};
ghost use Rattle.dart_tree.specs.UnitView as view;
ghost use Rattle.dart_tree.specs.declared.declaration.Member.{Member};
ghost use Rattle.dart_tree.specs.declared.declaration.TypeParameter.{TypeParameter};
ghost use Rattle.translation.specs.ClassBodies as bodies;
ghost use Rattle.scope_program.specs.Classes as Classes;
ghost use Rattle.scope_program.specs.Classes.{class_scopes, declared_scope, parameters_of, position_of, scope_of, unit_scopes};
ghost use Rattle.scope_program.specs.Made.{AreClassesOf, IsClassOf};
ghost use Rattle.scope_program.specs.Places.{at_place};

use crate::accessor::accessor_count;
use crate::place::Places;
use dart_base::bytes::Bytes;
use dart_base::names::Names;
use dart_tree::declaration::{
    Class, ClassKind, Decl, DeclKind, Enum, Member, MemberKind, TypeParameter, TypeParameters,
};
use dart_tree::identifier::Identifier;
use dart_tree::unit::Unit;
use lower_leaf::fault::Want;
use lower_leaf::name::{place_of, text_of};
use scope_class::class::{ClassNames, class_names};
use scope_class::constructor::{Constructors, Making, class_constructors, makings};
use scope_declared::declaration::Declared;
use std::alloc::Global;

/// What the declaration of a class says of scopes, and what the class makes names mean (ECMA-408, 10 Classes, 13 Enums).
#[derive(Drop)]
pub struct ClassScope {
    /// The number of the library that declares it.
    pub library: u32,
    /// Its number among the declarations that have one.
    pub declaration: u32,
    /// Its name as it is written.
    pub name: Bytes,
    /// How many type parameters it has (14 Generics).
    pub parameters: u32,
    /// Whether any of them has a bound.
    pub is_bounded: bool,
    /// Whether it is written as a mixin application (12.1 Mixin Application).
    pub is_mixed: bool,
    /// Whether it writes a constructor (10.6 Constructors).
    pub has_constructor: bool,
    /// How many implicit accessors its fields have (10.5 Instance Variables).
    pub accessors: u32,
    /// What its constructors are written as, in turn.
    pub ways: Vec<Making>,
    /// What it makes names mean.
    pub names: ClassNames,
    /// The constructors that it writes, by their ids.
    pub constructors: Constructors,
}

/// The declarations of a program that have numbers, with the table of names, and their numbers by places.
#[derive(Clone, Copy)]
pub struct Declarations<'a> {
    pub names: &'a Names,
    pub numbered: &'a [Declared],
    pub places: &'a Places,
}

fn is_constructor(kind: &MemberKind) -> bool
    ensures { result ≡ bodies.is_constructor (view.member_kind kind.now) }
{
    match kind {
        MemberKind::Constructor(_) => true,
        MemberKind::Function(_) => false,
        MemberKind::Accessor(_) => false,
        MemberKind::Variables(_) => false,
        MemberKind::Operator(_) => false,
    }
}

// Whether one of the members is a constructor (10.6 Constructors).
fn has_constructor(members: &[Member]) -> bool
    ensures { result ≡ list_any (λ (x : Member). bodies.is_constructor (view.member_kind x.kind)) members.now }
{
    members.iter().any(|member| is_constructor(&member.kind))
}

// Whether one of the type parameters has a bound (14 Generics).
fn is_bounded(parameters: &[TypeParameter]) -> bool
    ensures { result ≡ list_any (λ (x : TypeParameter). is_some x.bound) parameters.now }
{
    parameters.iter().any(|one| one.bound.is_some())
}

// The scope of a class of that name, with these type parameters and members.
fn scope_of(
    alloc: Global,
    declarations: Declarations,
    library: u32,
    name: &Identifier,
    parameters: &[TypeParameter],
    is_mixed: bool,
    members: &[Member],
) -> Result<ClassScope, Want>
    requires few { length declarations.numbered.now < 2 ^ 32 }
    requires placed { (place : Place) → at_place declarations.places.now place ≡ position_of declarations.numbered.now place }
    ensures { IfOk result (IsClassOf declarations.entry.names.now declarations.entry.numbered.now
        (scope_of declarations.entry.numbered.now library name.now (map view.type_parameter parameters.now) is_mixed (map view.member members.now))) }
{
    let Some(declaration) = declarations.places.number_at(place_of(name)) else {
        return Err(Want);
    };
    let Ok(count) = u32::try_from(parameters.len()) else {
        return Err(Want);
    };
    let ways = makings(alloc, members)?;
    let names = class_names(
        alloc,
        declarations.names,
        declarations.numbered,
        library,
        declaration,
        parameters,
    )?;
    let constructors = class_constructors(
        alloc,
        declarations.names,
        declarations.numbered,
        declaration,
        &ways,
    )?;
    Ok(ClassScope {
        library,
        declaration,
        name: Bytes::from_slice(alloc, text_of(name))?,
        parameters: count,
        is_bounded: is_bounded(parameters),
        is_mixed,
        has_constructor: has_constructor(members),
        accessors: accessor_count(members)?,
        ways,
        names,
        constructors,
    })
}

fn parameters_of(parameters: &Option<TypeParameters>) -> &[TypeParameter]
    ensures { map view.type_parameter result.now ≡ parameters_of (view.maybe view.type_parameters parameters.now) }
{
    match parameters {
        Some(written) => written.items.as_slice(),
        None => &[],
    }
}

// The members that are written in the body of a class; a mixin application has none.
fn members_of(kind: &ClassKind) -> &[Member]
    ensures { map view.member result.now ≡ bodies.members_of (view.class_kind kind.now) }
{
    match kind {
        ClassKind::Declared { members, .. } => members.as_slice(),
        ClassKind::Mixed { .. } => &[],
    }
}

// Whether a class is written as a mixin application (12.1 Mixin Application).
fn is_mixed(kind: &ClassKind) -> bool
    ensures { result ≡ bodies.is_mixed (view.class_kind kind.now) }
{
    match kind {
        ClassKind::Declared { .. } => false,
        ClassKind::Mixed { .. } => true,
    }
}

// The scope of the class that a declaration is, behind those before it, where it is one.
fn add_declared(
    alloc: Global,
    declarations: Declarations,
    library: u32,
    kind: &DeclKind,
    made: &mut Vec<ClassScope>,
) -> Result<(), Want>
    requires few { length declarations.numbered.now < 2 ^ 32 }
    requires placed { (place : Place) → at_place declarations.places.now place ≡ position_of declarations.numbered.now place }
    ensures { OnOk result ((before : List Classes.ClassScope) → AreClassesOf declarations.entry.names.now declarations.entry.numbered.now before made.old.items
        → AreClassesOf declarations.entry.names.now declarations.entry.numbered.now (before ++ declared_scope declarations.entry.numbered.now library (view.decl_kind kind.now)) made.new.items) }
{
    match kind {
        DeclKind::Class(x) => {
            let parameters = parameters_of(&x.parameters);
            let members = members_of(&x.kind);
            let mixed = is_mixed(&x.kind);
            let scope = scope_of(
                alloc,
                declarations,
                library,
                &x.name,
                parameters,
                mixed,
                members,
            )?;
            made.push(scope)?;
            Ok(())
        }
        DeclKind::Enum(x) => {
            let scope = scope_of(alloc, declarations, library, &x.name, &[], false, &[])?;
            made.push(scope)?;
            Ok(())
        }
        DeclKind::Alias(_) => Ok(()),
        DeclKind::Function(_) => Ok(()),
        DeclKind::Accessor(_) => Ok(()),
        DeclKind::Variables(_) => Ok(()),
    }
}

// The scopes of the classes of a unit, behind those before them.
fn add_unit(
    alloc: Global,
    declarations: Declarations,
    library: u32,
    all: &Vec<Decl>,
    made: &mut Vec<ClassScope>,
) -> Result<(), Want>
    requires few { length declarations.numbered.now < 2 ^ 32 }
    requires placed { (place : Place) → at_place declarations.places.now place ≡ position_of declarations.numbered.now place }
    ensures { OnOk result ((before : List Classes.ClassScope) → AreClassesOf declarations.entry.names.now declarations.entry.numbered.now before made.old.items
        → AreClassesOf declarations.entry.names.now declarations.entry.numbered.now (before ++ unit_scopes declarations.entry.numbered.now library (map view.decl all.now.items)) made.new.items) }
{
    for one in all {
        add_declared(alloc, declarations, library, &one.kind, made)?;
    }
    Ok(())
}

// The scopes of the classes of units, behind those before them.
fn add_units(
    alloc: Global,
    declarations: Declarations,
    homes: &[u32],
    units: &[Unit],
    made: &mut Vec<ClassScope>,
) -> Result<(), Want>
    requires few { length declarations.numbered.now < 2 ^ 32 }
    requires placed { (place : Place) → at_place declarations.places.now place ≡ position_of declarations.numbered.now place }
    ensures { OnOk result ((before : List Classes.ClassScope) → AreClassesOf declarations.entry.names.now declarations.entry.numbered.now before made.old.items
        → AreClassesOf declarations.entry.names.now declarations.entry.numbered.now (before ++ class_scopes declarations.entry.numbered.now homes.now (map view.unit units.now)) made.new.items) }
{
    match homes {
        [] => Ok(()),
        [library, homes @ ..] => match units {
            [] => Ok(()),
            [unit, units @ ..] => {
                add_unit(alloc, declarations, *library, &unit.declarations, made)?;
                add_units(alloc, declarations, homes, units, made)
            }
        },
    }
}

/// The scopes of the classes that units declare, in source order, where each belongs to the library of the number beside it (ECMA-408, 10
/// Classes, 12 Mixins, 13 Enums). `Want` where memory or a number runs out, or the table lacks the name of a member.
pub fn class_scopes(
    alloc: Global,
    declarations: Declarations,
    homes: &[u32],
    units: &[Unit],
) -> Result<Vec<ClassScope>, Want>
    requires few { length declarations.numbered.now < 2 ^ 32 }
    requires placed { (place : Place) → at_place declarations.places.now place ≡ position_of declarations.numbered.now place }
    ensures { IfOk result (λ made. AreClassesOf declarations.entry.names.now declarations.entry.numbered.now
        (class_scopes declarations.entry.numbered.now homes.now (map view.unit units.now)) made.items) }
{
    let mut made = Vec::new(alloc);
    add_units(alloc, declarations, homes, units, &mut made)?;
    Ok(made)
}
