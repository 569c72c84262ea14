// The table of the classes of a loaded program.
ghost use Rattle.std.specs.Prelude.{◌≡◌, IfOk, length};
ghost use Rattle.dart_base.specs.declared.place.Place.{Place};
ghost use Rattle.dart_ir.specs.Classes.{IsValid};
ghost use Rattle.scope_load.specs.State.{state_of};
ghost use Rattle.class_fault.specs.declared.fault.Fault.{Fault};
ghost use Rattle.class_size.specs.Built.{fault_of};
ghost use Rattle.class_size.specs.declared.build.ClassFault.TheVariants.{TypesTooLarge};
ghost use Rattle.class_reader.specs.Built.{IsBuiltFrom, IsOverlargeIn, IsRefusedIn};
ghost use Rattle.scope_program.specs.Made.{AreScopesOf};
ghost use Rattle.scope_program.specs.Program.{IsScoping, Scoping};
ghost use Rattle.class_reader.specs.Given.{AreJoint, source_units as read_units};
ghost use Rattle.class_source.specs.Resolved.{IsResolved};
ghost use Rattle.dart_base.specs.Names.{AreDistinct};
ghost use Rattle.dart_class.specs.Around.{given_by, is_simple, library_of, signed};
ghost use Rattle.dart_class.specs.Given.{class_given, source_units};

use crate::home::unit_homes;
use crate::scopes::DeclaredScopes;
use class_reader::build::build_classes;
use class_reader::home::Home;
use class_size::build::ClassFault;
use dart_ir::class::Classes;
use dart_tree::unit::Unit;
use lower_annotation::annotations::{Annotations, annotations_of};
use scope_load::loaded::Loaded;
use scope_program::class::ClassScope;
use scope_program::program::ProgramScopes;
use std::alloc::Global;

// Whether there is a class of the number that has no type parameters.
fn is_simple(classes: &[ClassScope], number: u32) -> bool
    ensures { result ≡ is_simple classes.now number }
{
    match classes.get(number as usize) {
        Some(class) => class.parameters == 0,
        None => false,
    }
}

// The table of the classes that the units declare, where aliases stand for these types in signatures.
fn written_out<'b>(
    alloc: Global,
    headers: &'b DeclaredScopes<'b>,
    members: &'b DeclaredScopes<'b>,
    annotations: &'b Annotations,
    homes: &[Home],
    units: &[Unit],
    count: u32,
) -> Result<Classes, ClassFault>
    requires joint { AreJoint (signed headers.now annotations.now) (signed members.now annotations.now) (library_of members.now.scopes.now) }
    requires distinct { AreDistinct (signed members.now annotations.now).texts }
    requires count { length (signed members.now annotations.now).texts ≡ count }
    requires resolved { IsResolved (given_by headers.now members.now annotations.now) (read_units homes.now units.now) }
    ensures valid { IfOk result (λ k. IsValid k) }
    ensures built { IfOk result (λ k. IsBuiltFrom (given_by headers.now members.now annotations.now) (read_units homes.now units.now)
        (signed members.now annotations.now).texts k) }
    ensures refused { (f : Fault) → result ≡ Err (fault_of f)
        → IsRefusedIn (given_by headers.now members.now annotations.now) (read_units homes.now units.now) (signed members.now annotations.now).texts f }
    ensures too_large { (place : Place) → result ≡ Err (TypesTooLarge place)
        → IsOverlargeIn (given_by headers.now members.now annotations.now) (read_units homes.now units.now) (signed members.now annotations.now).texts place }
{
    let in_headers = annotations.over(headers);
    let in_members = annotations.over(members);
    build_classes(
        alloc,
        &in_headers,
        &in_members,
        members,
        homes,
        units,
        count,
    )
}

/// The table of the classes of a loaded program (ECMA-408, 10 Classes, 12 Mixins, 13 Enums), or the first reason for which headers of classes
/// are refused. `Memory` also where the prelude doesn't declare `int` and `String` as classes without type parameters, and `Object` and
/// `Function` as classes that name none.
pub fn build(alloc: Global, scopes: &ProgramScopes, loaded: &Loaded) -> Result<Classes, ClassFault>
    requires { (s : Scoping) × IsScoping (state_of loaded.now) s × AreScopesOf s scopes.now }
    ensures valid { IfOk result (λ k. IsValid k) }
    ensures built { (s : Scoping) → IsScoping (state_of loaded.now) s → AreScopesOf s scopes.now
        → IfOk result (λ k. IsBuiltFrom (class_given (state_of loaded.now) s) (source_units (state_of loaded.now)) s.texts k) }
    ensures refused { (s : Scoping) → IsScoping (state_of loaded.now) s → AreScopesOf s scopes.now → (f : Fault) → result ≡ Err (fault_of f)
        → IsRefusedIn (class_given (state_of loaded.now) s) (source_units (state_of loaded.now)) s.texts f }
    ensures too_large { (s : Scoping) → IsScoping (state_of loaded.now) s → AreScopesOf s scopes.now → (place : Place) → result ≡ Err (TypesTooLarge place)
        → IsOverlargeIn (class_given (state_of loaded.now) s) (source_units (state_of loaded.now)) s.texts place }
{
    let classes = scopes.classes.as_slice();
    if !is_simple(classes, scopes.int_class) || !is_simple(classes, scopes.string_class) {
        return Err(ClassFault::Memory);
    }
    let Ok(homes) = unit_homes(alloc, loaded.names.as_slice(), scopes.homes.as_slice()) else {
        return Err(ClassFault::Memory);
    };
    let count = scopes.names.count();
    let members = DeclaredScopes {
        scopes,
        in_headers: false,
    };
    let Ok(annotations) = annotations_of(
        alloc,
        &members,
        &members,
        scopes.homes.as_slice(),
        loaded.units.as_slice(),
    ) else {
        return Err(ClassFault::Memory);
    };
    let headers = DeclaredScopes {
        scopes,
        in_headers: true,
    };
    written_out(
        alloc,
        &headers,
        &members,
        &annotations,
        homes.as_slice(),
        loaded.units.as_slice(),
        count,
    )
}
