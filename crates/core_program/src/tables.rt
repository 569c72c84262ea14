// Copies of the tables of a program that stripping leaves as they are.
ghost use Rattle.std.specs.Prelude.{◌≡◌, IfOk, map};
ghost use Rattle.dart_ir.specs.Object.{heap_object};
ghost use Rattle.core_program.specs.ProgramView as v;

use crate::program::StaticVar;
use dart_base::bytes::Bytes;
use dart_base::units::Units;
use dart_ir::class::ClassInfo;
use dart_ir::object::Object;
use dart_ir::types::{TypeRef, try_clone_types};
use std::alloc::{AllocError, Global};

/// An equal type, where there is one.
pub fn try_clone_option(alloc: Global, of: &Option<TypeRef>) -> Result<Option<TypeRef>, AllocError>
    ensures { IfOk result (λ copy. v.ty_option copy ≡ v.ty_option of.now) }
{
    match of {
        None => Ok(None),
        Some(of) => Ok(Some(of.try_clone(alloc)?)),
    }
}

/// Equal bounds in the same order.
pub fn try_clone_bounds(
    alloc: Global,
    bounds: &[Option<TypeRef>],
) -> Result<Vec<Option<TypeRef>>, AllocError>
    ensures { IfOk result (λ copies. map v.ty_option copies.items ≡ map v.ty_option bounds.now) }
{
    let mut copies = Vec::new(alloc);
    for one in bounds {
        copies.push(try_clone_option(alloc, one)?)?;
    }
    Ok(copies)
}

/// An equal class.
pub fn try_clone_class(alloc: Global, class: &ClassInfo) -> Result<ClassInfo, AllocError>
    ensures { IfOk result (λ copy. v.class copy ≡ v.class class.now) }
{
    let bounds = try_clone_bounds(alloc, &class.bounds)?;
    let superclass = try_clone_option(alloc, &class.superclass)?;
    let interfaces = try_clone_types(alloc, &class.interfaces)?;
    let members = Vec::from_slice(alloc, &class.members)?;
    Ok(ClassInfo {
        name: class.name,
        library: class.library,
        place: class.place,
        bounds,
        superclass,
        interfaces,
        is_abstract: class.is_abstract,
        decl: class.decl,
        fields: class.fields,
        members,
        callable: class.callable,
    })
}

/// Equal classes in the same order.
pub fn try_clone_classes(alloc: Global, classes: &[ClassInfo]) -> Result<Vec<ClassInfo>, AllocError>
    ensures { IfOk result (λ copies. map v.class copies.items ≡ map v.class classes.now) }
{
    let mut copies = Vec::new(alloc);
    for one in classes {
        copies.push(try_clone_class(alloc, one)?)?;
    }
    Ok(copies)
}

/// An equal static variable.
pub fn try_clone_static(alloc: Global, variable: &StaticVar) -> Result<StaticVar, AllocError>
    ensures { IfOk result (λ copy. v.static copy ≡ v.static variable.now) }
{
    let cells = Vec::from_slice(alloc, &variable.cells)?;
    let init = variable.init.try_clone(alloc)?;
    Ok(StaticVar {
        name: variable.name,
        vars: variable.vars,
        cells,
        init,
        is_final: variable.is_final,
    })
}

/// Equal static variables in the same order.
pub fn try_clone_statics(alloc: Global, statics: &[StaticVar]) -> Result<Vec<StaticVar>, AllocError>
    ensures { IfOk result (λ copies. map v.static copies.items ≡ map v.static statics.now) }
{
    let mut copies = Vec::new(alloc);
    for one in statics {
        copies.push(try_clone_static(alloc, one)?)?;
    }
    Ok(copies)
}

/// Equal bytes, in the same order.
pub fn try_clone_units(alloc: Global, units: &[Bytes]) -> Result<Vec<Bytes>, AllocError>
    ensures { IfOk result (λ copies. copies.items ≡ units.now) }
{
    let mut copies = Vec::new(alloc);
    for one in units {
        copies.push(Bytes::from_slice(alloc, one.as_slice())?)?;
    }
    Ok(copies)
}

/// Equal texts, in the same order.
pub fn try_clone_literals(alloc: Global, literals: &[Units]) -> Result<Vec<Units>, AllocError>
    ensures { IfOk result (λ copies. copies.items ≡ literals.now) }
{
    let mut copies = Vec::new(alloc);
    for one in literals {
        copies.push(Units::from_slice(alloc, one.as_slice())?)?;
    }
    Ok(copies)
}

/// An equal object.
pub fn try_clone_object(alloc: Global, object: &Object) -> Result<Object, AllocError>
    ensures { IfOk result (λ copy. heap_object copy ≡ heap_object object.now) }
{
    match object {
        Object::Instance {
            class,
            args,
            fields,
        } => Ok(Object::Instance {
            class: *class,
            args: try_clone_types(alloc, args)?,
            fields: fields.try_clone(alloc)?,
        }),
        Object::List { args, items, fixed } => Ok(Object::List {
            args: try_clone_types(alloc, args)?,
            items: items.try_clone(alloc)?,
            fixed: *fixed,
        }),
        Object::Text(units) => Ok(Object::Text(Units::from_slice(alloc, units.as_slice())?)),
        Object::Closure {
            decl,
            receiver,
            args,
            cells,
        } => Ok(Object::Closure {
            decl: *decl,
            receiver: *receiver,
            args: try_clone_types(alloc, args)?,
            cells: cells.try_clone(alloc)?,
        }),
        Object::Bound { receiver, member } => Ok(Object::Bound {
            receiver: *receiver,
            member: *member,
        }),
        Object::TypeValue(of) => Ok(Object::TypeValue(of.try_clone(alloc)?)),
        Object::SendPort { isolate, port } => Ok(Object::SendPort {
            isolate: *isolate,
            port: *port,
        }),
        Object::ReceivePort { port } => Ok(Object::ReceivePort { port: *port }),
        Object::Cell { value, counted } => Ok(Object::Cell {
            value: *value,
            counted: *counted,
        }),
    }
}

/// Equal objects in the same order.
pub fn try_clone_objects(alloc: Global, objects: &[Object]) -> Result<Vec<Object>, AllocError>
    ensures { IfOk result (λ copies. map heap_object copies.items ≡ map heap_object objects.now) }
{
    let mut copies = Vec::new(alloc);
    for one in objects {
        copies.push(try_clone_object(alloc, one)?)?;
    }
    Ok(copies)
}
