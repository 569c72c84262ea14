// The image of a program.
ghost use Rattle.std.specs.Prelude.{◌≡◌, IfOk, map};
ghost use Rattle.dart_ir.specs.Classes.{IsValid};
ghost use Rattle.core_program.specs.Alike as alike;
ghost use Rattle.core_program.specs.ProgramView as v;

use crate::form::{image_of_part, line};
use core_program::program::{CoreProgram, Function, Site, StaticVar};
use core_program::tables::{
    try_clone_bounds, try_clone_literals, try_clone_objects, try_clone_option, try_clone_units,
};
use dart_ir::class::{ClassInfo, Classes, MemberInfo};
use dart_ir::types::try_clone_types;
use std::alloc::{AllocError, Global};

/// The program without its columns and without the marks of annotations: each place has column 0, and no site is marked. All else stays.
/// Two programs are alike exactly where, with names as their texts, their images are equal. Its table of classes is valid where that of the
/// program is.
pub fn image(alloc: Global, p: &CoreProgram) -> Result<CoreProgram, AllocError>
    ensures names { IfOk result (λ made. made.names ≡ p.now.names) }
    ensures program { IfOk result (λ made. v.program made ≡ alike.program (v.program p.now)) }
    ensures valid { IsValid p.now.classes → IfOk result (λ made. IsValid made.classes) }
{
    let names = p.names.try_clone(alloc)?;
    let units = try_clone_units(alloc, &p.units)?;
    let classes = image_of_tables(alloc, &p.classes)?;
    let functions = image_of_functions(alloc, &p.functions)?;
    let statics = image_of_statics(alloc, &p.statics)?;
    let sites = image_of_sites(alloc, &p.sites)?;
    let literals = try_clone_literals(alloc, &p.literals)?;
    let constants = try_clone_objects(alloc, &p.constants)?;
    Ok(CoreProgram {
        names,
        units,
        classes,
        functions,
        statics,
        sites,
        literals,
        constants,
        main: p.main,
    })
}

fn image_of_tables(alloc: Global, classes: &Classes) -> Result<Classes, AllocError>
    ensures classes { IfOk result (λ made. map v.class made.classes.items ≡ map alike.class (map v.class classes.now.classes.items)) }
    ensures members { IfOk result (λ made. map v.member made.members.items ≡ map alike.member (map v.member classes.now.members.items)) }
    ensures function { IfOk result (λ made. made.function ≡ classes.now.function) }
    ensures valid { IsValid classes.now → IfOk result (λ made. IsValid made) }
{
    Ok(Classes {
        classes: image_of_classes(alloc, &classes.classes)?,
        members: image_of_members(alloc, &classes.members)?,
        function: classes.function,
    })
}

fn image_of_classes(alloc: Global, classes: &[ClassInfo]) -> Result<Vec<ClassInfo>, AllocError>
    ensures { IfOk result (λ made. map v.class made.items ≡ map alike.class (map v.class classes.now)) }
{
    let mut made = Vec::new(alloc);
    for one in classes {
        made.push(image_of_class(alloc, one)?)?;
    }
    Ok(made)
}

fn image_of_class(alloc: Global, class: &ClassInfo) -> Result<ClassInfo, AllocError>
    ensures { IfOk result (λ made. v.class made ≡ alike.class (v.class class.now)) }
{
    let bounds = try_clone_bounds(alloc, &class.bounds)?;
    let superclass = try_clone_option(alloc, &class.superclass)?;
    let interfaces = try_clone_types(alloc, &class.interfaces)?;
    let members = Vec::from_slice(alloc, &class.members)?;
    Ok(ClassInfo {
        name: class.name,
        library: class.library,
        place: line(class.place),
        bounds,
        superclass,
        interfaces,
        is_abstract: class.is_abstract,
        decl: class.decl,
        fields: class.fields,
        members,
        callable: class.callable,
    })
}

fn image_of_members(alloc: Global, members: &[MemberInfo]) -> Result<Vec<MemberInfo>, AllocError>
    ensures { IfOk result (λ made. map v.member made.items ≡ map alike.member (map v.member members.now)) }
{
    let mut made = Vec::new(alloc);
    for one in members {
        made.push(image_of_member(alloc, one)?)?;
    }
    Ok(made)
}

fn image_of_member(alloc: Global, member: &MemberInfo) -> Result<MemberInfo, AllocError>
    ensures { IfOk result (λ made. v.member made ≡ alike.member (v.member member.now)) }
{
    let signature = member.signature.try_clone(alloc)?;
    Ok(MemberInfo {
        name: member.name,
        role: member.role,
        owner: member.owner,
        function: member.function,
        signature,
        place: line(member.place),
        has_body: member.has_body,
    })
}

fn image_of_functions(alloc: Global, functions: &[Function]) -> Result<Vec<Function>, AllocError>
    ensures { IfOk result (λ made. map v.function made.items ≡ map alike.function (map v.function functions.now)) }
{
    let mut made = Vec::new(alloc);
    for one in functions {
        made.push(image_of_function(alloc, one)?)?;
    }
    Ok(made)
}

fn image_of_function(alloc: Global, function: &Function) -> Result<Function, AllocError>
    ensures { IfOk result (λ made. v.function made ≡ alike.function (v.function function.now)) }
{
    let parameters = Vec::from_slice(alloc, &function.parameters)?;
    let cells = Vec::from_slice(alloc, &function.cells)?;
    let captures = Vec::from_slice(alloc, &function.captures)?;
    let signature = function.signature.try_clone(alloc)?;
    let body = image_of_part(alloc, &function.body)?;
    Ok(Function {
        name: function.name,
        kind: function.kind,
        class: function.class,
        parameters,
        vars: function.vars,
        cells,
        captures,
        signature,
        body,
    })
}

fn image_of_statics(alloc: Global, statics: &[StaticVar]) -> Result<Vec<StaticVar>, AllocError>
    ensures { IfOk result (λ made. map v.static made.items ≡ map alike.static (map v.static statics.now)) }
{
    let mut made = Vec::new(alloc);
    for one in statics {
        made.push(image_of_static(alloc, one)?)?;
    }
    Ok(made)
}

fn image_of_static(alloc: Global, variable: &StaticVar) -> Result<StaticVar, AllocError>
    ensures { IfOk result (λ made. v.static made ≡ alike.static (v.static variable.now)) }
{
    let cells = Vec::from_slice(alloc, &variable.cells)?;
    let init = image_of_part(alloc, &variable.init)?;
    Ok(StaticVar {
        name: variable.name,
        vars: variable.vars,
        cells,
        init,
        is_final: variable.is_final,
    })
}

fn image_of_sites(alloc: Global, sites: &[Site]) -> Result<Vec<Site>, AllocError>
    ensures { IfOk result (λ made. map v.site made.items ≡ map alike.site (map v.site sites.now)) }
{
    let mut made = Vec::new(alloc);
    for one in sites {
        made.push(image_of_site(alloc, one)?)?;
    }
    Ok(made)
}

fn image_of_site(alloc: Global, site: &Site) -> Result<Site, AllocError>
    ensures { IfOk result (λ made. v.site made ≡ alike.site (v.site site.now)) }
{
    let required = try_clone_option(alloc, &site.required)?;
    Ok(Site {
        place: line(site.place),
        kind: site.kind,
        required,
        annotated: false,
    })
}
