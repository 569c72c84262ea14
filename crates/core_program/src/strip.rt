// A program without what annotations ask for.
ghost use Rattle.std.specs.Prelude.{◌≡◌, IfOk, map};
ghost use Rattle.dart_ir.specs.Ty.{ty, dynamic, function_ty, named_ty};
ghost use Rattle.core_program.specs.Loose.{loose_named};
ghost use Rattle.core_program.specs.ProgramView as v;
ghost use Rattle.core_program.specs.Stripped as stripped;
ghost use Rattle.core_program.specs.Valid.{IsValid};

use crate::program::{CoreProgram, Function, Site};
use crate::tables::{
    try_clone_classes, try_clone_literals, try_clone_objects, try_clone_option, try_clone_statics,
    try_clone_units,
};
use dart_ir::class::{Classes, MemberInfo};
use dart_ir::types::{FunctionType, NamedType, TypeRef, Types};
use std::alloc::{AllocError, Global};

/// The program in which a site with an annotation asks for nothing, and each type in a signature of a function or
/// member is `dynamic`. All else stays, the mark of the sites included.
#[tactic(auto, using(crate::proofs::Stays::strip_stays))]
pub fn strip(alloc: Global, p: &CoreProgram) -> Result<CoreProgram, AllocError>
    ensures names { IfOk result (λ made. made.names ≡ p.now.names) }
    ensures program { IfOk result (λ made. v.program made ≡ stripped.program (v.program p.now)) }
    ensures valid { IsValid p.now → IfOk result (λ made. IsValid made) }
{
    let made = stripped_program(alloc, p)?;
    Ok(made)
}

fn stripped_program(alloc: Global, p: &CoreProgram) -> Result<CoreProgram, AllocError>
    ensures names { IfOk result (λ made. made.names ≡ p.now.names) }
    ensures program { IfOk result (λ made. v.program made ≡ stripped.program (v.program p.now)) }
{
    let names = p.names.try_clone(alloc)?;
    let units = try_clone_units(alloc, &p.units)?;
    let classes = stripped_classes(alloc, &p.classes)?;
    let functions = stripped_functions(alloc, &p.functions)?;
    let statics = try_clone_statics(alloc, &p.statics)?;
    let sites = stripped_sites(alloc, &p.sites)?;
    let literals = try_clone_literals(alloc, &p.literals)?;
    let constants = try_clone_objects(alloc, &p.constants)?;
    Ok(CoreProgram {
        names,
        units,
        classes,
        functions,
        statics,
        sites,
        literals,
        constants,
        main: p.main,
    })
}

fn stripped_classes(alloc: Global, classes: &Classes) -> Result<Classes, AllocError>
    ensures classes { IfOk result (λ made. map v.class made.classes.items ≡ map v.class classes.now.classes.items) }
    ensures members { IfOk result (λ made. map v.member made.members.items ≡ map stripped.member (map v.member classes.now.members.items)) }
    ensures function { IfOk result (λ made. made.function ≡ classes.now.function) }
{
    Ok(Classes {
        classes: try_clone_classes(alloc, &classes.classes)?,
        members: stripped_members(alloc, &classes.members)?,
        function: classes.function,
    })
}

fn stripped_members(alloc: Global, members: &[MemberInfo]) -> Result<Vec<MemberInfo>, AllocError>
    ensures { IfOk result (λ made. map v.member made.items ≡ map stripped.member (map v.member members.now)) }
{
    let mut made = Vec::new(alloc);
    for one in members {
        made.push(stripped_member(alloc, one)?)?;
    }
    Ok(made)
}

fn stripped_member(alloc: Global, member: &MemberInfo) -> Result<MemberInfo, AllocError>
    ensures { IfOk result (λ made. v.member made ≡ stripped.member (v.member member.now)) }
{
    let signature = loose(alloc, &member.signature)?;
    Ok(MemberInfo {
        name: member.name,
        role: member.role,
        owner: member.owner,
        function: member.function,
        signature,
        place: member.place,
        has_body: member.has_body,
    })
}

fn stripped_functions(alloc: Global, functions: &[Function]) -> Result<Vec<Function>, AllocError>
    ensures { IfOk result (λ made. map v.function made.items ≡ map stripped.function (map v.function functions.now)) }
{
    let mut made = Vec::new(alloc);
    for one in functions {
        made.push(stripped_function(alloc, one)?)?;
    }
    Ok(made)
}

fn stripped_function(alloc: Global, function: &Function) -> Result<Function, AllocError>
    ensures { IfOk result (λ made. v.function made ≡ stripped.function (v.function function.now)) }
{
    let parameters = Vec::from_slice(alloc, &function.parameters)?;
    let cells = Vec::from_slice(alloc, &function.cells)?;
    let captures = Vec::from_slice(alloc, &function.captures)?;
    let signature = loose(alloc, &function.signature)?;
    let body = function.body.try_clone(alloc)?;
    Ok(Function {
        name: function.name,
        kind: function.kind,
        class: function.class,
        parameters,
        vars: function.vars,
        cells,
        captures,
        signature,
        body,
    })
}

fn stripped_sites(alloc: Global, sites: &[Site]) -> Result<Vec<Site>, AllocError>
    ensures { IfOk result (λ made. map v.site made.items ≡ map stripped.site (map v.site sites.now)) }
{
    let mut made = Vec::new(alloc);
    for one in sites {
        made.push(stripped_site(alloc, one)?)?;
    }
    Ok(made)
}

fn stripped_site(alloc: Global, site: &Site) -> Result<Site, AllocError>
    ensures { IfOk result (λ made. v.site made ≡ stripped.site (v.site site.now)) }
{
    let required = asked(alloc, site)?;
    Ok(Site {
        place: site.place,
        kind: site.kind,
        required,
        annotated: site.annotated,
    })
}

/// The type that the site asks for where no annotation wrote it.
fn asked(alloc: Global, site: &Site) -> Result<Option<TypeRef>, AllocError>
    ensures { IfOk result (λ made. v.ty_option made ≡ stripped.asked site.now.annotated (v.ty_option site.now.required)) }
{
    if site.annotated {
        return Ok(None);
    }
    try_clone_option(alloc, &site.required)
}

/// A signature of the same shape, in which every type is `dynamic`.
#[tactic(auto, using(dart_ir::proofs::View::views, crate::proofs::Loosened::loosened))]
fn loose(alloc: Global, signature: &FunctionType) -> Result<FunctionType, AllocError>
    ensures { IfOk result (λ made. function_ty made ≡ stripped.loose (function_ty signature.now)) }
{
    let required = dynamic_types(alloc, &signature.required)?;
    let optional = dynamic_types(alloc, &signature.optional)?;
    let named = dynamic_named_types(alloc, &signature.named)?;
    Ok(FunctionType {
        result: TypeRef::Dynamic,
        required,
        optional,
        named,
    })
}

/// As many types, all of them `dynamic`.
fn dynamic_types(alloc: Global, types: &[TypeRef]) -> Result<Types, AllocError>
    ensures { IfOk result (λ made. map ty made.items ≡ map (λ _. dynamic) (map ty types.now)) }
{
    let mut made = Vec::new(alloc);
    for _one in types {
        made.push(dynamic_type())?;
    }
    Ok(made)
}

#[tactic(auto, using(dart_ir::proofs::View::views))]
fn dynamic_type() -> TypeRef
    ensures { ty result ≡ dynamic }
{
    TypeRef::Dynamic
}

/// The same names, all of type `dynamic`.
fn dynamic_named_types(alloc: Global, named: &[NamedType]) -> Result<Vec<NamedType>, AllocError>
    ensures { IfOk result (λ made. map named_ty made.items ≡ map loose_named (map named_ty named.now)) }
{
    let mut made = Vec::new(alloc);
    for one in named {
        made.push(dynamic_named(one))?;
    }
    Ok(made)
}

#[tactic(auto, using(dart_ir::proofs::View::views))]
fn dynamic_named(named: &NamedType) -> NamedType
    ensures { named_ty result ≡ loose_named (named_ty named.now) }
{
    NamedType {
        name: named.name,
        of: TypeRef::Dynamic,
    }
}
