// A table of classes for the tests, and types over it.
use dart_base::name::Name;
use dart_base::place::Place;
use dart_ir::class::{ClassInfo, Classes};
use dart_ir::number::ClassId;
use dart_ir::types::{FunctionType, NamedType, TypeRef, Types};
use std::alloc::{AllocError, Global};

pub const OBJECT: u32 = 0;

pub const FUNCTION: u32 = 1;

pub const NUM: u32 = 2;

pub const INT: u32 = 3;

pub const STRING: u32 = 4;

pub const ITERABLE: u32 = 5;

pub const LIST: u32 = 6;

const PAIR: u32 = 7;

pub const CALLER: u32 = 8;

pub const SUB_CALLER: u32 = 9;

pub const GROWING_BASE: u32 = 10;

pub const GROWING: u32 = 11;

pub const FIRST_FREE: u32 = 12;

// A class without type arguments.
pub fn plain(alloc: Global, c: u32) -> TypeRef {
    TypeRef::Class(ClassId(c), Vec::new(alloc))
}

// A class with one type argument.
pub fn of(alloc: Global, c: u32, t: TypeRef) -> Result<TypeRef, AllocError> {
    let mut args = Vec::new(alloc);
    args.push(t)?;
    Ok(TypeRef::Class(ClassId(c), args))
}

pub fn pair(alloc: Global, t: TypeRef, s: TypeRef) -> Result<TypeRef, AllocError> {
    let mut args = Vec::new(alloc);
    args.push(t)?;
    args.push(s)?;
    Ok(TypeRef::Class(ClassId(PAIR), args))
}

pub fn function(
    alloc: Global,
    returned: TypeRef,
    required: Types,
    optional: Types,
    named: Vec<NamedType>,
) -> Result<TypeRef, AllocError> {
    let f = FunctionType {
        result: returned,
        required,
        optional,
        named,
    };
    Ok(TypeRef::Function(Box::new(alloc, f)?))
}

// Parameters of type int, so many.
pub fn ints(alloc: Global, n: u32) -> Result<Types, AllocError> {
    let mut ts = Vec::new(alloc);
    for _ in 0..n {
        ts.push(plain(alloc, INT))?;
    }
    Ok(ts)
}

// A function type with a void result and one parameter.
pub fn taking(alloc: Global, t: TypeRef) -> Result<TypeRef, AllocError> {
    let mut required = Vec::new(alloc);
    required.push(t)?;
    function(
        alloc,
        TypeRef::Void,
        required,
        Vec::new(alloc),
        Vec::new(alloc),
    )
}

// A function type with a void result and named parameters of one type, with names from 0 on.
pub fn naming(alloc: Global, n: u32, c: u32) -> Result<TypeRef, AllocError> {
    let mut named = Vec::new(alloc);
    for x in 0..n {
        named.push(NamedType {
            name: Name(x),
            of: plain(alloc, c),
        })?;
    }
    function(
        alloc,
        TypeRef::Void,
        Vec::new(alloc),
        Vec::new(alloc),
        named,
    )
}

// Adds a class and gives its number.
pub fn add(
    alloc: Global,
    k: &mut Classes,
    parameters: u32,
    superclass: Option<TypeRef>,
    interfaces: Types,
    callable: bool,
) -> Result<u32, AllocError> {
    let mut bounds = Vec::new(alloc);
    for _ in 0..parameters {
        bounds.push(None)?;
    }
    let c = k.classes.len();
    k.classes.push(ClassInfo {
        name: Name(0),
        library: 0,
        place: Place {
            unit: 0,
            line: 1,
            column: 1,
        },
        bounds,
        superclass,
        interfaces,
        is_abstract: false,
        decl: None,
        fields: 0,
        members: Vec::new(alloc),
        callable,
    })?;
    if c < 1000 { Ok(c as u32) } else { Ok(0) }
}

// Adds a class without parameters that extends another.
pub fn extend(
    alloc: Global,
    k: &mut Classes,
    superclass: u32,
    callable: bool,
) -> Result<u32, AllocError> {
    add(
        alloc,
        k,
        0,
        Some(plain(alloc, superclass)),
        Vec::new(alloc),
        callable,
    )
}

// The classes named above.
pub fn prelude(alloc: Global) -> Result<Classes, AllocError> {
    let mut k = Classes {
        classes: Vec::new(alloc),
        members: Vec::new(alloc),
        function: ClassId(FUNCTION),
    };
    add(alloc, &mut k, 0, None, Vec::new(alloc), false)?;
    extend(alloc, &mut k, OBJECT, false)?;
    extend(alloc, &mut k, OBJECT, false)?;
    extend(alloc, &mut k, NUM, false)?;
    extend(alloc, &mut k, OBJECT, false)?;
    generic(alloc, &mut k)?;
    Ok(k)
}

fn generic(alloc: Global, k: &mut Classes) -> Result<(), AllocError> {
    add(
        alloc,
        k,
        1,
        Some(plain(alloc, OBJECT)),
        Vec::new(alloc),
        false,
    )?;
    let mut interfaces = Vec::new(alloc);
    interfaces.push(of(alloc, ITERABLE, TypeRef::Param(0))?)?;
    add(alloc, k, 1, Some(plain(alloc, OBJECT)), interfaces, false)?;
    add(
        alloc,
        k,
        2,
        Some(plain(alloc, OBJECT)),
        Vec::new(alloc),
        false,
    )?;
    extend(alloc, k, OBJECT, true)?;
    extend(alloc, k, CALLER, true)?;
    add(
        alloc,
        k,
        1,
        Some(plain(alloc, OBJECT)),
        Vec::new(alloc),
        false,
    )?;
    let inner = of(alloc, GROWING, of(alloc, GROWING, TypeRef::Param(0))?)?;
    add(
        alloc,
        k,
        1,
        Some(of(alloc, GROWING_BASE, inner)?),
        Vec::new(alloc),
        false,
    )?;
    Ok(())
}
