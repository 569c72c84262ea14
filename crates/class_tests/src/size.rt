// Programs with large types above their classes.
ghost use Rattle.std.specs.Prelude.{◌<◌};

use crate::declared::{OBJECT, place, program, system_class, user_class};
use crate::valid::is_program;
use class_fault::program::{Declaration, HeaderType, Program};
use class_size::build::{ClassFault, build};
use dart_base::place::Place;
use dart_ir::number::ClassId;
use dart_ir::types::TypeRef;
use std::alloc::{AllocError, Global};
use std::process::Abort;
use std::test::Fail;

// After Object and Function a class `P<A, B>`, and the classes of the test.
const PAIR: u32 = 2;

const FIRST: u32 = 3;

// The place of a type in the header of a class.
fn type_place(class: u32) -> Place {
    place(class, 17)
}

// Gives a class so many type parameters without bounds.
fn add_parameters(class: &mut Declaration, count: u32) -> Result<(), AllocError> {
    for _ in 0..count {
        class.bounds.push(None)?;
    }
    Ok(())
}

// A class of the user's with one type parameter.
fn generic_class(alloc: Global, class: u32) -> Result<Declaration, AllocError> {
    let mut made = user_class(alloc, class);
    add_parameters(&mut made, 1)?;
    Ok(made)
}

fn prelude(alloc: Global) -> Result<Program, AllocError> {
    let mut declarations = Vec::new(alloc);
    for class in 0..PAIR {
        declarations.push(system_class(alloc, class))?;
    }
    let mut pair = system_class(alloc, PAIR);
    add_parameters(&mut pair, 2)?;
    declarations.push(pair)?;
    Ok(program(declarations))
}

// A class of one type argument.
fn generic(alloc: Global, class: u32, arg: TypeRef) -> Result<HeaderType, AllocError> {
    let mut args = Vec::new(alloc);
    args.push(arg)?;
    Ok(HeaderType {
        place: type_place(class),
        of: TypeRef::Class(ClassId(class), args),
    })
}

fn pair(alloc: Global, first: TypeRef, second: TypeRef) -> Result<TypeRef, AllocError> {
    let mut args = Vec::new(alloc);
    args.push(first)?;
    args.push(second)?;
    Ok(TypeRef::Class(ClassId(PAIR), args))
}

// `P<T, T>`, or `P<P<P<P<T, Object>, Object>, Object>, Object>`, which has eight nodes beside T.
fn argument(alloc: Global, doubled: bool) -> Result<TypeRef, AllocError> {
    if doubled {
        return pair(alloc, TypeRef::Param(0), TypeRef::Param(0));
    }
    let mut of = TypeRef::Param(0);
    for _ in 0..4 {
        let object = TypeRef::Class(ClassId(OBJECT), Vec::new(alloc));
        of = pair(alloc, of, object)?;
    }
    Ok(of)
}

// `class C3<T> {}`, and then so many classes, each `class C5<T> extends C4<..>`.
fn tower(alloc: Global, height: u32, doubled: bool) -> Result<Program, AllocError>
    requires { height < 1000 }
{
    let mut program = prelude(alloc)?;
    program.declarations.push(generic_class(alloc, FIRST)?)?;
    for class in FIRST + 1..FIRST + 1 + height {
        let mut next = generic_class(alloc, class)?;
        next.superclass = Some(generic(alloc, class - 1, argument(alloc, doubled)?)?);
        program.declarations.push(next)?;
    }
    Ok(program)
}

// Why a program has no table, or none. No contract says what it is, so tests are cheap to prove.
fn fault_of(
    rt: &impl Abort,
    alloc: Global,
    program: &Program,
) -> Result<Option<ClassFault>, ClassFault> {
    assert!(rt; is_program(program));
    match build(alloc, program) {
        Ok(_) => Ok(None),
        Err(ClassFault::Memory) => Err(ClassFault::Memory),
        Err(fault) => Ok(Some(fault)),
    }
}

// `C3<T>` below a tower whose types double has 2^(n+1) nodes where the tower is n high: 256 at seven classes. So it is
// the eighth that is refused, at the type in its header.
#[test]
fn doubled(rt: HostRuntime) -> Result<(), Fail> {
    let alloc = rt.alloc();
    let seven = tower(alloc, 7, true)?;
    assert_eq!(rt; fault_of(&rt, alloc, &seven)?, None);
    let ten = tower(alloc, 10, true)?;
    let due = ClassFault::TypesTooLarge(type_place(FIRST + 7));
    assert_eq!(rt; fault_of(&rt, alloc, &ten)?, Some(due));
    Ok(())
}

// In a tower whose types only grow by eight nodes at each class the bound of a class is soon past 256, and the types
// above it are climbed. Of n classes the highest type has 8n + 2 nodes.
#[test]
fn grown(rt: HostRuntime) -> Result<(), Fail> {
    let alloc = rt.alloc();
    let low = tower(alloc, 31, false)?;
    assert_eq!(rt; fault_of(&rt, alloc, &low)?, None);
    let high = tower(alloc, 32, false)?;
    let due = ClassFault::TypesTooLarge(type_place(FIRST + 31));
    assert_eq!(rt; fault_of(&rt, alloc, &high)?, Some(due));
    Ok(())
}

// A ladder of thirty diamonds: `class C5<T> extends C3<T> implements C4<T>`, and so on.
fn diamonds(alloc: Global) -> Result<Program, AllocError> {
    let mut program = prelude(alloc)?;
    program.declarations.push(generic_class(alloc, FIRST)?)?;
    program.declarations.push(generic_class(alloc, FIRST + 1)?)?;
    for class in FIRST + 2..FIRST + 62 {
        let mut next = generic_class(alloc, class)?;
        next.superclass = Some(generic(alloc, class - 2, TypeRef::Param(0))?);
        next.interfaces
            .push(generic(alloc, class - 1, TypeRef::Param(0))?)?;
        program.declarations.push(next)?;
    }
    Ok(program)
}

#[test]
fn ladder(rt: HostRuntime) -> Result<(), Fail> {
    let alloc = rt.alloc();
    let program = diamonds(alloc)?;
    assert_eq!(rt; fault_of(&rt, alloc, &program)?, None);
    Ok(())
}

// The other reasons come first, and stand where the table has them.
#[test]
fn other_reasons_first(rt: HostRuntime) -> Result<(), Fail> {
    let alloc = rt.alloc();
    let mut program = tower(alloc, 10, true)?;
    let mut last = user_class(alloc, FIRST + 11);
    last.superclass = Some(HeaderType {
        place: type_place(70),
        of: TypeRef::Dynamic,
    });
    program.declarations.push(last)?;
    let due = ClassFault::BadSuper(type_place(70));
    assert_eq!(rt; fault_of(&rt, alloc, &program)?, Some(due));
    Ok(())
}
