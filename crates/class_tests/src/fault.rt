// The first reason of worked headers.

use crate::declared::{FUNCTION, OBJECT, named, place, program, system_class, user_class};
use crate::valid::{are_listed, have_roots};
use class_fault::fault::{Fault, HeaderFault, Reason, checked_order};
use class_fault::graph::graph;
use class_fault::program::{HeaderType, Program};
use dart_ir::types::TypeRef;
use std::alloc::{AllocError, Global};
use std::process::Abort;
use std::test::Fail;

// `int`.
const WHOLE: u32 = 2;

// A class of a library of the system that has external members.
const PORT: u32 = 3;

// The first class of the user's.
const FIRST: u32 = 4;

// The prelude's classes.
fn prelude(alloc: Global) -> Result<Program, AllocError> {
    let mut declarations = Vec::new(alloc);
    for class in 0..FIRST {
        let mut of_system = system_class(alloc, class);
        of_system.standing.is_basic = class == WHOLE;
        of_system.standing.has_external = class != FUNCTION;
        declarations.push(of_system)?;
    }
    Ok(program(declarations))
}

// The first fault of a program, or none.
fn fault_of(
    rt: &impl Abort,
    alloc: Global,
    program: &Program,
) -> Result<Option<Fault>, AllocError> {
    let headers = graph(alloc, program)?;
    assert!(rt; are_listed(&headers));
    assert!(rt; have_roots(program, &headers));
    match checked_order(alloc, program, &headers) {
        Ok(_) => Ok(None),
        Err(HeaderFault::Refused(fault)) => Ok(Some(fault)),
        Err(HeaderFault::Memory) => Err(AllocError),
    }
}

// The fault of a program with one class of the user's that at column 1 extends, at 2 mixes in or at 3 implements another one.
fn fault_naming(
    rt: &impl Abort,
    alloc: Global,
    class: u32,
    column: u32,
) -> Result<Option<Fault>, AllocError> {
    let mut program = prelude(alloc)?;
    let mut first = user_class(alloc, FIRST);
    let t = named(alloc, class, place(FIRST, column));
    match column {
        1 => {
            first.superclass = Some(t);
        }
        2 => first.mixins.push(t)?,
        _ => first.interfaces.push(t)?,
    }
    program.declarations.push(first)?;
    fault_of(rt, alloc, &program)
}

// A class, the clause that names it, and whether it is refused there.
const NAMED: [(u32, u32, bool); 9] = [
    (OBJECT, 1, false),
    (OBJECT, 3, false),
    (FUNCTION, 1, false),
    (WHOLE, 1, true),
    (WHOLE, 2, true),
    (WHOLE, 3, true),
    (PORT, 1, true),
    (PORT, 2, true),
    (PORT, 3, false),
];

#[test]
fn forbidden_classes(rt: HostRuntime) -> Result<(), Fail> {
    let alloc = rt.alloc();
    for (class, column, refused) in NAMED {
        let due = Fault {
            place: place(FIRST, column),
            reason: Reason::BadSuper,
        };
        let fault = fault_naming(&rt, alloc, class, column)?;
        assert_eq!(rt;
            fault,
            if refused { Some(due) } else { None },
            "{class} at {column}"
        );
    }
    Ok(())
}

#[test]
fn no_class(rt: HostRuntime) -> Result<(), Fail> {
    let alloc = rt.alloc();
    let mut program = prelude(alloc)?;
    let mut first = user_class(alloc, FIRST);
    first.interfaces.push(HeaderType {
        place: place(FIRST, 20),
        of: TypeRef::Dynamic,
    })?;
    program.declarations.push(first)?;
    let due = Fault {
        place: place(FIRST, 20),
        reason: Reason::BadSuper,
    };
    assert_eq!(rt; fault_of(&rt, alloc, &program)?, Some(due));
    Ok(())
}

// Two classes, the first of which is mixed into the second.
fn mixing(
    rt: &impl Abort,
    alloc: Global,
    has_constructor: bool,
    is_application: bool,
) -> Result<Option<Fault>, AllocError> {
    let mut program = prelude(alloc)?;
    let mut mixin = user_class(alloc, FIRST);
    mixin.standing.has_constructor = has_constructor;
    program.declarations.push(mixin)?;
    let mut second = user_class(alloc, FIRST + 1);
    second.is_application = is_application;
    second.superclass = Some(named(alloc, OBJECT, place(FIRST + 1, 15)));
    second
        .mixins
        .push(named(alloc, FIRST, place(FIRST + 1, 20)))?;
    program.declarations.push(second)?;
    let mut third = user_class(alloc, FIRST + 2);
    third
        .mixins
        .push(named(alloc, FIRST + 1, place(FIRST + 2, 20)))?;
    program.declarations.push(third)?;
    fault_of(rt, alloc, &program)
}

#[test]
fn mixins(rt: HostRuntime) -> Result<(), Fail> {
    let alloc = rt.alloc();
    assert_eq!(rt; mixing(&rt, alloc, false, true)?, None);
    let at_second = Fault {
        place: place(FIRST + 1, 20),
        reason: Reason::BadMixin,
    };
    assert_eq!(rt; mixing(&rt, alloc, true, true)?, Some(at_second));
    let at_third = Fault {
        place: place(FIRST + 2, 20),
        reason: Reason::BadMixin,
    };
    assert_eq!(rt; mixing(&rt, alloc, false, false)?, Some(at_third));
    Ok(())
}

// The second class is mixed into the first, which the third extends and the second implements: the first fault is that of
// the first class, and the third has none.
#[test]
fn cycle_through_a_mixin(rt: HostRuntime) -> Result<(), Fail> {
    let alloc = rt.alloc();
    let mut program = prelude(alloc)?;
    let mut third = user_class(alloc, FIRST);
    third.superclass = Some(named(alloc, FIRST + 1, place(FIRST, 15)));
    program.declarations.push(third)?;
    let mut first = user_class(alloc, FIRST + 1);
    first
        .mixins
        .push(named(alloc, FIRST + 2, place(FIRST + 1, 20)))?;
    program.declarations.push(first)?;
    let mut second = user_class(alloc, FIRST + 2);
    second
        .interfaces
        .push(named(alloc, FIRST + 1, place(FIRST + 2, 25)))?;
    program.declarations.push(second)?;
    let due = Fault {
        place: place(FIRST + 1, 20),
        reason: Reason::CyclicClasses,
    };
    assert_eq!(rt; fault_of(&rt, alloc, &program)?, Some(due));
    Ok(())
}

#[test]
fn chain_of_a_thousand(rt: HostRuntime) -> Result<(), Fail> {
    let alloc = rt.alloc();
    let mut program = prelude(alloc)?;
    for class in FIRST..FIRST + 1000 {
        let mut one = user_class(alloc, class);
        one.superclass = Some(named(alloc, class + 1, place(class, 15)));
        program.declarations.push(one)?;
    }
    program.declarations.push(user_class(alloc, FIRST + 1000))?;
    assert_eq!(rt; fault_of(&rt, alloc, &program)?, None);
    Ok(())
}
