// Tables of worked programs.

use crate::declared::{CALL, named, place, program, system_class, user_class};
use crate::valid::is_program;
use class_fault::fault::HeaderFault;
use class_fault::program::{Member, Program};
use class_table::build::build;
use dart_base::name::Name;
use dart_ir::class::{Classes, Role};
use dart_ir::number::{ClassId, DeclId};
use dart_ir::types::{FunctionType, TypeRef};
use std::alloc::{AllocError, Global};
use std::process::Abort;
use std::test::Fail;

const FIRST: u32 = 2;

fn prelude(alloc: Global) -> Result<Program, AllocError> {
    let mut declarations = Vec::new(alloc);
    for class in 0..FIRST {
        declarations.push(system_class(alloc, class))?;
    }
    Ok(program(declarations))
}

// `class C extends S with M, N implements I`, before its mixins in source order; M has a method `call`.
fn worked(alloc: Global) -> Result<Program, AllocError> {
    let mut program = prelude(alloc)?;
    let mut c = user_class(alloc, 2);
    c.superclass = Some(named(alloc, 3, place(2, 10)));
    c.mixins.push(named(alloc, 4, place(2, 20)))?;
    c.mixins.push(named(alloc, 5, place(2, 30)))?;
    c.interfaces.push(named(alloc, 6, place(2, 40)))?;
    c.fields = 1;
    program.declarations.push(c)?;
    let mut s = user_class(alloc, 3);
    s.fields = 2;
    program.declarations.push(s)?;
    let mut m = user_class(alloc, 4);
    m.fields = 4;
    m.members.push(Member {
        name: Name(CALL),
        role: Role::Method,
        function: DeclId(50),
        signature: FunctionType {
            result: TypeRef::Dynamic,
            required: Vec::new(alloc),
            optional: Vec::new(alloc),
            named: Vec::new(alloc),
        },
        place: place(4, 9),
        has_body: true,
    })?;
    program.declarations.push(m)?;
    let mut n = user_class(alloc, 5);
    n.superclass = Some(named(alloc, 0, place(5, 10)));
    n.is_application = true;
    n.mixins.push(named(alloc, 6, place(5, 20)))?;
    program.declarations.push(n)?;
    let mut i = user_class(alloc, 6);
    i.fields = 8;
    program.declarations.push(i)?;
    Ok(program)
}

// Of each row of its table the name, the fields, whether it is callable and abstract, and how many interfaces it has.
const ROWS: [(usize, u32, u32, bool, bool, usize); 9] = [
    (0, 0, 0, false, false, 0),
    (1, 1, 0, false, false, 0),
    (2, 3, 2, false, false, 0),
    (3, 4, 4, true, false, 0),
    (4, 6, 8, false, false, 0),
    (5, 5, 8, false, false, 1),
    (6, 2, 6, true, true, 1),
    (7, 2, 14, true, true, 1),
    (8, 2, 15, true, false, 1),
];

// The table of a program. No contract says what it is, so tests are cheap to prove.
fn table_of(rt: &impl Abort, alloc: Global, program: &Program) -> Result<Classes, HeaderFault> {
    assert!(rt; is_program(program));
    build(alloc, program)
}

#[test]
fn rows_of_mixins(rt: HostRuntime) -> Result<(), Fail> {
    let alloc = rt.alloc();
    let k = table_of(&rt, alloc, &worked(alloc)?)?;
    assert_eq!(rt; k.classes.len(), 9);
    assert_eq!(rt; k.function, ClassId(1));
    for (row, name, fields, callable, is_abstract, interfaces) in ROWS {
        assert!(rt; row < k.classes.len());
        let info = &k.classes[row];
        assert_eq!(rt; info.name, Name(name), "at {row}");
        assert_eq!(rt; info.fields, fields, "at {row}");
        assert_eq!(rt; info.callable, callable, "at {row}");
        assert_eq!(rt; info.is_abstract, is_abstract, "at {row}");
        assert_eq!(rt; info.interfaces.len(), interfaces, "at {row}");
    }
    Ok(())
}

// The owner of each member.
const OWNERS: [(usize, u32); 2] = [(0, 3), (1, 6)];

// How many members a row has.
const COUNTS: [(usize, usize); 5] = [(2, 0), (3, 1), (6, 1), (7, 0), (8, 0)];

#[test]
fn members_of_mixins(rt: HostRuntime) -> Result<(), Fail> {
    let alloc = rt.alloc();
    let k = table_of(&rt, alloc, &worked(alloc)?)?;
    assert_eq!(rt; k.members.len(), 2);
    check_owners(&rt, &k);
    for (row, count) in COUNTS {
        assert!(rt; row < k.classes.len());
        assert_eq!(rt; k.classes[row].members.len(), count, "at {row}");
    }
    Ok(())
}

// Compares the owner of each member, and its function.
fn check_owners(rt: &impl Abort, k: &Classes) {
    for (member, owner) in OWNERS {
        assert!(rt; member < k.members.len());
        let info = &k.members[member];
        assert_eq!(rt; info.owner, ClassId(owner), "at {member}");
        assert_eq!(rt; info.function, DeclId(50), "at {member}");
    }
}

// A class with a thousand mixins, and these mixins, each with a field.
fn with_thousand_mixins(alloc: Global) -> Result<Program, AllocError> {
    let mut program = prelude(alloc)?;
    let mut c = user_class(alloc, 2);
    for m in 3..1003u32 {
        c.mixins.push(named(alloc, m, place(2, m)))?;
    }
    program.declarations.push(c)?;
    for m in 3..1003u32 {
        let mut mixin = user_class(alloc, m);
        mixin.fields = 1;
        program.declarations.push(mixin)?;
    }
    Ok(program)
}

#[test]
fn thousand_mixins(rt: HostRuntime) -> Result<(), Fail> {
    let alloc = rt.alloc();
    let k = table_of(&rt, alloc, &with_thousand_mixins(alloc)?)?;
    assert_eq!(rt; k.classes.len(), 2003);
    assert_eq!(rt; k.classes[2002].fields, 1000);
    assert_eq!(rt; k.classes[2002].name, Name(2));
    Ok(())
}
