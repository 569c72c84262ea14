// Small programs, by hand.

use core_program::captured::captured;
use core_program::form::{Attempt, Core, Form, Handler, Leaf, Part, Test, Unary};
use core_program::program::{CoreProgram, Function, FunctionKind, Parameter, Site};
use core_program::strip::strip;
use dart_base::name::Name;
use dart_base::names::Names;
use dart_base::place::Place;
use dart_ir::class::Classes;
use dart_ir::kind::{Shape, SiteKind};
use dart_ir::number::{ClassId, DeclId, SiteId};
use dart_ir::types::{FunctionType, NamedType, TypeRef};
use dart_ir::value::Value;
use std::alloc::{AllocError, Global};
use std::test::Fail;

fn place(line: u32) -> Place {
    Place {
        unit: 0,
        line,
        column: 1,
    }
}

fn at(form: Form) -> Core {
    Core {
        place: place(1),
        form,
    }
}

fn leaf(leaf: Leaf) -> Core {
    at(Form::Leaf(leaf))
}

/// `var x = y;`
fn var(alloc: Global, x: u32, value: Core) -> Result<Core, AllocError> {
    Ok(at(Form::Unary(Unary::Var(x), Box::new(alloc, value)?)))
}

fn block(alloc: Global, first: Core, second: Core) -> Result<Core, AllocError> {
    let mut forms = Vec::new(alloc);
    forms.push(first)?;
    forms.push(second)?;
    Ok(at(Form::Block(forms)))
}

fn signature(alloc: Global) -> Result<FunctionType, AllocError> {
    let mut required = Vec::new(alloc);
    required.push(TypeRef::Class(ClassId(1), Vec::new(alloc)))?;
    let mut named = Vec::new(alloc);
    named.push(NamedType {
        name: Name(0),
        of: TypeRef::Class(ClassId(2), Vec::new(alloc)),
    })?;
    Ok(FunctionType {
        result: TypeRef::Void,
        required,
        optional: Vec::new(alloc),
        named,
    })
}

fn function(
    alloc: Global,
    kind: FunctionKind,
    captures: &[u32],
    body: Core,
) -> Result<Function, AllocError> {
    let mut parameters = Vec::new(alloc);
    if kind == FunctionKind::Plain {
        parameters.push(Parameter {
            var: 0,
            name: Name(0),
            shape: Shape::Required,
            default: Value::Null,
            site: SiteId(0),
        })?;
    }
    Ok(Function {
        name: Name(0),
        kind,
        class: None,
        parameters,
        vars: 5,
        cells: Vec::new(alloc),
        captures: Vec::from_slice(alloc, captures)?,
        signature: signature(alloc)?,
        body: Part::Given(Box::new(alloc, body)?),
    })
}

fn site(kind: SiteKind, required: Option<TypeRef>, annotated: bool) -> Site {
    Site {
        place: place(2),
        kind,
        required,
        annotated,
    }
}

fn program(alloc: Global, functions: Vec<Function>) -> Result<CoreProgram, AllocError> {
    let mut names = Names::new(alloc);
    names.intern("a")?;
    let mut sites = Vec::new(alloc);
    let of = TypeRef::Class(ClassId(1), Vec::new(alloc));
    sites.push(site(SiteKind::VarInit, Some(of), true))?;
    let of = TypeRef::Class(ClassId(2), Vec::new(alloc));
    sites.push(site(SiteKind::Element, Some(of), false))?;
    sites.push(site(SiteKind::Param, None, false))?;
    Ok(CoreProgram {
        names,
        units: Vec::new(alloc),
        classes: Classes {
            classes: Vec::new(alloc),
            members: Vec::new(alloc),
            function: ClassId(0),
        },
        functions,
        statics: Vec::new(alloc),
        sites,
        literals: Vec::new(alloc),
        constants: Vec::new(alloc),
        main: DeclId(0),
    })
}

/// `a(p) { var x; try {} catch (e) { var f = () { g() => p + e; }; } }`, in which p is variable 0, x 1, e 2, f 3
/// and g 4.
fn nested(alloc: Global) -> Result<CoreProgram, AllocError> {
    let handler = Handler {
        test: Test::Everything,
        exception: Some(2),
        trace: None,
        body: var(alloc, 3, leaf(Leaf::Closure(DeclId(1))))?,
    };
    let mut handlers = Vec::new(alloc);
    handlers.push(handler)?;
    let attempt = Attempt {
        body: at(Form::Block(Vec::new(alloc))),
        handlers,
        last: Part::Missing,
    };
    let caught = at(Form::Try(Box::new(alloc, attempt)?));
    let outer = block(
        alloc,
        var(alloc, 1, leaf(Leaf::Const(Value::Null)))?,
        caught,
    )?;
    let middle = var(alloc, 4, leaf(Leaf::Closure(DeclId(2))))?;
    let inner = block(alloc, leaf(Leaf::Read(0)), leaf(Leaf::Read(2)))?;
    let mut functions = Vec::new(alloc);
    functions.push(function(alloc, FunctionKind::Plain, &[], outer)?)?;
    functions.push(function(alloc, FunctionKind::Inner, &[0, 2], middle)?)?;
    functions.push(function(alloc, FunctionKind::Inner, &[0, 2], inner)?)?;
    program(alloc, functions)
}

// A function, a variable, whether a function inside names it, and which it is.
const VARIABLES: [(u32, u32, bool, &str); 7] = [
    (0, 0, true, "the parameter"),
    (0, 2, true, "what a handler caught"),
    (0, 1, false, "named nowhere"),
    (0, 3, false, "a local function that is not called"),
    (1, 0, false, "declared outside"),
    (1, 4, false, "named by no function inside"),
    (9, 0, false, "no function"),
];

// The calls that are tested, in functions that say nothing of their answers, so tests are cheap to prove.

fn is_captured(p: &CoreProgram, function: u32, variable: u32) -> bool {
    captured(p, DeclId(function), variable)
}

fn stripped(alloc: Global, p: &CoreProgram) -> Result<CoreProgram, AllocError> {
    strip(alloc, p)
}

#[test]
fn variables_named_inside(rt: HostRuntime) -> Result<(), Fail> {
    let p = nested(rt.alloc())?;
    for (function, variable, wanted, which) in VARIABLES {
        assert_eq!(rt; is_captured(&p, function, variable), wanted, "{which}");
    }
    Ok(())
}

// Whether each site asks for a type, and has an annotation.
const SITES: [(bool, bool); 3] = [(false, true), (true, false), (false, false)];

fn has_sites(p: &CoreProgram, wanted: &[(bool, bool)]) -> bool {
    p.sites.len() == wanted.len()
        && p.sites.iter().zip(wanted).all(|(site, (asks, annotated))| {
            site.required.is_some() == *asks && site.annotated == *annotated
        })
}

// Whether the first function's signature asks for nothing.
fn is_first_loose(p: &CoreProgram) -> bool {
    match p.functions.first() {
        Some(function) => is_loose(&function.signature),
        None => false,
    }
}

#[test]
fn annotations_ask_for_nothing(rt: HostRuntime) -> Result<(), Fail> {
    let p = nested(rt.alloc())?;
    let made = stripped(rt.alloc(), &p)?;
    assert_eq!(rt; made.names.count(), 1);
    assert!(rt; has_sites(&made, &SITES));
    assert_eq!(rt; made.functions.len(), 3);
    assert!(rt; is_first_loose(&made));
    assert!(rt; !is_first_loose(&p));
    assert!(rt; is_captured(&made, 0, 2));
    Ok(())
}

fn is_loose(signature: &FunctionType) -> bool {
    is_dynamic(&signature.result)
        && signature.required.iter().all(|one| is_dynamic(one))
        && signature.named.iter().all(|one| is_dynamic(&one.of))
}

fn is_dynamic(of: &TypeRef) -> bool {
    match of {
        TypeRef::Dynamic => true,
        _ => false,
    }
}
