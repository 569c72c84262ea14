// The namespaces of small programs. Names are numbers here, those from 900 on private.
use dart_base::name::Name;
use dart_base::names::Names;
use scope_space::bound::{Binding, Bound};
use scope_space::combinator::Combinator;
use scope_space::declaration::{Declaration, Kind};
use scope_space::entry::main_of;
use scope_space::library::{Export, Import, Library};
use scope_space::spaces::Spaces;
use scope_space::table::Table;
use std::alloc::{AllocError, Global};
use std::process::Abort;
use std::test::Fail;

const PRIVATE: u32 = 900;

fn library(alloc: Global, is_dart: bool, names: &[u32]) -> Result<Library, AllocError> {
    let mut declarations = Vec::new(alloc);
    for name in names {
        declarations.push(declaration(Name(*name), *name, Kind::Variable))?;
    }
    declaring(alloc, is_dart, declarations)
}

fn declaration(name: Name, number: u32, kind: Kind) -> Declaration {
    Declaration {
        name,
        number,
        kind,
        is_private: name.0 >= PRIVATE,
    }
}

// A library without imports or exports.
fn declaring(
    alloc: Global,
    is_dart: bool,
    declarations: Vec<Declaration>,
) -> Result<Library, AllocError> {
    Ok(Library {
        is_dart,
        declarations: Table::new(declarations)?,
        imports: Vec::new(alloc),
        exports: Vec::new(alloc),
    })
}

fn names(alloc: Global, numbers: &[u32]) -> Result<Table<Name>, AllocError> {
    let mut names = Vec::new(alloc);
    for number in numbers {
        names.push(Name(*number))?;
    }
    Table::new(names)
}

fn import(
    alloc: Global,
    library: &mut Library,
    target: u32,
    prefix: Option<Name>,
) -> Result<(), AllocError> {
    let combinators = Vec::new(alloc);
    library.imports.push(Import {
        target,
        prefix,
        combinators,
    })?;
    Ok(())
}

fn export(alloc: Global, library: &mut Library, target: u32) -> Result<(), AllocError> {
    let combinators = Vec::new(alloc);
    library.exports.push(Export {
        target,
        combinators,
    })?;
    Ok(())
}

fn spaces(rt: &impl Abort, alloc: Global, libraries: Vec<Library>) -> Result<Spaces, AllocError> {
    assert!(rt; libraries.len() < 100);
    Spaces::new(alloc, libraries)
}

// Each name is bound as given by the imports of library 0 without a prefix.
fn imports_give(rt: &impl Abort, spaces: &Spaces, expected: &[(u32, Bound)]) {
    assert!(rt; !spaces.libraries().is_empty());
    for (name, bound) in expected {
        assert_eq!(rt; spaces.imported(0, Name(*name)), *bound, "at {name}");
    }
}

// Each name is bound as given under the prefix in library 0.
fn prefix_gives(rt: &impl Abort, spaces: &Spaces, expected: &[(u32, u32, Bound)]) {
    assert!(rt; !spaces.libraries().is_empty());
    for (prefix, name, bound) in expected {
        assert_eq!(rt;
            spaces.prefixed(0, Name(*prefix), Name(*name)),
            *bound,
            "at {prefix}.{name}"
        );
    }
}

// Each name means what is given in library 0.
fn names_mean(rt: &impl Abort, spaces: &Spaces, expected: &[(u32, Binding)]) {
    assert!(rt; !spaces.libraries().is_empty());
    for (name, binding) in expected {
        assert_eq!(rt; spaces.binding(0, Name(*name)), *binding, "at {name}");
    }
}

#[test]
fn exports_in_a_circle(rt: HostRuntime) -> Result<(), Fail> {
    let alloc = rt.alloc();
    let mut libraries = Vec::new(alloc);
    let mut root = library(alloc, false, &[1])?;
    import(alloc, &mut root, 1, None)?;
    libraries.push(root)?;
    for (name, next) in [(10, 2), (20, 3), (30, 1)] {
        let mut one = library(alloc, false, &[name, 7])?;
        export(alloc, &mut one, next)?;
        libraries.push(one)?;
    }
    let spaces = spaces(&rt, alloc, libraries)?;
    // Each library has a 7 of its own, which wins over those of the others.
    let expected = [
        (10, Bound::Given(1)),
        (20, Bound::Given(2)),
        (30, Bound::Given(3)),
        (7, Bound::Given(1)),
        (1, Bound::Unknown),
    ];
    imports_give(&rt, &spaces, &expected);
    Ok(())
}

#[test]
fn combinators(rt: HostRuntime) -> Result<(), Fail> {
    let alloc = rt.alloc();
    let mut root = library(alloc, false, &[])?;
    let mut both = Vec::new(alloc);
    both.push(Combinator::Show(names(alloc, &[3, 2])?))?;
    both.push(Combinator::Hide(names(alloc, &[3, 4])?))?;
    root.imports.push(Import {
        target: 1,
        prefix: None,
        combinators: both,
    })?;
    let mut libraries = Vec::new(alloc);
    libraries.push(root)?;
    libraries.push(library(alloc, false, &[4, 3, 2, 1])?)?;
    let spaces = spaces(&rt, alloc, libraries)?;
    let expected = [
        (1, Bound::Unknown),
        (2, Bound::Given(1)),
        (3, Bound::Unknown),
        (4, Bound::Unknown),
    ];
    imports_give(&rt, &spaces, &expected);
    Ok(())
}

// Library 0 imports 1 to 4, the last two of `dart:`, and 5, which exports 1. 3 stands under the prefix 50 too.
fn program(alloc: Global) -> Result<Vec<Library>, AllocError> {
    let mut root = library(alloc, false, &[60])?;
    for target in 1..6 {
        import(alloc, &mut root, target, None)?;
    }
    import(alloc, &mut root, 3, Some(Name(50)))?;
    import(alloc, &mut root, 1, Some(Name(60)))?;
    let mut again = library(alloc, false, &[])?;
    export(alloc, &mut again, 1)?;
    let mut libraries = Vec::new(alloc);
    libraries.push(root)?;
    libraries.push(library(alloc, false, &[1, 2, 3, 60, 901])?)?;
    libraries.push(library(alloc, false, &[2, 5])?)?;
    libraries.push(library(alloc, true, &[1, 2, 4, 6])?)?;
    libraries.push(library(alloc, true, &[4])?)?;
    libraries.push(again)?;
    Ok(libraries)
}

#[test]
fn several_imports(rt: HostRuntime) -> Result<(), Fail> {
    let alloc = rt.alloc();
    let spaces = spaces(&rt, alloc, program(alloc)?)?;
    let expected = [
        // over `dart:`, two files, one file by two ways, two of `dart:`, `dart:` alone, private
        (1, Bound::Given(1)),
        (2, Bound::Ambiguous),
        (3, Bound::Given(1)),
        (4, Bound::Ambiguous),
        (6, Bound::Given(3)),
        (901, Bound::Unknown),
    ];
    imports_give(&rt, &spaces, &expected);
    let expected = [
        (50, 2, Bound::Given(3)),
        (50, 3, Bound::Unknown),
        (51, 2, Bound::Unknown),
    ];
    prefix_gives(&rt, &spaces, &expected);
    // 60 is a name and a prefix.
    let expected = [
        (60, Binding::Own),
        (50, Binding::Prefix),
        (5, Binding::Imported(Bound::Given(2))),
        (70, Binding::Imported(Bound::Unknown)),
    ];
    names_mean(&rt, &spaces, &expected);
    Ok(())
}

#[test]
fn many_names(rt: HostRuntime) -> Result<(), Fail> {
    let alloc = rt.alloc();
    let mut root = library(alloc, false, &[])?;
    import(alloc, &mut root, 2, None)?;
    let mut again = library(alloc, false, &[])?;
    export(alloc, &mut again, 1)?;
    let mut declarations = Vec::new(alloc);
    for number in 0..10_000 {
        declarations.push(Declaration {
            name: Name(2 * (9_999 - number)),
            number,
            kind: Kind::Class,
            is_private: false,
        })?;
    }
    let mut libraries = Vec::new(alloc);
    libraries.push(root)?;
    libraries.push(declaring(alloc, false, declarations)?)?;
    libraries.push(again)?;
    let spaces = spaces(&rt, alloc, libraries)?;
    for number in 0..10_000 {
        let expected = [
            (2 * number, Bound::Given(1)),
            (2 * number + 1, Bound::Unknown),
        ];
        imports_give(&rt, &spaces, &expected);
    }
    Ok(())
}

#[test]
fn accessors_and_near_names(rt: HostRuntime) -> Result<(), Fail> {
    let alloc = rt.alloc();
    let mut texts = Names::new(alloc);
    assert!(rt; texts.count() == 0);
    let first = texts.intern("value1")?;
    assert!(rt; texts.count() < 10);
    let second = texts.intern("value2")?;
    let mut declarations = Vec::new(alloc);
    for (name, number, kind) in [
        (second, 0, Kind::Setter),
        (first, 1, Kind::Getter),
        (second, 2, Kind::Getter),
    ] {
        declarations.push(declaration(name, number, kind))?;
    }
    let mut libraries = Vec::new(alloc);
    libraries.push(declaring(alloc, false, declarations)?)?;
    let spaces = spaces(&rt, alloc, libraries)?;
    assert!(rt; !spaces.libraries().is_empty());
    let ones = spaces.own(0, first);
    assert!(rt; ones.len() == 1);
    assert_eq!(rt; ones[0].number, 1);
    let twos = spaces.own(0, second);
    assert!(rt; twos.len() == 2);
    assert_eq!(rt; (twos[0].number, twos[1].number), (0, 2));
    Ok(())
}

#[test]
fn starts(rt: HostRuntime) -> Result<(), Fail> {
    let alloc = rt.alloc();
    for (required, found) in [(0, Some(9)), (1, Some(9)), (2, None)] {
        let mut declarations = Vec::new(alloc);
        for (number, kind) in [(8, Kind::Getter), (9, Kind::Function { required })] {
            declarations.push(declaration(Name(3), number, kind))?;
        }
        let root = declaring(alloc, false, declarations)?;
        assert_eq!(rt; main_of(&root, Name(3)), found);
        assert_eq!(rt; main_of(&root, Name(4)), None);
    }
    Ok(())
}
