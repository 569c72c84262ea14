// Whether headers and programs of the tests are what the calls ask for.
ghost use Rattle.std.specs.Prelude.{◌≡◌, ◌<◌, ◌∷◌, ℕ, [], All, Some, None, IsTrue, length, slice_index};
ghost use Rattle.dart_ir.specs.Ty.{ty, tys, function_ty, named_ty, named_tys};
ghost use Rattle.dart_ir.specs.Classes.{IsPlain, ArePlain};
ghost use Rattle.class_order.specs.Order.{AreListed, above};
ghost use Rattle.class_fault.specs.Graph.{IsGraph, HasRoots};
ghost use Rattle.class_fault.specs.Program.{declaration_at};
ghost use Rattle.class_fault.specs.declared.program.Declaration.{Declaration};
ghost use Rattle.class_table.specs.Program.{IsProgram, IsDeclaration, IsRoot, IsHeaderTy, IsHeaderType, IsSuperclass, IsFormedIn, AreFormedIn, AreNamedFormedIn, IsBoundFormedIn, parameters_in};

use class_fault::graph::declares_call;
use class_fault::program::{Declaration, HeaderType, Member, Program};
use class_order::header::Header;
use dart_ir::types::{FunctionType, NamedType, TypeRef};

/// Whether each class that a header names is listed.
pub fn are_listed(headers: &[Header]) -> bool
    ensures { IsTrue result → AreListed headers.now }
{
    for header in headers {
        if !are_below(&header.above, headers.len()) {
            return false;
        }
    }
    true
}

fn are_below(classes: &[usize], count: usize) -> bool
    ensures { IsTrue result → (k : ℕ) → k < length classes.now → slice_index classes.now k < count }
{
    for class in classes {
        if *class >= count {
            return false;
        }
    }
    true
}

/// Whether `Object` names no class, and `Function` names `Object` alone.
pub fn have_roots(program: &Program, headers: &[Header]) -> bool
    requires { IsGraph program.now headers.now }
    ensures { IsTrue result → HasRoots program.now }
{
    if !names_none(headers, program.object) {
        return false;
    }
    names_one(headers, program.function, program.object)
}

fn names_none(headers: &[Header], class: usize) -> bool
    ensures { IsTrue result → above headers.now class ≡ [] }
{
    if class >= headers.len() {
        return false;
    }
    headers[class].above.is_empty()
}

fn names_one(headers: &[Header], class: usize, named: usize) -> bool
    ensures { IsTrue result → above headers.now class ≡ named ∷ [] }
{
    if class >= headers.len() {
        return false;
    }
    match headers[class].above.as_slice() {
        [one] => *one == named,
        _ => false,
    }
}

/// Whether the classes in a type are declared, have as many arguments as parameters, and its parameters are below n.
#[cycle(forming)]
#[tactic(auto, using(dart_ir::proofs::View::views))]
fn is_formed(p: &Program, n: usize, t: &TypeRef) -> bool
    ensures { IsTrue result → IsFormedIn p.now n (ty t.now) }
{
    match t {
        TypeRef::Dynamic => true,
        TypeRef::Bottom => true,
        TypeRef::Void => true,
        TypeRef::Class(c, ts) => has_parameters(p, c.0, ts.len()) && are_formed(p, n, ts),
        TypeRef::Param(i) => (*i as usize) < n,
        TypeRef::Function(f) => is_function_formed(p, n, f),
    }
}

#[cycle(forming)]
#[tactic(auto, using(dart_ir::proofs::View::views))]
fn are_formed(p: &Program, n: usize, ts: &[TypeRef]) -> bool
    ensures { IsTrue result → AreFormedIn p.now n (tys ts.now) }
{
    for t in ts {
        if !is_formed(p, n, t) {
            return false;
        }
    }
    true
}

#[cycle(forming)]
#[tactic(auto, using(dart_ir::proofs::View::views))]
fn is_function_formed(p: &Program, n: usize, f: &FunctionType) -> bool
    ensures { IsTrue result → IsFormedIn p.now n (function_ty f.now) }
{
    is_formed(p, n, &f.result)
        && are_formed(p, n, &f.required)
        && are_formed(p, n, &f.optional)
        && are_named_formed(p, n, &f.named)
}

#[cycle(forming)]
#[tactic(auto, using(dart_ir::proofs::View::views))]
fn are_named_formed(p: &Program, n: usize, ns: &[NamedType]) -> bool
    ensures { IsTrue result → AreNamedFormedIn p.now n (named_tys ns.now) }
{
    for m in ns {
        if !is_named_formed(p, n, m) {
            return false;
        }
    }
    true
}

#[cycle(forming)]
#[tactic(auto, using(dart_ir::proofs::View::views))]
fn is_named_formed(p: &Program, n: usize, m: &NamedType) -> bool
    ensures { IsTrue result → IsFormedIn p.now n (named_ty m.now).1 }
{
    is_formed(p, n, &m.of)
}

/// Whether a class is declared with so many parameters.
fn has_parameters(p: &Program, c: u32, n: usize) -> bool
    ensures { IsTrue result → (c < length p.now.declarations.items)
        × (n ≡ parameters_in (declaration_at p.now c)) }
{
    match p.declarations.get(c as usize) {
        None => false,
        Some(info) => info.bounds.len() == n,
    }
}

/// Whether no function type stands in a type.
#[cycle(plain)]
#[tactic(auto, using(dart_ir::proofs::View::views))]
fn is_plain(t: &TypeRef) -> bool
    ensures { IsTrue result → IsPlain (ty t.now) }
{
    match t {
        TypeRef::Dynamic => true,
        TypeRef::Bottom => true,
        TypeRef::Void => true,
        TypeRef::Class(_, ts) => are_plain(ts),
        TypeRef::Param(_) => true,
        TypeRef::Function(_) => false,
    }
}

#[cycle(plain)]
#[tactic(auto, using(dart_ir::proofs::View::views))]
fn are_plain(ts: &[TypeRef]) -> bool
    ensures { IsTrue result → ArePlain (tys ts.now) }
{
    for t in ts {
        if !is_plain(t) {
            return false;
        }
    }
    true
}

/// Whether a header may name a type, for all that resolving says: it is no class, or a formed one without function types.
#[tactic(auto, using(dart_ir::proofs::View::views))]
fn is_header_type(p: &Program, n: usize, t: &TypeRef) -> bool
    ensures { IsTrue result → IsHeaderTy p.now n (ty t.now) }
{
    match t {
        TypeRef::Class(_, given) => are_plain(given) && is_formed(p, n, t),
        TypeRef::Dynamic => true,
        TypeRef::Bottom => true,
        TypeRef::Void => true,
        TypeRef::Param(_) => true,
        TypeRef::Function(_) => true,
    }
}

fn are_header_types(p: &Program, n: usize, types: &[HeaderType]) -> bool
    ensures { IsTrue result → All (IsHeaderType p.now n) types.now }
{
    for t in types {
        if !is_header_type(p, n, &t.of) {
            return false;
        }
    }
    true
}

fn is_superclass(p: &Program, n: usize, superclass: &Option<HeaderType>) -> bool
    ensures { IsTrue result → IsSuperclass p.now n superclass.now }
{
    match superclass {
        None => true,
        Some(t) => is_header_type(p, n, &t.of),
    }
}

fn are_members(p: &Program, n: usize, members: &[Member]) -> bool
    ensures { IsTrue result → All (λ m. IsFormedIn p.now n (function_ty m.signature)) members.now }
{
    for m in members {
        if !is_function_formed(p, n, &m.signature) {
            return false;
        }
    }
    true
}

/// Whether no type parameter has a bound.
fn has_no_bounds(p: &Program, n: usize, bounds: &[Option<TypeRef>]) -> bool
    ensures { IsTrue result → All (IsBoundFormedIn p.now n) bounds.now }
{
    for bound in bounds {
        match bound {
            None => {}
            Some(_) => return false,
        }
    }
    true
}

/// Whether the types of a declaration are formed. The tests' type parameters have no bounds.
fn is_declaration(p: &Program, i: &Declaration) -> bool
    ensures { IsTrue result → IsDeclaration p.now i.now }
{
    let n = i.bounds.len();
    n < 4
        && has_no_bounds(p, n, &i.bounds)
        && is_superclass(p, n, &i.superclass)
        && are_header_types(p, n, &i.mixins)
        && are_header_types(p, n, &i.interfaces)
        && are_members(p, n, &i.members)
}

fn are_declarations(p: &Program) -> bool
    ensures { IsTrue result → (d : ℕ) → d < length p.now.declarations.items → (i : Declaration)
        → declaration_at p.now d ≡ Some i → IsDeclaration p.now i }
{
    for d in 0..p.declarations.len() {
        if !is_declaration_at(p, d) {
            return false;
        }
    }
    true
}

fn is_declaration_at(p: &Program, d: usize) -> bool
    requires { d < length p.now.declarations.items }
    ensures { IsTrue result → (i : Declaration) → declaration_at p.now d ≡ Some i → IsDeclaration p.now i }
{
    is_declaration(p, &p.declarations[d])
}

/// Whether a class has no type parameters, names no class and declares no method `call`.
fn is_root(p: &Program, d: usize) -> bool
    requires { d < length p.now.declarations.items }
    ensures { IsTrue result → (i : Declaration) → declaration_at p.now d ≡ Some i → IsRoot p.now i }
{
    is_bare(p, &p.declarations[d])
}

fn is_bare(p: &Program, i: &Declaration) -> bool
    ensures { IsTrue result → IsRoot p.now i.now }
{
    if !i.bounds.is_empty() {
        return false;
    }
    if !i.mixins.is_empty() {
        return false;
    }
    if !i.interfaces.is_empty() {
        return false;
    }
    if declares_call(p.call, i) {
        return false;
    }
    names_no_superclass(&i.superclass)
}

fn names_no_superclass(superclass: &Option<HeaderType>) -> bool
    ensures { IsTrue result → superclass.now ≡ None }
{
    match superclass {
        None => true,
        Some(_) => false,
    }
}

/// Whether a program is one that resolving names can give.
pub fn is_program(p: &Program) -> bool
    ensures { IsTrue result → IsProgram p.now }
{
    if p.object >= p.declarations.len() {
        return false;
    }
    if p.function >= p.declarations.len() {
        return false;
    }
    if p.object == p.function {
        return false;
    }
    is_root(p, p.object) && is_root(p, p.function) && are_declarations(p)
}
