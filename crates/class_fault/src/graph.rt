// The headers of a program's classes as a graph.
ghost use Rattle.std.specs.Prelude.{◌≡◌, ◌++◌, IfOk, OnOk};
ghost use Rattle.class_fault.specs.Program.{declares_call, is_method};
ghost use Rattle.class_fault.specs.Graph.{IsGraph, named_classes, superclass_named, above_of, applied};

use crate::program::{Declaration, HeaderType, Program, class_named};
use class_order::header::Header;
use dart_base::name::Name;
use dart_ir::class::Role;
use std::alloc::{AllocError, Global};

/// What must stand before each class: its superclass, or `Object` where it names none, its mixins and its interfaces,
/// and `Function` where it declares a method `call`; and how many mixin applications are classes of their own.
pub fn graph(alloc: Global, program: &Program) -> Result<Vec<Header>, AllocError>
    ensures { IfOk result (λ v. IsGraph program.now v.items) }
{
    let mut headers = Vec::new(alloc);
    for (d, declaration) in program.declarations.iter().enumerate() {
        headers.push(header_of(alloc, program, d, declaration)?)?;
    }
    Ok(headers)
}

/// What must stand before one class.
fn header_of(
    alloc: Global,
    program: &Program,
    d: usize,
    declaration: &Declaration,
) -> Result<Header, AllocError>
    ensures above { IfOk result (λ h. h.above.items ≡ above_of program.now d declaration.now) }
    ensures applications { IfOk result (λ h. h.applications ≡ applied declaration.now) }
{
    let mut above = Vec::new(alloc);
    add_superclass(&mut above, program, d, &declaration.superclass)?;
    add_named(&mut above, &declaration.mixins)?;
    add_named(&mut above, &declaration.interfaces)?;
    if declares_call(program.call, declaration) {
        above.push(program.function)?;
    }
    Ok(Header {
        above,
        applications: applied(declaration),
    })
}

/// Adds the superclass that a header names, or `Object`.
fn add_superclass(
    above: &mut Vec<usize>,
    program: &Program,
    d: usize,
    superclass: &Option<HeaderType>,
) -> Result<(), AllocError>
    ensures { OnOk result (above.new.items ≡ above.old.items ++ superclass_named program.now d superclass.now) }
{
    match superclass {
        Some(t) => {
            if let Some(class) = class_named(&t.of) {
                above.push(class)?;
            }
        }
        None => {
            if d != program.object {
                above.push(program.object)?;
            }
        }
    }
    Ok(())
}

/// Adds the classes that header types name.
fn add_named(above: &mut Vec<usize>, types: &[HeaderType]) -> Result<(), AllocError>
    ensures { OnOk result (above.new.items ≡ above.old.items ++ named_classes types.now) }
{
    for t in types {
        if let Some(class) = class_named(&t.of) {
            above.push(class)?;
        }
    }
    Ok(())
}

/// How many of a class's mixin applications are classes of their own: of a class that is written as one, all but the
/// last.
pub fn applied(declaration: &Declaration) -> usize
    ensures { result ≡ applied declaration.now }
{
    let mixins = declaration.mixins.len();
    if declaration.is_application && mixins > 0 {
        mixins - 1
    } else {
        mixins
    }
}

/// Whether a class declares a method `call`.
pub fn declares_call(call: Name, declaration: &Declaration) -> bool
    ensures { result ≡ declares_call call declaration.now }
{
    for member in &declaration.members {
        if member.name.0 == call.0 && is_method(member.role) {
            return true;
        }
    }
    false
}

fn is_method(role: Role) -> bool
    ensures { result ≡ is_method role }
{
    match role {
        Role::Method => true,
        Role::Getter => false,
        Role::Setter => false,
    }
}
