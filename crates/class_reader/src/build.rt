// The table of classes of a program, from its units.
ghost use Rattle.std.specs.Prelude.{◌≡◌, ◌↔◌, ◌<◌, IsTrue, IfOk, length, true};
ghost use Rattle.dart_base.specs.Names.{AreDistinct};
ghost use Rattle.dart_base.specs.declared.place.Place.{Place};
ghost use Rattle.dart_ir.specs.Classes.{IsValid};
ghost use Rattle.class_fault.specs.declared.fault.Fault.{Fault};
ghost use Rattle.class_size.specs.Built.{fault_of};
ghost use Rattle.class_size.specs.declared.build.ClassFault.TheVariants.{TypesTooLarge};
ghost use Rattle.class_source.specs.Resolved.{IsResolved};
ghost use Rattle.class_table.specs.Program.{IsRoot};
ghost use Rattle.class_reader.specs.Built.{IsBuiltFrom, IsOverlargeIn, IsRead, IsRefusedIn};
ghost use Rattle.class_reader.specs.Given.{AreJoint, given_of, source_units};
ghost use Rattle.class_reader.specs.Roots.{AreFew, HasRoot, HasRoots};

use crate::home::Home;
use crate::position::Positions;
use crate::program::read_program;
use class_fault::graph::declares_call;
use class_fault::program::{Declaration, Program};
use class_size::build::{ClassFault, build};
use class_within::program::are_within;
use dart_base::name::Name;
use dart_ir::class::Classes;
use dart_tree::unit::Unit;
use lower_leaf::fault::Want;
use lower_leaf::surroundings::Surroundings;
use std::alloc::Global;

// Whether no class has as many type parameters as there are numbers.
fn are_few(program: &Program) -> bool
    ensures { IsTrue result ↔ AreFew program.now }
{
    program
        .declarations
        .iter()
        .all(|class| class.bounds.len() <= u32::MAX as usize)
}

// Whether a class has no type parameters, names no class and declares no method of that name.
fn is_root(call: Name, class: &Declaration) -> bool
    ensures { (p : Program) → p.call ≡ call → result ≡ true → IsRoot p class.now }
{
    class.bounds.is_empty()
        && class.superclass.is_none()
        && class.mixins.is_empty()
        && class.interfaces.is_empty()
        && !declares_call(call, class)
}

// Whether the class of that number is declared so.
fn has_root(program: &Program, number: usize) -> bool
    ensures { result ≡ true → HasRoot program.now number }
{
    match program.declarations.get(number) {
        Some(class) => is_root(program.call, class),
        None => false,
    }
}

// The program that the units declare, where it is one from which a table can be built.
fn checked_program<S: Surroundings, P: Positions>(
    alloc: Global,
    headers: &S,
    members: &S,
    positions: &P,
    homes: &[Home],
    units: &[Unit],
    count: u32,
) -> Result<Program, Want>
    requires joint { AreJoint (S.around headers.now) (S.around members.now) (P.libraries positions.now) }
    requires distinct { AreDistinct (S.around members.now).texts }
    requires count { length (S.around members.now).texts ≡ count }
    ensures read { IfOk result (λ p. IsRead
        (given_of (S.around headers.now) (S.around members.now) (P.libraries positions.now) (P.numbers positions.now))
        (source_units homes.now units.now) (S.around members.now).texts p) }
    ensures few { IfOk result AreFew }
{
    let program = read_program(alloc, headers, members, positions, homes, units)?;
    if !are_few(&program) || !are_within(&program, count) {
        return Err(Want);
    }
    if !has_root(&program, program.object) || !has_root(&program, program.function) {
        return Err(Want);
    }
    Ok(program)
}

/// The table of classes of a program (ECMA-408, 10 Classes, 12 Mixins, 13 Enums), or the first reason for which its headers are refused:
/// as `class_size` builds it from what `read_program` reads. The table of names has so many names. `ClassFault::Memory` is also the answer
/// where no `Object` or `Function` is declared as the prelude has it, or a name isn't in the table.
pub fn build_classes<S: Surroundings, P: Positions>(
    alloc: Global,
    headers: &S,
    members: &S,
    positions: &P,
    homes: &[Home],
    units: &[Unit],
    count: u32,
) -> Result<Classes, ClassFault>
    requires joint { AreJoint (S.around headers.now) (S.around members.now) (P.libraries positions.now) }
    requires distinct { AreDistinct (S.around members.now).texts }
    requires count { length (S.around members.now).texts ≡ count }
    requires resolved { IsResolved
        (given_of (S.around headers.now) (S.around members.now) (P.libraries positions.now) (P.numbers positions.now))
        (source_units homes.now units.now) }
    ensures valid { IfOk result (λ k. IsValid k) }
    ensures built { IfOk result (λ k. IsBuiltFrom
        (given_of (S.around headers.now) (S.around members.now) (P.libraries positions.now) (P.numbers positions.now))
        (source_units homes.now units.now) (S.around members.now).texts k) }
    ensures refused { (f : Fault) → result ≡ Err (fault_of f) → IsRefusedIn
        (given_of (S.around headers.now) (S.around members.now) (P.libraries positions.now) (P.numbers positions.now))
        (source_units homes.now units.now) (S.around members.now).texts f }
    ensures too_large { (place : Place) → result ≡ Err (TypesTooLarge place) → IsOverlargeIn
        (given_of (S.around headers.now) (S.around members.now) (P.libraries positions.now) (P.numbers positions.now))
        (source_units homes.now units.now) (S.around members.now).texts place }
{
    let Ok(program) = checked_program(alloc, headers, members, positions, homes, units, count)
    else {
        return Err(ClassFault::Memory);
    };
    build(alloc, &program)
}
