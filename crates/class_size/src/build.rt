// The table of classes of a program, or why its headers are refused.
ghost use Rattle.std.specs.Prelude.{◌≡◌, IfOk, None};
ghost use Rattle.dart_ir.specs.Classes.{IsValid};
ghost use Rattle.dart_base.specs.declared.place.Place.{Place};
ghost use Rattle.class_fault.specs.declared.fault.Fault.{Fault};
ghost use Rattle.class_table.specs.Program.{IsProgram};
ghost use Rattle.class_table.specs.Built.{IsRefused};
ghost use Rattle.class_order.specs.Order.{IsOrder};
ghost use Rattle.class_fault.specs.Fault.{IsFirstFrom};
ghost use Rattle.class_fault.specs.Graph.{IsGraph};
ghost use Rattle.class_size.specs.Built.{IsSized, IsSizedTo, IsOverlarge, fault_of};
ghost use Rattle.class_size.specs.declared.build.ClassFault.TheVariants.{TypesTooLarge};

use crate::first::first_too_large;
use class_fault::fault::{Fault, HeaderFault, Reason, checked_order};
use class_fault::graph::graph;
use class_fault::program::Program;
use class_order::header::Header;
use class_order::rows::lay_out;
use class_table::number::narrow_all;
use class_table::table::table;
use dart_base::place::Place;
use dart_ir::class::Classes;
use std::alloc::{AllocError, Global};
use thiserror::Error;

/// Why a program has no table of classes. Each reason stands at the type of a header that has it.
#[derive(Debug, Drop, PartialEq, Eq, Error)]
pub enum ClassFault {
    /// The type leads back to the class itself.
    #[error("a class that leads back to itself")]
    CyclicClasses(Place),
    /// The type is no class, or one that a class of a user's file may not name.
    #[error("a type that a class header may not name")]
    BadSuper(Place),
    /// The type is a class that can't be mixed in.
    #[error("a class that can't be mixed in")]
    BadMixin(Place),
    /// The type, or one above it, has more than `TYPE_NODES` nodes.
    #[error("a type above a class with too many nodes")]
    TypesTooLarge(Place),
    /// Memory ran out.
    #[error("out of memory")]
    Memory,
}

impl From<AllocError> for ClassFault {
    ghost use Rattle.std.specs.Prelude.{◌≡◌};
    ghost use Rattle.class_size.specs.declared.build.ClassFault.TheVariants.{Memory};

    ghost from_gives = { λ _ fault. fault ≡ Memory };

    fn from(_: AllocError) -> Self {
        ClassFault::Memory
    }
}

/// The table of classes of a program (ECMA-408, Classes, Mixins). It is refused for the first header type in source order
/// that is cyclic, may not be named or can't be mixed in; and where there is none, for the first one of a user's file that
/// is too large or below a type that is.
pub fn build(alloc: Global, program: &Program) -> Result<Classes, ClassFault>
    requires { IsProgram program.now }
    ensures valid { IfOk result (λ k. IsValid k) }
    ensures built { IfOk result (λ k. IsSized program.now k) }
    ensures refused { (f : Fault) → result ≡ Err (fault_of f) → IsRefused program.now f }
    ensures too_large { (place : Place) → result ≡ Err (TypesTooLarge place)
        → IsOverlarge program.now place }
{
    let headers = graph(alloc, program)?;
    // Each answer returns where it is made, by which the proof speaks of it.
    match checked_order(alloc, program, &headers) {
        Ok(order) => {
            let (classes, too_large) = sized_table(alloc, program, &headers, &order)?;
            match too_large {
                None => return Ok(classes),
                Some(place) => return Err(ClassFault::TypesTooLarge(place)),
            }
        }
        Err(HeaderFault::Refused(fault)) => return Err(refusal(fault)),
        Err(HeaderFault::Memory) => return Err(ClassFault::Memory),
    }
}

fn refusal(fault: Fault) -> ClassFault
    ensures { result ≡ fault_of fault }
{
    match fault.reason {
        Reason::CyclicClasses => ClassFault::CyclicClasses(fault.place),
        Reason::BadSuper => ClassFault::BadSuper(fault.place),
        Reason::BadMixin => ClassFault::BadMixin(fault.place),
    }
}

/// The table of a program whose headers may name what they name, and the place of the first type that is too large.
fn sized_table(
    alloc: Global,
    program: &Program,
    headers: &[Header],
    order: &[usize],
) -> Result<(Classes, Option<Place>), AllocError>
    requires program { IsProgram program.now }
    requires graph { IsGraph program.now headers.now }
    requires no_fault { IsFirstFrom program.now headers.now 0 None }
    requires order { IsOrder headers.now order.now }
    ensures valid { IfOk result (λ found. IsValid found.0) }
    ensures sized { IfOk result (λ found. IsSizedTo program.now found.0 found.1) }
{
    let rows = lay_out(alloc, headers, order)?;
    let classes = table(alloc, program, headers, &rows)?;
    let numbers = narrow_all(alloc, &rows.numbers)?;
    let too_large = first_too_large(alloc, program, &numbers, &classes)?;
    Ok((classes, too_large))
}
