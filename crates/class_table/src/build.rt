// The table of classes of a program, or why its headers are refused.
ghost use Rattle.std.specs.Prelude.{◌≡◌, IfOk};
ghost use Rattle.dart_ir.specs.Classes.{IsValid};
ghost use Rattle.class_fault.specs.declared.fault.Fault.{Fault};
ghost use Rattle.class_fault.specs.declared.fault.HeaderFault.TheVariants.{Refused};
ghost use Rattle.class_table.specs.Program.{IsProgram};
ghost use Rattle.class_table.specs.Built.{IsBuilt, IsRefused};

use crate::table::table;
use class_fault::fault::{HeaderFault, checked_order};
use class_fault::graph::graph;
use class_fault::program::Program;
use class_order::rows::lay_out;
use dart_ir::class::Classes;
use std::alloc::Global;

/// The table of classes of a program (ECMA-408, Classes, Mixins): each declared class, after all that its header names, and
/// before it a class for each of its mixin applications. It is refused for the first header type in source order that has a reason.
pub fn build(alloc: Global, program: &Program) -> Result<Classes, HeaderFault>
    requires { IsProgram program.now }
    ensures valid { IfOk result (λ k. IsValid k) }
    ensures built { IfOk result (λ k. IsBuilt program.now k) }
    ensures refused { (f : Fault) → result ≡ Err (Refused f) → IsRefused program.now f }
{
    let headers = graph(alloc, program)?;
    match checked_order(alloc, program, &headers) {
        Ok(order) => {
            let rows = lay_out(alloc, &headers, &order)?;
            let classes = table(alloc, program, &headers, &rows)?;
            Ok(classes)
        }
        Err(fault) => Err(fault),
    }
}
