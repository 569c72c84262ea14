// Whether a type is a subtype of another.
ghost use Rattle.std.specs.Prelude.{◌≡◌, IfOk};
ghost use Rattle.dart_ir.specs.Ty.{ty};
ghost use Rattle.dart_ir.specs.Classes.{IsValid};
ghost use Rattle.type_test.specs.Test as spec;

use crate::formed::is_formed;
use dart_ir::class::Classes;
use dart_ir::types::TypeRef;
use dart_type::subtype;
use std::alloc::{AllocError, Global};

/// Whether t is a subtype of s (ECMA-408, Interface Types), where both are types of the table without type parameters; else false.
#[tactic(auto, using(crate::proofs::Decided::first_not, crate::proofs::Decided::second_not))]
pub fn is_subtype(
    alloc: Global,
    classes: &Classes,
    t: &TypeRef,
    s: &TypeRef,
) -> Result<bool, AllocError>
    requires valid { IsValid classes.now }
    ensures { IfOk result (λ holds. holds ≡ spec.is_subtype classes.now (ty t.now) (ty s.now)) }
{
    if !is_formed(classes, t) {
        return Ok(false);
    }
    if !is_formed(classes, s) {
        return Ok(false);
    }
    // The answer has a name, by which the proof speaks of it.
    let holds = subtype::is_subtype(alloc, classes, t, s)?;
    Ok(holds)
}
