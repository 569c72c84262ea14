// What the test says.
ghost use Rattle.dart_ir.specs.Classes.{IsValid};
ghost use Rattle.evaluation.specs.Checks.{DecidesSubtypes};
ghost use Rattle.type_test.specs.Test.{is_subtype};

use dart_ir::class::Classes;

/// Of types without parameters the test is true exactly where there is a derivation, over each table that a program can have.
#[tactic(auto, using(crate::proofs::Decided::decides))]
pub fn subtypes_are_decided(_classes: &Classes)
    requires valid { IsValid _classes.now }
    ensures { DecidesSubtypes _classes.now (is_subtype _classes.now) }
{}
