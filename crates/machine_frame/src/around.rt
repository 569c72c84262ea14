// What stands around a run.
#![tactic(auto)]

use core_program::program::CoreProgram;
use dart_base::name::Name;
use dart_ir::number::ClassId;
use machine_lookup::linked::Linked;
use std::alloc::AllocError;
use thiserror::Error;

/// Why a run has no end.
#[derive(Clone, Copy, Debug, Error)]
pub enum Fault {
    #[error("out of memory")]
    Memory,
}

impl From<AllocError> for Fault {
    ghost use Rattle.std.specs.Prelude.{◌≡◌};
    ghost use Rattle.machine_frame.specs.declared.around.Fault.TheVariants.{Memory};

    ghost from_gives = { λ _ fault. fault ≡ Memory };

    fn from(_error: AllocError) -> Fault {
        Fault::Memory
    }
}

/// The classes of the errors and exceptions that evaluation throws.
#[derive(Clone, Copy)]
pub struct ErrorClasses {
    pub exception: ClassId,
    pub error: ClassId,
    pub argument_error: ClassId,
    pub range_error: ClassId,
    pub state_error: ClassId,
    pub unsupported_error: ClassId,
    pub no_such_method_error: ClassId,
    pub cast_error: ClassId,
    pub type_error: ClassId,
    pub null_thrown_error: ClassId,
    pub fall_through_error: ClassId,
    pub cyclic_initialization_error: ClassId,
    pub abstract_class_instantiation_error: ClassId,
    pub malformed_type_error: ClassId,
    pub format_exception: ClassId,
    pub integer_division_by_zero_exception: ClassId,
}

/// The prelude's classes and names that evaluation knows.
#[derive(Clone, Copy)]
pub struct KnownNumbers {
    pub null_class: ClassId,
    pub bool_class: ClassId,
    pub int_class: ClassId,
    pub string_class: ClassId,
    pub list_class: ClassId,
    pub type_class: ClassId,
    pub invocation_class: ClassId,
    pub trace_class: ClassId,
    pub send_port_class: ClassId,
    pub receive_port_class: ClassId,
    pub errors: ErrorClasses,
    /// `call`
    pub call: Name,
    /// `==`
    pub equals: Name,
    /// `noSuchMethod`
    pub no_such_method: Name,
}

/// What a run is set up with, beside the program that runs.
#[derive(Clone, Copy)]
pub struct Setup<'a> {
    /// The numbers of the prelude's classes and names in the program.
    pub known: KnownNumbers,
    /// The number of the isolate.
    pub isolate: u32,
    /// The program with what its annotations ask for, by which values are checked; none in production, where none is.
    pub annotated: Option<&'a CoreProgram>,
}

/// The program that runs, and what it is set up with. Two references, so that it is passed in registers.
#[derive(Clone, Copy)]
pub struct Around<'a> {
    pub program: &'a Linked,
    pub setup: &'a Setup<'a>,
}
