// The numbers of the prelude in a program, as the machine reads them.
ghost use Rattle.std.specs.Prelude.{◌≡◌, IfSome};
ghost use Rattle.dart_ir.specs.declared.kind.ThrowKind.{ThrowKind};
ghost use Rattle.core_program.specs.ProgramView as view;
ghost use Rattle.evaluation.specs.Prelude.{known};
ghost use Rattle.prelude_numbers.specs.Known as found;
ghost use Rattle.machine_frame.specs.Outside.{known_of, error_class};

use core_program::program::CoreProgram;
use machine_frame::around::{ErrorClasses, KnownNumbers};
use prelude_numbers::known as found;
use prelude_numbers::numbers::known_numbers;

/// The numbers that the prelude's classes and names have in a program. None where it has 2^32 classes or more, which no memory holds.
pub fn machine_numbers(program: &CoreProgram) -> Option<KnownNumbers>
    ensures { IfSome result (λ numbers. known_of numbers ≡ known (view.program program.now) program.now.names) }
{
    if program.classes.classes.len() > u32::MAX as usize {
        return None;
    }
    let numbers = known_numbers(program);
    Some(machine_known(numbers))
}

/// The same numbers.
fn machine_known(numbers: found::KnownNumbers) -> KnownNumbers
    ensures { known_of result ≡ found.known_of numbers }
{
    let errors = machine_errors(numbers.errors);
    KnownNumbers {
        null_class: numbers.null_class,
        bool_class: numbers.bool_class,
        int_class: numbers.int_class,
        string_class: numbers.string_class,
        list_class: numbers.list_class,
        type_class: numbers.type_class,
        invocation_class: numbers.invocation_class,
        trace_class: numbers.trace_class,
        send_port_class: numbers.send_port_class,
        receive_port_class: numbers.receive_port_class,
        errors,
        call: numbers.call,
        equals: numbers.equals,
        no_such_method: numbers.no_such_method,
    }
}

/// The same classes.
fn machine_errors(errors: found::ErrorClasses) -> ErrorClasses
    ensures { (thrown : ThrowKind) → error_class result thrown ≡ found.error_class errors thrown }
{
    ErrorClasses {
        exception: errors.exception,
        error: errors.error,
        argument_error: errors.argument_error,
        range_error: errors.range_error,
        state_error: errors.state_error,
        unsupported_error: errors.unsupported_error,
        no_such_method_error: errors.no_such_method_error,
        cast_error: errors.cast_error,
        type_error: errors.type_error,
        null_thrown_error: errors.null_thrown_error,
        fall_through_error: errors.fall_through_error,
        cyclic_initialization_error: errors.cyclic_initialization_error,
        abstract_class_instantiation_error: errors.abstract_class_instantiation_error,
        malformed_type_error: errors.malformed_type_error,
        format_exception: errors.format_exception,
        integer_division_by_zero_exception: errors.integer_division_by_zero_exception,
    }
}
