// The numbers that classes and names of the prelude have in a program.
ghost use Rattle.std.specs.Prelude.{◌≡◌, ◌<◌, ◌^◌, ◌&&◌, nat_eq, bytes_eq, length, map};
ghost use Rattle.dart_ir.specs.declared.kind.ThrowKind.{ThrowKind};
ghost use Rattle.core_program.specs.ProgramView as view;
ghost use Rattle.evaluation.specs.Values.{name_text};
ghost use Rattle.evaluation.specs.Prelude as prelude;
ghost use Rattle.prelude_numbers.specs.Known.{known_of, error_class};

use crate::known::{ErrorClasses, KnownNumbers};
use core_program::program::CoreProgram;
use dart_base::name::Name;
use dart_base::names::Names;
use dart_ir::class::ClassInfo;
use dart_ir::number::ClassId;

// The libraries that come with the language, by the numbers of their units.
const CORE: u32 = 1;

const ISOLATE: u32 = 2;

// The number of a name, or the next one where it has none.
fn name_number(names: &Names, text: &str) -> Name
    ensures { result.0 ≡ prelude.name_number names.now text.now }
{
    let next = names.count();
    match names.find(text) {
        Some(name) => name,
        None => Name(next),
    }
}

// Whether a name has this text.
fn is_text(names: &Names, name: Name, text: &str) -> bool
    ensures { result ≡ bytes_eq (name_text names.now name.0) text.now }
{
    if name.0 < names.count() {
        names.text(name).as_bytes() == text.as_bytes()
    } else {
        text.is_empty()
    }
}

// Whether a unit declares the class under this name.
fn is_class(names: &Names, class: &ClassInfo, unit: u32, text: &str) -> bool
    ensures { result ≡ (nat_eq class.now.place.unit unit && bytes_eq (name_text names.now class.now.name.0) text.now) }
{
    class.place.unit == unit && is_text(names, class.name, text)
}

// The number of the class that a unit declares under this name, or the next one where there is none.
fn class_number(names: &Names, classes: &[ClassInfo], unit: u32, text: &str) -> ClassId
    requires few { length classes.now < 2 ^ 32 }
    ensures { result.0 ≡ prelude.class_number_in names.now unit text.now (map view.class classes.now) }
{
    let mut number: u32 = 0;
    for class in classes {
        if is_class(names, class, unit, text) {
            return ClassId(number);
        }
        number += 1;
    }
    ClassId(number)
}

// The number of a class of `dart:core`.
fn core_class(program: &CoreProgram, text: &str) -> ClassId
    requires few { length program.now.classes.classes.items < 2 ^ 32 }
    ensures { result.0 ≡ prelude.core_class (view.program program.now) program.now.names text.now }
{
    class_number(&program.names, &program.classes.classes, CORE, text)
}

// The number of a class of `dart:isolate`.
fn isolate_class(program: &CoreProgram, text: &str) -> ClassId
    requires few { length program.now.classes.classes.items < 2 ^ 32 }
    ensures { result.0 ≡ prelude.isolate_class (view.program program.now) program.now.names text.now }
{
    class_number(&program.names, &program.classes.classes, ISOLATE, text)
}

// The numbers of the errors' classes.
fn error_classes(program: &CoreProgram) -> ErrorClasses
    requires few { length program.now.classes.classes.items < 2 ^ 32 }
    ensures { (thrown : ThrowKind) → error_class result thrown ≡ prelude.core_class (view.program program.now) program.now.names (prelude.error_text thrown) }
{
    let exception = core_class(program, "Exception");
    let error = core_class(program, "Error");
    let argument_error = core_class(program, "ArgumentError");
    let range_error = core_class(program, "RangeError");
    let state_error = core_class(program, "StateError");
    let unsupported_error = core_class(program, "UnsupportedError");
    let no_such_method_error = core_class(program, "NoSuchMethodError");
    let cast_error = core_class(program, "CastError");
    let type_error = core_class(program, "TypeError");
    let null_thrown_error = core_class(program, "NullThrownError");
    let fall_through_error = core_class(program, "FallThroughError");
    let cyclic_initialization_error = core_class(program, "CyclicInitializationError");
    let abstract_class_instantiation_error = core_class(program, "AbstractClassInstantiationError");
    let malformed_type_error = core_class(program, "MalformedTypeError");
    let format_exception = core_class(program, "FormatException");
    let integer_division_by_zero_exception = core_class(program, "IntegerDivisionByZeroException");
    ErrorClasses {
        exception,
        error,
        argument_error,
        range_error,
        state_error,
        unsupported_error,
        no_such_method_error,
        cast_error,
        type_error,
        null_thrown_error,
        fall_through_error,
        cyclic_initialization_error,
        abstract_class_instantiation_error,
        malformed_type_error,
        format_exception,
        integer_division_by_zero_exception,
    }
}

/// The numbers that the prelude's classes and names have in a program. A class or name that it lacks
/// has the number behind the last one. Takes no memory.
pub fn known_numbers(program: &CoreProgram) -> KnownNumbers
    requires few { length program.now.classes.classes.items < 2 ^ 32 }
    ensures { known_of result ≡ prelude.known (view.program program.now) program.now.names }
{
    let null_class = core_class(program, "Null");
    let bool_class = core_class(program, "bool");
    let int_class = core_class(program, "int");
    let string_class = core_class(program, "String");
    let list_class = core_class(program, "List");
    let type_class = core_class(program, "Type");
    let invocation_class = core_class(program, "Invocation");
    let trace_class = core_class(program, "StackTrace");
    let send_port_class = isolate_class(program, "SendPort");
    let receive_port_class = isolate_class(program, "ReceivePort");
    let errors = error_classes(program);
    let call = name_number(&program.names, "call");
    let equals = name_number(&program.names, "==");
    let no_such_method = name_number(&program.names, "noSuchMethod");
    KnownNumbers {
        null_class,
        bool_class,
        int_class,
        string_class,
        list_class,
        type_class,
        invocation_class,
        trace_class,
        send_port_class,
        receive_port_class,
        errors,
        call,
        equals,
        no_such_method,
    }
}
