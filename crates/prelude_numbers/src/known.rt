// What evaluation knows of the prelude.

use dart_base::name::Name;
use dart_ir::number::ClassId;

/// The classes of the errors and exceptions that evaluation throws.
#[derive(Clone, Copy)]
pub struct ErrorClasses {
    pub exception: ClassId,
    pub error: ClassId,
    pub argument_error: ClassId,
    pub range_error: ClassId,
    pub state_error: ClassId,
    pub unsupported_error: ClassId,
    pub no_such_method_error: ClassId,
    pub cast_error: ClassId,
    pub type_error: ClassId,
    pub null_thrown_error: ClassId,
    pub fall_through_error: ClassId,
    pub cyclic_initialization_error: ClassId,
    pub abstract_class_instantiation_error: ClassId,
    pub malformed_type_error: ClassId,
    pub format_exception: ClassId,
    pub integer_division_by_zero_exception: ClassId,
}

/// The prelude's classes and names that evaluation knows.
#[derive(Clone, Copy)]
pub struct KnownNumbers {
    /// `Null`
    pub null_class: ClassId,
    /// `bool`
    pub bool_class: ClassId,
    /// `int`
    pub int_class: ClassId,
    /// `String`
    pub string_class: ClassId,
    /// `List`
    pub list_class: ClassId,
    /// `Type`
    pub type_class: ClassId,
    /// `Invocation`
    pub invocation_class: ClassId,
    /// `StackTrace`
    pub trace_class: ClassId,
    /// `SendPort`
    pub send_port_class: ClassId,
    /// `ReceivePort`
    pub receive_port_class: ClassId,
    pub errors: ErrorClasses,
    /// `call`
    pub call: Name,
    /// `==`
    pub equals: Name,
    /// `noSuchMethod`
    pub no_such_method: Name,
}
