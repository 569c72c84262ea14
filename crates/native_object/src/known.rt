// The classes of the prelude that values without a class of their own are of.

use dart_ir::number::ClassId;

/// The number of each class of the prelude that a value which is no instance can be of.
#[derive(Clone, Copy, Debug, PartialEq, Eq)]
pub struct KnownClasses {
    /// `Null`
    pub null: ClassId,
    /// `bool`
    pub boolean: ClassId,
    /// `int`
    pub integer: ClassId,
    /// `String`
    pub string: ClassId,
    /// `List`
    pub list: ClassId,
    /// `Function`
    pub function: ClassId,
    /// `Type`
    pub type_class: ClassId,
    /// `SendPort`
    pub send_port: ClassId,
    /// `ReceivePort`
    pub receive_port: ClassId,
}
