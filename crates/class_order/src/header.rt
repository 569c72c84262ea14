// What a class stands on, as far as its place in the table goes.

/// The header of a class (ECMA-408, Classes), over the numbers of classes in source order.
#[derive(Drop)]
pub struct Header {
    /// The classes that come before it: its superclass, its mixins and its superinterfaces, as its header names them.
    pub above: Vec<usize>,
    /// How many mixin applications stand between the superclass and the class.
    pub applications: usize,
}
