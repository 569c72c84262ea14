// An object as the store keeps it.

use dart_ir::number::{ClassId, DeclId, MemberId};
use dart_ir::value::Value;
use dart_ir::values::Values;

/// An object beside the pool of its store, which has what objects share. `stored_object` of specs/Pool.antt is what contracts
/// see of both.
pub enum Stored {
    /// An instance, with the number of its type arguments.
    Instance {
        class: ClassId,
        args: u32,
        fields: Values,
    },
    /// A list, with the number of its type arguments.
    List {
        args: u32,
        items: Values,
        fixed: bool,
    },
    /// A text, as its place among the units of all texts.
    Text {
        start: usize,
        len: usize,
    },
    /// A function, with the numbers of its receiver and of its type arguments.
    Closure {
        decl: DeclId,
        receiver: u32,
        args: u32,
        cells: Values,
    },
    Bound {
        receiver: Value,
        member: MemberId,
    },
    /// A type, as the number of a list that begins with it.
    TypeValue(u32),
    SendPort {
        isolate: u32,
        port: u32,
    },
    ReceivePort {
        port: u32,
    },
    Cell {
        value: Value,
        counted: bool,
    },
}

const _: () = prove!(size_of::<Stored>() <= 40);

// The enum holds lists, so it implements the trait itself, as `Object` does.
impl Drop for Stored {
    fn drop(self) {
        match self {
            Stored::Instance {
                class: _,
                args: _,
                fields: _,
            } => {}
            Stored::List {
                args: _,
                items: _,
                fixed: _,
            } => {}
            Stored::Text { start: _, len: _ } => {}
            Stored::Closure {
                decl: _,
                receiver: _,
                args: _,
                cells: _,
            } => {}
            Stored::Bound {
                receiver: _,
                member: _,
            } => {}
            Stored::TypeValue(_) => {}
            Stored::SendPort {
                isolate: _,
                port: _,
            } => {}
            Stored::ReceivePort { port: _ } => {}
            Stored::Cell {
                value: _,
                counted: _,
            } => {}
        }
    }
}
