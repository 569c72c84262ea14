// The objects of an isolate's store.

use crate::number::{ClassId, DeclId, MemberId};
use crate::types::{TypeRef, Types};
use crate::value::Value;
use crate::values::Values;
use dart_base::units::Units;

/// An object. `heap_object` of specs/Object.antt is what contracts see of it.
pub enum Object {
    /// An instance of a class, with its fields from `Object`'s end of the chain on.
    Instance {
        class: ClassId,
        args: Types,
        fields: Values,
    },
    /// A list; its length can't change where it is fixed.
    List {
        args: Types,
        items: Values,
        fixed: bool,
    },
    /// A string that was made at run time.
    Text(Units),
    /// A function literal or local function, with the `this` of the place where it was made, or null, the type
    /// arguments of that place, and a cell for each variable declared outside it that its body names, by number.
    Closure {
        decl: DeclId,
        receiver: Value,
        args: Types,
        cells: Values,
    },
    /// A method taken off an object.
    Bound {
        receiver: Value,
        member: MemberId,
    },
    TypeValue(TypeRef),
    SendPort {
        isolate: u32,
        port: u32,
    },
    ReceivePort {
        port: u32,
    },
    /// A variable that a closure names. It is counted where it costs a unit of the store.
    Cell {
        value: Value,
        counted: bool,
    },
}

// Each enum that holds lists implements the trait itself, so a crate above need not prove again what it holds.
impl Drop for Object {
    fn drop(self) {
        match self {
            Object::Instance {
                class: _,
                args: _,
                fields: _,
            } => {}
            Object::List {
                args: _,
                items: _,
                fixed: _,
            } => {}
            Object::Text(_) => {}
            Object::Closure {
                decl: _,
                receiver: _,
                args: _,
                cells: _,
            } => {}
            Object::Bound {
                receiver: _,
                member: _,
            } => {}
            Object::TypeValue(_) => {}
            Object::SendPort {
                isolate: _,
                port: _,
            } => {}
            Object::ReceivePort { port: _ } => {}
            Object::Cell {
                value: _,
                counted: _,
            } => {}
        }
    }
}

/// What a value is for a test of its type.
pub enum Head {
    Null,
    /// A value of a class with type arguments.
    Of(ClassId, Types),
    /// A function value: its declaration, and the type arguments for its signature.
    Function(DeclId, Types),
}

impl Drop for Head {
    fn drop(self) {
        match self {
            Head::Null => {}
            Head::Of(_, _) => {}
            Head::Function(_, _) => {}
        }
    }
}
