// Class declarations by hand. No function here has a contract, so what it does is proved once, and tests know nothing of it.

use class_fault::program::{Declaration, HeaderType, Program, Standing};
use dart_base::name::Name;
use dart_base::place::Place;
use dart_ir::number::{ClassId, DeclId};
use dart_ir::types::TypeRef;
use std::alloc::Global;

pub const OBJECT: u32 = 0;

pub const FUNCTION: u32 = 1;

/// The name `call`.
pub const CALL: u32 = 500;

/// A place in the line of a class.
pub fn place(class: u32, column: u32) -> Place {
    Place {
        unit: 0,
        line: class,
        column,
    }
}

/// A class that a header names, at a place.
pub fn named(alloc: Global, class: u32, place: Place) -> HeaderType {
    HeaderType {
        place,
        of: TypeRef::Class(ClassId(class), Vec::new(alloc)),
    }
}

/// A class of the user's that names nothing.
pub fn user_class(alloc: Global, class: u32) -> Declaration {
    declaration(alloc, class, true)
}

/// A class of a library of the system that names nothing.
pub fn system_class(alloc: Global, class: u32) -> Declaration {
    declaration(alloc, class, false)
}

fn declaration(alloc: Global, class: u32, is_user: bool) -> Declaration {
    Declaration {
        name: Name(class),
        library: 0,
        place: place(class, 7),
        decl: DeclId(class),
        is_abstract: false,
        is_application: false,
        standing: Standing {
            is_user,
            is_basic: false,
            has_external: false,
            has_constructor: false,
            names_super: false,
        },
        bounds: Vec::new(alloc),
        superclass: None,
        mixins: Vec::new(alloc),
        interfaces: Vec::new(alloc),
        members: Vec::new(alloc),
        fields: 0,
    }
}

/// The program of some declarations, the first of which are `Object` and `Function`.
pub fn program(declarations: Vec<Declaration>) -> Program {
    Program {
        declarations,
        object: OBJECT as usize,
        function: FUNCTION as usize,
        call: Name(CALL),
    }
}
