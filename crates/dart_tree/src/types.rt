// Types as they are written.
use crate::identifier::{DotName, Identifier};
use dart_base::place::Place;

/// A type (ECMA-408, 19.1 Static Types).
#[cycle(types)]
pub enum TypeNode {
    /// `dynamic` (19.6 Type dynamic)
    Dynamic(Place),
    /// `A`, `p.A` or `A<B, C>` (19.1 Static Types and 19.8 Parameterized Types)
    Named {
        name: Identifier,
        member: Option<DotName>,
        arguments: TypeArguments,
    },
}

impl Drop for TypeNode {
    #[cycle(type_drops)]
    fn drop(self) {
        match self {
            TypeNode::Dynamic(_) => {}
            TypeNode::Named {
                name: _,
                member: _,
                arguments: _,
            } => {}
        }
    }
}

/// The type arguments of a type or of a literal (ECMA-408, 14 Generics).
#[cycle(types)]
#[derive(Drop)]
pub enum TypeArguments {
    /// None are written.
    Omitted,
    /// `<A, B>`
    Listed {
        opening: Place,
        arguments: Vec<TypeArgument>,
        closing: Place,
    },
}

/// A type of a list of types, with the comma before it, which the first lacks (ECMA-408, 19.1 Static Types).
#[cycle(types)]
#[derive(Drop)]
pub struct TypeArgument {
    pub comma: Option<Place>,
    pub argument: TypeNode,
}

/// What a function answers with (ECMA-408, 9 Functions).
#[derive(Drop)]
pub enum ResultType {
    /// `void` (19.7 Type Void)
    Void(Place),
    /// `A`
    Typed(Box<TypeNode>),
}
