// Parameters and metadata.
use crate::expression::{Item, Value};
use crate::identifier::{DotName, Identifier};
use crate::types::{ResultType, TypeNode};
use dart_base::place::Place;

/// `(a, int b, [c = 1])` or `(a, {b: 1})` (ECMA-408, 9.2 Formal Parameters).
#[cycle(tree)]
#[derive(Drop)]
pub struct Parameters {
    pub opening: Place,
    pub required: Vec<Parameter>,
    pub brackets: Option<Brackets>,
    pub optional: Vec<Parameter>,
    pub closing: Place,
}

/// What encloses optional parameters (ECMA-408, 9.2.2 Optional Formals).
#[derive(Clone, Copy, Debug, PartialEq, Eq)]
pub enum BracketKind {
    /// `[` and `]` round positional parameters
    Square,
    /// `{` and `}` round named parameters
    Curly,
}

/// The brackets round the optional parameters, with the comma before them (ECMA-408, 9.2.2 Optional Formals).
#[derive(Clone, Copy, Debug, PartialEq, Eq)]
pub struct Brackets {
    pub comma: Option<Place>,
    pub kind: BracketKind,
    pub opening: Place,
    pub closing: Place,
}

/// A parameter, with the default value that an optional one may have (ECMA-408, 9.2 Formal Parameters).
#[cycle(tree)]
#[derive(Drop)]
pub struct Parameter {
    pub comma: Option<Place>,
    pub metadata: Vec<Annotation>,
    pub kind: ParameterKind,
    pub value: Value,
}

/// How a parameter is declared (ECMA-408, 9.2.1 Required Formals).
#[cycle(tree)]
pub enum ParameterKind {
    /// `a`, `var a`, `final int a`, `int a` or `int this.a` (9.2.1 Required Formals and 10.6.1 Generative Constructors)
    Plain {
        kind: VariableKind,
        this_dot: Option<ThisDot>,
        name: Identifier,
    },
    /// `int a(b)`, a function (9.2.1 Required Formals)
    Function {
        result_type: Option<ResultType>,
        this_dot: Option<ThisDot>,
        name: Identifier,
        parameters: Box<Parameters>,
    },
}

impl Drop for ParameterKind {
    #[cycle(drops)]
    fn drop(self) {
        match self {
            ParameterKind::Plain {
                kind: _,
                this_dot: _,
                name: _,
            } => {}
            ParameterKind::Function {
                result_type: _,
                this_dot: _,
                name: _,
                parameters: _,
            } => {}
        }
    }
}

/// What stands before the name of a variable (ECMA-408, 8 Variables).
#[derive(Drop)]
pub enum VariableKind {
    /// Nothing, as only before a parameter.
    Omitted,
    /// `var`
    Var(Place),
    /// `final` or `final A`
    Final(Place, Option<Box<TypeNode>>),
    /// `const` or `const A`, as before no parameter and no variable of a `for .. in`
    Const(Place, Option<Box<TypeNode>>),
    /// `A`
    Typed(Box<TypeNode>),
}

/// `this.` before the name of an initializing formal (ECMA-408, 10.6.1 Generative Constructors).
#[derive(Clone, Copy, Debug, PartialEq, Eq)]
pub struct ThisDot {
    pub this: Place,
    pub dot: Place,
}

/// `(` and `)` round the arguments of an annotation (ECMA-408, 15 Metadata).
#[derive(Clone, Copy, Debug, PartialEq, Eq)]
pub struct Parentheses {
    pub opening: Place,
    pub closing: Place,
}

/// `@a.b(c)` (ECMA-408, 15 Metadata). Items stand only between parentheses.
#[cycle(tree)]
#[derive(Drop)]
pub struct Annotation {
    pub at: Place,
    pub name: Identifier,
    pub more: Vec<DotName>,
    pub call: Option<Parentheses>,
    pub items: Vec<Item>,
}
