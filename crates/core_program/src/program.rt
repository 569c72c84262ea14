// Programs.

use crate::form::Part;
use dart_base::bytes::Bytes;
use dart_base::name::Name;
use dart_base::names::Names;
use dart_base::place::Place;
use dart_base::units::Units;
use dart_ir::class::Classes;
use dart_ir::kind::{Shape, SiteKind};
use dart_ir::number::{ClassId, DeclId, SiteId};
use dart_ir::object::Object;
use dart_ir::types::{FunctionType, TypeRef};
use dart_ir::value::Value;

/// A program in the core language. `IsValid` of specs/Valid.antt says what holds of every one.
#[derive(Drop)]
pub struct CoreProgram {
    pub names: Names,
    /// The files' names, by the number of the unit.
    pub units: Vec<Bytes>,
    pub classes: Classes,
    /// By the number of the declaration; what is no function is `Absent` there.
    pub functions: Vec<Function>,
    /// By the number of the declaration; what is no variable has no initialiser there.
    pub statics: Vec<StaticVar>,
    pub sites: Vec<Site>,
    /// The units of each string literal.
    pub literals: Vec<Units>,
    /// The constant objects, which are the first objects of every store.
    pub constants: Vec<Object>,
    pub main: DeclId,
}

/// What a declaration is as a function.
#[derive(Clone, Copy, Debug, PartialEq, Eq)]
pub enum FunctionKind {
    /// A function, accessor or operator of a library or class.
    Plain,
    /// A function literal or local function.
    Inner,
    /// A constructor, which goes on with a new object (ECMA-408, 10.6.1 Generative Constructors).
    Generative,
    /// A constructor that answers the object (10.6.2 Factories).
    Factory,
    /// No function.
    Absent,
}

/// A function (ECMA-408, 9 Functions).
///
/// Its variables have numbers below `vars`, in one numbering with those of the outermost function around and of all
/// functions inside that.
#[derive(Drop)]
pub struct Function {
    pub name: Name,
    pub kind: FunctionKind,
    /// The class whose type parameters, `this` and `super` may stand in it; none for static functions, those of
    /// libraries, and the functions inside these.
    pub class: Option<ClassId>,
    pub parameters: Vec<Parameter>,
    pub vars: u32,
    /// The variables that it declares and that a function inside it names, in ascending order: each has a cell.
    pub cells: Vec<u32>,
    /// The variables declared outside that it or a function inside it names, in ascending order: a closure takes
    /// their cells along.
    pub captures: Vec<u32>,
    pub signature: FunctionType,
    /// Missing where it has none: then it answers null.
    pub body: Part,
}

/// A parameter (ECMA-408, 9.2 Formal Parameters).
#[derive(Clone, Copy, Debug, PartialEq, Eq)]
pub struct Parameter {
    pub var: u32,
    pub name: Name,
    pub shape: Shape,
    /// Its value where no argument is given; null for a required one.
    pub default: Value,
    pub site: SiteId,
}

/// A static or library variable (ECMA-408, 8.1 Evaluation of Implicit Variable Getters).
#[derive(Drop)]
pub struct StaticVar {
    pub name: Name,
    /// How many variables its initialiser numbers, those of the functions inside included.
    pub vars: u32,
    /// The variables of its initialiser that a function inside names, in ascending order.
    pub cells: Vec<u32>,
    pub init: Part,
    pub is_final: bool,
}

/// A place at which checked mode may test a value.
#[derive(Drop)]
pub struct Site {
    pub place: Place,
    pub kind: SiteKind,
    /// The type that it asks for: none where there is no annotation.
    pub required: Option<TypeRef>,
    /// Whether an annotation wrote the type, so that erasure drops it.
    pub annotated: bool,
}
