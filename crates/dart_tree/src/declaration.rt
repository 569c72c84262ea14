// Declarations of classes, their members, aliases and accessors.
use crate::expression::{Arguments, Cascade, Operand};
use crate::identifier::{CommaName, DotName, Identifier};
use crate::parameter::{Annotation, Parameters, ThisDot};
use crate::statement::{Body, Function, Variables};
use crate::types::{ResultType, TypeArgument, TypeNode};
use dart_base::place::Place;
use dart_token::sign::Sign;

/// A declaration of a unit, with its metadata (ECMA-408, 18 Libraries and Scripts).
#[derive(Drop)]
pub struct Decl {
    pub metadata: Vec<Annotation>,
    pub kind: DeclKind,
}

/// What a declaration declares (ECMA-408, 18 Libraries and Scripts).
#[derive(Drop)]
pub enum DeclKind {
    /// `class A { }` (10 Classes)
    Class(Class),
    /// `typedef int A(b);` (19.3.1 Typedef)
    Alias(Alias),
    /// `a(b) { }` (9 Functions)
    Function(Function),
    /// `get a => b;` (10.2 Getters and 10.3 Setters)
    Accessor(Accessor),
    /// `var a = b;` (8 Variables)
    Variables(Variables),
    /// `enum A { b, c }` (13 Enums)
    Enum(Enum),
}

/// `enum A { b, c, }`, with the comma that may stand before the brace (ECMA-408, 13 Enums).
#[derive(Drop)]
pub struct Enum {
    pub word: Place,
    pub name: Identifier,
    pub opening: Place,
    pub first: Identifier,
    pub more: Vec<CommaName>,
    pub comma: Option<Place>,
    pub closing: Place,
}

/// `abstract class A<B>` and what follows (ECMA-408, 10 Classes).
#[derive(Drop)]
pub struct Class {
    pub abstracted: Option<Place>,
    pub word: Place,
    pub name: Identifier,
    pub parameters: Option<TypeParameters>,
    pub kind: ClassKind,
}

/// How a class is declared (ECMA-408, 10 Classes).
#[derive(Drop)]
pub enum ClassKind {
    /// `extends A with B implements C { }` (10 Classes)
    Declared {
        superclass: Option<Superclass>,
        interfaces: Option<TypeClause>,
        opening: Place,
        members: Vec<Member>,
        closing: Place,
    },
    /// `= A with B implements C;` (12.1 Mixin Application)
    Mixed {
        equals: Place,
        superclass: TypeNode,
        mixins: TypeClause,
        interfaces: Option<TypeClause>,
        semicolon: Place,
    },
}

/// `extends A with B` (ECMA-408, 10.9 Superclasses).
#[derive(Drop)]
pub struct Superclass {
    pub word: Place,
    pub superclass: TypeNode,
    pub mixins: Option<TypeClause>,
}

/// `with A, B` or `implements A, B` (ECMA-408, 10.10 Superinterfaces).
#[derive(Drop)]
pub struct TypeClause {
    pub word: Place,
    pub types: Vec<TypeArgument>,
}

/// `<A extends B, C>` (ECMA-408, 14 Generics).
#[derive(Drop)]
pub struct TypeParameters {
    pub opening: Place,
    pub items: Vec<TypeParameter>,
    pub closing: Place,
}

/// `A extends B` (ECMA-408, 14 Generics).
#[derive(Drop)]
pub struct TypeParameter {
    pub comma: Option<Place>,
    pub metadata: Vec<Annotation>,
    pub name: Identifier,
    pub bound: Option<Bound>,
}

/// `extends A`, the bound of a type parameter (ECMA-408, 14 Generics).
#[derive(Drop)]
pub struct Bound {
    pub word: Place,
    pub bound: TypeNode,
}

/// `typedef int A<B>(c);` (ECMA-408, 19.3.1 Typedef).
#[derive(Drop)]
pub struct Alias {
    pub word: Place,
    pub result_type: Option<ResultType>,
    pub name: Identifier,
    pub type_parameters: Option<TypeParameters>,
    pub parameters: Parameters,
    pub semicolon: Place,
}

/// `external int get a => b;` (ECMA-408, 10.2 Getters and 10.3 Setters).
#[derive(Drop)]
pub struct Accessor {
    pub external: Option<Place>,
    pub result_type: Option<ResultType>,
    pub kind: AccessorKind,
    pub body: Body,
}

/// Which accessor it is (ECMA-408, 10.2 Getters and 10.3 Setters).
#[derive(Drop)]
pub enum AccessorKind {
    /// `get a` (10.2 Getters)
    Get(Place, Identifier),
    /// `set a(b)` (10.3 Setters)
    Set {
        word: Place,
        name: Identifier,
        parameters: Parameters,
    },
}

/// A member of a class, with its metadata (ECMA-408, 10 Classes).
#[derive(Drop)]
pub struct Member {
    pub metadata: Vec<Annotation>,
    pub modifier: Modifier,
    pub kind: MemberKind,
}

/// What stands before a static member (ECMA-408, 10.7 Static Methods and 10.8 Static Variables).
#[derive(Clone, Copy, Debug, PartialEq, Eq)]
pub enum Modifier {
    /// Nothing.
    Omitted,
    /// `static`
    Static(Place),
    /// `external static`
    ExternalStatic(Place, Place),
}

/// What a member declares (ECMA-408, 10 Classes).
#[derive(Drop)]
pub enum MemberKind {
    /// `A.b(c) : d = e;` (10.6 Constructors)
    Constructor(Constructor),
    /// `a(b) { }` (10.1 Instance Methods and 10.7 Static Methods)
    Function(Function),
    /// `get a => b;` (10.2 Getters and 10.3 Setters)
    Accessor(Accessor),
    /// `var a = b;` (10.5 Instance Variables and 10.8 Static Variables)
    Variables(Variables),
    /// `operator +(a) => b;` (10.1.1 Operators)
    Operator(OperatorMember),
}

/// `external int operator +(a) => b;` (ECMA-408, 10.1.1 Operators).
#[derive(Drop)]
pub struct OperatorMember {
    pub external: Option<Place>,
    pub result_type: Option<ResultType>,
    pub word: Place,
    pub name: OperatorName,
    pub parameters: Parameters,
    pub body: Body,
}

/// The operators that a class may declare (ECMA-408, 10.1.1 Operators).
#[derive(Clone, Copy, Debug, PartialEq, Eq)]
pub enum OperatorName {
    /// `+`, `==`, `~` and the like, of one sign
    Sign(Place, Sign),
    /// `> >`
    ShiftRight(Place, Place),
    /// `[ ]`
    Index(Place, Place),
    /// `[ ] =`
    IndexAssign {
        opening: Place,
        closing: Place,
        equals: Place,
    },
}

/// `A` or `A.b`, the name of a constructor (ECMA-408, 10.6 Constructors).
#[derive(Drop)]
pub struct ConstructorName {
    pub class: Identifier,
    pub name: Option<DotName>,
}

/// A constructor (ECMA-408, 10.6 Constructors).
#[derive(Drop)]
pub enum Constructor {
    /// `A(b) : c = d { }` (10.6.1 Generative Constructors) or `const A(b) : c = d;` (10.6.3 Constant Constructors)
    Generative {
        constant: Option<Place>,
        name: ConstructorName,
        parameters: Parameters,
        initializers: Option<Initializers>,
        body: Body,
    },
    /// `A(b) : this.c(d);` (10.6.1, Redirecting Constructors)
    Redirecting {
        name: ConstructorName,
        parameters: Parameters,
        colon: Place,
        this: Place,
        constructor: Option<DotName>,
        arguments: Arguments,
        semicolon: Place,
    },
    /// `factory A(b) { }` (10.6.2 Factories)
    Factory {
        external: Option<Place>,
        word: Place,
        name: ConstructorName,
        parameters: Parameters,
        body: Body,
    },
    /// `factory A(b) = C.d;` (10.6.2 Factories, Redirecting Factory Constructors)
    RedirectingFactory {
        external: Option<Place>,
        word: Place,
        name: ConstructorName,
        parameters: Parameters,
        equals: Place,
        class: TypeNode,
        constructor: Option<DotName>,
        semicolon: Place,
    },
}

/// `: super(a), b = c` (ECMA-408, 10.6.1, Initializer Lists).
#[derive(Drop)]
pub struct Initializers {
    pub colon: Place,
    pub items: Vec<Init>,
}

/// An initializer, with the comma before it (ECMA-408, 10.6.1, Initializer Lists).
#[derive(Drop)]
pub struct Init {
    pub comma: Option<Place>,
    pub kind: InitKind,
}

/// What an initializer does (ECMA-408, 10.6.1, Initializer Lists).
#[derive(Drop)]
pub enum InitKind {
    /// `super.a(b)`
    Super {
        word: Place,
        constructor: Option<DotName>,
        arguments: Arguments,
    },
    /// `this.a = b..c()`
    Field {
        this_dot: Option<ThisDot>,
        name: Identifier,
        equals: Place,
        operand: Operand,
        cascades: Vec<Cascade>,
    },
}
