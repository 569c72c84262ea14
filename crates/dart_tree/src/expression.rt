// Expressions.
//
// A list whose items are parted by commas keeps the comma before each item, which the first item lacks.
use crate::identifier::{DotName, Identifier, Label};
use crate::operator::Operator;
use crate::parameter::Parameters;
use crate::statement::Body;
use crate::types::{TypeArguments, TypeNode};
use dart_base::bytes::Bytes;
use dart_base::place::Place;
use dart_token::token::Quote;

/// An expression (ECMA-408, 16 Expressions).
#[cycle(tree)]
pub enum Expr {
    /// `a = b` or `a += b` (16.19 Assignment)
    Assign {
        target: Operand,
        operator: Operator,
        value: Box<Expr>,
    },
    /// `a` or `a..b = c..d()` (16.17 Method Invocation, Cascaded Invocations)
    Plain(Operand, Vec<Cascade>),
    /// `throw a` (16.9 Throw)
    Throw(Place, Box<Expr>),
}

// The enums of the trees implement the trait themselves, so a crate above need not prove again what each holds.
impl Drop for Expr {
    #[cycle(drops)]
    fn drop(self) {
        match self {
            Expr::Assign {
                target: _,
                operator: _,
                value: _,
            } => {}
            Expr::Plain(_, _) => {}
            Expr::Throw(_, _) => {}
        }
    }
}

/// What an operator applies to: the levels from a conditional to a postfix expression, and a primary (ECMA-408, 16.20
/// Conditional to 16.35 Type Cast).
#[cycle(tree)]
pub enum Operand {
    /// `a ? b : c` (16.20 Conditional)
    Conditional {
        condition: Box<Operand>,
        question: Place,
        first: Box<Expr>,
        colon: Place,
        second: Box<Expr>,
    },
    /// `a + b - c`, a chain of one level of binary operators: `||`, `&&`, equality, relation, `|`, `^`, `&`, shift,
    /// sum and product (16.22 to 16.28)
    Binary(Box<Operand>, Vec<Tail>),
    /// `a is T` or `a is! T` (16.34 Type Test)
    Is {
        operand: Box<Operand>,
        word: Place,
        bang: Option<Place>,
        type_node: Box<TypeNode>,
    },
    /// `a as T` (16.35 Type Cast)
    As {
        operand: Box<Operand>,
        word: Place,
        type_node: Box<TypeNode>,
    },
    /// `-a`, `!a`, `~a`, `++a` or `--a` (16.29 Unary Expressions)
    Prefix(Operator, Box<Operand>),
    /// `a.b[c](d)`, `a++` or `a.b--` (16.31 Postfix Expressions)
    Postfix {
        primary: Box<Primary>,
        selectors: Vec<Selector>,
        operator: Option<Operator>,
    },
    /// `a`
    Primary(Primary),
}

impl Drop for Operand {
    #[cycle(drops)]
    fn drop(self) {
        match self {
            Operand::Conditional {
                condition: _,
                question: _,
                first: _,
                colon: _,
                second: _,
            } => {}
            Operand::Binary(_, _) => {}
            Operand::Is {
                operand: _,
                word: _,
                bang: _,
                type_node: _,
            } => {}
            Operand::As {
                operand: _,
                word: _,
                type_node: _,
            } => {}
            Operand::Prefix(_, _) => {}
            Operand::Postfix {
                primary: _,
                selectors: _,
                operator: _,
            } => {}
            Operand::Primary(_) => {}
        }
    }
}

/// What a selector applies to (ECMA-408, 16 Expressions).
#[cycle(tree)]
pub enum Primary {
    /// `super.a`, `super[a]` or `super(a)` (16.17.3 Super Invocation)
    Super(Place, Box<Selector>),
    /// `super` where an operator is called on it (16.22 to 16.29)
    BareSuper(Place),
    /// `this`, a literal of one token or an identifier (16.2 to 16.4, 16.11 This, 16.33 Identifier Reference)
    Atom(Atom),
    /// `'a' 'b$c ${d} e'` (16.5 Strings)
    Text(Vec<StringPiece>),
    /// `<A>[a, b]` (16.7 Lists)
    List {
        type_arguments: Box<TypeArguments>,
        opening: Place,
        items: Vec<Item>,
        comma: Option<Place>,
        closing: Place,
    },
    /// `<A, B>{a: b, c: d}` (16.8 Maps)
    Map {
        type_arguments: Box<TypeArguments>,
        opening: Place,
        entries: Vec<Entry>,
        comma: Option<Place>,
        closing: Place,
    },
    /// `new A.b(c)` or `const A.b(c)` (16.12 Instance Creation)
    New {
        creation: Creation,
        class: Box<TypeNode>,
        constructor: Box<Option<DotName>>,
        arguments: Box<Arguments>,
    },
    /// `(a) => b` or `(a) { b; }` (16.10 Function Expressions)
    Function(Box<Parameters>, Body),
    /// `(a)` (16 Expressions)
    Parenthesized {
        opening: Place,
        value: Box<Expr>,
        closing: Place,
    },
}

impl Drop for Primary {
    #[cycle(drops)]
    fn drop(self) {
        match self {
            Primary::Super(_, _) => {}
            Primary::BareSuper(_) => {}
            Primary::Atom(_) => {}
            Primary::Text(_) => {}
            Primary::List {
                type_arguments: _,
                opening: _,
                items: _,
                comma: _,
                closing: _,
            } => {}
            Primary::Map {
                type_arguments: _,
                opening: _,
                entries: _,
                comma: _,
                closing: _,
            } => {}
            Primary::New {
                creation: _,
                class: _,
                constructor: _,
                arguments: _,
            } => {}
            Primary::Function(_, _) => {}
            Primary::Parenthesized {
                opening: _,
                value: _,
                closing: _,
            } => {}
        }
    }
}

/// The word that creates an instance, at its place (ECMA-408, 16.12 Instance Creation).
#[derive(Clone, Copy, Debug, PartialEq, Eq)]
pub enum Creation {
    /// `new` (16.12.1 New)
    New(Place),
    /// `const` (16.12.2 Const)
    Const(Place),
}

/// An expression of one token (ECMA-408, 16 Expressions).
#[derive(Drop)]
pub enum Atom {
    /// `this` (16.11 This)
    This(Place),
    /// `null` (16.2 Null)
    Null(Place),
    /// `true` (16.4 Booleans)
    True(Place),
    /// `false` (16.4 Booleans)
    False(Place),
    /// `12` or `0x1F` (16.3 Numbers)
    Integer(Place, Bytes),
    /// `a` (16.33 Identifier Reference)
    Name(Identifier),
}

/// `+ a`, an operand with the operator before it (ECMA-408, 16.22 to 16.28).
#[cycle(tree)]
#[derive(Drop)]
pub struct Tail {
    pub operator: Operator,
    pub operand: Operand,
}

/// Which part of a string a piece is (ECMA-408, 16.5.1 String Interpolation).
#[derive(Clone, Copy, Debug, PartialEq, Eq)]
pub enum PieceKind {
    /// `'a'`
    Whole,
    /// `'a${`
    Head(Quote),
    /// `}a${`
    Middle,
    /// `}a'`
    Tail,
}

/// A piece of a string, with the interpolated expression that follows a head or a middle (ECMA-408, 16.5 Strings).
#[cycle(tree)]
#[derive(Drop)]
pub struct StringPiece {
    pub kind: PieceKind,
    pub place: Place,
    pub text: Bytes,
    pub value: Value,
}

/// A selector (ECMA-408, 16.14 to 16.18).
#[cycle(tree)]
pub enum Selector {
    /// `.a`, or `a` directly behind the `..` of a cascade (16.17 Method Invocation and 16.18 Property Extraction)
    Member(Option<Place>, Identifier),
    /// `[a]` (16.32 Assignable Expressions)
    Index {
        opening: Place,
        value: Box<Expr>,
        closing: Place,
    },
    /// `(a, b: c)` (16.14 Function Invocation)
    Call(Arguments),
}

impl Drop for Selector {
    #[cycle(drops)]
    fn drop(self) {
        match self {
            Selector::Member(_, _) => {}
            Selector::Index {
                opening: _,
                value: _,
                closing: _,
            } => {}
            Selector::Call(_) => {}
        }
    }
}

/// `..a.b(c)` or `..a[b] = c` (ECMA-408, 16.17.2 Cascaded Invocations).
///
/// The first selector is an index, or a member without a dot of its own.
#[cycle(tree)]
#[derive(Drop)]
pub struct Cascade {
    pub dots: Place,
    pub selectors: Vec<Selector>,
    pub value: Value,
}

/// An expression that may be left out, with the sign before it where it has one: `= a`, `: a`, `+= a` or `a`
/// (ECMA-408, 8 Variables, 9.2.2 Optional Formals and 16.19 Assignment).
#[cycle(tree)]
pub enum Value {
    /// Nothing.
    Omitted,
    /// `a` or `= a`
    Given(Option<Operator>, Box<Expr>),
}

impl Drop for Value {
    #[cycle(drops)]
    fn drop(self) {
        match self {
            Value::Omitted => {}
            Value::Given(_, _) => {}
        }
    }
}

/// `(a, b: c)` (ECMA-408, 16.14.1 Actual Argument List Evaluation).
#[cycle(tree)]
#[derive(Drop)]
pub struct Arguments {
    pub opening: Place,
    pub items: Vec<Item>,
    pub closing: Place,
}

/// An argument, an element of a list literal or an update of a `for` (ECMA-408, 16.14.1, 16.7 Lists and 17.6.1 For
/// Loop).
#[cycle(tree)]
#[derive(Drop)]
pub struct Item {
    pub comma: Option<Place>,
    pub label: Option<Label>,
    pub value: Expr,
}

/// `a: b` in a map literal (ECMA-408, 16.8 Maps).
#[cycle(tree)]
#[derive(Drop)]
pub struct Entry {
    pub comma: Option<Place>,
    pub key: Expr,
    pub colon: Place,
    pub value: Expr,
}
