// The forms of the core language. Each entry of a form takes a step, but for `Labelled`, which is none of its own.

use dart_base::name::Name;
use dart_base::place::Place;
use dart_ir::class::Role;
use dart_ir::kind::ThrowKind;
use dart_ir::native::NativeId;
use dart_ir::number::{ClassId, DeclId, SiteId};
use dart_ir::types::{TypeRef, Types};
use dart_ir::value::Value;

/// A form with its place: that of the first token, among those that erasure keeps, of the node that it translates.
#[derive(Drop)]
#[cycle(core)]
pub struct Core {
    pub place: Place,
    pub form: Form,
}

/// A form. Variables are numbered through a whole outermost function or initialiser, and so are the targets of
/// jumps. Operands are entered from left to right.
#[cycle(core)]
pub enum Form {
    /// A form without parts.
    Leaf(Leaf),
    /// The value that a type is (ECMA-408, 16.33 Identifier Reference).
    TypeLiteral(TypeRef),
    /// A form with one operand.
    Unary(Unary, Box<Core>),
    /// A form with two operands.
    Binary(Binary, Box<Core>, Box<Core>),
    /// A form with any number of operands.
    Row(Job, Arguments),
    /// A fresh variable with the value, for the body.
    Let {
        var: u32,
        value: Box<Core>,
        body: Box<Core>,
    },
    /// The parts in order; the last one's answer is the block's (17.1 Blocks).
    Block(Vec<Core>),
    /// The first part exactly where the condition is `true`, else the second (17.5 If).
    If {
        condition: Box<Core>,
        first: Part,
        second: Part,
    },
    /// A new object by a constructor or factory of the class (16.12 Instance Creation).
    New {
        class: ClassId,
        constructor: DeclId,
        types: Types,
        arguments: Arguments,
    },
    /// A growable list (16.7 Lists).
    List {
        types: Types,
        items: Vec<Core>,
    },
    /// Whether the value is of the type (16.34 Type Test).
    Is(Box<Core>, TypeRef),
    /// The value, where it is of the type or null (16.35 Type Cast).
    As(Box<Core>, TypeRef),
    /// In each turn, which takes a step, the condition, the body, fresh copies of the variables, and the update
    /// (17.6 For, 17.7 While and 17.8 Do).
    Loop {
        target: u32,
        copies: Vec<u32>,
        condition: Part,
        update: Part,
        body: Part,
    },
    /// The function returns the value, or null (17.12 Return).
    Return(Part),
    /// A body whose exceptions are handled (17.11 Try).
    Try(Box<Attempt>),
    /// The case whose value is that of the operand, or the default, and no case after it (17.9 Switch).
    Switch {
        target: u32,
        value: Box<Core>,
        cases: Vec<Case>,
    },
    /// A statement with a label that is neither a loop nor a switch: it takes no step (17.13 Labels).
    Labelled(u32, Box<Core>),
}

// Each enum implements the trait itself, so a crate above need not prove again what a form holds.
impl Drop for Form {
    #[cycle(drops)]
    fn drop(self) {
        match self {
            Form::Leaf(_) => {}
            Form::TypeLiteral(_) => {}
            Form::Unary(_, _) => {}
            Form::Binary(_, _, _) => {}
            Form::Row(_, _) => {}
            Form::Let {
                var: _,
                value: _,
                body: _,
            } => {}
            Form::Block(_) => {}
            Form::If {
                condition: _,
                first: _,
                second: _,
            } => {}
            Form::New {
                class: _,
                constructor: _,
                types: _,
                arguments: _,
            } => {}
            Form::List { types: _, items: _ } => {}
            Form::Is(_, _) => {}
            Form::As(_, _) => {}
            Form::Loop {
                target: _,
                copies: _,
                condition: _,
                update: _,
                body: _,
            } => {}
            Form::Return(_) => {}
            Form::Try(_) => {}
            Form::Switch {
                target: _,
                value: _,
                cases: _,
            } => {}
            Form::Labelled(_, _) => {}
        }
    }
}

/// A form without parts.
#[derive(Clone, Copy, Debug, PartialEq, Eq)]
pub enum Leaf {
    /// A constant: a literal, a static or top-level function, or an object of the program's constants.
    Const(Value),
    /// `this` (ECMA-408, 16.10 This)
    This,
    /// A variable.
    Read(u32),
    /// A static or library variable.
    StaticRead(DeclId),
    /// The field of `this` with the number, counted from `Object`'s end of the chain.
    Field(u32),
    /// A function literal or local function (16.9 Function Expressions).
    Closure(DeclId),
    /// Out of the target, or on with it (17.14 Break and 17.15 Continue).
    Jump(Way, u32),
    /// What the handler around has caught is thrown again (17.10 Rethrow).
    Rethrow,
    /// Throws the error, whose message is the name; for a setter the name ends in `=`.
    Raise {
        error: ThrowKind,
        name: Name,
        is_setter: bool,
    },
}

/// Which way a jump goes.
#[derive(Clone, Copy, Debug, PartialEq, Eq)]
pub enum Way {
    /// Out of the target.
    Break,
    /// On with the next turn of the loop.
    Continue,
    /// On with the case of the switch, counted from 0.
    Case(u32),
}

/// What is done with one operand.
#[derive(Clone, Copy, Debug, PartialEq, Eq)]
pub enum Unary {
    /// A fresh variable with the value (ECMA-408, 17.3 Local Variable Declaration).
    Var(u32),
    /// A variable is written; the answer is the value.
    Write(u32),
    /// A static or library variable is written; the answer is the value.
    StaticWrite(DeclId),
    /// The field of `this` with the number is written; the answer is the value.
    FieldWrite(u32),
    /// A getter is called or a method taken off the operand (16.18 Property Extraction).
    Get(Name),
    /// The answer is the value, which is tested in checked mode.
    Check(SiteId),
    /// The value is thrown (16.4 Throw).
    Throw,
}

/// What is done with two operands.
#[derive(Clone, Copy, Debug, PartialEq, Eq)]
pub enum Binary {
    /// `a == b` (ECMA-408, 16.24 Equality)
    Equal,
    /// A setter of the first operand is called; the answer is the second operand.
    Set(Name),
}

/// What is done with a row of operands.
#[derive(Clone, Copy, Debug, PartialEq, Eq)]
pub enum Job {
    /// A method of the first operand is called with the others (ECMA-408, 16.17 Method Invocation).
    Send(Name),
    /// A member of the superclass is called on `this`; as a setter the answer is the operand (16.17.3 Super Invocation).
    Super(Role, Name),
    /// A static or top-level function is called (16.14 Function Invocation).
    Call(DeclId),
    /// The first operand is called with the others.
    Apply,
    /// Another constructor goes on with `this`.
    SuperNew(DeclId),
    /// The texts of the operands in one string (16.5 Strings).
    Join,
    /// A native is called with all operands.
    Native(NativeId),
}

/// Operands in order, the last of which go by name.
#[derive(Drop)]
#[cycle(core)]
pub struct Arguments {
    pub forms: Vec<Core>,
    /// The names of as many of the last operands.
    pub names: Vec<Name>,
}

/// A part that may be missing: then it takes no step, and counts as null, or as true where it is a condition.
#[cycle(core)]
pub enum Part {
    Missing,
    Given(Box<Core>),
}

impl Drop for Part {
    #[cycle(drops)]
    fn drop(self) {
        match self {
            Part::Missing => {}
            Part::Given(_) => {}
        }
    }
}

/// A `try`: the body, the first handler that takes what it throws, and last the final part (ECMA-408, 17.11 Try).
#[derive(Drop)]
#[cycle(core)]
pub struct Attempt {
    pub body: Core,
    pub handlers: Vec<Handler>,
    pub last: Part,
}

/// A part of a `try` that catches (ECMA-408, 17.11 Try).
#[derive(Drop)]
#[cycle(core)]
pub struct Handler {
    pub test: Test,
    /// The variable that holds what was thrown.
    pub exception: Option<u32>,
    /// The variable that holds the stack trace.
    pub trace: Option<u32>,
    pub body: Core,
}

/// What a handler takes. The test itself takes no step.
#[cycle(core)]
pub enum Test {
    Everything,
    /// What is of the type.
    On(TypeRef),
    /// The type is malformed: the form, which throws, is entered where the test is reached.
    Malformed(Box<Core>),
}

impl Drop for Test {
    #[cycle(drops)]
    fn drop(self) {
        match self {
            Test::Everything => {}
            Test::On(_) => {}
            Test::Malformed(_) => {}
        }
    }
}

/// A case of a switch: its value, none for the default, and its statements as one block.
#[derive(Drop)]
#[cycle(core)]
pub struct Case {
    pub value: Option<Value>,
    pub body: Core,
}
