// Statements, local variables and functions.
use crate::expression::{Expr, Item, Value};
use crate::identifier::{CommaName, Identifier, Label};
use crate::parameter::{Parameters, VariableKind};
use crate::types::{ResultType, TypeNode};
use dart_base::place::Place;

/// `{ a; b; }` (ECMA-408, 17.1 Blocks).
#[cycle(tree)]
#[derive(Drop)]
pub struct Block {
    pub opening: Place,
    pub statements: Vec<Stmt>,
    pub closing: Place,
}

/// A statement (ECMA-408, 17 Statements).
#[cycle(tree)]
pub enum Stmt {
    /// `a: b: c;` (17.13 Labels)
    Labelled(Vec<Label>, Box<Stmt>),
    /// `{ a; }` (17.1 Blocks)
    Block(Block),
    /// `var a = b;` (17.3 Local Variable Declaration)
    Variables(Variables),
    /// `a(b) { c; }` (17.4 Local Function Declaration)
    Function(Box<Function>),
    /// `if (a) b;` (17.5 If)
    If {
        word: Place,
        opening: Place,
        condition: Expr,
        closing: Place,
        first: Box<Stmt>,
    },
    /// `if (a) b; else c;` (17.5 If)
    IfElse {
        word: Place,
        opening: Place,
        condition: Expr,
        closing: Place,
        first: Box<Stmt>,
        else_word: Place,
        second: Box<Stmt>,
    },
    /// `for (a; b; c) d;`, `while (a) b;` and the like (17.6 For, 17.7 While and 17.8 Do)
    Loop(Box<Loop>),
    /// `switch (a) { case b: c; default: d; }` (17.9 Switch)
    Switch {
        word: Place,
        opening: Place,
        value: Expr,
        closing: Place,
        opening_brace: Place,
        parts: Vec<SwitchPart>,
        closing_brace: Place,
    },
    /// `try { a; } on A catch (b) { c; } finally { d; }` (17.11 Try)
    Try {
        word: Place,
        block: Block,
        parts: Vec<TryPart>,
    },
    /// `return;` or `return a;` (17.12 Return)
    Return {
        word: Place,
        value: Value,
        semicolon: Place,
    },
    /// `break a;`, `continue a;` or `rethrow;` (17.14 Break, 17.15 Continue and 17.10 Rethrow)
    Jump(Jump),
    /// `a;` or `;` (17.2 Expression Statements)
    Expression(Value, Place),
}

impl Drop for Stmt {
    #[cycle(drops)]
    fn drop(self) {
        match self {
            Stmt::Labelled(_, _) => {}
            Stmt::Block(_) => {}
            Stmt::Variables(_) => {}
            Stmt::Function(_) => {}
            Stmt::If {
                word: _,
                opening: _,
                condition: _,
                closing: _,
                first: _,
            } => {}
            Stmt::IfElse {
                word: _,
                opening: _,
                condition: _,
                closing: _,
                first: _,
                else_word: _,
                second: _,
            } => {}
            Stmt::Loop(_) => {}
            Stmt::Switch {
                word: _,
                opening: _,
                value: _,
                closing: _,
                opening_brace: _,
                parts: _,
                closing_brace: _,
            } => {}
            Stmt::Try {
                word: _,
                block: _,
                parts: _,
            } => {}
            Stmt::Return {
                word: _,
                value: _,
                semicolon: _,
            } => {}
            Stmt::Jump(_) => {}
            Stmt::Expression(_, _) => {}
        }
    }
}

/// A loop (ECMA-408, 17.6 For, 17.7 While and 17.8 Do).
#[cycle(tree)]
pub enum Loop {
    /// `for (a; b; c) d;` (17.6.1 For Loop)
    For {
        word: Place,
        opening: Place,
        start: Value,
        first_semicolon: Place,
        condition: Value,
        second_semicolon: Place,
        updates: Vec<Item>,
        closing: Place,
        body: Box<Stmt>,
    },
    /// `for (var a = b; c; d) e;` (17.6.1 For Loop)
    ForVariables {
        word: Place,
        opening: Place,
        variables: Variables,
        condition: Value,
        semicolon: Place,
        updates: Vec<Item>,
        closing: Place,
        body: Box<Stmt>,
    },
    /// `for (a in b) c;` or `for (int a in b) c;` (17.6.2 For-in)
    ForIn {
        word: Place,
        opening: Place,
        kind: VariableKind,
        name: Identifier,
        in_word: Place,
        iterated: Expr,
        closing: Place,
        body: Box<Stmt>,
    },
    /// `while (a) b;` (17.7 While)
    While {
        word: Place,
        opening: Place,
        condition: Expr,
        closing: Place,
        body: Box<Stmt>,
    },
    /// `do a; while (b);` (17.8 Do)
    Do {
        word: Place,
        body: Box<Stmt>,
        while_word: Place,
        opening: Place,
        condition: Expr,
        closing: Place,
        semicolon: Place,
    },
}

impl Drop for Loop {
    #[cycle(drops)]
    fn drop(self) {
        match self {
            Loop::For {
                word: _,
                opening: _,
                start: _,
                first_semicolon: _,
                condition: _,
                second_semicolon: _,
                updates: _,
                closing: _,
                body: _,
            } => {}
            Loop::ForVariables {
                word: _,
                opening: _,
                variables: _,
                condition: _,
                semicolon: _,
                updates: _,
                closing: _,
                body: _,
            } => {}
            Loop::ForIn {
                word: _,
                opening: _,
                kind: _,
                name: _,
                in_word: _,
                iterated: _,
                closing: _,
                body: _,
            } => {}
            Loop::While {
                word: _,
                opening: _,
                condition: _,
                closing: _,
                body: _,
            } => {}
            Loop::Do {
                word: _,
                body: _,
                while_word: _,
                opening: _,
                condition: _,
                closing: _,
                semicolon: _,
            } => {}
        }
    }
}

/// A statement of a word and perhaps a label (ECMA-408, 17.14 Break, 17.15 Continue and 17.10 Rethrow).
#[derive(Drop)]
pub enum Jump {
    /// `break a;` (17.14 Break)
    Break {
        word: Place,
        label: Option<Identifier>,
        semicolon: Place,
    },
    /// `continue a;` (17.15 Continue)
    Continue {
        word: Place,
        label: Option<Identifier>,
        semicolon: Place,
    },
    /// `rethrow;` (17.10 Rethrow)
    Rethrow(Place, Place),
}

/// `var a = b, c;` (ECMA-408, 8 Variables).
#[cycle(tree)]
#[derive(Drop)]
pub struct Variables {
    pub kind: VariableKind,
    pub name: Identifier,
    pub value: Value,
    pub more: Vec<Variable>,
    pub semicolon: Place,
}

/// `, a = b`, a further variable (ECMA-408, 8 Variables).
#[cycle(tree)]
#[derive(Drop)]
pub struct Variable {
    pub comma: Place,
    pub name: Identifier,
    pub value: Value,
}

/// `a: case b: c;`, or `default: c;` where there is no value (ECMA-408, 17.9 Switch).
#[cycle(tree)]
#[derive(Drop)]
pub struct SwitchPart {
    pub labels: Vec<Label>,
    pub word: Place,
    pub value: Value,
    pub colon: Place,
    pub statements: Vec<Stmt>,
}

/// A part of a `try` behind its block (ECMA-408, 17.11 Try).
#[cycle(tree)]
#[derive(Drop)]
pub struct TryPart {
    pub kind: TryKind,
    pub block: Block,
}

/// What begins a part of a `try` (ECMA-408, 17.11 Try).
#[derive(Drop)]
pub enum TryKind {
    /// `on A` or `on A catch (b)`
    On {
        word: Place,
        type_node: TypeNode,
        catch: Option<Catch>,
    },
    /// `catch (a)`
    Catch(Catch),
    /// `finally`
    Finally(Place),
}

/// `catch (a, b)` (ECMA-408, 17.11 Try).
#[derive(Drop)]
pub struct Catch {
    pub word: Place,
    pub opening: Place,
    pub exception: Identifier,
    pub trace: Option<CommaName>,
    pub closing: Place,
}

/// `external int a(b) => c;` (ECMA-408, 9 Functions).
#[cycle(tree)]
#[derive(Drop)]
pub struct Function {
    pub external: Option<Place>,
    pub result_type: Option<ResultType>,
    pub name: Identifier,
    pub parameters: Parameters,
    pub body: Body,
}

/// The body of a function (ECMA-408, 9 Functions).
#[cycle(tree)]
pub enum Body {
    /// `=> a;`, or `=> a` in a function literal (9 Functions and 16.10 Function Expressions)
    Arrow {
        arrow: Place,
        value: Box<Expr>,
        semicolon: Option<Place>,
    },
    /// `{ a; }` (9 Functions)
    Block(Block),
    /// `;`, as behind `external` or in an abstract method (9 Functions and 10.4 Abstract Instance Members)
    Omitted(Place),
}

impl Drop for Body {
    #[cycle(drops)]
    fn drop(self) {
        match self {
            Body::Arrow {
                arrow: _,
                value: _,
                semicolon: _,
            } => {}
            Body::Block(_) => {}
            Body::Omitted(_) => {}
        }
    }
}
