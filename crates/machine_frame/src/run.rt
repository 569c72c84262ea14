// A run at work: its frames, its stacks and its store.
#![tactic(auto)]

use core_program::form::{Attempt, Binary, Case, Core, Handler, Part, Unary, Way};
use dart_base::name::Name;
use dart_base::place::Place;
use dart_ir::ending::Line;
use dart_ir::types::{TypeRef, Types};
use dart_ir::value::Value;
use dart_store::store::Store;
use std::alloc::Global;

/// The limits that end a turn.
#[derive(Clone, Copy)]
pub enum Limit {
    OutOfSteps,
    OutOfObjects,
    OutOfDepth,
    IntegerLimit,
    NeedsDouble,
    TypeLimit,
}

/// Whose body is at work: a function's, or the initialiser of a static variable, by their numbers.
#[derive(Clone, Copy)]
pub enum Source {
    Function(u32),
    Initialiser(u32),
}

/// What was thrown, and the place of the form that threw it first.
#[derive(Clone, Copy)]
pub struct Caught {
    pub value: Value,
    pub place: Place,
}

/// A body at work, beside its slots.
#[derive(Clone, Copy)]
pub struct Body {
    pub source: Source,
    /// The class at whose declaration a member was found.
    pub owner: u32,
    pub this: Value,
    pub closure: Value,
    /// Whether the last of the run's type arguments are those of the `new` that it answers; another body answers none, or one
    /// without type arguments.
    pub has_types: bool,
    /// What the handler at work has caught.
    pub caught: Option<Caught>,
}

/// The body of no function.
pub const NO_BODY: Body = Body {
    source: Source::Function(0),
    owner: 0,
    this: Value::Null,
    closure: Value::Null,
    has_types: false,
    caught: None,
};

/// The last values of the operands, maybe without the first of them, as what is given to a call.
#[derive(Clone, Copy)]
pub struct Passed<'a> {
    /// The names that the last of the values go by.
    pub names: &'a [Name],
    pub skip: bool,
    pub count: u32,
}

/// What a body is entered with, beside what is given.
#[derive(Clone, Copy)]
pub struct Called {
    pub this: Value,
    pub owner: u32,
    pub closure: Value,
}

/// A loop at work.
#[derive(Clone, Copy)]
pub struct Turn<'a> {
    pub target: u32,
    pub copies: &'a [u32],
    pub condition: &'a Part,
    pub update: &'a Part,
    pub body: &'a Part,
}

/// A switch at work: its place, its number as a target, and its cases.
#[derive(Clone, Copy)]
pub struct Switching<'a> {
    pub at: Place,
    pub target: u32,
    pub cases: &'a [Case],
}

/// What waits for the form that is at work.
#[derive(Clone, Copy)]
pub enum Frame<'a> {
    /// The others of a block.
    Rest(&'a [Core]),
    /// Two parts, of which the answer chooses one.
    Choice(&'a Part, &'a Part),
    /// A variable for the value, and the body in which it stands.
    Let(u32, &'a Core),
    /// What is done with an operand, and whether this is a function.
    Operand(Place, bool, Unary),
    /// The second operand comes next.
    First(Place, Binary, &'a Core),
    /// The first operand's answer is there.
    Second(Place, Binary, Value),
    /// A row, the forms of it that are left, and how many answers are among the operands.
    Row(&'a Core, &'a [Core], u32),
    Test(Turn<'a>),
    Body(Turn<'a>),
    Update(Turn<'a>),
    Returning,
    /// A statement with one label or more.
    Labelled(&'a Core),
    /// Whether the operand's value is of the type.
    Is(&'a TypeRef),
    /// The operand's value, where it is of the type or null.
    As(Place, &'a TypeRef),
    /// A switch whose operand is at work.
    Switch(Switching<'a>),
    /// A case whose statements are at work: whether it has none, and the cases behind it.
    Case(Switching<'a>, bool, &'a [Case]),
    Trying(&'a Attempt),
    /// The type of a handler is malformed, and its form is at work: where the exception was thrown, the handlers behind it, and what
    /// was thrown.
    Refused(Place, &'a Attempt, &'a [Handler], Value),
    /// A handler at work: the final part, and what was caught around.
    Handling(&'a Part, Option<Caught>),
    /// A final part at work: how the form is left once it is done.
    Ending(Exit, Value),
    /// A getter at work, whose value is called with what is given.
    Applying(Place, Passed<'a>),
    /// The answer is this value.
    Answering(Value),
    /// A call of a function: whether its body is a block, how many operands were given, and where the caller's slots begin and how
    /// deep calls may nest in it.
    Caller(Place, bool, u32, u32, u32),
    /// An initialiser at work: where the slots begin of the body that read the variable, and how deep calls may nest in it.
    Restoring(u32, u32),
    /// A static variable whose initialiser is at work.
    Settling(Place, u32),
}

const _: () = prove!(size_of::<Frame>() <= 64);

/// How a form is left: what it answers, returns or throws is the run's answer.
#[derive(Clone, Copy)]
pub enum Exit {
    Answered,
    Jumps(Way, u32),
    Returns,
    Throws(Place),
    Over(Limit),
}

/// What the machine does next.
#[derive(Clone, Copy)]
pub enum Control<'a> {
    Enter(&'a Core),
    Leave(Exit),
}

const _: () = prove!(size_of::<Control>() <= 24);

/// A run at work.
#[derive(Drop)]
pub struct Run<'a> {
    pub alloc: Global,
    pub frames: Vec<Frame<'a>>,
    /// The variables of all bodies at work; those of the topmost begin at the base.
    pub slots: Vec<Value>,
    pub base: u32,
    pub operands: Vec<Value>,
    /// The type arguments of those `new`s that bodies at work answer, where there are any.
    pub types: Vec<Types>,
    pub body: Body,
    /// The bodies that wait for the one at work, the last of them for itself.
    pub callers: Vec<Body>,
    pub answer: Value,
    /// How deep calls may nest from here.
    pub depth: u32,
    pub left: u64,
    pub store: Store,
    pub output: Vec<Line>,
}
