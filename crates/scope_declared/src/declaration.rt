// Declarations, and where they count.
ghost use Rattle.std.specs.Prelude.{◌≡◌, ◌↔◌, IsTrue};
ghost use Rattle.scope_declared.specs.Kinds.{is_numbered};

use dart_base::name::Name;
use dart_base::place::Place;

/// What is a scope of statements: the token that tells it from other scopes, and its last token (ECMA-408, 6.1 Scoping).
#[derive(Clone, Copy, Debug, PartialEq, Eq)]
pub struct Scope {
    pub place: Place,
    pub last: Place,
}

/// Where a declaration counts: behind the token at `after`, up to the token at `last`, which counts still (ECMA-408, 6.1
/// Scoping). `scope` is the place of the scope that it is declared in.
#[derive(Clone, Copy, Debug, PartialEq, Eq)]
pub struct Extent {
    pub scope: Place,
    pub after: Place,
    pub last: Place,
}

/// Whose a function, an accessor or a variable that isn't local is.
#[derive(Clone, Copy, Debug, PartialEq, Eq)]
pub enum Owner {
    /// The library's (ECMA-408, 18 Libraries and Scripts).
    Library,
    /// The class's, as what is `static` (10.7 Static Methods and 10.8 Static Variables).
    Class,
    /// Each object's (10.1 Instance Methods and 10.5 Instance Variables).
    Object,
}

/// What a name that isn't local can be used for.
#[derive(Clone, Copy, Debug, PartialEq, Eq)]
pub enum Role {
    /// `a(b) { }` (ECMA-408, 9 Functions)
    Function,
    /// `get a => b;` (10.2 Getters)
    Getter,
    /// `set a(b) { }` (10.3 Setters)
    Setter,
    /// `var a;`, which is read and set (8 Variables)
    Variable,
    /// `final a = b;` or `const a = b;`, which is read alone (8 Variables)
    Final,
}

/// What is declared (ECMA-408, 6.1 Scoping).
#[derive(Clone, Copy, Debug, PartialEq, Eq)]
pub enum DeclaredKind {
    /// A local variable, a variable of a `for`, or one of a `catch` (17.3, 17.6 and 17.11)
    LocalVariable,
    /// A local function (17.4 Local Function Declaration)
    LocalFunction,
    /// A parameter (9.2 Formal Parameters)
    Parameter,
    /// An initialising formal, `this.a` (10.6.1 Generative Constructors)
    Formal,
    /// A type parameter, with its number in its list, from 0 (14 Generics)
    TypeParameter(usize),
    /// A function literal, which has no name (16.10 Function Expressions)
    Literal,
    /// A class, or the class that an enum stands for (10 Classes and 13 Enums)
    Class,
    /// An alias of a function type (19.3.1 Typedef)
    Alias,
    /// A function, an accessor or a variable of a library or class
    Owned(Owner, Role),
    /// An operator (10.1.1 Operators)
    Operator,
    /// A constructor that has its class's name (10.6 Constructors)
    Constructor,
    /// A constructor with a name of its own behind its class's (10.6 Constructors)
    NamedConstructor,
}

impl DeclaredKind {
    /// Whether it has a number among the declarations of a program: parameters, local variables and type parameters have
    /// none.
    pub fn is_numbered(self) -> bool
        ensures { result ≡ is_numbered self }
    {
        match self {
            DeclaredKind::LocalFunction
            | DeclaredKind::Literal
            | DeclaredKind::Class
            | DeclaredKind::Alias
            | DeclaredKind::Owned(_, _)
            | DeclaredKind::Operator
            | DeclaredKind::Constructor
            | DeclaredKind::NamedConstructor => true,
            DeclaredKind::LocalVariable
            | DeclaredKind::Parameter
            | DeclaredKind::Formal
            | DeclaredKind::TypeParameter(_) => false,
        }
    }
}

/// A declaration: its name, the place of the token that names it, and where it counts (ECMA-408, 6.1 Scoping).
///
/// A constructor with a name of its own has that name and its place; a function literal has `NO_NAME` and the place of its
/// first token; what a class has since it stands for an enum has the place of the enum's name.
#[derive(Clone, Copy, Debug, PartialEq, Eq)]
pub struct Declared {
    pub name: Name,
    pub place: Place,
    pub kind: DeclaredKind,
    pub extent: Extent,
}
