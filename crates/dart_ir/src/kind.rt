// The kinds of sites, of errors and of parameters.
ghost use Rattle.std.specs.Prelude.{◌≡◌};
ghost use Rattle.dart_ir.specs.Kind.{site_kind_text};

/// What a site tests. Another one is also a line of `site_kind_text` in specs/Kind.antt.
#[derive(Clone, Copy, Debug, PartialEq, Eq)]
pub enum SiteKind {
    /// The initial value of a variable.
    VarInit,
    /// A value that is assigned to a variable.
    Assign,
    /// A value that an implicit setter stores in a field.
    FieldStore,
    /// A value that a constructor puts into a field.
    FieldInit,
    /// A value that is bound to a parameter.
    Param,
    /// A value that is returned.
    Return,
    /// A value that is converted to a boolean, and is neither null nor a boolean.
    Condition,
    /// A value that is converted to a boolean, and is null.
    NullCondition,
    /// An element of a list literal, or a key or a value of a map literal.
    Element,
    /// The type arguments of `new` against their bounds.
    Bound,
    /// The value of a `switch` against the class of its cases.
    SwitchClass,
}

impl SiteKind {
    /// The kind as a report shows it.
    pub fn text(self) -> &'static [u8]
        ensures { result.now ≡ site_kind_text self }
    {
        match self {
            SiteKind::VarInit => b"VarInit",
            SiteKind::Assign => b"Assign",
            SiteKind::FieldStore => b"FieldStore",
            SiteKind::FieldInit => b"FieldInit",
            SiteKind::Param => b"Param",
            SiteKind::Return => b"Return",
            SiteKind::Condition => b"Condition",
            SiteKind::NullCondition => b"NullCondition",
            SiteKind::Element => b"Element",
            SiteKind::Bound => b"Bound",
            SiteKind::SwitchClass => b"SwitchClass",
        }
    }
}

/// The class of an error or exception that the evaluator or a native throws, in the order of the prelude.
#[derive(Clone, Copy, Debug, PartialEq, Eq)]
pub enum ThrowKind {
    Exception,
    Error,
    ArgumentError,
    RangeError,
    StateError,
    UnsupportedError,
    NoSuchMethodError,
    CastError,
    TypeError,
    NullThrownError,
    FallThroughError,
    CyclicInitializationError,
    AbstractClassInstantiationError,
    MalformedTypeError,
    FormatException,
    IntegerDivisionByZeroException,
}

/// How a parameter takes its argument (ECMA-408, 9.2 Formal Parameters).
#[derive(Clone, Copy, Debug, PartialEq, Eq)]
pub enum Shape {
    Required,
    /// By place, with a default value.
    Optional,
    /// By name, with a default value.
    Named,
}
