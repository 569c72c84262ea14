// What a library declares.
ghost use Rattle.std.specs.Prelude.{◌≡◌};

use crate::table::Keyed;
use dart_base::name::Name;

/// The kind of a declaration of a library (ECMA-408, Libraries and Scripts).
#[derive(Clone, Copy)]
pub enum Kind {
    /// A class (10 Classes).
    Class,
    /// A type alias (19.3.1 Typedef).
    Alias,
    /// A variable (8 Variables).
    Variable,
    /// A function (9 Functions), with the number of its required positional parameters.
    Function { required: u32 },
    /// A getter (10.2 Getters).
    Getter,
    /// A setter (10.3 Setters).
    Setter,
}

/// A declaration of a library under its name. A getter and a setter of one name are two declarations.
#[derive(Clone, Copy)]
pub struct Declaration {
    pub name: Name,
    /// The number of the declaration in the program.
    pub number: u32,
    pub kind: Kind,
    /// Whether the text of the name begins with `_` (6.2 Privacy).
    pub is_private: bool,
}

impl Keyed for Declaration {
    ghost key_of = { λ declaration. declaration.name.0 };

    fn key(&self) -> u32 {
        self.name.0
    }
}
