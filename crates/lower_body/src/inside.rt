// What names mean inside of a class, where variables are numbered from 0 on.
ghost use Rattle.std.specs.Prelude.{◌≡◌};
ghost use Rattle.translation.specs.ClassBodies as b;
ghost use Rattle.lower_leaf.specs.Around.{meaning};
ghost use Rattle.lower_leaf.specs.Seen.{seen};
ghost use Rattle.lower_body.specs.Inside.{entered, left};
ghost use Rattle.lower_body.specs.Views.{NamesClasses};

use dart_ir::number::ClassId;
use lower_leaf::meaning::{Meaning, Outer};
use lower_leaf::state::State;
use lower_leaf::surroundings::Surroundings;

/// What stands around a class.
#[derive(Clone, Copy, Debug, PartialEq, Eq)]
pub struct BeforeClass {
    pub outer: Outer,
    /// The number of the next variable.
    pub variables: u32,
}

/// The class that a name means; where it means none, the first of the table.
pub fn class_number(of: Meaning) -> ClassId
    ensures { result.0 ≡ b.class_number (meaning of) }
{
    match of {
        Meaning::Class(class) => class,
        Meaning::Function(_) => ClassId(0),
        Meaning::Variable(_, _) => ClassId(0),
        Meaning::Accessors(_, _) => ClassId(0),
        Meaning::Alias(_) => ClassId(0),
        Meaning::TypeParameter(_) => ClassId(0),
        Meaning::Member => ClassId(0),
        Meaning::Prefix => ClassId(0),
        Meaning::Ambiguous => ClassId(0),
        Meaning::Unknown => ClassId(0),
    }
}

/// Where names are looked up inside of a class of the library.
pub fn class_outer<S: Surroundings>(outside: &S, library: u32, class: ClassId) -> Outer
    requires { NamesClasses (S.around outside.now) }
    ensures { (S.around outside.now).names result ≡ (S.around outside.now).tables.class_names class.0 }
{
    Outer {
        library,
        class: Some(class),
    }
}

/// From here on names are looked up there. The answer is what stood around before.
pub fn enter_class<S: Surroundings>(outside: &S, state: &mut State, outer: Outer) -> BeforeClass
    ensures entered { seen (S.around outside.now) state.new
        ≡ entered ((S.around outside.now).names outer) (seen (S.around outside.now) state.old) }
    ensures names { (S.around outside.now).names result.outer ≡ (seen (S.around outside.now) state.old).names }
    ensures variables { result.variables ≡ (seen (S.around outside.now) state.old).variables }
{
    let before = BeforeClass {
        outer: state.outer,
        variables: state.variables,
    };
    state.outer = outer;
    state.variables = 0;
    before
}

/// What stood around the class does so again.
pub fn leave_class<S: Surroundings>(outside: &S, state: &mut State, before: BeforeClass)
    ensures { seen (S.around outside.now) state.new
        ≡ left ((S.around outside.now).names before.outer) before.variables (seen (S.around outside.now) state.old) }
{
    state.outer = before.outer;
    state.variables = before.variables;
}
