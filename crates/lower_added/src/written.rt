// What the declaration of a class writes.
ghost use Rattle.std.specs.Prelude.{◌≡◌, ◌+◌, ◌++◌, ◌<◌, ◌^◌, List, ℕ, IfOk, OnOk, false, length, option_to_list};
ghost use Rattle.std.specs.List.{enumerate_from};
ghost use Rattle.scope_class.specs.Constructors.{constructor_id, is_constructor};
ghost use Rattle.lower_added.specs.Written.{all_generative, generative_by, generatives, id_text, inner_count, is_field, is_inner, written, written_class};

use dart_base::name::Name;
use lower_leaf::fault::Want;
use scope_class::constructor::Making;
use scope_class::within::within;
use scope_declared::declaration::{Declared, DeclaredKind, Owner, Role};
use std::alloc::{AllocError, Global};

/// A generative constructor (ECMA-408, 10.6.1 Generative Constructors).
#[derive(Clone, Copy, Debug, PartialEq, Eq)]
pub struct Generative {
    /// The name that it has behind its class's; none of the unnamed one.
    pub id: Option<Name>,
    /// The number of its function.
    pub number: u32,
}

/// What the declaration of a class says of the functions that are added to it and to what it is mixed into.
#[derive(Drop)]
pub struct Written {
    /// How many implicit accessors its fields have (10.5 Instance Variables).
    pub accessors: u32,
    /// How many functions stand in the initial values of its fields.
    pub inner: u32,
    /// Whether it writes a constructor.
    pub has_constructor: bool,
    /// The generative constructors that it writes, in turn.
    pub constructors: Vec<Generative>,
}

fn is_constructor(kind: DeclaredKind) -> bool
    ensures { result ≡ is_constructor kind }
{
    match kind {
        DeclaredKind::Constructor | DeclaredKind::NamedConstructor => true,
        _ => false,
    }
}

// The id of a constructor.
fn id_of(one: &Declared) -> Option<Name>
    ensures { (texts : List (List ℕ)) → id_text texts result ≡ constructor_id texts one.now }
{
    match one.kind {
        DeclaredKind::NamedConstructor => Some(one.name),
        _ => None,
    }
}

// Adds a constructor that is written in this way, if it is generative.
fn add_generative(
    made: &mut Vec<Generative>,
    way: Making,
    one: &Declared,
    number: u32,
) -> Result<(), AllocError>
    ensures { OnOk result ((texts : List (List ℕ)) → all_generative texts made.new
        ≡ all_generative texts made.old ++ option_to_list (generative_by way texts number one.now)) }
{
    match way {
        Making::Generative => {
            made.push(Generative {
                id: id_of(one),
                number,
            })?;
            Ok(())
        }
        Making::Factory => Ok(()),
    }
}

// The generative constructors among declarations with numbers from the first on, which are written in these ways in turn.
fn generatives(
    alloc: Global,
    inside: &[Declared],
    first: u32,
    ways: &[Making],
) -> Result<Vec<Generative>, Want>
    requires { first + length inside.now < 2 ^ 32 }
    ensures { IfOk result (λ made. (texts : List (List ℕ)) → all_generative texts made ≡ generatives texts (enumerate_from first inside.now) ways.now) }
{
    let mut made = Vec::new(alloc);
    let mut number = first;
    let mut place: usize = 0;
    for one in inside {
        if is_constructor(one.kind) {
            if place < ways.len() {
                add_generative(&mut made, ways[place], one, number)?;
            }
            place += 1;
        }
        number += 1;
    }
    Ok(made)
}

/// Whether it is a field of each instance (10.5 Instance Variables).
pub fn is_field(kind: DeclaredKind) -> bool
    ensures { result ≡ is_field kind }
{
    match kind {
        DeclaredKind::Owned(Owner::Object, role) => match role {
            Role::Variable | Role::Final => true,
            Role::Function | Role::Getter | Role::Setter => false,
        },
        _ => false,
    }
}

// Whether it is a function literal or a local function.
fn is_inner(kind: DeclaredKind) -> bool
    ensures { result ≡ is_inner kind }
{
    match kind {
        DeclaredKind::Literal | DeclaredKind::LocalFunction => true,
        _ => false,
    }
}

// How many functions stand in the initial values of fields.
fn inner_count(inside: &[Declared]) -> u32
    requires { length inside.now < 2 ^ 32 }
    ensures { result ≡ inner_count false inside.now }
{
    let mut count = 0;
    let mut in_field = false;
    for one in inside {
        if is_inner(one.kind) {
            if in_field {
                count += 1;
            }
        } else {
            in_field = is_field(one.kind);
        }
    }
    count
}

/// What the class of that declaration writes, which has so many accessors, and writes constructors in these ways in turn, if any
/// (ECMA-408, 10 Classes). `Want` where memory runs out.
pub fn written_class(
    alloc: Global,
    numbered: &[Declared],
    class: u32,
    accessors: u32,
    has_constructor: bool,
    ways: &[Making],
) -> Result<Written, Want>
    requires few { length numbered.now < 2 ^ 32 }
    requires listed { class < length numbered.now }
    ensures { IfOk result (λ made. (texts : List (List ℕ)) → written texts made
        ≡ written_class texts numbered.now class accessors has_constructor ways.now) }
{
    let inside = within(numbered, class);
    let constructors = generatives(alloc, inside, class + 1, ways)?;
    Ok(Written {
        accessors,
        inner: inner_count(inside),
        has_constructor,
        constructors,
    })
}
