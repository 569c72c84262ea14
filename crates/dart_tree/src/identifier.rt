// Identifiers, and names with dots.
use dart_base::bytes::Bytes;
use dart_base::place::Place;

/// An identifier (ECMA-408, 16.33 Identifier Reference).
///
/// `get` and `set` are built-in identifiers that may still name variables, parameters, functions and members.
#[derive(Drop)]
pub enum Identifier {
    /// `a`
    Name(Place, Bytes),
    /// `get`
    Get(Place),
    /// `set`
    Set(Place),
}

/// `.a`, the part of a qualified name behind the dot (ECMA-408, 16.33 Identifier Reference).
#[derive(Drop)]
pub struct DotName {
    pub dot: Place,
    pub name: Identifier,
}

/// `, a`, a further name of a combinator, an enum or a `catch` (ECMA-408, 13 Enums, 17.11 Try and 18.1 Imports).
#[derive(Drop)]
pub struct CommaName {
    pub comma: Place,
    pub name: Identifier,
}

/// `a:`, as before a statement (ECMA-408, 17.13 Labels) or a named argument (16.14.1 Actual Argument List Evaluation).
#[derive(Drop)]
pub struct Label {
    pub name: Identifier,
    pub colon: Place,
}
