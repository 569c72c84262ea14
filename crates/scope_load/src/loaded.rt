// The units of a program, as far as they are taken.
use crate::units::UnitName;
use dart_base::place::Place;
use dart_tree::unit::Unit;
use scope_mention::mention::MentionKind;

/// A mention of a unit by a unit.
#[derive(Clone, Copy, Debug, PartialEq, Eq)]
pub struct Link {
    /// The number of the unit with the directive.
    pub by: u32,
    pub kind: MentionKind,
    /// The number of the directive in its unit, from 0.
    pub directive: usize,
    /// The place of the directive's first token.
    pub place: Place,
    /// The number of the unit that is mentioned; None where the directive names none.
    pub target: Option<u32>,
}

/// The units of a program in order of first mention: the root, `dart:core`, `dart:isolate`, and the further files.
#[derive(Drop)]
pub struct Loaded {
    /// The names of the units that are mentioned.
    pub names: Vec<UnitName>,
    /// The units that are taken, in the order of their names.
    pub units: Vec<Unit>,
    /// Their mentions, unit by unit, in the order of the directives.
    pub links: Vec<Link>,
    /// The weight of the files that are taken.
    pub weight: u64,
    /// Whether a file too many is mentioned.
    pub over: bool,
}
