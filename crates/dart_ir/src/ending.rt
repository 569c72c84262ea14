// How a turn ends, and what it writes.
ghost use Rattle.std.specs.Prelude.{◌≡◌, [], ◌++◌, ◌∷◌, length, OnOk, OnErr};

use crate::kind::SiteKind;
use crate::number::SiteId;
use dart_base::place::Place;
use dart_base::units::Units;
use std::alloc::{AllocError, Global};
use std::marker::Model;

/// How a turn ends.
pub enum TurnEnd {
    Returned,
    /// By a throw that nothing caught: the place of the form that threw, and what is shown of the value.
    Uncaught { place: Place, text: Units },
    OutOfSteps,
    OutOfObjects,
    OutOfDepth,
    IntegerLimit,
    NeedsDouble,
    TypeLimit,
}

// Each enum that holds lists implements the trait itself, so a crate above need not prove again what it holds.
impl Drop for TurnEnd {
    fn drop(self) {
        match self {
            TurnEnd::Returned => {}
            TurnEnd::Uncaught { place: _, text: _ } => {}
            TurnEnd::OutOfSteps => {}
            TurnEnd::OutOfObjects => {}
            TurnEnd::OutOfDepth => {}
            TurnEnd::IntegerLimit => {}
            TurnEnd::NeedsDouble => {}
            TurnEnd::TypeLimit => {}
        }
    }
}

/// A line that a turn writes.
pub enum Line {
    Printed(Units),
    /// A check that failed.
    Report(SiteId, SiteKind),
}

impl Drop for Line {
    fn drop(self) {
        match self {
            Line::Printed(_) => {}
            Line::Report(_, _) => {}
        }
    }
}

/// Lines in order, which contracts see as a list.
#[derive(Drop)]
pub struct Lines {
    items: Vec<Line>,
}

impl Model for Lines {
    ghost use Rattle.std.specs.Prelude.{List};
    ghost use Rattle.dart_ir.specs.declared.ending.Line as line;

    ghost Value = { List line.Line };

    ghost view = { λ v. v.items.items };
}

impl Lines {
    /// No lines. Takes no memory.
    pub fn new(alloc: Global) -> Self
        ensures { result ≡ [] }
    {
        Lines {
            items: Vec::new(alloc),
        }
    }

    /// The lines of the vector. Takes no memory.
    pub fn from_vec(items: Vec<Line>) -> Self
        ensures { result ≡ items.items }
    {
        Lines { items }
    }

    /// The vector that holds the lines. Takes no memory.
    pub fn into_vec(self) -> Vec<Line>
        ensures { result.items ≡ self }
    {
        self.items
    }

    pub fn as_slice(&self) -> &[Line]
        ensures { result.now ≡ self.now }
    {
        self.items.as_slice()
    }

    pub fn len(&self) -> usize
        ensures { result ≡ length self.now }
    {
        self.items.len()
    }

    /// Adds a line at the end. An `Err` changes nothing.
    pub fn push(&mut self, line: Line) -> Result<(), AllocError>
        ensures ok { OnOk result (self.new ≡ self.old ++ line ∷ []) }
        ensures err { OnErr result (self.new ≡ self.old) }
    {
        self.items.push(line)?;
        Ok(())
    }
}
