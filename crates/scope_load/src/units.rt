// Units by their names, and what reads them.
ghost use Rattle.std.specs.Prelude.{◌≡◌, ℕ, ◌&&◌, bytes_eq, IfOk, Option};
ghost use Rattle.dart_edge.specs.Fault.{Counts};
ghost use Rattle.dart_edge.specs.Files.{Files};
ghost use Rattle.scope_load.specs.Found.{FoundIs, found_is, take_failed, SameUnits};
ghost use Rattle.scope_load.specs.declared.units.UnitName.{UnitName as Name};
ghost use Rattle.scope_load.specs.Names.{same_name};

use dart_base::bytes::Bytes;
use dart_base::feature::Feature;
use dart_base::place::Place;
use dart_tree::unit::Unit;
use std::alloc::{AllocError, Global};

/// Which unit is meant.
#[derive(Drop)]
pub enum UnitName {
    /// The file with this name.
    File(Bytes),
    /// `dart:core`
    Core,
    /// `dart:isolate`
    Isolate,
}

impl UnitName {
    /// A copy of the name.
    pub fn try_clone(&self, alloc: Global) -> Result<UnitName, AllocError>
        ensures { IfOk result (λ copy. copy ≡ self.now) }
    {
        match self {
            UnitName::File(name) => Ok(UnitName::File(Bytes::from_slice(alloc, name.as_slice())?)),
            UnitName::Core => Ok(UnitName::Core),
            UnitName::Isolate => Ok(UnitName::Isolate),
        }
    }

    /// Whether the two are one name. Takes no memory.
    pub fn is_same(&self, other: &UnitName) -> bool
        ensures { result ≡ same_name self.now other.now }
    {
        match self {
            UnitName::File(name) => match other {
                UnitName::File(another) => name.as_slice() == another.as_slice(),
                UnitName::Core | UnitName::Isolate => false,
            },
            UnitName::Core => match other {
                UnitName::Core => true,
                UnitName::File(_) | UnitName::Isolate => false,
            },
            UnitName::Isolate => match other {
                UnitName::Isolate => true,
                UnitName::File(_) | UnitName::Core => false,
            },
        }
    }
}

/// Why the text of a file is no unit.
#[derive(Clone, Copy, Debug, PartialEq, Eq)]
pub enum TextReason {
    /// The text has too many bytes or lines, or its tokens too much weight.
    TooLarge,
    /// The text is UTF-8 up to this offset in bytes, and no further.
    NotUtf8(u64),
    /// No token begins here, or what begins here is not closed.
    BadToken(Place),
    /// The profile leaves out what begins here.
    LeftOut(Place, Feature),
    /// The integer here is above 2^127 - 1.
    IntegerTooLarge(Place),
    /// No unit has the tokens up to here.
    Syntax(Place),
    /// No unit that is not too deep has the tokens up to here.
    TooDeep(Place),
}

/// What a name gives.
#[derive(Drop)]
pub enum Found {
    /// There is no such file.
    Absent,
    /// The text of the file is no unit.
    Refused(TextReason),
    /// The unit, and the weight of its tokens.
    Read(Unit, u32),
}

/// Why a name gave nothing.
#[derive(Clone, Copy, Debug, PartialEq, Eq)]
pub enum TakeFault {
    /// The units failed. Each such answer raises their count of faults.
    Failed,
    /// Memory ran out.
    Memory,
}

/// A way to read the units of a program from `S`.
pub trait UnitReader<S> {
    /// What is read holds this for the unit of this number and name, as far as it is told: where nothing is told, anything.
    ghost gives: { Self → S → ℕ → Name → FoundIs → Type 0 };

    /// The files that are read from, if they are told.
    ghost files: { Self → S → Option Files };

    /// How often reading has failed.
    ghost faults: { Self → S → ℕ };

    /// Takes the unit with this number and name.
    fn take(&self, from: &mut S, number: u32, name: &UnitName) -> Result<Found, TakeFault>
        ensures content { IfOk result (λ found. gives self.now from.old number name.now (found_is found)) }
        ensures same { SameUnits (gives self.now from.old) (gives self.now from.new) }
        ensures files { files self.now from.new ≡ files self.now from.old }
        ensures cause { Counts (take_failed result) (faults self.now from.old) (faults self.now from.new) };
}
