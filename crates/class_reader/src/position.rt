// Where classes and other declarations of a program stand.
ghost use Rattle.std.specs.Prelude.{◌≡◌, ℕ, IfSome, IfOk};
ghost use Rattle.class_source.specs.Members.{Numbers};
ghost use Rattle.class_reader.specs.Given.{outer_of};

use dart_base::place::Place;
use dart_ir::number::{ClassId, DeclId};
use lower_leaf::fault::Want;
use lower_leaf::meaning::Outer;

/// The libraries of classes, numbered as they are declared, and the numbers of declarations.
pub trait Positions {
    /// The number of the library that declares a class.
    ghost libraries: { Self → ℕ → ℕ };

    /// The number of the declaration whose name stands at a place.
    ghost numbers: { Self → Numbers };

    /// The number of the library that declares the class.
    fn library_of(&self, of: ClassId) -> u32
        ensures { result ≡ libraries self.now of.0 };

    /// The number of the declaration whose name stands there, if there is one.
    fn number_at(&self, place: Place) -> Option<DeclId>
        ensures { IfSome result (λ found. found.0 ≡ numbers self.now place) };
}

/// Where the names of the class are looked up.
pub fn outer_of<P: Positions>(positions: &P, of: ClassId) -> Outer
    ensures { result ≡ outer_of (P.libraries positions.now) of.0 }
{
    Outer {
        library: positions.library_of(of),
        class: Some(of),
    }
}

/// The number of the declaration whose name stands there.
pub fn number_at<P: Positions>(positions: &P, place: Place) -> Result<DeclId, Want>
    ensures { IfOk result (λ found. found.0 ≡ P.numbers positions.now place) }
{
    match positions.number_at(place) {
        Some(found) => Ok(found),
        None => Err(Want),
    }
}
