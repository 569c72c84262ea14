// The numbers of declarations.
ghost use Rattle.std.specs.Prelude.{◌≡◌};
ghost use Rattle.lower_annotation.specs.Numbered.{Numbers as NumbersAt};

use dart_base::place::Place;

/// The numbers of the declarations of a program, by the places of their names.
pub trait Numbers {
    /// All of them, as contracts see them.
    ghost numbers: { Self → NumbersAt };

    /// The number of the declaration whose name stands there, if there is one.
    fn number_at(&self, place: Place) -> Option<u32>
        ensures { result ≡ numbers self.now place };
}
