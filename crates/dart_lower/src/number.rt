// The numbers of the declarations of a program.
ghost use Rattle.scope_program.specs.Places.{at_place};

use dart_base::place::Place;
use lower_annotation::number::Numbers;
use scope_program::program::ProgramScopes;

/// The numbers of declarations, as the scopes of a program have them.
#[derive(Clone, Copy)]
pub struct DeclaredNumbers<'a> {
    pub scopes: &'a ProgramScopes,
}

impl<'a> Numbers for DeclaredNumbers<'a> {
    ghost numbers = { λ x. at_place x.scopes.now.places };

    fn number_at(&self, place: Place) -> Option<u32> {
        self.scopes.number_at(place)
    }
}
