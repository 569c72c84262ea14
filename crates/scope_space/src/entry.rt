// The function by which a program starts.
ghost use Rattle.std.specs.Prelude.{◌≡◌, find, option_map};
ghost use Rattle.scope_space.specs.Entry.{is_start, can_start};

use crate::declaration::{Declaration, Kind};
use crate::library::Library;
use dart_base::name::Name;

/// The number of the function `main` that the root library declares, or `None` where it declares none with at most one
/// required positional parameter (ECMA-408, 18.4 Scripts). `main` is the name of that text. Takes no memory.
pub fn main_of(root: &Library, main: Name) -> Option<u32>
    ensures { result ≡ option_map (λ declaration. declaration.number) (find (is_start main.0) root.now.declarations) }
{
    match first_start(root.declarations.under(main.0)) {
        Some(declaration) => Some(declaration.number),
        None => None,
    }
}

fn first_start(declarations: &[Declaration]) -> Option<Declaration>
    ensures { result ≡ find (λ declaration. can_start declaration.kind) declarations.now }
{
    declarations
        .iter()
        .copied()
        .find(|declaration| can_start(declaration.kind))
}

/// Whether a declaration of that kind can be called with at most one argument.
fn can_start(kind: Kind) -> bool
    ensures { result ≡ can_start kind }
{
    match kind {
        Kind::Function { required } => required <= 1,
        _ => false,
    }
}
