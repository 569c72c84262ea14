// The function that a program begins with.
ghost use Rattle.std.specs.Prelude.{◌≡◌, bytes_eq, codes, map};
ghost use Rattle.dart_tree.specs.Lists.{parameter_list_of};
ghost use Rattle.dart_tree.specs.UnitView as uv;
ghost use Rattle.dart_tree.specs.View as view;
ghost use Rattle.scope_mention.specs.Head.{identifier_text};
ghost use Rattle.scope_reason.specs.Main.{declares_main, has_at_most_one, has_main, is_main, is_main_function, requires_at_most_one, root_library};

use dart_tree::declaration::DeclKind;
use dart_tree::identifier::Identifier;
use dart_tree::parameter::{Parameter, Parameters};
use dart_tree::statement::Function;
use dart_tree::unit::Unit;
use scope_mention::head::identifier_text;

/// The number of the root library, which is the first.
pub const ROOT_LIBRARY: u32 = 0;

fn has_at_most_one(all: &Vec<Parameter>) -> bool
    ensures { result ≡ has_at_most_one (parameter_list_of all.now.items) }
{
    all.len() < 2
}

fn requires_at_most_one(tree: &Parameters) -> bool
    ensures { result ≡ requires_at_most_one (view.parameters tree.now) }
{
    has_at_most_one(&tree.required)
}

fn is_main_name(name: &Identifier) -> bool
    ensures { result ≡ bytes_eq (identifier_text name.now) (codes "main") }
{
    let text: &[u8] = b"main";
    identifier_text(name) == text
}

fn is_main_function(tree: &Function) -> bool
    ensures { result ≡ is_main_function (view.function tree.now) }
{
    let named = is_main_name(&tree.name);
    let fits = requires_at_most_one(&tree.parameters);
    named && fits
}

fn is_main(kind: &DeclKind) -> bool
    ensures { result ≡ is_main (uv.decl_kind kind.now) }
{
    match kind {
        DeclKind::Function(function) => is_main_function(function),
        DeclKind::Class(_)
        | DeclKind::Alias(_)
        | DeclKind::Accessor(_)
        | DeclKind::Variables(_)
        | DeclKind::Enum(_) => false,
    }
}

fn declares_main(unit: &Unit) -> bool
    ensures { result ≡ declares_main (uv.unit unit.now) }
{
    for decl in &unit.declarations {
        if is_main(&decl.kind) {
            return true;
        }
    }
    false
}

/// Whether the root library declares a function `main` with at most one required parameter (ECMA-408, 18.4 Scripts), where
/// each unit belongs to the library of the number beside it. Takes no memory.
pub fn has_main(homes: &[u32], units: &[Unit]) -> bool
    ensures { result ≡ has_main homes.now (map uv.unit units.now) }
{
    match homes {
        [] => false,
        [library, homes @ ..] => match units {
            [] => false,
            [unit, units @ ..] => {
                (*library == ROOT_LIBRARY && declares_main(unit)) || has_main(homes, units)
            }
        },
    }
}
