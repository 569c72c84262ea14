// Variables and parameters without their types.
ghost use Rattle.std.specs.Prelude.{◌≡◌, Option, None, Some};
ghost use Rattle.dart_erase.specs.Erased as erased;
ghost use Rattle.dart_tree.specs.Places as places;
ghost use Rattle.dart_tree.specs.View as view;

use dart_base::place::Place;
use dart_tree::identifier::Identifier;
use dart_tree::parameter::VariableKind;

/// Where an identifier stands.
pub fn place_of(name: &Identifier) -> Place
    ensures { result ≡ places.place_of name.now }
{
    match name {
        Identifier::Name(place, _) => *place,
        Identifier::Get(place) => *place,
        Identifier::Set(place) => *place,
    }
}

/// What stands before the variable of this name once its type is gone.
pub fn erase_kind(kind: &VariableKind, name: &Identifier) -> VariableKind
    ensures { view.variable_kind result ≡
        erased.variable_kind name.now (view.variable_kind kind.now) }
{
    match kind {
        VariableKind::Omitted => VariableKind::Omitted,
        VariableKind::Var(place) => VariableKind::Var(*place),
        VariableKind::Final(place, _) => VariableKind::Final(*place, None),
        VariableKind::Const(place, _) => VariableKind::Const(*place, None),
        VariableKind::Typed(_) => VariableKind::Var(place_of(name)),
    }
}

/// What stands before a parameter once its type is gone.
pub fn erase_parameter_type(kind: &VariableKind) -> VariableKind
    ensures { view.variable_kind result ≡ erased.parameter_type (view.variable_kind kind.now) }
{
    match kind {
        VariableKind::Omitted => VariableKind::Omitted,
        VariableKind::Var(word) => VariableKind::Var(*word),
        VariableKind::Final(word, _) => VariableKind::Final(*word, None),
        VariableKind::Const(word, _) => VariableKind::Const(*word, None),
        VariableKind::Typed(_) => VariableKind::Omitted,
    }
}
