// What the declarations of one name of a class make it mean.
ghost use Rattle.std.specs.Prelude.{◌≡◌};
ghost use Rattle.std.specs.Option.{option_map};
ghost use Rattle.lower_leaf.specs.Around.{declaration, meaning};
ghost use Rattle.scope_class.specs.Members.{is_static_getter, is_static_setter};
ghost use Rattle.scope_class.specs.Building.{first_owned, first_sense, first_static, joined, joined_to, or_number};

use dart_ir::number::DeclId;
use lower_leaf::meaning::Meaning;
use scope_declared::declaration::{DeclaredKind, Owner, Role};

fn is_static_getter(kind: DeclaredKind) -> bool
    ensures { result ≡ is_static_getter kind }
{
    match kind {
        DeclaredKind::Owned(Owner::Class, Role::Getter) => true,
        _ => false,
    }
}

fn is_static_setter(kind: DeclaredKind) -> bool
    ensures { result ≡ is_static_setter kind }
{
    match kind {
        DeclaredKind::Owned(Owner::Class, Role::Setter) => true,
        _ => false,
    }
}

fn or_number(had: Option<DeclId>, is: bool, number: u32) -> Option<DeclId>
    ensures { declaration result ≡ or_number (declaration had) is number }
{
    match had {
        Some(had) => Some(had),
        None => { if is { Some(DeclId(number)) } else { None } }
    }
}

fn first_static(number: u32, role: Role) -> Meaning
    ensures { meaning result ≡ first_static number role }
{
    match role {
        Role::Function => Meaning::Function(DeclId(number)),
        Role::Variable => Meaning::Variable(DeclId(number), false),
        Role::Final => Meaning::Variable(DeclId(number), true),
        Role::Getter => Meaning::Accessors(Some(DeclId(number)), None),
        Role::Setter => Meaning::Accessors(None, Some(DeclId(number))),
    }
}

fn first_owned(number: u32, owner: Owner, role: Role) -> Meaning
    ensures { meaning result ≡ first_owned number owner role }
{
    match owner {
        Owner::Class => first_static(number, role),
        Owner::Object => Meaning::Member,
        Owner::Library => Meaning::Member,
    }
}

fn first_sense(number: u32, kind: DeclaredKind) -> Meaning
    ensures { meaning result ≡ first_sense number kind }
{
    match kind {
        DeclaredKind::Owned(owner, role) => first_owned(number, owner, role),
        _ => Meaning::Member,
    }
}

fn joined_to(had: Meaning, number: u32, kind: DeclaredKind) -> Meaning
    ensures { meaning result ≡ joined_to (meaning had) number kind }
{
    match had {
        Meaning::Accessors(getter, setter) => {
            let getter = or_number(getter, is_static_getter(kind), number);
            let setter = or_number(setter, is_static_setter(kind), number);
            Meaning::Accessors(getter, setter)
        }
        _ => had,
    }
}

/// What a name means with one declaration more, of that number (ECMA-408, 10.7 Static Methods and 10.8 Static Variables): the
/// first counts, but accessors are a pair.
pub fn joined(had: Option<Meaning>, number: u32, kind: DeclaredKind) -> Meaning
    ensures { meaning result ≡ joined (option_map meaning had) number kind }
{
    match had {
        None => first_sense(number, kind),
        Some(had) => joined_to(had, number, kind),
    }
}
