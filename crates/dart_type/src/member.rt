// The first declaration of a member on the chain of superclasses.
ghost use Rattle.std.specs.Prelude.{◌≡◌, ◌<◌, length, find, option_map};
ghost use Rattle.dart_ir.specs.Classes.{IsValid};
ghost use Rattle.dart_type.specs.Member.{same_role, declares, superclass_number, IsFirstMember};

use dart_base::name::Name;
use dart_ir::class::{Classes, Role};
use dart_ir::number::{ClassId, MemberId};
use dart_ir::types::TypeRef;

/// The member of that name and role that an instance of the class has: the first declaration on the chain from the class
/// to `Object`. A member without a body is no declaration. Takes no memory.
pub fn member(classes: &Classes, class: ClassId, name: Name, role: Role) -> Option<MemberId>
    requires valid { IsValid classes.now }
    requires listed { class.0 < length classes.now.classes.items }
    ensures { IsFirstMember classes.now class.0 name role result }
{
    let mut next = Some(class);
    while let Some(c) = next {
        let info = &classes.classes[c.0 as usize];
        if let Some(m) = declared(classes, &info.members, name, role) {
            return Some(m);
        }
        next = superclass_of(&info.superclass);
    }
    None
}

/// The class of a superclass.
#[tactic(auto, using(dart_ir::proofs::View::views))]
fn superclass_of(superclass: &Option<TypeRef>) -> Option<ClassId>
    ensures { superclass_number superclass.now ≡ option_map (λ c. c.0) result }
{
    match superclass {
        Some(TypeRef::Class(c, _)) => Some(*c),
        Some(TypeRef::Dynamic) => None,
        Some(TypeRef::Bottom) => None,
        Some(TypeRef::Void) => None,
        Some(TypeRef::Param(_)) => None,
        Some(TypeRef::Function(_)) => None,
        None => None,
    }
}

/// The first of the members that is a declaration of that name and role.
fn declared(classes: &Classes, members: &[MemberId], name: Name, role: Role) -> Option<MemberId>
    ensures { result ≡ find (declares classes.now name role) members.now }
{
    members
        .iter()
        .copied()
        .find(|m| is_declaration(classes, *m, name, role))
}

/// Whether a member is a declaration of that name and role.
fn is_declaration(classes: &Classes, member: MemberId, name: Name, role: Role) -> bool
    ensures { result ≡ declares classes.now name role member }
{
    match classes.members.get(member.0 as usize) {
        None => false,
        Some(info) => info.name.0 == name.0 && is_same(info.role, role) && info.has_body,
    }
}

fn is_same(a: Role, b: Role) -> bool
    ensures { result ≡ same_role a b }
{
    match (a, b) {
        (Role::Method, Role::Method) => true,
        (Role::Getter, Role::Getter) => true,
        (Role::Setter, Role::Setter) => true,
        _ => false,
    }
}
