// Which declarations of a scope clash.
ghost use Rattle.std.specs.Prelude.{◌≡◌, ℕ, ◌&&◌, ◌||◌, false, IfOk};
ghost use Rattle.std.specs.HashSet.{contains};
ghost use Rattle.scope_table.specs.Duplicate.{NameKey, duplicate_of, is_read, is_set, key_of, same_key};
ghost use Rattle.scope_table.specs.Duplicate.{role_is_read, role_is_set, sort_of};

use scope_declared::declaration::{Declared, DeclaredKind, Role};
use std::alloc::{AllocError, Global};
use std::collections::HashSet;

type Key = ((u32, u32), (u32, (u32, u32)));

fn sort_of(kind: DeclaredKind) -> u32
    ensures { result ≡ sort_of kind }
{
    match kind {
        DeclaredKind::Constructor => 1,
        DeclaredKind::NamedConstructor => 2,
        _ => 0,
    }
}

fn role_is_read(role: Role) -> bool
    ensures { result ≡ role_is_read role }
{
    match role {
        Role::Setter => false,
        _ => true,
    }
}

fn is_read(kind: DeclaredKind) -> bool
    ensures { result ≡ is_read kind }
{
    match kind {
        DeclaredKind::Literal => false,
        DeclaredKind::Owned(_, role) => role_is_read(role),
        _ => true,
    }
}

fn role_is_set(role: Role) -> bool
    ensures { result ≡ role_is_set role }
{
    match role {
        Role::Getter | Role::Final => false,
        _ => true,
    }
}

fn is_set(kind: DeclaredKind) -> bool
    ensures { result ≡ is_set kind }
{
    match kind {
        DeclaredKind::Literal => false,
        DeclaredKind::Owned(_, role) => role_is_set(role),
        _ => true,
    }
}

fn key_of(one: Declared) -> Key
    ensures { result ≡ key_of one }
{
    let scope = one.extent.scope;
    let name = (one.name.0, sort_of(one.kind));
    ((scope.unit, scope.line), (scope.column, name))
}

// Whether the key is there already; where it isn't it is put there, if it is wanted.
fn is_taken(seen: &mut HashSet<Key>, key: Key, wanted: bool) -> Result<bool, AllocError>
    ensures taken { IfOk result (λ taken. taken ≡ (wanted && contains same_key seen.old key)) }
    ensures put { IfOk result (λ taken. taken ≡ false → (q : NameKey) →
        contains same_key seen.new q ≡ (contains same_key seen.old q || (wanted && same_key key q))) }
{
    if !wanted {
        return Ok(false);
    }
    let added = seen.insert(key)?;
    Ok(!added)
}

/// The first declaration that clashes with one before it: one of its name in its scope, unless one of the two is a getter or a
/// final variable and the other a setter (ECMA-408, 6.1 Scoping, 10.2 Getters and 10.3 Setters). Constructors clash with
/// constructors alone.
pub fn duplicate(alloc: Global, declared: &[Declared]) -> Result<Option<Declared>, AllocError>
    ensures { IfOk result (λ found. found ≡ duplicate_of declared.now) }
{
    let mut read = HashSet::new(alloc);
    let mut set = HashSet::new(alloc);
    for one in declared {
        let key = key_of(*one);
        let is_read_before = is_taken(&mut read, key, is_read(one.kind))?;
        let is_set_before = is_taken(&mut set, key, is_set(one.kind))?;
        if is_read_before || is_set_before {
            return Ok(Some(*one));
        }
    }
    Ok(None)
}
