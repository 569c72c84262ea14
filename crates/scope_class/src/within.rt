// What is declared inside of a class.
ghost use Rattle.std.specs.Prelude.{◌≡◌, ◌+◌, ◌<◌, IfSome, drop, length};
ghost use Rattle.std.specs.List.{before_first, position};
ghost use Rattle.scope_class.specs.Members.{is_member, is_outermost, is_static, stands_outermost};

use scope_declared::declaration::{Declared, DeclaredKind, Owner};

// Whether a library itself declares it, and none of its classes and functions.
fn is_outermost(kind: DeclaredKind) -> bool
    ensures { result ≡ is_outermost kind }
{
    match kind {
        DeclaredKind::Class | DeclaredKind::Alias => true,
        DeclaredKind::Owned(owner, _) => match owner {
            Owner::Library => true,
            Owner::Class | Owner::Object => false,
        },
        _ => false,
    }
}

/// Whether a class declares it as static (ECMA-408, 10.7 Static Methods and 10.8 Static Variables).
pub fn is_static(kind: DeclaredKind) -> bool
    ensures { result ≡ is_static kind }
{
    match kind {
        DeclaredKind::Owned(owner, _) => match owner {
            Owner::Class => true,
            Owner::Library | Owner::Object => false,
        },
        _ => false,
    }
}

/// Whether it is a member of a class (ECMA-408, 10 Classes).
pub fn is_member(kind: DeclaredKind) -> bool
    ensures { result ≡ is_member kind }
{
    match kind {
        DeclaredKind::Owned(_, _) | DeclaredKind::Operator => true,
        _ => false,
    }
}

// Where the first stands that a library itself declares.
fn first_outermost(behind: &[Declared]) -> Option<usize>
    ensures within { IfSome result (λ at. at < length behind.now) }
    ensures position { result ≡ position stands_outermost behind.now }
{
    behind.iter().position(|one| is_outermost(one.kind))
}

// All before the first that a library itself declares.
fn before_outermost(behind: &[Declared]) -> &[Declared]
    ensures { result.now ≡ before_first stands_outermost behind.now }
{
    match first_outermost(behind) {
        None => behind,
        Some(end) => &behind[..end],
    }
}

/// What is declared inside of the declaration of the number, bodies of its functions included: all up to what its library
/// declares next. Takes no memory.
pub fn within(numbered: &[Declared], number: u32) -> &[Declared]
    requires { number < length numbered.now }
    ensures { result.now ≡ before_first stands_outermost (drop (number + 1) numbered.now) }
{
    before_outermost(&numbered[number as usize + 1..])
}
