// The native functions that declarations of the prelude are.
ghost use Rattle.std.specs.Prelude.{◌≡◌, ◌++◌, ◌<◌, ◌==◌, IfOk, IfSome, codes, false, length};
ghost use Rattle.std.specs.List.{before_first, position};
ghost use Rattle.scope_class.specs.Members.{is_outermost};
ghost use Rattle.native_name.specs.Name.{native_named};
ghost use Rattle.lower_added.specs.Natives.{class_after, class_text, is_at, is_class, is_enum, is_prelude, is_setter, native_by, native_of, natives, natives_from, owner_text, role_text, without_enums, written_text};

use dart_base::name::Name;
use dart_base::names::Names;
use dart_base::place::Place;
use dart_ir::native::NativeId;
use lower_leaf::fault::Want;
use native_name::name::native_named;
use scope_declared::declaration::{Declared, DeclaredKind, Owner, Role};
use std::alloc::Global;

/// The number of the unit `dart:core`.
pub const CORE_UNIT: u32 = 1;

/// The number of the unit `dart:isolate`.
pub const ISOLATE_UNIT: u32 = 2;

fn is_prelude(one: &Declared) -> bool
    ensures { result ≡ is_prelude one.now }
{
    one.place.unit == CORE_UNIT || one.place.unit == ISOLATE_UNIT
}

// Where `@` stands.
fn first_at(name: &[u8]) -> Option<usize>
    ensures within { IfSome result (λ at. at < length name.now) }
    ensures position { result ≡ position (λ b. b == 64) name.now }
{
    name.iter().position(|b| *b == b'@')
}

// All before the first `@`.
fn before_at(name: &[u8]) -> &[u8]
    ensures { result.now ≡ before_first (λ b. b == 64) name.now }
{
    match first_at(name) {
        None => name,
        Some(end) => &name[..end],
    }
}

// A name as it is written, and nothing where the table lacks it.
fn written_text<'a>(names: &'a Names, name: Name) -> &'a [u8]
    ensures { result.now ≡ written_text names.now name }
{
    if name.0 >= names.count() {
        return &[];
    }
    before_at(names.text(name).as_bytes())
}

// The text of the class that was declared last.
fn class_text<'a>(names: &'a Names, class: Option<Name>) -> &'a [u8]
    ensures { result.now ≡ class_text names.now class }
{
    match class {
        None => &[],
        Some(name) => written_text(names, name),
    }
}

// A setter's name ends in `=`.
fn setter_native(alloc: Global, class: &[u8], name: &[u8]) -> Result<Option<NativeId>, Want>
    ensures { IfOk result (λ made. made ≡ native_named class.now (name.now ++ codes "=")) }
{
    let mut text = Vec::from_slice(alloc, name)?;
    text.push(b'=')?;
    Ok(native_named(class, &text))
}

// The class inside of which a declaration stands, of which none is a library's.
fn owner_text(owner: Owner, class: &[u8]) -> &[u8]
    ensures { result.now ≡ owner_text owner class.now }
{
    match owner {
        Owner::Library => &[],
        Owner::Class | Owner::Object => class,
    }
}

fn is_setter(role: Role) -> bool
    ensures { result ≡ is_setter role }
{
    match role {
        Role::Setter => true,
        Role::Function | Role::Getter | Role::Variable | Role::Final => false,
    }
}

fn role_native(
    alloc: Global,
    class: &[u8],
    role: Role,
    name: &[u8],
) -> Result<Option<NativeId>, Want>
    ensures { IfOk result (λ made. made ≡ native_named class.now (role_text role name.now)) }
{
    if is_setter(role) {
        return setter_native(alloc, class, name);
    }
    Ok(native_named(class, name))
}

fn native_by(
    alloc: Global,
    class: &[u8],
    kind: DeclaredKind,
    name: &[u8],
) -> Result<Option<NativeId>, Want>
    ensures { IfOk result (λ made. made ≡ native_by class.now kind name.now) }
{
    match kind {
        DeclaredKind::Owned(owner, role) => {
            role_native(alloc, owner_text(owner, class), role, name)
        }
        DeclaredKind::Operator => Ok(native_named(class, name)),
        DeclaredKind::Constructor => Ok(native_named(class, b"")),
        DeclaredKind::NamedConstructor => Ok(native_named(class, name)),
        _ => Ok(None),
    }
}

fn native_of(
    alloc: Global,
    names: &Names,
    class: Option<Name>,
    one: &Declared,
) -> Result<Option<NativeId>, Want>
    ensures { IfOk result (λ made. made ≡ native_of names.now class one.now) }
{
    if !is_prelude(one) {
        return Ok(None);
    }
    native_by(
        alloc,
        class_text(names, class),
        one.kind,
        written_text(names, one.name),
    )
}

// The class that was declared last.
fn class_after(class: Option<Name>, one: &Declared) -> Option<Name>
    ensures { result ≡ class_after class one.now }
{
    match one.kind {
        DeclaredKind::Class => Some(one.name),
        _ => class,
    }
}

// The native that each declaration is, behind no class.
fn natives_among(
    alloc: Global,
    names: &Names,
    declarations: &[Declared],
) -> Result<Vec<Option<NativeId>>, Want>
    ensures { IfOk result (λ made. made.items ≡ natives_from names.now None declarations.now) }
{
    let mut made = Vec::new(alloc);
    let mut class = None;
    for one in declarations {
        made.push(native_of(alloc, names, class, one)?)?;
        class = class_after(class, one);
    }
    Ok(made)
}

// Whether a library itself declares it, and none of its classes and functions.
fn is_outermost(kind: DeclaredKind) -> bool
    ensures { result ≡ is_outermost kind }
{
    match kind {
        DeclaredKind::Class | DeclaredKind::Alias => true,
        DeclaredKind::Owned(owner, _) => match owner {
            Owner::Library => true,
            Owner::Class | Owner::Object => false,
        },
        _ => false,
    }
}

fn is_class(kind: DeclaredKind) -> bool
    ensures { result ≡ is_class kind }
{
    match kind {
        DeclaredKind::Class => true,
        _ => false,
    }
}

fn is_at(x: Place, y: Place) -> bool
    ensures { result ≡ is_at x y }
{
    x.unit == y.unit && x.line == y.line && x.column == y.column
}

// Whether a declaration is an enum, by what stands behind it.
fn is_enum(one: &Declared, behind: &[Declared]) -> bool
    ensures { result ≡ is_enum one.now behind.now }
{
    match behind {
        [] => false,
        [next, ..] => is_class(one.kind) && is_at(one.place, next.place),
    }
}

// All but what is declared inside of enums.
fn without_enums(alloc: Global, numbered: &[Declared]) -> Result<Vec<Declared>, Want>
    ensures { IfOk result (λ made. made.items ≡ without_enums false numbered.now) }
{
    let mut made = Vec::new(alloc);
    let mut in_enum = false;
    for place in 0..numbered.len() {
        let one = numbered[place];
        if !in_enum || is_outermost(one.kind) {
            made.push(one)?;
            in_enum = is_enum(&one, &numbered[place + 1..]);
        }
    }
    Ok(made)
}

/// The native function that each declaration is, if it is an external one of the prelude: that of its class and its own name. The
/// declarations stand by the numbers that translation gives them, where an enum counts as one (ECMA-408, 13 Enums). `Want` where
/// memory runs out.
pub fn natives(
    alloc: Global,
    names: &Names,
    numbered: &[Declared],
) -> Result<Vec<Option<NativeId>>, Want>
    ensures { IfOk result (λ made. made.items ≡ natives names.now numbered.now) }
{
    let declarations = without_enums(alloc, numbered)?;
    natives_among(alloc, names, &declarations)
}
