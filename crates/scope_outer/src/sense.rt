// What declarations of one name make it mean.
ghost use Rattle.std.specs.Prelude.{◌≡◌, ◌<◌, ◌^◌, IfOk, length};
ghost use Rattle.lower_leaf.specs.Around.{declaration, meaning};
ghost use Rattle.scope_outer.specs.Sense.{AreClassNumbers, class_number, is_class, is_final, is_final_kind, is_getter, is_setter, number_of_kind, kind_sense, sense, accessors};

use dart_ir::number::{ClassId, DeclId};
use lower_leaf::meaning::Meaning;
use scope_declared::declaration::{Declared, DeclaredKind, Role};
use scope_space::declaration::{Declaration, Kind};
use std::alloc::{AllocError, Global};

fn is_class(kind: DeclaredKind) -> bool
    ensures { result ≡ is_class kind }
{
    match kind {
        DeclaredKind::Class => true,
        _ => false,
    }
}

fn is_final_kind(kind: DeclaredKind) -> bool
    ensures { result ≡ is_final_kind kind }
{
    match kind {
        DeclaredKind::Owned(_, Role::Final) => true,
        _ => false,
    }
}

/// Whether the declaration of the number is a variable that can't be set (ECMA-408, 8 Variables). Takes no memory.
pub fn is_final(numbered: &[Declared], number: u32) -> bool
    ensures { result ≡ is_final numbered.now number }
{
    match numbered.get(number as usize) {
        Some(one) => is_final_kind(one.kind),
        None => false,
    }
}

fn is_getter(kind: Kind) -> bool
    ensures { result ≡ is_getter kind }
{
    match kind {
        Kind::Getter => true,
        _ => false,
    }
}

fn is_setter(kind: Kind) -> bool
    ensures { result ≡ is_setter kind }
{
    match kind {
        Kind::Setter => true,
        _ => false,
    }
}

fn getter_of(found: &[Declaration]) -> Option<DeclId>
    ensures { declaration result ≡ number_of_kind is_getter found.now }
{
    let getter = found.iter().find(|one| is_getter(one.kind))?;
    Some(DeclId(getter.number))
}

fn setter_of(found: &[Declaration]) -> Option<DeclId>
    ensures { declaration result ≡ number_of_kind is_setter found.now }
{
    let setter = found.iter().find(|one| is_setter(one.kind))?;
    Some(DeclId(setter.number))
}

fn accessors(found: &[Declaration]) -> Meaning
    ensures { meaning result ≡ accessors found.now }
{
    Meaning::Accessors(getter_of(found), setter_of(found))
}

/// The numbers of classes, as they are declared, by the numbers of declarations; one more than there are declarations.
pub fn class_numbers(alloc: Global, numbered: &[Declared]) -> Result<Vec<u32>, AllocError>
    requires { length numbered.now < 2 ^ 32 }
    ensures { IfOk result (λ made. AreClassNumbers numbered.now made.items) }
{
    let mut made = Vec::new(alloc);
    let mut count = 0;
    for one in numbered {
        made.push(count)?;
        if is_class(one.kind) {
            count += 1;
        }
    }
    made.push(count)?;
    Ok(made)
}

/// A program's numbered declarations, with the numbers of its classes.
#[derive(Clone, Copy)]
pub struct Numbered<'a> {
    pub declarations: &'a [Declared],
    /// As `class_numbers` gives them.
    pub classes: &'a [u32],
}

/// The number of the class that a declaration is, as classes are declared. Takes no memory.
pub fn class_number(numbered: Numbered, number: u32) -> u32
    requires { AreClassNumbers numbered.declarations.now numbered.classes.now }
    ensures { result ≡ class_number numbered.entry.declarations.now number }
{
    let last = numbered.classes.len() - 1;
    numbered.classes[(number as usize).min(last)]
}

fn kind_sense(numbered: Numbered, found: &[Declaration], number: u32, kind: Kind) -> Meaning
    requires { AreClassNumbers numbered.declarations.now numbered.classes.now }
    ensures { meaning result ≡ kind_sense numbered.entry.declarations.now found.now number kind }
{
    match kind {
        Kind::Class => Meaning::Class(ClassId(class_number(numbered, number))),
        Kind::Alias => Meaning::Alias(DeclId(number)),
        Kind::Variable => {
            Meaning::Variable(DeclId(number), is_final(numbered.declarations, number))
        }
        Kind::Function { required: _ } => Meaning::Function(DeclId(number)),
        Kind::Getter | Kind::Setter => accessors(found),
    }
}

/// What the declarations of a name in a library make it mean (ECMA-408, 16.33 Identifier Reference). Takes no memory.
pub fn sense(numbered: Numbered, found: &[Declaration]) -> Meaning
    requires { AreClassNumbers numbered.declarations.now numbered.classes.now }
    ensures { meaning result ≡ sense numbered.entry.declarations.now found.now }
{
    match found.first() {
        None => Meaning::Unknown,
        Some(first) => kind_sense(numbered, found, first.number, first.kind),
    }
}
