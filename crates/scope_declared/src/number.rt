// The numbers of identifiers.
ghost use Rattle.std.specs.Prelude.{◌≡◌, ◌++◌, IfOk, codes, decimal};
ghost use Rattle.scope_declared.specs.Number.{is_private, library_place, name_text, number_in};
ghost use Rattle.scope_declared.specs.Number.{number_of};

use dart_base::name::Name;
use dart_base::names::Names;
use dart_base::place::Place;
use std::alloc::{AllocError, Global};
use std::str::from_utf8;

/// The name of what has no name, and of a text that the table of names lacks: no table gives it.
pub const NO_NAME: Name = Name(u32::MAX);

/// The place of the scope of what a library declares, which is before any line. Takes no memory.
pub fn library_place(library: u32) -> Place
    ensures { result ≡ library_place library }
{
    Place {
        unit: library,
        line: 0,
        column: 0,
    }
}

// The name of a text.
fn number_in(names: &Names, text: &[u8]) -> Name
    ensures { result.0 ≡ number_in names.now text.now }
{
    let _count = names.count();
    match from_utf8(text) {
        Err(_) => NO_NAME,
        Ok(text) => match names.find(text) {
            None => NO_NAME,
            Some(name) => name,
        },
    }
}

fn is_private(text: &[u8]) -> bool
    ensures { result ≡ is_private text.now }
{
    match text.first() {
        None => false,
        Some(first) => *first == b'_',
    }
}

// What stands in the table of names for a private identifier.
fn private_text(alloc: Global, library: u32, text: &[u8]) -> Result<Vec<u8>, AllocError>
    ensures { IfOk result (λ made. made.items ≡ text.now ++ (codes "@" ++ decimal library)) }
{
    let suffix = format!(in alloc; "@{library}")?;
    let mut made = Vec::from_slice(alloc, text)?;
    made.extend_from_slice(suffix.as_bytes())?;
    Ok(made)
}

/// The name of an identifier in a library: of a private one it is that of its text with `@` and the library's number, in
/// decimal, behind it (ECMA-408, 6.2 Privacy).
pub fn number_of(
    alloc: Global,
    names: &Names,
    library: u32,
    text: &[u8],
) -> Result<Name, AllocError>
    ensures { IfOk result (λ name. name.0 ≡ number_of names.now library text.now) }
{
    if is_private(text) {
        let private = private_text(alloc, library, text)?;
        let name = number_in(names, &private);
        Ok(name)
    } else {
        let open_name = number_in(names, text);
        Ok(open_name)
    }
}
