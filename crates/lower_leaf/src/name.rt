// Names as they are written, and as their library has them.
ghost use Rattle.std.specs.Prelude.{◌≡◌, ◌++◌, ◌∷◌, IfOk};
ghost use Rattle.std.specs.Str.{byte};
ghost use Rattle.std.specs.Fmt.{decimal};
ghost use Rattle.dart_tree.specs.Places.{place_of};
ghost use Rattle.translation.specs.Surroundings.{name_in};
ghost use Rattle.translation.specs.Types.{text_of};
ghost use Rattle.lower_leaf.specs.Around.{text};

use crate::fault::Want;
use crate::meaning::Outer;
use crate::surroundings::Surroundings;
use dart_base::bytes::Bytes;
use dart_base::name::Name;
use dart_base::place::Place;
use dart_tree::identifier::Identifier;
use std::alloc::Global;

/// Where an identifier stands.
pub fn place_of(name: &Identifier) -> Place
    ensures { result ≡ place_of name.now }
{
    match name {
        Identifier::Name(place, _) => *place,
        Identifier::Get(place) => *place,
        Identifier::Set(place) => *place,
    }
}

/// The text of an identifier.
pub fn text_of(name: &Identifier) -> &[u8]
    ensures { result.now ≡ text_of name.now }
{
    match name {
        Identifier::Name(_, text) => text.as_slice(),
        Identifier::Get(_) => b"get",
        Identifier::Set(_) => b"set",
    }
}

/// The name of the text in the table.
pub fn find<S: Surroundings>(outside: &S, name: &[u8]) -> Result<Name, Want>
    ensures { IfOk result (λ found. text (S.around outside.now) found ≡ name.now) }
{
    match outside.find(name) {
        Some(found) => Ok(found),
        None => Err(Want),
    }
}

// The text, at its end `@` and the number.
fn marked(alloc: Global, name: &[u8], library: u32) -> Result<Bytes, Want>
    ensures { IfOk result (λ made. made ≡ name.now ++ byte "@" ∷ decimal library) }
{
    let mut made = Bytes::from_slice(alloc, name)?;
    made.push(b'@')?;
    made.append(library.to_string(alloc)?.as_bytes())?;
    Ok(made)
}

/// The text of a name in its library: a private one is that of its text in its library (ECMA-408, 6.2 Privacy).
pub fn text_in(alloc: Global, library: u32, name: &[u8]) -> Result<Bytes, Want>
    ensures { IfOk result (λ made. made ≡ name_in library name.now) }
{
    match name {
        [b'_', ..] => marked(alloc, name, library),
        _ => Ok(Bytes::from_slice(alloc, name)?),
    }
}

/// The text of a name in the library there.
pub fn own_text<S: Surroundings>(
    alloc: Global,
    outside: &S,
    outer: Outer,
    name: &[u8],
) -> Result<Bytes, Want>
    ensures { IfOk result (λ made. made ≡ name_in ((S.around outside.now).names outer).library name.now) }
{
    text_in(alloc, outside.library(outer), name)
}

/// The name in the library there.
pub fn own_name<S: Surroundings>(
    alloc: Global,
    outside: &S,
    outer: Outer,
    name: &[u8],
) -> Result<Name, Want>
    ensures { IfOk result (λ found. text (S.around outside.now) found
        ≡ name_in ((S.around outside.now).names outer).library name.now) }
{
    let made = own_text(alloc, outside, outer, name)?;
    find(outside, made.as_slice())
}
