// Names of the table as they are written in a library.
ghost use Rattle.std.specs.Prelude.{◌≡◌, ◌++◌, ◌↔◌, List, ℕ, IfOk, Some, codes, decimal, string_bytes};
ghost use Rattle.std.specs.Option.{option_map};
ghost use Rattle.scope_declared.specs.Number.{is_private};
ghost use Rattle.scope_dictionary.specs.Written.{named};

use std::alloc::{AllocError, Global};

/// What stands behind a private name of the library in the table of names.
pub fn suffix_of(alloc: Global, library: u32) -> Result<String, AllocError>
    ensures { IfOk result (λ made. string_bytes made ≡ codes "@" ++ decimal library) }
{
    format!(in alloc; "@{library}")
}

fn is_private(text: &[u8]) -> bool
    ensures { result ≡ is_private text.now }
{
    match text.first() {
        None => false,
        Some(first) => *first == b'_',
    }
}

/// The text as which a name of the table is written in a library whose private names end with the suffix (ECMA-408, 6.2
/// Privacy). `None` for a private name of another library. Takes no memory.
pub fn written<'a>(suffix: &[u8], name: &'a [u8]) -> Option<&'a [u8]>
    ensures { (text : List ℕ) → named suffix.now text ≡ name.now ↔ option_map (λ found. found.now) result ≡ Some text }
{
    if !is_private(name) {
        return Some(name);
    }
    let text = name.strip_suffix(suffix)?;
    if is_private(text) { Some(text) } else { None }
}
