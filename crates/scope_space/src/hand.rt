// Which libraries hand out a name.
ghost use Rattle.std.specs.Prelude.{◌≡◌, ◌<◌, ℕ, true, false, Some, length, slice_get, slice_index_or, IfSome, IfNone, IfOk};
ghost use Rattle.scope_space.specs.Hands.{MarksHands};
ghost use Rattle.scope_space.specs.Building.{takes_over};
ghost use Rattle.scope_space.specs.declared.library.Library.{Library};

use crate::combinator::passes;
use crate::library::Library;
use dart_base::name::Name;
use std::alloc::{AllocError, Global};

/// Which libraries hand out the name as the owner declares it, by their numbers (ECMA-408, 18.2 Exports).
pub fn handing(
    alloc: Global,
    libraries: &[Library],
    name: Name,
    owner: usize,
) -> Result<Vec<bool>, AllocError>
    requires { owner < length libraries.now }
    ensures each { IfOk result (λ marks. length marks.items ≡ length libraries.now) }
    ensures hands { IfOk result (λ marks. MarksHands libraries.now name.0 owner marks.items) }
{
    let mut marks = vec![in alloc; false; libraries.len()]?;
    marks[owner] = libraries[owner].shares(name);
    while let Some(at) = next(libraries, marks.as_slice(), name) {
        marks[at] = true;
    }
    Ok(marks)
}

/// A library that isn't marked yet and takes the name over from one that is.
fn next(libraries: &[Library], marks: &[bool], name: Name) -> Option<usize>
    requires { length marks.now ≡ length libraries.now }
    ensures found { IfSome result (λ at. (slice_get marks.now at ≡ Some false)
        × (library : Library) × (slice_get libraries.now at ≡ Some library)
        × (takes_over marks.now name.0 library ≡ true)) }
    ensures closed { IfNone result ((at : ℕ) (library : Library) → slice_get libraries.now at ≡ Some library
        → takes_over marks.now name.0 library ≡ true → slice_get marks.now at ≡ Some true) }
{
    for at in 0..libraries.len() {
        if !marks[at] && takes_over(marks, name, &libraries[at]) {
            return Some(at);
        }
    }
    None
}

/// Whether a marked library hands the name to this one, which doesn't declare it.
fn takes_over(marks: &[bool], name: Name, library: &Library) -> bool
    ensures { result ≡ takes_over marks.now name.0 library.now }
{
    for export in &library.exports {
        if is_marked(marks, export.target) && passes(name, &export.combinators) {
            return !library.declares(name);
        }
    }
    false
}

/// Whether the library of the number is marked.
fn is_marked(marks: &[bool], library: u32) -> bool
    ensures { result ≡ slice_index_or marks.now library false }
{
    match marks.get(library as usize) {
        Some(mark) => *mark,
        None => false,
    }
}
