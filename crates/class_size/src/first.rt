// The first type of a header, in source order, that is too large or below one that is.
ghost use Rattle.std.specs.Prelude.{◌≡◌, IfOk};
ghost use Rattle.dart_ir.specs.Classes.{IsValid};
ghost use Rattle.class_size.specs.Size.{IsFirst, option_list, header_list, user_types, all_user_types};
ghost use Rattle.class_size.specs.Bound.{AreBounds};

use crate::bound::bounds_of;
use crate::large::Sizes;
use class_fault::program::{Declaration, HeaderType, Program};
use class_table::renumber::renumber;
use dart_base::place::Place;
use dart_ir::class::Classes;
use std::alloc::{AllocError, Global};
use std::slice;

/// The place of the first type of a header of a user's file, in source order, that has more than `TYPE_NODES` nodes or
/// such a type above it.
pub fn first_too_large<'a>(
    alloc: Global,
    program: &Program,
    numbers: &'a [u32],
    classes: &'a Classes,
) -> Result<Option<Place>, AllocError>
    requires { IsValid classes.now }
    ensures { IfOk result (λ found.
        IsFirst classes.now numbers.now (all_user_types program.now.declarations.items) found) }
{
    let bounds = bounds_of(alloc, classes)?;
    let scan = Scan {
        numbers,
        sizes: Sizes {
            classes,
            bounds: &bounds,
        },
    };
    for declaration in &program.declarations {
        if let Some(place) = scan.first_of_user(alloc, declaration)? {
            return Ok(Some(place));
        }
    }
    Ok(None)
}

/// A scan of headers for a type that is too large.
#[derive(Clone, Copy)]
struct Scan<'a> {
    /// For each declaration the number of its class in the table.
    numbers: &'a [u32],
    sizes: Sizes<'a>,
}

impl Scan<'_> {
    /// The first such type of a class of a user's file.
    fn first_of_user(
        &self,
        alloc: Global,
        declaration: &Declaration,
    ) -> Result<Option<Place>, AllocError>
        requires valid { IsValid self.now.sizes.classes.now }
        requires bounds { AreBounds self.now.sizes.classes.now self.now.sizes.bounds.now }
        ensures { IfOk result (λ found.
            IsFirst self.now.sizes.classes.now self.now.numbers.now (user_types declaration.now) found) }
    {
        if !declaration.standing.is_user {
            return Ok(None);
        }
        let found = self.first_of_header(alloc, declaration)?;
        Ok(found)
    }

    /// The first such type of a header.
    fn first_of_header(
        &self,
        alloc: Global,
        declaration: &Declaration,
    ) -> Result<Option<Place>, AllocError>
        requires valid { IsValid self.now.sizes.classes.now }
        requires bounds { AreBounds self.now.sizes.classes.now self.now.sizes.bounds.now }
        ensures { IfOk result (λ found.
            IsFirst self.now.sizes.classes.now self.now.numbers.now (header_list declaration.now) found) }
    {
        let superclass = listed(&declaration.superclass);
        if let Some(place) = self.first_among(alloc, superclass)? {
            return Ok(Some(place));
        }
        if let Some(place) = self.first_among(alloc, &declaration.mixins)? {
            return Ok(Some(place));
        }
        // The answer has a name, by which the proof speaks of it.
        let last = self.first_among(alloc, &declaration.interfaces)?;
        Ok(last)
    }

    /// The first such type of some.
    fn first_among(&self, alloc: Global, types: &[HeaderType]) -> Result<Option<Place>, AllocError>
        requires valid { IsValid self.now.sizes.classes.now }
        requires bounds { AreBounds self.now.sizes.classes.now self.now.sizes.bounds.now }
        ensures { IfOk result (λ found.
            IsFirst self.now.sizes.classes.now self.now.numbers.now types.now found) }
    {
        for t in types {
            let numbered = renumber(alloc, self.numbers, &t.of)?;
            if self.sizes.is_too_large(alloc, &numbered)? {
                return Ok(Some(t.place));
            }
        }
        Ok(None)
    }
}

/// The superclass, where a header names one, as a list.
fn listed(superclass: &Option<HeaderType>) -> &[HeaderType]
    ensures { result.now ≡ option_list superclass.now }
{
    match superclass {
        None => &[],
        Some(t) => slice::from_ref(t),
    }
}
