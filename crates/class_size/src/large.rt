// Whether a type, or one above it, is too large.
ghost use Rattle.std.specs.Prelude.{◌≡◌, ◌<◌, ◌↔◌, ◌++◌, ℕ, [], All, IfOk, IsTrue};
ghost use Rattle.dart_ir.specs.Ty.{ty, tys, class};
ghost use Rattle.dart_ir.specs.Classes.{IsValid, IsEarlierClass, class_at, with_superclass};
ghost use Rattle.class_size.specs.Size.{IsTooLarge, IsLargeAbove};
ghost use Rattle.class_size.specs.Bound.{AreBounds, HasLarge};

use crate::bound::bound_above;
use dart_base::limit::TYPE_NODES;
use dart_ir::class::Classes;
use dart_ir::types::TypeRef;
use dart_type::instance::{TypeFault, instantiate};
use std::alloc::{AllocError, Global};
use std::slice;

/// A table of classes with bounds on the sizes of the types above each.
#[derive(Clone, Copy)]
pub struct Sizes<'a> {
    pub classes: &'a Classes,
    pub bounds: &'a [usize],
}

impl Sizes<'_> {
    /// Whether a type, or one above it, has more than `TYPE_NODES` nodes.
    pub fn is_too_large(&self, alloc: Global, t: &TypeRef) -> Result<bool, AllocError>
        requires valid { IsValid self.now.classes.now }
        requires bounds { AreBounds self.now.classes.now self.now.bounds.now }
        ensures { IfOk result (λ b. IsTrue b ↔ IsTooLarge self.now.classes.now (ty t.now)) }
    {
        match instantiate(alloc, t, &[]) {
            Ok(_) => {
                // The answer has a name, by which the proof speaks of it.
                let above = self.is_large_above(alloc, t)?;
                return Ok(above);
            }
            Err(TypeFault::TooLarge) => return Ok(true),
            Err(TypeFault::Memory) => return Err(AllocError),
        }
    }

    /// Whether one of the types above a type has more than `TYPE_NODES` nodes.
    #[cycle(climbing)]
    #[tactic(auto, using(dart_ir::proofs::View::views))]
    fn is_large_above(&self, alloc: Global, t: &TypeRef) -> Result<bool, AllocError>
        requires valid { IsValid self.now.classes.now }
        requires bounds { AreBounds self.now.classes.now self.now.bounds.now }
        ensures { IfOk result (λ b. IsTrue b ↔ IsLargeAbove self.now.classes.now (ty t.now)) }
    {
        match t {
            TypeRef::Class(class, args) => self.is_large_above_class(alloc, class.0 as usize, args),
            TypeRef::Dynamic => Ok(false),
            TypeRef::Bottom => Ok(false),
            TypeRef::Void => Ok(false),
            TypeRef::Param(_) => Ok(false),
            TypeRef::Function(_) => Ok(false),
        }
    }

    /// The same of a class with these arguments. Where the bound of the class tells, it isn't climbed.
    #[cycle(climbing)]
    fn is_large_above_class(
        &self,
        alloc: Global,
        c: usize,
        args: &[TypeRef],
    ) -> Result<bool, AllocError>
        requires valid { IsValid self.now.classes.now }
        requires bounds { AreBounds self.now.classes.now self.now.bounds.now }
        ensures { IfOk result (λ b. IsTrue b
            ↔ IsLargeAbove self.now.classes.now (class c (tys args.now))) }
    {
        if bound_above(self.bounds, c, args) <= TYPE_NODES {
            return Ok(false);
        }
        match self.classes.classes.get(c) {
            None => Ok(false),
            Some(info) => {
                let superclass = listed(&info.superclass);
                if self.is_any_large(alloc, c, superclass, args)? {
                    return Ok(true);
                }
                // The answer has a name, by which the proof speaks of it.
                let last = self.is_any_large(alloc, c, &info.interfaces, args)?;
                Ok(last)
            }
        }
    }

    /// Whether one of the supertypes of class c with these arguments put in, or one above it, is too large.
    #[cycle(climbing)]
    fn is_any_large(
        &self,
        alloc: Global,
        c: usize,
        types: &[TypeRef],
        args: &[TypeRef],
    ) -> Result<bool, AllocError>
        requires valid { IsValid self.now.classes.now }
        requires bounds { AreBounds self.now.classes.now self.now.bounds.now }
        requires earlier { All (λ u. IsEarlierClass c (ty u)) types.now }
        ensures { IfOk result (λ b. IsTrue b
            ↔ HasLarge self.now.classes.now (tys args.now) types.now) }
    {
        for t in types {
            match instantiate(alloc, t, args) {
                Ok(made) => {
                    if self.is_large_above(alloc, &made)? {
                        return Ok(true);
                    }
                }
                Err(TypeFault::TooLarge) => return Ok(true),
                Err(TypeFault::Memory) => return Err(AllocError),
            }
        }
        Ok(false)
    }
}

/// The superclass, where there is one, as a list.
fn listed(superclass: &Option<TypeRef>) -> &[TypeRef]
    ensures { result.now ≡ with_superclass superclass.now [] }
{
    match superclass {
        None => &[],
        Some(t) => slice::from_ref(t),
    }
}
