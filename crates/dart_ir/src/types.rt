// Types, as annotations, class headers and signatures give them.
ghost use Rattle.std.specs.Prelude.{◌≡◌, IfOk, map};
ghost use Rattle.dart_ir.specs.Ty.{dynamic, ty, function_ty, named_ty};

use crate::number::ClassId;
use dart_base::name::Name;
use std::alloc::{AllocError, Global};

/// Types in order. Within a type this is the vector itself; definitions see it as a list by `tys`.
pub type Types = Vec<TypeRef>;

/// A type (ECMA-408, Types).
#[cycle(types)]
pub enum TypeRef {
    /// The type `dynamic`; a malformed annotation counts as it.
    Dynamic,
    /// The type of null, below every other.
    Bottom,
    /// The result type `void`.
    Void,
    /// A class with its type arguments.
    Class(ClassId, Types),
    /// A type parameter of the declaration around, counted from 0.
    Param(u32),
    /// A function type, as a typedef or a function-typed parameter writes it.
    Function(Box<FunctionType>),
}

// The enum implements the trait itself, so a crate above need not prove again what a type holds.
impl Drop for TypeRef {
    #[cycle(drops)]
    fn drop(self) {
        match self {
            TypeRef::Dynamic => {}
            TypeRef::Bottom => {}
            TypeRef::Void => {}
            TypeRef::Class(_, _) => {}
            TypeRef::Param(_) => {}
            TypeRef::Function(_) => {}
        }
    }
}

/// A function type: its result and its parameters.
#[derive(Drop)]
#[cycle(types)]
pub struct FunctionType {
    pub result: TypeRef,
    pub required: Types,
    pub optional: Types,
    pub named: Vec<NamedType>,
}

/// A named parameter of a function type.
#[derive(Drop)]
#[cycle(types)]
pub struct NamedType {
    pub name: Name,
    pub of: TypeRef,
}

impl TypeRef {
    /// An equal type.
    #[cycle(copying)]
    #[tactic(auto, using(crate::proofs::View::views))]
    pub fn try_clone(&self, alloc: Global) -> Result<TypeRef, AllocError>
        ensures { IfOk result (λ copy. ty copy ≡ ty self.now) }
    {
        match self {
            TypeRef::Dynamic => Ok(TypeRef::Dynamic),
            TypeRef::Bottom => Ok(TypeRef::Bottom),
            TypeRef::Void => Ok(TypeRef::Void),
            TypeRef::Class(class, args) => Ok(TypeRef::Class(
                *class,
                try_clone_types(alloc, args)?,
            )),
            TypeRef::Param(index) => Ok(TypeRef::Param(*index)),
            TypeRef::Function(function) => {
                Ok(TypeRef::Function(Box::new(alloc, function.try_clone(alloc)?)?))
            }
        }
    }
}

/// Equal types in the same order.
#[cycle(copying)]
#[tactic(auto, using(crate::proofs::View::views))]
pub fn try_clone_types(alloc: Global, types: &[TypeRef]) -> Result<Types, AllocError>
    ensures { IfOk result (λ copies. map ty copies.items ≡ map ty types.now) }
{
    let mut copies = Vec::new(alloc);
    for one in types {
        copies.push(one.try_clone(alloc)?)?;
    }
    Ok(copies)
}

impl FunctionType {
    /// An equal function type.
    #[cycle(copying)]
    #[tactic(auto, using(crate::proofs::View::views))]
    pub fn try_clone(&self, alloc: Global) -> Result<FunctionType, AllocError>
        ensures { IfOk result (λ copy. function_ty copy ≡ function_ty self.now) }
    {
        let result = self.result.try_clone(alloc)?;
        let required = try_clone_types(alloc, &self.required)?;
        let optional = try_clone_types(alloc, &self.optional)?;
        let named = try_clone_named_types(alloc, &self.named)?;
        Ok(FunctionType {
            result,
            required,
            optional,
            named,
        })
    }
}

/// Equal named parameters in the same order.
#[cycle(copying)]
#[tactic(auto, using(crate::proofs::View::views))]
pub fn try_clone_named_types(
    alloc: Global,
    named: &[NamedType],
) -> Result<Vec<NamedType>, AllocError>
    ensures { IfOk result (λ copies. map named_ty copies.items ≡ map named_ty named.now) }
{
    let mut copies = Vec::new(alloc);
    for one in named {
        copies.push(one.try_clone(alloc)?)?;
    }
    Ok(copies)
}

impl NamedType {
    /// An equal named parameter.
    #[cycle(copying)]
    #[tactic(auto, using(crate::proofs::View::views))]
    pub fn try_clone(&self, alloc: Global) -> Result<NamedType, AllocError>
        ensures { IfOk result (λ copy. named_ty copy ≡ named_ty self.now) }
    {
        Ok(NamedType {
            name: self.name,
            of: self.of.try_clone(alloc)?,
        })
    }
}
