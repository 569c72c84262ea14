// The table of classes and their instance members.
use crate::number::{ClassId, DeclId, MemberId};
use crate::types::{FunctionType, TypeRef, Types};
use dart_base::name::Name;
use dart_base::place::Place;

/// What a member is called as.
#[derive(Clone, Copy, Debug, PartialEq, Eq)]
pub enum Role {
    Method,
    Getter,
    Setter,
}

/// A class, or the class that a mixin application makes.
#[derive(Drop)]
pub struct ClassInfo {
    pub name: Name,
    /// The number of its library.
    pub library: u32,
    /// The declared name, or the mixin's type in the header.
    pub place: Place,
    /// The bound of each type parameter, where it has one.
    pub bounds: Vec<Option<TypeRef>>,
    /// The superclass over the class's own parameters; none for `Object` alone.
    pub superclass: Option<TypeRef>,
    pub interfaces: Types,
    pub is_abstract: bool,
    /// None for a mixin application without a declaration of its own.
    pub decl: Option<DeclId>,
    /// How many fields an instance has, inherited ones included.
    pub fields: u32,
    pub members: Vec<MemberId>,
    /// Whether it has a method `call`, its own or inherited, with or without a body.
    pub callable: bool,
}

/// An instance member, as a class declares it.
#[derive(Drop)]
pub struct MemberInfo {
    pub name: Name,
    pub role: Role,
    pub owner: ClassId,
    pub function: DeclId,
    pub signature: FunctionType,
    /// The declared name, or an operator's sign.
    pub place: Place,
    /// Whether it has a body; an external member counts as having one.
    pub has_body: bool,
}

/// The classes of a program and their instance members. `IsValid` of specs/Classes.antt says when a table is one.
#[derive(Drop)]
pub struct Classes {
    pub classes: Vec<ClassInfo>,
    pub members: Vec<MemberInfo>,
    /// The class `Function` of `dart:core`.
    pub function: ClassId,
}
