// What names mean outside of local scopes.

use dart_ir::number::{ClassId, DeclId};
use dart_ir::types::Types;

/// What a name means outside of local scopes (ECMA-408, 16.33 Identifier Reference).
#[derive(Clone, Copy, Debug, PartialEq, Eq)]
pub enum Meaning {
    /// A top-level or static function.
    Function(DeclId),
    /// A library or static variable, and whether it is final.
    Variable(DeclId, bool),
    /// A top-level or static getter and setter, of which one may be missing.
    Accessors(Option<DeclId>, Option<DeclId>),
    Class(ClassId),
    /// An alias of a function type.
    Alias(DeclId),
    /// A type parameter of the class around, counted from 0.
    TypeParameter(u32),
    /// An instance member that the class around declares.
    Member,
    /// A prefix of imports.
    Prefix,
    /// What several imports give.
    Ambiguous,
    Unknown,
}

/// A constructor of a class (ECMA-408, 10.6 Constructors).
#[derive(Clone, Copy, Debug, PartialEq, Eq)]
pub enum Constructor {
    Generative(DeclId),
    Factory(DeclId),
    /// There is none.
    Missing,
}

/// The class whose members a mixin application has, with the type arguments that it gives it (12.1 Mixin Application).
#[derive(Drop)]
pub struct Mixin {
    pub class: ClassId,
    pub arguments: Types,
}

/// Where names are looked up outside of local scopes: in a library, or in a class of it.
#[derive(Clone, Copy, Debug, PartialEq, Eq)]
pub struct Outer {
    pub library: u32,
    pub class: Option<ClassId>,
}
