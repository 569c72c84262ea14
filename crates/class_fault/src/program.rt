// The class declarations of a program, with their names resolved.
ghost use Rattle.std.specs.Prelude.{◌≡◌};
ghost use Rattle.dart_ir.specs.Ty.{ty};
ghost use Rattle.class_fault.specs.Program.{class_named};

use dart_base::name::Name;
use dart_base::place::Place;
use dart_ir::class::Role;
use dart_ir::number::DeclId;
use dart_ir::types::{FunctionType, TypeRef};

/// The clause of a class header in which a type stands (ECMA-408, Classes). A class that is written as a mixin
/// application names its superclass in the first too.
#[derive(Clone, Copy, Debug, PartialEq, Eq)]
pub enum Clause {
    Extends,
    With,
    Implements,
}

/// A type that a header names, at the place of its name. A name that is no class is another type than `Class`; in the
/// arguments of a class a typedef stands as `dynamic`.
#[derive(Drop)]
pub struct HeaderType {
    pub place: Place,
    pub of: TypeRef,
}

/// What decides whether headers may name a class.
#[derive(Clone, Copy, Debug, PartialEq, Eq)]
pub struct Standing {
    /// It stands in a file of the user's.
    pub is_user: bool,
    /// It is int, num, double, String, bool or Null of `dart:core`.
    pub is_basic: bool,
    /// It declares external members.
    pub has_external: bool,
    /// It declares a constructor.
    pub has_constructor: bool,
    /// It names `super`.
    pub names_super: bool,
}

/// An instance member that a class declares. A field declares a getter, and where it isn't final a setter.
#[derive(Drop)]
pub struct Member {
    pub name: Name,
    pub role: Role,
    /// The declaration of the function, or of the field that it reads or writes.
    pub function: DeclId,
    pub signature: FunctionType,
    pub place: Place,
    pub has_body: bool,
}

/// A class declaration (ECMA-408, Classes). In its types classes are numbered as declarations, in source order.
#[derive(Drop)]
pub struct Declaration {
    pub name: Name,
    /// The number of its library.
    pub library: u32,
    pub place: Place,
    pub decl: DeclId,
    pub is_abstract: bool,
    /// It is written as a mixin application, `class M = S with N;`: its last mixin gives its members.
    pub is_application: bool,
    pub standing: Standing,
    /// The bound of each type parameter, where it has one.
    pub bounds: Vec<Option<TypeRef>>,
    /// None where the header names none, which stands for `Object`.
    pub superclass: Option<HeaderType>,
    pub mixins: Vec<HeaderType>,
    pub interfaces: Vec<HeaderType>,
    /// The instance members that it declares itself.
    pub members: Vec<Member>,
    /// How many instance fields it declares itself.
    pub fields: u32,
}

/// The class declarations of a program, in source order.
#[derive(Drop)]
pub struct Program {
    pub declarations: Vec<Declaration>,
    /// The class `Object` of `dart:core`.
    pub object: usize,
    /// The class `Function` of `dart:core`.
    pub function: usize,
    /// The name `call`.
    pub call: Name,
}

/// The class that a type names, as the number of its declaration; none where it is no class.
#[tactic(auto, using(dart_ir::proofs::View::views))]
pub fn class_named(t: &TypeRef) -> Option<usize>
    ensures { result ≡ class_named (ty t.now) }
{
    match t {
        TypeRef::Class(class, _) => Some(class.0 as usize),
        TypeRef::Dynamic => None,
        TypeRef::Bottom => None,
        TypeRef::Void => None,
        TypeRef::Param(_) => None,
        TypeRef::Function(_) => None,
    }
}
