// What a program's bodies are translated in.
ghost use Rattle.std.specs.Prelude.{◌≡◌, map, IfSome, IfOk};
ghost use Rattle.lower_leaf.specs.Around.{Around, text, ty, types, option_type, class, mixin, meaning, constructor};

use crate::fault::Want;
use crate::meaning::{Constructor, Meaning, Mixin, Outer};
use dart_base::name::Name;
use dart_ir::native::NativeId;
use dart_ir::number::{ClassId, DeclId};
use dart_ir::types::{TypeRef, Types};
use std::alloc::Global;

/// The table of names, what names mean outside of local scopes, and what the table of classes has.
pub trait Surroundings {
    /// All of it, as contracts see it.
    ghost around: { Self → Around };

    /// The name of the text, if the table has it. Takes no memory.
    fn find(&self, name: &[u8]) -> Option<Name>
        ensures { IfSome result (λ found. text (around self.now) found ≡ name.now) };

    /// The number of the library.
    fn library(&self, outer: Outer) -> u32
        ensures { result ≡ ((around self.now).names outer).library };

    /// What a name means in a library or class (ECMA-408, 16.33 Identifier Reference).
    fn meaning(&self, outer: Outer, name: &[u8]) -> Meaning
        ensures { meaning result ≡ ((around self.now).names outer).meaning name.now };

    /// What a name means behind a prefix of imports (18.1 Imports).
    fn prefixed(&self, outer: Outer, prefix: &[u8], name: &[u8]) -> Meaning
        ensures { meaning result ≡ ((around self.now).names outer).prefixed prefix.now name.now };

    /// What a class declares as static under a name (10.7 Static Methods and 10.8 Static Variables).
    fn member_of(&self, of: ClassId, name: &[u8]) -> Meaning
        ensures { meaning result ≡ (around self.now).tables.static of.0 name.now };

    /// The constructor of a class with an id, empty for the unnamed one (10.6 Constructors).
    fn constructor(&self, of: ClassId, id: &[u8]) -> Constructor
        ensures { constructor result ≡ (around self.now).tables.constructor of.0 id.now };

    /// How many type parameters a class has (14 Generics).
    fn parameters(&self, of: ClassId) -> u32
        ensures { result ≡ (around self.now).tables.parameters of.0 };

    /// Whether a type parameter of the class has a bound.
    fn is_bounded(&self, of: ClassId) -> bool
        ensures { result ≡ (around self.now).tables.is_bounded of.0 };

    /// The superclass, mixin applications included.
    fn superclass(&self, of: ClassId) -> Option<ClassId>
        ensures { class result ≡ (around self.now).tables.superclass of.0 };

    /// The mixin of a mixin application, one that a class is written as included.
    fn mixin(&self, alloc: Global, of: ClassId) -> Result<Option<Mixin>, Want>
        ensures { IfOk result (λ made. mixin (around self.now) made ≡ (around self.now).tables.mixin of.0) };

    /// How many fields stand above those of the class.
    fn first_field(&self, of: ClassId) -> u32
        ensures { result ≡ (around self.now).tables.first_field of.0 };

    /// What the annotation of a library or static variable asks for (8 Variables).
    fn variable_type(&self, alloc: Global, of: DeclId) -> Result<Option<TypeRef>, Want>
        ensures { IfOk result (λ made. option_type (around self.now) made ≡ (around self.now).tables.variable_type of.0) };

    /// The function type that an alias is with these type arguments (19.3.1 Typedef).
    fn alias_type(&self, alloc: Global, of: DeclId, given: Types) -> Result<TypeRef, Want>
        ensures { IfOk result (λ made. ty (around self.now) made
            ≡ (around self.now).tables.alias_type of.0 (types (around self.now) given.items)) };

    /// The native function that an external declaration of the prelude is.
    fn native(&self, of: DeclId) -> Option<NativeId>
        ensures { result ≡ (around self.now).tables.native of.0 };

    /// The class `int` of the prelude.
    fn int_class(&self) -> ClassId
        ensures { result.0 ≡ (around self.now).tables.int_class };

    /// The class `String` of the prelude.
    fn string_class(&self) -> ClassId
        ensures { result.0 ≡ (around self.now).tables.string_class };

    /// The class that a map literal makes an object of (16.8 Maps).
    fn map_class(&self) -> ClassId
        ensures { result.0 ≡ (around self.now).tables.map_class };
}
