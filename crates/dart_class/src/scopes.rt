// What class declarations are read in, and where classes and declarations stand.
ghost use Rattle.std.specs.Prelude.{◌≡◌, ◌↔◌, Contains, IfSome, IsSome, Some, length, true, false};
ghost use Rattle.std.specs.Str.{IsUtf8};
ghost use Rattle.lower_leaf.specs.Around.{meaning, text};
ghost use Rattle.scope_program.specs.Around.{known, known_names};
ghost use Rattle.scope_program.specs.Places.{at_place};
ghost use Rattle.dart_class.specs.Around.{around_of, class_header, class_inside, class_names, library_names, library_of, names_at, number_of};

use class_reader::position::Positions;
use dart_base::name::Name;
use dart_base::place::Place;
use dart_ir::native::NativeId;
use dart_ir::number::{ClassId, DeclId};
use dart_ir::types::{TypeRef, Types};
use lower_annotation::number::Numbers;
use lower_leaf::fault::Want;
use lower_leaf::meaning::{Constructor, Meaning, Mixin, Outer};
use lower_leaf::surroundings::Surroundings;
use scope_program::class::ClassScope;
use scope_program::program::ProgramScopes;
use std::alloc::Global;
use std::str::from_utf8;

/// What the headers or the members of a program's classes are read in (ECMA-408, 10 Classes): aliases stand as `dynamic` there, and of the
/// table of classes nothing is asked that a class inherits.
#[derive(Clone, Copy)]
pub struct DeclaredScopes<'a> {
    pub scopes: &'a ProgramScopes,
    /// Whether names are looked up in the headers of classes, else inside of them.
    pub in_headers: bool,
}

// What a name means, where a number of no class and of no type parameter means nothing.
fn known(classes: usize, parameters: u32, found: Meaning) -> Meaning
    ensures { meaning result ≡ known classes parameters (meaning found) }
{
    match found {
        Meaning::Class(n) if n.0 as usize >= classes => Meaning::Unknown,
        Meaning::TypeParameter(n) if n >= parameters => Meaning::Unknown,
        other => other,
    }
}

// What a name means in the header of a class.
fn header_meaning(scopes: &ProgramScopes, class: &ClassScope, name: &[u8]) -> Meaning
    ensures { meaning result ≡ (class_header scopes.now (Some class.now)).meaning name.now }
{
    match scopes.libraries.get(class.library as usize) {
        None => Meaning::Unknown,
        Some(around) => known(
            scopes.classes.len(),
            class.parameters,
            class.names.header_meaning(around, name),
        ),
    }
}

// What a name means inside of a class.
fn inside_meaning(scopes: &ProgramScopes, class: &ClassScope, name: &[u8]) -> Meaning
    ensures { meaning result ≡ (class_inside scopes.now (Some class.now)).meaning name.now }
{
    match scopes.libraries.get(class.library as usize) {
        None => Meaning::Unknown,
        Some(around) => known(
            scopes.classes.len(),
            class.parameters,
            class.names.meaning(around, name),
        ),
    }
}

// What a name means in a class, where classes are looked at so.
fn class_meaning(
    in_headers: bool,
    scopes: &ProgramScopes,
    class: &ClassScope,
    name: &[u8],
) -> Meaning
    ensures { meaning result ≡ (class_names in_headers scopes.now (Some class.now)).meaning name.now }
{
    if in_headers {
        header_meaning(scopes, class, name)
    } else {
        inside_meaning(scopes, class, name)
    }
}

// What a name means in a library.
fn library_meaning(scopes: &ProgramScopes, library: u32, name: &[u8]) -> Meaning
    ensures { meaning result ≡ (known_names (length scopes.now.classes.items) 0 (library_names scopes.now library)).meaning name.now }
{
    match scopes.libraries.get(library as usize) {
        None => Meaning::Unknown,
        Some(around) => known(scopes.classes.len(), 0, around.meaning(name)),
    }
}

// What a name means in a library behind a prefix, where there are so many type parameters.
fn prefixed_meaning(
    scopes: &ProgramScopes,
    library: u32,
    parameters: u32,
    prefix: &[u8],
    name: &[u8],
) -> Meaning
    ensures { meaning result ≡ (known_names (length scopes.now.classes.items) parameters (library_names scopes.now library)).prefixed prefix.now name.now }
{
    match scopes.libraries.get(library as usize) {
        None => Meaning::Unknown,
        Some(around) => known(
            scopes.classes.len(),
            parameters,
            around.prefixed(prefix, name),
        ),
    }
}

// The library in which names are looked up there.
fn library_at(scopes: &ProgramScopes, outer: Outer) -> u32
    ensures headers { result ≡ (names_at true scopes.now outer.library outer.class).library }
    ensures members { result ≡ (names_at false scopes.now outer.library outer.class).library }
{
    match outer.class {
        None => match scopes.libraries.get(outer.library as usize) {
            Some(around) => around.library(),
            None => outer.library,
        },
        Some(k) => match scopes.classes.get(k.0 as usize) {
            Some(class) => class.library,
            None => 0,
        },
    }
}

impl<'a> Surroundings for DeclaredScopes<'a> {
    ghost around = { around_of };

    /// The name of the text: every text that the table has is found.
    fn find(&self, name: &[u8]) -> Option<Name>
        ensures found { IfSome result (λ found. text (around_of self.now) found ≡ name.now) }
        ensures known { IsUtf8 name.now → (IsSome result ↔ Contains self.now.scopes.now.names name.now) }
    {
        match from_utf8(name) {
            Ok(text) => self.scopes.names.find(text),
            Err(_) => None,
        }
    }

    fn library(&self, outer: Outer) -> u32 {
        library_at(self.scopes, outer)
    }

    fn meaning(&self, outer: Outer, name: &[u8]) -> Meaning {
        match outer.class {
            None => library_meaning(self.scopes, outer.library, name),
            Some(k) => match self.scopes.classes.get(k.0 as usize) {
                Some(class) => class_meaning(self.in_headers, self.scopes, class, name),
                None => Meaning::Unknown,
            },
        }
    }

    fn prefixed(&self, outer: Outer, prefix: &[u8], name: &[u8]) -> Meaning {
        match outer.class {
            None => prefixed_meaning(self.scopes, outer.library, 0, prefix, name),
            Some(k) => match self.scopes.classes.get(k.0 as usize) {
                Some(class) => prefixed_meaning(
                    self.scopes,
                    class.library,
                    class.parameters,
                    prefix,
                    name,
                ),
                None => Meaning::Unknown,
            },
        }
    }

    fn member_of(&self, of: ClassId, name: &[u8]) -> Meaning {
        match self.scopes.classes.get(of.0 as usize) {
            Some(class) => class.names.member_of(name),
            None => Meaning::Unknown,
        }
    }

    fn constructor(&self, of: ClassId, id: &[u8]) -> Constructor {
        match self.scopes.classes.get(of.0 as usize) {
            Some(class) => class.constructors.constructor(id),
            None => Constructor::Missing,
        }
    }

    fn parameters(&self, of: ClassId) -> u32 {
        match self.scopes.classes.get(of.0 as usize) {
            Some(class) => class.parameters,
            None => 0,
        }
    }

    fn is_bounded(&self, of: ClassId) -> bool {
        match self.scopes.classes.get(of.0 as usize) {
            Some(class) => class.is_bounded,
            None => false,
        }
    }

    fn superclass(&self, _of: ClassId) -> Option<ClassId> {
        None
    }

    fn mixin(&self, _alloc: Global, _of: ClassId) -> Result<Option<Mixin>, Want> {
        Ok(None)
    }

    fn first_field(&self, _of: ClassId) -> u32 {
        0
    }

    fn variable_type(&self, _alloc: Global, _of: DeclId) -> Result<Option<TypeRef>, Want> {
        Ok(None)
    }

    #[tactic(auto, using(lower_leaf::proofs::TypeLaws::type_views))]
    fn alias_type(&self, _alloc: Global, _of: DeclId, _given: Types) -> Result<TypeRef, Want> {
        Ok(TypeRef::Dynamic)
    }

    fn native(&self, _of: DeclId) -> Option<NativeId> {
        None
    }

    fn int_class(&self) -> ClassId {
        ClassId(self.scopes.int_class)
    }

    fn string_class(&self) -> ClassId {
        ClassId(self.scopes.string_class)
    }

    fn map_class(&self) -> ClassId {
        ClassId(self.scopes.map_class)
    }
}

impl<'a> Positions for DeclaredScopes<'a> {
    ghost libraries = { λ d. library_of d.scopes.now };

    ghost numbers = { λ d. number_of d.scopes.now };

    fn library_of(&self, of: ClassId) -> u32 {
        match self.scopes.classes.get(of.0 as usize) {
            Some(class) => class.library,
            None => 0,
        }
    }

    /// The number of the declaration whose name stands there: every place that has one is found.
    fn number_at(&self, place: Place) -> Option<DeclId>
        ensures found { IfSome result (λ found. found.0 ≡ number_of self.now.scopes.now place) }
        ensures known { IsSome result ↔ IsSome (at_place self.now.scopes.now.places place) }
    {
        let number = self.scopes.number_at(place)?;
        Some(DeclId(number))
    }
}

impl<'a> Numbers for DeclaredScopes<'a> {
    ghost numbers = { λ d. at_place d.scopes.now.places };

    fn number_at(&self, place: Place) -> Option<u32> {
        self.scopes.number_at(place)
    }
}
