// What is translated in, with what annotations ask for.
ghost use Rattle.std.specs.Prelude.{◌≡◌, bytes_eq, take};
ghost use Rattle.std.specs.List.{position_from};
ghost use Rattle.lower_annotation.specs.Seen.{around_seen, texts};

use crate::entry::{Entry, alias_type};
use crate::place::Places;
use crate::variable::{Variables, type_at};
use dart_base::name::Name;
use dart_ir::native::NativeId;
use dart_ir::number::{ClassId, DeclId};
use dart_ir::types::{TypeRef, Types};
use dart_tree::declaration::TypeParameter;
use lower_leaf::fault::Want;
use lower_leaf::meaning::{Constructor, Meaning, Mixin, Outer};
use lower_leaf::name::text_of;
use lower_leaf::surroundings::Surroundings;
use std::alloc::Global;

/// What something is translated in, where the first of these type parameters are around, and aliases and variables have these types.
#[derive(Clone, Copy)]
pub struct Annotated<'s, 'p, 'a, 'e, 'v, S> {
    pub base: &'s S,
    pub count: u32,
    pub parameters: &'p [TypeParameter],
    pub waits: bool,
    pub aliases: &'a Places,
    pub entries: &'e [Entry],
    pub variables: Option<&'v Variables>,
}

// The number of the first type parameter of the name, among the first ones.
fn parameter_at(parameters: &[TypeParameter], count: u32, name: &[u8]) -> Option<u32>
    ensures { result ≡ position_from (bytes_eq name.now) 0 (texts (take count parameters.now)) }
{
    for index in 0..count {
        match parameters.get(index as usize) {
            None => return None,
            Some(one) => {
                if name == text_of(&one.name) {
                    return Some(index);
                }
            }
        }
    }
    None
}

impl<'s, 'p, 'a, 'e, 'v, S: Surroundings> Surroundings for Annotated<'s, 'p, 'a, 'e, 'v, S> {
    ghost around = { λ x. around_seen (S.around x.base.now) x.count x.parameters.now x.waits x.aliases.now x.entries.now x.variables };

    fn find(&self, name: &[u8]) -> Option<Name> {
        self.base.find(name)
    }

    fn library(&self, outer: Outer) -> u32 {
        self.base.library(outer)
    }

    fn meaning(&self, outer: Outer, name: &[u8]) -> Meaning {
        match parameter_at(self.parameters, self.count, name) {
            Some(index) => Meaning::TypeParameter(index),
            None => self.base.meaning(outer, name),
        }
    }

    fn prefixed(&self, outer: Outer, prefix: &[u8], name: &[u8]) -> Meaning {
        self.base.prefixed(outer, prefix, name)
    }

    fn member_of(&self, of: ClassId, name: &[u8]) -> Meaning {
        self.base.member_of(of, name)
    }

    fn constructor(&self, of: ClassId, id: &[u8]) -> Constructor {
        self.base.constructor(of, id)
    }

    fn parameters(&self, of: ClassId) -> u32 {
        self.base.parameters(of)
    }

    fn is_bounded(&self, of: ClassId) -> bool {
        self.base.is_bounded(of)
    }

    fn superclass(&self, of: ClassId) -> Option<ClassId> {
        self.base.superclass(of)
    }

    fn mixin(&self, alloc: Global, of: ClassId) -> Result<Option<Mixin>, Want> {
        self.base.mixin(alloc, of)
    }

    fn first_field(&self, of: ClassId) -> u32 {
        self.base.first_field(of)
    }

    fn variable_type(&self, alloc: Global, of: DeclId) -> Result<Option<TypeRef>, Want> {
        match self.variables {
            None => self.base.variable_type(alloc, of),
            Some(all) => type_at(alloc, self.base, all, of.0),
        }
    }

    fn alias_type(&self, alloc: Global, of: DeclId, given: Types) -> Result<TypeRef, Want> {
        alias_type(
            alloc,
            self.base,
            self.waits,
            self.aliases,
            self.entries,
            of.0,
            given,
        )
    }

    fn native(&self, of: DeclId) -> Option<NativeId> {
        self.base.native(of)
    }

    fn int_class(&self) -> ClassId {
        self.base.int_class()
    }

    fn string_class(&self) -> ClassId {
        self.base.string_class()
    }

    fn map_class(&self) -> ClassId {
        self.base.map_class()
    }
}
