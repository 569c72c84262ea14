// What a class has from the classes above it.
ghost use Rattle.std.specs.Prelude.{◌≡◌, [], map, slice_get};
ghost use Rattle.dart_ir.specs.Ty.{ty};
ghost use Rattle.dart_ir.specs.Classes.{with_superclass};
ghost use Rattle.class_table.specs.Renumbered.{renumbered};
ghost use Rattle.class_table.specs.Rows.{callable_in, is_callable, any_callable, fields_in, field_count, field_counts, added_fields};

use crate::number::number_of;
use class_fault::program::{Declaration, class_named};
use dart_ir::class::ClassInfo;
use dart_ir::types::TypeRef;

/// The classes of the rows before one.
#[derive(Clone, Copy)]
pub struct Above<'a> {
    pub classes: &'a [ClassInfo],
}

impl Above<'_> {
    /// Whether a class has a method `call`.
    #[tactic(auto, using(dart_ir::proofs::View::views))]
    fn is_callable(&self, t: &TypeRef) -> bool
        ensures { result ≡ is_callable self.now.classes.now (ty t.now) }
    {
        match t {
            TypeRef::Class(class, _) => is_callable_at(self.classes, class.0),
            TypeRef::Dynamic => false,
            TypeRef::Bottom => false,
            TypeRef::Void => false,
            TypeRef::Param(_) => false,
            TypeRef::Function(_) => false,
        }
    }

    /// Whether one of the interfaces has a method `call`.
    pub fn is_any_callable(&self, types: &[TypeRef]) -> bool
        ensures { result ≡ any_callable self.now.classes.now (map ty types.now) }
    {
        for t in types {
            if self.is_callable(t) {
                return true;
            }
        }
        false
    }

    /// Whether the superclass has a method `call`.
    pub fn is_superclass_callable(&self, superclass: &Option<TypeRef>) -> bool
        ensures { result ≡ any_callable self.now.classes.now (map ty (with_superclass superclass.now [])) }
    {
        match superclass {
            None => false,
            Some(t) => self.is_callable(t),
        }
    }

    /// How many fields an instance of a class has.
    #[tactic(auto, using(dart_ir::proofs::View::views))]
    fn field_count(&self, t: &TypeRef) -> u32
        ensures { result ≡ field_count self.now.classes.now (ty t.now) }
    {
        match t {
            TypeRef::Class(class, _) => fields_at(self.classes, class.0),
            TypeRef::Dynamic => 0,
            TypeRef::Bottom => 0,
            TypeRef::Void => 0,
            TypeRef::Param(_) => 0,
            TypeRef::Function(_) => 0,
        }
    }

    /// How many fields the superclass has.
    pub fn superclass_fields(&self, superclass: &Option<TypeRef>) -> u32
        ensures { result ≡ field_counts self.now.classes.now (map ty (with_superclass superclass.now [])) }
    {
        match superclass {
            None => 0,
            Some(t) => self.field_count(t),
        }
    }
}

/// Whether the class in a row has a method `call`.
fn is_callable_at(classes: &[ClassInfo], row: u32) -> bool
    ensures { result ≡ callable_in (slice_get classes.now row) }
{
    match classes.get(row as usize) {
        None => false,
        Some(info) => info.callable,
    }
}

/// How many fields an instance of the class in a row has.
fn fields_at(classes: &[ClassInfo], row: u32) -> u32
    ensures { result ≡ fields_in (slice_get classes.now row) }
{
    match classes.get(row as usize) {
        None => 0,
        Some(info) => info.fields,
    }
}

/// The fields that a row adds: those that the class declares, or the mixin's.
pub fn added_fields(
    classes: &[ClassInfo],
    numbers: &[u32],
    declaration: &Declaration,
    step: usize,
) -> u32
    ensures { result ≡ added_fields classes.now numbers.now declaration.now (slice_get declaration.now.mixins.items step) }
{
    match declaration.mixins.get(step) {
        None => declaration.fields,
        Some(t) => mixin_fields(classes, numbers, &t.of),
    }
}

/// How many fields an instance of a mixin has.
fn mixin_fields(classes: &[ClassInfo], numbers: &[u32], mixin: &TypeRef) -> u32
    ensures { result ≡ field_count classes.now (renumbered numbers.now (ty mixin.now)) }
{
    match class_named(mixin) {
        None => 0,
        Some(class) => fields_at(classes, number_of(numbers, class)),
    }
}
