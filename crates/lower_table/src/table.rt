// What the bodies of a program are translated in, with classes numbered as rows of its table.
ghost use Rattle.std.specs.Prelude.{◌≡◌, ◌↔◌, [], Contains, IfOk, IfSome, IsSome, bytes_eq, map, slice_get, unwrap_or};
ghost use Rattle.std.specs.Option.{option_map};
ghost use Rattle.std.specs.Str.{IsUtf8};
ghost use Rattle.lower_added.specs.Written.{generative};
ghost use Rattle.lower_leaf.specs.Around.{constructor, text};
ghost use Rattle.lower_table.specs.Made.{around_made, index_made, meanings_made};
ghost use Rattle.lower_table.specs.Rows.{found_at};
ghost use Rattle.lower_table.specs.Table.{constructor_called, constructor_written, table_around};
ghost use Rattle.scope_program.specs.Made.{AreScopesOf};
ghost use Rattle.scope_program.specs.Program.{Scoping};

use crate::addition::added_to_rows;
use crate::lookup::{
    class_constructor, class_library, class_meaning, class_prefixed, class_static, library_meaning,
    library_number, library_prefixed, renumbered,
};
use crate::mixin::mixin_at;
use crate::place::places_of;
use crate::row::{
    applications, found_at, is_bounded, parameter_counts, row_declarations, superclass_of,
};
use crate::source::{class_declarations, mixed};
use dart_base::name::Name;
use dart_base::names::Names;
use dart_ir::class::{ClassInfo, Classes};
use dart_ir::native::NativeId;
use dart_ir::number::{ClassId, DeclId};
use dart_ir::types::{TypeRef, Types};
use lower_added::native::natives;
use lower_added::written::Generative;
use lower_leaf::fault::Want;
use lower_leaf::meaning::{Constructor, Meaning, Mixin, Outer};
use lower_leaf::surroundings::Surroundings;
use scope_program::program::ProgramScopes;
use std::alloc::Global;
use std::str::from_utf8;

/// What the names of a program mean, with classes numbered as rows of its table of classes.
#[derive(Drop)]
pub struct TableScopes<'a> {
    scopes: &'a ProgramScopes,
    classes: &'a Classes,
    rows: Vec<Option<u32>>,
    declared: Vec<Option<u32>>,
    applications: Vec<bool>,
    parameters: Vec<u32>,
    constructors: Vec<Vec<Generative>>,
    natives: Vec<Option<NativeId>>,
    int_class: u32,
    string_class: u32,
    map_class: u32,
}

// Whether a constructor has the id.
fn is_called(names: &Names, one: &Generative, id: &[u8]) -> bool
    ensures { result ≡ bytes_eq (generative names.now one.now).id id.now }
{
    match one.id {
        None => id.is_empty(),
        Some(name) => {
            if name.0 >= names.count() {
                return id.is_empty();
            }
            names.text(name).as_bytes() == id
        }
    }
}

// The constructor with the id, if there is one.
fn constructor_called(names: &Names, all: &[Generative], id: &[u8]) -> Constructor
    ensures { constructor result ≡ constructor_called (map (generative names.now) all.now) id.now }
{
    for one in all {
        if is_called(names, one, id) {
            return Constructor::Generative(DeclId(one.number));
        }
    }
    Constructor::Missing
}

impl<'a> TableScopes<'a> {
    // The class that a row is, by its number among the declared ones.
    fn class_at(&self, row: ClassId) -> Option<u32>
        ensures { result ≡ found_at self.now.declared.items row.0 }
    {
        found_at(&self.declared, row.0 as usize)
    }

    fn row_at(&self, row: ClassId) -> Option<&ClassInfo>
        ensures { option_map (λ found. found.now) result ≡ slice_get self.now.classes.now.classes.items row.0 }
    {
        self.classes.classes.get(row.0 as usize)
    }

    fn constructor_written(&self, of: ClassId, id: &[u8]) -> Constructor
        ensures { constructor result ≡ constructor_written (meanings_made self.now.scopes.now) (found_at self.now.declared.items of.0) id.now }
    {
        match self.class_at(of) {
            None => Constructor::Missing,
            Some(class) => class_constructor(self.scopes, class, id),
        }
    }

    fn constructor_added(&self, of: ClassId, id: &[u8]) -> Constructor
        ensures { constructor result ≡ constructor_called (unwrap_or (slice_get (index_made self.now).constructors of.0) []) id.now }
    {
        match self.constructors.get(of.0 as usize) {
            None => Constructor::Missing,
            Some(all) => constructor_called(&self.scopes.kept, all, id),
        }
    }
}

impl<'a> Surroundings for TableScopes<'a> {
    ghost around = { around_made };

    /// The name of the text: every text that the table has is found.
    fn find(&self, name: &[u8]) -> Option<Name>
        ensures found { IfSome result (λ found. text (around_made self.now) found ≡ name.now) }
        ensures known { IsUtf8 name.now → (IsSome result ↔ Contains self.now.scopes.now.names name.now) }
    {
        match from_utf8(name) {
            Err(_) => None,
            Ok(text) => self.scopes.names.find(text),
        }
    }

    fn library(&self, outer: Outer) -> u32 {
        match outer.class {
            None => library_number(self.scopes, outer.library),
            Some(row) => match self.class_at(row) {
                None => 0,
                Some(class) => class_library(self.scopes, class),
            },
        }
    }

    fn meaning(&self, outer: Outer, name: &[u8]) -> Meaning {
        match outer.class {
            None => {
                let found = library_meaning(self.scopes, outer.library, name);
                renumbered(&self.rows, found)
            }
            Some(row) => match self.class_at(row) {
                None => Meaning::Unknown,
                Some(class) => renumbered(&self.rows, class_meaning(self.scopes, class, name)),
            },
        }
    }

    fn prefixed(&self, outer: Outer, prefix: &[u8], name: &[u8]) -> Meaning {
        match outer.class {
            None => {
                let found = library_prefixed(self.scopes, outer.library, prefix, name);
                renumbered(&self.rows, found)
            }
            Some(row) => match self.class_at(row) {
                None => Meaning::Unknown,
                Some(class) => {
                    let found = class_prefixed(self.scopes, class, prefix, name);
                    renumbered(&self.rows, found)
                }
            },
        }
    }

    fn member_of(&self, of: ClassId, name: &[u8]) -> Meaning {
        match self.class_at(of) {
            None => Meaning::Unknown,
            Some(class) => class_static(self.scopes, class, name),
        }
    }

    fn constructor(&self, of: ClassId, id: &[u8]) -> Constructor {
        match self.constructor_written(of, id) {
            Constructor::Missing => self.constructor_added(of, id),
            found => found,
        }
    }

    fn parameters(&self, of: ClassId) -> u32 {
        self.parameters.get(of.0 as usize).copied().unwrap_or(0)
    }

    fn is_bounded(&self, of: ClassId) -> bool {
        match self.row_at(of) {
            None => false,
            Some(info) => is_bounded(info),
        }
    }

    fn superclass(&self, of: ClassId) -> Option<ClassId> {
        match self.row_at(of) {
            None => None,
            Some(info) => superclass_of(info),
        }
    }

    fn mixin(&self, alloc: Global, of: ClassId) -> Result<Option<Mixin>, Want> {
        mixin_at(
            alloc,
            &self.classes.classes,
            &self.applications,
            of.0 as usize,
        )
    }

    fn first_field(&self, of: ClassId) -> u32 {
        match self.superclass(of) {
            None => 0,
            Some(above) => match self.row_at(above) {
                None => 0,
                Some(info) => info.fields,
            },
        }
    }

    fn variable_type(&self, _alloc: Global, _of: DeclId) -> Result<Option<TypeRef>, Want> {
        Ok(None)
    }

    #[tactic(auto, using(crate::proofs::Typed::row_views), unfolding(lower_leaf::specs::Around::ty))]
    fn alias_type(&self, _alloc: Global, _of: DeclId, _given: Types) -> Result<TypeRef, Want> {
        Ok(TypeRef::Dynamic)
    }

    fn native(&self, of: DeclId) -> Option<NativeId> {
        match self.natives.get(of.0 as usize) {
            Some(found) => *found,
            None => None,
        }
    }

    fn int_class(&self) -> ClassId {
        ClassId(self.int_class)
    }

    fn string_class(&self) -> ClassId {
        ClassId(self.string_class)
    }

    fn map_class(&self) -> ClassId {
        ClassId(self.map_class)
    }
}

/// What a program is translated in, whose names mean what these scopes say, and whose table of classes is this. `Want` where memory or
/// numbers run out.
pub fn table_scopes<'a>(
    alloc: Global,
    scopes: &'a ProgramScopes,
    classes: &'a Classes,
) -> Result<TableScopes<'a>, Want>
    ensures { IfOk result (λ made. (s : Scoping) → AreScopesOf s scopes.now → around_made made ≡ table_around s classes.now) }
{
    let from_rows = row_declarations(alloc, &classes.classes)?;
    let from_classes = class_declarations(alloc, &scopes.classes)?;
    let rows = places_of(alloc, &from_classes, &from_rows)?;
    let declared = places_of(alloc, &from_rows, &from_classes)?;
    let mixed = mixed(alloc, &scopes.classes)?;
    let applications = applications(alloc, &mixed, &declared)?;
    let added = added_to_rows(alloc, scopes, &applications, &declared, classes)?;
    Ok(TableScopes {
        scopes,
        classes,
        applications,
        parameters: parameter_counts(alloc, &classes.classes)?,
        constructors: added.constructors,
        natives: natives(alloc, &scopes.kept, &scopes.numbered)?,
        int_class: found_at(&rows, scopes.int_class as usize).unwrap_or(0),
        string_class: found_at(&rows, scopes.string_class as usize).unwrap_or(0),
        map_class: found_at(&rows, scopes.map_class as usize).unwrap_or(0),
        rows,
        declared,
    })
}
