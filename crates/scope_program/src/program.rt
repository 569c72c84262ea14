// What the names of a loaded program mean.
ghost use Rattle.std.specs.Prelude.{◌≡◌, ◌<◌, ◌^◌, ◌↔◌, All, List, IfOk, IsTrue, codes, find, length, map, position, slice_index_or};
ghost use Rattle.std.specs.Option.{option_map};
ghost use Rattle.dart_tree.specs.UnitView as view;
ghost use Rattle.scope_declared.specs.Number.{number_in};
ghost use Rattle.scope_space.specs.Entry.{can_start};
ghost use Rattle.scope_space.specs.Namespace.{own};
ghost use Rattle.scope_dictionary.specs.Names.{AreAllNames};
ghost use Rattle.scope_dictionary.specs.declared.library.LibraryNames.{LibraryNames};
ghost use Rattle.scope_load.specs.State.{state_of};
ghost use Rattle.scope_program.specs.Program.{IsScoping, Scoping};
ghost use Rattle.scope_program.specs.Made.{AreScopesOf, is_called, made_called, scoping_of};
ghost use Rattle.scope_program.specs.declared.class.ClassScope.{ClassScope};
ghost use Rattle.scope_program.specs.Places.{at_place};

use crate::class::{ClassScope, Declarations, class_scopes};
use crate::place::{Places, places_of};
use dart_base::name::Name;
use dart_base::names::Names;
use dart_base::place::Place;
use dart_scope::making::{numbered_in, spaces_of};
use dart_tree::unit::Unit;
use lower_leaf::fault::Want;
use scope_declared::declaration::Declared;
use scope_declared::number::number_of;
use scope_dictionary::library::{LibraryNames, all_names};
use scope_library::library::{CORE_UNIT, homes};
use scope_load::loaded::Loaded;
use scope_name::table::{kept_names, with_names};
use scope_outer::meaning::Scopes;
use scope_outer::sense::{Numbered, class_numbers};
use scope_space::entry::main_of;
use scope_space::spaces::Spaces;
use std::alloc::{AllocError, Global};

/// What the names of a loaded program mean, with classes numbered as they are declared (ECMA-408, 16.33 Identifier Reference).
#[derive(Drop)]
pub struct ProgramScopes {
    /// The names that the units have without their annotations: all that can be declared and meant.
    pub kept: Names,
    /// The table of names: these, and behind them what only annotations spell.
    pub names: Names,
    /// The number of the library of each unit.
    pub homes: Vec<u32>,
    /// The declarations that have numbers, by number.
    pub numbered: Vec<Declared>,
    /// The numbers of these by places.
    pub places: Places,
    /// What names mean in each library.
    pub libraries: Vec<LibraryNames>,
    /// The scope of each class.
    pub classes: Vec<ClassScope>,
    /// The number of the library `dart:core`.
    pub core: u32,
    /// The number of the function by which the program starts (18.4 Scripts).
    pub main: Option<u32>,
    /// The number of the class `int` of `dart:core`; where there is none, past the last.
    pub int_class: u32,
    /// The same of `String`.
    pub string_class: u32,
    /// The same of `Map`.
    pub map_class: u32,
}

impl ProgramScopes {
    /// The number of the first declaration whose name stands there, if there is one. Takes no memory.
    pub fn number_at(&self, place: Place) -> Option<u32>
        ensures { result ≡ at_place self.now.places place }
    {
        self.places.number_at(place)
    }
}

// What names mean in each library.
fn library_names<'a>(
    alloc: Global,
    names: &Names,
    numbered: &'a [Declared],
    spaces: &'a Spaces,
) -> Result<Vec<LibraryNames>, Want>
    requires { length numbered.now < 2 ^ 32 }
    ensures { IfOk result (λ made. AreAllNames names.now (record { libraries = spaces.now; numbered = numbered.now }) made.items) }
{
    if spaces.libraries().len() > u32::MAX as usize {
        return Err(Want);
    }
    let classes = class_numbers(alloc, numbered)?;
    let scopes = Scopes {
        spaces,
        numbered: Numbered {
            declarations: numbered,
            classes: &classes,
        },
    };
    all_names(alloc, names, scopes)
}

// The function by which the program starts, in its root library.
fn main_in(alloc: Global, names: &Names, spaces: &Spaces) -> Result<Option<u32>, AllocError>
    ensures { IfOk result (λ main. main ≡ option_map (λ d. d.number) (find (λ d. can_start d.kind) (own spaces.now 0 (number_in names.now (codes "main"))))) }
{
    let main = number_of(alloc, names, 0, b"main")?;
    match spaces.libraries() {
        [root, ..] => Ok(main_of(root, main)),
        [] => Ok(None),
    }
}

// The library of the unit `dart:core`.
fn core_library(homes: &[u32]) -> u32
    ensures { result ≡ slice_index_or homes.now CORE_UNIT 0 }
{
    match homes.get(CORE_UNIT as usize) {
        Some(library) => *library,
        None => 0,
    }
}

// Whether each class stands in one of so many libraries.
fn are_housed(classes: &[ClassScope], count: usize) -> bool
    ensures { IsTrue result ↔ All (λ (c : ClassScope). c.library < count) classes.now }
{
    classes.iter().all(|one| (one.library as usize) < count)
}

fn is_called(class: &ClassScope, library: u32, name: &[u8]) -> bool
    ensures { result ≡ is_called library name.now class.now }
{
    class.library == library && class.name.as_slice() == name
}

fn position_called(classes: &[ClassScope], library: u32, name: &[u8]) -> Option<usize>
    ensures { result ≡ position (is_called library name.now) classes.now }
{
    classes
        .iter()
        .position(|class| is_called(class, library, name))
}

// The first class of the name in the library; where there is none, past the last.
fn class_called(classes: &[ClassScope], library: u32, name: &[u8]) -> Result<u32, Want>
    ensures { IfOk result (λ found. found ≡ made_called classes.now library name.now) }
{
    let found = match position_called(classes, library, name) {
        Some(found) => found,
        None => classes.len(),
    };
    match u32::try_from(found) {
        Ok(number) => Ok(number),
        Err(_) => Err(Want),
    }
}

// What names mean in a program, from its names without and with annotations, the libraries of its units, the declarations that have numbers, and the namespaces of
// its libraries.
fn scopes_in(
    alloc: Global,
    kept: Names,
    names: Names,
    homes: Vec<u32>,
    numbered: Vec<Declared>,
    spaces: &Spaces,
    units: &[Unit],
) -> Result<ProgramScopes, Want>
    requires { length numbered.items < 2 ^ 32 }
    ensures { IfOk result (λ made. (libraries : List LibraryNames) × AreAllNames kept (record { libraries = spaces.now; numbered = numbered.items }) libraries
        × AreScopesOf (scoping_of kept names homes.items numbered.items spaces.now libraries (map view.unit units.now)) made) }
{
    let declared = numbered.as_slice();
    let unit_homes = homes.as_slice();
    let libraries = library_names(alloc, &kept, declared, spaces)?;
    let places = places_of(alloc, declared)?;
    let declarations = Declarations {
        names: &kept,
        numbered: declared,
        places: &places,
    };
    let classes = class_scopes(alloc, declarations, unit_homes, units)?;
    let all = classes.as_slice();
    let known = libraries.as_slice();
    if !are_housed(all, known.len()) {
        return Err(Want);
    }
    let core = core_library(unit_homes);
    let main = main_in(alloc, &kept, spaces)?;
    let int_class = class_called(all, core, b"int")?;
    let string_class = class_called(all, core, b"String")?;
    let map_class = class_called(all, core, b"Map")?;
    Ok(ProgramScopes {
        kept,
        names,
        homes,
        numbered,
        places,
        libraries,
        classes,
        core,
        main,
        int_class,
        string_class,
        map_class,
    })
}

/// What the names of a loaded program mean (ECMA-408, 16.33 Identifier Reference). `Want` where memory or a number runs out, or the table
/// of names lacks the name of a declaration.
pub fn program_scopes(alloc: Global, loaded: &Loaded) -> Result<ProgramScopes, Want>
    ensures { IfOk result (λ made. (s : Scoping) × IsScoping (state_of loaded.now) s × AreScopesOf s made) }
{
    if loaded.units.len() > u32::MAX as usize {
        return Err(Want);
    }
    let units = loaded.units.as_slice();
    let homes = homes(alloc, loaded)?;
    let kept = kept_names(alloc, &homes, units)?;
    let numbered = numbered_in(alloc, &kept, &homes, units)?;
    if numbered.len() > u32::MAX as usize {
        return Err(Want);
    }
    let spaces = spaces_of(alloc, &kept, &numbered, loaded)?;
    let names = with_names(alloc, &kept, &homes, units)?;
    scopes_in(alloc, kept, names, homes, numbered, &spaces, units)
}
