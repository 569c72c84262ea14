// What rows of a table of classes are.
ghost use Rattle.std.specs.Prelude.{◌≡◌, IfOk, List, ℕ};
ghost use Rattle.std.specs.Option.{is_some};
ghost use Rattle.std.specs.List.{list_any};
ghost use Rattle.core_program.specs.ProgramView as pv;
ghost use Rattle.lower_leaf.specs.Around.{class};
ghost use Rattle.lower_table.specs.Rows.{added_row, added_rows, applications, class_of, found_at, is_application, mixin_number, parameter_counts, row_by, row_declarations, superclass_of};
ghost use Rattle.lower_table.specs.Seen.{mixin, row, rows, ty};

use crate::mixin::mixin_at;
use dart_ir::class::ClassInfo;
use dart_ir::number::ClassId;
use dart_ir::types::TypeRef;
use lower_added::added::Row;
use lower_leaf::fault::Want;
use lower_leaf::meaning::Mixin;
use std::alloc::Global;

/// The numbers of the declarations of rows; a mixin application without one has none.
pub fn row_declarations(alloc: Global, classes: &[ClassInfo]) -> Result<Vec<Option<u32>>, Want>
    ensures { IfOk result (λ made. (texts : List (List ℕ)) → made.items ≡ row_declarations (rows texts classes.now)) }
{
    let mut made = Vec::new(alloc);
    for info in classes {
        made.push(declaration_of(info))?;
    }
    Ok(made)
}

fn declaration_of(info: &ClassInfo) -> Option<u32>
    ensures { result ≡ pv.declaration_option info.now.decl }
{
    match info.decl {
        Some(declaration) => Some(declaration.0),
        None => None,
    }
}

// The class that a type is of.
#[tactic(auto, using(crate::proofs::Typed::row_views))]
fn class_of(of: &TypeRef) -> Option<ClassId>
    ensures { (texts : List (List ℕ)) → class result ≡ class_of (ty texts of.now) }
{
    match of {
        TypeRef::Class(class, _) => Some(*class),
        TypeRef::Dynamic
        | TypeRef::Bottom
        | TypeRef::Void
        | TypeRef::Param(_)
        | TypeRef::Function(_) => None,
    }
}

/// The number of the superclass in the table, mixin applications included.
pub fn superclass_of(info: &ClassInfo) -> Option<ClassId>
    ensures { (texts : List (List ℕ)) → class result ≡ superclass_of (row texts info.now) }
{
    match &info.superclass {
        Some(superclass) => class_of(superclass),
        None => None,
    }
}

// Whether any is there.
fn any_bound(bounds: &[Option<TypeRef>]) -> bool
    ensures { result ≡ list_any is_some bounds.now }
{
    bounds.iter().any(|bound| bound.is_some())
}

/// Whether any type parameter has a bound (14 Generics).
pub fn is_bounded(info: &ClassInfo) -> bool
    ensures { (texts : List (List ℕ)) → result ≡ list_any is_some (row texts info.now).bounds }
{
    any_bound(&info.bounds)
}

/// How many type parameters each row has. `Want` where memory or numbers run out.
pub fn parameter_counts(alloc: Global, classes: &[ClassInfo]) -> Result<Vec<u32>, Want>
    ensures { IfOk result (λ made. (texts : List (List ℕ)) → made.items ≡ parameter_counts (rows texts classes.now)) }
{
    let mut made = Vec::new(alloc);
    for info in classes {
        let Ok(count) = u32::try_from(info.bounds.len()) else {
            return Err(Want);
        };
        made.push(count)?;
    }
    Ok(made)
}

fn is_application(mixed: &[bool], class: Option<u32>) -> bool
    ensures { result ≡ is_application mixed.now class }
{
    match class {
        None => true,
        Some(number) => mixed.get(number as usize).copied().unwrap_or(false),
    }
}

/// Which rows are mixin applications, where these are the classes that they are, and these are written as mixin applications.
pub fn applications(
    alloc: Global,
    mixed: &[bool],
    classes: &[Option<u32>],
) -> Result<Vec<bool>, Want>
    ensures { IfOk result (λ made. made.items ≡ applications mixed.now classes.now) }
{
    let mut made = Vec::new(alloc);
    for class in classes {
        made.push(is_application(mixed, *class))?;
    }
    Ok(made)
}

/// What stands at a place, if anything does.
pub fn found_at(all: &[Option<u32>], place: usize) -> Option<u32>
    ensures { result ≡ found_at all.now place }
{
    match all.get(place) {
        Some(found) => *found,
        None => None,
    }
}

fn row_by(
    classes: &[Option<u32>],
    own: Option<u32>,
    mixin: Option<ClassId>,
    superclass: Option<ClassId>,
) -> Row
    ensures { result ≡ row_by classes.now own (class mixin) (class superclass) }
{
    let superclass = superclass.map(|found| found.0);
    match mixin {
        None => Row {
            writes: own,
            is_application: false,
            superclass,
        },
        Some(mixin) => Row {
            writes: found_at(classes, mixin.0 as usize),
            is_application: true,
            superclass,
        },
    }
}

fn mixin_class(of: &Option<Mixin>) -> Option<ClassId>
    ensures { (texts : List (List ℕ)) → class result ≡ mixin_number (mixin texts of.now) }
{
    match of {
        None => None,
        Some(found) => Some(found.class),
    }
}

fn added_row(
    alloc: Global,
    classes: &[ClassInfo],
    applications: &[bool],
    declared: &[Option<u32>],
    place: usize,
    info: &ClassInfo,
) -> Result<Row, Want>
    ensures { IfOk result (λ made. (texts : List (List ℕ)) → made
        ≡ added_row (rows texts classes.now) applications.now declared.now place (row texts info.now)) }
{
    let mixin = mixin_at(alloc, classes, applications, place)?;
    let own = found_at(declared, place);
    Ok(row_by(declared, own, mixin_class(&mixin), superclass_of(info)))
}

/// What counts of each row for what is added to it, where these rows are mixin applications, and these are the classes that they are.
/// `Want` where memory runs out.
pub fn added_rows(
    alloc: Global,
    classes: &[ClassInfo],
    applications: &[bool],
    declared: &[Option<u32>],
) -> Result<Vec<Row>, Want>
    ensures { IfOk result (λ made. (texts : List (List ℕ)) → made.items ≡ added_rows (rows texts classes.now) applications.now declared.now) }
{
    let mut made = Vec::new(alloc);
    let mut place: usize = 0;
    for info in classes {
        made.push(added_row(alloc, classes, applications, declared, place, info)?)?;
        place += 1;
    }
    Ok(made)
}
