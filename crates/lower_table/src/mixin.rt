// The mixins of rows that are mixin applications (ECMA-408, 12 Mixins).
ghost use Rattle.std.specs.Prelude.{◌≡◌, IfOk, List, ℕ, length};
ghost use Rattle.std.specs.Option.{option_map};
ghost use Rattle.lower_annotation.specs.Instance.{instance};
ghost use Rattle.lower_table.specs.Rows.{declared_mixin, first_interface, mixin_as, mixin_at, named_mixin, next_mixin};
ghost use Rattle.lower_table.specs.Seen.{mixin, option_ty, row, rows, ty, tys};

use dart_ir::class::ClassInfo;
use dart_ir::number::ClassId;
use dart_ir::types::{TypeRef, try_clone_types};
use dart_type::instance::instantiate;
use lower_leaf::fault::Want;
use lower_leaf::meaning::Mixin;
use std::alloc::Global;

// A type with type arguments in the places of its parameters. `Want` where it gets too large, too, which no type of a table does.
fn instance(alloc: Global, of: &TypeRef, given: &[TypeRef]) -> Result<TypeRef, Want>
    ensures { IfOk result (λ made. (texts : List (List ℕ)) → ty texts made ≡ instance (tys texts given.now) (ty texts of.now)) }
{
    match instantiate(alloc, of, given) {
        Ok(made) => Ok(made),
        Err(_) => Err(Want),
    }
}

fn first_interface(info: &ClassInfo) -> Option<&TypeRef>
    ensures { (texts : List (List ℕ)) → option_ty texts result ≡ first_interface (Some (row texts info.now)) }
{
    info.interfaces.first()
}

// The mixin that a row names, which is a mixin application.
fn named_mixin<'a>(
    classes: &'a [ClassInfo],
    applications: &[bool],
    place: usize,
) -> Option<&'a TypeRef>
    ensures { (texts : List (List ℕ)) → option_ty texts result ≡ named_mixin (rows texts classes.now) applications.now place }
{
    if !applications.get(place).copied().unwrap_or(false) {
        return None;
    }
    match classes.get(place) {
        None => None,
        Some(info) => first_interface(info),
    }
}

// The mixin that a class names, with type arguments put in.
fn mixin_with(
    alloc: Global,
    classes: &[ClassInfo],
    applications: &[bool],
    class: ClassId,
    given: &[TypeRef],
) -> Result<Option<TypeRef>, Want>
    ensures { IfOk result (λ made. (texts : List (List ℕ)) → option_map (ty texts) made
        ≡ option_map (instance (tys texts given.now)) (named_mixin (rows texts classes.now) applications.now class.0)) }
{
    match named_mixin(classes, applications, class.0 as usize) {
        None => Ok(None),
        Some(mixin) => Ok(Some(instance(alloc, mixin, given)?)),
    }
}

// The mixin that the class of a type names, with the arguments of the type put in.
#[tactic(auto, using(crate::proofs::Typed::row_views))]
fn next_mixin(
    alloc: Global,
    classes: &[ClassInfo],
    applications: &[bool],
    of: &TypeRef,
) -> Result<Option<TypeRef>, Want>
    ensures { IfOk result (λ made. (texts : List (List ℕ)) → option_map (ty texts) made
        ≡ next_mixin (rows texts classes.now) applications.now (ty texts of.now)) }
{
    match of {
        TypeRef::Class(class, given) => mixin_with(alloc, classes, applications, *class, given),
        TypeRef::Dynamic
        | TypeRef::Bottom
        | TypeRef::Void
        | TypeRef::Param(_)
        | TypeRef::Function(_) => Ok(None),
    }
}

// The mixin that a class adds, where this is what it names.
fn declared_mixin(
    alloc: Global,
    classes: &[ClassInfo],
    applications: &[bool],
    of: &TypeRef,
) -> Result<TypeRef, Want>
    ensures { IfOk result (λ made. (texts : List (List ℕ)) → ty texts made
        ≡ declared_mixin (rows texts classes.now) applications.now (length classes.now) (ty texts of.now)) }
{
    let mut mixin = of.try_clone(alloc)?;
    for _step in 0..classes.len() {
        let found = next_mixin(alloc, classes, applications, &mixin)?;
        match found {
            None => return Ok(mixin),
            Some(next) => mixin = next,
        }
    }
    Ok(mixin)
}

// The class that a type is of, with its arguments.
#[tactic(auto, using(crate::proofs::Typed::row_views))]
fn mixin_as(alloc: Global, of: &TypeRef) -> Result<Option<Mixin>, Want>
    ensures { IfOk result (λ made. (texts : List (List ℕ)) → mixin texts made ≡ mixin_as (ty texts of.now)) }
{
    match of {
        TypeRef::Class(class, arguments) => Ok(Some(Mixin {
            class: *class,
            arguments: try_clone_types(alloc, arguments)?,
        })),
        TypeRef::Dynamic
        | TypeRef::Bottom
        | TypeRef::Void
        | TypeRef::Param(_)
        | TypeRef::Function(_) => Ok(None),
    }
}

/// The mixin of a row, if it is a mixin application: the class whose declaration says what it adds to its superclass, with the type
/// arguments that it has there (ECMA-408, 12 Mixins, 12.1 Mixin Application). `Want` where memory runs out.
pub fn mixin_at(
    alloc: Global,
    classes: &[ClassInfo],
    applications: &[bool],
    place: usize,
) -> Result<Option<Mixin>, Want>
    ensures { IfOk result (λ made. (texts : List (List ℕ)) → mixin texts made ≡ mixin_at (rows texts classes.now) applications.now place) }
{
    match named_mixin(classes, applications, place) {
        None => Ok(None),
        Some(named) => {
            let declared = declared_mixin(alloc, classes, applications, named)?;
            mixin_as(alloc, &declared)
        }
    }
}
