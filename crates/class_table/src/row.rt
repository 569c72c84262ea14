// One class of the table: a declared class, or the application of one of its mixins.
ghost use Rattle.std.specs.Prelude.{◌≡◌, ◌<◌, ◌+◌, ◌^◌, ◌&&◌, [], length, map, IfOk, slice_get};
ghost use Rattle.dart_ir.specs.Ty.{ty, tys};
ghost use Rattle.dart_ir.specs.Classes.{with_superclass};
ghost use Rattle.class_table.specs.Rows.{parameters_from, own_superclass, row_superclass, row_mixin, row_interfaces, is_own, row_decl, row_place, mixin_place, IsRow};

use crate::above::{Above, added_fields};
use crate::number::{number_of, sum};
use crate::renumber::{add_header_types, renumber, renumber_bounds};
use class_fault::graph::{applied, declares_call};
use class_fault::program::{Declaration, HeaderType, Program};
use dart_base::place::Place;
use dart_ir::class::ClassInfo;
use dart_ir::number::{ClassId, DeclId, MemberId};
use dart_ir::types::{TypeRef, Types};
use std::alloc::{AllocError, Global};

/// A row of the table that is to be made.
#[derive(Clone, Copy)]
pub struct Draft<'a> {
    pub program: &'a Program,
    /// For each declaration the number of its class in the table.
    pub numbers: &'a [u32],
    /// The class as the number of its declaration.
    pub class: usize,
    /// The mixin application, counted from 0, or behind them the class itself.
    pub step: usize,
    /// The number of the row.
    pub row: u32,
}

/// The class in a row of the table, after the classes of the rows before it (ECMA-408, Mixin Application).
pub fn class_of(
    alloc: Global,
    draft: &Draft,
    declaration: &Declaration,
    before: &[ClassInfo],
    members: Vec<MemberId>,
) -> Result<ClassInfo, AllocError>
    requires after { 0 < draft.now.step → 0 < draft.now.row }
    requires few { length declaration.now.bounds.items < 2 ^ 32 }
    ensures members { IfOk result (λ info. info.members.items ≡ members.items) }
    ensures row { IfOk result (λ info.
        IsRow draft.now.program.now draft.now.numbers.now before.now draft.now.class declaration.now draft.now.step draft.now.row info) }
{
    let own = is_own(declaration, draft.step);
    let bounds = renumber_bounds(alloc, draft.numbers, &declaration.bounds)?;
    let superclass = superclass_of(alloc, draft, declaration)?;
    let interfaces = interfaces_of(alloc, draft, declaration)?;
    let above = Above { classes: before };
    let calls = own && declares_call(draft.program.call, declaration);
    let callable = calls
        || above.is_superclass_callable(&superclass)
        || above.is_any_callable(&interfaces);
    let added = added_fields(before, draft.numbers, declaration, draft.step);
    let fields = sum(above.superclass_fields(&superclass), added)?;
    Ok(ClassInfo {
        name: declaration.name,
        library: declaration.library,
        place: row_place(declaration, draft.step),
        bounds,
        superclass,
        interfaces,
        is_abstract: if own { declaration.is_abstract } else { true },
        decl: row_decl(declaration, own),
        fields,
        members,
        callable,
    })
}

/// Whether a row is the class itself.
fn is_own(declaration: &Declaration, step: usize) -> bool
    ensures { result ≡ is_own declaration.now step }
{
    step == applied(declaration)
}

/// The declaration of a row: none of a mixin application that has none of its own.
fn row_decl(declaration: &Declaration, own: bool) -> Option<DeclId>
    ensures { result ≡ row_decl declaration.now own }
{
    if own { Some(declaration.decl) } else { None }
}

/// The place of a row: the declared name, or of a mixin application without a declaration its mixin's.
fn row_place(declaration: &Declaration, step: usize) -> Place
    ensures { result ≡ row_place declaration.now step }
{
    if is_own(declaration, step) {
        return declaration.place;
    }
    match declaration.mixins.get(step) {
        Some(t) => t.place,
        None => declaration.place,
    }
}

/// The superclass in a row: the declared one in the first row, and in another the row before.
fn superclass_of(
    alloc: Global,
    draft: &Draft,
    declaration: &Declaration,
) -> Result<Option<TypeRef>, AllocError>
    requires after { 0 < draft.now.step → 0 < draft.now.row }
    requires few { length declaration.now.bounds.items < 2 ^ 32 }
    ensures { IfOk result (λ o. map ty (with_superclass o [])
        ≡ row_superclass draft.now.program.now draft.now.numbers.now draft.now.class declaration.now draft.now.step draft.now.row) }
{
    if draft.step > 0 {
        let arguments = parameters(alloc, declaration.bounds.len() as u32)?;
        return Ok(Some(TypeRef::Class(ClassId(draft.row - 1), arguments)));
    }
    own_superclass(alloc, draft, &declaration.superclass)
}

/// The superclass that a header names; where it names none it is `Object`, but `Object` itself has none.
#[tactic(auto, using(dart_ir::proofs::View::views))]
fn own_superclass(
    alloc: Global,
    draft: &Draft,
    superclass: &Option<HeaderType>,
) -> Result<Option<TypeRef>, AllocError>
    ensures { IfOk result (λ o. map ty (with_superclass o [])
        ≡ own_superclass draft.now.program.now draft.now.numbers.now draft.now.class superclass.now) }
{
    match superclass {
        Some(t) => Ok(Some(renumber(alloc, draft.numbers, &t.of)?)),
        None => {
            if draft.class == draft.program.object {
                return Ok(None);
            }
            let object = number_of(draft.numbers, draft.program.object);
            Ok(Some(TypeRef::Class(ClassId(object), Vec::new(alloc))))
        }
    }
}

/// The interfaces in a row: the mixin that it applies, and those of the class in its own row.
fn interfaces_of(
    alloc: Global,
    draft: &Draft,
    declaration: &Declaration,
) -> Result<Types, AllocError>
    ensures { IfOk result (λ v. map ty v.items ≡ row_interfaces draft.now.numbers.now declaration.now draft.now.step) }
{
    let mut types = mixin_of(alloc, draft.numbers, declaration, draft.step)?;
    if !is_own(declaration, draft.step) {
        return Ok(types);
    }
    add_header_types(alloc, draft.numbers, &mut types, &declaration.interfaces)?;
    Ok(types)
}

/// The mixin that a row applies.
fn mixin_of(
    alloc: Global,
    numbers: &[u32],
    declaration: &Declaration,
    step: usize,
) -> Result<Types, AllocError>
    ensures { IfOk result (λ v. map ty v.items ≡ row_mixin numbers.now (slice_get declaration.now.mixins.items step)) }
{
    let mut types = Vec::new(alloc);
    match declaration.mixins.get(step) {
        Some(t) => {
            types.push(renumber(alloc, numbers, &t.of)?)?;
            Ok(types)
        }
        None => Ok(types),
    }
}

/// As many type parameters as arguments.
fn parameters(alloc: Global, count: u32) -> Result<Types, AllocError>
    ensures { IfOk result (λ v. tys v.items ≡ parameters_from 0 count) }
{
    let mut arguments = Vec::new(alloc);
    for i in 0..count {
        arguments.push(TypeRef::Param(i))?;
    }
    Ok(arguments)
}
