// The aliases of a program (ECMA-408, 19.3.1 Typedef).
#![tactic(auto, using(crate::proofs::Pushed::pushes))]

ghost use Rattle.std.specs.Prelude.{◌≡◌, ◌++◌, map, IfOk, OnOk};
ghost use Rattle.dart_tree.specs.Unit as u;
ghost use Rattle.dart_tree.specs.UnitView as unit_view;
ghost use Rattle.lower_annotation.specs.Numbered as d;
ghost use Rattle.lower_annotation.specs.Seen.{alias, placed};
ghost use Rattle.lower_annotation.specs.Written.{items_of};

use crate::declaration::Placed;
use crate::number::Numbers;
use dart_tree::declaration::{Alias as AliasTree, DeclKind, TypeParameter, TypeParameters};
use lower_leaf::fault::Want;
use lower_leaf::name::place_of;
use std::alloc::Global;

/// An alias that has a number, in its library.
#[derive(Clone, Copy)]
pub struct Alias<'a> {
    pub number: u32,
    pub library: u32,
    pub written: &'a AliasTree,
}

/// The type parameters that are written there.
pub fn items_of(written: &Option<TypeParameters>) -> &[TypeParameter]
    ensures { map unit_view.type_parameter result.now ≡ items_of (unit_view.maybe unit_view.type_parameters written.now) }
{
    match written {
        None => &[],
        Some(written) => written.items.as_slice(),
    }
}

// An alias behind those before it, if it has a number.
fn add_alias<'a, N: Numbers>(
    numbers: &N,
    made: &mut Vec<Alias<'a>>,
    library: u32,
    written: &'a AliasTree,
) -> Result<(), Want>
    ensures { OnOk result (map alias made.new.items ≡ map alias made.old.items
        ++ d.declared_aliases (N.numbers numbers.now) library (u.alias_decl (unit_view.alias written.now))) }
{
    match numbers.number_at(place_of(&written.name)) {
        None => Ok(()),
        Some(number) => {
            made.push(Alias {
                number,
                library,
                written,
            })?;
            Ok(())
        }
    }
}

// The alias that a declaration is, behind those before it.
fn add_declared<'a, N: Numbers>(
    numbers: &N,
    made: &mut Vec<Alias<'a>>,
    one: Placed<'a>,
) -> Result<(), Want>
    ensures { OnOk result (map alias made.new.items ≡ map alias made.old.items
        ++ d.declared_aliases (N.numbers numbers.now) one.entry.library (unit_view.decl_kind one.entry.kind.now)) }
{
    match one.kind {
        DeclKind::Alias(written) => add_alias(numbers, made, one.library, written),
        DeclKind::Class(_) => Ok(()),
        DeclKind::Function(_) => Ok(()),
        DeclKind::Accessor(_) => Ok(()),
        DeclKind::Variables(_) => Ok(()),
        DeclKind::Enum(_) => Ok(()),
    }
}

/// The aliases among declarations, but for those without a number.
pub fn aliases_of<'a, N: Numbers>(
    alloc: Global,
    numbers: &N,
    all: &[Placed<'a>],
) -> Result<Vec<Alias<'a>>, Want>
    ensures { IfOk result (λ made. map alias made.items ≡ d.aliases_of (N.numbers numbers.now) (map placed all.now)) }
{
    let mut made = Vec::new(alloc);
    for one in all {
        add_declared(numbers, &mut made, *one)?;
    }
    Ok(made)
}
