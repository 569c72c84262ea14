// What units declare for their libraries.
ghost use Rattle.std.specs.Prelude.{◌≡◌, ◌++◌, flat_map, map, IfOk, OnOk};
ghost use Rattle.dart_tree.specs.UnitView as uv;
ghost use Rattle.dart_tree.specs.View as view;
ghost use Rattle.dart_tree.specs.Lists.{more_variables_of, parameter_list_of};
ghost use Rattle.scope_entry.specs.Kinds.{accessor_kind, decl_kinds, function_kind, more_kinds, parameter_count};
ghost use Rattle.scope_entry.specs.Kinds.{required, unit_kinds, variable_kinds};

use dart_tree::declaration::{AccessorKind, DeclKind};
use dart_tree::parameter::{Parameter, Parameters};
use dart_tree::statement::{Function, Variable, Variables};
use dart_tree::unit::Unit;
use scope_space::declaration::Kind;
use std::alloc::{AllocError, Global};

fn parameter_count(all: &Vec<Parameter>) -> usize
    ensures { result ≡ parameter_count (parameter_list_of all.now.items) }
{
    all.len()
}

// How many required positional parameters there are (ECMA-408, 9.2.1 Required Formals), as far as a declaration tells.
fn required(tree: &Parameters) -> u32
    ensures { result ≡ required (view.parameters tree.now) }
{
    parameter_count(&tree.required).min(u32::MAX as usize) as u32
}

fn function_kind(tree: &Function) -> Kind
    ensures { result ≡ function_kind (view.function tree.now) }
{
    Kind::Function {
        required: required(&tree.parameters),
    }
}

fn accessor_kind(tree: &AccessorKind) -> Kind
    ensures { result ≡ accessor_kind (uv.accessor_kind tree.now) }
{
    match tree {
        AccessorKind::Get(_, _) => Kind::Getter,
        AccessorKind::Set { .. } => Kind::Setter,
    }
}

fn add_more(kinds: &mut Vec<Kind>, all: &Vec<Variable>) -> Result<(), AllocError>
    ensures { OnOk result (kinds.new.items ≡ kinds.old.items ++ more_kinds (more_variables_of all.now.items)) }
{
    for _one in all {
        kinds.push(Kind::Variable)?;
    }
    Ok(())
}

// Adds a kind for each variable.
fn add_variables(kinds: &mut Vec<Kind>, tree: &Variables) -> Result<(), AllocError>
    ensures { OnOk result (kinds.new.items ≡ kinds.old.items ++ variable_kinds (view.variables tree.now)) }
{
    kinds.push(Kind::Variable)?;
    add_more(kinds, &tree.more)
}

// Adds the kind of each name that a declaration declares.
fn add_decl(kinds: &mut Vec<Kind>, tree: &DeclKind) -> Result<(), AllocError>
    ensures { OnOk result (kinds.new.items ≡ kinds.old.items ++ decl_kinds (uv.decl_kind tree.now)) }
{
    let kind = match tree {
        DeclKind::Class(_) => Kind::Class,
        DeclKind::Alias(_) => Kind::Alias,
        DeclKind::Function(tree) => function_kind(tree),
        DeclKind::Accessor(tree) => accessor_kind(&tree.kind),
        DeclKind::Variables(tree) => return add_variables(kinds, tree),
        DeclKind::Enum(_) => Kind::Class,
    };
    kinds.push(kind)?;
    Ok(())
}

// Adds the kind of each name that a unit declares for its library.
fn add_unit(kinds: &mut Vec<Kind>, unit: &Unit) -> Result<(), AllocError>
    ensures { OnOk result (kinds.new.items ≡ kinds.old.items ++ unit_kinds (uv.unit unit.now)) }
{
    for declaration in &unit.declarations {
        add_decl(kinds, &declaration.kind)?;
    }
    Ok(())
}

/// The kind of each name that the units declare for their libraries, in the order of units and tokens (ECMA-408, 18 Libraries
/// and Scripts).
pub fn kinds_of(alloc: Global, units: &[Unit]) -> Result<Vec<Kind>, AllocError>
    ensures { IfOk result (λ kinds. kinds.items ≡ flat_map unit_kinds (map uv.unit units.now)) }
{
    let mut kinds = Vec::new(alloc);
    for unit in units {
        add_unit(&mut kinds, unit)?;
    }
    Ok(kinds)
}
