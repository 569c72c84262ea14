// What a declaration is in a machine's tables, one that is no function or no variable too.
ghost use Rattle.std.specs.Prelude.{◌≡◌, []};
ghost use Rattle.dart_ir.specs.Ty.{function_ty};
ghost use Rattle.translation.specs.Program as p;
ghost use Rattle.lower_leaf.specs.Around.{Around, text};
ghost use Rattle.lower_leaf.specs.Seen as seen;
ghost use Rattle.lower_program.specs.Views.{function_slot, static_slot};
ghost use Rattle.lower_core.specs.Runnable as runnable;

use core_program::form::Part;
use core_program::program::{Function, FunctionKind, StaticVar};
use dart_base::name::Name;
use dart_ir::types::{FunctionType, TypeRef};
use std::alloc::Global;

// The type of a function without parameters that answers anything.
#[tactic(auto, using(dart_ir::proofs::View::views))]
fn no_parameters(alloc: Global) -> FunctionType
    ensures { function_ty result ≡ runnable.no_parameters }
{
    FunctionType {
        result: TypeRef::Dynamic,
        required: Vec::new(alloc),
        optional: Vec::new(alloc),
        named: Vec::new(alloc),
    }
}

// What is no function.
#[tactic(auto, using(crate::proofs::Slots::slots))]
fn no_function(alloc: Global, nameless: Name) -> Function
    ensures { (a : Around) → text a nameless ≡ [] → seen.function a result ≡ runnable.function p.no_function }
{
    Function {
        name: nameless,
        kind: FunctionKind::Absent,
        class: None,
        parameters: Vec::new(alloc),
        vars: 0,
        cells: Vec::new(alloc),
        captures: Vec::new(alloc),
        signature: no_parameters(alloc),
        body: Part::Missing,
    }
}

// What is no variable.
#[tactic(auto, using(crate::proofs::Slots::slots))]
fn no_static(alloc: Global, nameless: Name) -> StaticVar
    ensures { (a : Around) → text a nameless ≡ [] → seen.static a result ≡ p.no_static }
{
    StaticVar {
        name: nameless,
        vars: 0,
        cells: Vec::new(alloc),
        init: Part::Missing,
        is_final: false,
    }
}

// A function as a machine takes it.
#[tactic(auto, using(crate::proofs::Slots::slots))]
fn runnable_function(alloc: Global, function: Function) -> Function
    ensures { (a : Around) → seen.function a result ≡ runnable.function (seen.function a function) }
{
    match function.kind {
        FunctionKind::Absent => Function {
            signature: no_parameters(alloc),
            ..function
        },
        FunctionKind::Plain => function,
        FunctionKind::Inner => function,
        FunctionKind::Generative => function,
        FunctionKind::Factory => function,
    }
}

/// The function of a declaration; where it is none, an absent one. The name is that of the empty text.
pub fn function_of(alloc: Global, nameless: Name, slot: Option<Function>) -> Function
    ensures { (a : Around) → text a nameless ≡ [] → seen.function a result ≡ runnable.function (function_slot a slot) }
{
    match slot {
        None => no_function(alloc, nameless),
        Some(function) => runnable_function(alloc, function),
    }
}

/// The variable of a declaration; where it is none, one without an initialiser. The name is that of the empty text.
pub fn static_of(alloc: Global, nameless: Name, slot: Option<StaticVar>) -> StaticVar
    ensures { (a : Around) → text a nameless ≡ [] → seen.static a result ≡ static_slot a slot }
{
    match slot {
        None => no_static(alloc, nameless),
        Some(variable) => variable,
    }
}
