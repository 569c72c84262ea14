// What a check looks at of a value: its class with type arguments, or the function that it is (ECMA-408, 19.1 Static Types).
ghost use Rattle.std.specs.Prelude.{◌≡◌, Some, IfOk};
ghost use Rattle.dart_ir.specs.Object.{head_ty};
ghost use Rattle.dart_store.specs.ObjectView.{viewed_object};
ghost use Rattle.evaluation.specs.Values.{head_of, method_head, object_head};
ghost use Rattle.machine_frame.specs.Outside.{setting_of};

use crate::types::arguments_of;
use dart_ir::number::DeclId;
use dart_ir::object::Head;
use dart_ir::types::try_clone_types;
use dart_ir::value::Value;
use dart_store::view::ObjectView;
use machine_frame::around::{Around, Fault};
use machine_frame::run::Run;
use machine_lookup::program::{class_of_function, member_function, member_owner};

/// What a check looks at of a value.
pub fn head_of(run: &Run, a: Around, value: Value) -> Result<Head, Fault>
    ensures { IfOk result (λ head. head_ty head ≡ head_of (setting_of a.entry) run.now.store value) }
{
    match value {
        Value::Null => Ok(Head::Null),
        Value::Bool(_) => Ok(Head::Of(a.setup.known.bool_class, Vec::new(run.alloc))),
        Value::Int { high: _, low: _ } => {
            Ok(Head::Of(a.setup.known.int_class, Vec::new(run.alloc)))
        }
        Value::Literal(_) => Ok(Head::Of(a.setup.known.string_class, Vec::new(run.alloc))),
        Value::Code(f) => Ok(Head::Function(f, Vec::new(run.alloc))),
        Value::At(r) => match run.store.get(r) {
            None => Ok(Head::Null),
            Some(object) => object_head(run, a, object),
        },
    }
}

/// The same of an object.
#[tactic(auto, using(crate::proofs::Supertypes::listed))]
fn object_head(run: &Run, a: Around, object: ObjectView) -> Result<Head, Fault>
    ensures { IfOk result (λ head. head_ty head ≡ object_head (setting_of a.entry) run.now.store (Some (viewed_object object.entry))) }
{
    match object {
        ObjectView::Closure {
            decl,
            receiver: _,
            args,
            cells: _,
        } => Ok(Head::Function(decl, try_clone_types(run.alloc, args)?)),
        ObjectView::Bound { receiver, member } => {
            let owner = member_owner(a.program.core(), member.0);
            let f = member_function(a.program.core(), member.0);
            method_head(run, a, receiver, owner, f)
        }
        ObjectView::Instance {
            class,
            args,
            fields: _,
        } => Ok(Head::Of(class, try_clone_types(run.alloc, args)?)),
        ObjectView::List {
            args,
            items: _,
            fixed: _,
        } => {
            let arguments = try_clone_types(run.alloc, args)?;
            Ok(Head::Of(a.setup.known.list_class, arguments))
        }
        ObjectView::Text(_) => Ok(Head::Of(a.setup.known.string_class, Vec::new(run.alloc))),
        ObjectView::TypeValue(_) => Ok(Head::Of(a.setup.known.type_class, Vec::new(run.alloc))),
        ObjectView::SendPort {
            isolate: _,
            port: _,
        } => Ok(Head::Of(a.setup.known.send_port_class, Vec::new(run.alloc))),
        ObjectView::ReceivePort { port: _ } => {
            Ok(Head::Of(a.setup.known.receive_port_class, Vec::new(run.alloc)))
        }
        ObjectView::Cell {
            value: _,
            counted: _,
        } => Ok(Head::Null),
    }
}

/// A method that is bound to its receiver: the function, with the type arguments that the receiver has for it.
fn method_head(run: &Run, a: Around, receiver: Value, owner: u32, f: u32) -> Result<Head, Fault>
    ensures { IfOk result (λ head. head_ty head ≡ method_head (setting_of a.entry) run.now.store receiver owner f) }
{
    match class_of_function(a.program.core(), f) {
        None => Ok(Head::Function(DeclId(f), Vec::new(run.alloc))),
        Some(class) => {
            let arguments = arguments_of(run, a, receiver, owner, class)?;
            Ok(Head::Function(DeclId(f), arguments))
        }
    }
}
