// Objects of a run's store.
#![tactic(auto)]

ghost use Rattle.std.specs.Prelude.{◌≡◌, ◌∷◌, [], Some, None, map, take, IfOk, slice_get};
ghost use Rattle.dart_ir.specs.declared.value.Value.TheVariants.{Null};
ghost use Rattle.dart_ir.specs.Object.{heap_object};
ghost use Rattle.dart_store.specs.Heap.{field_of, kind_of};
ghost use Rattle.evaluation.specs.State.{State, Outcome, Completion, answer, ends};
ghost use Rattle.evaluation.specs.Values.{object_at, class_of};
ghost use Rattle.evaluation.specs.Variables.{field_total};
ghost use Rattle.evaluation.specs.Invocation.{callable};
ghost use Rattle.evaluation.specs.Objects.{add, throw_new};
ghost use Rattle.machine_frame.specs.Outside.{known_of, error_class, setting_of};
ghost use Rattle.machine_frame.specs.Kinds.{kind_class};
ghost use Rattle.machine_frame.specs.Frames.{seen, with_cell, IsBeside, value_or_full, thrown_or_full};

use crate::around::{Around, ErrorClasses, Fault};
use crate::run::Run;
use dart_base::place::Place;
use dart_ir::kind::ThrowKind;
use dart_ir::number::{ClassId, Ref};
use dart_ir::object::Object;
use dart_ir::value::Value;
use dart_ir::values::Values;
use dart_store::store::{Kind, Store, StoreFault};

/// What a field of an object holds; null where there is none.
#[inline(always)]
pub fn field_of(store: &Store, object: Value, index: u32) -> Value
    ensures { result ≡ field_of (object_at store.now object) index }
{
    match object {
        Value::At(r) => store.field(r, index),
        _ => Value::Null,
    }
}

/// Writes what a cell holds; what is no object is no cell.
#[inline(always)]
pub fn write_cell(store: &mut Store, cell: Value, value: Value)
    ensures { store.new ≡ with_cell store.old cell value }
{
    match cell {
        Value::At(r) => store.set_field(r, 0, value),
        _ => {}
    }
}

/// Adds an object: `None` where the units don't suffice.
#[tactic(auto, using(crate::proofs::Added::adds, crate::proofs::Added::adds_not))]
pub fn put_object(run: &mut Run, object: Object) -> Result<Option<Value>, Fault>
    ensures added { IfOk result (λ made. add (heap_object object) (seen run.old) ≡ ends (value_or_full made) (seen run.new)) }
    ensures beside { IfOk result (λ made. IsBeside run.old run.new) }
{
    match run.store.add(object) {
        Ok(r) => Ok(Some(Value::At(r))),
        Err(StoreFault::Full) => Ok(None),
        Err(StoreFault::Memory) => Err(Fault::Memory),
    }
}

/// Makes an error of the class with the message, to be thrown: `None` where the units don't suffice.
#[tactic(auto, using(crate::proofs::Added::thrown_made))]
pub fn make_error(
    run: &mut Run,
    a: Around,
    at: Place,
    kind: ThrowKind,
    message: Value,
) -> Result<Option<Value>, Fault>
    ensures thrown { IfOk result (λ made. throw_new (known_of a.entry.setup.now.known) at kind message (seen run.old) ≡ ends (thrown_or_full made at) (seen run.new)) }
    ensures beside { IfOk result (λ made. IsBeside run.old run.new) }
{
    let mut fields = Values::new(run.alloc);
    fields.push(message)?;
    let class = error_class(&a.setup.known.errors, kind);
    put_object(
        run,
        Object::Instance {
            class,
            args: Vec::new(run.alloc),
            fields,
        },
    )
}

fn error_class(errors: &ErrorClasses, kind: ThrowKind) -> ClassId
    ensures { result.0 ≡ error_class errors.now kind }
{
    match kind {
        ThrowKind::Exception => errors.exception,
        ThrowKind::Error => errors.error,
        ThrowKind::ArgumentError => errors.argument_error,
        ThrowKind::RangeError => errors.range_error,
        ThrowKind::StateError => errors.state_error,
        ThrowKind::UnsupportedError => errors.unsupported_error,
        ThrowKind::NoSuchMethodError => errors.no_such_method_error,
        ThrowKind::CastError => errors.cast_error,
        ThrowKind::TypeError => errors.type_error,
        ThrowKind::NullThrownError => errors.null_thrown_error,
        ThrowKind::FallThroughError => errors.fall_through_error,
        ThrowKind::CyclicInitializationError => errors.cyclic_initialization_error,
        ThrowKind::AbstractClassInstantiationError => errors.abstract_class_instantiation_error,
        ThrowKind::MalformedTypeError => errors.malformed_type_error,
        ThrowKind::FormatException => errors.format_exception,
        ThrowKind::IntegerDivisionByZeroException => errors.integer_division_by_zero_exception,
    }
}

/// The class whose members a value has.
#[tactic(auto, using(crate::proofs::KindOf::class_of_kind))]
#[inline(always)]
pub fn class_of(run: &Run, a: Around, value: Value) -> u32
    ensures { class_of (setting_of a.entry) run.now.store value ≡ Some result }
{
    match value {
        Value::Null => a.setup.known.null_class.0,
        Value::Bool(_) => a.setup.known.bool_class.0,
        Value::Int { high: _, low: _ } => a.setup.known.int_class.0,
        Value::Literal(_) => a.setup.known.string_class.0,
        Value::Code(_) => a.program.core().classes.function.0,
        Value::At(r) => kind_class(a, run.store.kind(r)),
    }
}

fn kind_class(a: Around, kind: Kind) -> u32
    ensures { result ≡ kind_class (setting_of a.entry) kind }
{
    match kind {
        Kind::Instance(class) => class.0,
        Kind::List(_) => a.setup.known.list_class.0,
        Kind::Text => a.setup.known.string_class.0,
        Kind::Closure(_) => a.program.core().classes.function.0,
        Kind::Bound(_) => a.program.core().classes.function.0,
        Kind::TypeValue => a.setup.known.type_class.0,
        Kind::SendPort {
            isolate: _,
            port: _,
        } => a.setup.known.send_port_class.0,
        Kind::ReceivePort { port: _ } => a.setup.known.receive_port_class.0,
        Kind::Cell => a.setup.known.null_class.0,
        Kind::Absent => a.setup.known.null_class.0,
    }
}

/// How many fields, items or cells an object has.
#[tactic(auto, using(crate::proofs::KindOf::fields_of_kind))]
pub fn field_total(store: &Store, r: Ref) -> usize
    ensures { result ≡ field_total (slice_get store.now.objects r.0) }
{
    match store.kind(r) {
        Kind::Text => 0,
        _ => store.length(r),
    }
}
