// Type arguments in scope, and types over them (ECMA-408, 14 Generics).
ghost use Rattle.std.specs.Prelude.{◌≡◌, ◌++◌, Some, None, true, false, map, length, IfOk, MatchOption};
ghost use Rattle.dart_ir.specs.Ty.{ty, of_list, nil, class as class_of};
ghost use Rattle.dart_store.specs.ObjectView.{viewed_object};
ghost use Rattle.dart_type.specs.Instance.{instance};
ghost use Rattle.core_program.specs.ProgramView as p;
ghost use Rattle.evaluation.specs.State.{now};
ghost use Rattle.evaluation.specs.Classes.{class_number, class_at, supertype, up_to, mixed_in, arguments_in, arguments_at, interfaces, first_type, put_in};
ghost use Rattle.evaluation.specs.Types.{is_small, are_small};
ghost use Rattle.evaluation.specs.Values.{value_type, object_type, receiver_arguments, closure_arguments, object_at, arguments_of_kind, arguments_here};
ghost use Rattle.machine_frame.specs.Outside.{setting_of};
ghost use Rattle.machine_frame.specs.Frames.{seen, source_of};

use core_program::program::{CoreProgram, FunctionKind};
use dart_ir::number::ClassId;
use dart_ir::types::{TypeRef, Types, try_clone_types};
use dart_ir::value::Value;
use dart_store::view::ObjectView;
use dart_type::instance::{TypeFault, instantiate};
use machine_frame::around::{Around, Fault};
use machine_frame::run::{Run, Source};
use machine_frame::stacks::own_types;
use machine_lookup::program::{class_at, class_of_function, function_at};
use std::alloc::Global;

/// The type arguments in scope.
pub fn arguments_here(run: &Run, a: Around) -> Result<Types, Fault>
    ensures { IfOk result (λ found. map ty found.items ≡ arguments_here (setting_of a.entry) (now (seen run.now))) }
{
    let Source::Function(f) = run.body.source else {
        return Ok(Vec::new(run.alloc));
    };
    let Some(function) = function_at(a.program.core(), f) else {
        return Ok(Vec::new(run.alloc));
    };
    let Some(class) = class_of_function(a.program.core(), f) else {
        return Ok(Vec::new(run.alloc));
    };
    match function.kind {
        FunctionKind::Inner => closure_arguments(run),
        FunctionKind::Factory => factory_arguments(run),
        FunctionKind::Plain => receiver_arguments(run, a, class),
        FunctionKind::Generative => receiver_arguments(run, a, class),
        FunctionKind::Absent => receiver_arguments(run, a, class),
    }
}

/// The type arguments of the `new` that the factory at work answers.
fn factory_arguments(run: &Run) -> Result<Types, Fault>
    ensures { IfOk result (λ found. map ty found.items ≡ (seen run.now).activation.types) }
{
    let types = own_types(run.body.has_types, run.types.as_slice());
    Ok(try_clone_types(run.alloc, types)?)
}

/// The type arguments of the closure whose body is at work.
fn closure_arguments(run: &Run) -> Result<Types, Fault>
    ensures { IfOk result (λ found. map ty found.items ≡ closure_arguments (object_at run.now.store run.now.body.closure)) }
{
    let Value::At(r) = run.body.closure else {
        return Ok(Vec::new(run.alloc));
    };
    match run.store.get(r) {
        Some(
            ObjectView::Closure {
                decl: _,
                receiver: _,
                args,
                cells: _,
            },
        ) => Ok(try_clone_types(run.alloc, args)?),
        _ => Ok(Vec::new(run.alloc)),
    }
}

/// The type arguments that `this` has at a class whose members it has by its owner.
fn receiver_arguments(run: &Run, a: Around, class: u32) -> Result<Types, Fault>
    ensures { IfOk result (λ found. map ty found.items ≡ receiver_arguments (setting_of a.entry) run.now.store run.now.body.this run.now.body.owner (Some class)) }
{
    arguments_of(run, a, run.body.this, run.body.owner, class)
}

/// The type arguments that a value has at a class whose members it has by an owner.
pub fn arguments_of(
    run: &Run,
    a: Around,
    value: Value,
    owner: u32,
    class: u32,
) -> Result<Types, Fault>
    ensures { IfOk result (λ found. map ty found.items ≡ receiver_arguments (setting_of a.entry) run.now.store value owner (Some class)) }
{
    let of = value_type(run, a, value)?;
    let count = a.program.core().classes.classes.len();
    let above = up_to(run.alloc, a.program.core(), count, owner, of)?;
    let found = mixed_in(run.alloc, a.program.core(), count, class, above)?;
    arguments_in(run.alloc, &found)
}

/// The type arguments of a type.
#[tactic(auto, using(crate::proofs::Supertypes::arguments_some, crate::proofs::Supertypes::arguments_none))]
fn arguments_in(alloc: Global, of: &Option<TypeRef>) -> Result<Types, Fault>
    ensures { IfOk result (λ found. map ty found.items ≡ arguments_in (p.ty_option of.now)) }
{
    match class_in(of) {
        None => Ok(Vec::new(alloc)),
        Some((_, arguments)) => Ok(try_clone_types(alloc, arguments)?),
    }
}

/// The type of a value that isn't null.
pub fn value_type(run: &Run, a: Around, value: Value) -> Result<Option<TypeRef>, Fault>
    ensures { IfOk result (λ found. p.ty_option found ≡ value_type (setting_of a.entry) run.now.store value) }
{
    match value {
        Value::Null => Ok(None),
        Value::Bool(_) => Ok(Some(plain(run.alloc, a.setup.known.bool_class))),
        Value::Int { high: _, low: _ } => Ok(Some(plain(run.alloc, a.setup.known.int_class))),
        Value::Literal(_) => Ok(Some(plain(run.alloc, a.setup.known.string_class))),
        Value::Code(_) => Ok(Some(plain(run.alloc, a.program.core().classes.function))),
        Value::At(r) => match run.store.get(r) {
            None => Ok(None),
            Some(object) => object_type(run.alloc, a, object),
        },
    }
}

/// The type of an object; none of a cell.
fn object_type(alloc: Global, a: Around, object: ObjectView) -> Result<Option<TypeRef>, Fault>
    ensures { IfOk result (λ found. p.ty_option found ≡ object_type (setting_of a.entry) (Some (viewed_object object.entry))) }
{
    match object {
        ObjectView::Instance {
            class,
            args,
            fields: _,
        } => of_class(alloc, class, args),
        ObjectView::List {
            args,
            items: _,
            fixed: _,
        } => of_class(alloc, a.setup.known.list_class, args),
        ObjectView::Text(_) => Ok(Some(plain(alloc, a.setup.known.string_class))),
        ObjectView::Closure {
            decl: _,
            receiver: _,
            args: _,
            cells: _,
        } => Ok(Some(plain(alloc, a.program.core().classes.function))),
        ObjectView::Bound {
            receiver: _,
            member: _,
        } => Ok(Some(plain(alloc, a.program.core().classes.function))),
        ObjectView::TypeValue(_) => Ok(Some(plain(alloc, a.setup.known.type_class))),
        ObjectView::SendPort {
            isolate: _,
            port: _,
        } => Ok(Some(plain(alloc, a.setup.known.send_port_class))),
        ObjectView::ReceivePort { port: _ } => Ok(Some(plain(
            alloc,
            a.setup.known.receive_port_class,
        ))),
        ObjectView::Cell {
            value: _,
            counted: _,
        } => Ok(None),
    }
}

/// A class with a copy of type arguments.
#[tactic(auto, using(dart_ir::proofs::View::views))]
fn of_class(alloc: Global, class: ClassId, arguments: &[TypeRef]) -> Result<Option<TypeRef>, Fault>
    ensures { IfOk result (λ found. p.ty_option found ≡ Some (class_of class.0 (of_list (map ty arguments.now)))) }
{
    let copies = try_clone_types(alloc, arguments)?;
    Ok(Some(TypeRef::Class(class, copies)))
}

/// A class without type arguments.
#[tactic(auto, using(dart_ir::proofs::View::views))]
fn plain(alloc: Global, class: ClassId) -> TypeRef
    ensures { ty result ≡ class_of class.0 nil }
{
    TypeRef::Class(class, Vec::new(alloc))
}

/// The class of a type, with its type arguments.
#[tactic(auto, using(dart_ir::proofs::View::views))]
fn class_in<'b>(of: &'b Option<TypeRef>) -> Option<(ClassId, &'b Types)>
    ensures { MatchOption result (class_number (p.ty_option of.now) ≡ None)
        (λ x. p.ty_option of.now ≡ Some (class_of x.0.0 (of_list (map ty x.1.now.items)))) }
{
    match of {
        Some(TypeRef::Class(class, arguments)) => Some((*class, arguments)),
        Some(TypeRef::Dynamic) => None,
        Some(TypeRef::Bottom) => None,
        Some(TypeRef::Void) => None,
        Some(TypeRef::Param(_)) => None,
        Some(TypeRef::Function(_)) => None,
        None => None,
    }
}

/// The supertype of a class, up the chain from a type.
#[tactic(auto, using(crate::proofs::Supertypes::up_step, crate::proofs::Supertypes::up_none, crate::proofs::Supertypes::up_zero))]
fn up_to(
    alloc: Global,
    program: &CoreProgram,
    count: usize,
    class: u32,
    of: Option<TypeRef>,
) -> Result<Option<TypeRef>, Fault>
    ensures { IfOk result (λ found. p.ty_option found ≡ up_to count (p.program program.now) class (p.ty_option of)) }
{
    if count == 0 {
        return Ok(None);
    }
    let Some((number, arguments)) = class_in(&of) else {
        return Ok(None);
    };
    if number.0 == class {
        return Ok(of);
    }
    let above = supertype_of(alloc, program, number.0, arguments)?;
    up_to(alloc, program, count - 1, class, above)
}

/// The supertype of a class, with type arguments put in.
fn supertype_of(
    alloc: Global,
    program: &CoreProgram,
    class: u32,
    arguments: &Types,
) -> Result<Option<TypeRef>, Fault>
    ensures { IfOk result (λ found. p.ty_option found ≡ put_in (of_list (map ty arguments.now.items)) (supertype (class_at (p.program program.now) class))) }
{
    match class_at(program, class) {
        None => Ok(None),
        Some(info) => put_in(alloc, &info.superclass, arguments.as_slice()),
    }
}

/// The type of a class whose members the class of a type has: its own, or the mixin that it applies, and so on.
#[tactic(auto, using(crate::proofs::Supertypes::mixed_step, crate::proofs::Supertypes::mixed_none, crate::proofs::Supertypes::mixed_zero))]
fn mixed_in(
    alloc: Global,
    program: &CoreProgram,
    count: usize,
    class: u32,
    of: Option<TypeRef>,
) -> Result<Option<TypeRef>, Fault>
    ensures { IfOk result (λ found. p.ty_option found ≡ mixed_in count (p.program program.now) class (p.ty_option of)) }
{
    if count == 0 {
        return Ok(None);
    }
    let Some((number, arguments)) = class_in(&of) else {
        return Ok(None);
    };
    if number.0 == class {
        return Ok(of);
    }
    let mixin = mixin_of(alloc, program, number.0, arguments)?;
    mixed_in(alloc, program, count - 1, class, mixin)
}

/// The first interface of a class, which is the mixin of an application, with type arguments put in.
fn mixin_of(
    alloc: Global,
    program: &CoreProgram,
    class: u32,
    arguments: &Types,
) -> Result<Option<TypeRef>, Fault>
    ensures { IfOk result (λ found. p.ty_option found ≡ put_in (of_list (map ty arguments.now.items)) (first_type (interfaces (class_at (p.program program.now) class)))) }
{
    match class_at(program, class) {
        None => Ok(None),
        Some(info) => match info.interfaces.as_slice().split_first() {
            None => Ok(None),
            Some((first, _)) => Ok(Some(instance(alloc, first, arguments.as_slice())?)),
        },
    }
}

/// Type arguments put into a type that may be missing.
fn put_in(
    alloc: Global,
    of: &Option<TypeRef>,
    arguments: &[TypeRef],
) -> Result<Option<TypeRef>, Fault>
    ensures { IfOk result (λ found. p.ty_option found ≡ put_in (of_list (map ty arguments.now)) (p.ty_option of.now)) }
{
    match of {
        None => Ok(None),
        Some(one) => Ok(Some(instance(alloc, one, arguments)?)),
    }
}

/// Type arguments put into a type. A larger one than a type may be is answered as want of memory.
pub fn instance(alloc: Global, of: &TypeRef, arguments: &[TypeRef]) -> Result<TypeRef, Fault>
    ensures { IfOk result (λ made. ty made ≡ instance (of_list (map ty arguments.now)) (ty of.now)) }
{
    match instantiate(alloc, of, arguments) {
        Ok(made) => Ok(made),
        Err(_) => Err(Fault::Memory),
    }
}

/// A type over the type arguments in scope; `None` where it is too large.
pub fn type_here(run: &Run, a: Around, of: &TypeRef) -> Result<Option<TypeRef>, Fault>
    ensures { IfOk result (λ found. MatchOption found
        (is_small (instance (of_list (arguments_here (setting_of a.entry) (now (seen run.now)))) (ty of.now)) ≡ false)
        (λ made. (is_small (instance (of_list (arguments_here (setting_of a.entry) (now (seen run.now)))) (ty of.now)) ≡ true)
        × (ty made ≡ instance (of_list (arguments_here (setting_of a.entry) (now (seen run.now)))) (ty of.now)))) }
{
    let arguments = arguments_here(run, a)?;
    small_instance(run.alloc, of, arguments.as_slice())
}

/// Types over the type arguments in scope; `None` where one is too large.
pub fn closed(run: &Run, a: Around, types: &[TypeRef]) -> Result<Option<Types>, Fault>
    ensures { IfOk result (λ found. MatchOption found
        (are_small (map (instance (of_list (arguments_here (setting_of a.entry) (now (seen run.now))))) (map ty types.now)) ≡ false)
        (λ made. (are_small (map (instance (of_list (arguments_here (setting_of a.entry) (now (seen run.now))))) (map ty types.now)) ≡ true)
        × (map ty made.items ≡ map (instance (of_list (arguments_here (setting_of a.entry) (now (seen run.now))))) (map ty types.now)))) }
{
    let arguments = arguments_here(run, a)?;
    let mut made = Vec::new(run.alloc);
    if close_all(run.alloc, types, arguments.as_slice(), &mut made)? {
        Ok(Some(made))
    } else {
        Ok(None)
    }
}

/// Adds types with type arguments put in to others, and says whether none is too large.
fn close_all(
    alloc: Global,
    types: &[TypeRef],
    arguments: &[TypeRef],
    made: &mut Types,
) -> Result<bool, Fault>
    ensures small { IfOk result (λ all. are_small (map (instance (of_list (map ty arguments.now))) (map ty types.now)) ≡ all) }
    ensures made { IfOk result (λ all. all ≡ true → map ty made.new.items ≡ map ty made.old.items ++ map (instance (of_list (map ty arguments.now))) (map ty types.now)) }
{
    let Some((first, rest)) = types.split_first() else {
        return Ok(true);
    };
    match small_instance(alloc, first, arguments)? {
        None => Ok(false),
        Some(one) => {
            if made.push(one).is_err() {
                return Err(Fault::Memory);
            }
            close_all(alloc, rest, arguments, made)
        }
    }
}

/// Type arguments put into a type; `None` where it is too large then.
fn small_instance(
    alloc: Global,
    of: &TypeRef,
    arguments: &[TypeRef],
) -> Result<Option<TypeRef>, Fault>
    ensures { IfOk result (λ found. MatchOption found
        (is_small (instance (of_list (map ty arguments.now)) (ty of.now)) ≡ false)
        (λ made. (is_small (instance (of_list (map ty arguments.now)) (ty of.now)) ≡ true) × (ty made ≡ instance (of_list (map ty arguments.now)) (ty of.now)))) }
{
    match instantiate(alloc, of, arguments) {
        Ok(made) => Ok(Some(made)),
        Err(TypeFault::TooLarge) => Ok(None),
        Err(TypeFault::Memory) => Err(Fault::Memory),
    }
}
