// noSuchMethod (ECMA-408, 16.17.1 Method Lookup).
ghost use Rattle.std.specs.Prelude.{pos, ◌≡◌, ◌<◌, ◌+◌, ◌∷◌, [], Some, map, IfOk};
ghost use Rattle.dart_ir.specs.Classes.{IsValid};
ghost use Rattle.dart_ir.specs.Ty.{ty, dynamic};
ghost use Rattle.core_program.specs.ProgramView as p;
ghost use Rattle.core_program.specs.View as v;
ghost use Rattle.machine_call.specs.Missing.{missing_alone, told_as, IsNearer};
ghost use Rattle.evaluation.specs.State.{ends};
ghost use Rattle.evaluation.specs.Sequence.{on_answers};
ghost use Rattle.evaluation.specs.Objects.{add};
ghost use Rattle.evaluation.specs.Arguments.{alone, placed, named_values};
ghost use Rattle.evaluation.specs.Invocation as call;
ghost use Rattle.machine_frame.specs.Outside.{setting_of};
ghost use Rattle.machine_frame.specs.Frames.{seen, going, does, does_row, room, work, given_of, value_or_full, IsBeside};

use crate::calls::{last_operand, member_call};
use core_program::program::CoreProgram;
use dart_base::name::Name;
use dart_base::place::Place;
use dart_ir::class::Role;
use dart_ir::object::Object;
use dart_ir::types::{TypeRef, Types};
use dart_ir::value::{Value, integer_value};
use dart_ir::values::Values;
use machine_frame::around::{Around, Fault};
use machine_frame::moves::answer;
use machine_frame::objects::put_object;
use machine_frame::run::{Control, Exit, Limit, Passed, Run};
use machine_frame::stacks::push_operand;
use machine_lookup::arguments::fits;
use machine_lookup::program::member_function;
use machine_lookup::row::{cut, last_of, past_first};
use machine_value::errors::put_name;
use std::alloc::Global;

/// What comes of a call of `noSuchMethod`.
pub enum Told<'a> {
    /// Its body is at work, or the form is left.
    Goes(Control<'a>),
    /// It does not take this Invocation alone.
    Again(Value),
}

/// noSuchMethod of an object seen as of the class, for a member that isn't there or that what is given doesn't fit.
pub fn missing_from<'a>(
    run: &mut Run<'a>,
    a: Around<'a>,
    at: Place,
    class: u32,
    role: Role,
    name: u32,
    this: Value,
    passed: Passed<'a>,
) -> Result<Control<'a>, Fault>
    requires valid { IsValid a.program.now.classes }
    ensures meaning { IfOk result (λ c. going a.entry run.new c ≡ does_row a.entry run.old passed.entry.count (λ w. call.missing_from w at (Some class) role name this (given_of passed.entry run.old.operands.items))) }
    ensures less { IfOk result (λ c. work run.new c < room run.old + 6) }
{
    let told = tell(run, a, at, class, role, name, this, passed)?;
    match told {
        Told::Goes(control) => Ok(control),
        Told::Again(one) => tell_again(run, a, at, class, this, one),
    }
}

/// noSuchMethod that does not take an Invocation alone is called for in its turn, until the units are used up.
fn tell_again<'a>(
    run: &mut Run<'a>,
    a: Around<'a>,
    at: Place,
    class: u32,
    this: Value,
    first: Value,
) -> Result<Control<'a>, Fault>
    requires valid { IsValid a.program.now.classes }
    ensures meaning { IfOk result (λ c. going a.entry run.new c ≡ does a.entry run.old (missing_alone a.entry at class this first)) }
    ensures less { IfOk result (λ c. work run.new c < room run.old + 6) }
{
    let mut one = first;
    loop {
        let told = tell_alone(run, a, at, class, this, one)?;
        match told {
            Told::Goes(control) => return Ok(control),
            Told::Again(next) => {
                one = next;
            }
        }
    }
}

/// noSuchMethod for itself, with an Invocation alone.
fn tell_alone<'a>(
    run: &mut Run<'a>,
    a: Around<'a>,
    at: Place,
    class: u32,
    this: Value,
    one: Value,
) -> Result<Told<'a>, Fault>
    requires valid { IsValid a.program.now.classes }
    ensures meaning { IfOk result (λ t. told_as a.entry at class this run.new t ≡ does a.entry run.old (missing_alone a.entry at class this one)) }
    ensures nearer { IfOk result (λ t. IsNearer run.old run.new t) }
{
    let passed = last_operand();
    push_operand(run, one)?;
    let told = tell(
        run,
        a,
        at,
        class,
        Role::Method,
        a.setup.known.no_such_method.0,
        this,
        passed,
    )?;
    Ok(told)
}

/// noSuchMethod is called with the Invocation of a member, where it takes it alone.
fn tell<'a>(
    run: &mut Run<'a>,
    a: Around<'a>,
    at: Place,
    class: u32,
    role: Role,
    name: u32,
    this: Value,
    passed: Passed<'a>,
) -> Result<Told<'a>, Fault>
    requires valid { IsValid a.program.now.classes }
    ensures meaning { IfOk result (λ t. told_as a.entry at class this run.new t ≡ does_row a.entry run.old passed.entry.count (λ w. call.missing_from w at (Some class) role name this (given_of passed.entry run.old.operands.items))) }
    ensures nearer { IfOk result (λ t. IsNearer run.old run.new t) }
{
    let made = invocation(run, a, role, name, passed)?;
    cut(&mut run.operands, passed.count);
    let Some(one) = made else {
        return Ok(Told::Goes(Control::Leave(Exit::Over(Limit::OutOfObjects))));
    };
    let Some(m) = a
        .program
        .member(class, a.setup.known.no_such_method.0, Role::Method)
    else {
        return Ok(Told::Goes(answer(run, a, Value::Null)));
    };
    if !takes_alone(a.program.core(), m, one) {
        return Ok(Told::Again(one));
    }
    let control = call_alone(run, a, at, m, this, one)?;
    Ok(Told::Goes(control))
}

/// Whether a member takes a value alone.
fn takes_alone(program: &CoreProgram, m: u32, one: Value) -> bool
    ensures { result ≡ call.member_fits (p.program program.now) m (alone one) }
{
    fits(program, member_function(program, m), &[one], &[])
}

/// A member that was found, on its receiver, with a value alone.
#[tactic(auto, using(crate::proofs::Alone::alone_laws))]
fn call_alone<'a>(
    run: &mut Run<'a>,
    a: Around<'a>,
    at: Place,
    m: u32,
    this: Value,
    one: Value,
) -> Result<Control<'a>, Fault>
    requires valid { IsValid a.program.now.classes }
    ensures meaning { IfOk result (λ c. going a.entry run.new c ≡ does a.entry run.old (λ w. call.member_call w at m this (alone one))) }
    ensures less { IfOk result (λ c. work run.new c < room run.old + 6) }
{
    let passed = last_operand();
    push_operand(run, one)?;
    member_call(run, a, at, m, this, passed)
}

/// The Invocation, behind what it holds, in the order of its fields. `None` where the units don't suffice.
fn invocation<'a>(
    run: &mut Run<'a>,
    a: Around<'a>,
    role: Role,
    name: u32,
    passed: Passed<'a>,
) -> Result<Option<Value>, Fault>
    ensures made { IfOk result (λ made. call.invocation (setting_of a.entry) role name (given_of passed.entry run.old.operands.items) (seen run.old) ≡ ends (value_or_full made) (seen run.new)) }
    ensures beside { IfOk result (λ made. IsBeside run.old run.new) }
{
    let mut parts = Values::new(run.alloc);
    match put_name(run, a, name, is_setter(role))? {
        None => Ok(None),
        Some(text) => {
            parts.push(text)?;
            placed_part(run, a, role, parts, passed)
        }
    }
}

/// The same from the values by place on.
fn placed_part<'a>(
    run: &mut Run<'a>,
    a: Around<'a>,
    role: Role,
    parts: Values,
    passed: Passed<'a>,
) -> Result<Option<Value>, Fault>
    ensures made { IfOk result (λ made. on_answers (λ parts. add (call.invocation_object (setting_of a.entry) role parts))
        (add (call.list_of (placed (given_of passed.entry run.old.operands.items))) ∷ call.names_list (setting_of a.entry) (given_of passed.entry run.old.operands.items)
        ∷ add (call.list_of (named_values (given_of passed.entry run.old.operands.items))) ∷ []) parts (seen run.old) ≡ ends (value_or_full made) (seen run.new)) }
    ensures beside { IfOk result (λ made. IsBeside run.old run.new) }
{
    let mut parts = parts;
    let values = placed_values(run, passed)?;
    match put_list(run, values)? {
        None => Ok(None),
        Some(list) => {
            parts.push(list)?;
            names_part(run, a, role, parts, passed)
        }
    }
}

/// The same from the names of the others on.
fn names_part<'a>(
    run: &mut Run<'a>,
    a: Around<'a>,
    role: Role,
    parts: Values,
    passed: Passed<'a>,
) -> Result<Option<Value>, Fault>
    ensures made { IfOk result (λ made. on_answers (λ parts. add (call.invocation_object (setting_of a.entry) role parts))
        (call.names_list (setting_of a.entry) (given_of passed.entry run.old.operands.items)
        ∷ add (call.list_of (named_values (given_of passed.entry run.old.operands.items))) ∷ []) parts (seen run.old) ≡ ends (value_or_full made) (seen run.new)) }
    ensures beside { IfOk result (λ made. IsBeside run.old run.new) }
{
    let mut parts = parts;
    let strings = Values::new(run.alloc);
    match put_names(run, a, passed.names, strings)? {
        None => Ok(None),
        Some(list) => {
            parts.push(list)?;
            named_part(run, a, role, parts, passed)
        }
    }
}

/// The same from the values of the others on.
fn named_part<'a>(
    run: &mut Run<'a>,
    a: Around<'a>,
    role: Role,
    parts: Values,
    passed: Passed<'a>,
) -> Result<Option<Value>, Fault>
    ensures made { IfOk result (λ made. on_answers (λ parts. add (call.invocation_object (setting_of a.entry) role parts))
        (add (call.list_of (named_values (given_of passed.entry run.old.operands.items))) ∷ []) parts (seen run.old) ≡ ends (value_or_full made) (seen run.new)) }
    ensures beside { IfOk result (λ made. IsBeside run.old run.new) }
{
    let mut parts = parts;
    let values = named_values(run, passed)?;
    match put_list(run, values)? {
        None => Ok(None),
        Some(list) => {
            parts.push(list)?;
            put_invocation(run, a, role, parts)
        }
    }
}

fn put_invocation(
    run: &mut Run,
    a: Around,
    role: Role,
    parts: Values,
) -> Result<Option<Value>, Fault>
    ensures made { IfOk result (λ made. add (call.invocation_object (setting_of a.entry) role parts) (seen run.old) ≡ ends (value_or_full made) (seen run.new)) }
    ensures beside { IfOk result (λ made. IsBeside run.old run.new) }
{
    let mut fields = parts;
    fields.push(integer_value(role_number(role)))?;
    put_object(
        run,
        Object::Instance {
            class: a.setup.known.invocation_class,
            args: Vec::new(run.alloc),
            fields,
        },
    )
}

/// The values that are given by place.
fn placed_values<'a>(run: &Run<'a>, passed: Passed<'a>) -> Result<Values, Fault>
    ensures { IfOk result (λ found. found ≡ placed (given_of passed.entry run.now.operands.items)) }
{
    let values = past_first(last_of(run.operands.as_slice(), passed.count), passed.skip);
    let count = values.len().saturating_sub(passed.names.len());
    Ok(Values::from_vec(Vec::from_slice(run.alloc, &values[..count])?))
}

/// The values that are given by name.
fn named_values<'a>(run: &Run<'a>, passed: Passed<'a>) -> Result<Values, Fault>
    ensures { IfOk result (λ found. found ≡ named_values (given_of passed.entry run.now.operands.items)) }
{
    let values = past_first(last_of(run.operands.as_slice(), passed.count), passed.skip);
    let count = values.len().saturating_sub(passed.names.len());
    Ok(Values::from_vec(Vec::from_slice(run.alloc, &values[count..])?))
}

fn is_setter(role: Role) -> bool
    ensures { result ≡ call.is_setter role }
{
    match role {
        Role::Setter => true,
        Role::Method => false,
        Role::Getter => false,
    }
}

fn role_number(role: Role) -> i128
    ensures { result ≡ pos (call.role_number role) }
{
    match role {
        Role::Method => 0,
        Role::Getter => 1,
        Role::Setter => 2,
    }
}

/// A growable list of dynamic items. `None` where the units don't suffice.
fn put_list(run: &mut Run, items: Values) -> Result<Option<Value>, Fault>
    ensures made { IfOk result (λ made. add (call.list_of items) (seen run.old) ≡ ends (value_or_full made) (seen run.new)) }
    ensures beside { IfOk result (λ made. IsBeside run.old run.new) }
{
    let args = dynamic_alone(run.alloc)?;
    put_object(
        run,
        Object::List {
            args,
            items,
            fixed: false,
        },
    )
}

/// The type argument of a list of dynamic items.
#[tactic(auto, using(crate::proofs::Bodies::dynamic_alone))]
fn dynamic_alone(alloc: Global) -> Result<Types, Fault>
    ensures { IfOk result (λ types. map ty types.items ≡ dynamic ∷ []) }
{
    let mut types = Vec::new(alloc);
    if types.push(TypeRef::Dynamic).is_err() {
        return Err(Fault::Memory);
    }
    Ok(types)
}

/// The list of names, behind the strings of those before them. `None` where the units don't suffice.
fn put_names(
    run: &mut Run,
    a: Around,
    names: &[Name],
    strings: Values,
) -> Result<Option<Value>, Fault>
    ensures made { IfOk result (λ made. on_answers (λ names. add (call.list_of names)) (map (call.name_string (setting_of a.entry)) (v.names names.now)) strings (seen run.old) ≡ ends (value_or_full made) (seen run.new)) }
    ensures beside { IfOk result (λ made. IsBeside run.old run.new) }
{
    let Some((name, rest)) = names.split_first() else {
        return put_list(run, strings);
    };
    let mut strings = strings;
    match put_name(run, a, name.0, false)? {
        None => Ok(None),
        Some(text) => {
            strings.push(text)?;
            put_names(run, a, rest, strings)
        }
    }
}
