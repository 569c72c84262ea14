// Objects that forms make: lists and closures (ECMA-408, 16.7 Lists, 16.9 Function Expressions).
ghost use Rattle.std.specs.Prelude.{◌≡◌, ◌<◌, ◌+◌, map, IfOk};
ghost use Rattle.dart_ir.specs.Ty.{ty};
ghost use Rattle.dart_ir.specs.Object.{heap_object};
ghost use Rattle.machine_lookup.specs.Rows.{last_of};
ghost use Rattle.evaluation.specs.Objects.{add};
ghost use Rattle.evaluation.specs.Variables as x;
ghost use Rattle.evaluation.specs.Creation as creation;
ghost use Rattle.machine_frame.specs.Frames.{going, does, does_row, room, work};

use crate::types::{arguments_here, closed};
use dart_ir::number::DeclId;
use dart_ir::object::Object;
use dart_ir::types::TypeRef;
use dart_ir::values::Values;
use machine_frame::around::{Around, Fault};
use machine_frame::moves::answer;
use machine_frame::objects::put_object;
use machine_frame::run::{Control, Exit, Limit, Run};
use machine_frame::variables::capture;
use machine_lookup::program::function_captures;
use machine_lookup::row::{cut, last_of};

/// An object is added, and is the answer.
pub fn place<'a>(run: &mut Run<'a>, a: Around<'a>, object: Object) -> Result<Control<'a>, Fault>
    ensures meaning { IfOk result (λ c. going a.entry run.new c ≡ does a.entry run.old (λ w. add (heap_object object))) }
    ensures less { IfOk result (λ c. work run.new c < room run.old + 6) }
{
    match put_object(run, object)? {
        None => Ok(Control::Leave(Exit::Over(Limit::OutOfObjects))),
        Some(value) => Ok(answer(run, a, value)),
    }
}

/// A growable list of the last operands.
pub fn make_list<'a>(
    run: &mut Run<'a>,
    a: Around<'a>,
    types: &'a [TypeRef],
    count: u32,
) -> Result<Control<'a>, Fault>
    ensures meaning { IfOk result (λ c. going a.entry run.new c ≡ does_row a.entry run.old count (λ w. creation.new_list w.setting (map ty types.now) (last_of count run.old.operands.items))) }
    ensures less { IfOk result (λ c. work run.new c < room run.old + 6) }
{
    let Some(args) = closed(run, a, types)? else {
        cut(&mut run.operands, count);
        return Ok(Control::Leave(Exit::Over(Limit::TypeLimit)));
    };
    let items = Values::from_vec(Vec::from_slice(
        run.alloc,
        last_of(run.operands.as_slice(), count),
    )?);
    cut(&mut run.operands, count);
    place(
        run,
        a,
        Object::List {
            args,
            items,
            fixed: false,
        },
    )
}

/// A function value with the `this`, the type arguments and the cells that it takes along.
pub fn make_closure<'a>(run: &mut Run<'a>, a: Around<'a>, f: u32) -> Result<Control<'a>, Fault>
    ensures meaning { IfOk result (λ c. going a.entry run.new c ≡ does a.entry run.old (λ w. x.make_closure w.setting f)) }
    ensures less { IfOk result (λ c. work run.new c < room run.old + 6) }
{
    let args = arguments_here(run, a)?;
    let captures = function_captures(a.program.core(), f);
    let mut cells = Vec::with_capacity(run.alloc, captures.len())?;
    capture(run, a, captures, &mut cells)?;
    let object = Object::Closure {
        decl: DeclId(f),
        receiver: run.body.this,
        args,
        cells: Values::from_vec(cells),
    };
    place(run, a, object)
}
