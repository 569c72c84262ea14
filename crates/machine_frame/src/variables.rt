// Variables of the body at work.
#![tactic(auto)]

ghost use Rattle.std.specs.Prelude.{◌≡◌, ◌∷◌, ◌++◌, [], true, Some, None, map, take, drop, nat_eq, position, is_some, IfOk, IfSome};
ghost use Rattle.dart_ir.specs.declared.value.Value.TheVariants.{Null};
ghost use Rattle.evaluation.specs.State.{Outcome, Completion, answer, ends, now};
ghost use Rattle.evaluation.specs.Sequence.{in_order};
ghost use Rattle.evaluation.specs.Variables.{own_cells, taken_along, has_cell, room, room_at, cell_in, value_in, variable, write, write_in, declare, copy};
ghost use Rattle.machine_frame.specs.Outside.{setting_of};
ghost use Rattle.machine_frame.specs.Frames.{source_of, activation_of, seen, IsBeside, value_or_full};

use crate::around::{Around, Fault};
use crate::objects::{field_of, put_object, write_cell};
use crate::run::{Run, Source};
use dart_ir::object::Object;
use dart_ir::value::Value;
use machine_lookup::program::{function_captures, function_cells, static_cells};
use machine_lookup::row::{place_of, slot, write_slot};

#[inline(always)]
fn captures_here<'a>(a: Around<'a>, source: Source) -> &'a [u32]
    ensures { result.now ≡ taken_along (setting_of a.entry) (source_of source) }
{
    match source {
        Source::Function(f) => function_captures(a.program.core(), f),
        Source::Initialiser(_) => &[],
    }
}

#[inline(always)]
fn cells_here<'a>(a: Around<'a>, source: Source) -> &'a [u32]
    ensures { result.now ≡ own_cells (setting_of a.entry) (source_of source) }
{
    match source {
        Source::Function(f) => function_cells(a.program.core(), f),
        Source::Initialiser(d) => static_cells(a.program.core(), d),
    }
}

/// Whether a variable that the body declares has a cell.
#[inline(always)]
pub fn has_cell(run: &Run, a: Around, var: u32) -> bool
    ensures { result ≡ has_cell (setting_of a.entry) (seen run.now).activation var }
{
    match place_of(cells_here(a, run.body.source), var) {
        None => false,
        Some(_) => true,
    }
}

/// Whether a body neither takes a variable along nor declares one with a cell. `false` says nothing.
#[inline(always)]
fn has_slots_alone(a: Around, source: Source) -> bool
    ensures taken { result ≡ true → taken_along (setting_of a.entry) (source_of source) ≡ [] }
    ensures own { result ≡ true → own_cells (setting_of a.entry) (source_of source) ≡ [] }
{
    if captures_here(a, source).len() != 0 {
        return false;
    }
    cells_here(a, source).len() == 0
}

/// What a variable holds. `None` says nothing.
#[tactic(auto, using(crate::proofs::Plain::slot_read))]
#[inline(always)]
pub fn read_variable(run: &Run, a: Around, var: u32) -> Option<Value>
    ensures { IfSome result (λ value. value ≡ variable (setting_of a.entry) (now (seen run.now)) var) }
{
    if has_slots_alone(a, run.body.source) {
        return Some(slot(run.slots.as_slice(), run.base, var));
    }
    read_anywhere(run, a, var)
}

/// The same, where the variable may have a cell.
fn read_anywhere(run: &Run, a: Around, var: u32) -> Option<Value>
    ensures { IfSome result (λ value. value ≡ variable (setting_of a.entry) (now (seen run.now)) var) }
{
    match place_of(captures_here(a, run.body.source), var) {
        None => Some(own_variable(run, a, var)),
        Some(index) => match u32::try_from(index) {
            Err(_) => None,
            Ok(index) => {
                let cell = field_of(&run.store, run.body.closure, index);
                Some(field_of(&run.store, cell, 0))
            }
        },
    }
}

#[inline(always)]
fn own_variable(run: &Run, a: Around, var: u32) -> Value
    ensures { result ≡ value_in run.now.store (seen run.now).activation (room_at None (setting_of a.entry) run.now.store (seen run.now).activation var) }
{
    let here = slot(run.slots.as_slice(), run.base, var);
    if has_cell(run, a, var) {
        field_of(&run.store, here, 0)
    } else {
        here
    }
}

/// Writes a variable.
#[tactic(auto, using(crate::proofs::Plain::slot_written))]
#[inline(always)]
pub fn write_variable(run: &mut Run, a: Around, var: u32, value: Value) -> Result<(), Fault>
    ensures written { IfOk result (λ _. write (setting_of a.entry) var value (seen run.old) ≡ ends (answer value) (seen run.new)) }
    ensures beside { IfOk result (λ _. IsBeside run.old run.new) }
    ensures stays { IfOk result (λ _. run.new.answer ≡ run.old.answer) }
{
    if has_slots_alone(a, run.body.source) {
        write_slot(&mut run.slots, run.base, var, value);
        return Ok(());
    }
    write_anywhere(run, a, var, value)
}

/// The same, where the variable may have a cell.
#[tactic(auto, using(crate::proofs::Cells::write_in_cell))]
fn write_anywhere(run: &mut Run, a: Around, var: u32, value: Value) -> Result<(), Fault>
    ensures written { IfOk result (λ _. write (setting_of a.entry) var value (seen run.old) ≡ ends (answer value) (seen run.new)) }
    ensures beside { IfOk result (λ _. IsBeside run.old run.new) }
    ensures stays { IfOk result (λ _. run.new.answer ≡ run.old.answer) }
{
    match place_of(captures_here(a, run.body.source), var) {
        None => {
            write_own(run, a, var, value);
            Ok(())
        }
        Some(index) => match u32::try_from(index) {
            Err(_) => Err(Fault::Memory),
            Ok(index) => {
                let cell = field_of(&run.store, run.body.closure, index);
                write_cell(&mut run.store, cell, value);
                Ok(())
            }
        },
    }
}

#[tactic(auto, using(crate::proofs::Cells::write_in_cell))]
#[inline(always)]
fn write_own(run: &mut Run, a: Around, var: u32, value: Value)
    ensures written { write_in (room_at None (setting_of a.entry) run.old.store (seen run.old).activation var) value (seen run.old) ≡ ends (answer value) (seen run.new) }
    ensures beside { IsBeside run.old run.new }
    ensures stays { run.new.answer ≡ run.old.answer }
{
    if has_cell(run, a, var) {
        let cell = slot(run.slots.as_slice(), run.base, var);
        write_cell(&mut run.store, cell, value);
    } else {
        write_slot(&mut run.slots, run.base, var, value);
    }
}

/// A fresh variable with the value; the answer is what its slot holds. `None` where the units don't suffice for its cell.
#[inline(always)]
pub fn declare(run: &mut Run, a: Around, var: u32, value: Value) -> Result<Option<Value>, Fault>
    ensures declared { IfOk result (λ held. declare (setting_of a.entry) var value (seen run.old) ≡ ends (value_or_full held) (seen run.new)) }
    ensures beside { IfOk result (λ held. IsBeside run.old run.new) }
{
    if !has_cell(run, a, var) {
        write_slot(&mut run.slots, run.base, var, value);
        return Ok(Some(value));
    }
    match put_object(
        run,
        Object::Cell {
            value,
            counted: true,
        },
    )? {
        None => Ok(None),
        Some(cell) => {
            write_slot(&mut run.slots, run.base, var, cell);
            Ok(Some(cell))
        }
    }
}

/// Fresh copies of variables, in order. `None` where the units don't suffice.
#[tactic(auto, using(crate::proofs::Plain::none_copied))]
#[inline(always)]
pub fn copy_variables(
    run: &mut Run,
    a: Around,
    vars: &[u32],
    last: Value,
) -> Result<Option<Value>, Fault>
    ensures copied { IfOk result (λ held. in_order (map (copy (setting_of a.entry)) vars.now) last (seen run.old) ≡ ends (value_or_full held) (seen run.new)) }
    ensures beside { IfOk result (λ held. IsBeside run.old run.new) }
{
    if vars.len() == 0 {
        return Ok(Some(last));
    }
    if has_slots_alone(a, run.body.source) {
        return Ok(Some(Value::Null));
    }
    copy_each(run, a, vars, last)
}

/// The same of one after another.
fn copy_each(run: &mut Run, a: Around, vars: &[u32], last: Value) -> Result<Option<Value>, Fault>
    ensures copied { IfOk result (λ held. in_order (map (copy (setting_of a.entry)) vars.now) last (seen run.old) ≡ ends (value_or_full held) (seen run.new)) }
    ensures beside { IfOk result (λ held. IsBeside run.old run.new) }
{
    match vars.split_first() {
        None => Ok(Some(last)),
        Some((var, rest)) => match copy_variable(run, a, *var)? {
            None => Ok(None),
            Some(held) => copy_each(run, a, rest, held),
        },
    }
}

fn copy_variable(run: &mut Run, a: Around, var: u32) -> Result<Option<Value>, Fault>
    ensures copied { IfOk result (λ held. copy (setting_of a.entry) var (seen run.old) ≡ ends (value_or_full held) (seen run.new)) }
    ensures beside { IfOk result (λ held. IsBeside run.old run.new) }
{
    if !has_cell(run, a, var) {
        return Ok(Some(Value::Null));
    }
    let Some(value) = read_variable(run, a, var) else {
        return Err(Fault::Memory);
    };
    declare(run, a, var, value)
}

/// Adds the cells of variables to others.
pub fn capture(run: &Run, a: Around, vars: &[u32], cells: &mut Vec<Value>) -> Result<(), Fault>
    ensures { IfOk result (λ _. cells.new.items ≡ cells.old.items ++ map (λ x. cell_in (seen run.now).activation (room (setting_of a.entry) run.now.store (seen run.now).activation x)) vars.now) }
{
    match vars.split_first() {
        None => Ok(()),
        Some((var, rest)) => {
            let cell = cell_of(run, a, *var)?;
            if cells.push(cell).is_err() {
                return Err(Fault::Memory);
            }
            capture(run, a, rest, cells)
        }
    }
}

/// The cell of a variable.
#[tactic(auto, using(crate::proofs::Cells::own_cell))]
fn cell_of(run: &Run, a: Around, var: u32) -> Result<Value, Fault>
    ensures { IfOk result (λ cell. cell ≡ cell_in (seen run.now).activation (room (setting_of a.entry) run.now.store (seen run.now).activation var)) }
{
    match place_of(captures_here(a, run.body.source), var) {
        None => Ok(slot(run.slots.as_slice(), run.base, var)),
        Some(index) => match u32::try_from(index) {
            Err(_) => Err(Fault::Memory),
            Ok(index) => Ok(field_of(&run.store, run.body.closure, index)),
        },
    }
}
