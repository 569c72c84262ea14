// A program with a table of its members.
ghost use Rattle.std.specs.Prelude.{◌≡◌, ◌<◌, [], Some, None, IfOk, IfSome, length, replicate, slice_index_or};
ghost use Rattle.core_program.specs.ProgramView as v;
ghost use Rattle.evaluation.specs.Classes.{member};
ghost use Rattle.machine_lookup.specs.Found.{IsFound, AreFound};

use crate::member::{member, superclass};
use crate::program::{class_at, member_at};
use crate::shapes::{
    Reads, native_of_member, reading_of_member, site_of_member, writing_of_member,
};
use core_program::program::CoreProgram;
use dart_ir::class::Role;
use dart_ir::native::NativeId;
use dart_ir::number::MemberId;
use std::alloc::{AllocError, Global};
use std::marker::Model;

/// What a name comes to on objects of a class: a method, a getter and a setter, and what these are in short.
#[derive(Clone, Copy)]
pub struct Found {
    pub class: u32,
    pub name: u32,
    pub method: Option<u32>,
    pub getter: Option<u32>,
    pub setter: Option<u32>,
    /// The site of the method's first parameter.
    pub operand: Option<u32>,
    /// The native of `this` and the parameter that the method is.
    pub operator: Option<NativeId>,
    /// What the getter reads.
    pub reads: Option<Reads>,
    /// The field that the setter writes.
    pub writes: Option<u32>,
}

/// A program, whose members are found in a table where they have a place there. Contracts see the program.
#[derive(Drop)]
pub struct Linked {
    program: CoreProgram,
    slots: Vec<Option<Found>>,
}

impl Model for Linked {
    ghost use Rattle.core_program.specs.declared.program.CoreProgram.{CoreProgram};
    ghost use Rattle.core_program.specs.ProgramView as v;
    ghost use Rattle.core_program.specs.contracts.form.Core as core;
    ghost use Rattle.core_program.specs.contracts.form.Form as form;
    ghost use Rattle.core_program.specs.contracts.form.Part as part;
    ghost use Rattle.dart_ir.specs.contracts.types.FunctionType as function_type;
    ghost use Rattle.dart_ir.specs.contracts.types.TypeRef as type_ref;
    ghost use Rattle.machine_lookup.specs.Found.{AreFound};
    ghost use Rattle.std.specs.Coded.{codes};

    ghost Value = { CoreProgram };

    ghost coded = { Prim.hlevel (codes, type_ref.the_row.coded, function_type.the_row.coded, core.the_row.coded, form.the_row.coded, part.the_row.coded) };

    ghost view = { λ l. l.program };

    ghost invariant = { λ l. AreFound (v.program l.program) l.slots.items };
}

impl Linked {
    /// The program with a table of what each class declares and inherits.
    pub fn new(alloc: Global, program: CoreProgram) -> Result<Linked, AllocError>
        ensures { IfOk result (λ l. l ≡ program) }
    {
        let slots = filled(alloc, &program)?;
        Ok(Linked { program, slots })
    }

    /// The program.
    #[inline(always)]
    pub fn core(&self) -> &CoreProgram
        ensures { result.now ≡ self.now }
    {
        &self.program
    }

    /// What a name comes to on objects of a class. `None` says nothing.
    #[inline(always)]
    pub fn found(&self, class: u32, name: u32) -> Option<&Found>
        ensures found { IfSome result (λ f. IsFound (v.program self.now) f.now) }
        ensures same { IfSome result (λ f. (f.now.class ≡ class) × (f.now.name ≡ name)) }
    {
        let slots = self.slots.as_slice();
        let at = place(class, name, slots.len());
        look(&self.program, slots, at, class, name)
    }

    /// The first declaration of that name and role on the chain of the class. One without a body is no declaration.
    #[inline(always)]
    pub fn member(&self, class: u32, name: u32, role: Role) -> Option<u32>
        ensures { result ≡ member (v.program self.now) (Some class) name role }
    {
        let Some(found) = self.found(class, name) else {
            return member(&self.program, class, name, role);
        };
        match role {
            Role::Method => found.method,
            Role::Getter => found.getter,
            Role::Setter => found.setter,
        }
    }
}

/// How many slots are looked at, from the place of a name of a class on.
const TRIES: u32 = 8;

/// How many classes up the chain of a class its names are listed.
const LEVELS: u32 = 16;

/// The slot from which on a name of a class is looked for, among so many.
#[inline(always)]
fn place(class: u32, name: u32, count: usize) -> usize {
    let number = class as u64 * 40503 + name as u64 * 34283;
    number as usize & count.saturating_sub(1)
}

/// What a slot says, where there is one of that number and it is filled.
#[inline(always)]
fn filled_slot<'a>(slots: &'a [Option<Found>], at: usize) -> Option<&'a Found>
    ensures filled { IfSome result (λ f. slice_index_or slots.now at None ≡ Some f.now) }
    ensures inside { IfSome result (λ f. at < length slots.now) }
{
    if at >= slots.len() {
        return None;
    }
    match &slots[at] {
        None => None,
        Some(found) => Some(found),
    }
}

/// What a slot says of a name of a class, from the place on, where the first of them mostly does.
#[inline(always)]
fn look<'a>(
    program: &CoreProgram,
    slots: &'a [Option<Found>],
    at: usize,
    class: u32,
    name: u32,
) -> Option<&'a Found>
    requires { AreFound (v.program program.now) slots.now }
    ensures found { IfSome result (λ f. IsFound (v.program program.now) f.now) }
    ensures same { IfSome result (λ f. (f.now.class ≡ class) × (f.now.name ≡ name)) }
{
    let Some(found) = filled_slot(slots, at) else {
        return None;
    };
    if found.class == class && found.name == name {
        return Some(found);
    }
    seek(program, slots, at + 1, TRIES - 1, class, name)
}

/// What a slot says of a name of a class, from the place on.
#[tactic(auto, using(crate::proofs::Table::slot_says))]
fn seek<'a>(
    program: &CoreProgram,
    slots: &'a [Option<Found>],
    at: usize,
    tries: u32,
    class: u32,
    name: u32,
) -> Option<&'a Found>
    requires { AreFound (v.program program.now) slots.now }
    ensures found { IfSome result (λ f. IsFound (v.program program.now) f.now) }
    ensures same { IfSome result (λ f. (f.now.class ≡ class) × (f.now.name ≡ name)) }
{
    if tries == 0 {
        return None;
    }
    let Some(found) = filled_slot(slots, at) else {
        return None;
    };
    if found.class == class && found.name == name {
        return Some(found);
    }
    seek(program, slots, at + 1, tries - 1, class, name)
}

/// What the chain of a class says of a name.
fn look_up(program: &CoreProgram, class: u32, name: u32) -> Found
    ensures { IsFound (v.program program.now) result }
{
    let method = member(program, class, name, Role::Method);
    let getter = member(program, class, name, Role::Getter);
    let setter = member(program, class, name, Role::Setter);
    Found {
        class,
        name,
        method,
        getter,
        setter,
        operand: site_of_member(program, method),
        operator: native_of_member(program, method),
        reads: reading_of_member(program, getter),
        writes: writing_of_member(program, setter),
    }
}

/// Where a name of a class may be written, from the place on: `None` where it is there already, or no slot is free.
fn free_slot(
    slots: &[Option<Found>],
    at: usize,
    tries: u32,
    class: u32,
    name: u32,
) -> Option<usize> {
    if tries == 0 {
        return None;
    }
    if at >= slots.len() {
        return None;
    }
    let Some(found) = filled_slot(slots, at) else {
        return Some(at);
    };
    if found.class == class && found.name == name {
        return None;
    }
    free_slot(slots, at + 1, tries - 1, class, name)
}

/// Writes what a name of a class comes to, where a slot is free.
fn put(slots: &mut [Option<Found>], program: &CoreProgram, class: u32, name: u32)
    requires { AreFound (v.program program.now) slots.old }
    ensures { AreFound (v.program program.now) slots.new }
{
    let at = place(class, name, slots.len());
    let Some(free) = free_slot(slots, at, TRIES, class, name) else {
        return;
    };
    if free < slots.len() {
        slots[free] = Some(look_up(program, class, name));
    }
}

/// Writes the names of members for a class.
fn put_members(slots: &mut [Option<Found>], program: &CoreProgram, class: u32, members: &[MemberId])
    requires { AreFound (v.program program.now) slots.old }
    ensures { AreFound (v.program program.now) slots.new }
{
    for one in members {
        if let Some(info) = member_at(program, one.0) {
            put(slots, program, class, info.name.0);
        }
    }
}

/// Writes the names that a class and those above it declare for another class.
fn put_names(slots: &mut [Option<Found>], program: &CoreProgram, class: u32, from: u32, levels: u32)
    requires { AreFound (v.program program.now) slots.old }
    ensures { AreFound (v.program program.now) slots.new }
{
    if levels == 0 {
        return;
    }
    if let Some(info) = class_at(program, from) {
        put_members(slots, program, class, info.members.as_slice());
    }
    if let Some(above) = superclass(program, from) {
        put_names(slots, program, class, above, levels - 1);
    }
}

/// How many members a class and those above it declare.
fn member_count(program: &CoreProgram, from: u32, levels: u32) -> usize {
    if levels == 0 {
        return 0;
    }
    let own = match class_at(program, from) {
        None => 0,
        Some(info) => info.members.len(),
    };
    match superclass(program, from) {
        None => own,
        Some(above) => own.saturating_add(member_count(program, above, levels - 1)),
    }
}

/// How many slots a program's table has: a power of two, up to 2^16.
fn slot_count(program: &CoreProgram, classes: u32) -> usize {
    let mut names: usize = 0;
    for class in 0..classes {
        names = names.saturating_add(member_count(program, class, LEVELS));
    }
    let mut count: usize = 64;
    for _ in 0..10 {
        if count / 2 < names {
            count = count.saturating_mul(2);
        }
    }
    count
}

/// So many slots that say nothing.
fn empty_slots(alloc: Global, count: usize) -> Result<Vec<Option<Found>>, AllocError>
    ensures { IfOk result (λ slots. slots.items ≡ replicate count None) }
{
    let mut slots: Vec<Option<Found>> = Vec::new(alloc);
    slots.resize(count, None)?;
    Ok(slots)
}

/// A table with the names of each class.
#[tactic(auto, using(crate::proofs::Table::none_found))]
fn filled(alloc: Global, program: &CoreProgram) -> Result<Vec<Option<Found>>, AllocError>
    ensures { IfOk result (λ slots. AreFound (v.program program.now) slots.items) }
{
    let Ok(classes) = u32::try_from(program.classes.classes.len()) else {
        return Ok(Vec::new(alloc));
    };
    let mut slots = empty_slots(alloc, slot_count(program, classes))?;
    for class in 0..classes {
        put_names(&mut slots, program, class, class, LEVELS);
    }
    Ok(slots)
}
