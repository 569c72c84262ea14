// What has been made, and what is in scope.
#![tactic(auto, using(crate::proofs::Steps::steps), unfolding(translation::specs::Walk::on, translation::specs::Walk::leaving))]

ghost use Rattle.std.specs.Prelude.{◌≡◌, length, map, IfOk, MatchOption, None, Some};
ghost use Rattle.std.specs.Rc.{rc_value};
ghost use Rattle.translation.specs.Walk as w;
ghost use Rattle.lower_leaf.specs.Around.{ty, option_type};
ghost use Rattle.lower_leaf.specs.Gives.{Gives, itself};
ghost use Rattle.lower_leaf.specs.Seen.{seen, asked, entry, left};

use crate::fault::{LowerFault, Want};
use crate::meaning::Outer;
use crate::surroundings::Surroundings;
use core_program::program::{Function, Site, StaticVar};
use dart_base::bytes::Bytes;
use dart_base::units::Units;
use dart_ir::number::{ClassId, DeclId};
use dart_ir::types::{TypeRef, Types};
use std::alloc::Global;
use std::rc::Rc;

/// The type that a declaration asks for, and whether an annotation wrote it.
#[derive(Drop)]
pub struct Asked {
    pub of: Option<TypeRef>,
    pub annotated: bool,
}

/// A name that a local scope declares.
#[derive(Drop)]
pub struct Entry {
    pub name: Bytes,
    pub variable: u32,
    pub asked: Asked,
    pub is_final: bool,
}

/// What a statement is for a jump (ECMA-408, 17.13 Labels).
#[derive(Drop)]
pub enum TargetKind {
    Loop,
    /// The labels of each case.
    Switch(Vec<Vec<Bytes>>),
    /// A statement with labels that is neither.
    Another,
}

/// A statement that a jump may leave, or go on with.
#[derive(Drop)]
pub struct Target {
    pub labels: Vec<Bytes>,
    pub kind: TargetKind,
}

/// The function or initialiser around.
#[derive(Drop)]
pub struct Inside {
    /// The class whose type parameters may stand there.
    pub class: Option<ClassId>,
    /// In what a mixin application takes from its mixin: the type arguments that it gives the mixin.
    pub arguments: Option<Types>,
    /// Whether there is a `this` (16.11 This).
    pub has_instance: bool,
    /// What a returned value is asked for (17.12 Return).
    pub result: Asked,
    /// Whether a value may be returned.
    pub gives_value: bool,
    /// Whether a handler stands around (17.10 Rethrow).
    pub in_handler: bool,
}

/// A function by the number of its declaration.
#[derive(Drop)]
pub struct NumberedFunction {
    pub number: u32,
    pub made: Function,
}

/// A static or library variable by the number of its declaration.
#[derive(Drop)]
pub struct NumberedStatic {
    pub number: u32,
    pub made: StaticVar,
}

/// What has been made, and what is in scope, the innermost last.
#[derive(Drop)]
pub struct State {
    /// Where names are looked up that no local scope declares.
    pub outer: Outer,
    pub inside: Inside,
    pub scopes: Vec<Rc<Entry>>,
    pub targets: Vec<Target>,
    /// The number of the next variable.
    pub variables: u32,
    /// The number of the next declaration.
    pub declarations: u32,
    pub sites: Vec<Site>,
    /// The units of each string literal.
    pub literals: Vec<Units>,
    pub functions: Vec<NumberedFunction>,
    pub statics: Vec<NumberedStatic>,
    /// Whether a `const` or an `enum` was met.
    pub has_constants: bool,
}

/// A new variable without a name.
pub fn fresh<S: Surroundings>(outside: &S, state: &mut State) -> Result<u32, LowerFault>
    ensures { Gives itself result (seen (S.around outside.now) state.new) (w.fresh (seen (S.around outside.now) state.old)) }
{
    let variable = state.variables;
    let Some(next) = variable.checked_add(1) else {
        return Err(LowerFault::Memory);
    };
    state.variables = next;
    Ok(variable)
}

/// A new variable, which is in scope from here on.
pub fn declared<S: Surroundings>(
    alloc: Global,
    outside: &S,
    state: &mut State,
    name: Bytes,
    wanted: Asked,
    is_final: bool,
) -> Result<u32, LowerFault>
    ensures { Gives itself result (seen (S.around outside.now) state.new)
        (w.declared name (asked (S.around outside.now) wanted) is_final (seen (S.around outside.now) state.old)) }
{
    let variable = state.variables;
    let Some(next) = variable.checked_add(1) else {
        return Err(LowerFault::Memory);
    };
    let entry = Rc::new(
        alloc,
        Entry {
            name,
            variable,
            asked: wanted,
            is_final,
        },
    )?;
    state.scopes.push(entry)?;
    state.variables = next;
    Ok(variable)
}

/// How many names are in scope.
pub fn depth<S: Surroundings>(outside: &S, state: &State) -> usize
    ensures { result ≡ length (seen (S.around outside.now) state.now).scopes }
{
    state.scopes.len()
}

/// What was declared behind the first names is out of scope.
pub fn leave_scope<S: Surroundings>(outside: &S, state: &mut State, depth: usize)
    ensures { seen (S.around outside.now) state.new ≡ left depth (seen (S.around outside.now) state.old) }
{
    state.scopes.truncate(depth);
}

/// The last entry of the name.
pub fn entry_of<'a, S: Surroundings>(
    outside: &S,
    state: &'a State,
    name: &[u8],
) -> Option<&'a Rc<Entry>>
    ensures { MatchOption result (w.entry_of (seen (S.around outside.now) state.now) name.now ≡ None)
        (λ found. w.entry_of (seen (S.around outside.now) state.now) name.now ≡ Some (entry (S.around outside.now) (rc_value found.now))) }
{
    let mut best = None;
    for one in &state.scopes {
        if one.name.as_slice() == name {
            best = Some(one);
        }
    }
    best
}

/// A string literal, in units of UTF-16.
pub fn with_literal<S: Surroundings>(
    outside: &S,
    state: &mut State,
    units: Units,
) -> Result<u32, LowerFault>
    ensures { Gives itself result (seen (S.around outside.now) state.new)
        (w.with_literal units (seen (S.around outside.now) state.old)) }
{
    let Ok(number) = u32::try_from(state.literals.len()) else {
        return Err(LowerFault::Memory);
    };
    state.literals.push(units)?;
    Ok(number)
}

/// An equal type.
#[tactic(auto, unfolding(crate::specs::Around::ty))]
pub fn clone_type<S: Surroundings>(
    alloc: Global,
    outside: &S,
    of: &TypeRef,
) -> Result<TypeRef, Want>
    ensures { IfOk result (λ made. ty (S.around outside.now) made ≡ ty (S.around outside.now) of.now) }
{
    Ok(of.try_clone(alloc)?)
}

fn clone_option<S: Surroundings>(
    alloc: Global,
    outside: &S,
    of: &Option<TypeRef>,
) -> Result<Option<TypeRef>, Want>
    ensures { IfOk result (λ made. option_type (S.around outside.now) made ≡ option_type (S.around outside.now) of.now) }
{
    match of {
        None => Ok(None),
        Some(of) => Ok(Some(clone_type(alloc, outside, of)?)),
    }
}

/// What is asked for, again.
pub fn clone_asked<S: Surroundings>(
    alloc: Global,
    outside: &S,
    wanted: &Asked,
) -> Result<Asked, Want>
    ensures { IfOk result (λ made. asked (S.around outside.now) made ≡ asked (S.around outside.now) wanted.now) }
{
    let of = clone_option(alloc, outside, &wanted.of)?;
    Ok(Asked {
        of,
        annotated: wanted.annotated,
    })
}
