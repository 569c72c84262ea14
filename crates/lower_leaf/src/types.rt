// What types stand for where they are written, and what annotations ask for (ECMA-408, 19.1 Static Types).
#![tactic(auto, using(crate::proofs::TypeLaws::type_views, crate::proofs::Trees::trees, crate::proofs::Steps::type_steps), unfolding(crate::specs::Around::ty))]

ghost use Rattle.std.specs.Prelude.{◌≡◌, replicate, slice_get, Some, None, IfOk, MatchOption};
ghost use Rattle.std.specs.Option.{unwrap_or};
ghost use Rattle.dart_ir.specs.Ty.{dynamic, class, parameter};
ghost use Rattle.dart_tree.specs.Lists.{type_list_of};
ghost use Rattle.dart_tree.specs.View as view;
ghost use Rattle.translation.specs.Surroundings.{name_in};
ghost use Rattle.translation.specs.Types as y;
ghost use Rattle.lower_leaf.specs.Around.{ty, types, meaning};
ghost use Rattle.lower_leaf.specs.Kept.{aliases_of, typed};
ghost use Rattle.lower_leaf.specs.Seen.{seen, asked};

use crate::fault::Want;
use crate::meaning::Meaning;
use crate::name::{own_text, text_of};
use crate::site::unasked;
use crate::state::{Asked, State, clone_type, entry_of};
use crate::surroundings::Surroundings;
use dart_base::bytes::Bytes;
use dart_ir::number::{ClassId, DeclId};
use dart_ir::types::{TypeRef, Types};
use dart_tree::identifier::{DotName, Identifier};
use dart_tree::parameter::VariableKind;
use dart_tree::types::{ResultType, TypeArgument, TypeArguments, TypeNode};
use std::alloc::Global;

/// What a type stands for, or that it is malformed, with the last id of its name.
#[derive(Drop)]
pub enum Typed {
    WellFormed(TypeRef),
    Malformed(Bytes),
}

/// What a name means: a local one hides what is outside, and is no type.
pub fn meaning_of<S: Surroundings>(outside: &S, state: &State, name: &[u8]) -> Meaning
    ensures { meaning result ≡ y.meaning_of (seen (S.around outside.now) state.now) name.now }
{
    match entry_of(outside, state, name) {
        Some(_) => Meaning::Unknown,
        None => outside.meaning(state.outer, name),
    }
}

/// What the name of a type means.
pub fn type_meaning<S: Surroundings>(
    outside: &S,
    state: &State,
    name: &Identifier,
    member: &Option<DotName>,
) -> Meaning
    ensures { meaning result ≡ y.type_meaning (seen (S.around outside.now) state.now) (y.word_of name.now) (y.option_word member.now) }
{
    let first = meaning_of(outside, state, text_of(name));
    match member {
        None => first,
        Some(second) => match first {
            Meaning::Prefix => {
                outside.prefixed(state.outer, text_of(name), text_of(&second.name))
            }
            _ => Meaning::Unknown,
        },
    }
}

// So many times `dynamic`.
fn all_dynamic<S: Surroundings>(alloc: Global, outside: &S, count: u32) -> Result<Types, Want>
    ensures { IfOk result (λ made. types (S.around outside.now) made.items ≡ replicate count dynamic) }
{
    let mut made = Vec::new(alloc);
    for _one in 0..count {
        made.push(TypeRef::Dynamic)?;
    }
    Ok(made)
}

/// The type arguments, or all `dynamic` where they are of a wrong number.
pub fn fitting<S: Surroundings>(
    alloc: Global,
    outside: &S,
    count: u32,
    given: Types,
) -> Result<Types, Want>
    ensures { IfOk result (λ made. types (S.around outside.now) made.items ≡ y.fitting count (types (S.around outside.now) given.items)) }
{
    if given.len() == count as usize {
        return Ok(given);
    }
    all_dynamic(alloc, outside, count)
}

/// A class with its type arguments.
pub fn class_type<S: Surroundings>(
    alloc: Global,
    outside: &S,
    of: ClassId,
    given: Types,
) -> Result<TypeRef, Want>
    ensures { IfOk result (λ made. ty (S.around outside.now) made
        ≡ class of.0 (y.tys (y.fitting ((S.around outside.now).tables.parameters of.0) (types (S.around outside.now) given.items)))) }
{
    let given = fitting(alloc, outside, outside.parameters(of), given)?;
    Ok(TypeRef::Class(of, given))
}

// What an alias stands for: where aliases don't count, `dynamic`.
fn alias_type<S: Surroundings>(
    alloc: Global,
    outside: &S,
    aliases: bool,
    of: DeclId,
    given: Types,
) -> Result<TypeRef, Want>
    ensures { IfOk result (λ made. ty (S.around outside.now) made
        ≡ aliases_of (S.around outside.now) aliases of.0 (types (S.around outside.now) given.items)) }
{
    if !aliases {
        return Ok(TypeRef::Dynamic);
    }
    outside.alias_type(alloc, of, given)
}

// A malformed type, with its name.
fn malformed<S: Surroundings>(
    alloc: Global,
    outside: &S,
    state: &State,
    name: &[u8],
) -> Result<Typed, Want>
    ensures { IfOk result (λ made. typed (S.around outside.now) made
        ≡ y.malformed (name_in (seen (S.around outside.now) state.now).names.library name.now)) }
{
    Ok(Typed::Malformed(own_text(alloc, outside, state.outer, name)?))
}

// The type argument of the number.
fn argument_at(given: &[TypeRef], index: u32) -> Option<&TypeRef>
    ensures { MatchOption result (slice_get given.now index ≡ None) (λ found. slice_get given.now index ≡ Some found.now) }
{
    given.get(index as usize)
}

// The type `dynamic`.
fn dynamic_type<S: Surroundings>(outside: &S) -> TypeRef
    ensures { ty (S.around outside.now) result ≡ dynamic }
{
    TypeRef::Dynamic
}

// The type argument of the number, `dynamic` where there is none.
#[tactic(auto, using(crate::proofs::TypeLaws::argument_laws))]
fn argument_of<S: Surroundings>(
    alloc: Global,
    outside: &S,
    given: &[TypeRef],
    index: u32,
) -> Result<TypeRef, Want>
    ensures { IfOk result (λ made. ty (S.around outside.now) made
        ≡ unwrap_or (slice_get (types (S.around outside.now) given.now) index) dynamic) }
{
    match argument_at(given, index) {
        None => Ok(dynamic_type(outside)),
        Some(of) => clone_type(alloc, outside, of),
    }
}

// A type parameter.
fn parameter_type<S: Surroundings>(outside: &S, index: u32) -> TypeRef
    ensures { ty (S.around outside.now) result ≡ parameter index }
{
    TypeRef::Param(index)
}

/// What a type parameter stands for: itself, or what a mixin application gives its mixin.
#[tactic(auto)]
pub fn argument_in<S: Surroundings>(
    alloc: Global,
    outside: &S,
    state: &State,
    index: u32,
) -> Result<TypeRef, Want>
    ensures { IfOk result (λ made. ty (S.around outside.now) made
        ≡ y.argument_in (seen (S.around outside.now) state.now).inside.arguments index) }
{
    match &state.inside.arguments {
        None => Ok(parameter_type(outside, index)),
        Some(given) => argument_of(alloc, outside, given, index),
    }
}

/// What a name with this meaning and these type arguments stands for as a type.
pub fn typed_as<S: Surroundings>(
    alloc: Global,
    outside: &S,
    state: &State,
    aliases: bool,
    of: Meaning,
    given: Types,
    name: &[u8],
) -> Result<Typed, Want>
    ensures { IfOk result (λ made. typed (S.around outside.now) made
        ≡ y.typed_as (aliases_of (S.around outside.now) aliases) (seen (S.around outside.now) state.now) (meaning of)
        (types (S.around outside.now) given.items)
        (name_in (seen (S.around outside.now) state.now).names.library name.now)) }
{
    match of {
        Meaning::Class(class) => Ok(Typed::WellFormed(class_type(alloc, outside, class, given)?)),
        Meaning::Alias(alias) => {
            let made = alias_type(alloc, outside, aliases, alias, given)?;
            Ok(Typed::WellFormed(made))
        }
        Meaning::TypeParameter(index) => match state.inside.class {
            None => malformed(alloc, outside, state, name),
            Some(_) => Ok(Typed::WellFormed(argument_in(alloc, outside, state, index)?)),
        },
        Meaning::Function(_) => malformed(alloc, outside, state, name),
        Meaning::Variable(_, _) => malformed(alloc, outside, state, name),
        Meaning::Accessors(_, _) => malformed(alloc, outside, state, name),
        Meaning::Member => malformed(alloc, outside, state, name),
        Meaning::Prefix => malformed(alloc, outside, state, name),
        Meaning::Ambiguous => malformed(alloc, outside, state, name),
        Meaning::Unknown => malformed(alloc, outside, state, name),
    }
}

/// The last id of a name with or without a dot.
pub fn last_of<'a>(name: &'a Identifier, member: &'a Option<DotName>) -> &'a Identifier
    ensures { y.word_of result.now ≡ y.last_of (y.word_of name.now) (y.option_word member.now) }
{
    match member {
        None => name,
        Some(second) => &second.name,
    }
}

/// What stands for a type where a malformed one counts as `dynamic`.
pub fn or_dynamic<S: Surroundings>(outside: &S, of: Typed) -> TypeRef
    ensures { ty (S.around outside.now) result ≡ y.or_dynamic (typed (S.around outside.now) of) }
{
    match of {
        Typed::WellFormed(of) => of,
        Typed::Malformed(_) => TypeRef::Dynamic,
    }
}

/// What a type stands for where it is written. Where aliases don't count, each is `dynamic`.
#[cycle(types)]
pub fn type_of<S: Surroundings>(
    alloc: Global,
    outside: &S,
    state: &State,
    aliases: bool,
    node: &TypeNode,
) -> Result<Typed, Want>
    ensures { IfOk result (λ made. typed (S.around outside.now) made
        ≡ y.typed (aliases_of (S.around outside.now) aliases) (seen (S.around outside.now) state.now) (view.type_node node.now)) }
{
    match node {
        TypeNode::Dynamic(_) => Ok(Typed::WellFormed(TypeRef::Dynamic)),
        TypeNode::Named {
            name,
            member,
            arguments,
        } => {
            let given = type_arguments(alloc, outside, state, aliases, arguments)?;
            let of = type_meaning(outside, state, name, member);
            let last = text_of(last_of(name, member));
            typed_as(alloc, outside, state, aliases, of, given, last)
        }
    }
}

/// What type arguments stand for.
#[cycle(types)]
pub fn type_arguments<S: Surroundings>(
    alloc: Global,
    outside: &S,
    state: &State,
    aliases: bool,
    arguments: &TypeArguments,
) -> Result<Types, Want>
    ensures { IfOk result (λ made. types (S.around outside.now) made.items
        ≡ y.type_arguments (aliases_of (S.around outside.now) aliases) (seen (S.around outside.now) state.now)
        (view.type_arguments arguments.now)) }
{
    match arguments {
        TypeArguments::Omitted => Ok(Vec::new(alloc)),
        TypeArguments::Listed {
            opening: _,
            arguments,
            closing: _,
        } => type_list(alloc, outside, state, aliases, arguments),
    }
}

#[cycle(types)]
fn type_list<S: Surroundings>(
    alloc: Global,
    outside: &S,
    state: &State,
    aliases: bool,
    all: &Vec<TypeArgument>,
) -> Result<Types, Want>
    ensures { IfOk result (λ made. types (S.around outside.now) made.items
        ≡ y.type_list (aliases_of (S.around outside.now) aliases) (seen (S.around outside.now) state.now)
        (type_list_of all.now.items)) }
{
    let mut made = Vec::new(alloc);
    for one in all {
        let of = type_of(alloc, outside, state, aliases, &one.argument)?;
        made.push(or_dynamic(outside, of))?;
    }
    Ok(made)
}

/// The type that an annotation asks for; a malformed one counts as `dynamic`.
pub fn annotation_type<S: Surroundings>(
    alloc: Global,
    outside: &S,
    state: &State,
    node: &TypeNode,
) -> Result<TypeRef, Want>
    ensures { IfOk result (λ made. ty (S.around outside.now) made
        ≡ y.annotation_type (seen (S.around outside.now) state.now) (view.type_node node.now)) }
{
    let of = type_of(alloc, outside, state, true, node)?;
    Ok(or_dynamic(outside, of))
}

/// What an annotation asks for.
pub fn asked_of<S: Surroundings>(
    alloc: Global,
    outside: &S,
    state: &State,
    node: &TypeNode,
) -> Result<Asked, Want>
    ensures { IfOk result (λ made. asked (S.around outside.now) made
        ≡ y.asked_of (seen (S.around outside.now) state.now) (Some (view.type_node node.now))) }
{
    let of = annotation_type(alloc, outside, state, node)?;
    Ok(Asked {
        of: Some(of),
        annotated: true,
    })
}

/// What the words before a variable ask of its values (8 Variables).
pub fn asked_of_kind<S: Surroundings>(
    alloc: Global,
    outside: &S,
    state: &State,
    kind: &VariableKind,
) -> Result<Asked, Want>
    ensures { IfOk result (λ made. asked (S.around outside.now) made
        ≡ y.asked_of_kind (seen (S.around outside.now) state.now) (view.variable_kind kind.now)) }
{
    match kind {
        VariableKind::Omitted => Ok(unasked()),
        VariableKind::Var(_) => Ok(unasked()),
        VariableKind::Final(_, None) => Ok(unasked()),
        VariableKind::Final(_, Some(node)) => asked_of(alloc, outside, state, node),
        VariableKind::Const(_, None) => Ok(unasked()),
        VariableKind::Const(_, Some(node)) => asked_of(alloc, outside, state, node),
        VariableKind::Typed(node) => asked_of(alloc, outside, state, node),
    }
}

/// Whether the variable is final.
pub fn is_final(kind: &VariableKind) -> bool
    ensures { result ≡ y.is_final (view.variable_kind kind.now) }
{
    match kind {
        VariableKind::Omitted => false,
        VariableKind::Var(_) => false,
        VariableKind::Final(_, _) => true,
        VariableKind::Const(_, _) => true,
        VariableKind::Typed(_) => false,
    }
}

/// Whether the variable is constant.
pub fn is_const(kind: &VariableKind) -> bool
    ensures { result ≡ y.is_const (view.variable_kind kind.now) }
{
    match kind {
        VariableKind::Omitted => false,
        VariableKind::Var(_) => false,
        VariableKind::Final(_, _) => false,
        VariableKind::Const(_, _) => true,
        VariableKind::Typed(_) => false,
    }
}

/// The type that a function answers.
pub fn result_type<S: Surroundings>(
    alloc: Global,
    outside: &S,
    state: &State,
    of: &Option<ResultType>,
) -> Result<TypeRef, Want>
    ensures { IfOk result (λ made. ty (S.around outside.now) made
        ≡ y.result_type (seen (S.around outside.now) state.now) (view.result_option of.now)) }
{
    match of {
        None => Ok(TypeRef::Dynamic),
        Some(ResultType::Void(_)) => Ok(TypeRef::Void),
        Some(ResultType::Typed(node)) => annotation_type(alloc, outside, state, node),
    }
}

/// What a function asks of the value that it returns: `void` asks for nothing (9 Functions).
pub fn asked_of_result<S: Surroundings>(
    alloc: Global,
    outside: &S,
    state: &State,
    of: &Option<ResultType>,
) -> Result<Asked, Want>
    ensures { IfOk result (λ made. asked (S.around outside.now) made
        ≡ y.asked_of_result (seen (S.around outside.now) state.now) (view.result_option of.now)) }
{
    match of {
        None => Ok(unasked()),
        Some(ResultType::Void(_)) => Ok(Asked {
            of: None,
            annotated: true,
        }),
        Some(ResultType::Typed(node)) => asked_of(alloc, outside, state, node),
    }
}
