// The header of a class: its type parameters, and the types that it names (ECMA-408, 10.9 Superclasses, 10.10 Superinterfaces,
// 12 Mixins, 14 Generics).
#![tactic(auto, unfolding(lower_leaf::specs::Around::ty))]

ghost use Rattle.std.specs.Prelude.{◌≡◌, map, IfOk};
ghost use Rattle.dart_tree.specs.Lists.{type_list_of};
ghost use Rattle.dart_tree.specs.UnitView as unit_view;
ghost use Rattle.dart_tree.specs.View as view;
ghost use Rattle.lower_leaf.specs.Around.{ty};
ghost use Rattle.lower_leaf.specs.Seen.{seen};
ghost use Rattle.class_source.specs.Headers as h;
ghost use Rattle.class_source.specs.View as shown;
ghost use Rattle.class_reader.specs.Seen.{bounds_of, clauses, header_types};

use class_fault::program::HeaderType;
use dart_base::place::Place;
use dart_ir::types::TypeRef;
use dart_tree::declaration::{
    Bound, ClassKind, Superclass, TypeClause, TypeParameter, TypeParameters,
};
use dart_tree::types::{TypeArgument, TypeNode};
use lower_leaf::fault::Want;
use lower_leaf::name::place_of;
use lower_leaf::state::State;
use lower_leaf::surroundings::Surroundings;
use lower_leaf::types::{or_dynamic, type_of};
use std::alloc::Global;

/// What a header names.
#[derive(Drop)]
pub struct Clauses {
    /// None where the header names none.
    pub superclass: Option<HeaderType>,
    pub mixins: Vec<HeaderType>,
    pub interfaces: Vec<HeaderType>,
}

/// What the header of a class says.
#[derive(Drop)]
pub struct Heading {
    /// The bound of each type parameter, where it has one.
    pub bounds: Vec<Option<TypeRef>>,
    pub clauses: Clauses,
}

// The first token of a type.
fn place_of_type(node: &TypeNode) -> Place
    ensures { result ≡ h.place_of_type (view.type_node node.now) }
{
    match node {
        TypeNode::Dynamic(place) => *place,
        TypeNode::Named {
            name,
            member: _,
            arguments: _,
        } => place_of(name),
    }
}

// What a type stands for, where a malformed one, or an alias, counts as `dynamic`.
fn type_in<S: Surroundings>(
    alloc: Global,
    outside: &S,
    state: &State,
    node: &TypeNode,
) -> Result<TypeRef, Want>
    ensures { IfOk result (λ made. ty (S.around outside.now) made
        ≡ h.type_in (seen (S.around outside.now) state.now) (view.type_node node.now)) }
{
    let of = type_of(alloc, outside, state, false, node)?;
    Ok(or_dynamic(outside, of))
}

// A type that a header names, at the place of its name.
fn header_type<S: Surroundings>(
    alloc: Global,
    outside: &S,
    state: &State,
    node: &TypeNode,
) -> Result<HeaderType, Want>
    ensures { IfOk result (λ made. shown.header_type (S.around outside.now).texts made
        ≡ h.header_type (seen (S.around outside.now) state.now) (view.type_node node.now)) }
{
    let of = type_in(alloc, outside, state, node)?;
    Ok(HeaderType {
        place: place_of_type(node),
        of,
    })
}

// The types of a list, in source order.
fn types_of<S: Surroundings>(
    alloc: Global,
    outside: &S,
    state: &State,
    all: &Vec<TypeArgument>,
) -> Result<Vec<HeaderType>, Want>
    ensures { IfOk result (λ made. header_types (S.around outside.now) made
        ≡ h.header_types (seen (S.around outside.now) state.now) (type_list_of all.now.items)) }
{
    let mut made = Vec::new(alloc);
    for one in all {
        let of = header_type(alloc, outside, state, &one.argument)?;
        made.push(of)?;
    }
    Ok(made)
}

// The types of a clause, where it is written.
fn clause_types<S: Surroundings>(
    alloc: Global,
    outside: &S,
    state: &State,
    clause: &Option<TypeClause>,
) -> Result<Vec<HeaderType>, Want>
    ensures { IfOk result (λ made. header_types (S.around outside.now) made
        ≡ h.clause_types (seen (S.around outside.now) state.now) (unit_view.maybe unit_view.type_clause clause.now)) }
{
    match clause {
        None => Ok(Vec::new(alloc)),
        Some(clause) => types_of(alloc, outside, state, &clause.types),
    }
}

// The superclass, where one is written.
fn superclass_of<S: Surroundings>(
    alloc: Global,
    outside: &S,
    state: &State,
    above: &Option<Superclass>,
) -> Result<Option<HeaderType>, Want>
    ensures { IfOk result (λ made. shown.superclass (S.around outside.now).texts made
        ≡ h.superclass_of (seen (S.around outside.now) state.now) (unit_view.maybe unit_view.superclass above.now)) }
{
    match above {
        None => Ok(None),
        Some(above) => {
            let of = header_type(alloc, outside, state, &above.superclass)?;
            Ok(Some(of))
        }
    }
}

// The mixins that are applied to the superclass (12.1 Mixin Application).
fn mixins_of<S: Surroundings>(
    alloc: Global,
    outside: &S,
    state: &State,
    above: &Option<Superclass>,
) -> Result<Vec<HeaderType>, Want>
    ensures { IfOk result (λ made. header_types (S.around outside.now) made
        ≡ h.mixins_of (seen (S.around outside.now) state.now) (unit_view.maybe unit_view.superclass above.now)) }
{
    match above {
        None => Ok(Vec::new(alloc)),
        Some(above) => clause_types(alloc, outside, state, &above.mixins),
    }
}

/// What the header of a class names. A malformed type, an alias, a type parameter and `dynamic` are no class.
pub fn clauses_of<S: Surroundings>(
    alloc: Global,
    outside: &S,
    state: &State,
    kind: &ClassKind,
) -> Result<Clauses, Want>
    ensures { IfOk result (λ made. clauses (S.around outside.now) made
        ≡ h.named (seen (S.around outside.now) state.now) (unit_view.class_kind kind.now)) }
{
    match kind {
        ClassKind::Declared {
            superclass,
            interfaces,
            opening: _,
            members: _,
            closing: _,
        } => {
            let above = superclass_of(alloc, outside, state, superclass)?;
            let mixins = mixins_of(alloc, outside, state, superclass)?;
            let interfaces = clause_types(alloc, outside, state, interfaces)?;
            Ok(Clauses {
                superclass: above,
                mixins,
                interfaces,
            })
        }
        ClassKind::Mixed {
            equals: _,
            superclass,
            mixins,
            interfaces,
            semicolon: _,
        } => {
            let above = header_type(alloc, outside, state, superclass)?;
            let mixins = types_of(alloc, outside, state, &mixins.types)?;
            let interfaces = clause_types(alloc, outside, state, interfaces)?;
            Ok(Clauses {
                superclass: Some(above),
                mixins,
                interfaces,
            })
        }
    }
}

// The bound of a type parameter, where it has one.
fn bound<S: Surroundings>(
    alloc: Global,
    outside: &S,
    state: &State,
    of: &Option<Bound>,
) -> Result<Option<TypeRef>, Want>
    ensures { IfOk result (λ made. shown.bound (S.around outside.now).texts made
        ≡ h.bound (seen (S.around outside.now) state.now) (unit_view.maybe unit_view.bound of.now)) }
{
    match of {
        None => Ok(None),
        Some(of) => {
            let made = type_in(alloc, outside, state, &of.bound)?;
            Ok(Some(made))
        }
    }
}

/// The bound of each type parameter, where it has one.
pub fn bounds<S: Surroundings>(
    alloc: Global,
    outside: &S,
    state: &State,
    parameters: &Option<TypeParameters>,
) -> Result<Vec<Option<TypeRef>>, Want>
    ensures { IfOk result (λ made. map (shown.bound (S.around outside.now).texts) made.items
        ≡ h.bounds (seen (S.around outside.now) state.now) (unit_view.maybe unit_view.type_parameters parameters.now)) }
{
    match parameters {
        None => Ok(Vec::new(alloc)),
        Some(parameters) => bounds_of(alloc, outside, state, &parameters.items),
    }
}

fn bounds_of<S: Surroundings>(
    alloc: Global,
    outside: &S,
    state: &State,
    all: &Vec<TypeParameter>,
) -> Result<Vec<Option<TypeRef>>, Want>
    ensures { IfOk result (λ made. map (shown.bound (S.around outside.now).texts) made.items
        ≡ bounds_of (seen (S.around outside.now) state.now) all.now.items) }
{
    let mut made = Vec::new(alloc);
    for one in all {
        let of = bound(alloc, outside, state, &one.bound)?;
        made.push(of)?;
    }
    Ok(made)
}
