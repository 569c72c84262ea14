// Cases, and a switch from its parts (ECMA-408, 17.9 Switch).
#![tactic(auto, using(crate::proofs::Trees::value_trees, crate::proofs::Rest::steps), unfolding(translation::specs::Walk::on))]

ghost use Rattle.lower_clause.specs.Jumps.{case_labels, all_forms};
ghost use Rattle.dart_ir.specs.Ty.{class, nil};
ghost use Rattle.dart_tree.specs.Lists.{switch_parts_of};
ghost use Rattle.lower_clause.specs.Parts.{case, all_cases, case_core, case_kind, option_value, switch_core};
ghost use Rattle.lower_function.specs.Literals.{literal, value};
ghost use Rattle.lower_leaf.specs.Around.{ty};
ghost use Rattle.lower_leaf.specs.Forms.{core};
ghost use Rattle.lower_leaf.specs.Gives.{Gives};
ghost use Rattle.lower_leaf.specs.Seen.{seen, asked};
ghost use Rattle.std.specs.Prelude.{◌≡◌, IfOk};
ghost use Rattle.dart_tree.specs.View as view;
ghost use Rattle.translation.specs.Statements as s;

use crate::jump::labels_of;
use core_program::form::{Case, Core, Form};
use dart_base::bytes::Bytes;
use dart_base::place::Place;
use dart_ir::number::ClassId;
use dart_ir::types::TypeRef;
use dart_ir::value::Value;
use dart_tree::expression::Value as Given;
use dart_tree::statement::SwitchPart;
use lower_function::literal::{Literal, literal_of};
use lower_leaf::fault::{LowerFault, Want};
use lower_leaf::first::first_of_expr;
use lower_leaf::form::block;
use lower_leaf::site::unasked;
use lower_leaf::state::{Asked, State, with_literal};
use lower_leaf::surroundings::Surroundings;
use lower_string::integer::integer;
use std::alloc::Global;

/// What all cases are.
#[derive(Clone, Copy, Debug, PartialEq, Eq)]
pub enum CaseKind {
    /// There is none, or it is neither.
    Missing,
    Integers,
    Strings,
}

#[tactic(auto, using(crate::proofs::Cased::fitting))]
fn fits_case(kind: CaseKind, of: &Literal<'_>) -> bool
    ensures { result ≡ s.fits_case (case_kind kind) (literal of.now) }
{
    match of {
        Literal::Integer(_) => match kind {
            CaseKind::Strings => false,
            CaseKind::Integers => true,
            CaseKind::Missing => true,
        },
        Literal::Text(_) => match kind {
            CaseKind::Integers => false,
            CaseKind::Strings => true,
            CaseKind::Missing => true,
        },
        Literal::Missing => false,
        Literal::Null => false,
        Literal::Bool(_) => false,
        Literal::Negative(_) => false,
    }
}

fn kind_of_literal(of: &Literal<'_>) -> CaseKind
    ensures { case_kind result ≡ s.kind_of_literal (literal of.now) }
{
    match of {
        Literal::Integer(_) => CaseKind::Integers,
        Literal::Text(_) => CaseKind::Strings,
        Literal::Missing => CaseKind::Missing,
        Literal::Null => CaseKind::Missing,
        Literal::Bool(_) => CaseKind::Missing,
        Literal::Negative(_) => CaseKind::Missing,
    }
}

/// The kind of the first case.
pub fn kind_of_cases(alloc: Global, parts: &Vec<SwitchPart>) -> Result<CaseKind, Want>
    ensures { IfOk result (λ kind. case_kind kind ≡ s.kind_of_cases (switch_parts_of parts.now.items)) }
{
    for one in parts {
        match &one.value {
            Given::Omitted => {}
            Given::Given(_, tree) => {
                let of = literal_of(alloc, tree)?;
                return Ok(kind_of_literal(&of));
            }
        }
    }
    Ok(CaseKind::Missing)
}

/// The labels of each case.
pub fn labels_of_cases(alloc: Global, parts: &Vec<SwitchPart>) -> Result<Vec<Vec<Bytes>>, Want>
    ensures { IfOk result (λ made. case_labels made ≡ s.labels_of_cases (switch_parts_of parts.now.items)) }
{
    let mut found = Vec::new(alloc);
    for one in parts {
        found.push(labels_of(alloc, &one.labels)?)?;
    }
    Ok(found)
}

// The type of a class without type arguments.
#[tactic(auto, using(lower_leaf::proofs::TypeLaws::type_views), unfolding(lower_leaf::specs::Around::ty))]
fn class_type<S: Surroundings>(alloc: Global, outside: &S, of: ClassId) -> TypeRef
    ensures { ty (S.around outside.now) result ≡ class of.0 nil }
{
    TypeRef::Class(of, Vec::new(alloc))
}

/// The class of the cases, which erasure keeps.
pub fn asked_of_cases<S: Surroundings>(
    alloc: Global,
    outside: &S,
    state: &State,
    kind: CaseKind,
) -> Asked
    ensures { asked (S.around outside.now) result ≡ s.asked_of_cases (case_kind kind) (seen (S.around outside.now) state.now) }
{
    match kind {
        CaseKind::Missing => unasked(),
        CaseKind::Integers => Asked {
            of: Some(class_type(alloc, outside, outside.int_class())),
            annotated: false,
        },
        CaseKind::Strings => Asked {
            of: Some(class_type(alloc, outside, outside.string_class())),
            annotated: false,
        },
    }
}

fn case_literal<S: Surroundings>(
    outside: &S,
    state: &mut State,
    of: Literal<'_>,
) -> Result<Value, LowerFault>
    ensures { Gives value result (seen (S.around outside.now) state.new)
        (s.case_literal (literal of.entry) (seen (S.around outside.now) state.old)) }
{
    match of {
        Literal::Text(units) => Ok(Value::Literal(with_literal(outside, state, units)?)),
        Literal::Integer(text) => Ok(integer(text.as_slice())?),
        Literal::Missing => Ok(Value::Null),
        Literal::Null => Ok(Value::Null),
        Literal::Bool(_) => Ok(Value::Null),
        Literal::Negative(_) => Ok(Value::Null),
    }
}

/// The value of a case, none for the default.
pub fn case_value<S: Surroundings>(
    alloc: Global,
    outside: &S,
    state: &mut State,
    kind: CaseKind,
    tree: &Given,
) -> Result<Option<Value>, LowerFault>
    ensures { Gives option_value result (seen (S.around outside.now) state.new)
        (s.case_value (case_kind kind) (view.value tree.now) (seen (S.around outside.now) state.old)) }
{
    match tree {
        Given::Omitted => Ok(None),
        Given::Given(_, tree) => {
            let of = literal_of(alloc, tree)?;
            if !fits_case(kind, &of) {
                return Err(LowerFault::BadSwitch(first_of_expr(tree)));
            }
            Ok(Some(case_literal(outside, state, of)?))
        }
    }
}

/// A switch from its parts.
#[tactic(auto, using(crate::proofs::Formed::formed), unfolding(lower_leaf::specs::Forms::core, lower_leaf::specs::Forms::part, lower_leaf::specs::Around::ty, crate::specs::Parts::case, crate::specs::Parts::handler, crate::specs::Parts::handler_test))]
pub fn switch_core<S: Surroundings>(
    alloc: Global,
    outside: &S,
    place: Place,
    target: u32,
    value: Core,
    cases: Vec<Case>,
) -> Result<Core, Want>
    ensures { IfOk result (λ made. core (S.around outside.now) made
        ≡ switch_core place target (core (S.around outside.now) value) (all_cases (S.around outside.now) cases)) }
{
    let value = Box::new(alloc, value)?;
    Ok(Core {
        place,
        form: Form::Switch {
            target,
            value,
            cases,
        },
    })
}

/// A case, whose statements are one block.
#[tactic(auto, using(crate::proofs::Formed::formed), unfolding(lower_leaf::specs::Forms::core, lower_leaf::specs::Forms::part, lower_leaf::specs::Around::ty, crate::specs::Parts::case, crate::specs::Parts::handler, crate::specs::Parts::handler_test))]
pub fn case_of<S: Surroundings>(
    outside: &S,
    place: Place,
    value: Option<Value>,
    forms: Vec<Core>,
) -> Case
    ensures { case (S.around outside.now) result ≡ case_core place value (all_forms (S.around outside.now) forms) }
{
    Case {
        value,
        body: block(outside, place, forms),
    }
}
