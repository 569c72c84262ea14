// Instance methods, getters, setters and operators (ECMA-408, 10.1 Instance Methods, 10.2 Getters, 10.3 Setters).
#![tactic(auto, using(dart_tree::proofs::Rows::view_the_function), unfolding(crate::specs::Seen::signature))]

ghost use Rattle.std.specs.Prelude.{◌≡◌, nat_eq, IfOk};
ghost use Rattle.dart_tree.specs.UnitView as unit_view;
ghost use Rattle.dart_tree.specs.View as view;
ghost use Rattle.dart_ir.specs.declared.class.Role.TheVariants.{Method};
ghost use Rattle.translation.specs.Classes as cl;
ghost use Rattle.translation.specs.Declarations as d;
ghost use Rattle.translation.specs.Surroundings.{name_in};
ghost use Rattle.translation.specs.Types as y;
ghost use Rattle.lower_leaf.specs.Around.{text};
ghost use Rattle.lower_leaf.specs.Seen.{seen};
ghost use Rattle.class_source.specs.Members as m;
ghost use Rattle.class_source.specs.View as shown;
ghost use Rattle.class_reader.specs.Seen.{declared};

use crate::position::{Positions, number_at};
use crate::signature::signature_of;
use class_fault::program::Member;
use dart_base::bytes::Bytes;
use dart_base::place::Place;
use dart_ir::class::Role;
use dart_token::sign::Sign;
use dart_tree::declaration::{Accessor, AccessorKind, OperatorMember, OperatorName};
use dart_tree::identifier::Identifier;
use dart_tree::parameter::Parameters;
use dart_tree::statement::{Body, Function};
use dart_tree::types::ResultType;
use lower_leaf::fault::Want;
use lower_leaf::name::{own_name, place_of, text_of};
use lower_leaf::state::State;
use lower_leaf::surroundings::Surroundings;
use std::alloc::Global;

/// A declared function with its parameters and body.
#[derive(Drop)]
pub struct Declared<'a> {
    pub external: Option<Place>,
    pub name: &'a Identifier,
    pub result_type: &'a Option<ResultType>,
    pub parameters: &'a Parameters,
    pub body: &'a Body,
}

// Whether a body is written.
#[tactic(auto, using(dart_tree::proofs::Rows::view_arrow_body, dart_tree::proofs::Rows::view_block_body, dart_tree::proofs::Rows::view_no_body))]
fn is_written(body: &Body) -> bool
    ensures { result ≡ m.is_written (view.body body.now) }
{
    match body {
        Body::Arrow { .. } => true,
        Body::Block(_) => true,
        Body::Omitted(_) => false,
    }
}

// A function as an instance member. An external one counts as one with a body.
fn function_member<S: Surroundings, P: Positions>(
    alloc: Global,
    outside: &S,
    positions: &P,
    state: &State,
    role: Role,
    x: &Declared<'_>,
) -> Result<Member, Want>
    ensures { IfOk result (λ made. shown.member (S.around outside.now).texts made
        ≡ m.function_member (P.numbers positions.now) (seen (S.around outside.now) state.now) role (declared x.now)) }
{
    let place = place_of(x.name);
    let name = own_name(alloc, outside, state.outer, text_of(x.name))?;
    let function = number_at(positions, place)?;
    let signature = signature_of(alloc, outside, state, x.result_type, x.parameters)?;
    Ok(Member {
        name,
        role,
        function,
        signature,
        place,
        has_body: x.external.is_some() || is_written(x.body),
    })
}

/// A method (10.1 Instance Methods).
pub fn method<S: Surroundings, P: Positions>(
    alloc: Global,
    outside: &S,
    positions: &P,
    state: &State,
    x: &Function,
) -> Result<Member, Want>
    ensures { IfOk result (λ made. shown.member (S.around outside.now).texts made
        ≡ m.function_member (P.numbers positions.now) (seen (S.around outside.now) state.now) Method (d.function_declared (view.function x.now))) }
{
    let of = Declared {
        external: x.external,
        name: &x.name,
        result_type: &x.result_type,
        parameters: &x.parameters,
        body: &x.body,
    };
    function_member(alloc, outside, positions, state, Role::Method, &of)
}

// A getter has no parameters.
fn no_list(alloc: Global, place: Place) -> Parameters
    ensures { view.parameters result ≡ d.no_list place }
{
    Parameters {
        opening: place,
        required: Vec::new(alloc),
        brackets: None,
        optional: Vec::new(alloc),
        closing: place,
    }
}

/// A getter or setter (10.2 Getters and 10.3 Setters).
pub fn accessor<S: Surroundings, P: Positions>(
    alloc: Global,
    outside: &S,
    positions: &P,
    state: &State,
    x: &Accessor,
) -> Result<Member, Want>
    ensures { IfOk result (λ made. shown.member (S.around outside.now).texts made
        ≡ m.function_member (P.numbers positions.now) (seen (S.around outside.now) state.now)
        (m.accessor_role (unit_view.accessor x.now).kind) (d.accessor_declared (unit_view.accessor x.now))) }
{
    match &x.kind {
        AccessorKind::Get(place, name) => {
            let none = no_list(alloc, *place);
            let of = Declared {
                external: x.external,
                name,
                result_type: &x.result_type,
                parameters: &none,
                body: &x.body,
            };
            function_member(alloc, outside, positions, state, Role::Getter, &of)
        }
        AccessorKind::Set {
            word: _,
            name,
            parameters,
        } => {
            let of = Declared {
                external: x.external,
                name,
                result_type: &x.result_type,
                parameters,
                body: &x.body,
            };
            function_member(alloc, outside, positions, state, Role::Setter, &of)
        }
    }
}

// The text of an operator; `-` without parameters has a name of its own (10.1.1 Operators).
#[tactic(auto, using(crate::proofs::Operators::operator_texts))]
fn operator_text(alloc: Global, sign: Sign, without_parameters: bool) -> Result<Bytes, Want>
    ensures { IfOk result (λ made. made ≡ cl.operator_text sign without_parameters) }
{
    if without_parameters && sign == Sign::Minus {
        return Ok(Bytes::from_slice(alloc, b"unary-")?);
    }
    Ok(Bytes::from_slice(alloc, sign.text())?)
}

// The name of an operator, at its first sign.
fn operator_name(
    alloc: Global,
    of: OperatorName,
    without_parameters: bool,
) -> Result<Identifier, Want>
    ensures { IfOk result (λ made. y.word_of made ≡ cl.operator_word of without_parameters) }
{
    match of {
        OperatorName::Sign(place, sign) => {
            let text = operator_text(alloc, sign, without_parameters)?;
            Ok(Identifier::Name(place, text))
        }
        OperatorName::ShiftRight(place, _) => {
            Ok(Identifier::Name(place, Bytes::from_slice(alloc, b">>")?))
        }
        OperatorName::Index(place, _) => {
            Ok(Identifier::Name(place, Bytes::from_slice(alloc, b"[]")?))
        }
        OperatorName::IndexAssign {
            opening,
            closing: _,
            equals: _,
        } => Ok(Identifier::Name(opening, Bytes::from_slice(alloc, b"[]=")?)),
    }
}

// Whether there is no parameter.
#[tactic(auto, using(crate::proofs::Parameters::counted))]
fn has_none(of: &Parameters) -> bool
    ensures { result ≡ nat_eq (d.parameter_count (view.parameters of.now)) 0 }
{
    of.required.is_empty() && of.optional.is_empty()
}

/// An operator (10.1.1 Operators).
pub fn operator<S: Surroundings, P: Positions>(
    alloc: Global,
    outside: &S,
    positions: &P,
    state: &State,
    x: &OperatorMember,
) -> Result<Member, Want>
    ensures { IfOk result (λ made. shown.member (S.around outside.now).texts made
        ≡ m.function_member (P.numbers positions.now) (seen (S.around outside.now) state.now) Method (cl.operator_declared (unit_view.operator_member x.now))) }
{
    let name = operator_name(alloc, x.name, has_none(&x.parameters))?;
    let of = Declared {
        external: x.external,
        name: &name,
        result_type: &x.result_type,
        parameters: &x.parameters,
        body: &x.body,
    };
    function_member(alloc, outside, positions, state, Role::Method, &of)
}
