// The members of classes, and factories (ECMA-408, 10.1 Instance Methods to 10.3 Setters, 10.6.2 Factories, 10.7 Static
// Methods and 10.8 Static Variables).
ghost use Rattle.std.specs.Prelude.{◌≡◌, map, nat_eq, IfOk, OnOk};
ghost use Rattle.dart_tree.specs.UnitView as unit_view;
ghost use Rattle.dart_tree.specs.View as view;
ghost use Rattle.translation.specs.Classes as cl;
ghost use Rattle.translation.specs.Declarations as d;
ghost use Rattle.translation.specs.Types as y;
ghost use Rattle.lower_leaf.specs.Gives.{Gives};
ghost use Rattle.lower_leaf.specs.Nests.{NestsFunction};
ghost use Rattle.lower_leaf.specs.Seen.{seen};
ghost use Rattle.lower_decl.specs.Standings.{standing, declared};
ghost use Rattle.lower_class.specs.Views.{class_around, parts};

use crate::construct::{Parts, generative_constructor, no_parts, redirecting_constructor};
use crate::factory::{factory, redirecting_factory};
use crate::field::{ClassAround, is_static, standing_in};
use crate::value::values_there;
use dart_base::bytes::Bytes;
use dart_base::place::Place;
use dart_token::sign::Sign;
use dart_tree::declaration::{
    Accessor, AccessorKind, Constructor, Member, MemberKind, Modifier, OperatorMember, OperatorName,
};
use dart_tree::identifier::Identifier;
use dart_tree::parameter::Parameters;
use dart_tree::statement::{Body, Function, Variables};
use lower_decl::declare::{Declared, declared_function, no_list};
use lower_decl::standing::{Standing, static_standing};
use lower_decl::variable::variables_declared;
use lower_function::function::numbered;
use lower_leaf::fault::{LowerFault, Want};
use lower_leaf::inner::Inner;
use lower_leaf::state::State;
use lower_leaf::surroundings::Surroundings;
use lower_operand::create::meeting_constant;
use std::alloc::Global;

// A constructor with the number of its declaration (10.6 Constructors).
fn constructor<
    S: Surroundings,
    F: Fn(Global, &S, &mut State, usize, &Parameters, &Body) -> Result<u32, LowerFault>,
>(
    alloc: Global,
    outside: &S,
    inner: &Inner<F>,
    state: &mut State,
    of: &Constructor,
    around: &ClassAround,
    members: &Vec<Member>,
    number: u32,
) -> Result<Parts, LowerFault>
    requires { NestsFunction S.around inner.now.limit (F.pre inner.now.function) (F.post inner.now.function) }
    ensures { Gives (parts (S.around outside.now)) result (seen (S.around outside.now) state.new)
        (cl.constructor (class_around (S.around outside.now) around.now) (map unit_view.member members.now.items) (unit_view.constructor of.now) number (seen (S.around outside.now) state.old)) }
{
    match of {
        Constructor::Generative {
            constant,
            name,
            parameters,
            initializers,
            body,
        } => {
            meeting_constant(outside, state, constant.is_some());
            generative_constructor(
                alloc,
                outside,
                inner,
                state,
                name,
                parameters,
                initializers,
                body,
                around,
                number,
            )
        }
        Constructor::Redirecting {
            name,
            parameters,
            colon: _,
            this,
            constructor: other,
            arguments,
            semicolon: _,
        } => redirecting_constructor(
            alloc, outside, inner, state, name, parameters, *this, other, arguments, around,
            members, number,
        ),
        Constructor::Factory {
            external,
            word: _,
            name,
            parameters,
            body,
        } => factory(
            alloc, outside, inner, state, *external, name, parameters, body, around, number,
        ),
        Constructor::RedirectingFactory {
            external,
            word,
            name: _,
            parameters: _,
            equals: _,
            class: _,
            constructor: _,
            semicolon: _,
        } => redirecting_factory(outside, state, *external, *word, number),
    }
}

// Where a member of the class stands.
fn standing_of<S: Surroundings>(
    alloc: Global,
    outside: &S,
    around: &ClassAround,
    of: Modifier,
) -> Result<Standing, Want>
    ensures { IfOk result (λ made. standing (S.around outside.now) made
        ≡ cl.standing_of (class_around (S.around outside.now) around.now) (cl.is_static of)) }
{
    if is_static(of) {
        return Ok(static_standing());
    }
    standing_in(alloc, outside, around, true)
}

// `external` before `static` counts too.
fn external_of(of: Modifier, written: Option<Place>) -> Option<Place>
    ensures { result ≡ cl.external_of of written }
{
    match of {
        Modifier::ExternalStatic(place, _) => Some(place),
        Modifier::Static(_) => written,
        Modifier::Omitted => written,
    }
}

// The text of an operator; `-` without parameters has a name of its own (10.1.1 Operators).
#[tactic(auto, using(crate::proofs::Operators::operator_texts))]
fn operator_text(alloc: Global, sign: Sign, without_parameters: bool) -> Result<Bytes, Want>
    ensures { IfOk result (λ made. made ≡ cl.operator_text sign without_parameters) }
{
    if without_parameters && sign == Sign::Minus {
        return Ok(Bytes::from_slice(alloc, b"unary-")?);
    }
    Ok(Bytes::from_slice(alloc, sign.text())?)
}

// The name of an operator.
fn operator_name(
    alloc: Global,
    of: OperatorName,
    without_parameters: bool,
) -> Result<Identifier, Want>
    ensures { IfOk result (λ made. y.word_of made ≡ cl.operator_word of without_parameters) }
{
    match of {
        OperatorName::Sign(place, sign) => {
            let text = operator_text(alloc, sign, without_parameters)?;
            Ok(Identifier::Name(place, text))
        }
        OperatorName::ShiftRight(place, _) => {
            Ok(Identifier::Name(place, Bytes::from_slice(alloc, b">>")?))
        }
        OperatorName::Index(place, _) => {
            Ok(Identifier::Name(place, Bytes::from_slice(alloc, b"[]")?))
        }
        OperatorName::IndexAssign {
            opening,
            closing: _,
            equals: _,
        } => Ok(Identifier::Name(opening, Bytes::from_slice(alloc, b"[]=")?)),
    }
}

// Whether there is no parameter.
#[tactic(auto, using(lower_decl::proofs::Parameters::counted))]
fn has_none(of: &Parameters) -> bool
    ensures { result ≡ nat_eq (d.parameter_count (view.parameters of.now)) 0 }
{
    of.required.is_empty() && of.optional.is_empty()
}

// A method, accessor or operator.
fn method<
    S: Surroundings,
    F: Fn(Global, &S, &mut State, usize, &Parameters, &Body) -> Result<u32, LowerFault>,
>(
    alloc: Global,
    outside: &S,
    inner: &Inner<F>,
    state: &mut State,
    x: &Declared<'_>,
    around: &ClassAround,
    modifier: Modifier,
) -> Result<Parts, LowerFault>
    requires { NestsFunction S.around inner.now.limit (F.pre inner.now.function) (F.post inner.now.function) }
    ensures { Gives (parts (S.around outside.now)) result (seen (S.around outside.now) state.new)
        (cl.method (class_around (S.around outside.now) around.now) modifier (declared x.now) (seen (S.around outside.now) state.old)) }
{
    let of = standing_of(alloc, outside, around, modifier)?;
    let made = Declared {
        external: external_of(modifier, x.external),
        name: x.name,
        result_type: x.result_type,
        parameters: x.parameters,
        body: x.body,
    };
    declared_function(alloc, outside, inner, state, &of, &made)?;
    Ok(no_parts(alloc, outside))
}

// A function of the class (10.1 Instance Methods and 10.7 Static Methods).
fn function<
    S: Surroundings,
    F: Fn(Global, &S, &mut State, usize, &Parameters, &Body) -> Result<u32, LowerFault>,
>(
    alloc: Global,
    outside: &S,
    inner: &Inner<F>,
    state: &mut State,
    x: &Function,
    around: &ClassAround,
    modifier: Modifier,
) -> Result<Parts, LowerFault>
    requires { NestsFunction S.around inner.now.limit (F.pre inner.now.function) (F.post inner.now.function) }
    ensures { Gives (parts (S.around outside.now)) result (seen (S.around outside.now) state.new)
        (cl.method (class_around (S.around outside.now) around.now) modifier (d.function_declared (view.function x.now)) (seen (S.around outside.now) state.old)) }
{
    let made = Declared {
        external: x.external,
        name: &x.name,
        result_type: &x.result_type,
        parameters: &x.parameters,
        body: &x.body,
    };
    method(alloc, outside, inner, state, &made, around, modifier)
}

// A getter or setter of the class.
fn accessor<
    S: Surroundings,
    F: Fn(Global, &S, &mut State, usize, &Parameters, &Body) -> Result<u32, LowerFault>,
>(
    alloc: Global,
    outside: &S,
    inner: &Inner<F>,
    state: &mut State,
    x: &Accessor,
    around: &ClassAround,
    modifier: Modifier,
) -> Result<Parts, LowerFault>
    requires { NestsFunction S.around inner.now.limit (F.pre inner.now.function) (F.post inner.now.function) }
    ensures { Gives (parts (S.around outside.now)) result (seen (S.around outside.now) state.new)
        (cl.method (class_around (S.around outside.now) around.now) modifier (d.accessor_declared (unit_view.accessor x.now)) (seen (S.around outside.now) state.old)) }
{
    match &x.kind {
        AccessorKind::Get(place, name) => {
            let none = no_list(alloc, *place);
            let made = Declared {
                external: x.external,
                name,
                result_type: &x.result_type,
                parameters: &none,
                body: &x.body,
            };
            method(alloc, outside, inner, state, &made, around, modifier)
        }
        AccessorKind::Set {
            word: _,
            name,
            parameters,
        } => {
            let made = Declared {
                external: x.external,
                name,
                result_type: &x.result_type,
                parameters,
                body: &x.body,
            };
            method(alloc, outside, inner, state, &made, around, modifier)
        }
    }
}

// An operator (10.1.1 Operators).
fn operator<
    S: Surroundings,
    F: Fn(Global, &S, &mut State, usize, &Parameters, &Body) -> Result<u32, LowerFault>,
>(
    alloc: Global,
    outside: &S,
    inner: &Inner<F>,
    state: &mut State,
    x: &OperatorMember,
    around: &ClassAround,
    modifier: Modifier,
) -> Result<Parts, LowerFault>
    requires { NestsFunction S.around inner.now.limit (F.pre inner.now.function) (F.post inner.now.function) }
    ensures { Gives (parts (S.around outside.now)) result (seen (S.around outside.now) state.new)
        (cl.method (class_around (S.around outside.now) around.now) modifier (cl.operator_declared (unit_view.operator_member x.now)) (seen (S.around outside.now) state.old)) }
{
    let name = operator_name(alloc, x.name, has_none(&x.parameters))?;
    let made = Declared {
        external: x.external,
        name: &name,
        result_type: &x.result_type,
        parameters: &x.parameters,
        body: &x.body,
    };
    method(alloc, outside, inner, state, &made, around, modifier)
}

// Variables of the class.
fn fields_or_statics<
    S: Surroundings,
    F: Fn(Global, &S, &mut State, usize, &Parameters, &Body) -> Result<u32, LowerFault>,
>(
    alloc: Global,
    outside: &S,
    inner: &Inner<F>,
    state: &mut State,
    x: &Variables,
    around: &ClassAround,
    modifier: Modifier,
) -> Result<Parts, LowerFault>
    requires { NestsFunction S.around inner.now.limit (F.pre inner.now.function) (F.post inner.now.function) }
    ensures { Gives (parts (S.around outside.now)) result (seen (S.around outside.now) state.new)
        (cl.fields_or_statics (class_around (S.around outside.now) around.now) (cl.is_static modifier) (view.variables x.now) (seen (S.around outside.now) state.old)) }
{
    if is_static(modifier) {
        variables_declared(alloc, outside, inner, state, x)?;
        return Ok(no_parts(alloc, outside));
    }
    let values = values_there(alloc, outside, inner, state, x, around)?;
    Ok(Parts {
        values,
        drafts: Vec::new(alloc),
    })
}

// A member of the class.
fn member<
    S: Surroundings,
    F: Fn(Global, &S, &mut State, usize, &Parameters, &Body) -> Result<u32, LowerFault>,
>(
    alloc: Global,
    outside: &S,
    inner: &Inner<F>,
    state: &mut State,
    one: &Member,
    around: &ClassAround,
    members: &Vec<Member>,
) -> Result<Parts, LowerFault>
    requires { NestsFunction S.around inner.now.limit (F.pre inner.now.function) (F.post inner.now.function) }
    ensures { Gives (parts (S.around outside.now)) result (seen (S.around outside.now) state.new)
        (cl.member (class_around (S.around outside.now) around.now) (map unit_view.member members.now.items)
        one.now.modifier (unit_view.member_kind one.now.kind) (seen (S.around outside.now) state.old)) }
{
    match &one.kind {
        MemberKind::Constructor(x) => {
            let number = numbered(outside, state)?;
            constructor(alloc, outside, inner, state, x, around, members, number)
        }
        MemberKind::Function(x) => function(alloc, outside, inner, state, x, around, one.modifier),
        MemberKind::Accessor(x) => accessor(alloc, outside, inner, state, x, around, one.modifier),
        MemberKind::Variables(x) => fields_or_statics(
            alloc,
            outside,
            inner,
            state,
            x,
            around,
            one.modifier,
        ),
        MemberKind::Operator(x) => operator(alloc, outside, inner, state, x, around, one.modifier),
    }
}

// What a member makes, behind what those before it do.
fn add_parts<S: Surroundings>(outside: &S, found: &mut Parts, more: Parts) -> Result<(), Want>
    ensures { OnOk result (parts (S.around outside.now) found.new
        ≡ cl.with_parts (parts (S.around outside.now) found.old) (parts (S.around outside.now) more)) }
{
    let Parts {
        mut values,
        mut drafts,
    } = more;
    found.values.append(&mut values)?;
    found.drafts.append(&mut drafts)?;
    Ok(())
}

/// The members of the class, in the order of the text.
pub fn all_members<
    S: Surroundings,
    F: Fn(Global, &S, &mut State, usize, &Parameters, &Body) -> Result<u32, LowerFault>,
>(
    alloc: Global,
    outside: &S,
    inner: &Inner<F>,
    state: &mut State,
    members: &Vec<Member>,
    around: &ClassAround,
) -> Result<Parts, LowerFault>
    requires { NestsFunction S.around inner.now.limit (F.pre inner.now.function) (F.post inner.now.function) }
    ensures { Gives (parts (S.around outside.now)) result (seen (S.around outside.now) state.new)
        (cl.all_members (class_around (S.around outside.now) around.now) (map unit_view.member members.now.items) (map unit_view.member members.now.items) (seen (S.around outside.now) state.old)) }
{
    let mut found = no_parts(alloc, outside);
    for one in members {
        let more = member(alloc, outside, inner, state, one, around, members)?;
        add_parts(outside, &mut found, more)?;
    }
    Ok(found)
}
