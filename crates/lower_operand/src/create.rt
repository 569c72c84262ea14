// New objects (ECMA-408, 16.12 Instance Creation).
#![tactic(auto, using(crate::proofs::Rest::steps, crate::proofs::Creating::creating), unfolding(translation::specs::Walk::on))]

ghost use Rattle.std.specs.Prelude.{◌≡◌, None, IfOk};
ghost use Rattle.dart_ir.specs.Ty.{class as class_of};
ghost use Rattle.dart_tree.specs.Types as t;
ghost use Rattle.dart_tree.specs.View as view;
ghost use Rattle.translation.specs.Expressions as e;
ghost use Rattle.translation.specs.Types as y;
ghost use Rattle.lower_leaf.specs.Around.{ty, types};
ghost use Rattle.lower_leaf.specs.Forms.{core, row_of};
ghost use Rattle.lower_leaf.specs.Gives.{Gives};
ghost use Rattle.lower_leaf.specs.Kept.{typed};
ghost use Rattle.lower_leaf.specs.Seen.{seen};
ghost use Rattle.lower_operand.specs.Made.{is_class, is_dotted, word_option};

use crate::type_test::malformed_behind;
use core_program::form::Core;
use dart_base::bytes::Bytes;
use dart_base::feature::Feature;
use dart_base::place::Place;
use dart_ir::kind::{SiteKind, ThrowKind};
use dart_ir::number::{ClassId, DeclId};
use dart_ir::types::{TypeRef, Types, try_clone_types};
use dart_tree::expression::Creation;
use dart_tree::identifier::{DotName, Identifier};
use dart_tree::types::{TypeArguments, TypeNode};
use lower_leaf::fault::{LowerFault, Want};
use lower_leaf::form::{Operands, new_object};
use lower_leaf::kept::{alias_place, kept_type};
use lower_leaf::meaning::{Constructor, Meaning};
use lower_leaf::name::{find, own_text, place_of, text_of};
use lower_leaf::site::checked;
use lower_leaf::state::{Asked, State};
use lower_leaf::surroundings::Surroundings;
use lower_leaf::types::{Typed, last_of, meaning_of, typed_as};
use lower_reference::plain::raised_behind;
use std::alloc::Global;

/// Constants are met; what they are is left open here.
pub fn meeting_constant<S: Surroundings>(outside: &S, state: &mut State, is_met: bool)
    ensures { seen (S.around outside.now) state.new ≡ e.meeting_constant is_met (seen (S.around outside.now) state.old) }
{
    if is_met {
        state.has_constants = true;
    }
}

/// Whether the word is `const`.
pub fn is_constant(creation: Creation) -> bool
    ensures { result ≡ e.is_constant creation }
{
    match creation {
        Creation::New(_) => false,
        Creation::Const(_) => true,
    }
}

// The type of which only the name is written.
fn kept_name<S: Surroundings>(
    alloc: Global,
    outside: &S,
    state: &State,
    name: &Identifier,
) -> Result<Typed, LowerFault>
    ensures { Gives (typed (S.around outside.now)) result (seen (S.around outside.now) state.now)
        (y.kept_type (t.named_type name.now None t.no_types) (seen (S.around outside.now) state.now)) }
{
    let of = meaning_of(outside, state, text_of(name));
    match alias_place(of, place_of(name)) {
        Some(place) => Err(LowerFault::LeftOut(place, Feature::FunctionTypes)),
        None => {
            let given = Vec::new(alloc);
            Ok(typed_as(alloc, outside, state, false, of, given, text_of(name))?)
        }
    }
}

// Whether a name is that of a class: it is no prefix.
fn is_class<S: Surroundings>(outside: &S, state: &State, name: &Identifier) -> bool
    ensures { result ≡ is_class (y.meaning_of (seen (S.around outside.now) state.now) (y.text_of name.now)) }
{
    match meaning_of(outside, state, text_of(name)) {
        Meaning::Prefix => false,
        Meaning::Alias(_) => true,
        Meaning::Function(_) => true,
        Meaning::Variable(_, _) => true,
        Meaning::Accessors(_, _) => true,
        Meaning::Class(_) => true,
        Meaning::TypeParameter(_) => true,
        Meaning::Member => true,
        Meaning::Ambiguous => true,
        Meaning::Unknown => true,
    }
}

// Whether a name with a dot is that of a class and the id of its constructor.
fn is_dotted<S: Surroundings>(
    outside: &S,
    state: &State,
    name: &Identifier,
    member: &Option<DotName>,
    arguments: &TypeArguments,
    constructor: &Option<DotName>,
) -> bool
    ensures { result ≡ is_dotted (seen (S.around outside.now) state.now)
        (t.named_type name.now member.now (view.type_arguments arguments.now)) constructor.now }
{
    match member {
        None => false,
        Some(_) => match arguments {
            TypeArguments::Listed {
                opening: _,
                arguments: _,
                closing: _,
            } => false,
            TypeArguments::Omitted => match constructor {
                Some(_) => false,
                None => is_class(outside, state, name),
            },
        },
    }
}

/// The type of which an object is made: in `new A.b()` it is A, unless A is a prefix.
pub fn created_type<S: Surroundings>(
    alloc: Global,
    outside: &S,
    state: &State,
    node: &TypeNode,
    constructor: &Option<DotName>,
) -> Result<Typed, LowerFault>
    ensures { Gives (typed (S.around outside.now)) result (seen (S.around outside.now) state.now)
        (y.kept_type (e.creating (seen (S.around outside.now) state.now) (view.type_node node.now) constructor.now).node
        (seen (S.around outside.now) state.now)) }
{
    match node {
        TypeNode::Dynamic(_) => kept_type(alloc, outside, state, node),
        TypeNode::Named {
            name,
            member,
            arguments,
        } => {
            if is_dotted(outside, state, name, member, arguments, constructor) {
                return kept_name(alloc, outside, state, name);
            }
            kept_type(alloc, outside, state, node)
        }
    }
}

/// The last id of the name of that type.
pub fn created_name<S: Surroundings>(
    alloc: Global,
    outside: &S,
    state: &State,
    node: &TypeNode,
    constructor: &Option<DotName>,
) -> Result<Bytes, Want>
    ensures { IfOk result (λ made. made ≡ e.type_name (seen (S.around outside.now) state.now)
        (e.creating (seen (S.around outside.now) state.now) (view.type_node node.now) constructor.now).node) }
{
    match node {
        TypeNode::Dynamic(_) => Ok(Bytes::from_slice(alloc, b"dynamic")?),
        TypeNode::Named {
            name,
            member,
            arguments,
        } => {
            if is_dotted(outside, state, name, member, arguments, constructor) {
                return own_text(alloc, outside, state.outer, text_of(name));
            }
            own_text(alloc, outside, state.outer, text_of(last_of(name, member)))
        }
    }
}

/// The id of the constructor, if one is written.
pub fn created_id<'a, S: Surroundings>(
    outside: &S,
    state: &State,
    node: &'a TypeNode,
    constructor: &'a Option<DotName>,
) -> Option<&'a Identifier>
    ensures { word_option result
        ≡ (e.creating (seen (S.around outside.now) state.now) (view.type_node node.now) constructor.now).id }
{
    match node {
        TypeNode::Dynamic(_) => option_id(constructor),
        TypeNode::Named {
            name,
            member,
            arguments,
        } => {
            if is_dotted(outside, state, name, member, arguments, constructor) {
                return option_id(member);
            }
            option_id(constructor)
        }
    }
}

fn option_id(of: &Option<DotName>) -> Option<&Identifier>
    ensures { word_option result ≡ y.option_word of.now }
{
    match of {
        None => None,
        Some(dot) => Some(&dot.name),
    }
}

// A class with its type arguments.
#[tactic(auto, using(crate::proofs::TypeLaws::type_views), unfolding(lower_leaf::specs::Around::ty))]
fn class_type<S: Surroundings>(outside: &S, class: ClassId, given: Types) -> TypeRef
    ensures { ty (S.around outside.now) result ≡ class_of class.0 (y.tys (types (S.around outside.now) given.items)) }
{
    TypeRef::Class(class, given)
}

// A new object by a constructor of the class.
fn object<S: Surroundings>(
    alloc: Global,
    outside: &S,
    state: &mut State,
    place: Place,
    class: ClassId,
    constructor: DeclId,
    given: Types,
    operands: Operands,
) -> Result<Core, LowerFault>
    ensures { Gives (core (S.around outside.now)) result (seen (S.around outside.now) state.new)
        (e.new_form place class.0 constructor.0 (types (S.around outside.now) given.items) (row_of (S.around outside.now) operands)
        (seen (S.around outside.now) state.old)) }
{
    if !outside.is_bounded(class) {
        return Ok(new_object(outside, place, class, constructor, given, operands));
    }
    let of = clone_types(alloc, outside, &given)?;
    let wanted = Asked {
        of: Some(class_type(outside, class, of)),
        annotated: false,
    };
    let form = new_object(outside, place, class, constructor, given, operands);
    checked(alloc, outside, state, SiteKind::Bound, place, wanted, form)
}

#[tactic(auto, using(crate::proofs::TypeLaws::copied))]
fn clone_types<S: Surroundings>(alloc: Global, outside: &S, given: &Types) -> Result<Types, Want>
    ensures { IfOk result (λ made. types (S.around outside.now) made.items ≡ types (S.around outside.now) given.now.items) }
{
    Ok(try_clone_types(alloc, given)?)
}

// A new object by the constructor of the class with this id, or an error with the name for a missing one.
fn object_of<S: Surroundings>(
    alloc: Global,
    outside: &S,
    state: &mut State,
    place: Place,
    class: ClassId,
    given: Types,
    id: &[u8],
    missing: &[u8],
    operands: Operands,
) -> Result<Core, LowerFault>
    ensures { Gives (core (S.around outside.now)) result (seen (S.around outside.now) state.new)
        (e.created_by ((S.around outside.now).tables.constructor class.0 id.now) place class.0
        (types (S.around outside.now) given.items) missing.now (row_of (S.around outside.now) operands)
        (seen (S.around outside.now) state.old)) }
{
    match outside.constructor(class, id) {
        Constructor::Generative(by) => {
            object(alloc, outside, state, place, class, by, given, operands)
        }
        Constructor::Factory(by) => {
            object(alloc, outside, state, place, class, by, given, operands)
        }
        Constructor::Missing => {
            let name = find(outside, missing)?;
            let error = ThrowKind::NoSuchMethodError;
            Ok(raised_behind(outside, place, operands.forms, error, name, false)?)
        }
    }
}

// A new object of the class, if it has the constructor.
fn object_by<S: Surroundings>(
    alloc: Global,
    outside: &S,
    state: &mut State,
    place: Place,
    class: ClassId,
    given: Types,
    name: &[u8],
    id: Option<&Identifier>,
    operands: Operands,
) -> Result<Core, LowerFault>
    ensures { Gives (core (S.around outside.now)) result (seen (S.around outside.now) state.new)
        (e.created_by ((S.around outside.now).tables.constructor class.0 (e.id_text (word_option id.entry) (seen (S.around outside.now) state.old)))
        place class.0 (types (S.around outside.now) given.items)
        (e.missing_name (word_option id.entry) name.now (seen (S.around outside.now) state.old))
        (row_of (S.around outside.now) operands) (seen (S.around outside.now) state.old)) }
{
    match id {
        None => object_of(
            alloc, outside, state, place, class, given, b"", name, operands,
        ),
        Some(id) => {
            let own = own_text(alloc, outside, state.outer, text_of(id))?;
            let own = own.as_slice();
            object_of(
                alloc, outside, state, place, class, given, own, own, operands,
            )
        }
    }
}

/// `new T.id(arguments)`
#[tactic(auto, using(crate::proofs::TypeLaws::type_views, crate::proofs::Creating::creating), unfolding(lower_leaf::specs::Around::ty))]
pub fn created<S: Surroundings>(
    alloc: Global,
    outside: &S,
    state: &mut State,
    place: Place,
    of: Typed,
    name: &[u8],
    id: Option<&Identifier>,
    operands: Operands,
) -> Result<Core, LowerFault>
    ensures { Gives (core (S.around outside.now)) result (seen (S.around outside.now) state.new)
        (e.created place (typed (S.around outside.now) of) name.now (word_option id.entry) (row_of (S.around outside.now) operands)
        (seen (S.around outside.now) state.old)) }
{
    match of {
        Typed::Malformed(name) => {
            Ok(malformed_behind(outside, place, operands.forms, name.as_slice())?)
        }
        Typed::WellFormed(of) => match &of {
            TypeRef::Class(class, given) => {
                let given = clone_types(alloc, outside, given)?;
                object_by(
                    alloc, outside, state, place, *class, given, name, id, operands,
                )
            }
            TypeRef::Dynamic => Ok(malformed_behind(outside, place, operands.forms, name)?),
            TypeRef::Bottom => Ok(malformed_behind(outside, place, operands.forms, name)?),
            TypeRef::Void => Ok(malformed_behind(outside, place, operands.forms, name)?),
            TypeRef::Param(_) => Ok(malformed_behind(outside, place, operands.forms, name)?),
            TypeRef::Function(_) => Ok(malformed_behind(outside, place, operands.forms, name)?),
        },
    }
}
