// Implicit accessors (ECMA-408, 10.5 Instance Variables).
ghost use Rattle.std.specs.Prelude.{◌≡◌, [], map, codes, IfOk};
ghost use Rattle.translation.specs.ClassBodies as b;
ghost use Rattle.lower_leaf.specs.Around.{text, ty};
ghost use Rattle.lower_leaf.specs.Gives.{Gives};
ghost use Rattle.lower_leaf.specs.Seen.{seen, asked};
ghost use Rattle.lower_function.specs.Made.{parameter, signature};
ghost use Rattle.lower_decl.specs.Standings.{heading};
ghost use Rattle.lower_class.specs.Views.{field, fields};
ghost use Rattle.lower_body.specs.Views.{nothing};

use crate::finish::add_function;
use core_program::form::{Leaf, Unary};
use core_program::program::{FunctionKind, Parameter};
use dart_base::name::Name;
use dart_ir::kind::{Shape, SiteKind};
use dart_ir::number::{ClassId, SiteId};
use dart_ir::types::{FunctionType, TypeRef};
use dart_ir::value::Value;
use lower_class::field::Field;
use lower_decl::declare::Heading;
use lower_function::function::numbered;
use lower_leaf::fault::{LowerFault, Want};
use lower_leaf::form::{leaf, unary};
use lower_leaf::name::{find, own_name};
use lower_leaf::site::{checked, unasked, with_site};
use lower_leaf::state::{Asked, Inside, State, clone_asked, clone_type};
use lower_leaf::surroundings::Surroundings;
use lower_reference::plain::variable;
use std::alloc::Global;

/// What a function is that is added to a class: nothing is asked for what it returns.
pub fn added_head<S: Surroundings>(
    outside: &S,
    number: u32,
    kind: FunctionKind,
    name: Name,
    of: FunctionType,
    class: ClassId,
) -> Heading
    ensures { heading (S.around outside.now) result
        ≡ b.added_head number kind (text (S.around outside.now) name) (signature (S.around outside.now) of) class.0 }
{
    let inside = Inside {
        class: Some(class),
        arguments: None,
        has_instance: true,
        result: unasked(),
        gives_value: true,
        in_handler: false,
    };
    Heading {
        number,
        kind,
        name,
        signature: of,
        inside,
    }
}

// The type that an annotation wrote, or `dynamic`.
fn annotated_type<S: Surroundings>(
    alloc: Global,
    outside: &S,
    wanted: &Asked,
) -> Result<TypeRef, Want>
    ensures { IfOk result (λ made. ty (S.around outside.now) made ≡ b.annotated_type (asked (S.around outside.now) wanted.now)) }
{
    if !wanted.annotated {
        return Ok(TypeRef::Dynamic);
    }
    match &wanted.of {
        None => Ok(TypeRef::Dynamic),
        Some(of) => clone_type(alloc, outside, of),
    }
}

// The type of a getter.
fn getter_type<S: Surroundings>(
    alloc: Global,
    outside: &S,
    wanted: &Asked,
) -> Result<FunctionType, Want>
    ensures { IfOk result (λ made. signature (S.around outside.now) made ≡ b.getter_type (asked (S.around outside.now) wanted.now)) }
{
    let of = annotated_type(alloc, outside, wanted)?;
    Ok(FunctionType {
        result: of,
        required: Vec::new(alloc),
        optional: Vec::new(alloc),
        named: Vec::new(alloc),
    })
}

// The type of a setter.
fn setter_type<S: Surroundings>(
    alloc: Global,
    outside: &S,
    wanted: &Asked,
) -> Result<FunctionType, Want>
    ensures { IfOk result (λ made. signature (S.around outside.now) made ≡ b.setter_type (asked (S.around outside.now) wanted.now)) }
{
    let mut required = Vec::new(alloc);
    required.push(annotated_type(alloc, outside, wanted)?)?;
    Ok(FunctionType {
        result: TypeRef::Dynamic,
        required,
        optional: Vec::new(alloc),
        named: Vec::new(alloc),
    })
}

// The getter of a field.
fn getter_added<S: Surroundings>(
    alloc: Global,
    outside: &S,
    state: &mut State,
    class: ClassId,
    x: &Field,
) -> Result<(), LowerFault>
    ensures { Gives nothing result (seen (S.around outside.now) state.new)
        (b.getter_added class.0 (field (S.around outside.now) x.now) (seen (S.around outside.now) state.old)) }
{
    let number = numbered(outside, state)?;
    let name = own_name(alloc, outside, state.outer, x.name.text.as_slice())?;
    let made = getter_type(alloc, outside, &x.wanted)?;
    let head = added_head(outside, number, FunctionKind::Plain, name, made, class);
    let form = leaf(outside, x.name.place, Leaf::Field(x.index));
    add_function(alloc, outside, state, head, Vec::new(alloc), form, 0)?;
    Ok(())
}

// The parameter of a setter, which no annotation tests.
fn setter_parameter<S: Surroundings>(outside: &S, site: SiteId) -> Result<Parameter, Want>
    ensures { IfOk result (λ made. parameter (S.around outside.now) made ≡ b.setter_parameter site.0) }
{
    let name = find(outside, b"v")?;
    Ok(Parameter {
        var: 0,
        name,
        shape: Shape::Required,
        default: Value::Null,
        site,
    })
}

// The setter of a field with the number of its declaration.
fn setter_made<S: Surroundings>(
    alloc: Global,
    outside: &S,
    state: &mut State,
    class: ClassId,
    x: &Field,
    number: u32,
) -> Result<(), LowerFault>
    ensures { Gives nothing result (seen (S.around outside.now) state.new)
        (b.setter_made class.0 (field (S.around outside.now) x.now) number (seen (S.around outside.now) state.old)) }
{
    let place = x.name.place;
    let site = with_site(outside, state, SiteKind::Param, place, unasked())?;
    let wanted = clone_asked(alloc, outside, &x.wanted)?;
    let value = variable(outside, place, 0);
    let form = checked(
        alloc,
        outside,
        state,
        SiteKind::FieldStore,
        place,
        wanted,
        value,
    )?;
    let name = own_name(alloc, outside, state.outer, x.name.text.as_slice())?;
    let made = setter_type(alloc, outside, &x.wanted)?;
    let head = added_head(outside, number, FunctionKind::Plain, name, made, class);
    let mut bound = Vec::new(alloc);
    bound.push(setter_parameter(outside, site)?)?;
    let form = unary(outside, alloc, place, Unary::FieldWrite(x.index), form)?;
    add_function(alloc, outside, state, head, bound, form, 1)?;
    Ok(())
}

// The setter of a field that isn't final.
fn setter_added<S: Surroundings>(
    alloc: Global,
    outside: &S,
    state: &mut State,
    class: ClassId,
    x: &Field,
) -> Result<(), LowerFault>
    ensures { Gives nothing result (seen (S.around outside.now) state.new)
        (b.setter_added x.now.is_final class.0 (field (S.around outside.now) x.now) (seen (S.around outside.now) state.old)) }
{
    if x.is_final {
        return Ok(());
    }
    let number = numbered(outside, state)?;
    setter_made(alloc, outside, state, class, x, number)
}

/// The implicit accessors of the fields of a class.
pub fn accessors_added<S: Surroundings>(
    alloc: Global,
    outside: &S,
    state: &mut State,
    class: ClassId,
    all: &Vec<Field>,
) -> Result<(), LowerFault>
    ensures { Gives nothing result (seen (S.around outside.now) state.new)
        (b.accessors_added class.0 (fields (S.around outside.now) all.now) (seen (S.around outside.now) state.old)) }
{
    for one in all {
        getter_added(alloc, outside, state, class, one)?;
        setter_added(alloc, outside, state, class, one)?;
    }
    Ok(())
}
