// Constructors that forward those of the superclass (ECMA-408, 12.1 Mixin Application).
ghost use Rattle.std.specs.Prelude.{◌≡◌, ◌+◌, ◌++◌, ◌∷◌, [], length, map, slice_get, if◌then◌else◌, IfOk, OnOk};
ghost use Rattle.dart_ir.specs.Ty.{dynamic};
ghost use Rattle.translation.specs.Applications as ap;
ghost use Rattle.translation.specs.Classes as cl;
ghost use Rattle.translation.specs.References as r;
ghost use Rattle.translation.specs.Types.{tys};
ghost use Rattle.lower_leaf.specs.Around.{class, text, types};
ghost use Rattle.lower_leaf.specs.Forms.{core, cores, row_of};
ghost use Rattle.lower_leaf.specs.Gives.{Gives};
ghost use Rattle.lower_leaf.specs.Kept.{named_type, named_types};
ghost use Rattle.lower_leaf.specs.Seen.{seen};
ghost use Rattle.lower_operand.specs.Made.{all_forms};
ghost use Rattle.lower_function.specs.Made.{parameter, parameters, signature};
ghost use Rattle.lower_decl.specs.Standings.{heading};
ghost use Rattle.lower_class.specs.Views.{class_around};
ghost use Rattle.lower_body.specs.Views.{all_generated, generated};
ghost use Rattle.lower_mixin.specs.Views.{class_info, forwarded_one, names_handed};

use core_program::form::{Core, Job};
use core_program::program::{FunctionKind, Parameter};
use dart_base::bytes::Bytes;
use dart_base::name::Name;
use dart_base::place::Place;
use dart_ir::class::ClassInfo;
use dart_ir::kind::{Shape, SiteKind};
use dart_ir::number::{ClassId, DeclId, SiteId};
use dart_ir::types::{FunctionType, NamedType, TypeRef, Types};
use lower_body::accessor::added_head;
use lower_body::finish::{Generated, add_function, clone_forms};
use lower_class::field::ClassAround;
use lower_decl::declare::Heading;
use lower_function::function::numbered;
use lower_leaf::fault::{LowerFault, Want};
use lower_leaf::form::{Operands, block, row};
use lower_leaf::name::find;
use lower_leaf::site::{unasked, with_site};
use lower_leaf::state::State;
use lower_leaf::surroundings::Surroundings;
use lower_reference::plain::variable;
use std::alloc::Global;

// Where a site is.
fn site_place<S: Surroundings>(outside: &S, state: &State, site: SiteId, otherwise: Place) -> Place
    ensures { result ≡ ap.site_place otherwise (slice_get (seen (S.around outside.now) state.now).sites site.0) }
{
    let index = site.0 as usize;
    if index < state.sites.len() {
        return state.sites[index].place;
    }
    otherwise
}

// A parameter as a variable of the forwarding constructor, at a site without a type.
fn forwarded_one<S: Surroundings>(
    outside: &S,
    state: &mut State,
    place: Place,
    x: u32,
    of: &Parameter,
) -> Result<Parameter, LowerFault>
    ensures { Gives (parameter (S.around outside.now)) result (seen (S.around outside.now) state.new)
        (forwarded_one place x (parameter (S.around outside.now) of.now) (seen (S.around outside.now) state.old)) }
{
    let at = site_place(outside, state, of.site, place);
    let site = with_site(outside, state, SiteKind::Param, at, unasked())?;
    Ok(Parameter {
        var: x,
        name: of.name,
        shape: of.shape,
        default: of.default,
        site,
    })
}

// The parameters of a forwarding constructor, whose variables are numbered from a first one on.
fn forwarded<S: Surroundings>(
    alloc: Global,
    outside: &S,
    state: &mut State,
    place: Place,
    first: u32,
    all: &Vec<Parameter>,
) -> Result<Vec<Parameter>, LowerFault>
    ensures { Gives (parameters (S.around outside.now)) result (seen (S.around outside.now) state.new)
        (ap.forwarded place first (parameters (S.around outside.now) all.now) (seen (S.around outside.now) state.old)) }
{
    let mut found = Vec::new(alloc);
    let mut x = first;
    for one in all {
        found.push(forwarded_one(outside, state, place, x, one)?)?;
        let Some(next) = x.checked_add(1) else {
            return Err(LowerFault::Memory);
        };
        x = next;
    }
    Ok(found)
}

fn is_required(of: Shape) -> bool
    ensures { result ≡ ap.is_required of }
{
    match of {
        Shape::Required => true,
        Shape::Optional => false,
        Shape::Named => false,
    }
}

fn is_optional(of: Shape) -> bool
    ensures { result ≡ ap.is_optional of }
{
    match of {
        Shape::Required => false,
        Shape::Optional => true,
        Shape::Named => false,
    }
}

fn is_named(of: Shape) -> bool
    ensures { result ≡ ap.is_named of }
{
    match of {
        Shape::Required => false,
        Shape::Optional => false,
        Shape::Named => true,
    }
}

// Adds an item if it is there.
fn push_if<T: Drop>(list: &mut Vec<T>, item: T, is_there: bool) -> Result<(), Want>
    ensures { OnOk result (list.new.items ≡ list.old.items ++ (if is_there then item ∷ [] else [])) }
{
    if is_there {
        list.push(item)?;
    }
    Ok(())
}

// The name with the type `dynamic`.
fn dynamic_one<S: Surroundings>(outside: &S, name: Name) -> NamedType
    ensures { named_type (S.around outside.now) result ≡ (text (S.around outside.now) name, dynamic) }
{
    NamedType {
        name,
        of: TypeRef::Dynamic,
    }
}

// One `dynamic` for each required parameter.
fn required_types<S: Surroundings>(
    alloc: Global,
    outside: &S,
    all: &Vec<Parameter>,
) -> Result<Types, Want>
    ensures { IfOk result (λ made. tys (types (S.around outside.now) made.items)
        ≡ ap.all_dynamic (ap.of_shape ap.is_required (parameters (S.around outside.now) all.now))) }
{
    let mut made = Vec::new(alloc);
    for one in all {
        push_if(&mut made, TypeRef::Dynamic, is_required(one.shape))?;
    }
    Ok(made)
}

// One `dynamic` for each optional parameter without a name.
fn optional_types<S: Surroundings>(
    alloc: Global,
    outside: &S,
    all: &Vec<Parameter>,
) -> Result<Types, Want>
    ensures { IfOk result (λ made. tys (types (S.around outside.now) made.items)
        ≡ ap.all_dynamic (ap.of_shape ap.is_optional (parameters (S.around outside.now) all.now))) }
{
    let mut made = Vec::new(alloc);
    for one in all {
        push_if(&mut made, TypeRef::Dynamic, is_optional(one.shape))?;
    }
    Ok(made)
}

// The named parameters, each of the type `dynamic`.
fn named_dynamic<S: Surroundings>(
    alloc: Global,
    outside: &S,
    all: &Vec<Parameter>,
) -> Result<Vec<NamedType>, Want>
    ensures { IfOk result (λ made. named_types (S.around outside.now) made.items
        ≡ ap.named_dynamic (ap.of_shape ap.is_named (parameters (S.around outside.now) all.now))) }
{
    let mut made = Vec::new(alloc);
    for one in all {
        push_if(
            &mut made,
            dynamic_one(outside, one.name),
            is_named(one.shape),
        )?;
    }
    Ok(made)
}

// The type of a forwarding constructor.
fn forwarder_type<S: Surroundings>(
    alloc: Global,
    outside: &S,
    all: &Vec<Parameter>,
) -> Result<FunctionType, Want>
    ensures { IfOk result (λ made. signature (S.around outside.now) made
        ≡ ap.forwarder_type (parameters (S.around outside.now) all.now)) }
{
    let required = required_types(alloc, outside, all)?;
    let optional = optional_types(alloc, outside, all)?;
    let named = named_dynamic(alloc, outside, all)?;
    Ok(FunctionType {
        result: TypeRef::Dynamic,
        required,
        optional,
        named,
    })
}

// The names of the named parameters.
fn names_of<S: Surroundings>(
    alloc: Global,
    outside: &S,
    all: &Vec<Parameter>,
) -> Result<Vec<Name>, Want>
    ensures { IfOk result (λ made. map (text (S.around outside.now)) made.items
        ≡ names_handed (parameters (S.around outside.now) all.now)) }
{
    let mut made = Vec::new(alloc);
    for one in all {
        push_if(&mut made, one.name, is_named(one.shape))?;
    }
    Ok(made)
}

// All parameters, those with names by their names.
fn handed<S: Surroundings>(
    alloc: Global,
    outside: &S,
    place: Place,
    all: &Vec<Parameter>,
) -> Result<Operands, Want>
    ensures { IfOk result (λ made. row_of (S.around outside.now) made ≡ ap.handed place (parameters (S.around outside.now) all.now)) }
{
    let mut forms = Vec::new(alloc);
    for one in all {
        forms.push(variable(outside, place, one.var))?;
    }
    let names = names_of(alloc, outside, all)?;
    Ok(Operands { forms, names })
}

// The call of the superclass's constructor, unless the superclass is `Object`.
fn forwarding<S: Surroundings>(
    alloc: Global,
    outside: &S,
    place: Place,
    superclass: Option<ClassId>,
    number: u32,
    all: &Vec<Parameter>,
) -> Result<Vec<Core>, Want>
    ensures { IfOk result (λ made. all_forms (S.around outside.now) made
        ≡ ap.forwarding place (class superclass) number (parameters (S.around outside.now) all.now)) }
{
    let mut made = Vec::new(alloc);
    if let Some(above) = superclass {
        if above.0 != 0 {
            let operands = handed(alloc, outside, place, all)?;
            made.push(row(outside, place, Job::SuperNew(DeclId(number)), operands))?;
        }
    }
    Ok(made)
}

// What a constructor is called: its id, or its class's name where it has none.
fn forwarder_name<S: Surroundings>(outside: &S, own: Name, id: &[u8]) -> Result<Name, Want>
    ensures { IfOk result (λ made. text (S.around outside.now) made ≡ cl.constructor_name (text (S.around outside.now) own) id.now) }
{
    match id {
        [] => Ok(own),
        [_, ..] => find(outside, id),
    }
}

// What a forwarding constructor is.
fn forwarder_head<S: Surroundings>(
    alloc: Global,
    outside: &S,
    around: &ClassAround,
    x: &ClassInfo,
    one: &Generated,
    number: u32,
    bound: &Vec<Parameter>,
) -> Result<Heading, Want>
    ensures { IfOk result (λ made. heading (S.around outside.now) made
        ≡ ap.forwarder_head (class_around (S.around outside.now) around.now) (class_info (S.around outside.now) x.now)
        (generated (S.around outside.now) one.now) number (parameters (S.around outside.now) bound.now)) }
{
    let name = forwarder_name(outside, x.name, one.id.as_slice())?;
    let made = forwarder_type(alloc, outside, bound)?;
    Ok(added_head(
        outside,
        number,
        FunctionKind::Generative,
        name,
        made,
        around.class,
    ))
}

// The initial values of the fields, and then the superclass's constructor.
fn forwarder_form<S: Surroundings>(
    alloc: Global,
    outside: &S,
    around: &ClassAround,
    place: Place,
    values: &Vec<Core>,
    number: u32,
    bound: &Vec<Parameter>,
) -> Result<Core, Want>
    ensures { IfOk result (λ made. core (S.around outside.now) made ≡ r.block place (cores (S.around outside.now) values.now.items
        ++ ap.forwarding place ((S.around outside.now).tables.superclass around.now.class.0) number (parameters (S.around outside.now) bound.now))) }
{
    let above = outside.superclass(around.class);
    let mut more = forwarding(alloc, outside, place, above, number, bound)?;
    let mut forms = clone_forms(alloc, outside, values)?;
    forms.append(&mut more)?;
    Ok(block(outside, place, forms))
}

// How many variables a forwarding constructor has.
fn forwarder_count(around: &ClassAround, bound: &Vec<Parameter>) -> Result<u32, Want>
    ensures { IfOk result (λ count. count ≡ around.now.count + length bound.now.items) }
{
    let Ok(more) = u32::try_from(bound.len()) else {
        return Err(Want);
    };
    let Some(count) = around.count.checked_add(more) else {
        return Err(Want);
    };
    Ok(count)
}

// A forwarding constructor with its number and its parameters.
fn forwarder_made<S: Surroundings>(
    alloc: Global,
    outside: &S,
    state: &mut State,
    around: &ClassAround,
    x: &ClassInfo,
    values: &Vec<Core>,
    one: &Generated,
    number: u32,
    bound: Vec<Parameter>,
) -> Result<Generated, LowerFault>
    ensures { Gives (generated (S.around outside.now)) result (seen (S.around outside.now) state.new)
        (ap.forwarder_made (class_around (S.around outside.now) around.now) (class_info (S.around outside.now) x.now)
        (cores (S.around outside.now) values.now.items) (generated (S.around outside.now) one.now) number
        (parameters (S.around outside.now) bound) (seen (S.around outside.now) state.old)) }
{
    let count = forwarder_count(around, &bound)?;
    let head = forwarder_head(alloc, outside, around, x, one, number, &bound)?;
    let form = forwarder_form(alloc, outside, around, x.place, values, one.number, &bound)?;
    let made = Generated {
        number,
        id: Bytes::from_slice(alloc, one.id.as_slice())?,
        parameters: Vec::from_slice(alloc, &bound)?,
    };
    add_function(alloc, outside, state, head, bound, form, count)?;
    Ok(made)
}

// A constructor that forwards one of the superclass.
fn forwarder<S: Surroundings>(
    alloc: Global,
    outside: &S,
    state: &mut State,
    around: &ClassAround,
    x: &ClassInfo,
    values: &Vec<Core>,
    one: &Generated,
) -> Result<Generated, LowerFault>
    ensures { Gives (generated (S.around outside.now)) result (seen (S.around outside.now) state.new)
        (ap.forwarder (class_around (S.around outside.now) around.now) (class_info (S.around outside.now) x.now)
        (cores (S.around outside.now) values.now.items) (generated (S.around outside.now) one.now) (seen (S.around outside.now) state.old)) }
{
    let number = numbered(outside, state)?;
    let bound = forwarded(
        alloc,
        outside,
        state,
        x.place,
        around.count,
        &one.parameters,
    )?;
    forwarder_made(alloc, outside, state, around, x, values, one, number, bound)
}

/// The constructors that forward those of the superclass.
pub fn forwarders<S: Surroundings>(
    alloc: Global,
    outside: &S,
    state: &mut State,
    around: &ClassAround,
    x: &ClassInfo,
    values: &Vec<Core>,
    above: &Vec<Generated>,
) -> Result<Vec<Generated>, LowerFault>
    ensures { Gives (all_generated (S.around outside.now)) result (seen (S.around outside.now) state.new)
        (ap.forwarders (class_around (S.around outside.now) around.now) (class_info (S.around outside.now) x.now)
        (cores (S.around outside.now) values.now.items) (all_generated (S.around outside.now) above.now) (seen (S.around outside.now) state.old)) }
{
    let mut found = Vec::new(alloc);
    for one in above {
        found.push(forwarder(alloc, outside, state, around, x, values, one)?)?;
    }
    Ok(found)
}
