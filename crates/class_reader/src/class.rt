// Class declarations (ECMA-408, 10 Classes).
ghost use Rattle.std.specs.Prelude.{◌≡◌, [], map, IfOk};
ghost use Rattle.dart_tree.specs.UnitView as unit_view;
ghost use Rattle.translation.specs.ClassBodies as b;
ghost use Rattle.translation.specs.Surroundings.{name_in};
ghost use Rattle.lower_leaf.specs.Around.{text};
ghost use Rattle.class_source.specs.Headers as h;
ghost use Rattle.class_source.specs.Source as source;
ghost use Rattle.class_source.specs.View as shown;
ghost use Rattle.class_reader.specs.Given.{AreJoint, given_of, outer_of, reading_in, source_unit};
ghost use Rattle.class_reader.specs.Seen.{all_members, heading, heading_of, members_in};

use crate::field::field_count;
use crate::header::{Heading, bounds, clauses_of};
use crate::home::Home;
use crate::member::instance_members;
use crate::position::{Positions, number_at, outer_of};
use crate::standing::standing;
use crate::state::reading;
use class_fault::program::{Declaration, Member};
use dart_base::name::Name;
use dart_ir::number::ClassId;
use dart_tree::declaration::{Class, ClassKind, Member as MemberTree};
use lower_leaf::fault::Want;
use lower_leaf::name::{find, place_of, text_in, text_of};
use lower_leaf::surroundings::Surroundings;
use std::alloc::Global;

/// The name of the text in the library.
pub fn name_in<S: Surroundings>(
    alloc: Global,
    outside: &S,
    library: u32,
    name: &[u8],
) -> Result<Name, Want>
    ensures { IfOk result (λ found. text (S.around outside.now) found ≡ name_in library name.now) }
{
    let made = text_in(alloc, library, name)?;
    find(outside, made.as_slice())
}

// The members that are written in the body of a class; a mixin application has none.
fn members_of(kind: &ClassKind) -> &[MemberTree]
    ensures { map unit_view.member result.now ≡ b.members_of (unit_view.class_kind kind.now) }
{
    match kind {
        ClassKind::Declared {
            superclass: _,
            interfaces: _,
            opening: _,
            members,
            closing: _,
        } => members.as_slice(),
        ClassKind::Mixed {
            equals: _,
            superclass: _,
            mixins: _,
            interfaces: _,
            semicolon: _,
        } => &[],
    }
}

// Whether a class is written as a mixin application (12.1 Mixin Application).
fn is_mixed(kind: &ClassKind) -> bool
    ensures { result ≡ b.is_mixed (unit_view.class_kind kind.now) }
{
    match kind {
        ClassKind::Declared {
            superclass: _,
            interfaces: _,
            opening: _,
            members: _,
            closing: _,
        } => false,
        ClassKind::Mixed {
            equals: _,
            superclass: _,
            mixins: _,
            interfaces: _,
            semicolon: _,
        } => true,
    }
}

// What the header of a class says, whose names are looked up there.
fn heading_of<S: Surroundings, P: Positions>(
    alloc: Global,
    headers: &S,
    positions: &P,
    number: ClassId,
    x: &Class,
) -> Result<Heading, Want>
    ensures { IfOk result (λ made. heading (S.around headers.now) made
        ≡ heading_of (reading_in (S.around headers.now) (outer_of (P.libraries positions.now) number.0)) (unit_view.class x.now)) }
{
    let state = reading(alloc, headers, outer_of(positions, number));
    let bounds = bounds(alloc, headers, &state, &x.parameters)?;
    let clauses = clauses_of(alloc, headers, &state, &x.kind)?;
    Ok(Heading { bounds, clauses })
}

// The instance members of a class.
fn members_in<S: Surroundings, P: Positions>(
    alloc: Global,
    members: &S,
    positions: &P,
    number: ClassId,
    all: &[MemberTree],
) -> Result<Vec<Member>, Want>
    ensures { IfOk result (λ made. all_members (S.around members.now) made
        ≡ members_in (P.numbers positions.now) (reading_in (S.around members.now) (outer_of (P.libraries positions.now) number.0))
        (map unit_view.member all.now)) }
{
    let state = reading(alloc, members, outer_of(positions, number));
    instance_members(alloc, members, positions, &state, all)
}

/// The class of the number that a declaration is.
pub fn class_row<S: Surroundings, P: Positions>(
    alloc: Global,
    headers: &S,
    members: &S,
    positions: &P,
    home: Home,
    number: ClassId,
    x: &Class,
) -> Result<Declaration, Want>
    requires { AreJoint (S.around headers.now) (S.around members.now) (P.libraries positions.now) }
    ensures { IfOk result (λ made. shown.class (S.around members.now).texts made ≡ source.class_row
        (given_of (S.around headers.now) (S.around members.now) (P.libraries positions.now) (P.numbers positions.now))
        (source_unit home []) number.0 (unit_view.class x.now)) }
{
    let all = members_of(&x.kind);
    let heading = heading_of(alloc, headers, positions, number, x)?;
    let found = members_in(alloc, members, positions, number, all)?;
    Ok(Declaration {
        name: name_in(alloc, members, home.library, text_of(&x.name))?,
        library: home.library,
        place: place_of(&x.name),
        decl: number_at(positions, place_of(&x.name))?,
        is_abstract: x.abstracted.is_some(),
        is_application: is_mixed(&x.kind),
        standing: standing(alloc, home, text_of(&x.name), all)?,
        bounds: heading.bounds,
        superclass: heading.clauses.superclass,
        mixins: heading.clauses.mixins,
        interfaces: heading.clauses.interfaces,
        members: found,
        fields: field_count(all)?,
    })
}
