// The classes that enums stand for (ECMA-408, 13 Enums).
#![tactic(auto, using(crate::proofs::Pushed::pushes), unfolding(crate::specs::Seen::signature))]

ghost use Rattle.std.specs.Prelude.{◌≡◌, ◌+◌, [], length, codes, map, IfOk};
ghost use Rattle.dart_tree.specs.UnitView as unit_view;
ghost use Rattle.lower_leaf.specs.Around.{text};
ghost use Rattle.class_source.specs.Source as source;
ghost use Rattle.class_source.specs.View as shown;
ghost use Rattle.class_reader.specs.Given.{given_of, source_unit};
ghost use Rattle.class_reader.specs.Seen.{all_members};

use crate::class::name_in;
use crate::home::Home;
use crate::position::{Positions, number_at};
use crate::signature::returning;
use class_fault::program::{Declaration, Member, Standing};
use dart_base::name::Name;
use dart_base::place::Place;
use dart_ir::class::Role;
use dart_ir::number::{ClassId, DeclId};
use dart_tree::declaration::Enum;
use lower_leaf::fault::Want;
use lower_leaf::name::{find, place_of, text_of};
use lower_leaf::surroundings::Surroundings;
use std::alloc::Global;

// The declaration so many numbers behind another.
fn behind(of: DeclId, count: u32) -> Result<DeclId, Want>
    ensures { IfOk result (λ made. made.0 ≡ of.0 + count) }
{
    match of.0.checked_add(count) {
        Some(number) => Ok(DeclId(number)),
        None => Err(Want),
    }
}

// A member without parameters that answers an object of the class.
fn enum_member<S: Surroundings>(
    alloc: Global,
    outside: &S,
    place: Place,
    function: DeclId,
    role: Role,
    name: &[u8],
    of: ClassId,
) -> Result<Member, Want>
    ensures { IfOk result (λ made. shown.member (S.around outside.now).texts made
        ≡ source.enum_member place function.0 role name.now of.0) }
{
    let found = find(outside, name)?;
    Ok(Member {
        name: found,
        role,
        function,
        signature: returning(alloc, outside, of),
        place,
        has_body: true,
    })
}

// How far behind an enum its `toString` is numbered.
fn text_offset(x: &Enum) -> Result<u32, Want>
    ensures { IfOk result (λ made. made ≡ 5 + length x.now.more.items) }
{
    let Ok(more) = u32::try_from(x.more.len()) else {
        return Err(Want);
    };
    more.checked_add(5).ok_or(Want)
}

// The members of the class that an enum stands for: the index and the text of an element, and `toString`.
fn enum_members<S: Surroundings>(
    alloc: Global,
    outside: &S,
    place: Place,
    number: DeclId,
    x: &Enum,
) -> Result<Vec<Member>, Want>
    ensures { IfOk result (λ made. all_members (S.around outside.now) made
        ≡ source.enum_members (S.around outside.now).tables place number.0 (unit_view.enum x.now)) }
{
    let int = outside.int_class();
    let text = outside.string_class();
    let last = behind(number, text_offset(x)?)?;
    let first = behind(number, 1)?;
    let second = behind(number, 2)?;
    let index = enum_member(alloc, outside, place, first, Role::Getter, b"index", int)?;
    let spelling = enum_member(alloc, outside, place, second, Role::Getter, b"enum", text)?;
    let answer = enum_member(alloc, outside, place, last, Role::Method, b"toString", text)?;
    let mut made = Vec::new(alloc);
    made.push(index)?;
    made.push(spelling)?;
    made.push(answer)?;
    Ok(made)
}

/// The class that an enum stands for.
pub fn enum_row<S: Surroundings, P: Positions>(
    alloc: Global,
    headers: &S,
    members: &S,
    positions: &P,
    home: Home,
    x: &Enum,
) -> Result<Declaration, Want>
    ensures { IfOk result (λ made. shown.class (S.around members.now).texts made ≡ source.enum_row
        (given_of (S.around headers.now) (S.around members.now) (P.libraries positions.now) (P.numbers positions.now))
        (source_unit home []) (unit_view.enum x.now)) }
{
    let place = place_of(&x.name);
    let decl = number_at(positions, place)?;
    let name = name_in(alloc, members, home.library, text_of(&x.name))?;
    let found = enum_members(alloc, members, place, decl, x)?;
    Ok(Declaration {
        name,
        library: home.library,
        place,
        decl,
        is_abstract: false,
        is_application: false,
        standing: Standing {
            is_user: home.is_user,
            is_basic: false,
            has_external: false,
            has_constructor: true,
            names_super: false,
        },
        bounds: Vec::new(alloc),
        superclass: None,
        mixins: Vec::new(alloc),
        interfaces: Vec::new(alloc),
        members: found,
        fields: 2,
    })
}
