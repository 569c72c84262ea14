// How many accessors the fields of a class have.
ghost use Rattle.std.specs.Prelude.{◌≡◌, map, IfOk};
ghost use Rattle.dart_tree.specs.UnitView as unit_view;
ghost use Rattle.dart_tree.specs.View as view;
ghost use Rattle.translation.specs.Classes.{is_static};
ghost use Rattle.scope_program.specs.Classes.{accessor_count, member_accessors, variable_accessors};

use dart_tree::declaration::{Member, MemberKind, Modifier};
use dart_tree::statement::Variables;
use lower_leaf::fault::Want;
use lower_leaf::types::is_final;

fn is_static(of: Modifier) -> bool
    ensures { result ≡ is_static of }
{
    match of {
        Modifier::Omitted => false,
        Modifier::Static(_) | Modifier::ExternalStatic(_, _) => true,
    }
}

// How many accessors the variables of a declaration have, where they are fields of instances.
fn variable_accessors(x: &Variables) -> Result<u32, Want>
    ensures { IfOk result (λ made. made ≡ variable_accessors (view.variables x.now)) }
{
    let behind = x.more.as_slice();
    let Ok(more) = u32::try_from(behind.len()) else {
        return Err(Want);
    };
    let Some(names) = more.checked_add(1) else {
        return Err(Want);
    };
    if is_final(&x.kind) {
        return Ok(names);
    }
    match names.checked_mul(2) {
        Some(all) => Ok(all),
        None => Err(Want),
    }
}

fn member_accessors(member: &Member) -> Result<u32, Want>
    ensures { IfOk result (λ made. made ≡ member_accessors (unit_view.member member.now)) }
{
    if is_static(member.modifier) {
        return Ok(0);
    }
    match &member.kind {
        MemberKind::Variables(x) => variable_accessors(x),
        MemberKind::Constructor(_) => Ok(0),
        MemberKind::Function(_) => Ok(0),
        MemberKind::Accessor(_) => Ok(0),
        MemberKind::Operator(_) => Ok(0),
    }
}

/// How many implicit accessors the fields of instances among the members have (ECMA-408, 10.5 Instance Variables). `Want` where
/// there are more than numbers.
pub fn accessor_count(members: &[Member]) -> Result<u32, Want>
    ensures { IfOk result (λ made. made ≡ accessor_count (map unit_view.member members.now)) }
{
    let mut count: u32 = 0;
    for member in members {
        let Some(next) = count.checked_add(member_accessors(member)?) else {
            return Err(Want);
        };
        count = next;
    }
    Ok(count)
}
