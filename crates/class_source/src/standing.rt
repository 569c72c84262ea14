// What headers ask of the members that a class declares.
ghost use Rattle.std.specs.Prelude.{◌≡◌};
ghost use Rattle.std.specs.List.{list_any};
ghost use Rattle.std.specs.Option.{is_some};
ghost use Rattle.dart_tree.specs.UnitView as view;
ghost use Rattle.dart_tree.specs.declared.declaration.Member.{Member};
ghost use Rattle.class_source.specs.Members.{constructor_external, written_external, is_external_member, is_constructor_member};

use dart_tree::declaration::{Constructor, Member, MemberKind, Modifier};

/// Whether a class declares external members, static ones and constructors included.
pub fn has_external(members: &[Member]) -> bool
    ensures { result ≡ list_any (λ (m : Member). is_external_member (view.member m)) members.now }
{
    members.iter().any(|member| is_external_member(member))
}

/// Whether a class declares a constructor.
pub fn has_constructor(members: &[Member]) -> bool
    ensures { result ≡ list_any (λ (m : Member). is_constructor_member (view.member m)) members.now }
{
    members.iter().any(|member| is_constructor_member(member))
}

fn is_constructor_member(member: &Member) -> bool
    ensures { result ≡ is_constructor_member (view.member member.now) }
{
    match member.kind {
        MemberKind::Constructor(_) => true,
        MemberKind::Function(_) => false,
        MemberKind::Accessor(_) => false,
        MemberKind::Variables(_) => false,
        MemberKind::Operator(_) => false,
    }
}

fn is_external_member(member: &Member) -> bool
    ensures { result ≡ is_external_member (view.member member.now) }
{
    match member.modifier {
        Modifier::ExternalStatic(_, _) => true,
        Modifier::Static(_) => is_external_kind(&member.kind),
        Modifier::Omitted => is_external_kind(&member.kind),
    }
}

#[tactic(auto, using(dart_tree::proofs::Rows::view_the_function))]
fn is_external_kind(kind: &MemberKind) -> bool
    ensures { result ≡ is_some (written_external (view.member_kind kind.now)) }
{
    match kind {
        MemberKind::Constructor(made) => is_external_constructor(made),
        MemberKind::Function(made) => made.external.is_some(),
        MemberKind::Accessor(made) => made.external.is_some(),
        MemberKind::Variables(_) => false,
        MemberKind::Operator(made) => made.external.is_some(),
    }
}

fn is_external_constructor(made: &Constructor) -> bool
    ensures { result ≡ is_some (constructor_external (view.constructor made.now)) }
{
    match made {
        Constructor::Generative { .. } => false,
        Constructor::Redirecting { .. } => false,
        Constructor::Factory { external, .. } => external.is_some(),
        Constructor::RedirectingFactory { external, .. } => external.is_some(),
    }
}
