// Where in a unit there is no instance.
ghost use Rattle.std.specs.Prelude.{◌≡◌, ◌++◌, IfOk, OnOk, flat_map, map};
ghost use Rattle.dart_tree.specs.UnitView as uv;
ghost use Rattle.dart_tree.specs.View as view;
ghost use Rattle.scope_table.specs.Instance.{body_first, class_kind_stretches, constructor_last};
ghost use Rattle.scope_table.specs.Instance.{constructor_stretch, decl_stretches};
ghost use Rattle.scope_table.specs.Instance.{initializers_stretch, member_last};
ghost use Rattle.scope_table.specs.Instance.{member_stretch, member_stretches, object_member_stretch};
ghost use Rattle.scope_table.specs.Instance.{unit_stretches, variables_stretch};

use dart_base::place::Place;
use dart_tree::declaration::{
    ClassKind, Constructor, Decl, DeclKind, Initializers, Member, MemberKind, Modifier,
};
use dart_tree::statement::{Body, Variables};
use dart_tree::unit::Unit;
use scope_declared::last::{body_last, function_last, identifier_place, variables_last};
use std::alloc::{AllocError, Global};

/// From one token of a unit to another, both included.
#[derive(Clone, Copy, Debug, PartialEq, Eq)]
pub struct Stretch {
    pub first: Place,
    pub last: Place,
}

fn body_first(tree: &Body) -> Place
    ensures { result ≡ body_first (view.body tree.now) }
{
    match tree {
        Body::Arrow {
            arrow,
            value: _,
            semicolon: _,
        } => *arrow,
        Body::Block(block) => block.opening,
        Body::Omitted(semicolon) => *semicolon,
    }
}

fn constructor_last(tree: &Constructor) -> Place
    ensures { result ≡ constructor_last (uv.constructor tree.now) }
{
    match tree {
        Constructor::Generative {
            constant: _,
            name: _,
            parameters: _,
            initializers: _,
            body,
        } => body_last(body),
        Constructor::Redirecting {
            name: _,
            parameters: _,
            colon: _,
            this: _,
            constructor: _,
            arguments: _,
            semicolon,
        } => *semicolon,
        Constructor::Factory {
            external: _,
            word: _,
            name: _,
            parameters: _,
            body,
        } => body_last(body),
        Constructor::RedirectingFactory {
            external: _,
            word: _,
            name: _,
            parameters: _,
            equals: _,
            class: _,
            constructor: _,
            semicolon,
        } => *semicolon,
    }
}

fn member_last(tree: &MemberKind) -> Place
    ensures { result ≡ member_last (uv.member_kind tree.now) }
{
    match tree {
        MemberKind::Constructor(made) => constructor_last(made),
        MemberKind::Function(made) => function_last(made),
        MemberKind::Accessor(made) => body_last(&made.body),
        MemberKind::Variables(made) => variables_last(made),
        MemberKind::Operator(made) => body_last(&made.body),
    }
}

fn initializers_stretch(initializers: &Option<Initializers>, body: &Body) -> Option<Stretch>
    ensures { result ≡ initializers_stretch (uv.maybe uv.initializers initializers.now) (view.body body.now) }
{
    match initializers {
        None => None,
        Some(tree) => Some(Stretch {
            first: tree.colon,
            last: body_first(body),
        }),
    }
}

fn constructor_stretch(tree: &Constructor) -> Option<Stretch>
    ensures { result ≡ constructor_stretch (uv.constructor tree.now) }
{
    match tree {
        Constructor::Generative {
            constant: _,
            name: _,
            parameters: _,
            initializers,
            body,
        } => initializers_stretch(initializers, body),
        Constructor::Redirecting {
            name: _,
            parameters: _,
            colon,
            this: _,
            constructor: _,
            arguments: _,
            semicolon,
        } => Some(Stretch {
            first: *colon,
            last: *semicolon,
        }),
        Constructor::Factory {
            external: _,
            word,
            name: _,
            parameters: _,
            body,
        } => Some(Stretch {
            first: *word,
            last: body_last(body),
        }),
        Constructor::RedirectingFactory {
            external: _,
            word,
            name: _,
            parameters: _,
            equals: _,
            class: _,
            constructor: _,
            semicolon,
        } => Some(Stretch {
            first: *word,
            last: *semicolon,
        }),
    }
}

fn variables_stretch(tree: &Variables) -> Stretch
    ensures { result ≡ variables_stretch (view.variables tree.now) }
{
    Stretch {
        first: identifier_place(&tree.name),
        last: tree.semicolon,
    }
}

fn object_member_stretch(tree: &MemberKind) -> Option<Stretch>
    ensures { result ≡ object_member_stretch (uv.member_kind tree.now) }
{
    match tree {
        MemberKind::Constructor(made) => constructor_stretch(made),
        MemberKind::Variables(made) => Some(variables_stretch(made)),
        MemberKind::Function(_) | MemberKind::Accessor(_) | MemberKind::Operator(_) => None,
    }
}

fn member_stretch(tree: &Member) -> Option<Stretch>
    ensures { result ≡ member_stretch (uv.member tree.now) }
{
    match tree.modifier {
        Modifier::Omitted => object_member_stretch(&tree.kind),
        Modifier::Static(word) | Modifier::ExternalStatic(_, word) => Some(Stretch {
            first: word,
            last: member_last(&tree.kind),
        }),
    }
}

fn add_member(found: &mut Vec<Stretch>, tree: &Member) -> Result<(), AllocError>
    ensures { OnOk result (found.new.items ≡ found.old.items ++ member_stretches (uv.member tree.now)) }
{
    match member_stretch(tree) {
        None => Ok(()),
        Some(stretch) => {
            found.push(stretch)?;
            Ok(())
        }
    }
}

fn add_members(found: &mut Vec<Stretch>, all: &Vec<Member>) -> Result<(), AllocError>
    ensures { OnOk result (found.new.items ≡ found.old.items ++
        flat_map member_stretches (map uv.member all.now.items)) }
{
    for one in all {
        add_member(found, one)?;
    }
    Ok(())
}

fn add_class_kind(found: &mut Vec<Stretch>, tree: &ClassKind) -> Result<(), AllocError>
    ensures { OnOk result (found.new.items ≡ found.old.items ++
        class_kind_stretches (uv.class_kind tree.now)) }
{
    match tree {
        ClassKind::Declared {
            superclass: _,
            interfaces: _,
            opening: _,
            members,
            closing: _,
        } => add_members(found, members),
        ClassKind::Mixed {
            equals: _,
            superclass: _,
            mixins: _,
            interfaces: _,
            semicolon: _,
        } => Ok(()),
    }
}

fn add_decl(found: &mut Vec<Stretch>, tree: &Decl) -> Result<(), AllocError>
    ensures { OnOk result (found.new.items ≡ found.old.items ++ decl_stretches (uv.decl tree.now)) }
{
    match &tree.kind {
        DeclKind::Class(made) => add_class_kind(found, &made.kind),
        DeclKind::Alias(_)
        | DeclKind::Function(_)
        | DeclKind::Accessor(_)
        | DeclKind::Variables(_)
        | DeclKind::Enum(_) => Ok(()),
    }
}

/// The stretches of a unit in which there is no instance, in the order of the text: static members, factories, what stands
/// between a constructor's parameters and its body, and the variables of objects with their initialisers (ECMA-408, 10
/// Classes). No two of them overlap.
pub fn stretches(alloc: Global, unit: &Unit) -> Result<Vec<Stretch>, AllocError>
    ensures { IfOk result (λ found. found.items ≡ unit_stretches (uv.unit unit.now)) }
{
    let mut found = Vec::new(alloc);
    for one in &unit.declarations {
        add_decl(&mut found, one)?;
    }
    Ok(found)
}
