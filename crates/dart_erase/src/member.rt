// Members of classes, and accessors, without annotations.
ghost use Rattle.std.specs.Prelude.{◌≡◌, IfOk, Option, None, Some, map};
ghost use Rattle.dart_erase.specs.UnitErased as unit_erased;
ghost use Rattle.dart_tree.specs.UnitView as unit_view;

use crate::expression::{erase_arguments, erase_cascades, erase_operand};
use crate::statement::{
    erase_body, erase_function, erase_metadata, erase_parameters, erase_variables,
};
use dart_node::declaration::try_clone_constructor_name;
use dart_node::leaf::{try_clone_identifier, try_clone_maybe_dot_name, try_clone_type};
use dart_tree::declaration::{
    Accessor, AccessorKind, Constructor, Init, InitKind, Initializers, Member, MemberKind,
    OperatorMember,
};
use std::alloc::{AllocError, Global};

/// `super.a(b)` or `this.a = b..c()` (ECMA-408, 10.6.1, Initializer Lists).
fn erase_init_kind(alloc: Global, tree: &InitKind) -> Result<InitKind, AllocError>
    ensures { IfOk result (λ x. unit_view.init_kind x ≡
        unit_erased.init_kind (unit_view.init_kind tree.now)) }
{
    match tree {
        InitKind::Super {
            word,
            constructor,
            arguments,
        } => {
            let constructor = try_clone_maybe_dot_name(alloc, constructor)?;
            let arguments = erase_arguments(alloc, arguments)?;
            Ok(InitKind::Super {
                word: *word,
                constructor,
                arguments,
            })
        }
        InitKind::Field {
            this_dot,
            name,
            equals,
            operand,
            cascades,
        } => {
            let name = try_clone_identifier(alloc, name)?;
            let operand = erase_operand(alloc, operand)?;
            let cascades = erase_cascades(alloc, cascades)?;
            Ok(InitKind::Field {
                this_dot: *this_dot,
                name,
                equals: *equals,
                operand,
                cascades,
            })
        }
    }
}

/// An initializer, with the comma before it.
fn erase_init(alloc: Global, tree: &Init) -> Result<Init, AllocError>
    ensures { IfOk result (λ x. unit_view.init x ≡ unit_erased.init (unit_view.init tree.now)) }
{
    let kind = erase_init_kind(alloc, &tree.kind)?;
    Ok(Init {
        comma: tree.comma,
        kind,
    })
}

/// `super(a), b = c`
fn erase_inits(alloc: Global, all: &Vec<Init>) -> Result<Vec<Init>, AllocError>
    ensures { IfOk result (λ x. map unit_view.init x.items ≡
        map unit_erased.init (map unit_view.init all.now.items)) }
{
    let mut found = Vec::new(alloc);
    for one in all {
        let one = erase_init(alloc, one)?;
        found.push(one)?;
    }
    Ok(found)
}

/// `: super(a), b = c` (ECMA-408, 10.6.1, Initializer Lists).
fn erase_initializers(alloc: Global, tree: &Initializers) -> Result<Initializers, AllocError>
    ensures { IfOk result (λ x. unit_view.initializers x ≡
        unit_erased.initializers (unit_view.initializers tree.now)) }
{
    let items = erase_inits(alloc, &tree.items)?;
    Ok(Initializers {
        colon: tree.colon,
        items,
    })
}

/// The initializers that a constructor may have.
fn erase_maybe_initializers(
    alloc: Global,
    tree: &Option<Initializers>,
) -> Result<Option<Initializers>, AllocError>
    ensures { IfOk result (λ x. unit_view.maybe unit_view.initializers x ≡
        unit_view.maybe unit_erased.initializers (unit_view.maybe unit_view.initializers tree.now)) }
{
    match tree {
        None => Ok(None),
        Some(tree) => {
            let tree = erase_initializers(alloc, tree)?;
            Ok(Some(tree))
        }
    }
}

/// A constructor (ECMA-408, 10.6 Constructors). The type to which a factory redirects stays.
fn erase_constructor(alloc: Global, tree: &Constructor) -> Result<Constructor, AllocError>
    ensures { IfOk result (λ x. unit_view.constructor x ≡
        unit_erased.constructor (unit_view.constructor tree.now)) }
{
    match tree {
        Constructor::Generative {
            constant,
            name,
            parameters,
            initializers,
            body,
        } => {
            let name = try_clone_constructor_name(alloc, name)?;
            let parameters = erase_parameters(alloc, parameters)?;
            let initializers = erase_maybe_initializers(alloc, initializers)?;
            let body = erase_body(alloc, body)?;
            Ok(Constructor::Generative {
                constant: *constant,
                name,
                parameters,
                initializers,
                body,
            })
        }
        Constructor::Redirecting {
            name,
            parameters,
            colon,
            this,
            constructor,
            arguments,
            semicolon,
        } => {
            let name = try_clone_constructor_name(alloc, name)?;
            let parameters = erase_parameters(alloc, parameters)?;
            let constructor = try_clone_maybe_dot_name(alloc, constructor)?;
            let arguments = erase_arguments(alloc, arguments)?;
            Ok(Constructor::Redirecting {
                name,
                parameters,
                colon: *colon,
                this: *this,
                constructor,
                arguments,
                semicolon: *semicolon,
            })
        }
        Constructor::Factory {
            external,
            word,
            name,
            parameters,
            body,
        } => {
            let name = try_clone_constructor_name(alloc, name)?;
            let parameters = erase_parameters(alloc, parameters)?;
            let body = erase_body(alloc, body)?;
            Ok(Constructor::Factory {
                external: *external,
                word: *word,
                name,
                parameters,
                body,
            })
        }
        Constructor::RedirectingFactory {
            external,
            word,
            name,
            parameters,
            equals,
            class,
            constructor,
            semicolon,
        } => {
            let name = try_clone_constructor_name(alloc, name)?;
            let parameters = erase_parameters(alloc, parameters)?;
            let class = try_clone_type(alloc, class)?;
            let constructor = try_clone_maybe_dot_name(alloc, constructor)?;
            Ok(Constructor::RedirectingFactory {
                external: *external,
                word: *word,
                name,
                parameters,
                equals: *equals,
                class,
                constructor,
                semicolon: *semicolon,
            })
        }
    }
}

/// `get a` or `set a(b)` (ECMA-408, 10.2 Getters and 10.3 Setters).
fn erase_accessor_kind(alloc: Global, tree: &AccessorKind) -> Result<AccessorKind, AllocError>
    ensures { IfOk result (λ x. unit_view.accessor_kind x ≡
        unit_erased.accessor_kind (unit_view.accessor_kind tree.now)) }
{
    match tree {
        AccessorKind::Get(word, name) => {
            let name = try_clone_identifier(alloc, name)?;
            Ok(AccessorKind::Get(*word, name))
        }
        AccessorKind::Set {
            word,
            name,
            parameters,
        } => {
            let name = try_clone_identifier(alloc, name)?;
            let parameters = erase_parameters(alloc, parameters)?;
            Ok(AccessorKind::Set {
                word: *word,
                name,
                parameters,
            })
        }
    }
}

/// `get a => b;` without a result type (ECMA-408, 10.2 Getters and 10.3 Setters).
pub fn erase_accessor(alloc: Global, tree: &Accessor) -> Result<Accessor, AllocError>
    ensures { IfOk result (λ x. unit_view.accessor x ≡
        unit_erased.accessor (unit_view.accessor tree.now)) }
{
    let kind = erase_accessor_kind(alloc, &tree.kind)?;
    let body = erase_body(alloc, &tree.body)?;
    Ok(Accessor {
        external: tree.external,
        result_type: None,
        kind,
        body,
    })
}

/// `operator +(a) => b;` without a result type (ECMA-408, 10.1.1 Operators).
fn erase_operator_member(alloc: Global, tree: &OperatorMember) -> Result<OperatorMember, AllocError>
    ensures { IfOk result (λ x. unit_view.operator_member x ≡
        unit_erased.operator_member (unit_view.operator_member tree.now)) }
{
    let parameters = erase_parameters(alloc, &tree.parameters)?;
    let body = erase_body(alloc, &tree.body)?;
    Ok(OperatorMember {
        external: tree.external,
        result_type: None,
        word: tree.word,
        name: tree.name,
        parameters,
        body,
    })
}

/// What a member declares (ECMA-408, 10 Classes).
fn erase_member_kind(alloc: Global, tree: &MemberKind) -> Result<MemberKind, AllocError>
    ensures { IfOk result (λ x. unit_view.member_kind x ≡
        unit_erased.member_kind (unit_view.member_kind tree.now)) }
{
    match tree {
        MemberKind::Constructor(tree) => {
            let tree = erase_constructor(alloc, tree)?;
            Ok(MemberKind::Constructor(tree))
        }
        MemberKind::Function(tree) => {
            let tree = erase_function(alloc, tree)?;
            Ok(MemberKind::Function(tree))
        }
        MemberKind::Accessor(tree) => {
            let tree = erase_accessor(alloc, tree)?;
            Ok(MemberKind::Accessor(tree))
        }
        MemberKind::Variables(tree) => {
            let tree = erase_variables(alloc, tree)?;
            Ok(MemberKind::Variables(tree))
        }
        MemberKind::Operator(tree) => {
            let tree = erase_operator_member(alloc, tree)?;
            Ok(MemberKind::Operator(tree))
        }
    }
}

/// A member of a class, with its metadata (ECMA-408, 10 Classes).
pub fn erase_member(alloc: Global, tree: &Member) -> Result<Member, AllocError>
    ensures { IfOk result (λ x. unit_view.member x ≡
        unit_erased.member (unit_view.member tree.now)) }
{
    let metadata = erase_metadata(alloc, &tree.metadata)?;
    let kind = erase_member_kind(alloc, &tree.kind)?;
    Ok(Member {
        metadata,
        modifier: tree.modifier,
        kind,
    })
}

/// The members of a class.
pub fn erase_members(alloc: Global, all: &Vec<Member>) -> Result<Vec<Member>, AllocError>
    ensures { IfOk result (λ x. map unit_view.member x.items ≡
        map unit_erased.member (map unit_view.member all.now.items)) }
{
    let mut found = Vec::new(alloc);
    for one in all {
        let one = erase_member(alloc, one)?;
        found.push(one)?;
    }
    Ok(found)
}
