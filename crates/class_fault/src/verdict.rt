// Why a class may not name another one that doesn't lead back to it.
ghost use Rattle.std.specs.Prelude.{◌≡◌};
ghost use Rattle.class_fault.specs.Fault.{static_reason, is_forbidden, is_bad_mixin, can_mix, is_plain};

use crate::fault::Reason;
use crate::program::{Clause, Declaration, Program, class_named};

/// Why the clause of a class may not name class e, where that doesn't lead back to it.
pub fn static_reason(
    program: &Program,
    class: &Declaration,
    e: usize,
    named: &Declaration,
    clause: Clause,
) -> Option<Reason>
    ensures { result ≡ static_reason program.now class.now e named.now clause }
{
    if is_forbidden(program, class, e, named, clause) {
        Some(Reason::BadSuper)
    } else if is_bad_mixin(program, e, named, clause) {
        Some(Reason::BadMixin)
    } else {
        None
    }
}

/// Whether a class of a user's file names a class of a library of the system that it may not name.
fn is_forbidden(
    program: &Program,
    class: &Declaration,
    e: usize,
    named: &Declaration,
    clause: Clause,
) -> bool
    ensures { result ≡ is_forbidden program.now class.now e named.now clause }
{
    class.standing.is_user
        && !named.standing.is_user
        && (named.standing.is_basic
            || (clause != Clause::Implements && named.standing.has_external && e != program.object))
}

/// Whether a class is mixed in that can't be.
fn is_bad_mixin(program: &Program, e: usize, named: &Declaration, clause: Clause) -> bool
    ensures { result ≡ is_bad_mixin program.now e named.now clause }
{
    match clause {
        Clause::With => !can_mix(program, e, named),
        Clause::Extends => false,
        Clause::Implements => false,
    }
}

/// Whether a class may be mixed in (ECMA-408, Mixins): its superclass is `Object`, it declares no constructor and names
/// no `super`. A class that is written as the application of one mixin to `Object` may be, too.
fn can_mix(program: &Program, e: usize, named: &Declaration) -> bool
    ensures { result ≡ can_mix program.now e named.now }
{
    let mixins = if named.is_application { 1 } else { 0 };
    e != program.object
        && is_plain(program, named)
        && !named.standing.has_constructor
        && !named.standing.names_super
        && named.mixins.len() == mixins
}

/// Whether a class names no superclass but `Object`.
fn is_plain(program: &Program, named: &Declaration) -> bool
    ensures { result ≡ is_plain program.now named.now.superclass }
{
    match &named.superclass {
        None => true,
        Some(t) => match class_named(&t.of) {
            Some(class) => class == program.object,
            None => false,
        },
    }
}
