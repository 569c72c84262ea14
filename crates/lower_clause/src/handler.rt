// Handlers, and a try from its parts (ECMA-408, 17.11 Try).
#![tactic(auto, unfolding(translation::specs::Walk::on))]

ghost use Rattle.lower_clause.specs.Parts.{caught, declared_trace, handled, handled_behind, handler_test, option_number, try_core};
ghost use Rattle.lower_leaf.specs.Forms.{core};
ghost use Rattle.lower_leaf.specs.Gives.{Gives};
ghost use Rattle.lower_leaf.specs.Kept.{typed};
ghost use Rattle.lower_leaf.specs.Seen.{seen};
ghost use Rattle.std.specs.Prelude.{◌≡◌, None, Some, IfOk};
ghost use Rattle.core_program.specs.Core as c;
ghost use Rattle.translation.specs.Productions as low;
ghost use Rattle.translation.specs.Statements as s;

use core_program::form::{Attempt, Core, Form, Handler, Leaf, Part, Test};
use dart_base::bytes::Bytes;
use dart_base::place::Place;
use dart_ir::kind::ThrowKind;
use dart_tree::identifier::CommaName;
use lower_leaf::fault::{LowerFault, Want};
use lower_leaf::form::{given, leaf};
use lower_leaf::name::{find, text_of};
use lower_leaf::site::unasked;
use lower_leaf::state::{State, declared};
use lower_leaf::surroundings::Surroundings;
use lower_leaf::types::Typed;
use std::alloc::Global;

/// What is caught, and the body of the handler.
#[derive(Drop)]
pub struct Caught {
    /// The variable that holds what was thrown.
    pub exception: Option<u32>,
    /// The variable that holds the stack trace.
    pub trace: Option<u32>,
    pub body: Core,
}

/// The handlers and the final part of a `try`.
#[derive(Drop)]
pub struct Handled {
    pub handlers: Vec<Handler>,
    pub last: Part,
}

/// The test of a handler without a type.
#[tactic(auto, using(crate::proofs::Formed::formed), unfolding(lower_leaf::specs::Forms::core, lower_leaf::specs::Forms::part, lower_leaf::specs::Around::ty, crate::specs::Parts::case, crate::specs::Parts::handler, crate::specs::Parts::handler_test))]
pub fn everything<S: Surroundings>(outside: &S) -> Test
    ensures { handler_test (S.around outside.now) result ≡ c.everything }
{
    Test::Everything
}

/// A malformed type raises where the test is reached.
#[tactic(auto, using(crate::proofs::Formed::formed), unfolding(lower_leaf::specs::Forms::core, lower_leaf::specs::Forms::part, lower_leaf::specs::Around::ty, crate::specs::Parts::case, crate::specs::Parts::handler, crate::specs::Parts::handler_test))]
pub fn test_of<S: Surroundings>(
    alloc: Global,
    outside: &S,
    place: Place,
    of: Typed,
) -> Result<Test, Want>
    ensures { IfOk result (λ made. handler_test (S.around outside.now) made ≡ s.test_of place (typed (S.around outside.now) of)) }
{
    match of {
        Typed::WellFormed(of) => Ok(Test::On(of)),
        Typed::Malformed(name) => {
            let name = find(outside, name.as_slice())?;
            let raised = Leaf::Raise {
                error: ThrowKind::MalformedTypeError,
                name,
                is_setter: false,
            };
            let form = leaf(outside, place, raised);
            Ok(Test::Malformed(Box::new(alloc, form)?))
        }
    }
}

/// A handler, behind those before it.
#[tactic(auto, using(crate::proofs::Formed::formed), unfolding(lower_leaf::specs::Forms::core, lower_leaf::specs::Forms::part, lower_leaf::specs::Around::ty, crate::specs::Parts::case, crate::specs::Parts::handler, crate::specs::Parts::handler_test))]
pub fn with_handler<S: Surroundings>(
    outside: &S,
    before: Handled,
    of: Test,
    x: Caught,
) -> Result<Handled, Want>
    ensures { IfOk result (λ made. handled (S.around outside.now) made ≡ handled_behind (handled (S.around outside.now) before)
        (s.with_handler (s.handler_of (handler_test (S.around outside.now) of) (caught (S.around outside.now) x)) low.without_parts)) }
{
    let mut handlers = before.handlers;
    handlers.push(Handler {
        test: of,
        exception: x.exception,
        trace: x.trace,
        body: x.body,
    })?;
    Ok(Handled {
        handlers,
        last: before.last,
    })
}

/// A final part, behind the handlers.
#[tactic(auto, using(crate::proofs::Formed::formed), unfolding(lower_leaf::specs::Forms::core, lower_leaf::specs::Forms::part, lower_leaf::specs::Around::ty, crate::specs::Parts::case, crate::specs::Parts::handler, crate::specs::Parts::handler_test))]
pub fn with_last<S: Surroundings>(
    alloc: Global,
    outside: &S,
    before: Handled,
    form: Core,
) -> Result<Handled, Want>
    ensures { IfOk result (λ made. handled (S.around outside.now) made ≡ handled_behind (handled (S.around outside.now) before)
        (low.with_last (core (S.around outside.now) form) low.without_parts)) }
{
    match &before.last {
        Part::Given(_) => Ok(before),
        Part::Missing => Ok(Handled {
            handlers: before.handlers,
            last: given(outside, alloc, form)?,
        }),
    }
}

/// The variable of a stack trace.
pub fn declared_trace<S: Surroundings>(
    alloc: Global,
    outside: &S,
    state: &mut State,
    of: &Option<CommaName>,
) -> Result<Option<u32>, LowerFault>
    ensures { Gives option_number result (seen (S.around outside.now) state.new)
        (declared_trace (s.comma_text of.now) (seen (S.around outside.now) state.old)) }
{
    match of {
        None => Ok(None),
        Some(of) => {
            let name = Bytes::from_slice(alloc, text_of(&of.name))?;
            let x = declared(alloc, outside, state, name, unasked(), false)?;
            Ok(Some(x))
        }
    }
}

/// A `try` from its parts.
#[tactic(auto, using(crate::proofs::Formed::formed), unfolding(lower_leaf::specs::Forms::core, lower_leaf::specs::Forms::part, lower_leaf::specs::Around::ty, crate::specs::Parts::case, crate::specs::Parts::handler, crate::specs::Parts::handler_test))]
pub fn try_core<S: Surroundings>(
    alloc: Global,
    outside: &S,
    place: Place,
    body: Core,
    of: Handled,
) -> Result<Core, Want>
    ensures { IfOk result (λ made. core (S.around outside.now) made
        ≡ try_core place (core (S.around outside.now) body) (handled (S.around outside.now) of)) }
{
    let made = Box::new(
        alloc,
        Attempt {
            body,
            handlers: of.handlers,
            last: of.last,
        },
    )?;
    Ok(Core {
        place,
        form: Form::Try(made),
    })
}
