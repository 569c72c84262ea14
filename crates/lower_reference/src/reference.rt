// What can be read, called or assigned.
ghost use Rattle.std.specs.Prelude.{◌≡◌, IfOk};
ghost use Rattle.translation.specs.References as r;
ghost use Rattle.translation.specs.Surroundings.{name_in};
ghost use Rattle.translation.specs.Types as y;
ghost use Rattle.lower_leaf.specs.Around.{text};
ghost use Rattle.lower_leaf.specs.Forms.{core};
ghost use Rattle.lower_leaf.specs.Seen.{seen};
ghost use Rattle.lower_reference.specs.Referred.{word, bound, reference};

use core_program::form::Core;
use dart_base::bytes::Bytes;
use dart_base::name::Name;
use dart_base::place::Place;
use dart_tree::identifier::Identifier;
use lower_leaf::fault::Want;
use lower_leaf::meaning::Meaning;
use lower_leaf::name::{own_name, place_of, text_of};
use lower_leaf::state::{Entry, State, entry_of};
use lower_leaf::surroundings::Surroundings;
use std::alloc::Global;
use std::rc::Rc;

/// An identifier at its place.
#[derive(Drop)]
pub struct PlacedName {
    pub place: Place,
    pub text: Bytes,
}

/// What a name is bound to.
#[derive(Drop)]
pub enum Bound {
    /// A local name.
    Local(Rc<Entry>),
    /// What the name means outside; and whether one that nothing gives is a member of `this`.
    Outer(bool, Meaning),
    /// An alias behind a prefix, with the place of its own name.
    AliasBehind(Place),
}

/// What can be read, called or assigned (ECMA-408, 16.32 Assignable Expressions).
#[derive(Drop)]
pub enum Reference {
    /// A value, which isn't assignable.
    Evaluated(Core),
    Named(PlacedName, Bound),
    /// `e.n`
    Member(Core, Name),
    /// `e[i]`
    Item(Core, Core),
    /// `super.n`
    SuperMember(Name),
    /// `super[i]`
    SuperItem(Core),
}

/// An identifier at its place.
pub fn word_of(alloc: Global, name: &Identifier) -> Result<PlacedName, Want>
    ensures { IfOk result (λ made. word made ≡ y.word_of name.now) }
{
    Ok(PlacedName {
        place: place_of(name),
        text: Bytes::from_slice(alloc, text_of(name))?,
    })
}

/// An identifier by itself.
pub fn identifier<S: Surroundings>(
    outside: &S,
    state: &State,
    name: PlacedName,
) -> Result<Reference, Want>
    ensures { IfOk result (λ made. reference (S.around outside.now) made
        ≡ r.identifier (word name) (seen (S.around outside.now) state.now)) }
{
    match entry_of(outside, state, name.text.as_slice()) {
        Some(entry) => {
            let entry = entry.clone()?;
            Ok(Reference::Named(name, Bound::Local(entry)))
        }
        None => {
            let of = outside.meaning(state.outer, name.text.as_slice());
            let of_this = state.inside.has_instance;
            Ok(Reference::Named(name, Bound::Outer(of_this, of)))
        }
    }
}

/// The name of a word in the library there.
pub fn name_of<S: Surroundings>(
    alloc: Global,
    outside: &S,
    state: &State,
    name: &[u8],
) -> Result<Name, Want>
    ensures { IfOk result (λ found. text (S.around outside.now) found
        ≡ name_in (seen (S.around outside.now) state.now).names.library name.now) }
{
    own_name(alloc, outside, state.outer, name)
}

fn clone_bound<S: Surroundings>(outside: &S, of: &Bound) -> Result<Bound, Want>
    ensures { IfOk result (λ made. bound (S.around outside.now) made ≡ bound (S.around outside.now) of.now) }
{
    match of {
        Bound::Local(entry) => Ok(Bound::Local(entry.clone()?)),
        Bound::Outer(of_this, meaning) => Ok(Bound::Outer(*of_this, *meaning)),
        Bound::AliasBehind(at) => Ok(Bound::AliasBehind(*at)),
    }
}

#[tactic(auto, unfolding(lower_leaf::specs::Forms::core))]
fn clone_core<S: Surroundings>(alloc: Global, outside: &S, form: &Core) -> Result<Core, Want>
    ensures { IfOk result (λ made. core (S.around outside.now) made ≡ core (S.around outside.now) form.now) }
{
    Ok(form.try_clone(alloc)?)
}

/// An equal one.
pub fn clone_reference<S: Surroundings>(
    alloc: Global,
    outside: &S,
    of: &Reference,
) -> Result<Reference, Want>
    ensures { IfOk result (λ made. reference (S.around outside.now) made ≡ reference (S.around outside.now) of.now) }
{
    match of {
        Reference::Evaluated(form) => Ok(Reference::Evaluated(clone_core(alloc, outside, form)?)),
        Reference::Named(name, bound) => {
            let name = PlacedName {
                place: name.place,
                text: Bytes::from_slice(alloc, name.text.as_slice())?,
            };
            Ok(Reference::Named(name, clone_bound(outside, bound)?))
        }
        Reference::Member(form, name) => {
            Ok(Reference::Member(clone_core(alloc, outside, form)?, *name))
        }
        Reference::Item(form, index) => {
            let form = clone_core(alloc, outside, form)?;
            Ok(Reference::Item(form, clone_core(alloc, outside, index)?))
        }
        Reference::SuperMember(name) => Ok(Reference::SuperMember(*name)),
        Reference::SuperItem(index) => {
            Ok(Reference::SuperItem(clone_core(alloc, outside, index)?))
        }
    }
}
