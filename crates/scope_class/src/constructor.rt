// The constructors that a class writes, by their ids.
ghost use Rattle.std.specs.Prelude.{◌≡◌, ◌+◌, ◌++◌, ◌<◌, ◌^◌, List, ℕ, Some, None, IfOk, OnOk, bytes_eq, length, map, if◌then◌else◌};
ghost use Rattle.std.specs.Option.{option_map, option_or};
ghost use Rattle.std.specs.List.{enumerate_from};
ghost use Rattle.dart_tree.specs.UnitView as view;
ghost use Rattle.lower_leaf.specs.Around.{constructor};
ghost use Rattle.scope_dictionary.specs.Entries.{at_text};
ghost use Rattle.scope_class.specs.Constructors.{constructor_among, constructor_id, constructor_in, constructor_making, constructor_of, is_constructor};
ghost use Rattle.scope_class.specs.Constructors.{made_by, makings, member_makings};

use crate::within::within;
use dart_base::names::Names;
use dart_ir::number::DeclId;
use dart_tree::declaration::{Constructor as Tree, Member, MemberKind};
use lower_leaf::fault::Want;
use lower_leaf::meaning::Constructor;
use scope_declared::declaration::{Declared, DeclaredKind};
use std::alloc::{AllocError, Global};
use std::collections::HashMap;

/// What a constructor is written as (ECMA-408, 10.6 Constructors).
#[derive(Clone, Copy)]
pub enum Making {
    /// A generative one, which may redirect (10.6.1 Generative Constructors)
    Generative,
    /// A factory, which may redirect (10.6.2 Factories)
    Factory,
}

/// The constructors that a class writes, by their ids.
#[derive(Drop)]
pub struct Constructors {
    made: HashMap<Vec<u8>, Constructor>,
}

impl Constructors {
    /// The constructor with the id, which is as the table has it, and empty for the unnamed one. Takes no memory.
    pub fn constructor(&self, id: &[u8]) -> Constructor
        ensures { constructor result ≡ constructor_in self.now id.now }
    {
        match self.made.get(id) {
            Some(found) => *found,
            None => Constructor::Missing,
        }
    }
}

fn constructor_making(tree: &Tree) -> Making
    ensures { result ≡ constructor_making (view.constructor tree.now) }
{
    match tree {
        Tree::Generative { .. } | Tree::Redirecting { .. } => Making::Generative,
        Tree::Factory { .. } | Tree::RedirectingFactory { .. } => Making::Factory,
    }
}

fn add_making(ways: &mut Vec<Making>, tree: &MemberKind) -> Result<(), AllocError>
    ensures { OnOk result (ways.new.items ≡ ways.old.items ++ member_makings (view.member_kind tree.now)) }
{
    if let MemberKind::Constructor(tree) = tree {
        ways.push(constructor_making(tree))?;
    }
    Ok(())
}

/// What the constructors among the members of a class are written as, in turn.
pub fn makings(alloc: Global, members: &[Member]) -> Result<Vec<Making>, AllocError>
    ensures { IfOk result (λ ways. ways.items ≡ makings (map view.member members.now)) }
{
    let mut ways = Vec::new(alloc);
    for member in members {
        add_making(&mut ways, &member.kind)?;
    }
    Ok(ways)
}

fn is_constructor(kind: DeclaredKind) -> bool
    ensures { result ≡ is_constructor kind }
{
    match kind {
        DeclaredKind::Constructor | DeclaredKind::NamedConstructor => true,
        _ => false,
    }
}

fn made_by(way: Making, number: u32) -> Constructor
    ensures { constructor result ≡ made_by way number }
{
    match way {
        Making::Generative => Constructor::Generative(DeclId(number)),
        Making::Factory => Constructor::Factory(DeclId(number)),
    }
}

fn constructor_id<'a>(names: &'a Names, one: &Declared) -> Result<&'a [u8], Want>
    ensures { IfOk result (λ id. id.now ≡ constructor_id names.now one.now) }
{
    match one.kind {
        DeclaredKind::NamedConstructor => {
            if one.name.0 >= names.count() {
                return Err(Want);
            }
            let name = names.text(one.name);
            Ok(name.as_bytes())
        }
        _ => Ok(b""),
    }
}

// Adds a constructor, where none has its id yet.
fn add_constructor(
    alloc: Global,
    id: &[u8],
    found: Constructor,
    made: &mut HashMap<Vec<u8>, Constructor>,
) -> Result<(), Want>
    ensures { OnOk result ((other : List ℕ) → option_map constructor (at_text made.new other)
        ≡ option_or (option_map constructor (at_text made.old other)) (if bytes_eq other id.now then Some (constructor found) else None)) }
{
    if made.contains_key(id) {
        return Ok(());
    }
    let owned = Vec::from_slice(alloc, id)?;
    made.insert(owned, found)?;
    Ok(())
}

// The constructors among declarations with numbers from the first on, by their ids.
fn constructors_among(
    alloc: Global,
    names: &Names,
    inside: &[Declared],
    first: u32,
    ways: &[Making],
) -> Result<HashMap<Vec<u8>, Constructor>, Want>
    requires { first + length inside.now < 2 ^ 32 }
    ensures { IfOk result (λ made. (id : List ℕ) → option_map constructor (at_text made id)
        ≡ constructor_among names.now (enumerate_from first inside.now) ways.now id) }
{
    let mut made = HashMap::new(alloc);
    let mut number = first;
    let mut place: usize = 0;
    for one in inside {
        if is_constructor(one.kind) {
            if place < ways.len() {
                let id = constructor_id(names, one)?;
                add_constructor(alloc, id, made_by(ways[place], number), &mut made)?;
            }
            place += 1;
        }
        number += 1;
    }
    Ok(made)
}

/// The constructors of the class of that declaration, whose members write them in these ways in turn (ECMA-408, 10.6
/// Constructors). `Want` where memory runs out, or the table lacks the name of a constructor.
pub fn class_constructors(
    alloc: Global,
    names: &Names,
    numbered: &[Declared],
    class: u32,
    ways: &[Making],
) -> Result<Constructors, Want>
    requires few { length numbered.now < 2 ^ 32 }
    requires listed { class < length numbered.now }
    ensures { IfOk result (λ made. (id : List ℕ) → constructor_in made id ≡ constructor_of names.now numbered.now class ways.now id) }
{
    let inside = within(numbered, class);
    let made = constructors_among(alloc, names, inside, class + 1, ways)?;
    Ok(Constructors { made })
}
