// An index of the members that instances of each class have.
ghost use Rattle.std.specs.Prelude.{◌≡◌, [], ◌∷◌, IfOk, cond, option_map, slice_get};
ghost use Rattle.dart_ir.specs.Classes.{IsValid};
ghost use Rattle.dart_ir.specs.declared.class.Classes.{Classes};
ghost use Rattle.dart_ir.specs.declared.class.Role.{Role};
ghost use Rattle.dart_type.specs.Member.{IsFirstMember, same_role, superclass_number};
ghost use Rattle.class_lookup.specs.Tree.{rest_of};
ghost use Rattle.class_lookup.specs.Index.{IsIndex, IsAdded, HasTrees, AreNames, member_id, root, roots_in, inherited_roots};

use crate::tree::{Node, WIDTH, find, put};
use dart_base::name::Name;
use dart_ir::class::{Classes, MemberInfo, Role};
use dart_ir::number::{ClassId, MemberId};
use dart_ir::types::TypeRef;
use std::alloc::{AllocError, Global};

/// The trees of a class: of each role its members by name, inherited ones included.
#[derive(Clone, Copy)]
pub struct Roots {
    pub methods: Option<u32>,
    pub getters: Option<u32>,
    pub setters: Option<u32>,
}

/// An index of the members of a table of classes. A class shares with its superclass what it doesn't declare itself, so
/// an index takes memory linear in the members of the table, times the digits of the longest name.
#[derive(Drop)]
pub struct Index {
    pub nodes: Vec<Node>,
    /// The trees of each class.
    pub roots: Vec<Roots>,
    /// How many digits the longest name of a member has.
    pub levels: u32,
}

impl Index {
    /// The index of a table.
    pub fn of(alloc: Global, classes: &Classes) -> Result<Index, AllocError>
        requires { IsValid classes.now }
        ensures { IfOk result (λ index. IsIndex classes.now index) }
    {
        let levels = levels_of(&classes.members);
        let mut nodes = Vec::new(alloc);
        let mut roots = Vec::new(alloc);
        for info in &classes.classes {
            let inherited = inherited(&roots, &info.superclass);
            let own = add_members(&mut nodes, levels, classes, &info.members, inherited)?;
            roots.push(own)?;
        }
        Ok(Index {
            nodes,
            roots,
            levels,
        })
    }

    /// The member of that name and role that an instance of the class has.
    pub fn member(&self, class: ClassId, name: Name, role: Role) -> Option<MemberId>
        ensures { (k : Classes) → IsIndex k self.now → IsFirstMember k class.0 name role result }
    {
        match self.roots.get(class.0 as usize) {
            None => None,
            Some(roots) => {
                let found = find(&self.nodes, self.levels, root(*roots, role), name.0);
                member_id(found)
            }
        }
    }
}

fn member_id(number: Option<u32>) -> Option<MemberId>
    ensures { result ≡ option_map member_id number }
{
    match number {
        None => None,
        Some(number) => Some(MemberId(number)),
    }
}

/// The tree of a role.
fn root(roots: Roots, role: Role) -> Option<u32>
    ensures { result ≡ root roots role }
{
    match role {
        Role::Method => roots.methods,
        Role::Getter => roots.getters,
        Role::Setter => roots.setters,
    }
}

/// The trees with another one of a role.
fn with_root(roots: Roots, role: Role, new: Option<u32>) -> Roots
    ensures { (r : Role) → root result r ≡ cond (same_role role r) new (root roots r) }
{
    match role {
        Role::Method => Roots {
            methods: new,
            getters: roots.getters,
            setters: roots.setters,
        },
        Role::Getter => Roots {
            methods: roots.methods,
            getters: new,
            setters: roots.setters,
        },
        Role::Setter => Roots {
            methods: roots.methods,
            getters: roots.getters,
            setters: new,
        },
    }
}

/// The trees of the superclass.
#[tactic(auto, using(dart_ir::proofs::View::views))]
fn inherited(roots: &[Roots], superclass: &Option<TypeRef>) -> Roots
    ensures { result ≡ inherited_roots roots.now (superclass_number superclass.now) }
{
    match superclass {
        Some(TypeRef::Class(class, _)) => roots_at(roots, class.0 as usize),
        Some(TypeRef::Dynamic) => NONE,
        Some(TypeRef::Bottom) => NONE,
        Some(TypeRef::Void) => NONE,
        Some(TypeRef::Param(_)) => NONE,
        Some(TypeRef::Function(_)) => NONE,
        None => NONE,
    }
}

/// The trees of a class.
fn roots_at(roots: &[Roots], class: usize) -> Roots
    ensures { result ≡ roots_in (slice_get roots.now class) }
{
    match roots.get(class) {
        None => NONE,
        Some(roots) => *roots,
    }
}

const NONE: Roots = Roots {
    methods: None,
    getters: None,
    setters: None,
};

/// The trees with the members that a class declares, before those that it inherits. The first of two members of one name
/// and role counts, so the last is put in first.
fn add_members(
    nodes: &mut Vec<Node>,
    levels: u32,
    classes: &Classes,
    members: &[MemberId],
    inherited: Roots,
) -> Result<Roots, AllocError>
    requires names { AreNames classes.now.members.items levels }
    requires trees { HasTrees nodes.old.items levels inherited }
    ensures { IfOk result (λ made. IsAdded classes.now nodes.old.items nodes.new.items levels members.now inherited made) }
{
    let mut roots = inherited;
    for j in (0..members.len()).rev() {
        roots = add_member(nodes, levels, classes, members[j], roots)?;
    }
    Ok(roots)
}

/// The trees with one more member, where that is a declaration.
fn add_member(
    nodes: &mut Vec<Node>,
    levels: u32,
    classes: &Classes,
    member: MemberId,
    roots: Roots,
) -> Result<Roots, AllocError>
    requires names { AreNames classes.now.members.items levels }
    requires trees { HasTrees nodes.old.items levels roots }
    ensures { IfOk result (λ made. IsAdded classes.now nodes.old.items nodes.new.items levels (member ∷ []) roots made) }
{
    match classes.members.get(member.0 as usize) {
        None => Ok(roots),
        Some(info) => {
            if !info.has_body {
                return Ok(roots);
            }
            let old = root(roots, info.role);
            let new = put(nodes, levels, old, info.name.0, member.0)?;
            Ok(with_root(roots, info.role, new))
        }
    }
}

/// How many digits the longest name of a member has.
fn levels_of(members: &[MemberInfo]) -> u32
    ensures { AreNames members.now result }
{
    let mut levels = 0;
    for info in members {
        levels = digits(info.name.0).max(levels);
    }
    levels
}

/// How many digits a name has.
fn digits(name: u32) -> u32
    ensures { rest_of result name ≡ 0 }
{
    let mut rest = name;
    for n in 0..8 {
        if rest == 0 {
            return n;
        }
        rest /= WIDTH;
    }
    8
}
