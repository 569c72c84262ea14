// A table of classes with an index of its members.
ghost use Rattle.std.specs.Prelude.{◌≡◌, IfOk};
ghost use Rattle.dart_ir.specs.Classes.{IsValid};
ghost use Rattle.dart_type.specs.Member.{IsFirstMember};

use crate::index::Index;
use dart_base::name::Name;
use dart_ir::class::{Classes, Role};
use dart_ir::number::{ClassId, MemberId};
use std::alloc::{AllocError, Global};
use std::marker::Model;

/// A table of classes, whose members are found without a walk up the chain of superclasses. To contracts it is the table.
#[derive(Drop)]
pub struct IndexedClasses {
    classes: Classes,
    index: Index,
}

impl Model for IndexedClasses {
    ghost use Rattle.dart_ir.specs.declared.class.Classes.{Classes};
    ghost use Rattle.class_lookup.specs.Index.{IsIndex};
    ghost use Rattle.dart_ir.specs.contracts.types.FunctionType as function_type;
    ghost use Rattle.dart_ir.specs.contracts.types.TypeRef as type_ref;
    ghost use Rattle.std.specs.Coded.{codes};

    ghost Value = { Classes };

    ghost coded = { Prim.hlevel (codes, type_ref.the_row.coded, function_type.the_row.coded) };

    ghost view = { λ linked. linked.classes };

    ghost invariant = { λ linked. IsIndex linked.classes linked.index };
}

impl IndexedClasses {
    /// The table with its index. It takes time and memory linear in the members, times the digits of the longest name.
    pub fn new(alloc: Global, classes: Classes) -> Result<IndexedClasses, AllocError>
        requires { IsValid classes }
        ensures { IfOk result (λ linked. linked ≡ classes) }
    {
        let index = Index::of(alloc, &classes)?;
        Ok(IndexedClasses { classes, index })
    }

    /// The table.
    pub fn classes(&self) -> &Classes
        ensures { result.now ≡ self.now }
    {
        &self.classes
    }

    /// The member of that name and role that an instance of the class has: the first declaration on the chain from the
    /// class to `Object`. A member without a body is no declaration. It takes a few steps, whatever the chain.
    pub fn member(&self, class: ClassId, name: Name, role: Role) -> Option<MemberId>
        ensures { IsFirstMember self.now class.0 name role result }
    {
        self.index.member(class, name, role)
    }
}
