// What classes, aliases and enums declare.
ghost use Rattle.std.specs.Prelude.{◌≡◌, OnOk, flat_map, map};
ghost use Rattle.scope_declared.specs.UnitDeclared.{alias_declares, before_elements};
ghost use Rattle.scope_declared.specs.UnitDeclared.{behind_elements, class_declares};
ghost use Rattle.scope_declared.specs.UnitDeclared.{class_kind_declares, class_last, decl_declares};
ghost use Rattle.scope_declared.specs.UnitDeclared.{decl_kind_declares, declares_if};
ghost use Rattle.scope_declared.specs.UnitDeclared.{element_declares, elements_declare};
ghost use Rattle.scope_declared.specs.UnitDeclared.{enum_declares, enum_members_declare};
ghost use Rattle.scope_declared.specs.UnitDeclared.{type_parameter_list_declares};
ghost use Rattle.scope_declared.specs.UnitDeclared.{type_parameters_declares};
ghost use Rattle.dart_tree.specs.UnitView as uv;
ghost use Rattle.scope_walk.specs.Walk.{Appends, numbering};

use crate::leaf::Walk;
use dart_base::place::Place;
use dart_tree::declaration::{
    Alias, Class, ClassKind, Decl, DeclKind, Enum, TypeParameter, TypeParameters,
};
use dart_tree::identifier::{CommaName, Identifier};
use scope_declared::declaration::{Declared, DeclaredKind, Extent, Owner, Role};
use std::alloc::AllocError;

fn class_last(tree: &ClassKind) -> Place
    ensures { result ≡ class_last (uv.class_kind tree.now) }
{
    match tree {
        ClassKind::Declared {
            superclass: _,
            interfaces: _,
            opening: _,
            members: _,
            closing,
        } => *closing,
        ClassKind::Mixed {
            equals: _,
            superclass: _,
            mixins: _,
            interfaces: _,
            semicolon,
        } => *semicolon,
    }
}

impl<'a> Walk<'a> {
    fn type_parameter_list(
        &self,
        found: &mut Vec<Declared>,
        extent: Extent,
        all: &Vec<TypeParameter>,
    ) -> Result<(), AllocError>
        ensures { OnOk result (Appends found.old.items found.new.items
            (type_parameter_list_declares (numbering self.now) extent 0 (map uv.type_parameter all.now.items))) }
    {
        for (at, one) in all.iter().enumerate() {
            self.identifier(found, extent, DeclaredKind::TypeParameter(at), &one.name)?;
        }
        Ok(())
    }

    fn type_parameters(
        &self,
        found: &mut Vec<Declared>,
        word: Place,
        last: Place,
        tree: &Option<TypeParameters>,
    ) -> Result<(), AllocError>
        ensures { OnOk result (Appends found.old.items found.new.items
            (declares_if (type_parameters_declares (numbering self.now) word last)
            (uv.maybe uv.type_parameters tree.now))) }
    {
        match tree {
            None => Ok(()),
            Some(tree) => {
                let extent = Extent {
                    scope: tree.opening,
                    after: word,
                    last,
                };
                self.type_parameter_list(found, extent, &tree.items)
            }
        }
    }

    fn class_kind(&self, found: &mut Vec<Declared>, tree: &ClassKind) -> Result<(), AllocError>
        ensures { OnOk result (Appends found.old.items found.new.items
            (class_kind_declares (numbering self.now) (uv.class_kind tree.now))) }
    {
        match tree {
            ClassKind::Declared {
                superclass: _,
                interfaces: _,
                opening,
                members,
                closing,
            } => {
                let extent = Extent {
                    scope: *opening,
                    after: *opening,
                    last: *closing,
                };
                self.members(found, extent, members)
            }
            ClassKind::Mixed {
                equals: _,
                superclass: _,
                mixins: _,
                interfaces: _,
                semicolon: _,
            } => Ok(()),
        }
    }

    fn class(
        &self,
        found: &mut Vec<Declared>,
        extent: Extent,
        tree: &Class,
    ) -> Result<(), AllocError>
        ensures { OnOk result (Appends found.old.items found.new.items
            (class_declares (numbering self.now) extent (uv.class tree.now))) }
    {
        self.identifier(found, extent, DeclaredKind::Class, &tree.name)?;
        self.type_parameters(found, tree.word, class_last(&tree.kind), &tree.parameters)?;
        self.class_kind(found, &tree.kind)
    }

    fn alias(
        &self,
        found: &mut Vec<Declared>,
        extent: Extent,
        tree: &Alias,
    ) -> Result<(), AllocError>
        ensures { OnOk result (Appends found.old.items found.new.items
            (alias_declares (numbering self.now) extent (uv.alias tree.now))) }
    {
        self.identifier(found, extent, DeclaredKind::Alias, &tree.name)?;
        self.type_parameters(found, tree.word, tree.semicolon, &tree.type_parameters)
    }

    fn more_elements(
        &self,
        found: &mut Vec<Declared>,
        extent: Extent,
        all: &Vec<CommaName>,
    ) -> Result<(), AllocError>
        ensures { OnOk result (Appends found.old.items found.new.items
            (flat_map (element_declares (numbering self.now) extent) all.now.items)) }
    {
        for one in all {
            self.identifier(
                found,
                extent,
                DeclaredKind::Owned(Owner::Class, Role::Final),
                &one.name,
            )?;
        }
        Ok(())
    }

    fn elements(
        &self,
        found: &mut Vec<Declared>,
        extent: Extent,
        tree: &Enum,
    ) -> Result<(), AllocError>
        ensures { OnOk result (Appends found.old.items found.new.items
            (elements_declare (numbering self.now) extent (uv.enum tree.now))) }
    {
        self.identifier(
            found,
            extent,
            DeclaredKind::Owned(Owner::Class, Role::Final),
            &tree.first,
        )?;
        self.more_elements(found, extent, &tree.more)
    }

    fn before_elements(
        &self,
        found: &mut Vec<Declared>,
        extent: Extent,
        name: &Identifier,
    ) -> Result<(), AllocError>
        ensures { OnOk result (Appends found.old.items found.new.items
            (before_elements (numbering self.now) extent name.now)) }
    {
        let field = DeclaredKind::Owned(Owner::Object, Role::Final);
        self.text(found, extent, field, name, b"index")?;
        self.text(found, extent, field, name, b"enum")?;
        let outside = Extent {
            scope: extent.scope,
            after: extent.scope,
            last: extent.scope,
        };
        self.text(
            found,
            outside,
            DeclaredKind::NamedConstructor,
            name,
            b"enum",
        )
    }

    fn behind_elements(
        &self,
        found: &mut Vec<Declared>,
        extent: Extent,
        name: &Identifier,
    ) -> Result<(), AllocError>
        ensures { OnOk result (Appends found.old.items found.new.items
            (behind_elements (numbering self.now) extent name.now)) }
    {
        let method = DeclaredKind::Owned(Owner::Object, Role::Function);
        self.text(found, extent, method, name, b"toString")?;
        let list = DeclaredKind::Owned(Owner::Class, Role::Final);
        self.text(found, extent, list, name, b"values")
    }

    fn enum_members(
        &self,
        found: &mut Vec<Declared>,
        extent: Extent,
        tree: &Enum,
    ) -> Result<(), AllocError>
        ensures { OnOk result (Appends found.old.items found.new.items
            (enum_members_declare (numbering self.now) extent (uv.enum tree.now))) }
    {
        self.before_elements(found, extent, &tree.name)?;
        self.elements(found, extent, tree)?;
        self.behind_elements(found, extent, &tree.name)
    }

    fn enum_declaration(
        &self,
        found: &mut Vec<Declared>,
        extent: Extent,
        tree: &Enum,
    ) -> Result<(), AllocError>
        ensures { OnOk result (Appends found.old.items found.new.items
            (enum_declares (numbering self.now) extent (uv.enum tree.now))) }
    {
        self.identifier(found, extent, DeclaredKind::Class, &tree.name)?;
        let inside = Extent {
            scope: tree.opening,
            after: tree.opening,
            last: tree.closing,
        };
        self.enum_members(found, inside, tree)
    }

    fn decl_kind(
        &self,
        found: &mut Vec<Declared>,
        extent: Extent,
        tree: &DeclKind,
    ) -> Result<(), AllocError>
        ensures { OnOk result (Appends found.old.items found.new.items
            (decl_kind_declares (numbering self.now) extent (uv.decl_kind tree.now))) }
    {
        match tree {
            DeclKind::Class(made) => self.class(found, extent, made),
            DeclKind::Alias(made) => self.alias(found, extent, made),
            DeclKind::Function(made) => self.function(found, extent, Owner::Library, made),
            DeclKind::Accessor(made) => self.accessor(found, extent, Owner::Library, made),
            DeclKind::Variables(made) => self.fields(found, extent, Owner::Library, made),
            DeclKind::Enum(made) => self.enum_declaration(found, extent, made),
        }
    }

    /// Adds the declarations of a unit.
    pub(crate) fn decls(
        &self,
        found: &mut Vec<Declared>,
        extent: Extent,
        all: &Vec<Decl>,
    ) -> Result<(), AllocError>
        ensures { OnOk result (Appends found.old.items found.new.items
            (flat_map (decl_declares (numbering self.now) extent) (map uv.decl all.now.items))) }
    {
        for one in all {
            self.decl_kind(found, extent, &one.kind)?;
        }
        Ok(())
    }
}
