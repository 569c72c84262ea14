// What lists of parts declare, part by part.
ghost use Rattle.std.specs.Prelude.{OnOk};
ghost use Rattle.dart_tree.specs.Lists.{tails_of, pieces_of, selectors_of, cascades_of, items_of};
ghost use Rattle.dart_tree.specs.Lists.{entries_of, parameter_list_of, stmts_of};
ghost use Rattle.dart_tree.specs.Lists.{more_variables_of, switch_parts_of, try_parts_of};
ghost use Rattle.scope_declared.specs.TreeDeclared.{tails_declares, pieces_declares};
ghost use Rattle.scope_declared.specs.TreeDeclared.{selectors_declares, cascades_declares};
ghost use Rattle.scope_declared.specs.TreeDeclared.{items_declares, entries_declares};
ghost use Rattle.scope_declared.specs.TreeDeclared.{parameter_list_declares, stmts_declares};
ghost use Rattle.scope_declared.specs.TreeDeclared.{more_variables_declares};
ghost use Rattle.scope_declared.specs.TreeDeclared.{switch_parts_declares, try_parts_declares};
ghost use Rattle.scope_walk.specs.Walk.{Appends, numbering};

use crate::leaf::Walk;
use crate::statement::scope_behind;
use dart_tree::expression::{Cascade, Entry, Item, Selector, StringPiece, Tail};
use dart_tree::parameter::Parameter;
use dart_tree::statement::{Stmt, SwitchPart, TryPart, Variable};
use scope_declared::declaration::{Declared, Extent, Scope};
use std::alloc::AllocError;

impl<'a> Walk<'a> {
    #[cycle(walk)]
    pub(crate) fn tails(&self, found: &mut Vec<Declared>, all: &Vec<Tail>) -> Result<(), AllocError>
        ensures { OnOk result (Appends found.old.items found.new.items
            (tails_declares (numbering self.now) (tails_of all.now.items))) }
    {
        for tail in all {
            self.operand(found, &tail.operand)?;
        }
        Ok(())
    }

    #[cycle(walk)]
    pub(crate) fn pieces(
        &self,
        found: &mut Vec<Declared>,
        all: &Vec<StringPiece>,
    ) -> Result<(), AllocError>
        ensures { OnOk result (Appends found.old.items found.new.items
            (pieces_declares (numbering self.now) (pieces_of all.now.items))) }
    {
        for piece in all {
            self.value(found, &piece.value)?;
        }
        Ok(())
    }

    #[cycle(walk)]
    pub(crate) fn selectors(
        &self,
        found: &mut Vec<Declared>,
        all: &Vec<Selector>,
    ) -> Result<(), AllocError>
        ensures { OnOk result (Appends found.old.items found.new.items
            (selectors_declares (numbering self.now) (selectors_of all.now.items))) }
    {
        for selector in all {
            self.selector(found, selector)?;
        }
        Ok(())
    }

    #[cycle(walk)]
    pub(crate) fn cascades(
        &self,
        found: &mut Vec<Declared>,
        all: &Vec<Cascade>,
    ) -> Result<(), AllocError>
        ensures { OnOk result (Appends found.old.items found.new.items
            (cascades_declares (numbering self.now) (cascades_of all.now.items))) }
    {
        for cascade in all {
            self.selectors(found, &cascade.selectors)?;
            self.value(found, &cascade.value)?;
        }
        Ok(())
    }

    #[cycle(walk)]
    pub(crate) fn items(&self, found: &mut Vec<Declared>, all: &Vec<Item>) -> Result<(), AllocError>
        ensures { OnOk result (Appends found.old.items found.new.items
            (items_declares (numbering self.now) (items_of all.now.items))) }
    {
        for item in all {
            self.expr(found, &item.value)?;
        }
        Ok(())
    }

    #[cycle(walk)]
    pub(crate) fn entries(
        &self,
        found: &mut Vec<Declared>,
        all: &Vec<Entry>,
    ) -> Result<(), AllocError>
        ensures { OnOk result (Appends found.old.items found.new.items
            (entries_declares (numbering self.now) (entries_of all.now.items))) }
    {
        for entry in all {
            self.expr(found, &entry.key)?;
            self.expr(found, &entry.value)?;
        }
        Ok(())
    }

    #[cycle(walk)]
    pub(crate) fn parameter_list(
        &self,
        found: &mut Vec<Declared>,
        extent: Extent,
        all: &Vec<Parameter>,
    ) -> Result<(), AllocError>
        ensures { OnOk result (Appends found.old.items found.new.items
            (parameter_list_declares (numbering self.now) extent (parameter_list_of all.now.items))) }
    {
        for parameter in all {
            self.formal(found, extent, &parameter.kind)?;
            self.value(found, &parameter.value)?;
        }
        Ok(())
    }

    #[cycle(walk)]
    pub(crate) fn statements(
        &self,
        found: &mut Vec<Declared>,
        scope: Scope,
        all: &Vec<Stmt>,
    ) -> Result<(), AllocError>
        ensures { OnOk result (Appends found.old.items found.new.items
            (stmts_declares (numbering self.now) scope (stmts_of all.now.items))) }
    {
        for statement in all {
            self.statement(found, scope, statement)?;
        }
        Ok(())
    }

    #[cycle(walk)]
    pub(crate) fn more_variables(
        &self,
        found: &mut Vec<Declared>,
        scope: Scope,
        all: &Vec<Variable>,
    ) -> Result<(), AllocError>
        ensures { OnOk result (Appends found.old.items found.new.items
            (more_variables_declares (numbering self.now) scope (more_variables_of all.now.items))) }
    {
        for variable in all {
            self.local_variable(found, scope, &variable.name, &variable.value)?;
        }
        Ok(())
    }

    #[cycle(walk)]
    pub(crate) fn switch_parts(
        &self,
        found: &mut Vec<Declared>,
        all: &Vec<SwitchPart>,
    ) -> Result<(), AllocError>
        ensures { OnOk result (Appends found.old.items found.new.items
            (switch_parts_declares (numbering self.now) (switch_parts_of all.now.items))) }
    {
        for part in all {
            self.value(found, &part.value)?;
            let scope = scope_behind(part.colon, &part.statements);
            self.statements(found, scope, &part.statements)?;
        }
        Ok(())
    }

    #[cycle(walk)]
    pub(crate) fn try_parts(
        &self,
        found: &mut Vec<Declared>,
        all: &Vec<TryPart>,
    ) -> Result<(), AllocError>
        ensures { OnOk result (Appends found.old.items found.new.items
            (try_parts_declares (numbering self.now) (try_parts_of all.now.items))) }
    {
        for part in all {
            self.catch(found, part.block.closing, &part.kind)?;
            self.block(found, &part.block)?;
        }
        Ok(())
    }
}
