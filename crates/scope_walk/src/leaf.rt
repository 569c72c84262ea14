// Single declarations.
ghost use Rattle.std.specs.Prelude.{◌≡◌, [], ◌∷◌, OnOk, IfOk};
ghost use Rattle.scope_declared.specs.Making.{catch_declared, catch_extent, for_in_declared, formal_declared};
ghost use Rattle.scope_declared.specs.Making.{identifier_text, nowhere, of_catch, of_formal};
ghost use Rattle.scope_declared.specs.Making.{of_identifier, of_literal, of_text, trace_declared};
ghost use Rattle.dart_tree.specs.View as view;
ghost use Rattle.scope_walk.specs.Walk.{Appends, numbering};

use dart_base::name::Name;
use dart_base::names::Names;
use dart_base::place::Place;
use dart_tree::identifier::{CommaName, Identifier};
use dart_tree::parameter::{ParameterKind, ThisDot, VariableKind};
use dart_tree::statement::{Catch, TryKind};
use scope_declared::declaration::{Declared, DeclaredKind, Extent};
use scope_declared::last::identifier_place;
use scope_declared::number::{NO_NAME, number_of};
use std::alloc::{AllocError, Global};

/// What gives identifiers their numbers: the table of names, and the library that they stand in.
#[derive(Drop)]
pub(crate) struct Walk<'a> {
    pub(crate) alloc: Global,
    pub(crate) names: &'a Names,
    pub(crate) library: u32,
}

impl<'a> Walk<'a> {
    /// The number of a text.
    pub(crate) fn number(&self, text: &[u8]) -> Result<Name, AllocError>
        ensures { IfOk result (λ name. name.0 ≡ numbering self.now text.now) }
    {
        number_of(self.alloc, self.names, self.library, text)
    }

    fn identifier_number(&self, name: &Identifier) -> Result<Name, AllocError>
        ensures { IfOk result (λ number. number.0 ≡ numbering self.now (identifier_text name.now)) }
    {
        match name {
            Identifier::Name(_, text) => self.number(text.as_slice()),
            Identifier::Get(_) => self.number(b"get"),
            Identifier::Set(_) => self.number(b"set"),
        }
    }

    /// Adds the declaration of an identifier.
    pub(crate) fn identifier(
        &self,
        found: &mut Vec<Declared>,
        extent: Extent,
        kind: DeclaredKind,
        name: &Identifier,
    ) -> Result<(), AllocError>
        ensures { OnOk result (Appends found.old.items found.new.items
            (of_identifier (numbering self.now) extent kind name.now ∷ [])) }
    {
        let number = self.identifier_number(name)?;
        found.push(Declared {
            name: number,
            place: identifier_place(name),
            kind,
            extent,
        })?;
        Ok(())
    }

    /// Adds the declaration of a text that stands at an identifier.
    pub(crate) fn text(
        &self,
        found: &mut Vec<Declared>,
        extent: Extent,
        kind: DeclaredKind,
        at: &Identifier,
        text: &[u8],
    ) -> Result<(), AllocError>
        ensures { OnOk result (Appends found.old.items found.new.items
            (of_text (numbering self.now) extent kind at.now text.now ∷ [])) }
    {
        let number = self.number(text)?;
        found.push(Declared {
            name: number,
            place: identifier_place(at),
            kind,
            extent,
        })?;
        Ok(())
    }

    /// Adds the declaration of an identifier that counts at no token.
    pub(crate) fn nowhere(
        &self,
        found: &mut Vec<Declared>,
        scope: Place,
        kind: DeclaredKind,
        name: &Identifier,
    ) -> Result<(), AllocError>
        ensures { OnOk result (Appends found.old.items found.new.items
            (of_identifier (numbering self.now) (nowhere scope) kind name.now ∷ [])) }
    {
        let extent = Extent {
            scope,
            after: scope,
            last: scope,
        };
        self.identifier(found, extent, kind, name)
    }

    /// Adds a function literal.
    pub(crate) fn literal(&self, found: &mut Vec<Declared>, place: Place) -> Result<(), AllocError>
        ensures { OnOk result (Appends found.old.items found.new.items (of_literal place ∷ [])) }
    {
        found.push(Declared {
            name: NO_NAME,
            place,
            kind: DeclaredKind::Literal,
            extent: Extent {
                scope: place,
                after: place,
                last: place,
            },
        })?;
        Ok(())
    }

    fn formal_named(
        &self,
        found: &mut Vec<Declared>,
        extent: Extent,
        this_dot: Option<ThisDot>,
        name: &Identifier,
    ) -> Result<(), AllocError>
        ensures { OnOk result (Appends found.old.items found.new.items
            (of_formal (numbering self.now) extent this_dot name.now ∷ [])) }
    {
        match this_dot {
            None => self.identifier(found, extent, DeclaredKind::Parameter, name),
            Some(_) => self.nowhere(found, extent.scope, DeclaredKind::Formal, name),
        }
    }

    /// Adds a parameter.
    pub(crate) fn formal(
        &self,
        found: &mut Vec<Declared>,
        extent: Extent,
        kind: &ParameterKind,
    ) -> Result<(), AllocError>
        ensures { OnOk result (Appends found.old.items found.new.items
            (formal_declared (numbering self.now) extent (view.parameter_kind kind.now) ∷ [])) }
    {
        match kind {
            ParameterKind::Plain {
                kind: _,
                this_dot,
                name,
            } => self.formal_named(found, extent, *this_dot, name),
            ParameterKind::Function {
                result_type: _,
                this_dot,
                name,
                parameters: _,
            } => self.formal_named(found, extent, *this_dot, name),
        }
    }

    /// Adds the variable of a `for (.. in ..)`, where it declares one.
    pub(crate) fn for_in(
        &self,
        found: &mut Vec<Declared>,
        extent: Extent,
        kind: &VariableKind,
        name: &Identifier,
    ) -> Result<(), AllocError>
        ensures { OnOk result (Appends found.old.items found.new.items
            (for_in_declared (numbering self.now) extent (view.variable_kind kind.now) name.now)) }
    {
        match kind {
            VariableKind::Omitted => Ok(()),
            VariableKind::Var(_)
            | VariableKind::Final(_, _)
            | VariableKind::Const(_, _)
            | VariableKind::Typed(_) => {
                self.identifier(found, extent, DeclaredKind::LocalVariable, name)
            }
        }
    }

    fn trace(
        &self,
        found: &mut Vec<Declared>,
        extent: Extent,
        trace: &Option<CommaName>,
    ) -> Result<(), AllocError>
        ensures { OnOk result (Appends found.old.items found.new.items
            (trace_declared (numbering self.now) extent trace.now)) }
    {
        match trace {
            None => Ok(()),
            Some(second) => {
                self.identifier(found, extent, DeclaredKind::LocalVariable, &second.name)
            }
        }
    }

    fn catch_names(
        &self,
        found: &mut Vec<Declared>,
        last: Place,
        tree: &Catch,
    ) -> Result<(), AllocError>
        ensures { OnOk result (Appends found.old.items found.new.items
            (of_catch (numbering self.now) (catch_extent last tree.now) tree.now)) }
    {
        let extent = Extent {
            scope: tree.opening,
            after: tree.closing,
            last,
        };
        self.identifier(found, extent, DeclaredKind::LocalVariable, &tree.exception)?;
        self.trace(found, extent, &tree.trace)
    }

    /// Adds the variables of a `catch`, where there is one.
    pub(crate) fn catch(
        &self,
        found: &mut Vec<Declared>,
        last: Place,
        kind: &TryKind,
    ) -> Result<(), AllocError>
        ensures { OnOk result (Appends found.old.items found.new.items
            (catch_declared (numbering self.now) last (view.try_kind kind.now))) }
    {
        match kind {
            TryKind::On {
                word: _,
                type_node: _,
                catch,
            } => match catch {
                None => Ok(()),
                Some(catch) => self.catch_names(found, last, catch),
            },
            TryKind::Catch(catch) => self.catch_names(found, last, catch),
            TryKind::Finally(_) => Ok(()),
        }
    }
}
