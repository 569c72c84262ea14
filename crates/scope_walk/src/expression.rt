// What expressions, arguments and parameters declare.
ghost use Rattle.std.specs.Prelude.{◌++◌, OnOk};
ghost use Rattle.scope_declared.specs.TreeDeclared.{arguments_declares, expr_declares};
ghost use Rattle.scope_declared.specs.TreeDeclared.{operand_declares, parameters_declares};
ghost use Rattle.scope_declared.specs.TreeDeclared.{primary_declares, selector_declares};
ghost use Rattle.scope_declared.specs.TreeDeclared.{value_declares};
ghost use Rattle.dart_tree.specs.View as view;
ghost use Rattle.scope_walk.specs.Walk.{Appends, numbering};

use crate::leaf::Walk;
use dart_base::place::Place;
use dart_tree::expression::{Arguments, Expr, Operand, Primary, Selector, Value};
use dart_tree::parameter::Parameters;
use scope_declared::declaration::{Declared, Extent};
use scope_declared::last::body_last;
use std::alloc::AllocError;

impl<'a> Walk<'a> {
    #[cycle(walk)]
    pub(crate) fn expr(&self, found: &mut Vec<Declared>, tree: &Expr) -> Result<(), AllocError>
        ensures { OnOk result (Appends found.old.items found.new.items
            (expr_declares (numbering self.now) (view.expr tree.now))) }
    {
        match tree {
            Expr::Assign {
                target,
                operator: _,
                value,
            } => {
                self.operand(found, target)?;
                self.expr(found, value)
            }
            Expr::Plain(operand, cascades) => {
                self.operand(found, operand)?;
                self.cascades(found, cascades)
            }
            Expr::Throw(_, value) => self.expr(found, value),
        }
    }

    #[cycle(walk)]
    pub(crate) fn operand(
        &self,
        found: &mut Vec<Declared>,
        tree: &Operand,
    ) -> Result<(), AllocError>
        ensures { OnOk result (Appends found.old.items found.new.items
            (operand_declares (numbering self.now) (view.operand tree.now))) }
    {
        match tree {
            Operand::Conditional {
                condition,
                question: _,
                first,
                colon: _,
                second,
            } => {
                self.operand(found, condition)?;
                self.expr(found, first)?;
                self.expr(found, second)
            }
            Operand::Binary(first, more) => {
                self.operand(found, first)?;
                self.tails(found, more)
            }
            Operand::Is {
                operand,
                word: _,
                bang: _,
                type_node: _,
            } => self.operand(found, operand),
            Operand::As {
                operand,
                word: _,
                type_node: _,
            } => self.operand(found, operand),
            Operand::Prefix(_, operand) => self.operand(found, operand),
            Operand::Postfix {
                primary,
                selectors,
                operator: _,
            } => {
                self.primary(found, primary)?;
                self.selectors(found, selectors)
            }
            Operand::Primary(primary) => self.primary(found, primary),
        }
    }

    #[cycle(walk)]
    fn primary(&self, found: &mut Vec<Declared>, tree: &Primary) -> Result<(), AllocError>
        ensures { OnOk result (Appends found.old.items found.new.items
            (primary_declares (numbering self.now) (view.primary tree.now))) }
    {
        match tree {
            Primary::Super(_, selector) => self.selector(found, selector),
            Primary::BareSuper(_) => Ok(()),
            Primary::Atom(_) => Ok(()),
            Primary::Text(pieces) => self.pieces(found, pieces),
            Primary::List {
                type_arguments: _,
                opening: _,
                items,
                comma: _,
                closing: _,
            } => self.items(found, items),
            Primary::Map {
                type_arguments: _,
                opening: _,
                entries,
                comma: _,
                closing: _,
            } => self.entries(found, entries),
            Primary::New {
                creation: _,
                class: _,
                constructor: _,
                arguments,
            } => self.arguments(found, arguments),
            Primary::Function(parameters, body) => {
                self.literal(found, parameters.opening)?;
                self.parameters(found, body_last(body), parameters)?;
                self.body(found, body)
            }
            Primary::Parenthesized {
                opening: _,
                value,
                closing: _,
            } => self.expr(found, value),
        }
    }

    #[cycle(walk)]
    pub(crate) fn selector(
        &self,
        found: &mut Vec<Declared>,
        tree: &Selector,
    ) -> Result<(), AllocError>
        ensures { OnOk result (Appends found.old.items found.new.items
            (selector_declares (numbering self.now) (view.selector tree.now))) }
    {
        match tree {
            Selector::Member(_, _) => Ok(()),
            Selector::Index {
                opening: _,
                value,
                closing: _,
            } => self.expr(found, value),
            Selector::Call(arguments) => self.arguments(found, arguments),
        }
    }

    #[cycle(walk)]
    pub(crate) fn value(&self, found: &mut Vec<Declared>, tree: &Value) -> Result<(), AllocError>
        ensures { OnOk result (Appends found.old.items found.new.items
            (value_declares (numbering self.now) (view.value tree.now))) }
    {
        match tree {
            Value::Omitted => Ok(()),
            Value::Given(_, value) => self.expr(found, value),
        }
    }

    #[cycle(walk)]
    pub(crate) fn arguments(
        &self,
        found: &mut Vec<Declared>,
        tree: &Arguments,
    ) -> Result<(), AllocError>
        ensures { OnOk result (Appends found.old.items found.new.items
            (arguments_declares (numbering self.now) (view.arguments tree.now))) }
    {
        self.items(found, &tree.items)
    }

    /// Adds the parameters of a function that ends at `last`.
    #[cycle(walk)]
    pub(crate) fn parameters(
        &self,
        found: &mut Vec<Declared>,
        last: Place,
        tree: &Parameters,
    ) -> Result<(), AllocError>
        ensures { OnOk result (Appends found.old.items found.new.items
            (parameters_declares (numbering self.now) last (view.parameters tree.now))) }
    {
        let extent = Extent {
            scope: tree.opening,
            after: tree.closing,
            last,
        };
        self.parameter_list(found, extent, &tree.required)?;
        self.parameter_list(found, extent, &tree.optional)
    }
}
