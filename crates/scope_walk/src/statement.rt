// What statements, bodies and local declarations declare.
ghost use Rattle.std.specs.Prelude.{◌≡◌, ◌∷◌, ◌++◌, OnOk};
ghost use Rattle.scope_declared.specs.Last as of_tree;
ghost use Rattle.scope_declared.specs.Making.{behind, of_identifier};
ghost use Rattle.scope_declared.specs.TreeDeclared.{block_declares, body_declares};
ghost use Rattle.scope_declared.specs.TreeDeclared.{local_function_declares, loop_declares};
ghost use Rattle.scope_declared.specs.TreeDeclared.{scope_to, stmt_declares, value_declares};
ghost use Rattle.scope_declared.specs.TreeDeclared.{variables_declares};
ghost use Rattle.scope_declared.specs.declared.declaration.DeclaredKind.TheVariants as k;
ghost use Rattle.dart_tree.specs.Lists.{block_of, stmts_of};
ghost use Rattle.dart_tree.specs.View as view;
ghost use Rattle.scope_walk.specs.Walk.{Appends, numbering};

use crate::leaf::Walk;
use dart_base::place::Place;
use dart_tree::expression::Value;
use dart_tree::identifier::Identifier;
use dart_tree::statement::{Block, Body, Function, Loop, Stmt, Variables};
use scope_declared::declaration::{Declared, DeclaredKind, Extent, Scope};
use scope_declared::last::{body_last, identifier_place, stmt_last, stmts_last, value_last};
use std::alloc::AllocError;

fn scope_to(place: Place, tree: &Stmt) -> Scope
    ensures { result ≡ scope_to place (view.stmt tree.now) }
{
    Scope {
        place,
        last: stmt_last(tree),
    }
}

/// The scope of the statements of a `case`, behind its colon.
pub(crate) fn scope_behind(colon: Place, all: &Vec<Stmt>) -> Scope
    ensures { result ≡ record { place = colon; last = of_tree.stmts_last colon (stmts_of all.now.items) } }
{
    Scope {
        place: colon,
        last: stmts_last(colon, all),
    }
}

// Where a local variable counts.
fn variable_extent(scope: Scope, name: &Identifier, value: &Value) -> Extent
    ensures { result ≡
        behind (of_tree.value_last (of_tree.identifier_place name.now) (view.value value.now)) scope }
{
    Extent {
        scope: scope.place,
        after: value_last(identifier_place(name), value),
        last: scope.last,
    }
}

// Where a local function counts.
fn function_extent(scope: Scope, name: &Identifier) -> Extent
    ensures { result ≡ behind (of_tree.identifier_place name.now) scope }
{
    Extent {
        scope: scope.place,
        after: identifier_place(name),
        last: scope.last,
    }
}

// Where the variable of a `for (.. in ..)` counts.
fn for_in_extent(opening: Place, closing: Place, body: &Stmt) -> Extent
    ensures { result ≡ behind closing (scope_to opening (view.stmt body.now)) }
{
    Extent {
        scope: opening,
        after: closing,
        last: stmt_last(body),
    }
}

impl<'a> Walk<'a> {
    #[cycle(walk)]
    pub(crate) fn body(&self, found: &mut Vec<Declared>, tree: &Body) -> Result<(), AllocError>
        ensures { OnOk result (Appends found.old.items found.new.items
            (body_declares (numbering self.now) (view.body tree.now))) }
    {
        match tree {
            Body::Arrow {
                arrow: _,
                value,
                semicolon: _,
            } => self.expr(found, value),
            Body::Block(block) => self.block(found, block),
            Body::Omitted(_) => Ok(()),
        }
    }

    #[cycle(walk)]
    pub(crate) fn block(&self, found: &mut Vec<Declared>, tree: &Block) -> Result<(), AllocError>
        ensures { OnOk result (Appends found.old.items found.new.items
            (block_declares (numbering self.now) (block_of tree.now))) }
    {
        let scope = Scope {
            place: tree.opening,
            last: tree.closing,
        };
        self.statements(found, scope, &tree.statements)
    }

    // A branch of an `if` or the body of a loop, which is a scope of its own behind the token at `place`.
    #[cycle(walk)]
    fn branch(&self, found: &mut Vec<Declared>, place: Place, tree: &Stmt) -> Result<(), AllocError>
        ensures { OnOk result (Appends found.old.items found.new.items
            (stmt_declares (numbering self.now) (scope_to place (view.stmt tree.now)) (view.stmt tree.now))) }
    {
        self.statement(found, scope_to(place, tree), tree)
    }

    // The variables of a loop, which count in its body.
    #[cycle(walk)]
    fn loop_variables(
        &self,
        found: &mut Vec<Declared>,
        opening: Place,
        variables: &Variables,
        body: &Stmt,
    ) -> Result<(), AllocError>
        ensures { OnOk result (Appends found.old.items found.new.items
            (variables_declares (numbering self.now) (scope_to opening (view.stmt body.now))
            (view.variables variables.now))) }
    {
        self.variables(found, scope_to(opening, body), variables)
    }

    #[cycle(walk)]
    pub(crate) fn statement(
        &self,
        found: &mut Vec<Declared>,
        scope: Scope,
        tree: &Stmt,
    ) -> Result<(), AllocError>
        ensures { OnOk result (Appends found.old.items found.new.items
            (stmt_declares (numbering self.now) scope (view.stmt tree.now))) }
    {
        match tree {
            Stmt::Labelled(_, statement) => self.statement(found, scope, statement),
            Stmt::Block(block) => self.block(found, block),
            Stmt::Variables(variables) => self.variables(found, scope, variables),
            Stmt::Function(function) => self.local_function(found, scope, function),
            Stmt::If {
                word: _,
                opening: _,
                condition,
                closing,
                first,
            } => {
                self.expr(found, condition)?;
                self.branch(found, *closing, first)
            }
            Stmt::IfElse {
                word: _,
                opening: _,
                condition,
                closing,
                first,
                else_word,
                second,
            } => {
                self.expr(found, condition)?;
                self.branch(found, *closing, first)?;
                self.branch(found, *else_word, second)
            }
            Stmt::Loop(again) => self.loop_statement(found, again),
            Stmt::Switch {
                word: _,
                opening: _,
                value,
                closing: _,
                opening_brace: _,
                parts,
                closing_brace: _,
            } => {
                self.expr(found, value)?;
                self.switch_parts(found, parts)
            }
            Stmt::Try {
                word: _,
                block,
                parts,
            } => {
                self.block(found, block)?;
                self.try_parts(found, parts)
            }
            Stmt::Return {
                word: _,
                value,
                semicolon: _,
            } => self.value(found, value),
            Stmt::Jump(_) => Ok(()),
            Stmt::Expression(value, _) => self.value(found, value),
        }
    }

    #[cycle(walk)]
    fn loop_statement(&self, found: &mut Vec<Declared>, tree: &Loop) -> Result<(), AllocError>
        ensures { OnOk result (Appends found.old.items found.new.items
            (loop_declares (numbering self.now) (view.loop tree.now))) }
    {
        match tree {
            Loop::For {
                word: _,
                opening: _,
                start,
                first_semicolon: _,
                condition,
                second_semicolon: _,
                updates,
                closing,
                body,
            } => {
                self.value(found, start)?;
                self.value(found, condition)?;
                self.items(found, updates)?;
                self.branch(found, *closing, body)
            }
            Loop::ForVariables {
                word: _,
                opening,
                variables,
                condition,
                semicolon: _,
                updates,
                closing,
                body,
            } => {
                self.loop_variables(found, *opening, variables, body)?;
                self.value(found, condition)?;
                self.items(found, updates)?;
                self.branch(found, *closing, body)
            }
            Loop::ForIn {
                word: _,
                opening,
                kind,
                name,
                in_word: _,
                iterated,
                closing,
                body,
            } => {
                self.for_in(found, for_in_extent(*opening, *closing, body), kind, name)?;
                self.expr(found, iterated)?;
                self.branch(found, *closing, body)
            }
            Loop::While {
                word: _,
                opening: _,
                condition,
                closing,
                body,
            } => {
                self.expr(found, condition)?;
                self.branch(found, *closing, body)
            }
            Loop::Do {
                word,
                body,
                while_word: _,
                opening: _,
                condition,
                closing: _,
                semicolon: _,
            } => {
                self.branch(found, *word, body)?;
                self.expr(found, condition)
            }
        }
    }

    #[cycle(walk)]
    pub(crate) fn local_variable(
        &self,
        found: &mut Vec<Declared>,
        scope: Scope,
        name: &Identifier,
        value: &Value,
    ) -> Result<(), AllocError>
        ensures { OnOk result (Appends found.old.items found.new.items (of_identifier (numbering self.now)
            (behind (of_tree.value_last (of_tree.identifier_place name.now) (view.value value.now)) scope)
            k.LocalVariable name.now ∷ value_declares (numbering self.now) (view.value value.now))) }
    {
        let kind = DeclaredKind::LocalVariable;
        self.identifier(found, variable_extent(scope, name, value), kind, name)?;
        self.value(found, value)
    }

    #[cycle(walk)]
    fn variables(
        &self,
        found: &mut Vec<Declared>,
        scope: Scope,
        tree: &Variables,
    ) -> Result<(), AllocError>
        ensures { OnOk result (Appends found.old.items found.new.items
            (variables_declares (numbering self.now) scope (view.variables tree.now))) }
    {
        self.local_variable(found, scope, &tree.name, &tree.value)?;
        self.more_variables(found, scope, &tree.more)
    }

    #[cycle(walk)]
    fn local_function(
        &self,
        found: &mut Vec<Declared>,
        scope: Scope,
        tree: &Function,
    ) -> Result<(), AllocError>
        ensures { OnOk result (Appends found.old.items found.new.items
            (local_function_declares (numbering self.now) scope (view.function tree.now))) }
    {
        let kind = DeclaredKind::LocalFunction;
        self.identifier(found, function_extent(scope, &tree.name), kind, &tree.name)?;
        self.parameters(found, body_last(&tree.body), &tree.parameters)?;
        self.body(found, &tree.body)
    }
}
