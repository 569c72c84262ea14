// The tokens of statements, bodies, variables and functions.
ghost use Rattle.std.specs.Prelude.{[], ◌∷◌, ◌++◌, OnOk};
ghost use Rattle.dart_token.specs.declared.sign.Sign.TheVariants as sg;
ghost use Rattle.dart_tree.specs.LeafTokens.{sign_at};
ghost use Rattle.dart_tree.specs.Lists.{block_of, items_of};
ghost use Rattle.dart_tree.specs.Tokens.{block_tokens, body_tokens, function_tokens, items_tokens};
ghost use Rattle.dart_tree.specs.Tokens.{loop_tokens, stmt_tokens, variables_tokens};
ghost use Rattle.dart_tree.specs.View as view;
ghost use Rattle.dart_unparse.specs.Writer.{Appends};

use crate::leaf::Writer;
use dart_base::place::Place;
use dart_token::sign::Sign;
use dart_token::word::Word;
use dart_tree::expression::Item;
use dart_tree::statement::{Block, Body, Function, Loop, Stmt, Variables};
use std::alloc::AllocError;

impl Writer {
    #[cycle(write)]
    pub(crate) fn body(&mut self, tree: &Body) -> Result<(), AllocError>
        ensures { OnOk result (Appends self.old self.new (body_tokens (view.body tree.now))) }
    {
        match tree {
            Body::Arrow {
                arrow,
                value,
                semicolon,
            } => {
                self.sign(*arrow, Sign::Arrow)?;
                self.expr(value)?;
                self.maybe_sign(*semicolon, Sign::Semicolon)
            }
            Body::Block(block) => self.block(block),
            Body::Omitted(semicolon) => self.sign(*semicolon, Sign::Semicolon),
        }
    }

    #[cycle(write)]
    pub(crate) fn block(&mut self, tree: &Block) -> Result<(), AllocError>
        ensures { OnOk result (Appends self.old self.new (block_tokens (block_of tree.now))) }
    {
        self.sign(tree.opening, Sign::LeftBrace)?;
        self.statements(&tree.statements)?;
        self.sign(tree.closing, Sign::RightBrace)
    }

    #[cycle(write)]
    pub(crate) fn statement(&mut self, tree: &Stmt) -> Result<(), AllocError>
        ensures { OnOk result (Appends self.old self.new (stmt_tokens (view.stmt tree.now))) }
    {
        match tree {
            Stmt::Labelled(labels, statement) => {
                self.labels(labels)?;
                self.statement(statement)
            }
            Stmt::Block(block) => self.block(block),
            Stmt::Variables(variables) => self.variables(variables),
            Stmt::Function(function) => self.function(function),
            Stmt::If {
                word,
                opening,
                condition,
                closing,
                first,
            } => {
                self.word(*word, Word::If)?;
                self.parenthesized(*opening, condition, *closing)?;
                self.statement(first)
            }
            Stmt::IfElse {
                word,
                opening,
                condition,
                closing,
                first,
                else_word,
                second,
            } => {
                self.word(*word, Word::If)?;
                self.parenthesized(*opening, condition, *closing)?;
                self.statement(first)?;
                self.word(*else_word, Word::Else)?;
                self.statement(second)
            }
            Stmt::Loop(again) => self.loop_statement(again),
            Stmt::Switch {
                word,
                opening,
                value,
                closing,
                opening_brace,
                parts,
                closing_brace,
            } => {
                self.word(*word, Word::Switch)?;
                self.parenthesized(*opening, value, *closing)?;
                self.sign(*opening_brace, Sign::LeftBrace)?;
                self.switch_parts(parts)?;
                self.sign(*closing_brace, Sign::RightBrace)
            }
            Stmt::Try { word, block, parts } => {
                self.word(*word, Word::Try)?;
                self.block(block)?;
                self.try_parts(parts)
            }
            Stmt::Return {
                word,
                value,
                semicolon,
            } => {
                self.word(*word, Word::Return)?;
                self.value(value)?;
                self.sign(*semicolon, Sign::Semicolon)
            }
            Stmt::Jump(jump) => self.jump(jump),
            Stmt::Expression(value, semicolon) => {
                self.value(value)?;
                self.sign(*semicolon, Sign::Semicolon)
            }
        }
    }

    #[cycle(write)]
    pub(crate) fn loop_statement(&mut self, tree: &Loop) -> Result<(), AllocError>
        ensures { OnOk result (Appends self.old self.new (loop_tokens (view.loop tree.now))) }
    {
        match tree {
            Loop::For {
                word,
                opening,
                start,
                first_semicolon,
                condition,
                second_semicolon,
                updates,
                closing,
                body,
            } => {
                self.word(*word, Word::For)?;
                self.sign(*opening, Sign::LeftParenthesis)?;
                self.value(start)?;
                self.sign(*first_semicolon, Sign::Semicolon)?;
                self.value(condition)?;
                self.updates(*second_semicolon, updates, *closing)?;
                self.statement(body)
            }
            Loop::ForVariables {
                word,
                opening,
                variables,
                condition,
                semicolon,
                updates,
                closing,
                body,
            } => {
                self.word(*word, Word::For)?;
                self.sign(*opening, Sign::LeftParenthesis)?;
                self.variables(variables)?;
                self.value(condition)?;
                self.updates(*semicolon, updates, *closing)?;
                self.statement(body)
            }
            Loop::ForIn {
                word,
                opening,
                kind,
                name,
                in_word,
                iterated,
                closing,
                body,
            } => {
                self.word(*word, Word::For)?;
                self.sign(*opening, Sign::LeftParenthesis)?;
                self.variable_kind(kind)?;
                self.identifier(name)?;
                self.word(*in_word, Word::In)?;
                self.expr(iterated)?;
                self.sign(*closing, Sign::RightParenthesis)?;
                self.statement(body)
            }
            Loop::While {
                word,
                opening,
                condition,
                closing,
                body,
            } => {
                self.word(*word, Word::While)?;
                self.parenthesized(*opening, condition, *closing)?;
                self.statement(body)
            }
            Loop::Do {
                word,
                body,
                while_word,
                opening,
                condition,
                closing,
                semicolon,
            } => {
                self.word(*word, Word::Do)?;
                self.statement(body)?;
                self.word(*while_word, Word::While)?;
                self.parenthesized(*opening, condition, *closing)?;
                self.sign(*semicolon, Sign::Semicolon)
            }
        }
    }

    #[cycle(write)]
    fn updates(
        &mut self,
        semicolon: Place,
        updates: &Vec<Item>,
        closing: Place,
    ) -> Result<(), AllocError>
        ensures { OnOk result (Appends self.old self.new (sign_at semicolon sg.Semicolon ∷
            (items_tokens (items_of updates.now.items) ++ sign_at closing sg.RightParenthesis ∷ []))) }
    {
        self.sign(semicolon, Sign::Semicolon)?;
        self.items(updates)?;
        self.sign(closing, Sign::RightParenthesis)
    }

    #[cycle(write)]
    pub(crate) fn variables(&mut self, tree: &Variables) -> Result<(), AllocError>
        ensures { OnOk result (Appends self.old self.new (variables_tokens (view.variables tree.now))) }
    {
        self.variable_kind(&tree.kind)?;
        self.identifier(&tree.name)?;
        self.value(&tree.value)?;
        self.more_variables(&tree.more)?;
        self.sign(tree.semicolon, Sign::Semicolon)
    }

    #[cycle(write)]
    pub(crate) fn function(&mut self, tree: &Function) -> Result<(), AllocError>
        ensures { OnOk result (Appends self.old self.new (function_tokens (view.function tree.now))) }
    {
        self.maybe_word(tree.external, Word::External)?;
        self.maybe_result(&tree.result_type)?;
        self.identifier(&tree.name)?;
        self.parameters(&tree.parameters)?;
        self.body(&tree.body)
    }
}
