// The tokens of lists of parts, part by part.
ghost use Rattle.std.specs.Prelude.{[], ◌∷◌, OnOk};
ghost use Rattle.dart_tree.specs.LeafTokens.{word_at};
ghost use Rattle.dart_tree.specs.Lists.{tails_of, pieces_of, selectors_of, cascades_of, items_of};
ghost use Rattle.dart_tree.specs.Lists.{entries_of, parameter_list_of, metadata_of, stmts_of};
ghost use Rattle.dart_tree.specs.Lists.{more_variables_of, switch_parts_of, try_parts_of};
ghost use Rattle.dart_tree.specs.Tokens.{switch_word, cascades_tokens, entries_tokens};
ghost use Rattle.dart_tree.specs.Tokens.{items_tokens, metadata_tokens, more_variables_tokens};
ghost use Rattle.dart_tree.specs.Tokens.{parameter_list_tokens, pieces_tokens, selectors_tokens};
ghost use Rattle.dart_tree.specs.Tokens.{stmts_tokens, switch_parts_tokens, tails_tokens};
ghost use Rattle.dart_tree.specs.Tokens.{try_parts_tokens};
ghost use Rattle.dart_tree.specs.View as view;
ghost use Rattle.dart_unparse.specs.Writer.{Appends};

use crate::leaf::Writer;
use dart_base::place::Place;
use dart_token::sign::Sign;
use dart_token::word::Word;
use dart_tree::expression::{Cascade, Entry, Item, Selector, StringPiece, Tail, Value};
use dart_tree::parameter::{Annotation, Parameter};
use dart_tree::statement::{Stmt, SwitchPart, TryPart, Variable};
use std::alloc::AllocError;

impl Writer {
    fn switch_word(&mut self, place: Place, value: &Value) -> Result<(), AllocError>
        ensures { OnOk result (Appends self.old self.new
            (word_at place (switch_word (view.value value.now)) ∷ [])) }
    {
        match value {
            Value::Omitted => self.word(place, Word::Default),
            Value::Given(_, _) => self.word(place, Word::Case),
        }
    }

    #[cycle(write)]
    pub(crate) fn tails(&mut self, all: &Vec<Tail>) -> Result<(), AllocError>
        ensures { OnOk result (Appends self.old self.new (tails_tokens (tails_of all.now.items))) }
    {
        for tail in all {
            self.operator(tail.operator)?;
            self.operand(&tail.operand)?;
        }
        Ok(())
    }

    #[cycle(write)]
    pub(crate) fn pieces(&mut self, all: &Vec<StringPiece>) -> Result<(), AllocError>
        ensures { OnOk result (Appends self.old self.new (pieces_tokens (pieces_of all.now.items))) }
    {
        for piece in all {
            self.piece(piece.kind, piece.place, &piece.text)?;
            self.value(&piece.value)?;
        }
        Ok(())
    }

    #[cycle(write)]
    pub(crate) fn selectors(&mut self, all: &Vec<Selector>) -> Result<(), AllocError>
        ensures { OnOk result (Appends self.old self.new
            (selectors_tokens (selectors_of all.now.items))) }
    {
        for selector in all {
            self.selector(selector)?;
        }
        Ok(())
    }

    #[cycle(write)]
    pub(crate) fn cascades(&mut self, all: &Vec<Cascade>) -> Result<(), AllocError>
        ensures { OnOk result (Appends self.old self.new
            (cascades_tokens (cascades_of all.now.items))) }
    {
        for cascade in all {
            self.sign(cascade.dots, Sign::DotDot)?;
            self.selectors(&cascade.selectors)?;
            self.value(&cascade.value)?;
        }
        Ok(())
    }

    #[cycle(write)]
    pub(crate) fn items(&mut self, all: &Vec<Item>) -> Result<(), AllocError>
        ensures { OnOk result (Appends self.old self.new (items_tokens (items_of all.now.items))) }
    {
        for item in all {
            self.maybe_sign(item.comma, Sign::Comma)?;
            self.maybe_label(&item.label)?;
            self.expr(&item.value)?;
        }
        Ok(())
    }

    #[cycle(write)]
    pub(crate) fn entries(&mut self, all: &Vec<Entry>) -> Result<(), AllocError>
        ensures { OnOk result (Appends self.old self.new (entries_tokens (entries_of all.now.items))) }
    {
        for entry in all {
            self.maybe_sign(entry.comma, Sign::Comma)?;
            self.expr(&entry.key)?;
            self.sign(entry.colon, Sign::Colon)?;
            self.expr(&entry.value)?;
        }
        Ok(())
    }

    #[cycle(write)]
    pub(crate) fn parameter_list(&mut self, all: &Vec<Parameter>) -> Result<(), AllocError>
        ensures { OnOk result (Appends self.old self.new
            (parameter_list_tokens (parameter_list_of all.now.items))) }
    {
        for parameter in all {
            self.parameter(parameter)?;
        }
        Ok(())
    }

    #[cycle(write)]
    pub(crate) fn metadata(&mut self, all: &Vec<Annotation>) -> Result<(), AllocError>
        ensures { OnOk result (Appends self.old self.new
            (metadata_tokens (metadata_of all.now.items))) }
    {
        for annotation in all {
            self.annotation(annotation)?;
        }
        Ok(())
    }

    #[cycle(write)]
    pub(crate) fn statements(&mut self, all: &Vec<Stmt>) -> Result<(), AllocError>
        ensures { OnOk result (Appends self.old self.new (stmts_tokens (stmts_of all.now.items))) }
    {
        for statement in all {
            self.statement(statement)?;
        }
        Ok(())
    }

    #[cycle(write)]
    pub(crate) fn more_variables(&mut self, all: &Vec<Variable>) -> Result<(), AllocError>
        ensures { OnOk result (Appends self.old self.new
            (more_variables_tokens (more_variables_of all.now.items))) }
    {
        for variable in all {
            self.sign(variable.comma, Sign::Comma)?;
            self.identifier(&variable.name)?;
            self.value(&variable.value)?;
        }
        Ok(())
    }

    #[cycle(write)]
    pub(crate) fn switch_parts(&mut self, all: &Vec<SwitchPart>) -> Result<(), AllocError>
        ensures { OnOk result (Appends self.old self.new
            (switch_parts_tokens (switch_parts_of all.now.items))) }
    {
        for part in all {
            self.labels(&part.labels)?;
            self.switch_word(part.word, &part.value)?;
            self.value(&part.value)?;
            self.sign(part.colon, Sign::Colon)?;
            self.statements(&part.statements)?;
        }
        Ok(())
    }

    #[cycle(write)]
    pub(crate) fn try_parts(&mut self, all: &Vec<TryPart>) -> Result<(), AllocError>
        ensures { OnOk result (Appends self.old self.new
            (try_parts_tokens (try_parts_of all.now.items))) }
    {
        for part in all {
            self.try_kind(&part.kind)?;
            self.block(&part.block)?;
        }
        Ok(())
    }
}
