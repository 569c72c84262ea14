// Rows of operators of one sign each, over the rows with room for one node less (ECMA-408, 16.21 to 16.28).
ghost use Rattle.std.specs.Prelude.{◌≡◌, ◌+◌, ◌<◌, ◌≤◌};
ghost use Rattle.dart_tree.specs.Depth as height;
ghost use Rattle.dart_tree.specs.View as view;
ghost use Rattle.token_cursor.specs.Gives.{GivesHigh};
ghost use Rattle.syntax_readers.specs.Levels.{whole};
ghost use Rattle.parse_unary.specs.Views.{open_operand, open_operand_height};
ghost use Rattle.parse_row.specs.Lower.{ReadsRows};
ghost use Rattle.parse_row.specs.Rows as spec;
ghost use Rattle.parse_row.specs.Rows.{view_item, item_height, view_tails, open_tails_height};

use crate::lower::{Lower, OpenTail, OpenTails};
use crate::operators::{another_comes, begins, goes_on, operator};
use dart_node::make::expression as make;
use dart_tree::expression::Tail;
use parse_unary::target::is_bare;
use parse_unary::unary::OpenOperand;
use token_cursor::cursor::Cursor;
use token_cursor::error::ReadFault;

impl<L: Fn(&mut Cursor<'_>, usize) -> Result<(OpenOperand, usize), ReadFault>> Lower<L> {
    // An operator of the row with its operand.
    #[tactic(auto, unfolding(crate::specs::Rows::item))]
    fn tail(&self, cursor: &mut Cursor<'_>, row: usize) -> Result<(OpenTail, usize), ReadFault>
        requires reads { ReadsRows self.now.depth (L.pre self.now.read) (L.post self.now.read) }
        ensures { GivesHigh view_item item_height self.now.depth (spec.item self.now.depth row cursor.old) result cursor.new }
    {
        let operator = operator(cursor, row)?;
        let ((operand, half), high) = self.whole_row(cursor, row)?;
        Ok(((Tail { operator, operand }, half), high))
    }

    // Operators of the row with their operands, one at least.
    #[inline(never)]
    fn tails(&self, cursor: &mut Cursor<'_>, row: usize) -> Result<(OpenTails, usize), ReadFault>
        requires reads { ReadsRows self.now.depth (L.pre self.now.read) (L.post self.now.read) }
        ensures { GivesHigh view_tails open_tails_height self.now.depth (spec.tails_behind self.now.depth row cursor.old) result cursor.new }
    {
        let ((first, behind), high) = self.tail(cursor, row)?;
        let mut half = behind;
        let mut more = goes_on(row, &first.operand, behind);
        let mut highest = high;
        let mut found = Vec::new(self.alloc);
        found.push(first)?;
        for _turn in 0..cursor.left() {
            if !another_comes(cursor, row, more) {
                return Ok(((found, half), highest));
            }
            let ((next, behind), high) = self.tail(cursor, row)?;
            half = behind;
            more = goes_on(row, &next.operand, behind);
            highest = highest.max(high);
            found.push(next)?;
        }
        Ok(((found, half), highest))
    }

    /// Reads a row of operators of one sign each, or its first operand alone (ECMA-408, 16.21 to 16.28).
    #[tactic(auto, unfolding(crate::specs::Rows::sign_row, dart_tree::specs::Depth::operand_height))]
    pub fn signed(
        &self,
        cursor: &mut Cursor<'_>,
        depth: usize,
        row: usize,
        first: OpenOperand,
        tall: usize,
    ) -> Result<(OpenOperand, usize), ReadFault>
        requires reads { ReadsRows self.now.depth (L.pre self.now.read) (L.post self.now.read) }
        requires under { self.now.depth + 1 ≡ depth }
        requires tall { tall ≡ height.operand_height (view.operand first.0) }
        requires low { tall ≤ depth }
        ensures { GivesHigh open_operand open_operand_height depth (spec.sign_row depth self.now.depth row (open_operand first) cursor.old) result cursor.new }
    {
        if !begins(cursor, row, depth, &first, tall) {
            return Ok((first, tall));
        }
        let ((more, half), high) = self.tails(cursor, row)?;
        let operand = make::binary(self.alloc, first.0, more)?;
        Ok(((operand, half), tall.max(high) + 1))
    }

    /// Reads the same where `super` alone may not stand (ECMA-408, 16.23 Equality).
    #[tactic(auto, unfolding(syntax_readers::specs::Levels::whole))]
    pub fn equality(
        &self,
        cursor: &mut Cursor<'_>,
        depth: usize,
        row: usize,
        first: OpenOperand,
        tall: usize,
    ) -> Result<(OpenOperand, usize), ReadFault>
        requires reads { ReadsRows self.now.depth (L.pre self.now.read) (L.post self.now.read) }
        requires under { self.now.depth + 1 ≡ depth }
        requires tall { tall ≡ height.operand_height (view.operand first.0) }
        requires low { tall ≤ depth }
        ensures { GivesHigh open_operand open_operand_height depth (whole (spec.sign_row depth self.now.depth row (open_operand first)) cursor.old) result cursor.new }
    {
        let ((operand, half), high) = self.signed(cursor, depth, row, first, tall)?;
        if is_bare(&operand) {
            drop(operand);
            return Err(ReadFault::Stuck);
        }
        Ok(((operand, half), high))
    }
}
