// Shifts, over the rows with room for one node less (ECMA-408, 16.26 Shift).
ghost use Rattle.std.specs.Prelude.{◌≡◌, ◌+◌, ◌<◌, ◌≤◌};
ghost use Rattle.dart_tree.specs.Depth as height;
ghost use Rattle.dart_tree.specs.View as view;
ghost use Rattle.token_cursor.specs.Gives.{GivesHigh};
ghost use Rattle.parse_unary.specs.Views.{open_operand, open_operand_height};
ghost use Rattle.parse_row.specs.Lower.{ReadsRows};
ghost use Rattle.parse_row.specs.Rows as spec;
ghost use Rattle.parse_row.specs.Rows.{view_item, item_height, view_tails, open_tails_height};

use crate::lower::{Lower, OpenTail, OpenTails};
use crate::operators::{
    another_shift, begins_shift, half_behind, leaves_shift, may_shift, shift_operator,
};
use dart_base::place::Place;
use dart_node::make::expression as make;
use dart_tree::expression::{Operand, Tail};
use parse_unary::unary::OpenOperand;
use token_cursor::cursor::Cursor;
use token_cursor::error::ReadFault;

impl<L: Fn(&mut Cursor<'_>, usize) -> Result<(OpenOperand, usize), ReadFault>> Lower<L> {
    // An operand with the half behind it.
    fn halved_row(
        &self,
        cursor: &mut Cursor<'_>,
        row: usize,
    ) -> Result<(OpenOperand, usize), ReadFault>
        requires reads { ReadsRows self.now.depth (L.pre self.now.read) (L.post self.now.read) }
        ensures { GivesHigh open_operand open_operand_height self.now.depth (spec.halved_row self.now.depth row cursor.old) result cursor.new }
    {
        let ((operand, half), high) = self.whole_row(cursor, row)?;
        let may = leaves_shift(&operand);
        let half = half_behind(cursor, may, half);
        Ok(((operand, half), high))
    }

    // The operator of a shift with its operand and the half behind it.
    #[tactic(auto, unfolding(crate::specs::Rows::shift_item))]
    fn shifted(
        &self,
        cursor: &mut Cursor<'_>,
        row: usize,
        half: Option<Place>,
    ) -> Result<(OpenTail, usize), ReadFault>
        requires reads { ReadsRows self.now.depth (L.pre self.now.read) (L.post self.now.read) }
        ensures { GivesHigh view_item item_height self.now.depth (spec.shift_item self.now.depth row half cursor.old) result cursor.new }
    {
        let operator = shift_operator(cursor, half)?;
        let ((operand, half), high) = self.halved_row(cursor, row)?;
        Ok(((Tail { operator, operand }, half), high))
    }

    // Shifts with their operands, one at least.
    #[inline(never)]
    fn shifts(
        &self,
        cursor: &mut Cursor<'_>,
        row: usize,
        before: Option<Place>,
    ) -> Result<(OpenTails, usize), ReadFault>
        requires reads { ReadsRows self.now.depth (L.pre self.now.read) (L.post self.now.read) }
        ensures { GivesHigh view_tails open_tails_height self.now.depth (spec.shifts_behind self.now.depth row before cursor.old) result cursor.new }
    {
        let ((first, behind), high) = self.shifted(cursor, row, before)?;
        let mut half = behind;
        let mut more = leaves_shift(&first.operand);
        let mut highest = high;
        let mut found = Vec::new(self.alloc);
        found.push(first)?;
        for _turn in 0..cursor.left() {
            if !another_shift(cursor, half, more) {
                return Ok(((found, half), highest));
            }
            let ((next, behind), high) = self.shifted(cursor, row, half)?;
            half = behind;
            more = leaves_shift(&next.operand);
            highest = highest.max(high);
            found.push(next)?;
        }
        Ok(((found, half), highest))
    }

    // The same behind an operand and its half, or these alone.
    #[tactic(auto, unfolding(crate::specs::Rows::shift_from, dart_tree::specs::Depth::operand_height))]
    fn shift_from(
        &self,
        cursor: &mut Cursor<'_>,
        depth: usize,
        row: usize,
        first: Operand,
        half: Option<Place>,
        tall: usize,
    ) -> Result<(OpenOperand, usize), ReadFault>
        requires reads { ReadsRows self.now.depth (L.pre self.now.read) (L.post self.now.read) }
        requires under { self.now.depth + 1 ≡ depth }
        requires tall { tall ≡ height.operand_height (view.operand first) }
        requires low { tall ≤ depth }
        ensures { GivesHigh open_operand open_operand_height depth (spec.shift_from depth self.now.depth row (view.operand first) half cursor.old) result cursor.new }
    {
        if !begins_shift(cursor, depth, &first, half, tall) {
            return Ok(((first, half), tall));
        }
        let ((more, behind), high) = self.shifts(cursor, row, half)?;
        let operand = make::binary(self.alloc, first, more)?;
        Ok(((operand, behind), tall.max(high) + 1))
    }

    /// Reads shifts, or their first operand alone with the half behind it (ECMA-408, 16.26 Shift).
    #[tactic(auto, unfolding(crate::specs::Rows::shift_row))]
    pub fn shift(
        &self,
        cursor: &mut Cursor<'_>,
        depth: usize,
        row: usize,
        first: OpenOperand,
        tall: usize,
    ) -> Result<(OpenOperand, usize), ReadFault>
        requires reads { ReadsRows self.now.depth (L.pre self.now.read) (L.post self.now.read) }
        requires under { self.now.depth + 1 ≡ depth }
        requires tall { tall ≡ height.operand_height (view.operand first.0) }
        requires low { tall ≤ depth }
        ensures { GivesHigh open_operand open_operand_height depth (spec.shift_row depth self.now.depth row (open_operand first) cursor.old) result cursor.new }
    {
        let (operand, half) = first;
        let may = may_shift(depth, &operand, tall);
        let half = half_behind(cursor, may, half);
        self.shift_from(cursor, depth, row, operand, half, tall)
    }
}
