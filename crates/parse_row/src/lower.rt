// Operands of the rows with room for one node less.
ghost use Rattle.token_cursor.specs.Gives.{GivesHigh};
ghost use Rattle.parse_unary.specs.Views.{open_operand, open_operand_height};
ghost use Rattle.parse_row.specs.Lower.{ReadsRows};
ghost use Rattle.parse_row.specs.Rows as spec;

use dart_base::place::Place;
use dart_tree::expression::Tail;
use parse_unary::target::is_bare;
use parse_unary::unary::OpenOperand;
use std::alloc::Global;
use token_cursor::cursor::Cursor;
use token_cursor::error::ReadFault;

/// Operators with their operands, and the half of an operator behind the last.
pub type OpenTails = (Vec<Tail>, Option<Place>);

/// An operator with its operand, and the half of an operator behind it.
pub type OpenTail = (Tail, Option<Place>);

/// What reads an operand of each row of operators, with at most so many nodes above one another.
#[derive(Drop)]
pub struct Lower<L> {
    pub alloc: Global,
    pub depth: usize,
    pub read: L,
}

impl<L: Fn(&mut Cursor<'_>, usize) -> Result<(OpenOperand, usize), ReadFault>> Lower<L> {
    /// Reads an operand of a row that is not `super` alone (ECMA-408, 16.22 to 16.29).
    #[tactic(auto, unfolding(crate::specs::Rows::whole_row, syntax_readers::specs::Levels::whole))]
    pub fn whole_row(
        &self,
        cursor: &mut Cursor<'_>,
        row: usize,
    ) -> Result<(OpenOperand, usize), ReadFault>
        requires reads { ReadsRows self.now.depth (L.pre self.now.read) (L.post self.now.read) }
        ensures { GivesHigh open_operand open_operand_height self.now.depth (spec.whole_row self.now.depth row cursor.old) result cursor.new }
    {
        let ((operand, half), tall) = (self.read)(cursor, row)?;
        if is_bare(&operand) {
            drop(operand);
            return Err(ReadFault::Stuck);
        }
        Ok(((operand, half), tall))
    }
}
