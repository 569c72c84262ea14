// Comparisons, tests of types and casts, over the rows with room for one node less (ECMA-408, 16.24, 16.34 and 16.35).
ghost use Rattle.std.specs.Prelude.{◌≡◌, ◌+◌, ◌<◌, ◌≤◌, IfOk};
ghost use Rattle.dart_tree.specs.Depth as height;
ghost use Rattle.dart_tree.specs.View as view;
ghost use Rattle.token_cursor.specs.Gives.{GivesHigh};
ghost use Rattle.parse_unary.specs.Views.{open_operand, open_operand_height};
ghost use Rattle.parse_row.specs.Lower.{ReadsRows};
ghost use Rattle.parse_row.specs.Rows as spec;

use crate::lower::Lower;
use crate::operators::{compares, comparison};
use dart_base::place::Place;
use dart_node::make::expression as make;
use dart_token::sign::Sign;
use dart_token::word::Word;
use dart_tree::expression::{Operand, Tail};
use dart_tree::operator::Operator;
use parse_type::types::type_node;
use parse_unary::unary::OpenOperand;
use std::alloc::{AllocError, Global};
use token_cursor::cursor::Cursor;
use token_cursor::error::ReadFault;

// One operator between two operands.
fn between(
    alloc: Global,
    first: Operand,
    operator: Operator,
    operand: Operand,
) -> Result<Operand, AllocError>
    ensures { IfOk result (λ x. view.operand x ≡ spec.with_one (view.operand first) operator (view.operand operand)) }
{
    let mut more = Vec::new(alloc);
    more.push(Tail { operator, operand })?;
    make::binary(alloc, first, more)
}

impl<L: Fn(&mut Cursor<'_>, usize) -> Result<(OpenOperand, usize), ReadFault>> Lower<L> {
    // A test of a type.
    #[tactic(auto, unfolding(crate::specs::Rows::tested_behind, dart_tree::specs::Depth::operand_height))]
    fn tested(
        &self,
        cursor: &mut Cursor<'_>,
        depth: usize,
        first: Operand,
        tall: usize,
    ) -> Result<(OpenOperand, usize), ReadFault>
        requires under { self.now.depth + 1 ≡ depth }
        requires tall { tall ≡ height.operand_height (view.operand first) }
        requires low { tall < depth }
        ensures { GivesHigh open_operand open_operand_height depth (spec.tested_behind self.now.depth (view.operand first) cursor.old) result cursor.new }
    {
        let word = cursor.expect_word(Word::Is)?;
        let bang = cursor.maybe(Sign::Bang);
        let (type_node, high) = type_node(self.alloc, cursor, self.depth)?;
        let operand = make::is_type(self.alloc, first, word, bang, type_node)?;
        Ok(((operand, None), tall.max(high) + 1))
    }

    // A cast.
    #[tactic(auto, unfolding(crate::specs::Rows::cast_behind, dart_tree::specs::Depth::operand_height))]
    fn cast(
        &self,
        cursor: &mut Cursor<'_>,
        depth: usize,
        first: Operand,
        tall: usize,
    ) -> Result<(OpenOperand, usize), ReadFault>
        requires under { self.now.depth + 1 ≡ depth }
        requires tall { tall ≡ height.operand_height (view.operand first) }
        requires low { tall < depth }
        ensures { GivesHigh open_operand open_operand_height depth (spec.cast_behind self.now.depth (view.operand first) cursor.old) result cursor.new }
    {
        let word = cursor.expect_word(Word::As)?;
        let (type_node, high) = type_node(self.alloc, cursor, self.depth)?;
        let operand = make::as_type(self.alloc, first, word, type_node)?;
        Ok(((operand, None), tall.max(high) + 1))
    }

    // The operand behind an operator that stands alone between two.
    #[tactic(auto, unfolding(crate::specs::Rows::one_behind, dart_tree::specs::Depth::operand_height, dart_tree::specs::Depth::tails_height))]
    fn one_behind(
        &self,
        cursor: &mut Cursor<'_>,
        depth: usize,
        row: usize,
        first: Operand,
        operator: Operator,
        tall: usize,
    ) -> Result<(OpenOperand, usize), ReadFault>
        requires reads { ReadsRows self.now.depth (L.pre self.now.read) (L.post self.now.read) }
        requires under { self.now.depth + 1 ≡ depth }
        requires tall { tall ≡ height.operand_height (view.operand first) }
        requires low { tall < depth }
        ensures { GivesHigh open_operand open_operand_height depth (spec.one_behind self.now.depth row (view.operand first) operator cursor.old) result cursor.new }
    {
        let ((operand, half), high) = self.whole_row(cursor, row)?;
        let whole = between(self.alloc, first, operator, operand)?;
        Ok(((whole, half), tall.max(high) + 1))
    }

    // What is compared with an operand.
    #[tactic(auto, unfolding(crate::specs::Rows::operator_behind))]
    fn operator_behind(
        &self,
        cursor: &mut Cursor<'_>,
        depth: usize,
        row: usize,
        first: Operand,
        tall: usize,
    ) -> Result<(OpenOperand, usize), ReadFault>
        requires reads { ReadsRows self.now.depth (L.pre self.now.read) (L.post self.now.read) }
        requires under { self.now.depth + 1 ≡ depth }
        requires tall { tall ≡ height.operand_height (view.operand first) }
        requires low { tall < depth }
        ensures { GivesHigh open_operand open_operand_height depth (spec.operator_behind self.now.depth row (view.operand first) cursor.old) result cursor.new }
    {
        let operator = comparison(cursor)?;
        self.one_behind(cursor, depth, row, first, operator, tall)
    }

    // The same, or the type that an operand is tested against or cast to.
    #[inline(never)]
    #[tactic(auto, unfolding(crate::specs::Rows::compare_behind))]
    fn compared(
        &self,
        cursor: &mut Cursor<'_>,
        depth: usize,
        row: usize,
        first: Operand,
        half: Option<Place>,
        tall: usize,
    ) -> Result<(OpenOperand, usize), ReadFault>
        requires reads { ReadsRows self.now.depth (L.pre self.now.read) (L.post self.now.read) }
        requires under { self.now.depth + 1 ≡ depth }
        requires tall { tall ≡ height.operand_height (view.operand first) }
        requires low { tall < depth }
        ensures { GivesHigh open_operand open_operand_height depth (spec.compare_behind self.now.depth row (view.operand first) half cursor.old) result cursor.new }
    {
        if let Some(greater) = half {
            let operator = Operator::Sign(greater, Sign::Greater);
            return self.one_behind(cursor, depth, row, first, operator, tall);
        }
        if cursor.sees_word(Word::Is) {
            return self.tested(cursor, depth, first, tall);
        }
        if cursor.sees_word(Word::As) {
            return self.cast(cursor, depth, first, tall);
        }
        self.operator_behind(cursor, depth, row, first, tall)
    }

    /// Reads a comparison, or its first operand alone (ECMA-408, 16.24 Relational, 16.34 Type Test and 16.35 Type Cast).
    #[tactic(auto, unfolding(crate::specs::Rows::compare_row))]
    pub fn relational(
        &self,
        cursor: &mut Cursor<'_>,
        depth: usize,
        row: usize,
        first: OpenOperand,
        tall: usize,
    ) -> Result<(OpenOperand, usize), ReadFault>
        requires reads { ReadsRows self.now.depth (L.pre self.now.read) (L.post self.now.read) }
        requires under { self.now.depth + 1 ≡ depth }
        requires tall { tall ≡ height.operand_height (view.operand first.0) }
        requires low { tall ≤ depth }
        ensures { GivesHigh open_operand open_operand_height depth (spec.compare_row depth self.now.depth row (open_operand first) cursor.old) result cursor.new }
    {
        if !compares(cursor, depth, &first, tall) {
            return Ok((first, tall));
        }
        let (operand, half) = first;
        self.compared(cursor, depth, row, operand, half, tall)
    }
}
