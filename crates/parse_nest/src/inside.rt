// The functions that read the nodes inside another, handed in together.
ghost use Rattle.std.specs.Prelude.{◌≤◌};
ghost use Rattle.dart_tree.specs.Depth as height;
ghost use Rattle.dart_tree.specs.Lists.{block_of};
ghost use Rattle.dart_tree.specs.View as view;
ghost use Rattle.token_cursor.specs.Gives.{GivesHigh};
ghost use Rattle.parse_nest.specs.Open.{open_expr, open_expr_height};
ghost use Rattle.parse_nest.specs.Stages.{expr_at, closed_at, parameters_at, block_at};
ghost use Rattle.parse_nest.specs.Nests.{NestsExpr, NestsParameters, NestsBlock};

use dart_base::place::Place;
use dart_tree::expression::Expr;
use dart_tree::parameter::Parameters;
use dart_tree::statement::Block;
use std::alloc::Global;
use token_cursor::cursor::Cursor;
use token_cursor::error::ReadFault;

/// An expression with the half of an operator behind it, if one was read.
pub type OpenExpr = (Expr, Option<Place>);

/// Functions that read the nodes inside, each with at most so many nodes above one another as it is told, which is at
/// most the limit, and that say how many the node has.
#[derive(Clone, Copy)]
pub struct Inside<E, P, B> {
    pub alloc: Global,
    pub limit: usize,
    /// Reads an expression, with cascades where that is told.
    pub expr: E,
    pub parameters: P,
    pub block: B,
}

impl<
    E: Fn(Global, &mut Cursor<'_>, usize, bool) -> Result<(OpenExpr, usize), ReadFault>,
    P: Fn(Global, &mut Cursor<'_>, usize) -> Result<(Parameters, usize), ReadFault>,
    B: Fn(Global, &mut Cursor<'_>, usize) -> Result<(Block, usize), ReadFault>,
> Inside<E, P, B> {
    /// Reads an expression, or a half that stands behind it too, with cascades or without (ECMA-408, 16 Expressions).
    pub fn open_expr(
        &self,
        cursor: &mut Cursor<'_>,
        depth: usize,
        cascades: bool,
    ) -> Result<(OpenExpr, usize), ReadFault>
        requires nests { NestsExpr self.now.limit (E.pre self.now.expr) (E.post self.now.expr) }
        requires within { depth ≤ self.now.limit }
        ensures { GivesHigh open_expr open_expr_height depth (expr_at depth cascades cursor.old) result cursor.new }
    {
        (self.expr)(self.alloc, cursor, depth, cascades)
    }

    /// Reads an expression (ECMA-408, 16 Expressions).
    pub fn expr(&self, cursor: &mut Cursor<'_>, depth: usize) -> Result<(Expr, usize), ReadFault>
        requires nests { NestsExpr self.now.limit (E.pre self.now.expr) (E.post self.now.expr) }
        requires within { depth ≤ self.now.limit }
        ensures { GivesHigh view.expr height.expr_height depth (closed_at depth cursor.old) result cursor.new }
    {
        let ((expr, half), height) = self.open_expr(cursor, depth, true)?;
        if half.is_some() {
            drop(expr);
            return Err(ReadFault::Stuck);
        }
        Ok((expr, height))
    }

    /// Reads the parameters of a function (ECMA-408, 9.2 Formal Parameters).
    pub fn parameters(
        &self,
        cursor: &mut Cursor<'_>,
        depth: usize,
    ) -> Result<(Parameters, usize), ReadFault>
        requires nests { NestsParameters self.now.limit (P.pre self.now.parameters) (P.post self.now.parameters) }
        requires within { depth ≤ self.now.limit }
        ensures { GivesHigh view.parameters height.parameters_height depth (parameters_at depth cursor.old) result cursor.new }
    {
        (self.parameters)(self.alloc, cursor, depth)
    }

    /// Reads a block (ECMA-408, 17.1 Blocks).
    pub fn block(&self, cursor: &mut Cursor<'_>, depth: usize) -> Result<(Block, usize), ReadFault>
        requires nests { NestsBlock self.now.limit (B.pre self.now.block) (B.post self.now.block) }
        requires within { depth ≤ self.now.limit }
        ensures { GivesHigh block_of height.block_height depth (block_at depth cursor.old) result cursor.new }
    {
        (self.block)(self.alloc, cursor, depth)
    }
}
