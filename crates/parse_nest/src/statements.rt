// The function that reads the statements inside another, handed in.
ghost use Rattle.std.specs.Prelude.{◌≤◌};
ghost use Rattle.dart_tree.specs.Depth as height;
ghost use Rattle.dart_tree.specs.View as view;
ghost use Rattle.token_cursor.specs.Gives.{GivesHigh};
ghost use Rattle.parse_nest.specs.Stages.{stmt_at};
ghost use Rattle.parse_nest.specs.Nests.{NestsStmt};

use dart_tree::statement::Stmt;
use std::alloc::Global;
use token_cursor::cursor::Cursor;
use token_cursor::error::ReadFault;

/// A function that reads statements, each with at most so many nodes above one another as it is told, which is at most
/// the limit, and that says how many the statement has.
#[derive(Clone, Copy)]
pub struct Statements<S> {
    pub alloc: Global,
    pub limit: usize,
    pub stmt: S,
}

impl<S: Fn(Global, &mut Cursor<'_>, usize) -> Result<(Stmt, usize), ReadFault>> Statements<S> {
    /// Reads a statement (ECMA-408, 17 Statements).
    pub fn stmt(&self, cursor: &mut Cursor<'_>, depth: usize) -> Result<(Stmt, usize), ReadFault>
        requires nests { NestsStmt self.now.limit (S.pre self.now.stmt) (S.post self.now.stmt) }
        requires within { depth ≤ self.now.limit }
        ensures { GivesHigh view.stmt height.stmt_height depth (stmt_at depth cursor.old) result cursor.new }
    {
        (self.stmt)(self.alloc, cursor, depth)
    }
}
