// Lists of statements (ECMA-408, 17.1 Blocks and 17.9 Switch).
ghost use Rattle.std.specs.Prelude.{◌≡◌, ◌≤◌, IfOk};
ghost use Rattle.dart_tree.specs.Depth as height;
ghost use Rattle.dart_tree.specs.View as view;
ghost use Rattle.parse_block.specs.Views.{end_of, behind_room, list_of, list_height, stmts_at};
ghost use Rattle.parse_nest.specs.Nests.{NestsStmt};
ghost use Rattle.parse_nest.specs.Stages.{stmt_at};
ghost use Rattle.syntax_readers.specs.Statements as spec;
ghost use Rattle.syntax_readers.specs.Types.{type_reader};
ghost use Rattle.token_cursor.specs.Gives.{GivesHigh};

use crate::edge::type_room;
use dart_tree::statement::Stmt;
use parse_jump::catching::on_type;
use parse_jump::look::sees_stmt_in;
use parse_nest::statements::Statements;
use parse_parameter::look::settle;
use std::alloc::{AllocError, Global};
use token_cursor::cursor::Cursor;
use token_cursor::error::ReadFault;

/// Moves a cursor behind `on` and a type, or to where they stop (ECMA-408, 17.11 Try).
pub fn pass_on(alloc: Global, cursor: &mut Cursor<'_>, depth: usize) -> Result<(), AllocError>
    ensures { IfOk result (λ u. cursor.new ≡ end_of (spec.on_type (type_reader depth) cursor.old)) }
{
    match on_type(alloc, cursor, depth) {
        Ok((found, _)) => {
            drop(found);
            Ok(())
        }
        Err(ReadFault::Stuck) => Ok(()),
        Err(ReadFault::Memory) => Err(AllocError),
    }
}

// A statement behind another, which may end in a `try` with so much room for the type of another part.
fn stmt_behind<S: Fn(Global, &mut Cursor<'_>, usize) -> Result<(Stmt, usize), ReadFault>>(
    inner: &Statements<S>,
    cursor: &mut Cursor<'_>,
    depth: usize,
    room: Option<usize>,
) -> Result<(Stmt, usize), ReadFault>
    requires nests { NestsStmt inner.now.limit (S.pre inner.now.stmt) (S.post inner.now.stmt) }
    requires within { depth ≤ inner.now.limit }
    ensures { GivesHigh view.stmt height.stmt_height depth (behind_room room (stmt_at depth) cursor.old) result cursor.new }
{
    let Some(room) = room else {
        return inner.stmt(cursor, depth);
    };
    let mut second = cursor.fork();
    pass_on(inner.alloc, cursor, room)?;
    let found = inner.stmt(&mut second, depth);
    settle(cursor, &second, found.is_ok());
    found
}

/// Reads statements, in a part of a `switch` or elsewhere, as long as one comes (ECMA-408, 17.1 Blocks and 17.9 Switch).
pub fn stmts<S: Fn(Global, &mut Cursor<'_>, usize) -> Result<(Stmt, usize), ReadFault>>(
    inner: &Statements<S>,
    cursor: &mut Cursor<'_>,
    depth: usize,
    in_part: bool,
) -> Result<(Vec<Stmt>, usize), ReadFault>
    requires nests { NestsStmt inner.now.limit (S.pre inner.now.stmt) (S.post inner.now.stmt) }
    requires within { depth ≤ inner.now.limit }
    ensures { GivesHigh list_of list_height depth (stmts_at depth in_part cursor.old) result cursor.new }
{
    let mut found = Vec::new(inner.alloc);
    let mut highest = 0;
    let mut room = None;
    for _turn in 0..cursor.left() {
        if !sees_stmt_in(cursor, in_part) {
            return Ok((found, highest));
        }
        let (further, height) = stmt_behind(inner, cursor, depth, room)?;
        room = type_room(&further, depth);
        found.push(further)?;
        highest = highest.max(height);
    }
    Ok((found, highest))
}
