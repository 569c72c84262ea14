// Labels in front of statements and of parts of a `switch` (ECMA-408, 17.9 Switch and 17.13 Labels).
ghost use Rattle.grammar_laws.specs.Readers.{always, many};
ghost use Rattle.parse_jump.specs.Views.{labels_of};
ghost use Rattle.syntax_readers.specs.Combinators.{many_where};
ghost use Rattle.syntax_readers.specs.Statements as spec;
ghost use Rattle.token_codes.specs.Codes.{class_of, names};
ghost use Rattle.token_codes.specs.Leaves as leaf;
ghost use Rattle.token_cursor.specs.Gives.{Gives};

use crate::look::label_comes;
use dart_tree::identifier::Label;
use std::alloc::Global;
use token_cursor::cursor::Cursor;
use token_cursor::error::ReadFault;

/// Reads the labels of a statement, as long as one comes (ECMA-408, 17.13 Labels).
pub fn labels(alloc: Global, cursor: &mut Cursor<'_>) -> Result<Vec<Label>, ReadFault>
    ensures { Gives labels_of (many_where spec.label_comes leaf.label cursor.old) result cursor.new }
{
    let mut found = Vec::new(alloc);
    for _turn in 0..cursor.left() {
        if !label_comes(cursor) {
            return Ok(found);
        }
        let label = cursor.label(alloc)?;
        found.push(label)?;
    }
    Ok(found)
}

/// Reads the labels of a part of a `switch`, as long as an identifier comes (ECMA-408, 17.9 Switch).
pub fn part_labels(alloc: Global, cursor: &mut Cursor<'_>) -> Result<Vec<Label>, ReadFault>
    ensures { Gives labels_of (many class_of always names leaf.label cursor.old) result cursor.new }
{
    let mut found = Vec::new(alloc);
    for _turn in 0..cursor.left() {
        if !cursor.sees_name() {
            return Ok(found);
        }
        let label = cursor.label(alloc)?;
        found.push(label)?;
    }
    Ok(found)
}
