// `switch` (ECMA-408, 17.9 Switch).
ghost use Rattle.std.specs.Prelude.{◌≡◌, ◌≤◌, ◌<◌, ◌+◌, max};
ghost use Rattle.dart_syntax.specs.Statements.{a_switch};
ghost use Rattle.dart_tree.specs.Depth as height;
ghost use Rattle.dart_tree.specs.View as view;
ghost use Rattle.grammar_laws.specs.Readers.{by_first};
ghost use Rattle.parse_block.specs.Views.{condition_of, condition_height, rest_of, rest_height, default_at, case_at, part_of, part_height, part_at, parts_of, parts_height, parts_at};
ghost use Rattle.parse_nest.specs.Nests.{NestsExpr, NestsStmt};
ghost use Rattle.parse_nest.specs.Stages.{closed_at, stmt_at};
ghost use Rattle.syntax_readers.specs.Statements as spec;
ghost use Rattle.dart_token.specs.declared.word.Word.TheVariants as w;
ghost use Rattle.token_codes.specs.Codes.{class_of, this_word};
ghost use Rattle.token_cursor.specs.Gives.{GivesHigh};

use crate::condition::{Parenthesized, condition};
use crate::list::stmts;
use dart_base::place::Place;
use dart_node::make::expression::given;
use dart_node::make::statement as make;
use dart_token::sign::Sign;
use dart_token::word::Word;
use dart_tree::expression::Value;
use dart_tree::parameter::Parameters;
use dart_tree::statement::{Block, Stmt, SwitchPart};
use parse_jump::labels::part_labels;
use parse_jump::look::sees_part;
use parse_nest::inside::{Inside, OpenExpr};
use parse_nest::statements::Statements;
use std::alloc::Global;
use token_cursor::cursor::Cursor;
use token_cursor::error::ReadFault;

/// A part of a `switch` behind its labels (ECMA-408, 17.9 Switch).
#[derive(Drop)]
pub struct PartRest {
    pub word: Place,
    pub value: Value,
    pub colon: Place,
    pub statements: Vec<Stmt>,
}

// A `switch` of its parts.
fn chosen(
    word: Place,
    condition: Parenthesized,
    opening: Place,
    parts: Vec<SwitchPart>,
    closing: Place,
) -> Stmt
    ensures same { view.stmt result ≡
        a_switch word (condition_of condition) opening (spec.to_parts (parts_of parts)) closing }
    ensures high { height.stmt_height (view.stmt result) ≡
        max (condition_height (condition_of condition)) (parts_height (parts_of parts)) + 1 }
{
    make::switch_statement(
        word,
        condition.opening,
        condition.value,
        condition.closing,
        opening,
        parts,
        closing,
    )
}

// Whether a part has a value, and so is no `default`.
#[tactic(auto, unfolding(dart_tree::specs::View::value))]
fn is_case(part: &SwitchPart) -> bool
    ensures { result ≡ spec.is_case (part_of part.now) }
{
    !matches!(part.value, Value::Omitted)
}

// `default` and its statements.
fn default_rest<S: Fn(Global, &mut Cursor<'_>, usize) -> Result<(Stmt, usize), ReadFault>>(
    inner: &Statements<S>,
    cursor: &mut Cursor<'_>,
    depth: usize,
) -> Result<(PartRest, usize), ReadFault>
    requires statements { NestsStmt inner.now.limit (S.pre inner.now.stmt) (S.post inner.now.stmt) }
    requires inside { depth ≤ inner.now.limit }
    ensures { GivesHigh rest_of rest_height depth (default_at depth cursor.old) result cursor.new }
{
    let word = cursor.expect_word(Word::Default)?;
    let colon = cursor.expect(Sign::Colon)?;
    let (statements, height) = stmts(inner, cursor, depth, false)?;
    Ok((
        PartRest {
            word,
            value: Value::Omitted,
            colon,
            statements,
        },
        height,
    ))
}

// `case` with its value and its statements.
fn case_rest<
    E: Fn(Global, &mut Cursor<'_>, usize, bool) -> Result<(OpenExpr, usize), ReadFault>,
    P: Fn(Global, &mut Cursor<'_>, usize) -> Result<(Parameters, usize), ReadFault>,
    B: Fn(Global, &mut Cursor<'_>, usize) -> Result<(Block, usize), ReadFault>,
    S: Fn(Global, &mut Cursor<'_>, usize) -> Result<(Stmt, usize), ReadFault>,
>(
    nest: &Inside<E, P, B>,
    inner: &Statements<S>,
    cursor: &mut Cursor<'_>,
    depth: usize,
) -> Result<(PartRest, usize), ReadFault>
    requires nests { NestsExpr nest.now.limit (E.pre nest.now.expr) (E.post nest.now.expr) }
    requires statements { NestsStmt inner.now.limit (S.pre inner.now.stmt) (S.post inner.now.stmt) }
    requires within { depth ≤ nest.now.limit }
    requires inside { depth ≤ inner.now.limit }
    ensures { GivesHigh rest_of rest_height depth (case_at depth cursor.old) result cursor.new }
{
    let word = cursor.expect_word(Word::Case)?;
    let (expr, tall) = nest.expr(cursor, depth)?;
    let colon = cursor.expect(Sign::Colon)?;
    let (statements, height) = stmts(inner, cursor, depth, true)?;
    let value = given(nest.alloc, None, expr)?;
    Ok((
        PartRest {
            word,
            value,
            colon,
            statements,
        },
        tall.max(height),
    ))
}

// A part behind its labels.
fn part_rest<
    E: Fn(Global, &mut Cursor<'_>, usize, bool) -> Result<(OpenExpr, usize), ReadFault>,
    P: Fn(Global, &mut Cursor<'_>, usize) -> Result<(Parameters, usize), ReadFault>,
    B: Fn(Global, &mut Cursor<'_>, usize) -> Result<(Block, usize), ReadFault>,
    S: Fn(Global, &mut Cursor<'_>, usize) -> Result<(Stmt, usize), ReadFault>,
>(
    nest: &Inside<E, P, B>,
    inner: &Statements<S>,
    cursor: &mut Cursor<'_>,
    depth: usize,
) -> Result<(PartRest, usize), ReadFault>
    requires nests { NestsExpr nest.now.limit (E.pre nest.now.expr) (E.post nest.now.expr) }
    requires statements { NestsStmt inner.now.limit (S.pre inner.now.stmt) (S.post inner.now.stmt) }
    requires within { depth ≤ nest.now.limit }
    requires inside { depth ≤ inner.now.limit }
    ensures { GivesHigh rest_of rest_height depth
        (by_first class_of (this_word w.Default) (default_at depth) (case_at depth) cursor.old) result cursor.new }
{
    if cursor.sees_word(Word::Default) {
        return default_rest(inner, cursor, depth);
    }
    case_rest(nest, inner, cursor, depth)
}

// A part.
#[tactic(auto, unfolding(syntax_readers::specs::Statements::part_over))]
fn part<
    E: Fn(Global, &mut Cursor<'_>, usize, bool) -> Result<(OpenExpr, usize), ReadFault>,
    P: Fn(Global, &mut Cursor<'_>, usize) -> Result<(Parameters, usize), ReadFault>,
    B: Fn(Global, &mut Cursor<'_>, usize) -> Result<(Block, usize), ReadFault>,
    S: Fn(Global, &mut Cursor<'_>, usize) -> Result<(Stmt, usize), ReadFault>,
>(
    nest: &Inside<E, P, B>,
    inner: &Statements<S>,
    cursor: &mut Cursor<'_>,
    depth: usize,
) -> Result<(SwitchPart, usize), ReadFault>
    requires nests { NestsExpr nest.now.limit (E.pre nest.now.expr) (E.post nest.now.expr) }
    requires statements { NestsStmt inner.now.limit (S.pre inner.now.stmt) (S.post inner.now.stmt) }
    requires within { depth ≤ nest.now.limit }
    requires inside { depth ≤ inner.now.limit }
    ensures { GivesHigh part_of part_height depth (part_at depth cursor.old) result cursor.new }
{
    let labels = part_labels(nest.alloc, cursor)?;
    let (rest, height) = part_rest(nest, inner, cursor, depth)?;
    Ok((
        SwitchPart {
            labels,
            word: rest.word,
            value: rest.value,
            colon: rest.colon,
            statements: rest.statements,
        },
        height,
    ))
}

// Parts, as long as one comes, and none behind a `default`.
fn parts<
    E: Fn(Global, &mut Cursor<'_>, usize, bool) -> Result<(OpenExpr, usize), ReadFault>,
    P: Fn(Global, &mut Cursor<'_>, usize) -> Result<(Parameters, usize), ReadFault>,
    B: Fn(Global, &mut Cursor<'_>, usize) -> Result<(Block, usize), ReadFault>,
    S: Fn(Global, &mut Cursor<'_>, usize) -> Result<(Stmt, usize), ReadFault>,
>(
    nest: &Inside<E, P, B>,
    inner: &Statements<S>,
    cursor: &mut Cursor<'_>,
    depth: usize,
) -> Result<(Vec<SwitchPart>, usize), ReadFault>
    requires nests { NestsExpr nest.now.limit (E.pre nest.now.expr) (E.post nest.now.expr) }
    requires statements { NestsStmt inner.now.limit (S.pre inner.now.stmt) (S.post inner.now.stmt) }
    requires within { depth ≤ nest.now.limit }
    requires inside { depth ≤ inner.now.limit }
    ensures { GivesHigh parts_of parts_height depth (parts_at depth cursor.old) result cursor.new }
{
    let mut found = Vec::new(nest.alloc);
    let mut highest = 0;
    for _turn in 0..cursor.left() {
        if !sees_part(cursor) {
            return Ok((found, highest));
        }
        let (further, height) = part(nest, inner, cursor, depth)?;
        let goes_on = is_case(&further);
        found.push(further)?;
        highest = highest.max(height);
        if !goes_on {
            return Ok((found, highest));
        }
    }
    Ok((found, highest))
}

/// Reads a `switch` whose parts have at most so many nodes above one another (ECMA-408, 17.9 Switch).
#[tactic(auto, unfolding(syntax_readers::specs::Statements::switch_over))]
pub fn switch_stmt<
    E: Fn(Global, &mut Cursor<'_>, usize, bool) -> Result<(OpenExpr, usize), ReadFault>,
    P: Fn(Global, &mut Cursor<'_>, usize) -> Result<(Parameters, usize), ReadFault>,
    B: Fn(Global, &mut Cursor<'_>, usize) -> Result<(Block, usize), ReadFault>,
    S: Fn(Global, &mut Cursor<'_>, usize) -> Result<(Stmt, usize), ReadFault>,
>(
    nest: &Inside<E, P, B>,
    inner: &Statements<S>,
    cursor: &mut Cursor<'_>,
    depth: usize,
) -> Result<(Stmt, usize), ReadFault>
    requires nests { NestsExpr nest.now.limit (E.pre nest.now.expr) (E.post nest.now.expr) }
    requires statements { NestsStmt inner.now.limit (S.pre inner.now.stmt) (S.post inner.now.stmt) }
    requires within { depth ≤ nest.now.limit }
    requires inside { depth ≤ inner.now.limit }
    requires room { depth + 1 < 18446744073709551616 }
    ensures { GivesHigh view.stmt height.stmt_height (depth + 1)
        (spec.switch_over depth (closed_at depth) (stmt_at depth) cursor.old) result cursor.new }
{
    let word = cursor.expect_word(Word::Switch)?;
    let (condition, tall) = condition(nest, cursor, depth)?;
    let opening = cursor.expect(Sign::LeftBrace)?;
    let (parts, height) = parts(nest, inner, cursor, depth)?;
    let closing = cursor.expect(Sign::RightBrace)?;
    Ok((
        chosen(word, condition, opening, parts, closing),
        tall.max(height) + 1,
    ))
}
