// Assignments (ECMA-408, 16.19 Assignment).
ghost use Rattle.std.specs.Prelude.{◌≡◌, ◌≤◌};
ghost use Rattle.grammar_laws.specs.Readers.{starts};
ghost use Rattle.token_codes.specs.Codes.{class_of};
ghost use Rattle.token_cursor.specs.Gives.{Gives, GivesHigh, same};
ghost use Rattle.syntax_readers.specs.Expressions as spec;
ghost use Rattle.parse_nest.specs.Nests.{NestsExpr};
ghost use Rattle.parse_nest.specs.Stages.{expr_at};
ghost use Rattle.parse_expr.specs.Views.{assigned_of, assigned_height};

use dart_base::place::Place;
use dart_token::sign::Sign;
use dart_tree::operator::Operator;
use dart_tree::parameter::Parameters;
use dart_tree::statement::Block;
use parse_nest::inside::{Inside, OpenExpr};
use parse_unary::operator::{one_of, sees_any};
use std::alloc::Global;
use token_cursor::cursor::Cursor;
use token_cursor::error::ReadFault;

/// The operators of one sign that assign (ECMA-408, 16.19 Assignment).
pub const ASSIGNMENT_SIGNS: [Sign; 11] = [
    Sign::Assign,
    Sign::StarAssign,
    Sign::SlashAssign,
    Sign::TildeSlashAssign,
    Sign::PercentAssign,
    Sign::PlusAssign,
    Sign::MinusAssign,
    Sign::ShiftLeftAssign,
    Sign::AmpersandAssign,
    Sign::CaretAssign,
    Sign::BarAssign,
];

/// Whether an operator that assigns comes, behind the half of one or none (ECMA-408, 16.19 Assignment).
pub fn sees_assignment(cursor: &Cursor<'_>, half: Option<Place>) -> bool
    ensures { result ≡ starts class_of (spec.assign_codes half) cursor.now }
{
    match half {
        None => sees_any(cursor, &ASSIGNMENT_SIGNS),
        Some(_) => cursor.sees(Sign::GreaterEqual),
    }
}

// An operator that assigns, of which half may have been read.
#[tactic(auto, unfolding(syntax_readers::specs::Expressions::assignment_operator))]
fn assignment_operator(cursor: &mut Cursor<'_>, half: Option<Place>) -> Result<Operator, ReadFault>
    ensures { Gives same (spec.assignment_operator half cursor.old) result cursor.new }
{
    match half {
        None => one_of(cursor, &ASSIGNMENT_SIGNS),
        Some(greater) => {
            let second = cursor.expect(Sign::GreaterEqual)?;
            Ok(Operator::ShiftRightAssign(greater, second))
        }
    }
}

/// Reads an operator that assigns, of which half may have been read, and what is assigned (ECMA-408, 16.19 Assignment).
#[tactic(auto, unfolding(syntax_readers::specs::Expressions::assignment))]
pub fn assignment<
    E: Fn(Global, &mut Cursor<'_>, usize, bool) -> Result<(OpenExpr, usize), ReadFault>,
    P: Fn(Global, &mut Cursor<'_>, usize) -> Result<(Parameters, usize), ReadFault>,
    B: Fn(Global, &mut Cursor<'_>, usize) -> Result<(Block, usize), ReadFault>,
>(
    nest: &Inside<E, P, B>,
    cursor: &mut Cursor<'_>,
    depth: usize,
    half: Option<Place>,
    cascades: bool,
) -> Result<((Operator, OpenExpr), usize), ReadFault>
    requires nests { NestsExpr nest.now.limit (E.pre nest.now.expr) (E.post nest.now.expr) }
    requires within { depth ≤ nest.now.limit }
    ensures { GivesHigh assigned_of assigned_height depth (spec.assignment half (expr_at depth cascades) cursor.old) result cursor.new }
{
    let operator = assignment_operator(cursor, half)?;
    let (value, height) = nest.open_expr(cursor, depth, cascades)?;
    Ok(((operator, value), height))
}
