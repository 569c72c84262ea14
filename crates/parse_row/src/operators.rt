// The operators of each row, and what may stand before them.
ghost use Rattle.std.specs.Prelude.{◌≡◌, ◌<◌, ◌&&◌, true};
ghost use Rattle.dart_token.specs.declared.sign.Sign.TheVariants as s;
ghost use Rattle.dart_tree.specs.Depth as height;
ghost use Rattle.dart_tree.specs.View as view;
ghost use Rattle.dart_syntax.specs.Edges.{question};
ghost use Rattle.grammar_laws.specs.Readers.{starts};
ghost use Rattle.token_codes.specs.Codes.{class_of, these};
ghost use Rattle.token_codes.specs.Leaves as spec;
ghost use Rattle.token_cursor.specs.Gives.{Gives, same};
ghost use Rattle.syntax_readers.specs.Levels.{compare_codes, shift_codes, shift_operator, comparing};
ghost use Rattle.parse_unary.specs.Views.{open_operand};
ghost use Rattle.parse_row.specs.Rows.{row_signs, row_binds, row_repeats, row_codes, stands_before, repeats_behind, leaves_shift, may_shift, half_behind, order_codes, test_codes, codes_behind, sum_codes, bit_codes, comparison_codes, choice_codes, operator_codes, passes_rows};

use dart_base::place::Place;
use dart_token::sign::Sign;
use dart_token::word::Word;
use dart_tree::expression::Operand;
use dart_tree::operator::Operator;
use parse_edge::edge::{COMPARES, QUESTION, leaves, leaves_less};
use parse_literal::look::sees_operand;
use parse_unary::operator::{one_of, sees_any};
use parse_unary::target::is_bare;
use parse_unary::unary::OpenOperand;
use token_cursor::cursor::Cursor;
use token_cursor::error::ReadFault;

/// How tightly `<<` binds.
const SHIFTS: u8 = 9;

const PRODUCTS: [Sign; 4] = [Sign::Star, Sign::Slash, Sign::TildeSlash, Sign::Percent];

const SUMS: [Sign; 2] = [Sign::Plus, Sign::Minus];

const BIT_AND: [Sign; 1] = [Sign::Ampersand];

const BIT_XOR: [Sign; 1] = [Sign::Caret];

const BIT_OR: [Sign; 1] = [Sign::Bar];

const EQUALITIES: [Sign; 2] = [Sign::EqualEqual, Sign::NotEqual];

const LOGICAL_AND: [Sign; 1] = [Sign::AndAnd];

const LOGICAL_OR: [Sign; 1] = [Sign::OrOr];

const NO_SIGNS: [Sign; 0] = [];

const COMPARISONS: [Sign; 4] = [
    Sign::Less,
    Sign::Greater,
    Sign::LessEqual,
    Sign::GreaterEqual,
];

/// The row of comparisons, `is` and `as`.
pub const COMPARE_ROW: usize = 6;
/// The row of shifts.
pub const SHIFT_ROW: usize = 2;
/// The row of `==` and `!=`.
pub const EQUAL_ROW: usize = 7;
/// The row of `?` and `:`.
pub const CHOICE_ROW: usize = 10;

// The operators of one sign of a row.
fn signs_of(row: usize) -> &'static [Sign]
    ensures { result.now ≡ row_signs row }
{
    match row {
        0 => &PRODUCTS,
        1 => &SUMS,
        3 => &BIT_AND,
        4 => &BIT_XOR,
        5 => &BIT_OR,
        7 => &EQUALITIES,
        8 => &LOGICAL_AND,
        9 => &LOGICAL_OR,
        _ => &NO_SIGNS,
    }
}

// How tightly they bind.
fn binding_of(row: usize) -> u8
    ensures { result ≡ row_binds row }
{
    match row {
        0 => 11,
        1 => 10,
        3 => 8,
        4 => 7,
        5 => 6,
        7 => 4,
        8 => 3,
        9 => 2,
        _ => 0,
    }
}

// Whether more than one of them may stand in a row.
#[tactic(auto, using(crate::proofs::Signs::repeats_is))]
fn repeats(row: usize) -> bool
    ensures { result ≡ row_repeats row }
{
    row != EQUAL_ROW
}

/// Whether an operator of this row comes.
pub fn sees_operator(cursor: &Cursor<'_>, row: usize) -> bool
    ensures { result ≡ starts class_of (row_codes row) cursor.now }
{
    sees_any(cursor, signs_of(row))
}

/// Takes an operator of this row (ECMA-408, 16.21 to 16.28).
pub fn operator(cursor: &mut Cursor<'_>, row: usize) -> Result<Operator, ReadFault>
    ensures { Gives same (spec.one_of (row_signs row) cursor.old) result cursor.new }
{
    one_of(cursor, signs_of(row))
}

/// Takes `<`, `>`, `<=` or `>=` (ECMA-408, 16.24 Relational Expressions).
pub fn comparison(cursor: &mut Cursor<'_>) -> Result<Operator, ReadFault>
    ensures { Gives same (spec.one_of comparing cursor.old) result cursor.new }
{
    one_of(cursor, &COMPARISONS)
}

// Whether an operand may stand before an operator that binds so tightly.
fn stands(binds: u8, depth: usize, first: &OpenOperand, tall: usize) -> bool
    requires { tall ≡ height.operand_height (view.operand (first.now).0) }
    ensures same { result ≡ stands_before binds depth (open_operand first.now) }
    ensures low { result ≡ true → tall < depth }
{
    first.1.is_none() && tall < depth && leaves(binds, &first.0)
}

/// Whether an operator of this row comes and may stand behind this operand.
#[tactic(auto, using(crate::proofs::Signs::swapped))]
pub fn begins(
    cursor: &Cursor<'_>,
    row: usize,
    depth: usize,
    first: &OpenOperand,
    tall: usize,
) -> bool
    requires { tall ≡ height.operand_height (view.operand (first.now).0) }
    ensures same { result ≡ (stands_before (row_binds row) depth (open_operand first.now) && starts class_of (row_codes row) cursor.now) }
    ensures low { result ≡ true → tall < depth }
{
    sees_operator(cursor, row) && stands(binding_of(row), depth, first, tall)
}

/// Whether another operator of this row may stand behind this operand.
pub fn goes_on(row: usize, operand: &Operand, half: Option<Place>) -> bool
    ensures { result ≡ repeats_behind row (view.operand operand.now, half) }
{
    repeats(row) && half.is_none() && leaves(binding_of(row), operand)
}

/// Whether another operator of this row comes, where one may.
#[tactic(auto, using(crate::proofs::Signs::swapped))]
pub fn another_comes(cursor: &Cursor<'_>, row: usize, may: bool) -> bool
    ensures { result ≡ (may && starts class_of (row_codes row) cursor.now) }
{
    may && sees_operator(cursor, row)
}

/// Whether `?` comes and may stand behind this operand.
#[tactic(auto, using(crate::proofs::Signs::swapped))]
pub fn chooses(cursor: &Cursor<'_>, depth: usize, first: &OpenOperand, tall: usize) -> bool
    requires { tall ≡ height.operand_height (view.operand (first.now).0) }
    ensures same { result ≡ (stands_before question depth (open_operand first.now) && starts class_of (these s.Question) cursor.now) }
    ensures low { result ≡ true → tall < depth }
{
    cursor.sees(Sign::Question) && stands(QUESTION, depth, first, tall)
}

/// Whether a shift may stand behind this operand.
pub fn leaves_shift(tree: &Operand) -> bool
    ensures { result ≡ leaves_shift (view.operand tree.now) }
{
    leaves(SHIFTS, tree)
}

/// Whether a shift may stand behind this operand, with room for its node.
pub fn may_shift(depth: usize, first: &Operand, tall: usize) -> bool
    requires { tall ≡ height.operand_height (view.operand first.now) }
    ensures same { result ≡ may_shift depth (view.operand first.now) }
    ensures low { result ≡ true → tall < depth }
{
    tall < depth && leaves_shift(first)
}

/// Takes the first `>` of a shift, where it may come and no half was read before.
pub fn half_behind(cursor: &mut Cursor<'_>, may: bool, half: Option<Place>) -> Option<Place>
    ensures { Gives same (half_behind may half cursor.old) (Ok result) cursor.new }
{
    if half.is_some() || !may {
        return half;
    }
    cursor.maybe(Sign::Greater)
}

/// Whether a shift comes, or the other half of one.
pub fn sees_shift(cursor: &Cursor<'_>, half: Option<Place>) -> bool
    ensures { result ≡ starts class_of (shift_codes half) cursor.now }
{
    match half {
        None => cursor.sees(Sign::ShiftLeft),
        Some(_) => cursor.sees(Sign::Greater),
    }
}

/// Whether another shift comes, or the other half of one, where one may.
pub fn another_shift(cursor: &Cursor<'_>, half: Option<Place>, may: bool) -> bool
    ensures { result ≡ (may && starts class_of (shift_codes half) cursor.now) }
{
    may && sees_shift(cursor, half)
}

/// Whether a shift comes, or the other half of one, and may stand behind this operand.
pub fn begins_shift(
    cursor: &Cursor<'_>,
    depth: usize,
    first: &Operand,
    half: Option<Place>,
    tall: usize,
) -> bool
    requires { tall ≡ height.operand_height (view.operand first.now) }
    ensures same { result ≡ (may_shift depth (view.operand first.now) && starts class_of (shift_codes half) cursor.now) }
    ensures low { result ≡ true → tall < depth }
{
    sees_shift(cursor, half) && may_shift(depth, first, tall)
}

/// Takes the operator of a shift, behind its half or whole (ECMA-408, 16.26 Shift).
#[tactic(auto, unfolding(syntax_readers::specs::Levels::shift_operator, token_codes::specs::Leaves::signed))]
pub fn shift_operator(cursor: &mut Cursor<'_>, half: Option<Place>) -> Result<Operator, ReadFault>
    ensures { Gives same (shift_operator half cursor.old) result cursor.new }
{
    match half {
        None => {
            let place = cursor.expect(Sign::ShiftLeft)?;
            Ok(Operator::Sign(place, Sign::ShiftLeft))
        }
        Some(greater) => {
            let second = cursor.expect(Sign::Greater)?;
            Ok(Operator::ShiftRight(greater, second))
        }
    }
}

// Whether `>`, `<=` or `>=` comes.
#[tactic(auto, using(crate::proofs::Signs::order_starts))]
fn sees_order(cursor: &Cursor<'_>) -> bool
    ensures { result ≡ starts class_of order_codes cursor.now }
{
    cursor.sees(Sign::Greater) || cursor.sees(Sign::LessEqual) || cursor.sees(Sign::GreaterEqual)
}

// Whether `is` or `as` comes.
#[tactic(auto, using(crate::proofs::Signs::test_starts))]
fn sees_type_test(cursor: &Cursor<'_>) -> bool
    ensures { result ≡ starts class_of test_codes cursor.now }
{
    cursor.sees_word(Word::Is) || cursor.sees_word(Word::As)
}

// Whether a comparison comes that may stand behind this operand.
#[tactic(auto, using(crate::proofs::Signs::compare_starts))]
fn compares_behind(cursor: &Cursor<'_>, tree: &Operand) -> bool
    ensures { result ≡ starts class_of (codes_behind (view.operand tree.now)) cursor.now }
{
    if cursor.sees(Sign::Less) && leaves_less(tree) {
        return true;
    }
    if sees_order(cursor) && leaves(COMPARES, tree) {
        return true;
    }
    sees_type_test(cursor) && leaves(COMPARES, tree) && !is_bare(tree)
}

/// Whether a comparison comes, or the operand behind `>`, that may stand behind this operand.
#[tactic(auto, using(crate::proofs::Signs::compare_high, crate::proofs::Signs::compare_half, crate::proofs::Signs::compare_none))]
pub fn compares(cursor: &Cursor<'_>, depth: usize, first: &OpenOperand, tall: usize) -> bool
    requires { tall ≡ height.operand_height (view.operand (first.now).0) }
    ensures same { result ≡ starts class_of (compare_codes depth (open_operand first.now)) cursor.now }
    ensures low { result ≡ true → tall < depth }
{
    if tall >= depth {
        return false;
    }
    match first.1 {
        Some(_) => sees_operand(cursor) && leaves(COMPARES, &first.0),
        None => compares_behind(cursor, &first.0),
    }
}

// Whether an operator of products or sums comes.
#[tactic(auto, using(crate::proofs::Passed::sum_starts))]
fn sees_sum(cursor: &Cursor<'_>) -> bool
    ensures { result ≡ starts class_of sum_codes cursor.now }
{
    cursor.sees(Sign::Star)
        || cursor.sees(Sign::Slash)
        || cursor.sees(Sign::TildeSlash)
        || cursor.sees(Sign::Percent)
        || cursor.sees(Sign::Plus)
        || cursor.sees(Sign::Minus)
}

// Whether an operator of shifts or bits comes.
#[tactic(auto, using(crate::proofs::Passed::bit_starts))]
fn sees_bits(cursor: &Cursor<'_>) -> bool
    ensures { result ≡ starts class_of bit_codes cursor.now }
{
    cursor.sees(Sign::ShiftLeft)
        || cursor.sees(Sign::Greater)
        || cursor.sees(Sign::Ampersand)
        || cursor.sees(Sign::Caret)
        || cursor.sees(Sign::Bar)
}

// Whether an operator of comparisons comes, `is` or `as`.
#[tactic(auto, using(crate::proofs::Passed::comparison_starts))]
fn sees_comparison(cursor: &Cursor<'_>) -> bool
    ensures { result ≡ starts class_of comparison_codes cursor.now }
{
    cursor.sees(Sign::Less) || sees_order(cursor) || sees_type_test(cursor)
}

// Whether an operator of equality, of logic or of a conditional comes.
#[tactic(auto, using(crate::proofs::Passed::choice_starts))]
fn sees_choice(cursor: &Cursor<'_>) -> bool
    ensures { result ≡ starts class_of choice_codes cursor.now }
{
    cursor.sees(Sign::EqualEqual)
        || cursor.sees(Sign::NotEqual)
        || cursor.sees(Sign::AndAnd)
        || cursor.sees(Sign::OrOr)
        || cursor.sees(Sign::Question)
}

// Whether an operator of any row comes.
#[tactic(auto, using(crate::proofs::Passed::operator_starts))]
fn sees_any_operator(cursor: &Cursor<'_>) -> bool
    ensures { result ≡ starts class_of operator_codes cursor.now }
{
    sees_sum(cursor) || sees_bits(cursor) || sees_comparison(cursor) || sees_choice(cursor)
}

/// Whether each row gives this operand alone: no half of an operator stands behind it, it is not `super` alone, and no
/// operator comes (ECMA-408, 16.20 to 16.28).
pub fn passes_rows(cursor: &Cursor<'_>, first: &OpenOperand) -> bool
    ensures { result ≡ passes_rows (open_operand first.now) cursor.now }
{
    first.1.is_none() && !is_bare(&first.0) && !sees_any_operator(cursor)
}
