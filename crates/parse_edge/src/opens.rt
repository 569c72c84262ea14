// The types that take what comes next.
ghost use Rattle.std.specs.Prelude.{◌≡◌, ◌≤◌};
ghost use Rattle.dart_tree.specs.View as view;
ghost use Rattle.dart_syntax.specs.Levels.{level, sign_level};
ghost use Rattle.parse_edge.specs.Opened.{opened_by};

use dart_token::sign::Sign;
use dart_tree::operator::Operator;
use dart_tree::types::{TypeArguments, TypeNode};

/// Which of the tokens that may go on in a type comes next.
#[derive(Clone, Copy, PartialEq, Eq, Drop)]
pub enum Opens {
    /// `<`
    Less,
    /// `.`
    Dot,
    /// None of them.
    Nothing,
}

/// Whether it goes on in a type (ECMA-408, 19.1 Static Types).
pub fn goes_on_in(which: Opens, of: &TypeNode) -> bool
    ensures { result ≡ opened_by which (view.type_node of.now) }
{
    match of {
        TypeNode::Dynamic(_) => match which {
            Opens::Less => true,
            Opens::Dot => false,
            Opens::Nothing => false,
        },
        TypeNode::Named {
            name: _,
            member,
            arguments,
        } => match arguments {
            TypeArguments::Omitted => match which {
                Opens::Less => true,
                Opens::Dot => member.is_none(),
                Opens::Nothing => false,
            },
            TypeArguments::Listed {
                opening: _,
                arguments: _,
                closing: _,
            } => false,
        },
    }
}

/// How tightly a sign binds, from `||` at 2 to `*` at 11; 0 where it is no binary operator (ECMA-408, 16.22 to 16.28).
pub fn sign_level(sign: Sign) -> u8
    ensures same { result ≡ sign_level sign }
    ensures small { result ≤ 11 }
{
    match sign {
        Sign::OrOr => 2,
        Sign::AndAnd => 3,
        Sign::EqualEqual | Sign::NotEqual => 4,
        Sign::Less | Sign::Greater | Sign::LessEqual | Sign::GreaterEqual => 5,
        Sign::Bar => 6,
        Sign::Caret => 7,
        Sign::Ampersand => 8,
        Sign::ShiftLeft => 9,
        Sign::Plus | Sign::Minus => 10,
        Sign::Star | Sign::Slash | Sign::TildeSlash | Sign::Percent => 11,
        _ => 0,
    }
}

/// How tightly an operator binds (ECMA-408, 16.22 to 16.28).
pub fn level(operator: Operator) -> u8
    ensures same { result ≡ level operator }
    ensures small { result ≤ 11 }
{
    match operator {
        Operator::Sign(_, sign) => sign_level(sign),
        Operator::ShiftRight(_, _) => 9,
        Operator::ShiftRightAssign(_, _) => 0,
    }
}
