// Operators of one sign.
ghost use Rattle.std.specs.Prelude.{◌≡◌};
ghost use Rattle.grammar_laws.specs.Readers.{starts};
ghost use Rattle.token_codes.specs.Codes.{class_of, sign_codes};
ghost use Rattle.token_codes.specs.Leaves as spec;
ghost use Rattle.token_cursor.specs.Gives.{Gives, same};

use dart_token::sign::Sign;
use dart_tree::operator::Operator;
use token_cursor::cursor::Cursor;
use token_cursor::error::ReadFault;

/// Whether one of these signs comes.
pub fn sees_any(cursor: &Cursor<'_>, signs: &[Sign]) -> bool
    ensures { result ≡ starts class_of (sign_codes signs.now) cursor.now }
{
    for sign in signs {
        if cursor.sees(*sign) {
            return true;
        }
    }
    false
}

/// Takes this sign as an operator (ECMA-408, 16 Expressions).
#[tactic(auto, unfolding(token_codes::specs::Leaves::signed))]
pub fn signed(cursor: &mut Cursor<'_>, sign: Sign) -> Result<Operator, ReadFault>
    ensures { Gives same (spec.signed sign cursor.old) result cursor.new }
{
    let place = cursor.expect(sign)?;
    Ok(Operator::Sign(place, sign))
}

/// Takes one of these signs as an operator (ECMA-408, 16 Expressions).
pub fn one_of(cursor: &mut Cursor<'_>, signs: &[Sign]) -> Result<Operator, ReadFault>
    ensures { Gives same (spec.one_of signs.now cursor.old) result cursor.new }
{
    for sign in signs {
        if cursor.sees(*sign) {
            return signed(cursor, *sign);
        }
    }
    Err(ReadFault::Stuck)
}
