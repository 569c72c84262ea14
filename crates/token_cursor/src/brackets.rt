// Where the bracket that comes is closed, for each token of a list.
ghost use Rattle.std.specs.Prelude.{◌≡◌, ◌+◌, ◌-◌, ◌≤◌, drop, length, IfOk};
ghost use Rattle.grammar_laws.specs.Codes.{has};
ghost use Rattle.syntax_readers.specs.Combinators.{opening, closing, behind_open};
ghost use Rattle.token_cursor.specs.Brackets.{Skips, Measured};

use crate::codes::{class_of, sign_code};
use dart_token::sign::Sign;
use dart_token::token::Token;
use std::alloc::{AllocError, Global};

fn is_opening(code: u8) -> bool
    ensures { result ≡ has opening code }
{
    code == sign_code(Sign::LeftParenthesis)
        || code == sign_code(Sign::LeftBracket)
        || code == sign_code(Sign::LeftBrace)
}

fn is_closing(code: u8) -> bool
    ensures { result ≡ has closing code }
{
    code == sign_code(Sign::RightParenthesis)
        || code == sign_code(Sign::RightBracket)
        || code == sign_code(Sign::RightBrace)
}

// How many tokens there are from the token before these, as an open bracket, to behind the one that closes it.
fn skip_before(tokens: &[Token], skips: &[usize]) -> usize
    requires { Measured tokens.now skips.now }
    ensures skipped { behind_open 1 tokens.now ≡ drop (result - 1) tokens.now }
    ensures some { 1 ≤ result }
    ensures within { result ≤ length tokens.now + 1 }
{
    match tokens {
        [] => 1,
        [token, ..] => {
            let code = class_of(token);
            let inner = skips[0];
            if is_opening(code) {
                inner + skips[inner - 1]
            } else if is_closing(code) {
                2
            } else {
                inner + 1
            }
        }
    }
}

/// How many tokens there are from each token, as an open bracket, to behind the one that closes it, or to the end.
pub fn skips(alloc: Global, tokens: &[Token]) -> Result<Vec<usize>, AllocError>
    ensures { IfOk result (λ x. Skips tokens.now x.items) }
{
    let count = tokens.len();
    let mut found = vec![in alloc; 0; count]?;
    for turn in 0..count {
        let at = count - turn;
        let skip = skip_before(&tokens[at..], &found[at..]);
        found[at - 1] = skip;
    }
    Ok(found)
}
