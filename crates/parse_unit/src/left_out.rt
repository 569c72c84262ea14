// What the profile leaves out, by tokens alone.
ghost use Rattle.std.specs.Prelude.{◌≡◌};
ghost use Rattle.dart_syntax.specs.Syntax.{begins_body, closes_parenthesis, comes, is_async_text, left_out, makes_constant, token_left_out, word_left_out};

use dart_base::feature::Feature;
use dart_base::place::Place;
use dart_token::sign::Sign;
use dart_token::token::{Token, TokenKind};
use dart_token::word::Word;

fn makes_constant(kind: TokenKind) -> bool
    ensures { result ≡ makes_constant kind }
{
    match kind {
        TokenKind::Sign(Sign::LeftBracket) => true,
        TokenKind::Sign(Sign::LeftBrace) => true,
        TokenKind::Sign(Sign::Less) => true,
        TokenKind::Word(Word::Factory) => true,
        _ => false,
    }
}

fn begins_body(kind: TokenKind) -> bool
    ensures { result ≡ begins_body kind }
{
    match kind {
        TokenKind::Sign(Sign::LeftBrace) => true,
        TokenKind::Sign(Sign::Arrow) => true,
        TokenKind::Sign(Sign::Star) => true,
        _ => false,
    }
}

fn closes_parenthesis(kind: TokenKind) -> bool
    ensures { result ≡ closes_parenthesis kind }
{
    match kind {
        TokenKind::Sign(Sign::RightParenthesis) => true,
        _ => false,
    }
}

fn constant_comes(behind: &[Token]) -> bool
    ensures { result ≡ comes makes_constant behind.now }
{
    match behind {
        [next, ..] => makes_constant(next.kind),
        [] => false,
    }
}

fn body_comes(behind: &[Token]) -> bool
    ensures { result ≡ comes begins_body behind.now }
{
    match behind {
        [next, ..] => begins_body(next.kind),
        [] => false,
    }
}

fn is_async_text(text: &[u8]) -> bool
    ensures { result ≡ is_async_text text.now }
{
    text == b"async".as_slice() || text == b"sync".as_slice()
}

fn word_left_out(word: Word, behind: &[Token]) -> Option<Feature>
    ensures { result ≡ word_left_out word behind.now }
{
    match word {
        Word::Assert => Some(Feature::Assert),
        Word::Deferred => Some(Feature::Deferred),
        Word::Const if constant_comes(behind) => Some(Feature::Constants),
        _ => None,
    }
}

// Which feature makes the token be left out, where these stand behind it.
fn token_left_out(after_parenthesis: bool, token: &Token, behind: &[Token]) -> Option<Feature>
    ensures { result ≡ token_left_out after_parenthesis token.now.kind token.now.lexeme behind.now }
{
    match token.kind {
        TokenKind::Word(word) => word_left_out(word, behind),
        TokenKind::Identifier => {
            if after_parenthesis && is_async_text(token.lexeme.as_slice()) && body_comes(behind) {
                Some(Feature::Async)
            } else {
                None
            }
        }
        _ => None,
    }
}

/// The first token that the profile leaves out, with its place and its feature: `assert`, `deferred`, `const` before a
/// list, a map or `factory`, or what makes a function asynchronous (ECMA-408, 9 Functions and 17.17 Assert).
#[tactic(auto, unfolding(dart_syntax::specs::Syntax::left_out))]
pub fn left_out(tokens: &[Token]) -> Option<(Place, Feature)>
    ensures { result ≡ left_out tokens.now }
{
    let mut after_parenthesis = false;
    let mut rest = tokens;
    for _turn in 0..tokens.len() {
        let [token, behind @ ..] = rest else {
            return None;
        };
        if let Some(feature) = token_left_out(after_parenthesis, token, behind) {
            return Some((token.place, feature));
        }
        after_parenthesis = closes_parenthesis(token.kind);
        rest = behind;
    }
    None
}
